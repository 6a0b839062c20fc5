//! The readiness driver: operations over an object whose calls don't wait, the bits of its handles, and who waits for them.
#![tactic(auto)]

pub mod due;
pub mod legacy;
pub mod mem_io;
pub mod non_block;
pub mod polling;
pub mod readiness;
pub mod ready;
pub mod records;
pub mod registry;
pub mod scheduled_io;
pub mod sockets;
pub mod waits;

pub use driver_core::{CallAnswer, Calls};
pub use legacy::LegacyDriver;
pub use mem_io::MemIo;
pub use non_block::{NonBlock, NonBlockError, Report, Reports};
pub use ready::{Direction, Interest, RW_INTERESTS, Ready};
pub use records::{Record, Records};
pub use registry::Registry;
pub use scheduled_io::{ScheduledIo, Waiter};
pub use sockets::Sockets;
