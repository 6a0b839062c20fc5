//! The state that the threads of a driver share, its lock, and the senders and the sleeper that work on it.
#![tactic(auto)]

pub mod bell;
pub(crate) mod calls;
pub mod cell;
pub mod crew;
pub mod fault;
pub mod gate;
pub mod law;
pub(crate) mod locked;
pub mod park;
pub mod remote;
pub mod senders;
pub mod sleeper;
pub mod state;
pub mod unpark;
pub mod waker;
pub mod work;

pub use bell::{Bell, Lookout};
pub use cell::WakeCell;
pub use crew::{Parks, Sends, StartError, with_senders};
pub use fault::OutOfMemory;
pub use gate::{Gate, OpenGate};
pub use park::{MOST_MILLIS, SenderError, Settled, Sleeper, Woken};
pub use remote::RemoteSender;
pub use senders::SenderStage;
pub use sleeper::SleeperStage;
pub use state::{MAX_PUSHED, MAX_SENDERS, PUSH_PARTS, WakeState};
pub use unpark::{Unpark, UnparkError, UnparkHandle};
pub use waker::{Waker, WakerList};
pub use work::{Work, with_sleeper};
