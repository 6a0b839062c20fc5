//! Runs of events on the completion driver or the readiness driver, and all that the program does, over any source and sink.
#![tactic(auto)]

pub mod command;
pub mod generated;
mod input;
mod output;
mod relays;
pub mod session;
mod stepping;
mod tasks;
pub mod top;
mod trace;
pub mod usage;
pub mod wake;

pub use driver_core::{RunError, Tokens};
pub use event_text::{LinesError, read_events, write_event, write_reply};
pub use input::MOST_INPUT;
pub use output::{write_last, write_number};
pub use session::Session;
pub use top::{Kept, Status, Stop};
pub use wake::wake_all;
