//! Streams over a driver: a connection owns the bytes that came at a handle and those that are to go, streams meet only these, and its
//! calls `receive` and `send` meet the driver.
#![tactic(auto)]

pub mod connection;
pub mod inbox;
pub mod incoming;
pub mod listener;
pub mod outbox;
pub mod outgoing;
pub mod progress;
mod ready;
mod tally;

pub use connection::Connection;
pub use inbox::Inbox;
pub use listener::{Accepted, Listener};
pub use outbox::Outbox;
pub use progress::Progress;
