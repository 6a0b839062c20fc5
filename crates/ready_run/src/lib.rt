//! Runs of events on the readiness driver over handles in memory, with the replies of the specification machine.
#![tactic(auto)]

mod inner;
pub mod session;

pub use session::ReadySession;
