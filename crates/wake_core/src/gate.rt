//! What a sender waits at in the middle of its send.
use std::sync::Wait;
use std::time::Clock;

/// Where a sender pauses between its push and its reading of the flag, outside the lock. (not in monoio)
pub trait Gate: Sync {
    /// Returns when the sender with this number may go on and read the flag. (not in monoio)
    fn pause<R: Wait + Clock>(&self, rt: &R, sender: u64);
}

/// The gate that lets each sender pass at once. (not in monoio)
#[derive(Clone, Copy, Debug, PartialEq, Eq)]
pub struct OpenGate;

impl Gate for OpenGate {
    fn pause<R: Wait + Clock>(&self, _rt: &R, _sender: u64) {}
}
