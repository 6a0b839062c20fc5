//! Tasks of an executor that other threads wake: the wakers that a sleeper drained make their tasks ready.
#![tactic(auto)]

mod wakes;

pub use wakes::{turn_parked, wake_all, wake_parked};
