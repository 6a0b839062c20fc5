//! Slots for operations in flight: a slab that chooses the keys, and what one operation goes through.
#![tactic(auto)]

pub mod lifecycle;
pub mod slab;

pub use lifecycle::{AfterComplete, AfterDrop, AfterPoll, Lifecycle};
pub use slab::{InsertError, MAX_LIVE, OutOfMemory, Ref, Slab};
