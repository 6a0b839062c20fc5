//! Cancel groups: which operations a canceller cancels, and whether it has canceled.
#![tactic(auto)]

mod group;
pub mod groups;

pub use groups::{CancelHandle, Canceller, Groups};
