//! Handles by their numbers, and who holds each: its user, and operations.
#![tactic(auto)]

pub mod as_fd;
pub mod shared_fd;
pub mod table;

pub use as_fd::{AsReadFd, AsWriteFd};
pub use shared_fd::{SharedFd, SharedFdWrapper};
pub use table::{HandleTable, Holders, MAX_HOLDS, OutOfMemory, Released};
