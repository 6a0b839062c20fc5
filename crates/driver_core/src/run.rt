//! Why a run of events gave no replies.
use rent_buf::OutOfMemory;
use std::alloc::AllocError;
use thiserror::Error;

/// Why a run gave no replies. (not in monoio)
#[derive(Clone, Copy, Debug, PartialEq, Eq, Error)]
pub enum RunError {
    /// Memory ran out.
    #[error("OutOfMemory")]
    OutOfMemory,
}

impl From<OutOfMemory> for RunError {
    fn from(_: OutOfMemory) -> RunError {
        RunError::OutOfMemory
    }
}

impl From<AllocError> for RunError {
    fn from(_: AllocError) -> RunError {
        RunError::OutOfMemory
    }
}
