//! Why a call on buffers, or a transfer of their bytes, failed.
use std::alloc::{AllocError, AllocFailed};
use thiserror::Error;

/// Memory ran out (not in monoio, which aborts). A call that answers this has changed nothing.
#[derive(Clone, Copy, Debug, PartialEq, Eq, Error)]
#[error("OutOfMemory")]
pub struct OutOfMemory;

impl From<AllocError> for OutOfMemory {
    fn from(_: AllocError) -> Self {
        OutOfMemory
    }
}

impl<T: Drop> From<AllocFailed<T>> for OutOfMemory {
    fn from(_: AllocFailed<T>) -> Self {
        OutOfMemory
    }
}

/// Why a transfer of bytes failed (monoio: `std::io::Error`, of which these are the causes that its
/// traits name).
#[derive(Clone, Copy, Debug, PartialEq, Eq, Error)]
pub enum IoFault {
    /// The system refused the call, with this error number.
    #[error("os error {0}")]
    Os(u16),
    /// The input ended before a buffer was full.
    #[error("failed to fill whole buffer")]
    UnexpectedEof,
    /// A write took no byte of what was left to write.
    #[error("failed to write whole buffer")]
    WriteZero,
    /// The bytes that were read are not text.
    #[error("stream did not contain valid UTF-8")]
    InvalidData,
    /// A stream that is given refused to be read.
    #[error("ReadFault")]
    ReadFault,
    /// A stream that is given refused to be written.
    #[error("WriteFault")]
    WriteFault,
    /// Memory ran out.
    #[error("OutOfMemory")]
    OutOfMemory,
}

/// What a transfer answers: how much it moved, or why it failed, and the buffer, which comes back
/// either way (monoio: `BufResult`).
pub type BufResult<N, T> = (Result<N, IoFault>, T);
