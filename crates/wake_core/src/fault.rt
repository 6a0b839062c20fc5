//! Running out of memory.
use thiserror::Error;

/// Memory ran out. The call changed nothing. (not in monoio)
#[derive(Clone, Copy, Debug, PartialEq, Eq, Error)]
#[error("OutOfMemory")]
pub struct OutOfMemory;
