//! What a finished entry leaves.

use crate::request::Outcome;

/// A completion. (io_uring: a completion queue entry, without its flags)
#[derive(Clone, Copy, Debug, PartialEq, Eq)]
pub struct Completion {
    /// The entry's data word.
    pub word: u64,
    /// The entry's serial.
    pub serial: u64,
    /// How the entry ended.
    pub outcome: Outcome,
}
