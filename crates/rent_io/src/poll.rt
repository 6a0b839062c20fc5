// What a poll answers.
use rent_buf::IoFault;

/// The answer of a poll that was given a buffer. The buffer comes back in each (not in monoio).
#[derive(Debug, Drop)]
#[must_use]
pub enum PollBuf<T> {
    /// So many bytes moved, or a fault came.
    Ready(Result<usize, IoFault>, T),
    /// Nothing moved. The task is woken when another poll may do more.
    Pending(T),
    /// Nothing moved. Another poll may be made at once.
    Again(T),
}

/// The answer of a poll that was given no buffer (not in monoio).
#[derive(Clone, Copy, Debug, PartialEq, Eq)]
#[must_use]
pub enum PollCount {
    /// It is done, with a number, or a fault came.
    Ready(Result<u64, IoFault>),
    /// It isn't done. The task is woken when another poll may do more.
    Pending,
    /// It isn't done. Another poll may be made at once.
    Again,
}

/// The answer of a poll of a state, which the poll took (not in monoio).
#[derive(Debug, Drop)]
#[must_use]
pub enum Step<S, R> {
    /// It is done.
    Ready(R),
    /// It isn't done, and here it is again. The task is woken when another poll may do more.
    Pending(S),
    /// It isn't done, and here it is again. Another poll may be made at once.
    Again(S),
}
