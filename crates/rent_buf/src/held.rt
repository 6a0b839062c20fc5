//! What a request holds: one buffer, the parts of a vector of buffers, or nothing.
use crate::plain::BufSpec;
use crate::plain_parts::PartsSpec;

/// A buffer, the parts of a vector of buffers, or nothing (not in monoio). A contract sees it by the
/// same cases, over what it sees of each.
#[derive(Debug, Drop, PartialEq, Eq)]
pub enum Held<B, V> {
    /// One buffer.
    One(B),
    /// The parts of a vector of buffers.
    Parts(V),
    /// Nothing: the request has no buffer.
    Nothing,
}

/// What a request held when it is returned, as plain data (not in monoio).
pub type HeldBuf = Held<BufSpec, PartsSpec>;
