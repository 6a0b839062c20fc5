//! What a call that meets the driver came to.

/// What a call of a connection that meets the driver came to. (not in monoio)
#[derive(Clone, Copy, Debug, PartialEq, Eq)]
#[must_use]
pub enum Progress {
    /// There was nothing to do, and the driver wasn't asked; or a receive ended whose bytes the inbox takes once it is read empty.
    Idle,
    /// The operation waits. Its task is named by the turn after which another call may do more.
    Waits,
    /// The operation ended: bytes moved, the end came, or a fault, which the stream's next call answers.
    Moved,
}
