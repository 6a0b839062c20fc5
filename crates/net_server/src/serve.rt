//! What a user writes: a state that meets the bytes of one connection.
use net_stream::{Inbox, Outbox};
use rent_buf::OutOfMemory;
use std::alloc::Global;

/// What a state says of its connection. (not in monoio)
#[derive(Clone, Copy, Debug, PartialEq, Eq)]
#[must_use]
pub enum Served {
    /// It goes on.
    Open,
    /// It ends: nothing more is read, and it is closed once all that was written is sent.
    Done,
}

/// A state of one connection. It meets the connection's bytes alone, and never the driver. (not in monoio; tokio's `Service` is near)
pub trait Serve: Drop + Sized {
    /// The state of a connection that was accepted. If memory runs out, the connection waits, and it is asked again in a later turn.
    fn new(alloc: Global) -> Result<Self, OutOfMemory>;

    /// Reads what came, and writes what is to go. It is called when something came or went, and again at once where it read or wrote
    /// something. The task is for the calls of the two boxes.
    ///
    /// The inbox takes in more once all that came was read: a state that waits for more than came keeps what it has seen itself. A fault
    /// of the connection isn't shown here: it ends the connection.
    fn serve(&mut self, inbox: &mut Inbox, outbox: &mut Outbox, task: u64) -> Served;
}
