//! Why a connection ended, and why a server refused a call.
use driver_core::SubmitFault;
use rent_buf::IoFault;
use thiserror::Error;

/// Why a connection, or an accept, ended before its time. (not in monoio)
#[derive(Clone, Copy, Debug, PartialEq, Eq, Error)]
pub enum NetFault {
    /// A receive, a send or an accept failed so.
    #[error("{0}")]
    Io(IoFault),
    /// The driver refused an operation so.
    #[error("{0}")]
    Refused(SubmitFault),
    /// The driver's user doesn't hold the handle.
    #[error("the handle isn't held")]
    NotHeld,
    /// The driver has submitted `MOST_GIVEN` operations, and takes no further one.
    #[error("no operation is left to be submitted")]
    Exhausted,
    /// Its deadline came.
    #[error("its time is over")]
    Late,
}

/// Why a server refused a call, or what a turn met. Nothing is lost by it. (not in monoio)
#[derive(Clone, Copy, Debug, PartialEq, Eq, Error)]
pub enum ServerFault {
    /// The system refused it, with this error number: of a port that is taken 98.
    #[error("os error {0}")]
    Os(u16),
    /// Memory ran out.
    #[error("OutOfMemory")]
    OutOfMemory,
    /// As many connections are open as there may be.
    #[error("too many connections")]
    TooMany,
    /// It listens already.
    #[error("the server listens already")]
    Listens,
    /// An accept failed so. The server accepts again once a connection has ended, or in a later turn at a later moment.
    #[error("accept: {0}")]
    Accept(NetFault),
    /// 2^62 turns were made or connections begun: none is left.
    #[error("no turn or connection is left")]
    Exhausted,
}
