// Why a stream of pieces isn't read on.
use rent_buf::IoFault;
use thiserror::Error;

/// What is wrong with the next piece of a stream (not in monoio).
#[derive(Clone, Copy, Debug, PartialEq, Eq, Error)]
pub enum BadFrame {
    /// A channel or a length isn't a number below 2^32 in its one form.
    #[error("Number")]
    Number,
    /// A length is above 65536.
    #[error("Large")]
    Large,
    /// A flag is neither 0 nor 1.
    #[error("Flag")]
    Flag,
    /// It would open one channel more than the reader keeps open.
    #[error("Channels")]
    Channels,
    /// Its channel would have more bytes than the reader keeps of one.
    #[error("Long")]
    Long,
    /// The stream ended inside it, or inside a message.
    #[error("Cut")]
    Cut,
}

/// Why a poll of a reader or a writer of messages failed (not in monoio).
#[derive(Clone, Copy, Debug, PartialEq, Eq, Error)]
pub enum FrameFault {
    /// As `BadFrame::Number`.
    #[error("Number")]
    Number,
    /// As `BadFrame::Large`.
    #[error("Large")]
    Large,
    /// As `BadFrame::Flag`.
    #[error("Flag")]
    Flag,
    /// As `BadFrame::Channels`.
    #[error("Channels")]
    Channels,
    /// As `BadFrame::Long`, or a message is longer than a writer takes.
    #[error("Long")]
    Long,
    /// As `BadFrame::Cut`.
    #[error("Cut")]
    Cut,
    /// The stream's own fault, or a write that took no byte.
    #[error("{0}")]
    Io(IoFault),
    /// Memory ran out.
    #[error("OutOfMemory")]
    OutOfMemory,
}

/// How the reading of a stream ends (not in monoio).
#[derive(Clone, Copy, Debug)]
pub enum Ending {
    /// Between messages.
    End,
    /// At a piece that is wrong.
    Fault(BadFrame),
}
