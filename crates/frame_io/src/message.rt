// Messages, and what a poll for one answers.
use crate::fault::FrameFault;
use rent_buf::ByteList;

/// A message on a channel (not in monoio).
#[derive(Debug, Drop)]
pub struct Message {
    /// The channel's number.
    pub channel: u32,
    /// The bytes.
    pub bytes: ByteList,
}

/// The answer of a poll for a message (not in monoio).
#[derive(Debug, Drop)]
#[must_use]
pub enum MessagePoll {
    /// The next message.
    Message(Message),
    /// The stream ended between messages.
    End,
    /// There is no message yet. The task is woken when another poll may do more.
    Pending,
    /// There is no message yet. Another poll may be made at once.
    Again,
    /// A fault came.
    Fault(FrameFault),
}
