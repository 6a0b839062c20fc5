// A reader of messages, of which a test sees plain values.
use frame_io::{FrameFault, FrameReader, Limits, MOST_OFFSET, Message, MessagePoll};
use rent_buf::{ByteList, IoFault};
use rent_io::AsyncBufRead;
use std::alloc::Global;
use std::test::Fail;

// What a poll answered.
pub(super) enum Said {
    // A message.
    Given(u32, ByteList),
    // The end.
    End,
    // Nothing yet.
    Waits,
    // A fault.
    Fault(FrameFault),
    // The offset is too great.
    Unmet,
}

// A reader.
pub(super) trait Stage {
    // A poll for a message.
    fn poll(&mut self) -> Said;

    // The offset.
    fn at(&self) -> u64;
}

impl<R: AsyncBufRead> Stage for FrameReader<R> {
    fn poll(&mut self) -> Said {
        if self.offset() >= MOST_OFFSET {
            return Said::Unmet;
        }
        match self.poll_message(0) {
            MessagePoll::Message(Message { channel, bytes }) => Said::Given(channel, bytes),
            MessagePoll::End => Said::End,
            MessagePoll::Pending | MessagePoll::Again => Said::Waits,
            MessagePoll::Fault(fault) => Said::Fault(fault),
        }
    }

    fn at(&self) -> u64 {
        self.offset()
    }
}

// How a reading ended, and its offset.
pub(super) type Ended = (Option<FrameFault>, u64);

// Polls a reader until it ends, and adds its messages to a list. It goes on behind the stream's own faults, which it
// counts.
pub(super) fn read_all<S: Stage>(
    stage: &mut S,
    messages: &mut Vec<(u32, ByteList)>,
    faults: &mut u64,
) -> Result<Ended, Fail> {
    for _ in 0..100000 {
        match stage.poll() {
            Said::Given(channel, bytes) => messages.push((channel, bytes))?,
            Said::End => return Ok((None, stage.at())),
            Said::Waits => {}
            Said::Fault(FrameFault::Io(IoFault::Os(_))) => *faults = faults.saturating_add(1),
            Said::Fault(fault) => return Ok((Some(fault), stage.at())),
            Said::Unmet => return Err(Fail::from("the offset is too great")),
        }
    }
    Err(Fail::from("it doesn't end"))
}

// Whether these are the messages.
pub(super) fn are(messages: &[(u32, ByteList)], want: &[(u32, &[u8])]) -> bool {
    if messages.len() != want.len() {
        return false;
    }
    for (message, want) in messages.iter().zip(want) {
        if message.0 != want.0 || message.1.as_slice() != want.1 {
            return false;
        }
    }
    true
}

// What a reader with these limits gives of bytes.
pub(super) fn read(
    alloc: Global,
    limits: Limits,
    bytes: &[u8],
    messages: &mut Vec<(u32, ByteList)>,
) -> Result<Ended, Fail> {
    let mut reader = FrameReader::with_limits(alloc, bytes, limits);
    let mut faults = 0;
    read_all(&mut reader, messages, &mut faults)
}
