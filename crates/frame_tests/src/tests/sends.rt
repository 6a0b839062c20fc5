// Messages that are sent, and the bytes that come of them.
use super::rows::STANDARD;
use super::stage::{are, read};
use frame_io::{FrameFault, FrameWriter, MOST_IN_MESSAGE, Message};
use rent_buf::{ByteList, IoFault};
use rent_io::{AsyncWriteRent, PollCount, ScriptedStream, Sink as _, SinkDone, SinkPoll, Turned1};
use std::alloc::{AllocError, Global};
use std::test::Fail;

// A writer of messages, of which a test sees plain values.
trait Post {
    // Sends a message, and answers why it was refused.
    fn send(&mut self, channel: u32, bytes: ByteList) -> Option<FrameFault>;

    // A poll of a flush: whether it is done, or a fault.
    fn flush(&mut self) -> Result<bool, FrameFault>;

    // Polls that tell a pause, of flushes until one is done, and then of closes.
    fn polls(&mut self, answers: &mut Vec<PollCount>) -> Result<(), AllocError>;

    // What is buffered.
    fn held(&self) -> &[u8];
}

impl<W: AsyncWriteRent> Post for FrameWriter<W> {
    fn send(&mut self, channel: u32, bytes: ByteList) -> Option<FrameFault> {
        match self.poll_send(Message { channel, bytes }, 0) {
            SinkPoll::Ready(Err(fault)) => Some(fault),
            _ => None,
        }
    }

    fn flush(&mut self) -> Result<bool, FrameFault> {
        match self.poll_flush(0) {
            SinkDone::Ready(Ok(())) => Ok(true),
            SinkDone::Ready(Err(fault)) => Err(fault),
            SinkDone::Pending => Ok(false),
        }
    }

    fn polls(&mut self, answers: &mut Vec<PollCount>) -> Result<(), AllocError> {
        let mut flushed = false;
        for _ in 0..9 {
            let answer = if flushed {
                self.close_once(0)
            } else {
                self.flush_once(0)
            };
            answers.push(answer)?;
            if let PollCount::Ready(Ok(_)) = answer {
                if flushed {
                    return Ok(());
                }
                flushed = true;
            }
        }
        Ok(())
    }

    fn held(&self) -> &[u8] {
        self.buffered()
    }
}

// Sends messages, and flushes until it is done: how many faults came.
fn send_all<P: Post>(alloc: Global, post: &mut P, messages: &[(u32, &[u8])]) -> Result<u64, Fail> {
    for &(channel, bytes) in messages {
        let bytes = ByteList::from_vec(bytes.to_vec(alloc)?);
        if post.send(channel, bytes).is_some() {
            return Err(Fail::from("refused"));
        }
    }
    let mut faults: u64 = 0;
    for _ in 0..99 {
        match post.flush() {
            Ok(true) => return Ok(faults),
            Ok(false) => {}
            Err(_) => faults = faults.saturating_add(1),
        }
    }
    Err(Fail::from("it isn't flushed"))
}

// A writer to a stream that answers by a script.
fn writer(alloc: Global, script: &[Turned1]) -> Result<FrameWriter<ScriptedStream>, AllocError> {
    let stream = ScriptedStream::new(alloc, ByteList::new(alloc), script.to_vec(alloc)?);
    Ok(FrameWriter::new(alloc, stream))
}

// What the row shows, the script, the messages, what is delivered, and how many faults come.
#[rattlefmt::skip]
const ROWS: &[(&str, &[Turned1], &[(u32, &[u8])], &[u8], u64)] = &[
    ("a short write", &[Turned1::Grant(3)], &[(5, b"ab"), (6, b"")], b"\x05\x02\x01ab\x06\x00\x01", 0),
    ("a fault, and a write of none", &[Turned1::Grant(3), Turned1::Fault(5), Turned1::Grant(0), Turned1::Pause],
        &[(5, b"ab"), (6, b"")], b"\x05\x02\x01ab\x06\x00\x01", 2),
    ("numbers of two and of five bytes", &[], &[(133, b""), (4294967295, b"c")], b"\x85\x01\x00\x01\xff\xff\xff\xff\x0f\x01\x01c", 0),
    ("nothing", &[], &[], b"", 0),
];

#[test]
fn messages_are_sent(rt: HostRuntime) -> Result<(), Fail> {
    for &(name, script, messages, want, wanted) in ROWS {
        let mut writer = writer(rt.alloc(), script)?;
        let faults = send_all(rt.alloc(), &mut writer, messages)?;
        let stream = writer.into_inner();
        assert_eq!(rt;
            (stream.delivered(), faults),
            (want, wanted),
            "in the row {name:?}"
        );
    }
    Ok(())
}

// What the row shows, the script, and what polls of a writer of one message answer.
#[rattlefmt::skip]
const POLLS: &[(&str, &[Turned1], &[PollCount])] = &[
    ("all is written", &[], &[PollCount::Again, PollCount::Ready(Ok(0)), PollCount::Ready(Ok(0))]),
    ("a short write, a pause and an interrupt", &[Turned1::Grant(2), Turned1::Pause, Turned1::Interrupt],
        &[PollCount::Again, PollCount::Pending, PollCount::Again, PollCount::Again, PollCount::Ready(Ok(0)), PollCount::Ready(Ok(0))]),
    ("a pause of the flush, and a fault of the close", &[Turned1::Grant(9), Turned1::Pause, Turned1::Grant(0), Turned1::Fault(5)],
        &[PollCount::Again, PollCount::Pending, PollCount::Ready(Ok(0)), PollCount::Ready(Err(IoFault::Os(5))), PollCount::Ready(Ok(0))]),
];

#[test]
fn polls_tell_a_pause(rt: HostRuntime) -> Result<(), Fail> {
    for &(name, script, want) in POLLS {
        let mut writer = writer(rt.alloc(), script)?;
        let mut answers = Vec::new(rt.alloc());
        let refused = writer.send(5, ByteList::from_vec(b"ab".to_vec(rt.alloc())?));
        writer.polls(&mut answers)?;
        assert_eq!(rt;
            (refused, answers.as_slice(), writer.get_ref().delivered()),
            (None, want, b"\x05\x02\x01ab".as_slice()),
            "in the row {name:?}"
        );
    }
    Ok(())
}

// So many bytes.
fn sevens(alloc: Global, count: usize) -> Result<Vec<u8>, AllocError> {
    let mut bytes = Vec::new(alloc);
    for _ in 0..count {
        bytes.push(7)?;
    }
    Ok(bytes)
}

// Sends so many bytes: why it was refused, and how many bytes are buffered.
fn sent<P: Post>(
    alloc: Global,
    post: &mut P,
    count: usize,
) -> Result<(Option<FrameFault>, usize), Fail> {
    let refused = post.send(5, ByteList::from_vec(sevens(alloc, count)?));
    Ok((refused, post.held().len()))
}

#[test]
fn a_long_message_is_refused(rt: HostRuntime) -> Result<(), Fail> {
    let mut writer = writer(rt.alloc(), &[])?;
    assert_eq!(rt;
        sent(rt.alloc(), &mut writer, MOST_IN_MESSAGE + 1)?,
        (Some(FrameFault::Long), 0)
    );
    assert_eq!(rt;
        sent(rt.alloc(), &mut writer, MOST_IN_MESSAGE)?,
        (None, 1048656)
    );
    Ok(())
}

#[test]
fn a_message_of_two_pieces_is_read_again(rt: HostRuntime) -> Result<(), Fail> {
    let mut writer = writer(rt.alloc(), &[])?;
    assert_eq!(rt; sent(rt.alloc(), &mut writer, 65537)?, (None, 65545));
    let bytes = sevens(rt.alloc(), 65537)?;
    let mut messages = Vec::new(rt.alloc());
    let ended = read(rt.alloc(), STANDARD, writer.held(), &mut messages)?;
    assert_eq!(rt;
        (ended, are(messages.as_slice(), &[(5, bytes.as_slice())])),
        ((None, 65545), true)
    );
    Ok(())
}
