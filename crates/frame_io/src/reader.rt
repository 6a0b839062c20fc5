// A reader of messages.
ghost use Rattle.std.specs.Prelude.{◌≡◌, ◌<◌, ◌^◌, ◌++◌, ◌∷◌, [], ℕ, List, None, IfSome, IsTrue, length, vec_len, vec_capacity};
ghost use Rattle.rent_io.specs.Counts.{AfterCall};
ghost use Rattle.frame_io.specs.Decoder.{IsBounded, IsOwn, IsStop, Polled, rest_of};
ghost use Rattle.frame_io.specs.FrameReader.{IsMessageCaused, fresh_reader, standard};
ghost use Rattle.frame_io.specs.Frames.{behind, read_frames};

use crate::decoder::Decoder;
use crate::fault::FrameFault;
use crate::limits::{Limits, MOST_CHANNELS, MOST_IN_MESSAGE};
use crate::message::{Message, MessagePoll};
use rent_io::{AsyncBufRead, PollCount};
use std::alloc::Global;
use std::marker::Model;

/// From this offset on a reader isn't polled.
pub const MOST_OFFSET: u64 = 1 << 62;

/// A reader of the messages of a stream (not in monoio). A clause sees it as the stream inside, and what it keeps: the
/// bytes of its open channels, and of what is begun. The bytes of a message are copied once, from the stream's buffer.
#[derive(Drop)]
pub struct FrameReader<R> {
    inner: R,
    decoder: Decoder,
}

impl<R> Model for FrameReader<R> {
    ghost use Rattle.frame_io.specs.FrameReader.{Reading};

    ghost Value = { Reading R };

    ghost view = { λ r. record { inner = r.inner; kept = r.decoder } };
}

impl<R> FrameReader<R> {
    /// A reader that keeps at most 256 channels open, and at most 1048576 bytes of each: 256 MiB of messages that are begun
    /// (not in monoio). It takes no memory. `with_limits` sets lower limits.
    pub fn new(alloc: Global, inner: R) -> FrameReader<R>
        ensures value { result ≡ fresh_reader inner standard }
        ensures reads { (left : List ℕ) → rest_of result.kept left ≡ read_frames standard left }
    {
        let limits = Limits {
            channels: MOST_CHANNELS,
            bytes: MOST_IN_MESSAGE,
        };
        FrameReader::with_limits(alloc, inner, limits)
    }

    /// A reader that keeps as many channels open, and as many bytes of each, as `limits` says (not in monoio). It takes
    /// no memory.
    pub fn with_limits(alloc: Global, inner: R, limits: Limits) -> FrameReader<R>
        ensures value { result ≡ fresh_reader inner limits }
        ensures reads { (left : List ℕ) → rest_of result.kept left ≡ read_frames limits left }
    {
        FrameReader {
            inner,
            decoder: Decoder::new(alloc, limits),
        }
    }

    /// How many bytes the whole pieces had that were read (not in monoio). After a fault, where the wrong piece starts.
    pub fn offset(&self) -> u64
        ensures { result ≡ self.now.kept.offset }
    {
        self.decoder.offset()
    }

    /// How many channels are open (not in monoio). What a reader keeps is within its limits.
    pub fn open_channels(&self) -> usize
        ensures value { result ≡ length self.now.kept.channels }
        ensures within { IsBounded self.now.kept.limits self.now.kept.channels self.now.kept.piece self.now.kept.bytes }
    {
        self.decoder.open_channels()
    }

    /// The stream inside (not in monoio). What the reader keeps is lost.
    pub fn into_inner(self) -> R
        ensures { result ≡ self.inner }
    {
        let FrameReader { inner, decoder: _ } = self;
        inner
    }
}

impl<R: AsyncBufRead> FrameReader<R> {
    /// Makes one fill at most, and gives the next message, once its last piece is whole (not in monoio). At a fault of
    /// the stream, or if memory runs out, another poll goes on. After each other fault, and after the end, each poll
    /// answers the same again.
    pub fn poll_message(&mut self, task: u64) -> MessagePoll
        requires { self.old.kept.offset < 2 ^ 62 }
        // What is still to be read is the message, or the end, and what is still to be read after the poll.
        ensures answer { IsTrue R.tells → Polled (rest_of self.old.kept (R.reader self.old.inner).left)
            (rest_of self.new.kept (R.reader self.new.inner).left) result }
        // At an end and at a fault of a piece the reader stops, so that its offset is that of what was to be read.
        ensures stop { IsStop self.new.kept.stop result }
        ensures cause { IsMessageCaused R.tells task (R.reader self.old.inner) (R.reader self.new.inner) result }
        ensures counts { AfterCall None (R.reader self.old.inner).counts (R.reader self.new.inner).counts }
    {
        if let Some(answer) = self.decoder.ready() {
            return answer;
        }
        match self.inner.poll_fill(task) {
            PollCount::Ready(Ok(n)) => {
                if n == 0 {
                    return self.decoder.end();
                }
                self.feed()
            }
            PollCount::Ready(Err(fault)) => MessagePoll::Fault(FrameFault::Io(fault)),
            PollCount::Pending => MessagePoll::Pending,
            PollCount::Again => MessagePoll::Again,
        }
    }

    /// Polls until the reading ends, `polls` times at most, and adds the messages to a list (not in monoio). Whatever the
    /// stream answered, the messages of the list and then those that are still to be read stay the same. It ends with
    /// `End`, with a fault, or with `Again`, where the polls or the offsets below 2^62 are used up.
    pub fn drive(&mut self, messages: &mut Vec<Message>, task: u64, polls: u64) -> MessagePoll
        ensures run { IsTrue R.tells → behind messages.new.items (rest_of self.new.kept (R.reader self.new.inner).left)
            ≡ behind messages.old.items (rest_of self.old.kept (R.reader self.old.inner).left) }
        ensures end { IsTrue R.tells → Polled (rest_of self.new.kept (R.reader self.new.inner).left)
            (rest_of self.new.kept (R.reader self.new.inner).left) result }
    {
        for _ in 0..polls {
            if self.offset() >= MOST_OFFSET {
                return MessagePoll::Again;
            }
            if messages.reserve(1).is_err() {
                return MessagePoll::Fault(FrameFault::OutOfMemory);
            }
            match self.poll_message(task) {
                MessagePoll::Message(message) => keep(messages, message),
                MessagePoll::Pending | MessagePoll::Again => {}
                MessagePoll::End => return MessagePoll::End,
                MessagePoll::Fault(fault) => return MessagePoll::Fault(fault),
            }
        }
        MessagePoll::Again
    }

    // Takes bytes of what is buffered.
    fn feed(&mut self) -> MessagePoll
        requires some { 0 < length (R.buffered self.old.inner) }
        requires stop { self.old.kept.stop ≡ None }
        requires lacks { IfSome self.old.kept.piece (λ p. 0 < p.lacks) }
        ensures answer { IsTrue R.tells → Polled (rest_of self.old.kept (R.reader self.old.inner).left)
            (rest_of self.new.kept (R.reader self.new.inner).left) result }
        ensures stop { IsStop self.new.kept.stop result }
        ensures own { IsOwn result (IsTrue R.tells → length (R.reader self.new.inner).left < length (R.reader self.old.inner).left) }
        ensures counts { (R.reader self.new.inner).counts ≡ (R.reader self.old.inner).counts }
    {
        let (count, answer) = self.decoder.feed(self.inner.buffered());
        self.inner.consume(count);
        answer
    }
}

// Adds a message to a list that has room for it.
fn keep(messages: &mut Vec<Message>, message: Message)
    requires { vec_len messages.old < vec_capacity messages.old }
    ensures { messages.new.items ≡ messages.old.items ++ message ∷ [] }
{
    match messages.push(message) {
        Ok(()) => {}
        Err(_) => {}
    }
}
