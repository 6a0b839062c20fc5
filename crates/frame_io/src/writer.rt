// A writer of messages.
ghost use Rattle.std.specs.Prelude.{◌≡◌, ◌<◌, ◌≤◌, ◌++◌, [], IsTrue, IfErr, OnOk, OnErr, None, length};
ghost use Rattle.rent_io.specs.Counts.{AfterCall, Rose};
ghost use Rattle.rent_io.specs.ItemSink.{IsSent, IsDone, CausesDone};
ghost use Rattle.rent_io.specs.declared.sink.SinkPoll.TheVariants.{Ready};
ghost use Rattle.rent_io.specs.Writer.{CountsDone, EndsStay};
ghost use Rattle.stream_util.specs.BufWriter.{Pushes};
ghost use Rattle.frame_io.specs.FrameWriter.{Drives, Ends, FailsBy, IsCounted, IsPushCounted, IsStuck, PassesOn, Sends, IfShut};
ghost use Rattle.frame_io.specs.FrameWriter.{counts_over, fresh_writer, sink_over};
ghost use Rattle.frame_io.specs.Written.{pieces_of_all, sent_with};

use crate::encode::append_pieces;
use crate::fault::FrameFault;
use crate::limits::MOST_IN_MESSAGE;
use crate::message::Message;
use rent_buf::{IoFault, Slice};
use rent_io::{AsyncWriteRent, PollBuf, PollCount, Sink, SinkDone, SinkPoll};
use std::alloc::Global;
use std::collections::VecDeque;
use std::marker::Model;
use std::mem;

/// A writer of messages to a stream (not in monoio). A clause sees it as the stream inside, and the bytes of pieces that
/// are buffered: it buffers the messages that are sent until they are flushed.
#[derive(Drop)]
pub struct FrameWriter<W> {
    inner: W,
    buf: Vec<u8>,
    // How many bytes at its start were written.
    sent: usize,
    // How many messages were refused, how many writes took bytes, and how many messages were taken.
    refused: u64,
    moved: u64,
    sends: u64,
}

impl<W> Model for FrameWriter<W> {
    ghost use Rattle.std.specs.Prelude.{◌≤◌, drop, length};
    ghost use Rattle.frame_io.specs.FrameWriter.{Writing};

    ghost Value = { Writing W };

    ghost view = { λ s. record {
      inner = s.inner;
      held = drop s.sent s.buf.items;
      refused = s.refused;
      moved = s.moved;
      sends = s.sends;
    } };

    ghost invariant = { λ s. s.sent ≤ length s.buf.items };
}

impl<W> FrameWriter<W> {
    /// A writer with nothing buffered (not in monoio). It takes no memory.
    pub fn new(alloc: Global, inner: W) -> FrameWriter<W>
        ensures { result ≡ fresh_writer inner }
    {
        FrameWriter {
            inner,
            buf: Vec::new(alloc),
            sent: 0,
            refused: 0,
            moved: 0,
            sends: 0,
        }
    }

    /// The bytes of pieces that are buffered (not in monoio).
    pub fn buffered(&self) -> &[u8]
        ensures { result.now ≡ self.now.held }
    {
        &self.buf.as_slice()[self.sent..]
    }

    /// The stream inside, lent (not in monoio).
    pub fn get_ref(&self) -> &W
        ensures { result.now ≡ self.now.inner }
    {
        &self.inner
    }

    // Buffers the pieces of a message, which stays with its owner.
    #[tactic(auto, using(crate::proofs::Encoded::held_behind))]
    fn buffer(&mut self, message: &Message) -> Result<(), FrameFault>
        ensures pieces { Sends self.old self.new message.now (Ready result) }
        ensures inner { self.new.inner ≡ self.old.inner }
        ensures moved { self.new.moved ≡ self.old.moved }
        ensures stays { self.old.refused ≤ self.new.refused }
        ensures ok { OnOk result (Rose self.old.sends self.new.sends × (self.new.refused ≡ self.old.refused)) }
        ensures err { OnErr result (Rose self.old.refused self.new.refused × (self.new.sends ≡ self.old.sends)) }
    {
        if message.bytes.len() > MOST_IN_MESSAGE {
            self.refused = self.refused.saturating_add(1);
            return Err(FrameFault::Long);
        }
        match append_pieces(&mut self.buf, message.channel, message.bytes.as_slice()) {
            Ok(()) => {
                self.sends = self.sends.saturating_add(1);
                Ok(())
            }
            Err(_) => {
                self.refused = self.refused.saturating_add(1);
                Err(FrameFault::OutOfMemory)
            }
        }
    }

    /// The stream inside (not in monoio). What is buffered is lost.
    pub fn into_inner(self) -> W
        ensures { result ≡ self.inner }
    {
        let FrameWriter {
            inner,
            buf: _,
            sent: _,
            refused: _,
            moved: _,
            sends: _,
        } = self;
        inner
    }
}

impl<W: AsyncWriteRent> FrameWriter<W> {
    /// Sends the messages of a list in order, and then flushes until that is done, `polls` polls at most (not in monoio).
    /// Whatever the stream answers, the bytes that it delivered, those that are buffered and the pieces of the messages
    /// that are left in the list, joined, stay the same. A message leaves the list once it is buffered: one that is
    /// refused, with `Long` or `OutOfMemory`, stays its first. A fault of the stream comes as `poll_flush` has it.
    /// `Pending` means that the polls are used up.
    #[tactic(auto, using(crate::proofs::Sending::pushed_run, crate::proofs::Sending::drive_ends))]
    pub fn drive(
        &mut self,
        messages: &mut VecDeque<Message>,
        task: u64,
        polls: u64,
    ) -> SinkDone<FrameFault>
        ensures run { IsTrue W.tells → sent_with (W.writer self.new.inner).delivered self.new.held messages.new.items
            ≡ sent_with (W.writer self.old.inner).delivered self.old.held messages.old.items }
        ensures end { Drives (sink_over (W.writer self.old.inner) self.old) (sink_over (W.writer self.new.inner) self.new)
            self.new.held messages.new.items result }
    {
        if let Err(fault) = self.buffer_all(messages) {
            return SinkDone::Ready(Err(fault));
        }
        for _ in 0..polls {
            match self.poll_flush(task) {
                SinkDone::Ready(outcome) => return SinkDone::Ready(outcome),
                SinkDone::Pending => {}
            }
        }
        SinkDone::Pending
    }

    // Buffers the messages of a list, until one is refused, which stays its first.
    #[tactic(auto, using(crate::proofs::Sending::first_is, crate::proofs::Sending::one_more_sent, crate::proofs::Sending::stuck_first))]
    fn buffer_all(&mut self, messages: &mut VecDeque<Message>) -> Result<(), FrameFault>
        ensures joined { self.new.held ++ pieces_of_all messages.new.items ≡ self.old.held ++ pieces_of_all messages.old.items }
        ensures inner { self.new.inner ≡ self.old.inner }
        ensures moved { self.new.moved ≡ self.old.moved }
        ensures ok { OnOk result (messages.new.items ≡ []) }
        ensures stays { self.old.refused ≤ self.new.refused }
        ensures err { IfErr result (λ fault. IsStuck messages.new.items fault × Rose self.old.refused self.new.refused) }
    {
        while let Some(message) = messages.front() {
            self.buffer(message)?;
            messages.pop_front();
        }
        Ok(())
    }

    /// Writes what is buffered, one write a poll, and then flushes the stream inside, as `poll_flush` does, which doesn't tell
    /// a pause from a poll that got on (not in monoio). At `Pending` the stream paused, and wakes the task; nothing was
    /// written. At `Again` bytes were written, or the stream answered `Again`: another poll may be made at once.
    pub fn flush_once(&mut self, task: u64) -> PollCount
        ensures answers { PassesOn W.tells task (W.writer self.old.inner) (W.writer self.new.inner) self.old.held self.new.held result }
        ensures pushes { Pushes W.tells (W.writer self.old.inner) (W.writer self.new.inner) self.old.held self.new.held }
        ensures flushes { CountsDone (W.writer self.old.inner).flushes (W.writer self.new.inner).flushes result }
        ensures sends { self.new.sends ≡ self.old.sends }
        ensures cause { IsCounted (counts_over (W.writer self.old.inner).counts self.old)
            (counts_over (W.writer self.new.inner).counts self.new) result }
        ensures counts { AfterCall None (counts_over (W.writer self.old.inner).counts self.old)
            (counts_over (W.writer self.new.inner).counts self.new) }
    {
        if self.buf.len() > self.sent {
            return self.push_out(task);
        }
        self.buf.truncate(0);
        self.sent = 0;
        self.inner.poll_flush(task)
    }

    /// Writes what is buffered, one write a poll, and then shuts the stream inside down, as `poll_close` does, which doesn't
    /// tell a pause from a poll that got on (not in monoio). `Pending` and `Again` mean what they mean for `flush_once`.
    pub fn close_once(&mut self, task: u64) -> PollCount
        ensures answers { PassesOn W.tells task (W.writer self.old.inner) (W.writer self.new.inner) self.old.held self.new.held result }
        ensures pushes { Pushes W.tells (W.writer self.old.inner) (W.writer self.new.inner) self.old.held self.new.held }
        ensures shutdowns { CountsDone (W.writer self.old.inner).shutdowns (W.writer self.new.inner).shutdowns result }
        ensures flushes { (W.writer self.new.inner).flushes ≡ (W.writer self.old.inner).flushes }
        ensures sends { self.new.sends ≡ self.old.sends }
        ensures cause { IsCounted (counts_over (W.writer self.old.inner).counts self.old)
            (counts_over (W.writer self.new.inner).counts self.new) result }
        ensures counts { AfterCall None (counts_over (W.writer self.old.inner).counts self.old)
            (counts_over (W.writer self.new.inner).counts self.new) }
    {
        if self.buf.len() > self.sent {
            return self.push_out(task);
        }
        self.buf.truncate(0);
        self.sent = 0;
        self.inner.poll_shutdown(task)
    }

    // Writes what is buffered once. What the write took leaves the buffer.
    #[tactic(auto, using(stream_util::proofs::Buffered::nothing_taken))]
    fn push_out(&mut self, task: u64) -> PollCount
        requires { 0 < length self.old.held }
        ensures answers { PassesOn W.tells task (W.writer self.old.inner) (W.writer self.new.inner) self.old.held self.new.held result }
        ensures pushes { Pushes W.tells (W.writer self.old.inner) (W.writer self.new.inner) self.old.held self.new.held }
        ensures sends { self.new.sends ≡ self.old.sends }
        ensures ends { EndsStay (W.writer self.old.inner) (W.writer self.new.inner) }
        ensures cause { IsPushCounted (counts_over (W.writer self.old.inner).counts self.old)
            (counts_over (W.writer self.new.inner).counts self.new) result }
        ensures counts { AfterCall None (counts_over (W.writer self.old.inner).counts self.old)
            (counts_over (W.writer self.new.inner).counts self.new) }
    {
        let alloc = *self.buf.allocator();
        let buf = mem::replace(&mut self.buf, Vec::new(alloc));
        let len = buf.len();
        match self.inner.poll_write(Slice::new(buf, self.sent, len), task) {
            PollBuf::Ready(Ok(n), part) => {
                self.buf = part.into_inner();
                if n == 0 {
                    return PollCount::Ready(Err(IoFault::WriteZero));
                }
                self.sent += n;
                self.moved = self.moved.saturating_add(1);
                PollCount::Again
            }
            PollBuf::Ready(Err(fault), part) => {
                self.buf = part.into_inner();
                PollCount::Ready(Err(fault))
            }
            PollBuf::Pending(part) => {
                self.buf = part.into_inner();
                PollCount::Pending
            }
            PollBuf::Again(part) => {
                self.buf = part.into_inner();
                PollCount::Again
            }
        }
    }
}

impl<W: AsyncWriteRent> Sink<Message> for FrameWriter<W> {
    type Error = FrameFault;

    ghost sink = { λ w. sink_over (W.writer w.inner) w };

    /// Buffers the pieces of a message. It is refused with `Long`, if it has more than 1048576 bytes, or if memory runs
    /// out: then what is buffered stays, and the message is dropped.
    fn poll_send(&mut self, item: Message, _task: u64) -> SinkPoll<Message, FrameFault>
        ensures sent { IsSent item (sink_over (W.writer self.old.inner) self.old) (sink_over (W.writer self.new.inner) self.new) result }
        ensures flushes { (W.writer self.new.inner).flushes ≡ (W.writer self.old.inner).flushes }
        ensures counts { AfterCall None (counts_over (W.writer self.old.inner).counts self.old)
            (counts_over (W.writer self.new.inner).counts self.new) }
        ensures pieces { Sends self.old self.new item result }
        ensures inner { self.new.inner ≡ self.old.inner }
    {
        SinkPoll::Ready(self.buffer(&item))
    }

    /// Writes what is buffered, one write a poll, and then flushes the stream inside. When it is done nothing is buffered.
    /// At a fault just what was written has left the buffer. `Pending` doesn't say that the task is woken: it comes also where
    /// bytes were written, or the stream answered `Again`. `flush_once` tells these apart.
    fn poll_flush(&mut self, task: u64) -> SinkDone<FrameFault>
        ensures done { IsDone (sink_over (W.writer self.old.inner) self.old) (sink_over (W.writer self.new.inner) self.new) result }
        ensures sends { self.new.sends ≡ self.old.sends }
        ensures counts { AfterCall None (counts_over (W.writer self.old.inner).counts self.old)
            (counts_over (W.writer self.new.inner).counts self.new) }
        ensures pushes { Pushes W.tells (W.writer self.old.inner) (W.writer self.new.inner) self.old.held self.new.held }
        ensures ends { Ends self.new.held result }
        // A fault of the stream is the last one that it gave, or `WriteZero`, where a write took none of some bytes.
        ensures apart { FailsBy W.tells (W.writer self.old.inner) (W.writer self.new.inner) result }
    {
        match self.flush_once(task) {
            PollCount::Ready(Ok(_)) => SinkDone::Ready(Ok(())),
            PollCount::Ready(Err(fault)) => SinkDone::Ready(Err(FrameFault::Io(fault))),
            PollCount::Pending | PollCount::Again => SinkDone::Pending,
        }
    }

    /// Writes what is buffered, one write a poll, and then shuts the stream inside down. When it is done nothing is
    /// buffered. At a fault just what was written has left the buffer. `Pending` is as that of `poll_flush`; `close_once` tells
    /// a pause apart.
    fn poll_close(&mut self, task: u64) -> SinkDone<FrameFault>
        ensures cause { CausesDone (counts_over (W.writer self.old.inner).counts self.old)
            (counts_over (W.writer self.new.inner).counts self.new) result }
        ensures sends { self.new.sends ≡ self.old.sends }
        ensures flushes { (W.writer self.new.inner).flushes ≡ (W.writer self.old.inner).flushes }
        ensures counts { AfterCall None (counts_over (W.writer self.old.inner).counts self.old)
            (counts_over (W.writer self.new.inner).counts self.new) }
        ensures pushes { Pushes W.tells (W.writer self.old.inner) (W.writer self.new.inner) self.old.held self.new.held }
        ensures ends { Ends self.new.held result }
        ensures apart { FailsBy W.tells (W.writer self.old.inner) (W.writer self.new.inner) result }
        ensures shutdowns { IfShut (W.writer self.old.inner).shutdowns (W.writer self.new.inner).shutdowns result }
    {
        match self.close_once(task) {
            PollCount::Ready(Ok(_)) => SinkDone::Ready(Ok(())),
            PollCount::Ready(Err(fault)) => SinkDone::Ready(Err(FrameFault::Io(fault))),
            PollCount::Pending | PollCount::Again => SinkDone::Pending,
        }
    }
}
