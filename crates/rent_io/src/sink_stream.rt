// A sink as a stream.
ghost use Rattle.std.specs.Prelude.{◌≡◌, IsTrue, None};
ghost use Rattle.rent_io.specs.Counts.{AfterCall};
ghost use Rattle.rent_io.specs.Polls.{IsFlushCaused};
ghost use Rattle.rent_io.specs.Writer.{sink_writer, CountsDone, IfDone};

use crate::async_write_rent::AsyncWriteRent;
use crate::poll::{PollBuf, PollCount};
use crate::source::ByteSink;
use crate::vectored::first_part;
use rent_buf::{IoBuf, IoFault, IoVecBuf};
use std::marker::Model;

/// A sink as a stream (not in monoio). It never pauses. A clause sees the sink, and how many flushes and shutdowns
/// succeeded.
#[derive(Debug, Drop)]
pub struct SinkStream<K: ByteSink> {
    sink: K,
    flushes: u64,
    shutdowns: u64,
}

impl<K: ByteSink> Model for SinkStream<K> {
    ghost use Rattle.rent_io.specs.Writer.{SinkWriting};

    ghost Value = { SinkWriting K };

    ghost view = { λ s. record { sink = s.sink; flushes = s.flushes; shutdowns = s.shutdowns } };
}

impl<K: ByteSink> SinkStream<K> {
    /// A stream of a sink.
    pub fn new(sink: K) -> SinkStream<K>
        ensures { result ≡ record { sink = sink; flushes = 0; shutdowns = 0 } }
    {
        SinkStream {
            sink,
            flushes: 0,
            shutdowns: 0,
        }
    }

    /// The sink, lent.
    pub fn get_ref(&self) -> &K
        ensures { result.now ≡ self.now.sink }
    {
        &self.sink
    }

    /// The sink.
    pub fn into_inner(self) -> K
        ensures { result ≡ self.sink }
    {
        let SinkStream {
            sink,
            flushes: _,
            shutdowns: _,
        } = self;
        sink
    }
}

impl<K: ByteSink> AsyncWriteRent for SinkStream<K> {
    ghost tells = { K.tells };

    ghost writer = { λ s. sink_writer (K.taken s.sink) (K.faults s.sink) s };

    /// One write of the sink. `WriteFault` where it failed.
    fn poll_write<T: IoBuf>(&mut self, buf: T, _task: u64) -> PollBuf<T> {
        match self.sink.write(buf.bytes()) {
            Ok(count) => PollBuf::Ready(Ok(count), buf),
            Err(_) => PollBuf::Ready(Err(IoFault::WriteFault), buf),
        }
    }

    /// One write of the sink, of the first part that has bytes. `WriteFault` where it failed.
    #[tactic(auto, using(crate::proofs::FirstParts::parts_written, crate::proofs::FirstParts::parts_within, crate::proofs::FirstParts::none_at_all))]
    fn poll_writev<T: IoVecBuf>(&mut self, buf: T, _task: u64) -> PollBuf<T> {
        match self.sink.write(first_part(&buf)) {
            Ok(count) => PollBuf::Ready(Ok(count), buf),
            Err(_) => PollBuf::Ready(Err(IoFault::WriteFault), buf),
        }
    }

    /// One flush of the sink. `WriteFault` where it failed.
    fn poll_flush(&mut self, _task: u64) -> PollCount
        ensures delivered { IsTrue K.tells → K.taken self.new.sink ≡ K.taken self.old.sink }
        ensures flushes { CountsDone self.old.flushes self.new.flushes result }
        ensures shutdowns { self.new.shutdowns ≡ self.old.shutdowns }
        ensures cause { IsFlushCaused _task (sink_writer (K.taken self.old.sink) (K.faults self.old.sink) self.old).counts
            (sink_writer (K.taken self.new.sink) (K.faults self.new.sink) self.new).counts result }
        ensures counts { AfterCall None (sink_writer (K.taken self.old.sink) (K.faults self.old.sink) self.old).counts
            (sink_writer (K.taken self.new.sink) (K.faults self.new.sink) self.new).counts }
        ensures flushed { IfDone result (IsTrue (K.is_flushed self.new.sink)) }
    {
        match self.sink.flush() {
            Ok(()) => {
                self.flushes = self.flushes.saturating_add(1);
                PollCount::Ready(Ok(0))
            }
            Err(_) => PollCount::Ready(Err(IoFault::WriteFault)),
        }
    }

    /// One flush of the sink. `WriteFault` where it failed.
    fn poll_shutdown(&mut self, _task: u64) -> PollCount
        ensures delivered { IsTrue K.tells → K.taken self.new.sink ≡ K.taken self.old.sink }
        ensures flushes { self.new.flushes ≡ self.old.flushes }
        ensures shutdowns { CountsDone self.old.shutdowns self.new.shutdowns result }
        ensures cause { IsFlushCaused _task (sink_writer (K.taken self.old.sink) (K.faults self.old.sink) self.old).counts
            (sink_writer (K.taken self.new.sink) (K.faults self.new.sink) self.new).counts result }
        ensures counts { AfterCall None (sink_writer (K.taken self.old.sink) (K.faults self.old.sink) self.old).counts
            (sink_writer (K.taken self.new.sink) (K.faults self.new.sink) self.new).counts }
        ensures flushed { IfDone result (IsTrue (K.is_flushed self.new.sink)) }
    {
        match self.sink.flush() {
            Ok(()) => {
                self.shutdowns = self.shutdowns.saturating_add(1);
                PollCount::Ready(Ok(0))
            }
            Err(_) => PollCount::Ready(Err(IoFault::WriteFault)),
        }
    }
}
