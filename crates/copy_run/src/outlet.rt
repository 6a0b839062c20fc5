//! A sink that is written through a buffer.
ghost use Rattle.std.specs.Prelude.{◌≡◌, ◌≤◌, [], IsTrue, OnOk, OnErr};
ghost use Rattle.rent_buf.specs.Counts.{Rose};
ghost use Rattle.copy_run.specs.Pieces.{outlet_writer, delivered_by};

use rent_buf::{IoBuf, IoVecBuf};
use rent_io::{AsyncWriteRent, ByteSink, Failed, PollBuf, PollCount, SinkStream};
use stream_util::BufWriter;

/// A sink behind a buffer, as a stream. A poll that finds the buffer full writes it, as often as it takes: so a write is never to be made
/// again. (not in monoio)
#[derive(Drop)]
pub(crate) struct Outlet<K: ByteSink> {
    writer: BufWriter<SinkStream<K>>,
}

impl<K: ByteSink> Outlet<K> {
    /// A stream that writes by this buffer.
    pub(crate) fn new(writer: BufWriter<SinkStream<K>>) -> Outlet<K>
        ensures { result.writer ≡ writer }
    {
        Outlet { writer }
    }

    /// The sink as a stream. What is buffered is lost.
    pub(crate) fn into_inner(self) -> SinkStream<K>
        ensures { result ≡ self.writer.inner }
    {
        let Outlet { writer } = self;
        writer.into_inner()
    }

    /// Writes what is buffered.
    pub(crate) fn push_all(&mut self, task: u64) -> Result<(), Failed>
        ensures empty { OnOk result (self.new.writer.held ≡ []) }
        ensures failed { OnErr result (Rose (K.faults self.old.writer.inner.sink) (K.faults self.new.writer.inner.sink)) }
        ensures order { K.faults self.old.writer.inner.sink ≤ K.faults self.new.writer.inner.sink }
        ensures delivered { IsTrue K.tells → delivered_by (K.taken self.new.writer.inner.sink) self.new.writer
            ≡ delivered_by (K.taken self.old.writer.inner.sink) self.old.writer }
    {
        while !self.writer.buffer().is_empty() {
            match self.writer.poll_flush(task) {
                PollCount::Again => {}
                PollCount::Ready(Ok(_)) => return Ok(()),
                PollCount::Ready(Err(_)) => return Err(Failed),
                // A sink never pauses.
                PollCount::Pending => unreachable!(),
            }
        }
        Ok(())
    }
}

impl<K: ByteSink> AsyncWriteRent for Outlet<K> {
    ghost tells = { K.tells };

    ghost writer = { λ s. outlet_writer (K.taken s.writer.inner.sink) (K.faults s.writer.inner.sink) s.writer };

    #[tactic(auto, using(crate::proofs::Outlets::kept_none, crate::proofs::Outlets::kept_more, crate::proofs::Outlets::less_held))]
    fn poll_write<T: IoBuf>(&mut self, buf: T, task: u64) -> PollBuf<T> {
        let mut buf = buf;
        loop {
            match self.writer.poll_write(buf, task) {
                PollBuf::Again(back) => buf = back,
                PollBuf::Ready(outcome, back) => return PollBuf::Ready(outcome, back),
                PollBuf::Pending(back) => return PollBuf::Pending(back),
            }
        }
    }

    #[tactic(auto, using(crate::proofs::Outlets::kept_none, crate::proofs::Outlets::kept_more, crate::proofs::Outlets::less_held))]
    fn poll_writev<T: IoVecBuf>(&mut self, buf: T, task: u64) -> PollBuf<T> {
        let mut buf = buf;
        loop {
            match self.writer.poll_writev(buf, task) {
                PollBuf::Again(back) => buf = back,
                PollBuf::Ready(outcome, back) => return PollBuf::Ready(outcome, back),
                PollBuf::Pending(back) => return PollBuf::Pending(back),
            }
        }
    }

    #[tactic(auto, using(crate::proofs::Outlets::kept_none, crate::proofs::Outlets::kept_more, crate::proofs::Outlets::less_held))]
    fn poll_flush(&mut self, task: u64) -> PollCount {
        loop {
            match self.writer.poll_flush(task) {
                PollCount::Again => {}
                PollCount::Ready(outcome) => return PollCount::Ready(outcome),
                PollCount::Pending => return PollCount::Pending,
            }
        }
    }

    #[tactic(auto, using(crate::proofs::Outlets::kept_none, crate::proofs::Outlets::kept_more, crate::proofs::Outlets::less_held))]
    fn poll_shutdown(&mut self, task: u64) -> PollCount {
        loop {
            match self.writer.poll_shutdown(task) {
                PollCount::Again => {}
                PollCount::Ready(outcome) => return PollCount::Ready(outcome),
                PollCount::Pending => return PollCount::Pending,
            }
        }
    }
}
