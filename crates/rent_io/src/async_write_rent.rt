// Streams that are written from a buffer which they are given for the time of a poll.
ghost use Rattle.std.specs.Prelude.{◌≡◌, Bool, IsTrue, None, length};
ghost use Rattle.std.specs.List.{concat};
ghost use Rattle.rent_io.specs.Counts.{AfterCall};
ghost use Rattle.rent_io.specs.Polls.{CountsNone, IsWriteCaused, IsFlushCaused};
ghost use Rattle.rent_io.specs.Writer.{Writer, EndsStay, Writes, CountsDone};

use crate::poll::{PollBuf, PollCount};
use rent_buf::{IoBuf, IoVecBuf};

/// A stream that is written (monoio: `AsyncWriteRent`). Each call makes one write, flush or shutdown at most.
pub trait AsyncWriteRent {
    /// Whether it tells which bytes were delivered.
    ghost tells: { Bool };

    /// The bytes that were delivered, where it tells them, and its counts.
    ghost writer: { Self → Writer };

    /// Writes the first bytes of a buffer (monoio: `write`), and answers their number: none of some is counted. At
    /// `Pending`, `Again` and a fault nothing was written. `Pending` comes only by a pause, and the stream remembers
    /// that it is to wake this task; `Again` only by an interrupt; and a fault is the last one of the stream, or
    /// `WriteZero` where a write took none of some bytes.
    fn poll_write<T: IoBuf>(&mut self, buf: T, task: u64) -> PollBuf<T>
        ensures writes { Writes tells (writer self.old).delivered (writer self.new).delivered (T.content buf) buf result }
        ensures none { CountsNone (length (T.content buf)) (writer self.old).counts (writer self.new).counts result }
        ensures ends { EndsStay (writer self.old) (writer self.new) }
        ensures cause { IsWriteCaused task (writer self.old).counts (writer self.new).counts result }
        ensures counts { AfterCall None (writer self.old).counts (writer self.new).counts };

    /// Writes the first bytes of the parts, joined in order (monoio: `writev`), and answers their number.
    fn poll_writev<T: IoVecBuf>(&mut self, buf: T, task: u64) -> PollBuf<T>
        ensures writes { Writes tells (writer self.old).delivered (writer self.new).delivered (concat (T.parts buf)) buf result }
        ensures none { CountsNone (length (concat (T.parts buf))) (writer self.old).counts (writer self.new).counts result }
        ensures ends { EndsStay (writer self.old) (writer self.new) }
        ensures cause { IsWriteCaused task (writer self.old).counts (writer self.new).counts result }
        ensures counts { AfterCall None (writer self.old).counts (writer self.new).counts };

    /// Passes on what was written (monoio: `flush`).
    fn poll_flush(&mut self, task: u64) -> PollCount
        ensures delivered { IsTrue tells → (writer self.new).delivered ≡ (writer self.old).delivered }
        ensures flushes { CountsDone (writer self.old).flushes (writer self.new).flushes result }
        ensures shutdowns { (writer self.new).shutdowns ≡ (writer self.old).shutdowns }
        ensures cause { IsFlushCaused task (writer self.old).counts (writer self.new).counts result }
        ensures counts { AfterCall None (writer self.old).counts (writer self.new).counts };

    /// Ends the stream behind what was written (monoio: `shutdown`).
    fn poll_shutdown(&mut self, task: u64) -> PollCount
        ensures delivered { IsTrue tells → (writer self.new).delivered ≡ (writer self.old).delivered }
        ensures flushes { (writer self.new).flushes ≡ (writer self.old).flushes }
        ensures shutdowns { CountsDone (writer self.old).shutdowns (writer self.new).shutdowns result }
        ensures cause { IsFlushCaused task (writer self.old).counts (writer self.new).counts result }
        ensures counts { AfterCall None (writer self.old).counts (writer self.new).counts };
}

impl<A: AsyncWriteRent> AsyncWriteRent for &mut A {
    ghost tells = { A.tells };

    ghost writer = { λ s. A.writer s.now };

    fn poll_write<T: IoBuf>(&mut self, buf: T, task: u64) -> PollBuf<T> {
        (**self).poll_write(buf, task)
    }

    fn poll_writev<T: IoVecBuf>(&mut self, buf: T, task: u64) -> PollBuf<T> {
        (**self).poll_writev(buf, task)
    }

    fn poll_flush(&mut self, task: u64) -> PollCount {
        (**self).poll_flush(task)
    }

    fn poll_shutdown(&mut self, task: u64) -> PollCount {
        (**self).poll_shutdown(task)
    }
}
