// Streams whose reads and writes can be put under a cancel group.
ghost use Rattle.std.specs.Prelude.{◌≡◌, IsTrue, Some, length};
ghost use Rattle.std.specs.List.{concat};
ghost use Rattle.rent_buf.specs.Buffer.{room};
ghost use Rattle.rent_io.specs.Counts.{AfterCall};
ghost use Rattle.rent_io.specs.Polls.{CountsNone, IsCaused, IsWriteCaused, IsFlushCaused};
ghost use Rattle.rent_io.specs.Reader.{Reads, ReadsParts, first_room};
ghost use Rattle.rent_io.specs.Writer.{EndsStay, Writes, CountsDone};

use crate::async_read_rent::AsyncReadRent;
use crate::async_write_rent::AsyncWriteRent;
use crate::poll::{PollBuf, PollCount};
use cancel_core::CancelHandle;
use rent_buf::{IoBuf, IoBufMut, IoVecBuf, IoVecBufMut};

/// A stream whose reads can be put under a cancel group (monoio: `CancelableAsyncReadRent`). It remembers the
/// group of its last call. A canceled read is a fault of the stream.
pub trait CancelableAsyncReadRent: AsyncReadRent {
    /// As `poll_read`, under the group of `c` (monoio: `cancelable_read`).
    fn poll_cancelable_read<T: IoBufMut>(
        &mut self,
        buf: T,
        c: CancelHandle,
        task: u64,
    ) -> PollBuf<T>
        ensures reads { Reads Self.tells (Self.reader self.old).left (Self.reader self.new).left T.buffer T.under T.beside buf result }
        ensures none { CountsNone (room (T.buffer buf)) (Self.reader self.old).counts (Self.reader self.new).counts result }
        ensures cause { IsCaused task (Self.reader self.old).counts (Self.reader self.new).counts result }
        ensures counts { AfterCall (Some c) (Self.reader self.old).counts (Self.reader self.new).counts };

    /// As `poll_readv`, under the group of `c` (monoio: `cancelable_readv`).
    fn poll_cancelable_readv<T: IoVecBufMut>(
        &mut self,
        buf: T,
        c: CancelHandle,
        task: u64,
    ) -> PollBuf<T>
        ensures reads { ReadsParts Self.tells (Self.reader self.old).left (Self.reader self.new).left T.held buf result }
        ensures none { CountsNone (first_room (T.held buf)) (Self.reader self.old).counts (Self.reader self.new).counts result }
        ensures cause { IsCaused task (Self.reader self.old).counts (Self.reader self.new).counts result }
        ensures counts { AfterCall (Some c) (Self.reader self.old).counts (Self.reader self.new).counts };
}

/// A stream whose writes can be put under a cancel group (monoio: `CancelableAsyncWriteRent`). It remembers the
/// group of its last call. A canceled write is a fault of the stream.
pub trait CancelableAsyncWriteRent: AsyncWriteRent {
    /// As `poll_write`, under the group of `c` (monoio: `cancelable_write`).
    fn poll_cancelable_write<T: IoBuf>(&mut self, buf: T, c: CancelHandle, task: u64) -> PollBuf<T>
        ensures writes { Writes Self.tells (Self.writer self.old).delivered (Self.writer self.new).delivered (T.content buf) buf result }
        ensures none { CountsNone (length (T.content buf)) (Self.writer self.old).counts (Self.writer self.new).counts result }
        ensures ends { EndsStay (Self.writer self.old) (Self.writer self.new) }
        ensures cause { IsWriteCaused task (Self.writer self.old).counts (Self.writer self.new).counts result }
        ensures counts { AfterCall (Some c) (Self.writer self.old).counts (Self.writer self.new).counts };

    /// As `poll_writev`, under the group of `c` (monoio: `cancelable_writev`).
    fn poll_cancelable_writev<T: IoVecBuf>(
        &mut self,
        buf: T,
        c: CancelHandle,
        task: u64,
    ) -> PollBuf<T>
        ensures writes { Writes Self.tells (Self.writer self.old).delivered (Self.writer self.new).delivered (concat (T.parts buf)) buf
            result }
        ensures none { CountsNone (length (concat (T.parts buf))) (Self.writer self.old).counts (Self.writer self.new).counts result }
        ensures ends { EndsStay (Self.writer self.old) (Self.writer self.new) }
        ensures cause { IsWriteCaused task (Self.writer self.old).counts (Self.writer self.new).counts result }
        ensures counts { AfterCall (Some c) (Self.writer self.old).counts (Self.writer self.new).counts };

    /// As `poll_flush`, under the group of `c` (monoio: `cancelable_flush`).
    fn poll_cancelable_flush(&mut self, c: CancelHandle, task: u64) -> PollCount
        ensures delivered { IsTrue Self.tells → (Self.writer self.new).delivered ≡ (Self.writer self.old).delivered }
        ensures flushes { CountsDone (Self.writer self.old).flushes (Self.writer self.new).flushes result }
        ensures shutdowns { (Self.writer self.new).shutdowns ≡ (Self.writer self.old).shutdowns }
        ensures cause { IsFlushCaused task (Self.writer self.old).counts (Self.writer self.new).counts result }
        ensures counts { AfterCall (Some c) (Self.writer self.old).counts (Self.writer self.new).counts };

    /// As `poll_shutdown`, under the group of `c` (monoio: `cancelable_shutdown`).
    fn poll_cancelable_shutdown(&mut self, c: CancelHandle, task: u64) -> PollCount
        ensures delivered { IsTrue Self.tells → (Self.writer self.new).delivered ≡ (Self.writer self.old).delivered }
        ensures flushes { (Self.writer self.new).flushes ≡ (Self.writer self.old).flushes }
        ensures shutdowns { CountsDone (Self.writer self.old).shutdowns (Self.writer self.new).shutdowns result }
        ensures cause { IsFlushCaused task (Self.writer self.old).counts (Self.writer self.new).counts result }
        ensures counts { AfterCall (Some c) (Self.writer self.old).counts (Self.writer self.new).counts };
}

impl<A: CancelableAsyncReadRent> CancelableAsyncReadRent for &mut A {
    fn poll_cancelable_read<T: IoBufMut>(
        &mut self,
        buf: T,
        c: CancelHandle,
        task: u64,
    ) -> PollBuf<T> {
        (**self).poll_cancelable_read(buf, c, task)
    }

    fn poll_cancelable_readv<T: IoVecBufMut>(
        &mut self,
        buf: T,
        c: CancelHandle,
        task: u64,
    ) -> PollBuf<T> {
        (**self).poll_cancelable_readv(buf, c, task)
    }
}

impl<A: CancelableAsyncWriteRent> CancelableAsyncWriteRent for &mut A {
    fn poll_cancelable_write<T: IoBuf>(
        &mut self,
        buf: T,
        c: CancelHandle,
        task: u64,
    ) -> PollBuf<T> {
        (**self).poll_cancelable_write(buf, c, task)
    }

    fn poll_cancelable_writev<T: IoVecBuf>(
        &mut self,
        buf: T,
        c: CancelHandle,
        task: u64,
    ) -> PollBuf<T> {
        (**self).poll_cancelable_writev(buf, c, task)
    }

    fn poll_cancelable_flush(&mut self, c: CancelHandle, task: u64) -> PollCount {
        (**self).poll_cancelable_flush(c, task)
    }

    fn poll_cancelable_shutdown(&mut self, c: CancelHandle, task: u64) -> PollCount {
        (**self).poll_cancelable_shutdown(c, task)
    }
}
