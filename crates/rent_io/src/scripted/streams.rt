// A scripted stream as a reader and a writer. Each call takes one turn of the script.
ghost use Rattle.std.specs.Prelude.{◌≡◌, true, None, Some, IsTrue, length, min};
ghost use Rattle.std.specs.List.{concat};
ghost use Rattle.rent_buf.specs.Buffer.{room};
ghost use Rattle.rent_io.specs.Counts.{AfterCall};
ghost use Rattle.rent_io.specs.Polls.{CountsNone, IsCaused, IsWriteCaused, IsFlushCaused};
ghost use Rattle.rent_io.specs.Reader.{Reads, ReadsParts, first_room as room_of};
ghost use Rattle.rent_io.specs.Scripted.{as_reader, as_writer, EndsBy, Follows, ReadsBy, WritesBy};
ghost use Rattle.rent_io.specs.Writer.{EndsStay, Writes, CountsDone, first_part as part_of};

use crate::async_read_rent::AsyncReadRent;
use crate::async_rent_cancelable::{CancelableAsyncReadRent, CancelableAsyncWriteRent};
use crate::async_write_rent::AsyncWriteRent;
use crate::poll::{PollBuf, PollCount};
use crate::scripted::ScriptedStream;
use cancel_core::CancelHandle;
use rent_buf::{IoBuf, IoBufMut, IoVecBuf, IoVecBufMut};

impl AsyncReadRent for ScriptedStream {
    ghost tells = { true };

    ghost reader = { as_reader };

    fn poll_read<T: IoBufMut>(&mut self, buf: T, task: u64) -> PollBuf<T>
        ensures reads { Reads true self.old.left self.new.left T.buffer T.under T.beside buf result }
        ensures none { CountsNone (room (T.buffer buf)) self.old.counts self.new.counts result }
        ensures cause { IsCaused task self.old.counts self.new.counts result }
        ensures counts { AfterCall None self.old.counts self.new.counts }
        ensures follows { Follows None self.old self.new (λ turn. ReadsBy turn (min (room (T.buffer buf)) (length self.old.left)) result) }
    {
        self.read(buf, None, task)
    }

    fn poll_readv<T: IoVecBufMut>(&mut self, buf: T, task: u64) -> PollBuf<T>
        ensures reads { ReadsParts true self.old.left self.new.left T.held buf result }
        ensures none { CountsNone (room_of (T.held buf)) self.old.counts self.new.counts result }
        ensures cause { IsCaused task self.old.counts self.new.counts result }
        ensures counts { AfterCall None self.old.counts self.new.counts }
        ensures follows { Follows None self.old self.new (λ turn. ReadsBy turn (min (room_of (T.held buf)) (length self.old.left)) result) }
    {
        self.readv(buf, None, task)
    }
}

impl AsyncWriteRent for ScriptedStream {
    ghost tells = { true };

    ghost writer = { as_writer };

    fn poll_write<T: IoBuf>(&mut self, buf: T, task: u64) -> PollBuf<T>
        ensures writes { Writes true self.old.delivered self.new.delivered (T.content buf) buf result }
        ensures none { CountsNone (length (T.content buf)) self.old.counts self.new.counts result }
        ensures ends { EndsStay (as_writer self.old) (as_writer self.new) }
        ensures cause { IsWriteCaused task self.old.counts self.new.counts result }
        ensures counts { AfterCall None self.old.counts self.new.counts }
        ensures follows { Follows None self.old self.new (λ turn. WritesBy turn (length (T.content buf)) result) }
    {
        self.write_buf(buf, None, task)
    }

    fn poll_writev<T: IoVecBuf>(&mut self, buf: T, task: u64) -> PollBuf<T>
        ensures writes { Writes true self.old.delivered self.new.delivered (concat (T.parts buf)) buf result }
        ensures none { CountsNone (length (concat (T.parts buf))) self.old.counts self.new.counts result }
        ensures ends { EndsStay (as_writer self.old) (as_writer self.new) }
        ensures cause { IsWriteCaused task self.old.counts self.new.counts result }
        ensures counts { AfterCall None self.old.counts self.new.counts }
        ensures follows { Follows None self.old self.new (λ turn. WritesBy turn (length (part_of (T.parts buf))) result) }
    {
        self.write_parts(buf, None, task)
    }

    fn poll_flush(&mut self, task: u64) -> PollCount
        ensures delivered { IsTrue true → self.new.delivered ≡ self.old.delivered }
        ensures flushes { CountsDone self.old.flushes self.new.flushes result }
        ensures shutdowns { self.new.shutdowns ≡ self.old.shutdowns }
        ensures cause { IsFlushCaused task self.old.counts self.new.counts result }
        ensures counts { AfterCall None self.old.counts self.new.counts }
        ensures follows { Follows None self.old self.new (λ turn. EndsBy turn result) }
    {
        self.flush(None, task)
    }

    fn poll_shutdown(&mut self, task: u64) -> PollCount
        ensures delivered { IsTrue true → self.new.delivered ≡ self.old.delivered }
        ensures flushes { self.new.flushes ≡ self.old.flushes }
        ensures shutdowns { CountsDone self.old.shutdowns self.new.shutdowns result }
        ensures cause { IsFlushCaused task self.old.counts self.new.counts result }
        ensures counts { AfterCall None self.old.counts self.new.counts }
        ensures follows { Follows None self.old self.new (λ turn. EndsBy turn result) }
    {
        self.shut(None, task)
    }
}

// A handle changes nothing but the group that is remembered.
impl CancelableAsyncReadRent for ScriptedStream {
    fn poll_cancelable_read<T: IoBufMut>(
        &mut self,
        buf: T,
        c: CancelHandle,
        task: u64,
    ) -> PollBuf<T>
        ensures reads { Reads true self.old.left self.new.left T.buffer T.under T.beside buf result }
        ensures none { CountsNone (room (T.buffer buf)) self.old.counts self.new.counts result }
        ensures cause { IsCaused task self.old.counts self.new.counts result }
        ensures counts { AfterCall (Some c) self.old.counts self.new.counts }
        ensures follows { Follows (Some c) self.old self.new (λ turn. ReadsBy turn (min (room (T.buffer buf)) (length self.old.left))
            result) }
    {
        self.read(buf, Some(c.group()), task)
    }

    fn poll_cancelable_readv<T: IoVecBufMut>(
        &mut self,
        buf: T,
        c: CancelHandle,
        task: u64,
    ) -> PollBuf<T>
        ensures reads { ReadsParts true self.old.left self.new.left T.held buf result }
        ensures none { CountsNone (room_of (T.held buf)) self.old.counts self.new.counts result }
        ensures cause { IsCaused task self.old.counts self.new.counts result }
        ensures counts { AfterCall (Some c) self.old.counts self.new.counts }
        ensures follows { Follows (Some c) self.old self.new (λ turn. ReadsBy turn (min (room_of (T.held buf)) (length self.old.left))
            result) }
    {
        self.readv(buf, Some(c.group()), task)
    }
}

impl CancelableAsyncWriteRent for ScriptedStream {
    fn poll_cancelable_write<T: IoBuf>(&mut self, buf: T, c: CancelHandle, task: u64) -> PollBuf<T>
        ensures writes { Writes true self.old.delivered self.new.delivered (T.content buf) buf result }
        ensures none { CountsNone (length (T.content buf)) self.old.counts self.new.counts result }
        ensures ends { EndsStay (as_writer self.old) (as_writer self.new) }
        ensures cause { IsWriteCaused task self.old.counts self.new.counts result }
        ensures counts { AfterCall (Some c) self.old.counts self.new.counts }
        ensures follows { Follows (Some c) self.old self.new (λ turn. WritesBy turn (length (T.content buf)) result) }
    {
        self.write_buf(buf, Some(c.group()), task)
    }

    fn poll_cancelable_writev<T: IoVecBuf>(
        &mut self,
        buf: T,
        c: CancelHandle,
        task: u64,
    ) -> PollBuf<T>
        ensures writes { Writes true self.old.delivered self.new.delivered (concat (T.parts buf)) buf result }
        ensures none { CountsNone (length (concat (T.parts buf))) self.old.counts self.new.counts result }
        ensures ends { EndsStay (as_writer self.old) (as_writer self.new) }
        ensures cause { IsWriteCaused task self.old.counts self.new.counts result }
        ensures counts { AfterCall (Some c) self.old.counts self.new.counts }
        ensures follows { Follows (Some c) self.old self.new (λ turn. WritesBy turn (length (part_of (T.parts buf))) result) }
    {
        self.write_parts(buf, Some(c.group()), task)
    }

    fn poll_cancelable_flush(&mut self, c: CancelHandle, task: u64) -> PollCount
        ensures delivered { IsTrue true → self.new.delivered ≡ self.old.delivered }
        ensures flushes { CountsDone self.old.flushes self.new.flushes result }
        ensures shutdowns { self.new.shutdowns ≡ self.old.shutdowns }
        ensures cause { IsFlushCaused task self.old.counts self.new.counts result }
        ensures counts { AfterCall (Some c) self.old.counts self.new.counts }
        ensures follows { Follows (Some c) self.old self.new (λ turn. EndsBy turn result) }
    {
        self.flush(Some(c.group()), task)
    }

    fn poll_cancelable_shutdown(&mut self, c: CancelHandle, task: u64) -> PollCount
        ensures delivered { IsTrue true → self.new.delivered ≡ self.old.delivered }
        ensures flushes { self.new.flushes ≡ self.old.flushes }
        ensures shutdowns { CountsDone self.old.shutdowns self.new.shutdowns result }
        ensures cause { IsFlushCaused task self.old.counts self.new.counts result }
        ensures counts { AfterCall (Some c) self.old.counts self.new.counts }
        ensures follows { Follows (Some c) self.old self.new (λ turn. EndsBy turn result) }
    {
        self.shut(Some(c.group()), task)
    }
}
