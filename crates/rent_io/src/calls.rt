//! How a state calls its stream: plainly, or under a cancel group.
ghost use Rattle.std.specs.Prelude.{ℕ, Option, None, Some, length};
ghost use Rattle.rent_buf.specs.Buffer.{room};
ghost use Rattle.rent_io.specs.Counts.{AfterCall};
ghost use Rattle.rent_io.specs.Polls.{CountsNone, IsCaused, IsWriteCaused};
ghost use Rattle.rent_io.specs.Reader.{Reads};
ghost use Rattle.rent_io.specs.Writer.{EndsStay, Writes};

use crate::async_read_rent::AsyncReadRent;
use crate::async_rent_cancelable::{CancelableAsyncReadRent, CancelableAsyncWriteRent};
use crate::async_write_rent::AsyncWriteRent;
use crate::poll::PollBuf;
use cancel_core::CancelHandle;
use rent_buf::{IoBuf, IoBufMut};

/// How the calls of a state are made (not in monoio).
pub trait HowCalled: Copy {
    /// The cancel group that they are put under, if any.
    ghost group: { Self → Option ℕ };
}

/// Plain calls (not in monoio).
#[derive(Clone, Copy, Debug)]
pub struct Plain;

impl HowCalled for Plain {
    ghost group = { λ call. None };
}

impl HowCalled for CancelHandle {
    ghost group = { λ c. Some c };
}

/// A read of a stream, made so (not in monoio).
pub trait ReadCall<A: AsyncReadRent>: HowCalled {
    /// As `poll_read`.
    fn read<T: IoBufMut>(&self, io: &mut A, buf: T, task: u64) -> PollBuf<T>
        ensures reads { Reads A.tells (A.reader io.old).left (A.reader io.new).left T.buffer T.under T.beside buf result }
        ensures none { CountsNone (room (T.buffer buf)) (A.reader io.old).counts (A.reader io.new).counts result }
        ensures cause { IsCaused task (A.reader io.old).counts (A.reader io.new).counts result }
        ensures counts { AfterCall (Self.group self.now) (A.reader io.old).counts (A.reader io.new).counts };
}

impl<A: AsyncReadRent> ReadCall<A> for Plain {
    fn read<T: IoBufMut>(&self, io: &mut A, buf: T, task: u64) -> PollBuf<T> {
        io.poll_read(buf, task)
    }
}

impl<A: CancelableAsyncReadRent> ReadCall<A> for CancelHandle {
    fn read<T: IoBufMut>(&self, io: &mut A, buf: T, task: u64) -> PollBuf<T> {
        io.poll_cancelable_read(buf, *self, task)
    }
}

/// A write to a stream, made so (not in monoio).
pub trait WriteCall<A: AsyncWriteRent>: HowCalled {
    /// As `poll_write`.
    fn write<T: IoBuf>(&self, io: &mut A, buf: T, task: u64) -> PollBuf<T>
        ensures writes { Writes A.tells (A.writer io.old).delivered (A.writer io.new).delivered (T.content buf) buf result }
        ensures none { CountsNone (length (T.content buf)) (A.writer io.old).counts (A.writer io.new).counts result }
        ensures ends { EndsStay (A.writer io.old) (A.writer io.new) }
        ensures cause { IsWriteCaused task (A.writer io.old).counts (A.writer io.new).counts result }
        ensures counts { AfterCall (Self.group self.now) (A.writer io.old).counts (A.writer io.new).counts };
}

impl<A: AsyncWriteRent> WriteCall<A> for Plain {
    fn write<T: IoBuf>(&self, io: &mut A, buf: T, task: u64) -> PollBuf<T> {
        io.poll_write(buf, task)
    }
}

impl<A: CancelableAsyncWriteRent> WriteCall<A> for CancelHandle {
    fn write<T: IoBuf>(&self, io: &mut A, buf: T, task: u64) -> PollBuf<T> {
        io.poll_cancelable_write(buf, *self, task)
    }
}
