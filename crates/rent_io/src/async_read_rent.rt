// Streams that are read into a buffer which they are given for the time of a poll.
ghost use Rattle.std.specs.Prelude.{Bool, true, None, length};
ghost use Rattle.rent_buf.specs.Buffer.{room};
ghost use Rattle.rent_io.specs.Counts.{AfterCall, slice_counts};
ghost use Rattle.rent_io.specs.Polls.{IsCaused, CountsNone};
ghost use Rattle.rent_io.specs.Reader.{Reader, Reads, ReadsFixed, ReadsParts, GivesUpTo, first_room as room_of};

use crate::poll::PollBuf;
use crate::vectored::first_room;
use rent_buf::{FixedVec, IoBufMut, IoVecBufMut};

/// A stream that is read (monoio: `AsyncReadRent`). Each call makes one read at most.
pub trait AsyncReadRent {
    /// Whether it tells which bytes are left.
    ghost tells: { Bool };

    /// The bytes that are left, where it tells them, and its counts.
    ghost reader: { Self → Reader };

    /// Reads the next bytes into a buffer (monoio: `read`), at most as many as its range has room for, and answers
    /// their number: 0 only where there is no room, or at the end of the stream, which is counted. At `Pending`,
    /// `Again` and a fault nothing was read. `Pending` comes only by a pause, and the stream remembers that it is to
    /// wake this task; `Again` only by an interrupt; and a fault is the last one of the stream.
    fn poll_read<T: IoBufMut>(&mut self, buf: T, task: u64) -> PollBuf<T>
        ensures reads { Reads tells (reader self.old).left (reader self.new).left T.buffer T.under T.beside buf result }
        ensures none { CountsNone (room (T.buffer buf)) (reader self.old).counts (reader self.new).counts result }
        ensures cause { IsCaused task (reader self.old).counts (reader self.new).counts result }
        ensures counts { AfterCall None (reader self.old).counts (reader self.new).counts };

    /// Reads the next bytes into the first part that has room (monoio: `readv`), at most as many as it has room for,
    /// and answers their number: 0 only where no part has room, or at the end of the stream.
    fn poll_readv<T: IoVecBufMut>(&mut self, buf: T, task: u64) -> PollBuf<T>
        ensures reads { ReadsParts tells (reader self.old).left (reader self.new).left T.held buf result }
        ensures none { CountsNone (room_of (T.held buf)) (reader self.old).counts (reader self.new).counts result }
        ensures cause { IsCaused task (reader self.old).counts (reader self.new).counts result }
        ensures counts { AfterCall None (reader self.old).counts (reader self.new).counts };

    /// As `poll_read`, into a buffer of fixed length (not in monoio): the bytes behind those that were read may be
    /// others afterwards, also at a fault. So a stream over a source lends it the whole buffer, and stores no byte twice.
    #[tactic(auto, using(crate::proofs::Fronts::fixed_read))]
    fn poll_fixed(&mut self, buf: FixedVec, task: u64) -> PollBuf<FixedVec>
        ensures reads { ReadsFixed tells (reader self.old).left (reader self.new).left buf result }
        ensures none { CountsNone (length buf) (reader self.old).counts (reader self.new).counts result }
        ensures cause { IsCaused task (reader self.old).counts (reader self.new).counts result }
        ensures counts { AfterCall None (reader self.old).counts (reader self.new).counts }
    {
        self.poll_read(buf, task)
    }
}

impl<A: AsyncReadRent> AsyncReadRent for &mut A {
    ghost tells = { A.tells };

    ghost reader = { λ s. A.reader s.now };

    fn poll_read<T: IoBufMut>(&mut self, buf: T, task: u64) -> PollBuf<T> {
        (**self).poll_read(buf, task)
    }

    fn poll_readv<T: IoVecBufMut>(&mut self, buf: T, task: u64) -> PollBuf<T> {
        (**self).poll_readv(buf, task)
    }

    fn poll_fixed(&mut self, buf: FixedVec, task: u64) -> PollBuf<FixedVec> {
        (**self).poll_fixed(buf, task)
    }
}

// The bytes of a slice are read from its start, and it becomes what is left. It never pauses and never fails.
impl AsyncReadRent for &[u8] {
    ghost tells = { true };

    ghost reader = { λ s. record { left = s.now; counts = slice_counts } };

    #[tactic(auto, using(crate::proofs::Fronts::taken_front))]
    fn poll_read<T: IoBufMut>(&mut self, buf: T, _task: u64) -> PollBuf<T>
        ensures reads { Reads true self.old.now self.new.now T.buffer T.under T.beside buf result }
        ensures none { CountsNone (room (T.buffer buf)) slice_counts slice_counts result }
        ensures cause { IsCaused _task slice_counts slice_counts result }
        ensures counts { AfterCall None slice_counts slice_counts }
        ensures lesser { GivesUpTo (length self.old.now) (room (T.buffer buf)) result }
    {
        let mut buf = buf;
        let left = *self;
        let count = buf.bytes_total().min(left.len());
        let (front, rest) = left.split_at(count);
        buf.store(0, front);
        *self = rest;
        PollBuf::Ready(Ok(count), buf)
    }

    #[tactic(auto, using(crate::proofs::Fronts::scattered_front))]
    fn poll_readv<T: IoVecBufMut>(&mut self, buf: T, _task: u64) -> PollBuf<T>
        ensures reads { ReadsParts true self.old.now self.new.now T.held buf result }
        ensures none { CountsNone (room_of (T.held buf)) slice_counts slice_counts result }
        ensures cause { IsCaused _task slice_counts slice_counts result }
        ensures counts { AfterCall None slice_counts slice_counts }
        ensures lesser { GivesUpTo (length self.old.now) (room_of (T.held buf)) result }
    {
        let mut buf = buf;
        let left = *self;
        let count = first_room(&buf).min(left.len());
        let (front, rest) = left.split_at(count);
        buf.store_front(front);
        *self = rest;
        PollBuf::Ready(Ok(count), buf)
    }
}
