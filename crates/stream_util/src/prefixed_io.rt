// A stream whose reads give a prefix first.
ghost use Rattle.std.specs.Prelude.{◌≡◌, ◌&&◌, ℕ, Option, None, Some, [], true, false, IsTrue};
ghost use Rattle.rent_buf.specs.Buffer.{room};
ghost use Rattle.rent_io.specs.Counts.{AfterCall};
ghost use Rattle.rent_io.specs.Polls.{CountsNone, IsCaused};
ghost use Rattle.rent_io.specs.Reader.{Reads, ReadsParts, first_room as room_of};
ghost use Rattle.stream_util.specs.PrefixedReadIo.{PrefixEnds, PrefixRule, prefix_left, reader_behind, IfAnswered, IfBehind};

use crate::split::Split;
use cancel_core::CancelHandle;
use rent_buf::{FixedVec, IoBuf, IoBufMut, IoFault, IoVecBuf, IoVecBufMut};
use rent_io::vectored::first_room;
use rent_io::{
    AsyncReadRent, AsyncWriteRent, ByteSource, CancelableAsyncReadRent, CancelableAsyncWriteRent,
    PIECE, PollBuf, PollCount,
};
use std::marker::Model;

/// A stream whose reads give the bytes of a source first (monoio: `PrefixedReadIo`). A clause sees it as the stream
/// inside, the source, and whether the source has ended.
#[derive(Debug, Drop)]
pub struct PrefixedReadIo<I, P> {
    io: I,
    prefix: P,
    finished: bool,
}

impl<I, P> Model for PrefixedReadIo<I, P> {
    ghost use Rattle.stream_util.specs.PrefixedReadIo.{Prefixed};

    ghost Value = { Prefixed I P };

    ghost view = { λ s. record { io = s.io; prefix = s.prefix; finished = s.finished } };
}

// What a read of the prefix came to.
enum Front<T> {
    // The answer of the read.
    Answered(PollBuf<T>),
    // The prefix has ended, and the stream inside is to be read.
    Behind(T),
}

impl<I, P> PrefixedReadIo<I, P> {
    /// A stream that gives the bytes of `prefix` first (monoio: `new`).
    pub fn new(io: I, prefix: P) -> PrefixedReadIo<I, P>
        ensures { result ≡ record { io = io; prefix = prefix; finished = false } }
    {
        PrefixedReadIo {
            io,
            prefix,
            finished: false,
        }
    }

    /// Whether the prefix has ended (monoio: `prefix_finished`). A read that it gives no byte ends it.
    pub fn prefix_finished(&self) -> bool
        ensures { result ≡ self.now.finished }
    {
        self.finished
    }

    /// The stream inside (monoio: `get_ref`).
    pub fn get_ref(&self) -> &I
        ensures { result.now ≡ self.now.io }
    {
        &self.io
    }

    /// The source of the prefix (monoio: `prefix`).
    pub fn prefix(&self) -> &P
        ensures { result.now ≡ self.now.prefix }
    {
        &self.prefix
    }

    /// The stream inside (monoio: `into_inner`). What is left of the prefix is lost.
    pub fn into_inner(self) -> I
    where
        P: Drop,
        ensures { result ≡ self.io }
    {
        let PrefixedReadIo {
            io,
            prefix: _,
            finished: _,
        } = self;
        io
    }
}

impl<I: AsyncReadRent, P: ByteSource> PrefixedReadIo<I, P> {
    // Reads the prefix once, if it hasn't ended.
    #[tactic(auto, using(crate::proofs::Prefixes::taken_prefix))]
    fn read_prefix<T: IoBufMut>(&mut self, buf: T) -> Front<T>
        ensures reads { IfAnswered result (λ answer. Reads (I.tells && P.tells)
            (reader_behind self.old.finished (P.left self.old.prefix) (P.faults self.old.prefix) (I.reader self.old.io)).left
            (reader_behind self.new.finished (P.left self.new.prefix) (P.faults self.new.prefix) (I.reader self.new.io)).left
            T.buffer T.under T.beside buf answer) }
        ensures none { IfAnswered result (λ answer. CountsNone (room (T.buffer buf)) (I.reader self.old.io).counts
            (I.reader self.new.io).counts answer) }
        ensures cause { IfAnswered result (λ answer. (task : ℕ) → IsCaused task
            (reader_behind self.old.finished (P.left self.old.prefix) (P.faults self.old.prefix) (I.reader self.old.io)).counts
            (reader_behind self.new.finished (P.left self.new.prefix) (P.faults self.new.prefix) (I.reader self.new.io)).counts answer) }
        ensures counts { (group : Option ℕ) → AfterCall group
            (reader_behind self.old.finished (P.left self.old.prefix) (P.faults self.old.prefix) (I.reader self.old.io)).counts
            (reader_behind self.new.finished (P.left self.new.prefix) (P.faults self.new.prefix) (I.reader self.new.io)).counts }
        ensures behind { IfBehind result (λ back. (back ≡ buf) × (self.new.finished ≡ true)
            × (IsTrue P.tells → prefix_left self.old.finished (P.left self.old.prefix) ≡ [])) }
        ensures io { self.new.io ≡ self.old.io }
        ensures rule { IfAnswered result (λ answer. PrefixRule P.tells P.left self.old self.new (room (T.buffer buf)) answer) }
        ensures ended { IfBehind result (λ back. PrefixEnds P.tells P.left self.old self.new) }
    {
        let mut buf = buf;
        let total = buf.bytes_total();
        if total == 0 {
            buf.store(0, &[]);
            return Front::Answered(PollBuf::Ready(Ok(0), buf));
        }
        if self.finished {
            return Front::Behind(buf);
        }
        let mut piece = [0; PIECE];
        let room = &mut piece[..total.min(PIECE)];
        match self.prefix.read(room) {
            Ok(count) => {
                if count == 0 {
                    self.finished = true;
                    return Front::Behind(buf);
                }
                let (front, _) = room.split_at(count);
                buf.store(0, front);
                Front::Answered(PollBuf::Ready(Ok(count), buf))
            }
            Err(_) => Front::Answered(PollBuf::Ready(Err(IoFault::ReadFault), buf)),
        }
    }

    // The same into the first part that has room.
    #[tactic(auto, using(crate::proofs::Prefixes::scattered_prefix))]
    fn readv_prefix<T: IoVecBufMut>(&mut self, buf: T) -> Front<T>
        ensures reads { IfAnswered result (λ answer. ReadsParts (I.tells && P.tells)
            (reader_behind self.old.finished (P.left self.old.prefix) (P.faults self.old.prefix) (I.reader self.old.io)).left
            (reader_behind self.new.finished (P.left self.new.prefix) (P.faults self.new.prefix) (I.reader self.new.io)).left
            T.held buf answer) }
        ensures none { IfAnswered result (λ answer. CountsNone (room_of (T.held buf)) (I.reader self.old.io).counts
            (I.reader self.new.io).counts answer) }
        ensures cause { IfAnswered result (λ answer. (task : ℕ) → IsCaused task
            (reader_behind self.old.finished (P.left self.old.prefix) (P.faults self.old.prefix) (I.reader self.old.io)).counts
            (reader_behind self.new.finished (P.left self.new.prefix) (P.faults self.new.prefix) (I.reader self.new.io)).counts answer) }
        ensures counts { (group : Option ℕ) → AfterCall group
            (reader_behind self.old.finished (P.left self.old.prefix) (P.faults self.old.prefix) (I.reader self.old.io)).counts
            (reader_behind self.new.finished (P.left self.new.prefix) (P.faults self.new.prefix) (I.reader self.new.io)).counts }
        ensures behind { IfBehind result (λ back. (back ≡ buf) × (self.new.finished ≡ true)
            × (IsTrue P.tells → prefix_left self.old.finished (P.left self.old.prefix) ≡ [])) }
        ensures io { self.new.io ≡ self.old.io }
        ensures rule { IfAnswered result (λ answer. PrefixRule P.tells P.left self.old self.new (room_of (T.held buf)) answer) }
        ensures ended { IfBehind result (λ back. PrefixEnds P.tells P.left self.old self.new) }
    {
        let mut buf = buf;
        let total = first_room(&buf);
        if total == 0 {
            buf.store_front(&[]);
            return Front::Answered(PollBuf::Ready(Ok(0), buf));
        }
        if self.finished {
            return Front::Behind(buf);
        }
        let mut piece = [0; PIECE];
        let room = &mut piece[..total.min(PIECE)];
        match self.prefix.read(room) {
            Ok(count) => {
                if count == 0 {
                    self.finished = true;
                    return Front::Behind(buf);
                }
                let (front, _) = room.split_at(count);
                buf.store_front(front);
                Front::Answered(PollBuf::Ready(Ok(count), buf))
            }
            Err(_) => Front::Answered(PollBuf::Ready(Err(IoFault::ReadFault), buf)),
        }
    }
}

impl<I: Split, P: ByteSource> Split for PrefixedReadIo<I, P> {
    type Read = PrefixedReadIo<I::Read, P>;

    type Write = I::Write;

    ghost joined = { λ r w. record { io = I.joined r.io w; prefix = r.prefix; finished = r.finished } };

    fn part(self) -> (PrefixedReadIo<I::Read, P>, I::Write) {
        let PrefixedReadIo {
            io,
            prefix,
            finished,
        } = self;
        let (read, write) = io.part();
        (
            PrefixedReadIo {
                io: read,
                prefix,
                finished,
            },
            write,
        )
    }

    fn join(read: PrefixedReadIo<I::Read, P>, write: I::Write) -> PrefixedReadIo<I, P> {
        let PrefixedReadIo {
            io,
            prefix,
            finished,
        } = read;
        PrefixedReadIo {
            io: I::join(io, write),
            prefix,
            finished,
        }
    }
}

impl<I: AsyncReadRent, P: ByteSource> AsyncReadRent for PrefixedReadIo<I, P> {
    ghost tells = { I.tells && P.tells };

    ghost reader = { λ s. reader_behind s.finished (P.left s.prefix) (P.faults s.prefix) (I.reader s.io) };

    /// Reads the prefix until it gives no byte, and then the stream inside, in the same poll. `ReadFault` where the prefix
    /// failed. Where there is no room it answers 0 and reads nothing.
    #[tactic(auto, using(crate::proofs::Prefixes::rule_behind))]
    fn poll_read<T: IoBufMut>(&mut self, buf: T, task: u64) -> PollBuf<T>
        ensures reads { Reads (I.tells && P.tells)
            (reader_behind self.old.finished (P.left self.old.prefix) (P.faults self.old.prefix) (I.reader self.old.io)).left
            (reader_behind self.new.finished (P.left self.new.prefix) (P.faults self.new.prefix) (I.reader self.new.io)).left
            T.buffer T.under T.beside buf result }
        ensures none { CountsNone (room (T.buffer buf)) (I.reader self.old.io).counts (I.reader self.new.io).counts result }
        ensures cause { IsCaused task
            (reader_behind self.old.finished (P.left self.old.prefix) (P.faults self.old.prefix) (I.reader self.old.io)).counts
            (reader_behind self.new.finished (P.left self.new.prefix) (P.faults self.new.prefix) (I.reader self.new.io)).counts result }
        ensures counts { AfterCall None
            (reader_behind self.old.finished (P.left self.old.prefix) (P.faults self.old.prefix) (I.reader self.old.io)).counts
            (reader_behind self.new.finished (P.left self.new.prefix) (P.faults self.new.prefix) (I.reader self.new.io)).counts }
        ensures rule { PrefixRule P.tells P.left self.old self.new (room (T.buffer buf)) result }
    {
        match self.read_prefix(buf) {
            Front::Answered(answer) => answer,
            Front::Behind(buf) => self.io.poll_read(buf, task),
        }
    }

    /// As `poll_read`, into the first part that has room.
    #[tactic(auto, using(crate::proofs::Prefixes::rule_behind))]
    fn poll_readv<T: IoVecBufMut>(&mut self, buf: T, task: u64) -> PollBuf<T>
        ensures reads { ReadsParts (I.tells && P.tells)
            (reader_behind self.old.finished (P.left self.old.prefix) (P.faults self.old.prefix) (I.reader self.old.io)).left
            (reader_behind self.new.finished (P.left self.new.prefix) (P.faults self.new.prefix) (I.reader self.new.io)).left
            T.held buf result }
        ensures none { CountsNone (room_of (T.held buf)) (I.reader self.old.io).counts (I.reader self.new.io).counts result }
        ensures cause { IsCaused task
            (reader_behind self.old.finished (P.left self.old.prefix) (P.faults self.old.prefix) (I.reader self.old.io)).counts
            (reader_behind self.new.finished (P.left self.new.prefix) (P.faults self.new.prefix) (I.reader self.new.io)).counts result }
        ensures counts { AfterCall None
            (reader_behind self.old.finished (P.left self.old.prefix) (P.faults self.old.prefix) (I.reader self.old.io)).counts
            (reader_behind self.new.finished (P.left self.new.prefix) (P.faults self.new.prefix) (I.reader self.new.io)).counts }
        ensures rule { PrefixRule P.tells P.left self.old self.new (room_of (T.held buf)) result }
    {
        match self.readv_prefix(buf) {
            Front::Answered(answer) => answer,
            Front::Behind(buf) => self.io.poll_readv(buf, task),
        }
    }

    /// As `poll_read` until the prefix has ended, and then a read of the stream inside.
    #[tactic(auto, using(rent_io::proofs::Fronts::fixed_read))]
    fn poll_fixed(&mut self, buf: FixedVec, task: u64) -> PollBuf<FixedVec> {
        if !self.finished {
            return self.poll_read(buf, task);
        }
        self.io.poll_fixed(buf, task)
    }
}

impl<I: CancelableAsyncReadRent, P: ByteSource> CancelableAsyncReadRent for PrefixedReadIo<I, P> {
    #[tactic(auto, using(crate::proofs::Prefixes::rule_behind))]
    fn poll_cancelable_read<T: IoBufMut>(
        &mut self,
        buf: T,
        c: CancelHandle,
        task: u64,
    ) -> PollBuf<T>
        ensures reads { Reads (I.tells && P.tells)
            (reader_behind self.old.finished (P.left self.old.prefix) (P.faults self.old.prefix) (I.reader self.old.io)).left
            (reader_behind self.new.finished (P.left self.new.prefix) (P.faults self.new.prefix) (I.reader self.new.io)).left
            T.buffer T.under T.beside buf result }
        ensures none { CountsNone (room (T.buffer buf)) (I.reader self.old.io).counts (I.reader self.new.io).counts result }
        ensures cause { IsCaused task
            (reader_behind self.old.finished (P.left self.old.prefix) (P.faults self.old.prefix) (I.reader self.old.io)).counts
            (reader_behind self.new.finished (P.left self.new.prefix) (P.faults self.new.prefix) (I.reader self.new.io)).counts result }
        ensures counts { AfterCall (Some c)
            (reader_behind self.old.finished (P.left self.old.prefix) (P.faults self.old.prefix) (I.reader self.old.io)).counts
            (reader_behind self.new.finished (P.left self.new.prefix) (P.faults self.new.prefix) (I.reader self.new.io)).counts }
        ensures rule { PrefixRule P.tells P.left self.old self.new (room (T.buffer buf)) result }
    {
        match self.read_prefix(buf) {
            Front::Answered(answer) => answer,
            Front::Behind(buf) => self.io.poll_cancelable_read(buf, c, task),
        }
    }

    #[tactic(auto, using(crate::proofs::Prefixes::rule_behind))]
    fn poll_cancelable_readv<T: IoVecBufMut>(
        &mut self,
        buf: T,
        c: CancelHandle,
        task: u64,
    ) -> PollBuf<T>
        ensures reads { ReadsParts (I.tells && P.tells)
            (reader_behind self.old.finished (P.left self.old.prefix) (P.faults self.old.prefix) (I.reader self.old.io)).left
            (reader_behind self.new.finished (P.left self.new.prefix) (P.faults self.new.prefix) (I.reader self.new.io)).left
            T.held buf result }
        ensures none { CountsNone (room_of (T.held buf)) (I.reader self.old.io).counts (I.reader self.new.io).counts result }
        ensures cause { IsCaused task
            (reader_behind self.old.finished (P.left self.old.prefix) (P.faults self.old.prefix) (I.reader self.old.io)).counts
            (reader_behind self.new.finished (P.left self.new.prefix) (P.faults self.new.prefix) (I.reader self.new.io)).counts result }
        ensures counts { AfterCall (Some c)
            (reader_behind self.old.finished (P.left self.old.prefix) (P.faults self.old.prefix) (I.reader self.old.io)).counts
            (reader_behind self.new.finished (P.left self.new.prefix) (P.faults self.new.prefix) (I.reader self.new.io)).counts }
        ensures rule { PrefixRule P.tells P.left self.old self.new (room_of (T.held buf)) result }
    {
        match self.readv_prefix(buf) {
            Front::Answered(answer) => answer,
            Front::Behind(buf) => self.io.poll_cancelable_readv(buf, c, task),
        }
    }
}

// Writes, flushes and shutdowns are those of the stream inside.
impl<I: AsyncWriteRent, P> AsyncWriteRent for PrefixedReadIo<I, P> {
    ghost tells = { I.tells };

    ghost writer = { λ s. I.writer s.io };

    fn poll_write<T: IoBuf>(&mut self, buf: T, task: u64) -> PollBuf<T> {
        self.io.poll_write(buf, task)
    }

    fn poll_writev<T: IoVecBuf>(&mut self, buf: T, task: u64) -> PollBuf<T> {
        self.io.poll_writev(buf, task)
    }

    fn poll_flush(&mut self, task: u64) -> PollCount {
        self.io.poll_flush(task)
    }

    fn poll_shutdown(&mut self, task: u64) -> PollCount {
        self.io.poll_shutdown(task)
    }
}

impl<I: CancelableAsyncWriteRent, P> CancelableAsyncWriteRent for PrefixedReadIo<I, P> {
    fn poll_cancelable_write<T: IoBuf>(
        &mut self,
        buf: T,
        c: CancelHandle,
        task: u64,
    ) -> PollBuf<T> {
        self.io.poll_cancelable_write(buf, c, task)
    }

    fn poll_cancelable_writev<T: IoVecBuf>(
        &mut self,
        buf: T,
        c: CancelHandle,
        task: u64,
    ) -> PollBuf<T> {
        self.io.poll_cancelable_writev(buf, c, task)
    }

    fn poll_cancelable_flush(&mut self, c: CancelHandle, task: u64) -> PollCount {
        self.io.poll_cancelable_flush(c, task)
    }

    fn poll_cancelable_shutdown(&mut self, c: CancelHandle, task: u64) -> PollCount {
        self.io.poll_cancelable_shutdown(c, task)
    }
}
