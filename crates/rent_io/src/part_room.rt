// One part of a vector of buffers, as a buffer that can be filled.
ghost use Rattle.std.specs.Prelude.{◌≡◌, ◌+◌, ◌<◌, ◌≤◌, [], ◌∷◌, length};
ghost use Rattle.rent_buf.specs.Parts.{part_at};
ghost use Rattle.rent_io.specs.Counts.{AfterCall};
ghost use Rattle.rent_io.specs.PartRoom.{buffer_at, others, ReadsPart};
ghost use Rattle.rent_io.specs.Polls.{CountsNone, IsCaused};

use crate::async_read_rent::AsyncReadRent;
use crate::calls::ReadCall;
use crate::poll::PollBuf;
use rent_buf::{IoBuf, IoBufMut, IoVecBufMut, SliceMut};
use std::marker::Model;

/// One part. Under it lies its place among the parts, and beside it lie all others.
#[derive(Drop)]
pub(crate) struct PartRoom<T: IoVecBufMut> {
    buf: T,
    part: usize,
}

impl<T: IoVecBufMut> Model for PartRoom<T> {
    ghost use Rattle.std.specs.Prelude.{◌<◌, length};
    ghost use Rattle.rent_io.specs.PartRoom.{PartRoom};

    ghost Value = { PartRoom T };

    ghost view = { λ p. record { inner = p.buf; part = p.part } };

    ghost invariant = { λ p. p.part < length (T.held p.buf) };
}

impl<T: IoVecBufMut> PartRoom<T> {
    /// The part of a number.
    pub(crate) fn new(buf: T, part: usize) -> PartRoom<T>
        requires { part < length (T.held buf) }
        ensures { result ≡ record { inner = buf; part = part } }
    {
        PartRoom { buf, part }
    }

    /// The vector.
    pub(crate) fn into_inner(self) -> T
        ensures { result ≡ self.inner }
    {
        let PartRoom { buf, part: _ } = self;
        buf
    }
}

impl<T: IoVecBufMut> IoBuf for PartRoom<T> {
    ghost content = { λ p. (part_at (T.held p.inner) p.part).bytes };

    #[tactic(auto, using(crate::proofs::SingleParts::length_bytes, crate::proofs::SingleParts::bytes_at))]
    fn bytes(&self) -> &[u8] {
        self.buf.keeps_bounds();
        self.buf.part(self.part)
    }

    #[tactic(auto, using(crate::proofs::SingleParts::length_bytes, crate::proofs::SingleParts::bytes_at))]
    fn bytes_init(&self) -> usize {
        self.buf.keeps_bounds();
        self.buf.part(self.part).len()
    }
}

impl<T: IoVecBufMut> IoBufMut for PartRoom<T> {
    ghost buffer = { λ p. buffer_at (T.held p.inner) p.part };

    ghost under = { λ p. (p.part, p.part + 1) ∷ [] };

    ghost beside = { λ p. others (T.held p.inner) p.part };

    #[tactic(auto, using(crate::proofs::SingleParts::bounds_at))]
    fn keeps_bounds(&self) {
        self.buf.keeps_bounds();
    }

    #[tactic(auto, using(crate::proofs::SingleParts::length_bytes, crate::proofs::SingleParts::bounds_at))]
    fn bytes_total(&self) -> usize {
        self.buf.keeps_bounds();
        self.buf.room(self.part)
    }

    #[tactic(auto, using(crate::proofs::SingleParts::at_put, crate::proofs::SingleParts::others_set))]
    fn store(&mut self, at: usize, bytes: &[u8]) {
        self.buf.keeps_bounds();
        self.buf.store_part(self.part, at, bytes);
    }
}

/// One read into a part, from `at` on, by this call.
#[tactic(auto, using(crate::proofs::SingleParts::length_bytes))]
pub(crate) fn read_part<T: IoVecBufMut, A: AsyncReadRent, C: ReadCall<A>>(
    io: &mut A,
    call: &C,
    buf: T,
    into: usize,
    at: usize,
    task: u64,
) -> PollBuf<T>
    requires there { into < length (T.held buf) }
    requires within { at ≤ length (part_at (T.held buf) into).bytes }
    requires room { at < (part_at (T.held buf) into).total }
    ensures reads { ReadsPart A.tells (A.reader io.old).left (A.reader io.new).left T.held buf into at result }
    ensures none { CountsNone 1 (A.reader io.old).counts (A.reader io.new).counts result }
    ensures cause { IsCaused task (A.reader io.old).counts (A.reader io.new).counts result }
    ensures counts { AfterCall (C.group call.now) (A.reader io.old).counts (A.reader io.new).counts }
{
    buf.keeps_bounds();
    let end = buf.room(into);
    let room = PartRoom::new(buf, into);
    room.keeps_bounds();
    match call.read(io, SliceMut::new(room, at, end), task) {
        PollBuf::Ready(outcome, slice) => {
            let part = slice.into_inner();
            PollBuf::Ready(outcome, part.into_inner())
        }
        PollBuf::Pending(slice) => {
            let part = slice.into_inner();
            PollBuf::Pending(part.into_inner())
        }
        PollBuf::Again(slice) => {
            let part = slice.into_inner();
            PollBuf::Again(part.into_inner())
        }
    }
}
