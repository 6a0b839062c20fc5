//! A read that fills all parts of a vector of buffers.
ghost use Rattle.std.specs.Prelude.{◌≡◌, ◌≤◌, length, IsOk, IfOk, IfErr};
ghost use Rattle.rent_buf.specs.Parts.{part_at};
ghost use Rattle.rent_io.specs.Completeness.{IsShort};
ghost use Rattle.rent_io.specs.ReadVectoredExact.{AreFullBefore, HasScattered, NextRoom, ReadsScattered, ScatterRunEnd, has_read};
ghost use Rattle.rent_io.specs.ReadVectoredExact.{scattering, wanted};
ghost use Rattle.rent_io.specs.State.{plain, under};

use crate::async_read_rent::AsyncReadRent;
use crate::calls::{Plain, ReadCall};
use crate::part_room::read_part;
use crate::poll::{PollBuf, Step};
use crate::state::{Polled, StateBy};
use cancel_core::CancelHandle;
use rent_buf::{BufResult, IoFault, IoVecBufMut, OutOfMemory};
use std::marker::Model;

/// The state of a `ReadVectoredExact`. A clause sees it as the parts, the number of one before which all are full, how
/// many bytes of that one are filled, and the sum of the rooms.
#[derive(Debug, Drop)]
pub struct VectoredExactState<T: IoVecBufMut> {
    buf: T,
    part: usize,
    filled: usize,
    total: usize,
}

impl<T: IoVecBufMut> Model for VectoredExactState<T> {
    ghost use Rattle.std.specs.Prelude.{◌≤◌, length};
    ghost use Rattle.rent_buf.specs.Parts.{part_at};
    ghost use Rattle.rent_io.specs.ReadVectoredExact.{Scattering, AreFullBefore};

    ghost Value = { Scattering };

    ghost view = { λ s. record { parts = T.held s.buf; part = s.part; filled = s.filled; total = s.total } };

    ghost invariant = { λ s. AreFullBefore (T.held s.buf) s.part × (s.part ≤ length (T.held s.buf))
        × (s.filled ≤ length (part_at (T.held s.buf) s.part).bytes) };
}

/// A read that fills all parts of a vector of buffers, as `read_vectored_exact` starts it (monoio: the future of
/// `read_vectored_exact`): each poll reads into the first part that isn't full. It is done with the sum of the rooms,
/// once every part is full; with `UnexpectedEof`, where a read gave no byte though there is room; or with the stream's
/// fault (`ReadsScattered`). Over many polls the bytes that left the stream stand in the parts, one behind the other,
/// each once (`HasScattered`, `ScatterRunEnd`).
pub type ReadVectoredExact<T> = StateBy<VectoredExactState<T>, Plain>;

/// The same under a cancel group (monoio: the future of `cancelable_read_vectored_exact`).
pub type CancelableReadVectoredExact<T> = StateBy<VectoredExactState<T>, CancelHandle>;

impl<T: IoVecBufMut> VectoredExactState<T> {
    // A read that starts.
    #[tactic(auto, using(crate::proofs::Scatters::none_before))]
    pub(crate) fn new(buf: T) -> VectoredExactState<T>
        ensures { result ≡ scattering (T.held buf) }
    {
        let total = buf.total_room();
        VectoredExactState {
            buf,
            part: 0,
            filled: 0,
            total,
        }
    }
}

impl<T: IoVecBufMut> StateBy<VectoredExactState<T>, Plain> {
    /// A read that fills these parts, from the first on. It takes no memory, so the answer is always `Ok`.
    pub fn new(buf: T) -> Result<ReadVectoredExact<T>, (OutOfMemory, T)>
        ensures made { IsOk result }
        ensures value { IfOk result (λ s. s ≡ plain (scattering (T.held buf))) }
    {
        Ok(StateBy::by(VectoredExactState::new(buf), Plain))
    }
}

impl<T: IoVecBufMut> StateBy<VectoredExactState<T>, CancelHandle> {
    /// A read that fills these parts, from the first on, under the group of `c`. It takes no memory, so the answer is
    /// always `Ok`.
    pub fn new(buf: T, c: CancelHandle) -> Result<CancelableReadVectoredExact<T>, (OutOfMemory, T)>
        ensures made { IsOk result }
        ensures value { IfOk result (λ s. s ≡ under c (scattering (T.held buf))) }
    {
        Ok(StateBy::by(VectoredExactState::new(buf), c))
    }
}

impl<T: IoVecBufMut, A: AsyncReadRent, C: ReadCall<A>> Polled<A, C> for VectoredExactState<T> {
    type End = BufResult<usize, T>;

    ghost counts = { λ io. (A.reader io).counts };

    ghost moved = { λ s. length (has_read s) };

    ghost due = { λ s. 0 };

    ghost holds = { λ s. Unit {0} };

    ghost answers = { λ task before now s step. ReadsScattered A.tells task (A.reader before) (A.reader now) T.held s step };

    ghost short = { λ before now s end. IfErr end.0 (IsShort A.tells (A.reader before) (A.reader now) (wanted s)) };

    ghost goes = { λ before now s next. HasScattered A.tells (A.reader before) (A.reader now) s next };

    ghost ended = { λ before now s end. ScatterRunEnd A.tells (A.reader before) (A.reader now) T.held s end };

    #[tactic(auto, using(crate::proofs::ScatterRuns::scatter_none, crate::proofs::ScatterRuns::scatter_advances))]
    fn laws(&self) {}

    fn poll_by(
        self,
        io: &mut A,
        call: &C,
        task: u64,
    ) -> Step<VectoredExactState<T>, BufResult<usize, T>> {
        let VectoredExactState {
            buf,
            part,
            filled,
            total,
        } = self;
        let (into, at) = match next_room(&buf, part, filled) {
            Some(place) => place,
            None => return Step::Ready((Ok(total), buf)),
        };
        match read_part(io, call, buf, into, at, task) {
            PollBuf::Ready(Ok(n), buf) => {
                if n == 0 {
                    return Step::Ready((Err(IoFault::UnexpectedEof), buf));
                }
                buf.keeps_bounds();
                match next_room(&buf, into, at + n) {
                    None => Step::Ready((Ok(total), buf)),
                    Some((part, filled)) => Step::Again(VectoredExactState {
                        buf,
                        part,
                        filled,
                        total,
                    }),
                }
            }
            PollBuf::Ready(Err(fault), buf) => Step::Ready((Err(fault), buf)),
            PollBuf::Pending(buf) => Step::Pending(VectoredExactState {
                buf,
                part,
                filled,
                total,
            }),
            PollBuf::Again(buf) => Step::Again(VectoredExactState {
                buf,
                part,
                filled,
                total,
            }),
        }
    }
}

// From a place of a part on, the first place with room, if any.
#[tactic(auto, using(crate::proofs::SingleParts::length_bytes, crate::proofs::Scatters::passing))]
fn next_room<T: IoVecBufMut>(buf: &T, part: usize, filled: usize) -> Option<(usize, usize)>
    requires bound { part ≤ length (T.held buf.now) }
    requires full { AreFullBefore (T.held buf.now) part }
    requires within { filled ≤ length (part_at (T.held buf.now) part).bytes }
    ensures { NextRoom (T.held buf.now) part filled result }
{
    buf.keeps_bounds();
    let count = buf.parts_len();
    let mut filled = filled;
    for i in part..count {
        if filled < buf.room(i) {
            return Some((i, filled));
        }
        filled = 0;
    }
    None
}
