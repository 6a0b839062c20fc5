//! A write of all bytes of a vector of buffers.
ghost use Rattle.std.specs.Prelude.{◌≡◌, ◌^◌, ◌<◌, ◌≤◌, [], length, sum_by, slice_index_or, IsOk, IfOk, IfErr};
ghost use Rattle.rent_io.specs.Polls.{TookNone};
ghost use Rattle.rent_io.specs.Runs.{EndsAll, HasSent};
ghost use Rattle.rent_io.specs.State.{plain, under};
ghost use Rattle.rent_io.specs.WriteAll.{WritesAll, sending_parts};
ghost use Rattle.rent_io.specs.WriteVectoredAll.{NextPlace};
ghost use Rattle.rent_io.specs.Writer.{EndsStay};

use crate::async_write_rent::AsyncWriteRent;
use crate::calls::{Plain, WriteCall};
use crate::part::PartFrom;
use crate::poll::{PollBuf, Step};
use crate::state::{Polled, StateBy};
use cancel_core::CancelHandle;
use rent_buf::{BufResult, IoFault, IoVecBuf, OutOfMemory};
use std::marker::Model;

/// The state of a `WriteVectoredAll`. A clause sees it as the vector, the bytes that are still to be written, and how
/// many bytes the vector has.
#[derive(Debug, Drop)]
pub struct VectoredAllState<T: IoVecBuf> {
    buf: T,
    // The first part that isn't written whole, and how much of it is written.
    part: usize,
    sent: usize,
    total: usize,
}

impl<T: IoVecBuf> Model for VectoredAllState<T> {
    ghost use Rattle.std.specs.Prelude.{◌≤◌, ◌≡◌, [], length, sum_by, slice_index_or};
    ghost use Rattle.rent_io.specs.WriteAll.{Sending};
    ghost use Rattle.rent_io.specs.WriteVectoredAll.{rest_from};

    ghost Value = { Sending T };

    ghost view = { λ s. record { buf = s.buf; rest = rest_from (T.parts s.buf) s.part s.sent; total = s.total } };

    ghost invariant = { λ s. s.sent ≤ length (slice_index_or (T.parts s.buf) s.part []) };
}

/// A write of all bytes of a vector of buffers, as `write_vectored_all` starts it (monoio: the future of
/// `write_vectored_all`): each poll writes of one part that has bytes left. It is done as a `WriteAll`, with the number
/// of the vector's bytes.
pub type WriteVectoredAll<T> = StateBy<VectoredAllState<T>, Plain>;

/// The same under a cancel group (monoio: the future of `write_vectored_all` of `CancelableAsyncWriteRentExt`).
pub type CancelableWriteVectoredAll<T> = StateBy<VectoredAllState<T>, CancelHandle>;

impl<T: IoVecBuf> VectoredAllState<T> {
    // A write that starts.
    pub(crate) fn new(buf: T) -> VectoredAllState<T>
        requires { sum_by length (T.parts buf) < 2 ^ 64 }
        ensures { result ≡ sending_parts buf (T.parts buf) }
    {
        let total = total_len(&buf);
        VectoredAllState {
            buf,
            part: 0,
            sent: 0,
            total,
        }
    }
}

impl<T: IoVecBuf> StateBy<VectoredAllState<T>, Plain> {
    /// A write of the bytes of the parts, in order. `Ranges::read_fits` tests whether their number fits `usize`. It
    /// takes no memory, so the answer is always `Ok`.
    pub fn new(buf: T) -> Result<WriteVectoredAll<T>, (OutOfMemory, T)>
        requires { sum_by length (T.parts buf) < 2 ^ 64 }
        ensures made { IsOk result }
        ensures value { IfOk result (λ s. s ≡ plain (sending_parts buf (T.parts buf))) }
    {
        Ok(StateBy::by(VectoredAllState::new(buf), Plain))
    }
}

impl<T: IoVecBuf> StateBy<VectoredAllState<T>, CancelHandle> {
    /// A write of the bytes of the parts, in order, under the group of `c`. It takes no memory, so the answer is always
    /// `Ok`.
    pub fn new(buf: T, c: CancelHandle) -> Result<CancelableWriteVectoredAll<T>, (OutOfMemory, T)>
        requires { sum_by length (T.parts buf) < 2 ^ 64 }
        ensures made { IsOk result }
        ensures value { IfOk result (λ s. s ≡ under c (sending_parts buf (T.parts buf))) }
    {
        Ok(StateBy::by(VectoredAllState::new(buf), c))
    }
}

impl<T: IoVecBuf, A: AsyncWriteRent, C: WriteCall<A>> Polled<A, C> for VectoredAllState<T> {
    type End = BufResult<usize, T>;

    ghost counts = { λ io. (A.writer io).counts };

    ghost moved = { λ s. 0 };

    ghost due = { λ s. length s.rest };

    ghost holds = { λ s. Unit {0} };

    ghost answers = { λ task before now s step. WritesAll A.tells task (A.writer before) (A.writer now) s step
        × EndsStay (A.writer before) (A.writer now) };

    ghost short = { λ before now s end. IfErr end.0 (TookNone (A.writer before).counts (A.writer now).counts) };

    ghost goes = { λ before now s next. HasSent A.tells (A.writer before) (A.writer now) s next };

    ghost ended = { λ before now s end. EndsAll A.tells (A.writer before) (A.writer now) s end };

    #[tactic(auto, using(crate::proofs::SendRuns::send_none, crate::proofs::SendRuns::all_advances))]
    fn laws(&self) {}

    fn poll_by(
        self,
        io: &mut A,
        call: &C,
        task: u64,
    ) -> Step<VectoredAllState<T>, BufResult<usize, T>> {
        let VectoredAllState {
            buf,
            part,
            sent,
            total,
        } = self;
        let (part, sent) = match next_place(&buf, part, sent) {
            Some(place) => place,
            None => return Step::Ready((Ok(total), buf)),
        };
        match call.write(io, PartFrom::new(buf, part, sent), task) {
            PollBuf::Ready(Ok(n), slice) => {
                let upto = slice.place_behind(n);
                let buf = slice.into_inner();
                if n == 0 {
                    return Step::Ready((Err(IoFault::WriteZero), buf));
                }
                match next_place(&buf, part, upto) {
                    None => Step::Ready((Ok(total), buf)),
                    Some((part, sent)) => Step::Again(VectoredAllState {
                        buf,
                        part,
                        sent,
                        total,
                    }),
                }
            }
            PollBuf::Ready(Err(fault), slice) => Step::Ready((Err(fault), slice.into_inner())),
            PollBuf::Pending(slice) => Step::Pending(VectoredAllState {
                buf: slice.into_inner(),
                part,
                sent,
                total,
            }),
            PollBuf::Again(slice) => Step::Again(VectoredAllState {
                buf: slice.into_inner(),
                part,
                sent,
                total,
            }),
        }
    }
}

// The sum of the parts' lengths.
fn total_len<T: IoVecBuf>(buf: &T) -> usize
    requires { sum_by length (T.parts buf.now) < 2 ^ 64 }
    ensures { result ≡ sum_by length (T.parts buf.now) }
{
    let mut sum = 0;
    for i in 0..buf.parts_len() {
        sum += buf.part(i).len();
    }
    sum
}

// From a place of a part on, the first place with a byte, if any.
#[tactic(auto, using(crate::proofs::Rests::rest_passed, crate::proofs::Rests::rest_none))]
fn next_place<T: IoVecBuf>(buf: &T, part: usize, sent: usize) -> Option<(usize, usize)>
    requires { sent ≤ length (slice_index_or (T.parts buf.now) part []) }
    ensures { NextPlace (T.parts buf.now) part sent result }
{
    let count = buf.parts_len();
    let mut sent = sent;
    for i in part..count {
        if sent < buf.part(i).len() {
            return Some((i, sent));
        }
        sent = 0;
    }
    None
}
