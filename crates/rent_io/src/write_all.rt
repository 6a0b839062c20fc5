//! A write of all bytes of a buffer.
ghost use Rattle.std.specs.Prelude.{◌≡◌, length, IfErr};
ghost use Rattle.rent_io.specs.Polls.{TookNone};
ghost use Rattle.rent_io.specs.Runs.{EndsAll, HasSent};
ghost use Rattle.rent_io.specs.State.{plain, under};
ghost use Rattle.rent_io.specs.WriteAll.{WritesAll, sending};
ghost use Rattle.rent_io.specs.Writer.{EndsStay};

use crate::async_write_rent::AsyncWriteRent;
use crate::calls::{Plain, WriteCall};
use crate::poll::{PollBuf, Step};
use crate::state::{Polled, StateBy};
use cancel_core::CancelHandle;
use rent_buf::{BufResult, IoBuf, IoFault, Slice};
use std::marker::Model;

/// The state of a `WriteAll`. A clause sees it as the buffer, the bytes that are still to be written, and how many
/// bytes the buffer has.
#[derive(Debug, Drop)]
pub struct AllState<T: IoBuf> {
    buf: T,
    sent: usize,
}

impl<T: IoBuf> Model for AllState<T> {
    ghost use Rattle.std.specs.Prelude.{◌≤◌, length, drop};
    ghost use Rattle.rent_io.specs.WriteAll.{Sending};

    ghost Value = { Sending T };

    ghost view = { λ s. record { buf = s.buf; rest = drop s.sent (T.content s.buf); total = length (T.content s.buf) } };

    ghost invariant = { λ s. s.sent ≤ length (T.content s.buf) };
}

/// A write of all bytes of a buffer, as `write_all` starts it (monoio: the future of `write_all`). It is done with the
/// number of the buffer's bytes, once all are delivered; with `WriteZero`, where a write took none of some bytes; or
/// with the stream's fault (`WritesAll`). Over many polls the bytes that the stream took are the first ones, each once
/// and in order (`HasSent`, `EndsAll`).
pub type WriteAll<T> = StateBy<AllState<T>, Plain>;

/// The same under a cancel group (monoio: the future of `write_all` of `CancelableAsyncWriteRentExt`).
pub type CancelableWriteAll<T> = StateBy<AllState<T>, CancelHandle>;

impl<T: IoBuf> AllState<T> {
    // A write that starts.
    pub(crate) fn new(buf: T) -> AllState<T>
        ensures { result ≡ sending buf (T.content buf) }
    {
        AllState { buf, sent: 0 }
    }
}

impl<T: IoBuf> StateBy<AllState<T>, Plain> {
    /// A write of this buffer's bytes.
    pub fn new(buf: T) -> WriteAll<T>
        ensures { result ≡ plain (sending buf (T.content buf)) }
    {
        StateBy::by(AllState::new(buf), Plain)
    }
}

impl<T: IoBuf> StateBy<AllState<T>, CancelHandle> {
    /// A write of this buffer's bytes, under the group of `c`.
    pub fn new(buf: T, c: CancelHandle) -> CancelableWriteAll<T>
        ensures { result ≡ under c (sending buf (T.content buf)) }
    {
        StateBy::by(AllState::new(buf), c)
    }
}

impl<T: IoBuf, A: AsyncWriteRent, C: WriteCall<A>> Polled<A, C> for AllState<T> {
    type End = BufResult<usize, T>;

    ghost counts = { λ io. (A.writer io).counts };

    ghost moved = { λ s. 0 };

    ghost due = { λ s. length s.rest };

    ghost holds = { λ s. Unit {0} };

    ghost answers = { λ task before now s step. WritesAll A.tells task (A.writer before) (A.writer now) s step
        × EndsStay (A.writer before) (A.writer now) };

    ghost short = { λ before now s end. IfErr end.0 (TookNone (A.writer before).counts (A.writer now).counts) };

    ghost goes = { λ before now s next. HasSent A.tells (A.writer before) (A.writer now) s next };

    ghost ended = { λ before now s end. EndsAll A.tells (A.writer before) (A.writer now) s end };

    #[tactic(auto, using(crate::proofs::SendRuns::send_none, crate::proofs::SendRuns::all_advances))]
    fn laws(&self) {}

    fn poll_by(self, io: &mut A, call: &C, task: u64) -> Step<AllState<T>, BufResult<usize, T>> {
        let AllState { buf, sent } = self;
        let total = buf.bytes_init();
        if sent == total {
            return Step::Ready((Ok(total), buf));
        }
        match call.write(io, Slice::new(buf, sent, total), task) {
            PollBuf::Ready(Ok(n), part) => {
                let buf = part.into_inner();
                if n == 0 {
                    return Step::Ready((Err(IoFault::WriteZero), buf));
                }
                let sent = sent + n;
                if sent == total {
                    return Step::Ready((Ok(total), buf));
                }
                Step::Again(AllState { buf, sent })
            }
            PollBuf::Ready(Err(fault), part) => Step::Ready((Err(fault), part.into_inner())),
            PollBuf::Pending(part) => Step::Pending(AllState {
                buf: part.into_inner(),
                sent,
            }),
            PollBuf::Again(part) => Step::Again(AllState {
                buf: part.into_inner(),
                sent,
            }),
        }
    }
}
