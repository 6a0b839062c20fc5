//! A read that fills its buffer.
ghost use Rattle.std.specs.Prelude.{◌≡◌, ◌+◌, ◌≤◌, length, IfErr};
ghost use Rattle.rent_io.specs.Completeness.{IsShort};
ghost use Rattle.rent_io.specs.ReadExact.{EndsExact, HasFilled, ReadsExact, filling, lacks};
ghost use Rattle.rent_io.specs.State.{plain, under};

use crate::async_read_rent::AsyncReadRent;
use crate::calls::{Plain, ReadCall};
use crate::poll::{PollBuf, Step};
use crate::state::{Polled, StateBy};
use cancel_core::CancelHandle;
use rent_buf::{BufResult, IoBufMut, IoFault, SliceMut};
use std::marker::Model;

/// The state of a `ReadExact`. A clause sees it as the buffer, and how many bytes of its range are filled.
#[derive(Debug, Drop)]
pub struct ExactState<T: IoBufMut> {
    buf: T,
    filled: usize,
}

impl<T: IoBufMut> Model for ExactState<T> {
    ghost use Rattle.std.specs.Prelude.{◌≤◌, length};
    ghost use Rattle.rent_buf.specs.Buffer.{room, shown};
    ghost use Rattle.rent_io.specs.ReadExact.{Filling};

    ghost Value = { Filling };

    ghost view = { λ s. record { buffer = T.buffer s.buf; under = T.under s.buf; beside = T.beside s.buf; filled = s.filled } };

    ghost invariant = { λ s. (s.filled ≤ room (T.buffer s.buf)) × (s.filled ≤ length (shown (T.buffer s.buf))) };
}

/// A read that fills its buffer, as `read_exact` starts it (monoio: the future of `read_exact`). It is done with the
/// number of the bytes that the range has room for, once it is full; with `UnexpectedEof`, where a read gave no byte
/// though there is room; or with the stream's fault (`ReadsExact`). Over many polls the bytes that left the stream are
/// stored in the range, one behind the other, each once (`HasFilled`, `EndsExact`).
pub type ReadExact<T> = StateBy<ExactState<T>, Plain>;

/// The same under a cancel group (monoio: the future of `cancelable_read_exact`).
pub type CancelableReadExact<T> = StateBy<ExactState<T>, CancelHandle>;

impl<T: IoBufMut> ExactState<T> {
    // A read that starts.
    pub(crate) fn new(buf: T) -> ExactState<T>
        ensures { result ≡ filling (T.buffer buf) (T.under buf) (T.beside buf) }
    {
        ExactState { buf, filled: 0 }
    }
}

impl<T: IoBufMut> StateBy<ExactState<T>, Plain> {
    /// A read that fills this buffer's range from its start.
    pub fn new(buf: T) -> ReadExact<T>
        ensures { result ≡ plain (filling (T.buffer buf) (T.under buf) (T.beside buf)) }
    {
        StateBy::by(ExactState::new(buf), Plain)
    }
}

impl<T: IoBufMut> StateBy<ExactState<T>, CancelHandle> {
    /// A read that fills this buffer's range from its start, under the group of `c`.
    pub fn new(buf: T, c: CancelHandle) -> CancelableReadExact<T>
        ensures { result ≡ under c (filling (T.buffer buf) (T.under buf) (T.beside buf)) }
    {
        StateBy::by(ExactState::new(buf), c)
    }
}

impl<T: IoBufMut, A: AsyncReadRent, C: ReadCall<A>> Polled<A, C> for ExactState<T> {
    type End = BufResult<usize, T>;

    ghost counts = { λ io. (A.reader io).counts };

    ghost moved = { λ f. f.filled };

    ghost due = { λ f. 0 };

    ghost holds = { λ f. f.buffer.begin + f.filled ≤ length f.buffer.bytes };

    ghost answers = { λ task before now f step. ReadsExact A.tells task (A.reader before) (A.reader now) T.buffer T.under T.beside f step };

    ghost short = { λ before now f end. IfErr end.0 (IsShort A.tells (A.reader before) (A.reader now) (lacks f)) };

    ghost goes = { λ before now f next. HasFilled A.tells (A.reader before) (A.reader now) f next };

    ghost ended = { λ before now f end. EndsExact A.tells (A.reader before) (A.reader now) T.buffer T.under T.beside f end };

    #[tactic(auto, using(crate::proofs::ExactRuns::laws))]
    fn laws(&self) {
        self.buf.keeps_bounds();
    }

    fn poll_by(self, io: &mut A, call: &C, task: u64) -> Step<ExactState<T>, BufResult<usize, T>> {
        let ExactState { buf, filled } = self;
        let total = buf.bytes_total();
        if filled == total {
            return Step::Ready((Ok(total), buf));
        }
        match call.read(io, SliceMut::new(buf, filled, total), task) {
            PollBuf::Ready(Ok(n), part) => {
                let buf = part.into_inner();
                if n == 0 {
                    return Step::Ready((Err(IoFault::UnexpectedEof), buf));
                }
                let filled = filled + n;
                if filled == total {
                    return Step::Ready((Ok(total), buf));
                }
                Step::Again(ExactState { buf, filled })
            }
            PollBuf::Ready(Err(fault), part) => Step::Ready((Err(fault), part.into_inner())),
            PollBuf::Pending(part) => Step::Pending(ExactState {
                buf: part.into_inner(),
                filled,
            }),
            PollBuf::Again(part) => Step::Again(ExactState {
                buf: part.into_inner(),
                filled,
            }),
        }
    }
}
