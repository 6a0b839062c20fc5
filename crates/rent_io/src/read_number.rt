//! A read of a number.
ghost use Rattle.std.specs.Prelude.{◌≡◌, ◌-◌, length, IfOk, IfErr};
ghost use Rattle.rent_io.specs.Completeness.{IsShort};
ghost use Rattle.rent_io.specs.ReadNumber.{HasDigits, NumberRunEnd, ReadsNumber, number_of};
ghost use Rattle.rent_io.specs.State.{plain, under};

use crate::async_read_rent::AsyncReadRent;
use crate::calls::{Plain, ReadCall};
use crate::number::Number;
use crate::poll::Step;
use crate::read_exact::ExactState;
use crate::state::{Polled, StateBy};
use cancel_core::CancelHandle;
use rent_buf::{IoBuf as _, IoFault, OutOfMemory, Rent};
use std::alloc::Global;
use std::marker::{Model, PhantomData};

/// The state of a `ReadNumber`. A clause sees it as the order of the bytes, those that it has, and how many there will
/// be.
#[derive(Drop)]
pub struct NumberState<N: Number> {
    exact: ExactState<Rent>,
    little: bool,
    number: PhantomData<N>,
}

impl<N: Number> Model for NumberState<N> {
    ghost use Rattle.rent_io.specs.ReadNumber.{Numbering, IsReading};

    ghost Value = { Numbering };

    ghost view = { λ r. record { little = r.little; bytes = r.exact.buffer.bytes; size = N.SIZE } };

    ghost invariant = { λ r. IsReading N.SIZE r.exact };
}

/// A read of a number, as `read_u16` and its like start it (monoio: the future of `read_u16` and its like). It is done
/// with the number, once all its bytes are there; with `UnexpectedEof`, where the stream ended before; or with the
/// stream's fault (`ReadsNumber`). Over many polls the number is that of the bytes that left the stream (`HasDigits`,
/// `NumberRunEnd`).
pub type ReadNumber<N> = StateBy<NumberState<N>, Plain>;

/// The same under a cancel group (monoio: the future of `cancelable_read_u16` and its like).
pub type CancelableReadNumber<N> = StateBy<NumberState<N>, CancelHandle>;

impl<N: Number> NumberState<N> {
    // A read that starts.
    pub(crate) fn new(alloc: Global, little: bool) -> Result<NumberState<N>, OutOfMemory>
        ensures { IfOk result (λ r. r ≡ number_of little N.SIZE) }
    {
        let rent = Rent::with_total(alloc, N::SIZE)?;
        Ok(NumberState {
            exact: ExactState::new(rent),
            little,
            number: PhantomData,
        })
    }
}

impl<N: Number> StateBy<NumberState<N>, Plain> {
    /// A read of a number, whose least significant byte is the first one if it is `little`, and else the last one; or
    /// `OutOfMemory`.
    pub fn new(alloc: Global, little: bool) -> Result<ReadNumber<N>, OutOfMemory>
        ensures { IfOk result (λ r. r ≡ plain (number_of little N.SIZE)) }
    {
        Ok(StateBy::by(NumberState::new(alloc, little)?, Plain))
    }
}

impl<N: Number> StateBy<NumberState<N>, CancelHandle> {
    /// The same under the group of `c`.
    pub fn new(
        alloc: Global,
        little: bool,
        c: CancelHandle,
    ) -> Result<CancelableReadNumber<N>, OutOfMemory>
        ensures { IfOk result (λ r. r ≡ under c (number_of little N.SIZE)) }
    {
        Ok(StateBy::by(NumberState::new(alloc, little)?, c))
    }
}

impl<N: Number, A: AsyncReadRent, C: ReadCall<A>> Polled<A, C> for NumberState<N> {
    type End = Result<N, IoFault>;

    ghost counts = { λ io. (A.reader io).counts };

    ghost moved = { λ r. length r.bytes };

    ghost due = { λ r. 0 };

    ghost holds = { λ r. Unit {0} };

    ghost answers = { λ task before now r step. ReadsNumber A.tells task (A.reader before) (A.reader now) N.value r step };

    ghost short = { λ before now r end. IfErr end (IsShort A.tells (A.reader before) (A.reader now) (r.size - length r.bytes)) };

    ghost goes = { λ before now r next. HasDigits A.tells (A.reader before) (A.reader now) r next };

    ghost ended = { λ before now r end. NumberRunEnd A.tells (A.reader before) (A.reader now) N.value r end };

    #[tactic(auto, using(crate::proofs::NumberRuns::laws))]
    fn laws(&self) {}

    fn poll_by(self, io: &mut A, call: &C, task: u64) -> Step<NumberState<N>, Result<N, IoFault>> {
        let NumberState {
            exact,
            little,
            number,
        } = self;
        match exact.poll_by(io, call, task) {
            Step::Ready((outcome, rent)) => match outcome {
                Ok(_) => Step::Ready(Ok(N::of(rent.bytes(), little))),
                Err(fault) => Step::Ready(Err(fault)),
            },
            Step::Pending(exact) => Step::Pending(NumberState {
                exact,
                little,
                number,
            }),
            Step::Again(exact) => Step::Again(NumberState {
                exact,
                little,
                number,
            }),
        }
    }
}
