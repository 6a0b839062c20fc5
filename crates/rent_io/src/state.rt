//! States: reads and writes of many calls, which are polled with their stream until they are done.
ghost use Rattle.std.specs.Prelude.{◌≡◌, ◌+◌, ◌<◌};
ghost use Rattle.rent_io.specs.Completeness.{Completes};
ghost use Rattle.rent_io.specs.Counts.{AfterCall};
ghost use Rattle.rent_io.specs.State.{IfGoesOn, KeepsGroup, Ran, plainly};
ghost use Rattle.rent_io.specs.Runs.{AfterCalls, AreUsed};

use crate::calls::HowCalled;
use crate::poll::Step;
use std::marker::Model;

/// What a state does, with a stream of the type `A` and calls of the kind `C` (not in monoio).
pub trait Polled<A, C: HowCalled>: Sized {
    /// What it is done with.
    type End;

    ghost use Rattle.std.specs.Prelude.{ℕ, ◌≤◌};
    ghost use Rattle.rent_io.specs.Counts.{AfterCall, Counts};
    ghost use Rattle.rent_io.specs.State.{Advances, Ran};
    ghost use Rattle.rent_io.specs.declared.poll.Step.{Step};

    /// The counts of the stream.
    ghost counts: { A → Counts };

    /// How many bytes (or items) it has moved, as far as it tells that.
    ghost moved: { Self → ℕ };

    /// How many are still to be moved, as far as it tells that.
    ghost due: { Self → ℕ };

    /// What holds of each such state.
    ghost holds: { Self → Type 0 };

    /// What a poll for a task does.
    ghost answers: { ℕ → A → A → Self → Step Self Self.End → Type 0 };

    /// How a poll ends in which no count of faults, pauses or interrupts rose.
    ghost short: { A → A → Self → Self.End → Type 0 };

    /// What polls have done none of which was the end.
    ghost goes: { A → A → Self → Self → Type 0 };

    /// What polls have done the last of which was the end.
    ghost ended: { A → A → Self → Self.End → Type 0 };

    /// Does nothing, and tells what holds of it, and the laws of its kind.
    fn laws(&self)
        ensures holds { holds self.now }

        // No polls.
        ensures no_polls { (io : A) (s : Self) → goes io io s s }

        // One poll more.
        ensures one_more { (task : ℕ) (start mid now : A) (s t : Self) (step : Step Self Self.End) → holds s
            → (counts start).faults ≤ (counts mid).faults → (counts start).zeros ≤ (counts mid).zeros
            → goes start mid s t → answers task mid now t step → Ran (ended start now s) (goes start now s) step }

        // A poll that isn't the end had a cause, or moved something; and how it ends where no count rose.
        ensures advances { (task : ℕ) (before now : A) (s : Self) (step : Step Self Self.End) → answers task before now s step
            → Advances moved due (short before now s) (counts before) (counts now) s step };

    /// Makes one call at most, so.
    fn poll_by(self, io: &mut A, call: &C, task: u64) -> Step<Self, Self::End>
        ensures answer { answers task io.old io.new self result }
        ensures counts { AfterCall (C.group call.now) (counts io.old) (counts io.new) };
}

/// A state, and how its calls are made: the states of `ReadExact` and its like (not in monoio). A clause sees the state,
/// and the cancel group that its calls are put under, if any.
#[derive(Debug, Drop)]
#[must_use]
pub struct StateBy<S, C: HowCalled> {
    state: S,
    call: C,
}

impl<S, C: HowCalled> Model for StateBy<S, C> {
    ghost use Rattle.rent_io.specs.State.{Called};

    ghost Value = { Called S };

    ghost view = { λ s. record { state = s.state; group = C.group s.call } };
}

impl<S, C: HowCalled> StateBy<S, C> {
    /// A state whose calls are made so.
    pub fn by(state: S, call: C) -> StateBy<S, C>
        ensures { result ≡ record { state = state; group = C.group call } }
    {
        StateBy { state, call }
    }

    /// Makes one call of the stream at most, and answers what it came to. `Pending` comes only where the stream paused,
    /// and will wake this task: nothing moved then. `Again` comes where the stream was interrupted, or something moved
    /// and more is to come. What each state is done with, and when, is said at its name.
    pub fn poll<A>(self, io: &mut A, task: u64) -> Step<StateBy<S, C>, S::End>
    where
        S: Polled<A, C>,
        ensures answer { S.answers task io.old io.new self.state (plainly result) }
        ensures group { KeepsGroup self.group result }
        ensures counts { AfterCall self.group (S.counts io.old) (S.counts io.new) }
        ensures complete { Completes (S.counts io.old) (S.counts io.new) (plainly result) (S.short io.old io.new self.state)
            (λ next. S.moved self.state + S.due next < S.moved next + S.due self.state) }
    {
        let StateBy { state, call } = self;
        state.laws();
        match state.poll_by(io, &call, task) {
            Step::Ready(end) => Step::Ready(end),
            Step::Pending(state) => Step::Pending(StateBy { state, call }),
            Step::Again(state) => Step::Again(StateBy { state, call }),
        }
    }

    /// Polls it until it is done, `polls` times at most: again at once also after a pause, so it is for tests and
    /// proofs (not in monoio). Whatever the stream answered, the clause `run` is one law. `Again` means that the polls
    /// are used up.
    pub fn drive<A>(self, io: &mut A, task: u64, polls: u64) -> Step<StateBy<S, C>, S::End>
    where
        S: Polled<A, C>,
        ensures run { Ran (S.ended io.old io.new self.state) (S.goes io.old io.new self.state) (plainly result) }
        ensures group { KeepsGroup self.group result }
        ensures used { IfGoesOn (plainly result) (λ next. AreUsed polls (S.moved self.state + S.due next)
            (S.moved next + S.due self.state) (S.counts io.old) (S.counts io.new)) }
        ensures counts { AfterCalls self.group polls (S.counts io.old) (S.counts io.new) }
    {
        let StateBy { mut state, call } = self;
        state.laws();
        for _ in 0..polls {
            match state.poll_by(io, &call, task) {
                Step::Ready(end) => return Step::Ready(end),
                Step::Pending(next) => state = next,
                Step::Again(next) => state = next,
            }
        }
        Step::Again(StateBy { state, call })
    }
}
