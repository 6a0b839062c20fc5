//! What lines say of the ring, and what it shows.
ghost use Rattle.std.specs.Prelude.{◌≡◌, IfOk, map};
ghost use Rattle.fault_run.specs.Events.{driver_in};
ghost use Rattle.fault_run.specs.Steps.{Completes, shown_of};
ghost use Rattle.fault_run.specs.Steps as steps;

use super::FaultSession;
use crate::answer::{Answer, Shown};
use machine::{Completion, Outcome, Told};
use rent_buf::{NumList, OutOfMemory};
use ring_core::{MemRing, Ring};
use std::alloc::Global;

impl FaultSession {
    // A completion of a data word joins those that are ready.
    pub(super) fn complete(&mut self, word: u64, told: Told) -> Result<Answer, OutOfMemory>
        ensures { IfOk result (λ answer. Completes self.old word told answer self.new) }
    {
        let completion = Completion {
            word,
            serial: 0,
            outcome: outcome_of(told),
        };
        match self.driver.inject(completion) {
            Ok(()) => Ok(Answer::Completed),
            Err(_) => Err(OutOfMemory),
        }
    }

    // The ring is looked at.
    pub(super) fn show(&self) -> Result<Answer, OutOfMemory>
        ensures { IfOk result (λ answer. answer ≡ Answer.Ring (shown_of (driver_in self.now))) }
    {
        let ring = self.driver.ring().ring();
        let words = words_of(self.alloc, ring)?;
        Ok(Answer::Ring(Shown {
            queued: ring.queued(),
            due: self.driver.due(),
            ready: ring.standing(),
            words,
        }))
    }
}

// The outcome that is told.
fn outcome_of(told: Told) -> Outcome
    ensures { result ≡ steps.outcome_of told }
{
    match told {
        Told::Count(count) => Outcome::Count(count),
        Told::Fail(error) => Outcome::Fail(error),
    }
}

// The data words of what is in flight.
fn words_of(alloc: Global, ring: &MemRing) -> Result<NumList, OutOfMemory>
    ensures { IfOk result (λ words. words ≡ map (λ flight. flight.entry.word) ring.now.flying) }
{
    let mut words = NumList::new(alloc);
    while let Some(entry) = ring.flying_at(words.len()) {
        words.push(entry.word)?;
    }
    Ok(words)
}
