//! The events of cancellers and their groups.
ghost use Rattle.std.specs.Prelude.{ℕ, ◌↔◌, ◌⊎◌, IfOk, IsTrue};
ghost use Rattle.fault_run.specs.Events.{CancelsGroup, HasGroup, MakesCanceller, MakesHandle, RefusesNoGroup};

use super::{FaultSession, refused};
use crate::answer::Answer;
use machine::{Refusal, Reply};
use rent_buf::OutOfMemory;

impl FaultSession {
    // A canceller is created. The memory of its place is taken before the driver changes.
    pub(super) fn new_canceller(&mut self) -> Result<Answer, OutOfMemory>
        ensures { IfOk result (λ answer. MakesCanceller self.old answer self.new) }
    {
        if self.tokens.reserve_canceller().is_err() {
            return Err(OutOfMemory);
        }
        match self.driver.new_canceller() {
            Ok(canceller) => Ok(Answer::Plain(Reply::Canceller(
                self.tokens.add_canceller(canceller),
            ))),
            Err(_) => Err(OutOfMemory),
        }
    }

    // A cancel handle of a canceller's present group is created.
    pub(super) fn new_handle(&mut self, c: u64) -> Result<Answer, OutOfMemory>
        ensures { IfOk result (λ answer. RefusesNoGroup self.old c answer self.new ⊎ MakesHandle self.old c answer self.new) }
    {
        match self.tokens.canceller(c as usize) {
            None => Ok(refused(Refusal::NoCanceller)),
            Some(canceller) => {
                if canceller.group() >= self.driver.groups() {
                    return Ok(refused(Refusal::NoCanceller));
                }
                let handle = self.driver.cancel_handle(canceller);
                match self.tokens.add_handle(handle) {
                    Ok(number) => Ok(Answer::Plain(Reply::CancelHandle(number))),
                    Err(_) => Err(OutOfMemory),
                }
            }
        }
    }

    // A canceller's present group is canceled, and the canceller has a fresh one.
    pub(super) fn cancel_all(&mut self, c: u64) -> Result<Answer, OutOfMemory>
        ensures { IfOk result (λ answer. RefusesNoGroup self.old c answer self.new ⊎ CancelsGroup self.old c answer self.new) }
    {
        if !self.has_group(c) {
            return Ok(refused(Refusal::NoCanceller));
        }
        let Some(canceller) = self.tokens.take_canceller(c as usize) else {
            unreachable!();
        };
        match self.driver.cancel(canceller) {
            Ok((fresh, numbers)) => {
                self.tokens.put_canceller(c as usize, fresh);
                Ok(Answer::Plain(Reply::Cancels(numbers)))
            }
            Err((_, same)) => {
                self.tokens.put_canceller(c as usize, same);
                Err(OutOfMemory)
            }
        }
    }

    // There is a canceller of a number, and the driver has its group.
    fn has_group(&self, c: u64) -> bool
        ensures { IsTrue result ↔ ((group : ℕ) × HasGroup self.now c group) }
    {
        match self.tokens.canceller(c as usize) {
            None => false,
            Some(canceller) => canceller.group() < self.driver.groups(),
        }
    }
}
