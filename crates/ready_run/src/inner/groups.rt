//! The events of cancellers and their groups.
ghost use Rattle.machine.specs.declared.ledger.Event.TheVariants.{NewCanceller, NewHandle, CancelAll};
ghost use Rattle.ready_driver.specs.Legacy.{Legacy};
ghost use Rattle.ready_run.specs.ReadySession.{SessionStands, AreParts, StepsFor};

use super::Inner;
use machine::{Refusal, Reply};
use rent_buf::OutOfMemory;

impl Inner {
    // A canceller is created. The memory of its place is taken before the driver changes.
    pub(super) fn new_canceller(&mut self) -> Result<Reply, OutOfMemory>
        ensures { (D : Legacy) → SessionStands self.old D → StepsFor D NewCanceller self.new result }
    {
        if self.tokens.reserve_canceller().is_err() {
            return Err(OutOfMemory);
        }
        match self.driver.new_canceller() {
            Ok(canceller) => Ok(Reply::Canceller(self.tokens.add_canceller(canceller))),
            Err(_) => Err(OutOfMemory),
        }
    }

    // A cancel handle of a canceller's present group is created.
    pub(super) fn new_handle(&mut self, c: u64) -> Result<Reply, OutOfMemory>
        requires { AreParts self.old }
        ensures { (D : Legacy) → SessionStands self.old D → StepsFor D (NewHandle c) self.new result }
    {
        match self.tokens.canceller(c as usize) {
            None => Ok(Reply::Refused(Refusal::NoCanceller)),
            Some(canceller) => {
                let handle = self.driver.cancel_handle(canceller);
                match self.tokens.add_handle(handle) {
                    Ok(number) => Ok(Reply::CancelHandle(number)),
                    Err(_) => Err(OutOfMemory),
                }
            }
        }
    }

    // A canceller's present group is canceled, and the canceller has a fresh one.
    pub(super) fn cancel_all(&mut self, c: u64) -> Result<Reply, OutOfMemory>
        requires { AreParts self.old }
        ensures { (D : Legacy) → SessionStands self.old D → StepsFor D (CancelAll c) self.new result }
    {
        match self.tokens.take_canceller(c as usize) {
            None => Ok(Reply::Refused(Refusal::NoCanceller)),
            Some(canceller) => match self.driver.cancel(canceller) {
                Ok((fresh, numbers)) => {
                    self.tokens.put_canceller(c as usize, fresh);
                    Ok(Reply::Cancels(numbers))
                }
                Err((_, same)) => {
                    self.tokens.put_canceller(c as usize, same);
                    Err(OutOfMemory)
                }
            },
        }
    }
}
