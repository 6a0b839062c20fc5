//! The events of cancellers and their groups.
ghost use Rattle.machine.specs.Ledger.{Ledger};
ghost use Rattle.machine.specs.declared.ledger.Event.TheVariants.{NewCanceller, NewHandle, CancelAll};
ghost use Rattle.session_core.specs.Session.{SessionStands, StepsFor};

use super::Session;
use machine::{Refusal, Reply};
use rent_buf::OutOfMemory;

impl Session {
    // A canceller is created. The memory of its place is taken before the driver changes.
    pub(super) fn new_canceller(&mut self) -> Result<Reply, OutOfMemory>
        ensures { (L : Ledger) → SessionStands self.old L → StepsFor L NewCanceller self.new result }
    {
        if self.tokens.reserve_canceller().is_err() {
            return Err(OutOfMemory);
        }
        match self.driver.new_canceller() {
            Ok(canceller) => Ok(Reply::Canceller(self.tokens.add_canceller(canceller))),
            Err(_) => Err(OutOfMemory),
        }
    }

    // A cancel handle of a canceller's present group is created.
    pub(super) fn new_handle(&mut self, c: u64) -> Result<Reply, OutOfMemory>
        ensures { (L : Ledger) → SessionStands self.old L → StepsFor L (NewHandle c) self.new result }
    {
        match self.tokens.canceller(c as usize) {
            None => Ok(Reply::Refused(Refusal::NoCanceller)),
            Some(canceller) => {
                if canceller.group() >= self.driver.groups() {
                    return Ok(Reply::Refused(Refusal::NoCanceller));
                }
                let handle = self.driver.cancel_handle(canceller);
                match self.tokens.add_handle(handle) {
                    Ok(number) => Ok(Reply::CancelHandle(number)),
                    Err(_) => Err(OutOfMemory),
                }
            }
        }
    }

    // A canceller's present group is canceled, and the canceller has a fresh one.
    pub(super) fn cancel_all(&mut self, c: u64) -> Result<Reply, OutOfMemory>
        ensures { (L : Ledger) → SessionStands self.old L → StepsFor L (CancelAll c) self.new result }
    {
        match self.tokens.take_canceller(c as usize) {
            None => Ok(Reply::Refused(Refusal::NoCanceller)),
            Some(canceller) => {
                if canceller.group() >= self.driver.groups() {
                    return Ok(Reply::Refused(Refusal::NoCanceller));
                }
                match self.driver.cancel(canceller) {
                    Ok((fresh, numbers)) => {
                        self.tokens.put_canceller(c as usize, fresh);
                        Ok(Reply::Cancels(numbers))
                    }
                    Err((_, same)) => {
                        self.tokens.put_canceller(c as usize, same);
                        Err(OutOfMemory)
                    }
                }
            }
        }
    }
}
