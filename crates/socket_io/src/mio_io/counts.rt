//! How often calls failed as a whole, would have blocked, and ended with an error.
ghost use Rattle.std.specs.Prelude.{◌≡◌};
ghost use Rattle.socket_io.specs.Counted.{Raises, answer_of, IsCounted, SaysNothing, ErrorCounted};

use crate::mio_io::socket::Refusal;
use driver_core::CallAnswer;
use machine::Outcome;
use ready_driver::NonBlockError;

/// How often a call failed as a whole, how often one would have blocked, and how often one ended with an error. A count saturates.
/// (not in monoio)
#[derive(Clone, Copy, Debug, PartialEq, Eq)]
pub struct Counts {
    /// How often a call failed as a whole.
    pub faults: u64,
    /// The number of the last call that failed as a whole; 0 where none did.
    pub last_fault: u16,
    /// How often a call would have blocked.
    pub blocks: u64,
    /// How often a call ended with an error.
    pub fails: u64,
}

impl Counts {
    /// None so far. (not in monoio)
    pub fn new() -> Counts
        ensures { result ≡ record { faults = 0; last_fault = 0; blocks = 0; fails = 0 } }
    {
        Counts {
            faults: 0,
            last_fault: 0,
            blocks: 0,
            fails: 0,
        }
    }

    /// Counts a call that ended with an error, and answers its end. (not in monoio)
    pub fn fail(&mut self, error: u16) -> Outcome
        ensures outcome { result ≡ Outcome.Fail error }
        ensures counted { Raises self.old.fails self.new.fails }
        ensures rest { self.new ≡ record self.old { fails = self.new.fails } }
    {
        self.fails = self.fails.saturating_add(1);
        Outcome::Fail(error)
    }

    /// Counts a call that moved nothing, and answers how it ended. (not in monoio)
    pub fn refuse(&mut self, refusal: Refusal) -> CallAnswer
        ensures answer { result ≡ answer_of refusal }
        ensures nothing { SaysNothing result }
        ensures counted { IsCounted self.old self.new result }
    {
        match refusal {
            Refusal::WouldBlock => {
                self.blocks = self.blocks.saturating_add(1);
                CallAnswer::WouldBlock
            }
            Refusal::Error(error) => CallAnswer::Done(self.fail(error)),
        }
    }

    /// Counts a call that failed as a whole, where it is one, keeps its number, and passes its error on. (not in monoio)
    pub fn fault(&mut self, why: NonBlockError) -> NonBlockError
        ensures why { result ≡ why }
        ensures counted { ErrorCounted why self.old self.new }
    {
        match why {
            NonBlockError::Fault(code) => {
                self.faults = self.faults.saturating_add(1);
                self.last_fault = code;
            }
            NonBlockError::OutOfMemory => {}
        }
        why
    }
}
