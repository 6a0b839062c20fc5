//! What every driver does: a turn, and a park, which is a turn that may wait for wakers of other threads in its middle.
ghost use Rattle.std.specs.Prelude.{◌≡◌, ℕ, ◌+◌, [], Bool, length, Option, Some, None, IfNone};
ghost use Rattle.machine.specs.Ledger.{Ledger};
ghost use Rattle.wake_core.specs.WakerList.{IsInOrder};
ghost use Rattle.wake_core.specs.Sleeping.{Sleeping};
ghost use Rattle.wake_core.specs.declared.park.Woken.{Woken};
ghost use Rattle.driver_core.specs.declared.op.Stop.{Stop};
ghost use Rattle.driver_core.specs.declared.op.Turned.{Turned};

use crate::op::Turned;
use std::sync::Wait;
use std::sync::ledger::Ledger as CountLedger;
use std::time::Clock;
use wake_core::{Sleeper, Woken};

/// What a park did.
#[derive(Debug, Drop)]
pub struct Parked {
    /// The wakers that the sleeper drained.
    pub remote: Woken,
    /// What the turn around the wait did.
    pub turned: Turned,
}

/// What takes requests to a kernel and brings their completions. (monoio: `Driver`)
///
/// A driver has no wake cell of its own: a park is lent the sleeper of the cell whose senders may wake it.
pub trait Driver {
    // When it stands for a ledger.
    ghost stands: { Self → Ledger → Type 0 };

    // The ledger that a turn leads to that doesn't stop.
    ghost turned: { Ledger → Ledger };

    // What a turn does: the driver before it and after it, and what it answers.
    ghost turns: { Self → Self → Turned → Type 0 };

    // What a turn keeps of its operations: the driver before it and after it.
    ghost keeps: { Self → Self → Type 0 };

    // What a park did with the sleeper, by why its turn stopped and the limit that it has: before and after, and what it drained.
    ghost drains: { Option Stop → Option ℕ → Sleeping → Sleeping → Woken → Type 0 };

    // It asks whether a call would block, and has no completions.
    ghost legacy: { Bool };

    /// A turn: enters what is queued, and treats the completions that are ready, in order.
    fn submit(&mut self) -> Turned
        ensures turns { turns self.old self.new result }
        ensures keeps { keeps self.old self.new }
        ensures stands { IfNone result.stop ((L : Ledger) → stands self.old L → stands self.new (turned L)) };

    /// A turn that walks the sleeper's steps after its enter. If no completion is ready and nothing is drained, it waits until
    /// a sender sends or a handle unparks the sleeper. A completion that comes meanwhile doesn't end the wait: over a ring
    /// that completes by itself, use `park_timeout`.
    fn park<P: CountLedger, D: CountLedger, T: Wait + Clock>(
        &mut self,
        rt: &T,
        sleeper: &mut Sleeper<P, D>,
    ) -> Parked
        ensures turns { turns self.old self.new result.turned }
        ensures keeps { keeps self.old self.new }
        ensures stands { IfNone result.turned.stop ((L : Ledger) → stands self.old L → stands self.new (turned L)) }
        // What was drained is what the sleeper's share of drains grew by, and each sender's wakers are in order.
        ensures made { sleeper.new.made ≡ sleeper.old.made }
        ensures taken { sleeper.new.taken ≡ (sleeper.old.taken + length result.remote.first) + length result.remote.again }
        ensures order { IsInOrder result.remote.first × IsInOrder result.remote.again }

        // The lists are what the drains of a round gave, if one was made, and it waited with this limit, if it waited.
        ensures drains { drains result.turned.stop None sleeper.old sleeper.new result.remote };

    /// A park that waits no longer than so many milliseconds.
    fn park_timeout<P: CountLedger, D: CountLedger, T: Wait + Clock>(
        &mut self,
        rt: &T,
        sleeper: &mut Sleeper<P, D>,
        millis: u64,
    ) -> Parked
        ensures turns { turns self.old self.new result.turned }
        ensures keeps { keeps self.old self.new }
        ensures stands { IfNone result.turned.stop ((L : Ledger) → stands self.old L → stands self.new (turned L)) }
        ensures made { sleeper.new.made ≡ sleeper.old.made }
        ensures taken { sleeper.new.taken ≡ (sleeper.old.taken + length result.remote.first) + length result.remote.again }
        ensures order { IsInOrder result.remote.first × IsInOrder result.remote.again }

        // The lists are what the drains of a round gave, if one was made, and it waited with this limit, if it waited.
        ensures drains { drains result.turned.stop (Some millis) sleeper.old sleeper.new result.remote };

    /// It is a driver by readiness.
    fn is_legacy(&self) -> bool
        ensures { result ≡ legacy };
}
