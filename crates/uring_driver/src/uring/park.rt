//! Turns and parks of the completion driver: a park is a turn that may wait for wakers of other threads in its middle.
ghost use Rattle.std.specs.Prelude.{◌≡◌, ◌+◌, [], false, length, Some, None, IfNone};
ghost use Rattle.machine.specs.declared.ledger.Event.TheVariants.{Turn};
ghost use Rattle.machine.specs.Step.{step};
ghost use Rattle.machine.specs.Ledger.{Ledger as Machine};
ghost use Rattle.wake_core.specs.WakerList.{IsInOrder};
ghost use Rattle.uring_driver.specs.Op.{KeepsRequests};
ghost use Rattle.uring_driver.specs.Stands.{StandsIfSteady};
ghost use Rattle.uring_driver.specs.Turned.{TurnMeets};
ghost use Rattle.uring_driver.specs.Parked.{DrainsFor, ParksFor};

use crate::uring::IoUringDriver;
use driver_core::{Driver, Parked, Turned};
use rent_buf::IoBufMut;
use ring_core::Ring;
use std::alloc::Global;
use std::sync::Wait;
use std::sync::ledger::Ledger;
use std::time::Clock;
use wake_core::{Sleeper, WakerList, Woken};

impl<R: Ring, B: IoBufMut + Drop> Driver for IoUringDriver<R, B> {
    ghost stands = { StandsIfSteady R.view B.buffer R.steady };

    ghost turned = { λ L. (step L Turn).0 };

    ghost turns = { λ old new turned. TurnMeets R.view B.buffer R.tells R.steady old new turned };

    ghost keeps = { KeepsRequests };

    ghost drains = { DrainsFor };

    ghost legacy = { false };

    /// Room is made once, for as many numbers as are ready, queued, due and to come by themselves. A list that names nobody stays with the
    /// driver: so a list takes memory only after a turn named somebody in it, or to grow. After Busy what is ready is treated. Where the
    /// slot of a dropped operation goes, the close of each handle that nobody holds any more joins what is pending; a later turn names it.
    /// (monoio: `submit`)
    fn submit(&mut self) -> Turned {
        match self.begin_turn() {
            Ok(begun) => self.end_turn(begun),
            Err(stop) => self.stop(stop),
        }
    }

    /// It comes to its wait exactly if its turn treats no completion and doesn't stop, and both drains give nothing. Where the turn stops
    /// with `RingFault` or `OutOfMemory`, the sleeper makes no step. After Busy it makes its steps and doesn't wait. (monoio: `park`)
    ///
    /// A completion that comes to the ring by itself meanwhile doesn't end the wait: the next turn treats it. So over a ring of which some
    /// are to come, give the wait a limit by `park_timeout`.
    fn park<P: Ledger, D: Ledger, T: Wait + Clock>(
        &mut self,
        rt: &T,
        sleeper: &mut Sleeper<P, D>,
    ) -> Parked
        ensures turns { TurnMeets R.view B.buffer R.tells R.steady self.old self.new result.turned }
        ensures keeps { KeepsRequests self.old self.new }
        ensures stands { IfNone result.turned.stop ((L : Machine) →
            StandsIfSteady R.view B.buffer R.steady self.old L → StandsIfSteady R.view B.buffer R.steady self.new (step L Turn).0) }
        ensures made { sleeper.new.made ≡ sleeper.old.made }
        ensures taken { sleeper.new.taken ≡ (sleeper.old.taken + length result.remote.first) + length result.remote.again }
        ensures order { IsInOrder result.remote.first × IsInOrder result.remote.again }
        ensures drains { DrainsFor result.turned.stop None sleeper.old sleeper.new result.remote }

        // It came to its wait exactly where its turn treated no completion, and nothing was drained.
        ensures parks { ParksFor R.view B.buffer R.tells R.steady None self.old self.new sleeper.new result }
    {
        park_for(rt, self, sleeper, None)
    }

    /// As `park`, with that limit handed to the wait. (monoio: `park_timeout`)
    fn park_timeout<P: Ledger, D: Ledger, T: Wait + Clock>(
        &mut self,
        rt: &T,
        sleeper: &mut Sleeper<P, D>,
        millis: u64,
    ) -> Parked
        ensures turns { TurnMeets R.view B.buffer R.tells R.steady self.old self.new result.turned }
        ensures keeps { KeepsRequests self.old self.new }
        ensures stands { IfNone result.turned.stop ((L : Machine) →
            StandsIfSteady R.view B.buffer R.steady self.old L → StandsIfSteady R.view B.buffer R.steady self.new (step L Turn).0) }
        ensures made { sleeper.new.made ≡ sleeper.old.made }
        ensures taken { sleeper.new.taken ≡ (sleeper.old.taken + length result.remote.first) + length result.remote.again }
        ensures order { IsInOrder result.remote.first × IsInOrder result.remote.again }
        ensures drains { DrainsFor result.turned.stop (Some millis) sleeper.old sleeper.new result.remote }

        // It came to its wait exactly where its turn treated no completion, and nothing was drained.
        ensures parks { ParksFor R.view B.buffer R.tells R.steady (Some millis) self.old self.new sleeper.new result }
    {
        park_for(rt, self, sleeper, Some(millis))
    }

    fn is_legacy(&self) -> bool {
        false
    }
}

// A turn with the sleeper's steps in its middle. They wait no longer than the limit, in milliseconds.
fn park_for<R: Ring, B: IoBufMut + Drop, P: Ledger, D: Ledger, T: Wait + Clock>(
    rt: &T,
    driver: &mut IoUringDriver<R, B>,
    sleeper: &mut Sleeper<P, D>,
    limit: Option<u64>,
) -> Parked
    ensures turns { TurnMeets R.view B.buffer R.tells R.steady driver.old driver.new result.turned }
    ensures keeps { KeepsRequests driver.old driver.new }
    ensures made { sleeper.new.made ≡ sleeper.old.made }
    ensures taken { sleeper.new.taken ≡ (sleeper.old.taken + length result.remote.first) + length result.remote.again }
    ensures order { IsInOrder result.remote.first × IsInOrder result.remote.again }
    ensures drains { DrainsFor result.turned.stop limit sleeper.old sleeper.new result.remote }
    ensures parks { ParksFor R.view B.buffer R.tells R.steady limit driver.old driver.new sleeper.new result }
{
    match driver.begin_turn() {
        Ok(begun) => {
            let ready = driver.is_ready(&begun);
            let remote = sleeper.park(rt, limit, ready);
            let turned = driver.end_turn(begun);
            Parked { remote, turned }
        }
        Err(stop) => {
            let remote = none_woken(driver.alloc());
            let turned = driver.stop(stop);
            Parked { remote, turned }
        }
    }
}

// Nothing drained. Takes no memory.
fn none_woken(alloc: Global) -> Woken
    ensures first { result.first ≡ [] }
    ensures again { result.again ≡ [] }
{
    Woken {
        first: WakerList::from_vec(Vec::new(alloc)),
        again: WakerList::from_vec(Vec::new(alloc)),
    }
}
