//! Turns and parks of the readiness driver.
ghost use Rattle.std.specs.Prelude.{◌≡◌, ◌+◌, [], length, true, false, Some, None, IsTrue, IfNone, OnOk, OnErr};
ghost use Rattle.machine.specs.Ledger.{Ledger};
ghost use Rattle.wake_core.specs.WakerList.{IsInOrder};
ghost use Rattle.ready_driver.specs.LegacyState.{KeepsRequests};
ghost use Rattle.ready_driver.specs.LegacyTurns.{LegacyTurns, LooksWithin, ParksIn, TurnsBy, Treats, ShowsLedger, DrainsFor};
ghost use Rattle.ready_driver.specs.Turns.{AreShown};

use crate::legacy::LegacyDriver;
use crate::non_block::{NonBlock, NonBlockError, Reports};
use crate::registry::Registry;
use driver_core::{Driver, Parked, Stop, Turned};
use machine::Outcome;
use rent_buf::{IoBufMut, NumList, OutOfMemory};
use std::mem;
use std::sync::Wait;
use std::sync::ledger::Ledger as CountLedger;
use std::time::Clock;
use wake_core::{Bell, Lookout, Sleeper};

impl<I: NonBlock, B: IoBufMut + Drop> Driver for LegacyDriver<I, B> {
    ghost stands = { ShowsLedger I.view B.buffer I.memory };

    ghost turned = { λ L. L };

    ghost turns = { λ old new turned. LegacyTurns I.view I.tells I.reporting I.memory old new turned };

    ghost keeps = { KeepsRequests };

    ghost drains = { DrainsFor };

    ghost legacy = { true };

    /// It treats the reports that are untreated, asks the object for reports without a wait, and treats those that came. It reaps and
    /// closes nothing. Where the object fails (`Os`, with its number), or memory runs out, it stops and names nobody: the next turn names
    /// those tasks that it woke and those of canceled operations, and treats the reports that it didn't treat, so that none is lost.
    /// (monoio: `submit`)
    fn submit(&mut self) -> Turned
        ensures turns { LegacyTurns I.view I.tells I.reporting I.memory self.old self.new result }
        ensures keeps { KeepsRequests self.old self.new }
        ensures stands { IfNone result.stop ((L : Ledger) →
            ShowsLedger I.view B.buffer I.memory self.old L → ShowsLedger I.view B.buffer I.memory self.new L) }
        // Its look at the object doesn't wait.
        ensures limited { IfNone result.stop ((I.view self.new.handling.io).limit ≡ Some 0) }
    {
        self.look(Some(0))
    }

    /// A turn that waits in the object until that reports something, or a sender or a handle wakes the sleeper. An object that has no bell
    /// isn't waited in: the sleeper waits a millisecond at most, and the turn comes behind that. It does not wait where a task is to be
    /// named, a report is untreated, or a drain gave something; nor, over an object that has no bell, where the last look at it brought a
    /// report, or a poll since then returned a count or a handle that its call made: then more is likely to come at once.
    /// (monoio: `park`)
    #[tactic(auto, using(crate::proofs::Looking::looks_turns, crate::proofs::Looking::looks_keeps, crate::proofs::Looking::looks_stands, crate::proofs::Looking::looks_walks))]
    fn park<P: CountLedger, D: CountLedger, T: Wait + Clock>(
        &mut self,
        rt: &T,
        sleeper: &mut Sleeper<P, D>,
    ) -> Parked
        ensures turns { LegacyTurns I.view I.tells I.reporting I.memory self.old self.new result.turned }
        ensures keeps { KeepsRequests self.old self.new }
        ensures stands { IfNone result.turned.stop ((L : Ledger) →
            ShowsLedger I.view B.buffer I.memory self.old L → ShowsLedger I.view B.buffer I.memory self.new L) }
        ensures made { sleeper.new.made ≡ sleeper.old.made }
        ensures taken { sleeper.new.taken ≡ (sleeper.old.taken + length result.remote.first) + length result.remote.again }
        ensures order { IsInOrder result.remote.first × IsInOrder result.remote.again }
        ensures drains { DrainsFor result.turned.stop None sleeper.old sleeper.new result.remote }

        // It looks at the object once, with the limit of its wait, and comes to its wait only where nothing is at hand.
        ensures parks { ParksIn I.view B.buffer I.tells I.reporting I.memory None self.old self.new sleeper.new result }
    {
        let ready = is_ready(self);
        let (remote, turned) = sleeper.park_in(rt, self, None, ready);
        Parked { remote, turned }
    }

    /// As `park`, and it waits no longer than that limit. (monoio: `park_timeout`)
    #[tactic(auto, using(crate::proofs::Looking::looks_turns, crate::proofs::Looking::looks_keeps, crate::proofs::Looking::looks_stands, crate::proofs::Looking::looks_walks))]
    fn park_timeout<P: CountLedger, D: CountLedger, T: Wait + Clock>(
        &mut self,
        rt: &T,
        sleeper: &mut Sleeper<P, D>,
        millis: u64,
    ) -> Parked
        ensures turns { LegacyTurns I.view I.tells I.reporting I.memory self.old self.new result.turned }
        ensures keeps { KeepsRequests self.old self.new }
        ensures stands { IfNone result.turned.stop ((L : Ledger) →
            ShowsLedger I.view B.buffer I.memory self.old L → ShowsLedger I.view B.buffer I.memory self.new L) }
        ensures made { sleeper.new.made ≡ sleeper.old.made }
        ensures taken { sleeper.new.taken ≡ (sleeper.old.taken + length result.remote.first) + length result.remote.again }
        ensures order { IsInOrder result.remote.first × IsInOrder result.remote.again }
        ensures drains { DrainsFor result.turned.stop (Some millis) sleeper.old sleeper.new result.remote }

        // It looks at the object once, with the limit of its wait, and comes to its wait only where nothing is at hand.
        ensures parks { ParksIn I.view B.buffer I.tells I.reporting I.memory (Some millis) self.old self.new sleeper.new result }
    {
        let ready = is_ready(self);
        let (remote, turned) = sleeper.park_in(rt, self, Some(millis), ready);
        Parked { remote, turned }
    }

    fn is_legacy(&self) -> bool {
        true
    }
}

/// A look at the object is a turn, which may wait for its reports.
impl<I: NonBlock, B: IoBufMut + Drop> Lookout for LegacyDriver<I, B> {
    type Sight = Turned;

    ghost looked = { LooksWithin I.view B.buffer I.tells I.reporting I.memory };

    /// The object's. (not in monoio)
    fn bell(&mut self) -> Option<Bell> {
        self.registry.bell()
    }

    /// A turn as `submit` makes it, whose look at the object waits no longer than so many milliseconds. (monoio: `inner_park`)
    fn look(&mut self, limit: Option<u64>) -> Turned {
        let stop = collect(
            &mut self.registry,
            &mut self.untreated,
            &mut self.asked,
            &mut self.lively,
            limit,
        );
        let mut woken = Vec::new(self.alloc);
        if stop.is_none() {
            mem::swap(&mut woken, &mut self.asked);
        }
        Turned {
            reaped: NumList::new(self.alloc),
            closed: NumList::new(self.alloc),
            woken: NumList::from_vec(woken),
            stop,
        }
    }
}

// A park isn't to wait: a task is to be named, or a report is untreated; or more is likely to come at once, and the object has no bell. A
// wait in an object that has one ends by itself when that comes.
fn is_ready<I: NonBlock, B: IoBufMut + Drop>(driver: &mut LegacyDriver<I, B>) -> bool
    ensures same { driver.new ≡ driver.old }
    ensures stands { result ≡ false → (driver.old.asked ≡ []) × (driver.old.untreated ≡ []) }
{
    let lively = driver.lively && driver.registry.bell().is_none();
    lively || !driver.asked.is_empty() || driver.untreated.len() > 0
}

// Treats the reports that are untreated, asks the object for reports, no longer than a limit, and treats those that came: the tasks that
// they wake join those that are to be named. It answers why it stopped, if it did: what it didn't treat stays untreated. It notes whether
// a report came.
fn collect<I: NonBlock>(
    registry: &mut Registry<I>,
    untreated: &mut Reports,
    tasks: &mut Vec<u64>,
    lively: &mut bool,
    limit: Option<u64>,
) -> Option<Stop>
    requires { IsTrue I.memory → AreShown I.view registry.old untreated.old }
    ensures does { TurnsBy I.view I.tells I.reporting I.memory
        (record { handling = registry.old; untreated = untreated.old; tasks = tasks.old.items })
        (record { handling = registry.new; untreated = untreated.new; tasks = tasks.new.items }) result }
    ensures table { registry.new.table ≡ registry.old.table }
    ensures limited { IfNone result ((I.view registry.new.io).limit ≡ limit) }
    ensures shown { IsTrue I.memory → AreShown I.view registry.new untreated.new }
{
    *lively = false;
    match treat(registry, untreated, tasks) {
        Ok(()) => {}
        Err(_) => return Some(Stop::OutOfMemory),
    }
    match registry.wait(limit, untreated) {
        Ok(()) => {}
        Err(NonBlockError::Fault(code)) => return Some(Stop::Os(code)),
        Err(NonBlockError::OutOfMemory) => return Some(Stop::OutOfMemory),
    }
    *lively = untreated.len() > 0;
    match treat(registry, untreated, tasks) {
        Ok(()) => None,
        Err(_) => Some(Stop::OutOfMemory),
    }
}

// A call that ended so moved something or made a handle, which may soon be reported: it ended without an error.
pub(super) fn moves(outcome: Outcome) -> bool {
    match outcome {
        Outcome::Count(_) | Outcome::From(_, _) | Outcome::Made(_) => true,
        Outcome::Fail(_) => false,
    }
}

// Treats the reports that are untreated: none is from then on. If memory runs out, nothing changes.
fn treat<I: NonBlock>(
    registry: &mut Registry<I>,
    untreated: &mut Reports,
    tasks: &mut Vec<u64>,
) -> Result<(), OutOfMemory>
    ensures ok { OnOk result (Treats
        (record { handling = registry.old; untreated = untreated.old; tasks = tasks.old.items }) untreated.old
        (record { handling = registry.new; untreated = untreated.new; tasks = tasks.new.items })) }
    ensures io { OnOk result (registry.new.io ≡ registry.old.io) }
    ensures none { OnOk result (untreated.new ≡ []) }
    ensures shown { OnOk result (IsTrue I.memory → AreShown I.view registry.old untreated.old → AreShown I.view registry.new []) }
    ensures err { OnErr result ((registry.new ≡ registry.old) × (untreated.new ≡ untreated.old) × (tasks.new.items ≡ tasks.old.items)) }
{
    registry.report(untreated, tasks)?;
    untreated.clear();
    Ok(())
}
