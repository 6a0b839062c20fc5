//! A park of a readiness driver beside a sleeper, and a turn of the executor over it.
ghost use Rattle.std.specs.Prelude.{◌≡◌, ◌<◌, ◌≤◌, ◌+◌, ◌^◌, ℕ, length, Some, IfOk, OnErr};
ghost use Rattle.core_exec.specs.Tasks.{AreWaiting};
ghost use Rattle.core_exec.specs.Turns.{Reaches};
ghost use Rattle.core_exec.specs.Exec.{IsSound, KeepsPlaces, NoneForgotten, Stands, TurnsTo, moment_of, ready_of, spawned_of, tasks_of, turns_of};
ghost use Rattle.exec_wake.specs.Wakes.{named_by};
ghost use Rattle.ready_driver.specs.LegacyTurns.{DrainsFor, LegacyTurns};
ghost use Rattle.ready_driver.specs.LegacyState.{ops_in};
ghost use Rattle.op_job.specs.Kept.{WaitsLegacy, WaitsReady, WakesAll};
ghost use Rattle.op_job.specs.Met.{MissesNone};
ghost use Rattle.op_job.specs.OpJob.{ApartOps, FitsOps, cancels_of, no_aim, polls_of};

use crate::follow::Follow;
use crate::turns::OpExec;
use core_exec::Ran;
use driver_core::{Driver as _, Parked};
use exec_wake::turn_parked;
use ready_driver::{LegacyDriver, NonBlock};
use rent_buf::{IoBufMut, OutOfMemory};
use std::sync::Wait;
use std::sync::ledger::Ledger;
use std::time::Clock;
use wake_core::Sleeper;

// A park of the driver.
#[tactic(auto, using(crate::proofs::Frames::slots_sound))]
fn park_driver<
    I: NonBlock,
    B: IoBufMut + Drop,
    F: Follow<B>,
    P: Ledger,
    D: Ledger,
    T: Wait + Clock,
>(
    exec: &mut OpExec<LegacyDriver<I, B>, B, F>,
    rt: &T,
    sleeper: &mut Sleeper<P, D>,
    millis: u64,
) -> Parked
    requires sound { IsSound (FitsOps ops_in) ApartOps exec.old }
    ensures sound { IsSound (FitsOps ops_in) ApartOps exec.new }
    ensures ready { exec.new.ready ≡ exec.old.ready }
    ensures outputs { exec.new.outputs ≡ exec.old.outputs }
    ensures numbers { (exec.new.spawned ≡ exec.old.spawned) × (exec.new.turns ≡ exec.old.turns) }
    ensures taken { sleeper.new.taken ≡ (sleeper.old.taken + length result.remote.first) + length result.remote.again }
    ensures drains { DrainsFor result.turned.stop (Some millis) sleeper.old sleeper.new result.remote }
    ensures turns { LegacyTurns I.view I.tells I.reporting I.memory exec.old.driver exec.new.driver result.turned }
    ensures waits { NoneForgotten (WaitsLegacy I.files B.buffer I.called I.view I.tells I.reporting I.memory) exec.old
        → (now : ℕ) → AreWaiting (WaitsLegacy I.files B.buffer I.called I.view I.tells I.reporting I.memory) exec.new.driver
        (ready_of now (named_by result) exec.new) }
{
    exec.driver.park_timeout(rt, sleeper, millis)
}

/// A park of the driver beside a sleeper, which waits so many milliseconds at most, and then a turn of the executor, in which the tasks are
/// ready whose wakers the sleeper drained, and those that the driver names: what both answer. No waker and no name is lost: if memory runs
/// out for the lists of the answer, these tasks are marked, and the next turn polls them.
pub fn park<I: NonBlock, B: IoBufMut + Drop, F: Follow<B>, P: Ledger, D: Ledger, T: Wait + Clock>(
    exec: &mut OpExec<LegacyDriver<I, B>, B, F>,
    rt: &T,
    sleeper: &mut Sleeper<P, D>,
    now: u64,
    millis: u64,
) -> (Parked, Result<Ran, OutOfMemory>)
    requires stands { Stands polls_of cancels_of exec.old }
    requires sound { IsSound (FitsOps ops_in) ApartOps exec.old }
    requires moment { moment_of exec.old ≤ now }
    requires counter { turns_of exec.old < 2 ^ 62 }
    ensures stands { Stands polls_of cancels_of exec.new }
    ensures sound { IsSound (FitsOps ops_in) ApartOps exec.new }
    ensures moment { moment_of exec.new ≡ now }
    ensures turns { IfOk result.1 (λ ran. TurnsTo polls_of cancels_of no_aim now (named_by result.0) exec.old exec.new ran) }
    ensures reaches { IfOk result.1 (λ ran. Reaches (ready_of now (named_by result.0) exec.old) (tasks_of exec.new) ran.polled.items
        ran.stopped) }
    ensures places { KeepsPlaces exec.old exec.new }
    ensures spawned { spawned_of exec.new ≡ spawned_of exec.old }
    ensures marked { OnErr result.1 ((t : ℕ) → tasks_of exec.new t ≡ ready_of now (named_by result.0) exec.old t) }
    // It comes to each task whose operation waits in a handle's list and can go on.
    ensures misses { IfOk result.1 (MissesNone I.view I.tells I.reporting I.memory exec.old.driver result.0.turned (tasks_of exec.old)) }
    // What is so of each task that isn't ready before the park is so behind its turn,
    ensures waits { NoneForgotten (WaitsLegacy I.files B.buffer I.called I.view I.tells I.reporting I.memory) exec.old
        → NoneForgotten (WaitsLegacy I.files B.buffer I.called I.view I.tells I.reporting I.memory) exec.new }
    // and then its operation stands in the list of its handle, of which no bit meets its direction, or the next turn names the task.
    ensures kept { NoneForgotten (WaitsLegacy I.files B.buffer I.called I.view I.tells I.reporting I.memory) exec.old
        → NoneForgotten (WaitsReady I.files B.buffer I.called I.view I.tells I.reporting I.memory) exec.new }
    // The turn came to each other one.
    ensures wakes { NoneForgotten (WaitsLegacy I.files B.buffer I.called I.view I.tells I.reporting I.memory) exec.old
        → IfOk result.1 (WakesAll I.files B.buffer I.called I.view I.tells I.reporting I.memory exec.old.driver result.0.turned
        (tasks_of exec.old)) }
    // The wakers of the answer are those that the sleeper drained, in its order.
    ensures taken { sleeper.new.taken ≡ (sleeper.old.taken + length result.0.remote.first) + length result.0.remote.again }
    ensures drains { DrainsFor result.0.turned.stop (Some millis) sleeper.old sleeper.new result.0.remote }
{
    let parked = park_driver(exec, rt, sleeper, millis);
    let ran = turn_parked(exec, &parked, now);
    (parked, ran)
}
