//! A park of the driver beside a sleeper, and a turn of an executor of such jobs.
ghost use Rattle.std.specs.Prelude.{◌≡◌, ◌<◌, ◌≤◌, ◌+◌, ◌^◌, ℕ, List, length, Some, IfOk, OnErr};
ghost use Rattle.core_exec.specs.Turns.{Reaches};
ghost use Rattle.core_exec.specs.Tasks.{AreWaiting};
ghost use Rattle.core_exec.specs.Exec.{IsSound, KeepsPlaces, MeetAims, NoneForgotten, Stands, TurnsTo, moment_of, ready_of, spawned_of};
ghost use Rattle.core_exec.specs.Exec.{tasks_of, turns_of};
ghost use Rattle.exec_wake.specs.Wakes.{named_by};
ghost use Rattle.op_job.specs.Met.{MissesNone};
ghost use Rattle.ready_driver.specs.LegacyTurns.{DrainsFor, LegacyTurns};
ghost use Rattle.pipe_job.specs.Awaits.{WaitsPipe};
ghost use Rattle.pipe_job.specs.PipeJob.{FitsPipe, ApartPipes, IsAim, aim_of, cancels_of, polls_of};

use crate::turns::PipeExec;
use core_exec::Ran;
use driver_core::{Driver as _, Parked};
use exec_wake::turn_parked;
use ready_driver::NonBlock;
use rent_buf::OutOfMemory;
use std::sync::Wait;
use std::sync::ledger::Ledger;
use std::time::Clock;
use wake_core::Sleeper;

// A park of the driver.
#[tactic(auto, using(crate::proofs::Frames::kept_sound, crate::proofs::Going::turned_waits))]
fn park_driver<I: NonBlock, P: Ledger, D: Ledger, T: Wait + Clock>(
    exec: &mut PipeExec<I>,
    rt: &T,
    sleeper: &mut Sleeper<P, D>,
    millis: u64,
) -> Parked
    requires sound { IsSound FitsPipe ApartPipes exec.old }
    ensures sound { IsSound FitsPipe ApartPipes exec.new }
    ensures ready { exec.new.ready ≡ exec.old.ready }
    ensures outputs { exec.new.outputs ≡ exec.old.outputs }
    ensures numbers { (exec.new.spawned ≡ exec.old.spawned) × (exec.new.turns ≡ exec.old.turns) }
    ensures taken { sleeper.new.taken ≡ (sleeper.old.taken + length result.remote.first) + length result.remote.again }
    ensures drains { DrainsFor result.turned.stop (Some millis) sleeper.old sleeper.new result.remote }
    ensures aims { (aims : ℕ → List ℕ) → MeetAims aim_of IsAim aims exec.old → MeetAims aim_of IsAim aims exec.new }
    ensures turns { LegacyTurns I.view I.tells I.reporting I.memory exec.old.driver exec.new.driver result.turned }
    ensures waits { NoneForgotten (WaitsPipe I.files I.memory) exec.old → (now : ℕ)
        → AreWaiting (WaitsPipe I.files I.memory) exec.new.driver (ready_of now (named_by result) exec.new) }
{
    exec.driver.park_timeout(rt, sleeper, millis)
}

/// A park of the driver beside a sleeper, which waits so many milliseconds at most, and then a turn of the executor, in which the tasks are
/// ready whose wakers the sleeper drained, and those that the driver names: what both answer. No waker and no name is lost: if memory runs
/// out for the lists of the answer, these tasks are marked, and the next turn polls them.
pub fn park<I: NonBlock, P: Ledger, D: Ledger, T: Wait + Clock>(
    exec: &mut PipeExec<I>,
    rt: &T,
    sleeper: &mut Sleeper<P, D>,
    now: u64,
    millis: u64,
) -> (Parked, Result<Ran, OutOfMemory>)
    requires stands { Stands polls_of cancels_of exec.old }
    requires sound { IsSound FitsPipe ApartPipes exec.old }
    requires moment { moment_of exec.old ≤ now }
    requires counter { turns_of exec.old < 2 ^ 62 }
    ensures stands { Stands polls_of cancels_of exec.new }
    ensures sound { IsSound FitsPipe ApartPipes exec.new }
    ensures moment { moment_of exec.new ≡ now }
    ensures counted { turns_of exec.new ≤ turns_of exec.old + 1 }
    ensures aims { (aims : ℕ → List ℕ) → MeetAims aim_of IsAim aims exec.old → MeetAims aim_of IsAim aims exec.new }
    ensures turns { IfOk result.1 (λ ran. TurnsTo polls_of cancels_of aim_of now (named_by result.0) exec.old exec.new ran) }
    ensures reaches { IfOk result.1 (λ ran. Reaches (ready_of now (named_by result.0) exec.old) (tasks_of exec.new) ran.polled.items
        ran.stopped) }
    ensures places { KeepsPlaces exec.old exec.new }
    ensures spawned { spawned_of exec.new ≡ spawned_of exec.old }
    ensures marked { OnErr result.1 ((t : ℕ) → tasks_of exec.new t ≡ ready_of now (named_by result.0) exec.old t) }
    // No job that is pending is forgotten.
    ensures waits { NoneForgotten (WaitsPipe I.files I.memory) exec.old → NoneForgotten (WaitsPipe I.files I.memory) exec.new }
    // It comes to each task whose operation waits in its pipe's list and can go on.
    ensures misses { IfOk result.1 (MissesNone I.view I.tells I.reporting I.memory exec.old.driver result.0.turned (tasks_of exec.old)) }
    // The wakers of the answer are those that the sleeper drained, in its order.
    ensures taken { sleeper.new.taken ≡ (sleeper.old.taken + length result.0.remote.first) + length result.0.remote.again }
    ensures drains { DrainsFor result.0.turned.stop (Some millis) sleeper.old sleeper.new result.0.remote }
{
    let parked = park_driver(exec, rt, sleeper, millis);
    let ran = turn_parked(exec, &parked, now);
    (parked, ran)
}
