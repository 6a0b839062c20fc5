// A turn of the driver, and one of an executor of such jobs.
ghost use Rattle.std.specs.Prelude.{◌≡◌, ◌<◌, ◌≤◌, ◌+◌, ◌^◌, ℕ, List, true, false, IfOk, OnErr};
ghost use Rattle.core_exec.specs.Turns.{Reaches};
ghost use Rattle.core_exec.specs.Tasks.{AreWaiting};
ghost use Rattle.core_exec.specs.Exec.{IsSound, KeepsPlaces, MeetAims, NoneForgotten, Stands, TurnsTo, left_of, moment_of, ready_of};
ghost use Rattle.core_exec.specs.Exec.{spawned_of, tasks_of, turns_of};
ghost use Rattle.op_job.specs.Met.{MissesNone};
ghost use Rattle.ready_driver.specs.LegacyTurns.{LegacyTurns};
ghost use Rattle.pipe_job.specs.Awaits.{WaitsPipe};
ghost use Rattle.pipe_job.specs.PipeJob.{FitsPipe, ApartPipes, IsAim, aim_of, cancels_of, polls_of};

use crate::pipe_job::PipeJob;
use core_exec::{Exec, Ran};
use driver_core::{Driver as _, Turned};
use ready_driver::{LegacyDriver, NonBlock};
use rent_buf::{ByteList, IoFault, OutOfMemory, Rent};

/// An executor of such jobs over a readiness driver.
pub type PipeExec<I> = Exec<LegacyDriver<I, Rent>, PipeJob, Result<ByteList, IoFault>>;

// A turn of the driver.
#[tactic(auto, using(crate::proofs::Frames::kept_sound, crate::proofs::Going::turned_waits))]
fn turn_driver<I: NonBlock>(exec: &mut PipeExec<I>) -> Turned
    requires sound { IsSound FitsPipe ApartPipes exec.old }
    ensures sound { IsSound FitsPipe ApartPipes exec.new }
    ensures ready { exec.new.ready ≡ exec.old.ready }
    ensures outputs { exec.new.outputs ≡ exec.old.outputs }
    ensures numbers { (exec.new.spawned ≡ exec.old.spawned) × (exec.new.turns ≡ exec.old.turns) }
    ensures aims { (aims : ℕ → List ℕ) → MeetAims aim_of IsAim aims exec.old → MeetAims aim_of IsAim aims exec.new }
    ensures turns { LegacyTurns I.view I.tells I.reporting I.memory exec.old.driver exec.new.driver result }
    ensures waits { NoneForgotten (WaitsPipe I.files I.memory) exec.old → (now : ℕ)
        → AreWaiting (WaitsPipe I.files I.memory) exec.new.driver (ready_of now result.woken exec.new) }
{
    exec.driver.submit()
}

/// A turn of the driver, and then one of the executor, in which the tasks are ready that the driver names: what both answer.
pub fn turn<I: NonBlock>(exec: &mut PipeExec<I>, now: u64) -> (Turned, Result<Ran, OutOfMemory>)
    requires stands { Stands polls_of cancels_of exec.old }
    requires sound { IsSound FitsPipe ApartPipes exec.old }
    requires moment { moment_of exec.old ≤ now }
    requires counter { turns_of exec.old < 2 ^ 62 }
    ensures stands { Stands polls_of cancels_of exec.new }
    ensures sound { IsSound FitsPipe ApartPipes exec.new }
    ensures moment { moment_of exec.new ≡ now }
    ensures counted { turns_of exec.new ≤ turns_of exec.old + 1 }
    ensures aims { (aims : ℕ → List ℕ) → MeetAims aim_of IsAim aims exec.old → MeetAims aim_of IsAim aims exec.new }
    ensures turns { IfOk result.1 (λ ran. TurnsTo polls_of cancels_of aim_of now result.0.woken exec.old exec.new ran) }
    ensures reaches { IfOk result.1 (λ ran. Reaches (ready_of now result.0.woken exec.old) (tasks_of exec.new) ran.polled.items
        ran.stopped) }
    ensures places { KeepsPlaces exec.old exec.new }
    ensures spawned { spawned_of exec.new ≡ spawned_of exec.old }
    ensures marked { OnErr result.1 ((t : ℕ) → tasks_of exec.new t ≡ ready_of now result.0.woken exec.old t) }
    // No job that is pending is forgotten.
    ensures waits { NoneForgotten (WaitsPipe I.files I.memory) exec.old → NoneForgotten (WaitsPipe I.files I.memory) exec.new }
    // It comes to each task whose operation waits in its pipe's list and can go on.
    ensures misses { IfOk result.1 (MissesNone I.view I.tells I.reporting I.memory exec.old.driver result.0 (tasks_of exec.old)) }
{
    let turned = turn_driver(exec);
    let ran = exec.turn(now, turned.woken.as_slice());
    (turned, ran)
}

// Takes out the lowest unfinished task, if there is one, and drops its operation: whether there was one.
#[tactic(auto, using(crate::proofs::Frames::abandoned_sound))]
fn abandon_first<I: NonBlock>(exec: &mut PipeExec<I>) -> bool
    requires stands { Stands polls_of cancels_of exec.old }
    requires sound { IsSound FitsPipe ApartPipes exec.old }
    ensures stands { Stands polls_of cancels_of exec.new }
    ensures sound { IsSound FitsPipe ApartPipes exec.new }
    ensures none { result ≡ false → left_of exec.new ≡ 0 }
    ensures fewer { result ≡ true → left_of exec.new + 1 ≡ left_of exec.old }
{
    match exec.take_left() {
        Some((_, job)) => {
            job.abandon(&mut exec.driver);
            true
        }
        None => false,
    }
}

/// Takes out all unfinished tasks, and drops their operations.
pub fn abandon_all<I: NonBlock>(exec: &mut PipeExec<I>)
    requires stands { Stands polls_of cancels_of exec.old }
    requires sound { IsSound FitsPipe ApartPipes exec.old }
    ensures stands { Stands polls_of cancels_of exec.new }
    ensures sound { IsSound FitsPipe ApartPipes exec.new }
    ensures none { left_of exec.new ≡ 0 }
{
    while abandon_first(exec) {}
}
