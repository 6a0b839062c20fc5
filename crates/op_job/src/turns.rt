// A turn of a driver, and one of the executor over it.
ghost use Rattle.std.specs.Prelude.{◌≡◌, ◌<◌, ◌≤◌, ◌+◌, ◌^◌, ℕ, true, false, IfOk, OnErr};
ghost use Rattle.core_exec.specs.Tasks.{AreWaiting};
ghost use Rattle.core_exec.specs.Turns.{Reaches};
ghost use Rattle.core_exec.specs.Exec.{IsSound, KeepsPlaces, NoneForgotten, Stands, TurnsTo, left_of, moment_of, ready_of, spawned_of, tasks_of, turns_of};
ghost use Rattle.op_job.specs.OpJob.{ApartOps, FitsOps, cancels_of, no_aim, polls_of};
ghost use Rattle.op_job.specs.Waits.{WaitsOps};

use crate::follow::Follow;
use crate::op_job::{JobEnd, OpJob};
use core_exec::{Exec, Ran};
use driver_core::Turned;
use op_driver::OpDriver;
use rent_buf::{IoBufMut, OutOfMemory};

/// An executor of jobs of operations over a driver.
pub type OpExec<D, B, F> = Exec<D, OpJob<B, F>, JobEnd<B, F, <F as Follow<B>>::Out>>;

// A turn of the driver.
#[tactic(auto, using(crate::proofs::Frames::kept_sound, crate::proofs::Waits::turned_waits))]
fn turn_driver<B: IoBufMut + Drop, F: Follow<B>, D: OpDriver<B>>(
    exec: &mut OpExec<D, B, F>,
) -> Turned
    requires sound { IsSound (FitsOps D.ops) ApartOps exec.old }
    ensures sound { IsSound (FitsOps D.ops) ApartOps exec.new }
    ensures ready { exec.new.ready ≡ exec.old.ready }
    ensures outputs { exec.new.outputs ≡ exec.old.outputs }
    ensures numbers { (exec.new.spawned ≡ exec.old.spawned) × (exec.new.turns ≡ exec.old.turns) }
    ensures turns { D.turns exec.old.driver exec.new.driver result }
    ensures waits { NoneForgotten (WaitsOps D.submits D.polls D.cancels D.turns D.ops) exec.old
        → (now : ℕ) → AreWaiting (WaitsOps D.submits D.polls D.cancels D.turns D.ops) exec.new.driver (ready_of now result.woken exec.new) }
{
    exec.driver.turn()
}

/// A turn of the driver, and then one of the executor, in which the tasks are ready that the driver names: what both answer.
pub fn turn<B: IoBufMut + Drop, F: Follow<B>, D: OpDriver<B>>(
    exec: &mut OpExec<D, B, F>,
    now: u64,
) -> (Turned, Result<Ran, OutOfMemory>)
    requires stands { Stands polls_of cancels_of exec.old }
    requires sound { IsSound (FitsOps D.ops) ApartOps exec.old }
    requires moment { moment_of exec.old ≤ now }
    requires counter { turns_of exec.old < 2 ^ 62 }
    ensures stands { Stands polls_of cancels_of exec.new }
    ensures sound { IsSound (FitsOps D.ops) ApartOps exec.new }
    ensures moment { moment_of exec.new ≡ now }
    ensures turns { IfOk result.1 (λ ran. TurnsTo polls_of cancels_of no_aim now result.0.woken exec.old exec.new ran) }
    ensures reaches { IfOk result.1 (λ ran. Reaches (ready_of now result.0.woken exec.old) (tasks_of exec.new) ran.polled.items
        ran.stopped) }
    ensures places { KeepsPlaces exec.old exec.new }
    ensures spawned { spawned_of exec.new ≡ spawned_of exec.old }
    ensures marked { OnErr result.1 ((t : ℕ) → tasks_of exec.new t ≡ ready_of now result.0.woken exec.old t) }
    // Each task that isn't ready in the next turn waits for its operation: since its last poll, which was pending, the driver did nothing
    // but submissions, calls of other operations, and turns that don't name the task.
    ensures waits { NoneForgotten (WaitsOps D.submits D.polls D.cancels D.turns D.ops) exec.old
        → NoneForgotten (WaitsOps D.submits D.polls D.cancels D.turns D.ops) exec.new }
    // The driver made a turn of its own, behind which it was so.
    ensures driver { (mid : D) × D.turns exec.old.driver mid result.0 }
{
    let turned = turn_driver(exec);
    let ran = exec.turn(now, turned.woken.as_slice());
    (turned, ran)
}

// Takes out the lowest unfinished task, if there is one, and drops its operation: whether there was one.
#[tactic(auto, using(crate::proofs::Frames::abandoned_sound))]
fn abandon_first<B: IoBufMut + Drop, F: Follow<B>, D: OpDriver<B>>(
    exec: &mut OpExec<D, B, F>,
) -> bool
    requires stands { Stands polls_of cancels_of exec.old }
    requires sound { IsSound (FitsOps D.ops) ApartOps exec.old }
    ensures stands { Stands polls_of cancels_of exec.new }
    ensures sound { IsSound (FitsOps D.ops) ApartOps exec.new }
    ensures none { result ≡ false → left_of exec.new ≡ 0 }
    ensures fewer { result ≡ true → left_of exec.new + 1 ≡ left_of exec.old }
{
    match exec.take_left() {
        Some((_, job)) => {
            job.abandon(&mut exec.driver);
            true
        }
        None => false,
    }
}

/// Takes out all unfinished tasks, and drops their operations.
pub fn abandon_all<B: IoBufMut + Drop, F: Follow<B>, D: OpDriver<B>>(exec: &mut OpExec<D, B, F>)
    requires stands { Stands polls_of cancels_of exec.old }
    requires sound { IsSound (FitsOps D.ops) ApartOps exec.old }
    ensures stands { Stands polls_of cancels_of exec.new }
    ensures sound { IsSound (FitsOps D.ops) ApartOps exec.new }
    ensures none { left_of exec.new ≡ 0 }
{
    while abandon_first(exec) {}
}
