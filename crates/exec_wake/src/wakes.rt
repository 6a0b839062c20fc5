//! Wakers make their tasks ready.
ghost use Rattle.std.specs.Prelude.{◌≡◌, ◌<◌, ◌≤◌, ◌+◌, ◌^◌, ℕ, List, IfOk, OnOk, OnErr};
ghost use Rattle.core_exec.specs.Tasks.{AreWaiting};
ghost use Rattle.core_exec.specs.Turns.{Reaches};
ghost use Rattle.core_exec.specs.Exec.{IsSound, KeepsDriver, KeepsPlaces, MeetAims, NoneForgotten, OutputsOf, Stands, TurnsTo};
ghost use Rattle.core_exec.specs.Exec.{left_of, moment_of, outputs_of, ready_of, spawned_of, tasks_of, turns_of};
ghost use Rattle.exec_wake.specs.Wakes.{MarksTasks, drained_in, named_by, tasks_in};

use core_exec::{Exec, Job, Ran};
use driver_core::Parked;
use rent_buf::OutOfMemory;
use wake_core::Waker;

/// Makes the unfinished tasks of wakers ready in the next turn. It takes no memory, so no waker is lost. (monoio: the wakers that a park
/// drained wake their tasks)
#[tactic(auto, using(crate::proofs::Waking::marks_none, crate::proofs::Waking::marks_next, crate::proofs::Waking::marks_all))]
pub fn wake_all<D, J: Job<D>>(exec: &mut Exec<D, J, J::Out>, wakers: &[Waker])
    requires stands { Stands J.polls J.cancels exec.old }
    ensures stands { Stands J.polls J.cancels exec.new }
    ensures sound { IsSound J.fits J.apart exec.old → IsSound J.fits J.apart exec.new }
    ensures tasks { MarksTasks (tasks_in wakers.now) (tasks_of exec.old) (tasks_of exec.new) }
    ensures kept { KeepsDriver exec.old exec.new }
    ensures numbers { (spawned_of exec.new ≡ spawned_of exec.old) × (left_of exec.new ≡ left_of exec.old) }
    ensures outputs { outputs_of exec.new ≡ outputs_of exec.old }
    ensures aims { (aims : ℕ → List ℕ) → MeetAims J.aim J.meets aims exec.old → MeetAims J.aim J.meets aims exec.new }
    ensures waits { NoneForgotten J.waits exec.old → NoneForgotten J.waits exec.new }
{
    let mut rest = wakers;
    while let [waker, behind @ ..] = rest {
        exec.wake(waker.task);
        rest = behind;
    }
}

/// Makes the unfinished tasks ready in the next turn whose wakers a park drained, as `wake_all` does, of both lists. It takes no memory, so
/// no waker is lost. (monoio: the wakers that a park drained wake their tasks)
pub fn wake_parked<D, J: Job<D>>(exec: &mut Exec<D, J, J::Out>, parked: &Parked)
    requires stands { Stands J.polls J.cancels exec.old }
    ensures stands { Stands J.polls J.cancels exec.new }
    ensures sound { IsSound J.fits J.apart exec.old → IsSound J.fits J.apart exec.new }
    ensures tasks { MarksTasks (drained_in parked.now) (tasks_of exec.old) (tasks_of exec.new) }
    ensures kept { KeepsDriver exec.old exec.new }
    ensures numbers { (spawned_of exec.new ≡ spawned_of exec.old) × (left_of exec.new ≡ left_of exec.old) }
    ensures outputs { outputs_of exec.new ≡ outputs_of exec.old }
    ensures aims { (aims : ℕ → List ℕ) → MeetAims J.aim J.meets aims exec.old → MeetAims J.aim J.meets aims exec.new }
    ensures waits { NoneForgotten J.waits exec.old → NoneForgotten J.waits exec.new }
{
    wake_all(exec, parked.remote.first.as_slice());
    wake_all(exec, parked.remote.again.as_slice());
}

/// A turn of the executor behind a park of its driver, at a moment, which is at least that of the turn before. The tasks are ready whose
/// wakers the park drained, and those that the driver names: no waker and no name is lost. If memory runs out for the lists of the answer,
/// these tasks are marked, and the next turn polls them.
#[tactic(auto, using(crate::proofs::Waking::reached_all, crate::proofs::Waking::added_all, crate::proofs::Waking::placed_all))]
pub fn turn_parked<D, J: Job<D>>(
    exec: &mut Exec<D, J, J::Out>,
    parked: &Parked,
    now: u64,
) -> Result<Ran, OutOfMemory>
    requires stands { Stands J.polls J.cancels exec.old }
    requires sound { IsSound J.fits J.apart exec.old }
    requires moment { moment_of exec.old ≤ now }
    requires counter { turns_of exec.old < 2 ^ 62 }
    ensures stands { Stands J.polls J.cancels exec.new }
    ensures sound { IsSound J.fits J.apart exec.new }
    ensures moment { moment_of exec.new ≡ now }
    ensures spawned { spawned_of exec.new ≡ spawned_of exec.old }
    ensures aims { (aims : ℕ → List ℕ) → MeetAims J.aim J.meets aims exec.old → MeetAims J.aim J.meets aims exec.new }

    // It is a turn of the executor as it was before the park, with all tasks that the park names.
    ensures turns { IfOk result (λ ran. TurnsTo J.polls J.cancels J.aim now (named_by parked.now) exec.old exec.new ran) }
    ensures reaches { IfOk result (λ ran. Reaches (ready_of now (named_by parked.now) exec.old) (tasks_of exec.new) ran.polled.items
        ran.stopped) }
    ensures outputs { IfOk result (λ ran. OutputsOf J.aim J.meets (ready_of now (named_by parked.now) exec.old) exec.old exec.new ran) }
    ensures places { KeepsPlaces exec.old exec.new }
    ensures counted { OnOk result (turns_of exec.new ≡ turns_of exec.old + 1) }

    // Where each task that wasn't ready waited in the driver, each that isn't ready in the next turn does.
    ensures waits { AreWaiting J.waits exec.old.driver (ready_of now (named_by parked.now) exec.old) → NoneForgotten J.waits exec.new }

    // Without memory for the lists, these tasks are marked.
    ensures marked { OnErr result ((t : ℕ) → tasks_of exec.new t ≡ ready_of now (named_by parked.now) exec.old t) }
    ensures err { OnErr result ((exec.new.driver ≡ exec.old.driver) × (outputs_of exec.new ≡ outputs_of exec.old)) }
    ensures not_counted { OnErr result (turns_of exec.new ≡ turns_of exec.old) }
{
    wake_parked(exec, parked);
    match exec.turn(now, parked.turned.woken.as_slice()) {
        Ok(ran) => Ok(ran),
        Err(error) => Err(error),
    }
}
