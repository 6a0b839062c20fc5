//! A turn of the executor over the readiness driver, which misses no task that can go on.
ghost use Rattle.std.specs.Prelude.{◌≡◌, ◌<◌, ◌≤◌, ◌^◌, ℕ, IfOk, OnErr};
ghost use Rattle.core_exec.specs.Turns.{Reaches};
ghost use Rattle.core_exec.specs.Exec.{IsSound, KeepsPlaces, NoneForgotten, Stands, TurnsTo, moment_of, ready_of, spawned_of, tasks_of, turns_of};
ghost use Rattle.ready_driver.specs.LegacyState.{ops_in};
ghost use Rattle.op_job.specs.Kept.{WaitsLegacy, WaitsReady, WakesAll};
ghost use Rattle.op_job.specs.Met.{MissesNone};
ghost use Rattle.op_job.specs.OpJob.{ApartOps, FitsOps, cancels_of, no_aim, polls_of};

use crate::follow::Follow;
use crate::turns::{OpExec, turn};
use core_exec::Ran;
use driver_core::Turned;
use ready_driver::{LegacyDriver, NonBlock};
use rent_buf::{IoBufMut, OutOfMemory};

/// A turn as `turn` makes it, of the readiness driver. It comes to each unfinished task whose operation waits in the list of its handle, of
/// which a bit meets its direction once the driver's turn has ended; up to a task at which memory ran out. (not in monoio)
pub fn turn_ready<I: NonBlock, B: IoBufMut + Drop, F: Follow<B>>(
    exec: &mut OpExec<LegacyDriver<I, B>, B, F>,
    now: u64,
) -> (Turned, Result<Ran, OutOfMemory>)
    requires stands { Stands polls_of cancels_of exec.old }
    requires sound { IsSound (FitsOps ops_in) ApartOps exec.old }
    requires moment { moment_of exec.old ≤ now }
    requires counter { turns_of exec.old < 2 ^ 62 }
    ensures stands { Stands polls_of cancels_of exec.new }
    ensures sound { IsSound (FitsOps ops_in) ApartOps exec.new }
    ensures moment { moment_of exec.new ≡ now }
    ensures turns { IfOk result.1 (λ ran. TurnsTo polls_of cancels_of no_aim now result.0.woken exec.old exec.new ran) }
    ensures reaches { IfOk result.1 (λ ran. Reaches (ready_of now result.0.woken exec.old) (tasks_of exec.new) ran.polled.items
        ran.stopped) }
    ensures places { KeepsPlaces exec.old exec.new }
    ensures spawned { spawned_of exec.new ≡ spawned_of exec.old }
    ensures marked { OnErr result.1 ((t : ℕ) → tasks_of exec.new t ≡ ready_of now result.0.woken exec.old t) }
    ensures misses { IfOk result.1 (MissesNone I.view I.tells I.reporting I.memory exec.old.driver result.0 (tasks_of exec.old)) }
    // What is so of each task that isn't ready before the turn is so behind it,
    ensures waits { NoneForgotten (WaitsLegacy I.files B.buffer I.called I.view I.tells I.reporting I.memory) exec.old
        → NoneForgotten (WaitsLegacy I.files B.buffer I.called I.view I.tells I.reporting I.memory) exec.new }
    // and then its operation stands in the list of its handle, of which no bit meets its direction, or the next turn names the task.
    ensures kept { NoneForgotten (WaitsLegacy I.files B.buffer I.called I.view I.tells I.reporting I.memory) exec.old
        → NoneForgotten (WaitsReady I.files B.buffer I.called I.view I.tells I.reporting I.memory) exec.new }
    // The turn came to each other one.
    ensures wakes { NoneForgotten (WaitsLegacy I.files B.buffer I.called I.view I.tells I.reporting I.memory) exec.old
        → IfOk result.1 (WakesAll I.files B.buffer I.called I.view I.tells I.reporting I.memory exec.old.driver result.0
        (tasks_of exec.old)) }
{
    turn(exec, now)
}
