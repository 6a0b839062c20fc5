//! A job for each line of a text, and the turns that are made.
ghost use Rattle.std.specs.Prelude.{◌≡◌, ◌<◌, ◌≤◌, ◌+◌, [], length, ℕ, List, IfOk, OnOk};
ghost use Rattle.core_exec.specs.Exec.{IsSound, MeetAims, Stands, left_of, moment_of, outputs_of, spawned_of, turns_of};
ghost use Rattle.pipe_job.specs.PipeJob.{ApartPipes, FitsPipe, IsAim, aim_of, cancels_of, polls_of};
ghost use Rattle.event_text.specs.TextLines.{lines};
ghost use Rattle.task_run.specs.declared.jobs.TheConstants.{TURNS};
ghost use Rattle.task_run.specs.Tasks.{AreResults, IsSpawned, OutputFor, bytes_at};

use crate::output::{put_left, put_results, put_wrong};
use core_exec::Exec;
use event_text::{first_line, read_bytes};
use machine::{HandleKind, MOST_HANDLES, SharedFd};
use pipe_job::{PipeExec, PipeJob, abandon_all, turn};
use ready_driver::{LegacyDriver, MemIo};
use rent_buf::{ByteList, IoFault, OutOfMemory};
use std::alloc::Global;

// How many turns are made at most.
const TURNS: u64 = 16;

// The moment of each turn.
const NOW: u64 = 0;

// What is run: jobs over pipes in memory.
type Jobs = PipeExec<MemIo>;

/// Runs a job for each line of a text, and appends the lines that are written of them to an empty list. A line has lower-case hexadecimal
/// digits, or is `-` for no bytes. The bytes of line t, counted from 0, are those of task t: a job that sends them into a pipe in memory of
/// its own and receives them again. At most 16 turns are made, and then `task T HEX` is appended of each task that is done, or
/// `task T err TEXT` of one that failed, ascending, and `left N` with how many are not done.
///
/// `Some` is the number of the first line that writes no bytes, counted from 1: then no turn is made, and `line N` is appended.
/// `OutOfMemory` comes if memory runs out, or if no further pipe can be made. (not in monoio)
pub fn run_text(alloc: Global, text: &[u8], out: &mut Vec<u8>) -> Result<Option<u64>, OutOfMemory>
    requires none { out.old.items ≡ [] }
    ensures { IfOk result (λ wrong. OutputFor text.now wrong out.new.items) }
{
    let mut exec: Jobs = Exec::new(alloc, LegacyDriver::over(alloc, MemIo::new(alloc)));
    let ran = run_lines(alloc, &mut exec, text, out);
    abandon_all(&mut exec);
    match exec.finish() {
        Ok(_) => ran,
        Err(_) => unreachable!(),
    }
}

// The same in an executor of no jobs.
fn run_lines(
    alloc: Global,
    exec: &mut Jobs,
    text: &[u8],
    out: &mut Vec<u8>,
) -> Result<Option<u64>, OutOfMemory>
    requires stands { Stands polls_of cancels_of exec.old }
    requires sound { IsSound FitsPipe ApartPipes exec.old }
    requires none { out.old.items ≡ [] }
    requires fresh { (spawned_of exec.old ≡ 0) × (turns_of exec.old ≡ 0) × (moment_of exec.old ≡ 0) }
    requires empty { (left_of exec.old ≡ 0) × (outputs_of exec.old ≡ []) }
    requires aims { MeetAims aim_of IsAim (bytes_at text.now) exec.old }
    ensures stands { Stands polls_of cancels_of exec.new }
    ensures sound { IsSound FitsPipe ApartPipes exec.new }
    ensures output { IfOk result (λ wrong. OutputFor text.now wrong out.new.items) }
{
    match spawn_lines(alloc, exec, text)? {
        Some(number) => {
            put_wrong(number, out)?;
            Ok(Some(number))
        }
        None => {
            make_turns(exec)?;
            let results = take_results(exec)?;
            put_results(results.as_slice(), out)?;
            put_left(exec.left() as u64, out)?;
            Ok(None)
        }
    }
}

// Takes the outputs of tasks of which there was one for each of so many lines.
fn take_results(exec: &mut Jobs) -> Result<Vec<(u64, Result<ByteList, IoFault>)>, OutOfMemory>
    requires stands { Stands polls_of cancels_of exec.old }
    requires sound { IsSound FitsPipe ApartPipes exec.old }
    requires all { length (outputs_of exec.old) + left_of exec.old ≡ spawned_of exec.old }
    ensures stands { Stands polls_of cancels_of exec.new }
    ensures sound { IsSound FitsPipe ApartPipes exec.new }
    ensures results { IfOk result (λ results. (text : List ℕ) → spawned_of exec.old ≡ length (lines text) →
        MeetAims aim_of IsAim (bytes_at text) exec.old → AreResults text results.items (left_of exec.new)) }
{
    let taken = exec.take_done()?;
    Ok(taken)
}

// Spawns a job for each line of a text, up to the first that writes no bytes, whose number it answers.
#[tactic(auto, using(crate::proofs::Results::lines_end, crate::proofs::Results::line_wrong))]
fn spawn_lines(alloc: Global, exec: &mut Jobs, text: &[u8]) -> Result<Option<u64>, OutOfMemory>
    requires stands { Stands polls_of cancels_of exec.old }
    requires sound { IsSound FitsPipe ApartPipes exec.old }
    requires none { spawned_of exec.old ≡ 0 }
    requires all { length (outputs_of exec.old) + left_of exec.old ≡ spawned_of exec.old }
    requires aims { MeetAims aim_of IsAim (bytes_at text.now) exec.old }
    ensures stands { Stands polls_of cancels_of exec.new }
    ensures sound { IsSound FitsPipe ApartPipes exec.new }
    ensures kept { (turns_of exec.new ≡ turns_of exec.old) × (moment_of exec.new ≡ moment_of exec.old) }
    ensures all { OnOk result (length (outputs_of exec.new) + left_of exec.new ≡ spawned_of exec.new) }
    ensures aims { OnOk result (MeetAims aim_of IsAim (bytes_at text.now) exec.new) }
    ensures spawned { IfOk result (IsSpawned text.now (spawned_of exec.new)) }
{
    let mut rest = text;
    let mut number: u64 = 0;
    while !rest.is_empty() {
        let (line, behind) = first_line(rest);
        let Some(bytes) = read_bytes(alloc, line)? else {
            return Ok(Some(number + 1));
        };
        spawn(exec, bytes)?;
        number += 1;
        rest = behind;
    }
    Ok(None)
}

// Spawns a job of these bytes over a new pipe. It is refused if memory runs out, or no further handle or task can be made.
fn spawn(exec: &mut Jobs, bytes: ByteList) -> Result<(), OutOfMemory>
    requires stands { Stands polls_of cancels_of exec.old }
    requires sound { IsSound FitsPipe ApartPipes exec.old }
    ensures stands { Stands polls_of cancels_of exec.new }
    ensures sound { IsSound FitsPipe ApartPipes exec.new }
    ensures kept { (turns_of exec.new ≡ turns_of exec.old) × (moment_of exec.new ≡ moment_of exec.old) }
    ensures counted { OnOk result (spawned_of exec.new ≡ spawned_of exec.old + 1) }
    ensures left { OnOk result (left_of exec.new ≡ left_of exec.old + 1) }
    ensures outputs { outputs_of exec.new ≡ outputs_of exec.old }
    ensures aims { OnOk result ((aims : ℕ → List ℕ) → aims (spawned_of exec.old) ≡ bytes → MeetAims aim_of IsAim aims exec.old →
        MeetAims aim_of IsAim aims exec.new) }
{
    let pipe = give(exec)?;
    if exec.spawned() >= 1 << 62 {
        return Err(OutOfMemory);
    }
    match exec.spawn(PipeJob::new(pipe, bytes)) {
        Ok(_) => Ok(()),
        Err((_, job)) => {
            job.abandon(&mut exec.driver);
            Err(OutOfMemory)
        }
    }
}

// A new pipe in memory.
#[tactic(auto, using(crate::proofs::Pipes::given_sound))]
fn give(exec: &mut Jobs) -> Result<SharedFd, OutOfMemory>
    requires sound { IsSound FitsPipe ApartPipes exec.old }
    ensures sound { IsSound FitsPipe ApartPipes exec.new }
    ensures ready { exec.new.ready ≡ exec.old.ready }
    ensures outputs { exec.new.outputs ≡ exec.old.outputs }
    ensures numbers { (exec.new.spawned ≡ exec.old.spawned) × (exec.new.turns ≡ exec.old.turns) }
{
    let next = exec.driver.handles();
    if next >= MOST_HANDLES || exec.driver.known(next) {
        return Err(OutOfMemory);
    }
    exec.driver.give(HandleKind::Pipe)
}

// Makes turns until no task is left, and no more than `TURNS`.
fn make_turns(exec: &mut Jobs) -> Result<(), OutOfMemory>
    requires stands { Stands polls_of cancels_of exec.old }
    requires sound { IsSound FitsPipe ApartPipes exec.old }
    requires turns { turns_of exec.old ≡ 0 }
    requires moment { moment_of exec.old ≡ 0 }
    ensures stands { Stands polls_of cancels_of exec.new }
    ensures sound { IsSound FitsPipe ApartPipes exec.new }
    ensures spawned { spawned_of exec.new ≡ spawned_of exec.old }
    ensures few { turns_of exec.new ≤ TURNS }
    ensures all { length (outputs_of exec.new) + left_of exec.new ≡ length (outputs_of exec.old) + left_of exec.old }
    ensures aims { (aims : ℕ → List ℕ) → MeetAims aim_of IsAim aims exec.old → MeetAims aim_of IsAim aims exec.new }
{
    for _ in 0..TURNS {
        if exec.left() == 0 {
            return Ok(());
        }
        let (turned, ran) = turn(exec, NOW);
        if turned.stop.is_some() {
            return Err(OutOfMemory);
        }
        if ran?.stopped.is_some() {
            return Err(OutOfMemory);
        }
    }
    Ok(())
}
