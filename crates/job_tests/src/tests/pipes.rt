// Jobs over handles in memory: what they are done with, and when.
ghost use Rattle.core_exec.specs.Exec.{IsSound, Stands};
ghost use Rattle.pipe_job.specs.PipeJob.{ApartPipes, FitsPipe, cancels_of, polls_of};

use core_exec::Exec;
use machine::{CANCELED, HandleKind, MOST_HANDLES, SharedFd};
use pipe_job::{PipeExec, PipeJob, abandon_all, turn};
use ready_driver::{LegacyDriver, MemIo};
use rent_buf::{ByteList, IoFault, Rent};
use std::alloc::Global;
use std::test::Fail;

type OnHandles = LegacyDriver<MemIo, Rent>;

// A run: what it shows, the bytes of its job, its deadline, the kind of its handle, the moments of its turns, and how it ends, if it does.
type Row = (
    &'static str,
    &'static [u8],
    Option<u64>,
    HandleKind,
    &'static [u64],
    Option<Result<&'static [u8], IoFault>>,
);

#[rattlefmt::skip]
const ROWS: &[Row] = &[
    ("bytes go through a pipe in three turns", b"ab", None, HandleKind::Pipe, &[0, 0, 1], Some(Ok(b"ab"))),
    ("its bits are reported in the turn behind its first poll", b"ab", None, HandleKind::Pipe, &[0], None),
    ("no bytes are done at once", b"", None, HandleKind::Stream, &[0], Some(Ok(b""))),
    ("a stream gives nothing back", b"ab", None, HandleKind::Stream, &[0, 1, 2], None),
    ("a deadline ends the receive", b"a", Some(5), HandleKind::Stream, &[4, 5], Some(Err(IoFault::Os(CANCELED)))),
    ("a deadline before the first poll", b"a", Some(0), HandleKind::Pipe, &[3], Some(Err(IoFault::Os(CANCELED)))),
];

// The user gets the handle of a kind, which is 0, since it is the first.
fn give(driver: &mut OnHandles, kind: HandleKind) -> bool {
    let next = driver.handles();
    next < MOST_HANDLES && !driver.known(next) && driver.give(kind).is_ok()
}

// Spawns a job of these bytes over that handle.
fn spawn(exec: &mut PipeExec<MemIo>, bytes: ByteList, deadline: Option<u64>) -> bool
    requires stands { Stands polls_of cancels_of exec.old }
    requires sound { IsSound FitsPipe ApartPipes exec.old }
    ensures stands { Stands polls_of cancels_of exec.new }
    ensures sound { IsSound FitsPipe ApartPipes exec.new }
{
    if exec.spawned() >= 1 << 62 {
        return false;
    }
    let job = PipeJob::new(SharedFd::new(0), bytes);
    let spawned = match deadline {
        Some(deadline) => exec.spawn_until(job, deadline),
        None => exec.spawn(job),
    };
    match spawned {
        Ok(_) => true,
        Err((_, job)) => {
            job.abandon(&mut exec.driver);
            false
        }
    }
}

// Makes a turn at each of these moments.
fn turns(exec: &mut PipeExec<MemIo>, moments: &[u64]) -> bool
    requires stands { Stands polls_of cancels_of exec.old }
    requires sound { IsSound FitsPipe ApartPipes exec.old }
    ensures stands { Stands polls_of cancels_of exec.new }
    ensures sound { IsSound FitsPipe ApartPipes exec.new }
{
    for now in moments {
        if exec.turns() >= 1 << 62 || exec.moment() > *now {
            return false;
        }
        let (_, ran) = turn(exec, *now);
        if ran.is_err() {
            return false;
        }
    }
    true
}

// A job of these bytes is spawned, and a turn is made at each of these moments.
fn runs(exec: &mut PipeExec<MemIo>, bytes: ByteList, deadline: Option<u64>, moments: &[u64]) -> bool
    requires stands { Stands polls_of cancels_of exec.old }
    requires sound { IsSound FitsPipe ApartPipes exec.old }
    ensures stands { Stands polls_of cancels_of exec.new }
    ensures sound { IsSound FitsPipe ApartPipes exec.new }
{
    if !spawn(exec, bytes, deadline) {
        return false;
    }
    turns(exec, moments)
}

// The only output is so.
fn ends_so(
    outputs: &[(u64, Result<ByteList, IoFault>)],
    want: Option<Result<&[u8], IoFault>>,
) -> bool {
    match want {
        None => outputs.is_empty(),
        Some(Ok(want)) => match outputs {
            [(_, Ok(bytes))] => bytes.as_slice() == want,
            _ => false,
        },
        Some(Err(want)) => match outputs {
            [(_, Err(fault))] => *fault == want,
            _ => false,
        },
    }
}

#[test]
fn jobs_end_so(rt: HostRuntime) -> Result<(), Fail> {
    let alloc = rt.alloc();
    for &(name, bytes, deadline, kind, moments, want) in ROWS {
        let mut list = ByteList::new(alloc);
        list.append(bytes)?;
        let mut driver: OnHandles = LegacyDriver::over(alloc, MemIo::new(alloc));
        let given = give(&mut driver, kind);
        let mut exec: PipeExec<MemIo> = Exec::new(alloc, driver);
        let ran = runs(&mut exec, list, deadline, moments);
        let outputs = exec.take_done();
        abandon_all(&mut exec);
        match exec.finish() {
            Ok(_) => {}
            Err(_) => unreachable!(),
        }
        assert!(rt; given && ran, "in the row {name:?}");
        let outputs = outputs?;
        assert!(rt; ends_so(outputs.as_slice(), want), "in the row {name:?}");
    }
    Ok(())
}
