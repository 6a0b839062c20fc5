// A thread wakes a job of a parked executor.
ghost use Rattle.core_exec.specs.Exec.{IsSound, Stands};
ghost use Rattle.pipe_job.specs.PipeJob.{ApartPipes, FitsPipe, cancels_of, polls_of};

use core_exec::Exec;
use machine::{HandleKind, MOST_HANDLES, SharedFd};
use pipe_job::{PipeExec, PipeJob, abandon_all, park, turn};
use ready_driver::{LegacyDriver, MemIo};
use rent_buf::{ByteList, Rent};
use std::alloc::Global;
use std::sync::Wait;
use std::sync::ledger::Ledger;
use std::test::Fail;
use std::time::Clock;
use wake_core::{MAX_PUSHED, Parks, RemoteSender, Sends, Sleeper, UnparkHandle, with_senders};

type OnHandles = LegacyDriver<MemIo, Rent>;

// What the thread does: it sends the waker of the task 0.
struct Wakes;

impl Sends for Wakes {
    fn send<P: Ledger, D: Ledger, R: Wait + Clock>(
        &self,
        rt: &R,
        mut sender: RemoteSender<P, D>,
        _handle: UnparkHandle<P, D>,
    ) {
        if sender.sent() < MAX_PUSHED {
            let _ = sender.send(rt, 0);
        }
    }
}

// A job of these bytes over a stream in memory, which gives nothing back, so that only a waker makes it ready behind its first poll.
fn spawn(exec: &mut PipeExec<MemIo>, bytes: ByteList) -> bool
    requires stands { Stands polls_of cancels_of exec.old }
    requires sound { IsSound FitsPipe ApartPipes exec.old }
    ensures stands { Stands polls_of cancels_of exec.new }
    ensures sound { IsSound FitsPipe ApartPipes exec.new }
{
    if exec.spawned() >= 1 << 62 {
        return false;
    }
    match exec.spawn(PipeJob::new(SharedFd::new(0), bytes)) {
        Ok(task) => task == 0,
        Err((_, job)) => {
            job.abandon(&mut exec.driver);
            false
        }
    }
}

// Turns are made until none polls the job.
fn settles(exec: &mut PipeExec<MemIo>) -> bool
    requires stands { Stands polls_of cancels_of exec.old }
    requires sound { IsSound FitsPipe ApartPipes exec.old }
    ensures stands { Stands polls_of cancels_of exec.new }
    ensures sound { IsSound FitsPipe ApartPipes exec.new }
{
    for _ in 0..10 {
        if exec.turns() >= 1 << 62 || exec.moment() > 0 {
            return false;
        }
        let (_, ran) = turn(exec, 0);
        match ran {
            Ok(ran) if ran.polled.as_slice().is_empty() => return true,
            _ => {}
        }
    }
    false
}

// The first of so many turns that polls the job, each behind a park of a millisecond at most.
fn turn_of<P: Ledger, D: Ledger, T: Wait + Clock>(
    exec: &mut PipeExec<MemIo>,
    rt: &T,
    sleeper: &mut Sleeper<P, D>,
) -> bool
    requires stands { Stands polls_of cancels_of exec.old }
    requires sound { IsSound FitsPipe ApartPipes exec.old }
    ensures stands { Stands polls_of cancels_of exec.new }
    ensures sound { IsSound FitsPipe ApartPipes exec.new }
{
    for _ in 0..1000 {
        if exec.turns() >= 1 << 62 || exec.moment() > 0 {
            return false;
        }
        let (_, ran) = park(exec, rt, sleeper, 0, 1);
        match ran {
            Ok(ran) if ran.polled.as_slice() == [0].as_slice() => return true,
            _ => {}
        }
    }
    false
}

// What is done meanwhile: an executor parks until a turn polls its job.
#[derive(Drop)]
struct ParksUntil<'a, R> {
    rt: &'a R,
    alloc: Global,
    bytes: ByteList,
}

impl<'a, R: Wait + Clock> Parks for ParksUntil<'a, R> {
    type Out = bool;

    // Nothing is known of it.
    ghost gives = { λ work made out. Unit {0} };

    fn park<P: Ledger, D: Ledger>(self, mut sleeper: Sleeper<P, D>) -> bool {
        let mut driver: OnHandles = LegacyDriver::over(self.alloc, MemIo::new(self.alloc));
        let next = driver.handles();
        if next >= MOST_HANDLES || driver.known(next) || driver.give(HandleKind::Stream).is_err() {
            return false;
        }
        let mut exec: PipeExec<MemIo> = Exec::new(self.alloc, driver);
        let polled = spawn(&mut exec, self.bytes)
            && settles(&mut exec)
            && turn_of(&mut exec, self.rt, &mut sleeper);
        abandon_all(&mut exec);
        match exec.finish() {
            Ok(_) => {}
            Err(_) => unreachable!(),
        }
        polled
    }
}

#[test]
fn a_thread_wakes_a_job(rt: HostRuntime) -> Result<(), Fail> {
    let alloc = rt.alloc();
    let mut bytes = ByteList::new(alloc);
    bytes.append(b"ab")?;
    let parks = ParksUntil {
        rt: &rt,
        alloc,
        bytes,
    };
    let polled = with_senders(&rt, alloc, 1, &Wakes, parks)?;
    assert!(rt; polled);
    Ok(())
}
