// The jobs of a server: they are spawned, polled in turns, and taken out.
ghost use Rattle.std.specs.Prelude.{◌≡◌, ◌≤◌, ◌<◌, ◌+◌, ◌^◌, ◌++◌, false, true, IfOk, IfErr, OnErr, ℕ};
ghost use Rattle.core_exec.specs.Exec.{IsSound, Stands, jobs_of, left_of, moment_of, spawned_of};
ghost use Rattle.core_exec.specs.Tasks.{IsApart};
ghost use Rattle.ready_driver.specs.LegacyState.{ops_in};
ghost use Rattle.net_server.specs.NetJob.{ApartJobs, FitsJob, WaitsForNone, cancels_of, polls_of};
ghost use Rattle.net_server.specs.Closing.{table_of};
ghost use Rattle.net_server.specs.Server.{IsShortage, SpawnsOne};

use crate::closing::{NetExec, ServerDriver, close_ended, close_in};
use crate::fault::ServerFault;
use crate::net_driver::NetDriver;
use crate::net_job::NetJob;
use crate::serve::Serve;
use crate::server::Limits;
use core_exec::Ran;
use handle_core::SharedFd;
use net_stream::Connection;
use ready_driver::Sockets;
use std::alloc::Global;
use std::mem;

// A turn of the jobs that are ready, and of those that the driver or a job names. Its answer is put into an earlier one.
pub(crate) fn run_jobs<I: Sockets, S: Serve>(
    exec: &mut NetExec<I, S>,
    named: &mut Vec<u64>,
    ran: &mut Ran,
    now: u64,
    woken: &[u64],
) -> Result<(), ServerFault>
    requires stands { Stands polls_of cancels_of exec.old }
    requires sound { IsSound (FitsJob ops_in) ApartJobs exec.old }
    requires moment { moment_of exec.old ≤ now }
    ensures stands { Stands polls_of cancels_of exec.new }
    ensures sound { IsSound (FitsJob ops_in) ApartJobs exec.new }
    ensures err { IfErr result IsShortage }
{
    if exec.turns() >= 1 << 62 {
        return Err(ServerFault::Exhausted);
    }
    let all = name_all(exec, named, woken);
    let list = if all { named.as_slice() } else { woken };
    match exec.turn_into(now, list, ran) {
        Ok(()) => Ok(()),
        Err(_) => Err(ServerFault::OutOfMemory),
    }
}

// Takes the tasks that jobs asked for, and those that the driver woke, as one list. Without memory for that the former stay for the next
// turn.
fn name_all<I: Sockets, S: Serve>(
    exec: &mut NetExec<I, S>,
    named: &mut Vec<u64>,
    woken: &[u64],
) -> bool
    requires stands { Stands polls_of cancels_of exec.old }
    requires sound { IsSound (FitsJob ops_in) ApartJobs exec.old }
    ensures stands { Stands polls_of cancels_of exec.new }
    ensures sound { IsSound (FitsJob ops_in) ApartJobs exec.new }
    ensures same { (exec.new.ready ≡ exec.old.ready) × (exec.new.turns ≡ exec.old.turns) }
    ensures named { result ≡ true → named.new.items ≡ exec.old.driver.again.items ++ woken.now }
    ensures kept { result ≡ false → exec.new.driver.again.items ≡ exec.old.driver.again.items }
{
    named.clear();
    mem::swap(named, &mut exec.driver.again);
    if named.extend_from_slice(woken).is_ok() {
        return true;
    }
    mem::swap(named, &mut exec.driver.again);
    false
}

// Spawns a job that has no operation, to be canceled at a moment, or never.
#[tactic(auto, using(crate::proofs::Frames::idle_fits))]
fn spawn<I: Sockets, S: Serve>(
    exec: &mut NetExec<I, S>,
    job: NetJob<S>,
    deadline: Option<u64>,
) -> Result<u64, NetJob<S>>
    requires stands { Stands polls_of cancels_of exec.old }
    requires sound { IsSound (FitsJob ops_in) ApartJobs exec.old }
    requires counts { (polls_of job ≡ 0) × (cancels_of job ≡ 0) }
    requires idle { WaitsForNone job }
    requires counter { spawned_of exec.old < 2 ^ 62 }
    ensures stands { Stands polls_of cancels_of exec.new }
    ensures sound { IsSound (FitsJob ops_in) ApartJobs exec.new }
    ensures ok { IfOk result (λ task. SpawnsOne (spawned_of exec.old) (spawned_of exec.new) task) }
    ensures err { IfErr result (λ back. back ≡ job) }
    ensures counted { OnErr result (spawned_of exec.new ≡ spawned_of exec.old) }
    ensures kept { exec.new.driver ≡ exec.old.driver }
{
    let spawned = match deadline {
        Some(deadline) => exec.spawn_until(job, deadline),
        None => exec.spawn(job),
    };
    match spawned {
        Ok(task) => Ok(task),
        Err((_, job)) => Err(job),
    }
}

// Spawns the job of a connection. A refused one gives the state back.
#[tactic(auto, using(crate::proofs::Frames::idle_fits))]
pub(crate) fn begin<I: Sockets, S: Serve>(
    exec: &mut NetExec<I, S>,
    alloc: Global,
    fd: SharedFd,
    state: S,
    limits: Limits,
) -> Result<u64, (ServerFault, S)>
    requires stands { Stands polls_of cancels_of exec.old }
    requires sound { IsSound (FitsJob ops_in) ApartJobs exec.old }
    ensures stands { Stands polls_of cancels_of exec.new }
    ensures sound { IsSound (FitsJob ops_in) ApartJobs exec.new }
    ensures ok { IfOk result (λ task. SpawnsOne (spawned_of exec.old) (spawned_of exec.new) task) }
    ensures err { IfErr result (λ refused. (refused.1 ≡ state) × IsShortage refused.0) }
    ensures counted { OnErr result (spawned_of exec.new ≡ spawned_of exec.old) }
    ensures table { table_of exec.new.driver.driver ≡ table_of exec.old.driver.driver }
{
    if exec.spawned() >= 1 << 62 {
        return Err((ServerFault::Exhausted, state));
    }
    let conn = match Connection::new(alloc, fd, limits.room) {
        Ok(conn) => conn,
        Err(_) => return Err((ServerFault::OutOfMemory, state)),
    };
    let job = match NetJob::serve(alloc, conn, state) {
        Ok(job) => job,
        Err((conn, state)) => {
            let _ = conn.into_fd();
            return Err((ServerFault::OutOfMemory, state));
        }
    };
    let deadline = match limits.life {
        Some(life) => Some(exec.moment().saturating_add(life)),
        None => None,
    };
    match spawn(exec, job, deadline) {
        Ok(task) => Ok(task),
        Err(job) => Err((ServerFault::OutOfMemory, job.into_state())),
    }
}

// Spawns the job of an accept.
#[tactic(auto, using(crate::proofs::Frames::idle_fits, crate::proofs::Frames::idle_sound))]
pub(crate) fn accept<I: Sockets, S: Serve>(
    exec: &mut NetExec<I, S>,
    fd: SharedFd,
) -> Result<u64, ServerFault>
    requires stands { Stands polls_of cancels_of exec.old }
    requires sound { IsSound (FitsJob ops_in) ApartJobs exec.old }
    ensures stands { Stands polls_of cancels_of exec.new }
    ensures sound { IsSound (FitsJob ops_in) ApartJobs exec.new }
    ensures err { IfErr result IsShortage }
{
    if exec.spawned() >= 1 << 62 {
        return Err(ServerFault::Exhausted);
    }
    match spawn(exec, NetJob::accept(fd), None) {
        Ok(task) => Ok(task),
        Err(job) => {
            job.abandon(&mut exec.driver.driver);
            Err(ServerFault::OutOfMemory)
        }
    }
}

// Drops what a job waits for that was taken out, and closes its handle.
fn abandon_job<I: Sockets, S: Serve>(exec: &mut NetExec<I, S>, job: NetJob<S>)
    requires stands { Stands polls_of cancels_of exec.old }
    requires sound { IsSound (FitsJob ops_in) ApartJobs exec.old }
    requires apart { (t : ℕ) × IsApart (FitsJob ops_in) ApartJobs exec.old.driver (jobs_of exec.old) t job }
    ensures stands { Stands polls_of cancels_of exec.new }
    ensures sound { IsSound (FitsJob ops_in) ApartJobs exec.new }
    ensures left { left_of exec.new ≡ left_of exec.old }
{
    let fd = job.abandon(&mut exec.driver.driver);
    close_in(exec, fd);
}

// Takes out the lowest task, if there is one, drops what it waits for, and closes its handle: whether there was one.
fn abandon_first<I: Sockets, S: Serve>(exec: &mut NetExec<I, S>) -> bool
    requires stands { Stands polls_of cancels_of exec.old }
    requires sound { IsSound (FitsJob ops_in) ApartJobs exec.old }
    ensures stands { Stands polls_of cancels_of exec.new }
    ensures sound { IsSound (FitsJob ops_in) ApartJobs exec.new }
    ensures none { result ≡ false → left_of exec.new ≡ 0 }
    ensures fewer { result ≡ true → left_of exec.new + 1 ≡ left_of exec.old }
{
    match exec.take_left() {
        Some((_, job)) => {
            abandon_job(exec, job);
            true
        }
        None => false,
    }
}

// Takes out all tasks, drops what they wait for, and closes their handles.
pub(crate) fn abandon_all<I: Sockets, S: Serve>(exec: &mut NetExec<I, S>)
    requires stands { Stands polls_of cancels_of exec.old }
    requires sound { IsSound (FitsJob ops_in) ApartJobs exec.old }
    ensures stands { Stands polls_of cancels_of exec.new }
    ensures sound { IsSound (FitsJob ops_in) ApartJobs exec.new }
    ensures none { left_of exec.new ≡ 0 }
{
    while abandon_first(exec) {}
}

// Closes the handles of what ended since the last turn. Without memory for that they stay.
fn close_done<I: Sockets, S: Serve>(exec: &mut NetExec<I, S>)
    requires stands { Stands polls_of cancels_of exec.old }
    requires sound { IsSound (FitsJob ops_in) ApartJobs exec.old }
    ensures stands { Stands polls_of cancels_of exec.new }
    ensures sound { IsSound (FitsJob ops_in) ApartJobs exec.new }
    ensures left { left_of exec.new ≡ left_of exec.old }
{
    match exec.take_done() {
        Ok(ended) => close_ended(exec, ended.as_slice()),
        Err(_) => {}
    }
}

// Closes a handle, if there is one.
fn close_if<I: Sockets, S: Serve>(exec: &mut NetExec<I, S>, fd: Option<SharedFd>)
    requires stands { Stands polls_of cancels_of exec.old }
    requires sound { IsSound (FitsJob ops_in) ApartJobs exec.old }
    ensures stands { Stands polls_of cancels_of exec.new }
    ensures sound { IsSound (FitsJob ops_in) ApartJobs exec.new }
    ensures left { left_of exec.new ≡ left_of exec.old }
{
    match fd {
        Some(fd) => close_in(exec, fd),
        None => {}
    }
}

// Ends an executor, with the handle that listens and one that was accepted: its driver.
pub(crate) fn end_exec<I: Sockets, S: Serve>(
    exec: NetExec<I, S>,
    listener: Option<SharedFd>,
    waiting: Option<SharedFd>,
) -> ServerDriver<I>
    requires stands { Stands polls_of cancels_of exec }
    requires sound { IsSound (FitsJob ops_in) ApartJobs exec }
{
    let mut exec = exec;
    abandon_all(&mut exec);
    close_done(&mut exec);
    close_if(&mut exec, listener);
    close_if(&mut exec, waiting);
    match exec.finish() {
        Ok(driver) => {
            let NetDriver { driver, again: _ } = driver;
            driver
        }
        Err(_) => unreachable!(),
    }
}
