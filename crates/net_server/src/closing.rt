// The executor of a server, its driver's turns, and the closes of handles.
ghost use Rattle.std.specs.Prelude.{◌≡◌, ◌<◌, ℕ, true, false, IfOk, IfErr, OnErr};
ghost use Rattle.handle_core.specs.Table.{holders_at};
ghost use Rattle.core_exec.specs.Exec.{IsSound, Stands, left_of, spawned_of, tasks_of};
ghost use Rattle.exec_wake.specs.Wakes.{MarksTasks, drained_in};
ghost use Rattle.ready_driver.specs.LegacyState.{ops_in};
ghost use Rattle.ready_driver.specs.Registry.{is_users};
ghost use Rattle.net_server.specs.Closing.{AreClosed, GainsNone, GainsOne, IsClosed, SameSlots, table_of};
ghost use Rattle.net_server.specs.NetJob.{ApartJobs, FitsJob, cancels_of, polls_of};
ghost use Rattle.net_server.specs.Server.{IsOpenFault};

use crate::fault::ServerFault;
use crate::net_driver::NetDriver;
use crate::net_job::{NetEnd, NetJob};
use crate::serve::Serve;
use core_exec::Exec;
use driver_core::{Driver as _, Parked, Turned};
use exec_wake::wake_parked;
use handle_core::SharedFd;
#[cfg(test)]
use ready_driver::MemIo;
use ready_driver::{LegacyDriver, NonBlock, NonBlockError, Sockets};
use rent_buf::Rent;
use std::sync::Wait;
use std::sync::ledger::Ledger;
use std::time::Clock;
use wake_core::Sleeper;

// The readiness driver of a server.
pub(crate) type ServerDriver<I> = LegacyDriver<I, Rent>;

// The executor of a server.
pub(crate) type NetExec<I, S> = Exec<NetDriver<ServerDriver<I>>, NetJob<S>, NetEnd<S>>;

// Closes a handle once that the user holds.
#[tactic(auto, using(crate::proofs::Closes::closed_less, crate::proofs::Closes::closed_none))]
fn close_once<I: NonBlock>(driver: &mut ServerDriver<I>, fd: SharedFd)
    requires held { is_users (table_of driver.old) fd ≡ true }
    ensures same { SameSlots (ops_in driver.old) (ops_in driver.new) }
    ensures less { (holders_at (table_of driver.new) fd).user < (holders_at (table_of driver.old) fd).user }
    ensures gains { GainsNone (table_of driver.old) (table_of driver.new) }
{
    let _ = driver.close(fd);
}

// Closes a handle, as often as the user holds it.
#[tactic(auto, using(crate::proofs::Closes::gains_then, crate::proofs::Closes::gains_same, crate::proofs::Closes::slots_then, crate::proofs::Closes::slots_same))]
pub(crate) fn close<I: NonBlock>(driver: &mut ServerDriver<I>, fd: SharedFd)
    ensures closed { is_users (table_of driver.new) fd ≡ false }
    ensures same { SameSlots (ops_in driver.old) (ops_in driver.new) }
    ensures gains { GainsNone (table_of driver.old) (table_of driver.new) }
{
    while driver.user_holds(fd.number()) {
        close_once(driver, fd);
    }
}

// Closes a handle of an executor's driver.
#[tactic(auto, using(crate::proofs::Closes::same_sound))]
pub(crate) fn close_in<I: NonBlock, S: Serve>(exec: &mut NetExec<I, S>, fd: SharedFd)
    requires stands { Stands polls_of cancels_of exec.old }
    requires sound { IsSound (FitsJob ops_in) ApartJobs exec.old }
    ensures stands { Stands polls_of cancels_of exec.new }
    ensures sound { IsSound (FitsJob ops_in) ApartJobs exec.new }
    ensures left { left_of exec.new ≡ left_of exec.old }
    ensures spawned { spawned_of exec.new ≡ spawned_of exec.old }
    ensures closed { is_users (table_of exec.new.driver.driver) fd ≡ false }
    ensures gains { GainsNone (table_of exec.old.driver.driver) (table_of exec.new.driver.driver) }
{
    close(&mut exec.driver.driver, fd);
}

// Closes the handle of a connection that ended.
#[tactic(auto, using(crate::proofs::Closes::gains_same))]
fn close_end<I: NonBlock, S: Serve>(exec: &mut NetExec<I, S>, end: &NetEnd<S>)
    requires stands { Stands polls_of cancels_of exec.old }
    requires sound { IsSound (FitsJob ops_in) ApartJobs exec.old }
    ensures stands { Stands polls_of cancels_of exec.new }
    ensures sound { IsSound (FitsJob ops_in) ApartJobs exec.new }
    ensures left { left_of exec.new ≡ left_of exec.old }
    ensures closed { IsClosed (table_of exec.new.driver.driver) end.now }
    ensures gains { GainsNone (table_of exec.old.driver.driver) (table_of exec.new.driver.driver) }
{
    match end {
        NetEnd::Ended(ended) => close_in(exec, ended.fd),
        _ => {}
    }
}

// Closes the handles of the connections among what ended.
#[tactic(auto, using(crate::proofs::Closes::closed_first))]
pub(crate) fn close_ended<I: NonBlock, S: Serve>(
    exec: &mut NetExec<I, S>,
    ended: &[(u64, NetEnd<S>)],
)
    requires stands { Stands polls_of cancels_of exec.old }
    requires sound { IsSound (FitsJob ops_in) ApartJobs exec.old }
    ensures stands { Stands polls_of cancels_of exec.new }
    ensures sound { IsSound (FitsJob ops_in) ApartJobs exec.new }
    ensures left { left_of exec.new ≡ left_of exec.old }
    ensures closed { AreClosed (table_of exec.new.driver.driver) ended.now }
{
    for k in 0..ended.len() {
        close_end(exec, &ended[k].1);
    }
}

// A turn of the driver.
#[tactic(auto, using(crate::proofs::Closes::same_sound))]
pub(crate) fn turn_driver<I: Sockets, S: Serve>(exec: &mut NetExec<I, S>) -> Turned
    requires stands { Stands polls_of cancels_of exec.old }
    requires sound { IsSound (FitsJob ops_in) ApartJobs exec.old }
    ensures stands { Stands polls_of cancels_of exec.new }
    ensures sound { IsSound (FitsJob ops_in) ApartJobs exec.new }
{
    exec.driver.driver.submit()
}

// A park of the driver, no longer than so many milliseconds.
#[tactic(auto, using(crate::proofs::Closes::same_sound))]
fn park_driver<I: Sockets, S: Serve, P: Ledger, D: Ledger, R: Wait + Clock>(
    exec: &mut NetExec<I, S>,
    rt: &R,
    sleeper: &mut Sleeper<P, D>,
    millis: u64,
) -> Parked
    requires stands { Stands polls_of cancels_of exec.old }
    requires sound { IsSound (FitsJob ops_in) ApartJobs exec.old }
    ensures stands { Stands polls_of cancels_of exec.new }
    ensures sound { IsSound (FitsJob ops_in) ApartJobs exec.new }
    ensures tasks { (t : ℕ) → tasks_of exec.new t ≡ tasks_of exec.old t }
{
    exec.driver.driver.park_timeout(rt, sleeper, millis)
}

// A park of the driver, after which the tasks are ready whose wakers it drained.
pub(crate) fn park_exec<I: Sockets, S: Serve, P: Ledger, D: Ledger, R: Wait + Clock>(
    exec: &mut NetExec<I, S>,
    rt: &R,
    sleeper: &mut Sleeper<P, D>,
    millis: u64,
) -> Parked
    requires stands { Stands polls_of cancels_of exec.old }
    requires sound { IsSound (FitsJob ops_in) ApartJobs exec.old }
    ensures stands { Stands polls_of cancels_of exec.new }
    ensures sound { IsSound (FitsJob ops_in) ApartJobs exec.new }
    ensures marks { MarksTasks (drained_in result) (tasks_of exec.old) (tasks_of exec.new) }
{
    let parked = park_driver(exec, rt, sleeper, millis);
    wake_parked(exec, &parked);
    parked
}

// Why the object refused to open a handle.
fn refused(why: NonBlockError) -> ServerFault
    ensures { IsOpenFault result }
{
    match why {
        NonBlockError::Fault(code) => ServerFault::Os(code),
        NonBlockError::OutOfMemory => ServerFault::OutOfMemory,
    }
}

// A handle that listens on a port.
#[tactic(auto, using(crate::proofs::Closes::same_sound))]
pub(crate) fn listen_in<I: Sockets, S: Serve>(
    exec: &mut NetExec<I, S>,
    port: u16,
) -> Result<SharedFd, ServerFault>
    requires stands { Stands polls_of cancels_of exec.old }
    requires sound { IsSound (FitsJob ops_in) ApartJobs exec.old }
    ensures stands { Stands polls_of cancels_of exec.new }
    ensures sound { IsSound (FitsJob ops_in) ApartJobs exec.new }
    ensures faults { IfErr result IsOpenFault }
    ensures spawned { spawned_of exec.new ≡ spawned_of exec.old }
{
    match exec.driver.driver.listen(port) {
        Ok(fd) => Ok(fd),
        Err(why) => Err(refused(why)),
    }
}

// A handle that connects to a port.
#[tactic(auto, using(crate::proofs::Closes::same_sound, crate::proofs::Closes::gains_opened, crate::proofs::Closes::gains_held))]
pub(crate) fn dial_in<I: Sockets, S: Serve>(
    exec: &mut NetExec<I, S>,
    port: u16,
) -> Result<SharedFd, ServerFault>
    requires stands { Stands polls_of cancels_of exec.old }
    requires sound { IsSound (FitsJob ops_in) ApartJobs exec.old }
    ensures stands { Stands polls_of cancels_of exec.new }
    ensures sound { IsSound (FitsJob ops_in) ApartJobs exec.new }
    ensures faults { IfErr result IsOpenFault }
    ensures spawned { spawned_of exec.new ≡ spawned_of exec.old }
    ensures one { IfOk result (λ fd. GainsOne (table_of exec.old.driver.driver) (table_of exec.new.driver.driver) fd) }
    ensures none { OnErr result (GainsNone (table_of exec.old.driver.driver) (table_of exec.new.driver.driver)) }
{
    match exec.driver.driver.dial(port) {
        Ok(fd) => Ok(fd),
        Err(why) => Err(refused(why)),
    }
}

// Bytes come at a handle in memory, and then its end, if that is to come: whether they could.
#[cfg(test)]
#[tactic(auto, using(crate::proofs::Closes::same_sound))]
pub(crate) fn feed_in<S: Serve>(
    exec: &mut NetExec<MemIo, S>,
    h: u64,
    bytes: &str,
    ends: bool,
) -> bool
    requires stands { Stands polls_of cancels_of exec.old }
    requires sound { IsSound (FitsJob ops_in) ApartJobs exec.old }
    ensures stands { Stands polls_of cancels_of exec.new }
    ensures sound { IsSound (FitsJob ops_in) ApartJobs exec.new }
{
    if !exec.driver.driver.has_handle(h) || exec.driver.driver.feed(h, bytes.as_bytes()).is_err() {
        return false;
    }
    if !ends {
        return true;
    }
    exec.driver.driver.has_handle(h) && exec.driver.driver.end(h).is_ok()
}
