//! A server: connections by number, over a readiness driver.
ghost use Rattle.std.specs.Prelude.{◌≡◌, ◌<◌, ◌≤◌, ◌+◌, false, IfErr, IfSome, OnErr, OnOk};
ghost use Rattle.ready_driver.specs.Registry.{is_users};
ghost use Rattle.net_server.specs.Closing.{AreClosed, GainsNone};
ghost use Rattle.net_server.specs.Server.{BeginsFor, CountsTurn, DialsFor, IsShortage, IsTurnFault, KeepsLimit, ListensFor, begun_in};

use crate::closing::{NetExec, close_ended, close_in, dial_in, listen_in, park_exec, turn_driver};
use crate::fault::ServerFault;
use crate::net_driver::NetDriver;
use crate::net_job::NetEnd;
use crate::places::{Places, first};
use crate::serve::Serve;
use crate::spawning::{accept, begin, end_exec, run_jobs};
use core_exec::{Exec, Ran};
use driver_core::{Stop, Turned};
use handle_core::SharedFd;
use ready_driver::{LegacyDriver, Sockets};
use rent_buf::{OutOfMemory, Rent};
use std::alloc::Global;
use std::marker::Model;
use std::sync::Wait;
use std::sync::ledger::Ledger;
use std::time::Clock;
use wake_core::Sleeper;

/// How much a server takes. (not in monoio)
#[derive(Clone, Copy, Debug)]
pub struct Limits {
    /// The size of each of a connection's five buffers, in bytes.
    pub room: usize,
    /// How many connections may be open. An accept that waits has the place of one.
    pub most: usize,
    /// How long a connection may last, in the unit of the moments of turns. One that lasts longer ends as late.
    pub life: Option<u64>,
}

impl Limits {
    /// Buffers of so many bytes, and no other limit.
    pub fn new(room: usize) -> Limits
        ensures room { result.room ≡ room }
    {
        Limits {
            room,
            most: usize::MAX,
            life: None,
        }
    }
}

/// What a turn did. (not in monoio)
#[derive(Debug, Drop)]
pub struct Turn<S> {
    /// The connection that was begun for a handle that an accept made, by its task.
    pub accepted: Option<u64>,
    /// What ended, each with its task, ascending: connections, with their states, and accepts. The handles of the connections are closed.
    pub ended: Vec<(u64, NetEnd<S>)>,
    /// Why the driver's turn stopped, if it did: nothing is lost by it.
    pub stop: Option<Stop>,
    /// What was refused in this turn, if something was: the first of it. It is tried again in a later one.
    pub fault: Option<ServerFault>,
}

/// A server of connections over a readiness driver: it accepts, dials, and serves each connection by its state. It closes what is open
/// where it is dropped. (not in monoio)
pub struct Server<I: Sockets, S: Serve> {
    exec: NetExec<I, S>,
    limits: Limits,
    // The places of its connections.
    places: Places,
    // The handle that listens.
    listener: Option<SharedFd>,
    // Memory for the tasks that a turn names.
    named: Vec<u64>,
    // What the last turn of the jobs answered. Its lists are used again.
    ran: Ran,
    // A task is ready that no turn has named.
    fresh: bool,
    // Something was refused in the last turn.
    short: bool,
    // What the clock showed at the first park.
    start: Option<u64>,
    alloc: Global,
}

impl<I: Sockets, S: Serve> Model for Server<I, S> {
    ghost use Rattle.std.specs.Prelude.{◌≤◌, is_some};
    ghost use Rattle.core_exec.specs.Exec.{IsSound, Stands, spawned_of};
    ghost use Rattle.ready_driver.specs.LegacyState.{ops_in};
    ghost use Rattle.net_server.specs.Closing.{table_of};
    ghost use Rattle.net_server.specs.NetJob.{ApartJobs, FitsJob, cancels_of, polls_of};
    ghost use Rattle.net_server.specs.Server.{Serves, serves_code};

    ghost Value = { Serves };

    ghost coded = { serves_code };

    ghost view = { λ s. record {
      table = table_of s.exec.driver.driver;
      count = s.places.count;
      most = s.places.most;
      listens = is_some s.listener;
      given = spawned_of s.exec;
    } };

    ghost invariant = { λ s. Stands polls_of cancels_of s.exec × IsSound (FitsJob ops_in) ApartJobs s.exec
        × (s.places.count ≤ s.places.most) };
}

impl<I: Sockets, S: Serve> Server<I, S> {
    /// A server of no connections over a driver. It takes no memory.
    pub fn over(alloc: Global, driver: LegacyDriver<I, Rent>, limits: Limits) -> Server<I, S>
        ensures { result ≡ record {
          table = driver.handling.table;
          count = 0;
          most = limits.most;
          listens = false;
          given = 0;
        } }
    {
        Server {
            exec: Exec::new(alloc, NetDriver::new(alloc, driver)),
            limits,
            places: Places::new(limits.most),
            listener: None,
            named: Vec::new(alloc),
            ran: Ran::new(alloc),
            fresh: false,
            short: false,
            start: None,
            alloc,
        }
    }

    /// How many connections are open: never more than there may be.
    pub fn connections(&self) -> usize
        ensures count { result ≡ self.now.count }
        ensures within { result ≤ self.now.most }
    {
        self.places.count
    }

    /// How many operations the driver has.
    pub fn operations(&self) -> usize {
        self.exec.driver.driver.num_operations()
    }

    /// The object of its driver.
    pub fn io(&self) -> &I {
        self.exec.driver.driver.io()
    }

    /// Listens on a port of this machine: turns accept from now on. `Os` has the system's error, as where the port is taken; `OutOfMemory`
    /// comes if memory runs out, and `Listens` where it listens already. Nothing has changed then.
    pub fn listen(&mut self, port: u16) -> Result<(), ServerFault>
        ensures listens { ListensFor self.old self.new result }
        ensures rest { (self.new.count ≡ self.old.count) × (self.new.most ≡ self.old.most) × (self.new.given ≡ self.old.given) }
    {
        if self.listener.is_some() {
            return Err(ServerFault::Listens);
        }
        let fd = listen_in(&mut self.exec, port)?;
        self.listener = Some(fd);
        self.fresh = true;
        Ok(())
    }

    /// Begins a connection to a port of this machine, with this state: its task. It doesn't wait until it is connected: a peer that isn't
    /// there ends it with its fault.
    ///
    /// Where it is refused the state comes back, and no handle is left open. `TooMany` comes where as many connections are open as there
    /// may be, or one fewer while an accept has the last place; `Os` has the system's error; `OutOfMemory` comes if memory runs out, and
    /// `Exhausted` where no number of a task is left.
    pub fn dial(&mut self, port: u16, state: S) -> Result<u64, (ServerFault, S)>
        ensures dials { DialsFor state self.old self.new result }
        ensures kept { KeepsLimit self.old self.new }
    {
        if !self.places.has_place() {
            return Err((ServerFault::TooMany, state));
        }
        match dial_in(&mut self.exec, port) {
            Ok(fd) => self.begin_dialled(fd, state),
            Err(why) => Err((why, state)),
        }
    }

    // Begins a connection of a handle that was dialled, or closes it.
    fn begin_dialled(&mut self, fd: SharedFd, state: S) -> Result<u64, (ServerFault, S)>
        requires place { self.old.count < self.old.most }
        ensures begins { BeginsFor state self.old self.new result }
        ensures kept { KeepsLimit self.old self.new }
        ensures closed { OnErr result (is_users self.new.table fd ≡ false) }
        ensures gains { OnErr result (GainsNone self.old.table self.new.table) }
    {
        match self.begin(fd, state) {
            Ok(task) => Ok(task),
            Err(refused) => {
                close_in(&mut self.exec, fd);
                Err(refused)
            }
        }
    }

    // Begins a connection of a handle.
    fn begin(&mut self, fd: SharedFd, state: S) -> Result<u64, (ServerFault, S)>
        requires place { self.old.count < self.old.most }
        ensures begins { BeginsFor state self.old self.new result }
        ensures kept { KeepsLimit self.old self.new }
        ensures table { self.new.table ≡ self.old.table }
    {
        let task = begin(&mut self.exec, self.alloc, fd, state, self.limits)?;
        self.places.take();
        self.fresh = true;
        Ok(task)
    }

    /// A turn at a moment that doesn't wait: of the driver, and then of the jobs that are ready. A moment before that of the last turn
    /// counts as that one.
    pub fn turn(&mut self, now: u64) -> Turn<S>
        ensures closed { AreClosed self.new.table result.ended.items }
        ensures counts { CountsTurn self.old self.new result.ended.items result.accepted }
        ensures kept { KeepsLimit self.old self.new }
        ensures faults { IfSome result.fault IsTurnFault }
    {
        let turned = turn_driver(&mut self.exec);
        self.go_on(now, turned)
    }

    /// A turn that waits for sockets or a waker first, no longer than so many milliseconds, and not at all where a job is ready. The
    /// connections whose wakers came are ready, as those that the driver names. Its moment is that after the wait, in milliseconds from the
    /// first park on.
    pub fn park<P: Ledger, D: Ledger, R: Wait + Clock>(
        &mut self,
        rt: &R,
        sleeper: &mut Sleeper<P, D>,
        millis: u64,
    ) -> Turn<S>
        ensures closed { AreClosed self.new.table result.ended.items }
        ensures counts { CountsTurn self.old self.new result.ended.items result.accepted }
        ensures kept { KeepsLimit self.old self.new }
        ensures faults { IfSome result.fault IsTurnFault }
    {
        let millis = self.limit(millis);
        let parked = park_exec(&mut self.exec, rt, sleeper, millis);
        let now = self.clock(rt);
        self.go_on(now, parked.turned)
    }

    // The moment by a clock, in milliseconds from the first park on. A clock that fails shows the first.
    fn clock<R: Clock>(&mut self, rt: &R) -> u64
        ensures same { self.new ≡ self.old }
    {
        let Ok(time) = rt.monotonic() else {
            return 0;
        };
        let millis = time
            .as_secs()
            .saturating_mul(1000)
            .saturating_add(time.subsec_millis() as u64);
        let start = self.start.unwrap_or(millis);
        self.start = Some(start);
        millis.saturating_sub(start)
    }

    // How long a park waits.
    fn limit(&self, millis: u64) -> u64 {
        if self.fresh || !self.exec.driver.again.is_empty() {
            return 0;
        }
        if self.short {
            return millis.min(1);
        }
        millis
    }

    // The jobs' part of a turn.
    fn go_on(&mut self, now: u64, turned: Turned) -> Turn<S>
        ensures closed { AreClosed self.new.table result.ended.items }
        ensures counts { CountsTurn self.old self.new result.ended.items result.accepted }
        ensures kept { KeepsLimit self.old self.new }
        ensures faults { IfSome result.fault IsTurnFault }
    {
        let now = now.max(self.exec.moment());
        self.short = turned.stop.is_some();
        let refused = self.run(now, turned.woken.as_slice());
        let (ended, left) = self.take_done();
        let told = self.places.note_all(ended.as_slice(), now);
        let (accepted, wanting) = self.begin_waiting();
        let unasked = self.accept_next(now);
        close_ended(&mut self.exec, ended.as_slice());
        let fault = first(first(refused, left), first(told, first(wanting, unasked)));
        Turn {
            accepted,
            ended,
            stop: turned.stop,
            fault,
        }
    }

    // A turn of the jobs: why it wasn't made, if it wasn't.
    fn run(&mut self, now: u64, woken: &[u64]) -> Option<ServerFault>
        ensures count { self.new.count ≡ self.old.count }
        ensures kept { KeepsLimit self.old self.new }
        ensures faults { IfSome result IsTurnFault }
    {
        let now = now.max(self.exec.moment());
        match run_jobs(&mut self.exec, &mut self.named, &mut self.ran, now, woken) {
            Ok(()) => {
                self.fresh = false;
                self.short = self.short | self.ran.stopped.is_some();
                None
            }
            Err(why) => {
                self.short = true;
                Some(why)
            }
        }
    }

    // What the jobs that are done ended with. Without memory for it, it stays.
    fn take_done(&mut self) -> (Vec<(u64, NetEnd<S>)>, Option<ServerFault>)
        ensures count { self.new.count ≡ self.old.count }
        ensures kept { KeepsLimit self.old self.new }
        ensures faults { IfSome result.1 IsTurnFault }
    {
        match self.exec.take_done() {
            Ok(ended) => (ended, None),
            Err(_) => {
                self.short = true;
                (Vec::new(self.alloc), Some(ServerFault::OutOfMemory))
            }
        }
    }

    // Begins the connection of a handle that was accepted, if there is one and a place for it. Without memory it waits.
    fn begin_waiting(&mut self) -> (Option<u64>, Option<ServerFault>)
        ensures count { self.new.count ≡ self.old.count + begun_in result.0 }
        ensures kept { KeepsLimit self.old self.new }
        ensures faults { IfSome result.1 IsTurnFault }
    {
        let Some(fd) = self.places.waiting else {
            return (None, None);
        };
        if self.places.count >= self.places.most {
            return (None, None);
        }
        match self.begin_new(fd) {
            Ok(task) => {
                self.places.waiting = None;
                (Some(task), None)
            }
            Err(why) => {
                self.short = true;
                (None, Some(why))
            }
        }
    }

    // Begins a connection of a handle, with a new state.
    fn begin_new(&mut self, fd: SharedFd) -> Result<u64, ServerFault>
        requires place { self.old.count < self.old.most }
        ensures ok { OnOk result (self.new.count ≡ self.old.count + 1) }
        ensures err { IfErr result IsShortage }
        ensures same { OnErr result (self.new.count ≡ self.old.count) }
        ensures kept { KeepsLimit self.old self.new }
    {
        match S::new(self.alloc) {
            Ok(state) => match self.begin(fd, state) {
                Ok(task) => Ok(task),
                Err((why, _)) => Err(why),
            },
            Err(OutOfMemory) => Err(ServerFault::OutOfMemory),
        }
    }

    // Accepts, where it listens and is to accept: why it couldn't, if so.
    fn accept_next(&mut self, now: u64) -> Option<ServerFault>
        ensures count { self.new.count ≡ self.old.count }
        ensures kept { KeepsLimit self.old self.new }
        ensures faults { IfSome result IsTurnFault }
    {
        let fd = self.listener?;
        if !self.places.may_accept(now) {
            return None;
        }
        match accept(&mut self.exec, fd) {
            Ok(_) => {
                self.places.begin_accept();
                self.fresh = true;
                None
            }
            Err(why) => {
                self.short = true;
                Some(why)
            }
        }
    }

    /// Ends the server: what waits is dropped, each handle is closed, and the driver comes back. Bytes that weren't sent are lost. Where
    /// memory runs out, the handles of what has ended since the last turn stay open.
    pub fn finish(self) -> LegacyDriver<I, Rent> {
        let Server {
            exec,
            limits: _,
            places,
            listener,
            named: _,
            ran: _,
            fresh: _,
            short: _,
            start: _,
            alloc: _,
        } = self;
        end_exec(exec, listener, places.waiting)
    }
}

impl<I: Sockets, S: Serve> Drop for Server<I, S> {
    fn drop(self) {
        self.finish();
    }
}

#[cfg(test)]
mod tests;
