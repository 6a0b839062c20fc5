// The echo server: what comes on a connection goes back on it. A connection is one job, whose deadline is put off as it does something.
use crate::clients::FAILED;
use crate::idle::Idle;
use crate::jobs::{Ended, Jobs};
use crate::serving::{Asked, SIZE, Served, Serving, Work};
use anyhow::Result;
use handle_core::SharedFd;
use machine::Request;
use op_job::JobEnd;
use ready_driver::{LegacyDriver, Sockets};
use rent_buf::{OutOfMemory, Rent};
use std::alloc::Global;
use std::sync::Wait;
use std::sync::ledger::Ledger;
use std::time::Clock;
use wake_core::Sleeper;

// How many milliseconds a round waits at most, and an accept that failed for the next one.
const TICK: u64 = 100;

/// What a server takes.
#[derive(Clone, Copy)]
pub struct Limits {
    /// For how many milliseconds a connection may do nothing.
    pub idle: u64,
    /// How many connections may be open.
    pub most: usize,
}

/// What became of connections.
#[derive(Clone, Copy)]
pub struct Counts {
    /// How many their peers closed or reset.
    pub closed: u64,
    /// How many were idle.
    pub idle: u64,
    /// How many clients have said that something was wrong.
    pub failed: u64,
}

/// A server: its jobs, its listener, and its connections' number.
pub struct Echo<I: Sockets> {
    jobs: Jobs<I>,
    listener: SharedFd,
    limits: Limits,
    idle: Idle,
    counts: Counts,
    open: usize,
    // How many threads have not yet said that they are done.
    busy: u64,
    // When the last of them was.
    over: Option<u64>,
    // The task that accepts; and when one may next, if none does.
    accepts: Option<u64>,
    next: u64,
    // A job was spawned that no round has polled.
    fresh: bool,
    alloc: Global,
}

impl<I: Sockets> Echo<I> {
    /// A server over a driver and a handle that listens, which so many threads end together.
    pub fn over(
        alloc: Global,
        driver: LegacyDriver<I, Rent>,
        listener: SharedFd,
        limits: Limits,
        busy: u64,
    ) -> Echo<I> {
        Echo {
            jobs: Jobs::over(alloc, driver),
            listener,
            limits,
            idle: Idle::over(alloc, limits.idle),
            counts: Counts {
                closed: 0,
                idle: 0,
                failed: 0,
            },
            open: 0,
            busy,
            over: None,
            accepts: None,
            next: 0,
            fresh: false,
            alloc,
        }
    }

    /// One round: what has ended is followed by what comes next. Whether the server goes on: once it is told to end it accepts no more, and
    /// goes on until its connections have ended, but no longer than one of them may be idle.
    pub fn step<P: Ledger, D: Ledger, R: Wait + Clock>(
        &mut self,
        rt: &R,
        sleeper: &mut Sleeper<P, D>,
        now: u64,
    ) -> Result<bool> {
        self.idle.go_to(now);
        self.accept(now);
        let millis = if self.fresh { 0 } else { TICK };
        let round = self.jobs.round(rt, sleeper, self.alloc, now, millis)?;
        self.fresh = false;
        for (_, end) in round.ended {
            self.follow(end, now);
        }
        for task in round.polled {
            self.put_off(task);
        }
        for number in round.sent {
            self.hear(number, now);
        }
        Ok(match self.over {
            Some(at) => self.open > 0 && now.saturating_sub(at) < self.limits.idle,
            None => true,
        })
    }

    // A thread is done.
    fn hear(&mut self, number: u64, now: u64) {
        if number == FAILED {
            self.counts.failed = self.counts.failed.saturating_add(1);
        }
        self.busy = self.busy.saturating_sub(1);
        if self.busy == 0 && self.over.is_none() {
            self.over = Some(now);
        }
    }

    // Accepts, unless a job does so already or no further connection may be open.
    fn accept(&mut self, now: u64) {
        if self.accepts.is_some()
            || self.over.is_some()
            || self.open >= self.limits.most
            || now < self.next
        {
            return;
        }
        let fd = self.listener;
        match self.spawn(Request::Accept { fd }, Work::Accepts, fd, None) {
            Ok(task) => self.accepts = Some(task),
            Err(_) => self.accept_later(now),
        }
    }

    // No job accepts for a while.
    fn accept_later(&mut self, now: u64) {
        self.accepts = None;
        self.next = now.saturating_add(TICK);
    }

    // What follows a job that ended. A connection that is paused goes on.
    fn follow(&mut self, end: Ended, now: u64) {
        match end {
            JobEnd::Ended(served) => self.follow_served(served, now),
            JobEnd::Paused(request, serving) => match serving.work {
                Work::Echoes => self.go_on(serving.fd, request),
                Work::Accepts => self.accept_later(now),
            },
        }
    }

    // What follows an accept or a connection.
    fn follow_served(&mut self, served: Served, now: u64) {
        match served {
            Served::Accepted(fd) => self.begin(fd),
            Served::NotAccepted => self.accept_later(now),
            Served::Closed(fd) => self.close(fd, false),
            Served::Idle(fd) => self.close(fd, true),
        }
    }

    // A connection was accepted: it is read. One that comes once the server is to end is closed.
    fn begin(&mut self, fd: SharedFd) {
        self.accepts = None;
        if self.over.is_some() {
            return self.jobs.close(fd);
        }
        self.open = self.open.saturating_add(1);
        match Rent::with_total(self.alloc, SIZE) {
            Ok(buf) => self.go_on(fd, Request::Recv { fd, buf }),
            Err(_) => self.close(fd, false),
        }
    }

    // A connection goes on with a request, until it is idle. If memory runs out, it is closed.
    fn go_on(&mut self, fd: SharedFd, request: Asked) {
        let deadline = self.idle.deadline();
        match self.spawn(request, Work::Echoes, fd, Some(deadline)) {
            Ok(_) => {}
            Err(_) => self.close(fd, false),
        }
    }

    fn spawn(
        &mut self,
        request: Asked,
        work: Work,
        fd: SharedFd,
        deadline: Option<u64>,
    ) -> Result<u64, OutOfMemory> {
        let task = self.jobs.spawn(request, Serving { work, fd }, deadline)?;
        self.fresh = true;
        Ok(task)
    }

    // A job was polled: if it is a connection's, that is idle later. Without memory it keeps the deadline that it has.
    fn put_off(&mut self, task: u64) {
        if self.accepts == Some(task) || !self.idle.is_due(task) {
            return;
        }
        if self.jobs.put_off(task, self.idle.deadline()).is_ok() {
            self.idle.put_off(task);
        }
    }

    // Closes a connection.
    fn close(&mut self, fd: SharedFd, idle: bool) {
        if idle {
            self.counts.idle = self.counts.idle.saturating_add(1);
        } else {
            self.counts.closed = self.counts.closed.saturating_add(1);
        }
        self.open = self.open.saturating_sub(1);
        self.jobs.close(fd);
    }

    /// Ends the server: what became of its connections.
    pub fn end(self) -> Counts {
        let Echo {
            jobs,
            listener: _,
            limits: _,
            idle: _,
            counts,
            open: _,
            busy: _,
            over: _,
            accepts: _,
            next: _,
            fresh: _,
            alloc: _,
        } = self;
        jobs.end();
        counts
    }
}
