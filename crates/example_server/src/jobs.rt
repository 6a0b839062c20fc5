// The executor of the server. That its jobs are sound over their driver is kept by the type, so no call of it has a condition.
use crate::serving::{Asked, Served, Serving};
use anyhow::{Result, bail};
use core_exec::{Exec, Ran};
use driver_core::Driver as _;
use handle_core::SharedFd;
use op_job::{JobEnd, OpExec, OpJob, abandon_all, park};
use ready_driver::{LegacyDriver, Sockets};
use rent_buf::{OutOfMemory, Rent};
use std::alloc::Global;
use std::marker::Model;
use std::sync::Wait;
use std::sync::ledger::Ledger;
use std::time::Clock;
use wake_core::Sleeper;

/// How a job ended.
pub type Ended = JobEnd<Rent, Serving, Served>;

/// What a round gave.
#[derive(Drop)]
pub struct Round {
    /// The jobs that ended, each with its task.
    pub ended: Vec<(u64, Ended)>,
    /// The tasks that were polled.
    pub polled: Vec<u64>,
    /// The numbers that other threads sent.
    pub sent: Vec<u64>,
}

/// Jobs over sockets.
pub struct Jobs<I: Sockets> {
    exec: OpExec<LegacyDriver<I, Rent>, Rent, Serving>,
}

impl<I: Sockets> Model for Jobs<I> {
    ghost use Rattle.core_exec.specs.Exec.{IsSound, Stands};
    ghost use Rattle.ready_driver.specs.LegacyState.{ops_in};
    ghost use Rattle.op_job.specs.OpJob.{ApartOps, FitsOps, cancels_of, polls_of};

    ghost Value = { Unit {0} };

    ghost view = { λ jobs. tt };

    ghost invariant = { λ jobs. Stands polls_of cancels_of jobs.exec × IsSound (FitsOps ops_in) ApartOps jobs.exec };
}

impl<I: Sockets> Jobs<I> {
    /// No jobs over a driver.
    pub fn over(alloc: Global, driver: LegacyDriver<I, Rent>) -> Jobs<I> {
        Jobs {
            exec: Exec::new(alloc, driver),
        }
    }

    /// Spawns a job that begins with a request, with a moment at which it is canceled, if it has one. Answers its task.
    pub fn spawn(
        &mut self,
        request: Asked,
        serving: Serving,
        deadline: Option<u64>,
    ) -> Result<u64, OutOfMemory> {
        if self.exec.spawned() >= 1 << 62 {
            return Err(OutOfMemory);
        }
        let job = OpJob::following(request, serving);
        let spawned = match deadline {
            Some(at) => self.exec.spawn_until(job, at),
            None => self.exec.spawn(job),
        };
        match spawned {
            Ok(task) => Ok(task),
            Err((why, job)) => {
                job.abandon(&mut self.exec.driver);
                Err(why)
            }
        }
    }

    /// An unfinished job is canceled at this moment, and not at that which it had.
    pub fn put_off(&mut self, task: u64, deadline: u64) -> Result<(), OutOfMemory> {
        self.exec.set_deadline(task, Some(deadline))
    }

    /// Waits for sockets or another thread, so many milliseconds at most, and polls the jobs that are ready.
    pub fn round<P: Ledger, D: Ledger, R: Wait + Clock>(
        &mut self,
        rt: &R,
        sleeper: &mut Sleeper<P, D>,
        alloc: Global,
        now: u64,
        millis: u64,
    ) -> Result<Round> {
        if self.exec.turns() >= 1 << 62 {
            bail!("no number of a turn is left");
        }
        let now = now.max(self.exec.moment());
        let (parked, ran) = park(&mut self.exec, rt, sleeper, now, millis);
        if let Some(why) = parked.turned.stop {
            return Err(why.into());
        }
        let Ran {
            polled,
            canceled: _,
            done: _,
            stopped: _,
        } = ran?;
        let mut sent = Vec::new(alloc);
        for waker in parked.remote.first.as_slice() {
            sent.push(waker.task)?;
        }
        for waker in parked.remote.again.as_slice() {
            sent.push(waker.task)?;
        }
        let ended = self.exec.take_done()?;
        Ok(Round {
            ended,
            polled,
            sent,
        })
    }

    /// Closes a handle, if the user holds it.
    #[tactic(auto, using(op_job::proofs::Frames::slots_sound))]
    pub fn close(&mut self, fd: SharedFd) {
        if self.exec.driver.user_holds(fd.number()) {
            let _ = self.exec.driver.close(fd);
        }
    }

    /// Drops the jobs that are left, with their operations, and the driver with its sockets.
    pub fn end(self) {
        let Jobs { exec } = self;
        let mut exec = exec;
        abandon_all(&mut exec);
        match exec.finish() {
            Ok(_) => {}
            Err(_) => unreachable!(),
        }
    }
}
