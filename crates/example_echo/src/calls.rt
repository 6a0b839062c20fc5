// What the server and its clients ask of a driver. Each call's condition is asked when the program runs, so nothing is to be shown.
use anyhow::{Result, bail};
use driver_core::{Driver as _, MOST_GIVEN, PollOp, Submitted};
use handle_core::SharedFd;
use held_op::HeldOp;
use machine::{Outcome, Request};
use ready_driver::{LegacyDriver, Sockets};
use rent_buf::{Rent, VecBuf};
use std::alloc::Global;
use std::sync::Wait;
use std::sync::ledger::Ledger;
use std::time::Clock;
use wake_core::Sleeper;

/// A request with a buffer of a stated total.
pub type Asked = Request<Rent, VecBuf>;

/// What a poll answers.
pub enum Polled {
    /// The operation goes on.
    Pending(HeldOp),
    /// It has ended, and its request comes back.
    Ready(Outcome, Asked),
}

/// A driver's calls.
pub trait Calls {
    /// A new handle that listens on a port; none if the port is taken.
    fn listen(&mut self, port: u16) -> Option<SharedFd>;

    /// A new connection to a port.
    fn dial(&mut self, port: u16) -> Result<SharedFd>;

    /// Submits a request.
    fn submit(&mut self, request: Asked) -> Result<HeldOp>;

    /// Polls an operation.
    fn poll(&mut self, held: HeldOp) -> Result<Polled>;

    /// Drops an operation, with its buffer.
    fn drop_op(&mut self, held: HeldOp) -> Result<()>;

    /// Closes a handle. Each operation on it has ended.
    fn close(&mut self, fd: SharedFd) -> Result<()>;

    /// A turn that waits for sockets, a second at most.
    fn park(&mut self) -> Result<()>;

    /// How many operations are live.
    fn live(&self) -> usize;
}

/// A driver, and the sleeper that its parks are lent.
#[derive(Drop)]
pub struct Parking<'a, I: Sockets, P: Ledger, D: Ledger, R> {
    driver: LegacyDriver<I, Rent>,
    sleeper: Sleeper<P, D>,
    rt: &'a R,
}

impl<'a, I: Sockets, P: Ledger, D: Ledger, R: Wait + Clock> Calls for Parking<'a, I, P, D, R> {
    fn listen(&mut self, port: u16) -> Option<SharedFd> {
        self.driver.listen(port).ok()
    }

    fn dial(&mut self, port: u16) -> Result<SharedFd> {
        Ok(self.driver.dial(port)?)
    }

    fn submit(&mut self, request: Asked) -> Result<HeldOp> {
        if !self.driver.holds_names(request.names()) || self.driver.given() >= MOST_GIVEN {
            bail!("the handle isn't held");
        }
        match self.driver.submit_with(request, None) {
            Ok(Submitted::Op(op)) => Ok(HeldOp::new(op)),
            Ok(Submitted::Canceled(_)) => bail!("its group is canceled"),
            Err(refused) => Err(refused.why.into()),
        }
    }

    fn poll(&mut self, held: HeldOp) -> Result<Polled> {
        if !self.driver.holds(held.op()) {
            bail!("another driver's operation");
        }
        match self.driver.poll_op(held.into_op(), 0) {
            Ok(PollOp::Pending(op)) => Ok(Polled::Pending(HeldOp::new(op))),
            Ok(PollOp::Ready(done)) => Ok(Polled::Ready(done.outcome, done.request)),
            Err((why, op)) => {
                op.forget();
                Err(why.into())
            }
        }
    }

    fn drop_op(&mut self, held: HeldOp) -> Result<()> {
        if !self.driver.holds(held.op()) {
            bail!("another driver's operation");
        }
        self.driver.drop_op(held.into_op());
        Ok(())
    }

    fn close(&mut self, fd: SharedFd) -> Result<()> {
        if !self.driver.user_holds(fd.number()) {
            bail!("the handle isn't held");
        }
        let _ = self.driver.close(fd);
        Ok(())
    }

    fn park(&mut self) -> Result<()> {
        match self
            .driver
            .park_timeout(self.rt, &mut self.sleeper, 1000)
            .turned
            .stop
        {
            None => Ok(()),
            Some(why) => Err(why.into()),
        }
    }

    fn live(&self) -> usize {
        self.driver.num_operations()
    }
}

/// A driver over an object, whose parks are lent this sleeper.
pub fn make_parking<'a, P: Ledger, D: Ledger, I: Sockets, R>(
    rt: &'a R,
    alloc: Global,
    io: I,
    sleeper: Sleeper<P, D>,
) -> Parking<'a, I, P, D, R> {
    Parking {
        driver: LegacyDriver::over(alloc, io),
        sleeper,
        rt,
    }
}
