// A driver over any object, with the tokens of two operations.
ghost use Rattle.std.specs.Prelude.{IfOk};
ghost use Rattle.ready_driver.specs.LegacyState.{Holds};

use crate::tests::stage::{Asked, InMemory, Stage, Why};
use driver_core::{Done, Driver as _, MOST_GIVEN, Op, Parked, PollOp, Submitted, Turned};
use handle_core::{Released, SharedFd};
use machine::{HandleKind, MOST_HANDLES, Names};
use ready_driver::{LegacyDriver, MemIo, NonBlock, NonBlockError, Ready, Sockets};
use rent_buf::Rent;
use socket_io::MioIo;
use std::alloc::Global;
use std::net::Net;
use std::sync::Wait;
use std::sync::ledger::Ledger;
use std::time::Clock;
use wake_core::{Sleeper, Woken};

/// An object that tells how many of its handles are open.
pub(crate) trait Opens {
    /// How many of its handles are open.
    fn opened(&self) -> usize;
}

impl<R: Net> Opens for MioIo<R> {
    fn opened(&self) -> usize {
        self.open_handles()
    }
}

impl Opens for MemIo {
    // It tells of none.
    fn opened(&self) -> usize {
        0
    }
}

/// A driver, the tokens of its operations by place, and the sleeper that its parks are lent.
pub(crate) struct Bench<'a, I: NonBlock, P: Ledger, D: Ledger, T> {
    driver: LegacyDriver<I, Rent>,
    first: Option<Op>,
    second: Option<Op>,
    sleeper: &'a mut Sleeper<P, D>,
    rt: &'a T,
}

// Drops a token alone.
fn forget(token: Option<Op>) {
    match token {
        Some(op) => op.forget(),
        None => {}
    }
}

impl<'a, I: NonBlock, P: Ledger, D: Ledger, T> Drop for Bench<'a, I, P, D, T> {
    fn drop(self) {
        let Bench {
            driver: _,
            first,
            second,
            sleeper: _,
            rt: _,
        } = self;
        forget(first);
        forget(second);
    }
}

// The driver takes a request: its token, or nothing where it came back.
fn submitted<I: NonBlock>(driver: &mut LegacyDriver<I, Rent>, request: Asked) -> Result<Op, Why> {
    if !driver.holds_names(request.names()) || driver.given() >= MOST_GIVEN {
        return Err(Why::Unmet);
    }
    match driver.submit_with(request, None) {
        Ok(submitted) => token_of(submitted),
        Err(_) => Err(Why::Unlike),
    }
}

// The token of a submission.
fn token_of(submitted: Submitted<Rent>) -> Result<Op, Why> {
    match submitted {
        Submitted::Op(op) => Ok(op),
        Submitted::Canceled(_) => Err(Why::Unlike),
    }
}

// What a poll gives back: the token, or how the operation ended.
enum Polled {
    Token(Op),
    OutOfMemory(Op),
    Done(Done<Rent>),
}

// A poll of an operation that the driver holds.
fn poll_once<I: NonBlock>(driver: &mut LegacyDriver<I, Rent>, op: Op, task: u64) -> Polled
    requires { Holds driver.old op }
{
    match driver.poll_op(op, task) {
        Ok(PollOp::Ready(done)) => Polled::Done(done),
        Ok(PollOp::Pending(op)) => Polled::Token(op),
        Err((_, op)) => Polled::OutOfMemory(op),
    }
}

impl<'a, I: NonBlock, P: Ledger, D: Ledger, T> Bench<'a, I, P, D, T> {
    /// A bench of a driver that has no operations.
    pub(crate) fn new(
        alloc: Global,
        io: I,
        sleeper: &'a mut Sleeper<P, D>,
        rt: &'a T,
    ) -> Bench<'a, I, P, D, T> {
        Bench {
            driver: LegacyDriver::over(alloc, io),
            first: None,
            second: None,
            sleeper,
            rt,
        }
    }

    // Takes the token of an operation that the driver holds.
    fn take(&mut self, place: usize) -> Result<Op, Why>
        ensures { IfOk result (λ op. Holds self.new.driver op) }
    {
        let token = if place == 0 {
            self.first.take()
        } else {
            self.second.take()
        };
        let Some(op) = token else {
            return Err(Why::Unmet);
        };
        if self.driver.holds(&op) {
            return Ok(op);
        }
        op.forget();
        Err(Why::Unmet)
    }

    // Puts the token of an operation at a place.
    fn put(&mut self, place: usize, op: Op) {
        if place == 0 {
            forget(self.first.replace(op));
        } else {
            forget(self.second.replace(op));
        }
    }
}

// What a park drained, if its turn didn't stop.
fn drained(parked: Parked) -> Result<Woken, Why> {
    match parked.turned.stop {
        None => Ok(parked.remote),
        Some(_) => Err(Why::Unlike),
    }
}

impl<'a, I: Sockets + Opens, P: Ledger, D: Ledger, T: Wait + Clock> Stage
    for Bench<'a, I, P, D, T> {
    fn adopt(&mut self, h: u64) -> Result<(), Why> {
        if h >= MOST_HANDLES || self.driver.known(h) {
            return Err(Why::Unmet);
        }
        self.driver.adopt(h)?;
        Ok(())
    }

    fn listen(&mut self, port: u16) -> Result<u64, NonBlockError> {
        match self.driver.listen(port) {
            Ok(fd) => Ok(fd.number()),
            Err(why) => Err(why),
        }
    }

    fn dial(&mut self, port: u16) -> Result<u64, NonBlockError> {
        match self.driver.dial(port) {
            Ok(fd) => Ok(fd.number()),
            Err(why) => Err(why),
        }
    }

    fn submit(&mut self, place: usize, request: Asked) -> Result<(), Why> {
        let op = submitted(&mut self.driver, request)?;
        self.put(place, op);
        Ok(())
    }

    fn poll(&mut self, place: usize, task: u64) -> Result<Option<Done<Rent>>, Why> {
        let op = self.take(place)?;
        match poll_once(&mut self.driver, op, task) {
            Polled::Token(op) => {
                self.put(place, op);
                Ok(None)
            }
            Polled::OutOfMemory(op) => {
                self.put(place, op);
                Err(Why::OutOfMemory)
            }
            Polled::Done(done) => Ok(Some(done)),
        }
    }

    fn cancel(&mut self, place: usize) -> Result<(), Why> {
        let op = self.take(place)?;
        let asked = self.driver.cancel_op(&op);
        self.put(place, op);
        Ok(asked?)
    }

    fn drop_op(&mut self, place: usize) -> Result<(), Why> {
        let op = self.take(place)?;
        self.driver.drop_op(op);
        Ok(())
    }

    fn release(&mut self, h: u64) -> Result<(), Why> {
        if !self.driver.user_holds(h) {
            return Err(Why::Unmet);
        }
        match self.driver.release(SharedFd::new(h)) {
            Released::Last => Ok(()),
            Released::Held => Err(Why::Unlike),
        }
    }

    fn turn(&mut self) -> Turned {
        self.driver.submit()
    }

    fn park(&mut self, limit: Option<u64>) -> Result<Woken, Why> {
        match limit {
            Some(millis) => drained(self.driver.park_timeout(self.rt, self.sleeper, millis)),
            None => drained(self.driver.park(self.rt, self.sleeper)),
        }
    }

    fn handle(&self, h: u64) -> (bool, bool, bool) {
        let driver = &self.driver;
        (
            driver.user_holds(h),
            driver.known(h),
            driver.holds_names(Names::One(h)),
        )
    }

    fn bits(&self, h: u64) -> Ready {
        self.driver.readiness(h)
    }

    fn left(&self) -> (usize, usize) {
        (self.driver.num_operations(), self.driver.io().opened())
    }
}

impl<'a, P: Ledger, D: Ledger, T> InMemory for Bench<'a, MemIo, P, D, T> {
    fn stream(&mut self) -> Result<u64, Why> {
        let driver = &mut self.driver;
        if driver.handles() >= MOST_HANDLES || driver.known(driver.handles()) {
            return Err(Why::Unmet);
        }
        Ok(driver.give(HandleKind::Stream)?.number())
    }

    fn feed(&mut self, h: u64, bytes: &[u8]) -> Result<(), Why> {
        if !self.driver.has_handle(h) {
            return Err(Why::Unmet);
        }
        match self.driver.feed(h, bytes) {
            Ok(()) => Ok(()),
            Err(_) => Err(Why::Unlike),
        }
    }
}
