// A driver over any ring, with the tokens of its operations.
ghost use Rattle.std.specs.Prelude.{◌<◌, IsTrue, IfSome, IfOk};
ghost use Rattle.machine.specs.Request.{listed, named};
ghost use Rattle.uring_driver.specs.Op.{Holds};
ghost use Rattle.uring_driver.specs.Uring.{holds_all, given_by, group_count};

use crate::tests::asks::{Ask, Makes, Why, has_bytes};
use crate::tests::stage::{Polls, Stage, Submits};
use crate::turn_twice;
use handle_core::{MAX_HOLDS, Released};
use machine::{MOST_HANDLES, Names, Request, SharedFd};
use rent_buf::{IoBuf, IoBufMut, NumList, VecBuf};
use ring_core::Ring;
use std::alloc::Global;
use std::rt::Clock;
use std::sync::Wait;
use std::sync::ledger::Ledger;
use uring_driver::{
    CancelHandle, Canceller, Done, Driver, IoUringDriver, MOST_GIVEN, Op, Parked, PollOp,
    SubmitError, Submitted, Turned,
};
use wake_core::Sleeper;

/// A driver, the token of each operation by its number (none once it is spent), and the last group that was made, with its canceller.
pub(crate) struct Bench<R: Ring, B: IoBufMut + Drop> {
    pub driver: IoUringDriver<R, B>,
    ops: Vec<Option<Op>>,
    group: Option<CancelHandle>,
    canceller: Option<Canceller>,
    alloc: Global,
}

// Drops a token alone.
fn forget(token: Option<Op>) {
    match token {
        Some(op) => op.forget(),
        None => {}
    }
}

impl<R: Ring, B: IoBufMut + Drop> Drop for Bench<R, B> {
    fn drop(self) {
        let Bench {
            driver: _,
            mut ops,
            group: _,
            canceller: _,
            alloc: _,
        } = self;
        while let Some(token) = ops.pop() {
            forget(token);
        }
        ops.destroy_empty();
    }
}

// What a submission gives back: a token, or the reason why there is none.
pub(crate) enum Given {
    Token(Op),
    Nothing(Submits),
}

// The driver takes a request of these handles, under this group or under none.
fn takes<R: Ring, B: IoBufMut + Drop>(
    driver: &IoUringDriver<R, B>,
    names: Names,
    under: &Option<CancelHandle>,
) -> bool
    ensures held { IsTrue result → IsTrue (holds_all driver.now (listed names)) }
    ensures known { IsTrue result → IfSome under.now (λ g. g < group_count driver.now) }
    ensures counter { IsTrue result → given_by driver.now < MOST_GIVEN }
{
    if let Some(g) = under {
        if g.group() >= driver.groups() {
            return false;
        }
    }
    driver.holds_names(names) && driver.given() < MOST_GIVEN
}

// A submission that the driver takes.
fn submitted<R: Ring, B: IoBufMut + Drop>(
    driver: &mut IoUringDriver<R, B>,
    request: Request<B, VecBuf>,
    under: Option<CancelHandle>,
    linked: bool,
) -> Result<Submitted<B>, SubmitError<B>>
    requires held { IsTrue (holds_all driver.old (named request)) }
    requires known { IfSome under (λ g. g < group_count driver.old) }
    requires counter { given_by driver.old < MOST_GIVEN }
{
    if linked {
        driver.submit_linked(request, under)
    } else {
        driver.submit_with(request, under)
    }
}

// A submission, linked or not.
pub(crate) fn submit<R: Ring, B: IoBufMut + Drop>(
    driver: &mut IoUringDriver<R, B>,
    request: Request<B, VecBuf>,
    under: Option<CancelHandle>,
    linked: bool,
    bytes: &str,
) -> Given {
    if !takes(driver, request.names(), &under) {
        return Given::Nothing(Submits::Unmet);
    }
    match submitted(driver, request, under, linked) {
        Ok(submitted) => token_of(submitted, bytes),
        Err(refused) => Given::Nothing(returned(
            &refused.request,
            bytes,
            Submits::Refused(refused.why),
        )),
    }
}

// The token of a submission, or nothing where the request came back.
fn token_of<B: IoBuf + Drop>(submitted: Submitted<B>, bytes: &str) -> Given {
    match submitted {
        Submitted::Op(op) => Given::Token(op),
        Submitted::Canceled(request) => Given::Nothing(returned(
            &request,
            bytes,
            Submits::Canceled,
        )),
    }
}

// Why a request came back, if it is as it was.
fn returned<B: IoBuf>(request: &Request<B, VecBuf>, bytes: &str, why: Submits) -> Submits {
    if has_bytes(request, &[bytes]) {
        why
    } else {
        Submits::Unlike
    }
}

// What a poll gives back: the token, or how the operation ended.
enum Polled {
    Token(Op),
    Nothing(Polls),
}

// A poll of an operation that the driver holds.
fn poll<R: Ring, B: IoBufMut + Drop>(
    driver: &mut IoUringDriver<R, B>,
    op: Op,
    task: u64,
    held: &[&str],
) -> Polled
    requires { Holds driver.old op }
{
    match driver.poll_op(op, task) {
        PollOp::Pending(op) => Polled::Token(op),
        PollOp::Ready(done) => Polled::Nothing(ended(&done, held)),
    }
}

// How an operation ended, if its request holds these bytes.
fn ended<B: IoBuf>(done: &Done<B>, held: &[&str]) -> Polls {
    if has_bytes(&done.request, held) {
        Polls::Ready(done.outcome)
    } else {
        Polls::Unlike
    }
}

/// The user holds a handle that isn't known.
pub(crate) fn adopt<R: Ring, B: IoBufMut + Drop>(
    driver: &mut IoUringDriver<R, B>,
    h: u64,
) -> Result<(), Why> {
    if h >= MOST_HANDLES || driver.known(h) {
        return Err(Why::Unmet);
    }
    driver.adopt(h)?;
    Ok(())
}

impl<R: Ring, B: IoBufMut + Drop> Bench<R, B> {
    /// A bench of a driver that has no operations.
    pub(crate) fn new(alloc: Global, driver: IoUringDriver<R, B>) -> Bench<R, B> {
        Bench {
            driver,
            ops: Vec::new(alloc),
            group: None,
            canceller: None,
            alloc,
        }
    }

    // Keeps the token of a new operation.
    fn keep(&mut self, op: Op) -> Result<(), Why> {
        match self.ops.reserve(1) {
            Ok(()) => {
                self.ops.push_reserved(Some(op));
                Ok(())
            }
            Err(_) => {
                op.forget();
                Err(Why::OutOfMemory)
            }
        }
    }

    // Takes the token of an operation that the driver holds.
    fn take(&mut self, n: usize) -> Result<Op, Why>
        ensures { IfOk result (λ op. Holds self.new.driver op) }
    {
        if n >= self.ops.len() {
            return Err(Why::Unmet);
        }
        let Some(op) = self.ops[n].take() else {
            return Err(Why::Unmet);
        };
        if self.driver.holds(&op) {
            return Ok(op);
        }
        op.forget();
        Err(Why::Unmet)
    }

    // Puts the token of an operation back.
    fn put(&mut self, n: usize, op: Op) {
        if n >= self.ops.len() {
            op.forget();
            return;
        }
        forget(self.ops[n].replace(op));
    }
}

// Cancels a group.
fn cancel_group<R: Ring, B: IoBufMut + Drop>(
    driver: &mut IoUringDriver<R, B>,
    c: Canceller,
) -> Result<(Canceller, NumList), Why> {
    if c.group() >= driver.groups() {
        return Err(Why::Unmet);
    }
    match driver.cancel(c) {
        Ok(canceling) => Ok(canceling),
        Err(_) => Err(Why::OutOfMemory),
    }
}

impl<R: Ring, B: IoBufMut + Drop + Makes> Stage for Bench<R, B> {
    fn submit(&mut self, ask: Ask, under: bool, linked: bool) -> Result<Submits, Why> {
        let under = if under { self.group } else { None };
        let request = ask.request(self.alloc)?;
        match submit(&mut self.driver, request, under, linked, ask.2) {
            Given::Token(op) => {
                self.keep(op)?;
                Ok(Submits::Done)
            }
            Given::Nothing(why) => Ok(why),
        }
    }

    fn make_group(&mut self) -> Result<(), Why> {
        let canceller = self.driver.new_canceller()?;
        if canceller.group() >= self.driver.groups() {
            return Err(Why::Unmet);
        }
        self.group = Some(self.driver.cancel_handle(&canceller));
        self.canceller = Some(canceller);
        Ok(())
    }

    fn canceled(&self) -> Result<bool, Why> {
        match self.group {
            Some(g) if g.group() < self.driver.groups() => Ok(self.driver.canceled(g)),
            _ => Err(Why::Unmet),
        }
    }

    fn cancel_all(&mut self) -> Result<NumList, Why> {
        let Some(canceller) = self.canceller.take() else {
            return Err(Why::Unmet);
        };
        let (fresh, members) = cancel_group(&mut self.driver, canceller)?;
        self.canceller = Some(fresh);
        Ok(members)
    }

    fn poll(&mut self, n: usize, task: u64, held: &[&str]) -> Result<Polls, Why> {
        let op = self.take(n)?;
        match poll(&mut self.driver, op, task, held) {
            Polled::Token(op) => {
                self.put(n, op);
                Ok(Polls::Pending)
            }
            Polled::Nothing(polls) => Ok(polls),
        }
    }

    fn drop_op(&mut self, n: usize) -> Result<(), Why> {
        let op = self.take(n)?;
        self.driver.drop_op(op);
        Ok(())
    }

    fn cancel(&mut self, n: usize) -> Result<(), Why> {
        let op = self.take(n)?;
        let asked = self.driver.cancel_op(&op);
        self.put(n, op);
        Ok(asked?)
    }

    fn adopt(&mut self, h: u64) -> Result<(), Why> {
        adopt(&mut self.driver, h)
    }

    fn hold(&mut self, h: u64) -> Result<(), Why> {
        if !self.driver.user_holds(h) || self.driver.user_count(h) >= MAX_HOLDS {
            return Err(Why::Unmet);
        }
        self.driver.hold(SharedFd::new(h));
        Ok(())
    }

    fn release(&mut self, h: u64) -> Result<Released, Why> {
        if !self.driver.user_holds(h) {
            return Err(Why::Unmet);
        }
        Ok(self.driver.release(SharedFd::new(h)))
    }

    fn close(&mut self, h: u64) -> Result<Released, Why> {
        if !self.driver.user_holds(h) {
            return Err(Why::Unmet);
        }
        Ok(self.driver.close(SharedFd::new(h)))
    }

    fn turn(&mut self) -> Turned {
        self.driver.submit()
    }

    fn turn_twice(&mut self) -> bool {
        turn_twice(&mut self.driver)
    }

    fn park<P: Ledger, D: Ledger, T: Wait + Clock>(
        &mut self,
        rt: &T,
        sleeper: &mut Sleeper<P, D>,
        limit: Option<u64>,
    ) -> Parked {
        match limit {
            Some(millis) => self.driver.park_timeout(rt, sleeper, millis),
            None => self.driver.park(rt, sleeper),
        }
    }

    fn is_legacy(&self) -> bool {
        self.driver.is_legacy()
    }

    fn handle(&self, h: u64) -> (bool, bool, bool) {
        let driver = &self.driver;
        (driver.user_holds(h), driver.known(h), driver.closing(h))
    }

    fn made(&self) -> (u64, u64) {
        (self.driver.given(), self.driver.groups())
    }

    fn has(&self) -> (usize, u32, usize, usize) {
        let ring = self.driver.ring();
        let (queued, ready) = (ring.queued(), ring.standing());
        (
            self.driver.num_operations(),
            queued,
            self.driver.due(),
            ready,
        )
    }
}
