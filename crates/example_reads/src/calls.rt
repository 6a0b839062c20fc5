// The driver's calls, each with its condition asked when the program runs.

use anyhow::{Result, bail};
use held_op::HeldOp;
use machine::{HandleKind, MOST_HANDLES, Outcome, Request, SharedFd, Told};
use rent_buf::{Rent, VecBuf};
use ring_core::MemRing;
use uring_driver::{Driver as _, IoUringDriver, MOST_GIVEN, PollOp, Submitted, Turned};

/// The completion driver over the ring in memory, with buffers of a stated total.
pub type Ring = IoUringDriver<MemRing, Rent>;

/// A new stream of the ring.
pub fn stream(driver: &mut Ring) -> Result<SharedFd> {
    let next = driver.handles();
    if next >= MOST_HANDLES || driver.known(next) {
        bail!("no handle is left");
    }
    Ok(driver.give(HandleKind::Stream)?)
}

/// Submits a read. Until its last poll the buffer is the engine's.
pub fn read(driver: &mut Ring, fd: SharedFd, buf: Rent) -> Result<HeldOp> {
    let request = Request::Recv { fd, buf };
    if !driver.holds_names(request.names()) || driver.given() >= MOST_GIVEN {
        bail!("the handle isn't held");
    }
    match driver.submit_with(request, None) {
        Ok(Submitted::Op(op)) => Ok(HeldOp::new(op)),
        Ok(Submitted::Canceled(_)) => bail!("its group is canceled"),
        Err(refused) => Err(refused.why.into()),
    }
}

/// Bytes arrive at a handle.
pub fn feed(driver: &mut Ring, h: u64, bytes: &[u8]) -> Result<()> {
    if !driver.user_holds(h) || !driver.has_handle(h) {
        bail!("the handle isn't held");
    }
    Ok(driver.feed(h, bytes)?)
}

/// The ring ends the operation at a place of those in flight, with a count of bytes or an error.
pub fn execute(driver: &mut Ring, place: usize, told: Told) -> Result<()> {
    driver.execute(place, told)?;
    Ok(())
}

/// A turn: the queue is taken, and what is complete is reaped.
pub fn turn(driver: &mut Ring) -> Result<Turned> {
    let turned = driver.submit();
    match turned.stop {
        None => Ok(turned),
        Some(why) => Err(why.into()),
    }
}

/// What a poll answers.
pub enum Polled {
    /// The operation goes on.
    Pending(HeldOp),
    /// It has ended, and its request comes back.
    Ready(Outcome, Request<Rent, VecBuf>),
}

/// Polls an operation for a task.
pub fn poll(driver: &mut Ring, held: HeldOp, task: u64) -> Result<Polled> {
    if !driver.holds(held.op()) {
        bail!("another driver's operation");
    }
    match driver.poll_op(held.into_op(), task) {
        PollOp::Pending(op) => Ok(Polled::Pending(HeldOp::new(op))),
        PollOp::Ready(done) => Ok(Polled::Ready(done.outcome, done.request)),
    }
}

/// Drops an operation: its cancel is queued, and the turn that reaps it names it.
pub fn drop_op(driver: &mut Ring, held: HeldOp) -> Result<()> {
    if !driver.holds(held.op()) {
        bail!("another driver's operation");
    }
    driver.drop_op(held.into_op());
    Ok(())
}
