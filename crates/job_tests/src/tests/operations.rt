// One program over both drivers. No step of it asks whether a token is held: the trait says so.
ghost use Rattle.std.specs.Prelude.{IfSome};
ghost use Rattle.driver_core.specs.Op.{Holds};

use driver_core::{MOST_GIVEN, Op, PollOp};
use machine::{CANCELED, HandleKind, MOST_HANDLES, Outcome, Request, SharedFd};
use op_driver::OpDriver;
use ready_driver::{LegacyDriver, MemIo};
use rent_buf::{Rent, VecBuf};
use ring_core::MemRing;
use std::alloc::Global;
use std::test::Fail;
use uring_driver::IoUringDriver;

// What came of a read that is polled, canceled, polled behind a turn, and dropped where it goes on.
#[derive(Clone, Copy, PartialEq, Eq)]
enum Came {
    // It was dropped.
    Dropped,
    // It ended so.
    Ended(Outcome),
    // It had ended before its cancel was asked for.
    Early,
    // Memory ran out, and it was dropped.
    OutOfMemory,
}

// Submits a read from a handle.
fn read<D: OpDriver<Rent>>(driver: &mut D, fd: SharedFd, buf: Rent) -> Option<Op>
    ensures { IfSome result (λ op. Holds (D.ops driver.new) op) }
{
    let request: Request<Rent, VecBuf> = Request::Recv { fd, buf };
    if !driver.holds_names(request.names()) || driver.given() >= MOST_GIVEN {
        return None;
    }
    driver.submit_op(request).ok()
}

// Asks for the cancel of an operation, and polls it behind a turn.
fn cancel<D: OpDriver<Rent>>(driver: &mut D, op: Op) -> Came
    requires { Holds (D.ops driver.old) op }
{
    if driver.cancel_op(&op).is_err() {
        driver.drop_op(op);
        return Came::OutOfMemory;
    }
    let _ = driver.turn();
    match driver.poll_op(op, 1) {
        Ok(PollOp::Ready(done)) => Came::Ended(done.outcome),
        Ok(PollOp::Pending(op)) => {
            driver.drop_op(op);
            Came::Dropped
        }
        Err((_, op)) => {
            driver.drop_op(op);
            Came::OutOfMemory
        }
    }
}

// The whole program, on a driver whose user holds the handle 0.
fn run<D: OpDriver<Rent>>(driver: &mut D, buf: Rent) -> Option<Came> {
    let op = read(driver, SharedFd::new(0), buf)?;
    match driver.poll_op(op, 1) {
        Ok(PollOp::Pending(op)) => Some(cancel(driver, op)),
        Ok(PollOp::Ready(_)) => Some(Came::Early),
        Err((_, op)) => {
            driver.drop_op(op);
            Some(Came::OutOfMemory)
        }
    }
}

type OnRing = IoUringDriver<MemRing, Rent>;

type OnHandles = LegacyDriver<MemIo, Rent>;

// The user gets the handle of a stream, which is 0, since it is the first.
fn give_to_ring(driver: &mut OnRing) -> bool {
    let next = driver.handles();
    next < MOST_HANDLES && !driver.known(next) && driver.give(HandleKind::Stream).is_ok()
}

// The same on the readiness driver.
fn give_to_handles(driver: &mut OnHandles) -> bool {
    let next = driver.handles();
    next < MOST_HANDLES && !driver.known(next) && driver.give(HandleKind::Stream).is_ok()
}

// On the completion driver, over the ring in memory with one stream. Nobody plays the kernel, so the read goes on.
fn run_on_ring(alloc: Global) -> Option<Came> {
    let mut driver: OnRing = IoUringDriver::new_with_entries(alloc, 8).ok()?;
    if !give_to_ring(&mut driver) {
        return None;
    }
    run(&mut driver, Rent::with_total(alloc, 16).ok()?)
}

// On the readiness driver, over one stream in memory, to which nothing comes.
fn run_on_handles(alloc: Global) -> Option<Came> {
    let mut driver: OnHandles = LegacyDriver::over(alloc, MemIo::new(alloc));
    if !give_to_handles(&mut driver) {
        return None;
    }
    run(&mut driver, Rent::with_total(alloc, 16).ok()?)
}

#[test]
fn one_program_runs_on_both_drivers(rt: HostRuntime) -> Result<(), Fail> {
    assert!(rt; run_on_ring(rt.alloc()) == Some(Came::Dropped));
    assert!(rt; run_on_handles(rt.alloc()) == Some(Came::Ended(Outcome::Fail(CANCELED))));
    Ok(())
}
