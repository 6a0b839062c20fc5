//! Three reads in flight on the completion driver, over the ring in memory: they end in another order, and one is dropped.
#![tactic(auto)]

mod calls;

use anyhow::{Result, bail};
use calls::{Polled, Ring, drop_op, execute, feed, poll, read, stream, turn};
use held_op::HeldOp;
use machine::{CANCELED, Request, SharedFd, Told};
use rent_buf::Rent;
use std::alloc::Global;
use std::env;
use std::io::Print;

// A turn, and what it did.
fn turn_and_tell<R: Print>(rt: &R, driver: &mut Ring) -> Result<()> {
    let turned = turn(driver)?;
    let (reaped, woken) = (turned.reaped.as_slice(), turned.woken.as_slice());
    println!(rt; "a turn: operations {reaped:?} have ended, tasks {woken:?} are woken")?;
    Ok(())
}

// A poll of a read for a task, and what came of it. None: it has ended.
fn poll_and_tell<R: Print>(
    rt: &R,
    driver: &mut Ring,
    held: HeldOp,
    task: u64,
) -> Result<Option<HeldOp>> {
    match poll(driver, held, task)? {
        Polled::Pending(held) => {
            println!(rt; "task {task}: pending")?;
            return Ok(Some(held));
        }
        Polled::Ready(outcome, Request::Recv { fd: _, buf }) => {
            println!(rt;
                "task {task}: {outcome:?}, the buffer has {:?}",
                buf.as_slice()
            )?;
        }
        Polled::Ready(outcome, _) => println!(rt; "task {task}: {outcome:?}")?,
    }
    Ok(None)
}

// Two streams of a driver, and three reads.
fn run<R: Print>(rt: &R, alloc: Global, driver: &mut Ring) -> Result<()> {
    let (left, right) = (stream(driver)?, stream(driver)?);

    // Three reads. From here to its last poll each buffer is the engine's.
    let first = read(driver, left, Rent::with_total(alloc, 16)?)?;
    let second = read(driver, right, Rent::with_total(alloc, 16)?)?;
    let third = read(driver, right, Rent::with_total(alloc, 16)?)?;
    let first = poll_and_tell(rt, driver, first, 1)?;
    turn_and_tell(rt, driver)?;

    // Bytes arrive. The ring, played here, ends the second read before the first.
    feed(driver, left.number(), b"ab")?;
    feed(driver, right.number(), b"cde")?;
    execute(driver, 1, Told::Count(3))?;
    execute(driver, 0, Told::Count(2))?;

    // The third is dropped: its cancel is queued, and its buffer stays the engine's until the ring has ended it.
    drop_op(driver, third)?;
    turn_and_tell(rt, driver)?;
    execute(driver, 0, Told::Fail(CANCELED))?;
    turn_and_tell(rt, driver)?;

    // The buffers come back.
    for (held, task) in [(first, 1), (Some(second), 2)] {
        if let Some(held) = held {
            poll_and_tell(rt, driver, held, task)?;
        }
    }
    Ok(())
}

// One read, by a buffer that comes back.
fn round(driver: &mut Ring, fd: SharedFd, buf: Rent) -> Result<Rent> {
    let held = read(driver, fd, buf)?;
    turn(driver)?;
    feed(driver, fd.number(), b"ab")?;
    execute(driver, 0, Told::Count(2))?;
    turn(driver)?;
    match poll(driver, held, 1)? {
        Polled::Ready(_, Request::Recv { fd: _, buf }) => Ok(buf),
        Polled::Ready(_, _) => bail!("another request came back"),
        Polled::Pending(held) => {
            drop_op(driver, held)?;
            bail!("the read goes on")
        }
    }
}

// So many reads, one after another, by one buffer.
fn go_round<R: Print>(rt: &R, alloc: Global, driver: &mut Ring, count: u32) -> Result<()> {
    let fd = stream(driver)?;
    let mut buf = Rent::with_total(alloc, 16)?;
    for _ in 0..count {
        buf = round(driver, fd, buf)?;
    }
    println!(rt;
        "{count} reads by one buffer: at the end it has {:?}",
        buf.as_slice()
    )?;
    Ok(())
}

fn main(rt: HostRuntime) -> Result<()> {
    let mut driver = Ring::new_with_entries(rt.alloc(), 8)?;
    run(&rt, rt.alloc(), &mut driver)?;
    match env::args(&rt)?.nth(1) {
        Some(word) => go_round(&rt, rt.alloc(), &mut driver, word.as_str().parse()?),
        None => Ok(()),
    }
}
