// Many connections that are open at once.
use crate::tests::dials::listens;
use crate::tests::scene::{Scene, play_on};
use crate::tests::sockets::opens;
use crate::tests::stage::{Stage, Why, filled, is_like, moved, receive, run, send};
use machine::{Outcome, Request, SharedFd};
use rent_buf::{IoBuf as _, Rent};
use socket_io::MioIo;
use std::alloc::Global;
use std::test::Fail;

// How many connections are made, and how many where the process may not open so many files.
const MANY: u64 = 1000;

const FEWER: u64 = 400;

// How many connections are made.
fn most(rt: &HostRuntime, alloc: Global) -> u64 {
    if opens(&mut MioIo::new(rt, alloc), 2 * MANY + 50) {
        MANY
    } else {
        FEWER
    }
}

// The handle 0 listens, and so many handles from 1 on dial it.
fn dials<S: Stage>(stage: &mut S, count: u64) -> Result<(), Why> {
    let (listener, port) = listens(stage)?;
    is_like(listener == 0)?;
    for h in 1..count.saturating_add(1) {
        is_like(stage.dial(port) == Ok(h))?;
    }
    Ok(())
}

// An accept on the handle 0 makes this handle.
fn accepts<S: Stage>(stage: &mut S, h: u64) -> Result<(), Why> {
    let fd = SharedFd::new(0);
    let done = run(stage, Request::Accept { fd })?;
    is_like(done.outcome == Outcome::Made(h))
}

// The handle sends its number, in two bytes.
fn tells<S: Stage>(stage: &mut S, alloc: Global, h: u64) -> Result<(), Why> {
    let number = [(h / 256 % 256) as u8, (h % 256) as u8];
    moved(run(stage, send(h, filled(alloc, &number)?))?, 2)?;
    Ok(())
}

// The number that the handle receives.
fn told<S: Stage>(stage: &mut S, alloc: Global, h: u64) -> Result<u64, Why> {
    let buf = Rent::with_total(alloc, 2)?;
    let buf = moved(run(stage, receive(h, buf))?, 2)?;
    match buf.bytes() {
        [high, low] => Ok(u64::from(*high) * 256 + u64::from(*low)),
        _ => Err(Why::Unlike),
    }
}

// Each of the handles from one to another tells its number, and the sum of those that came over all connections is what they make.
fn tell_all<S: Stage>(stage: &mut S, alloc: Global, count: u64) -> Result<(), Why> {
    let mut sum = 0u64;
    for h in 1..count.saturating_add(1) {
        tells(stage, alloc, h)?;
        sum = sum.wrapping_add(h);
    }
    for h in 1..count.saturating_add(1) {
        sum = sum.wrapping_sub(told(stage, alloc, count.saturating_add(h))?);
    }
    is_like(sum == 0)
}

/// A driver listens, and dials so often: each connection is accepted, and all are open at once while a number is sent over each. Nothing is
/// left behind them.
pub(crate) fn many<S: Stage>(stage: &mut S, alloc: Global, count: u64) -> Result<(), Why> {
    dials(stage, count)?;
    for h in 1..count.saturating_add(1) {
        accepts(stage, count.saturating_add(h))?;
    }
    tell_all(stage, alloc, count)?;
    for h in 0..count.saturating_add(count).saturating_add(1) {
        stage.release(h)?;
    }
    is_like(stage.left() == (0, 0))
}

#[test]
fn many_connections_are_open(rt: HostRuntime) -> Result<(), Fail> {
    let alloc = rt.alloc();
    let count = most(&rt, alloc);
    play_on(&rt, alloc, MioIo::new(&rt, alloc), Scene::Many(count))?;
    Ok(())
}
