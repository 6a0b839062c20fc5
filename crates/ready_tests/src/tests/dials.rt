// Connections that a driver opens itself.
use crate::tests::scene::{Scene, play_on};
use crate::tests::stage::{
    Asked, Stage, Why, failed, filled, finish, is_like, moved, pends, receive, run, send,
};
use machine::{Outcome, Request, SharedFd};
use ready_driver::NonBlockError;
use rent_buf::{IoBuf as _, Rent};
use socket_io::MioIo;
use std::alloc::Global;
use std::test::Fail;

// The first port that is tried, and how many are.
const FIRST: u16 = 40617;

const PORTS: u16 = 64;

// The error of a port that is taken, and that of one on which nobody listens. (Linux: `EADDRINUSE` and `ECONNREFUSED`)
const TAKEN: u16 = 98;

const REFUSED: u16 = 111;

/// A listener on the first port that is free, and the port.
pub(crate) fn listens<S: Stage>(stage: &mut S) -> Result<(u64, u16), Why> {
    for port in FIRST..FIRST + PORTS {
        match stage.listen(port) {
            Ok(h) => return Ok((h, port)),
            Err(why) => is_like(why == NonBlockError::Fault(TAKEN))?,
        }
    }
    Err(Why::Unlike)
}

/// A dial that is done.
pub(crate) fn dials<S: Stage>(stage: &mut S, port: u16) -> Result<u64, Why> {
    match stage.dial(port) {
        Ok(h) => Ok(h),
        Err(_) => Err(Why::Unlike),
    }
}

/// The connection that a listener accepts.
pub(crate) fn accepts<S: Stage>(stage: &mut S, listener: u64) -> Result<u64, Why> {
    let fd = SharedFd::new(listener);
    match run(stage, Request::Accept { fd })?.outcome {
        Outcome::Made(h) => Ok(h),
        _ => Err(Why::Unlike),
    }
}

// Bytes, so many, go from one handle to the other.
fn carries<S: Stage>(
    stage: &mut S,
    alloc: Global,
    from: u64,
    to: u64,
    bytes: &[u8],
    count: u32,
) -> Result<(), Why> {
    moved(run(stage, send(from, filled(alloc, bytes)?))?, count)?;
    let buf = Rent::with_total(alloc, 16)?;
    let back = moved(run(stage, receive(to, buf))?, count)?;
    is_like(back.bytes() == bytes)
}

// A wait until a handle can be read.
fn wait_to_read(h: u64) -> Asked {
    let fd = SharedFd::new(h);
    Request::PollAdd { fd, read: true }
}

// A wait to read what was read already is pending, until a further byte comes.
fn waits<S: Stage>(stage: &mut S, alloc: Global, near: u64, far: u64) -> Result<(), Why> {
    pends(stage, 1, wait_to_read(near))?;
    moved(run(stage, send(far, filled(alloc, &[7])?))?, 1)?;
    is_like(finish(stage, 1)?.outcome == Outcome::Count(0))
}

// A dial to a port on which nobody listens: it is refused at once, or the first call on it is.
fn meets_nobody<S: Stage>(stage: &mut S, alloc: Global, port: u16) -> Result<(), Why> {
    match stage.dial(port) {
        Ok(h) => {
            failed(
                run(stage, receive(h, Rent::with_total(alloc, 16)?))?,
                REFUSED,
            )?;
            stage.release(h)
        }
        Err(why) => is_like(why == NonBlockError::Fault(REFUSED)),
    }
}

// An accept that waits holds its listener, of which its user drops the only hold, which isn't the last: a dial still comes through.
fn outlives<S: Stage>(stage: &mut S, listener: u64, port: u16) -> Result<(), Why> {
    let fd = SharedFd::new(listener);
    pends(stage, 1, Request::Accept { fd })?;
    is_like(stage.release(listener) == Err(Why::Unlike))?;
    let near = dials(stage, port)?;
    match finish(stage, 1)?.outcome {
        Outcome::Made(far) => stage.release(far)?,
        _ => return Err(Why::Unlike),
    }
    stage.release(near)
}

/// A driver listens, dials and accepts: bytes come over. A port that is taken, one on which nobody listens, and the port 0, are told by their
/// numbers. A listener whose only connection was accepted isn't readable, though its bit still says so. An accept that waits outlives its
/// user's hold of the listener, which is closed behind it. Nothing is left behind them.
pub(crate) fn dials_and_accepts<S: Stage>(stage: &mut S, alloc: Global) -> Result<(), Why> {
    let (listener, port) = listens(stage)?;
    let near = dials(stage, port)?;
    let far = accepts(stage, listener)?;
    pends(stage, 1, wait_to_read(listener))?;
    stage.drop_op(1)?;
    carries(stage, alloc, near, far, b"hello", 5)?;
    carries(stage, alloc, far, near, b"hello back", 10)?;
    waits(stage, alloc, near, far)?;
    is_like(stage.listen(port) == Err(NonBlockError::Fault(TAKEN)))?;
    outlives(stage, listener, port)?;
    meets_nobody(stage, alloc, port)?;
    meets_nobody(stage, alloc, 0)?;
    stage.release(near)?;
    stage.release(far)?;
    is_like(stage.left() == (0, 0))
}

#[test]
fn a_driver_dials_and_accepts(rt: HostRuntime) -> Result<(), Fail> {
    let alloc = rt.alloc();
    play_on(&rt, alloc, MioIo::new(&rt, alloc), Scene::Dials)?;
    Ok(())
}
