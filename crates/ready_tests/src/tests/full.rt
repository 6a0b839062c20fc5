// A peer that never reads.
use crate::tests::scene::{Scene, play_on};
use crate::tests::sockets::connects;
use crate::tests::stage::{Stage, Why, failed, filled, finish, is_like, run, send};
use machine::{CANCELED, Outcome};
use socket_io::MioIo;
use std::alloc::Global;
use std::test::Fail;

// How many bytes each send has.
const SIZE: usize = 65536;

// How many sends at most come before one waits.
const TRIES: u32 = 20000;

// The error of a send to a peer that reset the connection, and that of one behind it. (Linux: `ECONNRESET` and `EPIPE`)
const RESET: u16 = 104;

const BROKEN: u16 = 32;

// A send is submitted at place 0, and is pending. Each one before it sent some bytes at once.
fn sends_until_it_waits<S: Stage>(stage: &mut S, alloc: Global) -> Result<(), Why> {
    for _ in 0..TRIES {
        stage.submit(0, send(1, filled(alloc, &[7; SIZE])?))?;
        match stage.poll(0, 0)? {
            Some(done) => is_like(matches!(done.outcome, Outcome::Count(k) if k > 0))?,
            None => return Ok(()),
        }
    }
    Err(Why::Unlike)
}

// It stays pending over some parks.
fn waits<S: Stage>(stage: &mut S) -> Result<(), Why> {
    for _ in 0..5 {
        stage.park(Some(1))?;
        is_like(stage.poll(0, 0)?.is_none())?;
    }
    Ok(())
}

/// The handle 1 sends to the handle 2, which never reads: the send that waits is canceled, and the next one is refused when the peer
/// closes. Nothing is left behind them.
pub(crate) fn full<S: Stage>(stage: &mut S, alloc: Global) -> Result<(), Why> {
    stage.adopt(0)?;
    stage.adopt(1)?;
    stage.adopt(2)?;
    run(stage, send(1, filled(alloc, &[7; SIZE])?))?;
    sends_until_it_waits(stage, alloc)?;
    waits(stage)?;
    stage.cancel(0)?;
    failed(finish(stage, 0)?, CANCELED)?;
    sends_until_it_waits(stage, alloc)?;
    stage.release(2)?;
    failed(finish(stage, 0)?, RESET)?;
    failed(run(stage, send(1, filled(alloc, &[7; SIZE])?))?, BROKEN)?;
    stage.release(0)?;
    stage.release(1)?;
    is_like(stage.left() == (0, 0))
}

#[test]
fn a_peer_never_reads(rt: HostRuntime) -> Result<(), Fail> {
    let alloc = rt.alloc();
    let mut io = MioIo::new(&rt, alloc);
    assert!(rt; connects(&rt, &mut io, 40517)?);
    play_on(&rt, alloc, io, Scene::Full)?;
    Ok(())
}
