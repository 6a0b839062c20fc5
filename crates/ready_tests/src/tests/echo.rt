// Bytes that are sent to and fro on one thread. The time of a round trip is printed, and compared with nothing.
use crate::tests::scene::{Scene, play_on};
use crate::tests::sockets::connects;
use crate::tests::stage::{Stage, Why, filled, finish, is_like, moved, pends, receive, run, send};
use rent_buf::{IoBuf as _, Rent};
use socket_io::MioIo;
use std::alloc::Global;
use std::test::Fail;
use std::time::Instant;

// How many bytes a round trip moves each way.
const SIZE: usize = 64;

// How many round trips are made.
const TRIPS: u32 = 10000;

// The handle 1 sends bytes to the handle 2, whose read is pending at place 1; they are sent back, and the handle 2 reads again.
fn trip<S: Stage>(stage: &mut S, bytes: Rent) -> Result<Rent, Why> {
    let mine = moved(run(stage, send(1, bytes))?, 64)?;
    pends(stage, 0, receive(1, mine))?;
    let theirs = moved(finish(stage, 1)?, 64)?;
    stage.submit(1, send(2, theirs))?;
    let sent = moved(finish(stage, 1)?, 64)?;
    pends(stage, 1, receive(2, sent))?;
    moved(finish(stage, 0)?, 64)
}

// So many round trips, each with bytes of its own.
fn trips<S: Stage>(stage: &mut S, alloc: Global) -> Result<(), Why> {
    for number in 0..TRIPS {
        let byte = (number % 251) as u8;
        let bytes = [byte; SIZE];
        let back = trip(stage, filled(alloc, &bytes)?)?;
        is_like(back.bytes() == bytes.as_slice())?;
    }
    Ok(())
}

/// The round trips between the handles 1 and 2. Nothing is left behind them.
pub(crate) fn echo<S: Stage>(stage: &mut S, alloc: Global) -> Result<(), Why> {
    stage.adopt(0)?;
    stage.adopt(1)?;
    stage.adopt(2)?;
    pends(stage, 1, receive(2, Rent::with_total(alloc, SIZE)?))?;
    trips(stage, alloc)?;
    stage.cancel(1)?;
    finish(stage, 1)?;
    stage.release(0)?;
    stage.release(1)?;
    stage.release(2)?;
    is_like(stage.left() == (0, 0))
}

#[test]
fn bytes_come_back(rt: HostRuntime) -> Result<(), Fail> {
    let alloc = rt.alloc();
    let mut io = MioIo::new(&rt, alloc);
    assert!(rt; connects(&rt, &mut io, 40417)?);
    let start = Instant::now(&rt)?;
    play_on(&rt, alloc, io, Scene::Echo)?;
    let nanos = start.elapsed(&rt)?.as_nanos() / u128::from(TRIPS);
    println!(rt; "a round trip of 64 bytes: {nanos} ns")?;
    Ok(())
}
