// What a readiness driver does over handles in memory where memory is at hand: reads that wait, are woken, returned, canceled and dropped.
ghost use Rattle.std.specs.Prelude.{◌≡◌};

use crate::tests::bench::Bench;
use crate::tests::named::Bit;
use crate::tests::stage::{Why, is_like};
use crate::tests::steps::{Step, run_row};
use Step::{
    Bits, Cancel, Drop as Drops, Ends, Feed, Handle, Live, Pends, Read, Release, Stream, Turn,
};
use handle_core::{Released, SharedFd};
use machine::{CANCELED, HandleKind, MOST_HANDLES, Outcome};
use ready_driver::{LegacyDriver, MemIo, NonBlock, Reports};
use rent_buf::Rent;
use std::alloc::Global;
use std::marker::Brand;
use std::process::Abort;
use std::sync::Wait;
use std::sync::ledger::{Blank, Ledger};
use std::test::Fail;
use std::time::Clock;
use wake_core::{PUSH_PARTS, Sleeper, WakeCell};

// The outcome of a read of two bytes.
const TWO: Outcome = Outcome::Count(2);

// The outcome of a read whose cancel was asked for.
const ENDED: Outcome = Outcome::Fail(CANCELED);

// Runs: the name of each, and its steps.
const ROWS: &[(&str, &[Step])] = &[
    (
        "a read is woken and returned",
        &[
            Stream(0),
            Read(0),
            Pends(7),
            Turn(&[]),
            Feed(0, "abc"),
            Turn(&[7]),
            Ends(TWO, "ab"),
        ],
    ),
    (
        "a canceled read is woken and returned",
        &[
            Stream(0),
            Read(0),
            Pends(7),
            Cancel,
            Turn(&[7]),
            Ends(ENDED, ""),
        ],
    ),
    (
        "a canceled read that never waited wakes nobody, and a dropped one is gone",
        &[
            Stream(0),
            Read(0),
            Pends(7),
            Feed(0, "abc"),
            Turn(&[7]),
            Ends(TWO, "ab"),
            Read(0),
            Cancel,
            Turn(&[]),
            Ends(ENDED, ""),
            Read(0),
            Live(1),
            Drops,
            Live(0),
        ],
    ),
    (
        "a bit isn't there before a report, and goes with the last holder",
        &[
            Handle(0, false, false, false),
            Stream(0),
            Bits(0, Bit::Empty),
            Read(0),
            Pends(7),
            Turn(&[]),
            Bits(0, Bit::Writable),
            Feed(0, "abc"),
            Pends(8),
            Turn(&[8]),
            Ends(TWO, "ab"),
            Handle(0, true, true, true),
            Release(0),
            Handle(0, false, false, false),
            Bits(0, Bit::Empty),
        ],
    ),
];

// Each row on a new driver, whose parks are lent this sleeper.
fn run_each<P: Ledger, D: Ledger, T: Wait + Clock + Abort>(
    rt: &T,
    alloc: Global,
    sleeper: &mut Sleeper<P, D>,
) {
    for i in 0..ROWS.len() {
        let mut bench = Bench::new(alloc, MemIo::new(alloc), sleeper, rt);
        run_row(rt, &mut bench, alloc, &ROWS[i]);
    }
}

// The same with a new sleeper.
fn run_all<P: Ledger, D: Ledger, T: Wait + Clock + Abort>(
    rt: &T,
    alloc: Global,
    pushes: Blank,
    drains: Blank,
) -> Result<(), Why>
    requires pushes { (pushes.name ≡ P.name) × (pushes.parts ≡ P.parts) × (pushes.parts ≡ PUSH_PARTS) }
    requires drains { (drains.name ≡ D.name) × (drains.parts ≡ D.parts) × (drains.parts ≡ 1) }
{
    match WakeCell::<P, D>::new(alloc, pushes, drains) {
        Ok((_cell, mut sleeper)) => {
            run_each(rt, alloc, &mut sleeper);
            Ok(())
        }
        Err(_) => Err(Why::OutOfMemory),
    }
}

#[test]
fn reads_wait_and_are_returned(rt: HostRuntime) -> Result<(), Fail> {
    run_all::<Brand, Brand, HostRuntime>(&rt, rt.alloc(), Blank::new(PUSH_PARTS), Blank::new(1))?;
    Ok(())
}

// A driver over a stream in memory.
fn over_a_stream(alloc: Global) -> Result<LegacyDriver<MemIo, Rent>, Why> {
    let mut driver: LegacyDriver<MemIo, Rent> = LegacyDriver::over(alloc, MemIo::new(alloc));
    if driver.handles() >= MOST_HANDLES || driver.known(driver.handles()) {
        return Err(Why::Unmet);
    }
    let _ = driver.give(HandleKind::Stream)?;
    Ok(driver)
}

// The handle 0 is released, by its last holder.
fn release(driver: &mut LegacyDriver<MemIo, Rent>) -> Result<(), Why> {
    if !driver.user_holds(0) {
        return Err(Why::Unmet);
    }
    is_like(driver.release(SharedFd::new(0)) == Released::Last)
}

// How many handles a wait of an object reports.
fn reported<I: NonBlock>(alloc: Global, mut io: I) -> Result<usize, Why> {
    let mut reports = Reports::new(alloc);
    match io.wait(None, &mut reports) {
        Ok(()) => Ok(reports.len()),
        Err(_) => Err(Why::OutOfMemory),
    }
}

// How many handles the object of a finished driver reports.
fn reported_of(alloc: Global, driver: LegacyDriver<MemIo, Rent>) -> Result<usize, Why> {
    match driver.finish() {
        Ok(io) => reported(alloc, io),
        Err(_) => Err(Why::Unlike),
    }
}

// How many handles the object reports behind a driver that released its only one, or didn't.
fn left_registered(alloc: Global, releases: bool) -> Result<usize, Why> {
    let mut driver = over_a_stream(alloc)?;
    if releases {
        release(&mut driver)?;
    }
    reported_of(alloc, driver)
}

#[test]
fn a_held_handle_alone_is_registered(rt: HostRuntime) {
    for (releases, count) in [(false, 1), (true, 0)] {
        assert_eq!(rt; left_registered(rt.alloc(), releases), Ok(count));
    }
}
