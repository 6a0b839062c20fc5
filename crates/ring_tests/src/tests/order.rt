// The order of what is in flight.
use crate::tests::bench::bench_of;
use crate::tests::stage::{Handles, Stage, Why, is_like, submit};
use crate::tests::steps::read_entry;
use machine::{Completion, Told};
use ring_core::ExecRefusal;
use std::alloc::Global;
use std::process::Abort;
use std::test::Fail;

// How many reads are submitted, and how many are in flight before the first one is executed.
const READS: u64 = 600;

const FLYING: usize = 40;

// Where entries are executed: the first place, and how far the next one is from each.
const ORDERS: [(&str, u64, u64); 3] = [("the first", 0, 0), ("the last", 39, 0), ("any", 0, 7)];

// The place of the entry that is executed after the read of a serial.
fn place_of(first: u64, step: u64, serial: u64) -> usize {
    (serial.wrapping_mul(step).wrapping_add(first) % FLYING as u64) as usize
}

// The serial of what was executed.
fn serial_of(done: Result<Completion, ExecRefusal>) -> Option<u64> {
    match done {
        Ok(completion) => Some(completion.serial),
        Err(_) => None,
    }
}

// The execution of the entry at a place is that of the one which a plain list has there.
fn executes<S: Stage + Handles>(
    stage: &mut S,
    serials: &mut Vec<u64>,
    place: usize,
) -> Result<(), Why> {
    if serials.len() < FLYING || place >= serials.len() {
        return Ok(());
    }
    let gone = serials.remove(place);
    let (done, _) = stage.finish(place, Told::Fail(5), "");
    is_like(serial_of(done) == Some(gone))?;
    is_like(serial_of(stage.next().ok_or(ExecRefusal::NotFlying)) == Some(gone))
}

// A read is submitted, and joins a plain list.
fn submits<S: Stage>(stage: &mut S, serials: &mut Vec<u64>, serial: u64) -> Result<(), Why> {
    submit(stage, read_entry(serial % 64, serial, 1))?;
    match serials.push(serial) {
        Ok(()) => Ok(()),
        Err(_) => Err(Why::OutOfMemory),
    }
}

// What is in flight is what a plain list has.
fn flies<S: Handles>(stage: &S, serials: &[u64]) -> Result<(), Why> {
    for place in 0..serials.len() {
        match stage.flying_at(place) {
            Some(entry) => is_like(entry.serial == serials[place])?,
            None => return Err(Why::Unlike),
        }
    }
    Ok(())
}

// Of all reads, one is executed after each, once enough are in flight. It answers the read after which something isn't as in a plain
// list, and why; None: each is.
fn run<S: Stage + Handles>(
    alloc: Global,
    stage: &mut S,
    first: u64,
    step: u64,
) -> Option<(u64, Why)> {
    let mut serials = Vec::new(alloc);
    for serial in 0..READS {
        if let Err(why) = submits(stage, &mut serials, serial) {
            return Some((serial, why));
        }
        if let Err(why) = executes(stage, &mut serials, place_of(first, step, serial)) {
            return Some((serial, why));
        }
    }
    match flies(stage, serials.as_slice()) {
        Ok(()) => None,
        Err(why) => Some((READS, why)),
    }
}

// A row is as it says.
fn run_row<S: Stage + Handles>(
    rt: &impl Abort,
    alloc: Global,
    stage: &mut S,
    name: &str,
    (first, step): (u64, u64),
) {
    assert_eq!(rt; run(alloc, stage, first, step), None, "executed: {name}");
}

// Each completion is that of the entry that a plain list has at the place. All slots are used up a few times meanwhile.
#[test]
fn what_is_in_flight_keeps_its_order(rt: HostRuntime) -> Result<(), Fail> {
    for (name, first, step) in ORDERS {
        let mut bench = bench_of(rt.alloc(), 1)?;
        run_row(&rt, rt.alloc(), &mut bench, name, (first, step));
    }
    Ok(())
}
