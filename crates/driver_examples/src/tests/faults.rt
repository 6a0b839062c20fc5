// What a driver does over a ring that fails, is busy, or lies; and its end.
ghost use Rattle.uring_driver.specs.Submissions.{IsIdle};

use crate::tests::asks::{Makes, Why};
use crate::tests::bench::{Bench, Given, adopt, submit};
use crate::tests::stage::Submits;
use crate::tests::steps::{ASK, LINKED_READ, Own, OwnCalls, READ, Step, TURN, is_like, run_row};
use machine::{Completion, Outcome};
use rent_buf::{Buf, IoBufMut, NumList, OutOfMemory};
use ring_core::{FIRST_CLOSE, FaultRing, MemRing, Ring};
use std::alloc::Global;
use std::process::Abort;
use std::test::Fail;
use uring_driver::{IoUringDriver, Stop, SubmitFault};

/// The error of an added completion.
pub(crate) const ERROR: u16 = 104;

// Adds a completion of a word, which failed with `ERROR`.
fn inject<B: IoBufMut + Drop>(
    driver: &mut IoUringDriver<FaultRing, B>,
    word: u64,
) -> Result<(), Why> {
    driver.inject(Completion {
        word,
        serial: 0,
        outcome: Outcome::Fail(ERROR),
    })?;
    Ok(())
}

// The serial of the entry in flight at the first place.
fn first_flying<B: IoBufMut + Drop>(driver: &IoUringDriver<FaultRing, B>) -> Option<u64> {
    match driver.ring().ring().flying_at(0) {
        Some(entry) => Some(entry.serial),
        None => None,
    }
}

// What is in flight at a place is bound to what is directly before it.
fn is_bound<B: IoBufMut + Drop>(driver: &IoUringDriver<FaultRing, B>, place: usize) -> bool {
    let ring = driver.ring().ring();
    match ring.flying_at(place) {
        Some(_) => ring.bound(place),
        None => false,
    }
}

impl<B: IoBufMut + Drop> OwnCalls for Bench<FaultRing, B> {
    fn own(&mut self, own: Own) -> Result<(), Why> {
        match own {
            Own::Inject(word) => inject(&mut self.driver, word),
            Own::Flies(serial) => is_like(first_flying(&self.driver) == serial),
            Own::Binds(place, bound) => is_like(is_bound(&self.driver, place) == bound),
            _ => Err(Why::Unmet),
        }
    }
}

// These numbers as a list.
fn numbers(alloc: Global, slice: &[u64]) -> Result<NumList, OutOfMemory> {
    let mut list = NumList::new(alloc);
    for number in slice {
        list.push(*number)?;
    }
    Ok(list)
}

// A driver over a ring.
fn driver_of(alloc: Global, ring: FaultRing) -> Result<IoUringDriver<FaultRing, Buf>, Why>
    requires { IsIdle ring.ring }
{
    match IoUringDriver::over(alloc, ring) {
        Ok(driver) => Ok(driver),
        Err(_) => Err(Why::OutOfMemory),
    }
}

// A driver over a new ring, whose enters of these numbers fail or are busy.
fn driver_over(
    alloc: Global,
    entries: u32,
    failing: &[u64],
    busy: &[u64],
) -> Result<IoUringDriver<FaultRing, Buf>, Why> {
    if entries == 0 {
        return Err(Why::Unmet);
    }
    let failing = numbers(alloc, failing)?;
    let busy = numbers(alloc, busy)?;
    driver_of(
        alloc,
        FaultRing::new(MemRing::new(alloc, entries), failing, busy),
    )
}

/// A bench over a new ring, whose enters of these numbers fail or are busy.
pub(crate) fn bench_over(
    alloc: Global,
    entries: u32,
    failing: &[u64],
    busy: &[u64],
) -> Result<Bench<FaultRing, Buf>, Why> {
    Ok(Bench::new(alloc, driver_over(alloc, entries, failing, busy)?))
}

use Own::{Binds, Flies, Inject};
use Step::{Drop as Drops, Has, Own as Does, Pends, Ready, Submit, Turn, Wakes};

const FAULT: Option<Stop> = Some(Stop::RingFault);

const BUSY: Option<Stop> = Some(Stop::Busy);

// A read is refused, since the ring failed.
const FAILED_READ: Step = Submit(ASK, Submits::Refused(SubmitFault::RingFault));

// A read is refused, since the ring was busy.
const BUSY_READ: Step = Submit(ASK, Submits::Refused(SubmitFault::Busy));

// A row: its name, how many entries the queue holds, which enters fail, which are busy, and its steps over a driver whose user holds
// handle 0.
type Row = (
    &'static str,
    u32,
    &'static [u64],
    &'static [u64],
    &'static [Step],
);

#[rattlefmt::skip]
const ROWS: &[Row] = &[
    ("a failed turn treats nothing", 4, &[0], &[],
        &[READ, Does(Inject(0)), Turn(FAULT, &[]), Has(1, 1, 0, 1), Does(Flies(None)), Turn(None, &[0]), Has(1, 0, 0, 0),
          Does(Flies(Some(0)))]),
    ("a busy turn treats what is ready", 4, &[], &[0],
        &[READ, Does(Inject(0)), Turn(BUSY, &[0]), Has(1, 1, 0, 0), Does(Flies(None)), TURN, Does(Flies(Some(0)))]),
    ("a word of no slot", 4, &[], &[], &[Does(Inject(5)), Turn(Some(Stop::BadCompletion(5)), &[]), Has(0, 0, 0, 0), TURN]),
    ("a refused submission", 1, &[0], &[],
        &[READ, FAILED_READ, Has(1, 1, 0, 0), READ, Has(2, 1, 0, 0), Does(Flies(Some(0)))]),
    ("a busy submission", 1, &[], &[0],
        &[READ, BUSY_READ, Has(1, 1, 0, 0), READ, Has(2, 1, 0, 0), Does(Flies(Some(0)))]),
    ("a drop leaves its cancel due", 1, &[0], &[2],
        &[READ, Drops(0), Has(1, 1, 1, 0), Does(Flies(None)), Turn(BUSY, &[]), Has(1, 1, 0, 0), Does(Flies(Some(0))), TURN,
          Has(1, 0, 0, 0)]),
    ("nothing passes a due cancel", 1, &[0], &[1],
        &[READ, Drops(0), BUSY_READ, Has(1, 1, 1, 0), READ, Has(2, 1, 0, 1), Does(Inject(0)), Turn(None, &[0]), Has(1, 0, 0, 0),
          Does(Flies(Some(0)))]),
    ("a key that isn't live", 4, &[], &[],
        &[READ, READ, TURN, Does(Inject(7)), Does(Inject(1)), Does(Inject(0)), Turn(Some(Stop::BadCompletion(7)), &[]),
          Has(2, 0, 0, 2), Turn(None, &[1, 0])]),
    ("a handle that isn't closing", 4, &[], &[],
        &[READ, READ, TURN, Does(Inject(FIRST_CLOSE + 5)), Does(Inject(1)), Does(Inject(0)),
          Turn(Some(Stop::BadCompletion(FIRST_CLOSE + 5)), &[]), Has(2, 0, 0, 2), Turn(None, &[1, 0])]),
    ("a key that is completed", 4, &[], &[],
        &[READ, READ, READ, Does(Inject(2)), Turn(None, &[2]), Does(Inject(2)), Does(Inject(1)), Does(Inject(0)),
          Turn(Some(Stop::BadCompletion(2)), &[]), Has(3, 0, 0, 2), Turn(None, &[1, 0])]),
    ("linked, and taken by one enter", 4, &[], &[],
        &[LINKED_READ, LINKED_READ, READ, READ, TURN, Does(Binds(0, false)), Does(Binds(1, true)), Does(Binds(2, true)),
          Does(Binds(3, false))]),
    ("a failed enter that takes nothing, between a linked one and the next", 4, &[0], &[],
        &[LINKED_READ, Turn(FAULT, &[]), READ, TURN, Does(Flies(Some(0))), Does(Binds(1, true))]),
    ("a linked one that is taken alone, behind a failed enter", 1, &[0], &[],
        &[LINKED_READ, FAILED_READ, READ, Has(2, 1, 0, 0), TURN, Does(Flies(Some(0))), Does(Binds(1, false))]),
    ("a busy enter before both", 4, &[], &[0],
        &[LINKED_READ, READ, Turn(BUSY, &[]), Does(Flies(None)), TURN, Does(Flies(Some(0))), Does(Binds(1, true))]),
    ("a leader and its follower that complete at once", 4, &[], &[],
        &[LINKED_READ, READ, TURN, Does(Inject(0)), Does(Inject(1)), Turn(None, &[0, 1]), Ready(0, Outcome::Fail(ERROR), &["01"]),
          Ready(1, Outcome::Fail(ERROR), &["01"])]),
    ("a follower that completes some turns behind its leader", 4, &[], &[],
        &[LINKED_READ, READ, TURN, Does(Inject(0)), Turn(None, &[0]), TURN, Pends(1, 7), Does(Inject(1)), Wakes(&[1], &[7]),
          Ready(0, Outcome::Fail(ERROR), &["01"]), Ready(1, Outcome::Fail(ERROR), &["01"])]),
    ("a completion of one that waits, and again", 4, &[], &[],
        &[LINKED_READ, READ, TURN, Does(Inject(1)), Turn(None, &[1]), Does(Binds(1, true)), Pends(0, 7),
          Ready(1, Outcome::Fail(ERROR), &["01"]), Does(Inject(1)), Turn(Some(Stop::BadCompletion(1)), &[]), Does(Inject(0)),
          Wakes(&[0], &[7]), Ready(0, Outcome::Fail(ERROR), &["01"])]),
];

// One row.
fn row(
    rt: &impl Abort,
    alloc: Global,
    (name, entries, failing, busy, steps): Row,
) -> Result<(), Why> {
    let mut bench = bench_over(alloc, entries, failing, busy)?;
    adopt(&mut bench.driver, 0)?;
    run_row(rt, &mut bench, steps, name);
    Ok(())
}

#[test]
fn rows_over_a_ring_that_fails_or_lies(rt: HostRuntime) -> Result<(), Fail> {
    for each in ROWS {
        row(&rt, rt.alloc(), *each)?;
    }
    Ok(())
}

// Ends a driver: whether its ring comes back, and how many slots are live and entries queued then.
fn ends<R: Ring, B: IoBufMut + Drop>(driver: IoUringDriver<R, B>) -> (bool, usize, u32) {
    match driver.finish() {
        Ok(ring) => (true, 0, ring.queued()),
        Err(driver) => (false, driver.num_operations(), driver.ring().queued()),
    }
}

// A read of handle 0 is submitted and queued, and its token forgotten.
fn add_read<R: Ring, B: IoBufMut + Drop + Makes>(
    driver: &mut IoUringDriver<R, B>,
    alloc: Global,
) -> Result<(), Why> {
    adopt(driver, 0)?;
    let request = ASK.request(alloc)?;
    match submit(driver, request, None, false, "01") {
        Given::Token(op) => {
            op.forget();
            Ok(())
        }
        Given::Nothing(_) => Err(Why::Unlike),
    }
}

// The end of a driver that has nothing to do.
fn ends_fresh(alloc: Global) -> Result<(bool, usize, u32), Why> {
    Ok(ends(driver_over(alloc, 4, &[], &[])?))
}

// The end of a driver with a live operation.
fn ends_live(alloc: Global) -> Result<(bool, usize, u32), Why> {
    let mut driver = driver_over(alloc, 4, &[], &[])?;
    let added = add_read(&mut driver, alloc);
    let ended = ends(driver);
    added?;
    Ok(ended)
}

// A fresh driver returns its ring; one with a live operation comes back as it is.
#[test]
fn a_driver_is_finished_once_nothing_is_left_to_do(rt: HostRuntime) -> Result<(), Fail> {
    assert!(rt; ends_fresh(rt.alloc())? == (true, 0, 0));
    assert!(rt; ends_live(rt.alloc())? == (false, 1, 1));
    Ok(())
}
