// Drivers over rings that aren't ours: they show no lists.
ghost use Rattle.std.specs.Prelude.{◌≡◌, ◌≤◌, ◌+◌, false, [], length, OnSome};
ghost use Rattle.ring_core.specs.Bound.{is_bound};

use crate::tests::asks::Why;
use crate::tests::bench::Bench;
use crate::tests::steps::{LINKED_READ, Own, OwnCalls, READ, Step, TURN, run_row};
use machine::{Completion, Outcome, Told};
use rent_buf::{Buf, ByteList, OutOfMemory};
use ring_core::{EnterError, Entry, MemRing, Push, Ring};
use std::alloc::Global;
use std::process::Abort;
use std::test::Fail;
use uring_driver::{IoUringDriver, Stop};

// How a ring completes what it takes.
#[derive(Clone, Copy, PartialEq, Eq)]
enum Manner {
    // At once, in order.
    AtOnce,
    // At once, the last one first.
    Reverse,
    // At once, and every other completion is the one before it again.
    Twice,
    // At once, in order, and it knows no links.
    Unlinked,
}

// A ring that completes all that it takes at once: each entry fails with its word and one more.
#[derive(Drop)]
struct HastyRing {
    ring: MemRing,
    manner: Manner,
    // The completion that comes again.
    again: Option<Completion>,
    alloc: Global,
}

impl HastyRing {
    fn new(alloc: Global, manner: Manner) -> HastyRing
        ensures queue { result.ring.queue ≡ [] }
        ensures flying { result.ring.flying ≡ [] }
        ensures done { result.ring.done ≡ [] }
    {
        HastyRing {
            ring: MemRing::new(alloc, 8),
            manner,
            again: None,
            alloc,
        }
    }
}

// What is in flight at a place is bound; nothing there isn't.
#[tactic(auto, using(crate::proofs::Waits::within_entry, crate::proofs::Waits::none_entry))]
fn waits(ring: &MemRing, place: usize) -> bool
    ensures { result ≡ is_bound ring.now.flying place }
{
    match ring.flying_at(place) {
        Some(_) => ring.bound(place),
        None => false,
    }
}

// What is in flight at a place, where nothing waits for it.
fn alone_at(ring: &MemRing, place: usize) -> Option<Entry>
    ensures { OnSome result (is_bound ring.now.flying (place + 1) ≡ false) }
{
    let entry = ring.flying_at(place)?;
    let next = place.checked_add(1)?;
    if waits(ring, next) { None } else { Some(entry) }
}

/// What is in flight at a place fails, where nothing waits for it.
#[tactic(auto, using(crate::proofs::Waits::one_more))]
pub(crate) fn fail_at(ring: &mut MemRing, place: usize, alloc: Global)
    ensures queue { ring.new.queue ≡ ring.old.queue }
    ensures capacity { ring.new.capacity ≡ ring.old.capacity }
    ensures spare { ring.new.spare ≡ ring.old.spare }
    ensures counts { (ring.new.faults ≡ ring.old.faults) × (ring.new.busies ≡ ring.old.busies) }
    ensures to_come { ring.new.to_come ≡ ring.old.to_come }
    ensures more { length ring.old.done ≤ length ring.new.done }
    ensures few { length ring.new.done ≤ length ring.old.done + 1 }
{
    let Some(entry) = alone_at(ring, place) else {
        return;
    };
    let mut got = ByteList::new(alloc);
    let told = Told::Fail((entry.word % 100) as u16 + 1);
    match ring.finish_at(place, told, &[], &mut got) {
        Ok(_) => {}
        Err(_) => {}
    }
}

// So much of what is in flight fails, from the front or from the end.
fn fail_each(ring: &mut MemRing, count: usize, from_end: bool, alloc: Global)
    ensures queue { ring.new.queue ≡ ring.old.queue }
    ensures capacity { ring.new.capacity ≡ ring.old.capacity }
    ensures spare { ring.new.spare ≡ ring.old.spare }
    ensures counts { (ring.new.faults ≡ ring.old.faults) × (ring.new.busies ≡ ring.old.busies) }
    ensures to_come { ring.new.to_come ≡ ring.old.to_come }
    ensures more { length ring.old.done ≤ length ring.new.done }
    ensures few { length ring.new.done ≤ length ring.old.done + count }
{
    for i in 0..count {
        let place = if from_end { count - 1 - i } else { 0 };
        fail_at(ring, place, alloc);
    }
}

impl Ring for HastyRing {
    ghost view = { λ r. record r.ring { world = [] } };

    ghost tells = { false };

    ghost steady = { false };

    ghost steady_tells = { λ steady. steady };

    fn capacity(&self) -> u32 {
        self.ring.capacity()
    }

    fn queued(&self) -> u32 {
        self.ring.queued()
    }

    fn standing(&self) -> usize {
        self.ring.standing()
    }

    fn to_come(&self) -> usize {
        self.ring.to_come()
    }

    fn reserve(&mut self, n: usize) -> Result<(), OutOfMemory> {
        self.ring.reserve(n)
    }

    fn push_reserved(&mut self, entry: Entry) -> Push {
        let linked = entry.linked && self.manner != Manner::Unlinked;
        match self.ring.push_reserved(Entry { linked, ..entry }) {
            Push::Done => Push::Done,
            Push::Full(_) => Push::Full(entry),
        }
    }

    fn enter(&mut self) -> Result<u32, EnterError> {
        let before = self.ring.standing();
        match self.ring.enter() {
            Ok(taken) => {
                let left = taken as usize - (self.ring.standing() - before);
                fail_each(
                    &mut self.ring,
                    left,
                    self.manner == Manner::Reverse,
                    self.alloc,
                );
                Ok(taken)
            }
            Err(why) => Err(why),
        }
    }

    fn sync(&mut self) {}

    fn next(&mut self) -> Option<Completion> {
        let Some(completion) = self.ring.next() else {
            return None;
        };
        if self.manner != Manner::Twice {
            return Some(completion);
        }
        match self.again.take() {
            Some(again) => Some(again),
            None => {
                self.again = Some(completion);
                Some(completion)
            }
        }
    }
}

// A driver over this ring has no calls of its own.
impl OwnCalls for Bench<HastyRing, Buf> {
    fn own(&mut self, _: Own) -> Result<(), Why> {
        Err(Why::Unmet)
    }
}

use Step::{Adopt, Pends, Ready, Turn};

// A row: its name, the ring's manner, and the steps over such a ring: each entry fails with its word and one more.
type Row = (&'static str, Manner, &'static [Step]);

#[rattlefmt::skip]
const ROWS: &[Row] = &[
    ("at once", Manner::AtOnce,
        &[Adopt(0), READ, READ, READ, Turn(None, &[0, 1, 2]), TURN, Ready(0, Outcome::Fail(1), &["01"]),
          Ready(1, Outcome::Fail(2), &["01"]), Ready(2, Outcome::Fail(3), &["01"])]),
    ("the last one first", Manner::Reverse,
        &[Adopt(0), READ, READ, READ, Turn(None, &[2, 1, 0]), TURN, Ready(0, Outcome::Fail(1), &["01"]),
          Ready(1, Outcome::Fail(2), &["01"]), Ready(2, Outcome::Fail(3), &["01"])]),
    // The second completion of operation 0 takes the place of that of operation 1.
    ("twice", Manner::Twice,
        &[Adopt(0), READ, READ, READ, Turn(Some(Stop::BadCompletion(0)), &[0]), Turn(None, &[2]),
          Ready(0, Outcome::Fail(1), &["01"]), Pends(1, 7), Ready(2, Outcome::Fail(3), &["01"])]),
    // This ring completes neither what waits nor what it waits for.
    ("linked, at once", Manner::AtOnce, &[Adopt(0), LINKED_READ, READ, TURN, Pends(0, 7), Pends(1, 7)]),
    ("linked, the last one first", Manner::Reverse,
        &[Adopt(0), READ, LINKED_READ, READ, Turn(None, &[0]), Pends(1, 7), Pends(2, 7), Ready(0, Outcome::Fail(1), &["01"])]),
    ("linked, of which the ring knows nothing", Manner::Unlinked,
        &[Adopt(0), LINKED_READ, READ, Turn(None, &[0, 1]), Ready(0, Outcome::Fail(1), &["01"]), Ready(1, Outcome::Fail(2), &["01"])]),
];

// A bench over such a ring.
fn bench_over(alloc: Global, manner: Manner) -> Result<Bench<HastyRing, Buf>, Why> {
    match IoUringDriver::over(alloc, HastyRing::new(alloc, manner)) {
        Ok(driver) => Ok(Bench::new(alloc, driver)),
        Err(_) => Err(Why::OutOfMemory),
    }
}

// One row.
fn row(rt: &impl Abort, alloc: Global, (name, manner, steps): Row) -> Result<(), Why> {
    let mut bench = bench_over(alloc, manner)?;
    run_row(rt, &mut bench, steps, name);
    Ok(())
}

#[test]
fn a_ring_completes_in_its_own_manner(rt: HostRuntime) -> Result<(), Fail> {
    for each in ROWS {
        row(&rt, rt.alloc(), *each)?;
    }
    Ok(())
}
