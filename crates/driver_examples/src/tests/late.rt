// A driver over a ring whose completions come by themselves, some turns later.
ghost use Rattle.std.specs.Prelude.{◌≡◌, ◌≤◌, ◌+◌, false, [], length};

use crate::tests::asks::Why;
use crate::tests::bench::Bench;
use crate::tests::rings::fail_at;
use crate::tests::steps::{Own, OwnCalls, READ, Step, TURN, run_row};
use handle_core::Released;
use machine::{Completion, Outcome};
use rent_buf::{Buf, OutOfMemory};
use ring_core::{EnterError, Entry, MemRing, Push, Ring};
use std::alloc::Global;
use std::process::Abort;
use std::test::Fail;
use uring_driver::IoUringDriver;

// A ring that completes nothing when it takes it, as a kernel's does. Each `sync` has a list of places: what is in flight there then, one
// after another, fails with its word and one more. Past the lists nothing completes.
#[derive(Drop)]
struct LateRing {
    ring: MemRing,
    places: &'static [&'static [usize]],
    // How many syncs there were.
    syncs: usize,
    // How many completions are to come.
    late: usize,
    alloc: Global,
}

impl LateRing {
    fn new(alloc: Global, places: &'static [&'static [usize]]) -> LateRing
        ensures queue { result.ring.queue ≡ [] }
        ensures flying { result.ring.flying ≡ [] }
        ensures done { result.ring.done ≡ [] }
    {
        LateRing {
            ring: MemRing::new(alloc, 8),
            places,
            syncs: 0,
            late: 0,
            alloc,
        }
    }
}

// What is in flight at a place fails, if a completion is to come.
fn arrive_at(ring: &mut MemRing, late: &mut usize, place: usize, alloc: Global)
    ensures queue { ring.new.queue ≡ ring.old.queue }
    ensures capacity { ring.new.capacity ≡ ring.old.capacity }
    ensures spare { ring.new.spare ≡ ring.old.spare }
    ensures counts { (ring.new.faults ≡ ring.old.faults) × (ring.new.busies ≡ ring.old.busies) }
    ensures more { length ring.old.done ≤ length ring.new.done }
    ensures few { length ring.new.done + late.new ≤ length ring.old.done + late.old }
{
    if *late == 0 {
        return;
    }
    let before = ring.standing();
    fail_at(ring, place, alloc);
    *late -= ring.standing() - before;
}

// What is in flight at these places fails, one after another.
fn arrive_each(ring: &mut MemRing, late: &mut usize, places: &[usize], alloc: Global)
    ensures queue { ring.new.queue ≡ ring.old.queue }
    ensures capacity { ring.new.capacity ≡ ring.old.capacity }
    ensures spare { ring.new.spare ≡ ring.old.spare }
    ensures counts { (ring.new.faults ≡ ring.old.faults) × (ring.new.busies ≡ ring.old.busies) }
    ensures more { length ring.old.done ≤ length ring.new.done }
    ensures few { length ring.new.done + late.new ≤ length ring.old.done + late.old }
{
    for i in 0..places.len() {
        arrive_at(ring, late, places[i], alloc);
    }
}

impl Ring for LateRing {
    ghost view = { λ r. record r.ring { world = []; to_come = r.late } };

    ghost tells = { false };

    ghost steady = { false };

    ghost steady_tells = { λ steady. steady };

    fn capacity(&self) -> u32 {
        self.ring.capacity()
    }

    fn queued(&self) -> u32 {
        self.ring.queued()
    }

    fn standing(&self) -> usize {
        self.ring.standing()
    }

    fn to_come(&self) -> usize {
        self.late
    }

    fn reserve(&mut self, n: usize) -> Result<(), OutOfMemory> {
        self.ring.reserve(n)
    }

    fn push_reserved(&mut self, entry: Entry) -> Push {
        self.ring.push_reserved(entry)
    }

    fn enter(&mut self) -> Result<u32, EnterError> {
        let before = self.ring.standing();
        match self.ring.enter() {
            Ok(taken) => {
                let left = taken as usize - (self.ring.standing() - before);
                self.late = self.late.saturating_add(left);
                Ok(taken)
            }
            Err(why) => Err(why),
        }
    }

    fn sync(&mut self) {
        let Some(places) = self.places.get(self.syncs) else {
            return;
        };
        self.syncs += 1;
        arrive_each(&mut self.ring, &mut self.late, places, self.alloc);
    }

    fn next(&mut self) -> Option<Completion> {
        self.ring.next()
    }
}

// A driver over this ring has no calls of its own.
impl OwnCalls for Bench<LateRing, Buf> {
    fn own(&mut self, _: Own) -> Result<(), Why> {
        Err(Why::Unmet)
    }
}

use Step::{Adopt, Cancel, Closes, Drop, Has, Pends, Ready, Release, Turn, Wakes};

// A row: its name, the places of each sync, and the steps: a turn makes one sync.
type Row = (&'static str, &'static [&'static [usize]], &'static [Step]);

#[rattlefmt::skip]
const ROWS: &[Row] = &[
    ("over an empty queue", &[&[], &[], &[0]],
        &[Adopt(0), READ, TURN, TURN, Has(1, 0, 0, 0), Turn(None, &[0]), TURN, Ready(0, Outcome::Fail(1), &["01"])]),
    ("in another order", &[&[], &[2, 0], &[0]],
        &[Adopt(0), READ, READ, READ, TURN, Turn(None, &[2, 0]), Turn(None, &[1]), Ready(0, Outcome::Fail(1), &["01"]),
          Ready(1, Outcome::Fail(2), &["01"]), Ready(2, Outcome::Fail(3), &["01"])]),
    ("never", &[&[], &[1]],
        &[Adopt(0), READ, READ, TURN, Turn(None, &[1]), TURN, TURN, Pends(0, 7), Ready(1, Outcome::Fail(2), &["01"]), Has(1, 0, 0, 0)]),
    ("beside what is taken in the same turn", &[&[], &[0, 0]],
        &[Adopt(0), READ, TURN, READ, Turn(None, &[0, 1])]),
    ("all of them at once", &[&[], &[0, 0, 0, 0, 0, 0, 0, 0, 0, 0]],
        &[Adopt(0), READ, READ, READ, READ, READ, READ, READ, READ, READ, READ, TURN, Turn(None, &[0, 1, 2, 3, 4, 5, 6, 7, 8, 9])]),
    ("a task waits for it", &[&[], &[0]],
        &[Adopt(0), READ, TURN, Pends(0, 7), Wakes(&[0], &[7]), Ready(0, Outcome::Fail(1), &["01"])]),
    ("a canceled one", &[&[], &[], &[0]],
        &[Adopt(0), READ, TURN, Cancel(0), TURN, Turn(None, &[0]), Ready(0, Outcome::Fail(1), &["01"])]),
    ("a dropped one, and the close of its handle", &[&[], &[0], &[], &[0]],
        &[Adopt(0), READ, TURN, Drop(0), Turn(None, &[0]), Has(0, 0, 0, 0),
          Release(0, Released::Last), TURN, Closes(&[0]), TURN]),
];

// One row.
fn row(rt: &impl Abort, alloc: Global, (name, places, steps): Row) -> Result<(), Why> {
    match IoUringDriver::over(alloc, LateRing::new(alloc, places)) {
        Ok(driver) => {
            let mut bench = Bench::new(alloc, driver);
            run_row(rt, &mut bench, steps, name);
            Ok(())
        }
        Err(_) => Err(Why::OutOfMemory),
    }
}

#[test]
fn a_completion_comes_some_turns_later(rt: HostRuntime) -> Result<(), Fail> {
    for each in ROWS {
        row(&rt, rt.alloc(), *each)?;
    }
    Ok(())
}
