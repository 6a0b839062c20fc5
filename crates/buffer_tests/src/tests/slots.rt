// Which places a slab uses again and which pages it has, and what an operation goes through.
use crate::tests::why::{Why, ended, is_like};
use op_slots::slab::{COMPACT_INTERVAL, page_of};
use op_slots::{AfterComplete, AfterDrop, AfterPoll, Lifecycle, OutOfMemory, Slab};
use std::alloc::Global;
use std::test::Fail;

// A slab of numbers: each call makes one call of it, and answers a plain value.
trait Slots {
    // Takes memory for one value.
    fn reserve_one(&mut self) -> Result<(), Why>;

    // Puts a value in, and answers its key.
    fn insert(&mut self, value: u64) -> Result<usize, Why>;

    // The value of a key.
    fn peek(&self, key: usize) -> Option<u64>;

    // The same, by the slot that is lent.
    fn get(&mut self, key: usize) -> Option<u64>;

    // Changes the value of a key by the slot that is lent, and takes it out.
    fn change_and_remove(&mut self, key: usize, value: u64) -> Option<u64>;

    // Changes the value of a live key.
    fn change(&mut self, key: usize, value: u64) -> Result<(), Why>;

    // Takes a value out.
    fn remove(&mut self, key: usize) -> Option<u64>;

    // Whether a key is live.
    fn contains(&self, key: usize) -> bool;

    // How many keys are live, whether none is, and how many pages there are.
    fn counts(&self) -> (usize, bool, usize);
}

impl Slots for Slab<u64> {
    fn reserve_one(&mut self) -> Result<(), Why> {
        match Slab::reserve_one(self) {
            Ok(()) => Ok(()),
            Err(_) => Err(Why::OutOfMemory),
        }
    }

    fn insert(&mut self, value: u64) -> Result<usize, Why> {
        match Slab::insert(self, value) {
            Ok(key) => Ok(key),
            Err(_) => Err(Why::OutOfMemory),
        }
    }

    fn peek(&self, key: usize) -> Option<u64> {
        Slab::peek(self, key).copied()
    }

    fn get(&mut self, key: usize) -> Option<u64> {
        let Some(slot) = Slab::get(self, key) else {
            return None;
        };
        Some(*slot.as_ref())
    }

    fn change_and_remove(&mut self, key: usize, value: u64) -> Option<u64> {
        let Some(mut slot) = Slab::get(self, key) else {
            return None;
        };
        *slot.as_mut() = value;
        Some(slot.remove())
    }

    fn change(&mut self, key: usize, value: u64) -> Result<(), Why> {
        if Slab::peek(self, key).is_none() {
            return Err(Why::Unmet);
        }
        *self.value_mut(key) = value;
        Ok(())
    }

    fn remove(&mut self, key: usize) -> Option<u64> {
        Slab::remove(self, key)
    }

    fn contains(&self, key: usize) -> bool {
        Slab::contains(self, key)
    }

    fn counts(&self) -> (usize, bool, usize) {
        (self.len(), self.is_empty(), self.page_count())
    }
}

// One step of a row, and what it is to answer.
#[derive(Clone, Copy)]
enum Step {
    // Memory is taken for one value.
    Reserve,
    // A value is put in, at this key.
    Insert(u64, usize),
    // So many values, the numbers from 0 on, each at its own number as a key.
    Fill(u64),
    // The value of a key.
    Peek(usize, Option<u64>),
    // The same, by the slot that is lent.
    Get(usize, Option<u64>),
    // A slot is changed to a value, and emptied.
    Empty(usize, u64),
    // A value is changed.
    Change(usize, u64),
    // A value is taken out.
    Remove(usize, Option<u64>),
    // Whether a key is live.
    Contains(usize, bool),
    // So many keys are live.
    Len(usize),
    // There are so many pages.
    Pages(usize),
    // So often a value is put in, at this key, and taken out.
    Turns(usize, usize),
}

use Step::{Change, Contains, Empty, Fill, Get, Insert, Len, Pages, Peek, Remove, Reserve, Turns};

// A row: its name, and its steps over a new slab.
type Row = (&'static str, &'static [Step]);

#[rattlefmt::skip]
const ROWS: &[Row] = &[
    ("one value goes in and out",
        &[Pages(0), Reserve, Pages(1), Insert(10, 0), Peek(0, Some(10)), Get(0, Some(10)), Remove(0, Some(10)), Get(0, None),
          Remove(0, None), Len(0)]),
    ("a slot is changed and emptied",
        &[Insert(1, 0), Insert(2, 1), Empty(1, 3), Change(0, 4), Remove(0, Some(4)), Len(0)]),
    ("the place that was emptied last is used first",
        &[Fill(4), Remove(2, Some(2)), Remove(0, Some(0)), Contains(0, false), Insert(5, 0), Insert(6, 2), Insert(7, 4),
          Contains(4, true)]),
    // The page of the last removal is used first, and the search begins at page 0 again after so many removals.
    ("a search begins at page 0 again",
        &[Fill(65), Remove(0, Some(0)), Remove(64, Some(64)), Turns(COMPACT_INTERVAL - 3, 64), Insert(2, 64), Remove(64, Some(2)),
          Insert(3, 0)]),
];

// A value is put in, at this key.
fn inserts<S: Slots>(slab: &mut S, value: u64, want: usize) -> Result<(), Why> {
    is_like(slab.insert(value)? == want)
}

// The numbers from 0 on are put in, each at its own number as a key.
fn fills<S: Slots>(slab: &mut S, count: u64) -> Result<(), Why> {
    for value in 0..count {
        inserts(slab, value, value as usize)?;
    }
    Ok(())
}

// A value is put in, at this key, and taken out, so often.
fn turns<S: Slots>(slab: &mut S, count: usize, key: usize) -> Result<(), Why> {
    for _ in 0..count {
        inserts(slab, 1, key)?;
        is_like(slab.remove(key).is_some())?;
    }
    Ok(())
}

// Makes a step.
fn make<S: Slots>(slab: &mut S, step: Step) -> Result<(), Why> {
    match step {
        Step::Reserve => slab.reserve_one(),
        Step::Insert(value, key) => inserts(slab, value, key),
        Step::Fill(count) => fills(slab, count),
        Step::Peek(key, want) => is_like(slab.peek(key) == want),
        Step::Get(key, want) => is_like(slab.get(key) == want),
        Step::Empty(key, value) => is_like(slab.change_and_remove(key, value) == Some(value)),
        Step::Change(key, value) => slab.change(key, value),
        Step::Remove(key, want) => is_like(slab.remove(key) == want),
        Step::Contains(key, want) => is_like(slab.contains(key) == want),
        Step::Len(count) => is_like(slab.counts().0 == count && slab.counts().1 == (count == 0)),
        Step::Pages(count) => is_like(slab.counts().2 == count),
        Step::Turns(count, key) => turns(slab, count, key),
    }
}

// Makes steps in order. It answers the place of the first one that isn't as it says, and why; None: each is.
fn run<S: Slots>(slab: &mut S, steps: &[Step]) -> Option<(usize, Why)> {
    for i in 0..steps.len() {
        if let Err(why) = make(slab, steps[i]) {
            return Some((i, why));
        }
    }
    None
}

// The steps of a row over a new slab.
fn run_new(alloc: Global, steps: &[Step]) -> Option<(usize, Why)> {
    let mut slab: Slab<u64> = Slab::new(alloc);
    run(&mut slab, steps)
}

#[test]
fn places_are_used_as_they_should(rt: HostRuntime) -> Result<(), Fail> {
    for &(name, steps) in ROWS {
        assert_eq!(rt; run_new(rt.alloc(), steps), None, "in the row {name:?}");
    }
    Ok(())
}

// Puts numbers in from one on, so many, and answers their keys in order.
fn put_in<S: Slots>(
    alloc: Global,
    slab: &mut S,
    first: u64,
    count: u64,
) -> Result<Vec<usize>, Why> {
    let mut keys = Vec::new(alloc);
    for i in 0..count {
        keys.push(slab.insert(first.wrapping_add(i))?)?;
    }
    Ok(keys)
}

// The keys are below this, and have the numbers from one on.
fn have<S: Slots>(slab: &mut S, keys: &[usize], below: usize, first: u64) -> Result<(), Why> {
    let mut want = first;
    for key in keys {
        is_like(*key < below && slab.get(*key) == Some(want))?;
        want = want.wrapping_add(1);
    }
    Ok(())
}

// Takes out the numbers from one on. No key is live afterwards.
fn take_out<S: Slots>(slab: &mut S, keys: &[usize], first: u64) -> Result<(), Why> {
    let mut want = first;
    for key in keys {
        is_like(slab.remove(*key) == Some(want))?;
        is_like(slab.get(*key).is_none())?;
        want = want.wrapping_add(1);
    }
    is_like((slab.counts().0, slab.counts().1) == (0, true))
}

// Ten numbers go in and out ten times, always at the ten lowest keys.
fn ten_times<S: Slots>(alloc: Global, slab: &mut S) -> Result<(), Why> {
    for round in 0..10u64 {
        let keys = put_in(alloc, slab, 10 * round, 10)?;
        have(slab, keys.as_slice(), 10, 10 * round)?;
        take_out(slab, keys.as_slice(), 10 * round)?;
    }
    Ok(())
}

// A million numbers go in and out.
fn a_million<S: Slots>(alloc: Global, slab: &mut S) -> Result<(), Why> {
    let keys = put_in(alloc, slab, 0, 1_000_000)?;
    is_like(slab.counts().0 == 1_000_000)?;
    is_like(slab.get(usize::MAX).is_none())?;
    take_out(slab, keys.as_slice(), 0)
}

#[test]
fn many_values_go_in_and_out(rt: HostRuntime) -> Result<(), Fail> {
    let mut slab: Slab<u64> = Slab::new(rt.alloc());
    ended(
        &rt,
        "ten values ten times",
        ten_times(rt.alloc(), &mut slab),
    );
    let mut slab: Slab<u64> = Slab::new(rt.alloc());
    ended(&rt, "a million values", a_million(rt.alloc(), &mut slab));
    Ok(())
}

// Each key that is on the edge of a page, and its page.
#[rattlefmt::skip]
const PAGES: [(usize, usize); 8] = [
    (0, 0), (63, 0), (64, 1), (191, 1), (192, 2), (2147483583, 24), (2147483584, 25), (usize::MAX, 25),
];

// The page of a key.
fn page(key: usize) -> usize {
    page_of(key)
}

#[test]
fn pages_begin_where_they_should(rt: HostRuntime) -> Result<(), Fail> {
    for (key, want) in PAGES {
        assert_eq!(rt; page(key), want, "of key {key}");
    }
    let text = format!(in rt.alloc(); "{OutOfMemory}")?;
    assert_eq!(rt; text.as_str(), "OutOfMemory");
    Ok(())
}

// What is done with an operation, and what it answers.
#[derive(Clone, Copy)]
enum Ask {
    // A task asks for the result.
    Poll(u64, AfterPoll),
    // It completes with the result 10.
    Complete(AfterComplete),
    // Its owner drops it.
    DropOwner(AfterDrop),
    // It is completed with the result 10.
    IsCompleted,
}

// Where an operation begins.
#[derive(Clone, Copy)]
enum Begin {
    Submitted,
    // The task 7 waits.
    Waiting,
    // Completed with the result 10.
    Completed,
}

// A row: its name, where an operation begins, and what is done with it.
type LifeRow = (&'static str, Begin, &'static [Ask]);

#[rattlefmt::skip]
const LIVES: &[LifeRow] = &[
    ("the task that asked last is woken", Begin::Submitted,
        &[Ask::Poll(6, AfterPoll::Pending), Ask::Poll(7, AfterPoll::Pending), Ask::Complete(AfterComplete::Wake(7)),
          Ask::Poll(8, AfterPoll::Take), Ask::IsCompleted]),
    ("what is dropped early is freed at its completion", Begin::Waiting,
        &[Ask::DropOwner(AfterDrop::Left), Ask::Complete(AfterComplete::Free)]),
    ("what is dropped late is freed at once", Begin::Completed, &[Ask::DropOwner(AfterDrop::Free)]),
];

fn begun(begin: Begin) -> Lifecycle<u64> {
    match begin {
        Begin::Submitted => Lifecycle::Submitted,
        Begin::Waiting => Lifecycle::Waiting(7),
        Begin::Completed => Lifecycle::Completed(10),
    }
}

fn poll(life: &mut Lifecycle<u64>, task: u64, want: AfterPoll) -> Result<(), Why> {
    match life {
        Lifecycle::Ignored => Err(Why::Unmet),
        Lifecycle::Submitted | Lifecycle::Waiting(_) | Lifecycle::Completed(_) => {
            is_like(life.poll(task) == want)
        }
    }
}

fn complete(life: &mut Lifecycle<u64>, want: AfterComplete) -> Result<(), Why> {
    match life {
        Lifecycle::Completed(_) => Err(Why::Unmet),
        Lifecycle::Submitted | Lifecycle::Waiting(_) | Lifecycle::Ignored => {
            is_like(life.complete(10) == want)
        }
    }
}

fn drop_owner(life: &mut Lifecycle<u64>, want: AfterDrop) -> Result<(), Why> {
    match life {
        Lifecycle::Ignored => Err(Why::Unmet),
        Lifecycle::Submitted | Lifecycle::Waiting(_) | Lifecycle::Completed(_) => {
            is_like(life.drop_owner() == want)
        }
    }
}

// Does one thing with an operation.
fn make_ask(life: &mut Lifecycle<u64>, one: Ask) -> Result<(), Why> {
    match one {
        Ask::Poll(task, want) => poll(life, task, want),
        Ask::Complete(want) => complete(life, want),
        Ask::DropOwner(want) => drop_owner(life, want),
        Ask::IsCompleted => is_like(matches!(life, Lifecycle::Completed(10))),
    }
}

// One row.
fn live((_, begin, asks): LifeRow) -> Result<(), Why> {
    let mut life = begun(begin);
    for one in asks {
        make_ask(&mut life, *one)?;
    }
    Ok(())
}

#[test]
fn an_operation_goes_through_its_life(rt: HostRuntime) {
    for each in LIVES {
        ended(&rt, each.0, live(*each));
    }
}
