// The operations that wait on a handle, in the order in which they began to wait.
ghost use Rattle.std.specs.Prelude.{◌≡◌, ◌≤◌, ◌<◌, ◌+◌, ◌++◌, ◌∷◌, ◌^◌, [], None, true, false, is_some, map, filter, length};
ghost use Rattle.std.specs.Prelude.{OnOk, OnErr, IfSome, IfNone};
ghost use Rattle.std.specs.List.{list_any};
ghost use Rattle.std.specs.Vec.{vec_len, vec_capacity};
ghost use Rattle.std.specs.HashMap.{hash_map_len, spare};
ghost use Rattle.ready_driver.specs.declared.scheduled_io.Waiter.{Waiter};
ghost use Rattle.ready_driver.specs.declared.scheduled_io.wait_list.Entry.TheVariants.{Waits};
ghost use Rattle.ready_driver.specs.ScheduledIo.{waiter_of, kept, forgotten, is_met, taken, left, tasks_of, IsOnceEach};
ghost use Rattle.ready_driver.specs.WaitList.{number_of, live, is_live, is_taken, is_left, task_of};
ghost use Rattle.ready_driver.specs.WaitList.{IsAscendingFrom, IsInOrder, IsIndexed, IsBehind, HasGaps, IsSpot, IsPlace, IsAway};

use crate::ready::Ready;
use crate::scheduled_io::{Waiter, spots};
use rent_buf::OutOfMemory;
use std::alloc::Global;
use std::collections::HashMap;
use std::marker::Model;

/// An entry of a waiting list: an operation that waits, or the gap that one left, which keeps its number.
#[derive(Clone, Copy, Debug, PartialEq, Eq)]
pub(super) enum Entry {
    Waits(Waiter),
    Gap(u64),
}

impl Entry {
    // The number of its operation.
    fn number(&self) -> u64
        ensures { result ≡ number_of self.now }
    {
        match self {
            Entry::Waits(waiter) => waiter.serial,
            Entry::Gap(serial) => *serial,
        }
    }

    // The task of its operation; 0 of a gap.
    fn task(&self) -> u64
        ensures { result ≡ task_of self.now }
    {
        match self {
            Entry::Waits(waiter) => waiter.task,
            Entry::Gap(_) => 0,
        }
    }

    // It is no gap.
    fn is_live(&self) -> bool
        ensures { result ≡ is_live self.now }
    {
        match self {
            Entry::Waits(_) => true,
            Entry::Gap(_) => false,
        }
    }

    // Its operation waits for what these bits are.
    fn is_taken(&self, ready: Ready) -> bool
        ensures { result ≡ is_taken ready self.now }
    {
        match self {
            Entry::Waits(waiter) => waiter.is_met(ready),
            Entry::Gap(_) => false,
        }
    }

    // Its operation waits for something else.
    fn is_left(&self, ready: Ready) -> bool
        ensures { result ≡ is_left ready self.now }
    {
        match self {
            Entry::Waits(waiter) => !waiter.is_met(ready),
            Entry::Gap(_) => false,
        }
    }
}

/// What waits. An operation is taken out without a move of those behind it: it leaves a gap, and the gaps go once they are more than half
/// of the entries.
#[derive(Debug, Drop)]
pub(super) struct WaitList {
    entries: Vec<Entry>,
    // How many of the entries are gaps.
    gaps: usize,
    // The entries are in the order of their numbers. Then one is found by halves.
    in_order: bool,
    // The place of each operation that waits, by its number, where the entries aren't in order.
    places: HashMap<u64, usize>,
}

impl Model for WaitList {
    ghost use Rattle.std.specs.Prelude.{◌≡◌, ◌-◌, ◌+◌, false};
    ghost use Rattle.std.specs.Vec.{vec_len, vec_capacity};
    ghost use Rattle.std.specs.HashMap.{hash_map_len, spare};
    ghost use Rattle.ready_driver.specs.WaitList.{Line, live, spare_of, IsInOrder, IsIndexed, HasGaps};

    ghost Value = { Line };

    ghost view = { λ w. record {
      waiters = live w.entries.items;
      spare = spare_of w.in_order w.entries.items (vec_capacity w.entries - vec_len w.entries) (hash_map_len w.places + spare w.places);
    } };

    ghost invariant = { λ w. HasGaps w.gaps w.entries.items × IsInOrder w.in_order w.entries.items
        × (w.in_order ≡ false → IsIndexed w.places w.entries.items) };
}

impl WaitList {
    // Nothing waits. It takes no memory.
    pub(super) fn new(alloc: Global) -> WaitList
        ensures { result.waiters ≡ [] }
    {
        WaitList {
            entries: Vec::new(alloc),
            gaps: 0,
            in_order: true,
            places: HashMap::new(alloc),
        }
    }

    // The allocator of its memory.
    pub(super) fn alloc(&self) -> Global {
        *self.entries.allocator()
    }

    // How many operations wait.
    pub(super) fn len(&self) -> usize
        ensures value { result ≡ length self.now.waiters }
        ensures few { result < 2 ^ 63 }
    {
        self.entries.len() - self.gaps
    }

    // What an operation waits with, if it waits.
    pub(super) fn find(&self, serial: u64) -> Option<Waiter>
        ensures { result ≡ waiter_of self.now.waiters serial }
    {
        match place_of(&self.entries, self.in_order, &self.places, serial) {
            Some((_, waiter)) => Some(waiter),
            None => None,
        }
    }

    // Reserves memory for one operation more. What waits stays.
    pub(super) fn reserve(&mut self) -> Result<(), OutOfMemory>
        ensures same { self.new.waiters ≡ self.old.waiters }
        ensures ok { OnOk result (0 < self.new.spare) }
    {
        self.entries.reserve(1)?;
        if self.in_order && self.entries.is_empty() {
            return Ok(());
        }
        let count = self.len() + 1;
        spots::reserve(&mut self.places, count)
    }

    // An operation that waits does so with this from now on, at its place. One that doesn't wait is answered with false.
    pub(super) fn renew(&mut self, waiter: Waiter) -> bool
        ensures there { result ≡ is_some (waiter_of self.old.waiters waiter.serial) }
        ensures renews { result ≡ true → self.new.waiters ≡ kept self.old.waiters waiter }
        ensures same { result ≡ false → self.new ≡ self.old }
    {
        let Some((at, _)) = place_of(&self.entries, self.in_order, &self.places, waiter.serial)
        else {
            return false;
        };
        self.entries[at] = Entry::Waits(waiter);
        true
    }

    // An operation that doesn't wait does from now on, behind all others.
    pub(super) fn join(&mut self, waiter: Waiter) -> Result<(), OutOfMemory>
        requires away { waiter_of self.old.waiters waiter.serial ≡ None }
        requires once { IsOnceEach self.old.waiters }
        ensures ok { OnOk result (self.new.waiters ≡ kept self.old.waiters waiter) }
        ensures err { OnErr result (self.new.waiters ≡ self.old.waiters) }
    {
        self.reserve()?;
        self.join_reserved(waiter);
        Ok(())
    }

    // The same, in memory that was reserved.
    #[tactic(auto, using(crate::proofs::Gaps::live_kept))]
    pub(super) fn join_reserved(&mut self, waiter: Waiter)
        requires away { waiter_of self.old.waiters waiter.serial ≡ None }
        requires once { IsOnceEach self.old.waiters }
        requires room { 0 < self.old.spare }
        ensures { self.new.waiters ≡ kept self.old.waiters waiter }
    {
        let stays = stays_in_order(&self.entries, self.in_order, waiter.serial);
        join_places(
            &self.entries,
            self.in_order,
            stays,
            &mut self.places,
            waiter.serial,
        );
        self.entries.push_reserved(Entry::Waits(waiter));
        self.in_order = stays;
    }

    // An operation waits no longer: answers what it waited with, or None exactly if it didn't wait.
    #[tactic(auto, using(crate::proofs::Ordered::order_put))]
    pub(super) fn take_out(&mut self, serial: u64) -> Option<Waiter>
        requires { IsOnceEach self.old.waiters }
        ensures value { result ≡ waiter_of self.old.waiters serial }
        ensures rest { self.new.waiters ≡ forgotten self.old.waiters serial }
    {
        let Some((at, waiter)) = place_of(&self.entries, self.in_order, &self.places, serial) else {
            return None;
        };
        spots::leave(self.in_order, &mut self.places, serial);
        self.entries[at] = Entry::Gap(serial);
        self.gaps += 1;
        squeeze(
            &mut self.entries,
            &mut self.gaps,
            &mut self.in_order,
            &mut self.places,
        );
        Some(waiter)
    }

    // An operation waits for what these bits are.
    pub(super) fn is_any_met(&self, ready: Ready) -> bool
        ensures { result ≡ list_any (is_met ready) self.now.waiters }
    {
        is_any_taken(&self.entries, ready)
    }

    // The task of each operation that waits for what these bits are joins a list, in order. That has memory for them.
    pub(super) fn name_tasks(&self, ready: Ready, tasks: &mut Vec<u64>)
        requires { vec_len tasks.old + length (taken ready self.now.waiters) ≤ vec_capacity tasks.old }
        ensures tasks { tasks.new.items ≡ tasks.old.items ++ tasks_of (taken ready self.now.waiters) }
        ensures capacity { vec_capacity tasks.new ≡ vec_capacity tasks.old }
    {
        name_taken(&self.entries, ready, tasks);
    }

    // Leaves the operations that wait for something else.
    pub(super) fn leave(&mut self, ready: Ready)
        requires { IsOnceEach self.old.waiters }
        ensures { self.new.waiters ≡ left ready self.old.waiters }
    {
        drop_taken(&mut self.entries, ready);
        self.gaps = 0;
        let order = spots::settle(&self.entries, self.in_order, &mut self.places);
        self.in_order = order;
    }
}

// Takes the gaps out, where they are more than half of the entries. So a walk comes once in as many calls as it looks at entries.
fn squeeze(
    entries: &mut Vec<Entry>,
    gaps: &mut usize,
    in_order: &mut bool,
    places: &mut HashMap<u64, usize>,
)
    requires counted { HasGaps gaps.old entries.old.items }
    requires order { IsInOrder in_order.old entries.old.items }
    requires index { in_order.old ≡ false → IsIndexed places.old entries.old.items }
    requires once { IsOnceEach (live entries.old.items) }
    ensures same { live entries.new.items ≡ live entries.old.items }
    ensures counted { HasGaps gaps.new entries.new.items }
    ensures order { IsInOrder in_order.new entries.new.items }
    ensures index { in_order.new ≡ false → IsIndexed places.new entries.new.items }
{
    if *gaps <= entries.len() / 2 {
        return;
    }
    drop_gaps(entries);
    *gaps = 0;
    *in_order = spots::settle(entries, *in_order, places);
}

// The number of an operation is above that of the last entry.
fn is_behind(entries: &[Entry], serial: u64) -> bool
    ensures value { result ≡ true → IsBehind entries.now serial }
    ensures none { entries.now ≡ [] → result ≡ true }
{
    let count = entries.len();
    count == 0 || entries[count - 1].number() < serial
}

// Where entries are in order, so they are with this operation behind them.
fn stays_in_order(entries: &[Entry], in_order: bool, serial: u64) -> bool
    ensures value { result ≡ true → (in_order ≡ true) × IsBehind entries.now serial }
    ensures none { in_order ≡ true → entries.now ≡ [] → result ≡ true }
{
    in_order && is_behind(entries, serial)
}

// Where the entries won't be in order with an operation behind them, it gets the place behind them.
fn join_places(
    entries: &[Entry],
    in_order: bool,
    stays: bool,
    places: &mut HashMap<u64, usize>,
    serial: u64,
)
    requires index { in_order ≡ false → IsIndexed places.old entries.now }
    requires once { IsOnceEach (live entries.now) }
    requires away { IsAway entries.now serial }
    requires room { stays ≡ false → length (live entries.now) + 1 ≤ hash_map_len places.old + spare places.old }
    ensures { stays ≡ false → (w : Waiter) → w.serial ≡ serial → IsIndexed places.new (entries.now ++ Waits w ∷ []) }
{
    if !stays {
        spots::join(entries, in_order, places, serial);
    }
}

// The place of an operation that waits, and what it waits with. It looks at few of the entries.
fn place_of(
    entries: &[Entry],
    in_order: bool,
    places: &HashMap<u64, usize>,
    serial: u64,
) -> Option<(usize, Waiter)>
    requires order { IsInOrder in_order entries.now }
    requires index { in_order ≡ false → IsIndexed places.now entries.now }
    ensures some { IfSome result (λ place. IsPlace entries.now serial place.0 place.1) }
    ensures none { IfNone result (IsAway entries.now serial) }
{
    let at = spot_of(entries, in_order, places, serial)?;
    match entries[at] {
        Entry::Waits(waiter) => Some((at, waiter)),
        Entry::Gap(_) => None,
    }
}

// Where an operation waits, if it does: an entry there that is a gap says that it doesn't.
fn spot_of(
    entries: &[Entry],
    in_order: bool,
    places: &HashMap<u64, usize>,
    serial: u64,
) -> Option<usize>
    requires order { IsInOrder in_order entries.now }
    requires index { in_order ≡ false → IsIndexed places.now entries.now }
    ensures some { IfSome result (λ at. IsSpot entries.now serial at) }
    ensures none { IfNone result (IsAway entries.now serial) }
{
    if in_order {
        spot_by_halves(entries, serial)
    } else {
        spots::spot_of(entries, places, serial)
    }
}

// The same, where the entries are in order.
fn spot_by_halves(entries: &[Entry], serial: u64) -> Option<usize>
    requires { IsAscendingFrom 0 entries.now }
    ensures some { IfSome result (λ at. IsSpot entries.now serial at) }
    ensures none { IfNone result (IsAway entries.now serial) }
{
    match entries.binary_search_by_key(&serial, |entry| entry.number()) {
        Ok(at) => Some(at),
        Err(_) => None,
    }
}

// These bits take an entry.
fn is_any_taken(entries: &[Entry], ready: Ready) -> bool
    ensures { result ≡ list_any (is_taken ready) entries.now }
{
    entries.iter().any(|entry| entry.is_taken(ready))
}

// Leaves the entries that are no gaps.
fn drop_gaps(entries: &mut Vec<Entry>)
    ensures { entries.new.items ≡ filter is_live entries.old.items }
{
    entries.retain(|entry| entry.is_live());
}

// Leaves the entries that these bits leave.
fn drop_taken(entries: &mut Vec<Entry>, ready: Ready)
    ensures { entries.new.items ≡ filter (is_left ready) entries.old.items }
{
    entries.retain(|entry| entry.is_left(ready));
}

// The task of each entry that these bits take joins a list, in order. That has memory for them.
fn name_taken(entries: &[Entry], ready: Ready, tasks: &mut Vec<u64>)
    requires { vec_len tasks.old + length (filter (is_taken ready) entries.now) ≤ vec_capacity tasks.old }
    ensures tasks { tasks.new.items ≡ tasks.old.items ++ map task_of (filter (is_taken ready) entries.now) }
    ensures capacity { vec_capacity tasks.new ≡ vec_capacity tasks.old }
{
    for entry in entries {
        if entry.is_taken(ready) {
            tasks.push_reserved(entry.task());
        }
    }
}
