//! A finite map that chooses the keys of its values, which lie on pages of doubling size.
ghost use Rattle.std.specs.Prelude.{◌≡◌, ◌+◌, ◌-◌, ◌<◌, ◌≤◌, ◌%◌, ◌↔◌, max, vec_capacity, length, IfOk, OnOk, OnErr, IfErr, IsErrOf};
ghost use Rattle.std.specs.Prelude.{IsSome, IsTrue, None, Some, option_copied, OnSome, IfSome, IfNone};
ghost use Rattle.std.specs.Borrow.{sem};
ghost use Rattle.std.specs.FinMap as map;
ghost use Rattle.op_slots.specs.Pages.{page_of as page_by_rule, first_key as first_by_rule};
ghost use Rattle.op_slots.specs.Slots.{IsLive, AreKeysBelow, AreOnPages, MakesPage, GivesBackPage};
ghost use Rattle.op_slots.specs.InsertError.{IsRefused};
ghost use Rattle.op_slots.specs.Layout.{at, places_of, AreLaid, CanPut, Puts, Takes, LooksAtLast};
ghost use Rattle.op_slots.specs.Slab.{LendsValue};
ghost use Rattle.op_slots.specs.Ref.{slab_lent, slots_lent, key_lent, RestsIfNotLive};

mod entry;
mod pages;
mod ref_mut;
mod search;

use entry::{Entry, FreeList};
pub use pages::{NUM_PAGES, PAGE_INITIAL_SIZE, page_of};
use pages::{end_of, page_at};
pub use ref_mut::Ref;
use search::{NoPlace, make_place};
use std::alloc::Global;
use std::marker::Model;
use std::mem;
use thiserror::Error;

/// How many keys can be live, and the first number that is never a key (not in monoio, whose 26 pages have so many places too).
pub const MAX_LIVE: usize = 4294967232;

/// After so many removals the last page is given back, if it is empty and isn't page 0 (monoio: `COMPACT_INTERVAL`).
pub const COMPACT_INTERVAL: usize = 2048;

/// Memory ran out, and nothing changed (not in monoio, which aborts).
#[derive(Clone, Copy, Debug, PartialEq, Eq, Error)]
#[error("OutOfMemory")]
pub struct OutOfMemory;

/// Why a value was not put into a slab, with that value (not in monoio, which panics or aborts). The slab is as it was.
#[derive(Debug, Drop)]
pub enum InsertError<T> {
    /// `MAX_LIVE` keys are live.
    Full(T),
    /// Memory ran out. It doesn't come when there was room, and so not right after a `reserve_one` that was Ok.
    OutOfMemory(T),
}

/// Values at keys that the slab chooses, each below `MAX_LIVE` (monoio: `Slab`). A clause sees the map from keys to values, the room
/// for more values, the number of pages, and how many values were taken out since the last page was looked at.
///
/// A key lies on the page that `page_of` says. Page i has `64 << i` places, and its first key is `(64 << i) - 64`. Of a page the
/// place that was emptied last is used first, else the first that was never used.
#[derive(Debug, Drop)]
pub struct Slab<T> {
    // The places that were used, by key. There is memory for all places of the pages.
    entries: Vec<Entry<T>>,
    // For each page the places of it that are empty again.
    lists: [FreeList; NUM_PAGES],
    // How many pages there are.
    pages: usize,
    // How many keys are live, and with them how many values were taken out since the last page was looked at.
    entered: usize,
    // The page that a value was put on or taken out of last, or 0 if the last page was looked at since.
    first: usize,
    // How many values were taken out since then.
    removals: usize,
}

impl<T> Model for Slab<T> {
    ghost use Rattle.op_slots.specs.Slots.{Slots, slots_code};
    ghost use Rattle.op_slots.specs.Layout.{AreKept, slots_of};
    ghost use Rattle.op_slots.specs.Pages.{first_key};
    ghost use Rattle.std.specs.Prelude.{◌≤◌, vec_capacity};

    ghost Value = { Slots T };

    ghost coded = { slots_code T.code };

    ghost view = { λ s. slots_of s.entries.items s.pages s.removals };

    ghost invariant = { λ s. (first_key s.pages ≤ vec_capacity s.entries) ×
        AreKept s.entries.items s.lists s.pages s.entered s.first s.removals };
}

impl<T: Drop> Slab<T> {
    /// An empty slab, whose memory comes from `alloc` (monoio: `Slab::new`). It takes none yet.
    pub fn new(alloc: Global) -> Self
        ensures { result.values ≡ map.empty }
    {
        Slab {
            entries: Vec::new(alloc),
            lists: [FreeList { place: 0, count: 0 }; NUM_PAGES],
            pages: 0,
            entered: 0,
            first: 0,
            removals: 0,
        }
    }

    /// How many keys are live (monoio: `Slab::len`).
    pub fn len(&self) -> usize
        ensures count { result ≡ map.len self.now.values }
        ensures bound { result ≤ MAX_LIVE }
        ensures keys { AreKeysBelow self.now }
        ensures pages { AreOnPages self.now }
    {
        self.entered - self.removals
    }

    /// How many pages there are: page 0 and those behind it (not in monoio). A new slab has none.
    pub fn page_count(&self) -> usize
        ensures { result ≡ self.now.pages }
    {
        self.pages
    }

    /// Whether no key is live (not in monoio).
    pub fn is_empty(&self) -> bool
        ensures { IsTrue result ↔ (map.len self.now.values ≡ 0) }
    {
        self.len() == 0
    }

    /// Whether the key is live (not in monoio).
    pub fn contains(&self, key: usize) -> bool
        ensures { IsTrue result ↔ IsLive self.now key }
    {
        self.peek(key).is_some()
    }

    /// The value at a key, and None exactly when the key isn't live (not in monoio).
    pub fn peek(&self, key: usize) -> Option<&T>
        ensures value { option_copied result ≡ map.get self.now.values key }
        ensures below { OnSome result (key < MAX_LIVE) }
    {
        match self.entries.get(key) {
            Some(Entry::Occupied(value)) => Some(value),
            _ => None,
        }
    }

    // The value at a live key.
    fn value(&self, key: usize) -> &T
        requires { IsLive self.now key }
        ensures { map.get self.now.values key ≡ Some result.now }
    {
        self.peek(key).unwrap()
    }

    /// The value at a live key, to be changed (not in monoio). All else stays, the room too.
    pub fn value_mut(&mut self, key: usize) -> &mut T
        requires { IsLive self.old key }
        ensures* writes_back { sem 𝓛 (LendsValue T.row self.entry key result) }
        ensures value { map.get self.old.values key ≡ Some result.now }
        ensures below { key < MAX_LIVE }
    {
        self.entries[key].value_mut()
    }

    /// Puts a value at a key that wasn't live, and answers the key (monoio: `Slab::insert`).
    #[inline]
    pub fn insert(&mut self, val: T) -> Result<usize, InsertError<T>>
        ensures fresh { IfOk result (λ key. map.get self.old.values key ≡ None) }
        ensures below { IfOk result (λ key. key < MAX_LIVE) }
        ensures ok { IfOk result (λ key. self.new.values ≡ map.insert self.old.values key val) }

        ensures full { IsErrOf result (InsertError.Full val) ↔ (map.len self.old.values ≡ MAX_LIVE) }
        ensures refused { IfErr result (IsRefused self.old val) }
        ensures err { OnErr result (self.new ≡ self.old) }

        // The key lies on one of the pages, or on a new one behind a full one.
        ensures pages { IfOk result (λ key. self.new.pages ≡ max self.old.pages (page_by_rule key + 1)) }
        ensures made { MakesPage self.old self.new }
        ensures removals { self.new.removals ≡ self.old.removals }
    {
        match make_place(
            &mut self.entries,
            &self.lists,
            &mut self.pages,
            &mut self.first,
        ) {
            Ok(()) => {
                let key = put(&mut self.entries, &mut self.lists[self.first], val);
                self.entered += 1;
                Ok(key)
            }
            Err(NoPlace::Full) => Err(InsertError::Full(val)),
            Err(NoPlace::OutOfMemory) => Err(InsertError::OutOfMemory(val)),
        }
    }

    /// Takes the memory for one more value (not in monoio). The next `insert` doesn't answer `OutOfMemory`, if no call has changed the
    /// slab since. It is also an error when `MAX_LIVE` keys are live.
    pub fn reserve_one(&mut self) -> Result<(), OutOfMemory>
        ensures values { self.new.values ≡ self.old.values }
        ensures ok { OnOk result (0 < self.new.room) }
        ensures missing { OnErr result (self.old.room ≡ 0) }
        ensures err { OnErr result (self.new ≡ self.old) }

        ensures made { MakesPage self.old self.new }
        ensures removals { self.new.removals ≡ self.old.removals }
    {
        if make_place(
            &mut self.entries,
            &self.lists,
            &mut self.pages,
            &mut self.first,
        )
        .is_err()
        {
            return Err(OutOfMemory);
        }
        Ok(())
    }

    /// Lends the slot of a key, and answers None exactly when the key isn't live (monoio: `Slab::get`).
    pub fn get(&mut self, key: usize) -> Option<Ref<'_, T>>
        ensures found { IsSome result ↔ IsLive self.old key }
        ensures below { OnSome result (key < MAX_LIVE) }

        // The slot lends this slab, as it is. If there is none, the slab stays.
        ensures slot { IfSome result (λ slot. (slots_lent slot ≡ self.old) × (key_lent slot ≡ key)) }
        ensures same_slab { IfSome result (λ slot. (slab_lent slot).ghost_name ≡ self.entry.ghost_name) }
        ensures* rests { sem 𝓛 (RestsIfNotLive T.row self.entry result) }
    {
        if self.peek(key).is_some() {
            Some(Ref { slab: self, key })
        } else {
            None
        }
    }

    /// Takes out the value at a key, and answers None exactly when the key isn't live (monoio: `Slab::remove`). Each 2048th removal
    /// gives the last page back, if no key of it is live and it isn't page 0.
    pub fn remove(&mut self, key: usize) -> Option<T>
        ensures value { result ≡ map.get self.old.values key }
        ensures new { self.new.values ≡ map.remove self.old.values key }
        ensures none { IfNone result (self.new ≡ self.old) }
        ensures below { OnSome result (key < MAX_LIVE) }

        ensures counted { OnSome result (self.new.removals ≡ (self.old.removals + 1) % COMPACT_INTERVAL) }
        ensures given { OnSome result (GivesBackPage self.old self.new → self.new.pages + 1 ≡ self.old.pages) }
        ensures kept { OnSome result (¬ GivesBackPage self.old self.new → self.new.pages ≡ self.old.pages) }
    {
        if self.peek(key).is_none() {
            return None;
        }
        move_to(&mut self.first, key);
        let value = take_out(&mut self.entries, &mut self.lists[self.first], key);
        self.removals += 1;
        if self.removals < COMPACT_INTERVAL {
            return Some(value);
        }
        self.entered -= COMPACT_INTERVAL;
        self.removals = 0;
        self.first = 0;
        give_back(&mut self.entries, &mut self.lists, &mut self.pages);
        Some(value)
    }
}

// Puts a value into the place that the list names, else into the first one that was never used, and answers its key.
fn put<T: Drop>(entries: &mut Vec<Entry<T>>, list: &mut FreeList, val: T) -> usize
    requires { CanPut entries.old.items (vec_capacity entries.old) list.old }
    ensures put { Puts entries.old.items list.old result val entries.new.items list.new }
    ensures memory { vec_capacity entries.new ≡ vec_capacity entries.old }
{
    if list.count == 0 {
        let key = entries.len();
        entries.push_reserved(Entry::Occupied(val));
        return key;
    }
    let key = list.place as usize;
    match mem::replace(&mut entries[key], Entry::Occupied(val)) {
        Entry::Vacant(rest) => *list = rest,
        Entry::Occupied(_) => unreachable!(),
    }
    key
}

// Makes the page of a key the first one. Where it is already, nothing is written, and what follows goes by the number that was there,
// which is read before the key's page is found: so it waits for neither.
fn move_to(first: &mut usize, key: usize)
    requires { key < MAX_LIVE }
    ensures { first.new ≡ page_by_rule key }
{
    let before = *first;
    let page = page_at(key);
    if page != before {
        *first = page;
    }
}

// Takes the value at a key out, and puts its place before the others of the list of its page.
fn take_out<T: Drop>(entries: &mut Vec<Entry<T>>, list: &mut FreeList, key: usize) -> T
    requires held { IsSome (at (places_of entries.old.items) key) }
    requires few { length entries.old.items ≤ MAX_LIVE }
    requires count { list.old.count < MAX_LIVE }
    ensures takes { Takes entries.old.items list.old key result entries.new.items list.new }
    ensures memory { vec_capacity entries.new ≡ vec_capacity entries.old }
{
    match mem::replace(&mut entries[key], Entry::Vacant(*list)) {
        Entry::Occupied(value) => {
            list.place = key as u32;
            list.count += 1;
            value
        }
        Entry::Vacant(_) => unreachable!(),
    }
}

// Gives the last page back, if all its places are empty and it isn't page 0. Its memory is kept until another page goes.
#[cold]
fn give_back<T: Drop>(
    entries: &mut Vec<Entry<T>>,
    lists: &mut [FreeList; NUM_PAGES],
    pages: &mut usize,
)
    requires laid { AreLaid entries.old.items lists.old pages.old }
    requires memory { first_by_rule pages.old ≤ vec_capacity entries.old }
    ensures looks { LooksAtLast entries.old.items entries.new.items lists.old lists.new pages.old pages.new }
    ensures memory { first_by_rule pages.new ≤ vec_capacity entries.new }
{
    let count = *pages;
    if count <= 1 {
        return;
    }
    let begin = end_of(count - 1);
    if (lists[count - 1].count as usize) < entries.len() - begin {
        return;
    }
    entries.truncate(begin);
    entries.shrink_to(end_of(count));
    lists[count - 1] = FreeList { place: 0, count: 0 };
    *pages = count - 1;
}
