//! What is in flight, in order, found by place and by data word.
ghost use Rattle.std.specs.Prelude.{◌≡◌, ◌<◌, ◌≤◌, ◌+◌, [], ◌∷◌, ◌++◌, true, false, map, length, replicate, remove, OnOk, OnErr, slice_get};
ghost use Rattle.std.specs.Prelude.{vec_len, vec_capacity};
ghost use Rattle.machine.specs.Lists.{amended};
ghost use Rattle.ring_core.specs.Ring.{marked_by};
ghost use Rattle.ring_core.specs.Ranks.{kept, kept_first};
ghost use Rattle.std.specs.Option.{ForSome};
ghost use Rattle.ring_core.specs.Flights.{IsSpot, words_of};
ghost use Rattle.ring_core.specs.Links.{AreLinked};
ghost use Rattle.ring_core.specs.Bound.{unbound, fresh_flight, TakesBound};

use crate::entry::{Entry, Flight};
use crate::links::{Link, Links};
use crate::ranks::Ranks;
use rent_buf::OutOfMemory;
use std::alloc::Global;
use std::marker::Model;

// A place, and the slot of what is there.
#[derive(Clone, Copy, Debug)]
struct Spot {
    place: usize,
    slot: usize,
}

/// What is in flight, in order. Each entry has a slot, where it stays until it is done; the slot of a place is found by its
/// rank, and that of a data word by its link. Once all slots are used, what is in flight moves to the first ones: for that at
/// least half as many entries as there is room for were removed. More room leaves each entry on its slot. (not in monoio)
#[derive(Debug, Drop)]
pub struct Flights {
    // What stands on each slot, also on those that aren't kept any more.
    items: Vec<Flight>,
    ranks: Ranks,
    live: usize,
    links: Links,
    // Where the last look was, so that what was looked at is removed with no second search.
    looked: Option<Spot>,
    room: usize,
}

impl Model for Flights {
    ghost use Rattle.std.specs.Prelude.{◌≤◌, vec_len, vec_capacity};
    ghost use Rattle.ring_core.specs.Ranks.{kept};
    ghost use Rattle.std.specs.Option.{ForSome};
    ghost use Rattle.ring_core.specs.Flights.{InFlight, AreStored, IsSpot, words_of};
    ghost use Rattle.ring_core.specs.Links.{AreLinked};

    ghost Value = { InFlight };

    ghost view = { λ f. record { flights = kept f.ranks.flags f.items.items; room = f.room } };

    ghost invariant = { λ f. AreLinked f.links f.ranks.flags (words_of f.items.items) ×
        AreStored (vec_len f.items) f.live f.room (vec_capacity f.items) f.ranks ×
        ForSome f.looked (λ spot. IsSpot f.ranks.flags spot.place spot.slot) };
}

impl Flights {
    /// Nothing is in flight. It takes no memory.
    pub fn new(alloc: Global) -> Flights
        ensures { result ≡ record { flights = []; room = 0 } }
    {
        Flights {
            items: Vec::new(alloc),
            ranks: Ranks::new(alloc),
            live: 0,
            links: Links::new(alloc),
            looked: None,
            room: 0,
        }
    }

    /// How many are in flight.
    pub fn len(&self) -> usize
        ensures { result ≡ length self.now.flights }
    {
        self.live
    }

    /// What is in flight at a place.
    pub fn get(&self, place: usize) -> Option<Flight>
        ensures { result ≡ slice_get self.now.flights place }
    {
        if place >= self.live {
            return None;
        }
        Some(self.items[self.ranks.select(place)])
    }

    /// What is in flight at a place, which `remove` then finds at once.
    pub fn look(&mut self, place: usize) -> Option<Flight>
        ensures value { result ≡ slice_get self.old.flights place }
        ensures same { self.new ≡ self.old }
    {
        if place >= self.live {
            return None;
        }
        let slot = self.ranks.select(place);
        self.looked = Some(Spot { place, slot });
        Some(self.items[slot])
    }

    /// Takes the memory for so many in flight.
    pub fn reserve(&mut self, room: usize) -> Result<(), OutOfMemory>
        ensures ok { OnOk result (room ≤ self.new.room) }
        ensures flights { self.new.flights ≡ self.old.flights }
        ensures more { self.old.room ≤ self.new.room }
        ensures err { OnErr result (self.new ≡ self.old) }
    {
        if room <= self.room {
            return Ok(());
        }
        // The room doubles at least, so that what is in flight is moved seldom.
        let doubled = self.room.saturating_mul(2);
        self.grow(if room < doubled { doubled } else { room })
    }

    // Takes the memory for so many in flight, more than before.
    fn grow(&mut self, room: usize) -> Result<(), OutOfMemory>
        requires { self.old.room ≤ room }
        ensures ok { OnOk result (self.new ≡ record (self.old) { room = room }) }
        ensures err { OnErr result (self.new ≡ self.old) }
    {
        let slots = room.saturating_add(room / 2).saturating_add(64);
        self.items.reserve(slots.saturating_sub(self.items.len()))?;
        self.ranks.reserve(slots)?;
        // A slab of so many slots has fewer than twice as many places, and 64: so the key of each slot has its link.
        self.links
            .reserve(room.saturating_mul(2).saturating_add(64))?;
        self.room = room;
        Ok(())
    }

    /// An entry joins the end, unmarked, and bound or not. It takes no memory.
    pub fn push_reserved(&mut self, entry: Entry, bound: bool)
        requires { length self.old.flights < self.old.room }
        ensures { self.new ≡ record (self.old) { flights = self.old.flights ++ fresh_flight entry bound ∷ [] } }
    {
        self.looked = None;
        make_way(&mut self.items, &mut self.ranks, &mut self.links);
        self.items.push_reserved(Flight {
            entry,
            marked: false,
            bound,
        });
        link(&self.items, &mut self.ranks, &mut self.links);
        self.live += 1;
    }

    /// What is in flight with this data word is marked.
    pub fn mark(&mut self, word: u64)
        ensures { self.new ≡ record (self.old) { flights = map (marked_by word) self.old.flights } }
    {
        match self.links.find(word) {
            Link::Nowhere => {}
            Link::At(slot) => mark_at(&mut self.items, slot, word),
            Link::Anywhere => mark_all(&mut self.items, word),
        }
    }

    /// Takes what is at a place out.
    pub fn remove(&mut self, place: usize)
        requires { place < length self.old.flights }
        ensures { self.new ≡ record (self.old) { flights = remove self.old.flights place } }
    {
        let slot = slot_at(&self.ranks, self.looked, place);
        self.looked = None;
        self.ranks.release(slot);
        self.live -= 1;
        if self.live == 0 {
            self.items.clear();
            self.ranks.restart();
            self.links.forget();
        }
    }
}

impl Flights {
    /// What is in flight at a place is bound no more. Where there is nothing, nothing changes.
    pub fn unbind(&mut self, place: usize)
        ensures { self.new ≡ record (self.old) { flights = amended self.old.flights place unbound } }
    {
        if place >= self.live {
            return;
        }
        let slot = self.ranks.select(place);
        unbind_at(&mut self.items, slot);
    }

    /// Takes what is at a place out where it is bound: its entry; None exactly where it isn't, or nothing is there.
    pub fn take_bound(&mut self, place: usize) -> Option<Entry>
        ensures takes { TakesBound self.old.flights place self.new.flights result }
        ensures room { self.new.room ≡ self.old.room }
    {
        match self.look(place) {
            Some(flight) if flight.bound => {
                self.remove(place);
                Some(flight.entry)
            }
            _ => None,
        }
    }
}

// The slot of a place, which was looked at last, or is searched.
fn slot_at(ranks: &Ranks, looked: Option<Spot>, place: usize) -> usize
    requires some { place < kept_first (length ranks.now.flags) ranks.now.flags }
    requires looked { ForSome looked (λ spot. IsSpot ranks.now.flags spot.place spot.slot) }
    ensures { IsSpot ranks.now.flags place result }
{
    match looked {
        Some(spot) if spot.place == place => spot.slot,
        _ => ranks.select(place),
    }
}

// Makes way for one more slot: once all are used, what is kept moves to the first ones.
fn make_way(items: &mut Vec<Flight>, ranks: &mut Ranks, links: &mut Links)
    requires together { vec_len items.old ≡ length ranks.old.flags }
    requires room { kept_first (length ranks.old.flags) ranks.old.flags < ranks.old.room }
    requires linked { AreLinked links.old ranks.old.flags (words_of items.old.items) }
    ensures kept { kept ranks.new.flags items.new.items ≡ kept ranks.old.flags items.old.items }
    ensures together { vec_len items.new ≡ length ranks.new.flags }
    ensures way { vec_len items.new < ranks.new.room }
    ensures room { ranks.new.room ≡ ranks.old.room }
    ensures capacity { vec_capacity items.new ≡ vec_capacity items.old }
    ensures linked { AreLinked links.new ranks.new.flags (words_of items.new.items) }
{
    if items.len() < ranks.room() {
        return;
    }
    pack(items, ranks);
    ranks.clear();
    links.forget();
    register(items, ranks, links);
}

// What stands on kept slots moves to the first ones, in order.
fn pack(items: &mut Vec<Flight>, ranks: &Ranks)
    requires { vec_len items.old ≡ length ranks.now.flags }
    ensures items { items.new.items ≡ kept ranks.now.flags items.old.items }
    ensures capacity { vec_capacity items.new ≡ vec_capacity items.old }
{
    let mut count = 0;
    for slot in 0..items.len() {
        if !ranks.holds(slot) {
            continue;
        }
        items[count] = items[slot];
        count += 1;
    }
    items.truncate(count);
}

// Each item has a slot that is kept.
fn register(items: &Vec<Flight>, ranks: &mut Ranks, links: &mut Links)
    requires none { ranks.old.flags ≡ [] }
    requires room { vec_len items.now ≤ ranks.old.room }
    ensures flags { ranks.new.flags ≡ replicate (vec_len items.now) true }
    ensures room { ranks.new.room ≡ ranks.old.room }
    ensures linked { AreLinked links.new ranks.new.flags (words_of items.now.items) }
{
    for _ in 0..items.len() {
        link(items, ranks, links);
    }
}

// The first item that has no slot gets one, and its data word names it.
fn link(items: &Vec<Flight>, ranks: &mut Ranks, links: &mut Links)
    requires there { length ranks.old.flags < vec_len items.now }
    requires room { length ranks.old.flags < ranks.old.room }
    requires linked { AreLinked links.old ranks.old.flags (words_of items.now.items) }
    ensures flags { ranks.new.flags ≡ ranks.old.flags ++ true ∷ [] }
    ensures room { ranks.new.room ≡ ranks.old.room }
    ensures linked { AreLinked links.new ranks.new.flags (words_of items.now.items) }
{
    let slot = ranks.len();
    links.set(items, ranks, slot);
    ranks.push();
}

// What stands on a slot is marked where its data word is this. Where there is no such slot, nothing changes.
fn mark_at(items: &mut Vec<Flight>, slot: usize, word: u64)
    ensures items { items.new.items ≡ amended items.old.items slot (marked_by word) }
    ensures length { vec_len items.new ≡ vec_len items.old }
    ensures capacity { vec_capacity items.new ≡ vec_capacity items.old }
{
    if slot < items.len() {
        items[slot] = marked(items[slot], word);
    }
}

// What stands on a slot is bound no more.
fn unbind_at(items: &mut Vec<Flight>, slot: usize)
    requires { slot < length items.old.items }
    ensures items { items.new.items ≡ amended items.old.items slot unbound }
    ensures length { vec_len items.new ≡ vec_len items.old }
    ensures capacity { vec_capacity items.new ≡ vec_capacity items.old }
{
    items[slot] = free(items[slot]);
}

// An entry in flight that is bound no more.
fn free(flight: Flight) -> Flight
    ensures { result ≡ unbound flight }
{
    Flight {
        entry: flight.entry,
        marked: flight.marked,
        bound: false,
    }
}

// What stands on any slot is marked where its data word is this.
fn mark_all(items: &mut Vec<Flight>, word: u64)
    ensures items { items.new.items ≡ map (marked_by word) items.old.items }
    ensures length { vec_len items.new ≡ vec_len items.old }
    ensures capacity { vec_capacity items.new ≡ vec_capacity items.old }
{
    mark_each(items.as_mut_slice(), word);
}

// Each of these is marked where its data word is this.
fn mark_each(flights: &mut [Flight], word: u64)
    ensures { flights.new ≡ map (marked_by word) flights.old }
{
    for flight in flights.iter_mut() {
        *flight = marked(*flight, word);
    }
}

// One entry in flight, after a cancel of the data word.
fn marked(flight: Flight, word: u64) -> Flight
    ensures { result ≡ marked_by word flight }
{
    Flight {
        entry: flight.entry,
        marked: flight.marked || flight.entry.word == word,
        bound: flight.bound,
    }
}
