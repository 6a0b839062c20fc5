//! The ring in memory.
ghost use Rattle.std.specs.Prelude.{◌≡◌, ◌<◌, ◌≤◌, ◌+◌, [], ◌++◌, length, take, drop, Some, true, IfSome, OnOk, OnErr};
ghost use Rattle.std.specs.VecDeque.{deque_len, deque_capacity};
ghost use Rattle.std.specs.Borrow.{sem};
ghost use Rattle.ring_core.specs.Ring.{flying_after_entry, flying_after, done_after_entry, done_after, binds_next};
ghost use Rattle.ring_core.specs.Bound.{is_bound, HasLeader, broken, bound_front, behind_bound, left_behind, taken_along};
ghost use Rattle.ring_core.specs.MemRing.{fresh_ring, entry_at, completion_of, completed, FinishesFor, ExecutesFor};
ghost use Rattle.ring_core.specs.Bodies.{CarriesOutFor};
ghost use Rattle.ring_core.specs.Lends.{lends_world};
ghost use Rattle.ring_core.specs.FaultRing.{with_completion};

use crate::entry::{Body, Entry, Flight};
use crate::flights::Flights;
use crate::ring::{EnterError, Push, Ring};
use crate::room::make_room;
use machine::{
    CANCELED, Completion, MOST_HANDLES, Outcome, Payloads, RunError, Told, World, append_first,
    close_outcome, copy_first,
};
use rent_buf::{ByteList, OutOfMemory};
use std::alloc::Global;
use std::collections::VecDeque;
use std::marker::Model;
use std::mem;
use thiserror::Error;

/// Why nothing was executed. The ring is as it was.
#[derive(Clone, Copy, Debug, PartialEq, Eq, Error)]
pub enum ExecRefusal {
    /// The place isn't below the length of the in-flight list.
    #[error("NotFlying")]
    NotFlying,
    /// The entry at the place is bound: it waits for the one directly before it.
    #[error("Waiting")]
    Waiting,
    /// The outcome isn't allowed to the entry at the place.
    #[error("BadOutcome")]
    BadOutcome,
    /// Memory ran out.
    #[error("OutOfMemory")]
    OutOfMemory,
}

/// A ring in memory: three lists and a world of handles. It never fails and is never busy. (not in monoio)
#[derive(Debug, Drop)]
pub struct MemRing {
    entries: u32,
    queue: VecDeque<Entry>,
    flying: Flights,
    done: VecDeque<Completion>,
    spare: usize,
    world: World,
}

impl Model for MemRing {
    ghost use Rattle.std.specs.Prelude.{length};
    ghost use Rattle.std.specs.VecDeque.{deque_len, deque_capacity};
    ghost use Rattle.ring_core.specs.Ring.{RingView};
    ghost use Rattle.ring_core.specs.Reserved.{RingHasRoom};
    ghost use Rattle.ring_core.specs.Bound.{AreLed};
    ghost use Rattle.std.specs.Prelude.{false};

    ghost Value = { RingView };

    ghost view = { λ r. record {
      capacity = r.entries;
      queue = r.queue.items;
      flying = r.flying.flights;
      done = r.done.items;
      world = r.world;
      spare = r.spare;
      faults = 0;
      busies = 0;
      to_come = 0;
    } };

    ghost invariant = { λ r. RingHasRoom r.entries (deque_len r.queue) (length r.flying.flights) (deque_len r.done) r.spare
        (deque_capacity r.queue) r.flying.room (deque_capacity r.done) × AreLed false r.flying.flights };
}

impl MemRing {
    /// An empty ring whose queue holds `entries` entries. It takes no memory.
    pub fn new(alloc: Global, entries: u32) -> MemRing
        requires { 0 < entries }
        ensures { result ≡ fresh_ring entries }
    {
        MemRing {
            entries,
            queue: VecDeque::new(alloc),
            flying: Flights::new(alloc),
            done: VecDeque::new(alloc),
            spare: 0,
            world: World::new(alloc),
        }
    }

    /// The handles of the ring, to look at. (not in monoio)
    pub fn handles(&self) -> &World
        ensures { result.now ≡ self.now.world }
    {
        &self.world
    }

    /// The entry that is in flight at a place; None exactly when the place isn't below the length of the in-flight list.
    pub fn flying_at(&self, place: usize) -> Option<Entry>
        ensures { result ≡ entry_at self.now.flying place }
    {
        match self.flying.get(place) {
            Some(flight) => Some(flight.entry),
            None => None,
        }
    }

    /// Whether the entry in flight at a place is bound: it waits for the linked call directly before it. (not in monoio)
    pub fn bound(&self, place: usize) -> bool
        requires { place < length self.now.flying }
        ensures value { result ≡ is_bound self.now.flying place }
        ensures led { result ≡ true → HasLeader self.now.flying place }
    {
        match self.flying.get(place) {
            Some(flight) => flight.bound,
            None => false,
        }
    }

    /// The handles of the ring, mutably.
    pub fn world(&mut self) -> &mut World
        ensures* writes_back { sem 𝓛 (lends_world self.entry result) }
        ensures value { result.now ≡ self.old.world }
    {
        &mut self.world
    }

    /// Executes what is in flight at a place with a reported outcome: its bytes move between its handle and the payload of
    /// its data word, and it joins the completions; its own is returned. What comes is stored, what is sent is copied
    /// once; an error stores nothing. After an error those directly behind it that are bound end too, in order, each with
    /// `CANCELED`; after any other outcome the next one is bound no more. `NotFlying` comes exactly when the place isn't below
    /// the length of the in-flight list, else `Waiting` exactly when the entry is bound, else `BadOutcome` exactly when the
    /// outcome isn't allowed, else `OutOfMemory` only where bytes are sent, or where storing those that came takes memory. After
    /// an error of the call the ring and the payloads are as they were. (not in monoio)
    pub fn execute<P: Payloads>(
        &mut self,
        place: usize,
        told: Told,
        payloads: &mut P,
    ) -> Result<Completion, ExecRefusal>
        ensures executes { ExecutesFor P.offered P.stores P.takes_memory self.old place told self.new payloads.old payloads.new result }
        ensures few { length self.old.world ≤ MOST_HANDLES → length self.new.world ≤ MOST_HANDLES }
    {
        let Some(flight) = self.flying.look(place) else {
            return Err(ExecRefusal::NotFlying);
        };
        if flight.bound {
            return Err(ExecRefusal::Waiting);
        }
        match carry_out(&mut self.world, &flight, told, payloads) {
            Ok(outcome) => Ok(self.complete(place, flight.entry, outcome)),
            Err(RunError::NotAllowed) => Err(ExecRefusal::BadOutcome),
            Err(RunError::OutOfMemory) => Err(ExecRefusal::OutOfMemory),
        }
    }

    // Adds a completion that is of no entry behind those that are ready.
    pub(crate) fn complete_stray(&mut self, stray: Completion) -> Result<(), OutOfMemory>
        ensures ok { OnOk result (self.new ≡ with_completion self.old stray) }
        ensures err { OnErr result (self.new ≡ self.old) }
    {
        self.reserve(1)?;
        self.done.push_back_reserved(stray);
        self.spare -= 1;
        Ok(())
    }

    // The entry at a place ends with an outcome. Only behind a linked one may an entry be bound.
    fn complete(&mut self, place: usize, entry: Entry, outcome: Outcome) -> Completion
        requires { entry_at self.old.flying place ≡ Some entry }
        ensures ring { self.new ≡ completed self.old place entry outcome }
        ensures answer { result ≡ completion_of entry outcome }
    {
        let completion = completion_for(entry, outcome);
        self.flying.remove(place);
        self.done.push_back_reserved(completion);
        if entry.linked {
            release(&mut self.flying, &mut self.done, place, outcome);
        }
        completion
    }

    /// The whole execution in one call, for an executor that holds bytes in lists: `execute` with `sent` as the bytes that are
    /// offered, and those that come put into the empty `got`. Memory runs out only where bytes move.
    pub fn finish_at(
        &mut self,
        place: usize,
        told: Told,
        sent: &[u8],
        got: &mut ByteList,
    ) -> Result<Completion, ExecRefusal>
        requires { got.old ≡ [] }
        ensures finishes { FinishesFor self.old place told sent.now self.new got.new result }
        ensures few { length self.old.world ≤ MOST_HANDLES → length self.new.world ≤ MOST_HANDLES }
    {
        let mut lists = SentAndGot {
            sent,
            got: mem::replace(got, ByteList::new(self.world.alloc())),
        };
        let answer = self.execute(place, told, &mut lists);
        *got = lists.got;
        answer
    }
}

// Bytes to send, and bytes that came: those of any data word.
#[derive(Drop)]
struct SentAndGot<'a> {
    sent: &'a [u8],
    got: ByteList,
}

impl Payloads for SentAndGot<'_> {
    ghost use Rattle.std.specs.Prelude.{◌≡◌, ◌++◌, nat_le};

    ghost offered = { λ lists word. lists.sent.now };

    ghost stores = { λ before word bytes after. after.got ≡ before.got ++ bytes };

    ghost takes_memory = { nat_le 1 };

    fn append_to(&self, _word: u64, count: u32, output: &mut ByteList) -> Result<(), OutOfMemory> {
        append_first(output, count as usize, self.sent)
    }

    fn copy_to(&self, _word: u64, target: &mut [u8]) -> usize {
        copy_first(target, self.sent)
    }

    fn store(&mut self, _word: u64, bytes: &[u8]) -> Result<(), OutOfMemory> {
        if bytes.is_empty() {
            return Ok(());
        }
        self.got.append(bytes)
    }
}

impl Ring for MemRing {
    ghost view = { λ r. r };

    ghost tells = { true };

    ghost steady = { true };

    ghost steady_tells = { λ told. told };

    fn capacity(&self) -> u32 {
        self.entries
    }

    fn queued(&self) -> u32 {
        // The queue is no longer than its capacity, which is a `u32`.
        let _capacity = self.entries;
        self.queue.len() as u32
    }

    fn standing(&self) -> usize {
        self.done.len()
    }

    // What is in flight completes only by `execute`, and never by itself.
    fn to_come(&self) -> usize {
        let _entries = self.entries;
        0
    }

    fn reserve(&mut self, n: usize) -> Result<(), OutOfMemory> {
        let (queued, flying, done) = (self.queue.len(), self.flying.len(), self.done.len());
        let Some(room) = total_room(queued, flying, done, self.spare, n) else {
            return Err(OutOfMemory);
        };
        // The queue never holds more than its capacity.
        make_room(&mut self.queue, room.min(self.entries as usize))?;
        self.flying.reserve(room)?;
        make_room(&mut self.done, room)?;
        self.spare += n;
        Ok(())
    }

    fn push_reserved(&mut self, entry: Entry) -> Push {
        if self.queue.len() >= self.entries as usize {
            return Push::Full(entry);
        }
        self.queue.push_back_reserved(entry);
        self.spare -= 1;
        Push::Done
    }

    fn enter(&mut self) -> Result<u32, EnterError> {
        // The queue is no longer than its capacity, which is a `u32`.
        let _capacity = self.entries;
        let taken = self.queue.len() as u32;
        take_all(&mut self.queue, &mut self.flying, &mut self.done);
        Ok(taken)
    }

    fn sync(&mut self) {}

    fn next(&mut self) -> Option<Completion> {
        self.done.pop_front()
    }
}

// Carries an entry in flight out with what is reported of it, where that is allowed to it (`is_allowed_body`): its bytes move between its
// handles and the payload of its data word (`body_effect`), and its outcome is returned. After an error nothing has changed. A close moves
// nothing. No cancel is in flight, since it is done as it is taken: none is allowed.
fn carry_out<P: Payloads>(
    world: &mut World,
    flight: &Flight,
    told: Told,
    payloads: &mut P,
) -> Result<Outcome, RunError>
    ensures runs { CarriesOutFor P.stores P.takes_memory flight.now told (P.offered payloads.old flight.now.entry.word)
        world.old world.new payloads.old payloads.new result }
    ensures few { length world.old ≤ MOST_HANDLES → length world.new ≤ MOST_HANDLES }
{
    match flight.entry.body {
        Body::Call(call) => {
            world.execute(call, flight.marked, told, flight.entry.word, payloads)
        }
        Body::Close(_) => close_outcome(told),
        Body::Cancel(_) => Err(RunError::NotAllowed),
    }
}

// The memory that a list needs for all that is queued, in flight, done and reserved, and for `n` more pushes.
fn total_room(queued: usize, flying: usize, done: usize, spare: usize, n: usize) -> Option<usize>
    ensures { IfSome result (λ room. room ≡ queued + flying + done + (spare + n)) }
{
    let spare = spare.checked_add(n)?;
    queued
        .checked_add(flying)?
        .checked_add(done)?
        .checked_add(spare)
}

// The completion of an entry with an outcome.
fn completion_for(entry: Entry, outcome: Outcome) -> Completion
    ensures { result ≡ completion_of entry outcome }
{
    Completion {
        word: entry.word,
        serial: entry.serial,
        outcome,
    }
}

// The entry before a place ended with an outcome: what was bound to it ends with it, or is bound no more.
fn release(flying: &mut Flights, done: &mut VecDeque<Completion>, place: usize, outcome: Outcome)
    requires { length flying.old.flights + deque_len done.old ≤ deque_capacity done.old }
    ensures flying { flying.new.flights ≡ take place flying.old.flights ++ left_behind outcome (drop place flying.old.flights) }
    ensures done { done.new.items ≡ done.old.items ++ broken (taken_along outcome (drop place flying.old.flights)) }
    ensures length { length flying.new.flights + deque_len done.new ≡ length flying.old.flights + deque_len done.old }
    ensures room { (flying.new.room ≡ flying.old.room) × (deque_capacity done.new ≡ deque_capacity done.old) }
{
    match outcome {
        Outcome::Fail(_) => break_bound(flying, done, place),
        _ => flying.unbind(place),
    }
}

// The bound entries from a place on end, in order, up to the first that isn't bound.
fn break_bound(flying: &mut Flights, done: &mut VecDeque<Completion>, place: usize)
    requires { length flying.old.flights + deque_len done.old ≤ deque_capacity done.old }
    ensures flying { flying.new.flights ≡ take place flying.old.flights ++ behind_bound (drop place flying.old.flights) }
    ensures done { done.new.items ≡ done.old.items ++ broken (bound_front (drop place flying.old.flights)) }
    ensures length { length flying.new.flights + deque_len done.new ≡ length flying.old.flights + deque_len done.old }
    ensures room { (flying.new.room ≡ flying.old.room) × (deque_capacity done.new ≡ deque_capacity done.old) }
{
    while let Some(entry) = flying.take_bound(place) {
        done.push_back_reserved(completion_for(entry, Outcome::Fail(CANCELED)));
    }
}

// One entry is taken, bound where it is a call that follows a linked one. It answers whether the next one does.
fn take_entry(
    entry: Entry,
    bound: bool,
    flying: &mut Flights,
    done: &mut VecDeque<Completion>,
) -> bool
    requires flying_room { length flying.old.flights < flying.old.room }
    requires done_room { deque_len done.old < deque_capacity done.old }
    ensures binds { result ≡ binds_next entry entry.body }
    ensures flying { flying.new.flights ≡ flying_after_entry bound flying.old.flights entry entry.body }
    ensures done { done.new.items ≡ done_after_entry done.old.items entry entry.body }
    ensures length { length flying.new.flights + deque_len done.new ≡ length flying.old.flights + deque_len done.old + 1 }
    ensures longer { (length flying.old.flights ≤ length flying.new.flights) × (deque_len done.old ≤ deque_len done.new) }
    ensures room { (flying.new.room ≡ flying.old.room) × (deque_capacity done.new ≡ deque_capacity done.old) }
{
    match entry.body {
        Body::Call(_) => {
            flying.push_reserved(entry, bound);
            entry.linked
        }
        Body::Close(_) => {
            flying.push_reserved(entry, false);
            false
        }
        Body::Cancel(key) => {
            flying.mark(key);
            done.push_back_reserved(completion_for(entry, Outcome::Count(0)));
            false
        }
    }
}

// The queue is taken, in order.
fn take_all(queue: &mut VecDeque<Entry>, flying: &mut Flights, done: &mut VecDeque<Completion>)
    requires flying_room { deque_len queue.old + length flying.old.flights ≤ flying.old.room }
    requires done_room { deque_len queue.old + deque_len done.old ≤ deque_capacity done.old }
    ensures queue { queue.new.items ≡ [] }
    ensures flying { flying.new.flights ≡ flying_after flying.old.flights queue.old.items }
    ensures done { done.new.items ≡ done_after done.old.items queue.old.items }
    ensures lengths { (deque_len queue.new ≡ 0) ×
        (length flying.new.flights + deque_len done.new ≡ deque_len queue.old + length flying.old.flights + deque_len done.old) }
    ensures longer { (length flying.old.flights ≤ length flying.new.flights) × (deque_len done.old ≤ deque_len done.new) }
    ensures capacities { (deque_capacity queue.new ≡ deque_capacity queue.old) × (flying.new.room ≡ flying.old.room) ×
        (deque_capacity done.new ≡ deque_capacity done.old) }
{
    let mut bound = false;
    while let Some(entry) = queue.pop_front() {
        bound = take_entry(entry, bound, flying, done);
    }
}
