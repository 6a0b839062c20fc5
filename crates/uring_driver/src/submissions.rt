//! The ring as the driver uses it: with room that is reserved in it, and with the entries that it kept out behind it.
ghost use Rattle.std.specs.Prelude.{◌≡◌, ◌≤◌, ◌<◌, ◌+◌, ◌^◌, ◌++◌, ◌↔◌, [], ◌∷◌, length, Some, None, IsTrue};
ghost use Rattle.std.specs.Prelude.{IfSome, IfNone, IfOk, IfErr, OnOk, OnErr};
ghost use Rattle.ring_core.specs.Ring.{IsLater, NextFor, entered, pushed};
ghost use Rattle.machine.specs.World.{fresh, look_at, WorldFeeds, WorldFeedsMessage, WorldEnds};
ghost use Rattle.ring_core.specs.Lends.{with_world};
ghost use Rattle.ring_core.specs.Entry.{may_link};
ghost use Rattle.ring_core.specs.MemRing.{ExecutesFor};
ghost use Rattle.uring_driver.specs.Finish.{over_ring, injected};
ghost use Rattle.uring_driver.specs.Submissions.{with_spare, room_made, pending_ring, expected_in, IsSameButWorld};
ghost use Rattle.uring_driver.specs.Submissions.{Enters, EnteredFor, MustEnter, KeptOut, Posts};

use machine::{Completion, HandleKind, Look, MOST_HANDLES, Payloads, Told, WorldError};
use rent_buf::OutOfMemory;
use ring_core::{EnterError, Entry, ExecRefusal, FaultRing, MemRing, Push, Ring, make_room};
use std::alloc::Global;
use std::collections::VecDeque;
use std::marker::Model;

/// A ring, the entries that a failed or busy enter kept out of it, and for how many more entries memory is reserved. What is
/// due goes in first, so that nothing passes it. (not in monoio)
#[derive(Drop)]
pub struct Submissions<R: Ring> {
    ring: R,
    // What is due, oldest first.
    due: VecDeque<Entry>,
    // For how many entries more there is memory, in the ring and in `due`.
    room: usize,
}

impl<R: Ring> Model for Submissions<R> {
    ghost use Rattle.std.specs.Prelude.{◌≤◌, ◌+◌};
    ghost use Rattle.std.specs.VecDeque.{deque_len, deque_capacity};
    ghost use Rattle.uring_driver.specs.Pending.{Pending, pending_code, MayBePushed};

    ghost Value = { Pending R };

    ghost coded = { pending_code R.code };

    ghost view = { λ o. record { ring = o.ring; due = o.due.items; room = o.room } };

    ghost invariant = { λ o. (deque_len o.due + o.room ≤ (R.view o.ring).spare) × (deque_len o.due + o.room ≤ deque_capacity o.due) ×
        MayBePushed o.due.items };
}

impl<R: Ring> Submissions<R> {
    /// A ring for which nothing is due or reserved yet. It takes no memory.
    pub fn new(alloc: Global, ring: R) -> Self
        ensures { result ≡ record { ring = ring; due = []; room = 0 } }
    {
        Submissions {
            ring,
            due: VecDeque::new(alloc),
            room: 0,
        }
    }

    /// The ring.
    pub fn ring(&self) -> &R
        ensures { result.now ≡ self.now.ring }
    {
        &self.ring
    }

    /// The ring alone. What is due is dropped.
    pub fn into_ring(self) -> R
        ensures { result ≡ self.ring }
    {
        let Submissions {
            ring,
            due: _due,
            room: _room,
        } = self;
        ring
    }

    /// Nothing is queued or due.
    pub fn none_pending(&self) -> bool
        ensures { IsTrue result ↔ (((R.view self.now.ring).queue ≡ []) × (self.now.due ≡ [])) }
    {
        self.ring.queued() == 0 && self.due.is_empty()
    }

    /// How many entries are due.
    pub fn due(&self) -> usize
        ensures { result ≡ length self.now.due }
    {
        self.due.len()
    }

    /// How many completions are ready.
    pub fn ready(&self) -> usize
        ensures { result ≡ length (R.view self.now.ring).done }
    {
        self.ring.standing()
    }

    /// How many completions are ready, how many entries are queued or due, and how many completions are to come by themselves, together;
    /// None where that is no `usize`.
    pub fn expected(&self) -> Option<usize>
        ensures some { IfSome result (λ n. n ≡ expected_in R.view self.now) }
        ensures none { IfNone result (2 ^ 64 ≤ expected_in R.view self.now) }
    {
        let pending = (self.ring.queued() as usize).checked_add(self.due.len())?;
        let waiting = self.ring.standing().checked_add(pending)?;
        waiting.checked_add(self.ring.to_come())
    }

    /// Memory for `count` entries more, where there is less.
    pub fn make_spare(&mut self, count: usize) -> Result<(), OutOfMemory>
        ensures ok { OnOk result (count ≤ self.new.room) }
        ensures view { R.view self.new.ring ≡ with_spare (R.view self.old.ring) (R.view self.new.ring).spare }
        ensures due { self.new.due ≡ self.old.due }
        ensures more { self.old.room ≤ self.new.room }
    {
        if self.room >= count {
            return Ok(());
        }
        let Some(due) = self.due.len().checked_add(count) else {
            return Err(OutOfMemory);
        };
        make_room(&mut self.due, due)?;
        self.ring.reserve(count - self.room)?;
        self.room = count;
        Ok(())
    }

    // The ring takes its queue. What is due stays.
    fn enter_ring(&mut self) -> Result<(), EnterError>
        ensures emptied { OnOk result ((R.view self.new.ring).queue ≡ []) }
        ensures told { OnOk result (IsTrue R.tells → R.view self.new.ring ≡ entered (R.view self.old.ring)) }
        ensures due { self.new.due ≡ self.old.due }
        ensures enters { Enters R.view R.tells self.old self.new }
        ensures err { IfErr result (KeptOut R.steady (R.view self.old.ring) (R.view self.new.ring)) }
    {
        match self.ring.enter() {
            Ok(_) => Ok(()),
            Err(why) => Err(why),
        }
    }

    // Room for one more entry in the queue: a queue at capacity is entered.
    fn make_room(&mut self) -> Result<(), EnterError>
        ensures same { length (R.view self.old.ring).queue < (R.view self.old.ring).capacity → self.new ≡ self.old }
        ensures room { OnOk result (length (R.view self.new.ring).queue < (R.view self.new.ring).capacity) }
        ensures told { OnOk result (IsTrue R.tells → R.view self.new.ring ≡ room_made (R.view self.old.ring)) }
        ensures due { self.new.due ≡ self.old.due }
        ensures enters { Enters R.view R.tells self.old self.new }
        ensures full { OnErr result (length (R.view self.old.ring).queue ≡ (R.view self.old.ring).capacity) }
        ensures err { IfErr result (KeptOut R.steady (R.view self.old.ring) (R.view self.new.ring)) }
    {
        if self.ring.queued() < self.ring.capacity() {
            return Ok(());
        }
        self.enter_ring()
    }

    // The first due entry goes in.
    fn push_first(&mut self) -> Result<(), EnterError>
        requires { 0 < length self.old.due }
        ensures one { OnOk result (length self.new.due + 1 ≡ length self.old.due) }
        ensures fits { OnOk result (length (R.view self.old.ring).queue + length self.old.due ≤ (R.view self.old.ring).capacity →
            (length (R.view self.new.ring).queue + length self.new.due ≡ length (R.view self.old.ring).queue + length self.old.due) ×
            (IsTrue R.tells → pending_ring R.view self.new ≡ with_spare (pending_ring R.view self.old) (R.view self.new.ring).spare)) }
        ensures enters { Enters R.view R.tells self.old self.new }
        ensures err { IfErr result (KeptOut R.steady (R.view self.old.ring) (R.view self.new.ring)) }
    {
        self.make_room()?;
        match self.due.pop_front() {
            Some(entry) => match self.ring.push_reserved(entry) {
                Push::Done => Ok(()),
                Push::Full(_) => unreachable!(),
            },
            None => unreachable!(),
        }
    }

    /// Makes way for one more entry: what is due goes in, in order, and a queue at capacity is entered. It takes no memory.
    pub fn make_way(&mut self) -> Result<(), EnterError>
        ensures due { OnOk result (self.new.due ≡ []) }
        ensures room { OnOk result (length (R.view self.new.ring).queue < (R.view self.new.ring).capacity) }
        ensures told { OnOk result (IsTrue R.tells →
            length (R.view self.old.ring).queue + length self.old.due ≤ (R.view self.old.ring).capacity →
            pending_ring R.view self.new ≡ with_spare (room_made (pending_ring R.view self.old)) (R.view self.new.ring).spare) }
        ensures enters { Enters R.view R.tells self.old self.new }
        ensures must { OnErr result (MustEnter R.view self.old) }
        ensures err { IfErr result (KeptOut R.steady (R.view self.old.ring) (R.view self.new.ring)) }
    {
        flush(self)?;
        self.make_room()
    }

    /// An entry joins the end of what is pending: the queue's end, where nothing is due and the queue has room, else it is due. Only a call
    /// is linked.
    pub fn join(&mut self, entry: Entry)
        requires room { 0 < self.old.room }
        requires links { IsTrue (may_link entry entry.body) }
        ensures told { IsTrue R.tells → pending_ring R.view self.new ≡
            with_spare (pushed (pending_ring R.view self.old) entry) (R.view self.new.ring).spare }
        ensures due { self.old.due ≡ [] → length (R.view self.old.ring).queue < (R.view self.old.ring).capacity → self.new.due ≡ [] }
        ensures room { self.new.room + 1 ≡ self.old.room }
        ensures later { IsLater (R.view self.old.ring) (R.view self.new.ring) }
        ensures more { length (R.view self.new.ring).queue + length self.new.due ≡
            length (R.view self.old.ring).queue + length self.old.due + 1 }
        ensures done { length (R.view self.new.ring).done ≡ length (R.view self.old.ring).done }
        ensures to_come { (R.view self.new.ring).to_come ≤ (R.view self.old.ring).to_come }
    {
        self.room -= 1;
        if !self.due.is_empty() {
            self.due.push_back_reserved(entry);
            return;
        }
        match self.ring.push_reserved(entry) {
            Push::Done => {}
            Push::Full(entry) => self.due.push_back_reserved(entry),
        }
    }

    /// Makes way for an entry, and lets it join the end of what is pending, also where the ring failed or is busy. It takes no
    /// memory: its room was reserved before. Only a call is linked.
    pub fn post(&mut self, entry: Entry)
        requires room { 0 < self.old.room }
        requires links { IsTrue (may_link entry entry.body) }
        ensures posts { Posts R.view R.tells R.steady self.old self.new entry }
        ensures none { IsTrue R.steady → self.old.due ≡ [] → self.new.due ≡ [] }
    {
        let _ = self.make_way();
        self.join(entry);
    }

    /// What is due goes in, in order, and the ring takes its queue.
    pub fn enter(&mut self) -> Result<(), EnterError>
        ensures emptied { OnOk result (((R.view self.new.ring).queue ≡ []) × (self.new.due ≡ [])) }
        ensures enters { Enters R.view R.tells self.old self.new }
        ensures err { IfErr result (KeptOut R.steady (R.view self.old.ring) (R.view self.new.ring)) }
    {
        flush(self)?;
        self.enter_ring()
    }

    /// What is due goes in, the ring takes its queue, and the completions that came by themselves become ready, also where the ring was
    /// busy: it answers whether it was. None comes where the ring failed, and then none of them becomes ready.
    #[tactic(auto, using(crate::proofs::Arriving::arrives))]
    pub fn arrive(&mut self) -> Option<bool>
        ensures some { IfSome result (λ busy. EnteredFor R.view R.tells R.steady self.old self.new busy) }
        ensures none { IfNone result (KeptOut R.steady (R.view self.old.ring) (R.view self.new.ring) EnterError.Fault ×
            Enters R.view R.tells self.old self.new) }
        ensures room { self.new.room ≡ self.old.room }
    {
        match self.enter() {
            Ok(()) => {
                self.ring.sync();
                Some(false)
            }
            Err(EnterError::Busy) => {
                self.ring.sync();
                Some(true)
            }
            Err(EnterError::Fault) => None,
        }
    }

    /// Removes and returns the oldest completion.
    pub fn next(&mut self) -> Option<Completion>
        ensures next { NextFor R.tells (R.view self.old.ring) (R.view self.new.ring) result }
        ensures due { self.new.due ≡ self.old.due }
        ensures room { self.new.room ≡ self.old.room }
    {
        self.ring.next()
    }
}

impl Submissions<FaultRing> {
    /// Adds a completion behind those that are ready in the ring.
    pub fn inject(&mut self, completion: Completion) -> Result<(), OutOfMemory>
        ensures ok { OnOk result (self.new ≡ over_ring self.old (injected self.old.ring completion)) }
        ensures err { OnErr result (self.new ≡ self.old) }
        ensures rest { self.new ≡ over_ring self.old self.new.ring }
    {
        self.ring.inject(completion)
    }
}

impl Submissions<MemRing> {
    /// How many handles the ring's world has.
    pub fn handles(&self) -> u64
        ensures { result ≡ length self.now.ring.world }
    {
        self.ring.handles().count()
    }

    /// A new handle of the ring's world.
    pub fn give(&mut self, kind: HandleKind) -> Result<u64, OutOfMemory>
        ensures number { IfOk result (λ h. h ≡ length self.old.ring.world) }
        ensures ok { OnOk result (self.new ≡ record self.old { ring = with_world self.old.ring (self.old.ring.world ++ fresh kind ∷ []) }) }
        ensures err { OnErr result (self.new ≡ self.old) }
    {
        self.ring.world().give(kind)
    }

    /// Bytes join the input of a handle of the ring's world.
    pub fn feed(&mut self, h: u64, bytes: &[u8]) -> Result<(), WorldError>
        requires { h < length self.old.ring.world }
        ensures feeds { WorldFeeds bytes.now self.old.ring.world h self.new.ring.world result }
        ensures rest { IsSameButWorld self.old self.new }
    {
        self.ring.world().feed(h, bytes)
    }

    /// A message joins those that wait on a handle of the ring's world.
    pub fn feed_message(&mut self, h: u64, addr: u64, bytes: &[u8]) -> Result<(), WorldError>
        requires { h < length self.old.ring.world }
        ensures feeds { WorldFeedsMessage addr bytes.now self.old.ring.world h self.new.ring.world result }
        ensures rest { IsSameButWorld self.old self.new }
    {
        self.ring.world().feed_message(h, addr, bytes)
    }

    /// Marks the end of a handle of the ring's world. It takes no memory.
    pub fn end(&mut self, h: u64) -> Result<(), WorldError>
        requires { h < length self.old.ring.world }
        ensures ends { WorldEnds self.old.ring.world h self.new.ring.world result }
        ensures rest { IsSameButWorld self.old self.new }
    {
        self.ring.world().end(h)
    }

    /// What looking at a handle of the ring's world shows, copied once.
    pub fn look(&self, h: u64) -> Result<Look, OutOfMemory>
        requires { h < length self.now.ring.world }
        ensures { IfOk result (λ look. look ≡ look_at self.now.ring.world h) }
    {
        self.ring.handles().look(h)
    }

    /// Executes what is in flight at a place with the reported outcome, over what holds its bytes.
    pub fn execute<P: Payloads>(
        &mut self,
        place: usize,
        told: Told,
        payloads: &mut P,
    ) -> Result<Completion, ExecRefusal>
        ensures executes { ExecutesFor P.offered P.stores P.takes_memory self.old.ring place told
            self.new.ring payloads.old payloads.new result }
        ensures few { length self.old.ring.world ≤ MOST_HANDLES → length self.new.ring.world ≤ MOST_HANDLES }
        ensures due { self.new.due ≡ self.old.due }
        ensures room { self.new.room ≡ self.old.room }
    {
        self.ring.execute(place, told, payloads)
    }
}

// What is due goes in, in order.
fn flush<R: Ring>(out: &mut Submissions<R>) -> Result<(), EnterError>
    ensures due { OnOk result (out.new.due ≡ []) }
    ensures told { OnOk result (IsTrue R.tells → length (R.view out.old.ring).queue + length out.old.due ≤ (R.view out.old.ring).capacity →
        pending_ring R.view out.new ≡ with_spare (pending_ring R.view out.old) (R.view out.new.ring).spare) }
    ensures enters { Enters R.view R.tells out.old out.new }
    ensures same { out.old.due ≡ [] → out.new ≡ out.old }
    ensures must { OnErr result (0 < length out.old.due) }
    ensures err { IfErr result (KeptOut R.steady (R.view out.old.ring) (R.view out.new.ring)) }
{
    let count = out.due();
    for i in 0..count {
        out.push_first()?;
    }
    Ok(())
}
