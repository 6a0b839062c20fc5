//! The operations of a driver: each in a slot, with its number and its token.
ghost use Rattle.std.specs.Prelude.{◌≡◌, ◌≤◌, ◌<◌, ◌↔◌, Some, IsTrue, OnOk, OnErr, IfNone, false, option_copied};
ghost use Rattle.std.specs.FinMap as map;
ghost use Rattle.driver_core.specs.Slot.{flies_in, CompletesSlot, EndsSlot, KeepsNumbers};
ghost use Rattle.driver_core.specs.Op.{Holds, HoldsNone, key_of, DropsToken, AddsToken, PollsTokens};
ghost use Rattle.driver_core.specs.Operations.{Submits, PollsOp, DropsOp, offered, Stores};
ghost use Rattle.driver_core.specs.Ops.{AreNumbered};
ghost use Rattle.driver_core.specs.Requests.{request_at, ReturnsRequest, KeepsRequests};
ghost use Rattle.driver_core.specs.Holds.{named_in, dropped_in, made_in, is_maker, is_dropped};
ghost use Rattle.machine.specs.Request.{listed};
ghost use Rattle.machine.specs.Surroundings.{around};

mod calls;

use crate::op::{Done, Op, PollOp};
use crate::slot::{
    Slot, complete_slot, drop_at, dropped_names, end_at, is_dropped, is_maker, is_numbered,
    made_in, names_in, poll_at, store_in,
};
pub use calls::{CallAnswer, Calls};
use machine::ledger::MOST_LIVE;
use machine::{Completion, Names, Outcome, Payloads, Request};
use op_slots::slab::MAX_LIVE;
use op_slots::{AfterDrop, Lifecycle, Slab};
use rent_buf::{ByteList, IoBufMut, OutOfMemory, VecBuf};
use std::alloc::Global;
use std::marker::Model;

/// The most operations that a driver submits in all. (not in monoio)
pub const MOST_GIVEN: u64 = 1 << 62;

// A slab has as many slots as the machine has live operations, at most.
const _: () = prove!(MAX_LIVE == MOST_LIVE);

/// The operations that a driver has in slots, each from its submission to its last poll, or to the reap of one that was dropped.
/// (not in monoio, whose slab is inside its driver)
#[derive(Drop)]
pub struct Operations<B> {
    slots: Slab<Slot<B>>,
    // How many were submitted, which is the number of the next one.
    given: u64,
}

impl<B> Model for Operations<B> {
    ghost use Rattle.driver_core.specs.Ops.{Ops, ops_code, AreNumbered};
    ghost use Rattle.std.specs.Coded.{codes};

    ghost Value = { Ops B };

    ghost coded = { ops_code (Prim.hlevel (codes, B.code)) };

    ghost view = { λ o. record { slots = o.slots; given = o.given } };

    ghost invariant = { λ o. AreNumbered o.slots.values o.given };
}

impl<B: Drop> Operations<B> {
    /// No operation. It takes no memory.
    pub fn new(alloc: Global) -> Self
        ensures slots { result.slots.values ≡ map.empty }
        ensures given { result.given ≡ 0 }
        ensures none { HoldsNone result }
    {
        Operations {
            slots: Slab::new(alloc),
            given: 0,
        }
    }

    /// How many slots are live: operations in flight, or that wait for their poll, and those with them that were dropped and aren't
    /// reaped.
    pub fn len(&self) -> usize
        ensures count { result ≡ map.len self.now.slots.values }
        ensures bound { result ≤ MAX_LIVE }
    {
        self.slots.len()
    }

    /// How many operations were submitted, which is the number of the next one.
    pub fn given(&self) -> u64
        ensures given { result ≡ self.now.given }
        ensures numbered { AreNumbered self.now.slots.values self.now.given }
    {
        self.given
    }

    /// The token is that of an operation here that is neither returned nor dropped.
    pub fn holds(&self, op: &Op) -> bool
        ensures { IsTrue result ↔ Holds self.now op.now }
    {
        is_numbered(self.slots.peek(op.key()), op.number())
    }

    /// The slot at a key.
    pub fn peek(&self, key: usize) -> Option<&Slot<B>>
        ensures { option_copied result ≡ map.get self.now.slots.values key }
    {
        self.slots.peek(key)
    }

    /// The handles that the request in the slot at a key names; none where there is no slot.
    pub fn names_at(&self, key: usize) -> Names
        ensures { listed result ≡ named_in (map.get self.now.slots.values key) }
    {
        names_in(self.slots.peek(key))
    }

    /// The handle that the operation in the slot at a key made, once it is reaped; None where it made none, and where there is no slot.
    pub fn made_at(&self, key: usize) -> Option<u64>
        ensures { result ≡ made_in (map.get self.now.slots.values key) }
    {
        made_in(self.slots.peek(key))
    }

    /// The slot at a key is in flight, and its request may make a handle.
    pub fn is_maker(&self, key: usize) -> bool
        ensures { result ≡ is_maker (map.get self.now.slots.values key) }
    {
        is_maker(self.slots.peek(key))
    }

    /// The operation in the slot at a key was dropped: it is gone once it is completed.
    pub fn is_dropped(&self, key: usize) -> bool
        ensures { result ≡ is_dropped (map.get self.now.slots.values key) }
    {
        is_dropped(self.slots.peek(key))
    }

    /// The handles that the request in the slot at a key names, if its operation was dropped: it is gone once it is completed.
    pub fn dropped_names(&self, key: usize) -> Names
        ensures { listed result ≡ dropped_in (map.get self.now.slots.values key) }
    {
        dropped_names(self.slots.peek(key))
    }

    /// Takes the memory of one more operation.
    pub fn reserve_one(&mut self) -> Result<(), op_slots::OutOfMemory>
        ensures slots { self.new.slots.values ≡ self.old.slots.values }
        ensures given { self.new.given ≡ self.old.given }
        ensures requests { KeepsRequests self.old self.new }
        ensures ok { OnOk result (0 < self.new.slots.room) }
        ensures err { OnErr result (self.new ≡ self.old) }
    {
        self.slots.reserve_one()
    }

    /// Gives a request a slot and the next number, in memory that was reserved before, and answers its token.
    pub fn submit(&mut self, request: Request<B, VecBuf>) -> Op
        requires room { 0 < self.old.slots.room }
        requires few { map.len self.old.slots.values < MAX_LIVE }
        requires counter { self.old.given < MOST_GIVEN }
        ensures submits { Submits self.old self.new request result }
        ensures token { AddsToken self.old self.new result }
        ensures request { request_at self.new result ≡ Some request }
        ensures requests { KeepsRequests self.old self.new }
    {
        let slot = Slot {
            serial: self.given,
            request,
            life: Lifecycle::Submitted,
        };
        let key = match self.slots.insert(slot) {
            Ok(key) => key,
            Err(_) => unreachable!(),
        };
        let op = Op::make(self.given, key);
        self.given += 1;
        op
    }

    /// Polls an operation for a task. It takes no memory.
    pub fn poll(&mut self, op: Op, task: u64) -> PollOp<B>
        requires { Holds self.old op }
        ensures polls { PollsOp self.old self.new op task result }
        ensures tokens { PollsTokens self.old self.new op result }
        ensures request { ReturnsRequest self.old op result }
        ensures requests { KeepsRequests self.old self.new }
        ensures given { self.new.given ≡ self.old.given }
    {
        match poll_at(&mut self.slots, op.key(), task) {
            None => PollOp::Pending(op),
            Some(done) => {
                let _ = op.spend();
                PollOp::Ready(done)
            }
        }
    }

    /// Ends an operation with an outcome: its request comes out, and its slot goes. It takes no memory.
    pub fn end_op(&mut self, op: Op, outcome: Outcome) -> Done<B>
        requires { Holds self.old op }
        ensures ends { EndsSlot self.old.slots.values (key_of op) outcome self.new.slots.values result }
        ensures token { DropsToken self.old self.new op }
        ensures given { self.new.given ≡ self.old.given }
    {
        end_at(&mut self.slots, op.spend(), outcome)
    }

    /// Drops an operation. It answers whether the slot is left, which it is until the operation is reaped.
    pub fn drop_op(&mut self, op: Op) -> AfterDrop
        requires { Holds self.old op }
        ensures drops { DropsOp self.old self.new op result }
        ensures tokens { DropsToken self.old self.new op }
        ensures requests { KeepsRequests self.old self.new }
        ensures given { self.new.given ≡ self.old.given }
    {
        drop_at(&mut self.slots, op.spend())
    }

    /// Completes the slot that a completion names, or frees it where its operation was dropped, and answers its number and the task
    /// to wake. Where that is no slot in flight it answers None, and nothing changes.
    pub fn complete(&mut self, completion: &Completion) -> Option<(u64, Option<u64>)>
        ensures completes { CompletesSlot self.old.slots.values completion.now self.new.slots.values result }
        ensures stray { IfNone result (flies_in (map.get self.new.slots.values completion.now.word) ≡ false) }
        ensures numbered { AreNumbered self.old.slots.values self.old.given }
        ensures numbers { KeepsNumbers self.old.slots.values self.new.slots.values }
        ensures requests { KeepsRequests self.old self.new }
        ensures given { self.new.given ≡ self.old.given }
    {
        complete_slot(&mut self.slots, completion)
    }
}

impl<B: IoBufMut + Drop> Payloads for Operations<B> {
    ghost offered = { offered B.buffer };

    ghost stores = { Stores B.buffer (around B.under B.beside) };

    ghost takes_memory = { λ count. false };

    /// The bytes that the request in the slot of this key shows. (not in monoio)
    fn append_to(&self, word: u64, count: u32, output: &mut ByteList) -> Result<(), OutOfMemory> {
        match self.slots.peek(word as usize) {
            Some(slot) => slot.request.append_shown(count as usize, output),
            None => Ok(()),
        }
    }

    /// Copies the first bytes that the request in the slot of this key shows. (not in monoio)
    fn copy_to(&self, word: u64, target: &mut [u8]) -> usize {
        match self.slots.peek(word as usize) {
            Some(slot) => slot.request.copy_shown(target),
            None => 0,
        }
    }

    /// Stores bytes in what the request in the slot of this key holds, when they fit. It takes no memory. (not in monoio)
    fn store(&mut self, word: u64, bytes: &[u8]) -> Result<(), OutOfMemory> {
        store_in(&mut self.slots, word as usize, bytes);
        Ok(())
    }
}
