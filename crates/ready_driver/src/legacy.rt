//! The readiness driver: its operations, from their submission to their last poll.
ghost use Rattle.std.specs.Prelude.{◌≡◌, ◌<◌, ◌++◌, ◌↔◌, ℕ, true, false, [], Option, IsTrue};
ghost use Rattle.std.specs.Prelude.{IfSome, IfOk, IfErr, OnOk, OnErr, IsOk, length};
ghost use Rattle.std.specs.Prelude.{◌≤◌, ◌+◌, option_to_list};
ghost use Rattle.std.specs.Vec.{vec_len, vec_capacity};
ghost use Rattle.std.specs.FinMap as map;
ghost use Rattle.machine.specs.Effect.{made_by};
ghost use Rattle.machine.specs.Lists.{has_number};
ghost use Rattle.machine.specs.Request.{named, listed};
ghost use Rattle.machine.specs.declared.ledger.Event.TheVariants.{Drop, Cancel};
ghost use Rattle.machine.specs.declared.ledger.Reply.TheVariants.{Dropped, Asked};
ghost use Rattle.driver_core.specs.Answers.{IsUnder};
ghost use Rattle.driver_core.specs.Groups.{is_under_canceled, joins_if, AreInSlots};
ghost use Rattle.driver_core.specs.Holds.{named_in, without_ops, unheld_by};
ghost use Rattle.driver_core.specs.Members.{none, leaves};
ghost use Rattle.driver_core.specs.declared.op.Op.{Op as Token};
ghost use Rattle.driver_core.specs.Op.{number_of, key_of, KeepsTokens as KeepsTokensIn};
ghost use Rattle.driver_core.specs.Requests.{KeepsRequests as KeepsRequestsIn};
ghost use Rattle.driver_core.specs.Slot.{number_at};
ghost use Rattle.ready_driver.specs.Awaits.{BlocksUnless, IsSlotUnmet, TokensFor};
ghost use Rattle.ready_driver.specs.Errors.{FailsFor};
ghost use Rattle.ready_driver.specs.Legacy.{Legacy, idle, seen};
ghost use Rattle.ready_driver.specs.LegacyCalls.{AddsToken, GivesRequest, JoinsFor, IsCanceled, IsFullError, SubmitRefused};
ghost use Rattle.ready_driver.specs.LegacyCalls.{waiting_task, unwaited, Unready, WhyRefused};
ghost use Rattle.ready_driver.specs.LegacyPolls.{EndsFor, outcome_for, HandsOver};
ghost use Rattle.ready_driver.specs.LegacyState.{Holds, HoldsNone, KeepsTokens, DropsToken, KeepsRequests};
ghost use Rattle.ready_driver.specs.LegacyState.{holds_all, ops_in, live_slots, group_count};
ghost use Rattle.ready_driver.specs.LegacyStands.{LegacyStands, LegacyAnswers, SubmitsFor, PollsFor, WaitsFor};
ghost use Rattle.ready_driver.specs.Named.{IsOnlyCanceled, PollsSlotFor, canceled_slots};
ghost use Rattle.ready_driver.specs.Others.{KeepsOthers};
ghost use Rattle.ready_driver.specs.Polling.{OpsStand, asked_at};
ghost use Rattle.ready_driver.specs.Turns.{AreReported};
ghost use Rattle.ready_driver.specs.Registry.{AreOwned, AreRecorded, HasMadeRoom, IsSameButRoom, LetsGo, MakesReady, is_known};
ghost use Rattle.ready_driver.specs.Records.{AreNamed};

use crate::non_block::{NonBlock, NonBlockError, Reports};
use crate::polling;
use crate::registry::Registry;
use crate::waits::{awaited, look_at};
use driver_core::{
    CancelHandle, Done, MOST_GIVEN, Members, Op, Operations, PollOp, SubmitError, SubmitFault,
    Submitted,
};
use machine::{INVALID, Names, Outcome, Request};
use op_slots::slab::MAX_LIVE;
use rent_buf::{IoBufMut, OutOfMemory, VecBuf};
use std::alloc::Global;
use std::marker::Model;

mod dialing;
mod groups;
mod handles;
mod memory;
pub mod park;

/// A driver over an object whose calls don't wait. Each operation has a slot from its submission to its last poll or its drop, which holds
/// its request with its buffer or its parts. Its call is made in a poll, once a bit of its handle meets its direction. (monoio:
/// `LegacyDriver`)
#[derive(Drop)]
pub struct LegacyDriver<I: NonBlock, B: IoBufMut> {
    registry: Registry<I>,
    ops: Operations<B>,
    members: Members,
    // The tasks that the next turn names: those of canceled operations, and those that a turn which stopped has woken.
    asked: Vec<u64>,
    // The reports that came in a turn and that none has treated yet. Their memory is used again.
    untreated: Reports,
    // The last look at the object brought a report, or a poll since then returned another outcome than an error. No contract sees it.
    lively: bool,
    alloc: Global,
}

impl<I: NonBlock, B: IoBufMut> Model for LegacyDriver<I, B> {
    ghost use Rattle.std.specs.Coded.{codes};
    ghost use Rattle.std.specs.Prelude.{IsTrue};
    ghost use Rattle.driver_core.specs.Groups.{AreInSlots};
    ghost use Rattle.ready_driver.specs.LegacyState.{LegacyState, legacy_code};
    ghost use Rattle.ready_driver.specs.Named.{AreNaming};
    ghost use Rattle.ready_driver.specs.Turns.{AreShown};

    ghost Value = { LegacyState I B };

    ghost coded = { legacy_code I.code (Prim.hlevel codes) (Prim.hlevel codes) (Prim.hlevel (codes, B.code)) };

    ghost view = { λ d. record {
      handling = d.registry;
      slots = d.ops.slots;
      given = d.ops.given;
      members = d.members;
      asked = d.asked.items;
      untreated = d.untreated;
    } };

    ghost invariant = { λ d. AreNaming d.registry.table d.ops.slots.values d.ops.given × AreInSlots d.members d.ops.slots.values
        × (IsTrue I.memory → AreShown I.view d.registry d.untreated) };
}

impl<I: NonBlock, B: IoBufMut + Drop> LegacyDriver<I, B> {
    /// A driver over an object, with no handle and no operation. It takes no memory. (monoio: `new`)
    pub fn over(alloc: Global, io: I) -> Self
        ensures io { result.handling.io ≡ io }
        ensures none { (live_slots result ≡ 0) × (result.given ≡ 0) × HoldsNone result }
        ensures groups { result.members ≡ none }
        ensures asked { result.asked ≡ [] }
        ensures untreated { result.untreated ≡ [] }
        // Over a world in memory with no handles it is a new driver as plain data.
        ensures stands { (I.view io).world ≡ [] → (I.view io).keys ≡ [] → LegacyStands I.view B.buffer result idle }
    {
        LegacyDriver {
            registry: Registry::over(alloc, io),
            ops: Operations::new(alloc),
            members: Members::new(alloc),
            asked: Vec::new(alloc),
            untreated: Reports::new(alloc),
            lively: false,
            alloc,
        }
    }

    /// Ends the driver, and returns its object. The driver comes back, as it was, exactly if an operation has a slot. Handles that the user
    /// holds need no release. It takes no memory. (not in monoio)
    pub fn finish(self) -> Result<I, Self>
        ensures exact { IsOk result ↔ (live_slots self ≡ 0) }
        ensures ok { IfOk result (λ io. io ≡ self.handling.io) }
        ensures err { IfErr result (λ driver. driver ≡ self) }
    {
        if self.ops.len() > 0 {
            return Err(self);
        }
        Ok(self.into_io())
    }

    /// Ends the driver as a drop of it does, and returns its object: operations that have a slot are gone, with what they hold, and no
    /// handle is closed. It takes no memory. (not in monoio)
    pub fn into_io(self) -> I
        ensures { result ≡ self.handling.io }
    {
        let LegacyDriver {
            registry,
            ops: _ops,
            members: _members,
            asked: _asked,
            untreated: _untreated,
            lively: _lively,
            alloc: _alloc,
        } = self;
        registry.into_io()
    }

    /// The object. (not in monoio)
    pub fn io(&self) -> &I
        ensures { result.now ≡ self.now.handling.io }
    {
        self.registry.io()
    }

    /// How many operations wait for their poll. (monoio: `num_operations`)
    pub fn num_operations(&self) -> usize
        ensures { result ≡ live_slots self.now }
    {
        self.ops.len()
    }

    /// How many operations were submitted, which is the number of the next one: each operation has a lower number, and one that has ended
    /// before its last poll was canceled. (not in monoio)
    pub fn given(&self) -> u64
        ensures value { result ≡ self.now.given }
        ensures numbers { (op : Token) → Holds self.now op → number_of op < self.now.given }
        ensures canceled { (key : ℕ) → IsOnlyCanceled (map.get self.now.slots.values key) }
        // Just the handles that somebody holds have records, and somebody holds each handle that an operation names.
        ensures recorded { AreRecorded self.now.handling.table self.now.handling.records }
        // A handle is that of a key exactly if its record has the key; over a world in memory each is registered with that key, if it is.
        ensures named { AreNamed self.now.handling.records }
        ensures owned { IsTrue I.memory →
            AreOwned self.now.handling.table self.now.handling.records (I.view self.now.handling.io).keys }
        ensures held { (key h : ℕ) → has_number h (named_in (map.get self.now.slots.values key)) ≡ true →
            is_known self.now.handling.table h ≡ true }
    {
        self.registry.recorded();
        self.ops.given()
    }

    /// The token is that of an operation of this driver that is neither returned nor dropped. (not in monoio)
    pub fn holds(&self, op: &Op) -> bool
        ensures { IsTrue result ↔ Holds self.now op.now }
    {
        self.ops.holds(op)
    }

    /// Submits a request of handles that the user holds, under a group that was made or under none, and returns the new operation's token.
    /// Under a canceled group it submits nothing, and the request comes back. A handle that the object refused to register is tried again,
    /// and where it is refused again so is the submission: as `Os`, with the number of the object's error. Fewer than `MOST_GIVEN` were
    /// submitted before. (monoio: `submit_with_data`; `CancelHandle::associate_op`)
    pub fn submit_with(
        &mut self,
        request: Request<B, VecBuf>,
        under: Option<CancelHandle>,
    ) -> Result<Submitted<B>, SubmitError<B>>
        requires held { IsTrue (holds_all self.old.handling.table (named request)) }
        requires known { IfSome under (λ g. g < group_count self.old) }
        requires counter { self.old.given < MOST_GIVEN }
        // Over a world in memory the answer is that of the driver as plain data, for each of its cancel handles of that group.
        ensures answers { IfOk result (λ submitted. IsTrue I.memory → (D : Legacy) → LegacyStands I.view B.buffer self.old D →
            (handle : Option ℕ) → IsUnder (seen D) under handle → SubmitsFor I.view B.buffer D request handle self.new submitted) }
        ensures token { IfOk result (λ submitted. AddsToken self.old self.new submitted) }
        ensures request { IfOk result (λ submitted. GivesRequest self.new submitted request) }
        ensures requests { KeepsRequests self.old self.new }
        ensures joins { IfOk result (λ submitted. JoinsFor I.view I.tells I.memory self.old self.new request under submitted) }

        // The request comes back exactly when its group is canceled. Else it is Full exactly when all slots are live.
        ensures canceled { IsCanceled result ↔ (is_under_canceled self.old.members under ≡ true) }
        ensures full { IsFullError result ↔ ((is_under_canceled self.old.members under ≡ false) × (live_slots self.old ≡ MAX_LIVE)) }
        ensures err { IfErr result (SubmitRefused I.view I.tells I.memory request self.old self.new) }
        ensures stands { OnErr result (IsTrue I.memory → (D : Legacy) → LegacyStands I.view B.buffer self.old D →
            LegacyStands I.view B.buffer self.new D) }
    {
        if self.members.is_under_canceled(&under) {
            return Ok(Submitted::Canceled(request));
        }
        let names = request.names();
        match prepare(
            &mut self.registry,
            &mut self.ops,
            &mut self.members,
            names,
            under,
        ) {
            Ok(()) => {}
            Err(why) => return Err(SubmitError { why, request }),
        }
        self.registry.join(names);
        let op = polling::submit(&mut self.ops, request);
        self.members.set_key(op.number(), op.key());
        Ok(Submitted::Op(op))
    }

    /// Polls an operation of this driver for a task. (monoio: `poll_op`)
    ///
    /// Its call is made once a bit of its handle meets its direction; a request that waits for no direction is called at once, and so is
    /// one of a file. It is `Pending` where no bit meets its direction, and no call is made then; else only where the call would have
    /// blocked. One whose cancel was asked for is `Ready` with the error of a cancel, without a call. One that is `Ready` holds its handles
    /// no more, and is no member of its group. The handle that it made is its user's from now on; one that can't be new, since somebody
    /// holds it or it isn't below `MOST_HANDLES`, isn't made, and the outcome is the error `INVALID`. `OutOfMemory` comes if memory runs
    /// out, and the token comes back: no call was made, since the driver takes its own memory first, or the call itself answered that. No
    /// bit and nothing that waits has changed.
    ///
    /// A call that ended leaves the bits of its handle, also one that failed. So where an accept failed since the process may open no
    /// further file, the next one fails in its first poll: submit it once a handle is closed, or some time has passed.
    pub fn poll_op(&mut self, op: Op, task: u64) -> Result<PollOp<B>, (OutOfMemory, Op)>
        requires { Holds self.old op }
        ensures answers { IsTrue I.memory → (D : Legacy) → LegacyStands I.view B.buffer self.old D →
            PollsFor I.view B.buffer self.old D op task self.new result }
        // Right after a turn, where each held handle has its bits, it is Pending only where that driver's is.
        ensures exact { IsTrue I.memory →
            AreReported self.old.handling.table self.old.handling.records (I.view self.old.handling.io).world →
            (D : Legacy) → LegacyStands I.view B.buffer self.old D → WaitsFor I.view B.buffer D op task self.new result }
        // Over every object it is Pending only where no bit meets its direction, or the count of calls that would have blocked rose.
        ensures blocks { BlocksUnless (IsSlotUnmet self.old.handling.records (map.get self.old.slots.values (key_of op)))
            (I.view self.old.handling.io) (I.view self.new.handling.io) result }
        // So it is an error only where the count of calls that ended with one rose, its own cancel was asked for, or its call made a handle
        // that can't be new.
        ensures fails { FailsFor I.view self.old self.new op result }
        ensures slots { PollsSlotFor (ops_in self.old) (ops_in self.new) op result }
        ensures tokens { TokensFor (ops_in self.old) (ops_in self.new) op result }
        ensures ends { EndsFor I.files B.buffer I.called I.view I.tells I.memory self.old self.new op task result }
        // What the other operations wait for stays.
        ensures others { KeepsOthers self.old.handling self.new.handling (number_of op) }
        ensures given { self.new.given ≡ self.old.given }
        ensures asked { self.new.asked ≡ self.old.asked }
        ensures untreated { self.new.untreated ≡ self.old.untreated }
    {
        let key = op.key();
        let number = op.number();
        let look = look_at(self.ops.peek(key));
        self.registry.recorded();
        match reserve(&mut self.registry, look.maker) {
            Ok(()) => {}
            Err(why) => return Err((why, op)),
        }
        match self.registry.poll_op(&mut self.ops, op, task, look.awaited) {
            Ok(PollOp::Pending(op)) => Ok(PollOp::Pending(op)),
            Ok(PollOp::Ready(done)) => {
                let done = hand_over(&mut self.registry, done);
                self.registry.let_go(look.names);
                self.registry.recorded();
                self.members.leave(number);
                self.lively = self.lively | park::moves(done.outcome);
                Ok(PollOp::Ready(done))
            }
            Err(refused) => Err(refused),
        }
    }

    /// Drops an operation of this driver, which is gone at once with its buffer. It waits no longer, holds its handles no more, and is no
    /// member of its group. It takes no memory. (monoio: `drop_op`)
    pub fn drop_op(&mut self, op: Op)
        requires { Holds self.old op }
        ensures answers { IsTrue I.memory → (D : Legacy) → LegacyStands I.view B.buffer self.old D →
            LegacyAnswers I.view B.buffer D (Drop (number_of op)) Dropped self.new }
        // Over every object: it waits no longer, and lets go of each handle that it names.
        ensures handles { LetsGo I.view I.tells I.memory
            (unwaited self.old.handling (number_of op) (map.get self.old.slots.values (key_of op)))
            (without_ops self.old.handling.table (named_in (map.get self.old.slots.values (key_of op))))
            (unheld_by self.old.handling.table (named_in (map.get self.old.slots.values (key_of op)))) self.new.handling }
        ensures slots { self.new.slots.values ≡ map.remove self.old.slots.values (key_of op) }
        ensures tokens { DropsToken self.old self.new op }
        ensures requests { KeepsRequests self.old self.new }
        ensures given { self.new.given ≡ self.old.given }
        ensures members { self.new.members ≡ leaves self.old.members (number_of op) }
        ensures asked { self.new.asked ≡ self.old.asked }
        ensures untreated { self.new.untreated ≡ self.old.untreated }
    {
        let key = op.key();
        let number = op.number();
        let names = self.ops.names_at(key);
        unwait(&mut self.registry, &self.ops, key, number);
        polling::drop_op(&mut self.ops, op);
        self.registry.let_go(names);
        self.members.leave(number);
    }

    /// Asks for the cancel of an operation of this driver: its next poll is `Ready` with the error of a cancel. It waits no longer, and the
    /// next turn names its task, if it waited. If memory runs out, nothing changes. (monoio: `cancel_op`)
    pub fn cancel_op(&mut self, op: &Op) -> Result<(), OutOfMemory>
        requires { Holds self.old op.now }
        ensures answers { OnOk result (IsTrue I.memory → (D : Legacy) → LegacyStands I.view B.buffer self.old D →
            LegacyAnswers I.view B.buffer D (Cancel (number_of op.now)) Asked self.new) }
        ensures asked { OnOk result (self.new.asked ≡ self.old.asked ++ option_to_list
            (waiting_task self.old.handling.records (number_of op.now) (map.get self.old.slots.values (key_of op.now)))) }
        ensures untreated { self.new.untreated ≡ self.old.untreated }
        ensures waits { OnOk result (self.new.handling ≡
            unwaited self.old.handling (number_of op.now) (map.get self.old.slots.values (key_of op.now))) }
        ensures slots { OnOk result (self.new.slots.values ≡ canceled_slots self.old.slots.values (key_of op.now)) }
        ensures tokens { KeepsTokens self.old self.new }
        ensures requests { KeepsRequests self.old self.new }
        ensures given { self.new.given ≡ self.old.given }
        ensures members { self.new.members ≡ self.old.members }
        ensures err { OnErr result (self.new ≡ self.old) }
    {
        self.asked.reserve(1)?;
        let task = ask(&mut self.registry, &mut self.ops, op.key(), op.number());
        note(&mut self.asked, task);
        Ok(())
    }
}

// Makes ready for a submission that names these handles and is under no canceled group: memory is taken, the handles are registered, and
// the next operation joins its group, with the key 0. No slot changes.
fn prepare<I: NonBlock, B: Drop>(
    registry: &mut Registry<I>,
    ops: &mut Operations<B>,
    members: &mut Members,
    names: Names,
    under: Option<CancelHandle>,
) -> Result<(), SubmitFault>
    requires known { IfSome under (λ g. g < length members.old.groups) }
    requires open { is_under_canceled members.old under ≡ false }
    requires in_slots { AreInSlots members.old ops.old.slots.values }
    ensures slots { ops.new.slots.values ≡ ops.old.slots.values }
    ensures given { ops.new.given ≡ ops.old.given }
    ensures apart { map.get members.old.places ops.old.given ≡ Option.None }
    ensures ready { OnOk result (MakesReady I.view I.tells I.memory registry.old (listed names) registry.new) }
    ensures room { OnOk result ((0 < ops.new.slots.room) × (map.len ops.old.slots.values < MAX_LIVE)) }
    ensures joins { OnOk result (members.new ≡ joins_if members.old under ops.old.given 0) }
    ensures same { OnErr result (members.new ≡ members.old) }
    ensures unready { OnErr result (Unready I.view I.tells I.memory registry.old (listed names) registry.new) }
    ensures err { IfErr result (WhyRefused I.view I.memory registry.old registry.new (map.len ops.old.slots.values)) }
    ensures full { IfErr result (λ why. why ≡ SubmitFault.Full → ops.new ≡ ops.old) }
{
    let number = ops.given();
    if ops.len() >= MAX_LIVE {
        return Err(SubmitFault::Full);
    }
    if ops.reserve_one().is_err() {
        return Err(SubmitFault::OutOfMemory);
    }
    match registry.make_ready(names) {
        Ok(()) => {}
        Err(NonBlockError::Fault(code)) => return Err(SubmitFault::Os(code)),
        Err(NonBlockError::OutOfMemory) => return Err(SubmitFault::OutOfMemory),
    }
    match members.enroll(under, number) {
        Ok(()) => Ok(()),
        Err(_) => Err(SubmitFault::OutOfMemory),
    }
}

// Takes the memory for a handle that a call is to make, where it may make one.
fn reserve<I: NonBlock>(registry: &mut Registry<I>, maker: bool) -> Result<(), OutOfMemory>
    ensures same { IsSameButRoom registry.old registry.new }
    ensures ok { OnOk result (maker ≡ true → HasMadeRoom registry.new) }
    ensures unreserved { maker ≡ false → registry.new ≡ registry.old }
{
    if !maker {
        return Ok(());
    }
    registry.reserve_made()
}

// The handle that an operation made becomes its user's, where it made one. One that can't be new is refused: the outcome is an error.
fn hand_over<I: NonBlock, B: Drop>(registry: &mut Registry<I>, done: Done<B>) -> Done<B>
    requires { IfSome (made_by done.outcome) (λ h. HasMadeRoom registry.old) }
    ensures request { result.request ≡ done.request }
    ensures outcome { result.outcome ≡ outcome_for registry.old.table done.outcome }
    ensures hands { HandsOver I.view I.tells I.memory registry.old (made_by result.outcome) registry.new }
{
    let Some(h) = done.outcome.made() else {
        return done;
    };
    if registry.hand_over(h) {
        return done;
    }
    let Done {
        outcome: _outcome,
        request,
    } = done;
    Done {
        outcome: Outcome::Fail(INVALID),
        request,
    }
}

// The operation of a number whose slot is at a key waits for its handle no longer.
fn unwait<I: NonBlock, B: Drop>(
    registry: &mut Registry<I>,
    ops: &Operations<B>,
    key: usize,
    number: u64,
)
    ensures { registry.new ≡ unwaited registry.old number (map.get ops.now.slots.values key) }
{
    match awaited(ops.peek(key)) {
        Some((h, _)) => {
            registry.forget(h, number);
        }
        None => {}
    }
}

/// Asks for the cancel of the operation of a number whose slot is at a key. It waits no longer, and its task is the answer, if it waited.
pub(crate) fn ask<I: NonBlock, B: IoBufMut + Drop>(
    registry: &mut Registry<I>,
    ops: &mut Operations<B>,
    key: usize,
    number: u64,
) -> Option<u64>
    requires { number_at ops.old.slots.values key ≡ Option.Some number }
    ensures task { result ≡ waiting_task registry.old.records number (map.get ops.old.slots.values key) }
    ensures waits { registry.new ≡ unwaited registry.old number (map.get ops.old.slots.values key) }
    ensures slots { ops.new.slots.values ≡ canceled_slots ops.old.slots.values key }
    ensures tokens { KeepsTokensIn ops.old ops.new }
    ensures requests { KeepsRequestsIn ops.old ops.new }
    ensures cancels { (D : Legacy) → OpsStand B.buffer ops.old D → OpsStand B.buffer ops.new (asked_at D number) }
    ensures given { ops.new.given ≡ ops.old.given }
{
    match awaited(ops.peek(key)) {
        Some((h, _)) => {
            let _ = polling::cancel_at(ops, key, number);
            registry.forget(h, number)
        }
        None => polling::cancel_at(ops, key, number),
    }
}

// A task joins those that the next turn names, if there is one, in memory that was reserved.
fn note(asked: &mut Vec<u64>, task: Option<u64>)
    requires { vec_len asked.old < vec_capacity asked.old }
    ensures room { (vec_len asked.new ≤ vec_len asked.old + 1) × (vec_capacity asked.new ≡ vec_capacity asked.old) }
    ensures tasks { asked.new.items ≡ asked.old.items ++ option_to_list task }
{
    match task {
        None => {}
        Some(task) => asked.push_reserved(task),
    }
}
