//! The completion driver: its operations, from their submission to their last poll.
ghost use Rattle.std.specs.Prelude.{◌≡◌, ◌≤◌, ◌<◌, ◌+◌, ◌↔◌, ℕ, true, false, [], ◌∷◌, Option, IsTrue, IfSome, IfOk, IfErr, OnOk, OnErr};
ghost use Rattle.std.specs.Prelude.{length};
ghost use Rattle.std.specs.FinMap as map;
ghost use Rattle.machine.specs.Request.{named};
ghost use Rattle.ring_core.specs.Ring.{IsLater};
ghost use Rattle.machine.specs.Ledger.{Ledger, empty};
ghost use Rattle.machine.specs.declared.ledger.Event.TheVariants.{Drop, Cancel};
ghost use Rattle.machine.specs.declared.ledger.Reply.TheVariants.{Dropped, Asked};
ghost use Rattle.driver_core.specs.declared.op.Op.{Op as Token};
ghost use Rattle.uring_driver.specs.Op.{number_of, cancel_for, Holds, HoldsNone, KeepsTokens, DropsToken, KeepsRequests};
ghost use Rattle.uring_driver.specs.Submissions.{IsIdle, TakesFront, PendingMoves, PendingMovesEach, with_spare, room_made, pending_ring};
ghost use Rattle.uring_driver.specs.Uring.{ring_in, due_in, pending, whole_ring, live_slots, given_by, holding_in, holds_all, members_in};
ghost use Rattle.uring_driver.specs.Uring.{group_count};
ghost use Rattle.driver_core.specs.Answers.{IsUnder};
ghost use Rattle.driver_core.specs.Groups.{is_under_canceled, joins_if, AreInSlots};
ghost use Rattle.driver_core.specs.Members.{none, leaves};
ghost use Rattle.uring_driver.specs.Stands.{Stands, Answers};
ghost use Rattle.machine.specs.Lists.{one_if};
ghost use Rattle.uring_driver.specs.Holding.{places, knows, no_holding};
ghost use Rattle.uring_driver.specs.Making.{KeepsHolding, CanMake};
ghost use Rattle.uring_driver.specs.Dropped.{DropsOp};
ghost use Rattle.uring_driver.specs.Submitted.{SameSlots, SubmitsFor, SubmitMoves, AddsToken, GivesRequest, JoinsFor, IsCanceled};
ghost use Rattle.uring_driver.specs.Submitted.{IsFullError, IsSameRing, SubmitRefused, IsPrepared, Unprepared, CannotSubmit};
ghost use Rattle.uring_driver.specs.PollOp.{PollsFor, PollsOp, PollsTokens, PollsMembers, ReturnsRequest, IsPending, IsUnreaped};
ghost use Rattle.uring_driver.specs.PollOp.{IsExactPoll, PollsHandles, closes_of_poll};

use crate::holding::Handles;
use crate::submissions::Submissions;
use crate::uring::leave::{hand_over, let_all_go, let_go};
use crate::uring::turn::Named;
use driver_core::{
    CancelHandle, MOST_GIVEN, Members, Op, Operations, PollOp, SubmitError, SubmitFault, Submitted,
};
use machine::Request;
use op_slots::AfterDrop;
use op_slots::slab::MAX_LIVE;
use rent_buf::{IoBufMut, OutOfMemory, VecBuf};
use ring_core::{EnterError, Entry, Ring};
use std::alloc::Global;
use std::marker::Model;

mod faults;
mod finish;
mod groups;
mod handles;
mod leave;
mod memory;
pub mod park;
mod turn;

/// A driver over a ring. Each operation has a slot from its submission to its last poll, or to the reap of one that was dropped.
/// The slot holds its request with its buffer or its parts, and the slot's key is the data word of its entry. (monoio:
/// `IoUringDriver`)
#[derive(Drop)]
pub struct IoUringDriver<R: Ring, B: IoBufMut> {
    ring: Submissions<R>,
    ops: Operations<B>,
    handles: Handles,
    members: Members,
    // The lists of the next turn: they name nobody, and their memory is used again.
    spare: Named,
    alloc: Global,
}

impl<R: Ring, B: IoBufMut> Model for IoUringDriver<R, B> {
    ghost use Rattle.std.specs.Coded.{codes};
    ghost use Rattle.driver_core.specs.Groups.{AreInSlots};
    ghost use Rattle.uring_driver.specs.Holding.{places};
    ghost use Rattle.uring_driver.specs.State.{State, state_code, IsSound, AreHolding};

    ghost Value = { State R B };

    ghost coded = { state_code R.code (Prim.hlevel (codes, B.code)) };

    ghost view = { λ d. record { ring = d.ring; slots = d.ops.slots; given = d.ops.given; holding = d.handles; members = d.members } };

    ghost invariant = { λ d. IsSound d.ring.room d.ops.slots.values (places d.handles) ×
        AreHolding d.handles d.ops.slots.values d.ops.given × AreInSlots d.members d.ops.slots.values };
}

impl<R: Ring, B: IoBufMut + Drop> IoUringDriver<R, B> {
    /// A driver over a ring with nothing queued, in flight or ready. If memory runs out, the ring comes back. (not in monoio)
    pub fn over(alloc: Global, ring: R) -> Result<Self, (OutOfMemory, R)>
        requires { IsIdle (R.view ring) }
        ensures stands { IfOk result (λ driver. (R.view ring).world ≡ [] → Stands R.view B.buffer driver (empty (R.view ring).capacity)) }
        ensures ring { IfOk result (λ driver. ring_in driver ≡ ring) }
        ensures none { IfOk result (λ driver. (live_slots driver ≡ 0) × (given_by driver ≡ 0) × HoldsNone driver) }
        ensures due { IfOk result (λ driver. due_in driver ≡ []) }
        // Nobody holds a handle, also where the ring has some: none is known, so each may be adopted.
        ensures handles { IfOk result (λ driver. holding_in driver ≡ no_holding) }
        ensures known { IfOk result (λ driver. (h : ℕ) → knows (holding_in driver) h ≡ false) }
        ensures groups { IfOk result (λ driver. members_in driver ≡ none) }
        ensures err { IfErr result (λ e. e.1 ≡ ring) }
    {
        Ok(IoUringDriver {
            ring: Submissions::new(alloc, ring),
            ops: Operations::new(alloc),
            handles: Handles::new(alloc),
            members: Members::new(alloc),
            spare: Named::new(alloc),
            alloc,
        })
    }

    /// The ring. (not in monoio)
    pub fn ring(&self) -> &R
        ensures { result.now ≡ ring_in self.now }
    {
        self.ring.ring()
    }

    /// How many entries are due: a failed or busy enter kept them out of the ring, and they go in before anything else. (not in monoio)
    pub fn due(&self) -> usize
        ensures { result ≡ length (due_in self.now) }
    {
        self.ring.due()
    }

    /// How many operations are in flight or wait for their poll, those with them that were dropped and aren't reaped.
    /// (monoio: `num_operations`)
    pub fn num_operations(&self) -> usize
        ensures { result ≡ live_slots self.now }
    {
        self.ops.len()
    }

    /// How many operations were submitted, which is the number of the next one: each operation has a lower number. (not in monoio)
    pub fn given(&self) -> u64
        ensures value { result ≡ given_by self.now }
        ensures numbers { (op : Token) → Holds self.now op → number_of op < given_by self.now }
    {
        self.ops.given()
    }

    /// The token is that of an operation of this driver that is neither returned nor dropped. (not in monoio)
    pub fn holds(&self, op: &Op) -> bool
        ensures { IsTrue result ↔ Holds self.now op.now }
    {
        self.ops.holds(op)
    }

    /// Submits a request of handles that the user holds, under a group that was made or under none, and returns the new operation's token.
    /// Under a canceled group it submits nothing, and the request comes back. What is due goes in first, and a queue at capacity is
    /// entered. The memory that it needs, and that of one cancel and of a handle that it may make, is taken before anything changes. Fewer
    /// than `MOST_GIVEN` were submitted before. (monoio: `submit_with_data`; `CancelHandle::associate_op`)
    pub fn submit_with(
        &mut self,
        request: Request<B, VecBuf>,
        under: Option<CancelHandle>,
    ) -> Result<Submitted<B>, SubmitError<B>>
        requires held { IsTrue (holds_all self.old (named request)) }
        requires known { IfSome under (λ g. g < group_count self.old) }
        requires counter { given_by self.old < MOST_GIVEN }
        // The answer is the machine's, over each ring that tells its lists, for each cancel handle of the machine of that group.
        ensures answers { IfOk result (λ submitted. IsTrue R.tells → (L : Ledger) → Stands R.view B.buffer self.old L →
            (handle : Option ℕ) → IsUnder L under handle → SubmitsFor R.view B.buffer false L request handle self.new submitted) }
        ensures token { IfOk result (λ submitted. AddsToken self.old self.new submitted) }
        // Over every ring the new token's operation has this request, and every other one keeps its own.
        ensures request { IfOk result (λ submitted. GivesRequest self.new submitted request) }
        ensures requests { KeepsRequests self.old self.new }
        // The operation holds each handle that it names, until it is gone, and is a member of its group, until it is gone or dropped.
        ensures joins { IfOk result (λ submitted. JoinsFor self.old self.new request under submitted) }

        // Nothing passes what is pending: its entry, which isn't linked, joins the end. Over a steady ring nothing becomes due.
        ensures pending { IsTrue R.tells → SubmitMoves R.view B.buffer false request self.old self.new result }
        ensures none_due { IsTrue R.steady → due_in self.old ≡ [] → due_in self.new ≡ [] }

        // The request comes back exactly when its group is canceled. Else it is Full exactly when all slots are live; a fault of the ring
        // comes only where that count rose.
        ensures canceled { IsCanceled result ↔ (is_under_canceled (members_in self.old) under ≡ true) }
        ensures full { IsFullError result ↔ ((is_under_canceled (members_in self.old) under ≡ false) × (live_slots self.old ≡ MAX_LIVE)) }
        ensures err { IfErr result (SubmitRefused R.view B.buffer R.steady request self.old self.new) }
        ensures memory { IfErr result (λ refused. refused.why ≡ SubmitFault.OutOfMemory → IsSameRing R.view self.old self.new) }
        // A refused one only enters what is pending. No completion is lost, over every ring.
        ensures takes { OnErr result (IsTrue R.tells → TakesFront (whole_ring R.view self.old) (whole_ring R.view self.new)) }
        ensures kept { length (R.view (ring_in self.old)).done ≤ length (R.view (ring_in self.new)).done }
    {
        self.submit_entry(request, under, false)
    }

    /// Submits a request as `submit_with` does, linked: its entry is marked so. Over a ring that keeps links, as each that shows its lists
    /// does (`tells`), the request that the ring takes directly behind it, in the same enter, starts only once this one has succeeded.
    /// Where this one fails, that one ends with the error `CANCELED` and doesn't start; so does the one that was linked behind it, and so
    /// on, in order. A count of fewer bytes than were asked for is a success too. A turn enters the queue, and so does a submission where it
    /// is at capacity; a cancel or a close that was queued between the two parts them. (io_uring: `IOSQE_IO_LINK`; not in monoio)
    pub fn submit_linked(
        &mut self,
        request: Request<B, VecBuf>,
        under: Option<CancelHandle>,
    ) -> Result<Submitted<B>, SubmitError<B>>
        requires held { IsTrue (holds_all self.old (named request)) }
        requires known { IfSome under (λ g. g < group_count self.old) }
        requires counter { given_by self.old < MOST_GIVEN }
        ensures answers { IfOk result (λ submitted. IsTrue R.tells → (L : Ledger) → Stands R.view B.buffer self.old L →
            (handle : Option ℕ) → IsUnder L under handle → SubmitsFor R.view B.buffer true L request handle self.new submitted) }
        ensures token { IfOk result (λ submitted. AddsToken self.old self.new submitted) }
        ensures request { IfOk result (λ submitted. GivesRequest self.new submitted request) }
        ensures requests { KeepsRequests self.old self.new }
        ensures joins { IfOk result (λ submitted. JoinsFor self.old self.new request under submitted) }
        ensures pending { IsTrue R.tells → SubmitMoves R.view B.buffer true request self.old self.new result }
        ensures none_due { IsTrue R.steady → due_in self.old ≡ [] → due_in self.new ≡ [] }
        ensures canceled { IsCanceled result ↔ (is_under_canceled (members_in self.old) under ≡ true) }
        ensures full { IsFullError result ↔ ((is_under_canceled (members_in self.old) under ≡ false) × (live_slots self.old ≡ MAX_LIVE)) }
        ensures err { IfErr result (SubmitRefused R.view B.buffer R.steady request self.old self.new) }
        ensures memory { IfErr result (λ refused. refused.why ≡ SubmitFault.OutOfMemory → IsSameRing R.view self.old self.new) }
        ensures takes { OnErr result (IsTrue R.tells → TakesFront (whole_ring R.view self.old) (whole_ring R.view self.new)) }
        ensures kept { length (R.view (ring_in self.old)).done ≤ length (R.view (ring_in self.new)).done }
    {
        self.submit_entry(request, under, true)
    }

    // Submits a request as both do, and its entry is linked or not.
    fn submit_entry(
        &mut self,
        request: Request<B, VecBuf>,
        under: Option<CancelHandle>,
        linked: bool,
    ) -> Result<Submitted<B>, SubmitError<B>>
        requires held { IsTrue (holds_all self.old (named request)) }
        requires known { IfSome under (λ g. g < group_count self.old) }
        requires counter { given_by self.old < MOST_GIVEN }
        ensures answers { IfOk result (λ submitted. IsTrue R.tells → (L : Ledger) → Stands R.view B.buffer self.old L →
            (handle : Option ℕ) → IsUnder L under handle → SubmitsFor R.view B.buffer linked L request handle self.new submitted) }
        ensures token { IfOk result (λ submitted. AddsToken self.old self.new submitted) }
        ensures request { IfOk result (λ submitted. GivesRequest self.new submitted request) }
        ensures requests { KeepsRequests self.old self.new }
        ensures joins { IfOk result (λ submitted. JoinsFor self.old self.new request under submitted) }
        ensures pending { IsTrue R.tells → SubmitMoves R.view B.buffer linked request self.old self.new result }
        ensures none_due { IsTrue R.steady → due_in self.old ≡ [] → due_in self.new ≡ [] }
        ensures canceled { IsCanceled result ↔ (is_under_canceled (members_in self.old) under ≡ true) }
        ensures full { IsFullError result ↔ ((is_under_canceled (members_in self.old) under ≡ false) × (live_slots self.old ≡ MAX_LIVE)) }
        ensures err { IfErr result (SubmitRefused R.view B.buffer R.steady request self.old self.new) }
        ensures memory { IfErr result (λ refused. refused.why ≡ SubmitFault.OutOfMemory → IsSameRing R.view self.old self.new) }
        ensures takes { OnErr result (IsTrue R.tells → TakesFront (whole_ring R.view self.old) (whole_ring R.view self.new)) }
        ensures kept { length (R.view (ring_in self.old)).done ≤ length (R.view (ring_in self.new)).done }
    {
        if self.members.is_under_canceled(&under) {
            return Ok(Submitted::Canceled(request));
        }
        let maker = request.makes();
        match enter_group(
            &mut self.ring,
            &mut self.ops,
            &mut self.members,
            &mut self.handles,
            maker,
            under,
        ) {
            Ok(()) => {}
            Err(why) => return Err(SubmitError { why, request }),
        }
        let call = request.call();
        self.handles.join(request.names(), maker);
        let op = self.ops.submit(request);
        let number = op.number();
        let key = op.key();
        self.members.set_key(number, key);
        self.ring.join(Entry::call(key, number, linked, call));
        Ok(Submitted::Op(op))
    }

    /// Polls an operation of this driver for a task. It takes no memory. (monoio: `poll_op`)
    ///
    /// It is `Pending` exactly while the operation isn't reaped, and then the operation's completion wakes this task. One that is `Ready`
    /// holds its handles no more, and is no member of its group: the handle that it made is its user's from now on, and the close of a
    /// handle that nobody holds joins what is pending.
    pub fn poll_op(&mut self, op: Op, task: u64) -> PollOp<B>
        requires { Holds self.old op }
        ensures answers { IsExactPoll R.steady result → (L : Ledger) → Stands R.view B.buffer self.old L →
            PollsFor R.view B.buffer L op task self.new result }
        ensures pending { (L : Ledger) → Stands R.view B.buffer self.old L → (IsPending result ↔ IsUnreaped L (number_of op)) }
        // Pending exactly while the slot at the token's key isn't completed; what is ready is that slot's own.
        ensures polls { PollsOp self.old self.new op task result }
        ensures tokens { PollsTokens self.old self.new op result }
        ensures request { ReturnsRequest self.old op result }
        ensures requests { KeepsRequests self.old self.new }
        // What is pending changes only by the closes of handles that nobody holds any more.
        ensures handles { PollsHandles self.old self.new result }
        ensures moves { IsTrue R.tells →
            PendingMovesEach (pending R.view self.old) (pending R.view self.new) (closes_of_poll self.old result) }
        ensures ring { closes_of_poll self.old result ≡ [] → self.new.ring ≡ self.old.ring }
        ensures none_due { IsTrue R.steady → due_in self.old ≡ [] → due_in self.new ≡ [] }
        ensures given { given_by self.new ≡ given_by self.old }
        ensures members { PollsMembers self.old self.new op result }
    {
        let number = op.number();
        match self.ops.poll(op, task) {
            PollOp::Pending(op) => PollOp::Pending(op),
            PollOp::Ready(done) => {
                self.members.leave(number);
                hand_over(&mut self.handles, done.outcome.made());
                let_go(&mut self.ring, &mut self.handles, done.request.names());
                PollOp::Ready(done)
            }
        }
    }

    /// Drops an operation of this driver. It takes no memory. (monoio: `drop_op`)
    ///
    /// One that isn't reaped keeps its slot, with its buffer and its handles, until its reap, which names it; its cancel joins what is
    /// pending. One that was reaped lets go of its handles, and of the one that it made; the close of each handle that nobody holds then
    /// joins what is pending. It is no member of its group from now on.
    pub fn drop_op(&mut self, op: Op)
        requires { Holds self.old op }
        ensures answers { IsTrue R.steady → (L : Ledger) → Stands R.view B.buffer self.old L →
            Answers R.view B.buffer L (Drop (number_of op)) Dropped self.new }
        ensures tokens { DropsToken self.old self.new op }
        ensures requests { KeepsRequests self.old self.new }
        // One that is reaped frees its slot and lets its handles go. Else its slot stays, and its cancel joins what is pending.
        ensures drops { DropsOp R.view R.tells self.old self.new op }
        ensures none_due { IsTrue R.steady → due_in self.old ≡ [] → due_in self.new ≡ [] }
        ensures given { given_by self.new ≡ given_by self.old }
        ensures members { members_in self.new ≡ leaves (members_in self.old) (number_of op) }
    {
        let number = op.number();
        let key = op.key();
        let names = self.ops.names_at(key);
        let made = self.ops.made_at(key);
        self.members.leave(op.number());
        match self.ops.drop_op(op) {
            AfterDrop::Free => let_all_go(&mut self.ring, &mut self.handles, names, made),
            AfterDrop::Left => self.ring.post(Entry::cancel(key, number)),
        }
    }

    /// Asks for the cancel of an operation of this driver: it joins what is pending. (monoio: `cancel_op`)
    pub fn cancel_op(&mut self, op: &Op) -> Result<(), OutOfMemory>
        requires { Holds self.old op.now }
        ensures answers { OnOk result (IsTrue R.steady → (L : Ledger) → Stands R.view B.buffer self.old L →
            Answers R.view B.buffer L (Cancel (number_of op.now)) Asked self.new) }
        ensures same { SameSlots self.old self.new }
        ensures tokens { KeepsTokens self.old self.new }
        ensures requests { KeepsRequests self.old self.new }
        ensures pending { OnOk result (IsTrue R.tells →
            PendingMoves (pending R.view self.old) (pending R.view self.new) (cancel_for op.now ∷ [])) }
        ensures none_due { IsTrue R.steady → due_in self.old ≡ [] → due_in self.new ≡ [] }
        ensures given { given_by self.new ≡ given_by self.old }

        ensures err { OnErr result ((L : Ledger) → Stands R.view B.buffer self.old L → Stands R.view B.buffer self.new L) }
        ensures memory { OnErr result (IsSameRing R.view self.old self.new) }
    {
        let Some(room) = owed(&self.ops, self.handles.places(), 1) else {
            return Err(OutOfMemory);
        };
        self.ring.make_spare(room)?;
        self.ring.post(Entry::cancel(op.key(), op.number()));
        Ok(())
    }
}

// For how many entries memory is kept, so that calls that take none can push them, and for `more`: a cancel of each operation, and the
// close of each handle that is held or may be made, so many in all. None where it passes the greatest number.
pub(crate) fn owed<B: Drop>(ops: &Operations<B>, handles: usize, more: usize) -> Option<usize>
    ensures { IfSome result (λ count. count ≡ map.len ops.now.slots.values + handles + more) }
{
    ops.len().checked_add(handles)?.checked_add(more)
}

// Makes ready for a submission that is under no canceled group, and that may make a handle or not: the next operation joins its group,
// memory is taken and way is made. No slot changes. If it can't, the groups are as they were, and but for memory the handles.
fn enter_group<R: Ring, B: Drop>(
    ring: &mut Submissions<R>,
    ops: &mut Operations<B>,
    members: &mut Members,
    handles: &mut Handles,
    maker: bool,
    under: Option<CancelHandle>,
) -> Result<(), SubmitFault>
    requires known { IfSome under (λ g. g < length members.old.groups) }
    requires open { is_under_canceled members.old under ≡ false }
    requires in_slots { AreInSlots members.old ops.old.slots.values }
    ensures slots { ops.new.slots.values ≡ ops.old.slots.values }
    ensures given { ops.new.given ≡ ops.old.given }
    ensures more { ring.old.room ≤ ring.new.room }
    ensures later { IsLater (R.view ring.old.ring) (R.view ring.new.ring) }
    ensures ok { OnOk result (IsPrepared (R.view ring.new.ring) ring.new.due ring.new.room ops.new.slots
        (places handles.new + one_if maker)) }
    ensures ready { OnOk result (CanMake maker handles.new) }
    ensures handles { KeepsHolding maker handles.old handles.new }
    ensures full { IfErr result (λ why. why ≡ SubmitFault.Full → handles.new ≡ handles.old) }
    ensures apart { map.get members.old.places ops.old.given ≡ Option.None }
    ensures joins { OnOk result (members.new ≡ joins_if members.old under ops.old.given 0) }
    ensures told { OnOk result (IsTrue R.tells →
        length (R.view ring.old.ring).queue + length ring.old.due ≤ (R.view ring.old.ring).capacity →
        pending_ring R.view ring.new ≡ with_spare (room_made (pending_ring R.view ring.old)) (R.view ring.new.ring).spare) }
    ensures takes { IsTrue R.tells → TakesFront (pending_ring R.view ring.old) (pending_ring R.view ring.new) }
    ensures kept { length (R.view ring.old.ring).done ≤ length (R.view ring.new.ring).done }
    ensures same { OnErr result (members.new ≡ members.old) }
    ensures err { IfErr result (CannotSubmit R.view R.steady ring.old ring.new ops.old.slots ops.new.slots) }
{
    let number = ops.given();
    if ops.len() >= MAX_LIVE {
        return Err(SubmitFault::Full);
    }
    let Ok(handles) = handles.make_ready(maker) else {
        return Err(SubmitFault::OutOfMemory);
    };
    if members.enroll(under, number).is_err() {
        return Err(SubmitFault::OutOfMemory);
    }
    match prepare(ring, ops, handles) {
        Ok(()) => Ok(()),
        Err(why) => {
            members.leave(number);
            Err(why)
        }
    }
}

// Takes the memory of a submission beside what is owed, and makes way for its entry. No slot changes.
fn prepare<R: Ring, B: Drop>(
    ring: &mut Submissions<R>,
    ops: &mut Operations<B>,
    handles: usize,
) -> Result<(), SubmitFault>
    requires few { map.len ops.old.slots.values < MAX_LIVE }
    ensures slots { ops.new.slots.values ≡ ops.old.slots.values }
    ensures given { ops.new.given ≡ ops.old.given }
    ensures more { ring.old.room ≤ ring.new.room }
    ensures later { IsLater (R.view ring.old.ring) (R.view ring.new.ring) }
    ensures ok { OnOk result (IsPrepared (R.view ring.new.ring) ring.new.due ring.new.room ops.new.slots handles) }
    ensures told { OnOk result (IsTrue R.tells →
        length (R.view ring.old.ring).queue + length ring.old.due ≤ (R.view ring.old.ring).capacity →
        pending_ring R.view ring.new ≡ with_spare (room_made (pending_ring R.view ring.old)) (R.view ring.new.ring).spare) }
    ensures takes { IsTrue R.tells → TakesFront (pending_ring R.view ring.old) (pending_ring R.view ring.new) }
    ensures kept { length (R.view ring.old.ring).done ≤ length (R.view ring.new.ring).done }
    ensures err { IfErr result (Unprepared R.view R.steady ring.old ring.new) }
{
    // Beside what is owed: its own entry, and the cancel that it will owe.
    let Some(room) = owed(ops, handles, 2) else {
        return Err(SubmitFault::OutOfMemory);
    };
    if ops.reserve_one().is_err() || ring.make_spare(room).is_err() {
        return Err(SubmitFault::OutOfMemory);
    }
    match ring.make_way() {
        Ok(()) => Ok(()),
        Err(EnterError::Fault) => Err(SubmitFault::RingFault),
        Err(EnterError::Busy) => Err(SubmitFault::Busy),
    }
}
