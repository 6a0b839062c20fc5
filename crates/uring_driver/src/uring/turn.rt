//! What a turn of the driver does: it treats the completions that are ready, in order.
ghost use Rattle.std.specs.Prelude.{◌≡◌, ◌≤◌, ◌<◌, ◌+◌, ◌++◌, ◌||◌, ◌∷◌, ℕ, [], Some, IsTrue, IfOk, IfErr, option_to_list};
ghost use Rattle.std.specs.Prelude.{length, vec_len, vec_capacity};
ghost use Rattle.ring_core.specs.Entry.{target};
ghost use Rattle.driver_core.specs.Slot.{KeepsNumbers};
ghost use Rattle.driver_core.specs.Requests.{KeepsRequests};
ghost use Rattle.uring_driver.specs.State.{IsSound, AreHolding};
ghost use Rattle.uring_driver.specs.Holding.{places};
ghost use Rattle.uring_driver.specs.Making.{refuses_made};
ghost use Rattle.uring_driver.specs.Op.{ops_in};
ghost use Rattle.uring_driver.specs.Reap.{HasRoom, treat_one};
ghost use Rattle.uring_driver.specs.Reaps.{Treats, PostsAll, Reaps, ReapsAll, midway};
ghost use Rattle.uring_driver.specs.Uring.{ring_in};
ghost use Rattle.uring_driver.specs.Begun.{HasBegun, CannotBegin, EndsTurn, HasTreated, is_at_hand, why_stopped};

use crate::holding::Handles;
use crate::submissions::Submissions;
use crate::uring::IoUringDriver;
use crate::uring::leave::end_op;
use driver_core::{Operations, Stop, Turned};
use machine::Completion;
use rent_buf::{IoBufMut, NumList, OutOfMemory};
use ring_core::{Ring, Target};
use std::alloc::Global;
use std::mem;

/// Whom a turn named so far, in the order of the completions.
#[derive(Drop)]
pub struct Named {
    /// The operations whose completions were treated, by their numbers.
    pub reaped: Vec<u64>,
    /// The handles whose closes were treated.
    pub closed: Vec<u64>,
    /// The tasks to wake.
    pub woken: Vec<u64>,
}

impl Named {
    /// Nobody. It takes no memory.
    pub fn new(alloc: Global) -> Named
        ensures reaped { result.reaped.items ≡ [] }
        ensures closed { result.closed.items ≡ [] }
        ensures woken { result.woken.items ≡ [] }
    {
        Named {
            reaped: Vec::new(alloc),
            closed: Vec::new(alloc),
            woken: Vec::new(alloc),
        }
    }
}

/// A turn that was begun: it has named nobody, and has room for all that it may name.
pub struct Begun {
    /// Nobody, with that room.
    pub named: Named,
    /// The ring was busy.
    pub busy: bool,
}

impl<R: Ring, B: IoBufMut + Drop> IoUringDriver<R, B> {
    // Begins a turn: makes room for as many numbers as are ready, queued, due and to come, enters what is due and what is queued, and has
    // the ring show what came by itself. It takes the memory that earlier turns left, and only what is missing anew. A ring that is busy
    // doesn't end the turn.
    pub(crate) fn begin_turn(&mut self) -> Result<Begun, Stop>
        ensures ok { IfOk result (HasBegun R.view R.tells R.steady self.old self.new) }
        ensures err { IfErr result (CannotBegin R.view R.tells R.steady self.old self.new) }
    {
        let Some(count) = self.ring.expected() else {
            return Err(Stop::OutOfMemory);
        };
        let Ok(named) = nobody(&mut self.spare, self.alloc, count) else {
            return Err(Stop::OutOfMemory);
        };
        let Some(busy) = self.ring.arrive() else {
            let _ = keep_empty(&mut self.spare, named);
            return Err(Stop::RingFault);
        };
        Ok(Begun { named, busy })
    }

    // A turn that was begun needn't wait: a completion is ready, or the ring was busy.
    pub(crate) fn is_ready(&self, begun: &Begun) -> bool
        ensures { result ≡ is_at_hand R.view self.now begun.now }
    {
        begun.busy || self.ring.ready() > 0
    }

    // Ends a turn: treats the completions that are ready, in order. The lists that name nobody stay with the driver.
    pub(crate) fn end_turn(&mut self, begun: Begun) -> Turned
        requires { HasRoom begun.named (length (R.view (ring_in self.old)).done) }
        ensures requests { KeepsRequests (ops_in self.old) (ops_in self.new) }
        ensures meets { EndsTurn R.view B.buffer R.tells R.steady self.old begun self.new result }
        ensures treated { HasTreated result.stop }
    {
        let Begun { mut named, busy } = begun;
        let bad = reap_all(&mut self.ring, &mut self.ops, &mut self.handles, &mut named);
        let named = keep_empty(&mut self.spare, named);
        turned(named, stop_of(busy, bad))
    }

    // What allocates its memory.
    pub(crate) fn alloc(&self) -> Global {
        self.alloc
    }

    // Ends a turn that can't begin.
    pub(crate) fn stop(&self, stop: Stop) -> Turned
        ensures reaped { result.reaped ≡ [] }
        ensures closed { result.closed ≡ [] }
        ensures woken { result.woken ≡ [] }
        ensures stop { result.stop ≡ Some stop }
    {
        turned(Named::new(self.alloc), Some(stop))
    }
}

// Takes the first completion off, and treats it. It answers the word of a stray one.
fn reap_one<R: Ring, B: Drop>(
    ring: &mut Submissions<R>,
    ops: &mut Operations<B>,
    handles: &mut Handles,
    named: &mut Named,
) -> Option<u64>
    requires some { 0 < length (R.view ring.old.ring).done }
    requires room { HasRoom named.old 1 }
    requires sound { IsSound ring.old.room ops.old.slots.values (places handles.old) }
    requires holding { AreHolding handles.old ops.old.slots.values ops.old.given }
    ensures reaps { Reaps R.view R.tells R.steady
        (midway ring.old ops.old handles.old) (midway ring.new ops.new handles.new) named.old named.new 1 result }
    ensures none_due { IsTrue R.steady → ring.old.due ≡ [] → ring.new.due ≡ [] }
    ensures room { (count : ℕ) → HasRoom named.old (count + 1) → HasRoom named.new count }
    ensures numbers { KeepsNumbers ops.old.slots.values ops.new.slots.values }
    ensures requests { KeepsRequests ops.old ops.new }
    ensures given { ops.new.given ≡ ops.old.given }
    ensures sound { IsSound ring.new.room ops.new.slots.values (places handles.new) }
    ensures holding { AreHolding handles.new ops.new.slots.values ops.new.given }
{
    let Some(completion) = ring.next() else {
        unreachable!();
    };
    treat(ring, ops, handles, named, &completion)
}

// Treats a completion that was taken off: it completes its slot, or its close is reaped. Where the slot of a dropped operation goes, its
// handles are let go, and one that it made is closed. It answers the word of a stray one.
fn treat<R: Ring, B: Drop>(
    ring: &mut Submissions<R>,
    ops: &mut Operations<B>,
    handles: &mut Handles,
    named: &mut Named,
    completion: &Completion,
) -> Option<u64>
    requires room { HasRoom named.old 1 }
    requires sound { IsSound ring.old.room ops.old.slots.values (places handles.old) }
    requires holding { AreHolding handles.old ops.old.slots.values ops.old.given }
    ensures treats { Treats (treat_one (target completion.now.word) ops.old.slots.values handles.old completion.now)
        ops.new.slots.values handles.new named.old named.new result }
    ensures posts { PostsAll R.view R.tells R.steady ring.old ring.new
        (treat_one (target completion.now.word) ops.old.slots.values handles.old completion.now).queued }
    ensures none_due { IsTrue R.steady → ring.old.due ≡ [] → ring.new.due ≡ [] }
    ensures room { (count : ℕ) → HasRoom named.old (count + 1) → HasRoom named.new count }
    ensures numbers { KeepsNumbers ops.old.slots.values ops.new.slots.values }
    ensures requests { KeepsRequests ops.old ops.new }
    ensures given { ops.new.given ≡ ops.old.given }
    ensures sound { IsSound ring.new.room ops.new.slots.values (places handles.new) }
    ensures holding { AreHolding handles.new ops.new.slots.values ops.new.given }
{
    match Target::of(completion.word) {
        Target::Reserved(_) => None,
        Target::Handle(h) => {
            if !handles.closed(h) {
                return Some(completion.word);
            }
            named.closed.push_reserved(h);
            None
        }
        Target::Slot(key) => treat_slot(ring, ops, handles, named, completion, key),
    }
}

// The same, of a completion of a slot: it is completed, and what its operation makes is kept or closed.
fn treat_slot<R: Ring, B: Drop>(
    ring: &mut Submissions<R>,
    ops: &mut Operations<B>,
    handles: &mut Handles,
    named: &mut Named,
    completion: &Completion,
    key: usize,
) -> Option<u64>
    requires word { key ≡ completion.now.word }
    requires room { HasRoom named.old 1 }
    requires sound { IsSound ring.old.room ops.old.slots.values (places handles.old) }
    requires holding { AreHolding handles.old ops.old.slots.values ops.old.given }
    ensures treats { Treats (treat_one (Target.Slot key) ops.old.slots.values handles.old completion.now)
        ops.new.slots.values handles.new named.old named.new result }
    ensures posts { PostsAll R.view R.tells R.steady ring.old ring.new
        (treat_one (Target.Slot key) ops.old.slots.values handles.old completion.now).queued }
    ensures none_due { IsTrue R.steady → ring.old.due ≡ [] → ring.new.due ≡ [] }
    ensures room { (count : ℕ) → HasRoom named.old (count + 1) → HasRoom named.new count }
    ensures numbers { KeepsNumbers ops.old.slots.values ops.new.slots.values }
    ensures requests { KeepsRequests ops.old ops.new }
    ensures given { ops.new.given ≡ ops.old.given }
    ensures sound { IsSound ring.new.room ops.new.slots.values (places handles.new) }
    ensures holding { AreHolding handles.new ops.new.slots.values ops.new.given }
{
    let names = ops.dropped_names(key);
    let maker = ops.is_maker(key);
    let dropped = ops.is_dropped(key);
    let made = completion.outcome.made();
    if refuses(handles, maker, made) {
        return Some(completion.word);
    }
    let Some((number, task)) = ops.complete(completion) else {
        return Some(completion.word);
    };
    note(named, number, task);
    end_op(ring, handles, names, maker, dropped, made);
    None
}

// What an operation names as made is refused: it may make no handle, or the handle can't be new.
fn refuses(handles: &Handles, maker: bool, made: Option<u64>) -> bool
    ensures { result ≡ refuses_made handles.now maker made }
{
    match made {
        None => false,
        Some(h) => !maker || handles.is_old(h),
    }
}

// Names an operation, and the task that is to be woken.
fn note(named: &mut Named, number: u64, task: Option<u64>)
    requires reaped { vec_len named.old.reaped < vec_capacity named.old.reaped }
    requires woken { vec_len named.old.woken < vec_capacity named.old.woken }
    ensures reaped { named.new.reaped.items ≡ named.old.reaped.items ++ number ∷ [] }
    ensures closed { named.new.closed ≡ named.old.closed }
    ensures woken { named.new.woken.items ≡ named.old.woken.items ++ option_to_list task }
    ensures reaped_room { (vec_len named.new.reaped ≤ vec_len named.old.reaped + 1) ×
        (vec_capacity named.new.reaped ≡ vec_capacity named.old.reaped) }
    ensures woken_room { (vec_len named.new.woken ≤ vec_len named.old.woken + 1) ×
        (vec_capacity named.new.woken ≡ vec_capacity named.old.woken) }
{
    named.reaped.push_reserved(number);
    match task {
        None => {}
        Some(task) => named.woken.push_reserved(task),
    }
}

/// Treats the completions that are ready when it is called, in order. It ends early at a stray one, and answers its word.
pub fn reap_all<R: Ring, B: Drop>(
    ring: &mut Submissions<R>,
    ops: &mut Operations<B>,
    handles: &mut Handles,
    named: &mut Named,
) -> Option<u64>
    requires room { HasRoom named.old (length (R.view ring.old.ring).done) }
    requires sound { IsSound ring.old.room ops.old.slots.values (places handles.old) }
    requires holding { AreHolding handles.old ops.old.slots.values ops.old.given }
    ensures reaps { ReapsAll R.view R.tells R.steady
        (midway ring.old ops.old handles.old) (midway ring.new ops.new handles.new) named.old named.new result }
    ensures none_due { IsTrue R.steady → ring.old.due ≡ [] → ring.new.due ≡ [] }
    ensures numbers { KeepsNumbers ops.old.slots.values ops.new.slots.values }
    ensures requests { KeepsRequests ops.old ops.new }
    ensures given { ops.new.given ≡ ops.old.given }
    ensures sound { IsSound ring.new.room ops.new.slots.values (places handles.new) }
    ensures holding { AreHolding handles.new ops.new.slots.values ops.new.given }
{
    let ready = ring.ready();
    for i in 0..ready {
        if let Some(word) = reap_one(ring, ops, handles, named) {
            return Some(word);
        }
    }
    None
}

/// What a turn did, by whom it named.
pub fn turned(named: Named, stop: Option<Stop>) -> Turned
    ensures reaped { result.reaped ≡ named.reaped.items }
    ensures closed { result.closed ≡ named.closed.items }
    ensures woken { result.woken ≡ named.woken.items }
    ensures stop { result.stop ≡ stop }
{
    let Named {
        reaped,
        closed,
        woken,
    } = named;
    Turned {
        reaped: NumList::from_vec(reaped),
        closed: NumList::from_vec(closed),
        woken: NumList::from_vec(woken),
        stop,
    }
}

/// Why a turn stopped that treated what was ready: a bad completion, or else that the ring was busy.
pub fn stop_of(busy: bool, bad: Option<u64>) -> Option<Stop>
    ensures { result ≡ why_stopped bad busy }
{
    match bad {
        Some(word) => Some(Stop::BadCompletion(word)),
        None => { if busy { Some(Stop::Busy) } else { None } }
    }
}

/// Nobody, with room for `count` numbers in each list. It takes the memory of the spare lists, and only what is missing anew. For none it
/// leaves them.
pub fn nobody(spare: &mut Named, alloc: Global, count: usize) -> Result<Named, OutOfMemory>
    ensures reaped { IfOk result (λ named. named.reaped.items ≡ []) }
    ensures closed { IfOk result (λ named. named.closed.items ≡ []) }
    ensures woken { IfOk result (λ named. named.woken.items ≡ []) }
    ensures room { IfOk result (λ named. HasRoom named count) }
{
    if count == 0 {
        return Ok(Named::new(alloc));
    }
    let Named {
        reaped,
        closed,
        woken,
    } = mem::replace(spare, Named::new(alloc));
    Ok(Named {
        reaped: with_room(reaped, count)?,
        closed: with_room(closed, count)?,
        woken: with_room(woken, count)?,
    })
}

// A list that is emptied, with room for `count` numbers.
fn with_room(spare: Vec<u64>, count: usize) -> Result<Vec<u64>, OutOfMemory>
    ensures items { IfOk result (λ list. list.items ≡ []) }
    ensures room { IfOk result (λ list. vec_len list + count ≤ vec_capacity list) }
{
    let mut list = spare;
    list.clear();
    list.reserve(count)?;
    Ok(list)
}

/// Keeps the lists that name nobody as spare ones, and returns the others. In place of one that is kept it returns one without memory,
/// and one without memory isn't kept.
pub fn keep_empty(spare: &mut Named, named: Named) -> Named
    ensures reaped { result.reaped.items ≡ named.reaped.items }
    ensures closed { result.closed.items ≡ named.closed.items }
    ensures woken { result.woken.items ≡ named.woken.items }
{
    let Named {
        reaped,
        closed,
        woken,
    } = named;
    Named {
        reaped: keep_if_empty(&mut spare.reaped, reaped),
        closed: keep_if_empty(&mut spare.closed, closed),
        woken: keep_if_empty(&mut spare.woken, woken),
    }
}

// Keeps a list as the spare one if it is empty and has memory, and else returns it.
fn keep_if_empty(spare: &mut Vec<u64>, list: Vec<u64>) -> Vec<u64>
    ensures { result.items ≡ list.items }
{
    if !list.is_empty() || list.capacity() == 0 {
        return list;
    }
    let none = Vec::new(*list.allocator());
    *spare = list;
    none
}
