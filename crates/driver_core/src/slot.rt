//! What a slot of a driver holds, and what its calls do to one slot.
ghost use Rattle.std.specs.Prelude.{◌≡◌, false, IsSome, IfSome, IfNone, option_copied};
ghost use Rattle.std.specs.FinMap as map;
ghost use Rattle.op_slots.specs.Lifecycle.{IsCompleted, IsIgnored};
ghost use Rattle.machine.specs.Request.{listed};
ghost use Rattle.machine.specs.Surroundings.{around};
ghost use Rattle.driver_core.specs.Holds.{named_in, dropped_in, made_in, is_maker, is_dropped};
ghost use Rattle.driver_core.specs.Slot.{has_number, flies_in, fits_in, KeepsNumbers};
ghost use Rattle.driver_core.specs.Slot.{PollsSlot, PollsAt, EndsSlot, DropsSlot, DropsAt, CompletesSlot, FillsSlot};
ghost use Rattle.driver_core.specs.Requests.{surroundings_in, StaysHeld};

use crate::op::Done;
use machine::{Completion, Names, Outcome, Request};
use op_slots::{AfterComplete, AfterDrop, AfterPoll, Lifecycle, Slab};
use rent_buf::{IoBufMut, VecBuf};

/// What a slot holds: an operation's number, its request with its buffer or its parts, and how far it is. (not in
/// monoio, whose slot is a `Lifecycle` alone)
#[derive(Drop)]
pub struct Slot<B> {
    /// The operation's number.
    pub serial: u64,
    /// Its request, with its buffer or its parts.
    pub request: Request<B, VecBuf>,
    /// How far it is.
    pub life: Lifecycle<Outcome>,
}

/// The slot that was looked up holds this number, and its operation wasn't dropped.
pub fn is_numbered<B>(slot: Option<&Slot<B>>, number: u64) -> bool
    ensures { result ≡ has_number (option_copied slot.entry) number }
{
    match slot {
        Some(slot) => match &slot.life {
            Lifecycle::Ignored => false,
            _ => slot.serial == number,
        },
        None => false,
    }
}

// The slot that was looked up is in flight: live and not completed.
fn is_flying<B>(slot: Option<&Slot<B>>) -> bool
    ensures { result ≡ flies_in (option_copied slot.entry) }
{
    match slot {
        Some(slot) => match &slot.life {
            Lifecycle::Completed(_) => false,
            _ => true,
        },
        None => false,
    }
}

/// The handles that the request of the slot that was looked up names.
pub fn names_in<B>(slot: Option<&Slot<B>>) -> Names
    ensures { listed result ≡ named_in (option_copied slot.entry) }
{
    match slot {
        Some(slot) => slot.request.names(),
        None => Names::Nothing,
    }
}

/// The handle that the operation in the slot that was looked up made, once it is reaped.
pub fn made_in<B>(slot: Option<&Slot<B>>) -> Option<u64>
    ensures { result ≡ made_in (option_copied slot.entry) }
{
    match slot {
        Some(slot) => match &slot.life {
            Lifecycle::Completed(outcome) => outcome.made(),
            _ => None,
        },
        None => None,
    }
}

/// The slot that was looked up is in flight, and its request may make a handle.
pub fn is_maker<B>(slot: Option<&Slot<B>>) -> bool
    ensures { result ≡ is_maker (option_copied slot.entry) }
{
    match slot {
        Some(slot) => match &slot.life {
            Lifecycle::Completed(_) => false,
            _ => slot.request.makes(),
        },
        None => false,
    }
}

/// The operation in the slot that was looked up was dropped.
pub fn is_dropped<B>(slot: Option<&Slot<B>>) -> bool
    ensures { result ≡ is_dropped (option_copied slot.entry) }
{
    match slot {
        Some(slot) => matches!(&slot.life, Lifecycle::Ignored),
        None => false,
    }
}

/// The handles that the request of the slot that was looked up names, if its operation was dropped.
pub fn dropped_names<B>(slot: Option<&Slot<B>>) -> Names
    ensures { listed result ≡ dropped_in (option_copied slot.entry) }
{
    match slot {
        Some(slot) => match &slot.life {
            Lifecycle::Ignored => slot.request.names(),
            _ => Names::Nothing,
        },
        None => Names::Nothing,
    }
}

/// Polls a live slot of its user's: what a completed one holds comes out, and the slot goes; else the task waits from then on.
pub fn poll_at<B: Drop>(slots: &mut Slab<Slot<B>>, key: usize, task: u64) -> Option<Done<B>>
    requires live { IsSome (map.get slots.old.values key) }
    requires owned { IfSome (map.get slots.old.values key) (λ s. ¬ IsIgnored s.life) }
    ensures { PollsAt slots.old.values key task slots.new.values result }
{
    match poll_slot(slots, key, task) {
        AfterPoll::Pending => None,
        AfterPoll::Take => Some(take_done(slots, key)),
    }
}

// Asks a live slot for its result.
fn poll_slot<B: Drop>(slots: &mut Slab<Slot<B>>, key: usize, task: u64) -> AfterPoll
    requires live { IsSome (map.get slots.old.values key) }
    requires owned { IfSome (map.get slots.old.values key) (λ s. ¬ IsIgnored s.life) }
    ensures { PollsSlot slots.old.values key task slots.new.values result }
{
    let slot = slots.value_mut(key);
    slot.life.poll(task)
}

// Frees a completed slot.
fn take_done<B: Drop>(slots: &mut Slab<Slot<B>>, key: usize) -> Done<B>
    requires live { IsSome (map.get slots.old.values key) }
    requires completed { IfSome (map.get slots.old.values key) (λ s. IsCompleted s.life) }
    ensures done { IfSome (map.get slots.old.values key) (λ s. (s.request ≡ result.request) ×
        (s.life ≡ Lifecycle.Completed result.outcome)) }
    ensures slots { slots.new.values ≡ map.remove slots.old.values key }
{
    match slots.remove(key) {
        Some(slot) => {
            let Slot {
                serial: _,
                request,
                life,
            } = slot;
            match life {
                Lifecycle::Completed(outcome) => Done { outcome, request },
                _ => unreachable!(),
            }
        }
        None => unreachable!(),
    }
}

/// Takes a live slot out: what its request holds comes out with an outcome.
pub fn end_at<B: Drop>(slots: &mut Slab<Slot<B>>, key: usize, outcome: Outcome) -> Done<B>
    requires { IsSome (map.get slots.old.values key) }
    ensures { EndsSlot slots.old.values key outcome slots.new.values result }
{
    match slots.remove(key) {
        Some(slot) => {
            let Slot {
                serial: _,
                request,
                life: _,
            } = slot;
            Done { outcome, request }
        }
        None => unreachable!(),
    }
}

/// Drops the operation of a live slot of its user's: where it isn't completed it is ignored from then on, else it goes.
pub fn drop_at<B: Drop>(slots: &mut Slab<Slot<B>>, key: usize) -> AfterDrop
    requires live { IsSome (map.get slots.old.values key) }
    requires owned { IfSome (map.get slots.old.values key) (λ s. ¬ IsIgnored s.life) }
    ensures { DropsAt slots.old.values key slots.new.values result }
{
    match drop_slot(slots, key) {
        AfterDrop::Free => {
            let _ = slots.remove(key);
            AfterDrop::Free
        }
        AfterDrop::Left => AfterDrop::Left,
    }
}

// Where a live slot isn't completed it is ignored from then on.
fn drop_slot<B: Drop>(slots: &mut Slab<Slot<B>>, key: usize) -> AfterDrop
    requires live { IsSome (map.get slots.old.values key) }
    requires owned { IfSome (map.get slots.old.values key) (λ s. ¬ IsIgnored s.life) }
    ensures { DropsSlot slots.old.values key slots.new.values result }
{
    let slot = slots.value_mut(key);
    slot.life.drop_owner()
}

/// Completes the slot that a completion names, or frees it where its operation was dropped, and answers its number and the task
/// to wake. Where that is no slot in flight it answers None, and nothing changes.
pub fn complete_slot<B: Drop>(
    slots: &mut Slab<Slot<B>>,
    completion: &Completion,
) -> Option<(u64, Option<u64>)>
    ensures completes { CompletesSlot slots.old.values completion.now slots.new.values result }
    ensures stray { IfNone result (flies_in (map.get slots.new.values completion.now.word) ≡ false) }
    ensures numbers { KeepsNumbers slots.old.values slots.new.values }
{
    let key = completion.word as usize;
    if !is_flying(slots.peek(key)) {
        return None;
    }
    let slot = slots.value_mut(key);
    let serial = slot.serial;
    match slot.life.complete(completion.outcome) {
        AfterComplete::Kept => Some((serial, None)),
        AfterComplete::Wake(task) => Some((serial, Some(task))),
        AfterComplete::Free => {
            let _ = slots.remove(key);
            Some((serial, None))
        }
    }
}

/// Stores bytes that came in what the request of the slot at a key holds, when they fit. Else, and where there is no slot, nothing
/// changes. What is sent stays.
pub fn store_in<B: IoBufMut + Drop>(slots: &mut Slab<Slot<B>>, key: usize, bytes: &[u8])
    ensures fills { FillsSlot B.buffer slots.old.values key bytes.now slots.new.values }
    ensures numbers { KeepsNumbers slots.old.values slots.new.values }
    ensures surroundings { StaysHeld (surroundings_in (around B.under B.beside)) slots.old.values slots.new.values }
{
    if fits_in(slots.peek(key), bytes.len()) {
        let slot = slots.value_mut(key);
        slot.request.store(bytes);
    }
}

// So many bytes fit what the request of the slot that was looked up holds.
fn fits_in<B: IoBufMut>(slot: Option<&Slot<B>>, count: usize) -> bool
    ensures { result ≡ fits_in B.buffer (option_copied slot.entry) count }
{
    match slot {
        Some(slot) => count <= slot.request.room(),
        None => false,
    }
}
