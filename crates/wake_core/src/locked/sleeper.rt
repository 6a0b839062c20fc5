//! A sleeper's own end, and what a sleeper does under the lock.
ghost use Rattle.std.specs.Prelude.{◌≡◌, ◌+◌, ◌<◌, ◌≢◌, ◌∷◌, [], Some, None, true, false, length};
ghost use Rattle.std.specs.Sync.Mutex.{mutex_guard_value};
ghost use Rattle.wake_core.specs.Ends.{new_draining};
ghost use Rattle.wake_core.specs.Locked.{Makes, draining_first, clearing, draining_again, falling_asleep, taking_token, sleeps_on};
ghost use Rattle.wake_core.specs.Locked.{rousing, setting_flag};
ghost use Rattle.wake_core.specs.Step.{DrainRest, drained_by_all};
ghost use Rattle.wake_core.specs.WakerList.{IsInOrder};

use crate::bell::{Bell, Lookout};
use crate::calls::Calls;
use crate::sleeper::SleeperStage;
use crate::state::WakeState;
use crate::waker::WakerList;
use std::alloc::Global;
use std::marker::Model;
use std::snapshot::Snapshot;
use std::sync::ledger::{Ledger, Share};
use std::sync::{MutexGuard, Wait};
use std::time::Clock;

// What a sleeper is to do next in its round, whatever stage it finds.
#[derive(Clone, Copy)]
pub(crate) enum RoundDue {
    // It is in no round: the first drain begins one.
    DrainFirst,
    // To make the flag false, where the first drain gave nothing.
    ClearFlag,
    // To drain again.
    DrainAgain,
    // To fall asleep, where both drains gave nothing.
    FallAsleep,
    // To wait, if it is to, and get up.
    Rouse,
    // To set the flag, which ends the round.
    SetFlag,
}

// A sleeper's own end: its share of drains, what its drains gave last (for clauses alone, in no bytes), whether it slept when its round
// came to its wait, the limit of the wait, if it waited, whether a bell hangs, and what is due of its round. Only the calls below change
// it.
#[derive(Drop)]
pub(crate) struct SleeperEnd<D: Ledger> {
    share: Share<D>,
    first: Snapshot<WakerList>,
    again: Snapshot<WakerList>,
    rest: Snapshot<WakerList>,
    asleep: Option<bool>,
    waited: Option<Option<u64>>,
    hung: bool,
    due: RoundDue,
}

impl<D: Ledger> Model for SleeperEnd<D> {
    ghost use Rattle.std.specs.Prelude.{◌≡◌};
    ghost use Rattle.wake_core.specs.Ends.{Draining};

    ghost Value = { Draining };

    ghost view = { λ s. record {
      taken = s.share.amount;
      first = s.first.value;
      again = s.again.value;
      rest = s.rest.value;
      asleep = s.asleep;
      waited = s.waited;
      hung = s.hung;
      due = s.due;
    } };

    ghost invariant = { λ s. s.share.parts ≡ 1 };
}

impl<D: Ledger> SleeperEnd<D> {
    // The end of a sleeper that drained nothing yet.
    pub(crate) fn new(alloc: Global, share: Share<D>) -> SleeperEnd<D>
        requires { (share.parts ≡ 1) × (share.amount ≡ 0) }
        ensures { result ≡ new_draining }
    {
        let empty = no_wakers(alloc);
        SleeperEnd {
            share,
            first: Snapshot::of(&empty),
            again: Snapshot::of(&empty),
            rest: Snapshot::of(&empty),
            asleep: None,
            waited: None,
            hung: false,
            due: RoundDue::DrainFirst,
        }
    }
}

// No wakers. Takes no memory.
fn no_wakers(alloc: Global) -> WakerList
    ensures { result ≡ [] }
{
    WakerList::from_vec(Vec::new(alloc))
}

// What the first drain gives, where the sleeper is awake; else nothing.
fn give_first<P: Ledger, D: Ledger>(
    alloc: Global,
    state: &mut WakeState<P, D>,
    share: &mut Share<D>,
) -> WakerList
    requires { 0 < share.old.parts }
    ensures steps { Makes state.old (draining_first state.old.stage) state.new }
    ensures given { result ≡ drained_by_all state.old (draining_first state.old.stage) }
    ensures order { IsInOrder result }
    ensures amount { share.new.amount ≡ share.old.amount + length result }
    ensures parts { share.new.parts ≡ share.old.parts }
{
    match state.stage() {
        SleeperStage::Awake => state.drain_first(share),
        _ => no_wakers(alloc),
    }
}

// The first drain, where the sleeper is awake; else nothing. It begins a round.
pub(crate) fn drain_first<P: Ledger, D: Ledger>(
    alloc: Global,
    state: &mut WakeState<P, D>,
    end: &mut SleeperEnd<D>,
) -> WakerList
    requires { end.old.due ≡ RoundDue.DrainFirst }
    ensures steps { Makes state.old (draining_first state.old.stage) state.new }
    ensures given { result ≡ drained_by_all state.old (draining_first state.old.stage) }
    ensures order { IsInOrder result }
    ensures due { end.new ≡ record end.old { taken = end.old.taken + length result; first = result; due = RoundDue.ClearFlag } }
{
    let given = give_first(alloc, state, &mut end.share);
    end.first = Snapshot::of(&given);
    end.due = RoundDue::ClearFlag;
    given
}

// Makes the flag false, where the first drain gave nothing.
pub(crate) fn clear_flag<P: Ledger, D: Ledger>(state: &mut WakeState<P, D>, end: &mut SleeperEnd<D>)
    requires { end.old.due ≡ RoundDue.ClearFlag }
    ensures steps { Makes state.old (clearing state.old.stage) state.new }
    ensures due { end.new ≡ record end.old { due = RoundDue.DrainAgain } }
{
    if let SleeperStage::First(true) = state.stage() {
        state.clear_flag();
    }
    end.due = RoundDue::DrainAgain;
}

// What the second drain gives, where the first gave something or the flag is cleared; else nothing.
fn give_again<P: Ledger, D: Ledger>(
    alloc: Global,
    state: &mut WakeState<P, D>,
    share: &mut Share<D>,
) -> WakerList
    requires { 0 < share.old.parts }
    ensures steps { Makes state.old (draining_again state.old.stage) state.new }
    ensures given { result ≡ drained_by_all state.old (draining_again state.old.stage) }
    ensures order { IsInOrder result }
    ensures amount { share.new.amount ≡ share.old.amount + length result }
    ensures parts { share.new.parts ≡ share.old.parts }
{
    match state.stage() {
        SleeperStage::First(false) | SleeperStage::Cleared => state.drain_again(share),
        _ => no_wakers(alloc),
    }
}

// The second drain, where the first gave something or the flag is cleared; else nothing.
pub(crate) fn drain_again<P: Ledger, D: Ledger>(
    alloc: Global,
    state: &mut WakeState<P, D>,
    end: &mut SleeperEnd<D>,
) -> WakerList
    requires { end.old.due ≡ RoundDue.DrainAgain }
    ensures steps { Makes state.old (draining_again state.old.stage) state.new }
    ensures given { result ≡ drained_by_all state.old (draining_again state.old.stage) }
    ensures order { IsInOrder result }
    ensures due { end.new ≡ record end.old { taken = end.old.taken + length result; again = result; due = RoundDue.FallAsleep } }
{
    let given = give_again(alloc, state, &mut end.share);
    end.again = Snapshot::of(&given);
    end.due = RoundDue::FallAsleep;
    given
}

// Falls asleep, where both drains gave nothing.
pub(crate) fn fall_asleep<P: Ledger, D: Ledger>(
    state: &mut WakeState<P, D>,
    end: &mut SleeperEnd<D>,
)
    requires { end.old.due ≡ RoundDue.FallAsleep }
    ensures steps { Makes state.old (falling_asleep state.old.stage) state.new }
    ensures due { end.new ≡ record end.old { asleep = None; waited = None; due = RoundDue.Rouse } }
{
    if let SleeperStage::Second(true) = state.stage() {
        state.fall_asleep();
    }
    end.asleep = None;
    end.waited = None;
    end.due = RoundDue::Rouse;
}

// Takes the token of a sleeper that sleeps. Answers whether it sleeps on.
pub(crate) fn take_token<P: Ledger, D: Ledger>(state: &mut WakeState<P, D>) -> bool
    ensures steps { Makes state.old (taking_token state.old.stage) state.new }
    ensures asleep { result ≡ sleeps_on state.old.stage state.old.token }
    ensures up { result ≡ false → state.new.stage ≢ SleeperStage.Asleep }
    ensures on { result ≡ true → (state.new.stage ≡ SleeperStage.Asleep) × (state.new.token ≡ false) }
{
    match state.stage() {
        SleeperStage::Asleep => !state.take_token(),
        _ => false,
    }
}

// The round comes to its wait: takes the token of a sleeper that sleeps. Answers whether it sleeps on.
pub(crate) fn look_at_token<P: Ledger, D: Ledger>(
    state: &mut WakeState<P, D>,
    end: &mut SleeperEnd<D>,
) -> bool
    requires { end.old.due ≡ RoundDue.Rouse }
    ensures steps { Makes state.old (taking_token state.old.stage) state.new }
    ensures asleep { result ≡ sleeps_on state.old.stage state.old.token }
    ensures on { result ≡ true → (state.new.stage ≡ SleeperStage.Asleep) × (state.new.token ≡ false) }
    ensures end { end.new ≡ record end.old { asleep = Some result } }
{
    let asleep = take_token(state);
    end.asleep = Some(asleep);
    asleep
}

// Waits on the condition variable while the sleeper sleeps, and no longer than the limit, in milliseconds. With no limit it comes back
// once the sleeper doesn't sleep. It sleeps when it begins, and the token isn't set.
pub(crate) fn wait<'b, P: Ledger, D: Ledger, R: Wait + Clock>(
    rt: &R,
    calls: &Calls,
    state: MutexGuard<'b, WakeState<P, D>>,
    limit: Option<u64>,
    end: &mut SleeperEnd<D>,
) -> MutexGuard<'b, WakeState<P, D>>
    requires due { end.old.due ≡ RoundDue.Rouse }
    requires asleep { end.old.asleep ≡ Some true }
    requires stage { (mutex_guard_value state).stage ≡ SleeperStage.Asleep }
    requires token { (mutex_guard_value state).token ≡ false }
    ensures waited { end.new ≡ record end.old { waited = Some limit } }
    ensures up { limit ≡ None → (mutex_guard_value result).stage ≢ SleeperStage.Asleep }
{
    end.waited = Some(limit);
    calls.wait(rt, state, limit)
}

// Hangs up the bell of the poll that the round may wait in, before the round begins: whoever sets the token from then on rings it.
pub(crate) fn hang<D: Ledger>(hanging: &mut Option<Bell>, bell: Bell, end: &mut SleeperEnd<D>)
    requires { end.old.due ≡ RoundDue.DrainFirst }
    ensures hangs { hanging.new ≡ Some bell }
    ensures hung { end.new ≡ record end.old { hung = true } }
{
    *hanging = Some(bell);
    end.hung = true;
}

// Looks out once, outside the lock, and waits no longer than the limit, in milliseconds. The bell hangs since before the sleeper fell
// asleep, and it slept, with the token not set, when the round came to its wait.
pub(crate) fn look<L: Lookout, D: Ledger>(
    place: &mut L,
    limit: Option<u64>,
    end: &mut SleeperEnd<D>,
) -> L::Sight
    requires due { end.old.due ≡ RoundDue.Rouse }
    requires hung { end.old.hung ≡ true }
    requires asleep { end.old.asleep ≡ Some true }
    ensures looked { L.looked place.old limit place.new result }
    ensures waited { end.new ≡ record end.old { waited = Some limit } }
{
    end.waited = Some(limit);
    place.look(limit)
}

// Takes the bell down, once the round is over.
pub(crate) fn take_down<D: Ledger>(hanging: &mut Option<Bell>, end: &mut SleeperEnd<D>)
    requires { end.old.due ≡ RoundDue.DrainFirst }
    ensures none { hanging.new ≡ None }
    ensures hung { end.new ≡ record end.old { hung = false } }
{
    *hanging = None;
    end.hung = false;
}

// Gets a sleeper up that sleeps.
pub(crate) fn rouse<P: Ledger, D: Ledger>(state: &mut WakeState<P, D>, end: &mut SleeperEnd<D>)
    requires { end.old.due ≡ RoundDue.Rouse }
    ensures steps { Makes state.old (rousing state.old.stage) state.new }
    ensures due { end.new ≡ record end.old { due = RoundDue.SetFlag } }
{
    if let SleeperStage::Asleep = state.stage() {
        state.rouse();
    }
    end.due = RoundDue::SetFlag;
}

// Ends the round, where the sleeper is up or a drain gave something.
pub(crate) fn set_flag<P: Ledger, D: Ledger>(state: &mut WakeState<P, D>, end: &mut SleeperEnd<D>)
    requires { end.old.due ≡ RoundDue.SetFlag }
    ensures steps { Makes state.old (setting_flag state.old.stage) state.new }
    ensures due { end.new ≡ record end.old { due = RoundDue.DrainFirst } }
{
    match state.stage() {
        SleeperStage::Up | SleeperStage::Second(false) => state.set_flag(),
        _ => {}
    }
    end.due = RoundDue::DrainFirst;
}

// Drains what is left, with every share in hand: what the drains gave is then what was pushed.
pub(crate) fn settle<P: Ledger, D: Ledger>(
    state: &mut WakeState<P, D>,
    all: &mut Share<P>,
    end: &mut SleeperEnd<D>,
) -> WakerList
    requires all { all.old.parts ≡ P.parts }
    requires whole { D.parts ≡ 1 }
    ensures steps { Makes state.old (DrainRest ∷ []) state.new }
    ensures given { result ≡ state.old.queue }
    ensures order { IsInOrder result }
    ensures taken { end.new ≡ record end.old { taken = end.old.taken + length result; rest = result } }
    ensures sum { end.new.taken ≡ all.old.amount }
    ensures kept { (all.new.parts ≡ all.old.parts) × (all.new.amount ≡ all.old.amount) }
{
    let rest = state.drain_rest(&mut end.share);
    end.rest = Snapshot::of(&rest);
    state.audit(all, &mut end.share);
    state.is_safe();
    rest
}
