//! The thread that drains wakers and sleeps.
ghost use Rattle.std.specs.Prelude.{◌≡◌, ◌+◌, ◌↔◌, length, None, IfOk, OnErr, Err};
ghost use Rattle.wake_core.specs.Remote.{new_remote, sent_by};
ghost use Rattle.wake_core.specs.Sleeping.{new_sleeper, is_still, Waits, LooksOut};
ghost use Rattle.wake_core.specs.WakerList.{IsInOrder};

use crate::bell::Lookout;
use crate::cell::Shared;
use crate::locked;
use crate::locked::sleeper::{RoundDue, SleeperEnd};
use crate::remote::{RemoteSender, gather};
use crate::state::{MAX_SENDERS, PUSH_PARTS};
use crate::waker::WakerList;
use std::alloc::Global;
use std::marker::Model;
use std::sync::ledger::{Ledger, Share};
use std::sync::{Arc, Wait};
use std::time::Clock;
use thiserror::Error;

/// The longest wait of a park over what has no bell, in milliseconds: it looks out behind the wait. (not in monoio)
pub const MOST_MILLIS: u64 = 1;

/// Why no sender was made. The sleeper is as it was. (not in monoio)
#[derive(Clone, Copy, Debug, PartialEq, Eq, Error)]
pub enum SenderError {
    /// The sleeper made `MAX_SENDERS` senders already. A number isn't used again, also if its sender was dropped.
    #[error("TooMany")]
    TooMany,
    /// Memory ran out.
    #[error("OutOfMemory")]
    OutOfMemory,
}

/// What one round of the sleeper drained. (not in monoio)
#[derive(Debug, Drop)]
pub struct Woken {
    /// What the first drain gave.
    pub first: WakerList,
    /// What the second drain gave.
    pub again: WakerList,
}

/// What the last drain gave, and how much came out of all drains. (not in monoio)
#[derive(Debug, Drop)]
pub struct Settled {
    /// How many wakers all drains gave.
    pub drained: u64,
    /// The wakers that the last drain gave.
    pub rest: WakerList,
}

/// What drains wakers, and sleeps while there are none: it belongs to the thread of a driver.
///
/// A contract sees how many senders it made, how many wakers its drains gave, what the two drains of its last round gave,
/// what its last `settle` gave, whether it slept when its last round came to its wait, and whether the round waited, and with which limit.
/// It makes at most `MAX_SENDERS` senders ever. (not in monoio, where a driver itself parks)
#[derive(Drop)]
pub struct Sleeper<P: Ledger, D: Ledger> {
    alloc: Global,
    shared: Arc<Shared<P, D>>,
    made: u64,
    unmade: Share<P>,
    drains: SleeperEnd<D>,
}

impl<P: Ledger, D: Ledger> Model for Sleeper<P, D> {
    ghost use Rattle.std.specs.Prelude.{◌≡◌, ◌+◌, ◌≤◌, false};
    ghost use Rattle.wake_core.specs.Sleeping.{Sleeping};
    ghost use Rattle.wake_core.specs.declared.locked.sleeper.RoundDue.TheVariants.{DrainFirst};
    ghost use Rattle.wake_core.specs.declared.state.TheConstants.{MAX_SENDERS, PUSH_PARTS};

    ghost Value = { Sleeping };

    ghost view = { λ s. record {
      made = s.made;
      taken = s.drains.taken;
      first = s.drains.first;
      again = s.drains.again;
      rest = s.drains.rest;
      asleep = s.drains.asleep;
      waited = s.drains.waited;
    } };

    // No call of a round is left out, and no bell is left hanging.
    ghost invariant = { λ s. (P.parts ≡ PUSH_PARTS) × (D.parts ≡ 1) × (s.unmade.parts + s.made ≡ PUSH_PARTS)
        × (s.made ≤ MAX_SENDERS) × (s.unmade.amount ≡ 0) × (s.drains.due ≡ DrainFirst) × (s.drains.hung ≡ false) };
}

// The first half of a round: drains, clears the flag, drains again and falls asleep, each under a lock of its own.
fn fall_asleep<P: Ledger, D: Ledger, R: Wait>(
    rt: &R,
    alloc: Global,
    shared: &Shared<P, D>,
    end: &mut SleeperEnd<D>,
) -> Woken
    requires { end.old.due ≡ RoundDue.DrainFirst }
    ensures end { end.new ≡ record end.old {
      taken = (end.old.taken + length result.first) + length result.again;
      first = result.first;
      again = result.again;
      asleep = None;
      waited = None;
      due = RoundDue.Rouse;
    } }
    ensures order { IsInOrder result.first × IsInOrder result.again }
{
    let first = locked::sleeper::drain_first(alloc, &mut shared.state.lock(rt), end);
    locked::sleeper::clear_flag(&mut shared.state.lock(rt), end);
    let again = locked::sleeper::drain_again(alloc, &mut shared.state.lock(rt), end);
    locked::sleeper::fall_asleep(&mut shared.state.lock(rt), end);
    Woken { first, again }
}

// Nothing stands, so that the round may wait.
fn is_still(ready: bool, woken: &Woken) -> bool
    ensures { result ≡ is_still ready woken.now.first woken.now.again }
{
    !ready && woken.first.is_empty() && woken.again.is_empty()
}

// The second half of a round: gets up, and sets the flag, each under a lock of its own.
fn get_up<P: Ledger, D: Ledger, R: Wait>(rt: &R, shared: &Shared<P, D>, end: &mut SleeperEnd<D>)
    requires { end.old.due ≡ RoundDue.Rouse }
    ensures { end.new ≡ record end.old { due = RoundDue.DrainFirst } }
{
    locked::sleeper::rouse(&mut shared.state.lock(rt), end);
    locked::sleeper::set_flag(&mut shared.state.lock(rt), end);
}

impl<P: Ledger, D: Ledger> Sleeper<P, D> {
    // The sleeper of a new cell, with the whole shares of its ledgers.
    pub(crate) fn over(
        alloc: Global,
        shared: Arc<Shared<P, D>>,
        unmade: Share<P>,
        drains: Share<D>,
    ) -> Sleeper<P, D>
        requires unmade { (P.parts ≡ PUSH_PARTS) × (unmade.parts ≡ P.parts) × (unmade.amount ≡ 0) }
        requires drains { (D.parts ≡ 1) × (drains.parts ≡ D.parts) × (drains.amount ≡ 0) }
        ensures { result ≡ new_sleeper }
    {
        Sleeper {
            alloc,
            shared,
            made: 0,
            unmade,
            drains: SleeperEnd::new(alloc, drains),
        }
    }

    /// How many senders it made. (not in monoio)
    pub fn made(&self) -> u64
        ensures { result ≡ self.now.made }
    {
        self.made
    }

    /// Makes the sender with the next number, which sent nothing yet. Takes no lock.
    ///
    /// It answers `TooMany` exactly when `made` is `MAX_SENDERS`, and `OutOfMemory` if there is no room for another reference
    /// to the cell; after either the sleeper is as it was. (monoio: cloning the sender of a thread's channel of wakers)
    pub fn sender(&mut self) -> Result<RemoteSender<P, D>, SenderError>
        ensures sender { IfOk result (λ sender. sender ≡ new_remote self.old.made) }
        ensures made { IfOk result (λ sender. self.new ≡ record self.old { made = self.old.made + 1 }) }
        ensures many { (result ≡ Err SenderError.TooMany) ↔ (self.old.made ≡ MAX_SENDERS) }
        ensures err { OnErr result (self.new ≡ self.old) }
    {
        if self.made == MAX_SENDERS {
            return Err(SenderError::TooMany);
        }
        let Ok(shared) = Arc::try_clone(&self.shared) else {
            return Err(SenderError::OutOfMemory);
        };
        let number = self.made;
        let share = self.unmade.split_off(1, 0);
        self.made += 1;
        Ok(RemoteSender::over(shared, number, share))
    }

    /// One round: drains, clears the flag, drains again, falls asleep, waits for the token, gets up, and sets the flag. Each
    /// of these calls is made, under a lock of its own, and makes its step if the stage that it finds admits it.
    ///
    /// It doesn't wait if `ready` is true, if a drain gave something, or if the token is set. Else it waits until a sender or a handle sets
    /// the token, and no longer than `limit` milliseconds if there is a limit. Nothing else ends the wait: a completion that
    /// comes to a ring meanwhile doesn't. Takes no memory. (monoio: `Driver::park` and `park_timeout`, without the ring)
    pub fn park<R: Wait + Clock>(&mut self, rt: &R, limit: Option<u64>, ready: bool) -> Woken
        // The two lists are what the two drains of this round gave, and the share of drains grew by their lengths.
        ensures given { (self.new.first ≡ result.first) × (self.new.again ≡ result.again) }
        ensures taken { self.new.taken ≡ (self.old.taken + length result.first) + length result.again }
        ensures order { IsInOrder result.first × IsInOrder result.again }

        // It came to its wait exactly if it wasn't ready and no drain gave something, and waited, with the limit that it was given, exactly
        // if the token wasn't set then.
        ensures waited { Waits (is_still ready result.first result.again) limit self.new }
        ensures kept { (self.new.made ≡ self.old.made) × (self.new.rest ≡ self.old.rest) }
    {
        let alloc = self.alloc;
        let (shared, end) = (&self.shared, &mut self.drains);
        let woken = fall_asleep(rt, alloc, shared, end);
        if is_still(ready, &woken) {
            shared.sleep(rt, limit, end);
        }
        get_up(rt, shared, end);
        woken
    }

    /// A round as `park` makes it, which looks out once, in the place of the wait. The lookout is asked for its bell first. Where it has
    /// one, the round waits in it, with the whole limit: each sender and each handle that sets the token rings the bell, which hangs from
    /// before the first drain until the round is over. Where it has none, the round waits as `park` does, `MOST_MILLIS` at most, and then
    /// looks out without a wait.
    ///
    /// It doesn't wait where `park` doesn't, but looks out all the same. It may come back with nothing. Takes no memory but what the
    /// lookout takes. (monoio: `park` and `park_timeout` of its legacy driver)
    pub fn park_in<L: Lookout, R: Wait + Clock>(
        &mut self,
        rt: &R,
        place: &mut L,
        limit: Option<u64>,
        ready: bool,
    ) -> (Woken, L::Sight)
        ensures given { (self.new.first ≡ result.0.first) × (self.new.again ≡ result.0.again) }
        ensures taken { self.new.taken ≡ (self.old.taken + length result.0.first) + length result.0.again }
        ensures order { IsInOrder result.0.first × IsInOrder result.0.again }

        // It came to its wait as `park` does. The look has the limit of the wait that it was, and 0 if it was none.
        ensures looked { let still = is_still ready result.0.first result.0.again in
            LooksOut L.looked still limit self.new place.old place.new result.1 }
        ensures kept { (self.new.made ≡ self.old.made) × (self.new.rest ≡ self.old.rest) }
    {
        let Some(bell) = place.bell() else {
            let most = limit.unwrap_or(MOST_MILLIS).min(MOST_MILLIS);
            let woken = self.park(rt, Some(most), ready);
            return (woken, place.look(Some(0)));
        };
        let alloc = self.alloc;
        let (shared, end) = (&self.shared, &mut self.drains);
        locked::sleeper::hang(&mut shared.calls.bell.lock(rt), bell, end);
        let woken = fall_asleep(rt, alloc, shared, end);
        let sight = if is_still(ready, &woken) {
            shared.look(rt, place, limit, end).1
        } else {
            place.look(Some(0))
        };
        get_up(rt, shared, end);
        locked::sleeper::take_down(&mut shared.calls.bell.lock(rt), end);
        (woken, sight)
    }

    /// The last drain, once all senders are returned: what all drains gave is what these senders sent. Takes no memory.
    ///
    /// `senders` has each sender that this sleeper made, `made` in number. A sender that was dropped is missing for good, and
    /// its sleeper can't be settled. (not in monoio)
    pub fn settle<R: Wait>(&mut self, rt: &R, senders: Vec<RemoteSender<P, D>>) -> Settled
        requires { length senders.items ≡ self.old.made }
        ensures sum { result.drained ≡ sent_by senders.items }
        ensures drained { result.drained ≡ self.new.taken }
        ensures taken { self.new ≡ record self.old { taken = self.old.taken + length result.rest; rest = result.rest } }
        ensures order { IsInOrder result.rest }
    {
        let mut all = self.unmade.empty();
        let drained = gather(&mut all, senders);
        let left = PUSH_PARTS - self.made;
        self.unmade.give(&mut all, left, 0);
        let mut state = self.shared.state.lock(rt);
        let rest = locked::sleeper::settle(&mut state, &mut all, &mut self.drains);
        all.give(&mut self.unmade, left, 0);
        Settled { drained, rest }
    }
}
