//! The wake state under its lock.
ghost use Rattle.std.specs.Prelude.{◌≡◌, Some, None, true, IfOk};
ghost use Rattle.wake_core.specs.Ends.{came_to_wait};
ghost use Rattle.wake_core.specs.Sleeping.{new_sleeper, limit_of};

use crate::bell::Lookout;
use crate::calls::Calls;
use crate::fault::OutOfMemory;
use crate::locked;
use crate::locked::handle::Nudging;
use crate::locked::sender::{SendDue, SenderEnd};
use crate::locked::sleeper::{RoundDue, SleeperEnd};
use crate::park::Sleeper;
use crate::sleeper::SleeperStage;
use crate::state::{PUSH_PARTS, WakeState};
use crate::unpark::UnparkHandle;
use std::alloc::Global;
use std::sync::ledger::{Blank, Ledger};
use std::sync::{Arc, Mutex, Wait};
use std::time::Clock;

// The state under its lock, and what the sleeper waits on. Each method takes the lock once for each step.
#[derive(Drop)]
pub(crate) struct Shared<P: Ledger, D: Ledger> {
    pub(crate) state: Mutex<WakeState<P, D>>,
    pub(crate) calls: Calls,
}

impl<P: Ledger, D: Ledger> Shared<P, D> {
    // Ends a sender's send: it reads the flag, and if that was false it sets the token, under a lock of its own, notifies the sleeper,
    // and rings the bell that hangs.
    pub(crate) fn end_send<R: Wait>(&self, rt: &R, end: &mut SenderEnd<P>)
        requires { end.old.due ≡ SendDue.ReadFlag }
        ensures { end.new ≡ record end.old { due = SendDue.Nothing } }
    {
        if !locked::sender::read_flag(&mut self.state.lock(rt), end) {
            locked::sender::set_token(&mut self.state.lock(rt), end);
            locked::sender::notify(&self.calls, end);
            locked::sender::ring(&self.calls.bell.lock(rt), end);
        }
    }

    // Makes an unpark: sets the token where the flag is false, notifies the sleeper, and rings the bell that hangs.
    pub(crate) fn nudge<R: Wait>(&self, rt: &R, mut nudging: Nudging)
        requires { nudging.due ≡ SendDue.SetToken }
    {
        locked::handle::nudge(&mut self.state.lock(rt), &mut nudging);
        locked::handle::notify(&self.calls, &mut nudging);
        locked::handle::ring(&self.calls.bell.lock(rt), nudging);
    }

    // Looks at the token of a sleeper that fell asleep, and answers whether it sleeps on. If so, it waits while it does, and no longer than
    // the limit, in milliseconds.
    pub(crate) fn sleep<R: Wait + Clock>(
        &self,
        rt: &R,
        limit: Option<u64>,
        end: &mut SleeperEnd<D>,
    ) -> bool
        requires { (end.old.due ≡ RoundDue.Rouse) × (end.old.waited ≡ None) }
        ensures { end.new ≡ came_to_wait end.old result limit }
    {
        let mut state = self.state.lock(rt);
        let asleep = locked::sleeper::look_at_token(&mut state, end);
        if asleep {
            let _state = locked::sleeper::wait(rt, &self.calls, state, limit, end);
        }
        asleep
    }

    // The same, and it waits in a lookout whose bell hangs. It looks out once, and doesn't wait if it doesn't sleep on.
    pub(crate) fn look<L: Lookout, R: Wait>(
        &self,
        rt: &R,
        place: &mut L,
        limit: Option<u64>,
        end: &mut SleeperEnd<D>,
    ) -> (bool, L::Sight)
        requires due { (end.old.due ≡ RoundDue.Rouse) × (end.old.waited ≡ None) }
        requires hung { end.old.hung ≡ true }
        ensures end { end.new ≡ came_to_wait end.old result.0 limit }
        ensures looked { L.looked place.old (limit_of end.new.waited) place.new result.1 }
    {
        if !locked::sleeper::look_at_token(&mut self.state.lock(rt), end) {
            return (false, place.look(Some(0)));
        }
        let sight = locked::sleeper::look(place, limit, end);
        let _on = locked::sleeper::take_token(&mut self.state.lock(rt));
        (true, sight)
    }
}

/// The wake state under its lock, shared by the sleeper, the senders that it makes, and the handles made here. It lives until
/// the last of these is dropped. (not in monoio, whose drivers keep an eventfd and a channel of wakers)
#[derive(Drop)]
pub struct WakeCell<P: Ledger, D: Ledger> {
    shared: Arc<Shared<P, D>>,
}

impl<P: Ledger, D: Ledger> WakeCell<P, D> {
    /// A cell whose state is the first one, and its sleeper, which has made no sender and drained nothing yet.
    ///
    /// `pushes` and `drains` are two ledgers that nothing was counted in: `pushes` is cut into `PUSH_PARTS` parts, one for each
    /// sender that the sleeper may make and one for the sleeper, and `drains` is one part. `OutOfMemory` if there is no room for
    /// the cell: then both are dropped. (not in monoio)
    pub fn new(
        alloc: Global,
        pushes: Blank,
        drains: Blank,
    ) -> Result<(WakeCell<P, D>, Sleeper<P, D>), OutOfMemory>
        requires pushes { (pushes.name ≡ P.name) × (pushes.parts ≡ P.parts) × (pushes.parts ≡ PUSH_PARTS) }
        requires drains { (drains.name ≡ D.name) × (drains.parts ≡ D.parts) × (drains.parts ≡ 1) }
        ensures { IfOk result (λ made. made.1 ≡ new_sleeper) }
    {
        let (state, pushes_share, drains_share) = WakeState::new(alloc, pushes, drains);
        let shared = Shared {
            state: Mutex::new(state),
            calls: Calls::new(),
        };
        let shared = Arc::new(alloc, shared).map_err(|_| OutOfMemory)?;
        let other = Arc::try_clone(&shared).map_err(|_| OutOfMemory)?;
        let sleeper = Sleeper::over(alloc, other, pushes_share, drains_share);
        Ok((WakeCell { shared }, sleeper))
    }

    /// A handle that wakes the sleeper of this cell. `OutOfMemory` if there is no room for another reference to the cell.
    /// (monoio: `Driver::unpark`)
    pub fn unpark_handle(&self) -> Result<UnparkHandle<P, D>, OutOfMemory> {
        let shared = Arc::try_clone(&self.shared).map_err(|_| OutOfMemory)?;
        Ok(UnparkHandle::over(shared))
    }

    /// The stage that the sleeper is at, read under the lock: to look at, since it may be at another one as soon as the lock is
    /// released. Takes no memory. (not in monoio)
    pub fn stage<R: Wait>(&self, rt: &R) -> SleeperStage {
        self.shared.state.lock(rt).stage()
    }
}
