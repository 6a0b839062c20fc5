//! The state that senders and sleeper share, and its twelve kinds of step.
ghost use Rattle.std.specs.Prelude.{◌≡◌, ◌+◌, ◌<◌, length, OnOk, OnErr, if◌then◌else◌};
ghost use Rattle.wake_core.specs.SenderTable.{sender_of};
ghost use Rattle.wake_core.specs.WakeSafety.{WakeSafety};
ghost use Rattle.wake_core.specs.WakeState.{first_wake, CanPush, after_push, CanReadFlag, after_read_flag, CanSetToken, after_set_token};
ghost use Rattle.wake_core.specs.WakeState.{after_nudge, CanDrainFirst, after_drain_first, CanClearFlag, after_clear_flag, CanDrainAgain};
ghost use Rattle.wake_core.specs.WakeState.{after_drain_again, CanFallAsleep, after_fall_asleep, CanTakeToken, after_take_token};
ghost use Rattle.wake_core.specs.WakeState.{CanRouse, after_rouse, CanSetFlag, after_set_flag, after_drain_rest};
ghost use Rattle.wake_core.specs.WakerList.{IsInOrder};

use crate::fault::OutOfMemory;
use crate::senders::{SenderSlot, SenderStage, SenderTable};
use crate::sleeper::SleeperStage;
use crate::waker::{Waker, WakerList};
use std::alloc::Global;
use std::marker::Model;
use std::mem;
use std::sync::ledger::{Blank, Book, Ledger, Share};

/// The most senders that one sleeper makes, ever. Their numbers are below this. (not in monoio)
pub const MAX_SENDERS: u64 = 65536;

/// The most wakers that one sender pushes, ever. (not in monoio)
pub const MAX_PUSHED: u64 = 4294967295;

/// How many parts the ledger of pushes has: one for each sender that a sleeper may make, and one for the sleeper.
/// (not in monoio)
pub const PUSH_PARTS: u64 = MAX_SENDERS + 1;

/// What the senders and the sleeper share: the wakers that wait, the flag (true: the sleeper is awake), the token
/// (true: the sleeper is to wake), the stages and counts of the senders, and the stage of the sleeper.
///
/// It keeps the totals of two ledgers: `P` counts pushes and `D` counts drains. Each method that changes it is one
/// step, and its contract gives the new state in full. Every value is wake-safe, as `is_safe` says. (not in
/// monoio, whose drivers keep a channel of wakers and an eventfd)
#[derive(Drop)]
pub struct WakeState<P: Ledger, D: Ledger> {
    alloc: Global,
    queue: Vec<Waker>,
    flag: bool,
    token: bool,
    senders: SenderTable,
    pushes: Book<P>,
    drains: Book<D>,
    stage: SleeperStage,
}

impl<P: Ledger, D: Ledger> Model for WakeState<P, D> {
    ghost use Rattle.wake_core.specs.SenderSlot.{seen};
    ghost use Rattle.wake_core.specs.WakeSafety.{WakeSafety};
    ghost use Rattle.wake_core.specs.WakeState.{Wake};

    ghost Value = { Wake };

    ghost view = { λ s. seen s.queue.items s.flag s.token s.senders s.pushes.total s.drains.total s.stage };

    ghost invariant = { λ s. WakeSafety (seen s.queue.items s.flag s.token s.senders s.pushes.total s.drains.total s.stage) };
}

// The stage of a sender once it has read this flag.
fn stage_after(flag: bool) -> SenderStage
    ensures { result ≡ (if flag then SenderStage.Idle else SenderStage.Called) }
{
    if flag {
        SenderStage::Idle
    } else {
        SenderStage::Called
    }
}

impl<P: Ledger, D: Ledger> WakeState<P, D> {
    /// The first state: the sleeper is awake, nothing waits, and no sender pushed anything. Takes no memory.
    ///
    /// It opens both ledgers, and returns their whole shares: that of pushes, then that of drains. (not in monoio)
    pub fn new(alloc: Global, pushes: Blank, drains: Blank) -> (WakeState<P, D>, Share<P>, Share<D>)
        requires pushes { (pushes.name ≡ P.name) × (pushes.parts ≡ P.parts) }
        requires drains { (drains.name ≡ D.name) × (drains.parts ≡ D.parts) }
        ensures state { result.0 ≡ first_wake }
        ensures pushes { (result.1.parts ≡ P.parts) × (result.1.amount ≡ 0) }
        ensures drains { (result.2.parts ≡ D.parts) × (result.2.amount ≡ 0) }
    {
        let (pushes, pushes_share) = pushes.open::<P>();
        let (drains, drains_share) = drains.open::<D>();
        let state = WakeState {
            alloc,
            queue: Vec::new(alloc),
            flag: true,
            token: false,
            senders: SenderTable::new(alloc),
            pushes,
            drains,
            stage: SleeperStage::Awake,
        };
        (state, pushes_share, drains_share)
    }

    /// The sleeper's stage: the test of the conditions of the sleeper's steps. (not in monoio)
    pub fn stage(&self) -> SleeperStage
        ensures { result ≡ self.now.stage }
    {
        self.stage
    }

    /// A sender's stage: the test of the conditions of that sender's steps. (not in monoio)
    pub fn sender_stage(&self, sender: u64) -> SenderStage
        ensures { result ≡ (sender_of self.now.senders sender).stage }
    {
        self.senders.get(sender).stage
    }

    /// How many wakers a sender pushed. (not in monoio)
    pub fn pushed(&self, sender: u64) -> u64
        ensures { result ≡ (sender_of self.now.senders sender).pushed }
    {
        self.senders.get(sender).pushed
    }

    /// Shows the caller that this state is wake-safe, as every value of the type is. Does nothing. (not in monoio)
    pub fn is_safe(&self)
        ensures safe { WakeSafety self.now }

        // What was pushed was drained or waits.
        ensures level { self.now.drains + length self.now.queue ≡ self.now.pushes }
    {
        let _ = &self.flag;
    }

    /// An idle sender pushes a waker for a task, which joins the queue's end with the sender's next number.
    ///
    /// The sender is then at `Pushed`, and the share of pushes grows by one. If memory runs out nothing changes.
    /// (monoio: sending a `Waker` over the driver's channel)
    pub fn push(&mut self, sender: u64, task: u64, share: &mut Share<P>) -> Result<(), OutOfMemory>
        requires part { 0 < share.old.parts }
        requires admitted { CanPush self.old sender }
        ensures ok { OnOk result (self.new ≡ after_push self.old sender task) }
        ensures amount { OnOk result (share.new.amount ≡ share.old.amount + 1) }
        ensures err { OnErr result ((self.new ≡ self.old) × (share.new.amount ≡ share.old.amount)) }
        ensures parts { share.new.parts ≡ share.old.parts }
    {
        self.queue.reserve(1).map_err(|_| OutOfMemory)?;
        let number = self.senders.get(sender).pushed;
        let slot = SenderSlot {
            stage: SenderStage::Pushed,
            pushed: number + 1,
        };
        self.senders.put(sender, slot)?;
        self.queue.push_reserved(Waker {
            sender,
            number,
            task,
        });
        self.pushes.add(share, 1);
        Ok(())
    }

    /// A sender that pushed reads the flag. After true it is idle; after false it is at `Called`, and sets the token.
    /// (monoio: loading the `awake` flag)
    pub fn read_flag(&mut self, sender: u64) -> bool
        requires { CanReadFlag self.old sender }
        ensures flag { result ≡ self.old.flag }
        ensures state { self.new ≡ after_read_flag self.old sender }
    {
        self.senders.set_stage(sender, stage_after(self.flag));
        self.flag
    }

    /// A sender that read false sets the token, and is idle again. (monoio: writing the eventfd)
    pub fn set_token(&mut self, sender: u64)
        requires { CanSetToken self.old sender }
        ensures { self.new ≡ after_set_token self.old sender }
    {
        self.senders.set_stage(sender, SenderStage::Idle);
        self.token = true;
    }

    /// Sets the token if the flag is false, so that the sleeper wakes. (monoio: `UnparkHandle::unpark`)
    pub fn nudge(&mut self)
        ensures { self.new ≡ after_nudge self.old }
    {
        if !self.flag {
            self.token = true;
        }
    }

    /// Gives out all wakers that wait, in the order of their pushes, at any stage. Takes no memory.
    ///
    /// The share of drains grows by their number. (not in monoio)
    pub fn drain_rest(&mut self, share: &mut Share<D>) -> WakerList
        requires part { 0 < share.old.parts }
        ensures state { self.new ≡ after_drain_rest self.old }
        ensures given { result ≡ self.old.queue }
        ensures order { IsInOrder result }
        ensures amount { share.new.amount ≡ share.old.amount + length self.old.queue }
        ensures parts { share.new.parts ≡ share.old.parts }
    {
        let count = self.queue.len() as u64;
        let empty = Vec::new(self.alloc);
        let queue = mem::replace(&mut self.queue, empty);
        self.drains.add(share, count);
        WakerList::from_vec(queue)
    }

    // Shows a caller that has all shares of both ledgers in hand what their totals are. Does nothing.
    pub(crate) fn audit(&mut self, all_pushes: &mut Share<P>, all_drains: &mut Share<D>)
        requires pushes { all_pushes.old.parts ≡ P.parts }
        requires drains { all_drains.old.parts ≡ D.parts }
        ensures state { self.new ≡ self.old }
        ensures pushes { self.old.pushes ≡ all_pushes.old.amount }
        ensures drains { self.old.drains ≡ all_drains.old.amount }
        ensures kept_pushes { (all_pushes.new.parts ≡ all_pushes.old.parts) × (all_pushes.new.amount ≡ all_pushes.old.amount) }
        ensures kept_drains { (all_drains.new.parts ≡ all_drains.old.parts) × (all_drains.new.amount ≡ all_drains.old.amount) }
    {
        self.pushes.audit(all_pushes);
        self.drains.audit(all_drains);
    }

    /// The first drain of a round: gives out all wakers that wait, as `drain_rest` does, and goes to `First`.
    /// (monoio: receiving from the channel before parking)
    pub fn drain_first(&mut self, share: &mut Share<D>) -> WakerList
        requires part { 0 < share.old.parts }
        requires admitted { CanDrainFirst self.old }
        ensures state { self.new ≡ after_drain_first self.old }
        ensures given { result ≡ self.old.queue }
        ensures order { IsInOrder result }
        ensures amount { share.new.amount ≡ share.old.amount + length self.old.queue }
        ensures parts { share.new.parts ≡ share.old.parts }
    {
        let given = self.drain_rest(share);
        self.stage = SleeperStage::First(given.is_empty());
        given
    }

    /// Makes the flag false, so that senders set the token from now on. (monoio: storing `awake`)
    pub fn clear_flag(&mut self)
        requires { CanClearFlag self.old }
        ensures { self.new ≡ after_clear_flag self.old }
    {
        self.flag = false;
        self.stage = SleeperStage::Cleared;
    }

    /// The second drain of a round: gives out all wakers that wait, as `drain_rest` does, and goes to `Second`.
    ///
    /// What was pushed before the flag was false comes out here. (monoio: receiving again once `awake` is false)
    pub fn drain_again(&mut self, share: &mut Share<D>) -> WakerList
        requires part { 0 < share.old.parts }
        requires admitted { CanDrainAgain self.old }
        ensures state { self.new ≡ after_drain_again self.old }
        ensures given { result ≡ self.old.queue }
        ensures order { IsInOrder result }
        ensures amount { share.new.amount ≡ share.old.amount + length self.old.queue }
        ensures parts { share.new.parts ≡ share.old.parts }
    {
        let given = self.drain_rest(share);
        let both_empty = matches!(self.stage, SleeperStage::Cleared) && given.is_empty();
        self.stage = SleeperStage::Second(both_empty);
        given
    }

    /// The sleeper falls asleep, once both drains gave nothing. (monoio: entering the ring to wait)
    pub fn fall_asleep(&mut self)
        requires { CanFallAsleep self.old }
        ensures { self.new ≡ after_fall_asleep self.old }
    {
        self.stage = SleeperStage::Asleep;
    }

    /// Takes the token of a sleeper that sleeps, and answers whether it was set: the sleeper is then up.
    /// (monoio: reading the eventfd)
    pub fn take_token(&mut self) -> bool
        requires { CanTakeToken self.old }
        ensures token { result ≡ self.old.token }
        ensures state { self.new ≡ after_take_token self.old }
    {
        let set = self.token;
        if set {
            self.token = false;
            self.stage = SleeperStage::Up;
        }
        set
    }

    /// Gets the sleeper up without the token: its time limit passed, or it was not to wait. (not in monoio)
    pub fn rouse(&mut self)
        requires { CanRouse self.old }
        ensures { self.new ≡ after_rouse self.old }
    {
        self.stage = SleeperStage::Up;
    }

    /// Ends a round: the flag is true and the sleeper is awake. (monoio: storing `awake`)
    pub fn set_flag(&mut self)
        requires { CanSetFlag self.old }
        ensures { self.new ≡ after_set_flag self.old }
    {
        self.flag = true;
        self.stage = SleeperStage::Awake;
    }
}
