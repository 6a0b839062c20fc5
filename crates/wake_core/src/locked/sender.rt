//! A sender's own end, and what a sender does under the lock.
ghost use Rattle.std.specs.Prelude.{◌≡◌, ◌+◌, ◌<◌, ◌≤◌, ◌↔◌, ◌∷◌, ◌++◌, [], Ok, Some, None, true, false, OnErr};
ghost use Rattle.wake_core.specs.Ends.{due_after};
ghost use Rattle.wake_core.specs.Locked.{Makes, reading, has_ended, calling, ending, pushing};
ghost use Rattle.wake_core.specs.SenderTable.{sender_of};
ghost use Rattle.wake_core.specs.WakeState.{next_waker};

use crate::bell::Bell;
use crate::calls::Calls;
use crate::fault::OutOfMemory;
use crate::senders::SenderStage;
use crate::state::{MAX_PUSHED, MAX_SENDERS, WakeState};
use std::marker::Model;
use std::sync::ledger::{Ledger, Share};

// What a sender is to do next to end the send that it is in.
#[derive(Clone, Copy)]
pub(crate) enum SendDue {
    // Nothing: it is in no send.
    Nothing,
    // It pushed, and is to read the flag.
    ReadFlag,
    // It read false, and is to set the token.
    SetToken,
    // It set the token, and is to notify the sleeper.
    Notify,
    // It notified the sleeper, and is to ring the bell that hangs.
    Ring,
}

// A sender's own end: its share of pushes, the task that it sent last, and what is due of its send. Only the calls below
// change it.
#[derive(Drop)]
pub(crate) struct SenderEnd<P: Ledger> {
    number: u64,
    sent: u64,
    last: Option<u64>,
    due: SendDue,
    share: Share<P>,
}

impl<P: Ledger> Model for SenderEnd<P> {
    ghost use Rattle.std.specs.Prelude.{◌≡◌, ◌<◌, ◌≤◌};
    ghost use Rattle.wake_core.specs.Ends.{Sending};
    ghost use Rattle.wake_core.specs.declared.state.TheConstants.{MAX_PUSHED, MAX_SENDERS};

    ghost Value = { Sending };

    ghost view = { λ s. record { number = s.number; sent = s.sent; last = s.last; due = s.due } };

    ghost invariant = { λ s. (s.share.parts ≡ 1) × (s.share.amount ≡ s.sent) × (s.number < MAX_SENDERS) × (s.sent ≤ MAX_PUSHED) };
}

impl<P: Ledger> SenderEnd<P> {
    // The end of the sender with this number, which sent nothing yet.
    pub(crate) fn new(number: u64, share: Share<P>) -> SenderEnd<P>
        requires numbered { number < MAX_SENDERS }
        requires part { (share.parts ≡ 1) × (share.amount ≡ 0) }
        ensures { result ≡ record { number = number; sent = 0; last = None; due = SendDue.Nothing } }
    {
        SenderEnd {
            number,
            sent: 0,
            last: None,
            due: SendDue::Nothing,
            share,
        }
    }

    // Its sender's number.
    pub(crate) fn number(&self) -> u64
        ensures number { result ≡ self.now.number }
        ensures bound { result < MAX_SENDERS }
    {
        self.number
    }

    // How many wakers it pushed.
    pub(crate) fn sent(&self) -> u64
        ensures sent { result ≡ self.now.sent }
        ensures bound { result ≤ MAX_PUSHED }
    {
        self.sent
    }

    // Returns the share, and how many wakers it counts.
    pub(crate) fn into_share(self) -> (u64, Share<P>)
        ensures sent { result.0 ≡ self.sent }
        ensures share { (result.1.parts ≡ 1) × (result.1.amount ≡ self.sent) }
        ensures bound { self.sent ≤ MAX_PUSHED }
    {
        let SenderEnd {
            number: _,
            sent,
            last: _,
            due: _,
            share,
        } = self;
        (sent, share)
    }
}

// Makes the sender idle: it ends the send that it is in, if any.
pub(crate) fn end_send<P: Ledger, D: Ledger>(state: &mut WakeState<P, D>, sender: u64)
    ensures steps { Makes state.old (ending state.old sender) state.new }
    ensures queue { state.new.queue ≡ state.old.queue }
    ensures idle { (sender_of state.new.senders sender).stage ≡ SenderStage.Idle }
    ensures pushed { (sender_of state.new.senders sender).pushed ≡ (sender_of state.old.senders sender).pushed }
{
    match state.sender_stage(sender) {
        SenderStage::Idle => {}
        SenderStage::Pushed => {
            if !state.read_flag(sender) {
                state.set_token(sender);
            }
        }
        SenderStage::Called => state.set_token(sender),
    }
}

// The sender pushes a waker, and the answer is true: it is to read the flag then. A sender that isn't idle first ends the
// send that it is in. One that pushed as many wakers as it may does nothing, and the answer is false.
pub(crate) fn push<P: Ledger, D: Ledger>(
    state: &mut WakeState<P, D>,
    task: u64,
    end: &mut SenderEnd<P>,
) -> Result<bool, OutOfMemory>
    requires room { end.old.sent < MAX_PUSHED }
    requires due { end.old.due ≡ SendDue.Nothing }
    ensures full { (result ≡ Ok false) ↔ (MAX_PUSHED ≤ (sender_of state.old.senders end.old.number).pushed) }
    ensures kept { result ≡ Ok false → (state.new ≡ state.old) × (end.new ≡ end.old) }

    // The waker that it pushed names this sender and this task.
    ensures pushed { result ≡ Ok true → Makes state.old (pushing state.old end.old.number task) state.new }
    ensures queue { result ≡ Ok true → state.new.queue ≡ state.old.queue ++ next_waker state.old end.old.number task ∷ [] }
    ensures due { result ≡ Ok true → end.new ≡ record end.old { sent = end.old.sent + 1; last = Some task; due = SendDue.ReadFlag } }

    ensures err { OnErr result (Makes state.old (ending state.old end.old.number) state.new) }
    ensures refused { OnErr result (end.new ≡ end.old) }
{
    let sender = end.number;
    if state.pushed(sender) >= MAX_PUSHED {
        return Ok(false);
    }
    end_send(state, sender);
    state.push(sender, task, &mut end.share)?;
    end.sent += 1;
    end.last = Some(task);
    end.due = SendDue::ReadFlag;
    Ok(true)
}

// What is due once a sender read the flag.
fn next_due(ended: bool) -> SendDue
    ensures { result ≡ due_after ended }
{
    if ended {
        SendDue::Nothing
    } else {
        SendDue::SetToken
    }
}

// The sender reads the flag where it is at `Pushed`. Answers whether its send has ended; else it is to set the token.
pub(crate) fn read_flag<P: Ledger, D: Ledger>(
    state: &mut WakeState<P, D>,
    end: &mut SenderEnd<P>,
) -> bool
    requires { end.old.due ≡ SendDue.ReadFlag }
    ensures steps { Makes state.old (reading (sender_of state.old.senders end.old.number).stage end.old.number) state.new }
    ensures ended { result ≡ has_ended (sender_of state.old.senders end.old.number).stage state.old.flag }
    ensures due { end.new ≡ record end.old { due = due_after result } }
{
    let sender = end.number;
    let ended = match state.sender_stage(sender) {
        SenderStage::Idle => true,
        SenderStage::Pushed => state.read_flag(sender),
        SenderStage::Called => false,
    };
    end.due = next_due(ended);
    ended
}

// The sender sets the token where it is at `Called`. It is to notify the sleeper then.
pub(crate) fn set_token<P: Ledger, D: Ledger>(state: &mut WakeState<P, D>, end: &mut SenderEnd<P>)
    requires { end.old.due ≡ SendDue.SetToken }
    ensures steps { Makes state.old (calling (sender_of state.old.senders end.old.number).stage end.old.number) state.new }
    ensures due { end.new ≡ record end.old { due = SendDue.Notify } }
{
    match state.sender_stage(end.number) {
        SenderStage::Idle | SenderStage::Pushed => {}
        SenderStage::Called => state.set_token(end.number),
    }
    end.due = SendDue::Notify;
}

// Notifies a sleeper that waits on the condition variable. The bell is to be rung then.
pub(crate) fn notify<P: Ledger>(calls: &Calls, end: &mut SenderEnd<P>)
    requires { end.old.due ≡ SendDue.Notify }
    ensures { end.new ≡ record end.old { due = SendDue.Ring } }
{
    calls.notify();
    end.due = SendDue::Ring;
}

// Rings the bell of a sleeper that waits in a poll, if one hangs, which ends the send.
pub(crate) fn ring<P: Ledger>(hanging: &Option<Bell>, end: &mut SenderEnd<P>)
    requires { end.old.due ≡ SendDue.Ring }
    ensures { end.new ≡ record end.old { due = SendDue.Nothing } }
{
    if let Some(bell) = hanging {
        bell.ring();
    }
    end.due = SendDue::Nothing;
}
