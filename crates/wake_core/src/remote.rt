//! Senders of wakers, each for a thread of its own.
ghost use Rattle.std.specs.Prelude.{◌≡◌, ◌+◌, ◌<◌, length, Some, OnOk, OnErr};
ghost use Rattle.wake_core.specs.Remote.{new_remote, sent_by};

use crate::cell::Shared;
use crate::fault::OutOfMemory;
use crate::gate::Gate;
use crate::locked;
use crate::locked::sender::{SendDue, SenderEnd};
use crate::state::{MAX_PUSHED, MAX_SENDERS, PUSH_PARTS};
use crate::unpark::UnparkError;
use std::marker::Model;
use std::sync::ledger::{Ledger, Share};
use std::sync::{Arc, Wait};
use std::time::Clock;

/// Sends wakers to the sleeper that made it. A contract sees its number, how many wakers it sent, and the task of the last.
///
/// It belongs to that sleeper for good: only `Sleeper::settle` takes it back, with all others, and the number of a sender that
/// was dropped isn't used again. It sends at most `MAX_PUSHED` wakers ever: at 100,000 a second, those of 12 hours.
/// (not in monoio, which keeps a channel of wakers for each thread)
#[derive(Drop)]
pub struct RemoteSender<P: Ledger, D: Ledger> {
    shared: Arc<Shared<P, D>>,
    end: SenderEnd<P>,
}

impl<P: Ledger, D: Ledger> Model for RemoteSender<P, D> {
    ghost use Rattle.std.specs.Prelude.{◌≡◌};
    ghost use Rattle.wake_core.specs.Remote.{Remote};
    ghost use Rattle.wake_core.specs.declared.locked.sender.SendDue.TheVariants.{Nothing};

    ghost Value = { Remote };

    ghost view = { λ s. record { number = s.end.number; sent = s.end.sent; last = s.end.last } };

    // No call of a send is left out.
    ghost invariant = { λ s. s.end.due ≡ Nothing };
}

// Pushes under a lock. If the state has the sender's pushed count at its limit, it releases the lock and begins anew.
fn push<P: Ledger, D: Ledger, R: Wait>(
    rt: &R,
    shared: &Shared<P, D>,
    task: u64,
    end: &mut SenderEnd<P>,
) -> Result<(), UnparkError>
    requires room { end.old.sent < MAX_PUSHED }
    requires due { end.old.due ≡ SendDue.Nothing }
    ensures ok { OnOk result (end.new ≡ record end.old { sent = end.old.sent + 1; last = Some task; due = SendDue.ReadFlag }) }
    ensures err { OnErr result (end.new ≡ end.old) }
{
    for _ in rt.forever() {
        match locked::sender::push(&mut shared.state.lock(rt), task, end) {
            Ok(true) => return Ok(()),
            Ok(false) => {}
            Err(OutOfMemory) => return Err(UnparkError::OutOfMemory),
        }
    }
    unreachable!()
}

impl<P: Ledger, D: Ledger> RemoteSender<P, D> {
    // The sender with this number, which sent nothing yet.
    pub(crate) fn over(
        shared: Arc<Shared<P, D>>,
        number: u64,
        share: Share<P>,
    ) -> RemoteSender<P, D>
        requires numbered { number < MAX_SENDERS }
        requires part { (share.parts ≡ 1) × (share.amount ≡ 0) }
        ensures { result ≡ new_remote number }
    {
        RemoteSender {
            shared,
            end: SenderEnd::new(number, share),
        }
    }

    /// Its number among the senders of its sleeper, which its wakers name. (not in monoio)
    pub fn number(&self) -> u64
        ensures { result ≡ self.now.number }
    {
        self.end.number()
    }

    /// How many wakers it sent: its share of pushes. (not in monoio)
    pub fn sent(&self) -> u64
        ensures { result ≡ self.now.sent }
    {
        self.end.sent()
    }

    /// Sends a waker for a task, and wakes the sleeper if it sleeps: pushes the waker, reads the flag, and if that was false
    /// sets the token, notifies the sleeper and rings the bell that hangs, if one does. Each of the first three is under a lock of its own.
    ///
    /// The sender sent fewer than `MAX_PUSHED` wakers, as `sent` says; afterwards it sent one more, and the last was for this
    /// task. `OutOfMemory`, the one error, comes if the queue can't grow: nothing was sent and the sender is as it was.
    ///
    /// If the sleeper was dropped, the waker is queued all the same and nobody drains it: the queue grows with each send until
    /// memory runs out or the last of the cell, its handles and its senders is dropped.
    /// (monoio: sending a `Waker` to the thread that owns the task, then `UnparkHandle::unpark`)
    pub fn send<R: Wait>(&mut self, rt: &R, task: u64) -> Result<(), UnparkError>
        requires { self.old.sent < MAX_PUSHED }
        ensures ok { OnOk result (self.new ≡ record self.old { sent = self.old.sent + 1; last = Some task }) }
        ensures err { OnErr result (self.new ≡ self.old) }
    {
        push(rt, &self.shared, task, &mut self.end)?;
        self.shared.end_send(rt, &mut self.end);
        Ok(())
    }

    /// Sends a waker as `send` does, under the same condition and with the same error, and pauses at the gate after the
    /// push, outside the lock. (not in monoio)
    pub fn send_gated<G: Gate, R: Wait + Clock>(
        &mut self,
        rt: &R,
        task: u64,
        gate: &G,
    ) -> Result<(), UnparkError>
        requires { self.old.sent < MAX_PUSHED }
        ensures ok { OnOk result (self.new ≡ record self.old { sent = self.old.sent + 1; last = Some task }) }
        ensures err { OnErr result (self.new ≡ self.old) }
    {
        push(rt, &self.shared, task, &mut self.end)?;
        gate.pause(rt, self.end.number());
        self.shared.end_send(rt, &mut self.end);
        Ok(())
    }
}

// Puts the shares of these senders together, and adds up what they sent.
pub(crate) fn gather<P: Ledger, D: Ledger>(
    all: &mut Share<P>,
    senders: Vec<RemoteSender<P, D>>,
) -> u64
    requires { P.parts ≡ PUSH_PARTS }
    ensures parts { all.new.parts ≡ all.old.parts + length senders.items }
    ensures amount { all.new.amount ≡ all.old.amount + sent_by senders.items }
    ensures total { result ≡ sent_by senders.items }
{
    let mut senders = senders;
    let mut total: u64 = 0;
    while let Some(sender) = senders.pop() {
        let RemoteSender { shared: _, end } = sender;
        let (sent, share) = end.into_share();
        all.merge(share);
        total += sent;
    }
    total
}
