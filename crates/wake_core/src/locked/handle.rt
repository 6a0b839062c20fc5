//! What a handle does under the lock, and then to the sleeper that waits.
ghost use Rattle.std.specs.Prelude.{◌≡◌, ◌∷◌, []};
ghost use Rattle.wake_core.specs.Locked.{Makes};
ghost use Rattle.wake_core.specs.Step.{Nudge};

use crate::bell::Bell;
use crate::calls::Calls;
use crate::locked::sender::SendDue;
use crate::state::WakeState;
use std::sync::ledger::Ledger;

// What is left of an unpark. It may be dropped once nothing is due.
pub(crate) struct Nudging {
    due: SendDue,
}

impl Drop for Nudging {
    fn drop(self)
        requires { self.due ≡ SendDue.Nothing }
    {
        let Nudging { due: _ } = self;
    }
}

impl Nudging {
    // An unpark begins: the token is to be set where the flag is false.
    pub(crate) fn new() -> Nudging
        ensures { result.due ≡ SendDue.SetToken }
    {
        Nudging {
            due: SendDue::SetToken,
        }
    }
}

// Sets the token where the flag is false. The sleeper is to be notified then.
pub(crate) fn nudge<P: Ledger, D: Ledger>(state: &mut WakeState<P, D>, nudging: &mut Nudging)
    requires { nudging.old.due ≡ SendDue.SetToken }
    ensures steps { Makes state.old (Nudge ∷ []) state.new }
    ensures due { nudging.new.due ≡ SendDue.Notify }
{
    state.nudge();
    nudging.due = SendDue::Notify;
}

// Notifies a sleeper that waits on the condition variable. The bell is to be rung then.
pub(crate) fn notify(calls: &Calls, nudging: &mut Nudging)
    requires { nudging.old.due ≡ SendDue.Notify }
    ensures { nudging.new.due ≡ SendDue.Ring }
{
    calls.notify();
    nudging.due = SendDue::Ring;
}

// Rings the bell of a sleeper that waits in a poll, if one hangs, which ends the unpark.
pub(crate) fn ring(hanging: &Option<Bell>, nudging: Nudging)
    requires { nudging.due ≡ SendDue.Ring }
{
    if let Some(bell) = hanging {
        bell.ring();
    }
    let mut nudging = nudging;
    nudging.due = SendDue::Nothing;
}
