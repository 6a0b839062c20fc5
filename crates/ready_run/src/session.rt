//! A session: a readiness driver over handles in memory, and what it keeps by number.
ghost use Rattle.std.specs.Prelude.{ℕ, ◌≡◌, ◌<◌, true, length, IfOk, IsOk};
ghost use Rattle.rent_buf.specs.Buf.{built};
ghost use Rattle.machine.specs.Ledger.{Ledger, empty};
ghost use Rattle.ready_driver.specs.LegacyTurns.{ShowsLedger};
ghost use Rattle.ready_driver.specs.MemIo.{memory_view};
ghost use Rattle.ready_driver.specs.Readiness.{IsDriven, AreDriven};
ghost use Rattle.ready_driver.specs.Spelled.{spelled_replies, spelled_after};
ghost use Rattle.ready_run.specs.ReadySession.{driver_in, ReadyStands, ReadySteps, TakesNoMemory};
ghost use Rattle.ready_run.specs.Runs.{OneReplyEach, PendingWhenBlocked, CanceledWhenAsked};

use crate::inner::Inner;
use driver_core::{MOST_GIVEN, RunError, Tokens};
use machine::{Event, Reply};
use ready_driver::{LegacyDriver, MemIo};
use rent_buf::{Buf, OutOfMemory};
use std::alloc::Global;
use std::marker::Model;

/// A readiness driver over handles in memory, which answers events. It keeps the token of each operation that is neither returned nor
/// dropped, each canceller and each cancel handle, by number. (not in monoio)
#[derive(Drop)]
pub struct ReadySession {
    inner: Inner,
}

impl Model for ReadySession {
    ghost use Rattle.ready_run.specs.contracts.inner.Inner.{the_row};
    ghost use Rattle.ready_run.specs.declared.inner.Inner.{Inner};

    ghost Value = { Inner };

    ghost coded = { the_row.coded };

    ghost use Rattle.ready_run.specs.ReadySession.{AreParts};

    ghost view = { λ s. s.inner };

    ghost invariant = { λ s. AreParts s.inner };
}

impl ReadySession {
    /// A session with no handle and no operation: it stands for the empty ledger of each capacity. It takes no memory. (not in monoio)
    pub fn new(alloc: Global) -> ReadySession
        ensures { (capacity : ℕ) → ReadyStands result (empty capacity) }
    {
        ReadySession {
            inner: Inner {
                driver: LegacyDriver::over(alloc, MemIo::new(alloc)),
                tokens: Tokens::new(alloc),
            },
        }
    }

    /// Its driver. If the session stands for a ledger, the driver holds just the operations that aren't gone there, each with its number,
    /// its request with its buffer, its group, and whether its cancel was asked for; its handles have what that ledger's have, with the
    /// same holders, and its groups are those of that ledger, each with its mark and its members. (not in monoio)
    pub fn driver(&self) -> &LegacyDriver<MemIo, Buf>
        ensures same { result.now ≡ driver_in self.now }
        ensures shows { (L : Ledger) → ReadyStands self.now L → ShowsLedger memory_view built true result.now L }
    {
        &self.inner.driver
    }

    /// Does what an event says on the driver, and answers what the machine replies to the event as it is spelled. A poll makes a turn
    /// first. The event is any but Turn, Exec and a linked Submit. `OutOfMemory` comes if memory runs out: the session stands for the same
    /// ledger. It comes only at an event that the machine doesn't refuse, and never at a close, a drop or an end. (not in monoio)
    pub fn step(&mut self, event: &Event) -> Result<Reply, OutOfMemory>
        requires { IsDriven event.now }
        ensures answers { (L : Ledger) → ReadyStands self.old L → ReadySteps L event.now self.new result }
        ensures memory { TakesNoMemory event.now → IsOk result }
    {
        self.inner.answer(event)
    }

    /// The same step of an event that it takes: a submission's bytes are moved into its operation's buffer. (not in monoio)
    pub fn apply(&mut self, event: Event) -> Result<Reply, OutOfMemory>
        requires { IsDriven event }
        ensures answers { (L : Ledger) → ReadyStands self.old L → ReadySteps L event self.new result }
        ensures memory { TakesNoMemory event → IsOk result }
    {
        self.inner.apply(event)
    }

    /// Runs fewer than `MOST_GIVEN` events, none of which is Turn, Exec or a linked Submit, from a session with no handle and no operation
    /// on: the replies, one for each event, and the session after the last. The memory of the replies is taken first. (not in monoio)
    pub fn run(alloc: Global, events: &[Event]) -> Result<(Vec<Reply>, ReadySession), RunError>
        requires driven { AreDriven events.now }
        requires count { length events.now < MOST_GIVEN }
        // The replies are those that the machine gives to the events as they are spelled, at every capacity, and the session stands for the
        // ledger that it ends with.
        ensures replies { IfOk result (λ run. (capacity : ℕ) → run.0.items ≡ spelled_replies (empty capacity) events.now) }
        ensures stands { IfOk result (λ run. (capacity : ℕ) → ReadyStands run.1 (spelled_after (empty capacity) events.now)) }

        // There is one reply for each event.
        ensures one_each { IfOk result (λ run. OneReplyEach events.now run.0.items) }
        // An unrefused poll is Pending exactly when its operation is blocked, and ends with the error of a cancel only when the cancel of
        // that operation was asked for.
        ensures pending { IfOk result (λ run. (capacity : ℕ) → PendingWhenBlocked capacity events.now run.0.items) }
        ensures canceled { IfOk result (λ run. (capacity : ℕ) → CanceledWhenAsked capacity events.now run.0.items) }
    {
        let mut replies = Vec::with_capacity(alloc, events.len())?;
        let mut session = ReadySession::new(alloc);
        for event in events {
            let reply = session.step(event)?;
            replies.push_reserved(reply);
        }
        Ok((replies, session))
    }
}
