//! What commands run events on: a session over the completion driver, or over the readiness driver.
ghost use Rattle.std.specs.Prelude.{◌≡◌, [], IfOk, MatchOption};
ghost use Rattle.machine.specs.Ledger.{Ledger};
ghost use Rattle.event_text.specs.TextLines.{AreEventsFor, IsFirstWrongFor, IsWrong, lines};
ghost use Rattle.event_text.specs.TextLook.{line_end};
ghost use Rattle.ready_run.specs.ReadySession.{ReadyStands};
ghost use Rattle.session_core.specs.DriverKind.{AnswersOn, DriverKind, StandsOn, Takes, completion, readiness};
ghost use Rattle.session_core.specs.Session.{SessionStands};

use crate::session::Session;
use event_text::{event_of_line, first_wrong};
use machine::{Event, Reply};
use ready_run::ReadySession;
use rent_buf::OutOfMemory;
use std::alloc::Global;

/// A session that takes events, one by one, and answers each.
pub(crate) trait Stepping {
    // The driver that it is over.
    ghost kind: { DriverKind };

    // When it stands for a ledger.
    ghost stands: { Self → Ledger → Type 0 };

    /// The number of the first line that stands for no event that it takes, counted from 1, if there is one.
    fn first_wrong(text: &[u8]) -> Option<u64>
        ensures { MatchOption result (AreEventsFor (StandsOn kind) (lines text.now)) (IsFirstWrongFor (StandsOn kind) (lines text.now)) };

    /// The event that a line with no newline in it stands for, if it stands for one that the session takes.
    fn event_of_line(alloc: Global, line: &[u8]) -> Result<Option<Event>, OutOfMemory>
        requires { line_end line.now ≡ [] }
        ensures { IfOk result (λ event. MatchOption event (IsWrong (StandsOn kind) line.now) (StandsOn kind line.now)) };

    /// Answers an event that it takes, unless memory runs out.
    fn apply(&mut self, event: Event) -> Result<Reply, OutOfMemory>
        requires { Takes kind event }
        ensures { IfOk result (λ reply. (L : Ledger) → stands self.old L → AnswersOn stands kind L event reply self.new) };
}

impl Stepping for Session {
    ghost kind = { completion };

    ghost stands = { SessionStands };

    fn first_wrong(text: &[u8]) -> Option<u64> {
        first_wrong::<false>(text)
    }

    fn event_of_line(alloc: Global, line: &[u8]) -> Result<Option<Event>, OutOfMemory> {
        event_of_line::<false>(alloc, line)
    }

    fn apply(&mut self, event: Event) -> Result<Reply, OutOfMemory> {
        Session::apply(self, event)
    }
}

impl Stepping for ReadySession {
    ghost kind = { readiness };

    ghost stands = { ReadyStands };

    fn first_wrong(text: &[u8]) -> Option<u64> {
        first_wrong::<true>(text)
    }

    fn event_of_line(alloc: Global, line: &[u8]) -> Result<Option<Event>, OutOfMemory> {
        event_of_line::<true>(alloc, line)
    }

    fn apply(&mut self, event: Event) -> Result<Reply, OutOfMemory> {
        ReadySession::apply(self, event)
    }
}
