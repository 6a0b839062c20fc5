//! The events that the lines of a text stand for.
ghost use Rattle.std.specs.Prelude.{◌≡◌, List, ℕ, IfOk, IfErr};
ghost use Rattle.std.specs.List.{AllZip};
ghost use Rattle.machine.specs.declared.ledger.Event.{Event};
ghost use Rattle.event_text.specs.TextEvent.{AreExternal, IsEvent, StandsFor, StandsForExternal, event_text, stands_for};
ghost use Rattle.event_text.specs.TextLines.{lines, AreEvents, AreEventsFor, IfBadLine, IfShort, IsFirstWrong};
ghost use Rattle.event_text.specs.TextLines.{IsFirstWrongFor};

use crate::event::event_of_line;
use crate::valid::first_wrong;
use crate::word::first_line;
use machine::Event;
use rent_buf::OutOfMemory;
use std::alloc::Global;
use thiserror::Error;

/// Why lines gave no events. (not in monoio)
#[derive(Clone, Copy, Debug, PartialEq, Eq, Error)]
pub enum LinesError {
    /// The line of this number, counted from 1, is the first that is no event's text.
    #[error("BadLine")]
    BadLine(u64),
    /// Memory ran out, and no line is wrong.
    #[error("OutOfMemory")]
    OutOfMemory,
}

/// The events that the lines of a text stand for, one for each line, in order. A wrong line is found before memory is taken, so
/// `OutOfMemory` comes only if no line is wrong. (not in monoio)
pub fn read_events(alloc: Global, text: &[u8]) -> Result<Vec<Event>, LinesError>
    ensures events { IfOk result (λ events. AllZip StandsFor (lines text.now) events.items) }
    ensures bad_line { IfErr result (IfBadLine (IsFirstWrong (lines text.now))) }
    ensures memory { IfErr result (IfShort (AreEvents (lines text.now))) }
{
    read_lines::<false>(alloc, text)
}

/// As `read_events`, where only external events are taken: those of a command in which no line is a turn, an execution or a linked
/// submission. The line of one of these is wrong. (not in monoio)
pub fn read_external_events(alloc: Global, text: &[u8]) -> Result<Vec<Event>, LinesError>
    ensures events { IfOk result (λ events. AllZip StandsForExternal (lines text.now) events.items) }
    ensures external { IfOk result (λ events. AreExternal events.items) }
    ensures bad_line { IfErr result (IfBadLine (IsFirstWrongFor StandsForExternal (lines text.now))) }
    ensures memory { IfErr result (IfShort (AreEventsFor StandsForExternal (lines text.now))) }
{
    read_lines::<true>(alloc, text)
}

// What both give: the events that are taken, or why there are none.
fn read_lines<const EXTERNAL: bool>(alloc: Global, text: &[u8]) -> Result<Vec<Event>, LinesError>
    ensures events { IfOk result (λ events. AllZip (stands_for EXTERNAL) (lines text.now) events.items) }
    ensures bad_line { IfErr result (IfBadLine (IsFirstWrongFor (stands_for EXTERNAL) (lines text.now))) }
    ensures memory { IfErr result (IfShort (AreEventsFor (stands_for EXTERNAL) (lines text.now))) }
{
    match first_wrong::<EXTERNAL>(text) {
        Some(line) => Err(LinesError::BadLine(line)),
        None => match read_right::<EXTERNAL>(alloc, text) {
            Ok(events) => Ok(events),
            Err(_) => Err(LinesError::OutOfMemory),
        },
    }
}

// The events of lines that stand for some.
fn read_right<const EXTERNAL: bool>(alloc: Global, text: &[u8]) -> Result<Vec<Event>, OutOfMemory>
    requires { AreEventsFor (stands_for EXTERNAL) (lines text.now) }
    ensures { IfOk result (λ events. AllZip (stands_for EXTERNAL) (lines text.now) events.items) }
{
    let mut events = Vec::new(alloc);
    let mut rest = text;
    while !rest.is_empty() {
        let (line, behind) = first_line(rest);
        match event_of_line::<EXTERNAL>(alloc, line)? {
            Some(event) => events.push(event)?,
            None => unreachable!(),
        }
        rest = behind;
    }
    Ok(events)
}

/// No two events have the same text, so a line stands for one event at most. (not in monoio)
pub fn texts_differ()
    ensures events { (a b : Event) → IsEvent a → IsEvent b → event_text a ≡ event_text b → a ≡ b }
    ensures lines { (line : List ℕ) (a b : Event) → StandsFor line a → StandsFor line b → a ≡ b }
{}
