//! The lines that a run over a faulty ring takes: events, completions and looks at the ring.
ghost use Rattle.std.specs.Prelude.{◌≡◌, ◌++◌, ℕ, List, [], IfOk, MatchOption, codes};
ghost use Rattle.machine.specs.declared.request.Told.{Told as Reported};
ghost use Rattle.event_text.specs.TextLook.{line_end};
ghost use Rattle.fault_run.specs.Lines.{IsTaken, Says, SaysNothing, IsNoCompletion};

use event_text::event_of_line;
use machine::{Event, Told};
use rent_buf::OutOfMemory;
use std::alloc::Global;

// The first word of a completion.
const COMPLETE: &[u8; 8] = b"complete";

/// What a line stands for. (not in monoio)
#[derive(Debug, Drop)]
pub enum Line {
    /// An event: any that a user of the driver makes, or a turn. None that feeds, ends or looks at a handle, and none that executes.
    Of(Event),
    /// `complete WORD ok K` or `complete WORD err E`: a completion of this data word with this outcome joins those that are ready, whether
    /// anybody asked for it or not.
    Complete(u64, Told),
    /// `ring`: the ring is looked at.
    Ring,
}

/// What a line with no newline in it stands for, if it stands for anything. `OutOfMemory` comes if memory runs out.
pub(crate) fn line_of(alloc: Global, text: &[u8]) -> Result<Option<Line>, OutOfMemory>
    // There is no newline in it.
    requires { line_end text.now ≡ [] }
    ensures { IfOk result (λ line. MatchOption line (SaysNothing text.now) (Says text.now)) }
{
    match event_of_line::<false>(alloc, text) {
        Err(why) => Err(why),
        Ok(Some(event)) => Ok(taken(event)),
        Ok(None) => {
            if text == b"ring".as_slice() {
                return Ok(Some(Line::Ring));
            }
            completion_of(alloc, text)
        }
    }
}

// An event as a line, if it is taken.
fn taken(event: Event) -> Option<Line>
    ensures { MatchOption result (IsTaken event → ⊥) (λ line. (line ≡ Line.Of event) × IsTaken event) }
{
    match &event {
        Event::Feed(_, _)
        | Event::FeedMessage(_, _, _)
        | Event::End(_)
        | Event::Look(_)
        | Event::Submit(_, _, true)
        | Event::Exec(_, _) => None,
        _ => Some(Line::Of(event)),
    }
}

// The completion that a line says. Behind its first word are the words of an execution, whose place is the data word.
fn completion_of(alloc: Global, text: &[u8]) -> Result<Option<Line>, OutOfMemory>
    requires { line_end text.now ≡ [] }
    ensures { IfOk result (λ line. MatchOption line (IsNoCompletion text.now) (Says text.now)) }
{
    let Some(rest) = behind_complete(text) else {
        return Ok(None);
    };
    let execution = execution_text(alloc, rest)?;
    match event_of_line::<false>(alloc, execution.as_slice()) {
        Ok(Some(event)) => Ok(executed(event)),
        Ok(None) => Ok(None),
        Err(why) => Err(why),
    }
}

// The completion that an execution's event stands for, if it is one.
fn executed(event: Event) -> Option<Line>
    ensures { MatchOption result ((place : ℕ) (told : Reported) → event ≡ Event.Exec place told → ⊥)
        (λ line. (place : ℕ) × (told : Reported) × (event ≡ Event.Exec place told) × (line ≡ Line.Complete place told)) }
{
    match event {
        Event::Exec(place, told) => Some(Line::Complete(place as u64, told)),
        _ => None,
    }
}

// What is behind the word `complete` in front of a text.
fn behind_complete(text: &[u8]) -> Option<&[u8]>
    ensures { MatchOption result ((rest : List ℕ) → text.now ≡ codes "complete" ++ rest → ⊥)
        (λ rest. text.now ≡ codes "complete" ++ rest.now) }
{
    if text.len() < COMPLETE.len() {
        return None;
    }
    let (name, rest) = text.split_at(COMPLETE.len());
    if name != COMPLETE.as_slice() {
        return None;
    }
    Some(rest)
}

// `exec` in front of a text.
fn execution_text(alloc: Global, rest: &[u8]) -> Result<Vec<u8>, OutOfMemory>
    ensures { IfOk result (λ text. text.items ≡ codes "exec" ++ rest.now) }
{
    let mut text = Vec::new(alloc);
    text.extend_from_slice(b"exec")?;
    text.extend_from_slice(rest)?;
    Ok(text)
}
