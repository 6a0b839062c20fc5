//! Writing the events that a seed generates.
ghost use Rattle.std.specs.Prelude.{◌≡◌, IfOk};
ghost use Rattle.session_core.specs.Generated.{generated_events};
ghost use Rattle.session_core.specs.Ends.{SinkEnds, writing};
ghost use Rattle.session_core.specs.Trace.{TracesFor, event_lines};

use crate::generated::generated;
use crate::output::write_last;
use crate::top::Status;
use event_text::write_event;
use machine::Event;
use rent_buf::OutOfMemory;
use rent_io::ByteSink;
use std::alloc::Global;

/// Writes the text of each event that a seed generates, and a newline.
pub(crate) fn run_trace<K: ByteSink>(alloc: Global, seed: u32, rounds: u32, sink: &mut K) -> Status
    ensures traces { TracesFor K.tells (generated_events seed rounds) (K.taken sink.old) (K.taken sink.new) result }
    ensures ends { SinkEnds K.tells (writing K.taken K.faults K.is_flushed sink.old sink.new) result }
{
    let Ok(text) = trace(alloc, seed, rounds) else {
        return Status::OutOfMemory;
    };
    match write_last(text.as_slice(), sink) {
        Ok(()) => Status::Done,
        Err(_) => Status::WriteFault,
    }
}

// The text of each event that a seed generates, and a newline.
fn trace(alloc: Global, seed: u32, rounds: u32) -> Result<Vec<u8>, OutOfMemory>
    ensures { IfOk result (λ text. text.items ≡ event_lines (generated_events seed rounds)) }
{
    let events = generated(alloc, seed, rounds)?;
    text_of(alloc, events.as_slice())
}

// The text of each event, and a newline.
fn text_of(alloc: Global, events: &[Event]) -> Result<Vec<u8>, OutOfMemory>
    ensures { IfOk result (λ text. text.items ≡ event_lines events.now) }
{
    let mut text = Vec::new(alloc);
    for event in events {
        write_event(event, &mut text)?;
        text.push(b'\n')?;
    }
    Ok(text)
}
