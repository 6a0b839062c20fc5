//! The run of one line.
ghost use Rattle.std.specs.Prelude.{◌≡◌, ◌≤◌, ◌⊎◌, [], None, Some, IfOk, IfErr, IfNone, IfSome, OnOk, IsTrue};
ghost use Rattle.machine.specs.Ledger.{Ledger};
ghost use Rattle.event_text.specs.TextLook.{line_end};
ghost use Rattle.rent_io.specs.Call.{writing};
ghost use Rattle.session_core.specs.Session.{SessionStands};
ghost use Rattle.session_core.specs.declared.top.Stop.TheVariants.{Line};
ghost use Rattle.live_run.specs.Living.{IsWhole, LineRuns, Replied, RefusesLine, RunsEvent, SinkStops};

use event_text::{event_of_line, write_reply};
use machine::Event;
use memchr::memchr;
use rent_buf::{ByteList, OutOfMemory};
use rent_io::ByteSink;
use session_core::{Session, Status, Stop, write_last, write_number};
use std::alloc::Global;

/// The first line of a text and what is behind it, if a newline ends that line.
pub(crate) fn whole_line(text: &[u8]) -> Option<(&[u8], &[u8])>
    ensures whole { IfSome result (λ parts. IsWhole text.now parts.0.now parts.1.now) }
    ensures none { IfNone result (line_end text.now ≡ []) }
{
    match memchr(b'\n', text) {
        Some(at) => Some((&text[..at], &text[at + 1..])),
        None => None,
    }
}

/// Runs the event of a line, and writes and flushes its reply; or writes and flushes the number of a wrong line, and names it.
pub(crate) fn run_line<K: ByteSink>(
    alloc: Global,
    session: &mut Session,
    line: &[u8],
    number: u64,
    sink: &mut K,
    stop: &mut Option<Stop>,
) -> Result<(), Status>
    requires one { line_end line.now ≡ [] }
    requires running { stop.old ≡ None }
    ensures runs { LineRuns K.tells line.now number session.old session.new (K.taken sink.old) (K.taken sink.new) stop.new result }
    ensures unnamed { OnOk result (stop.new ≡ None) }
    ensures flushed { OnOk result (IsTrue (K.is_flushed sink.new)) }
    ensures order { OnOk result (K.faults sink.old ≤ K.faults sink.new) }
    ensures calm { OnOk result (IsTrue K.tells → K.faults sink.new ≡ K.faults sink.old) }
    ensures why { IfErr result (SinkStops K.tells (writing K.taken K.faults K.is_flushed sink.old sink.new)) }
{
    match event_of_line::<false>(alloc, line) {
        Ok(Some(event)) => run_event(alloc, session, event, number, sink, stop),
        Ok(None) => Err(refuse_line(alloc, line, number, sink, stop)),
        Err(_) => {
            *stop = Some(Stop::Short(number));
            Err(Status::OutOfMemory)
        }
    }
}

// Runs an event, and writes and flushes its reply.
fn run_event<K: ByteSink>(
    alloc: Global,
    session: &mut Session,
    event: Event,
    number: u64,
    sink: &mut K,
    stop: &mut Option<Stop>,
) -> Result<(), Status>
    requires { stop.old ≡ None }
    ensures runs { RunsEvent K.tells event number session.old session.new (K.taken sink.old) (K.taken sink.new) stop.new result }
    ensures unnamed { OnOk result (stop.new ≡ None) }
    ensures flushed { OnOk result (IsTrue (K.is_flushed sink.new)) }
    ensures order { OnOk result (K.faults sink.old ≤ K.faults sink.new) }
    ensures calm { OnOk result (IsTrue K.tells → K.faults sink.new ≡ K.faults sink.old) }
    ensures why { IfErr result (SinkStops K.tells (writing K.taken K.faults K.is_flushed sink.old sink.new)) }
{
    let Ok(text) = reply_line(alloc, session, event) else {
        *stop = Some(Stop::Short(number));
        return Err(Status::OutOfMemory);
    };
    match write_last(text.as_slice(), sink) {
        Ok(()) => Ok(()),
        Err(_) => Err(Status::WriteFault),
    }
}

// Runs an event: the text of its reply and a newline.
fn reply_line(alloc: Global, session: &mut Session, event: Event) -> Result<Vec<u8>, OutOfMemory>
    ensures { IfOk result (λ text. (L : Ledger) → SessionStands session.old L → Replied L event session.new text.items) }
{
    let reply = session.apply(event)?;
    let mut text = Vec::new(alloc);
    write_reply(&reply, &mut text)?;
    text.push(b'\n')?;
    Ok(text)
}

// Writes and flushes the number of a wrong line, and names it.
fn refuse_line<K: ByteSink>(
    alloc: Global,
    line: &[u8],
    number: u64,
    sink: &mut K,
    stop: &mut Option<Stop>,
) -> Status
    requires { stop.old ≡ None }
    ensures refuses { RefusesLine K.tells line.now number (K.taken sink.old) (K.taken sink.new) stop.new result }
    ensures why { SinkStops K.tells (writing K.taken K.faults K.is_flushed sink.old sink.new) result }
{
    name_line(alloc, line, number, stop);
    match write_number(b"line ", number, sink) {
        Ok(()) => Status::BadLine,
        Err(_) => Status::WriteFault,
    }
}

// Names a wrong line, if there is memory for its text.
fn name_line(alloc: Global, line: &[u8], number: u64, stop: &mut Option<Stop>)
    requires { stop.old ≡ None }
    ensures { (stop.new ≡ None) ⊎ (stop.new ≡ Some (Line number line.now)) }
{
    let mut text = Vec::new(alloc);
    match text.extend_from_slice(line) {
        Ok(()) => *stop = Some(Stop::Line(number, ByteList::from_vec(text))),
        Err(_) => {}
    }
}
