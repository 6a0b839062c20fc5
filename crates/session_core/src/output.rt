//! Writing replies and lines to a sink.
ghost use Rattle.std.specs.Prelude.{◌≡◌, ◌<◌, ◌≤◌, ◌++◌, [], List, Err, None, IfOk, IfErr, OnOk, OnErr, IsTrue, decimal};
ghost use Rattle.std.specs.List.{AllZip};
ghost use Rattle.machine.specs.Ledger.{Ledger};
ghost use Rattle.machine.specs.declared.ledger.Event.{Event};
ghost use Rattle.event_text.specs.TextLines.{AreEventsFor, lines};
ghost use Rattle.session_core.specs.DriverKind.{StandsOn, after_on, replies_on};
ghost use Rattle.event_text.specs.TextReply.{reply_text};
ghost use Rattle.session_core.specs.Top.{ended, reply_lines};
ghost use Rattle.session_core.specs.Stops.{CutsFor, CutStops};
ghost use Rattle.session_core.specs.Writes.{RefusesFor, Sent, WhyUnwritten, WritesAll};

use crate::input::NoEvents;
use crate::stepping::Stepping;
use crate::top::{Status, Stop};
use event_text::{first_line, write_reply};
use itoa::Buffer;
use machine::Reply;
use rent_buf::OutOfMemory;
use rent_io::{ByteSink, Failed};
use std::alloc::Global;

// From how many bytes on the text of replies is written.
const PIECE: usize = 65536;

/// Why not all of a text was written.
pub(crate) enum Unwritten {
    /// The sink failed.
    Fault,
    /// Memory ran out.
    OutOfMemory,
}

/// Runs the events that the lines of a text stand for, each as it is read, writes the text of each reply and a newline, in large pieces,
/// and flushes; then it gives the session back. If memory runs out the replies so far are written, and the line is named.
pub(crate) fn write_replies<M: Stepping + Drop, K: ByteSink>(
    alloc: Global,
    session: M,
    text: &[u8],
    sink: &mut K,
    stop: &mut Option<Stop>,
) -> Result<M, Unwritten>
    requires right { AreEventsFor (StandsOn M.kind) (lines text.now) }
    requires running { stop.old ≡ None }
    ensures stands { IfOk result (λ new. (events : List Event) → AllZip (StandsOn M.kind) (lines text.now) events → (L : Ledger) →
        M.stands session L → M.stands new (after_on M.kind L events)) }
    ensures ok { OnOk result ((events : List Event) → AllZip (StandsOn M.kind) (lines text.now) events → (L : Ledger) →
        M.stands session L → IsTrue K.tells → K.taken sink.new ≡ K.taken sink.old ++ reply_lines (replies_on M.kind L events)) }
    ensures flushed { OnOk result (IsTrue (K.is_flushed sink.new)) }
    ensures why { IfErr result (λ why. (events : List Event) → AllZip (StandsOn M.kind) (lines text.now) events → (L : Ledger) →
        M.stands session L → WhyUnwritten K.tells (reply_lines (replies_on M.kind L events)) (K.taken sink.old) (K.taken sink.new)
        (K.faults sink.old) (K.faults sink.new) why) }
    ensures unnamed { OnOk result (stop.new ≡ None) }
    ensures stops { IfErr result (λ why. (events : List Event) → AllZip (StandsOn M.kind) (lines text.now) events → (L : Ledger) →
        M.stands session L → CutStops M.kind K.tells L events (K.taken sink.old) (K.taken sink.new) stop.new why) }
{
    let mut running = session;
    let mut out = Vec::new(alloc);
    let mut rest = text;
    let mut number: u64 = 0;
    while !rest.is_empty() {
        let (line, behind) = first_line(rest);
        match M::event_of_line(alloc, line) {
            Err(_) => return Err(cut_short(number + 1, out.as_slice(), sink, stop)),
            Ok(None) => unreachable!(),
            Ok(Some(event)) => match running.apply(event) {
                Err(_) => return Err(cut_short(number + 1, out.as_slice(), sink, stop)),
                Ok(reply) => match write_next(reply, &mut out, sink) {
                    Err(Unwritten::Fault) => return Err(Unwritten::Fault),
                    Err(Unwritten::OutOfMemory) => {
                        return Err(cut_short(number + 1, out.as_slice(), sink, stop));
                    }
                    Ok(()) => {}
                },
            },
        }
        rest = behind;
        number += 1;
    }
    match write_last(out.as_slice(), sink) {
        Ok(()) => Ok(running),
        Err(_) => Err(Unwritten::Fault),
    }
}

// Writes what waits, and names the line at which memory ran out.
#[cold]
#[inline(never)]
fn cut_short<K: ByteSink>(
    number: u64,
    out: &[u8],
    sink: &mut K,
    stop: &mut Option<Stop>,
) -> Unwritten
    requires { stop.old ≡ None }
    ensures { CutsFor K.tells out.now (K.taken sink.old) (K.taken sink.new) (K.faults sink.old) (K.faults sink.new) number stop.new result }
{
    match write_last(out, sink) {
        Ok(()) => {
            *stop = Some(Stop::Short(number));
            Unwritten::OutOfMemory
        }
        Err(_) => Unwritten::Fault,
    }
}

// Appends the text of a reply and a newline to what waits, and writes that where it is a large piece. If memory runs out nothing was
// appended or written.
#[inline(always)]
fn write_next<K: ByteSink>(reply: Reply, out: &mut Vec<u8>, sink: &mut K) -> Result<(), Unwritten>
    ensures ok { OnOk result (IsTrue K.tells → Sent (out.old.items ++ ended (reply_text reply)) out.new.items (K.taken sink.old)
        (K.taken sink.new)) }
    ensures faults { OnOk result (K.faults sink.old ≤ K.faults sink.new) }
    ensures calm { OnOk result (IsTrue K.tells → K.faults sink.new ≡ K.faults sink.old) }
    ensures why { IfErr result (WhyUnwritten K.tells (out.old.items ++ ended (reply_text reply)) (K.taken sink.old) (K.taken sink.new)
        (K.faults sink.old) (K.faults sink.new)) }
    ensures short { result ≡ Err Unwritten.OutOfMemory → (out.new.items ≡ out.old.items) × (sink.new ≡ sink.old) }
{
    match put_line(reply, out) {
        Ok(()) => {}
        Err(_) => return Err(Unwritten::OutOfMemory),
    }
    if out.len() < PIECE {
        return Ok(());
    }
    match write_all(out.as_slice(), sink) {
        Ok(()) => {
            out.clear();
            Ok(())
        }
        Err(_) => Err(Unwritten::Fault),
    }
}

// Appends the text of a reply and a newline. If memory runs out nothing was appended.
#[inline(always)]
fn put_line(reply: Reply, out: &mut Vec<u8>) -> Result<(), OutOfMemory>
    ensures ok { OnOk result (out.new.items ≡ out.old.items ++ ended (reply_text reply)) }
    ensures err { OnErr result (out.new.items ≡ out.old.items) }
{
    let before = out.len();
    write_reply(&reply, out)?;
    match out.push(b'\n') {
        Ok(()) => Ok(()),
        Err(_) => {
            out.truncate(before);
            Err(OutOfMemory)
        }
    }
}

// A call that may fail is matched, not asked by `?`, where the proof has to name its error.

/// Writes words, a number and a newline, and flushes; at a fault a prefix of them was written. It takes no memory. (not in monoio)
pub fn write_number<K: ByteSink>(words: &[u8], number: u64, sink: &mut K) -> Result<(), Failed>
    ensures writes { WritesAll K.tells (ended (words.now ++ decimal number)) (K.taken sink.old) (K.taken sink.new) (K.faults sink.old)
        (K.faults sink.new) result }
    ensures flushed { OnOk result (IsTrue (K.is_flushed sink.new)) }
{
    match write_all(words, sink) {
        Ok(()) => write_digits(number, sink),
        Err(failed) => Err(failed),
    }
}

// Writes a number and a newline, and flushes.
fn write_digits<K: ByteSink>(number: u64, sink: &mut K) -> Result<(), Failed>
    ensures writes { WritesAll K.tells (ended (decimal number)) (K.taken sink.old) (K.taken sink.new) (K.faults sink.old)
        (K.faults sink.new) result }
    ensures flushed { OnOk result (IsTrue (K.is_flushed sink.new)) }
{
    let mut buffer = Buffer::new();
    match write_all(buffer.format(number).as_bytes(), sink) {
        Ok(()) => write_last(b"\n", sink),
        Err(failed) => Err(failed),
    }
}

/// Writes bytes and flushes; at a fault a prefix of them was written. (not in monoio)
pub fn write_last<K: ByteSink>(bytes: &[u8], sink: &mut K) -> Result<(), Failed>
    ensures writes { WritesAll K.tells bytes.now (K.taken sink.old) (K.taken sink.new) (K.faults sink.old) (K.faults sink.new) result }
    ensures flushed { OnOk result (IsTrue (K.is_flushed sink.new)) }
{
    write_all(bytes, sink)?;
    sink.flush()
}

// Writes all bytes; at a fault a prefix of them was written.
fn write_all<K: ByteSink>(bytes: &[u8], sink: &mut K) -> Result<(), Failed>
    ensures { WritesAll K.tells bytes.now (K.taken sink.old) (K.taken sink.new) (K.faults sink.old) (K.faults sink.new) result }
{
    let mut rest = bytes;
    while !rest.is_empty() {
        let count = sink.write(rest)?;
        rest = &rest[count..];
    }
    Ok(())
}

/// Ends a command that has no text to run; only a wrong line is written.
pub(crate) fn refuse<K: ByteSink>(why: NoEvents, sink: &mut K) -> Status
    ensures { RefusesFor K.tells (K.taken sink.old) (K.taken sink.new) (K.faults sink.old) (K.faults sink.new) result why }
{
    match why {
        NoEvents::BadLine(line) => match write_number(b"line ", line, sink) {
            Ok(()) => Status::BadLine,
            Err(_) => Status::WriteFault,
        },
        NoEvents::TooLong => Status::TooLong,
        NoEvents::Fault => Status::ReadFault,
        NoEvents::OutOfMemory => Status::OutOfMemory,
    }
}
