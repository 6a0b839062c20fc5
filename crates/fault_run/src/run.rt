//! The command `faults CAP ENTERS`: lines are answered by the completion driver over a ring that fails and is busy as `ENTERS` says.
ghost use Rattle.std.specs.Prelude.{◌≡◌, ◌<◌, ◌≤◌, ◌+◌, ◌∷◌, ◌↔◌, [], List, ℕ, true, map, string_bytes, length, IfOk, IfErr, MatchOption, OnOk, IsTrue};
ghost use Rattle.rent_io.specs.Call.{reading, writing};
ghost use Rattle.event_text.specs.TextLook.{line_end};
ghost use Rattle.fault_run.specs.declared.session.FaultSession.{FaultSession as Session};
ghost use Rattle.fault_run.specs.Lines.{SaysNothing};
ghost use Rattle.fault_run.specs.Running.{AnswersLine, AnswersLines, FlushEnds, StopsAtLine, StopsInLines, StopsLast};
ghost use Rattle.fault_run.specs.Runs.{FaultsEnd, SessionEnds};
ghost use Rattle.fault_run.specs.Script.{IsCapacity, IsFaults, IsScript};
ghost use Rattle.fault_run.specs.Script as letters;

use crate::input::{MOST_INPUT, PIECE, Unread, read_some, zeros};
use crate::line::line_of;
use crate::output::{Unwritten, write_bad_line, write_line};
use crate::session::FaultSession;
use event_text::read_number;
use memchr::memchr;
use rent_buf::ByteList;
use rent_io::{ByteSink, ByteSource};
use std::alloc::Global;

// The most reads that find bytes in an input that isn't too long, and one more.
const READS: usize = MOST_INPUT + 1;

// The most entries of the queue.
const MOST_ENTRIES: u64 = 4294967295;

/// How a run over a faulty ring ends. (not in monoio)
#[derive(Debug, Drop)]
pub enum Ending {
    /// The source was read to its end, each line was answered, all answers were written, and the sink is flushed.
    Done,
    /// The line of this number, counted from 1, stands for nothing, and this is its text. The answers to the lines before it were written,
    /// then `line N`, and the sink is flushed.
    BadLine(u64, ByteList),
    /// More than 16777216 bytes were read. The answers to the first lines were written.
    TooLong,
    /// The source failed. The answers to the first lines were written.
    ReadFault,
    /// The sink failed. A prefix of the output was written.
    WriteFault,
    /// Memory ran out. The answers to so many lines were written.
    OutOfMemory(u64),
}

/// The capacity and the script of `faults CAP ENTERS`, if the words are that: a number from 1 to 4294967295, and a letter for each of the
/// first enters, at least one: `f` for one that fails, `b` for one that is busy, `-` for one that takes the queue. (not in monoio)
pub fn faults_of(words: &[String]) -> Option<(u32, &[u8])>
    ensures { MatchOption result ((capacity : ℕ) (enters : List ℕ) → IsFaults (map string_bytes words.now) capacity enters → ⊥)
        (λ found. IsFaults (map string_bytes words.now) found.0 found.1.now) }
{
    match words {
        [name, capacity, enters] => three_of(name.as_str(), capacity.as_bytes(), enters.as_bytes()),
        _ => None,
    }
}

// The same of three words.
fn three_of<'a>(name: &str, capacity: &[u8], enters: &'a [u8]) -> Option<(u32, &'a [u8])>
    ensures { MatchOption result
        ((found : ℕ) (script : List ℕ) → IsFaults (name.now ∷ capacity.now ∷ enters.now ∷ []) found script → ⊥)
        (λ found. IsFaults (name.now ∷ capacity.now ∷ enters.now ∷ []) found.0 found.1.now) }
{
    if name != "faults" || !is_script(enters) {
        return None;
    }
    let capacity = capacity_of(capacity)?;
    Some((capacity, enters))
}

// A capacity.
fn capacity_of(word: &[u8]) -> Option<u32>
    ensures { MatchOption result ((capacity : ℕ) → IsCapacity word.now capacity → ⊥) (IsCapacity word.now) }
{
    match read_number(word) {
        Some(capacity) if 1 <= capacity && capacity <= MOST_ENTRIES => Some(capacity as u32),
        _ => None,
    }
}

// A word is a script.
fn is_script(word: &[u8]) -> bool
    ensures { IsTrue result ↔ IsScript word.now }
{
    if word.is_empty() {
        return false;
    }
    for letter in word {
        if !is_letter(*letter) {
            return false;
        }
    }
    true
}

// A letter of a script.
fn is_letter(letter: u8) -> bool
    ensures { result ≡ letters.is_letter letter }
{
    letter == b'-' || letter == b'f' || letter == b'b'
}

/// Answers the lines that a source gives, each as soon as it is read, and writes and flushes each answer before more is read. A line is an
/// event, as of `run`, but none that feeds, ends or looks at a handle and none that executes; or `complete WORD ok K` or
/// `complete WORD err E`, by which a completion of that data word becomes ready; or `ring`, which shows the ring. The ring's queue holds
/// `capacity` entries, at least one; what enter N does is said by the letter at N of `enters`: it fails at `f`, is busy at `b`, and takes
/// the queue at any other and behind the last. The ring completes nothing by itself, but cancels. (not in monoio)
pub fn run_faults<S: ByteSource, K: ByteSink>(
    alloc: Global,
    capacity: u32,
    enters: &[u8],
    source: &mut S,
    sink: &mut K,
) -> Ending
    requires { 0 < capacity }
    ensures { FaultsEnd S.tells K.tells capacity enters.now (reading S.left S.faults source.old source.new)
        (writing K.taken K.faults K.is_flushed sink.old sink.new) result }
{
    match FaultSession::new(alloc, capacity, enters) {
        Ok(session) => run_session(alloc, session, source, sink),
        Err(_) => Ending::OutOfMemory(0),
    }
}

// Answers the lines that a source gives.
fn run_session<S: ByteSource, K: ByteSink>(
    alloc: Global,
    session: FaultSession,
    source: &mut S,
    sink: &mut K,
) -> Ending
    ensures { SessionEnds S.tells K.tells session (reading S.left S.faults source.old source.new)
        (writing K.taken K.faults K.is_flushed sink.old sink.new) result }
{
    let Ok(mut piece) = zeros(alloc, PIECE) else {
        return Ending::OutOfMemory(0);
    };
    let mut running = session;
    let mut text = Vec::new(alloc);
    let mut ran: u64 = 0;
    let mut taken = 0;
    // Each turn takes a byte at least, so the budget is one more than what may be read.
    for turn in 0..READS {
        match read_some(source, &mut piece, &mut text, taken) {
            Ok(0) => return finish(alloc, &mut running, text.as_slice(), ran, sink),
            Ok(count) => taken += count,
            Err(Unread::TooLong) => return Ending::TooLong,
            Err(Unread::Fault) => return Ending::ReadFault,
            Err(Unread::OutOfMemory) => return Ending::OutOfMemory(ran),
        }
        match run_lines(alloc, &mut running, text.as_slice(), ran, sink) {
            Ok((count, rest)) => {
                ran += count;
                let Ok(kept) = Vec::from_slice(alloc, rest) else {
                    return Ending::OutOfMemory(ran);
                };
                text = kept;
            }
            Err(ending) => return ending,
        }
    }
    Ending::TooLong
}

// Answers the lines of a text that a newline ends, behind so many lines. It answers how many there were, and the rest of the text.
fn run_lines<'a, K: ByteSink>(
    alloc: Global,
    session: &mut FaultSession,
    text: &'a [u8],
    ran: u64,
    sink: &mut K,
) -> Result<(u64, &'a [u8]), Ending>
    requires { ran + length text.now ≤ MOST_INPUT }
    ensures ok { IfOk result (λ found. AnswersLines K.tells session.old ran text.now (K.taken sink.old) session.new found.0 found.1.now
        (K.taken sink.new)) }
    ensures few { IfOk result (λ found. found.0 + length found.1.now ≤ length text.now) }
    ensures last { IfOk result (λ found. line_end found.1.now ≡ []) }
    ensures order { OnOk result (K.faults sink.old ≤ K.faults sink.new) }
    ensures calm { OnOk result (IsTrue K.tells → K.faults sink.new ≡ K.faults sink.old) }
    ensures why { IfErr result (StopsInLines K.tells session.old ran text.now (K.taken sink.old) (K.taken sink.new) (K.faults sink.old)
        (K.faults sink.new) (K.is_flushed sink.new)) }
{
    let mut rest = text;
    let mut count = 0;
    while let Some(at) = memchr(b'\n', rest) {
        match run_line(alloc, session, &rest[..at], ran + count, sink) {
            Ok(()) => {}
            Err(ending) => return Err(ending),
        }
        count += 1;
        rest = &rest[at + 1..];
    }
    Ok((count, rest))
}

// Answers the last line, if no newline ended it, and flushes.
fn finish<K: ByteSink>(
    alloc: Global,
    session: &mut FaultSession,
    text: &[u8],
    ran: u64,
    sink: &mut K,
) -> Ending
    requires one { line_end text.now ≡ [] }
    requires few { ran ≤ MOST_INPUT }
    ensures { StopsLast K.tells session.old ran text.now (K.taken sink.old) (K.taken sink.new) (K.faults sink.old)
        (K.faults sink.new) (K.is_flushed sink.new) result }
{
    if text.is_empty() {
        return flush(sink);
    }
    match run_line(alloc, session, text, ran, sink) {
        Ok(()) => flush(sink),
        Err(ending) => ending,
    }
}

// Flushes behind the last line.
fn flush<K: ByteSink>(sink: &mut K) -> Ending
    ensures { FlushEnds K.tells (K.taken sink.old) (K.taken sink.new) (K.faults sink.old) (K.faults sink.new)
        (K.is_flushed sink.new) result }
{
    match sink.flush() {
        Ok(()) => Ending::Done,
        Err(_) => Ending::WriteFault,
    }
}

// Answers a line behind so many others, and writes and flushes the answer.
fn run_line<K: ByteSink>(
    alloc: Global,
    session: &mut FaultSession,
    text: &[u8],
    ran: u64,
    sink: &mut K,
) -> Result<(), Ending>
    requires one { line_end text.now ≡ [] }
    requires few { ran ≤ MOST_INPUT }
    ensures ok { OnOk result (AnswersLine K.tells session.old ran text.now (K.taken sink.old) session.new (K.taken sink.new)) }
    ensures order { OnOk result (K.faults sink.old ≤ K.faults sink.new) }
    ensures calm { OnOk result (IsTrue K.tells → K.faults sink.new ≡ K.faults sink.old) }
    ensures why { IfErr result (StopsAtLine K.tells session.old ran text.now (K.taken sink.old) (K.taken sink.new) (K.faults sink.old)
        (K.faults sink.new) (K.is_flushed sink.new)) }
{
    let line = match line_of(alloc, text) {
        Ok(Some(line)) => line,
        Ok(None) => return Err(refuse(alloc, text, ran, sink)),
        Err(_) => return Err(Ending::OutOfMemory(ran)),
    };
    let Ok(answer) = session.step(line) else {
        return Err(Ending::OutOfMemory(ran));
    };
    match write_line(alloc, answer, sink) {
        Ok(()) => Ok(()),
        Err(Unwritten::Fault) => Err(Ending::WriteFault),
        Err(Unwritten::OutOfMemory) => Err(Ending::OutOfMemory(ran)),
    }
}

// Ends at a wrong line behind so many others: its number is written and flushed.
fn refuse<K: ByteSink>(alloc: Global, text: &[u8], ran: u64, sink: &mut K) -> Ending
    requires wrong { SaysNothing text.now }
    requires few { ran ≤ MOST_INPUT }
    ensures { (session : Session) → StopsAtLine K.tells session ran text.now (K.taken sink.old) (K.taken sink.new) (K.faults sink.old)
        (K.faults sink.new) (K.is_flushed sink.new) result }
{
    let Ok(copy) = Vec::from_slice(alloc, text) else {
        return Ending::OutOfMemory(ran);
    };
    match write_bad_line(alloc, ran + 1, sink) {
        Ok(()) => Ending::BadLine(ran + 1, ByteList::from_vec(copy)),
        Err(Unwritten::Fault) => Ending::WriteFault,
        Err(Unwritten::OutOfMemory) => Ending::OutOfMemory(ran),
    }
}
