//! The command `run CAP -i`: each line is run as soon as it is read, and its reply is written and flushed before more is read.
ghost use Rattle.std.specs.Prelude.{◌≡◌, ◌<◌, ◌≤◌, ◌+◌, ◌++◌, [], None, IfOk, IfErr, OnOk, IsTrue, drop, length, vec_len};
ghost use Rattle.machine.specs.Ledger.{Ledger, empty};
ghost use Rattle.event_text.specs.TextLook.{line_end};
ghost use Rattle.rent_io.specs.Call.{Took, reading, writing};
ghost use Rattle.session_core.specs.Session.{SessionStands};
ghost use Rattle.live_run.specs.Live.{LiveGives};
ghost use Rattle.live_run.specs.Living.{EndsAtLine, FinishGives, GoesFor, SinkStops, WhyNoMore};

use crate::line::{run_line, whole_line};
use rent_io::{ByteSink, ByteSource};
use session_core::{MOST_INPUT, Session, Status, Stop};
use std::alloc::{AllocError, Global};

// The most reads that find bytes in an input that isn't too long, and one more.
const READS: usize = MOST_INPUT + 1;

// How many bytes one read asks for.
const PIECE: usize = 65536;

/// Runs the events of lines over a queue of so many entries, at least one, each as soon as its line is read, and writes and flushes its
/// reply before more is read. At the end of the input it gives the session back. Else it ends with a status as `top` does, but that the
/// lines before have run then: at a wrong line `line N` is written behind their replies. No line may be named when it is called;
/// afterwards `stop` names the line that is wrong, if there was memory for its text, or at which memory ran out. (not in monoio)
pub fn run_live<S: ByteSource, K: ByteSink>(
    alloc: Global,
    capacity: u32,
    source: &mut S,
    sink: &mut K,
    stop: &mut Option<Stop>,
) -> Result<Session, Status>
    requires capacity { 0 < capacity }
    requires running { stop.old ≡ None }
    ensures { LiveGives S.tells K.tells (empty capacity) (reading S.left S.faults source.old source.new)
        (writing K.taken K.faults K.is_flushed sink.old sink.new) stop.new result }
{
    let Ok(session) = Session::new(alloc, capacity) else {
        return Err(Status::OutOfMemory);
    };
    let Ok(piece) = zeros(alloc, PIECE) else {
        return Err(Status::OutOfMemory);
    };
    run_pieces(alloc, session, piece, source, sink, stop)
}

// So many bytes 0.
fn zeros(alloc: Global, count: usize) -> Result<Vec<u8>, AllocError>
    ensures { IfOk result (λ bytes. vec_len bytes ≡ count) }
{
    vec![in alloc; 0; count]
}

// Runs the events of lines on a session, each as soon as its line is read.
fn run_pieces<S: ByteSource, K: ByteSink>(
    alloc: Global,
    mut session: Session,
    mut piece: Vec<u8>,
    source: &mut S,
    sink: &mut K,
    stop: &mut Option<Stop>,
) -> Result<Session, Status>
    requires piece { vec_len piece ≡ PIECE }
    requires running { stop.old ≡ None }
    ensures { (L : Ledger) → SessionStands session L → LiveGives S.tells K.tells L (reading S.left S.faults source.old source.new)
        (writing K.taken K.faults K.is_flushed sink.old sink.new) stop.new result }
{
    let mut text = Vec::new(alloc);
    let mut ran: u64 = 0;
    let mut taken: usize = 0;
    // Each turn takes a byte at least, so the budget is one more than what may be read.
    for turn in 0..READS {
        let count = match read_more(source, &mut piece, &mut text, taken) {
            Ok(count) => count,
            Err(status) => return Err(status),
        };
        if count == 0 {
            return finish(alloc, session, text.as_slice(), ran, sink, stop);
        }
        taken += count;
        match run_whole(alloc, &mut session, text.as_slice(), ran, sink, stop) {
            Ok(done) => {
                ran = done.ran;
                cut_front(&mut text, done.bytes);
            }
            Err(status) => return Err(status),
        }
    }
    Err(Status::TooLong)
}

// Reads once behind so many bytes, and joins what came to the text; 0 is the end.
fn read_more<S: ByteSource>(
    source: &mut S,
    piece: &mut Vec<u8>,
    text: &mut Vec<u8>,
    taken: usize,
) -> Result<usize, Status>
    requires piece { 0 < vec_len piece.old }
    requires few { taken ≤ MOST_INPUT }
    ensures piece { vec_len piece.new ≡ vec_len piece.old }
    ensures joined { OnOk result (IsTrue S.tells → text.new.items ++ S.left source.new ≡ text.old.items ++ S.left source.old) }
    ensures longer { IfOk result (λ n. vec_len text.new ≡ vec_len text.old + n) }
    ensures few { IfOk result (λ n. taken + n ≤ MOST_INPUT) }
    ensures took { IfOk result (λ n. IsTrue S.tells → Took (S.left source.old) (S.left source.new) n) }
    ensures end { IfOk result (λ n. n ≡ 0 → text.new.items ≡ text.old.items) }
    ensures past { IfOk result (λ n. n ≡ 0 → IsTrue S.tells → S.left source.new ≡ []) }
    ensures order { OnOk result (S.faults source.old ≤ S.faults source.new) }
    ensures calm { OnOk result (IsTrue S.tells → S.faults source.new ≡ S.faults source.old) }
    ensures why { IfErr result (WhyNoMore S.tells taken (reading S.left S.faults source.old source.new)) }
{
    let count = match source.read(piece.as_mut_slice()) {
        Ok(count) => count,
        Err(_) => return Err(Status::ReadFault),
    };
    if MOST_INPUT - taken < count {
        return Err(Status::TooLong);
    }
    match append(text, &piece.as_slice()[..count]) {
        Ok(()) => Ok(count),
        Err(_) => Err(Status::OutOfMemory),
    }
}

// Bytes join a text.
fn append(text: &mut Vec<u8>, bytes: &[u8]) -> Result<(), AllocError>
    ensures ok { OnOk result (text.new.items ≡ text.old.items ++ bytes.now) }
    ensures count { OnOk result (vec_len text.new ≡ vec_len text.old + length bytes.now) }
{
    text.extend_from_slice(bytes)?;
    Ok(())
}

// The first bytes go.
fn cut_front(bytes: &mut Vec<u8>, count: usize)
    requires { count ≤ vec_len bytes.old }
    ensures { bytes.new.items ≡ drop count bytes.old.items }
{
    let left = bytes.len() - count;
    bytes.as_mut_slice().copy_within(count.., 0);
    bytes.truncate(left);
}

// How many lines have run, and how many bytes of a text those had that it began with.
struct Done {
    ran: u64,
    bytes: usize,
}

impl Drop for Done {
    fn drop(self) {
        let Done { ran: _, bytes: _ } = self;
    }
}

// Runs the lines of a text that a newline ends.
fn run_whole<K: ByteSink>(
    alloc: Global,
    session: &mut Session,
    text: &[u8],
    mut ran: u64,
    sink: &mut K,
    stop: &mut Option<Stop>,
) -> Result<Done, Status>
    requires few { ran + length text.now ≤ MOST_INPUT }
    requires running { stop.old ≡ None }
    ensures within { IfOk result (λ done. done.bytes ≤ length text.now) }
    ensures few { IfOk result (λ done. done.ran ≤ ran + done.bytes) }
    ensures rest { IfOk result (λ done. line_end (drop done.bytes text.now) ≡ []) }
    ensures goes { IfOk result (λ done. GoesFor K.tells text.now (drop done.bytes text.now) session.old session.new (K.taken sink.old)
        (K.taken sink.new) ran done.ran) }
    ensures unnamed { OnOk result (stop.new ≡ None) }
    ensures order { OnOk result (K.faults sink.old ≤ K.faults sink.new) }
    ensures calm { OnOk result (IsTrue K.tells → K.faults sink.new ≡ K.faults sink.old) }
    ensures ends { IfErr result (EndsAtLine K.tells text.now session.old (K.taken sink.old) (K.taken sink.new) ran stop.new) }
    ensures why { IfErr result (SinkStops K.tells (writing K.taken K.faults K.is_flushed sink.old sink.new)) }
{
    let mut rest = text;
    while let Some((line, behind)) = whole_line(rest) {
        match run_line(alloc, session, line, ran + 1, sink, stop) {
            Ok(()) => {}
            Err(status) => return Err(status),
        }
        ran += 1;
        rest = behind;
    }
    Ok(Done {
        ran,
        bytes: text.len() - rest.len(),
    })
}

// Runs the last line, if no newline ended it, and gives the session back.
fn finish<K: ByteSink>(
    alloc: Global,
    mut session: Session,
    text: &[u8],
    ran: u64,
    sink: &mut K,
    stop: &mut Option<Stop>,
) -> Result<Session, Status>
    requires one { line_end text.now ≡ [] }
    requires few { ran ≤ MOST_INPUT }
    requires running { stop.old ≡ None }
    ensures gives { FinishGives K.tells text.now session (K.taken sink.old) (K.taken sink.new) ran stop.new result }
    ensures unnamed { OnOk result (stop.new ≡ None) }
    ensures flushed { OnOk result (IsTrue (K.is_flushed sink.new)) }
    ensures why { IfErr result (SinkStops K.tells (writing K.taken K.faults K.is_flushed sink.old sink.new)) }
{
    if text.is_empty() {
        return match sink.flush() {
            Ok(()) => Ok(session),
            Err(_) => Err(Status::WriteFault),
        };
    }
    match run_line(alloc, &mut session, text, ran + 1, sink, stop) {
        Ok(()) => Ok(session),
        Err(status) => Err(status),
    }
}
