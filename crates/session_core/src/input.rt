//! Reading all lines of a source.
ghost use Rattle.std.specs.Prelude.{◌≡◌, ◌≤◌, ◌<◌, ◌+◌, ◌++◌, length, IfOk, IfErr, None, OnOk, OnErr, IsTrue, vec_len, vec_capacity, []};
ghost use Rattle.event_text.specs.TextLines.{AreEventsFor, lines};
ghost use Rattle.session_core.specs.DriverKind.{DriverKind, StandsOn};
ghost use Rattle.session_core.specs.Reads.{IsAll, WhyNoEvents, WhyStopped, WhyUnread};
ghost use Rattle.session_core.specs.Stops.{ReadStops};

use crate::stepping::Stepping;
use crate::top::Stop;
use rent_buf::ByteList;
use rent_io::ByteSource;
use std::alloc::{AllocError, Global};

/// The most bytes of input.
pub const MOST_INPUT: usize = 16777216;

// The most reads that find bytes in an input that isn't too long, and one more.
const READS: usize = MOST_INPUT + 1;

/// How many bytes one read asks for, and for how many memory is taken before the first.
pub const PIECE: usize = 65536;

/// Why a source gave no events.
pub(crate) enum NoEvents {
    /// This line is the first that is no event's text.
    BadLine(u64),
    /// There are more bytes than the input may have.
    TooLong,
    /// The source failed.
    Fault,
    /// Memory ran out: before anything was read, or once more than `PIECE` bytes were read.
    OutOfMemory,
}

/// All that a source gives: lines that each stand for an event, of those that such a session takes. A wrong line is named, with the text
/// that it stands in.
pub(crate) fn read_input<M: Stepping, S: ByteSource>(
    alloc: Global,
    source: &mut S,
    stop: &mut Option<Stop>,
) -> Result<Vec<u8>, NoEvents>
    requires { stop.old ≡ None }
    ensures read { IfOk result (λ text. IsTrue S.tells → IsAll (S.left source.old) (S.left source.new) text.items) }
    ensures right { IfOk result (λ text. AreEventsFor (StandsOn M.kind) (lines text.items)) }
    ensures calm { OnOk result (IsTrue S.tells → S.faults source.new ≡ S.faults source.old) }
    ensures why { IfErr result (WhyNoEvents M.kind S.tells (S.left source.old) (S.left source.new) (S.faults source.old)
        (S.faults source.new)) }
    ensures unnamed { OnOk result (stop.new ≡ None) }
    ensures stops { IfErr result (ReadStops M.kind S.tells (S.left source.old) stop.new) }
{
    let text = match read_all(alloc, source) {
        Ok(text) => text,
        Err(why) => return Err(why),
    };
    match M::first_wrong(text.as_slice()) {
        None => Ok(text),
        Some(line) => {
            *stop = Some(Stop::Wrong(line, ByteList::from_vec(text)));
            Err(NoEvents::BadLine(line))
        }
    }
}

/// All that a source gives.
pub(crate) fn read_all<S: ByteSource>(alloc: Global, source: &mut S) -> Result<Vec<u8>, NoEvents>
    ensures read { IfOk result (λ text. IsTrue S.tells → IsAll (S.left source.old) (S.left source.new) text.items) }
    ensures calm { OnOk result (IsTrue S.tells → S.faults source.new ≡ S.faults source.old) }
    ensures why { (driver : DriverKind) → IfErr result (WhyUnread driver S.tells (S.left source.old) (S.left source.new)
        (S.faults source.old) (S.faults source.new)) }
{
    let Ok(mut piece) = zeros(alloc, PIECE) else {
        return Err(NoEvents::OutOfMemory);
    };
    let Ok(mut text) = Vec::with_capacity(alloc, PIECE) else {
        return Err(NoEvents::OutOfMemory);
    };
    // Each turn takes a byte at least, so the budget is one more than what may be read.
    for turn in 0..READS {
        match read_some(source, &mut piece, &mut text) {
            Ok(0) => return Ok(text),
            Ok(_) => {}
            Err(why) => return Err(why),
        }
    }
    Err(NoEvents::TooLong)
}

// Reads once, and joins what came to the text; 0 is the end. Memory is taken only for what the input may have, and only where the
// text has no room for it.
fn read_some<S: ByteSource>(
    source: &mut S,
    piece: &mut Vec<u8>,
    text: &mut Vec<u8>,
) -> Result<usize, NoEvents>
    requires piece { 0 < vec_len piece.old }
    requires few { vec_len text.old ≤ MOST_INPUT }
    requires room { PIECE ≤ vec_capacity text.old }
    ensures piece { vec_len piece.new ≡ vec_len piece.old }
    ensures joined { OnOk result (IsTrue S.tells → text.new.items ++ S.left source.new ≡ text.old.items ++ S.left source.old) }
    ensures count { IfOk result (λ n. vec_len text.new ≡ vec_len text.old + n) }
    ensures few { OnOk result (vec_len text.new ≤ MOST_INPUT) }
    ensures room { OnOk result (PIECE ≤ vec_capacity text.new) }
    ensures end { IfOk result (λ n. n ≡ 0 → IsTrue S.tells → S.left source.new ≡ []) }
    ensures calm { OnOk result (IsTrue S.tells → S.faults source.new ≡ S.faults source.old) }
    ensures faults { OnOk result (S.faults source.old ≤ S.faults source.new) }
    ensures why { IfErr result (WhyStopped S.tells (vec_len text.old) (S.left source.old) (S.left source.new) (S.faults source.old)
        (S.faults source.new)) }
{
    let count = match source.read(piece.as_mut_slice()) {
        Ok(count) => count,
        Err(_) => return Err(NoEvents::Fault),
    };
    if MOST_INPUT - text.len() < count {
        return Err(NoEvents::TooLong);
    }
    match append(text, &piece.as_slice()[..count]) {
        Ok(()) => Ok(count),
        Err(_) => Err(NoEvents::OutOfMemory),
    }
}

// Bytes join a text.
fn append(text: &mut Vec<u8>, bytes: &[u8]) -> Result<(), AllocError>
    ensures ok { OnOk result (text.new.items ≡ text.old.items ++ bytes.now) }
    ensures count { OnOk result (vec_len text.new ≡ vec_len text.old + length bytes.now) }
    ensures room { OnOk result (vec_capacity text.old ≤ vec_capacity text.new) }
    ensures full { OnErr result (vec_capacity text.old < vec_len text.old + length bytes.now) }
{
    text.extend_from_slice(bytes)?;
    Ok(())
}

// So many bytes 0.
fn zeros(alloc: Global, count: usize) -> Result<Vec<u8>, AllocError>
    ensures { IfOk result (λ bytes. vec_len bytes ≡ count) }
{
    vec![in alloc; 0; count]
}
