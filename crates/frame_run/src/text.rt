// Reading all of a source.
ghost use Rattle.std.specs.Prelude.{◌≡◌, ◌≤◌, ◌<◌, ◌+◌, ◌++◌, [], IfErr, IfOk, OnOk, IsTrue, length, vec_len};
ghost use Rattle.frame_run.specs.Reads.{IsAll, WhyStopped};

use crate::framing::Framed;
use rent_buf::OutOfMemory;
use rent_io::ByteSource;
use std::alloc::{AllocError, Global};
use std::sync::Wait;

// How many bytes one read asks for.
const PIECE: usize = 65536;

/// All that a source gives, at most `most` bytes; or why not.
pub(crate) fn read_text<R: Wait, S: ByteSource>(
    rt: &R,
    alloc: Global,
    most: usize,
    source: &mut S,
) -> Result<Vec<u8>, Framed>
    ensures within { IfOk result (λ text. vec_len text ≤ most) }
    ensures read { IfOk result (λ text. IsTrue S.tells → IsAll (S.left source.old) (S.left source.new) text.items) }
    ensures calm { OnOk result (IsTrue S.tells → S.faults source.new ≡ S.faults source.old) }
    ensures why { IfErr result (WhyStopped S.tells most 0 (S.left source.old) (S.left source.new) (S.faults source.old)
        (S.faults source.new)) }
{
    let Ok(mut piece) = zeros(alloc, PIECE) else {
        return Err(Framed::OutOfMemory);
    };
    let mut text = Vec::new(alloc);
    for _ in rt.forever() {
        match read_some(most, source, &mut piece, &mut text) {
            Ok(0) => return Ok(text),
            Ok(_) => {}
            Err(why) => return Err(why),
        }
    }
    unreachable!()
}

// Reads once, and joins what came to the text; 0 is the end.
fn read_some<S: ByteSource>(
    most: usize,
    source: &mut S,
    piece: &mut Vec<u8>,
    text: &mut Vec<u8>,
) -> Result<usize, Framed>
    requires piece { 0 < vec_len piece.old }
    requires few { vec_len text.old ≤ most }
    ensures piece { vec_len piece.new ≡ vec_len piece.old }
    ensures joined { OnOk result (IsTrue S.tells → text.new.items ++ S.left source.new ≡ text.old.items ++ S.left source.old) }
    ensures few { OnOk result (vec_len text.new ≤ most) }
    ensures end { IfOk result (λ n. n ≡ 0 → IsTrue S.tells → S.left source.new ≡ []) }
    ensures calm { OnOk result (IsTrue S.tells → S.faults source.new ≡ S.faults source.old) }
    ensures faults { OnOk result (S.faults source.old ≤ S.faults source.new) }
    ensures why { IfErr result (WhyStopped S.tells most (vec_len text.old) (S.left source.old) (S.left source.new) (S.faults source.old)
        (S.faults source.new)) }
{
    let count = match source.read(piece.as_mut_slice()) {
        Ok(count) => count,
        Err(_) => return Err(Framed::ReadFault),
    };
    if most - text.len() < count {
        return Err(Framed::TooLong);
    }
    match append(text, &piece.as_slice()[..count]) {
        Ok(()) => Ok(count),
        Err(_) => Err(Framed::OutOfMemory),
    }
}

// Bytes join a text.
fn append(text: &mut Vec<u8>, bytes: &[u8]) -> Result<(), OutOfMemory>
    ensures ok { OnOk result (text.new.items ≡ text.old.items ++ bytes.now) }
    ensures count { OnOk result (vec_len text.new ≡ vec_len text.old + length bytes.now) }
{
    text.extend_from_slice(bytes)?;
    Ok(())
}

// So many bytes 0.
fn zeros(alloc: Global, count: usize) -> Result<Vec<u8>, AllocError>
    ensures { IfOk result (λ bytes. vec_len bytes ≡ count) }
{
    vec![in alloc; 0; count]
}
