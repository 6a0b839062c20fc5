// Reading from a source.
ghost use Rattle.std.specs.Prelude.{◌≡◌, ◌<◌, ◌≤◌, ◌+◌, ◌++◌, [], length, IfOk, IfErr, OnOk, IsTrue, vec_len};
ghost use Rattle.rent_io.specs.Call.{Took};
ghost use Rattle.fault_run.specs.Running.{WhyUnread};

use rent_io::ByteSource;
use std::alloc::{AllocError, Global};

/// The most bytes of input.
pub(crate) const MOST_INPUT: usize = 16777216;

/// How many bytes one read asks for.
pub(crate) const PIECE: usize = 65536;

/// Why a read brought no bytes and isn't at the end.
pub(crate) enum Unread {
    /// There are more bytes than the input may have.
    TooLong,
    /// The source failed.
    Fault,
    /// Memory ran out.
    OutOfMemory,
}

/// Reads once, and joins what came to the text; 0 is the end. So many bytes were read before.
pub(crate) fn read_some<S: ByteSource>(
    source: &mut S,
    piece: &mut Vec<u8>,
    text: &mut Vec<u8>,
    taken: usize,
) -> Result<usize, Unread>
    requires piece { 0 < vec_len piece.old }
    requires few { taken ≤ MOST_INPUT }
    ensures piece { vec_len piece.new ≡ vec_len piece.old }
    ensures joined { OnOk result (IsTrue S.tells → text.new.items ++ S.left source.new ≡ text.old.items ++ S.left source.old) }
    ensures took { IfOk result (λ n. IsTrue S.tells → Took (S.left source.old) (S.left source.new) n) }
    ensures count { IfOk result (λ n. vec_len text.new ≡ vec_len text.old + n) }
    ensures few { IfOk result (λ n. taken + n ≤ MOST_INPUT) }
    ensures end { IfOk result (λ n. n ≡ 0 → IsTrue S.tells → S.left source.new ≡ []) }
    ensures same { IfOk result (λ n. n ≡ 0 → text.new.items ≡ text.old.items) }
    ensures calm { OnOk result (IsTrue S.tells → S.faults source.new ≡ S.faults source.old) }
    ensures order { OnOk result (S.faults source.old ≤ S.faults source.new) }
    ensures why { IfErr result (WhyUnread S.tells taken (S.left source.old) (S.left source.new) (S.faults source.old)
        (S.faults source.new)) }
{
    let count = match source.read(piece.as_mut_slice()) {
        Ok(count) => count,
        Err(_) => return Err(Unread::Fault),
    };
    if MOST_INPUT - taken < count {
        return Err(Unread::TooLong);
    }
    match append(text, &piece.as_slice()[..count]) {
        Ok(()) => Ok(count),
        Err(_) => Err(Unread::OutOfMemory),
    }
}

// Bytes join a text.
fn append(text: &mut Vec<u8>, bytes: &[u8]) -> Result<(), AllocError>
    ensures ok { OnOk result (text.new.items ≡ text.old.items ++ bytes.now) }
    ensures count { OnOk result (vec_len text.new ≡ vec_len text.old + length bytes.now) }
{
    text.extend_from_slice(bytes)?;
    Ok(())
}

/// So many bytes 0.
pub(crate) fn zeros(alloc: Global, count: usize) -> Result<Vec<u8>, AllocError>
    ensures { IfOk result (λ bytes. vec_len bytes ≡ count) }
{
    vec![in alloc; 0; count]
}
