//! What holds the bytes of what is in flight.
ghost use Rattle.std.specs.Prelude.{◌≡◌, ◌++◌, Bool, List, ℕ, length, min, take, IsTrue, OnOk, OnErr};
ghost use Rattle.std.specs.List.{concat};
ghost use Rattle.machine.specs.Payloads.{laid_over};

use rent_buf::{ByteList, IoVecBuf, OutOfMemory};

/// What holds the bytes of the operations in flight, by data word. A ring that executes sends from it, and stores into it.
/// (not in monoio)
pub trait Payloads {
    // The bytes that the request of a data word offers; none where there is no such request.
    ghost offered: { Self → ℕ → List ℕ };

    // Storing the bytes that came for a data word: the old payloads, the word, the bytes, the new payloads.
    ghost stores: { Self → ℕ → List ℕ → Self → Type 0 };

    // Storing so many bytes takes memory.
    ghost takes_memory: { ℕ → Bool };

    /// Appends the first `count` bytes that a data word offers, or all where there are fewer, to a list. If memory runs out,
    /// the list stays.
    fn append_to(&self, word: u64, count: u32, output: &mut ByteList) -> Result<(), OutOfMemory>
        ensures ok { OnOk result (output.new ≡ output.old ++ take count (offered self.now word)) }
        ensures err { OnErr result (output.new ≡ output.old) };

    /// Copies the first bytes that a data word offers over the front of a target, as many as fit it, and answers how many. They are
    /// copied once. It takes no memory.
    fn copy_to(&self, word: u64, target: &mut [u8]) -> usize
        ensures count { result ≡ min (length target.old) (length (offered self.now word)) }
        ensures bytes { target.new ≡ laid_over (offered self.now word) target.old };

    /// Stores the bytes that came for a data word. If memory runs out, nothing has changed.
    fn store(&mut self, word: u64, bytes: &[u8]) -> Result<(), OutOfMemory>
        ensures ok { OnOk result (stores self.old word bytes.now self.new) }
        ensures memory { OnErr result (IsTrue (takes_memory (length bytes.now))) }
        ensures err { OnErr result (self.new ≡ self.old) };
}

/// Appends the first `count` bytes, or all where there are fewer, to a list. They are copied once. If memory runs out, the
/// list stays. (not in monoio)
pub fn append_first(list: &mut ByteList, count: usize, bytes: &[u8]) -> Result<(), OutOfMemory>
    ensures ok { OnOk result (list.new ≡ list.old ++ take count bytes.now) }
    ensures err { OnErr result (list.new ≡ list.old) }
{
    list.append(first(count, bytes))
}

/// As `append_first`, of the bytes of parts, one part after the other. It looks at no part behind the last byte that it
/// appends. (not in monoio)
pub fn append_first_parts<V: IoVecBuf>(
    list: &mut ByteList,
    count: usize,
    parts: &V,
) -> Result<(), OutOfMemory>
    ensures ok { OnOk result (list.new ≡ list.old ++ take count (concat (V.parts parts.now))) }
    ensures err { OnErr result (list.new ≡ list.old) }
{
    let before = list.len();
    let mut left = count;
    for i in 0..parts.parts_len() {
        if left == 0 {
            return Ok(());
        }
        let piece = first(left, parts.part(i));
        match list.append(piece) {
            Ok(()) => left -= piece.len(),
            Err(_) => {
                list.truncate(before);
                return Err(OutOfMemory);
            }
        }
    }
    Ok(())
}

/// Copies the first bytes over the front of a target, as many as fit it, and answers how many. (not in monoio)
pub fn copy_first(target: &mut [u8], bytes: &[u8]) -> usize
    ensures count { result ≡ min (length target.old) (length bytes.now) }
    ensures bytes { target.new ≡ laid_over bytes.now target.old }
{
    let count = bytes.len().min(target.len());
    target[..count].copy_from_slice(&bytes[..count]);
    count
}

/// As `copy_first`, of the bytes of parts, one part after the other. It looks at no part behind the last byte that fits. (not in
/// monoio)
pub fn copy_first_parts<V: IoVecBuf>(target: &mut [u8], parts: &V) -> usize
    ensures count { result ≡ min (length target.old) (length (concat (V.parts parts.now))) }
    ensures bytes { target.new ≡ laid_over (concat (V.parts parts.now)) target.old }
{
    let mut at = 0;
    for i in 0..parts.parts_len() {
        if at == target.len() {
            return at;
        }
        at += copy_first(&mut target[at..], parts.part(i));
    }
    at
}

// The first `count` bytes, or all where there are fewer.
pub(crate) fn first(count: usize, bytes: &[u8]) -> &[u8]
    ensures { result.now ≡ take count bytes.now }
{
    if count < bytes.len() {
        &bytes[..count]
    } else {
        bytes
    }
}
