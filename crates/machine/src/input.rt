//! Bytes that wait on a handle, or stand in a file.
ghost use Rattle.std.specs.Prelude.{◌≡◌, ◌≤◌, ◌<◌, ◌+◌, ◌-◌, ◌==◌, [], ◌++◌, length, replicate, take, drop, OnOk, OnErr, vec_len};
ghost use Rattle.machine.specs.Effect.{overwritten};

use crate::payloads::Payloads;
use rent_buf::{ByteList, OutOfMemory};
use std::alloc::Global;
use std::marker::Model;
use std::mem;

/// Bytes that wait, oldest first. Taking some away costs nothing that grows with what is left. (not in monoio)
#[derive(Debug, Drop)]
pub struct Input {
    bytes: Vec<u8>,
    start: usize,
}

impl Model for Input {
    ghost use Rattle.std.specs.Prelude.{◌≤◌, List, ℕ, drop, vec_len};

    ghost Value = { List ℕ };

    ghost view = { λ i. drop i.start i.bytes.items };

    ghost invariant = { λ i. i.start ≤ vec_len i.bytes };
}

impl Input {
    /// No bytes. It takes no memory.
    pub fn new(alloc: Global) -> Input
        ensures { result ≡ [] }
    {
        Input {
            bytes: Vec::new(alloc),
            start: 0,
        }
    }

    /// How many bytes wait.
    pub fn len(&self) -> usize
        ensures { result ≡ length self.now }
    {
        self.bytes.len() - self.start
    }

    /// No bytes wait.
    pub fn is_empty(&self) -> bool
        ensures { result ≡ (length self.now == 0) }
    {
        self.len() == 0
    }

    /// The bytes that wait.
    pub fn as_slice(&self) -> &[u8]
        ensures { result.now ≡ self.now }
    {
        &self.bytes.as_slice()[self.start..]
    }

    /// The first `count` bytes that wait.
    pub fn first(&self, count: usize) -> &[u8]
        requires { count ≤ length self.now }
        ensures { result.now ≡ take count self.now }
    {
        &self.as_slice()[..count]
    }

    /// The bytes from a position on.
    pub fn from(&self, pos: usize) -> &[u8]
        ensures { result.now ≡ drop pos self.now }
    {
        let bytes = self.as_slice();
        &bytes[pos.min(bytes.len())..]
    }

    /// Adds bytes behind those that wait.
    pub fn append(&mut self, bytes: &[u8]) -> Result<(), OutOfMemory>
        ensures ok { OnOk result (self.new ≡ self.old ++ bytes.now) }
        ensures err { OnErr result (self.new ≡ self.old) }
    {
        self.compact_if();
        self.bytes.extend_from_slice(bytes)?;
        Ok(())
    }

    /// Adds the first `count` bytes that the payload of a data word offers behind those that wait. They are copied once. If memory
    /// runs out, nothing has changed.
    pub fn append_from<P: Payloads>(
        &mut self,
        payloads: &P,
        word: u64,
        count: u32,
    ) -> Result<(), OutOfMemory>
        ensures ok { OnOk result (self.new ≡ self.old ++ take count (P.offered payloads.now word)) }
        ensures err { OnErr result (self.new ≡ self.old) }
    {
        self.compact_if();
        append_from(&mut self.bytes, payloads, word, count)
    }

    /// Writes the first `count` bytes that the payload of a data word offers from a position on, a gap before them as zeros; no bytes
    /// change nothing. It costs what it writes, and the gap. If memory runs out, nothing has changed.
    pub fn write_from<P: Payloads>(
        &mut self,
        payloads: &P,
        word: u64,
        count: u32,
        pos: usize,
    ) -> Result<(), OutOfMemory>
        ensures ok { OnOk result (self.new ≡ overwritten self.old pos (take count (P.offered payloads.now word))) }
        ensures err { OnErr result (self.new ≡ self.old) }
    {
        if self.start > 0 {
            cut_front(&mut self.bytes, self.start);
            self.start = 0;
        }
        if pos < self.bytes.len() {
            write_over(&mut self.bytes, payloads, word, count, pos)
        } else {
            write_behind(&mut self.bytes, payloads, word, count, pos)
        }
    }

    /// Takes the first `count` bytes away.
    pub fn consume(&mut self, count: usize)
        requires { count ≤ length self.old }
        ensures { self.new ≡ drop count self.old }
    {
        self.start += count;
    }

    // What was taken away goes once it is at least as long as what is left, so that each byte moves once or twice.
    fn compact_if(&mut self)
        ensures { self.new ≡ self.old }
    {
        if self.start >= self.bytes.len() - self.start {
            self.compact();
        }
    }

    // Gives the place of the bytes that were taken away back.
    fn compact(&mut self)
        ensures { self.new ≡ self.old }
    {
        cut_front(&mut self.bytes, self.start);
        self.start = 0;
    }
}

// Appends the first bytes that the payload of a data word offers to a vector, in its memory.
fn append_from<P: Payloads>(
    bytes: &mut Vec<u8>,
    payloads: &P,
    word: u64,
    count: u32,
) -> Result<(), OutOfMemory>
    ensures ok { OnOk result (bytes.new.items ≡ bytes.old.items ++ take count (P.offered payloads.now word)) }
    ensures err { OnErr result (bytes.new.items ≡ bytes.old.items) }
{
    let empty = Vec::new(*bytes.allocator());
    let mut list = ByteList::from_vec(mem::replace(bytes, empty));
    let answer = payloads.append_to(word, count, &mut list);
    *bytes = list.into_vec();
    answer
}

// Writes the first bytes that the payload of a data word offers over bytes that are there, and behind them.
fn write_over<P: Payloads>(
    bytes: &mut Vec<u8>,
    payloads: &P,
    word: u64,
    count: u32,
    pos: usize,
) -> Result<(), OutOfMemory>
    requires { pos < vec_len bytes.old }
    ensures ok { OnOk result (bytes.new.items ≡ overwritten bytes.old.items pos (take count (P.offered payloads.now word))) }
    ensures err { OnErr result (bytes.new.items ≡ bytes.old.items) }
{
    let end = bytes.len();
    let last = pos + count as usize;
    grow_to(bytes, last)?;
    let written = payloads.copy_to(word, &mut bytes.as_mut_slice()[pos..last]);
    bytes.truncate(end.max(pos + written));
    Ok(())
}

// Writes the first bytes that the payload of a data word offers behind those that are there, and behind a gap of zeros.
fn write_behind<P: Payloads>(
    bytes: &mut Vec<u8>,
    payloads: &P,
    word: u64,
    count: u32,
    pos: usize,
) -> Result<(), OutOfMemory>
    requires { vec_len bytes.old ≤ pos }
    ensures ok { OnOk result (bytes.new.items ≡ overwritten bytes.old.items pos (take count (P.offered payloads.now word))) }
    ensures err { OnErr result (bytes.new.items ≡ bytes.old.items) }
{
    let end = bytes.len();
    bytes.resize(pos, 0)?;
    let answer = append_from(bytes, payloads, word, count);
    if bytes.len() == pos {
        // No bytes came: there is no gap.
        bytes.truncate(end);
    }
    answer
}

// Zeros join the bytes, up to a length; a length that they have changes nothing.
fn grow_to(bytes: &mut Vec<u8>, len: usize) -> Result<(), OutOfMemory>
    ensures ok { OnOk result (bytes.new.items ≡ bytes.old.items ++ replicate (len - length bytes.old.items) 0) }
    ensures err { OnErr result (bytes.new.items ≡ bytes.old.items) }
{
    if len > bytes.len() {
        bytes.resize(len, 0)?;
    }
    Ok(())
}

// The first bytes go.
fn cut_front(bytes: &mut Vec<u8>, count: usize)
    requires { count ≤ vec_len bytes.old }
    ensures { bytes.new.items ≡ drop count bytes.old.items }
{
    let left = bytes.len() - count;
    bytes.as_mut_slice().copy_within(count.., 0);
    bytes.truncate(left);
}
