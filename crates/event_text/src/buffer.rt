//! Buffers and vectors of buffers as text, read and written.
ghost use Rattle.std.specs.Prelude.{◌≡◌, ◌++◌, [], IfOk, IfSome, MatchOption, OnOk, OnErr, Some, None, option_map};
ghost use Rattle.rent_buf.specs.Parts.{parts_of_pairs};
ghost use Rattle.event_text.specs.TextWrites.{Starts};
ghost use Rattle.event_text.specs.TextReply.{held_words};
ghost use Rattle.event_text.specs.TextRequest.{buffer_kind_word, buffer_words, parts_words};
ghost use Rattle.event_text.specs.TextWords.{spaced};
ghost use Rattle.event_text.specs.TextLook.{line_end, words_left};
ghost use Rattle.event_text.specs.TextReaders.{field};
ghost use Rattle.event_text.specs.TextReads.{buffer_of, parts_of, counted_of, parts_end, buffer_kind_of};

use crate::word::hex::{put_bytes, read_bytes};
use crate::word::number::read_number;
use crate::word::{
    behind_next, is_word, last_bytes, next_bytes_word, next_number, next_word, put, put_byte,
    put_counted, put_next_bytes, put_next_number,
};
use rent_buf::{BufSpec, ByteList, HeldBuf, Kind, OutOfMemory, PartsSpec};
use std::alloc::Global;

/// The buffer that words write.
pub(crate) fn read_buffer(alloc: Global, rest: &[u8]) -> Result<Option<BufSpec>, OutOfMemory>
    requires { line_end rest.now ≡ [] }
    ensures { IfOk result (λ buffer. buffer ≡ buffer_of (words_left rest.now)) }
{
    let Some((kind, rest)) = next_buffer_kind(rest) else {
        return Ok(None);
    };
    let Some((total, rest)) = next_number(rest) else {
        return Ok(None);
    };
    let Some((begin, rest)) = next_number(rest) else {
        return Ok(None);
    };
    let Some((end, rest)) = next_number(rest) else {
        return Ok(None);
    };
    match last_bytes(alloc, rest)? {
        Some(bytes) => Ok(BufSpec::new(kind, total as usize, begin as usize, end as usize, bytes)),
        None => Ok(None),
    }
}

fn next_buffer_kind(rest: &[u8]) -> Option<(Kind, &[u8])>
    ensures reads { MatchOption result (field buffer_kind_of (words_left rest.now) ≡ None)
        (λ cut. field buffer_kind_of (words_left rest.now) ≡ Some (cut.0, words_left cut.1.now)) }
    ensures past { IfSome result (λ cut. line_end cut.1.now ≡ line_end rest.now) }
{
    let (word, rest) = next_word(rest)?;
    let kind = buffer_kind(word)?;
    Some((kind, rest))
}

/// The kind of a buffer that a word writes.
pub(crate) fn buffer_kind(word: &[u8]) -> Option<Kind>
    ensures { result ≡ buffer_kind_of word.now }
{
    if is_word(word, b"v") {
        return Some(Kind::Vector);
    }
    if is_word(word, b"g") {
        return Some(Kind::Grown);
    }
    if is_word(word, b"b") {
        return Some(Kind::Fixed);
    }
    None
}

/// The parts that words write.
pub(crate) fn read_parts(alloc: Global, rest: &[u8]) -> Result<Option<PartsSpec>, OutOfMemory>
    ensures { IfOk result (λ parts. parts ≡ parts_of (words_left rest.now)) }
{
    match behind_next(rest, b"p") {
        Some(rest) => read_counted(alloc, rest),
        None => Ok(None),
    }
}

// Nothing is reserved by the number that is written: the pairs are read first, and counted.
fn read_counted(alloc: Global, rest: &[u8]) -> Result<Option<PartsSpec>, OutOfMemory>
    ensures { IfOk result (λ parts. parts ≡ counted_of (words_left rest.now)) }
{
    let Some((count, rest)) = next_number(rest) else {
        return Ok(None);
    };
    match read_rooms(alloc, rest)? {
        Some(pairs) if pairs.len() as u64 == count => Ok(PartsSpec::new(pairs)),
        _ => Ok(None),
    }
}

// The rooms and bytes up to the end of the line.
fn read_rooms(alloc: Global, rest: &[u8]) -> Result<Option<Vec<(usize, ByteList)>>, OutOfMemory>
    ensures { IfOk result (λ pairs. option_map (λ pairs. parts_of_pairs pairs.items) pairs ≡ parts_end (words_left rest.now)) }
{
    let mut pairs = Vec::new(alloc);
    let mut rest = rest;
    while let Some((room, behind)) = next_word(rest) {
        let Some((bytes, behind)) = next_bytes_word(behind) else {
            return Ok(None);
        };
        let Some(room) = read_number(room) else {
            return Ok(None);
        };
        let Some(bytes) = read_bytes(alloc, bytes)? else {
            return Ok(None);
        };
        pairs.push((room as usize, bytes))?;
        rest = behind;
    }
    Ok(Some(pairs))
}

/// Appends the words of what a request held.
pub(crate) fn put_held(held: &HeldBuf, out: &mut Vec<u8>) -> Result<(), OutOfMemory>
    ensures ok { OnOk result (out.new.items ≡ out.old.items ++ spaced (held_words held.now)) }
    ensures err { OnErr result (Starts out.old.items out.new.items) }
{
    match held {
        HeldBuf::One(buf) => put_buffer(buf, out),
        HeldBuf::Parts(parts) => put_parts(parts, out),
        HeldBuf::Nothing => put_byte(b'-', out),
    }
}

/// Appends the words of a buffer.
pub(crate) fn put_buffer(buf: &BufSpec, out: &mut Vec<u8>) -> Result<(), OutOfMemory>
    ensures ok { OnOk result (out.new.items ≡ out.old.items ++ spaced (buffer_words buf.now)) }
    ensures err { OnErr result (Starts out.old.items out.new.items) }
{
    put_buffer_kind(buf.kind(), out)?;
    put_next_number(buf.total() as u64, out)?;
    put_next_number(buf.begin() as u64, out)?;
    put_next_number(buf.end() as u64, out)?;
    put_byte(b' ', out)?;
    put_bytes(buf.bytes(), out)
}

fn put_buffer_kind(kind: Kind, out: &mut Vec<u8>) -> Result<(), OutOfMemory>
    ensures ok { OnOk result (out.new.items ≡ out.old.items ++ buffer_kind_word kind) }
    ensures err { OnErr result (Starts out.old.items out.new.items) }
{
    match kind {
        Kind::Vector => put(b"v", out),
        Kind::Grown => put(b"g", out),
        Kind::Fixed => put(b"b", out),
    }
}

/// Appends the words of parts.
pub(crate) fn put_parts(parts: &PartsSpec, out: &mut Vec<u8>) -> Result<(), OutOfMemory>
    ensures ok { OnOk result (out.new.items ≡ out.old.items ++ spaced (parts_words parts.now)) }
    ensures err { OnErr result (Starts out.old.items out.new.items) }
{
    put_counted(b"p ", parts.len() as u64, out)?;
    for i in 0..parts.len() {
        put_next_number(parts.room(i) as u64, out)?;
        put_next_bytes(parts.bytes(i), out)?;
    }
    Ok(())
}
