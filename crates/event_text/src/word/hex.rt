//! Bytes, in lower-case hexadecimal digits.
ghost use Rattle.std.specs.Prelude.{◌≡◌, ◌≢◌, ◌<◌, ◌≤◌, ◌+◌, ◌*◌, ◌%◌, ◌++◌, ◌==◌, drop, length, not, option_map, slice_index};
ghost use Rattle.std.specs.Prelude.{IfOk, IsTrue, OnOk, OnErr, Some, None, false, vec_capacity, vec_len};
ghost use Rattle.event_text.specs.TextDigits.{AreDigits, HasOther, HaveDigits, IsHex};
ghost use Rattle.event_text.specs.TextWords.{bytes_word, hex, hex_digit};
ghost use Rattle.event_text.specs.TextWrites.{Starts};
ghost use Rattle.event_text.specs.TextReads.{bytes_of, digit_value_of, pairs_of};

use crate::word::{is_word, put_byte};
use rent_buf::{ByteList, OutOfMemory};
use std::alloc::Global;

// How many bytes a block has. All bytes of a block are treated alike, and by comparing instead of by table, so that the compiler makes
// vector instructions of it.
const BLOCK: usize = 16;

// How many digits write a block.
const BLOCK_DIGITS: usize = 2 * BLOCK;

// How many bytes of a text are tested before whole blocks are: most texts begin with few digits.
const NEAR: usize = 8;

const DIGITS: [u8; 16] = *b"0123456789abcdef";

// What `VALUES` has for a byte that is no digit.
const NO_DIGIT: u8 = 16;

// The value of each byte as a lower-case digit.
#[rattlefmt::skip]
static VALUES: [u8; 256] = [
    16, 16, 16, 16, 16, 16, 16, 16, 16, 16, 16, 16, 16, 16, 16, 16,
    16, 16, 16, 16, 16, 16, 16, 16, 16, 16, 16, 16, 16, 16, 16, 16,
    16, 16, 16, 16, 16, 16, 16, 16, 16, 16, 16, 16, 16, 16, 16, 16,
     0,  1,  2,  3,  4,  5,  6,  7,  8,  9, 16, 16, 16, 16, 16, 16,
    16, 16, 16, 16, 16, 16, 16, 16, 16, 16, 16, 16, 16, 16, 16, 16,
    16, 16, 16, 16, 16, 16, 16, 16, 16, 16, 16, 16, 16, 16, 16, 16,
    16, 10, 11, 12, 13, 14, 15, 16, 16, 16, 16, 16, 16, 16, 16, 16,
    16, 16, 16, 16, 16, 16, 16, 16, 16, 16, 16, 16, 16, 16, 16, 16,
    16, 16, 16, 16, 16, 16, 16, 16, 16, 16, 16, 16, 16, 16, 16, 16,
    16, 16, 16, 16, 16, 16, 16, 16, 16, 16, 16, 16, 16, 16, 16, 16,
    16, 16, 16, 16, 16, 16, 16, 16, 16, 16, 16, 16, 16, 16, 16, 16,
    16, 16, 16, 16, 16, 16, 16, 16, 16, 16, 16, 16, 16, 16, 16, 16,
    16, 16, 16, 16, 16, 16, 16, 16, 16, 16, 16, 16, 16, 16, 16, 16,
    16, 16, 16, 16, 16, 16, 16, 16, 16, 16, 16, 16, 16, 16, 16, 16,
    16, 16, 16, 16, 16, 16, 16, 16, 16, 16, 16, 16, 16, 16, 16, 16,
    16, 16, 16, 16, 16, 16, 16, 16, 16, 16, 16, 16, 16, 16, 16, 16,
];

/// The bytes that a word writes: two lower-case hexadecimal digits for each, the higher first, or `-` for none. `None` if it writes
/// none; an error if memory runs out. (not in monoio)
pub fn read_bytes(alloc: Global, word: &[u8]) -> Result<Option<ByteList>, OutOfMemory>
    ensures { IfOk result (λ bytes. bytes ≡ bytes_of word.now) }
{
    if is_word(word, b"-") {
        return Ok(Some(ByteList::from_vec(Vec::new(alloc))));
    }
    if word.is_empty() {
        return Ok(None);
    }
    if word.len() % 2 != 0 {
        return Ok(None);
    }
    read_pairs(alloc, word)
}

/// How many bytes a word writes; `None` if `read_bytes` would read none. It takes no memory. (not in monoio)
pub fn count_bytes(word: &[u8]) -> Option<usize>
    ensures { result ≡ option_map length (bytes_of word.now) }
{
    if is_word(word, b"-") {
        return Some(0);
    }
    if word.is_empty() || !is_hex(word) {
        return None;
    }
    Some(word.len() / 2)
}

// Whether a word is pairs of digits.
fn is_hex(word: &[u8]) -> bool
    ensures yes { IsTrue result → IsHex word.now }
    ensures no { result ≡ false → pairs_of word.now ≡ None }
{
    word.len() % 2 == 0 && leading_digits(word) == word.len()
}

/// How many hexadecimal digits a text begins with. It takes no memory.
pub(crate) fn leading_digits(text: &[u8]) -> usize
    ensures { HaveDigits text.now result }
{
    if text.len() < NEAR + BLOCK_DIGITS {
        return past_digits(text, 0, text.len());
    }
    let at = past_digits(text, 0, NEAR);
    if at < NEAR {
        return at;
    }
    let at = past_blocks(text, at);
    past_digits(text, at, text.len())
}

// The place of the first byte that is no digit, or `end` if there is none before it. Those before `begin` are known to be digits.
fn past_digits(text: &[u8], begin: usize, end: usize) -> usize
    requires order { begin ≤ end }
    requires bound { end ≤ length text.now }
    requires digits { AreDigits text.now begin }
    ensures within { result ≤ end }
    ensures before { AreDigits text.now result }
    ensures there { result < end → digit_value_of (slice_index text.now result) ≡ 16 }
{
    let mut at = past_fours(text, begin, end);
    while at < end && digit_value(text[at]) != NO_DIGIT {
        at += 1;
    }
    at
}

// The place behind the digits that follow `begin`, four at a time, and at most `end`.
fn past_fours(text: &[u8], begin: usize, end: usize) -> usize
    requires order { begin ≤ end }
    requires bound { end ≤ length text.now }
    requires digits { AreDigits text.now begin }
    ensures within { result ≤ end }
    ensures before { AreDigits text.now result }
{
    let mut at = begin;
    while end - at >= 4 && are_four_digits(text, at) {
        at += 4;
    }
    at
}

// Whether the four bytes from a place on are digits, by table: `NO_DIGIT` has a bit that no digit's value has.
fn are_four_digits(text: &[u8], at: usize) -> bool
    requires { at + 4 ≤ length text.now }
    ensures { IsTrue result → AreDigits (drop at text.now) 4 }
{
    let first = digit_value(text[at]) | digit_value(text[at + 1]);
    let second = digit_value(text[at + 2]) | digit_value(text[at + 3]);
    first | second < NO_DIGIT
}

// The place behind the whole blocks of digits that follow `begin`.
fn past_blocks(text: &[u8], begin: usize) -> usize
    requires bound { begin ≤ length text.now }
    requires digits { AreDigits text.now begin }
    ensures within { result ≤ length text.now }
    ensures before { AreDigits text.now result }
{
    let mut at = begin;
    while text.len() - at >= BLOCK_DIGITS && are_digits(&text[at..at + BLOCK_DIGITS]) {
        at += BLOCK_DIGITS;
    }
    at
}

// Whether all bytes of a block are digits. It tests each of them, also behind one that is none: a loop that stops makes no vectors.
fn are_digits(block: &[u8]) -> bool
    ensures yes { IsTrue result → AreDigits block.now (length block.now) }
    ensures no { result ≡ false → HasOther block.now (length block.now) }
{
    let mut all = true;
    for byte in block {
        all &= is_digit(*byte);
    }
    all
}

// Whether a byte is a lower-case digit, by comparing.
fn is_digit(byte: u8) -> bool
    ensures { result ≡ not (digit_value_of byte == 16) }
{
    matches!(byte, b'0'..=b'9' | b'a'..=b'f')
}

// The value of a lower-case digit, or `NO_DIGIT`, by table.
fn digit_value(byte: u8) -> u8
    ensures { result ≡ digit_value_of byte }
{
    VALUES[byte as usize]
}

// The bytes that pairs of digits write; memory is taken once.
fn read_pairs(alloc: Global, word: &[u8]) -> Result<Option<ByteList>, OutOfMemory>
    requires { length word.now % 2 ≡ 0 }
    ensures { IfOk result (λ bytes. bytes ≡ pairs_of word.now) }
{
    let mut bytes = Vec::with_capacity(alloc, word.len() / 2)?;
    let mut rest = word;
    while rest.len() >= BLOCK_DIGITS {
        let (block, more) = rest.split_at(BLOCK_DIGITS);
        if !are_digits(block) {
            return Ok(None);
        }
        bytes.extend_from_slice(&read_block(block))?;
        rest = more;
    }
    if !push_pairs(rest, &mut bytes) {
        return Ok(None);
    }
    Ok(Some(ByteList::from_vec(bytes)))
}

// The bytes that the digits of a block write.
fn read_block(word: &[u8]) -> [u8; BLOCK]
    requires long { length word.now ≡ BLOCK_DIGITS }
    requires digits { AreDigits word.now BLOCK_DIGITS }
    ensures read { pairs_of word.now ≡ Some result }
    ensures long { length result ≡ BLOCK }
{
    let mut block = [0; BLOCK];
    for at in 0..BLOCK {
        block[at] = block_value(word[2 * at]) * 16 + block_value(word[2 * at + 1]);
    }
    block
}

// The value of a digit of a block, by comparing.
fn block_value(digit: u8) -> u8
    requires { digit_value_of digit ≢ 16 }
    ensures value { result ≡ digit_value_of digit }
    ensures small { result < 16 }
{
    if digit < b'a' {
        digit - b'0'
    } else {
        digit - b'a' + 10
    }
}

// Appends the bytes that pairs of digits write, to a list that has room for them; `false` if there is a byte that is no digit.
fn push_pairs(word: &[u8], bytes: &mut Vec<u8>) -> bool
    requires even { length word.now % 2 ≡ 0 }
    requires room { vec_len bytes.old * 2 + length word.now ≤ vec_capacity bytes.old * 2 }
    ensures yes { IsTrue result → option_map (λ more. bytes.old.items ++ more) (pairs_of word.now) ≡ Some bytes.new.items }
    ensures no { result ≡ false → pairs_of word.now ≡ None }
{
    for at in 0..word.len() / 2 {
        let high = digit_value(word[2 * at]);
        let low = digit_value(word[2 * at + 1]);
        if high == NO_DIGIT || low == NO_DIGIT {
            return false;
        }
        bytes.push_reserved(high * 16 + low);
    }
    true
}

/// Appends the word of some bytes; memory is taken once.
pub(crate) fn put_bytes(bytes: &[u8], out: &mut Vec<u8>) -> Result<(), OutOfMemory>
    ensures ok { OnOk result (out.new.items ≡ out.old.items ++ bytes_word bytes.now) }
    ensures err { OnErr result (Starts out.old.items out.new.items) }
{
    if bytes.is_empty() {
        return put_byte(b'-', out);
    }
    out.reserve(bytes.len() * 2)?;
    let mut rest = bytes;
    while rest.len() >= BLOCK {
        let (block, more) = rest.split_at(BLOCK);
        out.extend_from_slice(&hex_block(block))?;
        rest = more;
    }
    put_pairs(rest, out);
    Ok(())
}

// The digits of a block of bytes.
fn hex_block(bytes: &[u8]) -> [u8; BLOCK_DIGITS]
    requires { length bytes.now ≡ BLOCK }
    ensures written { result ≡ hex bytes.now }
    ensures long { length result ≡ BLOCK_DIGITS }
{
    let mut block = [0; BLOCK_DIGITS];
    for at in 0..BLOCK {
        block[2 * at] = block_digit(bytes[at] / 16);
        block[2 * at + 1] = block_digit(bytes[at] % 16);
    }
    block
}

// The digit of a value of a block, by comparing.
fn block_digit(value: u8) -> u8
    requires { value < 16 }
    ensures { result ≡ hex_digit value }
{
    if value < 10 {
        b'0' + value
    } else {
        b'a' - 10 + value
    }
}

// Appends the digits of bytes, to a list that has room for them.
fn put_pairs(bytes: &[u8], out: &mut Vec<u8>)
    requires { vec_len out.old + length bytes.now * 2 ≤ vec_capacity out.old }
    ensures { out.new.items ≡ out.old.items ++ hex bytes.now }
{
    for byte in bytes {
        out.push_reserved(hex_digit_of(*byte / 16));
        out.push_reserved(hex_digit_of(*byte % 16));
    }
}

// The digit of a value, by table.
fn hex_digit_of(value: u8) -> u8
    requires { value < 16 }
    ensures { result ≡ hex_digit value }
{
    DIGITS[value as usize]
}
