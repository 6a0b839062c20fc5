//! A text cut into lines, and a line into words, and words of numbers and bytes; appending to a text.
//!
//! The readers of words take a text from within its first line on: a space ends a word, and a newline ends its line too. So a text is
//! looked through with no line cut off, and a line that was cut off is read by the same functions.
ghost use Rattle.std.specs.Prelude.{◌≡◌, ◌∷◌, ◌++◌, ◌^◌, ◌<◌};
ghost use Rattle.std.specs.Prelude.{IfOk, IfSome, IsTrue, OnOk, OnErr, MatchOption, Some, None, [], bytes_eq, decimal, length, option_map};
ghost use Rattle.std.specs.Option.{is_some};
ghost use Rattle.event_text.specs.TextLines.{IsPlaceOf, lines};
ghost use Rattle.event_text.specs.TextLook.{count_of, ends_word, is_unbroken, line_end, line_of, no_more, words_left, IsWordEnd};
ghost use Rattle.event_text.specs.TextReaders.{behind_first, field, first_of, last_of};
ghost use Rattle.event_text.specs.TextReads.{words, number_of, number_below, address_of, flag_of, bytes_end};
ghost use Rattle.event_text.specs.TextRequest.{address_word};
ghost use Rattle.event_text.specs.TextWords.{bytes_word};
ghost use Rattle.event_text.specs.TextWrites.{Starts};

pub(crate) mod hex;
pub(crate) mod number;

use hex::{count_bytes, leading_digits, put_bytes, read_bytes};
use memchr::memchr;
use number::{leading_number, put_number, read_number};
use rent_buf::{ByteList, OutOfMemory};
use std::alloc::Global;

/// The first line of a text, without the newline that ends it, and the text behind it. (not in monoio)
pub fn first_line(text: &[u8]) -> (&[u8], &[u8])
    requires { 0 < length text.now }
    ensures lines { lines text.now ≡ result.0.now ∷ lines result.1.now }
    ensures one { line_end result.0.now ≡ [] }
    ensures less { length result.1.now < length text.now }
{
    let at = place_of(b'\n', text);
    if at < text.len() {
        return (&text[..at], &text[at + 1..]);
    }
    (text, &text[text.len()..])
}

// The place of the first such byte, or the length if there is none.
fn place_of(byte: u8, text: &[u8]) -> usize
    ensures { IsPlaceOf byte text.now result }
{
    memchr(byte, text).unwrap_or(text.len())
}

/// A word is this one.
pub(crate) fn is_word(word: &[u8], text: &[u8]) -> bool
    ensures { result ≡ bytes_eq word.now text.now }
{
    word == text
}

/// The text from the end of its line on, if no word is left of that.
pub(crate) fn past_line(rest: &[u8]) -> Option<&[u8]>
    ensures reads { is_some result ≡ no_more (words_left rest.now) }
    ensures past { IfSome result (λ past. past.now ≡ line_end rest.now) }
{
    if is_end(rest) { Some(rest) } else { None }
}

// No word is left of the line.
fn is_end(rest: &[u8]) -> bool
    ensures { result ≡ no_more (words_left rest.now) }
{
    rest.is_empty() || rest[0] == b'\n'
}

// A word that begins in front of the rest ends there.
fn is_word_end(rest: &[u8]) -> bool
    ensures { result ≡ ends_word rest.now }
{
    rest.is_empty() || rest[0] == b' ' || rest[0] == b'\n'
}

/// What is behind the first word of a text, if that is this one: a word with no space and no newline in it.
pub(crate) fn behind_word<'a>(text: &'a [u8], word: &[u8]) -> Option<&'a [u8]>
    requires { IsTrue (is_unbroken word.now) }
    ensures reads { is_some result ≡ bytes_eq (first_of (words (line_of text.now))) word.now }
    ensures behind { IfSome result (λ rest. words_left rest.now ≡ behind_first (words (line_of text.now))) }
    ensures past { IfSome result (λ rest. line_end rest.now ≡ line_end text.now) }
{
    let at = word.len();
    if text.len() < at {
        return None;
    }
    if !is_word(&text[..at], word) || !is_word_end(&text[at..]) {
        return None;
    }
    Some(&text[at..])
}

/// What is behind the next word, if that is this one: a word with no space and no newline in it.
pub(crate) fn behind_next<'a>(rest: &'a [u8], word: &[u8]) -> Option<&'a [u8]>
    requires some { 0 < length word.now }
    requires unbroken { IsTrue (is_unbroken word.now) }
    ensures reads { is_some result ≡ bytes_eq (first_of (words_left rest.now)) word.now }
    ensures behind { IfSome result (λ more. words_left more.now ≡ behind_first (words_left rest.now)) }
    ensures past { IfSome result (λ more. line_end more.now ≡ line_end rest.now) }
{
    behind_word(next_text(rest)?, word)
}

// The text that the next word begins, if there is one.
fn next_text(rest: &[u8]) -> Option<&[u8]>
    ensures reads { MatchOption result (words_left rest.now ≡ []) (λ text. words_left rest.now ≡ words (line_of text.now)) }
    ensures past { IfSome result (λ text. line_end text.now ≡ line_end rest.now) }
{
    if is_end(rest) { None } else { Some(&rest[1..]) }
}

/// The next word, and what is behind it.
pub(crate) fn next_word(rest: &[u8]) -> Option<(&[u8], &[u8])>
    ensures reads { MatchOption result (words_left rest.now ≡ []) (λ cut. words_left rest.now ≡ cut.0.now ∷ words_left cut.1.now) }
    ensures past { IfSome result (λ cut. line_end cut.1.now ≡ line_end rest.now) }
{
    let text = next_text(rest)?;
    let at = word_end(text);
    Some((&text[..at], &text[at..]))
}

/// The same, found sooner where the word is one of bytes.
pub(crate) fn next_bytes_word(rest: &[u8]) -> Option<(&[u8], &[u8])>
    ensures reads { MatchOption result (words_left rest.now ≡ []) (λ cut. words_left rest.now ≡ cut.0.now ∷ words_left cut.1.now) }
    ensures past { IfSome result (λ cut. line_end cut.1.now ≡ line_end rest.now) }
{
    let text = next_text(rest)?;
    let at = leading_digits(text);
    if !is_word_end(&text[at..]) {
        return next_word(rest);
    }
    Some((&text[..at], &text[at..]))
}

// Where the first word of a text ends.
fn word_end(text: &[u8]) -> usize
    ensures { IsWordEnd text.now result }
{
    for at in 0..text.len() {
        if text[at] == b' ' || text[at] == b'\n' {
            return at;
        }
    }
    text.len()
}

/// The number that the next word writes, and what is behind it.
pub(crate) fn next_number(rest: &[u8]) -> Option<(u64, &[u8])>
    ensures reads { MatchOption result (field number_of (words_left rest.now) ≡ None)
        (λ cut. field number_of (words_left rest.now) ≡ Some (cut.0, words_left cut.1.now)) }
    ensures past { IfSome result (λ cut. line_end cut.1.now ≡ line_end rest.now) }
{
    match next_digit(rest) {
        Some(found) => Some(found),
        None => next_longer(rest),
    }
}

// The number that the next word writes, if that is one digit, as most numbers are; and what is behind it.
fn next_digit(rest: &[u8]) -> Option<(u64, &[u8])>
    ensures reads { IfSome result (λ cut. field number_of (words_left rest.now) ≡ Some (cut.0, words_left cut.1.now)) }
    ensures past { IfSome result (λ cut. line_end cut.1.now ≡ line_end rest.now) }
{
    if rest.len() < 2 || rest[0] == b'\n' {
        return None;
    }
    if !rest[1].is_ascii_digit() || !is_word_end(&rest[2..]) {
        return None;
    }
    Some(((rest[1] - b'0') as u64, &rest[2..]))
}

// The number that the next word writes, digit by digit, and what is behind it.
#[inline(never)]
fn next_longer(rest: &[u8]) -> Option<(u64, &[u8])>
    ensures reads { MatchOption result (field number_of (words_left rest.now) ≡ None)
        (λ cut. field number_of (words_left rest.now) ≡ Some (cut.0, words_left cut.1.now)) }
    ensures past { IfSome result (λ cut. line_end cut.1.now ≡ line_end rest.now) }
{
    match next_digits(rest) {
        Some(found) => Some(found),
        None => next_long(rest),
    }
}

// The number that the next word writes, if that is a short one, and what is behind it.
fn next_digits(rest: &[u8]) -> Option<(u64, &[u8])>
    ensures reads { IfSome result (λ cut. field number_of (words_left rest.now) ≡ Some (cut.0, words_left cut.1.now)) }
    ensures past { IfSome result (λ cut. line_end cut.1.now ≡ line_end rest.now) }
{
    let text = next_text(rest)?;
    let (number, at) = leading_number(text)?;
    if !is_word_end(&text[at..]) {
        return None;
    }
    Some((number, &text[at..]))
}

// The number that the next word writes, however long, and what is behind it.
#[cold]
#[inline(never)]
fn next_long(rest: &[u8]) -> Option<(u64, &[u8])>
    ensures reads { MatchOption result (field number_of (words_left rest.now) ≡ None)
        (λ cut. field number_of (words_left rest.now) ≡ Some (cut.0, words_left cut.1.now)) }
    ensures past { IfSome result (λ cut. line_end cut.1.now ≡ line_end rest.now) }
{
    let (word, behind) = next_word(rest)?;
    let number = read_number(word)?;
    Some((number, behind))
}

/// The address that the next word writes, if it isn't `-`, and what is behind it.
pub(crate) fn next_address(rest: &[u8]) -> Option<(Option<u64>, &[u8])>
    ensures reads { MatchOption result (field address_of (words_left rest.now) ≡ None)
        (λ cut. field address_of (words_left rest.now) ≡ Some (cut.0, words_left cut.1.now)) }
    ensures past { IfSome result (λ cut. line_end cut.1.now ≡ line_end rest.now) }
{
    let (word, behind) = next_word(rest)?;
    if is_word(word, b"-") {
        return Some((None, behind));
    }
    let address = read_number(word)?;
    Some((Some(address), behind))
}

/// The number below 2^32 that the next word writes, and what is behind it.
pub(crate) fn next_u32(rest: &[u8]) -> Option<(u32, &[u8])>
    ensures reads { MatchOption result (field (number_below (2 ^ 32)) (words_left rest.now) ≡ None)
        (λ cut. field (number_below (2 ^ 32)) (words_left rest.now) ≡ Some (cut.0, words_left cut.1.now)) }
    ensures past { IfSome result (λ cut. line_end cut.1.now ≡ line_end rest.now) }
{
    let (number, behind) = next_number(rest)?;
    if number > u32::MAX as u64 {
        return None;
    }
    Some((number as u32, behind))
}

/// How many bytes the next word writes, and what is behind it.
pub(crate) fn next_count(rest: &[u8]) -> Option<(usize, &[u8])>
    ensures reads { MatchOption result (field count_of (words_left rest.now) ≡ None)
        (λ cut. field count_of (words_left rest.now) ≡ Some (cut.0, words_left cut.1.now)) }
    ensures past { IfSome result (λ cut. line_end cut.1.now ≡ line_end rest.now) }
{
    if let Some(behind) = behind_next(rest, b"-") {
        return Some((0, behind));
    }
    match next_pairs(rest) {
        Some(found) => Some(found),
        None => next_cut_count(rest),
    }
}

// How many bytes the next word writes, once it is cut off, and what is behind it.
#[cold]
#[inline(never)]
fn next_cut_count(rest: &[u8]) -> Option<(usize, &[u8])>
    ensures reads { MatchOption result (field count_of (words_left rest.now) ≡ None)
        (λ cut. field count_of (words_left rest.now) ≡ Some (cut.0, words_left cut.1.now)) }
    ensures past { IfSome result (λ cut. line_end cut.1.now ≡ line_end rest.now) }
{
    let (word, behind) = next_word(rest)?;
    let count = count_bytes(word)?;
    Some((count, behind))
}

// How many bytes the next word writes, if it writes some, and what is behind it.
fn next_pairs(rest: &[u8]) -> Option<(usize, &[u8])>
    ensures reads { IfSome result (λ cut. field count_of (words_left rest.now) ≡ Some (cut.0, words_left cut.1.now)) }
    ensures past { IfSome result (λ cut. line_end cut.1.now ≡ line_end rest.now) }
{
    let text = next_text(rest)?;
    let at = leading_digits(text);
    if at == 0 || at % 2 != 0 || !is_word_end(&text[at..]) {
        return None;
    }
    Some((at / 2, &text[at..]))
}

/// The number that the one word that is left writes, and the text from the end of its line on.
pub(crate) fn last_number(rest: &[u8]) -> Option<(u64, &[u8])>
    ensures reads { option_map (λ cut. cut.0) result ≡ last_of number_of (words_left rest.now) }
    ensures past { IfSome result (λ cut. cut.1.now ≡ line_end rest.now) }
{
    let (number, behind) = next_number(rest)?;
    let past = past_line(behind)?;
    Some((number, past))
}

/// The same of a number below 2^32.
pub(crate) fn last_u32(rest: &[u8]) -> Option<(u32, &[u8])>
    ensures reads { option_map (λ cut. cut.0) result ≡ last_of (number_below (2 ^ 32)) (words_left rest.now) }
    ensures past { IfSome result (λ cut. cut.1.now ≡ line_end rest.now) }
{
    let (number, behind) = next_u32(rest)?;
    let past = past_line(behind)?;
    Some((number, past))
}

/// The same of a number below 2^16.
pub(crate) fn last_u16(rest: &[u8]) -> Option<(u16, &[u8])>
    ensures reads { option_map (λ cut. cut.0) result ≡ last_of (number_below (2 ^ 16)) (words_left rest.now) }
    ensures past { IfSome result (λ cut. cut.1.now ≡ line_end rest.now) }
{
    let (number, past) = last_number(rest)?;
    if number > u16::MAX as u64 {
        return None;
    }
    Some((number as u16, past))
}

/// Whether the one word that is left is `set`; it may be `unset`, and nothing else. And the text from the end of its line on.
pub(crate) fn last_flag<'a>(rest: &'a [u8], set: &[u8], unset: &[u8]) -> Option<(bool, &'a [u8])>
    ensures reads { option_map (λ cut. cut.0) result ≡ last_of (flag_of set.now unset.now) (words_left rest.now) }
    ensures past { IfSome result (λ cut. cut.1.now ≡ line_end rest.now) }
{
    let (word, behind) = next_word(rest)?;
    let is_set = is_word(word, set);
    if !is_set && !is_word(word, unset) {
        return None;
    }
    let past = past_line(behind)?;
    Some((is_set, past))
}

/// How many bytes the one word that is left writes, and the text from the end of its line on. It takes no memory.
pub(crate) fn last_count(rest: &[u8]) -> Option<(usize, &[u8])>
    ensures reads { option_map (λ cut. cut.0) result ≡ option_map length (bytes_end (words_left rest.now)) }
    ensures past { IfSome result (λ cut. cut.1.now ≡ line_end rest.now) }
{
    let (count, behind) = next_count(rest)?;
    let past = past_line(behind)?;
    Some((count, past))
}

/// The bytes that the one word that is left of the last line writes. A word with a space in it would write none, so no space is looked
/// for.
pub(crate) fn last_bytes(alloc: Global, rest: &[u8]) -> Result<Option<ByteList>, OutOfMemory>
    requires { line_end rest.now ≡ [] }
    ensures { IfOk result (λ bytes. bytes ≡ bytes_end (words_left rest.now)) }
{
    match rest {
        [] => Ok(None),
        [_, text @ ..] => read_bytes(alloc, text),
    }
}

/// Appends bytes.
pub(crate) fn put(bytes: &[u8], out: &mut Vec<u8>) -> Result<(), OutOfMemory>
    ensures ok { OnOk result (out.new.items ≡ out.old.items ++ bytes.now) }
    ensures err { OnErr result (Starts out.old.items out.new.items) }
{
    out.extend_from_slice(bytes)?;
    Ok(())
}

/// Appends a byte.
pub(crate) fn put_byte(byte: u8, out: &mut Vec<u8>) -> Result<(), OutOfMemory>
    ensures ok { OnOk result (out.new.items ≡ out.old.items ++ byte ∷ []) }
    ensures err { OnErr result (Starts out.old.items out.new.items) }
{
    out.push(byte)?;
    Ok(())
}

/// Appends words and a number.
pub(crate) fn put_counted(words: &[u8], n: u64, out: &mut Vec<u8>) -> Result<(), OutOfMemory>
    ensures ok { OnOk result (out.new.items ≡ out.old.items ++ (words.now ++ decimal n)) }
    ensures err { OnErr result (Starts out.old.items out.new.items) }
{
    put(words, out)?;
    put_number(n, out)
}

/// Appends a space and a number.
pub(crate) fn put_next_number(number: u64, out: &mut Vec<u8>) -> Result<(), OutOfMemory>
    ensures ok { OnOk result (out.new.items ≡ out.old.items ++ 32 ∷ decimal number) }
    ensures err { OnErr result (Starts out.old.items out.new.items) }
{
    put_byte(b' ', out)?;
    put_number(number, out)
}

/// Appends a space and the word of some bytes.
pub(crate) fn put_next_bytes(bytes: &[u8], out: &mut Vec<u8>) -> Result<(), OutOfMemory>
    ensures ok { OnOk result (out.new.items ≡ out.old.items ++ 32 ∷ bytes_word bytes.now) }
    ensures err { OnErr result (Starts out.old.items out.new.items) }
{
    put_byte(b' ', out)?;
    put_bytes(bytes, out)
}

/// Appends a space and the word of an address: `-` if there is none.
pub(crate) fn put_next_address(address: Option<u64>, out: &mut Vec<u8>) -> Result<(), OutOfMemory>
    ensures ok { OnOk result (out.new.items ≡ out.old.items ++ 32 ∷ address_word address) }
    ensures err { OnErr result (Starts out.old.items out.new.items) }
{
    match address {
        None => put(b" -", out),
        Some(address) => put_next_number(address, out),
    }
}
