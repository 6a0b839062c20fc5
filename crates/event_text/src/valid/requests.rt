//! Whether words are a request's, with its buffer or its parts. Each function gives the text from the end of the line on, if the words
//! that are left of it are what is named.
ghost use Rattle.std.specs.Prelude.{◌≡◌, ◌&&◌, ◌^◌, nat_le, option_and_then, IfSome, MatchOption};
ghost use Rattle.std.specs.Option.{is_some};
ghost use Rattle.event_text.specs.TextLook.{line_end, words_left};
ghost use Rattle.event_text.specs.TextReaders.{behind_first, first_of, with_first, last_of};
ghost use Rattle.event_text.specs.TextReads.{number_of, number_below, bytes_of, address_of, flag_of, bytes_end};
ghost use Rattle.event_text.specs.TextReads.{buffer_of, parts_of, counted, counted_of, parts_end, is_full};
ghost use Rattle.event_text.specs.TextRequestReads.{request_of, request_by, place_request_by, path_request_by, handle_request_by};
ghost use Rattle.event_text.specs.TextValid.{AddsPart, NoPart};

use crate::buffer::buffer_kind;
use crate::word::hex::count_bytes;
use crate::word::number::read_number;
use crate::word::{
    behind_next, last_count, last_flag, last_number, last_u32, next_address, next_bytes_word,
    next_count, next_number, next_u32, next_word, past_line,
};
use rent_buf::Kind;

/// A request's.
pub(super) fn past_request(rest: &[u8]) -> Option<&[u8]>
    ensures reads { is_some result ≡ is_some (request_of (words_left rest.now)) }
    ensures past { IfSome result (λ past. past.now ≡ line_end rest.now) }
{
    past_named(rest)
}

// A request's, by the tables of names from that of streams on.
#[tactic(auto, unfolding(crate::specs::TextRequestReads::request_by))]
fn past_named(rest: &[u8]) -> Option<&[u8]>
    ensures reads { is_some result ≡ is_some (request_by (first_of (words_left rest.now)) (behind_first (words_left rest.now))) }
    ensures past { IfSome result (λ past. past.now ≡ line_end rest.now) }
{
    if let Some(rest) = behind_next(rest, b"recv") {
        return past_number_and_buffer(rest);
    }
    if let Some(rest) = behind_next(rest, b"readv") {
        return past_number_and_parts(rest);
    }
    if let Some(rest) = behind_next(rest, b"send") {
        return past_number_and_buffer(rest);
    }
    if let Some(rest) = behind_next(rest, b"writev") {
        return past_number_and_parts(rest);
    }
    past_place_request(rest)
}

// A request's of a message, or of bytes at a position, or a further one's.
#[tactic(auto, unfolding(crate::specs::TextRequestReads::place_request_by))]
fn past_place_request(rest: &[u8]) -> Option<&[u8]>
    ensures reads { is_some result ≡
        is_some (place_request_by (first_of (words_left rest.now)) (behind_first (words_left rest.now))) }
    ensures past { IfSome result (λ past. past.now ≡ line_end rest.now) }
{
    if let Some(rest) = behind_next(rest, b"recvmsg") {
        return past_number_and_buffer(rest);
    }
    if let Some(rest) = behind_next(rest, b"sendmsg") {
        return past_number_address_and_buffer(rest);
    }
    if let Some(rest) = behind_next(rest, b"read") {
        return past_numbers_and_buffer(rest);
    }
    if let Some(rest) = behind_next(rest, b"write") {
        return past_numbers_and_buffer(rest);
    }
    past_path_request(rest)
}

// A request's of paths, or of handles alone.
#[tactic(auto, unfolding(crate::specs::TextRequestReads::path_request_by))]
fn past_path_request(rest: &[u8]) -> Option<&[u8]>
    ensures reads { is_some result ≡
        is_some (path_request_by (first_of (words_left rest.now)) (behind_first (words_left rest.now))) }
    ensures past { IfSome result (λ past. past.now ≡ line_end rest.now) }
{
    if let Some(rest) = behind_next(rest, b"open") {
        return past_bytes_and_u32s(rest);
    }
    if let Some(rest) = behind_next(rest, b"mkdir") {
        return past_bytes_and_u32(rest);
    }
    if let Some(rest) = behind_next(rest, b"rename") {
        return past_bytes_and_bytes(rest);
    }
    if let Some(rest) = behind_next(rest, b"unlink") {
        return past_bytes_and_flag(rest, b"dir", b"file");
    }
    past_handle_request(rest)
}

// A request's of handles alone.
#[tactic(auto, unfolding(crate::specs::TextRequestReads::handle_request_by))]
fn past_handle_request(rest: &[u8]) -> Option<&[u8]>
    ensures reads { is_some result ≡
        is_some (handle_request_by (first_of (words_left rest.now)) (behind_first (words_left rest.now))) }
    ensures past { IfSome result (λ past. past.now ≡ line_end rest.now) }
{
    if let Some(rest) = behind_next(rest, b"spliceto") {
        return past_numbers_and_u32(rest);
    }
    if let Some(rest) = behind_next(rest, b"splicefrom") {
        return past_numbers_and_u32(rest);
    }
    if let Some(rest) = behind_next(rest, b"accept") {
        let (_, past) = last_number(rest)?;
        return Some(past);
    }
    if let Some(rest) = behind_next(rest, b"connect") {
        return past_numbers(rest);
    }
    if let Some(rest) = behind_next(rest, b"fsync") {
        return past_number_and_flag(rest, b"data", b"all");
    }
    if let Some(rest) = behind_next(rest, b"polladd") {
        return past_number_and_flag(rest, b"read", b"write");
    }
    None
}

// What is behind the names, by its shape.

fn past_number_and_buffer(rest: &[u8]) -> Option<&[u8]>
    ensures reads { is_some result ≡ is_some (with_first number_of buffer_of (words_left rest.now)) }
    ensures past { IfSome result (λ past. past.now ≡ line_end rest.now) }
{
    let (_, rest) = next_number(rest)?;
    past_buffer(rest)
}

fn past_numbers_and_buffer(rest: &[u8]) -> Option<&[u8]>
    ensures reads { is_some result ≡ is_some (with_first number_of (with_first number_of buffer_of) (words_left rest.now)) }
    ensures past { IfSome result (λ past. past.now ≡ line_end rest.now) }
{
    let (_, rest) = next_number(rest)?;
    past_number_and_buffer(rest)
}

fn past_number_address_and_buffer(rest: &[u8]) -> Option<&[u8]>
    ensures reads { is_some result ≡ is_some (with_first number_of (with_first address_of buffer_of) (words_left rest.now)) }
    ensures past { IfSome result (λ past. past.now ≡ line_end rest.now) }
{
    let (_, rest) = next_number(rest)?;
    let (_, rest) = next_address(rest)?;
    past_buffer(rest)
}

fn past_number_and_parts(rest: &[u8]) -> Option<&[u8]>
    ensures reads { is_some result ≡ is_some (with_first number_of parts_of (words_left rest.now)) }
    ensures past { IfSome result (λ past. past.now ≡ line_end rest.now) }
{
    let (_, rest) = next_number(rest)?;
    past_parts(rest)
}

fn past_numbers(rest: &[u8]) -> Option<&[u8]>
    ensures reads { is_some result ≡ is_some (with_first number_of (last_of number_of) (words_left rest.now)) }
    ensures past { IfSome result (λ past. past.now ≡ line_end rest.now) }
{
    let (_, rest) = next_number(rest)?;
    let (_, past) = last_number(rest)?;
    Some(past)
}

fn past_numbers_and_u32(rest: &[u8]) -> Option<&[u8]>
    ensures reads { is_some result ≡
        is_some (with_first number_of (with_first number_of (last_of (number_below (2 ^ 32)))) (words_left rest.now)) }
    ensures past { IfSome result (λ past. past.now ≡ line_end rest.now) }
{
    let (_, rest) = next_number(rest)?;
    let (_, rest) = next_number(rest)?;
    let (_, past) = last_u32(rest)?;
    Some(past)
}

fn past_number_and_flag<'a>(rest: &'a [u8], set: &[u8], unset: &[u8]) -> Option<&'a [u8]>
    ensures reads { is_some result ≡ is_some (with_first number_of (last_of (flag_of set.now unset.now)) (words_left rest.now)) }
    ensures past { IfSome result (λ past. past.now ≡ line_end rest.now) }
{
    let (_, rest) = next_number(rest)?;
    let (_, past) = last_flag(rest, set, unset)?;
    Some(past)
}

fn past_bytes_and_u32(rest: &[u8]) -> Option<&[u8]>
    ensures reads { is_some result ≡ is_some (with_first bytes_of (last_of (number_below (2 ^ 32))) (words_left rest.now)) }
    ensures past { IfSome result (λ past. past.now ≡ line_end rest.now) }
{
    let (_, rest) = next_count(rest)?;
    let (_, past) = last_u32(rest)?;
    Some(past)
}

fn past_bytes_and_u32s(rest: &[u8]) -> Option<&[u8]>
    ensures reads { is_some result ≡
        is_some (with_first bytes_of (with_first (number_below (2 ^ 32)) (last_of (number_below (2 ^ 32)))) (words_left rest.now)) }
    ensures past { IfSome result (λ past. past.now ≡ line_end rest.now) }
{
    let (_, rest) = next_count(rest)?;
    let (_, rest) = next_u32(rest)?;
    let (_, past) = last_u32(rest)?;
    Some(past)
}

fn past_bytes_and_bytes(rest: &[u8]) -> Option<&[u8]>
    ensures reads { is_some result ≡ is_some (with_first bytes_of bytes_end (words_left rest.now)) }
    ensures past { IfSome result (λ past. past.now ≡ line_end rest.now) }
{
    let (_, rest) = next_count(rest)?;
    let (_, past) = last_count(rest)?;
    Some(past)
}

fn past_bytes_and_flag<'a>(rest: &'a [u8], set: &[u8], unset: &[u8]) -> Option<&'a [u8]>
    ensures reads { is_some result ≡ is_some (with_first bytes_of (last_of (flag_of set.now unset.now)) (words_left rest.now)) }
    ensures past { IfSome result (λ past. past.now ≡ line_end rest.now) }
{
    let (_, rest) = next_count(rest)?;
    let (_, past) = last_flag(rest, set, unset)?;
    Some(past)
}

// A buffer's.
fn past_buffer(rest: &[u8]) -> Option<&[u8]>
    ensures reads { is_some result ≡ is_some (buffer_of (words_left rest.now)) }
    ensures past { IfSome result (λ past. past.now ≡ line_end rest.now) }
{
    let (word, rest) = next_word(rest)?;
    let kind = buffer_kind(word)?;
    let (total, rest) = next_number(rest)?;
    let (begin, rest) = next_number(rest)?;
    let (end, rest) = next_number(rest)?;
    let (count, past) = last_count(rest)?;
    if !are_bounds(kind, count as u64, total, begin, end) {
        return None;
    }
    Some(past)
}

// Whether a buffer of so many bytes keeps its bounds.
fn are_bounds(kind: Kind, count: u64, total: u64, begin: u64, end: u64) -> bool
    ensures { result ≡ (nat_le count total && nat_le begin end && nat_le begin count && nat_le end total && is_full kind count total) }
{
    let is_full = match kind {
        Kind::Fixed => count == total,
        Kind::Vector | Kind::Grown => true,
    };
    count <= total && begin <= end && begin <= count && end <= total && is_full
}

// Parts'.
fn past_parts(rest: &[u8]) -> Option<&[u8]>
    ensures reads { is_some result ≡ is_some (parts_of (words_left rest.now)) }
    ensures past { IfSome result (λ past. past.now ≡ line_end rest.now) }
{
    let rest = behind_next(rest, b"p")?;
    past_counted(rest)
}

// The number of parts, and those.
fn past_counted(rest: &[u8]) -> Option<&[u8]>
    ensures reads { is_some result ≡ is_some (counted_of (words_left rest.now)) }
    ensures past { IfSome result (λ past. past.now ≡ line_end rest.now) }
{
    let (count, rest) = next_number(rest)?;
    past_pairs(count, rest)
}

// So many pairs of a room and bytes that fit it, with a sum of rooms that fits its type.
fn past_pairs(count: u64, rest: &[u8]) -> Option<&[u8]>
    ensures reads { is_some result ≡ is_some (option_and_then (counted count) (parts_end (words_left rest.now))) }
    ensures past { IfSome result (λ past. past.now ≡ line_end rest.now) }
{
    let mut left = count;
    let mut rooms: u64 = 0;
    let mut rest = rest;
    while let Some((room, behind)) = next_word(rest) {
        let Some((bytes, behind)) = next_bytes_word(behind) else {
            return None;
        };
        let Some(sum) = with_part(rooms, room, bytes) else {
            return None;
        };
        if left == 0 {
            return None;
        }
        left -= 1;
        rooms = sum;
        rest = behind;
    }
    if left == 0 { past_line(rest) } else { None }
}

// The sum of rooms with that of one part more, if its words are a room and bytes that fit it.
fn with_part(rooms: u64, room: &[u8], bytes: &[u8]) -> Option<u64>
    ensures { MatchOption result (NoPart rooms room.now bytes.now) (AddsPart rooms room.now bytes.now) }
{
    let room = read_number(room)?;
    let count = count_bytes(bytes)?;
    if room < count as u64 {
        return None;
    }
    rooms.checked_add(room)
}
