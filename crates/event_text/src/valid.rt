//! Whether lines are events' texts, found with no memory taken, and in one way through the text.
ghost use Rattle.std.specs.Prelude.{◌≡◌, MatchOption, IfSome, false, drop};
ghost use Rattle.std.specs.Option.{is_some};
ghost use Rattle.event_text.specs.TextEvent.{stands_for};
ghost use Rattle.event_text.specs.TextLines.{lines, AreEventsFor, IsFirstWrongFor};
ghost use Rattle.event_text.specs.TextLook.{line_end, line_of, words_left};
ghost use Rattle.event_text.specs.TextReaders.{behind_first, first_of, last_of};
ghost use Rattle.event_text.specs.TextReads.{words, number_of};
ghost use Rattle.event_text.specs.TextEventReads.{event_of, linked_by, external_by, created_by, numbered_by, feed_of, message_of};
ghost use Rattle.event_text.specs.TextEventReads.{under_of, poll_of, exec_of, give_of, told_of};

mod requests;

use crate::event::handle_kind;
use crate::word::{
    behind_next, behind_word, last_count, last_number, last_u16, last_u32, next_number, next_word,
    past_line,
};
use requests::past_request;

/// The number of the first line that is no event's text, counted from 1, or of the first that is no external event's, where only those
/// are taken: where `EXTERNAL` is true. `None` if each line is one. It takes no memory. (not in monoio)
pub fn first_wrong<const EXTERNAL: bool>(text: &[u8]) -> Option<u64>
    ensures { MatchOption result (AreEventsFor (stands_for EXTERNAL) (lines text.now))
        (IsFirstWrongFor (stands_for EXTERNAL) (lines text.now)) }
{
    let mut number: u64 = 0;
    let mut rest = text;
    while !rest.is_empty() {
        number += 1;
        let Some(past) = past_event::<EXTERNAL>(rest) else {
            return Some(number);
        };
        rest = behind_newline(past);
    }
    None
}

// What is behind the newline that the rest begins with, if there is one.
fn behind_newline(past: &[u8]) -> &[u8]
    ensures { result.now ≡ drop 1 past.now }
{
    match past {
        [] => past,
        [_, behind @ ..] => behind,
    }
}

// The text from the end of its first line on, if that line is some event's text, if only external events are taken, or any.
fn past_event<const EXTERNAL: bool>(text: &[u8]) -> Option<&[u8]>
    ensures reads { is_some result ≡ is_some (event_of EXTERNAL (words (line_of text.now))) }
    ensures past { IfSome result (λ past. past.now ≡ line_end text.now) }
{
    if EXTERNAL {
        past_external(text)
    } else {
        past_any(text)
    }
}

// The same, if the line is some event's text.
fn past_any(text: &[u8]) -> Option<&[u8]>
    ensures reads { is_some result ≡ is_some (event_of false (words (line_of text.now))) }
    ensures past { IfSome result (λ past. past.now ≡ line_end text.now) }
{
    if let Some(rest) = behind_word(text, b"turn") {
        return past_line(rest);
    }
    if let Some(rest) = behind_word(text, b"exec") {
        return past_exec(rest);
    }
    past_linked(text)
}

// The same, if the event submits a linked request, or is an external one.
#[tactic(auto, unfolding(crate::specs::TextEventReads::linked_by))]
fn past_linked(text: &[u8]) -> Option<&[u8]>
    ensures reads { is_some result ≡
        is_some (linked_by (first_of (words (line_of text.now))) (behind_first (words (line_of text.now)))) }
    ensures past { IfSome result (λ past. past.now ≡ line_end text.now) }
{
    if let Some(rest) = behind_word(text, b"link") {
        return past_request(rest);
    }
    if let Some(rest) = behind_word(text, b"linkunder") {
        return past_under(rest);
    }
    past_external(text)
}

// The same, if the line is some external event's text.
#[tactic(auto, unfolding(crate::specs::TextEventReads::external_by))]
fn past_external(text: &[u8]) -> Option<&[u8]>
    ensures reads { is_some result ≡
        is_some (external_by (first_of (words (line_of text.now))) (behind_first (words (line_of text.now)))) }
    ensures past { IfSome result (λ past. past.now ≡ line_end text.now) }
{
    if let Some(rest) = behind_word(text, b"poll") {
        return past_poll(rest);
    }
    if let Some(rest) = behind_word(text, b"feed") {
        return past_feed(rest);
    }
    if let Some(rest) = behind_word(text, b"message") {
        return past_message(rest);
    }
    past_created(text)
}

// The same, if the event submits a request, or creates a handle or a canceller, or is one of one number.
#[tactic(auto, unfolding(crate::specs::TextEventReads::created_by))]
fn past_created(text: &[u8]) -> Option<&[u8]>
    ensures reads { is_some result ≡
        is_some (created_by (first_of (words (line_of text.now))) (behind_first (words (line_of text.now)))) }
    ensures past { IfSome result (λ past. past.now ≡ line_end text.now) }
{
    if let Some(rest) = behind_word(text, b"submit") {
        return past_request(rest);
    }
    if let Some(rest) = behind_word(text, b"under") {
        return past_under(rest);
    }
    if let Some(rest) = behind_word(text, b"give") {
        return past_give(rest);
    }
    if let Some(rest) = behind_word(text, b"canceller") {
        return past_line(rest);
    }
    past_numbered(text)
}

// The same, if the event is one of one number.
#[tactic(auto, unfolding(crate::specs::TextEventReads::numbered_by))]
fn past_numbered(text: &[u8]) -> Option<&[u8]>
    ensures reads { is_some result ≡
        is_some (numbered_by (first_of (words (line_of text.now))) (behind_first (words (line_of text.now)))) }
    ensures past { IfSome result (λ past. past.now ≡ line_end text.now) }
{
    if let Some(rest) = behind_word(text, b"drop") {
        return past_number(rest);
    }
    if let Some(rest) = behind_word(text, b"cancel") {
        return past_number(rest);
    }
    if let Some(rest) = behind_word(text, b"end") {
        return past_number(rest);
    }
    if let Some(rest) = behind_word(text, b"look") {
        return past_number(rest);
    }
    if let Some(rest) = behind_word(text, b"close") {
        return past_number(rest);
    }
    if let Some(rest) = behind_word(text, b"newhandle") {
        return past_number(rest);
    }
    if let Some(rest) = behind_word(text, b"cancelall") {
        return past_number(rest);
    }
    None
}

// Each of these gives the text from the end of the line on, if the words that are left of it are what is named.

// A number.
fn past_number(rest: &[u8]) -> Option<&[u8]>
    ensures reads { is_some result ≡ is_some (last_of number_of (words_left rest.now)) }
    ensures past { IfSome result (λ past. past.now ≡ line_end rest.now) }
{
    let (_, past) = last_number(rest)?;
    Some(past)
}

// An operation and a task.
fn past_poll(rest: &[u8]) -> Option<&[u8]>
    ensures reads { is_some result ≡ is_some (poll_of (words_left rest.now)) }
    ensures past { IfSome result (λ past. past.now ≡ line_end rest.now) }
{
    let (_, rest) = next_number(rest)?;
    past_number(rest)
}

// A place and what is told.
fn past_exec(rest: &[u8]) -> Option<&[u8]>
    ensures reads { is_some result ≡ is_some (exec_of (words_left rest.now)) }
    ensures past { IfSome result (λ past. past.now ≡ line_end rest.now) }
{
    let (_, rest) = next_number(rest)?;
    past_told(rest)
}

// What an executor tells.
fn past_told(rest: &[u8]) -> Option<&[u8]>
    ensures reads { is_some result ≡ is_some (told_of (words_left rest.now)) }
    ensures past { IfSome result (λ past. past.now ≡ line_end rest.now) }
{
    if let Some(rest) = behind_next(rest, b"ok") {
        let (_, past) = last_u32(rest)?;
        return Some(past);
    }
    if let Some(rest) = behind_next(rest, b"err") {
        let (_, past) = last_u16(rest)?;
        return Some(past);
    }
    None
}

// A handle and bytes.
fn past_feed(rest: &[u8]) -> Option<&[u8]>
    ensures reads { is_some result ≡ is_some (feed_of (words_left rest.now)) }
    ensures past { IfSome result (λ past. past.now ≡ line_end rest.now) }
{
    let (_, rest) = next_number(rest)?;
    let (_, past) = last_count(rest)?;
    Some(past)
}

// A handle, an address and bytes.
fn past_message(rest: &[u8]) -> Option<&[u8]>
    ensures reads { is_some result ≡ is_some (message_of (words_left rest.now)) }
    ensures past { IfSome result (λ past. past.now ≡ line_end rest.now) }
{
    let (_, rest) = next_number(rest)?;
    let (_, rest) = next_number(rest)?;
    let (_, past) = last_count(rest)?;
    Some(past)
}

// A cancel handle and a request.
fn past_under(rest: &[u8]) -> Option<&[u8]>
    ensures reads { is_some result ≡ is_some (under_of (words_left rest.now)) }
    ensures past { IfSome result (λ past. past.now ≡ line_end rest.now) }
{
    let (_, rest) = next_number(rest)?;
    past_request(rest)
}

// A kind of handle.
fn past_give(rest: &[u8]) -> Option<&[u8]>
    ensures reads { is_some result ≡ is_some (give_of (words_left rest.now)) }
    ensures past { IfSome result (λ past. past.now ≡ line_end rest.now) }
{
    let (word, rest) = next_word(rest)?;
    let _kind = handle_kind(word)?;
    past_line(rest)
}
