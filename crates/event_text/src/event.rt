//! Events as text: one line each, read and written.
ghost use Rattle.std.specs.Prelude.{◌≡◌, ◌++◌, [], IfOk, MatchOption, OnOk, OnErr, true, false};
ghost use Rattle.event_text.specs.TextWrites.{Starts};
ghost use Rattle.event_text.specs.TextEvent.{event_text, stands_for};
ghost use Rattle.event_text.specs.TextLines.{IsWrong};
ghost use Rattle.event_text.specs.TextLook.{line_end, line_of, words_left};
ghost use Rattle.event_text.specs.TextReaders.{behind_first, first_of, last_of};
ghost use Rattle.event_text.specs.TextReads.{words, handle_kind_of};
ghost use Rattle.event_text.specs.TextEventReads.{event_of, feed_of, message_of, submit_of, under_of, poll_of, exec_of, give_of};
ghost use Rattle.event_text.specs.TextEventReads.{turn_of, canceller_of, linked_by, external_by, created_by, numbered_by, told_of};
ghost use Rattle.event_text.specs.TextEventReads.{link_of, linkunder_of};

use crate::request::put::put_request;
use crate::request::read_request;
use crate::word::{
    behind_next, behind_word, is_word, last_bytes, last_number, last_u16, last_u32, next_number,
    next_word, past_line, put, put_byte, put_counted, put_next_bytes, put_next_number,
};
use machine::{Event, HandleKind, Request, Told};
use rent_buf::{BufSpec, OutOfMemory, PartsSpec};
use std::alloc::Global;

/// The event that a line stands for, if it stands for one: for any, or where `EXTERNAL` is true for an external one. `OutOfMemory` comes
/// if memory runs out. (not in monoio)
#[inline(always)]
pub fn event_of_line<const EXTERNAL: bool>(
    alloc: Global,
    line: &[u8],
) -> Result<Option<Event>, OutOfMemory>
    // There is no newline in it.
    requires { line_end line.now ≡ [] }
    ensures { IfOk result
        (λ event. MatchOption event (IsWrong (stands_for EXTERNAL) line.now) (stands_for EXTERNAL line.now)) }
{
    if EXTERNAL {
        external_event(alloc, line)
    } else {
        any_event(alloc, line)
    }
}

// The same, if any event is taken.
#[inline(always)]
fn any_event(alloc: Global, line: &[u8]) -> Result<Option<Event>, OutOfMemory>
    requires { line_end line.now ≡ [] }
    ensures { IfOk result (λ event. event ≡ event_of false (words (line_of line.now))) }
{
    if let Some(rest) = behind_word(line, b"turn") {
        return turn_event(rest);
    }
    if let Some(rest) = behind_word(line, b"exec") {
        return exec_event(rest);
    }
    linked_event(alloc, line)
}

// The same, if the event submits a linked request, or is an external one.
#[tactic(auto, unfolding(crate::specs::TextEventReads::linked_by))]
fn linked_event(alloc: Global, line: &[u8]) -> Result<Option<Event>, OutOfMemory>
    requires { line_end line.now ≡ [] }
    ensures { IfOk result (λ event. event ≡ linked_by (first_of (words (line_of line.now))) (behind_first (words (line_of line.now)))) }
{
    if let Some(rest) = behind_word(line, b"link") {
        return link_event(alloc, rest);
    }
    if let Some(rest) = behind_word(line, b"linkunder") {
        return linkunder_event(alloc, rest);
    }
    external_event(alloc, line)
}

// The same, if only external events are taken.
#[tactic(auto, unfolding(crate::specs::TextEventReads::external_by))]
fn external_event(alloc: Global, line: &[u8]) -> Result<Option<Event>, OutOfMemory>
    requires { line_end line.now ≡ [] }
    ensures { IfOk result (λ event. event ≡ external_by (first_of (words (line_of line.now))) (behind_first (words (line_of line.now)))) }
{
    if let Some(rest) = behind_word(line, b"poll") {
        return poll_event(rest);
    }
    if let Some(rest) = behind_word(line, b"feed") {
        return feed_event(alloc, rest);
    }
    if let Some(rest) = behind_word(line, b"message") {
        return message_event(alloc, rest);
    }
    created_event(alloc, line)
}

// The same, if the event submits a request, or creates a handle or a canceller, or is one of one number.
#[tactic(auto, unfolding(crate::specs::TextEventReads::created_by))]
fn created_event(alloc: Global, line: &[u8]) -> Result<Option<Event>, OutOfMemory>
    requires { line_end line.now ≡ [] }
    ensures { IfOk result (λ event. event ≡ created_by (first_of (words (line_of line.now))) (behind_first (words (line_of line.now)))) }
{
    if let Some(rest) = behind_word(line, b"submit") {
        return submit_event(alloc, rest);
    }
    if let Some(rest) = behind_word(line, b"under") {
        return under_event(alloc, rest);
    }
    if let Some(rest) = behind_word(line, b"give") {
        return give_event(rest);
    }
    if let Some(rest) = behind_word(line, b"canceller") {
        return canceller_event(rest);
    }
    numbered_event(line)
}

// The same, if the event is one of one number.
#[tactic(auto, unfolding(crate::specs::TextEventReads::numbered_by))]
fn numbered_event(line: &[u8]) -> Result<Option<Event>, OutOfMemory>
    ensures { IfOk result (λ event. event ≡ numbered_by (first_of (words (line_of line.now))) (behind_first (words (line_of line.now)))) }
{
    if let Some(rest) = behind_word(line, b"drop") {
        return match last_number(rest) {
            Some((n, _)) => Ok(Some(Event::Drop(n))),
            None => Ok(None),
        };
    }
    if let Some(rest) = behind_word(line, b"cancel") {
        return match last_number(rest) {
            Some((n, _)) => Ok(Some(Event::Cancel(n))),
            None => Ok(None),
        };
    }
    if let Some(rest) = behind_word(line, b"end") {
        return match last_number(rest) {
            Some((n, _)) => Ok(Some(Event::End(n))),
            None => Ok(None),
        };
    }
    if let Some(rest) = behind_word(line, b"look") {
        return match last_number(rest) {
            Some((n, _)) => Ok(Some(Event::Look(n))),
            None => Ok(None),
        };
    }
    if let Some(rest) = behind_word(line, b"close") {
        return match last_number(rest) {
            Some((n, _)) => Ok(Some(Event::Close(n))),
            None => Ok(None),
        };
    }
    if let Some(rest) = behind_word(line, b"newhandle") {
        return match last_number(rest) {
            Some((n, _)) => Ok(Some(Event::NewHandle(n))),
            None => Ok(None),
        };
    }
    if let Some(rest) = behind_word(line, b"cancelall") {
        return match last_number(rest) {
            Some((n, _)) => Ok(Some(Event::CancelAll(n))),
            None => Ok(None),
        };
    }
    Ok(None)
}

/// Appends the text of an event, with no newline. If memory runs out, `out` is unchanged. (not in monoio)
pub fn write_event(event: &Event, out: &mut Vec<u8>) -> Result<(), OutOfMemory>
    ensures ok { OnOk result (out.new.items ≡ out.old.items ++ event_text event.now) }
    ensures err { OnErr result (out.new.items ≡ out.old.items) }
{
    let before = out.len();
    match put_event(event, out) {
        Ok(()) => Ok(()),
        Err(error) => {
            out.truncate(before);
            Err(error)
        }
    }
}

// The events by the words behind their first one.

fn turn_event(rest: &[u8]) -> Result<Option<Event>, OutOfMemory>
    ensures { IfOk result (λ event. event ≡ turn_of (words_left rest.now)) }
{
    match past_line(rest) {
        Some(_) => Ok(Some(Event::Turn)),
        None => Ok(None),
    }
}

fn canceller_event(rest: &[u8]) -> Result<Option<Event>, OutOfMemory>
    ensures { IfOk result (λ event. event ≡ canceller_of (words_left rest.now)) }
{
    match past_line(rest) {
        Some(_) => Ok(Some(Event::NewCanceller)),
        None => Ok(None),
    }
}

fn give_event(rest: &[u8]) -> Result<Option<Event>, OutOfMemory>
    ensures { IfOk result (λ event. event ≡ give_of (words_left rest.now)) }
{
    match one_kind(rest) {
        Some(kind) => Ok(Some(Event::Give(kind))),
        None => Ok(None),
    }
}

// The kind of handle that the one word that is left writes.
fn one_kind(rest: &[u8]) -> Option<HandleKind>
    ensures { result ≡ last_of handle_kind_of (words_left rest.now) }
{
    let (word, rest) = next_word(rest)?;
    let kind = handle_kind(word)?;
    past_line(rest)?;
    Some(kind)
}

fn feed_event(alloc: Global, rest: &[u8]) -> Result<Option<Event>, OutOfMemory>
    requires { line_end rest.now ≡ [] }
    ensures { IfOk result (λ event. event ≡ feed_of (words_left rest.now)) }
{
    let Some((h, rest)) = next_number(rest) else {
        return Ok(None);
    };
    match last_bytes(alloc, rest)? {
        Some(bytes) => Ok(Some(Event::Feed(h, bytes))),
        None => Ok(None),
    }
}

fn message_event(alloc: Global, rest: &[u8]) -> Result<Option<Event>, OutOfMemory>
    requires { line_end rest.now ≡ [] }
    ensures { IfOk result (λ event. event ≡ message_of (words_left rest.now)) }
{
    let Some((h, rest)) = next_number(rest) else {
        return Ok(None);
    };
    let Some((address, rest)) = next_number(rest) else {
        return Ok(None);
    };
    match last_bytes(alloc, rest)? {
        Some(bytes) => Ok(Some(Event::FeedMessage(h, address, bytes))),
        None => Ok(None),
    }
}

fn submit_event(alloc: Global, rest: &[u8]) -> Result<Option<Event>, OutOfMemory>
    requires { line_end rest.now ≡ [] }
    ensures { IfOk result (λ event. event ≡ submit_of (words_left rest.now)) }
{
    match read_request(alloc, rest)? {
        Some(request) => Ok(Some(Event::Submit(request, None, false))),
        None => Ok(None),
    }
}

fn link_event(alloc: Global, rest: &[u8]) -> Result<Option<Event>, OutOfMemory>
    requires { line_end rest.now ≡ [] }
    ensures { IfOk result (λ event. event ≡ link_of (words_left rest.now)) }
{
    match read_request(alloc, rest)? {
        Some(request) => Ok(Some(Event::Submit(request, None, true))),
        None => Ok(None),
    }
}

fn under_event(alloc: Global, rest: &[u8]) -> Result<Option<Event>, OutOfMemory>
    requires { line_end rest.now ≡ [] }
    ensures { IfOk result (λ event. event ≡ under_of (words_left rest.now)) }
{
    let Some((handle, rest)) = next_number(rest) else {
        return Ok(None);
    };
    match read_request(alloc, rest)? {
        Some(request) => Ok(Some(Event::Submit(request, Some(handle), false))),
        None => Ok(None),
    }
}

fn linkunder_event(alloc: Global, rest: &[u8]) -> Result<Option<Event>, OutOfMemory>
    requires { line_end rest.now ≡ [] }
    ensures { IfOk result (λ event. event ≡ linkunder_of (words_left rest.now)) }
{
    let Some((handle, rest)) = next_number(rest) else {
        return Ok(None);
    };
    match read_request(alloc, rest)? {
        Some(request) => Ok(Some(Event::Submit(request, Some(handle), true))),
        None => Ok(None),
    }
}

fn poll_event(rest: &[u8]) -> Result<Option<Event>, OutOfMemory>
    ensures { IfOk result (λ event. event ≡ poll_of (words_left rest.now)) }
{
    let Some((n, rest)) = next_number(rest) else {
        return Ok(None);
    };
    match last_number(rest) {
        Some((task, _)) => Ok(Some(Event::Poll(n, task))),
        None => Ok(None),
    }
}

fn exec_event(rest: &[u8]) -> Result<Option<Event>, OutOfMemory>
    ensures { IfOk result (λ event. event ≡ exec_of (words_left rest.now)) }
{
    let Some((place, rest)) = next_number(rest) else {
        return Ok(None);
    };
    match read_told(rest) {
        Some(told) => Ok(Some(Event::Exec(place as usize, told))),
        None => Ok(None),
    }
}

// What an executor tells, by the words behind a place.
fn read_told(rest: &[u8]) -> Option<Told>
    ensures { result ≡ told_of (words_left rest.now) }
{
    if let Some(rest) = behind_next(rest, b"ok") {
        let (count, _) = last_u32(rest)?;
        return Some(Told::Count(count));
    }
    if let Some(rest) = behind_next(rest, b"err") {
        let (error, _) = last_u16(rest)?;
        return Some(Told::Fail(error));
    }
    None
}

/// The kind of a handle that a word writes.
pub(crate) fn handle_kind(word: &[u8]) -> Option<HandleKind>
    ensures { result ≡ handle_kind_of word.now }
{
    if is_word(word, b"stream") {
        return Some(HandleKind::Stream);
    }
    if is_word(word, b"datagram") {
        return Some(HandleKind::Datagram);
    }
    if is_word(word, b"file") {
        return Some(HandleKind::File);
    }
    if is_word(word, b"pipe") {
        return Some(HandleKind::Pipe);
    }
    if is_word(word, b"listener") {
        return Some(HandleKind::Listener);
    }
    None
}

// Each of these appends, and if memory runs out `out` begins as it was.

fn put_event(event: &Event, out: &mut Vec<u8>) -> Result<(), OutOfMemory>
    ensures ok { OnOk result (out.new.items ≡ out.old.items ++ event_text event.now) }
    ensures err { OnErr result (Starts out.old.items out.new.items) }
{
    match event {
        Event::Give(kind) => put_give(*kind, out),
        Event::Feed(h, bytes) => put_feed(*h, bytes.as_slice(), out),
        Event::FeedMessage(h, address, bytes) => put_message(*h, *address, bytes.as_slice(), out),
        Event::End(h) => put_counted(b"end ", *h, out),
        Event::Look(h) => put_counted(b"look ", *h, out),
        Event::Close(h) => put_counted(b"close ", *h, out),
        Event::Submit(request, under, true) => put_link(request, *under, out),
        Event::Submit(request, under, false) => put_submit(request, *under, out),
        Event::Poll(n, task) => put_poll(*n, *task, out),
        Event::Drop(n) => put_counted(b"drop ", *n, out),
        Event::Cancel(n) => put_counted(b"cancel ", *n, out),
        Event::NewCanceller => put(b"canceller", out),
        Event::NewHandle(c) => put_counted(b"newhandle ", *c, out),
        Event::CancelAll(c) => put_counted(b"cancelall ", *c, out),
        Event::Turn => put(b"turn", out),
        Event::Exec(place, told) => put_exec(*place, *told, out),
    }
}

fn put_give(kind: HandleKind, out: &mut Vec<u8>) -> Result<(), OutOfMemory>
    ensures ok { OnOk result (out.new.items ≡ out.old.items ++ event_text (Event.Give kind)) }
    ensures err { OnErr result (Starts out.old.items out.new.items) }
{
    match kind {
        HandleKind::Stream => put(b"give stream", out),
        HandleKind::Datagram => put(b"give datagram", out),
        HandleKind::File => put(b"give file", out),
        HandleKind::Pipe => put(b"give pipe", out),
        HandleKind::Listener => put(b"give listener", out),
    }
}

fn put_feed(h: u64, bytes: &[u8], out: &mut Vec<u8>) -> Result<(), OutOfMemory>
    ensures ok { OnOk result (out.new.items ≡ out.old.items ++ event_text (Event.Feed h bytes.now)) }
    ensures err { OnErr result (Starts out.old.items out.new.items) }
{
    put_counted(b"feed ", h, out)?;
    put_next_bytes(bytes, out)
}

fn put_message(h: u64, address: u64, bytes: &[u8], out: &mut Vec<u8>) -> Result<(), OutOfMemory>
    ensures ok { OnOk result (out.new.items ≡ out.old.items ++ event_text (Event.FeedMessage h address bytes.now)) }
    ensures err { OnErr result (Starts out.old.items out.new.items) }
{
    put_counted(b"message ", h, out)?;
    put_next_number(address, out)?;
    put_next_bytes(bytes, out)
}

fn put_submit(
    request: &Request<BufSpec, PartsSpec>,
    under: Option<u64>,
    out: &mut Vec<u8>,
) -> Result<(), OutOfMemory>
    ensures ok { OnOk result (out.new.items ≡ out.old.items ++ event_text (Event.Submit request.now under false)) }
    ensures err { OnErr result (Starts out.old.items out.new.items) }
{
    match under {
        None => put(b"submit ", out)?,
        Some(handle) => {
            put_counted(b"under ", handle, out)?;
            put_byte(b' ', out)?;
        }
    }
    put_request(request, out)
}

// The same of a linked request.
fn put_link(
    request: &Request<BufSpec, PartsSpec>,
    under: Option<u64>,
    out: &mut Vec<u8>,
) -> Result<(), OutOfMemory>
    ensures ok { OnOk result (out.new.items ≡ out.old.items ++ event_text (Event.Submit request.now under true)) }
    ensures err { OnErr result (Starts out.old.items out.new.items) }
{
    match under {
        None => put(b"link ", out)?,
        Some(handle) => {
            put_counted(b"linkunder ", handle, out)?;
            put_byte(b' ', out)?;
        }
    }
    put_request(request, out)
}

fn put_poll(n: u64, task: u64, out: &mut Vec<u8>) -> Result<(), OutOfMemory>
    ensures ok { OnOk result (out.new.items ≡ out.old.items ++ event_text (Event.Poll n task)) }
    ensures err { OnErr result (Starts out.old.items out.new.items) }
{
    put_counted(b"poll ", n, out)?;
    put_next_number(task, out)
}

fn put_exec(place: usize, told: Told, out: &mut Vec<u8>) -> Result<(), OutOfMemory>
    ensures ok { OnOk result (out.new.items ≡ out.old.items ++ event_text (Event.Exec place told)) }
    ensures err { OnErr result (Starts out.old.items out.new.items) }
{
    put_counted(b"exec ", place as u64, out)?;
    match told {
        Told::Count(k) => put_counted(b" ok ", k as u64, out),
        Told::Fail(e) => put_counted(b" err ", e as u64, out),
    }
}
