//! Which outcomes an execution may have.
ghost use Rattle.std.specs.Prelude.{◌≡◌, ◌&&◌, ◌==◌, not, if◌then◌else◌, Ok, Err, drop, is_some, slice_get, IfSome};
ghost use Rattle.machine.specs.Lists.{passes};
ghost use Rattle.machine.specs.World.{gives_bytes, takes_bytes, connects, refuses_feed, refuses_message, refuses_end};
ghost use Rattle.machine.specs.World.{is_datagram as datagram, is_file as file, is_pipe as pipe, is_listener as listener};
ghost use Rattle.machine.specs.Outcome.{may_read, may_send, may_fail, may_receive, may_write};
ghost use Rattle.machine.specs.Outcome.{may_take as takes_there};
ghost use Rattle.machine.specs.Called.{ClosesFor};

use crate::request::{CANCELED, LAST_ERROR, Outcome, Told};
use crate::world::{HandleKind, HandleState, MOST_FILE, RunError};
use rent_buf::ByteList;

// An execution may end with this error.
pub(crate) fn may_end_with(canceled: bool, e: u16) -> bool
    ensures { result ≡ may_fail canceled e }
{
    if e == CANCELED {
        canceled
    } else {
        e >= 1 && e <= LAST_ERROR
    }
}

/// How the close of a handle ends with what is reported of it. It moves nothing. `NotAllowed` comes exactly where that isn't allowed to a
/// close (`may_close`), and `OutOfMemory` never. (not in monoio)
pub fn close_outcome(told: Told) -> Result<Outcome, RunError>
    ensures { ClosesFor told result }
{
    match told {
        Told::Count(0) => Ok(Outcome::Count(0)),
        Told::Fail(e) if may_end_with(false, e) => Ok(Outcome::Fail(e)),
        _ => Err(RunError::NotAllowed),
    }
}

// How what moves nothing ends with a count, where its handle is such a one.
pub(crate) fn nothing_moves(may: bool, k: u32) -> Result<Outcome, RunError>
    ensures { result ≡ (if may && k == 0 then Ok (Outcome.Count k) else Err RunError.NotAllowed) }
{
    if may && k == 0 {
        Ok(Outcome::Count(k))
    } else {
        Err(RunError::NotAllowed)
    }
}

// A handle of this kind is a datagram.
pub(crate) fn is_datagram(kind: HandleKind) -> bool
    ensures { result ≡ datagram kind }
{
    match kind {
        HandleKind::Datagram => true,
        HandleKind::Stream | HandleKind::File | HandleKind::Pipe | HandleKind::Listener => false,
    }
}

// A handle of this kind is a file.
pub(crate) fn is_file(kind: HandleKind) -> bool
    ensures { result ≡ file kind }
{
    match kind {
        HandleKind::File => true,
        HandleKind::Stream | HandleKind::Datagram | HandleKind::Pipe | HandleKind::Listener =>
            false,
    }
}

// A handle of this kind is a pipe.
pub(crate) fn is_pipe(kind: HandleKind) -> bool
    ensures { result ≡ pipe kind }
{
    match kind {
        HandleKind::Pipe => true,
        HandleKind::Stream | HandleKind::Datagram | HandleKind::File | HandleKind::Listener =>
            false,
    }
}

// A handle of this kind is a listener.
pub(crate) fn is_listener(kind: HandleKind) -> bool
    ensures { result ≡ listener kind }
{
    match kind {
        HandleKind::Listener => true,
        HandleKind::Stream | HandleKind::Datagram | HandleKind::File | HandleKind::Pipe => false,
    }
}

// An accept on the handle of a number may have this count.
pub(crate) fn may_accept_at(handles: &Vec<HandleState>, h: u64, k: u32) -> bool
    ensures { result ≡ passes (λ handle. listener handle.kind && k == 0) (slice_get handles.now.items h) }
{
    match handles.get(h as usize) {
        Some(handle) => is_listener(handle.kind) && k == 0,
        None => false,
    }
}

// Bytes come out of a handle of this kind, up to an end.
pub(crate) fn gives(kind: HandleKind) -> bool
    ensures { result ≡ gives_bytes kind }
{
    match kind {
        HandleKind::Stream | HandleKind::Pipe => true,
        HandleKind::Datagram | HandleKind::File | HandleKind::Listener => false,
    }
}

// Bytes can be sent to a handle.
pub(crate) fn is_writable(handle: &HandleState) -> bool
    ensures { result ≡ takes_bytes handle.now }
{
    match handle.kind {
        HandleKind::Stream => true,
        HandleKind::Pipe => !handle.ended,
        HandleKind::Datagram | HandleKind::File | HandleKind::Listener => false,
    }
}

// Bytes can be sent to a handle, which is a pipe.
pub(crate) fn is_open_pipe(handle: &HandleState) -> bool
    ensures { result ≡ (pipe handle.now.kind && not handle.now.ended) }
{
    is_pipe(handle.kind) && !handle.ended
}

// The handle of a number is there, and can be connected.
pub(crate) fn connects_at(handles: &Vec<HandleState>, h: u64) -> bool
    ensures { result ≡ passes (λ handle. connects handle.kind) (slice_get handles.now.items h) }
{
    match handles.get(h as usize) {
        Some(handle) => match handle.kind {
            HandleKind::Stream | HandleKind::Datagram => true,
            HandleKind::File | HandleKind::Pipe | HandleKind::Listener => false,
        },
        None => false,
    }
}

// The handle of a number is there, and is a file.
pub(crate) fn is_file_at(handles: &Vec<HandleState>, h: u64) -> bool
    ensures { result ≡ passes (λ handle. file handle.kind) (slice_get handles.now.items h) }
{
    match handles.get(h as usize) {
        Some(handle) => is_file(handle.kind),
        None => false,
    }
}

// A handle takes no bytes that arrive.
pub(crate) fn takes_no_bytes(handle: &HandleState) -> bool
    ensures { result ≡ refuses_feed handle.now }
{
    is_datagram(handle.kind) || is_listener(handle.kind) || handle.ended
}

// A handle takes no message that arrives.
pub(crate) fn takes_no_message(handle: &HandleState) -> bool
    ensures { result ≡ refuses_message handle.now }
{
    !is_datagram(handle.kind)
}

// A handle takes no end.
pub(crate) fn takes_no_end(handle: &HandleState) -> bool
    ensures { result ≡ refuses_end handle.now }
{
    !gives(handle.kind) || handle.ended
}

// A read of `ask` bytes may have this count.
pub(crate) fn may_take(handle: &HandleState, ask: u32, k: u32) -> bool
    ensures { result ≡ (gives_bytes handle.now.kind && may_read ask k handle.now) }
{
    gives(handle.kind)
        && k <= ask
        && k as usize <= handle.input.len()
        && (k >= 1 || ask == 0 || (handle.ended && handle.input.is_empty()))
}

// A send of `ask` bytes may have this count.
pub(crate) fn may_be_sent(handle: &HandleState, ask: u32, k: u32) -> bool
    ensures { result ≡ (takes_bytes handle.now && may_send ask k) }
{
    is_writable(handle) && k <= ask && (k >= 1 || ask == 0)
}

// The message that a receive of `ask` bytes gets, where it may have this count.
pub(crate) fn received(handle: &HandleState, ask: u32, k: u32) -> Option<&(u64, ByteList)>
    ensures allowed { is_some result ≡ (datagram handle.now.kind && may_receive ask k (slice_get handle.now.messages_in 0)) }
    ensures message { IfSome result (λ message. Some message.now ≡ slice_get handle.now.messages_in 0) }
{
    if !is_datagram(handle.kind) {
        return None;
    }
    match handle.messages_in.first() {
        Some(message) if k as usize == message.1.len().min(ask as usize) => Some(message),
        _ => None,
    }
}

// A message of `ask` bytes may be sent with this count.
pub(crate) fn may_be_sent_whole(handle: &HandleState, ask: u32, k: u32) -> bool
    ensures { result ≡ (datagram handle.now.kind && k == ask) }
{
    is_datagram(handle.kind) && k == ask
}

// A read of `ask` bytes of a file from a position on may have this count.
pub(crate) fn may_be_read_at(handle: &HandleState, pos: u64, ask: u32, k: u32) -> bool
    ensures { result ≡ (file handle.now.kind && takes_there ask k (drop pos handle.now.input)) }
{
    let there = handle.input.len().saturating_sub(pos as usize);
    is_file(handle.kind) && k <= ask && k as usize <= there && (k >= 1 || ask == 0 || there == 0)
}

// A write of `ask` bytes to a file from a position on may have this count.
pub(crate) fn may_be_written_at(handle: &HandleState, pos: u64, ask: u32, k: u32) -> bool
    ensures { result ≡ (file handle.now.kind && may_write pos ask k) }
{
    is_file(handle.kind)
        && k <= ask
        && (k >= 1 || ask == 0)
        && (k == 0 || pos.saturating_add(k as u64) <= MOST_FILE as u64)
}

// A splice of `ask` bytes from a pipe may have this count.
pub(crate) fn may_be_drained(handle: &HandleState, ask: u32, k: u32) -> bool
    ensures { result ≡ (pipe handle.now.kind && takes_there ask k handle.now.input) }
{
    is_pipe(handle.kind)
        && k <= ask
        && k as usize <= handle.input.len()
        && (k >= 1 || ask == 0 || handle.input.is_empty())
}
