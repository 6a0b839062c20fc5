//! The tests of a call that is made at once on the handles of a machine in memory, and its greatest count.
ghost use Rattle.std.specs.Prelude.{◌≡◌, min, length, drop, slice_get};
ghost use Rattle.machine.specs.Lists.{passes};
ghost use Rattle.machine.specs.World.{gives_bytes, is_datagram as datagram, is_pipe as pipe, is_listener as listener};
ghost use Rattle.machine.specs.World.{input_at, messages_at};
ghost use Rattle.machine.specs.Attempt.{kind_at, is_readable, is_readable_at as readable_at};
ghost use Rattle.machine.specs.Attempt.{reads_at_once, is_early as early, awaited, fits as fitting, receiver, is_shut};
ghost use Rattle.machine.specs.Attempt.{is_broken as broken, is_drained, is_dry as dry, is_too_far as too_far, first_length};
ghost use Rattle.machine.specs.Attempt.{greatest as greatest_of, attempt as attempt_of};

use crate::request::{Call, Told};
use crate::world::allows::{
    connects_at, gives, is_datagram, is_file, is_file_at, is_listener, is_pipe,
};
use crate::world::{BROKEN_PIPE, FILE_TOO_BIG, HandleKind, HandleState, INVALID, MOST_FILE};

// What is reported of a call if it is made at once: the first of these tests that passes says it. None exactly when it would block.
pub(crate) fn attempt(handles: &Vec<HandleState>, call: Call) -> Option<Told>
    ensures { result ≡ attempt_of handles.now.items call }
{
    if is_early(handles, call) {
        return None;
    }
    if !fits(handles, call) {
        return Some(Told::Fail(INVALID));
    }
    if is_broken(handles, call) {
        return Some(Told::Fail(BROKEN_PIPE));
    }
    if is_dry(handles, call) {
        return None;
    }
    if is_too_far(call) {
        return Some(Told::Fail(FILE_TOO_BIG));
    }
    Some(Told::Count(greatest(handles, call)))
}

// The handle of a number is there, and is readable.
pub(crate) fn is_readable_at(handles: &Vec<HandleState>, h: u64) -> bool
    ensures { result ≡ readable_at handles.now.items h }
{
    match handles.get(h as usize) {
        Some(handle) => is_ready(handle),
        None => false,
    }
}

// A handle is readable.
fn is_ready(handle: &HandleState) -> bool
    ensures { result ≡ is_readable handle.now }
{
    match handle.kind {
        HandleKind::Datagram => handle.messages_in.first().is_some(),
        HandleKind::Stream | HandleKind::File | HandleKind::Pipe => {
            !handle.input.is_empty() || handle.ended
        }
        HandleKind::Listener => true,
    }
}

// A read of the handle of a number waits for nothing: it is there, and is a file or readable.
fn reads_at(handles: &Vec<HandleState>, h: u64) -> bool
    ensures { result ≡ passes reads_at_once (slice_get handles.now.items h) }
{
    match handles.get(h as usize) {
        Some(handle) => is_file(handle.kind) || is_ready(handle),
        None => false,
    }
}

// A call waits: the handle that it reads on is no file, and isn't readable.
fn is_early(handles: &Vec<HandleState>, call: Call) -> bool
    ensures { result ≡ early handles.now.items (awaited call) }
{
    match call {
        Call::In { h, .. } => !reads_at(handles, h),
        Call::MessageIn { h, .. } => !reads_at(handles, h),
        Call::ReadAt { h, .. } => !reads_at(handles, h),
        Call::ToPipe { h, .. } => !reads_at(handles, h),
        Call::Accept { h } => !reads_at(handles, h),
        Call::PollAdd { h, read } => read && !reads_at(handles, h),
        _ => false,
    }
}

// Bytes come out of the handle of a number, or go into it, in order.
fn gives_at(handles: &Vec<HandleState>, h: u64) -> bool
    ensures { result ≡ kind_at gives_bytes handles.now.items h }
{
    match handles.get(h as usize) {
        Some(handle) => gives(handle.kind),
        None => false,
    }
}

// The handle of a number is there, and is a datagram.
fn is_datagram_at(handles: &Vec<HandleState>, h: u64) -> bool
    ensures { result ≡ kind_at datagram handles.now.items h }
{
    match handles.get(h as usize) {
        Some(handle) => is_datagram(handle.kind),
        None => false,
    }
}

// The handle of a number is there, and is a pipe.
fn is_pipe_at(handles: &Vec<HandleState>, h: u64) -> bool
    ensures { result ≡ kind_at pipe handles.now.items h }
{
    match handles.get(h as usize) {
        Some(handle) => is_pipe(handle.kind),
        None => false,
    }
}

// The handle of a number is there, and is a listener.
fn is_listener_at(handles: &Vec<HandleState>, h: u64) -> bool
    ensures { result ≡ kind_at listener handles.now.items h }
{
    match handles.get(h as usize) {
        Some(handle) => is_listener(handle.kind),
        None => false,
    }
}

// The handles of a call are there, of kinds that it may have, and not the same one twice.
fn fits(handles: &Vec<HandleState>, call: Call) -> bool
    ensures { result ≡ fitting handles.now.items call }
{
    match call {
        Call::In { h, .. } => gives_at(handles, h),
        Call::Out { h, .. } => gives_at(handles, h),
        Call::MessageIn { h, .. } => is_datagram_at(handles, h),
        Call::MessageOut { h, .. } => is_datagram_at(handles, h),
        Call::ReadAt { h, .. } => is_file_at(handles, h),
        Call::WriteAt { h, .. } => is_file_at(handles, h),
        Call::ToPipe { h, pipe, .. } => {
            h != pipe && gives_at(handles, h) && is_pipe_at(handles, pipe)
        }
        Call::FromPipe { pipe, h, .. } => {
            pipe != h && is_pipe_at(handles, pipe) && gives_at(handles, h)
        }
        Call::Accept { h } => is_listener_at(handles, h),
        Call::Open => true,
        Call::Connect { h } => connects_at(handles, h),
        Call::Fsync { h } => is_file_at(handles, h),
        Call::PollAdd { h, .. } => h < handles.len() as u64,
        Call::Path => true,
    }
}

// The handle of a number is there, and is a pipe whose end is marked.
fn is_shut_at(handles: &Vec<HandleState>, h: u64) -> bool
    ensures { result ≡ passes is_shut (slice_get handles.now.items h) }
{
    match handles.get(h as usize) {
        Some(handle) => is_pipe(handle.kind) && handle.ended,
        None => false,
    }
}

// The handle that takes the bytes of a call is a pipe whose end is marked.
fn is_broken(handles: &Vec<HandleState>, call: Call) -> bool
    ensures { result ≡ broken handles.now.items (receiver call) }
{
    match call {
        Call::Out { h, .. } => is_shut_at(handles, h),
        Call::ToPipe { pipe, .. } => is_shut_at(handles, pipe),
        Call::FromPipe { h, .. } => is_shut_at(handles, h),
        _ => false,
    }
}

// The handle of a number is there and has no bytes, and more may come.
fn is_drained_at(handles: &Vec<HandleState>, h: u64) -> bool
    ensures { result ≡ passes is_drained (slice_get handles.now.items h) }
{
    match handles.get(h as usize) {
        Some(handle) => handle.input.is_empty() && !handle.ended,
        None => false,
    }
}

// A splice of some bytes from a pipe that has none, while more may come.
fn is_dry(handles: &Vec<HandleState>, call: Call) -> bool
    ensures { result ≡ dry handles.now.items call }
{
    match call {
        Call::FromPipe { pipe, ask, .. } => is_drained_at(handles, pipe) && ask != 0,
        _ => false,
    }
}

// A write of some bytes at `MOST_FILE` or behind it.
fn is_too_far(call: Call) -> bool
    ensures { result ≡ too_far call }
{
    match call {
        Call::WriteAt { pos, ask, .. } => ask != 0 && pos >= MOST_FILE as u64,
        _ => false,
    }
}

// How many bytes wait on the handle of a number, or stand in the file, from a position on.
fn count_from(handles: &Vec<HandleState>, h: u64, pos: u64) -> usize
    ensures { result ≡ length (drop pos (input_at handles.now.items h)) }
{
    match handles.get(h as usize) {
        Some(handle) => handle.input.len().saturating_sub(pos as usize),
        None => 0,
    }
}

// The length of the first message that waits on the handle of a number; 0 where there is none.
fn first_len(handles: &Vec<HandleState>, h: u64) -> usize
    ensures { result ≡ first_length (messages_at handles.now.items h) }
{
    match handles.get(h as usize) {
        Some(handle) => match handle.messages_in.first() {
            Some(message) => message.1.len(),
            None => 0,
        },
        None => 0,
    }
}

// The greatest count that a call may have.
fn greatest(handles: &Vec<HandleState>, call: Call) -> u32
    ensures { result ≡ greatest_of handles.now.items call }
{
    match call {
        Call::In { h, ask } => at_most(ask, count_from(handles, h, 0)),
        Call::Out { ask, .. } => ask,
        Call::MessageIn { h, ask } => at_most(ask, first_len(handles, h)),
        Call::MessageOut { ask, .. } => ask,
        Call::ReadAt { h, pos, ask } => at_most(ask, count_from(handles, h, pos)),
        Call::WriteAt { pos, ask, .. } => at_most(ask, MOST_FILE.saturating_sub(pos as usize)),
        Call::ToPipe { h, ask, .. } => at_most(ask, count_from(handles, h, 0)),
        Call::FromPipe { pipe, ask, .. } => at_most(ask, count_from(handles, pipe, 0)),
        _ => 0,
    }
}

// The lesser of two numbers.
fn at_most(ask: u32, count: usize) -> u32
    ensures { result ≡ min ask count }
{
    if (ask as usize) < count {
        ask
    } else {
        count as u32
    }
}
