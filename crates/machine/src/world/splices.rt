//! What moves between two handles.
ghost use Rattle.std.specs.Prelude.{◌≡◌, ◌≢◌, ◌<◌, ◌≤◌, length, take, OnOk, OnErr};
ghost use Rattle.machine.specs.Lists.{amended};
ghost use Rattle.machine.specs.World.{input_at};
ghost use Rattle.machine.specs.Effect.{without_front, with_sent};
ghost use Rattle.machine.specs.Called.{SplicesFor};

use crate::input::Input;
use crate::request::{Call, Outcome};
use crate::world::allows::{is_open_pipe, is_writable, may_be_drained, may_take};
use crate::world::{HandleKind, HandleState, RunError};
use rent_buf::OutOfMemory;
use std::alloc::Global;
use std::mem;

// Moves the first bytes of a handle's input to a pipe's input, where a splice of `ask` bytes may have this count.
pub(crate) fn splice_to_at(
    handles: &mut Vec<HandleState>,
    alloc: Global,
    h: u64,
    pipe: u64,
    ask: u32,
    k: u32,
) -> Result<Outcome, RunError>
    ensures { SplicesFor (Call.ToPipe h pipe ask) k handles.old.items handles.new.items result }
{
    let count = handles.len() as u64;
    if h == pipe || h >= count || pipe >= count {
        return Err(RunError::NotAllowed);
    }
    if !may_take(&handles[h as usize], ask, k) || !is_open_pipe(&handles[pipe as usize]) {
        return Err(RunError::NotAllowed);
    }
    match splice(handles, alloc, h as usize, pipe as usize, k) {
        Ok(()) => Ok(Outcome::Count(k)),
        Err(_) => Err(RunError::OutOfMemory),
    }
}

// Moves the first bytes of a pipe's input to a handle, where a splice of `ask` bytes may have this count.
pub(crate) fn splice_from_at(
    handles: &mut Vec<HandleState>,
    alloc: Global,
    pipe: u64,
    h: u64,
    ask: u32,
    k: u32,
) -> Result<Outcome, RunError>
    ensures { SplicesFor (Call.FromPipe pipe h ask) k handles.old.items handles.new.items result }
{
    let count = handles.len() as u64;
    if pipe == h || pipe >= count || h >= count {
        return Err(RunError::NotAllowed);
    }
    if !may_be_drained(&handles[pipe as usize], ask, k) || !is_writable(&handles[h as usize]) {
        return Err(RunError::NotAllowed);
    }
    match splice(handles, alloc, pipe as usize, h as usize, k) {
        Ok(()) => Ok(Outcome::Count(k)),
        Err(_) => Err(RunError::OutOfMemory),
    }
}

// The first bytes of one handle's input are sent to another handle. They are copied once.
fn splice(
    handles: &mut Vec<HandleState>,
    alloc: Global,
    from: usize,
    to: usize,
    k: u32,
) -> Result<(), OutOfMemory>
    requires from { from < length handles.old.items }
    requires to { to < length handles.old.items }
    requires apart { from ≢ to }
    requires within { k ≤ length (input_at handles.old.items from) }
    ensures ok { OnOk result (handles.new.items ≡
        amended (amended handles.old.items from (without_front k)) to (with_sent (take k (input_at handles.old.items from)))) }
    ensures memory { OnErr result (1 ≤ k) }
    ensures err { OnErr result (handles.new.items ≡ handles.old.items) }
{
    let mut input = mem::replace(&mut handles[from].input, Input::new(alloc));
    match send_bytes(&mut handles[to], input.first(k as usize)) {
        Ok(()) => {
            input.consume(k as usize);
            handles[from].input = input;
            Ok(())
        }
        Err(error) => {
            handles[from].input = input;
            Err(error)
        }
    }
}

// Sends bytes to a handle: to a pipe's input, or else to the output.
fn send_bytes(handle: &mut HandleState, bytes: &[u8]) -> Result<(), OutOfMemory>
    ensures ok { OnOk result (handle.new ≡ with_sent bytes.now handle.old) }
    ensures memory { OnErr result (1 ≤ length bytes.now) }
    ensures err { OnErr result (handle.new ≡ handle.old) }
{
    if bytes.is_empty() {
        return Ok(());
    }
    match handle.kind {
        HandleKind::Pipe => handle.input.append(bytes),
        HandleKind::Stream | HandleKind::Datagram | HandleKind::File | HandleKind::Listener =>
            handle.output.append(bytes),
    }
}
