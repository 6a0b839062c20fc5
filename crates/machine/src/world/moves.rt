//! What moves between a handle and what a request holds.
ghost use Rattle.std.specs.Prelude.{◌≡◌, ◌≤◌, ◌∷◌, [], ◌++◌, take, OnOk, OnErr};
ghost use Rattle.machine.specs.Effect.{with_sent};
ghost use Rattle.machine.specs.Called.{MovesFor};

use crate::payloads::{Payloads, first};
use crate::request::{Call, Outcome};
use crate::world::allows::{
    may_be_read_at, may_be_sent, may_be_sent_whole, may_be_written_at, may_take, received,
};
use crate::world::{HandleKind, HandleState, RunError};
use rent_buf::{ByteList, MessageList, OutOfMemory};
use std::alloc::Global;

// Moves the first bytes of a handle's input to the payload of a data word, where a read of `ask` bytes may have this count.
pub(crate) fn read_at<P: Payloads>(
    handles: &mut Vec<HandleState>,
    h: u64,
    ask: u32,
    k: u32,
    word: u64,
    payloads: &mut P,
) -> Result<Outcome, RunError>
    ensures { MovesFor P.stores P.takes_memory (Call.In h ask) k word (P.offered payloads.old word)
        handles.old.items handles.new.items payloads.old payloads.new result }
{
    if h >= handles.len() as u64 {
        return Err(RunError::NotAllowed);
    }
    let handle = &mut handles[h as usize];
    if !may_take(handle, ask, k) {
        return Err(RunError::NotAllowed);
    }
    match payloads.store(word, handle.input.first(k as usize)) {
        Ok(()) => {
            handle.input.consume(k as usize);
            Ok(Outcome::Count(k))
        }
        Err(_) => Err(RunError::OutOfMemory),
    }
}

// Appends the first bytes that the payload of a data word offers to a stream's output or a pipe's input, where a send of `ask` bytes
// may have this count.
pub(crate) fn send_at<P: Payloads>(
    handles: &mut Vec<HandleState>,
    h: u64,
    ask: u32,
    k: u32,
    word: u64,
    payloads: &mut P,
) -> Result<Outcome, RunError>
    ensures { MovesFor P.stores P.takes_memory (Call.Out h ask) k word (P.offered payloads.old word)
        handles.old.items handles.new.items payloads.old payloads.new result }
{
    if h >= handles.len() as u64 {
        return Err(RunError::NotAllowed);
    }
    let handle = &mut handles[h as usize];
    if !may_be_sent(handle, ask, k) {
        return Err(RunError::NotAllowed);
    }
    match send_to(handle, k, word, payloads) {
        Ok(()) => Ok(Outcome::Count(k)),
        Err(_) => Err(RunError::OutOfMemory),
    }
}

// Moves the first message of a datagram away, and its first bytes to the payload of a data word, where a receive of `ask` bytes may
// have this count.
pub(crate) fn receive_at<P: Payloads>(
    handles: &mut Vec<HandleState>,
    h: u64,
    ask: u32,
    k: u32,
    word: u64,
    payloads: &mut P,
) -> Result<Outcome, RunError>
    ensures { MovesFor P.stores P.takes_memory (Call.MessageIn h ask) k word (P.offered payloads.old word)
        handles.old.items handles.new.items payloads.old payloads.new result }
{
    if h >= handles.len() as u64 {
        return Err(RunError::NotAllowed);
    }
    let handle = &mut handles[h as usize];
    let Some(message) = received(handle, ask, k) else {
        return Err(RunError::NotAllowed);
    };
    let addr = message.0;
    match payloads.store(word, first(k as usize, message.1.as_slice())) {
        Ok(()) => {
            handle.messages_in.remove_first();
            Ok(Outcome::From(k, addr))
        }
        Err(_) => Err(RunError::OutOfMemory),
    }
}

// Appends a message of all the bytes that the payload of a data word offers to those that a datagram sent, where one of `ask` bytes
// may have this count.
pub(crate) fn send_message_at<P: Payloads>(
    handles: &mut Vec<HandleState>,
    alloc: Global,
    h: u64,
    addr: Option<u64>,
    ask: u32,
    k: u32,
    word: u64,
    payloads: &mut P,
) -> Result<Outcome, RunError>
    ensures { MovesFor P.stores P.takes_memory (Call.MessageOut h addr ask) k word (P.offered payloads.old word)
        handles.old.items handles.new.items payloads.old payloads.new result }
{
    if h >= handles.len() as u64 {
        return Err(RunError::NotAllowed);
    }
    let handle = &mut handles[h as usize];
    if !may_be_sent_whole(handle, ask, k) {
        return Err(RunError::NotAllowed);
    }
    match append_message(&mut handle.messages_out, alloc, addr, k, word, payloads) {
        Ok(()) => Ok(Outcome::Count(k)),
        Err(_) => Err(RunError::OutOfMemory),
    }
}

// Copies bytes of a file from a position on to the payload of a data word, where a read of `ask` bytes may have this count.
pub(crate) fn read_file_at<P: Payloads>(
    handles: &mut Vec<HandleState>,
    h: u64,
    pos: u64,
    ask: u32,
    k: u32,
    word: u64,
    payloads: &mut P,
) -> Result<Outcome, RunError>
    ensures { MovesFor P.stores P.takes_memory (Call.ReadAt h pos ask) k word (P.offered payloads.old word)
        handles.old.items handles.new.items payloads.old payloads.new result }
{
    if h >= handles.len() as u64 {
        return Err(RunError::NotAllowed);
    }
    let handle = &handles[h as usize];
    if !may_be_read_at(handle, pos, ask, k) {
        return Err(RunError::NotAllowed);
    }
    match payloads.store(word, first(k as usize, handle.input.from(pos as usize))) {
        Ok(()) => Ok(Outcome::Count(k)),
        Err(_) => Err(RunError::OutOfMemory),
    }
}

// Writes the first bytes that the payload of a data word offers to a file from a position on, where a write of `ask` bytes may have
// this count.
pub(crate) fn write_file_at<P: Payloads>(
    handles: &mut Vec<HandleState>,
    h: u64,
    pos: u64,
    ask: u32,
    k: u32,
    word: u64,
    payloads: &mut P,
) -> Result<Outcome, RunError>
    ensures { MovesFor P.stores P.takes_memory (Call.WriteAt h pos ask) k word (P.offered payloads.old word)
        handles.old.items handles.new.items payloads.old payloads.new result }
{
    if h >= handles.len() as u64 {
        return Err(RunError::NotAllowed);
    }
    let handle = &mut handles[h as usize];
    if !may_be_written_at(handle, pos, ask, k) {
        return Err(RunError::NotAllowed);
    }
    if k == 0 {
        return Ok(Outcome::Count(k));
    }
    match handle.input.write_from(payloads, word, k, pos as usize) {
        Ok(()) => Ok(Outcome::Count(k)),
        Err(_) => Err(RunError::OutOfMemory),
    }
}

// Sends the first bytes that the payload of a data word offers to a handle: to a pipe's input, or else to the output.
fn send_to<P: Payloads>(
    handle: &mut HandleState,
    k: u32,
    word: u64,
    payloads: &P,
) -> Result<(), OutOfMemory>
    ensures ok { OnOk result (handle.new ≡ with_sent (take k (P.offered payloads.now word)) handle.old) }
    ensures memory { OnErr result (1 ≤ k) }
    ensures err { OnErr result (handle.new ≡ handle.old) }
{
    if k == 0 {
        return Ok(());
    }
    match handle.kind {
        HandleKind::Pipe => handle.input.append_from(payloads, word, k),
        HandleKind::Stream | HandleKind::Datagram | HandleKind::File | HandleKind::Listener => {
            payloads.append_to(word, k, &mut handle.output)
        }
    }
}

// Appends a message of the first bytes that the payload of a data word offers.
fn append_message<P: Payloads>(
    messages: &mut MessageList,
    alloc: Global,
    addr: Option<u64>,
    k: u32,
    word: u64,
    payloads: &P,
) -> Result<(), OutOfMemory>
    ensures ok { OnOk result (messages.new ≡ messages.old ++ (addr, take k (P.offered payloads.now word)) ∷ []) }
    ensures err { OnErr result (messages.new ≡ messages.old) }
{
    let mut bytes = ByteList::new(alloc);
    payloads.append_to(word, k, &mut bytes)?;
    messages.push((addr, bytes))
}
