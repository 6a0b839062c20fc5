//! The handles of a machine in memory.
ghost use Rattle.std.specs.Prelude.{◌≡◌, ◌<◌, ◌≤◌, [], ◌∷◌, ◌++◌, length, OnOk, OnErr, IfOk};
ghost use Rattle.machine.specs.World.{fresh, look_at, look_of, WorldFeeds, WorldFeedsMessage, WorldEnds};
ghost use Rattle.machine.specs.Called.{MakesFor, MovesFor, RunsFor};

use crate::input::Input;
use crate::messages::Messages;
use crate::payloads::Payloads;
use crate::request::{Call, Outcome, Told};
use rent_buf::{ByteList, MessageList, OutOfMemory};
use std::alloc::Global;
use std::marker::Model;
use thiserror::Error;

mod allows;
mod attempt;
mod call;
mod moves;
mod splices;

pub use allows::close_outcome;
use allows::{
    connects_at, is_file_at, may_accept_at, may_end_with, nothing_moves, takes_no_bytes,
    takes_no_end, takes_no_message,
};
pub use call::{BROKEN_PIPE, FILE_TOO_BIG, INVALID, WorldCall};
use moves::{read_at, read_file_at, receive_at, send_at, send_message_at, write_file_at};
use splices::{splice_from_at, splice_to_at};

/// The number of each handle is below it. (not in monoio)
pub const MOST_HANDLES: u64 = 1 << 62;

/// The end of a file that a write may reach, in bytes.
pub const MOST_FILE: usize = 16777216;

/// What a handle is.
#[derive(Clone, Copy, Debug, PartialEq, Eq)]
pub enum HandleKind {
    /// A stream of bytes, which come in and go out.
    Stream,
    /// Messages, each with an address.
    Datagram,
    /// A file: bytes that are read and written at a position.
    File,
    /// A pipe: what is sent to it waits to be read from it.
    Pipe,
    /// A listener: connections are accepted on it.
    Listener,
}

/// Why a call on a handle did nothing. The world is as it was.
#[derive(Clone, Copy, Debug, PartialEq, Eq, Error)]
pub enum WorldError {
    /// The handle doesn't take what arrives, by its kind, or because its end is marked.
    #[error("BadHandleEvent")]
    BadHandleEvent,
    /// Memory ran out. `end` takes no memory and never returns it.
    #[error("OutOfMemory")]
    OutOfMemory,
}

impl From<OutOfMemory> for WorldError {
    fn from(_: OutOfMemory) -> WorldError {
        WorldError::OutOfMemory
    }
}

/// Why a call wasn't executed. Nothing has changed. (not in monoio)
#[derive(Clone, Copy, Debug, PartialEq, Eq)]
pub enum RunError {
    /// What is reported isn't allowed to the call.
    NotAllowed,
    /// Memory ran out.
    OutOfMemory,
}

/// What stands on a handle. A listener has nothing. (not in monoio)
#[derive(Debug, Drop)]
pub struct HandleState {
    /// What the handle is.
    pub kind: HandleKind,
    /// The bytes that wait to be read, or those of a file.
    pub input: Input,
    /// The messages that wait to be received.
    pub messages_in: Messages,
    /// No more bytes arrive.
    pub ended: bool,
    /// The bytes that were sent to it.
    pub output: ByteList,
    /// The messages that it sent.
    pub messages_out: MessageList,
}

/// What looking at a handle shows. (not in monoio)
#[derive(Debug, Drop)]
pub enum Look {
    /// The bytes that were sent to a stream, or those of a pipe or a file.
    Bytes(ByteList),
    /// The messages that a datagram sent: of each the address, where it has one, and its bytes.
    Messages(MessageList),
}

/// The handles of a machine in memory, by number from 0. (not in monoio)
#[derive(Debug, Drop)]
pub struct World {
    alloc: Global,
    handles: Vec<HandleState>,
}

impl Model for World {
    ghost use Rattle.std.specs.Prelude.{List};
    ghost use Rattle.machine.specs.declared.world.HandleState.{HandleState};

    ghost Value = { List HandleState };

    ghost view = { λ w. w.handles.items };
}

impl World {
    /// No handles. It takes no memory. (not in monoio)
    pub fn new(alloc: Global) -> World
        ensures { result ≡ [] }
    {
        World {
            alloc,
            handles: Vec::new(alloc),
        }
    }

    /// The allocator of the handles' bytes. (not in monoio)
    pub fn alloc(&self) -> Global {
        self.alloc
    }

    /// The number of handles. (not in monoio)
    pub fn count(&self) -> u64
        ensures { result ≡ length self.now }
    {
        self.handles.len() as u64
    }

    /// A new handle of a kind, and its number: nothing stands on it, and its end isn't marked. `OutOfMemory` comes also where there are
    /// `MOST_HANDLES` handles. (not in monoio)
    pub fn give(&mut self, kind: HandleKind) -> Result<u64, OutOfMemory>
        ensures number { IfOk result (λ h. h ≡ length self.old) }
        ensures below { IfOk result (λ h. h < MOST_HANDLES) }
        ensures ok { OnOk result (self.new ≡ self.old ++ fresh kind ∷ []) }
        ensures err { OnErr result (self.new ≡ self.old) }
    {
        add_handle(&mut self.handles, self.alloc, kind)
    }

    /// Bytes join the input's end of a handle. `BadHandleEvent` comes exactly when the handle is a datagram or a listener, or its end is
    /// marked. (not in monoio)
    pub fn feed(&mut self, h: u64, bytes: &[u8]) -> Result<(), WorldError>
        requires { h < length self.old }
        ensures { WorldFeeds bytes.now self.old h self.new result }
    {
        feed_at(&mut self.handles, h as usize, bytes)
    }

    /// A message joins those that wait on a handle: its address, and a copy of its bytes. `BadHandleEvent` comes exactly when the
    /// handle is no datagram. (not in monoio)
    pub fn feed_message(&mut self, h: u64, addr: u64, bytes: &[u8]) -> Result<(), WorldError>
        requires { h < length self.old }
        ensures { WorldFeedsMessage addr bytes.now self.old h self.new result }
    {
        feed_message_at(&mut self.handles, h as usize, addr, bytes)
    }

    /// Marks a handle's end: no more bytes arrive. `BadHandleEvent` comes exactly when the handle is neither a stream nor a pipe, or
    /// its end is marked already. It takes no memory. (not in monoio)
    pub fn end(&mut self, h: u64) -> Result<(), WorldError>
        requires { h < length self.old }
        ensures { WorldEnds self.old h self.new result }
    {
        end_at(&mut self.handles, h as usize)
    }

    /// The bytes that were sent to a stream, those of a pipe or a file, or the messages that a datagram sent, copied once.
    /// (not in monoio)
    pub fn look(&self, h: u64) -> Result<Look, OutOfMemory>
        requires { h < length self.now }
        ensures { IfOk result (λ look. look ≡ look_at self.now h) }
    {
        look_at(self.alloc, &self.handles[h as usize])
    }

    /// Executes a call with what is reported of it, where that is allowed to it (`is_allowed`): its bytes move between its handles and
    /// the payload of a data word (`effect`), and its outcome is returned. A call whose cancel was taken may end with `CANCELED`.
    /// `NotAllowed` comes exactly where that isn't allowed, `OutOfMemory` only where it may run out (`may_run_out`); after an error nothing
    /// has changed. (not in monoio)
    pub fn execute<P: Payloads>(
        &mut self,
        call: Call,
        canceled: bool,
        told: Told,
        word: u64,
        payloads: &mut P,
    ) -> Result<Outcome, RunError>
        ensures runs { RunsFor P.stores P.takes_memory call canceled told word (P.offered payloads.old word)
            self.old self.new payloads.old payloads.new result }
        ensures few { length self.old ≤ MOST_HANDLES → length self.new ≤ MOST_HANDLES }
    {
        match told {
            Told::Count(k) => self.transfer(call, k, word, payloads),
            Told::Fail(e) => {
                if may_end_with(canceled, e) {
                    Ok(Outcome::Fail(e))
                } else {
                    Err(RunError::NotAllowed)
                }
            }
        }
    }

    // Moves so many bytes of a call, where that is allowed to it (`may_count`, `count_effect`), and returns the outcome.
    fn transfer<P: Payloads>(
        &mut self,
        call: Call,
        k: u32,
        word: u64,
        payloads: &mut P,
    ) -> Result<Outcome, RunError>
        ensures moves { MovesFor P.stores P.takes_memory call k word (P.offered payloads.old word)
            self.old self.new payloads.old payloads.new result }
        ensures few { length self.old ≤ MOST_HANDLES → length self.new ≤ MOST_HANDLES }
    {
        let alloc = self.alloc;
        let handles = &mut self.handles;
        match call {
            Call::In { h, ask } => read_at(handles, h, ask, k, word, payloads),
            Call::Out { h, ask } => send_at(handles, h, ask, k, word, payloads),
            Call::MessageIn { h, ask } => receive_at(handles, h, ask, k, word, payloads),
            Call::MessageOut { h, addr, ask } => {
                send_message_at(handles, alloc, h, addr, ask, k, word, payloads)
            }
            Call::ReadAt { h, pos, ask } => read_file_at(handles, h, pos, ask, k, word, payloads),
            Call::WriteAt { h, pos, ask } => write_file_at(handles, h, pos, ask, k, word, payloads),
            Call::ToPipe { h, pipe, ask } => splice_to_at(handles, alloc, h, pipe, ask, k),
            Call::FromPipe { pipe, h, ask } => splice_from_at(handles, alloc, pipe, h, ask, k),
            Call::Accept { h } => {
                let may = may_accept_at(handles, h, k);
                return make_handle(handles, alloc, may, HandleKind::Stream);
            }
            Call::Open => return make_handle(handles, alloc, k == 0, HandleKind::File),
            Call::Connect { h } => nothing_moves(connects_at(handles, h), k),
            Call::Fsync { h } => nothing_moves(is_file_at(handles, h), k),
            Call::PollAdd { h, .. } => nothing_moves(h < handles.len() as u64, k),
            Call::Path => nothing_moves(true, k),
        }
    }
}

// A new handle of a kind behind the others, and its number. None joins `MOST_HANDLES` others.
fn add_handle(
    handles: &mut Vec<HandleState>,
    alloc: Global,
    kind: HandleKind,
) -> Result<u64, OutOfMemory>
    ensures number { IfOk result (λ h. h ≡ length handles.old.items) }
    ensures below { IfOk result (λ h. h < MOST_HANDLES) }
    ensures ok { OnOk result (handles.new.items ≡ handles.old.items ++ fresh kind ∷ []) }
    ensures err { OnErr result (handles.new.items ≡ handles.old.items) }
{
    let h = handles.len() as u64;
    if h >= MOST_HANDLES {
        return Err(OutOfMemory);
    }
    handles.push(HandleState {
        kind,
        input: Input::new(alloc),
        messages_in: Messages::new(alloc),
        ended: false,
        output: ByteList::new(alloc),
        messages_out: MessageList::new(alloc),
    })?;
    Ok(h)
}

// Makes a new handle of a kind, where it may be made.
fn make_handle(
    handles: &mut Vec<HandleState>,
    alloc: Global,
    may: bool,
    kind: HandleKind,
) -> Result<Outcome, RunError>
    ensures makes { MakesFor may kind handles.old.items handles.new.items result }
    ensures few { length handles.old.items ≤ MOST_HANDLES → length handles.new.items ≤ MOST_HANDLES }
{
    if !may {
        return Err(RunError::NotAllowed);
    }
    match add_handle(handles, alloc, kind) {
        Ok(h) => Ok(Outcome::Made(h)),
        Err(_) => Err(RunError::OutOfMemory),
    }
}

// What looking at a handle shows, copied once.
fn look_at(alloc: Global, handle: &HandleState) -> Result<Look, OutOfMemory>
    ensures { IfOk result (λ look. look ≡ look_of handle.now) }
{
    match handle.kind {
        HandleKind::Stream => Ok(Look::Bytes(handle.output.try_clone()?)),
        HandleKind::Datagram => Ok(Look::Messages(handle.messages_out.try_clone()?)),
        HandleKind::File | HandleKind::Pipe => {
            let mut bytes = ByteList::new(alloc);
            bytes.append(handle.input.as_slice())?;
            Ok(Look::Bytes(bytes))
        }
        HandleKind::Listener => Ok(Look::Bytes(ByteList::new(alloc))),
    }
}

// Bytes join the input's end of the handle at a place, unless it takes none.
fn feed_at(handles: &mut Vec<HandleState>, h: usize, bytes: &[u8]) -> Result<(), WorldError>
    requires { h < length handles.old.items }
    ensures { WorldFeeds bytes.now handles.old.items h handles.new.items result }
{
    if takes_no_bytes(&handles[h]) {
        return Err(WorldError::BadHandleEvent);
    }
    match handles[h].input.append(bytes) {
        Ok(()) => Ok(()),
        Err(_) => Err(WorldError::OutOfMemory),
    }
}

// A message joins those that wait on the handle at a place, where it is a datagram.
fn feed_message_at(
    handles: &mut Vec<HandleState>,
    h: usize,
    addr: u64,
    bytes: &[u8],
) -> Result<(), WorldError>
    requires { h < length handles.old.items }
    ensures { WorldFeedsMessage addr bytes.now handles.old.items h handles.new.items result }
{
    if takes_no_message(&handles[h]) {
        return Err(WorldError::BadHandleEvent);
    }
    match handles[h].messages_in.push(addr, bytes) {
        Ok(()) => Ok(()),
        Err(_) => Err(WorldError::OutOfMemory),
    }
}

// The end of the handle at a place is marked, unless it was before or is never.
fn end_at(handles: &mut Vec<HandleState>, h: usize) -> Result<(), WorldError>
    requires { h < length handles.old.items }
    ensures { WorldEnds handles.old.items h handles.new.items result }
{
    if takes_no_end(&handles[h]) {
        return Err(WorldError::BadHandleEvent);
    }
    handles[h].ended = true;
    Ok(())
}
