//! Handles in memory, whose calls are made at once.
ghost use Rattle.std.specs.Prelude.{◌≡◌, ◌++◌, ◌<◌, ◌≤◌, [], ◌∷◌, true, None, length, slice_get, option_copied, refl, IsTrue, IfSome, IfOk};
ghost use Rattle.std.specs.Prelude.{OnOk, OnErr};
ghost use Rattle.rent_buf.specs.Counts.{Rose};
ghost use Rattle.machine.specs.Attempt.{is_readable_at};
ghost use Rattle.machine.specs.World.{fresh, look_at, WorldFeeds, WorldFeedsMessage, WorldEnds};
ghost use Rattle.ready_driver.specs.Io.{FailRose, KeepsShown, one_more};
ghost use Rattle.ready_driver.specs.MemIo.{memory_called, memory_files, memory_view, no_handles};
ghost use Rattle.ready_driver.specs.Reports.{bits_of, report_of, reports_of, with_key, with_made_key};
ghost use Rattle.std.specs.Vec.{vec_len, vec_capacity};

use crate::due::Due;
use crate::non_block::{NonBlock, NonBlockError, Report, Reports};
use crate::ready::Ready;
use driver_core::{CallAnswer, Calls};
use machine::{HandleKind, Look, Outcome, Request, World, WorldCall, WorldError};
use rent_buf::{IoBufMut, OutOfMemory, VecBuf};
use std::alloc::Global;
use std::marker::Model;
use wake_core::Bell;

/// A world of handles in memory, as an object whose calls don't wait: its faults never rise. (not in monoio)
///
/// A handle is due from its registration on, from a call that names it, and from what arrives at it. A `wait` reports the handles that are
/// due, and looks at no other: none is due then. Each other call costs the same however many handles there are.
#[derive(Debug, Drop)]
pub struct MemIo {
    world: World,
    // By handle, the key with which it is registered.
    keys: Vec<Option<usize>>,
    // The handles that the next wait reports, if they are registered.
    due: Due,
    blocks: u64,
    fails: u64,
    waits: u64,
    closes: u64,
    // The limit of the last wait.
    limit: Option<u64>,
}

impl Model for MemIo {
    ghost use Rattle.std.specs.Prelude.{◌≡◌, ◌≤◌, length};
    ghost use Rattle.ready_driver.specs.MemIo.{Memory};

    ghost Value = { Memory };

    ghost view = { λ m. record {
      world = m.world;
      keys = m.keys.items;
      due = m.due.handles;
      blocks = m.blocks;
      fails = m.fails;
      waits = m.waits;
      closes = m.closes;
      limit = m.limit;
    } };

    ghost invariant = { λ m. (length m.keys.items ≡ length m.world) × (length m.keys.items ≤ m.due.count) };
}

impl MemIo {
    /// No handles. It takes no memory. (not in monoio)
    pub fn new(alloc: Global) -> MemIo
        ensures { result ≡ no_handles }
    {
        MemIo {
            world: World::new(alloc),
            keys: Vec::new(alloc),
            due: Due::new(alloc),
            blocks: 0,
            fails: 0,
            waits: 0,
            closes: 0,
            limit: Some(0),
        }
    }

    /// How many handles there are. (not in monoio)
    pub fn count(&self) -> u64
        ensures { result ≡ length self.now.world }
    {
        self.world.count()
    }

    /// A new handle of a kind, which isn't registered, and its number. (not in monoio)
    pub fn give(&mut self, kind: HandleKind) -> Result<u64, OutOfMemory>
        ensures number { IfOk result (λ h. h ≡ length self.old.world) }
        ensures ok { OnOk result (self.new ≡
            record self.old { world = self.old.world ++ fresh kind ∷ []; keys = self.old.keys ++ None ∷ [] }) }
        ensures shown { OnOk result (KeepsShown (memory_view self.old) (memory_view self.new)) }
        ensures err { OnErr result (self.new ≡ self.old) }
    {
        reserve_key(&mut self.keys, &mut self.due, true)?;
        let h = self.world.give(kind)?;
        self.keys.push_reserved(None);
        Ok(h)
    }

    /// Bytes join the input's end of a handle. `BadHandleEvent` comes exactly when the handle is a datagram or a listener, or its end is
    /// marked. (not in monoio)
    pub fn feed(&mut self, h: u64, bytes: &[u8]) -> Result<(), WorldError>
        requires { h < length self.old.world }
        ensures feeds { WorldFeeds bytes.now self.old.world h self.new.world result }
        ensures rest { self.new ≡ record self.old { world = self.new.world; due = self.new.due } }
        ensures shown { KeepsShown (memory_view self.old) (memory_view self.new) }
        ensures err { OnErr result (self.new ≡ self.old) }
    {
        self.world.feed(h, bytes)?;
        self.due.add(h);
        Ok(())
    }

    /// A message joins those that wait on a handle: its address, and a copy of its bytes. `BadHandleEvent` comes exactly when the
    /// handle is no datagram. (not in monoio)
    pub fn feed_message(&mut self, h: u64, addr: u64, bytes: &[u8]) -> Result<(), WorldError>
        requires { h < length self.old.world }
        ensures feeds { WorldFeedsMessage addr bytes.now self.old.world h self.new.world result }
        ensures rest { self.new ≡ record self.old { world = self.new.world; due = self.new.due } }
        ensures shown { KeepsShown (memory_view self.old) (memory_view self.new) }
        ensures err { OnErr result (self.new ≡ self.old) }
    {
        self.world.feed_message(h, addr, bytes)?;
        self.due.add(h);
        Ok(())
    }

    /// Marks a handle's end: no more bytes arrive. `BadHandleEvent` comes exactly when the handle is neither a stream nor a pipe, or
    /// its end is marked already. It takes no memory. (not in monoio)
    pub fn end(&mut self, h: u64) -> Result<(), WorldError>
        requires { h < length self.old.world }
        ensures ends { WorldEnds self.old.world h self.new.world result }
        ensures rest { self.new ≡ record self.old { world = self.new.world; due = self.new.due } }
        ensures shown { KeepsShown (memory_view self.old) (memory_view self.new) }
        ensures err { OnErr result (self.new ≡ self.old) }
    {
        self.world.end(h)?;
        self.due.add(h);
        Ok(())
    }

    /// The bytes that were sent to a stream, those of a pipe or a file, or the messages that a datagram sent, copied once.
    /// (not in monoio)
    pub fn look(&self, h: u64) -> Result<Look, OutOfMemory>
        requires { h < length self.now.world }
        ensures { IfOk result (λ look. look ≡ look_at self.now.world h) }
    {
        self.world.look(h)
    }

    // Puts the report of a handle behind the others, if it is registered.
    fn report(&self, h: u64, reports: &mut Reports) -> Result<(), OutOfMemory>
        ensures ok { OnOk result (reports.new ≡ reports.old ++ report_of (slice_get self.now.keys h) (is_readable_at self.now.world h)) }
        ensures err { OnErr result (reports.new ≡ reports.old) }
    {
        let readable = self.world.readable(h);
        push_report(self.keys.get(h as usize), readable, reports)
    }

    // Puts the report of each handle that is due into an empty list, if it is registered.
    fn report_all(&self, reports: &mut Reports) -> Result<(), OutOfMemory>
        requires { reports.old ≡ [] }
        ensures { OnOk result (reports.new ≡ reports_of self.now.world self.now.keys self.now.due) }
    {
        for at in 0..self.due.len() {
            let Some(h) = self.due.get(at) else {
                unreachable!();
            };
            self.report(h, reports)?;
        }
        Ok(())
    }
}

// Puts the report of a handle that is readable, or isn't, behind the others, if it has a key.
fn push_report(
    key: Option<&Option<usize>>,
    readable: bool,
    reports: &mut Reports,
) -> Result<(), OutOfMemory>
    ensures ok { OnOk result (reports.new ≡ reports.old ++ report_of (option_copied key.entry) readable) }
    ensures err { OnErr result (reports.new ≡ reports.old) }
{
    match key {
        Some(Some(key)) => reports.push(Report {
            key: *key,
            ready: ready_bits(readable),
        }),
        _ => Ok(()),
    }
}

// What a handle is ready for that is readable, or isn't.
fn ready_bits(readable: bool) -> Ready
    ensures { result ≡ bits_of readable }
{
    if readable {
        Ready::READABLE | Ready::WRITABLE
    } else {
        Ready::WRITABLE
    }
}

// The count of errors after a call that ended so. It saturates.
fn count_fail(fails: u64, outcome: Outcome) -> u64
    ensures more { fails ≤ result }
    ensures rose { FailRose outcome fails result }
{
    match outcome {
        Outcome::Count(_) | Outcome::From(_, _) | Outcome::Made(_) => fails,
        Outcome::Fail(_) => fails.saturating_add(1),
    }
}

// The count of calls that would have blocked, after one that did. It saturates.
fn count_block(blocks: u64) -> u64
    ensures more { blocks ≤ result }
    ensures rose { Rose blocks result }
{
    blocks.saturating_add(1)
}

// One more, up to the last value.
fn one_more(count: u64) -> u64
    ensures { result ≡ one_more count }
{
    count.saturating_add(1)
}

// Takes the memory of one more key, and that the handle can be due, where one may be made.
fn reserve_key(keys: &mut Vec<Option<usize>>, due: &mut Due, makes: bool) -> Result<(), OutOfMemory>
    requires { length keys.old.items ≤ due.old.count }
    ensures items { keys.new.items ≡ keys.old.items }
    ensures handles { due.new.handles ≡ due.old.handles }
    ensures count { due.old.count ≤ due.new.count }
    ensures room { OnOk result (IsTrue makes → vec_len keys.new < vec_capacity keys.new) }
    ensures more { OnOk result (IsTrue makes → length keys.old.items < due.new.count) }
{
    if !makes {
        return Ok(());
    }
    reserve_due(due, keys.len())?;
    keys.reserve(1)?;
    Ok(())
}

// The handle of a number can be due, as each below it can.
fn reserve_due(due: &mut Due, h: usize) -> Result<(), OutOfMemory>
    requires { h ≤ due.old.count }
    ensures handles { due.new.handles ≡ due.old.handles }
    ensures count { due.old.count ≤ due.new.count }
    ensures more { OnOk result (h < due.new.count) }
{
    if due.count() <= h {
        due.grow()?;
    }
    Ok(())
}

// A handle that was made, where there is one, isn't registered yet. It takes no memory.
fn add_key(keys: &mut Vec<Option<usize>>, made: Option<u64>)
    requires { IfSome made (λ h. vec_len keys.old < vec_capacity keys.old) }
    ensures { keys.new.items ≡ with_made_key made keys.old.items }
{
    if made.is_some() {
        keys.push_reserved(None);
    }
}

// A handle is registered with a key from now on, or isn't.
fn set_key(keys: &mut Vec<Option<usize>>, h: usize, key: Option<usize>)
    ensures { keys.new.items ≡ with_key keys.old.items h key }
{
    if h < keys.len() {
        keys[h] = key;
    }
}

impl Calls for MemIo {
    ghost called = { memory_called };

    /// Makes the call of a request, where it doesn't block (`World::call`). A handle that it makes isn't registered. Unless memory ran out,
    /// each handle that the request names is due.
    fn call<B: IoBufMut>(&mut self, request: &mut Request<B, VecBuf>) -> CallAnswer {
        let names = request.names();
        if reserve_key(&mut self.keys, &mut self.due, request.makes()).is_err() {
            return CallAnswer::OutOfMemory;
        }
        match self.world.call(request) {
            WorldCall::Done(outcome) => {
                add_key(&mut self.keys, outcome.made());
                self.due.add_names(names);
                self.fails = count_fail(self.fails, outcome);
                CallAnswer::Done(outcome)
            }
            WorldCall::WouldBlock => {
                self.due.add_names(names);
                self.blocks = count_block(self.blocks);
                CallAnswer::WouldBlock
            }
            WorldCall::OutOfMemory => CallAnswer::OutOfMemory,
        }
    }
}

impl NonBlock for MemIo {
    ghost view = { memory_view };

    ghost files = { memory_files };

    ghost tells = { true };

    ghost reporting = { true };

    ghost memory = { true };

    ghost memory_tells = { λ told. told };

    ghost memory_files = { λ told io h. refl };

    ghost memory_reports = { λ told. (told, λ io. refl) };

    ghost calls = { λ old request new now answer called. called };

    /// It takes no memory.
    fn register(&mut self, h: u64, key: usize) -> Result<(), NonBlockError> {
        set_key(&mut self.keys, h as usize, Some(key));
        self.due.add(h);
        Ok(())
    }

    /// It takes no memory.
    fn deregister(&mut self, h: u64) -> Result<(), NonBlockError> {
        set_key(&mut self.keys, h as usize, None);
        Ok(())
    }

    /// The count 0: nothing moves.
    fn close(&mut self, h: u64) -> Outcome {
        self.closes = one_more(self.closes);
        set_key(&mut self.keys, h as usize, None);
        Outcome::Count(0)
    }

    fn is_file(&self, h: u64) -> bool {
        self.world.is_file(h)
    }

    /// It doesn't wait.
    fn wait(&mut self, limit: Option<u64>, reports: &mut Reports) -> Result<(), NonBlockError> {
        match self.report_all(reports) {
            Ok(()) => {
                self.due.clear();
                self.waits = one_more(self.waits);
                self.limit = limit;
                Ok(())
            }
            Err(_) => {
                reports.clear();
                Err(NonBlockError::OutOfMemory)
            }
        }
    }

    /// It has none, since its waits don't wait.
    fn bell(&mut self) -> Option<Bell> {
        None
    }
}
