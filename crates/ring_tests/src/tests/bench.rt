// A ring, with the allocator of what tests make.
use crate::tests::stage::{Handles, Stage, Why};
use machine::{Completion, HandleKind, Look, Told, World, WorldError};
use rent_buf::{ByteList, MessageList, OutOfMemory};
use ring_core::{EnterError, Entry, ExecRefusal, MemRing, Push, Ring};
use std::alloc::Global;

/// A ring, with the allocator of what tests make.
#[derive(Drop)]
pub(crate) struct Bench<R: Ring> {
    pub ring: R,
    alloc: Global,
}

impl<R: Ring> Bench<R> {
    /// A bench of a ring.
    pub(crate) fn new(alloc: Global, ring: R) -> Bench<R> {
        Bench { ring, alloc }
    }
}

/// A bench of a new ring in memory, whose queue holds so many entries.
pub(crate) fn bench_of(alloc: Global, entries: u32) -> Result<Bench<MemRing>, Why> {
    if entries == 0 {
        return Err(Why::Unmet);
    }
    Ok(Bench::new(alloc, MemRing::new(alloc, entries)))
}

impl<R: Ring> Stage for Bench<R> {
    fn push(&mut self, entry: Entry) -> Result<Push, Why> {
        if !entry.may_link() {
            return Err(Why::Unmet);
        }
        self.ring.reserve(1)?;
        Ok(self.ring.push_reserved(entry))
    }

    fn push_both(&mut self, first: Entry, second: Entry) -> Result<(Push, Push), Why> {
        if !first.may_link() || !second.may_link() {
            return Err(Why::Unmet);
        }
        self.ring.reserve(2)?;
        let one = self.ring.push_reserved(first);
        Ok((one, self.ring.push_reserved(second)))
    }

    fn enter(&mut self) -> Result<u32, EnterError> {
        self.ring.enter()
    }

    fn next(&mut self) -> Option<Completion> {
        self.ring.next()
    }

    fn has(&self) -> (u32, u32, usize) {
        (
            self.ring.capacity(),
            self.ring.queued(),
            self.ring.standing(),
        )
    }
}

// The bytes of messages, each behind a byte for whether it has an address.
fn bytes_of(bytes: &mut ByteList, messages: &MessageList) -> Result<(), OutOfMemory> {
    for (addr, message) in messages.as_slice() {
        bytes.push(if addr.is_some() { b'+' } else { b'-' })?;
        bytes.append(message.as_slice())?;
    }
    Ok(())
}

// What a look shows.
fn shown(alloc: Global, look: Look) -> Result<ByteList, OutOfMemory> {
    match look {
        Look::Bytes(bytes) => Ok(bytes),
        Look::Messages(messages) => {
            let mut bytes = ByteList::new(alloc);
            bytes_of(&mut bytes, &messages)?;
            Ok(bytes)
        }
    }
}

// A look at a handle, if there is one.
fn look_at(alloc: Global, world: &World, h: u64) -> Result<ByteList, OutOfMemory> {
    if h >= world.count() {
        return Ok(ByteList::new(alloc));
    }
    shown(alloc, world.look(h)?)
}

// Bytes arrive at a handle.
fn feed(world: &mut World, h: u64, bytes: &[u8]) -> Result<Option<WorldError>, Why> {
    if h >= world.count() {
        return Err(Why::Unmet);
    }
    Ok(world.feed(h, bytes).err())
}

// A message arrives at a handle.
fn feed_message(
    world: &mut World,
    h: u64,
    addr: u64,
    bytes: &[u8],
) -> Result<Option<WorldError>, Why> {
    if h >= world.count() {
        return Err(Why::Unmet);
    }
    Ok(world.feed_message(h, addr, bytes).err())
}

// The end of what arrives at a handle.
fn end(world: &mut World, h: u64) -> Result<Option<WorldError>, Why> {
    if h >= world.count() {
        return Err(Why::Unmet);
    }
    Ok(world.end(h).err())
}

impl Handles for Bench<MemRing> {
    fn give(&mut self, kind: HandleKind) -> Result<u64, Why> {
        Ok(self.ring.world().give(kind)?)
    }

    fn count(&self) -> u64 {
        self.ring.handles().count()
    }

    fn feed(&mut self, h: u64, bytes: &str) -> Result<Option<WorldError>, Why> {
        feed(self.ring.world(), h, bytes.as_bytes())
    }

    fn feed_message(&mut self, h: u64, addr: u64, bytes: &str) -> Result<Option<WorldError>, Why> {
        feed_message(self.ring.world(), h, addr, bytes.as_bytes())
    }

    fn end(&mut self, h: u64) -> Result<Option<WorldError>, Why> {
        end(self.ring.world(), h)
    }

    fn look(&self, h: u64) -> Result<ByteList, Why> {
        Ok(look_at(self.alloc, self.ring.handles(), h)?)
    }

    fn flying_at(&self, place: usize) -> Option<Entry> {
        self.ring.flying_at(place)
    }

    fn bound(&self, place: usize) -> Option<bool> {
        if self.ring.flying_at(place).is_none() {
            return None;
        }
        Some(self.ring.bound(place))
    }

    fn finish(
        &mut self,
        place: usize,
        told: Told,
        sent: &str,
    ) -> (Result<Completion, ExecRefusal>, ByteList) {
        let mut came = ByteList::new(self.alloc);
        let done = self.ring.finish_at(place, told, sent.as_bytes(), &mut came);
        (done, came)
    }
}
