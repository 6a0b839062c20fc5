// The calls of handles in memory.
ghost use Rattle.std.specs.Prelude.{◌≡◌, ◌<◌, true, false, length, IfOk, OnOk, OnErr};
ghost use Rattle.machine.specs.World.{look_at, WorldFeeds, WorldFeedsMessage, WorldEnds};
ghost use Rattle.ready_driver.specs.Io.{KeepsShown};
ghost use Rattle.ready_driver.specs.MemIo.{memory_view};
ghost use Rattle.ready_driver.specs.Registry.{is_known, IsSameButRoom, GivesUser, with_created, with_world};

use crate::mem_io::MemIo;
use crate::registry::Registry;
use handle_core::SharedFd;
use machine::{HandleKind, Look, WorldError};
use rent_buf::OutOfMemory;

impl Registry<MemIo> {
    /// How many handles there are in memory. (not in monoio)
    pub fn count(&self) -> u64
        ensures { result ≡ length self.now.io.world }
    {
        self.io.count()
    }

    /// A new handle of a kind, which the user holds: it gets a record, and is registered. Its number is how many there were, which nobody
    /// held. If memory runs out, nothing but reserved memory has changed. (not in monoio)
    pub fn give(&mut self, kind: HandleKind) -> Result<SharedFd, OutOfMemory>
        requires fresh { is_known self.old.table (length self.old.io.world) ≡ false }
        ensures number { IfOk result (λ fd. fd ≡ length self.old.io.world) }
        ensures ok { OnOk result (GivesUser memory_view true true (with_created self.old kind) (length self.old.io.world) self.new) }
        ensures shown { OnOk result (KeepsShown (memory_view self.old.io) (memory_view (with_created self.old kind).io)) }
        ensures err { OnErr result (IsSameButRoom self.old self.new) }
    {
        self.reserve_made()?;
        let h = self.io.give(kind)?;
        self.give_user(h);
        Ok(SharedFd::new(h))
    }

    /// Bytes join the input's end of a handle. `BadHandleEvent` comes exactly when the handle is a datagram or a listener, or its end is
    /// marked. (not in monoio)
    pub fn feed(&mut self, h: u64, bytes: &[u8]) -> Result<(), WorldError>
        requires { h < length self.old.io.world }
        ensures feeds { WorldFeeds bytes.now self.old.io.world h self.new.io.world result }
        ensures rest { self.new ≡ with_world self.old self.new.io }
        ensures shown { KeepsShown (memory_view self.old.io) (memory_view self.new.io) }
        ensures err { OnErr result (self.new ≡ self.old) }
    {
        self.io.feed(h, bytes)
    }

    /// A message joins those that wait on a handle: its address, and a copy of its bytes. `BadHandleEvent` comes exactly when the
    /// handle is no datagram. (not in monoio)
    pub fn feed_message(&mut self, h: u64, addr: u64, bytes: &[u8]) -> Result<(), WorldError>
        requires { h < length self.old.io.world }
        ensures feeds { WorldFeedsMessage addr bytes.now self.old.io.world h self.new.io.world result }
        ensures rest { self.new ≡ with_world self.old self.new.io }
        ensures shown { KeepsShown (memory_view self.old.io) (memory_view self.new.io) }
        ensures err { OnErr result (self.new ≡ self.old) }
    {
        self.io.feed_message(h, addr, bytes)
    }

    /// Marks a handle's end: no more bytes arrive. `BadHandleEvent` comes exactly when the handle is neither a stream nor a pipe, or
    /// its end is marked already. It takes no memory. (not in monoio)
    pub fn end(&mut self, h: u64) -> Result<(), WorldError>
        requires { h < length self.old.io.world }
        ensures ends { WorldEnds self.old.io.world h self.new.io.world result }
        ensures rest { self.new ≡ with_world self.old self.new.io }
        ensures shown { KeepsShown (memory_view self.old.io) (memory_view self.new.io) }
        ensures err { OnErr result (self.new ≡ self.old) }
    {
        self.io.end(h)
    }

    /// The bytes that were sent to a stream, those of a pipe or a file, or the messages that a datagram sent, copied once.
    /// (not in monoio)
    pub fn look(&self, h: u64) -> Result<Look, OutOfMemory>
        requires { h < length self.now.io.world }
        ensures { IfOk result (λ look. look ≡ look_at self.now.io.world h) }
    {
        self.io.look(h)
    }
}
