//! The calls of a readiness driver over handles in memory.
ghost use Rattle.std.specs.Prelude.{◌≡◌, ◌<◌, ◌&&◌, nat_lt, true, false, [], IfOk, OnOk, OnErr, length};
ghost use Rattle.machine.specs.World.{fresh, look_at, WorldFeeds, WorldFeedsMessage, WorldEnds};
ghost use Rattle.machine.specs.declared.ledger.Event.TheVariants.{Give};
ghost use Rattle.machine.specs.declared.ledger.Reply.TheVariants.{Handle};
ghost use Rattle.ready_driver.specs.Legacy.{Legacy};
ghost use Rattle.ready_driver.specs.LegacyHandles.{FeedsFor, FeedsMessageFor, EndsFor, LooksFor};
ghost use Rattle.ready_driver.specs.LegacyStands.{LegacyStands, LegacyAnswers};
ghost use Rattle.ready_driver.specs.LegacyState.{SameOps};
ghost use Rattle.ready_driver.specs.MemIo.{memory_view};
ghost use Rattle.ready_driver.specs.Registry.{is_known, is_users, IsSameButRoom, GivesUser, with_created, with_world};

use crate::legacy::LegacyDriver;
use crate::mem_io::MemIo;
use handle_core::SharedFd;
use machine::{HandleKind, Look, MOST_HANDLES, WorldError};
use rent_buf::{IoBufMut, OutOfMemory};

impl<B: IoBufMut + Drop> LegacyDriver<MemIo, B> {
    /// How many handles there are in memory. (not in monoio)
    pub fn handles(&self) -> u64
        ensures { result ≡ length self.now.handling.io.world }
    {
        self.registry.count()
    }

    /// The user holds a handle in memory: one that it adopted need not be there. (not in monoio)
    pub fn has_handle(&self, h: u64) -> bool
        ensures { result ≡ (is_users self.now.handling.table h && nat_lt h (length self.now.handling.io.world)) }
    {
        self.user_holds(h) && h < self.handles()
    }

    /// A new handle in memory, which the user holds: its number is how many there were, fewer than `MOST_HANDLES`, and wasn't known. If
    /// memory runs out, nothing but reserved memory has changed. (not in monoio)
    pub fn give(&mut self, kind: HandleKind) -> Result<SharedFd, OutOfMemory>
        requires counter { length self.old.handling.io.world < MOST_HANDLES }
        requires fresh { is_known self.old.handling.table (length self.old.handling.io.world) ≡ false }
        ensures answers { IfOk result (λ fd. (D : Legacy) → LegacyStands memory_view B.buffer self.old D →
            LegacyAnswers memory_view B.buffer D (Give kind) (Handle fd) self.new) }
        ensures number { IfOk result (λ fd. fd ≡ length self.old.handling.io.world) }
        ensures handles { OnOk result (GivesUser memory_view true true (with_created self.old.handling kind)
            (length self.old.handling.io.world) self.new.handling) }
        ensures rest { SameOps self.old self.new }
        ensures err { OnErr result (IsSameButRoom self.old.handling self.new.handling) }
        ensures stands { OnErr result ((D : Legacy) → LegacyStands memory_view B.buffer self.old D →
            LegacyStands memory_view B.buffer self.new D) }
    {
        self.registry.give(kind)
    }

    /// Bytes arrive at a handle in memory that the user holds: they join its input's end. `BadHandleEvent` comes exactly when the handle is
    /// a datagram or a listener, or its end is marked. (not in monoio)
    pub fn feed(&mut self, h: u64, bytes: &[u8]) -> Result<(), WorldError>
        requires held { is_users self.old.handling.table h ≡ true }
        requires here { h < length self.old.handling.io.world }
        ensures answers { (D : Legacy) → LegacyStands memory_view B.buffer self.old D → FeedsFor B.buffer D h bytes.now self.new result }
        ensures feeds { WorldFeeds bytes.now self.old.handling.io.world h self.new.handling.io.world result }
        ensures rest { self.new ≡ record self.old { handling = with_world self.old.handling self.new.handling.io } }
        ensures err { OnErr result (self.new ≡ self.old) }
    {
        self.registry.feed(h, bytes)
    }

    /// A message arrives at a handle in memory that the user holds: it joins those that wait, with its address and a copy of its bytes.
    /// `BadHandleEvent` comes exactly when the handle is no datagram. (not in monoio)
    pub fn feed_message(&mut self, h: u64, addr: u64, bytes: &[u8]) -> Result<(), WorldError>
        requires held { is_users self.old.handling.table h ≡ true }
        requires here { h < length self.old.handling.io.world }
        ensures answers { (D : Legacy) → LegacyStands memory_view B.buffer self.old D →
            FeedsMessageFor B.buffer D h addr bytes.now self.new result }
        ensures feeds { WorldFeedsMessage addr bytes.now self.old.handling.io.world h self.new.handling.io.world result }
        ensures rest { self.new ≡ record self.old { handling = with_world self.old.handling self.new.handling.io } }
        ensures err { OnErr result (self.new ≡ self.old) }
    {
        self.registry.feed_message(h, addr, bytes)
    }

    /// The end of what arrives at a handle in memory that the user holds. `BadHandleEvent` comes exactly when the handle is neither a
    /// stream nor a pipe, or its end is marked already. It takes no memory, so `OutOfMemory` doesn't come. (not in monoio)
    pub fn end(&mut self, h: u64) -> Result<(), WorldError>
        requires held { is_users self.old.handling.table h ≡ true }
        requires here { h < length self.old.handling.io.world }
        ensures answers { (D : Legacy) → LegacyStands memory_view B.buffer self.old D → EndsFor B.buffer D h self.new result }
        ensures ends { WorldEnds self.old.handling.io.world h self.new.handling.io.world result }
        ensures rest { self.new ≡ record self.old { handling = with_world self.old.handling self.new.handling.io } }
        ensures err { OnErr result (self.new ≡ self.old) }
    {
        self.registry.end(h)
    }

    /// What looking at a handle in memory that the user holds shows, copied once: the bytes that were sent to a stream, those of a pipe or
    /// a file, the messages that a datagram sent. (not in monoio)
    pub fn look(&self, h: u64) -> Result<Look, OutOfMemory>
        requires held { is_users self.now.handling.table h ≡ true }
        requires here { h < length self.now.handling.io.world }
        ensures answers { IfOk result (λ look. (D : Legacy) → LegacyStands memory_view B.buffer self.now D → LooksFor D h look) }
        ensures looks { IfOk result (λ look. look ≡ look_at self.now.handling.io.world h) }
    {
        self.registry.look(h)
    }
}
