//! The calls of a driver over the ring in memory: its handles, and what executes its operations.
ghost use Rattle.std.specs.Prelude.{◌≡◌, ◌≤◌, ◌<◌, ◌++◌, ◌&&◌, nat_lt, false, [], ◌∷◌, IsTrue, IfOk, IfErr, OnOk, OnErr, length};
ghost use Rattle.machine.specs.World.{fresh, look_at, WorldFeeds, WorldFeedsMessage, WorldEnds};
ghost use Rattle.machine.specs.Surroundings.{around};
ghost use Rattle.machine.specs.Ledger.{Ledger, empty};
ghost use Rattle.machine.specs.declared.ledger.Event.TheVariants.{Give};
ghost use Rattle.machine.specs.declared.ledger.Reply.TheVariants.{Handle};
ghost use Rattle.uring_driver.specs.Op.{HoldsNone, KeepsTokens, KeepsRequests, KeepsSurroundings};
ghost use Rattle.uring_driver.specs.Submissions.{IsSameButWorld};
ghost use Rattle.ring_core.specs.Entry.{target};
ghost use Rattle.uring_driver.specs.Holding.{knows, IsSameHolding};
ghost use Rattle.uring_driver.specs.Released.{Adopts};
ghost use Rattle.uring_driver.specs.Uring.{ring_in, due_in, pending, given_by, holding_in, holds_handle, members_in};
ghost use Rattle.uring_driver.specs.Stands.{Stands, Answers};
ghost use Rattle.uring_driver.specs.Submitted.{SameSlots, SameOps, IsSameRing};
ghost use Rattle.uring_driver.specs.Handles.{FeedsFor, FeedsMessageFor, EndsFor, LooksFor};
ghost use Rattle.uring_driver.specs.Executed.{ExecutesFor, ExecutesOver, executed_as};

use crate::uring::IoUringDriver;
use driver_core::Executed;
use machine::{Completion, HandleKind, Look, MOST_HANDLES, SharedFd, Told, WorldError};
use rent_buf::{IoBufMut, OutOfMemory};
use ring_core::{ExecRefusal, MemRing, Target};
use std::alloc::Global;

// How many entries the queue of a new driver holds.
const ENTRIES: u32 = 1024;

impl<B: IoBufMut + Drop> IoUringDriver<MemRing, B> {
    /// A driver over a ring in memory whose queue holds 1024 entries. (monoio: `new`)
    pub fn new(alloc: Global) -> Result<Self, OutOfMemory>
        ensures stands { IfOk result (λ driver. Stands (λ r. r) B.buffer driver (empty ENTRIES)) }
        ensures tokens { IfOk result (λ driver. HoldsNone driver) }
        ensures due { IfOk result (λ driver. due_in driver ≡ []) }
    {
        IoUringDriver::new_with_entries(alloc, ENTRIES)
    }

    /// A driver over a ring in memory whose queue holds `entries` entries, at least one. (monoio: `new_with_entries`)
    pub fn new_with_entries(alloc: Global, entries: u32) -> Result<Self, OutOfMemory>
        requires { 1 ≤ entries }
        ensures stands { IfOk result (λ driver. Stands (λ r. r) B.buffer driver (empty entries)) }
        ensures tokens { IfOk result (λ driver. HoldsNone driver) }
        ensures due { IfOk result (λ driver. due_in driver ≡ []) }
    {
        match IoUringDriver::over(alloc, MemRing::new(alloc, entries)) {
            Ok(driver) => Ok(driver),
            Err((why, _)) => Err(why),
        }
    }

    /// How many handles the ring has. (not in monoio)
    pub fn handles(&self) -> u64
        ensures { result ≡ length (ring_in self.now).world }
    {
        self.ring.handles()
    }

    /// The user holds a handle of the ring: one that it adopted need not be the ring's. (not in monoio)
    pub fn has_handle(&self, h: u64) -> bool
        ensures { result ≡ (holds_handle self.now h && nat_lt h (length (ring_in self.now).world)) }
    {
        self.user_holds(h) && h < self.handles()
    }

    /// A new handle of the ring, which the user holds: its number is how many the ring had, fewer than `MOST_HANDLES`, and wasn't known.
    /// The memory of its close is reserved, so that no later call that closes it needs any. `OutOfMemory` comes if memory runs out, and
    /// then nothing but reserved memory has changed. (not in monoio)
    pub fn give(&mut self, kind: HandleKind) -> Result<SharedFd, OutOfMemory>
        requires counter { length (ring_in self.old).world < MOST_HANDLES }
        requires fresh { knows (holding_in self.old) (length (ring_in self.old).world) ≡ false }
        ensures answers { IfOk result (λ fd. (L : Ledger) → Stands (λ r. r) B.buffer self.old L →
            Answers (λ r. r) B.buffer L (Give kind) (Handle fd) self.new) }
        // The ring has one handle more, which is the one that is answered, and the user holds it.
        ensures number { IfOk result (λ fd. fd ≡ length (ring_in self.old).world) }
        ensures world { OnOk result ((ring_in self.new).world ≡ (ring_in self.old).world ++ fresh kind ∷ []) }
        ensures handles { OnOk result (Adopts (holding_in self.old) (length (ring_in self.old).world) (holding_in self.new)) }
        ensures ops { SameOps self.old self.new }
        ensures err { OnErr result (IsSameRing (λ r. r) self.old self.new × IsSameHolding (holding_in self.old) (holding_in self.new)) }
        ensures stands { OnErr result ((L : Ledger) → Stands (λ r. r) B.buffer self.old L → Stands (λ r. r) B.buffer self.new L) }
        ensures tokens { KeepsTokens self.old self.new }
        ensures requests { KeepsRequests self.old self.new }
        ensures pending { pending (λ r. r) self.new ≡ pending (λ r. r) self.old }
        ensures due { due_in self.new ≡ due_in self.old }
        ensures given { given_by self.new ≡ given_by self.old }
    {
        let h = self.ring.handles();
        let fd = self.adopt(h)?;
        match self.ring.give(kind) {
            Ok(_) => Ok(fd),
            Err(why) => {
                self.handles.forget(h);
                Err(why)
            }
        }
    }

    /// Bytes arrive at a handle of the ring that the user holds: they join its input's end. `BadHandleEvent` comes exactly when the handle
    /// is a datagram, or its end is marked. (not in monoio)
    pub fn feed(&mut self, h: u64, bytes: &[u8]) -> Result<(), WorldError>
        requires held { IsTrue (holds_handle self.old h) }
        requires here { h < length (ring_in self.old).world }
        ensures answers { (L : Ledger) → Stands (λ r. r) B.buffer self.old L → FeedsFor B.buffer L h bytes.now self.new result }
        // Over every driver: the handle changes as the ring's world says, and nothing else.
        ensures feeds { WorldFeeds bytes.now (ring_in self.old).world h (ring_in self.new).world result }
        ensures rest { IsSameButWorld self.old.ring self.new.ring × SameSlots self.old self.new }
        ensures err { OnErr result (self.new ≡ self.old) }
        ensures tokens { KeepsTokens self.old self.new }
        ensures requests { KeepsRequests self.old self.new }
        ensures pending { pending (λ r. r) self.new ≡ pending (λ r. r) self.old }
        ensures due { due_in self.new ≡ due_in self.old }
        ensures given { given_by self.new ≡ given_by self.old }
    {
        match self.ring.feed(h, bytes) {
            Ok(()) => {}
            Err(why) => return Err(why),
        }
        Ok(())
    }

    /// A message arrives at a handle of the ring that the user holds: it joins those that wait, with its address and a copy of its bytes.
    /// `BadHandleEvent` comes exactly when the handle is no datagram. (not in monoio)
    pub fn feed_message(&mut self, h: u64, addr: u64, bytes: &[u8]) -> Result<(), WorldError>
        requires held { IsTrue (holds_handle self.old h) }
        requires here { h < length (ring_in self.old).world }
        ensures answers { (L : Ledger) → Stands (λ r. r) B.buffer self.old L → FeedsMessageFor B.buffer L h addr bytes.now self.new result }
        // Over every driver: the handle changes as the ring's world says, and nothing else.
        ensures feeds { WorldFeedsMessage addr bytes.now (ring_in self.old).world h (ring_in self.new).world result }
        ensures rest { IsSameButWorld self.old.ring self.new.ring × SameSlots self.old self.new }
        ensures err { OnErr result (self.new ≡ self.old) }
        ensures tokens { KeepsTokens self.old self.new }
        ensures requests { KeepsRequests self.old self.new }
        ensures pending { pending (λ r. r) self.new ≡ pending (λ r. r) self.old }
        ensures due { due_in self.new ≡ due_in self.old }
        ensures given { given_by self.new ≡ given_by self.old }
    {
        match self.ring.feed_message(h, addr, bytes) {
            Ok(()) => {}
            Err(why) => return Err(why),
        }
        Ok(())
    }

    /// The end of what arrives at a handle of the ring that the user holds. `BadHandleEvent` comes exactly when the handle is neither a
    /// stream nor a pipe, or its end is marked already. It takes no memory, so `OutOfMemory` doesn't come. (not in monoio)
    pub fn end(&mut self, h: u64) -> Result<(), WorldError>
        requires held { IsTrue (holds_handle self.old h) }
        requires here { h < length (ring_in self.old).world }
        ensures answers { (L : Ledger) → Stands (λ r. r) B.buffer self.old L → EndsFor B.buffer L h self.new result }
        // Over every driver: the handle changes as the ring's world says, and nothing else.
        ensures ends { WorldEnds (ring_in self.old).world h (ring_in self.new).world result }
        ensures rest { IsSameButWorld self.old.ring self.new.ring × SameSlots self.old self.new }
        ensures memory { IfErr result (λ why. why ≡ WorldError.BadHandleEvent) }
        ensures err { OnErr result (self.new ≡ self.old) }
        ensures tokens { KeepsTokens self.old self.new }
        ensures requests { KeepsRequests self.old self.new }
        ensures pending { pending (λ r. r) self.new ≡ pending (λ r. r) self.old }
        ensures due { due_in self.new ≡ due_in self.old }
        ensures given { given_by self.new ≡ given_by self.old }
    {
        match self.ring.end(h) {
            Ok(()) => {}
            Err(why) => return Err(why),
        }
        Ok(())
    }

    /// What looking at a handle of the ring that the user holds shows, copied once: the bytes that were sent to a stream, those of a pipe
    /// or a file, the messages that a datagram sent. (not in monoio)
    pub fn look(&self, h: u64) -> Result<Look, OutOfMemory>
        requires held { IsTrue (holds_handle self.now h) }
        requires here { h < length (ring_in self.now).world }
        ensures answers { IfOk result (λ look. (L : Ledger) → Stands (λ r. r) B.buffer self.now L → LooksFor L h look) }
        ensures looks { IfOk result (λ look. look ≡ look_at (ring_in self.now).world h) }
    {
        self.ring.look(h)
    }

    /// Executes what is in flight at a place with a reported outcome: it becomes the last completion. A close moves nothing. The bytes
    /// that come go from the handle into the operation's buffer, those that are sent are copied from the buffer to the handle, and those of
    /// a splice go from one handle to the other; an error leaves the buffer as it was submitted. Only what sends or splices takes memory.
    /// An error ends those behind it that wait for it too, in order, each with the error `CANCELED` and its buffer as it was submitted;
    /// after a count the one that waits for it may be executed. (not in monoio)
    pub fn execute(&mut self, place: usize, told: Told) -> Result<Executed, ExecRefusal>
        ensures answers { (L : Ledger) → Stands (λ r. r) B.buffer self.old L → ExecutesFor B.buffer L place told self.new result }
        // Over every driver: what its ring does with its operations, and nothing else.
        ensures executes { ExecutesOver B.buffer self.old place told self.new result }
        ensures handles { holding_in self.new ≡ holding_in self.old }
        ensures members { members_in self.new ≡ members_in self.old }
        ensures err { OnErr result (self.new ≡ self.old) }
        ensures tokens { KeepsTokens self.old self.new }
        // Bytes come to a buffer at most: what surrounds it stays.
        ensures surroundings { KeepsSurroundings (around B.under B.beside) self.old self.new }
        ensures pending { pending (λ r. r) self.new ≡ pending (λ r. r) self.old }
        ensures due { due_in self.new ≡ due_in self.old }
        ensures given { given_by self.new ≡ given_by self.old }
    {
        let completion = match self.ring.execute(place, told, &mut self.ops) {
            Ok(completion) => completion,
            Err(why) => return Err(why),
        };
        Ok(executed(completion))
    }
}

// What a completion says was executed: the close of the handle that its word names, or else the operation of its serial.
fn executed(completion: Completion) -> Executed
    ensures { result ≡ executed_as completion (target completion.word) }
{
    match Target::of(completion.word) {
        Target::Handle(h) => Executed::Close(h),
        Target::Slot(_) | Target::Reserved(_) => Executed::Op(completion.serial),
    }
}
