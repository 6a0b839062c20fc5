//! What the driver asks of a ring.
ghost use Rattle.std.specs.Prelude.{◌≡◌, ◌<◌, ◌≤◌, Bool, length, IsTrue, IsOk, OnOk, OnErr};
ghost use Rattle.ring_core.specs.Ring.{RingView, PushesFor, EntersFor, IsSynced, NextFor, reserved};
ghost use Rattle.ring_core.specs.Entry.{may_link};

use crate::entry::Entry;
use machine::Completion;
use rent_buf::OutOfMemory;
use thiserror::Error;

/// Why an enter took no more of the queue.
#[derive(Clone, Copy, Debug, PartialEq, Eq, Error)]
pub enum EnterError {
    /// The ring failed: its count of faults rose.
    #[error("Fault")]
    Fault,
    /// The ring had no room for completions: its count of busies rose.
    #[error("Busy")]
    Busy,
}

/// What became of a push.
#[derive(Clone, Copy, Debug, PartialEq, Eq)]
pub enum Push {
    /// The entry is at the queue's end.
    Done,
    /// The queue is at capacity, and the entry is returned.
    Full(Entry),
}

/// A ring: a submission queue, what is in flight, and the completions that are ready. For each entry that it takes at most one completion
/// comes, in any order: in the enter that takes it, or by itself at any time later, or never. One that came by itself is ready after the
/// next `sync`. (io_uring, as monoio's driver uses it)
pub trait Ring: Drop {
    // The ring as a value.
    ghost view: { Self → RingView };

    // It shows its lists, and not only their lengths.
    ghost tells: { Bool };

    // It shows its lists, and takes its whole queue at each enter.
    ghost steady: { Bool };

    /// How many entries the queue holds at most.
    fn capacity(&self) -> u32
        ensures capacity { result ≡ (view self.now).capacity }
        ensures some { 0 < result };

    /// The queue's length.
    fn queued(&self) -> u32
        ensures queued { result ≡ length (view self.now).queue }
        ensures within { length (view self.now).queue ≤ (view self.now).capacity };

    /// The number of completions that are ready.
    fn standing(&self) -> usize
        ensures { result ≡ length (view self.now).done };

    /// How many completions are still to come by themselves, of the entries that it took. It is 0 for a ring that completes an entry in the
    /// enter that takes it, or by calls of its own alone.
    fn to_come(&self) -> usize
        ensures { result ≡ (view self.now).to_come };

    /// Reserves the memory of `n` more pushes, and of entering and finishing what they push. If memory runs out, nothing has
    /// changed.
    fn reserve(&mut self, n: usize) -> Result<(), OutOfMemory>
        ensures ok { OnOk result (view self.new ≡ reserved (view self.old) n) }
        ensures err { OnErr result (view self.new ≡ view self.old) };

    /// Puts an entry at the queue's end; `Full` comes exactly when the queue is at capacity. Only a call is linked. It takes no memory:
    /// `reserve` took it before.
    fn push_reserved(&mut self, entry: Entry) -> Push
        requires room { 0 < (view self.old).spare }
        requires links { IsTrue (may_link entry entry.body) }
        ensures { PushesFor tells entry (view self.old) (view self.new) result };

    /// Takes the queue, in order, and returns how many entries it took. A call waits for the linked one that is taken directly before it.
    /// It takes no memory for what was reserved. After an error a prefix of the queue may have been taken: what is taken later waits for
    /// none of it.
    fn enter(&mut self) -> Result<u32, EnterError>
        ensures enters { EntersFor tells (view self.old) (view self.new) result }
        ensures steady { IsTrue steady → IsOk result };

    /// Makes those completions ready that came by themselves since the last time, also over an empty queue. It takes no memory. (io_uring:
    /// `CompletionQueue::sync`)
    fn sync(&mut self)
        ensures { IsSynced tells (view self.old) (view self.new) };

    /// Removes and returns the oldest completion; None exactly when none is ready. It takes no memory.
    fn next(&mut self) -> Option<Completion>
        ensures { NextFor tells (view self.old) (view self.new) result };

    // A ring that takes its whole queue shows its lists.
    ghost steady_tells: { IsTrue steady → IsTrue tells };
}
