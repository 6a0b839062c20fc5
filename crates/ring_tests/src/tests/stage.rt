// What tests do with a ring: each call here makes one call of the ring or of its handles, and answers plain values.
use machine::{Completion, HandleKind, Told, WorldError};
use rent_buf::{ByteList, OutOfMemory};
use ring_core::{EnterError, Entry, ExecRefusal, Push};

/// Why a call wasn't made, or what became of it that no test expects.
#[derive(Clone, Copy, Debug, PartialEq, Eq)]
pub(crate) enum Why {
    /// Memory ran out.
    OutOfMemory,
    /// The condition of the call isn't met.
    Unmet,
    /// What the call answered isn't what it answers in a test.
    Unlike,
}

impl From<OutOfMemory> for Why {
    fn from(_: OutOfMemory) -> Why {
        Why::OutOfMemory
    }
}

/// An answer is like the one that a test expects.
pub(crate) fn is_like(like: bool) -> Result<(), Why> {
    if like { Ok(()) } else { Err(Why::Unlike) }
}

/// A ring.
pub(crate) trait Stage {
    /// Reserves the memory of a push, and pushes an entry.
    fn push(&mut self, entry: Entry) -> Result<Push, Why>;

    /// Reserves the memory of two pushes, and pushes two entries.
    fn push_both(&mut self, first: Entry, second: Entry) -> Result<(Push, Push), Why>;

    /// Enters what is queued.
    fn enter(&mut self) -> Result<u32, EnterError>;

    /// Takes the oldest completion off.
    fn next(&mut self) -> Option<Completion>;

    /// Its capacity, how many entries are queued, and how many completions are ready.
    fn has(&self) -> (u32, u32, usize);
}

/// A ring in memory, with its handles.
pub(crate) trait Handles {
    /// A new handle of a kind.
    fn give(&mut self, kind: HandleKind) -> Result<u64, Why>;

    /// How many handles there are.
    fn count(&self) -> u64;

    /// Bytes arrive at a handle. It answers why they don't, if so.
    fn feed(&mut self, h: u64, bytes: &str) -> Result<Option<WorldError>, Why>;

    /// A message of an address arrives at a handle.
    fn feed_message(&mut self, h: u64, addr: u64, bytes: &str) -> Result<Option<WorldError>, Why>;

    /// The end of what arrives at a handle.
    fn end(&mut self, h: u64) -> Result<Option<WorldError>, Why>;

    /// What a look at a handle shows: its bytes, or those of all its messages, each behind a byte for whether it has an address; nothing
    /// where there is no such handle.
    fn look(&self, h: u64) -> Result<ByteList, Why>;

    /// What is in flight at a place.
    fn flying_at(&self, place: usize) -> Option<Entry>;

    /// Whether what is in flight at a place is bound; None where there is nothing.
    fn bound(&self, place: usize) -> Option<bool>;

    /// What an execution with these bytes to send answers, and the bytes that came.
    fn finish(
        &mut self,
        place: usize,
        told: Told,
        sent: &str,
    ) -> (Result<Completion, ExecRefusal>, ByteList);
}

/// Pushes an entry and enters it alone.
pub(crate) fn submit<S: Stage>(stage: &mut S, entry: Entry) -> Result<(), Why> {
    is_like(stage.push(entry)? == Push::Done)?;
    is_like(stage.enter() == Ok(1))?;
    let (capacity, queued, _) = stage.has();
    is_like(capacity > 0 && queued == 0)
}
