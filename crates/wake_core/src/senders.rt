//! The senders' stages and counts.
ghost use Rattle.std.specs.Prelude.{◌≡◌, ◌+◌, ◌<◌, ◌≤◌, ◌++◌, length, replicate, OnOk, OnErr, [], vec_len, vec_capacity};
ghost use Rattle.wake_core.specs.SenderSlot.{new_slot};
ghost use Rattle.wake_core.specs.SenderTable.{entry_of, with_entry};

use crate::fault::OutOfMemory;
use crate::state::MAX_SENDERS;
use std::alloc::Global;
use std::marker::Model;

/// How far a sender is in sending one waker. (not in monoio)
#[derive(Clone, Copy, Debug, PartialEq, Eq)]
pub enum SenderStage {
    /// It sends nothing.
    Idle,
    /// It pushed its waker, and is to read the flag.
    Pushed,
    /// It read that the flag is false, and is to set the token.
    Called,
}

// What the table keeps of a sender. How many of its wakers were drained is not kept: it is what doesn't wait.
#[derive(Clone, Copy)]
pub(crate) struct SenderSlot {
    pub(crate) stage: SenderStage,
    pub(crate) pushed: u64,
}

// The senders by number. One past the end pushed nothing yet.
#[derive(Drop)]
pub(crate) struct SenderTable {
    items: Vec<SenderSlot>,
}

impl Model for SenderTable {
    ghost use Rattle.std.specs.Prelude.{List};
    ghost use Rattle.wake_core.specs.declared.senders.SenderSlot.{SenderSlot};

    ghost Value = { List SenderSlot };

    ghost view = { λ s. s.items.items };
}

// The slot of a sender that pushed nothing yet.
fn made() -> SenderSlot
    ensures { result ≡ new_slot }
{
    SenderSlot {
        stage: SenderStage::Idle,
        pushed: 0,
    }
}

// Adds senders that pushed nothing yet, where there is room for them.
fn extend(items: &mut Vec<SenderSlot>, more: usize)
    requires { vec_len items.old + more ≤ vec_capacity items.old }
    ensures items { items.new.items ≡ items.old.items ++ replicate more new_slot }
    ensures capacity { vec_capacity items.new ≡ vec_capacity items.old }
{
    for _i in 0..more {
        items.push_reserved(made());
    }
}

impl SenderTable {
    // The table of senders that pushed nothing yet. Takes no memory.
    pub(crate) fn new(alloc: Global) -> SenderTable
        ensures { result ≡ [] }
    {
        SenderTable {
            items: Vec::new(alloc),
        }
    }

    // The slot of the sender with this number.
    pub(crate) fn get(&self, number: u64) -> SenderSlot
        ensures { result ≡ entry_of new_slot self.now number }
    {
        match self.items.get(number as usize) {
            Some(slot) => *slot,
            None => made(),
        }
    }

    // Writes the slot of the sender with this number, and makes room for it where there is none.
    pub(crate) fn put(&mut self, number: u64, slot: SenderSlot) -> Result<(), OutOfMemory>
        requires { number < MAX_SENDERS }
        ensures ok { OnOk result (self.new ≡ with_entry new_slot self.old number slot) }
        ensures err { OnErr result (self.new ≡ self.old) }
    {
        let number = number as usize;
        let len = self.items.len();
        if number < len {
            self.items[number] = slot;
            return Ok(());
        }
        self.items
            .reserve(number - len + 1)
            .map_err(|_| OutOfMemory)?;
        extend(&mut self.items, number - len);
        self.items.push_reserved(slot);
        Ok(())
    }

    // Moves a sender that has a slot to this stage.
    pub(crate) fn set_stage(&mut self, number: u64, stage: SenderStage)
        requires { number < length self.old }
        ensures { self.new ≡ with_entry new_slot self.old number (record (entry_of new_slot self.old number) { stage = stage }) }
    {
        self.items[number as usize].stage = stage;
    }
}
