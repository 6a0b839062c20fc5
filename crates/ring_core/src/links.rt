//! Which slot the entry of a data word stands on.
ghost use Rattle.std.specs.Prelude.{◌≡◌, ◌<◌, ◌≤◌, ◌++◌, [], ◌∷◌, true, false, length, IsTrue, vec_len};
ghost use Rattle.ring_core.specs.Flights.{words_of};
ghost use Rattle.ring_core.specs.Links.{AreLinked, IsFound, NextLinkFor, Lengthens};

use crate::entry::Flight;
use crate::ranks::Ranks;
use rent_buf::OutOfMemory;
use std::alloc::Global;
use std::marker::Model;

// The link of a data word that several had at once.
const SEVERAL: u32 = u32::MAX;

// Data words from here on have no link: no key is so great.
const FAR: u64 = 1 << 32;

// By how many links more than a data word needs they grow.
const AHEAD: usize = 1024;

// Where a data word may be kept.
pub(crate) enum Link {
    // On no slot.
    Nowhere,
    // On this slot, and on no other.
    At(usize),
    // On any slots.
    Anywhere,
}

/// For each data word the slot of the entry that joined with it last, or `SEVERAL`. The links grow with the words that join, in memory
/// that was taken before. (not in monoio)
#[derive(Debug, Drop)]
pub(crate) struct Links {
    slots: Vec<u32>,
    // Each data word below `FAR` that is kept on a slot has its link.
    complete: bool,
}

impl Model for Links {
    ghost use Rattle.ring_core.specs.Links.{Linked};

    ghost Value = { Linked };

    ghost view = { λ l. record { slots = l.slots.items; complete = l.complete } };
}

impl Links {
    /// No links and no memory.
    pub(crate) fn new(alloc: Global) -> Links
        ensures { result ≡ record { slots = []; complete = true } }
    {
        Links {
            slots: Vec::new(alloc),
            complete: true,
        }
    }

    /// Takes the memory for the links of data words below a number. A word for whose link there is none has no link.
    pub(crate) fn reserve(&mut self, words: usize) -> Result<(), OutOfMemory>
        ensures { self.new ≡ self.old }
    {
        self.slots.reserve(words.saturating_sub(self.slots.len()))?;
        Ok(())
    }

    /// No slot is kept any more.
    pub(crate) fn forget(&mut self)
        ensures { self.new ≡ record self.old { complete = true } }
    {
        self.complete = true;
    }

    /// The data word of the item that gets a slot next names that slot.
    pub(crate) fn set(&mut self, items: &Vec<Flight>, ranks: &Ranks, slot: usize)
        requires there { slot < vec_len items.now }
        requires next { slot ≡ length ranks.now.flags }
        requires linked { AreLinked self.old ranks.now.flags (words_of items.now.items) }
        ensures { AreLinked self.new (ranks.now.flags ++ true ∷ []) (words_of items.now.items) }
    {
        let word = items[slot].entry.word;
        if !lengthen(&mut self.slots, self.complete, word) {
            if word < FAR {
                self.complete = false;
            }
            return;
        }
        let before = self.slots[word as usize];
        self.slots[word as usize] = next_link(items, ranks, before, word, slot);
    }

    /// Where a data word may be kept.
    pub(crate) fn find(&self, word: u64) -> Link
        ensures { IsFound self.now word result }
    {
        if word >= self.slots.len() as u64 {
            return if self.complete && word < FAR {
                Link::Nowhere
            } else {
                Link::Anywhere
            };
        }
        match self.slots[word as usize] {
            SEVERAL => Link::Anywhere,
            slot => Link::At(slot as usize),
        }
    }
}

// Whether a data word has a link: where all have theirs, the links grow to it if there is memory.
fn lengthen(slots: &mut Vec<u32>, complete: bool, word: u64) -> bool
    ensures longer { Lengthens complete slots.old.items slots.new.items }
    ensures there { IsTrue result → word < length slots.new.items }
    ensures beyond { result ≡ false → length slots.new.items ≤ word }
{
    if word < slots.len() as u64 {
        return true;
    }
    if !complete || word >= FAR || word >= slots.capacity() as u64 {
        return false;
    }
    let count = slots
        .capacity()
        .min(FAR as usize)
        .min(word as usize + AHEAD);
    slots.resize(count, 0).is_ok()
}

// The next link of a data word whose link was another, once it gets a slot: that slot, unless the word is kept on another.
fn next_link(items: &Vec<Flight>, ranks: &Ranks, before: u32, word: u64, slot: usize) -> u32
    requires { length ranks.now.flags ≤ vec_len items.now }
    ensures { NextLinkFor ranks.now.flags (words_of items.now.items) before word slot result }
{
    if before == SEVERAL || slot >= SEVERAL as usize {
        return SEVERAL;
    }
    if ranks.holds(before as usize) && items[before as usize].entry.word == word {
        SEVERAL
    } else {
        slot as u32
    }
}
