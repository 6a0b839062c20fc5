//! Slots of which some are kept, found by their rank among these.
ghost use Rattle.std.specs.Prelude.{◌≡◌, ◌<◌, ◌≤◌, ◌+◌, ◌-◌, ◌^◌, [], ◌∷◌, ◌++◌, true, false, suc, length, replicate, get_or, slice_get};
ghost use Rattle.std.specs.Prelude.{slice_set, Some, ℕ, max, OnOk, OnErr};
ghost use Rattle.machine.specs.Lists.{amended};
ghost use Rattle.ring_core.specs.Ranks.{kept_first, sum_first, is_kept, less_one};

use rent_buf::OutOfMemory;
use std::alloc::Global;
use std::marker::Model;

// How many slots a block counts, how many blocks a group, and how many groups a region.
const WIDTH: usize = 32;

/// Slots, in order, each of which is kept until it is released. The slot of a rank is found by counts on three levels: it looks
/// at a region for each `WIDTH * WIDTH * WIDTH` slots, and then at twice `WIDTH` counts and `WIDTH` slots at most. (not in monoio)
#[derive(Debug, Drop)]
pub(crate) struct Ranks {
    flags: Vec<bool>,
    blocks: Vec<u32>,
    groups: Vec<u32>,
    regions: Vec<u32>,
    room: usize,
}

impl Model for Ranks {
    ghost use Rattle.std.specs.Prelude.{◌≤◌, ◌*◌, vec_len, vec_capacity};
    ghost use Rattle.ring_core.specs.Ranks.{Ranked, AreCounted, HasSlots};

    ghost Value = { Ranked };

    ghost view = { λ r. record { flags = r.flags.items; room = r.room } };

    ghost invariant = { λ r. AreCounted r.flags.items r.blocks.items r.groups.items r.regions.items ×
        HasSlots (vec_len r.flags) r.room (vec_capacity r.flags) (vec_len r.blocks) (vec_len r.groups) (vec_len r.regions) };
}

// Where a rank ends among counts: at which of them, and how many of that one are before it.
#[derive(Clone, Copy)]
struct Found {
    at: usize,
    rest: usize,
}

impl Ranks {
    /// No slots and no memory.
    pub(crate) fn new(alloc: Global) -> Ranks
        ensures { result ≡ record { flags = []; room = 0 } }
    {
        Ranks {
            flags: Vec::new(alloc),
            blocks: Vec::new(alloc),
            groups: Vec::new(alloc),
            regions: Vec::new(alloc),
            room: 0,
        }
    }

    /// How many slots have joined.
    pub(crate) fn len(&self) -> usize
        ensures { result ≡ length self.now.flags }
    {
        self.flags.len()
    }

    /// For how many slots there is memory.
    pub(crate) fn room(&self) -> usize
        ensures value { result ≡ self.now.room }
        ensures within { length self.now.flags ≤ self.now.room }
    {
        self.room
    }

    /// Takes the memory for so many slots. If memory runs out, nothing has changed.
    pub(crate) fn reserve(&mut self, room: usize) -> Result<(), OutOfMemory>
        ensures flags { self.new.flags ≡ self.old.flags }
        ensures ok { OnOk result (self.new.room ≡ max room self.old.room) }
        ensures err { OnErr result (self.new ≡ self.old) }
    {
        if room <= self.room {
            return Ok(());
        }
        let blocks = room / WIDTH + 1;
        let groups = blocks / WIDTH + 1;
        self.flags.reserve(room - self.flags.len())?;
        lengthen(&mut self.regions, groups / WIDTH + 1)?;
        lengthen(&mut self.groups, groups)?;
        lengthen(&mut self.blocks, blocks)?;
        self.room = room;
        Ok(())
    }

    /// Whether a slot is there, and kept.
    pub(crate) fn holds(&self, slot: usize) -> bool
        ensures { result ≡ is_kept self.now.flags slot }
    {
        match self.flags.get(slot) {
            Some(flag) => *flag,
            None => false,
        }
    }

    /// The slot of a rank: it is kept, and so many kept ones are before it.
    pub(crate) fn select(&self, rank: usize) -> usize
        requires { rank < kept_first (length self.now.flags) self.now.flags }
        ensures kept { slice_get self.now.flags result ≡ Some true }
        ensures rank { kept_first result self.now.flags ≡ rank }
        ensures within { result < length self.now.flags }
    {
        let region = find(&self.regions, 0, rank);
        let group = find(&self.groups, WIDTH * region.at, region.rest);
        let block = find(&self.blocks, WIDTH * group.at, group.rest);
        find_kept(&self.flags, WIDTH * block.at, block.rest)
    }

    /// One more slot joins the end, and is kept. It takes no memory.
    pub(crate) fn push(&mut self)
        requires { length self.old.flags < self.old.room }
        ensures { self.new ≡ record (self.old) { flags = self.old.flags ++ true ∷ [] } }
    {
        let block = self.flags.len() / WIDTH;
        self.flags.push_reserved(true);
        count_up(&mut self.blocks, block);
        count_up(&mut self.groups, block / WIDTH);
        count_up(&mut self.regions, block / WIDTH / WIDTH);
    }

    /// A slot isn't kept any more.
    pub(crate) fn release(&mut self, slot: usize)
        requires { slice_get self.old.flags slot ≡ Some true }
        ensures { self.new ≡ record (self.old) { flags = slice_set self.old.flags slot false } }
    {
        let block = slot / WIDTH;
        self.flags[slot] = false;
        count_down(&mut self.blocks, block);
        count_down(&mut self.groups, block / WIDTH);
        count_down(&mut self.regions, block / WIDTH / WIDTH);
    }

    /// No slot is left, where none was kept; the memory stays. It costs nothing that grows with the room.
    pub(crate) fn restart(&mut self)
        requires { kept_first (length self.old.flags) self.old.flags ≡ 0 }
        ensures { self.new ≡ record (self.old) { flags = [] } }
    {
        self.flags.clear();
    }

    /// No slot is left; the memory stays.
    pub(crate) fn clear(&mut self)
        ensures { self.new ≡ record (self.old) { flags = [] } }
    {
        self.flags.clear();
        set_to_zero(&mut self.blocks);
        set_to_zero(&mut self.groups);
        set_to_zero(&mut self.regions);
    }
}

// Where a rank among what the counts from a start on count ends.
fn find(counts: &Vec<u32>, start: usize, rank: usize) -> Found
    requires { sum_first start counts.now.items + rank < sum_first (length counts.now.items) counts.now.items }
    ensures { sum_first result.at counts.now.items + result.rest ≡ sum_first start counts.now.items + rank }
{
    let mut at = start;
    let mut rest = rank;
    'search: loop {
        let count = counts[at] as usize;
        if rest < count {
            return Found { at, rest };
        }
        rest -= count;
        at += 1;
    }
}

// The slot of a rank among the kept ones from a start on.
fn find_kept(flags: &Vec<bool>, start: usize, rank: usize) -> usize
    requires { kept_first start flags.now.items + rank < kept_first (length flags.now.items) flags.now.items }
    ensures kept { slice_get flags.now.items result ≡ Some true }
    ensures rank { kept_first result flags.now.items ≡ kept_first start flags.now.items + rank }
    ensures within { result < length flags.now.items }
{
    let mut at = start;
    let mut rest = rank;
    'search: loop {
        if flags[at] {
            if rest == 0 {
                return at;
            }
            rest -= 1;
        }
        at += 1;
    }
}

// Makes the counts at least so many, by zeros behind those that there are.
fn lengthen(counts: &mut Vec<u32>, count: usize) -> Result<(), OutOfMemory>
    ensures sums { (n : ℕ) → sum_first n counts.new.items ≡ sum_first n counts.old.items }
    ensures ok { OnOk result (length counts.new.items ≡ max count (length counts.old.items)) }
    ensures err { OnErr result (counts.new.items ≡ counts.old.items) }
{
    if count <= counts.len() {
        return Ok(());
    }
    counts.resize(count, 0)?;
    Ok(())
}

// A count rises by one.
fn count_up(counts: &mut Vec<u32>, i: usize)
    requires there { i < length counts.old.items }
    requires few { get_or counts.old.items i 0 < 2 ^ 32 - 1 }
    ensures items { counts.new.items ≡ amended counts.old.items i suc }
    ensures length { length counts.new.items ≡ length counts.old.items }
{
    counts[i] += 1;
}

// A count falls by one.
fn count_down(counts: &mut Vec<u32>, i: usize)
    requires there { i < length counts.old.items }
    requires some { 0 < get_or counts.old.items i 0 }
    ensures items { counts.new.items ≡ amended counts.old.items i less_one }
    ensures length { length counts.new.items ≡ length counts.old.items }
{
    counts[i] -= 1;
}

// All counts are 0.
fn set_to_zero(counts: &mut Vec<u32>)
    ensures items { counts.new.items ≡ replicate (length counts.old.items) 0 }
    ensures length { length counts.new.items ≡ length counts.old.items }
{
    counts.as_mut_slice().fill(0);
}
