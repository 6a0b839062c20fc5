// Memory that is reserved for the tasks which a wake names.
ghost use Rattle.std.specs.Prelude.{◌≡◌, ◌≤◌, [], false, IsTrue, IsOk, OnOk};
ghost use Rattle.std.specs.Vec.{vec_capacity};
ghost use Rattle.ready_driver.specs.declared.ready.Direction.{Direction};
ghost use Rattle.ready_driver.specs.Ready.{meets, mask_of};
ghost use Rattle.ready_driver.specs.Rooms.{room_of};

use crate::ready::{Direction, Ready};
use rent_buf::OutOfMemory;
use std::alloc::Global;
use std::marker::Model;
use std::mem;

/// Two empty vectors, one for each direction. A clause sees their capacities.
#[derive(Debug, Drop)]
pub(super) struct Rooms {
    reads: Vec<u64>,
    writes: Vec<u64>,
}

impl Model for Rooms {
    ghost use Rattle.std.specs.Prelude.{◌≡◌, []};
    ghost use Rattle.std.specs.Vec.{vec_capacity};
    ghost use Rattle.ready_driver.specs.Rooms.{Rooms as RoomsView};

    ghost Value = { RoomsView };

    ghost view = { λ r. record { reads = vec_capacity r.reads; writes = vec_capacity r.writes } };

    ghost invariant = { λ r. (r.reads.items ≡ []) × (r.writes.items ≡ []) };
}

impl Rooms {
    // No memory yet.
    pub(super) fn new(alloc: Global) -> Rooms {
        Rooms {
            reads: Vec::new(alloc),
            writes: Vec::new(alloc),
        }
    }

    // Reserves memory for so many tasks of a direction, if it isn't there.
    pub(super) fn reserve(&mut self, dir: Direction, count: usize) -> Result<(), OutOfMemory>
        ensures ok { OnOk result (count ≤ room_of self.new dir) }
        ensures kept { (d : Direction) → room_of self.old d ≤ room_of self.new d }
        ensures there { count ≤ room_of self.old dir → IsOk result }
    {
        match dir {
            Direction::Read => self.reads.reserve(count)?,
            Direction::Write => self.writes.reserve(count)?,
        }
        Ok(())
    }

    // Reserves memory for so many tasks of each direction.
    pub(super) fn reserve_both(&mut self, count: usize) -> Result<(), OutOfMemory>
        ensures ok { OnOk result ((d : Direction) → count ≤ room_of self.new d) }
        ensures kept { (d : Direction) → room_of self.old d ≤ room_of self.new d }
    {
        self.reserve(Direction::Read, count)?;
        self.reserve(Direction::Write, count)
    }

    // Takes out an empty vector with room enough for each direction that these bits meet: the larger one, if they meet both.
    pub(super) fn take(&mut self, ready: Ready) -> Vec<u64>
        ensures empty { result.items ≡ [] }
        ensures room { (d : Direction) → IsTrue (meets ready (mask_of d)) → room_of self.old d ≤ vec_capacity result }
        ensures kept { (d : Direction) → meets ready (mask_of d) ≡ false → room_of self.old d ≤ room_of self.new d }
    {
        let none = Vec::new(*self.reads.allocator());
        let (reads, writes) = (ready.is_readable(), ready.is_writable());
        let more_writes = self.reads.capacity() < self.writes.capacity();
        if writes && (!reads || more_writes) {
            mem::replace(&mut self.writes, none)
        } else if reads {
            mem::replace(&mut self.reads, none)
        } else {
            none
        }
    }
}
