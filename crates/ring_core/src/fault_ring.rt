//! A ring in memory whose enters fail where they are told to, for tests.
ghost use Rattle.std.specs.Prelude.{◌≡◌, ◌<◌, refl, true, false, IsTrue, OnOk, OnErr};
ghost use Rattle.ring_core.specs.Entry.{may_link};
ghost use Rattle.ring_core.specs.Ring.{PushesFor, EntersFor, IsSynced, NextFor, reserved};
ghost use Rattle.ring_core.specs.FaultRing.{fresh_faults, faulty_ring, with_ring, with_completion, is_next, EntersFaulty};

use crate::entry::Entry;
use crate::mem_ring::MemRing;
use crate::ring::{EnterError, Push, Ring};
use machine::Completion;
use rent_buf::{NumList, OutOfMemory};
use std::marker::Model;

/// A ring in memory whose enters of chosen numbers fail or are busy, and to which a stray completion can be added. An enter is
/// numbered by how many were called before it, up to the last `u64`, which all later ones have too. One that fails or is busy takes
/// nothing. (not in monoio)
#[derive(Debug, Drop)]
pub struct FaultRing {
    ring: MemRing,
    failing: NumList,
    busy: NumList,
    // How many enters were called, and how many of them failed and were busy.
    calls: u64,
    faults: u64,
    busies: u64,
}

impl Model for FaultRing {
    ghost use Rattle.ring_core.specs.FaultRing.{FaultView};

    ghost Value = { FaultView };

    ghost view = { λ f. record {
      ring = f.ring;
      failing = f.failing;
      busy = f.busy;
      calls = f.calls;
      faults = f.faults;
      busies = f.busies;
    } };
}

impl FaultRing {
    /// A ring whose enters of the numbers in `failing` fail, and whose enters of those in `busy` are busy. Enters are counted from 0,
    /// and the numbers come in any order; one in both lists fails. It takes no memory.
    pub fn new(ring: MemRing, failing: NumList, busy: NumList) -> FaultRing
        ensures { result ≡ fresh_faults ring failing busy }
    {
        FaultRing {
            ring,
            failing,
            busy,
            calls: 0,
            faults: 0,
            busies: 0,
        }
    }

    /// The ring inside.
    pub fn ring(&self) -> &MemRing
        ensures { result.now ≡ self.now.ring }
    {
        &self.ring
    }

    /// Adds a completion behind those that are ready, whatever its word. If memory runs out, nothing has changed.
    pub fn inject(&mut self, completion: Completion) -> Result<(), OutOfMemory>
        ensures ok { OnOk result (self.new ≡ with_ring self.old (with_completion self.old.ring completion)) }
        ensures err { OnErr result (self.new ≡ self.old) }
    {
        self.ring.complete_stray(completion)
    }

    // The number of the next enter is in a list.
    fn is_next(&self, numbers: &NumList) -> bool
        ensures { result ≡ is_next self.now numbers.now }
    {
        numbers.as_slice().contains(&self.calls)
    }
}

impl Ring for FaultRing {
    ghost view = { faulty_ring };

    ghost tells = { true };

    ghost steady = { false };

    ghost steady_tells = { λ _. refl };

    fn capacity(&self) -> u32 {
        self.ring.capacity()
    }

    fn queued(&self) -> u32 {
        self.ring.queued()
    }

    fn standing(&self) -> usize {
        self.ring.standing()
    }

    fn to_come(&self) -> usize {
        self.ring.to_come()
    }

    fn reserve(&mut self, n: usize) -> Result<(), OutOfMemory>
        ensures ok { OnOk result (faulty_ring self.new ≡ reserved (faulty_ring self.old) n) }
        ensures err { OnErr result (faulty_ring self.new ≡ faulty_ring self.old) }
        ensures same { self.new ≡ with_ring self.old self.new.ring }
    {
        self.ring.reserve(n)
    }

    fn push_reserved(&mut self, entry: Entry) -> Push
        requires room { 0 < self.old.ring.spare }
        requires links { IsTrue (may_link entry entry.body) }
        ensures pushes { PushesFor true entry (faulty_ring self.old) (faulty_ring self.new) result }
        ensures same { self.new ≡ with_ring self.old self.new.ring }
    {
        self.ring.push_reserved(entry)
    }

    fn enter(&mut self) -> Result<u32, EnterError>
        ensures enters { EntersFor true (faulty_ring self.old) (faulty_ring self.new) result }
        ensures exact { EntersFaulty self.old self.new result }
    {
        let fails = self.is_next(&self.failing);
        let busy = self.is_next(&self.busy);
        self.calls = self.calls.saturating_add(1);
        if fails {
            self.faults = self.faults.saturating_add(1);
            return Err(EnterError::Fault);
        }
        if busy {
            self.busies = self.busies.saturating_add(1);
            return Err(EnterError::Busy);
        }
        self.ring.enter()
    }

    fn sync(&mut self)
        ensures synced { IsSynced true (faulty_ring self.old) (faulty_ring self.new) }
        ensures same { self.new ≡ self.old }
    {}

    fn next(&mut self) -> Option<Completion>
        ensures first { NextFor true (faulty_ring self.old) (faulty_ring self.new) result }
        ensures same { self.new ≡ with_ring self.old self.new.ring }
    {
        self.ring.next()
    }
}
