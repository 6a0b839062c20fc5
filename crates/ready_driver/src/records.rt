//! What a driver keeps of each of its handles: who holds it, what it is ready for, what waits for it, and whether it is registered.
ghost use Rattle.std.specs.Prelude.{◌≡◌, ◌-◌, ◌+◌, ◌++◌, ◌≤◌, ◌<◌, ℕ, true, max, length, bit_or, nat_eq, None, Some, option_map, OnOk};
ghost use Rattle.std.specs.Prelude.{OnErr};
ghost use Rattle.std.specs.FinMap as map;
ghost use Rattle.std.specs.HashMap.{get_by};
ghost use Rattle.slab.specs.Slab.{get as slot_at};
ghost use Rattle.ready_driver.specs.declared.records.One.{One};
ghost use Rattle.std.specs.Vec.{vec_len, vec_capacity};
ghost use Rattle.ready_driver.specs.ScheduledIo.{waiter_of, forgotten, taken, left, tasks_of};
ghost use Rattle.ready_driver.specs.Records.{AreNamed, io_at, is_registered, changed, with_io, with_registered};
ghost use Rattle.ready_driver.specs.Records.{io_named, named_at, unregistered_at, changed_named, with_room, with_one};

use crate::ready::Ready;
use crate::scheduled_io::ScheduledIo;
use handle_core::Holders;
use rent_buf::{NumList, OutOfMemory};
use slab::Slab;
use std::alloc::Global;
use std::collections::HashMap;
use std::marker::Model;

mod holders;
mod polls;

// How many keys are kept by the remainders of their handles.
const NEAR: usize = 64;

/// What a driver keeps of a handle. (monoio: a `ScheduledIo` in the slab of the legacy driver)
#[derive(Debug, Drop)]
pub struct Record {
    /// The handle is registered.
    pub registered: bool,
    /// The key that its reports have.
    pub key: usize,
    /// What it is ready for, and what waits for it.
    pub io: ScheduledIo,
}

/// A handle that somebody holds: its number, who holds it, and its record.
#[derive(Debug, Drop)]
struct One {
    number: u64,
    held: Holders,
    kept: Record,
}

/// The handles that somebody holds, each with its holders and its record in one place, and memory that is reserved for more of them. A
/// report finds its handle by its key, which is that of the place, without a hash; a call that names a handle finds the key by one hash at
/// most, however many handles there are. (monoio: the slab of `ScheduledIo` in the legacy driver, by the key with which each was registered, and
/// the count of the `Rc` in each `SharedFd`)
#[derive(Drop)]
pub struct Records {
    // By handle, its key.
    keys: HashMap<u64, usize>,
    slab: Slab<One>,
    // For how many more handles memory is reserved.
    reserved: usize,
    // Keys that were found or given, each at the remainder of its handle: a call that names the handle again finds it without a hash. No
    // contract sees them.
    near: [usize; NEAR],
    alloc: Global,
}

impl Model for Records {
    ghost use Rattle.std.specs.Coded.{codes};
    ghost use Rattle.ready_driver.specs.Records.{Holdings, holdings_code, holdings_of, IsPaired};

    ghost Value = { Holdings };

    ghost coded = { holdings_code (Prim.hlevel codes) };

    ghost view = { λ r. holdings_of r.keys.entries r.slab r.reserved };

    ghost invariant = { λ r. IsPaired r.keys r.slab r.reserved };
}

// Where the key of a handle is kept.
fn place(h: u64) -> usize
    ensures { result < NEAR }
{
    (h % NEAR as u64) as usize
}

// The key of a handle: that which is kept for it, where the handle there is this one, and else by a hash.
fn key_in(
    keys: &HashMap<u64, usize>,
    slab: &Slab<One>,
    near: &[usize; NEAR],
    h: u64,
) -> Option<usize>
    requires { (key : ℕ) (one : One) → slot_at slab.now key ≡ Some one → get_by (nat_eq one.number) keys.now ≡ Some key }
    ensures value { result ≡ get_by (nat_eq h) keys.now }
{
    let key = near[place(h)];
    match slab.get(key) {
        Some(one) if one.number == h => Some(key),
        _ => keys.get(&h).copied(),
    }
}

impl Records {
    /// No handle, and no reserved memory. It takes none.
    pub fn new(alloc: Global) -> Records
        ensures { result ≡ record {
          table = record { holders = map.empty; spare = 0 };
          records = record { handles = map.empty; names = map.empty; spare = 0 };
        } }
    {
        Records {
            keys: HashMap::new(alloc),
            slab: Slab::new(alloc),
            reserved: 0,
            near: [0; NEAR],
            alloc,
        }
    }

    /// A handle is that of a key exactly if its record has the key. It does nothing: it is for proofs. (not in monoio)
    pub fn named(&self)
        ensures { AreNamed self.now.records }
    {
        let _keys = &self.keys;
    }

    /// Reserves memory for at least `n` more handles. Only `add_reserved` uses it up. If memory runs out, nothing changes.
    pub fn reserve(&mut self, n: usize) -> Result<(), OutOfMemory>
        ensures ok { OnOk result (self.new ≡ with_room self.old (max n self.old.records.spare)) }
        ensures err { OnErr result (self.new ≡ self.old) }
    {
        if n <= self.reserved {
            return Ok(());
        }
        if self.slab.reserve(n).is_err() {
            return Err(OutOfMemory);
        }
        if self.keys.reserve(n).is_err() {
            return Err(OutOfMemory);
        }
        self.reserved = n;
        Ok(())
    }

    /// The user holds a handle that nobody held, once. It has no bits, nothing waits for it, and it isn't registered. It gets a key that no
    /// other handle has, which is the answer. It uses up one place of the reserved memory, and takes none. (not in monoio)
    pub fn add_reserved(&mut self, h: u64) -> usize
        requires fresh { map.get self.old.table.holders h ≡ None }
        requires room { 0 < self.old.records.spare }
        ensures key { named_at self.old.records result ≡ None }
        ensures rest { self.new ≡ with_room (with_one self.old h result) (self.old.records.spare - 1) }
    {
        let key = self.slab.vacant_key();
        let one = One {
            number: h,
            held: Holders {
                user: 1,
                operations: 0,
            },
            kept: Record {
                registered: false,
                key,
                io: ScheduledIo::new(self.alloc),
            },
        };
        self.slab.insert_reserved(one);
        let _ = self.keys.insert(h, key);
        self.near[place(h)] = key;
        self.reserved -= 1;
        key
    }

    /// A handle is registered.
    pub fn registered(&self, h: u64) -> bool
        ensures { result ≡ is_registered self.now.records h }
    {
        match self.find(h) {
            Some(one) => one.kept.registered,
            None => false,
        }
    }

    /// The key of a handle that has a record and isn't registered, if that is so. (not in monoio)
    pub fn unregistered(&self, h: u64) -> Option<usize>
        ensures { result ≡ unregistered_at self.now.records h }
    {
        match self.find(h) {
            Some(one) => {
                if one.kept.registered {
                    None
                } else {
                    Some(one.kept.key)
                }
            }
            None => None,
        }
    }

    /// The handle of a key is registered from now on.
    pub fn set_registered(&mut self, key: usize)
        ensures { self.new ≡ record self.old { records = changed_named self.old.records key (with_registered true) } }
    {
        let Some(one) = self.slab.get_mut(key) else {
            return;
        };
        one.kept.registered = true;
    }

    /// The bits of a handle.
    pub fn readiness(&self, h: u64) -> Ready
        ensures { result ≡ (io_at self.now.records h).ready }
    {
        match self.find(h) {
            Some(one) => one.kept.io.readiness(),
            None => Ready::EMPTY,
        }
    }

    /// How many operations wait for the handle of a key. (not in monoio)
    pub fn waiting(&self, key: usize) -> usize
        ensures { result ≡ length (io_named self.now.records key).waiting }
    {
        match self.slab.get(key) {
            Some(one) => one.kept.io.waiting(),
            None => 0,
        }
    }

    /// An operation waits for a handle no longer: answers the task that waited, or None exactly if it didn't wait.
    pub fn forget(&mut self, h: u64, serial: u64) -> Option<u64>
        ensures task { result ≡ option_map (λ w. w.task) (waiter_of (io_at self.old.records h).waiting serial) }
        ensures rest { self.new ≡ record self.old {
          records =
              changed self.old.records h (with_io (λ io. record io { waiting = forgotten io.waiting serial }));
        } }
    {
        let Some(key) = key_in(&self.keys, &self.slab, &self.near, h) else {
            return None;
        };
        let Some(one) = self.slab.get_mut(key) else {
            unreachable!();
        };
        one.kept.io.forget(serial)
    }

    /// Treats a report of the handle of a key: its bits are added, and what waits in a direction that they meet is taken, and its tasks are
    /// the answer, in order. It takes no memory.
    pub fn report(&mut self, key: usize, ready: Ready) -> NumList
        ensures tasks { result ≡ tasks_of (taken ready (io_named self.old.records key).waiting) }
        ensures rest { self.new ≡ record self.old {
          records = changed_named self.old.records key
              (with_io (λ io. record { ready = bit_or io.ready ready; waiting = left ready io.waiting }));
        } }
    {
        let Some(one) = self.slab.get_mut(key) else {
            return NumList::new(self.alloc);
        };
        one.kept.io.set_readiness(ready);
        one.kept.io.wake(ready)
    }

    /// Treats a report of the handle of a key as `report` does, and adds the tasks to a list that has room for all that wait for the
    /// handle. It takes no memory, and makes no hash.
    pub fn report_into(&mut self, key: usize, ready: Ready, woken: &mut Vec<u64>)
        requires { vec_len woken.old + length (io_named self.old.records key).waiting ≤ vec_capacity woken.old }
        ensures tasks { woken.new.items ≡ woken.old.items ++ tasks_of (taken ready (io_named self.old.records key).waiting) }
        ensures rest { self.new ≡ record self.old {
          records = changed_named self.old.records key
              (with_io (λ io. record { ready = bit_or io.ready ready; waiting = left ready io.waiting }));
        } }
        ensures capacity { vec_capacity woken.new ≡ vec_capacity woken.old }
    {
        let Some(one) = self.slab.get_mut(key) else {
            return;
        };
        one.kept.io.set_readiness(ready);
        one.kept.io.wake_into(ready, woken);
    }
}
