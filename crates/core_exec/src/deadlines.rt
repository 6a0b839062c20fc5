// The deadlines that are to come, in order.
ghost use Rattle.std.specs.Prelude.{◌≡◌, ◌≢◌, ◌<◌, ◌+◌, ℕ, OnOk, IfNone, IfSome, true};
ghost use Rattle.std.specs.BTreeSet.{btree_set_len};
ghost use Rattle.core_exec.specs.Deadlines.{is_set, KeepsSet, LeavesSet};

use rent_buf::OutOfMemory;
use std::alloc::Global;
use std::collections::BTreeSet;

// Deadlines, each with its task.
#[derive(Drop)]
pub(crate) struct Deadlines {
    pub(crate) set: BTreeSet<(u64, u64)>,
}

impl Deadlines {
    // No deadlines. It takes no memory.
    pub(crate) fn new(alloc: Global) -> Deadlines {
        Deadlines {
            set: BTreeSet::new(alloc),
        }
    }

    // Sets a task's deadline.
    pub(crate) fn add(&mut self, at: u64, t: u64) -> Result<(), OutOfMemory>
        ensures ok { OnOk result (is_set self.new at t ≡ true) }
        ensures kept { KeepsSet self.old self.new }
    {
        match self.set.insert((at, t)) {
            Ok(_) => Ok(()),
            Err(_) => Err(OutOfMemory),
        }
    }

    // Drops a task's deadline. It takes no memory.
    pub(crate) fn drop_of(&mut self, at: u64, t: u64)
        ensures rest { (d : ℕ) → d ≢ at → is_set self.old d t ≡ true → is_set self.new d t ≡ true }
        ensures others { (d s : ℕ) → s ≢ t → is_set self.old d s ≡ true → is_set self.new d s ≡ true }
    {
        let _ = self.set.remove(&(at, t));
    }

    // Takes out the first deadline that has come at a moment: its task. None if no deadline has come.
    pub(crate) fn pop(&mut self, now: u64) -> Option<u64>
        ensures some { IfSome result (λ t. LeavesSet now t self.old self.new) }
        ensures none { IfNone result ((d s : ℕ) → is_set self.new d s ≡ true → now < d) }
        ensures kept { IfNone result (KeepsSet self.old self.new) }
        ensures len { IfSome result (λ _. btree_set_len self.new.set + 1 ≡ btree_set_len self.old.set) }
    {
        let first = match self.set.first() {
            Some(pair) => *pair,
            None => return None,
        };
        if first.0 > now {
            return None;
        }
        match self.set.pop_first() {
            Some((_, t)) => Some(t),
            None => None,
        }
    }
}
