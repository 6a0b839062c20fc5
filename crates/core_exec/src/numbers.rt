// The numbers of the unfinished tasks, in order.
ghost use Rattle.std.specs.Prelude.{◌≡◌, ◌≢◌, ◌≤◌, ℕ, IfNone, IfSome, OnErr, OnOk, true, false};
ghost use Rattle.core_exec.specs.Numbers.{is_in};

use rent_buf::OutOfMemory;
use std::alloc::Global;
use std::collections::BTreeSet;

// Numbers, in order.
#[derive(Drop)]
pub(crate) struct Numbers {
    pub(crate) set: BTreeSet<u64>,
}

impl Numbers {
    // No numbers. It takes no memory.
    pub(crate) fn new(alloc: Global) -> Numbers
        ensures { (s : ℕ) → is_in result s ≡ false }
    {
        Numbers {
            set: BTreeSet::new(alloc),
        }
    }

    // Adds a number.
    pub(crate) fn add(&mut self, t: u64) -> Result<(), OutOfMemory>
        ensures this { OnOk result (is_in self.new t ≡ true) }
        ensures rest { (s : ℕ) → s ≢ t → is_in self.new s ≡ is_in self.old s }
        ensures err { OnErr result ((s : ℕ) → is_in self.new s ≡ is_in self.old s) }
    {
        match self.set.insert(t) {
            Ok(_) => Ok(()),
            Err(_) => Err(OutOfMemory),
        }
    }

    // Drops a number. It takes no memory.
    pub(crate) fn drop_of(&mut self, t: u64)
        ensures this { is_in self.new t ≡ false }
        ensures rest { (s : ℕ) → s ≢ t → is_in self.new s ≡ is_in self.old s }
    {
        let _ = self.set.remove(&t);
    }

    // The lowest number.
    pub(crate) fn first(&self) -> Option<u64>
        ensures some { IfSome result (λ t. (is_in self.now t ≡ true) × ((s : ℕ) → is_in self.now s ≡ true → t ≤ s)) }
        ensures none { IfNone result ((s : ℕ) → is_in self.now s ≡ false) }
    {
        match self.set.first() {
            Some(t) => Some(*t),
            None => None,
        }
    }
}
