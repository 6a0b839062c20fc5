// Where operations are, in a map sorted by their numbers.
ghost use Rattle.std.specs.Prelude.{◌≡◌, OnOk, OnErr};
ghost use Rattle.std.specs.FinMap as map;
ghost use Rattle.driver_core.specs.Members.{keyed};

use cancel_core::CancelHandle;
use rent_buf::OutOfMemory;
use std::alloc::Global;
use std::collections::BTreeMap;
use std::marker::Model;

/// Where an operation under a cancel group is. (monoio: what an `AssociateGuard` holds)
#[derive(Clone, Copy)]
pub struct Place {
    /// The key of its slot.
    pub key: usize,
    /// The group that it joined.
    pub group: CancelHandle,
}

// The places of operations, each by its operation's number.
#[derive(Drop)]
pub(crate) struct Places {
    tree: BTreeMap<u64, Place>,
}

impl Model for Places {
    ghost use Rattle.std.specs.Ordering.{nat_cmp};
    ghost use Rattle.std.specs.FinMap as map;
    ghost use Rattle.driver_core.specs.declared.members.places.Place.{Place};
    ghost use Rattle.driver_core.specs.Members.{places_code};

    ghost Value = { map.FinMap nat_cmp Place };

    ghost coded = { places_code };

    ghost view = { λ p. map.from_entries p.tree.entries };
}

impl Places {
    // No places. It takes no memory.
    pub(crate) fn new(alloc: Global) -> Places
        ensures { result ≡ map.empty }
    {
        Places {
            tree: BTreeMap::new(alloc),
        }
    }

    // The place at a number.
    #[tactic(auto, using(crate::proofs::Trees::tree_get))]
    pub(crate) fn find(&self, number: u64) -> Option<Place>
        ensures { result ≡ map.get self.now number }
    {
        self.tree.get(&number).copied()
    }

    // Puts a place at a number.
    #[tactic(auto, using(crate::proofs::Trees::tree_put))]
    pub(crate) fn put(&mut self, number: u64, place: Place) -> Result<(), OutOfMemory>
        ensures ok { OnOk result (self.new ≡ map.insert self.old number place) }
        ensures err { OnErr result (self.new ≡ self.old) }
    {
        self.tree.insert(number, place)?;
        Ok(())
    }

    // Gives the place at a number another key, if there is one. It takes no memory.
    #[tactic(auto, using(crate::proofs::Trees::tree_get, crate::proofs::Trees::tree_written))]
    pub(crate) fn set_key(&mut self, number: u64, key: usize)
        ensures { self.new ≡ keyed self.old number key }
    {
        if let Some(place) = self.tree.get_mut(&number) {
            place.key = key;
        }
    }

    // Takes out the place at a number. It takes no memory.
    #[tactic(auto, using(crate::proofs::Trees::tree_get, crate::proofs::Trees::tree_removed))]
    pub(crate) fn take(&mut self, number: u64) -> Option<Place>
        ensures place { result ≡ map.get self.old number }
        ensures rest { self.new ≡ map.remove self.old number }
    {
        self.tree.remove(&number)
    }
}
