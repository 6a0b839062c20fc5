// One group: its members, in a sorted set, and its mark.
ghost use Rattle.std.specs.Prelude.{◌≡◌, [], true, false, length, IsTrue, IfOk, OnOk, OnErr};
ghost use Rattle.std.specs.List.Sorted.{IsStrictlyIncreasing};
ghost use Rattle.cancel_core.specs.Group.{joined, without};

use rent_buf::{NumList, OutOfMemory};
use std::alloc::Global;
use std::collections::BTreeSet;
use std::marker::Model;

/// A group of operations.
#[derive(Debug, Drop)]
pub(crate) struct Group {
    members: BTreeSet<u64>,
    canceled: bool,
}

impl Model for Group {
    ghost use Rattle.std.specs.Prelude.{◌≡◌, [], IsTrue};
    ghost use Rattle.cancel_core.specs.Group.{Group as GroupView};

    ghost Value = { GroupView };

    ghost view = { λ g. record { members = g.members.keys; canceled = g.canceled } };

    ghost invariant = { λ g. IsTrue g.canceled → g.members.keys ≡ [] };
}

impl Group {
    /// A group with no members, that isn't canceled. It takes no memory.
    pub(crate) fn new(alloc: Global) -> Group
        ensures { result ≡ record { members = []; canceled = false } }
    {
        Group {
            members: BTreeSet::new(alloc),
            canceled: false,
        }
    }

    /// How many members there are.
    pub(crate) fn size(&self) -> usize
        ensures { result ≡ length self.now.members }
    {
        self.members.len()
    }

    /// Whether it is canceled. Then it has no members.
    pub(crate) fn is_canceled(&self) -> bool
        ensures mark { result ≡ self.now.canceled }
        ensures empty { IsTrue result → self.now.members ≡ [] }
    {
        self.canceled
    }

    /// An operation becomes a member, if it wasn't one.
    pub(crate) fn join(&mut self, serial: u64) -> Result<(), OutOfMemory>
        requires { self.old.canceled ≡ false }
        ensures ok { OnOk result (self.new ≡ record self.old { members = joined self.old.members serial }) }
        ensures err { OnErr result (self.new ≡ self.old) }
    {
        self.members.insert(serial)?;
        Ok(())
    }

    /// An operation is no member from now on.
    #[tactic(auto, using(crate::proofs::Sorted::removed_from_sorted))]
    pub(crate) fn leave(&mut self, serial: u64)
        ensures { self.new ≡ record self.old { members = without self.old.members serial } }
    {
        let _ = self.members.len();
        self.members.remove(&serial);
    }

    /// The members, ascending.
    pub(crate) fn list(&self, alloc: Global) -> Result<NumList, OutOfMemory>
        ensures ok { IfOk result (λ list. list ≡ self.now.members) }
        ensures ascending { IsStrictlyIncreasing self.now.members }
    {
        let items = self.members.iter().copied().collect(alloc)?;
        Ok(NumList::from_vec(items))
    }

    /// The group is canceled, and has no members.
    pub(crate) fn cancel(&mut self)
        ensures { self.new ≡ record { members = []; canceled = true } }
    {
        self.members.clear();
        self.canceled = true;
    }
}
