// All groups, and what names one of them.
ghost use Rattle.std.specs.Prelude.{◌≡◌, ◌<◌, [], ◌∷◌, ◌++◌, false, length, slice_set, IsTrue, IfOk, IfErr, OnOk, OnErr};
ghost use Rattle.std.specs.List.Sorted.{IsStrictlyIncreasing};
ghost use Rattle.cancel_core.specs.Group.{fresh, canceled, group_at, with_members, joined, without};

use crate::group::Group;
use rent_buf::{NumList, OutOfMemory};
use std::alloc::Global;
use std::marker::Model;

/// The right to cancel a group (monoio: `Canceller`). It is moved, so a group that isn't canceled has one. A clause
/// sees it as the group's number.
#[derive(Debug, Drop)]
pub struct Canceller {
    group: u64,
}

impl Model for Canceller {
    ghost use Rattle.std.specs.Prelude.{ℕ};

    ghost Value = { ℕ };

    ghost view = { λ c. c.group };
}

impl Canceller {
    /// The number of its group, which counts the groups made from 0 (not in monoio).
    pub fn group(&self) -> u64
        ensures { result ≡ self.now }
    {
        self.group
    }
}

/// What names a group, to put operations under it (monoio: `CancelHandle`). It can be copied. A clause sees it as
/// the group's number.
#[derive(Clone, Copy, Debug, PartialEq, Eq)]
pub struct CancelHandle {
    group: u64,
}

impl Model for CancelHandle {
    ghost use Rattle.std.specs.Prelude.{ℕ};

    ghost Value = { ℕ };

    ghost view = { λ g. g.group };

    ghost inverse = { λ n. record { group = n } };
}

impl CancelHandle {
    /// The number of its group, which counts the groups made from 0 (not in monoio).
    pub fn group(&self) -> u64
        ensures { result ≡ self.now }
    {
        self.group
    }
}

/// The groups that were made, each by its number (monoio: the states that its cancellers and handles share). A
/// clause sees a list of groups, each its members, ascending, and a mark.
///
/// A join, a leave and a test cost the same however many groups there are, and grow with the logarithm of the
/// members of that group alone. A cancel costs as much as the group has members.
#[derive(Debug, Drop)]
pub struct Groups {
    groups: Vec<Group>,
}

impl Model for Groups {
    ghost use Rattle.std.specs.Prelude.{List};
    ghost use Rattle.cancel_core.specs.Group.{Group as GroupView};

    ghost Value = { List GroupView };

    ghost view = { λ g. g.groups.items };
}

impl Groups {
    /// No groups. It takes no memory before the first one.
    pub fn new(alloc: Global) -> Groups
        ensures { result ≡ [] }
    {
        Groups {
            groups: Vec::new(alloc),
        }
    }

    /// How many groups were made.
    pub fn count(&self) -> u64
        ensures { result ≡ length self.now }
    {
        self.groups.len() as u64
    }

    /// How many members a canceller's group has.
    pub fn size(&self, c: &Canceller) -> usize
        requires { c.now < length self.now }
        ensures { result ≡ length (group_at self.now c.now).members }
    {
        self.groups[c.group as usize].size()
    }

    /// Makes a group with no members, that isn't canceled, and answers its canceller (monoio: `Canceller::new`). If
    /// memory runs out, the groups are as they were.
    pub fn new_canceller(&mut self) -> Result<Canceller, OutOfMemory>
        ensures number { IfOk result (λ c. c ≡ length self.old) }
        ensures made { OnOk result (self.new ≡ self.old ++ fresh ∷ []) }
        ensures err { OnErr result (self.new ≡ self.old) }
    {
        let group = self.count();
        let made = Group::new(*self.groups.allocator());
        self.groups.push(made)?;
        Ok(Canceller { group })
    }

    /// A handle of a canceller's group (monoio: `Canceller::handle`).
    pub fn handle(&self, c: &Canceller) -> CancelHandle
        requires { c.now < length self.now }
        ensures { result ≡ c.now }
    {
        CancelHandle { group: c.group }
    }

    /// Whether a group is canceled (monoio: `CancelHandle::canceled`). No call takes that back, and such a group has
    /// no members.
    pub fn canceled(&self, g: CancelHandle) -> bool
        requires { g < length self.now }
        ensures mark { result ≡ (group_at self.now g).canceled }
        ensures empty { IsTrue result → (group_at self.now g).members ≡ [] }
    {
        self.groups[g.group as usize].is_canceled()
    }

    /// The operation of a number becomes a member of a group that isn't canceled, if it wasn't one (monoio:
    /// `CancelHandle::associate_op`). If memory runs out, the groups are as they were.
    pub fn associate(&mut self, g: CancelHandle, serial: u64) -> Result<(), OutOfMemory>
        requires known { g < length self.old }
        requires open { (group_at self.old g).canceled ≡ false }
        ensures ok { OnOk result (self.new ≡ with_members self.old g (joined (group_at self.old g).members serial)) }
        ensures err { OnErr result (self.new ≡ self.old) }
    {
        let group = &mut self.groups[g.group as usize];
        group.join(serial)
    }

    /// The operation of a number is no member of a group from now on, whether it was one or not (monoio: the drop of
    /// an `AssociateGuard`). It takes no memory.
    pub fn leave(&mut self, g: CancelHandle, serial: u64)
        requires { g < length self.old }
        ensures { self.new ≡ with_members self.old g (without (group_at self.old g).members serial) }
    {
        let group = &mut self.groups[g.group as usize];
        group.leave(serial);
    }

    /// Cancels a group (monoio: `Canceller::cancel`): it is marked for good, its members, ascending, are the answer,
    /// and it has none from now on. The canceller that comes back is of a fresh group, as by `new_canceller`. If
    /// memory runs out, the groups are as they were, and the same canceller comes back.
    pub fn cancel(&mut self, c: Canceller) -> Result<(Canceller, NumList), (OutOfMemory, Canceller)>
        requires { c < length self.old }
        ensures members { IfOk result (λ canceling. canceling.1 ≡ (group_at self.old c).members) }
        ensures ascending { IfOk result (λ canceling. IsStrictlyIncreasing canceling.1) }
        ensures number { IfOk result (λ canceling. canceling.0 ≡ length self.old) }
        ensures marked { OnOk result (self.new ≡ slice_set self.old c canceled ++ fresh ∷ []) }

        ensures back { IfErr result (λ refused. refused.1 ≡ c) }
        ensures err { OnErr result (self.new ≡ self.old) }
    {
        let at = c.group as usize;
        let Ok(members) = self.groups[at].list(*self.groups.allocator()) else {
            return Err((OutOfMemory, c));
        };
        let Ok(next) = self.new_canceller() else {
            return Err((OutOfMemory, c));
        };
        let group = &mut self.groups[at];
        group.cancel();
        Ok((next, members))
    }
}

#[cfg(test)]
mod tests;
