//! The cancel groups of a driver, whose members are operations in slots.
ghost use Rattle.std.specs.Prelude.{◌≡◌, ◌<◌, [], None, false, length, IsTrue, IfOk, IfErr, IfSome, OnOk, OnErr};
ghost use Rattle.std.specs.FinMap as map;
ghost use Rattle.std.specs.List.Sorted.{IsStrictlyIncreasing};
ghost use Rattle.cancel_core.specs.Group.{group_at};
ghost use Rattle.driver_core.specs.Groups.{is_under_canceled, joins_if};
ghost use Rattle.driver_core.specs.Members.{none, with_fresh, joins, moves, leaves, cancels, key_at, HaveKeys, IsUnderNone, ArePlaced};

mod places;

use cancel_core::Groups;
pub use cancel_core::{CancelHandle, Canceller};
pub use places::Place;
use places::Places;
use rent_buf::{NumList, OutOfMemory};
use std::alloc::Global;
use std::marker::Model;

/// The cancel groups of a driver, and where each operation under one is. (not in monoio, whose groups are sets of slab keys, and whose
/// guard of a member holds its group)
///
/// A clause sees the groups, and the place of each operation that joined one and hasn't left it: the key of its slot, and the number of
/// its group. Each member of a group has a place with that group. Each place is with a group that was made, of which its operation is a
/// member unless that group is canceled (`ArePlaced`).
///
/// A join, a leave and a look for a key grow with the logarithm of how many operations are under groups, and with no other operations. A
/// cancel costs as much as its group has members. Each other call costs the same however much there is; a new group, on average.
#[derive(Drop)]
pub struct Members {
    groups: Groups,
    // The place of each operation that joined a group and hasn't left it, by its number.
    places: Places,
}

impl Model for Members {
    ghost use Rattle.driver_core.specs.Members.{Membership, membership_code, ArePlaced};

    ghost Value = { Membership };

    ghost coded = { membership_code };

    ghost view = { λ m. record { groups = m.groups; places = m.places } };

    ghost invariant = { λ m. ArePlaced (record { groups = m.groups; places = m.places }) };
}

impl Members {
    /// No groups, and no operations. It takes no memory.
    pub fn new(alloc: Global) -> Members
        ensures { result ≡ none }
    {
        Members {
            groups: Groups::new(alloc),
            places: Places::new(alloc),
        }
    }

    /// How many groups were made.
    pub fn count(&self) -> u64
        ensures { result ≡ length self.now.groups }
    {
        self.groups.count()
    }

    /// How many members a canceller's group has.
    pub fn size(&self, c: &Canceller) -> usize
        requires { c.now < length self.now.groups }
        ensures { result ≡ length (group_at self.now.groups c.now).members }
    {
        self.groups.size(c)
    }

    /// The key of the slot of an operation that joined a group and hasn't left it. There is one for each member of a group.
    pub fn key_of(&self, number: u64) -> Option<usize>
        ensures key { result ≡ key_at self.now number }
        ensures placed { ArePlaced self.now }
    {
        self.places.find(number).map(|place| place.key)
    }

    /// Makes a group with no members, that isn't canceled, and answers its canceller (monoio: `Canceller::new`). If memory runs out,
    /// nothing changed.
    pub fn new_canceller(&mut self) -> Result<Canceller, OutOfMemory>
        ensures number { IfOk result (λ c. c ≡ length self.old.groups) }
        ensures made { OnOk result (self.new ≡ with_fresh self.old) }
        ensures err { OnErr result (self.new ≡ self.old) }
    {
        self.groups.new_canceller()
    }

    /// A handle of a canceller's group (monoio: `Canceller::handle`).
    pub fn handle(&self, c: &Canceller) -> CancelHandle
        requires { c.now < length self.now.groups }
        ensures { result ≡ c.now }
    {
        self.groups.handle(c)
    }

    /// Whether a group is canceled (monoio: `CancelHandle::canceled`). No call takes that back, and such a group has no members.
    pub fn canceled(&self, g: CancelHandle) -> bool
        requires { g < length self.now.groups }
        ensures mark { result ≡ (group_at self.now.groups g).canceled }
        ensures empty { IsTrue result → (group_at self.now.groups g).members ≡ [] }
    {
        self.groups.canceled(g)
    }

    /// Whether the group that a request is submitted under is canceled; none is not. (not in monoio)
    pub fn is_under_canceled(&self, under: &Option<CancelHandle>) -> bool
        requires { IfSome under.now (λ g. g < length self.now.groups) }
        ensures { result ≡ is_under_canceled self.now under.now }
    {
        match under {
            None => false,
            Some(g) => self.canceled(*g),
        }
    }

    /// The operation of a number, whose slot is at a key, becomes a member of a group that isn't canceled (monoio:
    /// `CancelHandle::associate_op`). It is under no group yet: `key_of` answers None. If memory runs out, nothing changed.
    pub fn join(&mut self, g: CancelHandle, number: u64, key: usize) -> Result<(), OutOfMemory>
        requires known { g < length self.old.groups }
        requires open { (group_at self.old.groups g).canceled ≡ false }
        requires apart { key_at self.old number ≡ None }
        ensures placed { ArePlaced self.old }
        ensures ok { OnOk result (self.new ≡ joins self.old g number key) }
        ensures err { OnErr result (self.new ≡ self.old) }
    {
        self.places.put(number, Place { key, group: g })?;
        match self.groups.associate(g, number) {
            Ok(()) => Ok(()),
            Err(error) => {
                self.places.take(number);
                Err(error)
            }
        }
    }

    /// The operation of a number, that is under no group, joins a group that isn't canceled, if it is submitted under one. The key of its
    /// slot isn't known yet: it is 0. Once it leaves again all is as it was. If memory runs out, nothing changed. (not in monoio)
    pub fn enroll(&mut self, under: Option<CancelHandle>, number: u64) -> Result<(), OutOfMemory>
        requires known { IfSome under (λ g. g < length self.old.groups) }
        requires open { is_under_canceled self.old under ≡ false }
        requires apart { map.get self.old.places number ≡ None }
        ensures ok { OnOk result (self.new ≡ joins_if self.old under number 0) }
        ensures again { OnOk result (leaves self.new number ≡ self.old) }
        ensures err { OnErr result (self.new ≡ self.old) }
    {
        match under {
            None => Ok(()),
            Some(g) => self.join(g, number, 0),
        }
    }

    /// The slot of the operation of a number is at another key, if it is under a group. It takes no memory. (not in monoio)
    pub fn set_key(&mut self, number: u64, key: usize)
        ensures { self.new ≡ moves self.old number key }
    {
        self.places.set_key(number, key);
    }

    /// The operation of a number is under no group from now on, whether it was under one or not (monoio: the drop of an
    /// `AssociateGuard`). It takes no memory.
    pub fn leave(&mut self, number: u64)
        ensures placed { ArePlaced self.old }
        ensures left { self.new ≡ leaves self.old number }
        ensures apart { IsUnderNone self.new number }
    {
        if let Some(place) = self.places.take(number) {
            self.groups.leave(place.group, number);
        }
    }

    /// Cancels a group (monoio: `Canceller::cancel`): it is marked for good, its members, ascending, are the answer, and it has none from
    /// now on. Their places stay until each of them leaves. The canceller that comes back is of a fresh group, as by `new_canceller`. If
    /// memory runs out, nothing changed, and the same canceller comes back.
    pub fn cancel(&mut self, c: Canceller) -> Result<(Canceller, NumList), (OutOfMemory, Canceller)>
        requires { c < length self.old.groups }
        ensures members { IfOk result (λ canceling. canceling.1 ≡ (group_at self.old.groups c).members) }
        ensures ascending { IfOk result (λ canceling. IsStrictlyIncreasing canceling.1) }
        ensures keys { IfOk result (λ canceling. HaveKeys self.new canceling.1) }
        ensures number { IfOk result (λ canceling. canceling.0 ≡ length self.old.groups) }
        ensures marked { OnOk result (self.new ≡ cancels self.old c) }

        ensures back { IfErr result (λ refused. refused.1 ≡ c) }
        ensures err { OnErr result (self.new ≡ self.old) }
    {
        self.groups.cancel(c)
    }
}
