//! A live slot of a slab, lent.
ghost use Rattle.std.specs.Prelude.{◌≡◌, ◌+◌, ◌%◌, Some};
ghost use Rattle.std.specs.FinMap as map;
ghost use Rattle.op_slots.specs.Slots.{IsLive, GivesBackPage};

use super::{COMPACT_INTERVAL, Slab};

/// A live slot of a slab, which is lent until this goes (monoio: `Ref`). A clause sees the slab's slots (`slots_lent`) and the key
/// (`key_lent`).
#[derive(Drop)]
pub struct Ref<'a, T> {
    pub(super) slab: &'a mut Slab<T>,
    pub(super) key: usize,
    ghost live: { IsLive slab.now key },
}

impl<'a, T: Drop> Ref<'a, T> {
    ghost use Rattle.std.specs.Borrow.{sem};
    ghost use Rattle.op_slots.specs.Ref.{slots_lent, key_lent, LendsSlotValue};

    /// The slot's value (monoio: `Ref::as_ref`).
    pub fn as_ref(&self) -> &T
        ensures { map.get (slots_lent self.now).values (key_lent self.now) ≡ Some result.now }
    {
        self.slab.value(self.key)
    }

    /// The slot's value, to be changed (monoio: `Ref::as_mut`). All else in the slab stays, its room too.
    pub fn as_mut(&mut self) -> &mut T
        ensures* writes_back { sem 𝓛 (LendsSlotValue T.row self.entry result) }
        ensures value { map.get (slots_lent self.old).values (key_lent self.old) ≡ Some result.now }
    {
        let key = self.key;
        self.slab.value_mut(key)
    }

    /// Takes the value out, so that the key is no longer live (monoio: `Ref::remove`). It is counted as a removal (`Slab::remove`).
    pub fn remove(self) -> T
        ensures value { map.get (slots_lent self.entry).values (key_lent self.entry) ≡ Some result }
        ensures new { self.exit.0.now.values ≡ map.remove (slots_lent self.entry).values (key_lent self.entry) }

        ensures counted { self.exit.0.now.removals ≡ ((slots_lent self.entry).removals + 1) % COMPACT_INTERVAL }
        ensures given { GivesBackPage (slots_lent self.entry) self.exit.0.now → self.exit.0.now.pages + 1 ≡ (slots_lent self.entry).pages }
        ensures kept { ¬ GivesBackPage (slots_lent self.entry) self.exit.0.now → self.exit.0.now.pages ≡ (slots_lent self.entry).pages }
    {
        let key = self.key;
        self.slab.remove(key).unwrap()
    }
}
