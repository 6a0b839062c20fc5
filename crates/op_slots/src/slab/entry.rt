//! A place of a slab that was used, and the lists of the places that are empty again.
ghost use Rattle.std.specs.Prelude.{◌≡◌, IsSome, Some};
ghost use Rattle.std.specs.Borrow.{Lends, sem};
ghost use Rattle.op_slots.specs.Entry.{value_of};

/// The empty places of a page that were used: the key of the one that was emptied last, and how many there are. With none of them the
/// key says nothing.
#[derive(Clone, Copy, Debug)]
pub struct FreeList {
    pub place: u32,
    pub count: u32,
}

/// A place that was used: with its value, or empty, with the list of those of its page that were emptied before it.
#[derive(Debug, Drop)]
pub enum Entry<T> {
    Vacant(FreeList),
    Occupied(T),
}

impl<T> Entry<T> {
    ghost use Rattle.op_slots.specs.contracts.slab.entry.Entry.{the_row};

    /// The value of an entry that has one, to be changed.
    pub fn value_mut(&mut self) -> &mut T
        requires { IsSome (value_of self.old) }
        ensures* lends { sem 𝓛 (Lends (the_row T.row) T.row self.entry result Entry.Occupied) }
        ensures value { value_of self.old ≡ Some result.now }
    {
        match self {
            Entry::Occupied(value) => value,
            Entry::Vacant(_) => unreachable!(),
        }
    }
}
