//! How the number of a buffer's bytes follows a store.
ghost use Rattle.std.specs.Prelude.{◌↔◌, IsTrue};
ghost use Rattle.rent_buf.specs.Buffer.{IsFull};

/// How the number of a buffer's bytes follows a store (not in monoio, where each buffer type has its
/// own way).
#[derive(Clone, Copy, Debug, PartialEq, Eq)]
pub enum Kind {
    /// A vector with a stated total, `Rent`: after a store the stored bytes are its last.
    Vector,
    /// A vector with a stated total, `Grow`: after a store the longer tail is kept.
    Grown,
    /// Bytes of a fixed number, which is the total: `FixedVec`, a boxed slice or a boxed array.
    Fixed,
}

impl Kind {
    // Whether a buffer of this kind and total may have these bytes.
    pub(crate) fn allows(self, bytes: &[u8], total: usize) -> bool
        ensures { IsTrue result ↔ IsFull self bytes.now total }
    {
        match self {
            Kind::Vector => true,
            Kind::Grown => true,
            Kind::Fixed => bytes.len() == total,
        }
    }
}
