//! A vector with a stated total.
ghost use Rattle.std.specs.Prelude.{◌≡◌, ◌≤◌, ◌↔◌, [], length, refl, IfOk, IfErr, IsTrue};
ghost use Rattle.std.proofs.Common.{ap, sym, zero-add};
ghost use Rattle.rent_buf.specs.Buffer.{overwritten};
ghost use Rattle.rent_buf.specs.Rent.{buffer_of_rent, with_bytes_of_rent};

use crate::fault::OutOfMemory;
use crate::io_buf::{IoBuf, IoBufMut, LendBytes};
use std::alloc::Global;
use std::marker::Model;
use std::ops::DerefSlice;

/// A vector with a stated total (monoio: `Vec<u8>`, whose total is its capacity). The total is
/// reserved when it is made, so a store takes no memory.
#[derive(Debug, Drop)]
pub struct Rent {
    items: Vec<u8>,
    total: usize,
}

impl Model for Rent {
    ghost use Rattle.std.specs.Prelude.{◌≤◌, vec_len, vec_capacity};
    ghost use Rattle.rent_buf.specs.Rent.{Rented};

    ghost Value = { Rented };

    ghost view = { λ r. record { bytes = r.items.items; total = r.total } };

    ghost invariant = { λ r. (vec_len r.items ≤ r.total) × (r.total ≤ vec_capacity r.items) };
}

impl Rent {
    /// No bytes, with room for `total` (not in monoio), or `OutOfMemory`.
    pub fn with_total(alloc: Global, total: usize) -> Result<Rent, OutOfMemory>
        ensures { IfOk result (λ r. r ≡ record { bytes = []; total = total }) }
    {
        let items = Vec::with_capacity(alloc, total)?;
        Ok(Rent { items, total })
    }

    /// The bytes of a vector, with room for `total` (not in monoio). If memory runs out, the same
    /// vector comes back.
    pub fn from_vec(v: Vec<u8>, total: usize) -> Result<Rent, (OutOfMemory, Vec<u8>)>
        requires { length v.items ≤ total }
        ensures ok { IfOk result (λ r. r ≡ record { bytes = v.items; total = total }) }
        ensures err { IfErr result (λ refused. refused.1.items ≡ v.items) }
    {
        let mut items = v;
        match items.reserve_exact(total - items.len()) {
            Ok(()) => Ok(Rent { items, total }),
            Err(_) => Err((OutOfMemory, items)),
        }
    }

    // The bytes of a vector, with no further room.
    pub(crate) fn full(v: Vec<u8>) -> Rent
        ensures { result ≡ record { bytes = v.items; total = length v.items } }
    {
        let total = v.len();
        Rent { items: v, total }
    }

    // A copy with the same room, or `OutOfMemory`.
    pub(crate) fn try_clone(&self) -> Result<Rent, OutOfMemory>
        ensures { IfOk result (λ copy. copy ≡ self.now) }
    {
        let mut items = Vec::with_capacity(*self.items.allocator(), self.total)?;
        items.extend_from_slice(self.items.as_slice())?;
        Ok(Rent {
            items,
            total: self.total,
        })
    }

    /// The bytes (not in monoio).
    pub fn as_slice(&self) -> &[u8]
        ensures { result.now ≡ self.now.bytes }
    {
        self.items.as_slice()
    }

    /// The number of the bytes (not in monoio).
    pub fn len(&self) -> usize
        ensures { result ≡ length self.now.bytes }
    {
        self.items.len()
    }

    /// Whether there is no byte (not in monoio).
    pub fn is_empty(&self) -> bool
        ensures { IsTrue result ↔ (self.now.bytes ≡ []) }
    {
        self.items.is_empty()
    }

    /// The most bytes that it holds (not in monoio).
    pub fn total(&self) -> usize
        ensures { result ≡ self.now.total }
    {
        self.total
    }

    /// The vector of the bytes (not in monoio).
    pub fn into_vec(self) -> Vec<u8>
        ensures { result.items ≡ self.bytes }
    {
        let Rent { items, total: _ } = self;
        items
    }

    /// Removes all bytes; the total stays reserved (not in monoio).
    pub fn clear(&mut self)
        ensures { self.new ≡ record self.old { bytes = [] } }
    {
        self.items.clear();
    }
}

impl DerefSlice for Rent {
    type Elem = u8;

    ghost deref_gives = { λ r bytes. bytes ≡ r.bytes };

    fn deref(&self) -> &[u8]
        ensures { result.now ≡ self.now.bytes }
    {
        self.items.as_slice()
    }
}

impl IoBuf for Rent {
    ghost content = { λ r. r.bytes };

    fn bytes(&self) -> &[u8] {
        self.items.as_slice()
    }

    fn bytes_init(&self) -> usize {
        self.items.len()
    }
}

impl IoBufMut for Rent {
    ghost buffer = { buffer_of_rent };

    ghost under = { λ _. [] };

    ghost beside = { λ _. [] };

    fn keeps_bounds(&self) {
        // A read brings the type's bounds into the proof.
        let _total = self.total;
    }

    fn bytes_total(&self) -> usize {
        self.total
    }

    fn store(&mut self, at: usize, bytes: &[u8]) {
        self.items.truncate(at);
        // The room was reserved.
        let _ = self.items.extend_from_slice(bytes);
    }
}

impl LendBytes for Rent {
    ghost with_bytes = { with_bytes_of_rent };

    fn range_mut(&mut self, begin: usize, end: usize) -> &mut [u8] {
        self.items.slice_mut(begin..end)
    }

    ghost with_bytes_buffer = { λ r at w. ap (λ n. overwritten (buffer_of_rent r) n w) (sym (zero-add at)) };

    ghost with_bytes_under = { λ r at w. refl };

    ghost with_bytes_beside = { λ r at w. refl };
}
