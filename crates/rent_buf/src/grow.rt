//! A vector with a stated total that keeps its longer tail.
ghost use Rattle.std.specs.Prelude.{◌≡◌, ◌≤◌, ◌↔◌, [], length, refl, IfOk, IfErr, IsTrue};
ghost use Rattle.std.proofs.Common.{ap, sym, zero-add};
ghost use Rattle.rent_buf.specs.Buffer.{overwritten};
ghost use Rattle.rent_buf.specs.Grow.{buffer_of_grow, with_bytes_of_grow};

use crate::fault::OutOfMemory;
use crate::io_buf::{IoBuf, IoBufMut, LendBytes};
use crate::rent::Rent;
use std::alloc::Global;
use std::marker::Model;
use std::ops::DerefSlice;

/// A vector with a stated total, which it never passes, that is as long after a store as the stored
/// bytes reach, and never shorter than before (monoio: `BytesMut`, whose total is its capacity). The
/// total is reserved when it is made, so a store takes no memory.
#[derive(Debug, Drop)]
pub struct Grow {
    rent: Rent,
}

impl Model for Grow {
    ghost use Rattle.rent_buf.specs.Rent.{Rented};

    ghost Value = { Rented };

    ghost view = { λ g. g.rent };
}

impl Grow {
    /// No bytes, with room for `total` (not in monoio), or `OutOfMemory`.
    pub fn with_total(alloc: Global, total: usize) -> Result<Grow, OutOfMemory>
        ensures { IfOk result (λ g. g ≡ record { bytes = []; total = total }) }
    {
        let rent = Rent::with_total(alloc, total)?;
        Ok(Grow { rent })
    }

    /// The bytes of a vector, with room for `total` (not in monoio). If memory runs out, the same
    /// vector comes back.
    pub fn from_vec(v: Vec<u8>, total: usize) -> Result<Grow, (OutOfMemory, Vec<u8>)>
        requires { length v.items ≤ total }
        ensures ok { IfOk result (λ g. g ≡ record { bytes = v.items; total = total }) }
        ensures err { IfErr result (λ refused. refused.1.items ≡ v.items) }
    {
        match Rent::from_vec(v, total) {
            Ok(rent) => Ok(Grow { rent }),
            Err(refused) => Err(refused),
        }
    }

    /// The bytes (not in monoio).
    pub fn as_slice(&self) -> &[u8]
        ensures { result.now ≡ self.now.bytes }
    {
        self.rent.as_slice()
    }

    /// The number of the bytes (not in monoio).
    pub fn len(&self) -> usize
        ensures { result ≡ length self.now.bytes }
    {
        self.rent.len()
    }

    /// Whether there is no byte (not in monoio).
    pub fn is_empty(&self) -> bool
        ensures { IsTrue result ↔ (self.now.bytes ≡ []) }
    {
        self.rent.is_empty()
    }

    /// The most bytes that it holds (not in monoio).
    pub fn total(&self) -> usize
        ensures { result ≡ self.now.total }
    {
        self.rent.total()
    }

    /// The vector of the bytes (not in monoio).
    pub fn into_vec(self) -> Vec<u8>
        ensures { result.items ≡ self.bytes }
    {
        let Grow { rent } = self;
        rent.into_vec()
    }

    /// Removes all bytes; the total stays reserved (not in monoio).
    pub fn clear(&mut self)
        ensures { self.new ≡ record self.old { bytes = [] } }
    {
        self.rent.clear();
    }
}

impl DerefSlice for Grow {
    type Elem = u8;

    ghost deref_gives = { λ g bytes. bytes ≡ g.bytes };

    fn deref(&self) -> &[u8]
        ensures { result.now ≡ self.now.bytes }
    {
        self.rent.as_slice()
    }
}

impl IoBuf for Grow {
    ghost content = { λ g. g.bytes };

    fn bytes(&self) -> &[u8] {
        self.rent.as_slice()
    }

    fn bytes_init(&self) -> usize {
        self.rent.len()
    }
}

impl IoBufMut for Grow {
    ghost buffer = { buffer_of_grow };

    ghost under = { λ _. [] };

    ghost beside = { λ _. [] };

    fn keeps_bounds(&self) {
        self.rent.keeps_bounds();
    }

    fn bytes_total(&self) -> usize {
        self.rent.keeps_bounds();
        self.rent.total()
    }

    #[tactic(auto, using(crate::proofs::Overwritten::overwritten_within))]
    fn store(&mut self, at: usize, bytes: &[u8]) {
        self.rent.keeps_bounds();
        if bytes.len() <= self.rent.len() - at {
            let place = self.rent.range_mut(at, at + bytes.len());
            place.copy_from_slice(bytes);
        } else {
            self.rent.store(at, bytes);
        }
    }
}

impl LendBytes for Grow {
    ghost with_bytes = { with_bytes_of_grow };

    fn range_mut(&mut self, begin: usize, end: usize) -> &mut [u8] {
        self.rent.range_mut(begin, end)
    }

    ghost with_bytes_buffer = { λ g at w. ap (λ n. overwritten (buffer_of_grow g) n w) (sym (zero-add at)) };

    ghost with_bytes_under = { λ g at w. refl };

    ghost with_bytes_beside = { λ g at w. refl };
}
