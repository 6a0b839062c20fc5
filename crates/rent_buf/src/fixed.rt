//! A vector whose number of bytes stays.
ghost use Rattle.std.specs.Prelude.{◌≡◌, ◌↔◌, [], length, IsTrue};
ghost use Rattle.rent_buf.specs.Fixed.{buffer_of_fixed, with_bytes_of_fixed};

use crate::io_buf::{IoBuf, IoBufMut, LendBytes};
use std::marker::Model;
use std::ops::DerefSlice;

/// A vector of fixed length (not in monoio, which has boxed slices). Its total is its length.
#[derive(Debug, Drop)]
pub struct FixedVec {
    items: Vec<u8>,
}

impl Model for FixedVec {
    ghost use Rattle.std.specs.Prelude.{List, ℕ};

    ghost Value = { List ℕ };

    ghost view = { λ f. f.items.items };
}

impl FixedVec {
    /// The bytes of a vector, in its memory (not in monoio).
    pub fn from_vec(v: Vec<u8>) -> FixedVec
        ensures { result ≡ v.items }
    {
        FixedVec { items: v }
    }

    /// The bytes (not in monoio).
    pub fn as_slice(&self) -> &[u8]
        ensures { result.now ≡ self.now }
    {
        self.items.as_slice()
    }

    /// The number of the bytes, which is the total (not in monoio).
    pub fn len(&self) -> usize
        ensures { result ≡ length self.now }
    {
        self.items.len()
    }

    /// Whether there is no byte (not in monoio).
    pub fn is_empty(&self) -> bool
        ensures { IsTrue result ↔ (self.now ≡ []) }
    {
        self.items.is_empty()
    }

    /// The vector of the bytes, in the same memory (not in monoio).
    pub fn into_vec(self) -> Vec<u8>
        ensures { result.items ≡ self }
    {
        let FixedVec { items } = self;
        items
    }
}

impl DerefSlice for FixedVec {
    type Elem = u8;

    ghost deref_gives = { λ f bytes. bytes ≡ f };

    fn deref(&self) -> &[u8]
        ensures { result.now ≡ self.now }
    {
        self.items.as_slice()
    }
}

impl IoBuf for FixedVec {
    ghost content = { λ f. f };

    fn bytes(&self) -> &[u8] {
        self.items.as_slice()
    }

    fn bytes_init(&self) -> usize {
        self.items.len()
    }
}

impl IoBufMut for FixedVec {
    ghost buffer = { buffer_of_fixed };

    ghost under = { λ _. [] };

    ghost beside = { λ _. [] };

    fn keeps_bounds(&self) {}

    fn bytes_total(&self) -> usize {
        self.items.len()
    }

    fn store(&mut self, at: usize, bytes: &[u8]) {
        let place = self.items.slice_mut(at..at + bytes.len());
        place.copy_from_slice(bytes);
    }
}

impl LendBytes for FixedVec {
    ghost use Rattle.rent_buf.specs.Fixed.{overwritten_of_fixed};
    ghost use Rattle.std.specs.Prelude.{refl};

    ghost with_bytes = { with_bytes_of_fixed };

    fn range_mut(&mut self, begin: usize, end: usize) -> &mut [u8] {
        self.items.slice_mut(begin..end)
    }

    ghost with_bytes_buffer = { overwritten_of_fixed };

    ghost with_bytes_under = { λ f at w. refl };

    ghost with_bytes_beside = { λ f at w. refl };
}
