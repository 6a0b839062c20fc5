//! Boxed slices and boxed arrays as buffers. Their number of bytes stays.
ghost use Rattle.std.specs.Prelude.{[]};
ghost use Rattle.std.specs.Box.{boxed_slice_items};
ghost use Rattle.rent_buf.specs.Fixed.{buffer_of_fixed};

use crate::io_buf::{IoBuf, IoBufMut};
use std::boxed::BoxedSlice;

impl IoBuf for BoxedSlice<u8> {
    ghost content = { boxed_slice_items };

    fn bytes(&self) -> &[u8] {
        self.as_slice()
    }

    fn bytes_init(&self) -> usize {
        self.as_slice().len()
    }
}

impl IoBufMut for BoxedSlice<u8> {
    ghost buffer = { λ b. buffer_of_fixed (boxed_slice_items b) };

    ghost under = { λ _. [] };

    ghost beside = { λ _. [] };

    fn keeps_bounds(&self) {}

    fn bytes_total(&self) -> usize {
        self.as_slice().len()
    }

    fn store(&mut self, at: usize, bytes: &[u8]) {
        let all = self.as_mut_slice();
        let place = &mut all[at..at + bytes.len()];
        place.copy_from_slice(bytes);
    }
}

impl<const N: usize> IoBuf for Box<[u8; N]> {
    ghost content = { λ b. b.value };

    fn bytes(&self) -> &[u8] {
        self.as_ref().as_slice()
    }

    fn bytes_init(&self) -> usize {
        self.as_ref().as_slice().len()
    }
}

impl<const N: usize> IoBufMut for Box<[u8; N]> {
    ghost buffer = { λ b. buffer_of_fixed b.value };

    ghost under = { λ _. [] };

    ghost beside = { λ _. [] };

    fn keeps_bounds(&self) {}

    fn bytes_total(&self) -> usize {
        self.as_ref().as_slice().len()
    }

    fn store(&mut self, at: usize, bytes: &[u8]) {
        let all = self.as_mut().as_mut_slice();
        let place = &mut all[at..at + bytes.len()];
        place.copy_from_slice(bytes);
    }
}
