//! The ranges of a vector of buffers that are left to move.
ghost use Rattle.std.specs.Prelude.{◌≡◌, ◌+◌, ◌-◌, ◌^◌, ◌<◌, ◌≤◌, [], ◌∷◌, ◌++◌, length, drop, map, sum_by, slice_index_or, ◌↔◌, IfOk};
ghost use Rattle.std.specs.Prelude.{IsTrue, OnOk};
ghost use Rattle.rent_buf.specs.Parts.{rooms_of};
ghost use Rattle.rent_buf.specs.Ranges.{places, ranges_of, consumed};

use crate::fault::OutOfMemory;
use crate::io_vec_buf::{IoVecBuf, IoVecBufMut};
use std::alloc::Global;
use std::marker::Model;

/// Ranges of the parts of a vector of buffers, from which what was moved is taken away (monoio:
/// `IoVecMeta`).
#[derive(Debug, Drop)]
pub struct Ranges {
    ranges: Vec<(usize, usize, usize)>,
    first: usize,
    left: usize,
    len: usize,
}

impl Model for Ranges {
    ghost use Rattle.std.specs.Prelude.{◌≡◌, ◌≤◌, length, drop};
    ghost use Rattle.rent_buf.specs.Ranges.{Ranging, places, AreRanges};

    ghost Value = { Ranging };

    ghost view = { λ r. record { ranges = drop r.first r.ranges.items; len = r.len } };

    ghost invariant = { λ r. (r.first ≤ length r.ranges.items) × AreRanges r.ranges.items
        × (r.left ≡ length (places (drop r.first r.ranges.items))) };
}

impl Ranges {
    /// Whether `of_read` may be called so (not in monoio): the sum of the parts' lengths fits `usize`.
    pub fn read_fits<T: IoVecBuf>(buf: &T) -> bool
        ensures { IsTrue result ↔ (sum_by length (T.parts buf.now) < 2 ^ 64) }
    {
        let mut sum: usize = 0;
        for i in 0..buf.parts_len() {
            match sum.checked_add(buf.part(i).len()) {
                Some(more) => sum = more,
                None => return false,
            }
        }
        true
    }

    /// The bytes of each part as a range (monoio: `read_vec_meta`), or `OutOfMemory`.
    pub fn of_read<T: IoVecBuf>(alloc: Global, buf: &T) -> Result<Ranges, OutOfMemory>
        requires { sum_by length (T.parts buf.now) < 2 ^ 64 }
        ensures { IfOk result (λ r. r ≡
            record { ranges = ranges_of 0 (map length (T.parts buf.now)); len = sum_by length (T.parts buf.now) }) }
    {
        let mut ranges = Ranges::none(alloc);
        for i in 0..buf.parts_len() {
            let len = buf.part(i).len();
            ranges.add(i, len)?;
        }
        Ok(ranges)
    }

    /// The room of each part as a range (monoio: `write_vec_meta`), or `OutOfMemory`.
    pub fn of_write<T: IoVecBufMut>(alloc: Global, buf: &T) -> Result<Ranges, OutOfMemory>
        requires { rooms_of (T.held buf.now) < 2 ^ 64 }
        ensures { IfOk result (λ r. r ≡
            record { ranges = ranges_of 0 (map (λ part. part.total) (T.held buf.now)); len = rooms_of (T.held buf.now) }) }
    {
        buf.keeps_bounds();
        let mut ranges = Ranges::none(alloc);
        for i in 0..buf.parts_len() {
            let len = buf.room(i);
            ranges.add(i, len)?;
        }
        Ok(ranges)
    }

    /// The one range of a buffer of so many bytes (not in monoio), or `OutOfMemory`.
    pub fn of_bytes(alloc: Global, len: usize) -> Result<Ranges, OutOfMemory>
        ensures { IfOk result (λ r. r ≡ record { ranges = (0, 0, len) ∷ []; len = len }) }
    {
        let mut ranges = Ranges::none(alloc);
        ranges.add(0, len)?;
        Ok(ranges)
    }

    /// How many bytes there were when the ranges were made (monoio: `len`).
    pub fn len(&self) -> usize
        ensures { result ≡ self.now.len }
    {
        self.len
    }

    /// How many bytes are left (not in monoio).
    pub fn left(&self) -> usize
        ensures { result ≡ length (places self.now.ranges) }
    {
        self.left
    }

    /// How many ranges are left (not in monoio).
    pub fn parts_left(&self) -> usize
        ensures { result ≡ length self.now.ranges }
    {
        self.ranges.len() - self.first
    }

    /// A range that is left (not in monoio): its part's number, and where it begins and ends in
    /// that part.
    pub fn range(&self, i: usize) -> (usize, usize, usize)
        requires { i < length self.now.ranges }
        ensures { result ≡ slice_index_or self.now.ranges i (0, 0, 0) }
    {
        self.ranges[self.first + i]
    }

    /// Takes the first bytes away (monoio: `consume`).
    pub fn consume(&mut self, n: usize)
        requires { n ≤ length (places self.old.ranges) }
        ensures ranges { self.new.ranges ≡ consumed self.old.ranges n }
        ensures places { places self.new.ranges ≡ drop n (places self.old.ranges) }
        ensures len { self.new.len ≡ self.old.len }
    {
        let mut rest = n;
        while rest > 0 {
            rest -= self.take_front(rest);
        }
    }

    // No ranges.
    fn none(alloc: Global) -> Ranges
        ensures { result ≡ record { ranges = []; len = 0 } }
    {
        Ranges {
            ranges: Vec::new(alloc),
            first: 0,
            left: 0,
            len: 0,
        }
    }

    // Adds the whole range of a part of this length.
    fn add(&mut self, part: usize, len: usize) -> Result<(), OutOfMemory>
        requires whole { length (places self.old.ranges) ≡ self.old.len }
        requires fits { self.old.len + len < 2 ^ 64 }
        ensures ok { OnOk result (self.new ≡ record { ranges = self.old.ranges ++ (part, 0, len) ∷ []; len = self.old.len + len }) }
        ensures whole { OnOk result (length (places self.new.ranges) ≡ self.new.len) }
    {
        self.ranges.push((part, 0, len))?;
        self.len += len;
        self.left += len;
        Ok(())
    }

    // Takes bytes of the first range away, at most so many, and answers their number.
    fn take_front(&mut self, most: usize) -> usize
        requires some { 0 < most }
        requires within { most ≤ length (places self.old.ranges) }
        ensures most { result ≤ most }
        ensures ranges { consumed self.old.ranges most ≡ consumed self.new.ranges (most - result) }
        ensures places { places self.new.ranges ≡ drop result (places self.old.ranges) }
        ensures len { self.new.len ≡ self.old.len }
        ensures less { length self.new.ranges < length self.old.ranges + result }
    {
        let (part, begin, end) = self.ranges[self.first];
        let count = end - begin;
        if most < count {
            self.ranges[self.first] = (part, begin + most, end);
            self.left -= most;
            return most;
        }
        self.first += 1;
        self.left -= count;
        count
    }
}
