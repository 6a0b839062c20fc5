//! What a vector of buffers is to code that reads it, and to code that fills it.
ghost use Rattle.std.specs.Prelude.{◌≡◌, ◌+◌, ◌^◌, ◌<◌, ◌≤◌, ◌↔◌, [], List, ℕ, length, slice_range, slice_index_or, vec_len, vec_capacity};
ghost use Rattle.std.specs.Prelude.{refl, IsTrue, IsOk, IfOk, IfErr};
ghost use Rattle.std.specs.Borrow.{Lends, Array, sem, u8 as byte};
ghost use Rattle.rent_buf.specs.Parts.{Parts, IsParts, bytes_of, rooms_of, part_at, part_put, part_overwritten, parts_stored};
ghost use Rattle.rent_buf.specs.Parts.{parts_of_lists, items_of};

use crate::fault::OutOfMemory;
use crate::io_buf::{IoBuf as _, IoBufMut as _, LendBytes as _};
use crate::plain_parts::PartsSpec;
use crate::rent::Rent;
use std::marker::Model;
use thiserror::Error;

/// Why a list of vectors is not taken. It comes back.
#[derive(Clone, Copy, Debug, PartialEq, Eq, Error)]
pub enum PartsError {
    /// The sum of the lengths passes `usize`.
    #[error("TooLong")]
    TooLong,
    /// Memory ran out.
    #[error("OutOfMemory")]
    OutOfMemory,
}

/// A vector of buffers whose initialised bytes can be read (monoio: `IoVecBuf`). No call takes
/// memory.
pub trait IoVecBuf: Sized {
    /// The initialised bytes of each part.
    ghost parts: { Self → List (List ℕ) };

    /// How many parts there are (monoio: `read_iovec_len`).
    fn parts_len(&self) -> usize
        ensures { result ≡ length (parts self.now) };

    /// The initialised bytes of a part (monoio: `read_iovec_ptr`).
    fn part(&self, i: usize) -> &[u8]
        requires { i < length (parts self.now) }
        ensures { result.now ≡ slice_index_or (parts self.now) i [] };
}

/// A vector of buffers that can be filled (monoio: `IoVecBufMut`). No call takes memory.
pub trait IoVecBufMut: IoVecBuf {
    /// The parts, each with its room.
    ghost held: { Self → Parts };

    /// Does nothing, and tells a caller the parts' bounds (not in monoio).
    fn keeps_bounds(&self)
        ensures bounds { IsParts (held self.now) }
        ensures parts { Self.parts self.now ≡ bytes_of (held self.now) }
    {
        let _ = self.total_room();
    }

    /// The sum of the rooms, in bytes (monoio: `VecBuf`'s `total_room`).
    fn total_room(&self) -> usize
        ensures total { result ≡ rooms_of (held self.now) }

        // Parts keep their bounds, and those that are read are those that are filled.
        ensures bounds { IsParts (held self.now) }
        ensures parts { Self.parts self.now ≡ bytes_of (held self.now) };

    /// How many bytes a part has room for (monoio: `write_iovec_ptr`'s lengths).
    fn room(&self, i: usize) -> usize
        requires { i < length (Self.parts self.now) }
        ensures { result ≡ (part_at (held self.now) i).total };

    /// Stores bytes in a part at offset `at` (not in monoio). They are its last bytes then.
    fn store_part(&mut self, i: usize, at: usize, bytes: &[u8])
        requires is_there { i < length (Self.parts self.old) }
        requires starts { at ≤ length (slice_index_or (Self.parts self.old) i []) }
        requires ends { at + length bytes.now ≤ (part_at (held self.old) i).total }
        ensures put { held self.new ≡ part_put (held self.old) i at bytes.now }
        ensures bounds { IsParts (held self.new) }
        ensures parts { Self.parts self.new ≡ bytes_of (held self.new) };

    /// Stores bytes in the parts, from the first one on (monoio: `set_init`). A part whose room is at
    /// most what is left is filled. The first one whose room is greater gets the rest, if there is
    /// any, and those behind it stay.
    fn store_front(&mut self, bytes: &[u8])
        requires { length bytes.now ≤ rooms_of (held self.old) }
        ensures { held self.new ≡ parts_stored (held self.old) bytes.now }
    {
        self.keeps_bounds();
        let mut rest = bytes;
        for i in 0..self.parts_len() {
            let room = self.room(i);
            if rest.len() < room {
                if rest.is_empty() {
                    return;
                }
                self.store_part(i, 0, rest);
                return;
            }
            let (front, behind) = rest.split_at(room);
            self.store_part(i, 0, front);
            rest = behind;
        }
    }
}

/// A vector of buffers that lends the bytes of a part to be changed (not in monoio, which hands out
/// pointers).
pub trait LendParts: IoVecBufMut {
    /// The parts with other bytes in one of them in place of as many, from a place on.
    ghost with_part: { Self → ℕ → ℕ → List ℕ → Self };

    /// Lends the initialised bytes of a part from `begin` to `end`. Their number can't change.
    fn part_range_mut(&mut self, i: usize, begin: usize, end: usize) -> &mut [u8]
        requires is_there { i < length (Self.parts self.old) }
        requires ordered { begin ≤ end }
        requires inside { end ≤ length (slice_index_or (Self.parts self.old) i []) }
        ensures* lends { sem 𝓛 (Lends Self.row (Array byte 0) self.entry result (with_part self.old i begin)) }
        ensures value { result.now ≡ slice_range (slice_index_or (Self.parts self.old) i []) begin end };

    /// Lends the initialised bytes of a part. Their number can't change.
    fn part_mut(&mut self, i: usize) -> &mut [u8]
        requires { i < length (Self.parts self.old) }
        ensures* lends { sem 𝓛 (Lends Self.row (Array byte 0) self.entry result (with_part self.old i 0)) }
        ensures value { result.now ≡ slice_index_or (Self.parts self.old) i [] }
    {
        let end = self.part(i).len();
        self.part_range_mut(i, 0, end)
    }

    /// Other bytes are written over as many of the part's bytes, from that place on.
    ghost with_part_held: { (b : Self) (i at : ℕ) (w : List ℕ) → Self.held (with_part b i at w) ≡ part_overwritten (Self.held b) i at w };
}

/// Vectors with rooms of their own, one behind the other (monoio: `VecBuf`). A contract sees it
/// as parts.
#[derive(Debug, Drop)]
pub struct VecBuf {
    parts: Vec<Rent>,
}

impl Model for VecBuf {
    ghost use Rattle.rent_buf.specs.Parts.{Parts, IsParts};

    ghost Value = { Parts };

    ghost view = { λ v. v.parts.items };

    ghost invariant = { λ v. IsParts v.parts.items };
}

impl VecBuf {
    // Rents as parts.
    pub(crate) fn from_rents(parts: Vec<Rent>) -> VecBuf
        requires { IsParts parts.items }
        ensures { result ≡ parts.items }
    {
        VecBuf { parts }
    }

    /// Vectors as parts, whose rooms are their lengths (monoio: `From<Vec<Vec<u8>>>`). Where it
    /// is refused, the same vectors come back.
    pub fn from_parts(parts: Vec<Vec<u8>>) -> Result<VecBuf, (PartsError, Vec<Vec<u8>>)>
        ensures ok { IfOk result (λ v. v ≡ parts_of_lists (items_of parts.items)) }
        ensures long { IfErr result (λ refused. (refused.0 ≡ PartsError.TooLong)
            ↔ (2 ^ 64 ≤ rooms_of (parts_of_lists (items_of parts.items)))) }
        ensures fits { IsOk result → rooms_of (parts_of_lists (items_of parts.items)) < 2 ^ 64 }
        ensures err { IfErr result (λ refused. refused.1.items ≡ parts.items) }
    {
        if !sum_fits(&parts) {
            return Err((PartsError::TooLong, parts));
        }
        match Vec::with_capacity(*parts.allocator(), parts.len()) {
            Ok(reserved) => Ok(VecBuf {
                parts: moved_in(parts, reserved),
            }),
            Err(_) => Err((PartsError::OutOfMemory, parts)),
        }
    }

    /// The vectors of the parts' bytes (monoio: `From<VecBuf>`). If memory runs out, the
    /// same parts come back.
    pub fn into_parts(self) -> Result<Vec<Vec<u8>>, (OutOfMemory, VecBuf)>
        ensures ok { IfOk result (λ lists. items_of lists.items ≡ bytes_of self) }
        ensures err { IfErr result (λ refused. refused.1 ≡ self) }
    {
        match Vec::with_capacity(*self.parts.allocator(), self.parts.len()) {
            Ok(reserved) => {
                let VecBuf { parts } = self;
                Ok(moved_out(parts, reserved))
            }
            Err(_) => Err((OutOfMemory, self)),
        }
    }

    /// The parts as plain data (not in monoio). It takes no memory.
    pub fn into_spec(self) -> PartsSpec
        ensures { result ≡ self }
    {
        let VecBuf { parts } = self;
        PartsSpec::from_rents(parts)
    }

    /// A copy of all parts, each with its room (not in monoio), or `OutOfMemory`.
    pub fn try_clone(&self) -> Result<VecBuf, OutOfMemory>
        ensures { IfOk result (λ copy. copy ≡ self.now) }
    {
        Ok(VecBuf {
            parts: cloned_rents(&self.parts)?,
        })
    }
}

// A copy of each rent, with its room.
pub(crate) fn cloned_rents(rents: &Vec<Rent>) -> Result<Vec<Rent>, OutOfMemory>
    ensures { IfOk result (λ copies. copies.items ≡ rents.now.items) }
{
    let mut copies = Vec::with_capacity(*rents.allocator(), rents.len())?;
    for rent in rents {
        copies.push(rent.try_clone()?)?;
    }
    Ok(copies)
}

// Whether the sum of the lengths fits.
#[tactic(auto, using(crate::proofs::Rooms::rooms_lists))]
fn sum_fits(lists: &[Vec<u8>]) -> bool
    ensures { IsTrue result ↔ (rooms_of (parts_of_lists (items_of lists.now)) < 2 ^ 64) }
{
    let mut sum: usize = 0;
    for list in lists {
        match sum.checked_add(list.len()) {
            Some(more) => sum = more,
            None => return false,
        }
    }
    true
}

// Each vector as a part whose room is its length, in memory that was reserved.
fn moved_in(lists: Vec<Vec<u8>>, reserved: Vec<Rent>) -> Vec<Rent>
    requires empty { reserved.items ≡ [] }
    requires room { vec_len lists ≤ vec_capacity reserved }
    ensures { result.items ≡ parts_of_lists (items_of lists.items) }
{
    let mut parts = reserved;
    for list in lists {
        let _ = parts.push(Rent::full(list));
    }
    parts
}

// The vector of each part's bytes, in memory that was reserved.
fn moved_out(parts: Vec<Rent>, reserved: Vec<Vec<u8>>) -> Vec<Vec<u8>>
    requires empty { reserved.items ≡ [] }
    requires room { vec_len parts ≤ vec_capacity reserved }
    ensures { items_of result.items ≡ bytes_of parts.items }
{
    let mut lists = reserved;
    for part in parts {
        let _ = lists.push(part.into_vec());
    }
    lists
}

impl IoVecBuf for VecBuf {
    ghost parts = { bytes_of };

    fn parts_len(&self) -> usize {
        self.parts.len()
    }

    fn part(&self, i: usize) -> &[u8] {
        self.parts[i].bytes()
    }
}

impl IoVecBufMut for VecBuf {
    ghost held = { λ v. v };

    fn keeps_bounds(&self) {
        // A read brings the type's bounds into the proof.
        let _parts = &self.parts;
    }

    fn total_room(&self) -> usize {
        let mut sum = 0;
        for part in &self.parts {
            sum += part.bytes_total();
        }
        sum
    }

    fn room(&self, i: usize) -> usize {
        self.parts[i].bytes_total()
    }

    fn store_part(&mut self, i: usize, at: usize, bytes: &[u8]) {
        self.parts[i].store(at, bytes);
    }
}

impl LendParts for VecBuf {
    ghost with_part = { part_overwritten };

    fn part_range_mut(&mut self, i: usize, begin: usize, end: usize) -> &mut [u8] {
        let part = &mut self.parts[i];
        part.range_mut(begin, end)
    }

    ghost with_part_held = { λ v i at w. refl };
}
