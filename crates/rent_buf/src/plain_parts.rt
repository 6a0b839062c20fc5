//! Parts as plain data.
ghost use Rattle.std.specs.Prelude.{◌≡◌, ◌↔◌, ◌<◌, ◌≤◌, ◌^◌, [], All, length, sum_by, IfOk, IfSome, IsSome, IsTrue};
ghost use Rattle.std.specs.Cmp.{partial_equiv_from_equiv};
ghost use Rattle.rent_buf.specs.Parts.{IsParts, part_at, parts_of_pairs};
ghost use Rattle.rent_buf.specs.PartsSpec.{part_eq, parts_eq, parts_eq_equiv};

use crate::fault::OutOfMemory;
use crate::io_buf::{IoBuf as _, IoBufMut as _};
use crate::io_vec_buf::{VecBuf, cloned_rents};
use crate::lists::ByteList;
use crate::rent::Rent;
use std::marker::Model;

/// Parts as plain data (not in monoio): the room and the bytes of each.
#[derive(Debug, Drop)]
pub struct PartsSpec {
    listed: Listed,
}

// Parts as pairs of room and bytes, or as they are kept in a `VecBuf`.
#[derive(Debug, Drop)]
enum Listed {
    Pairs(Vec<(usize, ByteList)>),
    Rents(Vec<Rent>),
}

impl Model for PartsSpec {
    ghost use Rattle.rent_buf.specs.Parts.{Parts, IsParts};
    ghost use Rattle.rent_buf.specs.PartsSpec.{parts_in};

    ghost Value = { Parts };

    ghost view = { λ s. parts_in s.listed };

    ghost invariant = { λ s. IsParts (parts_in s.listed) };
}

impl PartsSpec {
    /// Parts of these rooms and bytes (not in monoio). `None` comes exactly when bytes pass their
    /// room, or the rooms' sum passes `usize`.
    #[tactic(auto, using(crate::proofs::Rooms::fit_of_pairs, crate::proofs::Rooms::bounded_of_pairs))]
    pub fn new(parts: Vec<(usize, ByteList)>) -> Option<PartsSpec>
        ensures some { IfSome result (λ spec. spec ≡ parts_of_pairs parts.items) }
        ensures exact { IsSome result ↔ IsParts (parts_of_pairs parts.items) }
    {
        let bytes_fit = bytes_fit(&parts);
        if !bytes_fit {
            return None;
        }
        let rooms_fit = rooms_fit(&parts);
        if !rooms_fit {
            return None;
        }
        Some(PartsSpec {
            listed: Listed::Pairs(parts),
        })
    }

    /// How many parts there are (not in monoio).
    pub fn len(&self) -> usize
        ensures { result ≡ length self.now }
    {
        match &self.listed {
            Listed::Pairs(pairs) => pairs.len(),
            Listed::Rents(rents) => rents.len(),
        }
    }

    /// Whether there are no parts (not in monoio).
    pub fn is_empty(&self) -> bool
        ensures { IsTrue result ↔ (self.now ≡ []) }
    {
        self.len() == 0
    }

    /// How many bytes a part has room for (not in monoio).
    pub fn room(&self, i: usize) -> usize
        requires { i < length self.now }
        ensures { result ≡ (part_at self.now i).total }
    {
        match &self.listed {
            Listed::Pairs(pairs) => pairs[i].0,
            Listed::Rents(rents) => rents[i].bytes_total(),
        }
    }

    /// The bytes of a part (not in monoio).
    pub fn bytes(&self, i: usize) -> &[u8]
        requires { i < length self.now }
        ensures { result.now ≡ (part_at self.now i).bytes }
    {
        match &self.listed {
            Listed::Pairs(pairs) => pairs[i].1.as_slice(),
            Listed::Rents(rents) => rents[i].bytes(),
        }
    }

    /// A copy (not in monoio), or `OutOfMemory`. The rooms are reserved once, so a `build` of the
    /// copy moves no byte.
    pub fn try_clone(&self) -> Result<PartsSpec, OutOfMemory>
        ensures { IfOk result (λ copy. copy ≡ self.now) }
    {
        match &self.listed {
            Listed::Pairs(pairs) => Ok(PartsSpec {
                listed: Listed::Pairs(cloned_pairs(pairs)?),
            }),
            Listed::Rents(rents) => Ok(PartsSpec {
                listed: Listed::Rents(cloned_rents(rents)?),
            }),
        }
    }

    /// The parts that it describes (not in monoio). Their rooms are reserved. If memory runs out,
    /// the spec is dropped.
    pub fn build(self) -> Result<VecBuf, OutOfMemory>
        ensures { IfOk result (λ v. v ≡ self) }
    {
        let PartsSpec { listed } = self;
        match listed {
            Listed::Pairs(pairs) => Ok(VecBuf::from_rents(rents_of(pairs)?)),
            Listed::Rents(rents) => Ok(VecBuf::from_rents(rents)),
        }
    }
}

impl PartsSpec {
    // Rents as plain data.
    pub(crate) fn from_rents(rents: Vec<Rent>) -> PartsSpec
        requires { IsParts rents.items }
        ensures { result ≡ rents.items }
    {
        PartsSpec {
            listed: Listed::Rents(rents),
        }
    }

    // Whether a part has this room and these bytes.
    fn is_part(&self, i: usize, room: usize, bytes: &[u8]) -> bool
        requires { i < length self.now }
        ensures { result ≡ part_eq (part_at self.now i) (record { bytes = bytes.now; total = room }) }
    {
        self.room(i) == room && self.bytes(i) == bytes
    }
}

// Equal are specs of the same parts, in whichever form they are kept.
impl PartialEq for PartsSpec {
    ghost eq = { parts_eq };

    ghost laws = { partial_equiv_from_equiv parts_eq_equiv };

    #[tactic(auto, using(crate::proofs::Equal::eq_behind, crate::proofs::Equal::eq_apart))]
    fn eq(&self, other: &Self) -> bool {
        if self.len() != other.len() {
            return false;
        }
        for i in 0..self.len() {
            if !self.is_part(i, other.room(i), other.bytes(i)) {
                return false;
            }
        }
        true
    }
}

impl Eq for PartsSpec {
    ghost laws = { parts_eq_equiv };
}

// A copy of each pair, whose room is reserved.
#[tactic(auto, using(crate::proofs::Rooms::fit_of_pairs))]
fn cloned_pairs(pairs: &Vec<(usize, ByteList)>) -> Result<Vec<(usize, ByteList)>, OutOfMemory>
    requires { IsParts (parts_of_pairs pairs.now.items) }
    ensures { IfOk result (λ copies. copies.items ≡ pairs.now.items) }
{
    let mut copies = Vec::with_capacity(*pairs.allocator(), pairs.len())?;
    for (room, bytes) in pairs {
        copies.push((*room, bytes.try_clone_with_capacity(*room)?))?;
    }
    Ok(copies)
}

// Whether the bytes of each pair fit its room.
fn bytes_fit(pairs: &[(usize, ByteList)]) -> bool
    ensures { IsTrue result ↔ All (λ pair. length pair.1 ≤ pair.0) pairs.now }
{
    for pair in pairs {
        if pair.0 < pair.1.len() {
            return false;
        }
    }
    true
}

// Whether the sum of the rooms fits.
fn rooms_fit(pairs: &[(usize, ByteList)]) -> bool
    ensures { IsTrue result ↔ (sum_by (λ pair. pair.0) pairs.now < 2 ^ 64) }
{
    let mut sum: usize = 0;
    for pair in pairs {
        match sum.checked_add(pair.0) {
            Some(more) => sum = more,
            None => return false,
        }
    }
    true
}

// Each pair as a vector whose room is reserved.
fn rents_of(pairs: Vec<(usize, ByteList)>) -> Result<Vec<Rent>, OutOfMemory>
    requires { IsParts (parts_of_pairs pairs.items) }
    ensures { IfOk result (λ rents. rents.items ≡ parts_of_pairs pairs.items) }
{
    let mut rents = Vec::with_capacity(*pairs.allocator(), pairs.len())?;
    for (room, bytes) in pairs {
        let rent = rent_of(room, bytes)?;
        rents.push(rent)?;
    }
    Ok(rents)
}

// Bytes as a vector whose room is reserved.
fn rent_of(room: usize, bytes: ByteList) -> Result<Rent, OutOfMemory>
    requires { length bytes ≤ room }
    ensures { IfOk result (λ rent. rent ≡ record { bytes = bytes; total = room }) }
{
    match Rent::from_vec(bytes.into_vec(), room) {
        Ok(rent) => Ok(rent),
        Err(_) => Err(OutOfMemory),
    }
}
