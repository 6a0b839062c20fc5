//! A buffer as plain data, and the buffer that is built of it.
ghost use Rattle.std.specs.Prelude.{◌≡◌, ◌+◌, ◌↔◌, refl, IfOk, IfSome, IsOk, IsSome};
ghost use Rattle.rent_buf.specs.Buffer.{BufferBounds};
ghost use Rattle.rent_buf.specs.SliceMut.{whole};
ghost use Rattle.rent_buf.specs.Buf.{built, content_of, under_of, beside_of, with_bytes_of};

use crate::fault::OutOfMemory;
use crate::fixed::FixedVec;
use crate::grow::Grow;
use crate::io_buf::{IoBuf, IoBufMut, LendBytes};
use crate::kind::Kind;
use crate::lists::ByteList;
use crate::rent::Rent;
use crate::slice::SliceMut;
use std::marker::Model;

/// A buffer as plain data (not in monoio): its kind, its bytes, its total and its range.
#[derive(Debug, Drop, PartialEq, Eq)]
pub struct BufSpec {
    kind: Kind,
    total: usize,
    begin: usize,
    end: usize,
    bytes: ByteList,
}

impl Model for BufSpec {
    ghost use Rattle.rent_buf.specs.Buffer.{Buffer, BufferBounds};

    ghost Value = { Buffer };

    ghost view = { λ b. record { kind = b.kind; bytes = b.bytes; total = b.total; begin = b.begin; end = b.end } };

    ghost invariant = { λ b. BufferBounds (record { kind = b.kind; bytes = b.bytes; total = b.total; begin = b.begin; end = b.end }) };

    ghost inverse = { λ b. record { kind = b.kind; total = b.total; begin = b.begin; end = b.end; bytes = b.bytes } };
}

impl BufSpec {
    /// The buffer of this kind, total, range and bytes (not in monoio). `None` comes exactly when
    /// a bound fails: `bytes.len() <= total`, `begin <= end`, `begin <= bytes.len()` and `end <=
    /// total`, and for `Kind::Fixed` `bytes.len() == total`.
    pub fn new(
        kind: Kind,
        total: usize,
        begin: usize,
        end: usize,
        bytes: ByteList,
    ) -> Option<BufSpec>
        ensures some { IfSome result (λ b. b ≡ record { kind = kind; bytes = bytes; total = total; begin = begin; end = end }) }
        ensures exact { IsSome result ↔ BufferBounds (record { kind = kind; bytes = bytes; total = total; begin = begin; end = end }) }
    {
        let count = bytes.len();
        let is_full = kind.allows(bytes.as_slice(), total);
        if count <= total && begin <= end && begin <= count && end <= total && is_full {
            Some(BufSpec {
                kind,
                total,
                begin,
                end,
                bytes,
            })
        } else {
            None
        }
    }

    /// The kind (not in monoio).
    pub fn kind(&self) -> Kind
        ensures { result ≡ self.now.kind }
    {
        self.kind
    }

    /// The most bytes that the buffer holds (not in monoio).
    pub fn total(&self) -> usize
        ensures { result ≡ self.now.total }
    {
        self.total
    }

    /// Where the range begins, in bytes (not in monoio).
    pub fn begin(&self) -> usize
        ensures { result ≡ self.now.begin }
    {
        self.begin
    }

    /// Where the range ends, in bytes (not in monoio).
    pub fn end(&self) -> usize
        ensures { result ≡ self.now.end }
    {
        self.end
    }

    /// The initialised bytes of the whole buffer (not in monoio).
    pub fn bytes(&self) -> &[u8]
        ensures value { result.now ≡ self.now.bytes }
        ensures bounds { BufferBounds self.now }
    {
        self.bytes.as_slice()
    }

    /// A copy (not in monoio), or `OutOfMemory`. The total is reserved once, so a `build` of the
    /// copy moves no byte.
    pub fn try_clone(&self) -> Result<BufSpec, OutOfMemory>
        ensures { IfOk result (λ copy. copy ≡ self.now) }
    {
        let bytes = self.bytes.try_clone_with_capacity(self.total)?;
        Ok(BufSpec {
            kind: self.kind,
            total: self.total,
            begin: self.begin,
            end: self.end,
            bytes,
        })
    }

    /// The buffer that it describes (not in monoio). Its total is reserved. If memory runs out, the
    /// spec is dropped. A `Fixed` one takes no memory, and is always built.
    pub fn build(self) -> Result<Buf, OutOfMemory>
        ensures ok { IfOk result (λ buf. built buf ≡ self) }
        ensures fixed { self.kind ≡ Kind.Fixed → IsOk result }
    {
        let BufSpec {
            kind,
            total,
            begin,
            end,
            bytes,
        } = self;
        match kind {
            Kind::Vector => match Rent::from_vec(bytes.into_vec(), total) {
                Ok(rent) => Ok(Buf::Vector(SliceMut::new(rent, begin, end))),
                Err(_) => Err(OutOfMemory),
            },
            Kind::Grown => match Grow::from_vec(bytes.into_vec(), total) {
                Ok(grow) => Ok(Buf::Grown(SliceMut::new(grow, begin, end))),
                Err(_) => Err(OutOfMemory),
            },
            Kind::Fixed => {
                let fixed = FixedVec::from_vec(bytes.into_vec());
                Ok(Buf::Fixed(SliceMut::new(fixed, begin, end)))
            }
        }
    }
}

/// A buffer of any kind, with its range (not in monoio).
#[derive(Debug, Drop)]
pub enum Buf {
    /// A range of a vector with a stated total.
    Vector(SliceMut<Rent>),
    /// A range of a vector with a stated total that keeps its longer tail.
    Grown(SliceMut<Grow>),
    /// A range of a vector of fixed length.
    Fixed(SliceMut<FixedVec>),
}

impl Buf {
    /// The buffer as plain data (not in monoio). It takes no memory.
    pub fn into_spec(self) -> BufSpec
        ensures { result ≡ built self }
    {
        match self {
            Buf::Vector(slice) => spec_of_rent(slice),
            Buf::Grown(slice) => spec_of_grow(slice),
            Buf::Fixed(slice) => spec_of_fixed(slice),
        }
    }
}

// The buffer inside a range, and where the range begins and ends.
fn taken_apart<T: IoBufMut>(slice: SliceMut<T>) -> (T, usize, usize)
    ensures inside { T.buffer result.0 ≡ whole slice.buffer slice.under }
    ensures begin { (whole slice.buffer slice.under).begin + result.1 ≡ slice.buffer.begin }
    ensures end { (whole slice.buffer slice.under).begin + result.2 ≡ slice.buffer.end }
    ensures bounds { BufferBounds slice.buffer }
{
    slice.keeps_bounds();
    let (begin, end) = (slice.begin(), slice.end());
    (slice.into_inner(), begin, end)
}

// The plain data of a range of each kind.

fn spec_of_rent(slice: SliceMut<Rent>) -> BufSpec
    ensures { result ≡ slice.buffer }
{
    let (rent, begin, end) = taken_apart(slice);
    let total = rent.bytes_total();
    BufSpec {
        kind: Kind::Vector,
        total,
        begin,
        end,
        bytes: ByteList::from_vec(rent.into_vec()),
    }
}

fn spec_of_grow(slice: SliceMut<Grow>) -> BufSpec
    ensures { result ≡ slice.buffer }
{
    let (grow, begin, end) = taken_apart(slice);
    let total = grow.bytes_total();
    BufSpec {
        kind: Kind::Grown,
        total,
        begin,
        end,
        bytes: ByteList::from_vec(grow.into_vec()),
    }
}

fn spec_of_fixed(slice: SliceMut<FixedVec>) -> BufSpec
    ensures { result ≡ slice.buffer }
{
    let (fixed, begin, end) = taken_apart(slice);
    let total = fixed.bytes_total();
    BufSpec {
        kind: Kind::Fixed,
        total,
        begin,
        end,
        bytes: ByteList::from_vec(fixed.into_vec()),
    }
}

impl IoBuf for Buf {
    ghost content = { content_of };

    fn bytes(&self) -> &[u8] {
        match self {
            Buf::Vector(slice) => slice.bytes(),
            Buf::Grown(slice) => slice.bytes(),
            Buf::Fixed(slice) => slice.bytes(),
        }
    }

    fn bytes_init(&self) -> usize {
        match self {
            Buf::Vector(slice) => slice.bytes_init(),
            Buf::Grown(slice) => slice.bytes_init(),
            Buf::Fixed(slice) => slice.bytes_init(),
        }
    }
}

impl IoBufMut for Buf {
    ghost buffer = { built };

    ghost under = { under_of };

    ghost beside = { beside_of };

    fn keeps_bounds(&self) {
        match self {
            Buf::Vector(slice) => slice.keeps_bounds(),
            Buf::Grown(slice) => slice.keeps_bounds(),
            Buf::Fixed(slice) => slice.keeps_bounds(),
        }
    }

    fn bytes_total(&self) -> usize {
        match self {
            Buf::Vector(slice) => slice.bytes_total(),
            Buf::Grown(slice) => slice.bytes_total(),
            Buf::Fixed(slice) => slice.bytes_total(),
        }
    }

    fn store(&mut self, at: usize, bytes: &[u8]) {
        match self {
            Buf::Vector(slice) => slice.store(at, bytes),
            Buf::Grown(slice) => slice.store(at, bytes),
            Buf::Fixed(slice) => slice.store(at, bytes),
        }
    }
}

impl LendBytes for Buf {
    ghost use Rattle.rent_buf.specs.declared.plain.Buf.TheVariants.{Vector, Grown, Fixed};

    ghost with_bytes = { with_bytes_of };

    fn range_mut(&mut self, begin: usize, end: usize) -> &mut [u8] {
        match self {
            Buf::Vector(slice) => slice.range_mut(begin, end),
            Buf::Grown(slice) => slice.range_mut(begin, end),
            Buf::Fixed(slice) => slice.range_mut(begin, end),
        }
    }

    ghost with_bytes_buffer = { elim [ Vector slice ↦ λ at w. refl | Grown slice ↦ λ at w. refl | Fixed slice ↦ λ at w. refl ] };

    ghost with_bytes_under = { elim [ Vector slice ↦ λ at w. refl | Grown slice ↦ λ at w. refl | Fixed slice ↦ λ at w. refl ] };

    ghost with_bytes_beside = { elim [ Vector slice ↦ λ at w. refl | Grown slice ↦ λ at w. refl | Fixed slice ↦ λ at w. refl ] };
}
