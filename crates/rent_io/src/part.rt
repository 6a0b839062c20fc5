// The bytes of one part of a vector of buffers, from a place on, as a buffer.
ghost use Rattle.std.specs.Prelude.{◌≡◌, ◌+◌, ◌<◌, ◌≤◌, [], length, drop, slice_index_or};

use rent_buf::{IoBuf, IoVecBuf};
use std::marker::Model;

/// One part from a place on.
#[derive(Drop)]
pub(crate) struct PartFrom<T: IoVecBuf> {
    buf: T,
    part: usize,
    begin: usize,
    // The part's length.
    len: usize,
}

impl<T: IoVecBuf> Model for PartFrom<T> {
    ghost use Rattle.std.specs.Prelude.{◌≡◌, ◌^◌, ◌<◌, ◌≤◌, [], length, slice_index_or};
    ghost use Rattle.rent_io.specs.WriteVectoredAll.{PartCut};

    ghost Value = { PartCut T };

    ghost view = { λ p. record { inner = p.buf; part = p.part; begin = p.begin } };

    ghost invariant = { λ p. (p.part < length (T.parts p.buf)) × (p.begin ≤ p.len)
        × (p.len ≡ length (slice_index_or (T.parts p.buf) p.part [])) × (p.len < 2 ^ 64) };
}

impl<T: IoVecBuf> PartFrom<T> {
    /// A part's bytes from `begin` on.
    pub(crate) fn new(buf: T, part: usize, begin: usize) -> PartFrom<T>
        requires there { part < length (T.parts buf) }
        requires within { begin ≤ length (slice_index_or (T.parts buf) part []) }
        ensures { result ≡ record { inner = buf; part = part; begin = begin } }
    {
        let len = buf.part(part).len();
        PartFrom {
            buf,
            part,
            begin,
            len,
        }
    }

    /// The place in the part behind its next `n` bytes.
    pub(crate) fn place_behind(&self, n: usize) -> usize
        requires { n ≤ length (drop self.now.begin (slice_index_or (T.parts self.now.inner) self.now.part [])) }
        ensures place { result ≡ self.now.begin + n }
        ensures within { result ≤ length (slice_index_or (T.parts self.now.inner) self.now.part []) }
    {
        self.begin + n
    }

    /// The vector.
    pub(crate) fn into_inner(self) -> T
        ensures { result ≡ self.inner }
    {
        let PartFrom {
            buf,
            part: _,
            begin: _,
            len: _,
        } = self;
        buf
    }
}

impl<T: IoVecBuf> IoBuf for PartFrom<T> {
    ghost content = { λ p. drop p.begin (slice_index_or (T.parts p.inner) p.part []) };

    fn bytes(&self) -> &[u8] {
        let part = self.buf.part(self.part);
        let (_, rest) = part.split_at(self.begin);
        rest
    }

    fn bytes_init(&self) -> usize {
        self.len - self.begin
    }
}
