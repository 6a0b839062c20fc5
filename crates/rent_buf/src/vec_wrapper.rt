//! The first part of a vector of buffers, as a buffer.
ghost use Rattle.std.specs.Prelude.{◌≡◌, ◌+◌, ◌<◌, ◌≤◌, ◌↔◌, [], length, refl, slice_index_or, IsOk, IfOk, IfErr};
ghost use Rattle.std.proofs.Common.{ap, ◌∙◌};
ghost use Rattle.rent_buf.specs.Buffer.{BufferBounds, room, shown, put};
ghost use Rattle.rent_buf.specs.Parts.{bytes_of, part_at, part_put};
ghost use Rattle.rent_buf.specs.VecWrapper.{buffer_of_parts, behind_first, parts_of_first, first_overwritten, behind_overwritten};

use crate::io_buf::{IoBuf, IoBufMut, LendBytes};
use crate::io_vec_buf::{IoVecBuf, IoVecBufMut, LendParts};
use std::marker::Model;

/// A vector of buffers that is read as its first part (monoio: `IoVecWrapper`). A contract sees
/// it as the vector.
#[derive(Debug, Drop)]
pub struct IoVecWrapper<T: IoVecBuf> {
    buf: T,
}

impl<T: IoVecBuf> Model for IoVecWrapper<T> {
    ghost use Rattle.std.specs.Prelude.{◌<◌, length};

    ghost Value = { T };

    ghost view = { λ w. w.buf };

    ghost invariant = { λ w. 0 < length (T.parts w.buf) };
}

impl<T: IoVecBuf> IoVecWrapper<T> {
    /// The first part as a buffer (monoio: `new`). The vector comes back exactly when it has no
    /// parts.
    pub fn new(buf: T) -> Result<IoVecWrapper<T>, T>
        ensures ok { IfOk result (λ w. w ≡ buf) }
        ensures err { IfErr result (λ back. back ≡ buf) }
        ensures exact { IsOk result ↔ (0 < length (T.parts buf)) }
    {
        if buf.parts_len() == 0 {
            return Err(buf);
        }
        Ok(IoVecWrapper { buf })
    }

    /// The vector inside (monoio: `into_inner`).
    pub fn into_inner(self) -> T
        ensures { result ≡ self }
    {
        let IoVecWrapper { buf } = self;
        buf
    }
}

impl<T: IoVecBuf> IoBuf for IoVecWrapper<T> {
    ghost content = { λ w. slice_index_or (T.parts w) 0 [] };

    fn bytes(&self) -> &[u8] {
        self.buf.part(0)
    }

    fn bytes_init(&self) -> usize {
        self.buf.part(0).len()
    }
}

/// A vector of buffers that is filled as its first part (monoio: `IoVecWrapperMut`). A contract
/// sees it as the vector.
#[derive(Debug, Drop)]
pub struct IoVecWrapperMut<T: IoVecBufMut> {
    buf: T,
}

impl<T: IoVecBufMut> Model for IoVecWrapperMut<T> {
    ghost use Rattle.std.specs.Prelude.{◌<◌, length};

    ghost Value = { T };

    ghost view = { λ w. w.buf };

    ghost invariant = { λ w. 0 < length (T.held w.buf) };
}

impl<T: IoVecBufMut> IoVecWrapperMut<T> {
    /// The first part as a buffer (monoio: `new`). The vector comes back exactly when it has no
    /// parts.
    pub fn new(buf: T) -> Result<IoVecWrapperMut<T>, T>
        ensures ok { IfOk result (λ w. w ≡ buf) }
        ensures err { IfErr result (λ back. back ≡ buf) }
        ensures exact { IsOk result ↔ (0 < length (T.parts buf)) }
    {
        buf.keeps_bounds();
        if buf.parts_len() == 0 {
            return Err(buf);
        }
        Ok(IoVecWrapperMut { buf })
    }

    /// The vector inside, with what was stored in its first part (monoio: `into_inner`).
    pub fn into_inner(self) -> T
        ensures inside { result ≡ self }

        // Its parts are the first one, as the buffer has it, and those beside it.
        ensures held { T.held result ≡ parts_of_first (buffer_of_parts (T.held self)) (behind_first (T.held self)) }
    {
        let IoVecWrapperMut { buf } = self;
        buf
    }
}

impl<T: IoVecBufMut> IoBuf for IoVecWrapperMut<T> {
    ghost content = { λ w. (part_at (T.held w) 0).bytes };

    fn bytes(&self) -> &[u8] {
        self.buf.keeps_bounds();
        self.buf.part(0)
    }

    fn bytes_init(&self) -> usize {
        self.buf.keeps_bounds();
        self.buf.part(0).len()
    }
}

impl<T: IoVecBufMut> IoBufMut for IoVecWrapperMut<T> {
    ghost buffer = { λ w. buffer_of_parts (T.held w) };

    ghost under = { λ _. [] };

    ghost beside = { λ w. behind_first (T.held w) };

    fn keeps_bounds(&self) {
        self.buf.keeps_bounds();
    }

    fn bytes_total(&self) -> usize {
        self.buf.keeps_bounds();
        self.buf.room(0)
    }

    /// Stores bytes in the first part at offset `at` (monoio: `set_init`, which does nothing). They
    /// are its last bytes then. The other parts and all rooms stay.
    fn store(&mut self, at: usize, bytes: &[u8])
        requires starts { at ≤ length (shown (buffer_of_parts (T.held self.old))) }
        requires ends { at + length bytes.now ≤ room (buffer_of_parts (T.held self.old)) }
        ensures put { buffer_of_parts (T.held self.new)
            ≡ put (buffer_of_parts (T.held self.old)) ((buffer_of_parts (T.held self.old)).begin + at) bytes.now }
        ensures beside { behind_first (T.held self.new) ≡ behind_first (T.held self.old) }
        ensures bounds { BufferBounds (buffer_of_parts (T.held self.new)) }
        ensures held { T.held self.new ≡ part_put (T.held self.old) 0 at bytes.now }
        ensures parts { T.parts self.new ≡ bytes_of (T.held self.new) }
    {
        self.buf.keeps_bounds();
        self.buf.store_part(0, at, bytes);
    }
}

impl<T: LendParts> LendBytes for IoVecWrapperMut<T> {
    ghost with_bytes = { λ w at s. T.with_part w 0 at s };

    fn range_mut(&mut self, begin: usize, end: usize) -> &mut [u8] {
        self.buf.keeps_bounds();
        self.buf.part_range_mut(0, begin, end)
    }

    ghost with_bytes_buffer = { λ w at s. ap buffer_of_parts (T.with_part_held w 0 at s) ∙ first_overwritten (T.held w) at s };

    ghost with_bytes_under = { λ w at s. refl };

    ghost with_bytes_beside = { λ w at s. ap behind_first (T.with_part_held w 0 at s) ∙ behind_overwritten (T.held w) at s };
}
