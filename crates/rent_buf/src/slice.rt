//! A range of a buffer, as a buffer.
ghost use Rattle.std.specs.Prelude.{◌≡◌, ◌+◌, refl, drop, slice_range};
ghost use Rattle.std.specs.Borrow.{sem};
ghost use Rattle.rent_buf.specs.Buffer.{IsRange, shown};
ghost use Rattle.rent_buf.specs.Slice.{IsWithin};
ghost use Rattle.rent_buf.specs.SliceMut.{sliced, whole, with_range};

use crate::io_buf::{IoBuf, IoBufMut, LendBytes};
use std::marker::Model;
use std::ops::DerefSlice;

/// A range of a buffer's initialised bytes (monoio: `Slice`). A contract sees it as the buffer
/// inside, and where its range begins and ends, `Cut`.
#[derive(Debug, Drop)]
pub struct Slice<T: IoBuf> {
    buf: T,
    begin: usize,
    end: usize,
}

impl<T: IoBuf> Model for Slice<T> {
    ghost use Rattle.rent_buf.specs.Slice.{Cut, IsWithin};

    ghost Value = { Cut T };

    ghost view = { λ s. record { inner = s.buf; begin = s.begin; end = s.end } };

    ghost invariant = { λ s. IsWithin (T.content s.buf) s.begin s.end };
}

impl<T: IoBuf> Slice<T> {
    /// The initialised bytes of a buffer from `begin` to `end` (monoio: `new`).
    pub fn new(buf: T, begin: usize, end: usize) -> Slice<T>
        requires { IsWithin (T.content buf) begin end }
        ensures { result ≡ record { inner = buf; begin = begin; end = end } }
    {
        Slice { buf, begin, end }
    }

    /// The initialised bytes of a buffer from `begin` to `end` (monoio: `new_unchecked`), with
    /// the condition of `new`.
    pub fn new_unchecked(buf: T, begin: usize, end: usize) -> Slice<T>
        requires { IsWithin (T.content buf) begin end }
        ensures { result ≡ record { inner = buf; begin = begin; end = end } }
    {
        Slice::new(buf, begin, end)
    }

    /// Where the range begins (monoio: `begin`).
    pub fn begin(&self) -> usize
        ensures { result ≡ self.now.begin }
    {
        self.begin
    }

    /// Where the range ends (monoio: `end`).
    pub fn end(&self) -> usize
        ensures { result ≡ self.now.end }
    {
        self.end
    }

    /// The buffer inside (monoio: `get_ref`).
    pub fn get_ref(&self) -> &T
        ensures { result.now ≡ self.now.inner }
    {
        &self.buf
    }

    /// The buffer inside (monoio: `into_inner`).
    pub fn into_inner(self) -> T
        ensures { result ≡ self.inner }
    {
        let Slice {
            buf,
            begin: _,
            end: _,
        } = self;
        buf
    }
}

impl<T: IoBuf> IoBuf for Slice<T> {
    ghost content = { λ s. slice_range (T.content s.inner) s.begin s.end };

    fn bytes(&self) -> &[u8] {
        let all = self.buf.bytes();
        &all[self.begin..self.end]
    }

    fn bytes_init(&self) -> usize {
        self.end - self.begin
    }
}

impl<T: IoBuf> DerefSlice for Slice<T> {
    type Elem = u8;

    ghost deref_gives = { λ s bytes. bytes ≡ slice_range (T.content s.inner) s.begin s.end };

    fn deref(&self) -> &[u8]
        ensures { result.now ≡ slice_range (T.content self.now.inner) self.now.begin self.now.end }
    {
        self.bytes()
    }
}

/// A range of a buffer that can be filled (monoio: `SliceMut`). It shows the initialised bytes
/// from `begin` to the lesser of `end` and the buffer's `bytes_init`, and has room to `end`. A
/// contract sees it as a buffer and the ranges under it, `Sliced`.
#[derive(Debug, Drop)]
pub struct SliceMut<T: IoBufMut> {
    buf: T,
    begin: usize,
    end: usize,
}

impl<T: IoBufMut> Model for SliceMut<T> {
    ghost use Rattle.rent_buf.specs.Buffer.{BufferBounds, IsRange};
    ghost use Rattle.rent_buf.specs.SliceMut.{Sliced, sliced};

    ghost Value = { Sliced };

    ghost view = { λ s. sliced (T.buffer s.buf) (T.under s.buf) (T.beside s.buf) s.begin s.end };

    ghost invariant = { λ s. BufferBounds (T.buffer s.buf) × IsRange (T.buffer s.buf) s.begin s.end };
}

impl<T: IoBufMut> SliceMut<T> {
    /// The range of a buffer from `begin` to `end` (monoio: `new`).
    pub fn new(buf: T, begin: usize, end: usize) -> SliceMut<T>
        requires { IsRange (T.buffer buf) begin end }
        ensures { result ≡ sliced (T.buffer buf) (T.under buf) (T.beside buf) begin end }
    {
        buf.keeps_bounds();
        SliceMut { buf, begin, end }
    }

    /// The range of a buffer from `begin` to `end` (monoio: `new_unchecked`), with the
    /// condition of `new`.
    pub fn new_unchecked(buf: T, begin: usize, end: usize) -> SliceMut<T>
        requires { IsRange (T.buffer buf) begin end }
        ensures { result ≡ sliced (T.buffer buf) (T.under buf) (T.beside buf) begin end }
    {
        SliceMut::new(buf, begin, end)
    }

    /// Where the range begins, counted from the start of the buffer inside (monoio: `begin`).
    pub fn begin(&self) -> usize
        ensures { (whole self.now.buffer self.now.under).begin + result ≡ self.now.buffer.begin }
    {
        self.begin
    }

    /// Where the range ends, counted from the start of the buffer inside (monoio: `end`).
    pub fn end(&self) -> usize
        ensures { (whole self.now.buffer self.now.under).begin + result ≡ self.now.buffer.end }
    {
        self.end
    }

    /// The buffer inside (monoio: `get_ref`).
    pub fn get_ref(&self) -> &T
        ensures buffer { T.buffer result.now ≡ whole self.now.buffer self.now.under }
        ensures under { T.under result.now ≡ drop 1 self.now.under }
        ensures beside { T.beside result.now ≡ self.now.beside }
    {
        &self.buf
    }

    /// The buffer inside, with what was stored through the range (monoio: `into_inner`).
    pub fn into_inner(self) -> T
        ensures buffer { T.buffer result ≡ whole self.buffer self.under }
        ensures under { T.under result ≡ drop 1 self.under }
        ensures beside { T.beside result ≡ self.beside }
    {
        let SliceMut {
            buf,
            begin: _,
            end: _,
        } = self;
        buf
    }
}

impl<T: LendBytes> SliceMut<T> {
    ghost use Rattle.rent_buf.specs.Lends.{lends_whole};

    /// Lends all the initialised bytes of the buffer inside (monoio: `get_mut`, which lends the
    /// buffer). Their number can't change.
    pub fn get_mut(&mut self) -> &mut [u8]
        ensures* lends { sem 𝓛 (lends_whole T.row T.content T.buffer T.under T.beside self.entry result) }
        ensures value { result.now ≡ shown (whole self.old.buffer self.old.under) }
    {
        self.buf.keeps_bounds();
        self.buf.bytes_mut()
    }
}

impl<T: IoBufMut> IoBuf for SliceMut<T> {
    ghost content = { λ s. shown s.buffer };

    fn bytes(&self) -> &[u8] {
        self.buf.keeps_bounds();
        let all = self.buf.bytes();
        let end = self.end.min(all.len());
        &all[self.begin..end]
    }

    fn bytes_init(&self) -> usize {
        self.buf.keeps_bounds();
        self.end.min(self.buf.bytes_init()) - self.begin
    }
}

impl<T: IoBufMut> DerefSlice for SliceMut<T> {
    type Elem = u8;

    ghost deref_gives = { λ s bytes. bytes ≡ shown s.buffer };

    fn deref(&self) -> &[u8]
        ensures { result.now ≡ shown self.now.buffer }
    {
        self.bytes()
    }
}

impl<T: IoBufMut> IoBufMut for SliceMut<T> {
    ghost buffer = { λ s. s.buffer };

    ghost under = { λ s. s.under };

    ghost beside = { λ s. s.beside };

    fn keeps_bounds(&self) {
        self.buf.keeps_bounds();
    }

    fn bytes_total(&self) -> usize {
        self.buf.keeps_bounds();
        self.end - self.begin
    }

    fn store(&mut self, at: usize, bytes: &[u8]) {
        self.buf.keeps_bounds();
        self.buf.store(self.begin + at, bytes);
    }
}

impl<T: LendBytes> LendBytes for SliceMut<T> {
    ghost with_bytes = { with_range };

    fn range_mut(&mut self, begin: usize, end: usize) -> &mut [u8] {
        self.buf.keeps_bounds();
        let (from, upto) = (self.begin + begin, self.begin + end);
        self.buf.range_mut(from, upto)
    }

    ghost with_bytes_buffer = { λ s at w. refl };

    ghost with_bytes_under = { λ s at w. refl };

    ghost with_bytes_beside = { λ s at w. refl };
}
