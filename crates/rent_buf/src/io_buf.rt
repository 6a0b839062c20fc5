//! What a buffer is to code that reads it, and to code that fills it.
ghost use Rattle.std.specs.Prelude.{◌≡◌, ◌+◌, ◌≤◌, ◌↔◌, List, ℕ, length, slice_range, IsTrue};
ghost use Rattle.std.specs.Arc.{arc_value};
ghost use Rattle.std.specs.Borrow.{Lends, Array, sem, u8 as byte};
ghost use Rattle.rent_buf.specs.Buffer.{Buffer, BufferBounds, IsRange, room, shown, put, overwritten};
ghost use Rattle.rent_buf.specs.Parts.{Parts};
ghost use Rattle.rent_buf.specs.Slice.{IsWithin};
ghost use Rattle.rent_buf.specs.SliceMut.{sliced};

use crate::slice::{Slice, SliceMut};
use bytes::{Bytes, BytesMut};
use std::marker::Model;
use std::rc::Rc;
use std::sync::Arc;

/// A buffer whose initialised bytes can be read (monoio: `IoBuf`). No call takes memory.
pub trait IoBuf: Sized {
    /// The initialised bytes.
    ghost content: { Self → List ℕ };

    /// The initialised bytes (monoio: `read_ptr`).
    fn bytes(&self) -> &[u8]
        ensures { result.now ≡ content self.now };

    /// The number of the initialised bytes (monoio: `bytes_init`).
    fn bytes_init(&self) -> usize
        ensures { result ≡ length (content self.now) };

    /// The initialised bytes from `begin` to `end` as a buffer (monoio: `slice`).
    final fn slice(self, begin: usize, end: usize) -> Slice<Self>
        requires { IsWithin (content self) begin end }
        ensures { result ≡ record { inner = self; begin = begin; end = end } }
    {
        Slice::new(self, begin, end)
    }

    /// The initialised bytes from `begin` to `end` as a buffer (monoio: `slice_unchecked`),
    /// with the condition of `slice`.
    final fn slice_unchecked(self, begin: usize, end: usize) -> Slice<Self>
        requires { IsWithin (content self) begin end }
        ensures { result ≡ record { inner = self; begin = begin; end = end } }
    {
        Slice::new_unchecked(self, begin, end)
    }

    /// Whether `slice` may be called so (not in monoio): `begin <= end` and `end <= bytes_init()`.
    final fn slice_fits(&self, begin: usize, end: usize) -> bool
        ensures { IsTrue result ↔ IsWithin (content self.now) begin end }
    {
        begin <= end && end <= self.bytes_init()
    }
}

/// A buffer that can be filled (monoio: `IoBufMut`). No call takes memory.
///
/// A contract sees a buffer of any type as a value, `buffer`, the ranges of the buffers that it was
/// cut from, `under`, the outermost first, and the parts that lie beside its bytes, `beside`. So what
/// generic code did to a slice is known of the buffer that comes out of it.
pub trait IoBufMut: IoBuf {
    /// The buffer as a value.
    ghost buffer: { Self → Buffer };

    /// The ranges of the buffers that it was cut from, the outermost first.
    ghost under: { Self → List (ℕ × ℕ) };

    /// The parts that lie beside its bytes: those behind the first one of a vector of buffers.
    ghost beside: { Self → Parts };

    /// Does nothing, and tells a caller the buffer's bounds (not in monoio).
    fn keeps_bounds(&self)
        ensures bounds { BufferBounds (buffer self.now) }
        ensures content { Self.content self.now ≡ shown (buffer self.now) }
    {
        let _ = self.bytes_total();
    }

    /// The room of its range, in bytes (monoio: `bytes_total`). It is at least `bytes_init`.
    fn bytes_total(&self) -> usize
        ensures total { result ≡ room (buffer self.now) }

        // Every buffer keeps its bounds, and shows the initialised bytes of its range.
        ensures bounds { BufferBounds (buffer self.now) }
        ensures content { Self.content self.now ≡ shown (buffer self.now) };

    /// Stores bytes at offset `at`, counted from the start of the range (monoio: `write_ptr` and
    /// `set_init`). How many bytes there are afterwards follows the kind.
    fn store(&mut self, at: usize, bytes: &[u8])
        requires starts { at ≤ length (shown (buffer self.old)) }
        requires ends { at + length bytes.now ≤ room (buffer self.old) }
        ensures put { buffer self.new ≡ put (buffer self.old) ((buffer self.old).begin + at) bytes.now }
        ensures under { under self.new ≡ under self.old }
        ensures beside { beside self.new ≡ beside self.old }
        ensures bounds { BufferBounds (buffer self.new) };

    /// The range from `begin` to `end` as a buffer (monoio: `slice_mut`).
    final fn slice_mut(self, begin: usize, end: usize) -> SliceMut<Self>
        requires { IsRange (buffer self) begin end }
        ensures { result ≡ sliced (buffer self) (under self) (beside self) begin end }
    {
        SliceMut::new(self, begin, end)
    }

    /// The range from `begin` to `end` as a buffer (monoio: `slice_mut_unchecked`), with the
    /// condition of `slice_mut`.
    final fn slice_mut_unchecked(self, begin: usize, end: usize) -> SliceMut<Self>
        requires { IsRange (buffer self) begin end }
        ensures { result ≡ sliced (buffer self) (under self) (beside self) begin end }
    {
        SliceMut::new_unchecked(self, begin, end)
    }

    /// Whether `slice_mut` may be called so (not in monoio): `begin <= end`, `begin <= bytes_init()`
    /// and `end <= bytes_total()`.
    final fn slice_mut_fits(&self, begin: usize, end: usize) -> bool
        ensures { IsTrue result ↔ IsRange (buffer self.now) begin end }
    {
        let (init, total) = (self.bytes_init(), self.bytes_total());
        begin <= end && begin <= init && end <= total
    }
}

/// A buffer that lends its initialised bytes to be changed (not in monoio, which hands out a
/// pointer). Boxed slices and boxed arrays lend theirs by `as_mut_slice` and `as_mut` alone.
pub trait LendBytes: IoBufMut {
    /// The buffer with other bytes in place of as many, from a place of its range on.
    ghost with_bytes: { Self → ℕ → List ℕ → Self };

    /// Lends the initialised bytes from `begin` to `end` of the range. Their number can't change.
    fn range_mut(&mut self, begin: usize, end: usize) -> &mut [u8]
        requires ordered { begin ≤ end }
        requires inside { end ≤ length (shown (Self.buffer self.old)) }
        ensures* lends { sem 𝓛 (Lends Self.row (Array byte 0) self.entry result (with_bytes self.old begin)) }
        ensures value { result.now ≡ slice_range (shown (Self.buffer self.old)) begin end };

    /// Lends the initialised bytes. Their number can't change.
    fn bytes_mut(&mut self) -> &mut [u8]
        ensures* lends { sem 𝓛 (Lends Self.row (Array byte 0) self.entry result (with_bytes self.old 0)) }
        ensures value { result.now ≡ Self.content self.old }
    {
        self.keeps_bounds();
        let end = self.bytes_init();
        self.range_mut(0, end)
    }

    /// Other bytes are written over as many of the buffer's bytes, from that place of its range on.
    ghost with_bytes_buffer: { (b : Self) (at : ℕ) (w : List ℕ)
        → Self.buffer (with_bytes b at w) ≡ overwritten (Self.buffer b) ((Self.buffer b).begin + at) w };

    /// Other bytes leave the ranges under the buffer.
    ghost with_bytes_under: { (b : Self) (at : ℕ) (w : List ℕ) → Self.under (with_bytes b at w) ≡ Self.under b };

    /// Other bytes leave the parts beside the buffer.
    ghost with_bytes_beside: { (b : Self) (at : ℕ) (w : List ℕ) → Self.beside (with_bytes b at w) ≡ Self.beside b };
}

/// Bytes that last as long as the program (monoio: `&'static [u8]` itself).
#[derive(Debug, Drop)]
pub struct StaticBytes {
    bytes: &'static [u8],
}

impl Model for StaticBytes {
    ghost use Rattle.std.specs.Prelude.{List, ℕ};

    ghost Value = { List ℕ };

    ghost view = { λ s. s.bytes.now };
}

impl StaticBytes {
    /// These bytes as a buffer (not in monoio).
    pub fn new(b: &'static [u8]) -> StaticBytes
        ensures { result ≡ b.now }
    {
        StaticBytes { bytes: b }
    }
}

impl IoBuf for StaticBytes {
    ghost content = { λ s. s };

    fn bytes(&self) -> &[u8] {
        self.bytes
    }

    fn bytes_init(&self) -> usize {
        self.bytes.len()
    }
}

/// A text that lasts as long as the program, as its bytes (monoio: `&'static str` itself).
#[derive(Debug, Drop)]
pub struct StaticStr {
    text: &'static str,
}

impl Model for StaticStr {
    ghost use Rattle.std.specs.Prelude.{List, ℕ};

    ghost Value = { List ℕ };

    ghost view = { λ s. s.text.now };
}

impl StaticStr {
    /// The bytes of this text as a buffer (not in monoio).
    pub fn new(s: &'static str) -> StaticStr
        ensures { result ≡ s.now }
    {
        StaticStr { text: s }
    }
}

impl IoBuf for StaticStr {
    ghost content = { λ s. s };

    fn bytes(&self) -> &[u8] {
        self.text.as_bytes()
    }

    fn bytes_init(&self) -> usize {
        self.text.len()
    }
}

impl IoBuf for Vec<u8> {
    ghost content = { λ v. v.items };

    fn bytes(&self) -> &[u8] {
        self.as_slice()
    }

    fn bytes_init(&self) -> usize {
        self.len()
    }
}

impl IoBuf for Bytes {
    ghost content = { λ b. b };

    fn bytes(&self) -> &[u8] {
        self.as_slice()
    }

    fn bytes_init(&self) -> usize {
        self.len()
    }
}

impl IoBuf for BytesMut {
    ghost content = { λ b. b.items };

    fn bytes(&self) -> &[u8] {
        self.as_slice()
    }

    fn bytes_init(&self) -> usize {
        self.len()
    }
}

impl<T: IoBuf> IoBuf for Rc<T> {
    ghost content = { λ rc. T.content rc.value };

    fn bytes(&self) -> &[u8] {
        let inner: &T = self;
        inner.bytes()
    }

    fn bytes_init(&self) -> usize {
        let inner: &T = self;
        inner.bytes_init()
    }
}

impl<T: IoBuf> IoBuf for Arc<T> {
    ghost content = { λ arc. T.content (arc_value arc) };

    fn bytes(&self) -> &[u8] {
        let inner: &T = self;
        inner.bytes()
    }

    fn bytes_init(&self) -> usize {
        let inner: &T = self;
        inner.bytes_init()
    }
}
