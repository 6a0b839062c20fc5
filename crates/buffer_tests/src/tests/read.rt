// Buffers of each type, as code that knows only `IoBuf` reads them.
use crate::tests::acts::{cut, part, part_unchecked, shows, store};
use crate::tests::why::{Why, ended, is_like, vec_of};
use bytes::{Bytes, BytesMut};
use rent_buf::{FixedVec, Grow, IoBuf, OutOfMemory, Rent, Slice, StaticBytes, StaticStr};
use std::alloc::Global;
use std::boxed::BoxedSlice;
use std::rc::Rc;
use std::sync::Arc;

// Whether a range that ends before it starts, or one past the bytes, is a range.
fn fits_wrongly<B: IoBuf>(buf: &B) -> bool {
    buf.slice_fits(2, 1) || buf.slice_fits(3, usize::MAX)
}

// Whether a range is from 1 to 3, shows these two bytes and has all bytes inside.
fn is_middle<B: IoBuf>(slice: &Slice<B>, two: &[u8], all: &[u8]) -> bool {
    (slice.begin(), slice.end()) == (1, 3) && shows(slice, two) && slice.get_ref().bytes() == all
}

// How many bytes an empty range shows, if it is a range.
fn empty_len<B: IoBuf + Drop>(buf: B) -> Option<usize> {
    if !buf.slice_fits(0, 0) {
        return None;
    }
    Some(buf.slice_unchecked(0, 0).bytes_init())
}

/// A buffer of any type holds this text, and its second and third byte are a range of it.
pub(crate) fn holds<B: IoBuf + Drop>(buf: B, text: &str) -> Result<(), Why> {
    let want = text.as_bytes();
    is_like(shows(&buf, want))?;
    is_like(!fits_wrongly(&buf))?;
    if want.len() < 3 {
        return Err(Why::Unmet);
    }
    let slice = part(buf, 1, 3)?;
    is_like(is_middle(&slice, &want[1..3], want))?;
    is_like(empty_len(slice.into_inner()) == Some(0))
}

// The types of buffers.
#[derive(Clone, Copy)]
enum Type {
    StaticText,
    StaticBytes,
    Vector,
    Bytes,
    BytesMut,
    Shared,
    SharedBetweenThreads,
    // The range of a static text, from 6 to 11.
    Range,
    BoxedSlice,
    BoxedArray,
    Fixed,
    // A vector with a total of 8.
    Rent,
    // The range of a vector that keeps its tail, from 1 to 8.
    Grow,
}

// A row: its name, the type of a buffer, what it is made of, and what it shows.
type Row = (&'static str, Type, &'static str, &'static str);

const HELLO: &str = "hello world";

#[rattlefmt::skip]
const ROWS: &[Row] = &[
    ("a static text", Type::StaticText, HELLO, HELLO),
    ("static bytes", Type::StaticBytes, HELLO, HELLO),
    ("a vector", Type::Vector, HELLO, HELLO),
    ("shared bytes", Type::Bytes, HELLO, HELLO),
    ("bytes that are not shared", Type::BytesMut, HELLO, HELLO),
    ("a shared vector", Type::Shared, HELLO, HELLO),
    ("a text shared between threads", Type::SharedBetweenThreads, HELLO, HELLO),
    ("a range of a text", Type::Range, HELLO, "world"),
    ("a boxed slice", Type::BoxedSlice, "12345", "12345"),
    ("a boxed array", Type::BoxedArray, "12345", "12345"),
    ("a vector of fixed length", Type::Fixed, "12345", "12345"),
    ("a vector with a total", Type::Rent, "12345", "12345"),
    ("a range of a vector that keeps its tail", Type::Grow, "012345", "12345"),
];

fn of_range(made: &'static str, want: &str) -> Result<(), Why> {
    holds(part_unchecked(StaticStr::new(made), 6, 11)?, want)
}

fn of_bytes(alloc: Global, made: &str, want: &str) -> Result<(), Why> {
    holds(Bytes::copy_from_slice(alloc, made.as_bytes())?, want)
}

fn of_bytes_mut(alloc: Global, made: &str, want: &str) -> Result<(), Why> {
    holds(BytesMut::copy_from_slice(alloc, made.as_bytes())?, want)
}

fn of_shared(alloc: Global, made: &str, want: &str) -> Result<(), Why> {
    holds(Rc::new(alloc, vec_of(alloc, made)?)?, want)
}

fn of_shared_text(alloc: Global, made: &'static str, want: &str) -> Result<(), Why> {
    holds(Arc::new(alloc, StaticStr::new(made))?, want)
}

fn of_boxed_slice(alloc: Global, made: &str, want: &str) -> Result<(), Why> {
    holds(BoxedSlice::from_slice(alloc, made.as_bytes())?, want)
}

fn of_boxed_array(alloc: Global, want: &str) -> Result<(), Why> {
    holds(Box::new(alloc, *b"12345")?, want)
}

fn of_rent(alloc: Global, made: &str, want: &str) -> Result<(), Why> {
    let mut rent = Rent::with_total(alloc, 8)?;
    store(&mut rent, 0, made.as_bytes())?;
    holds(rent, want)
}

fn of_grow(alloc: Global, made: &str, want: &str) -> Result<(), Why> {
    let mut grow = Grow::with_total(alloc, 8)?;
    store(&mut grow, 0, made.as_bytes())?;
    holds(cut(grow, 1, 8)?, want)
}

// One row.
fn row(alloc: Global, (_, of, made, want): Row) -> Result<(), Why> {
    match of {
        Type::StaticText => holds(StaticStr::new(made), want),
        Type::StaticBytes => holds(StaticBytes::new(made.as_bytes()), want),
        Type::Vector => holds(vec_of(alloc, made)?, want),
        Type::Bytes => of_bytes(alloc, made, want),
        Type::BytesMut => of_bytes_mut(alloc, made, want),
        Type::Shared => of_shared(alloc, made, want),
        Type::SharedBetweenThreads => of_shared_text(alloc, made, want),
        Type::Range => of_range(made, want),
        Type::BoxedSlice => of_boxed_slice(alloc, made, want),
        Type::BoxedArray => of_boxed_array(alloc, want),
        Type::Fixed => holds(FixedVec::from_vec(vec_of(alloc, made)?), want),
        Type::Rent => of_rent(alloc, made, want),
        Type::Grow => of_grow(alloc, made, want),
    }
}

#[test]
fn a_buffer_of_each_type_is_read(rt: HostRuntime) -> Result<(), OutOfMemory> {
    for each in ROWS {
        ended(&rt, each.0, row(rt.alloc(), *each));
    }
    Ok(())
}
