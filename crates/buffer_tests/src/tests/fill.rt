// Vectors with a total, boxes, and ranges of them, that are filled.
use crate::tests::acts::{
    Act, acts, acts_lent, cut, is_range, set, set_inside, shows, sizes, store,
};
use crate::tests::why::{Why, ended, is_like, list_of, vec_of};
use Act::{Fill, Set, Shows, Sizes, Store};
use rent_buf::{
    BufSpec, FixedVec, Grow, IoBuf, IoBufMut, Kind, LendBytes, OutOfMemory, Rent, SliceMut,
};
use std::alloc::Global;
use std::boxed::BoxedSlice;

// The types of buffers that are filled.
#[derive(Clone, Copy)]
enum Type {
    // A vector with a total of 10.
    Rent,
    // A vector that keeps its tail, with a total of 10.
    Grow,
    Fixed,
    BoxedSlice,
    // A boxed array of `12345`.
    BoxedArray,
}

// A row: its name, the type of a buffer, what it is made of, what is done with it, and its vector or its bytes then.
type Row = (
    &'static str,
    Type,
    &'static str,
    &'static [Act],
    &'static str,
);

#[rattlefmt::skip]
const ROWS: &[Row] = &[
    ("a vector is filled behind its bytes", Type::Rent, "0123",
        &[Fill(4, 10, "45"), Set(b'a'), Shows("a12345")], "a12345"),
    ("a vector keeps its longer tail", Type::Grow, "0123",
        &[Sizes(4, 10), Store(1, "xy"), Set(b'a'), Shows("axy3")], "axy3"),
    ("a vector of fixed length is as long", Type::Fixed, "0123", &[Store(1, "xy"), Set(b'a')], "axy3"),
    ("a boxed slice", Type::BoxedSlice, "12345", &[Sizes(5, 5), Store(1, "78")], "17845"),
    ("a boxed array", Type::BoxedArray, "12345", &[Sizes(5, 5), Store(0, "9"), Fill(3, 5, "60")], "92360"),
];

// A vector with a total of 10.
fn rent_of(alloc: Global, text: &str) -> Result<Rent, Why> {
    let vec = vec_of(alloc, text)?;
    if vec.len() > 10 {
        return Err(Why::Unmet);
    }
    match Rent::from_vec(vec, 10) {
        Ok(rent) => Ok(rent),
        Err(_) => Err(Why::OutOfMemory),
    }
}

// A vector that keeps its tail, with a total of 10.
fn grow_of(alloc: Global, text: &str) -> Result<Grow, Why> {
    let vec = vec_of(alloc, text)?;
    if vec.len() > 10 {
        return Err(Why::Unmet);
    }
    match Grow::from_vec(vec, 10) {
        Ok(grow) => Ok(grow),
        Err(_) => Err(Why::OutOfMemory),
    }
}

// A vector shows these bytes, and is empty with its total once it is cleared.
fn clear_rent(rent: Rent, want: &str) -> Result<(), Why> {
    let mut rent = rent;
    is_like(shows(&rent, want.as_bytes()))?;
    rent.clear();
    is_like(sizes(&rent) == (0, 10))
}

// The same of a vector that keeps its tail, whose vector is empty then.
fn clear_grow(grow: Grow, want: &str) -> Result<(), Why> {
    let mut grow = grow;
    is_like(shows(&grow, want.as_bytes()))?;
    grow.clear();
    is_like(sizes(&grow) == (0, 10))?;
    is_like(grow.into_vec().is_empty())
}

fn fixed(alloc: Global, made: &str, all: &[Act], want: &str) -> Result<(), Why> {
    let fixed = acts_lent(FixedVec::from_vec(vec_of(alloc, made)?), all)?;
    is_like(fixed.into_vec().as_slice() == want.as_bytes())
}

fn boxed_slice(alloc: Global, made: &str, all: &[Act], want: &str) -> Result<(), Why> {
    let slice = acts(BoxedSlice::from_slice(alloc, made.as_bytes())?, all)?;
    is_like(shows(&slice, want.as_bytes()))
}

fn boxed_array(alloc: Global, all: &[Act], want: &str) -> Result<(), Why> {
    let array = acts(Box::new(alloc, *b"12345")?, all)?;
    is_like(shows(&array, want.as_bytes()))
}

// One row.
fn row(alloc: Global, (_, of, made, all, want): Row) -> Result<(), Why> {
    match of {
        Type::Rent => clear_rent(acts_lent(rent_of(alloc, made)?, all)?, want),
        Type::Grow => clear_grow(acts_lent(grow_of(alloc, made)?, all)?, want),
        Type::Fixed => fixed(alloc, made, all, want),
        Type::BoxedSlice => boxed_slice(alloc, made, all, want),
        Type::BoxedArray => boxed_array(alloc, all, want),
    }
}

#[test]
fn buffers_are_filled(rt: HostRuntime) -> Result<(), OutOfMemory> {
    for each in ROWS {
        ended(&rt, each.0, row(rt.alloc(), *each));
    }
    Ok(())
}

// A vector that is refused for its total comes back.
fn comes_back(alloc: Global) -> Result<(), Why> {
    let Err((refusal, vec)) = Rent::from_vec(vec_of(alloc, "7")?, usize::MAX) else {
        return Err(Why::Unlike);
    };
    is_like(refusal == OutOfMemory && vec.as_slice() == b"7".as_slice())
}

// A spec whose total passes memory has no copy, and no buffer is built of it.
fn builds_nothing(alloc: Global) -> Result<(), Why> {
    let most = usize::MAX;
    let Some(spec) = BufSpec::new(Kind::Vector, most, 0, most, list_of(alloc, "7")?) else {
        return Err(Why::Unmet);
    };
    is_like(spec.try_clone().is_err())?;
    is_like(spec.build().is_err())
}

#[test]
fn totals_past_memory_are_refused(rt: HostRuntime) -> Result<(), OutOfMemory> {
    let alloc = rt.alloc();
    let no_rent = is_like(Rent::with_total(alloc, usize::MAX).is_err());
    ended(&rt, "no vector", no_rent);
    let no_grow = is_like(Grow::with_total(alloc, usize::MAX).is_err());
    ended(&rt, "no vector that keeps its tail", no_grow);
    ended(&rt, "the vector comes back", comes_back(alloc));
    ended(&rt, "nothing is built", builds_nothing(alloc));
    Ok(())
}

// A buffer of total 10, a range of it, and a store: what the buffer holds, the range, where the store begins, what is stored, what the
// slice shows then, and what the buffer holds then.
type Stored = (
    &'static str,
    usize,
    usize,
    usize,
    &'static str,
    &'static str,
    &'static str,
);

#[rattlefmt::skip]
const STORES: &[Stored] = &[
    ("0123", 0, 10, 4, "4567", "01234567", "01234567"),
    ("0123", 1, 8, 0, "abcde", "abcde", "0abcde"),
    ("01234567", 1, 8, 1, "x", "1x", "01x"),
    ("01234567", 2, 4, 0, "ab", "ab", "01ab"),
    ("0123", 2, 3, 1, "", "2", "012"),
    ("", 0, 10, 0, "0123456789", "0123456789", "0123456789"),
];

// A range has the store, and so has the buffer inside, which it gives back.
fn has_stored<B: IoBufMut + Drop>(slice: SliceMut<B>, row: Stored) -> Result<B, Why> {
    let (_, begin, end, _, _, shown, inside) = row;
    is_like(is_range(&slice, begin, end))?;
    is_like(sizes(&slice) == (shown.len(), end.saturating_sub(begin)))?;
    is_like(shows(&slice, shown.as_bytes()))?;
    is_like(slice.get_ref().bytes() == inside.as_bytes())?;
    Ok(slice.into_inner())
}

// A store in a range of a buffer, which comes back.
fn stored<B: IoBufMut + Drop>(buf: B, row: Stored) -> Result<B, Why> {
    let (held, begin, end, at, bytes, _, _) = row;
    is_like(sizes(&buf) == (held.len(), 10))?;
    let mut slice = cut(buf, begin, end)?;
    store(&mut slice, at, bytes.as_bytes())?;
    has_stored(slice, row)
}

// One store.
fn store_row(alloc: Global, row: Stored) -> Result<(), Why> {
    let mut rent = Rent::with_total(alloc, 10)?;
    store(&mut rent, 0, row.0.as_bytes())?;
    let rent = stored(rent, row)?;
    is_like(rent.into_vec().as_slice() == row.6.as_bytes())
}

#[test]
fn stores_in_a_range(rt: HostRuntime) -> Result<(), OutOfMemory> {
    for each in STORES {
        ended(&rt, each.4, store_row(rt.alloc(), *each));
    }
    Ok(())
}

// A range of a buffer, by the unchecked calls.
fn cut_unchecked<B: IoBufMut + Drop>(buf: B, begin: usize, end: usize) -> Result<SliceMut<B>, Why> {
    if !buf.slice_mut_fits(begin, end) {
        return Err(Why::Unmet);
    }
    Ok(SliceMut::new_unchecked(buf, begin, end))
}

// The same, by the method.
fn nest_unchecked<B: IoBufMut + Drop>(
    buf: B,
    begin: usize,
    end: usize,
) -> Result<SliceMut<B>, Why> {
    if !buf.slice_mut_fits(begin, end) {
        return Err(Why::Unmet);
    }
    Ok(buf.slice_mut_unchecked(begin, end))
}

// The range of a range is changed, and gives the outer one back.
fn inner<B: LendBytes + Drop>(outer: B) -> Result<B, Why> {
    let mut inner = nest_unchecked(outer, 1, 6)?;
    set(&mut inner, b'a')?;
    let inner = acts(inner, &[Fill(1, 4, "bc"), Shows("abc")])?;
    is_like(is_range(&inner, 1, 6))?;
    Ok(inner.into_inner())
}

// A range of a buffer is changed inside and out, and gives the buffer back.
fn outer<B: LendBytes + Drop>(buf: B) -> Result<B, Why> {
    let mut outer = inner(cut_unchecked(buf, 2, 9)?)?;
    set_inside(&mut outer, 6, b'z')?;
    is_like(is_range(&outer, 2, 9))?;
    is_like(shows(&outer, b"2abc"))?;
    Ok(outer.into_inner())
}

// Ranges of ranges come apart.
fn nested(alloc: Global) -> Result<(), Why> {
    let rent = outer(rent_of(alloc, "01234567")?)?;
    is_like(shows(&rent, b"z12abc"))
}

// A write in a range is one in the buffer.
fn written<B: LendBytes + Drop>(buf: B) -> Result<B, Why> {
    let mut slice = cut(buf, 0, 5)?;
    is_like(shows(&slice, b"hello"))?;
    set_inside(&mut slice, 11, b'b')?;
    is_like(shows(&slice, b"bello"))?;
    Ok(slice.into_inner())
}

// A vector with a total of 11.
fn hello(alloc: Global) -> Result<Rent, Why> {
    let vec = vec_of(alloc, "hello world")?;
    if vec.len() > 11 {
        return Err(Why::Unmet);
    }
    match Rent::from_vec(vec, 11) {
        Ok(rent) => Ok(rent),
        Err(_) => Err(Why::OutOfMemory),
    }
}

// A write in a range of such a vector.
fn written_hello(alloc: Global) -> Result<(), Why> {
    let rent = written(hello(alloc)?)?;
    is_like(shows(&rent, b"bello world"))
}

#[test]
fn a_write_in_a_range_is_in_the_buffer(rt: HostRuntime) -> Result<(), OutOfMemory> {
    ended(&rt, "ranges of ranges come apart", nested(rt.alloc()));
    ended(&rt, "a write in a range", written_hello(rt.alloc()));
    Ok(())
}
