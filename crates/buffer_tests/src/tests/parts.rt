// Parts that are filled, lent, copied and left to move, and the first part as a buffer.
ghost use Rattle.std.specs.Prelude.{◌≡◌, ◌≤◌, length, IfOk};
ghost use Rattle.rent_buf.specs.Parts.{part_at};
ghost use Rattle.rent_buf.specs.VecWrapper.{behind_first};

use crate::tests::acts::{Act, acts_lent, fill_range};
use crate::tests::read::holds;
use crate::tests::why::{Why, ended, is_like, parts_of};
use rent_buf::{
    IoBufMut, IoVecBuf, IoVecBufMut, IoVecWrapper, IoVecWrapperMut, LendParts, OutOfMemory, Ranges,
    VecBuf,
};
use std::alloc::Global;

// Whether parts show these texts.
fn shows<B: IoVecBuf>(parts: &B, texts: &[&str]) -> bool {
    if parts.parts_len() != texts.len() {
        return false;
    }
    for i in 0..texts.len() {
        if i >= parts.parts_len() || parts.part(i) != texts[i].as_bytes() {
            return false;
        }
    }
    true
}

// Stores bytes in the first part, if there is room.
fn store_first(parts: &mut VecBuf, at: usize, bytes: &[u8]) -> Result<(), Why> {
    if parts.parts_len() == 0 {
        return Err(Why::Unmet);
    }
    let room = parts.room(0);
    if at > parts.part(0).len() || at > room || bytes.len() > room - at {
        return Err(Why::Unmet);
    }
    parts.store_part(0, at, bytes);
    Ok(())
}

// Sets the first byte of the second part, which has so many.
fn set_second(parts: &mut VecBuf, len: usize, byte: u8) -> Result<(), Why> {
    if parts.parts_len() < 2 {
        return Err(Why::Unmet);
    }
    let lent = parts.part_mut(1);
    if lent.len() == 0 || lent.len() != len {
        return Err(Why::Unlike);
    }
    lent[0] = byte;
    Ok(())
}

fn one_part(alloc: Global) -> Result<(), Why> {
    let mut parts = parts_of(alloc, &["abc", "de"])?;
    is_like(parts.parts_len() == 2 && parts.room(0) == 3)?;
    store_first(&mut parts, 1, b"x")?;
    set_second(&mut parts, 2, b'z')?;
    is_like(shows(&parts, &["ax", "ze"]))
}

// The vector that one part was made of is this one.
fn is_only(parts: VecBuf, want: &[u8]) -> Result<bool, Why> {
    let Ok(mut lists) = parts.into_parts() else {
        return Err(Why::OutOfMemory);
    };
    match (lists.pop(), lists.is_empty()) {
        (Some(list), true) => Ok(list.as_slice() == want),
        _ => Ok(false),
    }
}

// Stores bytes from the first part on, if there is room.
fn store_front(parts: &mut VecBuf, bytes: &[u8]) -> Result<(), Why> {
    if parts.total_room() < bytes.len() {
        return Err(Why::Unmet);
    }
    parts.store_front(bytes);
    Ok(())
}

fn a_copy(alloc: Global) -> Result<(), Why> {
    let parts = parts_of(alloc, &["ab"])?;
    let mut copy = parts.try_clone()?;
    store_front(&mut copy, b"x")?;
    is_like(is_only(copy, b"x")?)?;
    is_like(is_only(parts, b"ab")?)
}

// The first part to read, and the parts back.
fn first_of(parts: VecBuf) -> Result<IoVecWrapper<VecBuf>, Why> {
    match IoVecWrapper::new(parts) {
        Ok(first) => Ok(first),
        Err(_) => Err(Why::Unlike),
    }
}

fn read_first(alloc: Global) -> Result<(), Why> {
    let first = first_of(parts_of(alloc, &["abc", "de"])?)?;
    let parts = first.into_inner();
    is_like(shows(&parts, &["abc", "de"]))?;
    holds(first_of(parts)?, "abc")
}

#[rattlefmt::skip]
const FIRST: &[Act] =
    &[Act::Sizes(4, 4), Act::Store(1, "abc"), Act::Fill(2, 4, "x"), Act::Set(b'z'), Act::Sizes(3, 4)];

fn fill_first_part(alloc: Global) -> Result<(), Why> {
    let Ok(first) = IoVecWrapperMut::new(parts_of(alloc, &["0123", "de"])?) else {
        return Err(Why::Unlike);
    };
    let first = acts_lent(first, FIRST)?;
    is_like(shows(&first.into_inner(), &["zax", "de"]))
}

fn no_parts(alloc: Global) -> Result<(), Why> {
    let Err(back) = IoVecWrapper::new(parts_of(alloc, &[])?) else {
        return Err(Why::Unlike);
    };
    is_like(shows(&back, &[]))?;
    let Err(back) = IoVecWrapperMut::new(back) else {
        return Err(Why::Unlike);
    };
    is_like(shows(&back, &[]))
}

// Fills the first part by code that knows only `IoBufMut`, through a slice of the wrapper. The parts behind it stay.
fn fill_first(parts: VecBuf, bytes: &[u8]) -> Result<VecBuf, VecBuf>
    requires { length bytes.now ≤ (part_at parts 0).total }
    ensures { IfOk result (λ filled. behind_first filled ≡ behind_first parts) }
{
    let first = IoVecWrapperMut::new(parts)?;
    let room = first.bytes_total();
    let slice = fill_range(first.slice_mut(0, room), 0, room, bytes);
    Ok(slice.into_inner().into_inner())
}

fn fill_as_slice(alloc: Global) -> Result<(), Why> {
    let parts = parts_of(alloc, &["0123", "de"])?;
    if parts.parts_len() != 2 || parts.room(0) != 4 {
        return Err(Why::Unlike);
    }
    let Ok(parts) = fill_first(parts, b"ab") else {
        return Err(Why::Unlike);
    };
    is_like(shows(&parts, &["ab", "de"]))
}

#[test]
fn parts_are_filled_and_copied(rt: HostRuntime) -> Result<(), OutOfMemory> {
    let alloc = rt.alloc();
    ended(&rt, "stores in one part", one_part(alloc));
    ended(&rt, "a copy is apart", a_copy(alloc));
    ended(&rt, "the first part is read", read_first(alloc));
    ended(&rt, "the first part is filled", fill_first_part(alloc));
    ended(&rt, "no parts come back", no_parts(alloc));
    ended(
        &rt,
        "the first part is filled as a slice",
        fill_as_slice(alloc),
    );
    Ok(())
}

// So many bytes there were, and these ranges are left, of so many bytes.
fn ranges_are(ranges: &Ranges, len: usize, left: usize, want: &[(usize, usize, usize)]) -> bool {
    if (ranges.len(), ranges.left(), ranges.parts_left()) != (len, left, want.len()) {
        return false;
    }
    for i in 0..want.len() {
        if i >= ranges.parts_left() || ranges.range(i) != want[i] {
            return false;
        }
    }
    true
}

// Takes so many bytes away, if there are as many.
fn consume(ranges: &mut Ranges, count: usize) -> Result<(), Why> {
    if count > ranges.left() {
        return Err(Why::Unmet);
    }
    ranges.consume(count);
    Ok(())
}

fn taken(alloc: Global) -> Result<(), Why> {
    let parts = parts_of(alloc, &["hello", "world"])?;
    let mut ranges = Ranges::of_write(alloc, &parts)?;
    consume(&mut ranges, 2)?;
    is_like(ranges_are(&ranges, 10, 8, &[(0, 2, 5), (1, 0, 5)]))?;
    consume(&mut ranges, 8)?;
    is_like(ranges_are(&ranges, 10, 0, &[]))
}

// The ranges of parts to be read, if their rooms have a sum.
fn of_read(alloc: Global, parts: &VecBuf) -> Result<Ranges, Why> {
    if !Ranges::read_fits(parts) {
        return Err(Why::Unmet);
    }
    Ok(Ranges::of_read(alloc, parts)?)
}

// The ranges of three parts, and of as many bytes.
const THREE: &[(usize, usize, usize)] = &[(0, 0, 10), (1, 0, 20), (2, 0, 30)];

fn made(alloc: Global) -> Result<(), Why> {
    let zeros = "000000000000000000000000000000";
    let parts = parts_of(alloc, &["0000000000", "00000000000000000000", zeros])?;
    is_like(ranges_are(&of_read(alloc, &parts)?, 60, 60, THREE))?;
    is_like(ranges_are(&Ranges::of_write(alloc, &parts)?, 60, 60, THREE))?;
    is_like(ranges_are(&Ranges::of_bytes(alloc, 60)?, 60, 60, &[(0, 0, 60)]))
}

#[test]
fn ranges_are_made_and_taken_away(rt: HostRuntime) -> Result<(), OutOfMemory> {
    ended(&rt, "ranges are taken away", taken(rt.alloc()));
    ended(&rt, "each part has a range", made(rt.alloc()));
    Ok(())
}
