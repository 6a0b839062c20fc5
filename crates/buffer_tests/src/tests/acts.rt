// What tests do with a buffer of any type: each function makes one call, and asks before for its condition.
ghost use Rattle.std.specs.Prelude.{◌≡◌, ◌+◌, ◌<◌, ◌≤◌, length, slice_set};
ghost use Rattle.rent_buf.specs.Buffer.{IsRange, shown, put, overwritten};

use crate::tests::why::{Why, is_like};
use rent_buf::{IoBuf, IoBufMut, LendBytes, Slice, SliceMut};

/// What is done with a buffer, and what it shows.
#[derive(Clone, Copy)]
pub(crate) enum Act {
    /// Bytes are stored from a place of its range on.
    Store(usize, &'static str),
    /// A range of it is filled from its begin on, as a buffer of its own.
    Fill(usize, usize, &'static str),
    /// The first byte that it shows is set.
    Set(u8),
    /// It shows these bytes.
    Shows(&'static str),
    /// It shows so many bytes, and has so much room.
    Sizes(usize, usize),
}

/// Fills a range of a buffer as a buffer of its own, and gives the buffer back.
pub(crate) fn fill_range<B: IoBufMut>(buf: B, begin: usize, end: usize, bytes: &[u8]) -> B
    requires range { IsRange (B.buffer buf) begin end }
    requires room { begin + length bytes.now ≤ end }
    ensures put { B.buffer result ≡ put (B.buffer buf) ((B.buffer buf).begin + begin) bytes.now }
    ensures under { B.under result ≡ B.under buf }
    ensures beside { B.beside result ≡ B.beside buf }
{
    let mut slice = buf.slice_mut(begin, end);
    slice.store(0, bytes);
    slice.into_inner()
}

// Sets the first byte that a buffer shows.
fn set_first<B: LendBytes>(buf: &mut B, byte: u8)
    requires { 0 < length (shown (B.buffer buf.old)) }
    ensures buffer { B.buffer buf.new
        ≡ overwritten (B.buffer buf.old) (B.buffer buf.old).begin (slice_set (shown (B.buffer buf.old)) 0 byte) }
    ensures beside { B.beside buf.new ≡ B.beside buf.old }
{
    buf.keeps_bounds();
    let bytes = buf.bytes_mut();
    bytes[0] = byte;
}

/// Whether a buffer shows these bytes, and says that they are as many.
pub(crate) fn shows<B: IoBuf>(buf: &B, want: &[u8]) -> bool {
    buf.bytes() == want && buf.bytes_init() == want.len()
}

/// How many bytes a buffer shows, and its room.
pub(crate) fn sizes<B: IoBufMut>(buf: &B) -> (usize, usize) {
    (buf.bytes_init(), buf.bytes_total())
}

/// Stores bytes from a place on, if there is room.
pub(crate) fn store<B: IoBufMut>(buf: &mut B, at: usize, bytes: &[u8]) -> Result<(), Why> {
    let total = buf.bytes_total();
    if at > buf.bytes_init() || at > total || bytes.len() > total - at {
        return Err(Why::Unmet);
    }
    buf.store(at, bytes);
    Ok(())
}

/// Sets the first byte, if there is one.
pub(crate) fn set<B: LendBytes>(buf: &mut B, byte: u8) -> Result<(), Why> {
    buf.keeps_bounds();
    if buf.bytes_init() == 0 {
        return Err(Why::Unmet);
    }
    set_first(buf, byte);
    Ok(())
}

// Fills a range, if it is one and has room.
fn fill<B: IoBufMut + Drop>(buf: B, begin: usize, end: usize, bytes: &[u8]) -> Result<B, Why> {
    if !buf.slice_mut_fits(begin, end) || begin > end || bytes.len() > end - begin {
        return Err(Why::Unmet);
    }
    Ok(fill_range(buf, begin, end, bytes))
}

/// A range of a buffer, if it is one.
pub(crate) fn cut<B: IoBufMut + Drop>(
    buf: B,
    begin: usize,
    end: usize,
) -> Result<SliceMut<B>, Why> {
    if !buf.slice_mut_fits(begin, end) {
        return Err(Why::Unmet);
    }
    Ok(buf.slice_mut(begin, end))
}

/// A range of a buffer that is read, if it is one.
pub(crate) fn part<B: IoBuf + Drop>(buf: B, begin: usize, end: usize) -> Result<Slice<B>, Why> {
    if !buf.slice_fits(begin, end) {
        return Err(Why::Unmet);
    }
    Ok(buf.slice(begin, end))
}

/// The same, by the unchecked call.
pub(crate) fn part_unchecked<B: IoBuf + Drop>(
    buf: B,
    begin: usize,
    end: usize,
) -> Result<Slice<B>, Why> {
    if !buf.slice_fits(begin, end) {
        return Err(Why::Unmet);
    }
    Ok(Slice::new_unchecked(buf, begin, end))
}

/// Does one thing with a buffer.
pub(crate) fn make_act<B: IoBufMut + Drop>(buf: B, one: Act) -> Result<B, Why> {
    let mut buf = buf;
    match one {
        Act::Store(at, bytes) => store(&mut buf, at, bytes.as_bytes())?,
        Act::Fill(begin, end, bytes) => return fill(buf, begin, end, bytes.as_bytes()),
        Act::Set(_) => return Err(Why::Unmet),
        Act::Shows(bytes) => is_like(shows(&buf, bytes.as_bytes()))?,
        Act::Sizes(init, total) => is_like(sizes(&buf) == (init, total))?,
    }
    Ok(buf)
}

/// Does one thing with a buffer whose bytes can be lent.
pub(crate) fn act_lent<B: LendBytes + Drop>(buf: B, one: Act) -> Result<B, Why> {
    match one {
        Act::Set(byte) => {
            let mut buf = buf;
            set(&mut buf, byte)?;
            Ok(buf)
        }
        _ => make_act(buf, one),
    }
}

/// Does these things in order with a buffer.
pub(crate) fn acts<B: IoBufMut + Drop>(buf: B, all: &[Act]) -> Result<B, Why> {
    let mut buf = buf;
    for one in all {
        buf = make_act(buf, *one)?;
    }
    Ok(buf)
}

/// Does these things in order with a buffer whose bytes can be lent.
pub(crate) fn acts_lent<B: LendBytes + Drop>(buf: B, all: &[Act]) -> Result<B, Why> {
    let mut buf = buf;
    for one in all {
        buf = act_lent(buf, *one)?;
    }
    Ok(buf)
}

/// Whether a range of a buffer is from one place to another.
pub(crate) fn is_range<B: IoBufMut>(slice: &SliceMut<B>, begin: usize, end: usize) -> bool {
    (slice.begin(), slice.end()) == (begin, end)
}

/// Sets the first byte of the buffer inside a range, which shows so many.
pub(crate) fn set_inside<B: LendBytes>(
    slice: &mut SliceMut<B>,
    len: usize,
    byte: u8,
) -> Result<(), Why> {
    let whole = slice.get_mut();
    if whole.len() == 0 || whole.len() != len {
        return Err(Why::Unlike);
    }
    whole[0] = byte;
    Ok(())
}
