// Reads of a slice: into a buffer and into parts, up to a delimiter and of lines.
use crate::tests::base::{
    Why, are_bytes, ended, is_like, is_outcome, is_well, list_of, made, parted,
};
use crate::tests::stage::Plain;
use crate::tests::steps::{ReadStep, run_reads};
use rent_buf::{ByteList, IoBuf as _, Rent};
use rent_io::PollCount::Ready;
use rent_io::{AsyncBufReadExt as _, AsyncReadRent as _, BufResult, IoFault};
use std::alloc::Global;
use std::test::Fail;

// What the row shows, the bytes of the stream, the outcome of a read up to `;`, the bytes behind a first `>`, and what is left.
type Until = (
    &'static str,
    &'static str,
    Result<usize, IoFault>,
    &'static str,
    &'static str,
);

#[rattlefmt::skip]
const UNTIL: &[Until] = &[
    ("the delimiter is added", "ab;cd;", Ok(3), ">ab;", "cd;"),
    ("a delimiter alone", ";ab", Ok(1), ">;", "ab"),
    ("the end in place of a delimiter", "ab", Ok(2), ">ab", ""),
    ("nothing left", "", Ok(0), ">", ""),
];

// A read up to `;`.
fn read_until(io: &mut &[u8], buf: ByteList) -> Result<BufResult<usize, ByteList>, Why> {
    ended(io.read_until(b';', buf).drive(io, 0, 9))
}

// One row.
fn until(alloc: Global, (_, bytes, want, read, left): Until) -> Result<(), Why> {
    let mut io = bytes.as_bytes();
    let (outcome, buf) = read_until(&mut io, list_of(alloc, ">")?)?;
    is_outcome(outcome, want)?;
    are_bytes("the bytes that were read", buf.as_slice(), read)?;
    are_bytes("the bytes that are left", io, left)
}

#[test]
fn bytes_are_read_up_to_a_delimiter(rt: HostRuntime) -> Result<(), Fail> {
    for each in UNTIL {
        is_well(&rt, each.0, until(rt.alloc(), *each));
    }
    Ok(())
}

// What the row shows, the bytes of the stream, the outcome of a read of a line, the text behind a first `>`, and what is left.
type Line = (
    &'static str,
    &'static [u8],
    Result<usize, IoFault>,
    &'static str,
    &'static str,
);

#[rattlefmt::skip]
const LINES: &[Line] = &[
    ("the newline is added", b"ab\ncd\n", Ok(3), ">ab\n", "cd\n"),
    ("the end in place of a newline", b"\xc3\xa9", Ok(2), ">\u{e9}", ""),
    ("nothing left", b"", Ok(0), ">", ""),
    ("bytes that are no text are taken back", b"a\xff\nb", Err(IoFault::InvalidData), ">", "b"),
];

// A read of a line.
fn read_line(io: &mut &[u8], text: String) -> Result<BufResult<usize, String>, Why> {
    ended(io.read_line(text).drive(io, 0, 9))
}

// One row.
fn line(alloc: Global, (_, bytes, want, read, left): Line) -> Result<(), Why> {
    let mut io = bytes;
    let (outcome, text) = read_line(&mut io, String::from_str(alloc, ">")?)?;
    is_outcome(outcome, want)?;
    are_bytes("the text", text.as_bytes(), read)?;
    are_bytes("the bytes that are left", io, left)
}

#[test]
fn lines_are_read_as_text(rt: HostRuntime) -> Result<(), Fail> {
    for each in LINES {
        is_well(&rt, each.0, line(rt.alloc(), *each));
    }
    Ok(())
}

// A read of `ab` into a buffer of ten bytes, of which four were there before.
fn slice_read(alloc: Global) -> Result<(), Why> {
    let buf = made(Rent::from_vec(b"0123".to_vec(alloc)?, 10))?;
    let (answer, buf) = parted(b"ab".as_slice().poll_read(buf, 0));
    is_like("the answer", answer == Ready(Ok(2)))?;
    are_bytes("the bytes that were read", buf.bytes(), "ab")
}

#[rattlefmt::skip]
const SCATTERED: &[ReadStep] = &[ReadStep::Parts(&["", "..", "."], Ready(Ok(2)), &["", "xy", "."])];

// A read of `xyz` into parts of the rooms 0, 2 and 1.
fn slice_scattered(alloc: Global) -> Result<(), Why> {
    let mut stage = Plain {
        io: b"xyz".as_slice(),
    };
    run_reads(alloc, &mut stage, SCATTERED)
}

#[test]
fn a_slice_is_read_into_a_rent(rt: HostRuntime) -> Result<(), Fail> {
    is_well(&rt, "a slice", slice_read(rt.alloc()));
    is_well(&rt, "a slice into parts", slice_scattered(rt.alloc()));
    Ok(())
}
