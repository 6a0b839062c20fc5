// Reads and writes of a file at positions.
use crate::tests::base::{Why, are_bytes, is_like, is_well, nums_of, parted, room_of, vec_of};
use rent_buf::{IoBuf, Rent};
use rent_io::PollCount::Ready;
use rent_io::{AsyncReadRentAt, AsyncWriteRentAt, IoFault, MemFile, PollCount};
use std::alloc::Global;
use std::test::Fail;

// A call at a position, and what it is to answer.
#[derive(Clone, Copy)]
enum At {
    // A write of these bytes, and those of the file then.
    Write(u64, &'static str, PollCount, &'static str),
    // A read into a buffer with so much room, and what is read.
    Read(u64, usize, PollCount, &'static str),
}

// What the row shows, the numbers of the calls that fail, and the calls.
type Row = (&'static str, &'static [u64], &'static [At]);

#[rattlefmt::skip]
const ROWS: &[Row] = &[
    ("a write of nothing behind the end changes nothing", &[], &[At::Write(2, "", Ready(Ok(0)), "")]),
    ("a gap before what is written is 0", &[], &[At::Write(2, "a", Ready(Ok(1)), "\0\0a")]),
    ("a write goes over what is there", &[], &[At::Write(0, "abcde", Ready(Ok(5)), "abcde"), At::Write(1, "xy", Ready(Ok(2)), "axyde")]),
    ("a write goes beyond the end", &[], &[At::Write(0, "abc", Ready(Ok(3)), "abc"), At::Write(2, "xy", Ready(Ok(2)), "abxy")]),
    ("a write of nothing within", &[], &[At::Write(0, "abc", Ready(Ok(3)), "abc"), At::Write(1, "", Ready(Ok(0)), "abc")]),
    ("reads take the bytes from a position on", &[], &[
        At::Write(0, "abcde", Ready(Ok(5)), "abcde"), At::Read(1, 2, Ready(Ok(2)), "bc"), At::Read(3, 9, Ready(Ok(2)), "de"),
        At::Read(5, 4, Ready(Ok(0)), ""), At::Read(9, 4, Ready(Ok(0)), ""), At::Read(0, 0, Ready(Ok(0)), ""),
    ]),
    ("calls that fail change nothing", &[1, 2], &[
        At::Write(0, "ab", Ready(Ok(2)), "ab"), At::Write(1, "x", Ready(Err(IoFault::WriteFault)), "ab"),
        At::Read(0, 2, Ready(Err(IoFault::ReadFault)), ""), At::Read(0, 2, Ready(Ok(2)), "ab"),
    ]),
];

// One read.
fn read(file: &mut MemFile, buf: Rent, pos: u64) -> (PollCount, Rent) {
    parted(AsyncReadRentAt::poll_read_at(file, buf, pos, 0))
}

// One write.
fn write(file: &mut MemFile, bytes: Vec<u8>, pos: u64) -> PollCount {
    parted(AsyncWriteRentAt::poll_write_at(file, bytes, pos, 0)).0
}

// A write is as its row says.
fn writes(
    alloc: Global,
    file: &mut MemFile,
    (pos, bytes): (u64, &str),
    want: PollCount,
    now: &str,
) -> Result<(), Why> {
    let answer = write(file, vec_of(alloc, bytes)?, pos);
    is_like("the answer", answer == want)?;
    are_bytes("the file", file.bytes(), now)
}

// A read is as its row says.
fn reads(
    alloc: Global,
    file: &mut MemFile,
    (pos, room): (u64, usize),
    want: PollCount,
    bytes: &str,
) -> Result<(), Why> {
    let (answer, buf) = read(file, room_of(alloc, room)?, pos);
    is_like("the answer", answer == want)?;
    are_bytes("the bytes that were read", IoBuf::bytes(&buf), bytes)
}

// One call.
fn call(alloc: Global, file: &mut MemFile, at: At) -> Result<(), Why> {
    match at {
        At::Write(pos, bytes, want, now) => writes(alloc, file, (pos, bytes), want, now),
        At::Read(pos, room, want, bytes) => reads(alloc, file, (pos, room), want, bytes),
    }
}

// One row.
fn row(alloc: Global, failing: &[u64], calls: &[At]) -> Result<(), Why> {
    let mut file = MemFile::new(alloc, nums_of(alloc, failing)?);
    for i in 0..calls.len() {
        call(alloc, &mut file, calls[i])?;
    }
    Ok(())
}

#[test]
fn a_file_is_read_and_written_at_positions(rt: HostRuntime) -> Result<(), Fail> {
    for &(name, failing, calls) in ROWS {
        is_well(&rt, name, row(rt.alloc(), failing, calls));
    }
    Ok(())
}
