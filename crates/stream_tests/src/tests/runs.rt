// Copies of all that a source gives to a sink, behind a prefix.
use crate::tests::base::{Why, is_like, is_well, list_of, nums_of};
use copy_run::{Ending, copy_all};
use rent_buf::ByteList;
use rent_io::{MemSink, MemSource};
use std::alloc::Global;
use std::test::Fail;

// A copy of at most four bytes behind the prefix `ab`: a name, the bytes of a buffer, the input, the reads that fail, the writes
// and flushes that fail, and then how it ends and what was written.
type Row = (
    &'static str,
    usize,
    &'static str,
    &'static [u64],
    &'static [u64],
    Ending,
    &'static str,
);

#[rattlefmt::skip]
const COPIES: [Row; 11] = [
    ("all in one buffer", 8, "cd", &[], &[], Ending::Done, "abcd"),
    ("buffers of one byte", 1, "cd", &[], &[], Ending::Done, "abcd"),
    ("buffers of none", 0, "cd", &[], &[], Ending::Done, "abcd"),
    ("an empty input", 8, "", &[], &[], Ending::Done, "ab"),
    ("as many bytes as may be", 3, "cdef", &[], &[], Ending::Done, "abcdef"),
    ("one byte more", 8, "cdefg", &[], &[], Ending::TooLong, ""),
    ("one byte more, behind small buffers", 1, "cdefg", &[], &[], Ending::TooLong, "abcdef"),
    ("a read that fails", 1, "cd", &[0], &[], Ending::ReadFault, "ab"),
    ("the look behind the last byte fails", 8, "cdef", &[1], &[], Ending::ReadFault, ""),
    ("a write that fails", 8, "cd", &[], &[0], Ending::WriteFault, ""),
    ("a flush that fails", 8, "cd", &[], &[1], Ending::WriteFault, "abcd"),
];

// A sink has taken these bytes.
fn has_taken(sink: &MemSink, want: &[u8]) -> Result<(), Why> {
    is_like("the bytes that were taken", sink.taken() == want)
}

// How a copy ends, and what was written.
fn ends(
    alloc: Global,
    (capacity, most): (usize, usize),
    prefix: ByteList,
    source: &mut MemSource,
    sink: &mut MemSink,
) -> Ending {
    copy_all(alloc, capacity, most, prefix, source, sink)
}

// One row.
fn row(alloc: Global, row: Row) -> Result<(), Why> {
    let (_, capacity, input, reads, writes, ending, written) = row;
    let mut source = MemSource::new(list_of(alloc, input)?, nums_of(alloc, reads)?);
    let mut sink = MemSink::new(alloc, nums_of(alloc, writes)?);
    let prefix = list_of(alloc, "ab")?;
    let ended = ends(alloc, (capacity, 4), prefix, &mut source, &mut sink);
    is_like("the ending", ended == ending)?;
    has_taken(&sink, written.as_bytes())
}

#[test]
fn copies_end(rt: HostRuntime) -> Result<(), Fail> {
    for each in COPIES {
        is_well(&rt, each.0, row(rt.alloc(), each));
    }
    Ok(())
}

// Many bytes.
fn many(alloc: Global) -> Result<Vec<u8>, Why> {
    let mut bytes = Vec::new(alloc);
    for i in 0..20000u64 {
        bytes.push((i % 251) as u8)?;
    }
    Ok(bytes)
}

// A copy of many bytes through buffers of so many.
fn long(alloc: Global, bytes: &[u8], capacity: usize) -> Result<(), Why> {
    let input = ByteList::from_vec(bytes.to_vec(alloc)?);
    let mut source = MemSource::new(input, nums_of(alloc, &[])?);
    let mut sink = MemSink::new(alloc, nums_of(alloc, &[])?);
    let prefix = list_of(alloc, "")?;
    let ended = ends(alloc, (capacity, 20000), prefix, &mut source, &mut sink);
    is_like("the ending", ended == Ending::Done)?;
    has_taken(&sink, bytes)
}

// Many pieces: each buffer is filled and emptied often, and is smaller than, as long as and longer than a piece.
#[rattlefmt::skip]
const LONG: [(&str, usize); 4] = [
    ("buffers of 3", 3), ("buffers of 4096", 4096), ("buffers of 5000", 5000), ("buffers of 30000", 30000),
];

#[test]
fn long_copies_keep_each_byte(rt: HostRuntime) -> Result<(), Fail> {
    let bytes = many(rt.alloc())?;
    for (name, capacity) in LONG {
        is_well(&rt, name, long(rt.alloc(), &bytes, capacity));
    }
    Ok(())
}
