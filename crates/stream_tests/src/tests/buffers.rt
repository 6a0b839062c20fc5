// Streams with a buffer, and with a prefix in front.
use crate::tests::base::{
    DONE, FAILED, Why, are_bytes, has_calls, has_delivered, is_well, list_of, made, nums_of, stream,
};
use crate::tests::stage::Plain;
use crate::tests::steps::{ReadStep, WriteStep, run_reads, run_writes};
use rent_io::PollCount::{Again, Ready};
use rent_io::Turned1::{Fault, Grant};
use rent_io::{MemSource, ScriptedStream};
use std::alloc::Global;
use std::test::Fail;
use stream_util::{BufReader, BufWriter, PrefixedReadIo};

// Reads of `abcdef` by a reader that holds four bytes.
#[rattlefmt::skip]
const READS: &[ReadStep] = &[
    ReadStep::Read(2, Ready(Ok(2)), "ab"), ReadStep::Read(8, Ready(Ok(2)), "cd"), ReadStep::Read(8, Ready(Ok(2)), "ef"),
];

// The same reads into parts: a part with room for what is held at most.
#[rattlefmt::skip]
const PARTS_READ: &[ReadStep] = &[
    ReadStep::Parts(&["", "..", "."], Ready(Ok(2)), &["", "ab", "."]), ReadStep::Parts(&["", "....", ""], Ready(Ok(2)), &["", "cd", ""]),
    ReadStep::Parts(&["....", "", ""], Ready(Ok(2)), &["ef", "", ""]),
];

// That reader.
fn reader(alloc: Global) -> Result<Plain<BufReader<ScriptedStream>>, Why> {
    let inner = stream(alloc, b"abcdef", &[])?;
    Ok(Plain {
        io: made(BufReader::with_capacity(alloc, 4, inner))?,
    })
}

// Its reads make two calls.
fn buffered(alloc: Global, reads: &[ReadStep]) -> Result<(), Why> {
    let mut stage = reader(alloc)?;
    run_reads(alloc, &mut stage, reads)?;
    has_calls(stage.io.get_ref(), 2)
}

#[test]
fn a_buffered_reader_gives_what_it_holds_first(rt: HostRuntime) -> Result<(), Fail> {
    is_well(&rt, "a buffered reader", buffered(rt.alloc(), READS));
    is_well(&rt, "reads into parts", buffered(rt.alloc(), PARTS_READ));
    Ok(())
}

// A writer that holds four bytes takes `abcd`, and is flushed over one write of a byte and a fault.
#[rattlefmt::skip]
const TAKEN: &[WriteStep] = &[WriteStep::Write("abcd", Ready(Ok(4))), WriteStep::Flush(Again), WriteStep::Flush(FAILED)];

// Then it is flushed twice.
const FLUSHED: &[WriteStep] = &[WriteStep::Flush(Again), WriteStep::Flush(DONE)];

// Gathered writes to a writer that holds four bytes: the first part that has bytes is buffered if it fits; else what is buffered is
// written, by two writes of which the first takes a byte; then a part that is longer than the buffer is passed on.
#[rattlefmt::skip]
const GATHERED: &[WriteStep] = &[
    WriteStep::Parts(&["", "ab", "c"], Ready(Ok(2))), WriteStep::Parts(&["cdefg", "", "h"], Again),
    WriteStep::Parts(&["cdefg", "", "h"], FAILED), WriteStep::Parts(&["cdefg", "", "h"], Again),
    WriteStep::Parts(&["cdefg", "", "h"], Ready(Ok(5))), WriteStep::Parts(&["", "", ""], Ready(Ok(0))),
];

// That writer.
fn writer(alloc: Global) -> Result<Plain<BufWriter<ScriptedStream>>, Why> {
    let inner = stream(alloc, b"", &[Grant(1), Fault(5)])?;
    Ok(Plain {
        io: made(BufWriter::with_capacity(alloc, 4, inner))?,
    })
}

// What it holds behind these writes, and what it delivered behind these.
fn written(
    alloc: Global,
    (first, held): (&[WriteStep], &str),
    (then, delivered): (&[WriteStep], &str),
) -> Result<(), Why> {
    let mut stage = writer(alloc)?;
    run_writes(alloc, &mut stage, first)?;
    are_bytes("what is buffered", stage.io.buffer(), held)?;
    run_writes(alloc, &mut stage, then)?;
    has_delivered(stage.io.get_ref(), delivered)
}

#[test]
fn a_buffered_writer_forgets_just_what_was_taken(rt: HostRuntime) -> Result<(), Fail> {
    let flushed = written(rt.alloc(), (TAKEN, "bcd"), (FLUSHED, "abcd"));
    is_well(&rt, "a buffered writer", flushed);
    Ok(())
}

// What a writer delivered and what is left in it.
fn is_taken_apart(io: BufWriter<ScriptedStream>, delivered: &str, rest: &str) -> Result<(), Why> {
    let (inner, held) = io.into_parts();
    has_delivered(&inner, delivered)?;
    are_bytes("the rest", held.as_slice(), rest)
}

// A writer is taken apart after a write that took one of four bytes.
fn taken_apart(alloc: Global) -> Result<(), Why> {
    let mut stage = writer(alloc)?;
    run_writes(alloc, &mut stage, TAKEN)?;
    is_taken_apart(stage.io, "a", "bcd")
}

#[test]
fn a_buffered_writer_takes_parts_and_returns_its_rest(rt: HostRuntime) -> Result<(), Fail> {
    let gathered = written(rt.alloc(), (GATHERED, ""), (&[], "abcdefg"));
    is_well(&rt, "gathered writes", gathered);
    is_well(&rt, "the rest", taken_apart(rt.alloc()));
    Ok(())
}

// A stream of `world` behind a prefix `hello `.
fn prefixed(alloc: Global) -> Result<Plain<PrefixedReadIo<ScriptedStream, MemSource>>, Why> {
    let prefix = MemSource::new(list_of(alloc, "hello ")?, nums_of(alloc, &[])?);
    Ok(Plain {
        io: PrefixedReadIo::new(stream(alloc, b"world", &[])?, prefix),
    })
}

// A read of all of it.
const BEHIND: &[ReadStep] = &[ReadStep::Exact(11, Ready(Ok(11)), "hello world")];

// Reads into parts: the rest of the prefix, and then the stream.
#[rattlefmt::skip]
const BEHIND_IN_PARTS: &[ReadStep] = &[
    ReadStep::Parts(&["", "....", "."], Ready(Ok(4)), &["", "hell", "."]),
    ReadStep::Parts(&["....", "", ""], Ready(Ok(2)), &["o ", "", ""]),
    ReadStep::Parts(&["", "", "......"], Ready(Ok(5)), &["", "", "world"]),
];

// They make one call of the stream.
fn behind(alloc: Global, reads: &[ReadStep]) -> Result<(), Why> {
    let mut stage = prefixed(alloc)?;
    run_reads(alloc, &mut stage, reads)?;
    has_calls(stage.io.get_ref(), 1)
}

#[test]
fn a_prefix_comes_first(rt: HostRuntime) -> Result<(), Fail> {
    is_well(&rt, "a prefix", behind(rt.alloc(), BEHIND));
    is_well(
        &rt,
        "a prefix in parts",
        behind(rt.alloc(), BEHIND_IN_PARTS),
    );
    Ok(())
}
