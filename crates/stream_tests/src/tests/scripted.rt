// Reads and writes of a scripted stream, one at a time and of all bytes, by plain calls and under a cancel group.
use crate::tests::base::{DONE, FAILED, Why, has_calls, has_delivered, has_left, is_well, stream};
use crate::tests::noting::{handle, has_noted, stream_of};
use crate::tests::stage::{Plain, Under};
use crate::tests::steps::ReadStep::{Exact, ExactParts, Parts, Read};
use crate::tests::steps::{ReadStep, WriteStep, run_reads, run_writes};
use rent_io::PollCount::{Again, Pending, Ready};
use rent_io::Turned1::{Fault, Grant, Interrupt, Pause};
use rent_io::{IoFault, ScriptedStream, Turned1};
use std::alloc::Global;
use std::test::Fail;

// What the row shows, the bytes of the stream and its script, the reads and then the writes, and then the bytes that are left, those that
// were delivered, and how many calls were made.
type Row = (
    &'static str,
    &'static str,
    &'static [Turned1],
    &'static [ReadStep],
    &'static [WriteStep],
    &'static str,
    &'static str,
    u64,
);

// A row stands here for each turn that a script may have, for reads that fill a buffer of bytes `hello world` or parts of the rooms 2, 0
// and 1, and for writes of all of `abc`, in one buffer and in parts.
#[rattlefmt::skip]
const ROWS: &[Row] = &[
    ("a grant of some", "abc", &[Grant(2), Grant(2), Grant(2)], &[Read(4, Ready(Ok(2)), "ab")],
        &[WriteStep::Write("xyz", Ready(Ok(2))), WriteStep::Flush(DONE), WriteStep::Shutdown(DONE)], "c", "xy", 4),
    ("a grant of more than there are", "abc", &[Grant(9), Grant(9), Grant(9)], &[Read(4, Ready(Ok(3)), "abc")],
        &[WriteStep::Write("xyz", Ready(Ok(3))), WriteStep::Flush(DONE), WriteStep::Shutdown(DONE)], "", "xyz", 4),
    ("a grant of none is a read of one", "abc", &[Grant(0), Grant(0), Grant(0)], &[Read(4, Ready(Ok(1)), "a")],
        &[WriteStep::Write("xyz", DONE), WriteStep::Flush(DONE), WriteStep::Shutdown(DONE)], "bc", "", 4),
    ("a pause", "abc", &[Pause, Pause, Pause], &[Read(4, Pending, "")],
        &[WriteStep::Write("xyz", Pending), WriteStep::Flush(Pending), WriteStep::Shutdown(DONE)], "abc", "", 4),
    ("an interrupt", "abc", &[Interrupt, Interrupt, Interrupt], &[Read(4, Again, "")],
        &[WriteStep::Write("xyz", Again), WriteStep::Flush(Again), WriteStep::Shutdown(DONE)], "abc", "", 4),
    ("a fault", "abc", &[Fault(5), Fault(5), Fault(5)], &[Read(4, FAILED, "")],
        &[WriteStep::Write("xyz", FAILED), WriteStep::Flush(FAILED), WriteStep::Shutdown(DONE)], "abc", "", 4),
    ("one read fills a buffer", "hello world", &[], &[Exact(6, Ready(Ok(6)), "hello ")], &[], "world", "", 1),
    ("all that is left", "hello world", &[], &[Exact(11, Ready(Ok(11)), "hello world")], &[], "", "", 1),
    ("short reads, a pause and an interrupt", "hello world", &[Grant(2), Pause, Grant(0), Interrupt],
        &[Exact(6, Ready(Ok(6)), "hello ")], &[], "world", "", 5),
    ("no room", "hello world", &[], &[Exact(0, Ready(Ok(0)), "")], &[], "hello world", "", 0),
    ("more room than bytes", "hello world", &[], &[Exact(12, Ready(Err(IoFault::UnexpectedEof)), "hello world")], &[], "", "", 2),
    ("a fault in a read of all", "hello world", &[Grant(2), Fault(5)], &[Exact(6, FAILED, "he")], &[], "llo world", "", 2),
    ("a read a part", "abcd", &[], &[ExactParts(&["..", "", "."], Ready(Ok(3)), &["ab", "", "c"])], &[], "d", "", 2),
    ("short reads of parts and a pause", "abc", &[Grant(1), Pause],
        &[ExactParts(&["..", "", "."], Ready(Ok(3)), &["ab", "", "c"])], &[], "", "", 4),
    ("more room in parts than bytes", "ab", &[],
        &[ExactParts(&["..", "", "."], Ready(Err(IoFault::UnexpectedEof)), &["ab", "", ""])], &[], "", "", 2),
    ("a fault in a read of all parts", "abc", &[Grant(1), Fault(5)], &[ExactParts(&["..", "", "."], FAILED, &["a", "", "."])], &[],
        "bc", "", 2),
    ("a whole write", "", &[], &[], &[WriteStep::All("abc", Ready(Ok(3)))], "", "abc", 1),
    ("short writes, a pause and an interrupt", "", &[Grant(1), Pause, Interrupt], &[], &[WriteStep::All("abc", Ready(Ok(3)))],
        "", "abc", 4),
    ("a write that takes none", "", &[Grant(2), Grant(0)], &[], &[WriteStep::All("abc", Ready(Err(IoFault::WriteZero)))], "", "ab", 2),
    ("a fault in a write of all", "", &[Grant(1), Fault(5)], &[], &[WriteStep::All("abc", FAILED)], "", "a", 2),
    ("a write a part", "", &[], &[], &[WriteStep::AllParts(&["ab", "", "c"], Ready(Ok(3)))], "", "abc", 2),
    ("short writes of parts, a pause and an interrupt", "", &[Grant(1), Pause, Interrupt], &[],
        &[WriteStep::AllParts(&["ab", "", "c"], Ready(Ok(3)))], "", "abc", 5),
    ("a write of parts that takes none", "", &[Grant(2), Grant(0)], &[],
        &[WriteStep::AllParts(&["ab", "", "c"], Ready(Err(IoFault::WriteZero)))], "", "ab", 2),
    ("a fault in a write of all parts", "", &[Grant(1), Fault(5)], &[], &[WriteStep::AllParts(&["ab", "", "c"], FAILED)], "", "a", 2),
];

// The stream of a row.
fn staged(alloc: Global, bytes: &str, script: &[Turned1]) -> Result<Plain<ScriptedStream>, Why> {
    Ok(Plain {
        io: stream(alloc, bytes.as_bytes(), script)?,
    })
}

// What a stream has left, what it delivered and how many calls were made of it.
fn has_seen(io: &ScriptedStream, left: &str, delivered: &str, calls: u64) -> Result<(), Why> {
    has_left(io, left)?;
    has_delivered(io, delivered)?;
    has_calls(io, calls)
}

// One row.
fn row(alloc: Global, row: Row) -> Result<(), Why> {
    let (_, bytes, script, reads, writes, left, delivered, calls) = row;
    let mut stage = staged(alloc, bytes, script)?;
    run_reads(alloc, &mut stage, reads)?;
    run_writes(alloc, &mut stage, writes)?;
    has_seen(&stage.io, left, delivered, calls)
}

#[test]
fn a_stream_follows_its_script(rt: HostRuntime) -> Result<(), Fail> {
    for each in ROWS {
        is_well(&rt, each.0, row(rt.alloc(), *each));
    }
    Ok(())
}

/// Reads of `abc`, of which the second is into parts.
#[rattlefmt::skip]
pub(crate) const READS: &[ReadStep] = &[Read(1, Ready(Ok(1)), "a"), Parts(&["", "..", ""], Ready(Ok(2)), &["", "bc", ""])];

/// Writes of `xyz`, of which the second is of parts, and the ends.
#[rattlefmt::skip]
pub(crate) const WRITES: &[WriteStep] = &[
    WriteStep::Write("x", Ready(Ok(1))), WriteStep::Parts(&["", "yz", ""], Ready(Ok(2))), WriteStep::Flush(DONE), WriteStep::Shutdown(DONE),
];

// What the row shows, the bytes of the stream, the reads and then the writes, how many calls these make, each under the group, and then
// the bytes that are left and those that were delivered.
type Grouped = (
    &'static str,
    &'static str,
    &'static [ReadStep],
    &'static [WriteStep],
    u64,
    &'static str,
    &'static str,
);

#[rattlefmt::skip]
const GROUPED: &[Grouped] = &[
    ("each call", "abcd", READS, WRITES, 6, "d", "xyz"),
    ("reads and writes of all", "abcde",
        &[Exact(2, Ready(Ok(2)), "ab"), ExactParts(&["", "..", ""], Ready(Ok(2)), &["", "cd", ""])],
        &[WriteStep::All("ab", Ready(Ok(2))), WriteStep::AllParts(&["", "cd", ""], Ready(Ok(2)))], 4, "e", "abcd"),
];

// One row.
fn grouped(alloc: Global, row: Grouped) -> Result<(), Why> {
    let (_, bytes, reads, writes, under, left, delivered) = row;
    let mut stage = Under {
        io: stream_of(alloc, bytes)?,
        c: handle(alloc)?,
    };
    run_reads(alloc, &mut stage, reads)?;
    run_writes(alloc, &mut stage, writes)?;
    has_noted(&stage.io, under)?;
    has_left(&stage.io.io, left)?;
    has_delivered(&stage.io.io, delivered)
}

#[test]
fn each_call_is_made_under_a_group(rt: HostRuntime) -> Result<(), Fail> {
    for each in GROUPED {
        is_well(&rt, each.0, grouped(rt.alloc(), *each));
    }
    Ok(())
}
