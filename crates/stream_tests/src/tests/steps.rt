// Steps of a test, each with what it is to answer, and how a stream makes them.
use crate::tests::base::{Why, are_bytes, are_parts, is_like, parts_of, room_of, vec_of};
use crate::tests::stage::{Reads, Writes};
use rent_buf::IoBuf;
use rent_io::PollCount;
use std::alloc::Global;

/// One read, and what it is to answer and to read.
#[derive(Clone, Copy)]
pub(crate) enum ReadStep {
    /// Into a buffer with so much room.
    Read(usize, PollCount, &'static str),
    /// Into parts that hold so many bytes as these, and then are these.
    Parts(&'static [&'static str], PollCount, &'static [&'static str]),
    /// A read that fills a buffer.
    Exact(usize, PollCount, &'static str),
    /// A read that fills parts.
    ExactParts(&'static [&'static str], PollCount, &'static [&'static str]),
}

/// One write, flush or shutdown, and what it is to answer. The buffer comes back as it was.
#[derive(Clone, Copy)]
pub(crate) enum WriteStep {
    /// A write of a buffer.
    Write(&'static str, PollCount),
    /// A write of parts.
    Parts(&'static [&'static str], PollCount),
    /// A write of all of a buffer.
    All(&'static str, PollCount),
    /// A write of all of the parts.
    AllParts(&'static [&'static str], PollCount),
    /// A flush.
    Flush(PollCount),
    /// A shutdown.
    Shutdown(PollCount),
}

// An answer is the one that the row says.
fn answers(answer: PollCount, want: PollCount) -> Result<(), Why> {
    is_like("the answer", answer == want)
}

// A read into a buffer.
fn reads<S: Reads>(
    alloc: Global,
    stage: &mut S,
    (room, exact): (usize, bool),
    want: PollCount,
    read: &str,
) -> Result<(), Why> {
    let (answer, buf) = stage.read(room_of(alloc, room)?, exact)?;
    answers(answer, want)?;
    are_bytes("the bytes that were read", buf.bytes(), read)
}

// A read into parts.
fn reads_parts<S: Reads>(
    alloc: Global,
    stage: &mut S,
    (rooms, exact): (&[&str], bool),
    want: PollCount,
    read: &[&str],
) -> Result<(), Why> {
    let (answer, parts) = stage.read_parts(parts_of(alloc, rooms)?, exact)?;
    answers(answer, want)?;
    are_parts(parts, read)
}

// One read.
fn make_read<S: Reads>(alloc: Global, stage: &mut S, step: ReadStep) -> Result<(), Why> {
    match step {
        ReadStep::Read(room, want, read) => reads(alloc, stage, (room, false), want, read),
        ReadStep::Parts(rooms, want, read) => reads_parts(alloc, stage, (rooms, false), want, read),
        ReadStep::Exact(room, want, read) => reads(alloc, stage, (room, true), want, read),
        ReadStep::ExactParts(rooms, want, read) => {
            reads_parts(alloc, stage, (rooms, true), want, read)
        }
    }
}

// A write of a buffer.
fn writes<S: Writes>(
    alloc: Global,
    stage: &mut S,
    bytes: &str,
    all: bool,
    want: PollCount,
) -> Result<(), Why> {
    let (answer, buf) = stage.write(vec_of(alloc, bytes)?, all)?;
    answers(answer, want)?;
    are_bytes("the buffer", buf.as_slice(), bytes)
}

// A write of parts.
fn writes_parts<S: Writes>(
    alloc: Global,
    stage: &mut S,
    texts: &[&str],
    all: bool,
    want: PollCount,
) -> Result<(), Why> {
    answers(stage.write_parts(parts_of(alloc, texts)?, all)?, want)
}

// One write, flush or shutdown.
fn make_write<S: Writes>(alloc: Global, stage: &mut S, step: WriteStep) -> Result<(), Why> {
    match step {
        WriteStep::Write(bytes, want) => writes(alloc, stage, bytes, false, want),
        WriteStep::Parts(texts, want) => writes_parts(alloc, stage, texts, false, want),
        WriteStep::All(bytes, want) => writes(alloc, stage, bytes, true, want),
        WriteStep::AllParts(texts, want) => writes_parts(alloc, stage, texts, true, want),
        WriteStep::Flush(want) => answers(stage.flush(), want),
        WriteStep::Shutdown(want) => answers(stage.shutdown(), want),
    }
}

/// Reads in order.
pub(crate) fn run_reads<S: Reads>(
    alloc: Global,
    stage: &mut S,
    steps: &[ReadStep],
) -> Result<(), Why> {
    for i in 0..steps.len() {
        make_read(alloc, stage, steps[i])?;
    }
    Ok(())
}

/// Writes, flushes and shutdowns in order.
pub(crate) fn run_writes<S: Writes>(
    alloc: Global,
    stage: &mut S,
    steps: &[WriteStep],
) -> Result<(), Why> {
    for i in 0..steps.len() {
        make_write(alloc, stage, steps[i])?;
    }
    Ok(())
}
