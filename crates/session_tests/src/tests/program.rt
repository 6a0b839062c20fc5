// Runs of the top call over a source and a sink in memory, and handles in memory or sockets.
use crate::tests::text::{lines_of, list_of, pairs_of, split_words};
use ready_driver::{MemIo, Sockets};
use rent_buf::NumList;
use rent_io::{MemSink, MemSource};
use session_core::top::top;
use session_core::{Status, Stop};
use std::alloc::{AllocError, Global};
use std::rt::Clock;
use std::sync::Wait;
use std::thread::Threads;

/// A run of the program: its words with one space between them, what it reads, and the numbers of its read that fails and of its write
/// or flush that fails, if any does.
#[derive(Clone, Copy)]
pub(crate) struct Call<'a> {
    pub words: &'a str,
    pub input: &'a [u8],
    pub read: Option<u64>,
    pub write: Option<u64>,
}

/// A run in which no call fails.
pub(crate) fn calm<'a>(words: &'a str, input: &'a [u8]) -> Call<'a> {
    Call {
        words,
        input,
        read: None,
        write: None,
    }
}

/// What a run left: its status, what it wrote to, and the line that it named.
#[derive(Drop)]
pub(crate) struct Ran {
    pub status: Status,
    pub sink: MemSink,
    pub stop: Option<Stop>,
}

/// Why a run isn't as a row says.
#[derive(Clone, Copy, Debug, PartialEq, Eq)]
pub(crate) enum Why {
    /// It ended with this status.
    Ended(Status),
    /// It wrote so many bytes, or as many as it was to write, but others.
    Wrote(usize),
    /// What was to be read is wrong.
    Unread,
    /// Memory ran out.
    OutOfMemory,
}

impl From<AllocError> for Why {
    fn from(_: AllocError) -> Why {
        Why::OutOfMemory
    }
}

// The numbers of the calls that fail: one, or none.
fn failing(alloc: Global, call: Option<u64>) -> Result<NumList, AllocError> {
    let mut calls = Vec::new(alloc);
    if let Some(call) = call {
        calls.push(call)?;
    }
    Ok(NumList::from_vec(calls))
}

// Makes the top call, and keeps the sink alone.
fn run_top<R: Threads + Wait + Clock + Sync, N: Sockets>(
    rt: &R,
    alloc: Global,
    words: &[String],
    mut source: MemSource,
    mut sink: MemSink,
    mut net: N,
) -> Ran {
    let mut kept = None;
    let mut stop = None;
    let status = top(
        rt,
        alloc,
        words,
        &mut source,
        &mut sink,
        &mut net,
        &mut kept,
        &mut stop,
    );
    Ran { status, sink, stop }
}

/// Runs the program over memory.
pub(crate) fn run<R: Threads + Wait + Clock + Sync>(
    rt: &R,
    alloc: Global,
    call: Call<'_>,
) -> Result<Ran, AllocError> {
    run_over(rt, alloc, call, MemIo::new(alloc))
}

/// Runs the program with this object to listen and dial with.
pub(crate) fn run_over<R: Threads + Wait + Clock + Sync, N: Sockets>(
    rt: &R,
    alloc: Global,
    call: Call<'_>,
    net: N,
) -> Result<Ran, AllocError> {
    let words = split_words(alloc, call.words)?;
    let source = MemSource::new(list_of(alloc, call.input)?, failing(alloc, call.read)?);
    let sink = MemSink::new(alloc, failing(alloc, call.write)?);
    Ok(run_top(rt, alloc, words.as_slice(), source, sink, net))
}

/// What a run left is this status and these bytes.
pub(crate) fn is_like(ran: &Ran, status: Status, written: &[u8]) -> Result<(), Why> {
    if ran.status != status {
        return Err(Why::Ended(ran.status));
    }
    if ran.sink.taken() != written {
        return Err(Why::Wrote(ran.sink.taken().len()));
    }
    Ok(())
}

/// A run ends with a status, and has written these bytes.
pub(crate) fn ends_with<R: Threads + Wait + Clock + Sync>(
    rt: &R,
    alloc: Global,
    call: Call<'_>,
    status: Status,
    written: &[u8],
) -> Result<(), Why> {
    is_like(&run(rt, alloc, call)?, status, written)
}

/// A run ends with a status, and has written so many bytes.
pub(crate) fn ends_long<R: Threads + Wait + Clock + Sync>(
    rt: &R,
    alloc: Global,
    call: Call<'_>,
    status: Status,
    count: usize,
) -> Result<(), Why> {
    let ran = run(rt, alloc, call)?;
    if ran.status != status {
        return Err(Why::Ended(ran.status));
    }
    if ran.sink.taken().len() != count {
        return Err(Why::Wrote(ran.sink.taken().len()));
    }
    Ok(())
}

/// What a run is told, and what it leaves, in a row: its words, its input, the numbers of a read and of a write or flush that fail, its
/// status and what it writes. In both texts `;` stands for a newline.
pub(crate) type Case = (
    &'static str,
    &'static str,
    Option<u64>,
    Option<u64>,
    Status,
    &'static str,
);

/// A run is as its row says.
pub(crate) fn case_holds<R: Threads + Wait + Clock + Sync>(
    rt: &R,
    alloc: Global,
    (words, input, read, write, status, output): Case,
) -> Result<(), Why> {
    let input = lines_of(alloc, input)?;
    let written = lines_of(alloc, output)?;
    let call = Call {
        words,
        input: input.as_slice(),
        read,
        write,
    };
    ends_with(rt, alloc, call, status, written.as_slice())
}

/// A run of the events of a row is Done, and writes their replies.
pub(crate) fn replies_are<R: Threads + Wait + Clock + Sync>(
    rt: &R,
    alloc: Global,
    words: &str,
    row: &str,
) -> Result<(), Why> {
    let lines = pairs_of(alloc, row)?;
    let call = calm(words, lines.events.as_slice());
    ends_with(rt, alloc, call, Status::Done, lines.replies.as_slice())
}
