// What moves at an execution of each form of call.
use crate::tests::bench::bench_of;
use crate::tests::stage::{Handles, Stage, Why, is_like, submit};
use crate::tests::steps::{finishes, shows};
use machine::{Call, Completion, HandleKind, Outcome, Told};
use ring_core::Entry;
use std::process::Abort;
use std::test::Fail;

// One execution: its name, the kind of the handle 0 and what is fed to it, the call, the count, the bytes to send, the bytes that come,
// the outcome, and what a look at the handle 0 and at the pipe 1 shows then.
#[derive(Clone, Copy)]
struct Moved(
    &'static str,
    HandleKind,
    &'static str,
    Call,
    u32,
    &'static str,
    &'static str,
    Outcome,
    &'static str,
    &'static str,
);

#[rattlefmt::skip]
const MOVED: &[Moved] = &[
    Moved("recvmsg", HandleKind::Datagram, "abc", Call::MessageIn { h: 0, ask: 2 }, 2, "", "ab", Outcome::From(2, 5), "", ""),
    Moved("sendmsg", HandleKind::Datagram, "", Call::MessageOut { h: 0, addr: Some(7), ask: 2 }, 2, "xy", "", Outcome::Count(2), "+xy", ""),
    Moved("read", HandleKind::File, "abc", Call::ReadAt { h: 0, pos: 1, ask: 9 }, 2, "", "bc", Outcome::Count(2), "abc", ""),
    Moved("write over", HandleKind::File, "abc", Call::WriteAt { h: 0, pos: 1, ask: 1 }, 1, "x", "", Outcome::Count(1), "axc", ""),
    Moved("write past", HandleKind::File, "abc", Call::WriteAt { h: 0, pos: 2, ask: 2 }, 2, "xy", "", Outcome::Count(2), "abxy", ""),
    Moved("write a gap", HandleKind::File, "a", Call::WriteAt { h: 0, pos: 2, ask: 1 }, 1, "x", "", Outcome::Count(1), "a\0x", ""),
    Moved("spliceto", HandleKind::Stream, "abc", Call::ToPipe { h: 0, pipe: 1, ask: 9 }, 3, "", "", Outcome::Count(3), "", "abc"),
    Moved("send to a pipe", HandleKind::Pipe, "ab", Call::Out { h: 0, ask: 1 }, 1, "x", "", Outcome::Count(1), "abx", ""),
    Moved("open", HandleKind::Stream, "", Call::Open, 0, "", "", Outcome::Made(2), "", ""),
    Moved("polladd", HandleKind::Stream, "", Call::PollAdd { h: 0, read: true }, 0, "", "", Outcome::Count(0), "", ""),
];

// What is fed to a handle of a kind arrives: a datagram takes a message of the address 5, or none.
fn feeds<S: Handles>(stage: &mut S, kind: HandleKind, fed: &str) -> Result<(), Why> {
    if kind != HandleKind::Datagram {
        return is_like(stage.feed(0, fed)?.is_none());
    }
    if fed.is_empty() {
        return Ok(());
    }
    is_like(stage.feed_message(0, 5, fed)?.is_none())
}

// There are a handle of a kind, to which bytes were fed, and a pipe, and one call is in flight.
fn calls<S: Stage + Handles>(
    stage: &mut S,
    kind: HandleKind,
    fed: &str,
    call: Call,
) -> Result<(), Why> {
    is_like(stage.give(kind)? == 0)?;
    feeds(stage, kind, fed)?;
    is_like(stage.give(HandleKind::Pipe)? == 1)?;
    submit(stage, Entry::call(5, 7, false, call))
}

// The execution of a row.
fn moves<S: Stage + Handles>(stage: &mut S, row: Moved) -> Result<(), Why> {
    let Moved(_, kind, fed, call, k, sent, came, outcome, first, pipe) = row;
    calls(stage, kind, fed, call)?;
    let done = Completion {
        word: 5,
        serial: 7,
        outcome,
    };
    finishes(stage, 0, Told::Count(k), sent, Ok(done), came)?;
    shows(stage, 0, first)?;
    shows(stage, 1, pipe)
}

// A row is as it says.
fn run_row<S: Stage + Handles>(rt: &impl Abort, stage: &mut S, row: Moved) {
    assert_eq!(rt; moves(stage, row), Ok(()), "in the row {}", row.0);
}

#[test]
fn what_moves_is_that_of_the_call(rt: HostRuntime) -> Result<(), Fail> {
    for row in MOVED {
        let mut bench = bench_of(rt.alloc(), 1)?;
        run_row(&rt, &mut bench, *row);
    }
    Ok(())
}
