// Rings in memory, step by step.
use crate::tests::bench::bench_of;
use crate::tests::steps::{Step, run_row};
use Step::{Both, Count, End, Feed, Finish, Flies, Give, Has, Look, Next, Submit};
use machine::{Call, Completion, HandleKind, Outcome, Told, WorldError};
use ring_core::{Body, Entry, ExecRefusal, Push};
use std::test::Fail;

// A new stream, which is handle 0.
const STREAM: Step = Give(HandleKind::Stream, 0);

// A read of two bytes.
const READ: Entry = Entry {
    word: 5,
    serial: 7,
    linked: false,
    body: Body::Call(Call::In { h: 0, ask: 2 }),
};

// A send of five bytes.
const SEND: Entry = Entry {
    word: 5,
    serial: 7,
    linked: false,
    body: Body::Call(Call::Out { h: 0, ask: 5 }),
};

// Two reads of one byte.
const FIRST: Entry = Entry {
    word: 0,
    serial: 0,
    linked: false,
    body: Body::Call(Call::In { h: 0, ask: 1 }),
};

const SECOND: Entry = Entry {
    word: 1,
    serial: 1,
    linked: false,
    body: Body::Call(Call::In { h: 0, ask: 1 }),
};

// Two bytes were read.
const TWO_READ: Completion = Completion {
    word: 5,
    serial: 7,
    outcome: Outcome::Count(2),
};

// Three bytes were sent.
const THREE_SENT: Completion = Completion {
    word: 5,
    serial: 7,
    outcome: Outcome::Count(3),
};

// The answer of a handle that takes nothing.
const REFUSED: Option<WorldError> = Some(WorldError::BadHandleEvent);

// Runs over a new ring whose queue holds one entry: their names and their steps.
#[rattlefmt::skip]
const RUNS: [(&str, &[Step]); 4] = [
    ("an entry is queued, entered, finished and taken off", &[
        STREAM, Feed(0, "abc", None), Count(1),
        Submit(READ), Flies(0, Some(READ)), Flies(1, None),
        Finish(1, Told::Count(1), "", Err(ExecRefusal::NotFlying), ""),
        Finish(0, Told::Count(3), "", Err(ExecRefusal::BadOutcome), ""),
        Finish(0, Told::Count(2), "", Ok(TWO_READ), "ab"),
        Has(0, 1), Next(Some(TWO_READ)), Next(None),
    ]),
    ("a send moves what is counted", &[
        STREAM, Submit(SEND),
        Finish(0, Told::Count(6), "hello", Err(ExecRefusal::BadOutcome), ""),
        Finish(0, Told::Count(0), "hello", Err(ExecRefusal::BadOutcome), ""),
        Finish(0, Told::Count(3), "hello", Ok(THREE_SENT), ""),
        Look(0, "hel"),
    ]),
    ("nothing arrives after the end", &[
        STREAM, End(0, None), End(0, REFUSED), Count(1), Feed(0, "a", REFUSED),
    ]),
    ("a full queue hands the entry back", &[
        Both(FIRST, SECOND, Push::Done, Push::Full(SECOND)), Has(1, 0),
    ]),
];

#[test]
fn a_ring_in_memory_does_as_it_is_asked(rt: HostRuntime) -> Result<(), Fail> {
    for (name, steps) in RUNS {
        let mut bench = bench_of(rt.alloc(), 1)?;
        run_row(&rt, &mut bench, steps, name);
    }
    Ok(())
}
