// Linked entries: what waits for what, and how a chain ends.
use crate::tests::bench::bench_of;
use crate::tests::stage::{Handles, Stage, Why, is_like};
use crate::tests::steps::{Step, run_row};
use Step::{Bound, Enter, Feed, Finish, Flies, Give, Has, Next, Pushes};
use machine::{CANCELED, Call, Completion, HandleKind, Outcome, Told};
use ring_core::{Body, CANCEL_WORD, Entry, ExecRefusal, Push};
use std::process::Abort;
use std::test::Fail;

// A read of two bytes.
const READ: Body = Body::Call(Call::In { h: 0, ask: 2 });

// Reads, linked or not. Their words are 0, 1, 2 and 3.
#[rattlefmt::skip]
const LINKED_0: Entry = Entry { word: 0, serial: 10, linked: true, body: READ };

#[rattlefmt::skip]
const LINKED_1: Entry = Entry { word: 1, serial: 11, linked: true, body: READ };

#[rattlefmt::skip]
const PLAIN_1: Entry = Entry { word: 1, serial: 11, linked: false, body: READ };

#[rattlefmt::skip]
const PLAIN_2: Entry = Entry { word: 2, serial: 12, linked: false, body: READ };

#[rattlefmt::skip]
const LINKED_2: Entry = Entry { word: 2, serial: 12, linked: true, body: READ };

#[rattlefmt::skip]
const PLAIN_3: Entry = Entry { word: 3, serial: 13, linked: false, body: READ };

// The cancels of the words 0 and 1, and the close of the handle 0.
#[rattlefmt::skip]
const CANCEL_0: Entry = Entry { word: CANCEL_WORD, serial: 10, linked: false, body: Body::Cancel(0) };

#[rattlefmt::skip]
const CANCEL_1: Entry = Entry { word: CANCEL_WORD, serial: 11, linked: false, body: Body::Cancel(1) };

#[rattlefmt::skip]
const CLOSE: Entry = Entry { word: 7, serial: 0, linked: false, body: Body::Close(0) };

// The completion of the read of a word.
#[rattlefmt::skip]
const OK_0: Completion = Completion { word: 0, serial: 10, outcome: Outcome::Count(1) };

#[rattlefmt::skip]
const RESET_0: Completion = Completion { word: 0, serial: 10, outcome: Outcome::Fail(104) };

#[rattlefmt::skip]
const CANCELED_0: Completion = Completion { word: 0, serial: 10, outcome: Outcome::Fail(125) };

#[rattlefmt::skip]
const OK_1: Completion = Completion { word: 1, serial: 11, outcome: Outcome::Count(2) };

#[rattlefmt::skip]
const RESET_1: Completion = Completion { word: 1, serial: 11, outcome: Outcome::Fail(104) };

#[rattlefmt::skip]
const CANCELED_1: Completion = Completion { word: 1, serial: 11, outcome: Outcome::Fail(125) };

#[rattlefmt::skip]
const CANCELED_2: Completion = Completion { word: 2, serial: 12, outcome: Outcome::Fail(125) };

#[rattlefmt::skip]
const CANCEL_DONE: Completion = Completion { word: CANCEL_WORD, serial: 11, outcome: Outcome::Count(0) };

// The first steps of each run: a stream to which three bytes were fed.
const STREAM: Step = Give(HandleKind::Stream, 0);

const FED: Step = Feed(0, "abc", None);

// Refusals.
const WAITING: Result<Completion, ExecRefusal> = Err(ExecRefusal::Waiting);

const BAD: Result<Completion, ExecRefusal> = Err(ExecRefusal::BadOutcome);

const NOT_FLYING: Result<Completion, ExecRefusal> = Err(ExecRefusal::NotFlying);

// Runs over a new ring whose queue holds four entries: their names and their steps.
#[rattlefmt::skip]
const RUNS: [(&str, &[Step]); 9] = [
    ("a failed leader takes its chain with it, in order", &[
        STREAM, Feed(0, "a", None), Pushes(&[LINKED_0, LINKED_1, PLAIN_2]), Enter(3), Bound(&[false, true, true]),
        Finish(1, Told::Count(1), "", WAITING, ""), Finish(3, Told::Count(1), "", NOT_FLYING, ""),
        Finish(0, Told::Fail(104), "", Ok(RESET_0), ""), Bound(&[]),
        Next(Some(RESET_0)), Next(Some(CANCELED_1)), Next(Some(CANCELED_2)), Next(None),
    ]),
    ("a short count ends the wait of the next one alone", &[
        STREAM, FED, Pushes(&[LINKED_0, LINKED_1, PLAIN_2]), Enter(3),
        Finish(0, Told::Count(1), "", Ok(OK_0), "a"), Bound(&[false, true]), Finish(1, Told::Count(1), "", WAITING, ""),
        Finish(0, Told::Count(2), "", Ok(OK_1), "bc"), Bound(&[false]), Has(0, 2),
    ]),
    ("a chain breaks where one of it fails", &[
        STREAM, FED, Pushes(&[LINKED_0, LINKED_1, PLAIN_2]), Enter(3),
        Finish(0, Told::Count(1), "", Ok(OK_0), "a"), Finish(0, Told::Fail(104), "", Ok(RESET_1), ""), Bound(&[]),
        Next(Some(OK_0)), Next(Some(RESET_1)), Next(Some(CANCELED_2)), Next(None),
    ]),
    ("nothing is bound across two enters", &[
        STREAM, FED, Pushes(&[LINKED_0]), Enter(1), Pushes(&[PLAIN_1]), Enter(1), Bound(&[false, false]),
        Finish(0, Told::Fail(104), "", Ok(RESET_0), ""), Bound(&[false]), Finish(0, Told::Count(2), "", Ok(OK_1), "ab"),
    ]),
    ("a cancel or a close between two calls parts them", &[
        STREAM, FED, Pushes(&[LINKED_0, CANCEL_1, PLAIN_1]), Enter(3), Bound(&[false, false]),
        Pushes(&[LINKED_2, CLOSE, PLAIN_3]), Enter(3), Bound(&[false, false, false, false, false]),
    ]),
    ("no chain takes another with it", &[
        STREAM, FED, Pushes(&[LINKED_0, PLAIN_1, LINKED_2, PLAIN_3]), Enter(4), Bound(&[false, true, false, true]),
        Finish(0, Told::Fail(104), "", Ok(RESET_0), ""), Bound(&[false, true]), Flies(0, Some(LINKED_2)),
        Next(Some(RESET_0)), Next(Some(CANCELED_1)), Next(None),
    ]),
    ("what waits keeps its mark, and ends by it once it waits no more", &[
        STREAM, FED, Pushes(&[LINKED_0, PLAIN_1, CANCEL_1]), Enter(3), Next(Some(CANCEL_DONE)),
        Finish(1, Told::Fail(CANCELED), "", WAITING, ""), Finish(0, Told::Count(1), "", Ok(OK_0), "a"),
        Finish(0, Told::Fail(CANCELED), "", Ok(CANCELED_1), ""),
    ]),
    ("a canceled leader takes its chain with it", &[
        STREAM, FED, Pushes(&[LINKED_0, PLAIN_1, CANCEL_0]), Enter(3), Finish(0, Told::Fail(4096), "", BAD, ""),
        Finish(0, Told::Fail(CANCELED), "", Ok(CANCELED_0), ""), Bound(&[]), Has(0, 3),
    ]),
    ("what waits and isn't allowed is refused as waiting", &[
        STREAM, Pushes(&[LINKED_0, PLAIN_1]), Enter(2), Finish(1, Told::Count(2), "", WAITING, ""),
        Finish(0, Told::Count(2), "", BAD, ""), Has(0, 0),
    ]),
];

// How many calls a long chain has.
const LONG: u32 = 100000;

// A long chain is entered, and its leader fails: each of it ends.
fn breaks<S: Stage + Handles>(stage: &mut S) -> Result<(), Why> {
    for _ in 0..LONG {
        is_like(stage.push(LINKED_0)? == Push::Done)?;
    }
    is_like(stage.enter() == Ok(LONG))?;
    let (done, _) = stage.finish(0, Told::Fail(104), "");
    is_like(done == Ok(RESET_0))?;
    let (_, _, ready) = stage.has();
    is_like(ready == LONG as usize && stage.bound(0).is_none())
}

// A long chain breaks at once.
fn run_long<S: Stage + Handles>(rt: &impl Abort, stage: &mut S) {
    assert_eq!(rt; breaks(stage), Ok(()), "a long chain");
}

#[test]
fn a_linked_call_leads_the_one_behind_it(rt: HostRuntime) -> Result<(), Fail> {
    for (name, steps) in RUNS {
        let mut bench = bench_of(rt.alloc(), 4)?;
        run_row(&rt, &mut bench, steps, name);
    }
    let mut bench = bench_of(rt.alloc(), LONG)?;
    run_long(&rt, &mut bench);
    Ok(())
}
