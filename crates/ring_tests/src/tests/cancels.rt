// What a cancel marks, and which errors may be reported.
use crate::tests::bench::bench_of;
use crate::tests::stage::{Handles, Stage, Why, is_like};
use crate::tests::steps::{finishes, read_entry, shows};
use machine::{Call, Completion, HandleKind, Outcome, Told};
use ring_core::{Body, CANCEL_WORD, Entry, ExecRefusal, Push};
use std::process::Abort;
use std::test::Fail;

// A read; its serial is the word of the next one.
const FIVE: Entry = Entry {
    word: 5,
    serial: 6,
    linked: false,
    body: Body::Call(Call::In { h: 0, ask: 1 }),
};

// Another read; its serial is the word of the first one.
const SIX: Entry = Entry {
    word: 6,
    serial: 5,
    linked: false,
    body: Body::Call(Call::In { h: 0, ask: 1 }),
};

// The cancel of the first read's word.
const CANCEL_FIVE: Entry = Entry {
    word: CANCEL_WORD,
    serial: 9,
    linked: false,
    body: Body::Cancel(5),
};

// The cancel of a word that no read has.
const CANCEL_SEVEN: Entry = Entry {
    word: CANCEL_WORD,
    serial: 9,
    linked: false,
    body: Body::Cancel(7),
};

// What a cancel marks: the entries that are entered, and whether the first and the second read are marked.
#[rattlefmt::skip]
const CANCELS: [(&str, [Entry; 3], bool, bool); 5] = [
    ("its word, and no serial", [FIVE, SIX, CANCEL_FIVE], true, false),
    ("each that has its word", [FIVE, FIVE, CANCEL_FIVE], true, true),
    ("no other word", [FIVE, SIX, CANCEL_SEVEN], false, false),
    ("nothing that is taken later", [CANCEL_FIVE, FIVE, SIX], false, false),
    ("what was taken before it", [FIVE, CANCEL_FIVE, FIVE], true, false),
];

// A queue of these entries was entered, and there is one handle, to which `abc` was fed.
fn enters<S: Stage + Handles>(stage: &mut S, entries: [Entry; 3]) -> Result<(), Why> {
    is_like(stage.give(HandleKind::Stream)? == 0)?;
    is_like(stage.feed(0, "abc")?.is_none())?;
    for entry in entries {
        is_like(stage.push(entry)? == Push::Done)?;
    }
    is_like(stage.enter() == Ok(3))
}

// The cancel alone is done.
fn is_done<S: Stage>(stage: &mut S) -> Result<(), Why> {
    let done = Completion {
        word: CANCEL_WORD,
        serial: 9,
        outcome: Outcome::Count(0),
    };
    is_like(stage.next() == Some(done))?;
    is_like(stage.next().is_none())
}

// Whether the execution at a place with the error of a cancel is allowed.
fn is_marked<S: Handles>(stage: &mut S, place: usize) -> bool {
    stage.finish(place, Told::Fail(125), "").0.is_ok()
}

// A cancel marks these reads.
fn marks<S: Stage + Handles>(
    stage: &mut S,
    entries: [Entry; 3],
    first: bool,
    second: bool,
) -> Result<(), Why> {
    enters(stage, entries)?;
    is_done(stage)?;
    is_like(is_marked(stage, 1) == second)?;
    is_like(is_marked(stage, 0) == first)
}

// A row is as it says.
fn run_cancel<S: Stage + Handles>(
    rt: &impl Abort,
    stage: &mut S,
    name: &str,
    entries: [Entry; 3],
    (first, second): (bool, bool),
) {
    assert_eq!(rt;
        marks(stage, entries, first, second),
        Ok(()),
        "in the row {name:?}"
    );
}

#[test]
fn a_cancel_marks_what_has_its_word_and_is_done(rt: HostRuntime) -> Result<(), Fail> {
    for (name, entries, first, second) in CANCELS {
        let mut bench = bench_of(rt.alloc(), 3)?;
        run_cancel(&rt, &mut bench, name, entries, (first, second));
    }
    Ok(())
}

// Which errors may be told: whether a cancel was taken, the error, and whether it is allowed.
#[rattlefmt::skip]
const ERRORS: [(bool, u16, bool); 9] = [
    (false, 0, false),
    (false, 1, true),
    (false, 125, false),
    (false, 4095, true),
    (false, 4096, false),
    (true, 0, false),
    (true, 124, true),
    (true, 125, true),
    (true, 4096, false),
];

// What the execution of the first read with an error answers.
fn answer_of(e: u16, allowed: bool) -> Result<Completion, ExecRefusal> {
    if allowed {
        Ok(Completion {
            word: 5,
            serial: 0,
            outcome: Outcome::Fail(e),
        })
    } else {
        Err(ExecRefusal::BadOutcome)
    }
}

// The first read ends with an error, or not: no bytes come, and none were sent.
fn fails<S: Stage + Handles>(
    stage: &mut S,
    canceled: bool,
    e: u16,
    allowed: bool,
) -> Result<(), Why> {
    let cancel = if canceled { CANCEL_FIVE } else { CANCEL_SEVEN };
    enters(stage, [read_entry(5, 0, 3), SIX, cancel])?;
    finishes(stage, 0, Told::Fail(e), "", answer_of(e, allowed), "")?;
    shows(stage, 0, "")
}

// A row is as it says.
fn run_error<S: Stage + Handles>(
    rt: &impl Abort,
    stage: &mut S,
    canceled: bool,
    e: u16,
    allowed: bool,
) {
    assert_eq!(rt;
        fails(stage, canceled, e, allowed),
        Ok(()),
        "the error {e}, with a cancel: {canceled}"
    );
}

#[test]
fn an_error_is_allowed_by_its_number_and_moves_nothing(rt: HostRuntime) -> Result<(), Fail> {
    for (canceled, e, allowed) in ERRORS {
        let mut bench = bench_of(rt.alloc(), 3)?;
        run_error(&rt, &mut bench, canceled, e, allowed);
    }
    Ok(())
}
