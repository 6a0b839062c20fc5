// Steps of a test, each with what it is to answer.
use crate::tests::stage::{Handles, Stage, Why, is_like, submit};
use machine::{Call, Completion, HandleKind, Told, WorldError};
use ring_core::{Body, Entry, ExecRefusal, Push};
use std::process::Abort;

/// One step, and what it is to answer.
#[derive(Clone, Copy)]
pub(crate) enum Step {
    /// A new handle of a kind has this number.
    Give(HandleKind, u64),
    /// There are so many handles.
    Count(u64),
    /// Bytes arrive at a handle, or don't.
    Feed(u64, &'static str, Option<WorldError>),
    /// The end of what arrives at a handle, or not.
    End(u64, Option<WorldError>),
    /// What a look at a handle shows.
    Look(u64, &'static str),
    /// An entry is pushed, and entered alone.
    Submit(Entry),
    /// Two entries are pushed at once, with these answers.
    Both(Entry, Entry, Push, Push),
    /// Entries are pushed, in order.
    Pushes(&'static [Entry]),
    /// So many entries are entered.
    Enter(u32),
    /// Whether what is in flight at the first places is bound, and nothing is behind them.
    Bound(&'static [bool]),
    /// What is in flight at a place.
    Flies(usize, Option<Entry>),
    /// What is in flight at a place is executed, with these bytes to send: its answer, and the bytes that come.
    Finish(usize, Told, &'static str, Result<Completion, ExecRefusal>, &'static str),
    /// So many entries are queued, and completions ready.
    Has(u32, usize),
    /// The completion that is taken off.
    Next(Option<Completion>),
}

/// A read of the handle 0.
pub(crate) fn read_entry(word: u64, serial: u64, ask: u32) -> Entry {
    Entry {
        word,
        serial,
        linked: false,
        body: Body::Call(Call::In { h: 0, ask }),
    }
}

/// A send to the handle 0.
pub(crate) fn send_entry(word: u64, serial: u64, ask: u32) -> Entry {
    Entry {
        word,
        serial,
        linked: false,
        body: Body::Call(Call::Out { h: 0, ask }),
    }
}

/// An execution with these bytes to send answers this, and these bytes come.
pub(crate) fn finishes<S: Handles>(
    stage: &mut S,
    place: usize,
    told: Told,
    sent: &str,
    want: Result<Completion, ExecRefusal>,
    came: &str,
) -> Result<(), Why> {
    let (done, bytes) = stage.finish(place, told, sent);
    is_like(done == want && bytes.as_slice() == came.as_bytes())
}

/// A look at a handle shows this.
pub(crate) fn shows<S: Handles>(stage: &S, h: u64, want: &str) -> Result<(), Why> {
    is_like(stage.look(h)?.as_slice() == want.as_bytes())
}

// Two entries are pushed at once.
fn pushes<S: Stage>(
    stage: &mut S,
    (first, second): (Entry, Entry),
    want: (Push, Push),
) -> Result<(), Why> {
    is_like(stage.push_both(first, second)? == want)
}

// So many entries are queued, and completions ready.
fn has<S: Stage>(stage: &S, queued: u32, ready: usize) -> Result<(), Why> {
    let now = stage.has();
    is_like(now.1 == queued && now.2 == ready)
}

// Entries are pushed, in order.
fn pushes_each<S: Stage>(stage: &mut S, entries: &[Entry]) -> Result<(), Why> {
    for entry in entries {
        is_like(stage.push(*entry)? == Push::Done)?;
    }
    Ok(())
}

// What is in flight at the first places is bound or not, and nothing is behind them.
fn are_bound<S: Handles>(stage: &S, want: &[bool]) -> Result<(), Why> {
    for place in 0..want.len() {
        is_like(stage.bound(place) == Some(want[place]))?;
    }
    is_like(stage.bound(want.len()).is_none())
}

// Makes a step. `Unlike` comes where it answers otherwise than it says.
fn make_step<S: Stage + Handles>(stage: &mut S, step: Step) -> Result<(), Why> {
    match step {
        Step::Give(kind, h) => is_like(stage.give(kind)? == h),
        Step::Count(count) => is_like(stage.count() == count),
        Step::Feed(h, bytes, want) => is_like(stage.feed(h, bytes)? == want),
        Step::End(h, want) => is_like(stage.end(h)? == want),
        Step::Look(h, want) => shows(stage, h, want),
        Step::Submit(entry) => submit(stage, entry),
        Step::Both(first, second, one, other) => pushes(stage, (first, second), (one, other)),
        Step::Pushes(entries) => pushes_each(stage, entries),
        Step::Enter(count) => is_like(stage.enter() == Ok(count)),
        Step::Bound(want) => are_bound(stage, want),
        Step::Flies(place, want) => is_like(stage.flying_at(place) == want),
        Step::Finish(place, told, sent, want, came) => {
            finishes(stage, place, told, sent, want, came)
        }
        Step::Has(queued, ready) => has(stage, queued, ready),
        Step::Next(want) => is_like(stage.next() == want),
    }
}

// Makes steps in order. It answers the place of the first one that isn't as it says, and why; None: each is.
fn run<S: Stage + Handles>(stage: &mut S, steps: &[Step]) -> Option<(usize, Why)> {
    for i in 0..steps.len() {
        if let Err(why) = make_step(stage, steps[i]) {
            return Some((i, why));
        }
    }
    None
}

/// Makes steps in order, each of which is as it says, in the row of this name.
pub(crate) fn run_row<S: Stage + Handles>(
    rt: &impl Abort,
    stage: &mut S,
    steps: &[Step],
    name: &str,
) {
    assert_eq!(rt; run(stage, steps), None, "in the row {name:?}");
}
