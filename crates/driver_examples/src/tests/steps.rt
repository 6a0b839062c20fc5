// Steps of a test, each with what it is to answer, and how a driver makes them.
use crate::tests::asks::{Ask, Asks, Why};
use crate::tests::stage::{Polls, Stage, Submits};
use handle_core::Released;
use machine::{HandleKind, Outcome, Told, WorldError};
use std::process::Abort;
use uring_driver::{Executed, Stop, Turned};

/// One step, and what it is to answer. An operation is named by its number.
#[derive(Clone, Copy)]
pub(crate) enum Step {
    /// A request is submitted under no group.
    Submit(Ask, Submits),
    /// A request is submitted under the last group that was made.
    Under(Ask, Submits),
    /// A request is submitted under no group, linked.
    Linked(Ask, Submits),
    /// A group is made, which isn't canceled.
    Group,
    /// The last group is canceled, which has these members.
    CancelAll(&'static [u64]),
    /// An operation is polled for a task, and is pending.
    Pends(usize, u64),
    /// An operation is polled, and ended so, with these bytes in its buffer or its parts.
    Ready(usize, Outcome, &'static [&'static str]),
    /// An operation is dropped.
    Drop(usize),
    /// The cancel of an operation is asked for.
    Cancel(usize),
    /// The user holds a handle that wasn't known.
    Adopt(u64),
    /// The user holds a handle once more.
    Hold(u64),
    /// The user drops a hold of a handle.
    Release(u64, Released),
    /// The user gives a handle up.
    Close(u64, Released),
    /// A turn that stops so, or doesn't stop, and names these operations, and neither a close nor a task.
    Turn(Option<Stop>, &'static [u64]),
    /// Two turns by the program over any driver, of which neither stops.
    Twice,
    /// A turn that names the closes of these handles alone.
    Closes(&'static [u64]),
    /// A turn that names these operations and wakes these tasks.
    Wakes(&'static [u64], &'static [u64]),
    /// Whether the user holds a handle, it is known, and it is closing.
    Handle(u64, bool, bool, bool),
    /// So many slots are live, entries queued, entries due, and completions ready.
    Has(usize, u32, usize, usize),
    /// A call that only a driver over this ring has.
    Own(Own),
}

/// A call that a driver has over the ring in memory, or over the ring that fails where it is told to.
#[derive(Clone, Copy)]
pub(crate) enum Own {
    /// A new handle of a kind has this number.
    Give(HandleKind, u64),
    /// Whether a handle is the ring's and its user holds it.
    Here(u64, bool),
    /// Bytes arrive at a handle, or don't.
    Feed(u64, &'static str, Option<WorldError>),
    /// A message of an address arrives at a handle.
    Message(u64, u64, &'static str),
    /// The end of what arrives at a handle, or not.
    End(u64, Option<WorldError>),
    /// What was sent to a handle: these bytes, or messages of which there is none.
    Sent(u64, Option<&'static str>),
    /// What is in flight at a place is executed with a report.
    Execute(usize, Told, Executed),
    /// A completion of a word is added.
    Inject(u64),
    /// The serial of the entry in flight at the first place, if there is one.
    Flies(Option<u64>),
    /// Whether what is in flight at a place is bound to what is directly before it.
    Binds(usize, bool),
}

/// A driver with calls that only one over its ring has.
pub(crate) trait OwnCalls {
    /// Makes such a call. `Unmet` comes where the driver hasn't the call, or its condition isn't met.
    fn own(&mut self, own: Own) -> Result<(), Why>;
}

/// A read of handle 0 into a buffer with `01`.
pub(crate) const ASK: Ask = Ask(Asks::Read, 0, "01");

/// That read is submitted.
pub(crate) const READ: Step = Step::Submit(ASK, Submits::Done);

/// That read is submitted, linked.
pub(crate) const LINKED_READ: Step = Step::Linked(ASK, Submits::Done);

/// A turn that names nobody.
pub(crate) const TURN: Step = Step::Turn(None, &[]);

/// An answer is like the one that a test expects.
pub(crate) fn is_like(like: bool) -> Result<(), Why> {
    if like { Ok(()) } else { Err(Why::Unlike) }
}

// A request is submitted.
fn submits<S: Stage>(
    stage: &mut S,
    ask: Ask,
    (under, linked): (bool, bool),
    want: Submits,
) -> Result<(), Why> {
    is_like(stage.submit(ask, under, linked)? == want)
}

// A group is made.
fn makes_group<S: Stage>(stage: &mut S) -> Result<(), Why> {
    stage.make_group()?;
    is_like(!stage.canceled()?)
}

// The last group is canceled.
fn cancels_all<S: Stage>(stage: &mut S, members: &[u64]) -> Result<(), Why> {
    is_like(stage.cancel_all()?.as_slice() == members)?;
    is_like(stage.canceled()?)
}

// An operation is polled.
fn polls<S: Stage>(
    stage: &mut S,
    n: usize,
    task: u64,
    held: &[&str],
    want: Polls,
) -> Result<(), Why> {
    is_like(stage.poll(n, task, held)? == want)
}

// The user drops a hold of a handle.
fn releases<S: Stage>(stage: &mut S, h: u64, want: Released) -> Result<(), Why> {
    is_like(stage.release(h)? == want)
}

// The user gives a handle up.
fn closes<S: Stage>(stage: &mut S, h: u64, want: Released) -> Result<(), Why> {
    is_like(stage.close(h)? == want)
}

/// A turn names these operations, handles that are closed, and tasks.
pub(crate) fn names(turned: &Turned, reaped: &[u64], closed: &[u64], woken: &[u64]) -> bool {
    turned.reaped.as_slice() == reaped
        && turned.closed.as_slice() == closed
        && turned.woken.as_slice() == woken
}

// A turn.
fn turns<S: Stage>(
    stage: &mut S,
    stop: Option<Stop>,
    reaped: &[u64],
    closed: &[u64],
    woken: &[u64],
) -> Result<(), Why> {
    let turned = stage.turn();
    is_like(turned.stop == stop && names(&turned, reaped, closed, woken))
}

/// Makes a step. `Unlike` comes where it answers otherwise than it says.
pub(crate) fn make_step<S: Stage + OwnCalls>(stage: &mut S, step: Step) -> Result<(), Why> {
    match step {
        Step::Submit(ask, want) => submits(stage, ask, (false, false), want),
        Step::Under(ask, want) => submits(stage, ask, (true, false), want),
        Step::Linked(ask, want) => submits(stage, ask, (false, true), want),
        Step::Group => makes_group(stage),
        Step::CancelAll(members) => cancels_all(stage, members),
        Step::Pends(n, task) => polls(stage, n, task, &[], Polls::Pending),
        Step::Ready(n, outcome, held) => polls(stage, n, 0, held, Polls::Ready(outcome)),
        Step::Drop(n) => stage.drop_op(n),
        Step::Cancel(n) => stage.cancel(n),
        Step::Adopt(h) => stage.adopt(h),
        Step::Hold(h) => stage.hold(h),
        Step::Release(h, want) => releases(stage, h, want),
        Step::Close(h, want) => closes(stage, h, want),
        Step::Turn(stop, reaped) => turns(stage, stop, reaped, &[], &[]),
        Step::Twice => is_like(stage.turn_twice()),
        Step::Closes(closed) => turns(stage, None, &[], closed, &[]),
        Step::Wakes(reaped, woken) => turns(stage, None, reaped, &[], woken),
        Step::Handle(h, held, known, closing) => is_like(stage.handle(h) == (held, known, closing)),
        Step::Has(slots, queued, due, ready) => is_like(stage.has() == (slots, queued, due, ready)),
        Step::Own(own) => stage.own(own),
    }
}

/// Makes steps in order. It answers the place of the first one that isn't as it says, and why; None: each is.
pub(crate) fn run<S: Stage + OwnCalls>(stage: &mut S, steps: &[Step]) -> Option<(usize, Why)> {
    for i in 0..steps.len() {
        if let Err(why) = make_step(stage, steps[i]) {
            return Some((i, why));
        }
    }
    None
}

/// Makes steps in order, each of which is as it says, in the row of this name.
pub(crate) fn run_row<S: Stage + OwnCalls>(
    rt: &impl Abort,
    stage: &mut S,
    steps: &[Step],
    name: &str,
) {
    assert_eq!(rt; run(stage, steps), None, "in the row {name:?}");
}
