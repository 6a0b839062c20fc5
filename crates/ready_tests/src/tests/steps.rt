// Steps of a test over handles in memory, each with what it is to answer, and how a driver makes them. Its operation is that of place 0.
use crate::tests::named::Bit;
use crate::tests::stage::{InMemory, Stage, Why, is_like, receive};
use driver_core::Turned;
use machine::{Outcome, Request};
use rent_buf::{IoBuf as _, Rent, VecBuf};
use std::alloc::Global;
use std::process::Abort;

/// One step, and what it is to answer.
pub(crate) enum Step {
    /// A new stream has this number.
    Stream(u64),
    /// Bytes arrive at a handle.
    Feed(u64, &'static str),
    /// A read of two bytes of a handle is submitted.
    Read(u64),
    /// The operation is polled for a task, and is pending.
    Pends(u64),
    /// The operation is polled, and ended so, with these bytes in its buffer.
    Ends(Outcome, &'static str),
    /// The cancel of the operation is asked for.
    Cancel,
    /// The operation is dropped.
    Drop,
    /// A turn that doesn't stop, and wakes these tasks.
    Turn(&'static [u64]),
    /// The user drops its only hold of a handle.
    Release(u64),
    /// Whether the user holds a handle, it is known, and a request may name it.
    Handle(u64, bool, bool, bool),
    /// The bits of a handle.
    Bits(u64, Bit),
    /// How many operations are live.
    Live(usize),
}

// A read of two bytes is submitted.
fn reads<S: Stage>(stage: &mut S, alloc: Global, h: u64) -> Result<(), Why> {
    let buf = Rent::with_total(alloc, 2)?;
    stage.submit(0, receive(h, buf))
}

// A request is a read that holds these bytes.
fn holds(request: &Request<Rent, VecBuf>, bytes: &str) -> bool {
    match request {
        Request::Recv { fd: _, buf } => buf.bytes() == bytes.as_bytes(),
        _ => false,
    }
}

// The operation ended so.
fn ends<S: Stage>(stage: &mut S, outcome: Outcome, bytes: &str) -> Result<(), Why> {
    match stage.poll(0, 9)? {
        Some(done) => is_like(done.outcome == outcome && holds(&done.request, bytes)),
        None => Err(Why::Unlike),
    }
}

// A turn doesn't stop, and wakes these tasks.
fn wakes(turned: &Turned, woken: &[u64]) -> bool {
    turned.stop.is_none() && turned.woken.as_slice() == woken
}

// Makes a step. `Unlike` comes where it answers otherwise than it says.
fn make_step<S: Stage + InMemory>(stage: &mut S, alloc: Global, step: &Step) -> Result<(), Why> {
    match step {
        Step::Stream(h) => is_like(stage.stream()? == *h),
        Step::Feed(h, bytes) => stage.feed(*h, bytes.as_bytes()),
        Step::Read(h) => reads(stage, alloc, *h),
        Step::Pends(task) => is_like(stage.poll(0, *task)?.is_none()),
        Step::Ends(outcome, bytes) => ends(stage, *outcome, bytes),
        Step::Cancel => stage.cancel(0),
        Step::Drop => stage.drop_op(0),
        Step::Turn(woken) => is_like(wakes(&stage.turn(), woken)),
        Step::Release(h) => stage.release(*h),
        Step::Handle(h, held, known, named) => is_like(stage.handle(*h) == (*held, *known, *named)),
        Step::Bits(h, bit) => is_like(stage.bits(*h) == bit.ready()),
        Step::Live(count) => is_like(stage.left().0 == *count),
    }
}

// Makes steps in order. It answers the place of the first one that isn't as it says, and why; None: each is.
fn run<S: Stage + InMemory>(stage: &mut S, alloc: Global, steps: &[Step]) -> Option<(usize, Why)> {
    for i in 0..steps.len() {
        if let Err(why) = make_step(stage, alloc, &steps[i]) {
            return Some((i, why));
        }
    }
    None
}

/// Makes steps in order, each of which is as it says, in the row of this name.
pub(crate) fn run_row<S: Stage + InMemory>(
    rt: &impl Abort,
    stage: &mut S,
    alloc: Global,
    (name, steps): &(&str, &[Step]),
) {
    assert_eq!(rt; run(stage, alloc, steps), None, "in the row {name:?}");
}
