// Ten calls over a ring whose queue holds one entry: each call of a driver that may enter. One enter fails, or is busy.
ghost use Rattle.std.specs.Prelude.{◌≡◌};

use crate::tests::asks::{Ask, Asks, Why};
use crate::tests::faults::{ERROR, bench_over};
use crate::tests::stage::{Stage, Submits};
use crate::tests::steps::{ASK, Own, OwnCalls, READ, Step, is_like, make_step, names, run_row};
use handle_core::Released;
use machine::Outcome;
use ring_core::FIRST_CLOSE;
use std::alloc::Global;
use std::marker::Brand;
use std::process::Abort;
use std::rt::Clock;
use std::sync::Wait;
use std::sync::ledger::{Blank, Ledger};
use std::test::Fail;
use uring_driver::{Parked, Stop, SubmitFault, Turned};
use wake_core::{PUSH_PARTS, Sleeper, WakeCell};

// A call that may enter the ring.
#[derive(Clone, Copy)]
enum Call {
    // A read is submitted.
    Submit,
    // A step that isn't refused: what it enters is due where the ring doesn't take it.
    Makes(Step),
    // A turn, before which a completion of this word becomes ready: it names these operations.
    Turn(u64, &'static [u64]),
    // A park with a limit or without one, before which the close of this handle is done: it names the close.
    Park(u64, Option<u64>),
}

// What became of a call.
#[derive(Clone, Copy, PartialEq, Eq)]
enum Answer {
    // It is done.
    Done,
    // It was a turn, which is done as far as the busy ring let it.
    Busy,
    // It was refused.
    Refused,
}

// The numbers of a driver: live slots, operations submitted, groups made, and how many of its five handles the user holds, are known and
// are closing.
#[derive(Clone, Copy, PartialEq, Eq)]
struct Numbers {
    slots: usize,
    given: u64,
    groups: u64,
    held: u64,
    known: u64,
    closing: u64,
}

// How many enters are made before the first call.
const BEFORE: u64 = 3;

// What is made before the first call: operation 0 was reaped, 1 and 2 were entered, and 3, which is under a group, is queued. The user
// holds neither the handle of operation 0, which is 1, nor that of operation 1, which is 4.
#[rattlefmt::skip]
const FIRST: [Step; 14] = [
    Step::Adopt(0), Step::Adopt(1), Step::Adopt(2), Step::Adopt(3), Step::Adopt(4),
    Step::Submit(Ask(Asks::Read, 1, "01"), Submits::Done), Step::Release(1, Released::Held), Step::Own(Own::Inject(0)),
    Step::Turn(None, &[0]), Step::Submit(Ask(Asks::Read, 4, "01"), Submits::Done), Step::Release(4, Released::Held),
    READ, Step::Group, Step::Under(ASK, Submits::Done),
];

// The calls, and the numbers after each.
#[rattlefmt::skip]
const CALLS: &[(Call, Numbers)] = &[
    (Call::Submit,
        Numbers { slots: 5, given: 5, groups: 1, held: 3, known: 5, closing: 0 }),
    (Call::Makes(Step::Ready(0, Outcome::Fail(ERROR), &["01"])),
        Numbers { slots: 4, given: 5, groups: 1, held: 3, known: 5, closing: 1 }),
    (Call::Makes(Step::Drop(1)),
        Numbers { slots: 4, given: 5, groups: 1, held: 3, known: 5, closing: 1 }),
    (Call::Makes(Step::Cancel(2)),
        Numbers { slots: 4, given: 5, groups: 1, held: 3, known: 5, closing: 1 }),
    (Call::Makes(Step::CancelAll(&[3])),
        Numbers { slots: 4, given: 5, groups: 2, held: 3, known: 5, closing: 1 }),
    (Call::Makes(Step::Release(2, Released::Last)),
        Numbers { slots: 4, given: 5, groups: 2, held: 2, known: 5, closing: 2 }),
    (Call::Makes(Step::Close(3, Released::Last)),
        Numbers { slots: 4, given: 5, groups: 2, held: 1, known: 5, closing: 3 }),
    (Call::Turn(1, &[1]),
        Numbers { slots: 3, given: 5, groups: 2, held: 1, known: 5, closing: 4 }),
    (Call::Park(1, None),
        Numbers { slots: 3, given: 5, groups: 2, held: 1, known: 4, closing: 3 }),
    (Call::Park(2, Some(1)),
        Numbers { slots: 3, given: 5, groups: 2, held: 1, known: 3, closing: 2 }),
];

// The numbers of a driver now.
fn numbers_of<S: Stage>(stage: &S) -> Numbers {
    let (mut held, mut known, mut closing) = (0_u64, 0_u64, 0_u64);
    for h in 0..5 {
        let handle = stage.handle(h);
        held = held.saturating_add(handle.0 as u64);
        known = known.saturating_add(handle.1 as u64);
        closing = closing.saturating_add(handle.2 as u64);
    }
    let (given, groups) = stage.made();
    Numbers {
        slots: stage.has().0,
        given,
        groups,
        held,
        known,
        closing,
    }
}

// What became of a turn: one that fails names nobody. Else it names these, also where the ring is busy.
fn answer_of(turned: &Turned, reaped: &[u64], closed: &[u64]) -> Result<Answer, Why> {
    if turned.stop == Some(Stop::RingFault) && names(turned, &[], &[], &[]) {
        return Ok(Answer::Refused);
    }
    is_like(names(turned, reaped, closed, &[]))?;
    match turned.stop {
        None => Ok(Answer::Done),
        Some(Stop::Busy) => Ok(Answer::Busy),
        Some(_) => Err(Why::Unlike),
    }
}

// A turn.
fn turn<S: Stage>(stage: &mut S, reaped: &[u64]) -> Result<Answer, Why> {
    answer_of(&stage.turn(), reaped, &[])
}

// What became of a park, which drains nothing.
fn answer_of_park(parked: &Parked, h: u64) -> Result<Answer, Why> {
    let remote = &parked.remote;
    is_like(remote.first.as_slice().len() == 0 && remote.again.as_slice().len() == 0)?;
    answer_of(&parked.turned, &[], &[h])
}

// A park.
fn park<S: Stage, P: Ledger, D: Ledger, R: Wait + Clock>(
    rt: &R,
    sleeper: &mut Sleeper<P, D>,
    stage: &mut S,
    h: u64,
    limit: Option<u64>,
) -> Result<Answer, Why> {
    let parked = stage.park(rt, sleeper, limit);
    answer_of_park(&parked, h)
}

// Submits a read.
fn submits<S: Stage>(stage: &mut S, busy: bool) -> Result<Answer, Why> {
    let why = if busy {
        SubmitFault::Busy
    } else {
        SubmitFault::RingFault
    };
    match stage.submit(ASK, false, false)? {
        Submits::Done => Ok(Answer::Done),
        Submits::Refused(refused) if refused == why => Ok(Answer::Refused),
        _ => Err(Why::Unlike),
    }
}

// A step.
fn makes<S: Stage + OwnCalls>(stage: &mut S, step: Step) -> Result<Answer, Why> {
    make_step(stage, step)?;
    Ok(Answer::Done)
}

// What becomes ready before a call.
fn make_ready<S: OwnCalls>(stage: &mut S, call: Call) -> Result<(), Why> {
    match call {
        Call::Turn(word, _) => stage.own(Own::Inject(word)),
        Call::Park(h, _) => stage.own(Own::Inject(FIRST_CLOSE.saturating_add(h))),
        Call::Submit | Call::Makes(_) => Ok(()),
    }
}

// One call.
fn act<S: Stage + OwnCalls, P: Ledger, D: Ledger, R: Wait + Clock>(
    rt: &R,
    sleeper: &mut Sleeper<P, D>,
    stage: &mut S,
    call: Call,
    busy: bool,
) -> Result<Answer, Why> {
    match call {
        Call::Submit => submits(stage, busy),
        Call::Makes(step) => makes(stage, step),
        Call::Turn(_, reaped) => turn(stage, reaped),
        Call::Park(h, limit) => park(rt, sleeper, stage, h, limit),
    }
}

// A call that was refused has left these numbers, slots and lists, and is made once more: then it is done.
fn act_again<S: Stage + OwnCalls, P: Ledger, D: Ledger, R: Wait + Clock>(
    rt: &R,
    sleeper: &mut Sleeper<P, D>,
    stage: &mut S,
    (call, busy): (Call, bool),
    (numbers, has): (Numbers, (usize, u32, usize, usize)),
) -> Result<(), Why> {
    is_like(numbers_of(stage) == numbers && stage.has() == has)?;
    is_like(act(rt, sleeper, stage, call, busy)? == Answer::Done)
}

// One call, which is made once more where it is refused.
fn act_once<S: Stage + OwnCalls, P: Ledger, D: Ledger, R: Wait + Clock>(
    rt: &R,
    sleeper: &mut Sleeper<P, D>,
    stage: &mut S,
    call: Call,
    busy: bool,
) -> Result<Answer, Why> {
    make_ready(stage, call)?;
    let before = (numbers_of(stage), stage.has());
    let answer = act(rt, sleeper, stage, call, busy)?;
    if answer == Answer::Refused {
        act_again(rt, sleeper, stage, (call, busy), before)?;
    }
    Ok(answer)
}

// One of the ten calls, after which the driver has these numbers. It answers whether an enter that fails or is busy shows: the call is
// refused, or a turn is busy, or an entry is due.
fn shows<S: Stage + OwnCalls, P: Ledger, D: Ledger, R: Wait + Clock>(
    rt: &R,
    sleeper: &mut Sleeper<P, D>,
    stage: &mut S,
    (call, want): (Call, Numbers),
    busy: bool,
) -> Result<bool, Why> {
    let answer = act_once(rt, sleeper, stage, call, busy)?;
    is_like(numbers_of(stage) == want)?;
    Ok(answer != Answer::Done || stage.has().2 > 0)
}

// The ten calls. It answers the place of the first one that isn't as it says, and why; or the number of calls, and why, where no enter
// that fails or is busy shows; None: all is well.
fn run<S: Stage + OwnCalls, P: Ledger, D: Ledger, R: Wait + Clock>(
    rt: &R,
    sleeper: &mut Sleeper<P, D>,
    stage: &mut S,
    busy: bool,
) -> Option<(usize, Why)> {
    let mut some = false;
    for i in 0..CALLS.len() {
        match shows(rt, sleeper, stage, CALLS[i], busy) {
            Ok(one) => some = some || one,
            Err(why) => return Some((i, why)),
        }
    }
    if some {
        None
    } else {
        Some((CALLS.len(), Why::Unlike))
    }
}

// All is well in the run in which the enter of this number fails, or is busy.
fn is_well(rt: &impl Abort, unlike: Option<(usize, Why)>, hit: u64, busy: bool) {
    assert!(rt;
        unlike.is_none(),
        "the enter {hit}, busy: {busy}: {unlike:?}"
    );
}

// A run in which the enter of this number fails, or is busy.
fn run_over<S: Stage + OwnCalls, P: Ledger, D: Ledger, R: Wait + Clock + Abort>(
    rt: &R,
    sleeper: &mut Sleeper<P, D>,
    stage: &mut S,
    hit: u64,
    busy: bool,
) {
    run_row(rt, stage, &FIRST, "before the calls");
    let unlike = run(rt, sleeper, stage, busy);
    is_well(rt, unlike, hit, busy);
}

// Such a run over a new ring.
fn run_new<P: Ledger, D: Ledger, R: Wait + Clock + Abort>(
    rt: &R,
    alloc: Global,
    sleeper: &mut Sleeper<P, D>,
    hit: u64,
    busy: bool,
) -> Result<(), Why> {
    let hits = [hit];
    let (failing, busy_ones) = if busy {
        (&hits[..0], &hits[..])
    } else {
        (&hits[..], &hits[..0])
    };
    let mut bench = bench_over(alloc, 1, failing, busy_ones)?;
    run_over(rt, sleeper, &mut bench, hit, busy);
    Ok(())
}

// For each of the first enters a run in which it fails, and one in which it is busy.
fn run_each<P: Ledger, D: Ledger, R: Wait + Clock + Abort>(
    rt: &R,
    alloc: Global,
    sleeper: &mut Sleeper<P, D>,
) -> Result<(), Why> {
    for k in 0..10 {
        run_new(rt, alloc, sleeper, BEFORE + k, false)?;
        run_new(rt, alloc, sleeper, BEFORE + k, true)?;
    }
    Ok(())
}

// The same with a new sleeper.
fn run_all<P: Ledger, D: Ledger, R: Wait + Clock + Abort>(
    rt: &R,
    alloc: Global,
    pushes: Blank,
    drains: Blank,
) -> Result<(), Why>
    requires pushes { (pushes.name ≡ P.name) × (pushes.parts ≡ P.parts) × (pushes.parts ≡ PUSH_PARTS) }
    requires drains { (drains.name ≡ D.name) × (drains.parts ≡ D.parts) × (drains.parts ≡ 1) }
{
    match WakeCell::<P, D>::new(alloc, pushes, drains) {
        Ok((_cell, mut sleeper)) => run_each(rt, alloc, &mut sleeper),
        Err(_) => Err(Why::OutOfMemory),
    }
}

#[test]
fn a_call_that_the_ring_refuses_changes_nothing(rt: HostRuntime) -> Result<(), Fail> {
    run_all::<Brand, Brand, HostRuntime>(&rt, rt.alloc(), Blank::new(PUSH_PARTS), Blank::new(1))?;
    Ok(())
}
