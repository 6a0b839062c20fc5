// What the parks of a driver drain and treat, with the numbers and tasks written by hand.
ghost use Rattle.std.specs.Prelude.{◌≡◌};

use crate::tests::asks::{Ask, Asks, Why};
use crate::tests::bench::Bench;
use crate::tests::stage::{Stage, Submits};
use crate::tests::steps::{Own, OwnCalls, Step, is_like, names, run_row};
use machine::{HandleKind, Outcome, Told};
use rent_buf::Buf;
use ring_core::MemRing;
use std::alloc::Global;
use std::marker::Brand;
use std::process::Abort;
use std::rt::Clock;
use std::sync::Wait;
use std::sync::atomic::{AtomicU64, Ordering};
use std::sync::ledger::{Blank, Ledger};
use std::test::Fail;
use std::thread;
use std::thread::{Threads, join};
use std::time::Duration;
use uring_driver::{Executed, IoUringDriver, Parked};
use wake_core::{
    MAX_PUSHED, OutOfMemory, PUSH_PARTS, RemoteSender, Sleeper, Unpark, UnparkHandle, WakeCell,
    Waker,
};

// A park drained these wakers in its first drain, and its turn named these operations and tasks.
fn is_parked(parked: &Parked, first: &[Waker], reaped: &[u64], woken: &[u64]) -> bool {
    let is_drained = parked.remote.first.as_slice() == first
        && parked.remote.again.as_slice().len() == 0;
    is_drained && parked.turned.stop.is_none() && names(&parked.turned, reaped, &[], woken)
}

// A park, with a limit or without one, drains these wakers, and its turn names these operations and tasks.
fn park<S: Stage, P: Ledger, D: Ledger, R: Wait + Clock>(
    rt: &R,
    sleeper: &mut Sleeper<P, D>,
    stage: &mut S,
    limit: Option<u64>,
    (first, reaped, woken): (&[Waker], &[u64], &[u64]),
) -> bool {
    let parked = stage.park(rt, sleeper, limit);
    is_parked(&parked, first, reaped, woken)
}

// Unparks a driver until its park is back, at most 10000 times, with a millisecond in between. Answers whether it came back.
fn unpark_until<P: Ledger, D: Ledger, R: Wait + Clock>(
    rt: &R,
    handle: &UnparkHandle<P, D>,
    back: &AtomicU64,
) -> bool {
    for _i in 0..10000 {
        if back.load(Ordering::SeqCst) > 0 {
            return true;
        }
        let _ = handle.unpark(rt);
        thread::sleep(rt, Duration::from_millis(1));
    }
    false
}

// A bench over a new ring in memory of 1024 entries.
fn new_bench(alloc: Global) -> Result<Bench<MemRing, Buf>, OutOfMemory> {
    match IoUringDriver::new(alloc) {
        Ok(driver) => Ok(Bench::new(alloc, driver)),
        Err(_) => Err(OutOfMemory),
    }
}

// Parks a new driver, with this limit or without one: it drains nothing and names nobody.
fn park_new<P: Ledger, D: Ledger, R: Wait + Clock>(
    rt: &R,
    alloc: Global,
    sleeper: &mut Sleeper<P, D>,
    limit: Option<u64>,
) -> bool {
    match new_bench(alloc) {
        Ok(mut bench) => is_parked(&bench.park(rt, sleeper, limit), &[], &[], &[]),
        Err(_) => false,
    }
}

// A driver that is unparked on another thread comes back from a park, with this limit or without one.
fn unparked<P, D, R>(
    rt: &R,
    alloc: Global,
    handle: &UnparkHandle<P, D>,
    sleeper: &mut Sleeper<P, D>,
    limit: Option<u64>,
) -> bool
where
    P: Ledger + Send + Sync,
    D: Ledger + Send + Sync,
    R: Threads + Wait + Clock + Sync,
{
    let back = AtomicU64::new(0);
    let (is_back, parked) = join(
        rt,
        || unpark_until(rt, handle, &back),
        || {
            let parked = park_new(rt, alloc, sleeper, limit);
            back.fetch_add(1, Ordering::SeqCst);
            parked
        },
    );
    is_back && parked
}

// Sends a waker for a task.
fn send<P: Ledger, D: Ledger, R: Wait>(
    rt: &R,
    sender: &mut RemoteSender<P, D>,
    task: u64,
) -> Result<(), Why> {
    if sender.sent() >= MAX_PUSHED {
        return Err(Why::Unmet);
    }
    is_like(sender.send(rt, task).is_ok())
}

// The wakers that are sent before the park.
const SENT: [Waker; 2] = [
    Waker {
        sender: 0,
        number: 0,
        task: 3,
    },
    Waker {
        sender: 0,
        number: 1,
        task: 4,
    },
];

// The waker that is sent after it.
const LEFT: [Waker; 1] = [Waker {
    sender: 0,
    number: 2,
    task: 5,
}];

// A sender sends two wakers, a driver parks, and the sender sends a third.
fn sent<P: Ledger, D: Ledger, R: Wait + Clock, S: Stage>(
    rt: &R,
    sleeper: &mut Sleeper<P, D>,
    sender: &mut RemoteSender<P, D>,
    stage: &mut S,
) -> Result<(), Why> {
    send(rt, sender, 3)?;
    send(rt, sender, 4)?;
    is_like(park(rt, sleeper, stage, Some(1), (&SENT, &[], &[])))?;
    send(rt, sender, 5)
}

// The sleeper's first sender sends wakers round a park, and all is settled.
fn sent_and_settled<P: Ledger, D: Ledger, R: Wait + Clock, S: Stage>(
    rt: &R,
    alloc: Global,
    sleeper: &mut Sleeper<P, D>,
    stage: &mut S,
) -> Result<(), Why> {
    let Ok(mut sender) = sleeper.sender() else {
        return Err(Why::OutOfMemory);
    };
    let all = sent(rt, sleeper, &mut sender, stage);
    let settled = settle(rt, alloc, sleeper, sender);
    all.and(settled)
}

// Settles with the only sender: two wakers were drained, and one is left.
fn settle<P: Ledger, D: Ledger, R: Wait>(
    rt: &R,
    alloc: Global,
    sleeper: &mut Sleeper<P, D>,
    sender: RemoteSender<P, D>,
) -> Result<(), Why> {
    let mut senders = Vec::new(alloc);
    if senders.push(sender).is_err() {
        return Err(Why::OutOfMemory);
    }
    if sleeper.made() != 1 {
        return Err(Why::Unmet);
    }
    let settled = sleeper.settle(rt, senders);
    is_like(settled.drained == 3 && settled.rest.as_slice() == LEFT.as_slice())
}

// A read of a stream that bytes came to, which is in flight after the first park.
#[rattlefmt::skip]
const BEFORE: [Step; 3] = [
    Step::Own(Own::Give(HandleKind::Stream, 0)), Step::Submit(Ask(Asks::Read, 0, ""), Submits::Done),
    Step::Own(Own::Feed(0, "a", None)),
];

// It is executed, and a task waits for it.
#[rattlefmt::skip]
const BETWEEN: [Step; 2] = [
    Step::Own(Own::Execute(0, Told::Count(1), Executed::Op(0))), Step::Pends(0, 8),
];

// It ended.
const AFTER: [Step; 1] = [Step::Ready(0, Outcome::Count(1), &["a"])];

// A driver in which a completion is ready doesn't wait in a park, though no limit is set.
fn parked_over_a_completion<P: Ledger, D: Ledger, R: Wait + Clock + Abort, S: Stage + OwnCalls>(
    rt: &R,
    sleeper: &mut Sleeper<P, D>,
    stage: &mut S,
) -> Result<(), Why> {
    run_row(rt, stage, &BEFORE, "before the parks");
    let with_limit = park(rt, sleeper, stage, Some(1), (&[], &[], &[]));
    run_row(rt, stage, &BETWEEN, "between the parks");
    let without_limit = park(rt, sleeper, stage, None, (&[], &[0], &[8]));
    run_row(rt, stage, &AFTER, "after the parks");
    is_like(with_limit && without_limit)
}

// The parks of a driver, which asks nobody whether a call would block.
fn with_stage<P: Ledger, D: Ledger, R: Wait + Clock + Abort, S: Stage + OwnCalls>(
    rt: &R,
    alloc: Global,
    sleeper: &mut Sleeper<P, D>,
    stage: &mut S,
) -> Result<(), Why> {
    is_like(!stage.is_legacy())?;
    parked_over_a_completion(rt, sleeper, stage)?;
    sent_and_settled(rt, alloc, sleeper, stage)
}

// The same of a new driver.
fn with_new<P: Ledger, D: Ledger, R: Wait + Clock + Abort>(
    rt: &R,
    alloc: Global,
    sleeper: &mut Sleeper<P, D>,
) -> Result<(), Why> {
    match new_bench(alloc) {
        Ok(mut bench) => with_stage(rt, alloc, sleeper, &mut bench),
        Err(_) => Err(Why::OutOfMemory),
    }
}

// A handle that unparks the sleeper of a cell.
fn unpark_handle<P: Ledger, D: Ledger>(cell: &WakeCell<P, D>) -> Result<UnparkHandle<P, D>, Why> {
    let Ok(handle) = cell.unpark_handle() else {
        return Err(Why::OutOfMemory);
    };
    match handle.try_clone() {
        Ok(handle) => Ok(handle),
        Err(_) => Err(Why::OutOfMemory),
    }
}

// The parks of drivers, with one sleeper.
fn parks<P, D, R>(
    rt: &R,
    alloc: Global,
    cell: &WakeCell<P, D>,
    sleeper: &mut Sleeper<P, D>,
) -> Result<(), Why>
where
    P: Ledger + Send + Sync,
    D: Ledger + Send + Sync,
    R: Threads + Wait + Clock + Sync + Abort,
{
    let handle = unpark_handle(cell)?;
    let with_limit = unparked(rt, alloc, &handle, sleeper, Some(20000));
    let without_limit = unparked(rt, alloc, &handle, sleeper, None);
    is_like(with_limit && without_limit)?;
    with_new(rt, alloc, sleeper)
}

// The same with a new sleeper.
fn parks_new<P, D, R>(rt: &R, alloc: Global, pushes: Blank, drains: Blank) -> Result<(), Why>
where
    P: Ledger + Send + Sync,
    D: Ledger + Send + Sync,
    R: Threads + Wait + Clock + Sync + Abort,
    requires pushes { (pushes.name ≡ P.name) × (pushes.parts ≡ P.parts) × (pushes.parts ≡ PUSH_PARTS) }
    requires drains { (drains.name ≡ D.name) × (drains.parts ≡ D.parts) × (drains.parts ≡ 1) }
{
    match WakeCell::<P, D>::new(alloc, pushes, drains) {
        Ok((cell, mut sleeper)) => parks(rt, alloc, &cell, &mut sleeper),
        Err(_) => Err(Why::OutOfMemory),
    }
}

#[test]
fn a_park_ends_by_an_unpark_or_a_waker_or_a_completion(rt: HostRuntime) -> Result<(), Fail> {
    parks_new::<Brand, Brand, HostRuntime>(&rt, rt.alloc(), Blank::new(PUSH_PARTS), Blank::new(1))?;
    Ok(())
}
