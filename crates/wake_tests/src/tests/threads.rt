// What ends a park, with the sleeper, senders and handles in threads of their own.
//
// No thread waits for another one without end: a park has a limit that is longer than a test waits for what ends it, and a park without a
// limit is tried only once the same one with a limit was ended in time.
use crate::tests::parks::drained;
use crate::tests::why::{Numbers, Why, are, is_in_time, is_like};
use std::alloc::Global;
use std::sync::atomic::{AtomicU64, Ordering};
use std::sync::ledger::Ledger;
use std::sync::{Arc, Wait};
use std::thread;
use std::thread::{Threads, join};
use std::time::{Clock, Duration};
use wake_core::{
    Gate, MAX_PUSHED, RemoteSender, Sleeper, SleeperStage, Unpark, UnparkHandle, WakeCell, Waker,
    Woken,
};

// How often a test looks for what another thread does, at most, with a millisecond in between.
const LOOKS: u32 = 10000;

/// The limit of a park that something else is to end, in milliseconds: longer than a test looks for its end.
pub(crate) const LIMIT: u64 = 20000;

// Waits until the sleeper of this cell sleeps. Answers false if it doesn't in time.
fn falls_asleep<P: Ledger, D: Ledger, R: Wait + Clock>(rt: &R, cell: &WakeCell<P, D>) -> bool {
    for _i in 0..LOOKS {
        if cell.stage(rt) == SleeperStage::Asleep {
            return true;
        }
        thread::sleep(rt, Duration::from_millis(1));
    }
    false
}

// Waits until a count isn't 0. Answers false if that doesn't come in time.
fn is_counted<R: Clock>(rt: &R, count: &AtomicU64) -> bool {
    for _i in 0..LOOKS {
        if count.load(Ordering::SeqCst) > 0 {
            return true;
        }
        thread::sleep(rt, Duration::from_millis(1));
    }
    false
}

// Adds one to a count.
fn count(count: &AtomicU64) {
    count.fetch_add(1, Ordering::SeqCst);
}

// Parks without being ready, and counts that it came back.
fn park_and_count<P: Ledger, D: Ledger, R: Wait + Clock>(
    rt: &R,
    sleeper: &mut Sleeper<P, D>,
    limit: Option<u64>,
    back: &AtomicU64,
) {
    let _woken = sleeper.park(rt, limit, false);
    count(back);
}

// Parks, and unparks once the sleeper sleeps. Answers whether that ended the park in time.
fn unpark_ends<P, D, R>(
    rt: &R,
    cell: &WakeCell<P, D>,
    sleeper: &mut Sleeper<P, D>,
    limit: Option<u64>,
    handle: &UnparkHandle<P, D>,
) -> bool
where
    P: Ledger + Send + Sync,
    D: Ledger + Send + Sync,
    R: Threads + Wait + Clock + Sync,
{
    let back = AtomicU64::new(0);
    let (ended, _) = join(
        rt,
        || falls_asleep(rt, cell) && handle.unpark(rt).is_ok() && is_counted(rt, &back),
        || park_and_count(rt, sleeper, limit, &back),
    );
    ended
}

// Sends a waker for a task. Answers whether it could.
fn sends<P: Ledger, D: Ledger, R: Wait>(
    rt: &R,
    sender: &mut RemoteSender<P, D>,
    task: u64,
) -> bool {
    sender.sent() < MAX_PUSHED && sender.send(rt, task).is_ok()
}

// Parks, and sends once the sleeper sleeps. Answers whether that ended the park in time.
fn send_ends<P, D, R>(
    rt: &R,
    cell: &WakeCell<P, D>,
    sleeper: &mut Sleeper<P, D>,
    limit: Option<u64>,
    sender: &mut RemoteSender<P, D>,
) -> bool
where
    P: Ledger + Send + Sync,
    D: Ledger + Send + Sync,
    R: Threads + Wait + Clock + Sync,
{
    let back = AtomicU64::new(0);
    let (ended, _) = join(
        rt,
        || falls_asleep(rt, cell) && sends(rt, sender, 7) && is_counted(rt, &back),
        || park_and_count(rt, sleeper, limit, &back),
    );
    ended
}

// A copy of a handle that unparks the sleeper of a cell.
fn unpark_handle<P: Ledger, D: Ledger>(cell: &WakeCell<P, D>) -> Result<UnparkHandle<P, D>, Why> {
    let Ok(handle) = cell.unpark_handle() else {
        return Err(Why::OutOfMemory);
    };
    match handle.try_clone() {
        Ok(handle) => Ok(handle),
        Err(_) => Err(Why::OutOfMemory),
    }
}

// Unparks by a shared handle. Answers whether it could.
fn unparks_shared<P: Ledger, D: Ledger, R: Wait>(
    rt: &R,
    alloc: Global,
    handle: UnparkHandle<P, D>,
) -> bool {
    match Arc::new(alloc, handle) {
        Ok(shared) => shared.unpark(rt).is_ok(),
        Err(_) => false,
    }
}

// A sleeper that made no sender is settled, and its drains gave nothing.
fn settles_none<P: Ledger, D: Ledger, R: Wait>(
    rt: &R,
    alloc: Global,
    sleeper: &mut Sleeper<P, D>,
) -> bool {
    if sleeper.made() != 0 {
        return false;
    }
    sleeper.settle(rt, Vec::new(alloc)).drained == 0
}

/// A handle ends a park with a limit, and then one without, each by one unpark. Nothing is drained.
pub(crate) fn unpark_twice<P, D, R>(
    rt: &R,
    alloc: Global,
    cell: &WakeCell<P, D>,
    sleeper: &mut Sleeper<P, D>,
) -> Result<(), Why>
where
    P: Ledger + Send + Sync,
    D: Ledger + Send + Sync,
    R: Threads + Wait + Clock + Sync,
{
    let handle = unpark_handle(cell)?;
    is_in_time(unpark_ends(rt, cell, sleeper, Some(LIMIT), &handle))?;
    is_in_time(unpark_ends(rt, cell, sleeper, None, &handle))?;
    is_like(unparks_shared(rt, alloc, handle))?;
    is_like(settles_none(rt, alloc, sleeper))
}

// Makes a sender.
fn make_sender<P: Ledger, D: Ledger>(
    sleeper: &mut Sleeper<P, D>,
) -> Result<RemoteSender<P, D>, Why> {
    match sleeper.sender() {
        Ok(sender) => Ok(sender),
        Err(_) => Err(Why::OutOfMemory),
    }
}

// A park with a limit of a millisecond drains these wakers at first.
fn parks<P: Ledger, D: Ledger, R: Wait + Clock>(
    rt: &R,
    sleeper: &mut Sleeper<P, D>,
    first: &[Numbers],
) -> bool {
    are(&sleeper.park(rt, Some(1), false).first, first)
}

/// A sender ends a park with a limit, and then one without, each by one send. The next park drains what was sent.
pub(crate) fn send_twice<P, D, R>(
    rt: &R,
    cell: &WakeCell<P, D>,
    sleeper: &mut Sleeper<P, D>,
) -> Result<(), Why>
where
    P: Ledger + Send + Sync,
    D: Ledger + Send + Sync,
    R: Threads + Wait + Clock + Sync,
{
    let mut sender = make_sender(sleeper)?;
    is_in_time(send_ends(rt, cell, sleeper, Some(LIMIT), &mut sender))?;
    is_like(parks(rt, sleeper, &[(0, 0, 7)]))?;
    is_in_time(send_ends(rt, cell, sleeper, None, &mut sender))?;
    is_like(parks(rt, sleeper, &[(0, 1, 7)]))
}

// Waits until a park is back, and unparks its sleeper in any case. Answers whether it came back in time.
fn unpark_late<P: Ledger, D: Ledger, R: Wait + Clock>(
    rt: &R,
    handle: &UnparkHandle<P, D>,
    back: &AtomicU64,
) -> bool {
    let in_time = is_counted(rt, back);
    handle.unpark(rt).is_ok() && in_time
}

/// A park that nothing else ends comes back by its limit, before another thread loses patience and unparks it.
pub(crate) fn wait_for_limit<P, D, R>(
    rt: &R,
    cell: &WakeCell<P, D>,
    sleeper: &mut Sleeper<P, D>,
) -> Result<(), Why>
where
    P: Ledger + Send + Sync,
    D: Ledger + Send + Sync,
    R: Threads + Wait + Clock + Sync,
{
    let handle = unpark_handle(cell)?;
    let back = AtomicU64::new(0);
    let (in_time, _) = join(
        rt,
        || unpark_late(rt, &handle, &back),
        || park_and_count(rt, sleeper, Some(1), &back),
    );
    is_in_time(in_time)
}

// Holds a sender between its push and its reading of the flag until the sleeper sleeps.
#[derive(Drop)]
struct UntilAsleep<'c, P: Ledger, D: Ledger> {
    cell: &'c WakeCell<P, D>,
    pushed: AtomicU64,
    missed: AtomicU64,
}

impl<'c, P: Ledger + Send + Sync, D: Ledger + Send + Sync> Gate for UntilAsleep<'c, P, D> {
    fn pause<R: Wait + Clock>(&self, rt: &R, _sender: u64) {
        count(&self.pushed);
        if !falls_asleep(rt, self.cell) {
            count(&self.missed);
        }
    }
}

// Sends a waker for the task 8 through the gate. Answers whether it could.
fn send_through<P: Ledger, D: Ledger, G: Gate, R: Wait + Clock>(
    rt: &R,
    sender: &mut RemoteSender<P, D>,
    gate: &G,
) -> bool {
    sender.sent() < MAX_PUSHED && sender.send_gated(rt, 8, gate).is_ok()
}

// Parks twice once a waker was pushed, and counts that both came back.
fn park_twice<P: Ledger, D: Ledger, R: Wait + Clock>(
    rt: &R,
    sleeper: &mut Sleeper<P, D>,
    pushed: &AtomicU64,
    back: &AtomicU64,
) -> (Woken, Woken) {
    let _pushed = is_counted(rt, pushed);
    let first = sleeper.park(rt, Some(LIMIT), false);
    let second = sleeper.park(rt, Some(LIMIT), false);
    count(back);
    (first, second)
}

// The first of two parks drained the waker for the task 8 at first, and the second one nothing.
fn drained_first(parks: &(Woken, Woken)) -> bool {
    are(&parks.0.first, &[(0, 0, 8)]) && drained(&parks.1, &[])
}

/// A sender is stopped between its push and its reading of the flag. A park drains its waker, the next one falls asleep, and the sender,
/// which goes on then, ends it.
pub(crate) fn stop_at_gate<P, D, R>(
    rt: &R,
    cell: &WakeCell<P, D>,
    sleeper: &mut Sleeper<P, D>,
) -> Result<(), Why>
where
    P: Ledger + Send + Sync,
    D: Ledger + Send + Sync,
    R: Threads + Wait + Clock + Sync,
{
    let mut sender = make_sender(sleeper)?;
    let gate = UntilAsleep {
        cell,
        pushed: AtomicU64::new(0),
        missed: AtomicU64::new(0),
    };
    let back = AtomicU64::new(0);
    let (ended, parks) = join(
        rt,
        || send_through(rt, &mut sender, &gate) && is_counted(rt, &back),
        || park_twice(rt, sleeper, &gate.pushed, &back),
    );
    is_in_time(ended)?;
    is_in_time(gate.missed.load(Ordering::SeqCst) == 0)?;
    is_like(drained_first(&parks))
}

// Holds each of two senders until both have pushed.
#[derive(Drop)]
struct Both {
    first: AtomicU64,
    second: AtomicU64,
    missed: AtomicU64,
}

impl Both {
    fn new() -> Both {
        Both {
            first: AtomicU64::new(0),
            second: AtomicU64::new(0),
            missed: AtomicU64::new(0),
        }
    }
}

impl Gate for Both {
    fn pause<R: Wait + Clock>(&self, rt: &R, sender: u64) {
        let (own, other) = if sender == 0 {
            (&self.first, &self.second)
        } else {
            (&self.second, &self.first)
        };
        count(own);
        if !is_counted(rt, other) {
            count(&self.missed);
        }
    }
}

// Sends three wakers through the gate, with the tasks from this one on.
fn send_three<P: Ledger, D: Ledger, G: Gate, R: Wait + Clock>(
    rt: &R,
    sender: RemoteSender<P, D>,
    task: u32,
    gate: &G,
) -> RemoteSender<P, D> {
    let mut sender = sender;
    for i in 0..3 {
        if sender.sent() >= MAX_PUSHED
            || sender.send_gated(rt, u64::from(task) + i, gate).is_err()
        {
            break;
        }
    }
    sender
}

// Adds the wakers of a round. Answers whether there was memory.
fn gather(all: &mut Vec<Waker>, woken: &Woken) -> bool {
    all.extend_from_slice(woken.first.as_slice()).is_ok()
        && all.extend_from_slice(woken.again.as_slice()).is_ok()
}

// Parks until so many wakers are drained, and answers them in order. Fewer if they don't come in time, or memory runs out.
fn park_until<P: Ledger, D: Ledger, R: Wait + Clock>(
    rt: &R,
    alloc: Global,
    sleeper: &mut Sleeper<P, D>,
    count: usize,
) -> Vec<Waker> {
    let mut all = Vec::new(alloc);
    for _i in 0..LOOKS {
        if all.len() >= count || !gather(&mut all, &sleeper.park(rt, Some(1), false)) {
            break;
        }
    }
    all
}

// Settles with both senders, which sent three wakers each, and adds what was left to the wakers so far.
fn settle_both<P: Ledger, D: Ledger, R: Wait>(
    rt: &R,
    sleeper: &mut Sleeper<P, D>,
    senders: Vec<RemoteSender<P, D>>,
    all: &mut Vec<Waker>,
) -> bool {
    if sleeper.made() != 2 || senders.len() != 2 {
        return false;
    }
    let settled = sleeper.settle(rt, senders);
    settled.drained == 6 && all.extend_from_slice(settled.rest.as_slice()).is_ok()
}

// Both senders in a list.
fn list_of<P: Ledger, D: Ledger>(
    alloc: Global,
    both: (RemoteSender<P, D>, RemoteSender<P, D>),
) -> Result<Vec<RemoteSender<P, D>>, Why> {
    match Vec::from_array(alloc, [both.0, both.1]) {
        Ok(senders) => Ok(senders),
        Err(_) => Err(Why::OutOfMemory),
    }
}

// Of this sender there are just three wakers, in order, with the tasks from this one on.
fn are_whole(all: &[Waker], sender: u64, task: u32) -> bool {
    let mut count = 0u64;
    for one in all {
        if one.sender == sender {
            if count > 2 || one.number != count || one.task != u64::from(task) + count {
                return false;
            }
            count += 1;
        }
    }
    count == 3
}

/// Two senders send on threads of their own beside a sleeper that parks. Of each sender the wakers come out whole and in order, over all
/// drains joined.
pub(crate) fn send_beside<P, D, R>(
    rt: &R,
    alloc: Global,
    sleeper: &mut Sleeper<P, D>,
) -> Result<(), Why>
where
    P: Ledger + Send + Sync,
    D: Ledger + Send + Sync,
    R: Threads + Wait + Clock + Sync,
{
    let (first, second) = (make_sender(sleeper)?, make_sender(sleeper)?);
    let gate = &Both::new();
    let (both, all) = join(
        rt,
        || {
            join(
                rt,
                move || send_three(rt, first, 10, gate),
                move || send_three(rt, second, 20, gate),
            )
        },
        || park_until(rt, alloc, sleeper, 6),
    );
    let mut all = all;
    is_like(settle_both(rt, sleeper, list_of(alloc, both)?, &mut all))?;
    is_in_time(gate.missed.load(Ordering::SeqCst) == 0)?;
    is_like(all.len() == 6)?;
    is_like(are_whole(all.as_slice(), 0, 10) && are_whole(all.as_slice(), 1, 20))
}
