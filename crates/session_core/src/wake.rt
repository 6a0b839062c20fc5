//! Senders in threads of their own, beside a driver that parks until it has drained what they send.
ghost use Rattle.std.specs.Prelude.{◌≡◌, ◌+◌, ◌*◌, ◌≤◌, length, vec_len, true, IfOk};
ghost use Rattle.wake_core.specs.Remote.{sent_by};

use crate::command::MOST_SENDERS;
use rent_buf::{Buf, OutOfMemory};
use ring_core::MemRing;
use std::alloc::Global;
use std::sync::Wait;
use std::sync::ledger::{Blank, Ledger};
use std::thread;
use std::thread::{JoinHandle, Scope, Threads};
use std::time::Clock;
use uring_driver::{Driver, IoUringDriver};
use wake_core::{Gate, MAX_PUSHED, PUSH_PARTS, RemoteSender, Settled, Sleeper, WakeCell, Woken};

// How often the driver parks at most.
const PARKS: u32 = 1000;

// How long it waits in one park at most, in milliseconds.
const LIMIT: u64 = 1;

/// Each of so many senders sends so many wakers, with the tasks from 0 on, from a thread of its own, and pauses at the gate
/// in each send. The caller parks a driver until all are drained, at most 1000 times and for at most 1 millisecond each
/// time, joins the threads, and settles. A sender whose thread can't be made runs on the caller.
///
/// There are at most 64 senders, and the blanks are of the two ledgers, as for `WakeCell::new`. (not in monoio)
pub fn wake_all<P, D, G, R>(
    rt: &R,
    alloc: Global,
    pushes: Blank,
    drains: Blank,
    senders: u64,
    count: u32,
    gate: &G,
) -> Result<Settled, OutOfMemory>
where
    P: Ledger + Send + Sync,
    D: Ledger + Send + Sync,
    G: Gate,
    R: Threads + Wait + Clock + Sync,
    requires pushes { (pushes.name ≡ P.name) × (pushes.parts ≡ P.parts) × (pushes.parts ≡ PUSH_PARTS) }
    requires drains { (drains.name ≡ D.name) × (drains.parts ≡ D.parts) × (drains.parts ≡ 1) }
    requires few { senders ≤ MOST_SENDERS }
    ensures { IfOk result (λ settled. settled.drained ≡ senders * count) }
{
    let Ok((_, mut sleeper)) = WakeCell::<P, D>::new(alloc, pushes, drains) else {
        return Err(OutOfMemory);
    };
    let jobs = make_senders(alloc, &mut sleeper, senders)?;
    thread::scope(
        thread::scope_env(),
        rt,
        move |scope| -> Result<Settled, OutOfMemory>
            requires made { vec_len jobs ≡ sleeper.made }
            requires few { vec_len jobs ≤ MOST_SENDERS }
            ensures { IfOk result (λ settled. settled.drained ≡ vec_len jobs * count) }
        { send_park_settle(rt, alloc, scope, sleeper, jobs, count, gate) },
    )
}

// The first senders of a sleeper, so many.
fn make_senders<P: Ledger, D: Ledger>(
    alloc: Global,
    sleeper: &mut Sleeper<P, D>,
    senders: u64,
) -> Result<Vec<RemoteSender<P, D>>, OutOfMemory>
    requires { sleeper.old.made ≡ 0 }
    ensures { IfOk result (λ jobs. (vec_len jobs ≡ senders) × (sleeper.new.made ≡ senders)) }
{
    let mut jobs = Vec::new(alloc);
    for i in 0..senders {
        let Ok(sender) = sleeper.sender() else {
            return Err(OutOfMemory);
        };
        jobs.push(sender)?;
    }
    Ok(jobs)
}

// Sends from threads while a driver parks, and settles.
fn send_park_settle<'s, E, P, D, G, R>(
    rt: &'s R,
    alloc: Global,
    scope: &Scope<'s, E>,
    mut sleeper: Sleeper<P, D>,
    jobs: Vec<RemoteSender<P, D>>,
    count: u32,
    gate: &'s G,
) -> Result<Settled, OutOfMemory>
where
    P: Ledger + Send + Sync + 's,
    D: Ledger + Send + Sync + 's,
    G: Gate,
    R: Threads + Wait + Clock + Sync,
    requires made { vec_len jobs ≡ sleeper.made }
    requires few { vec_len jobs ≤ MOST_SENDERS }
    ensures { IfOk result (λ settled. settled.drained ≡ vec_len jobs * count) }
{
    let mut driver: IoUringDriver<MemRing, Buf> = IoUringDriver::new(alloc)?;
    let all = jobs.len() as u64 * u64::from(count);
    let started = start_all(rt, alloc, scope, jobs, count, gate)?;
    park_until(rt, &mut driver, &mut sleeper, all);
    let done = join_all(rt, started)?;
    if !have_sent(done.as_slice(), count) {
        return Err(OutOfMemory);
    }
    Ok(sleeper.settle(rt, done))
}

// The threads in which senders send, and the senders that are done.
struct Started<P: Ledger, D: Ledger> {
    threads: Vec<JoinHandle<RemoteSender<P, D>>>,
    done: Vec<RemoteSender<P, D>>,
}

// Starts a thread for each sender. Where there is none, the sender sends here.
fn start_all<'s, E, P, D, G, R>(
    rt: &'s R,
    alloc: Global,
    scope: &Scope<'s, E>,
    jobs: Vec<RemoteSender<P, D>>,
    count: u32,
    gate: &'s G,
) -> Result<Started<P, D>, OutOfMemory>
where
    P: Ledger + Send + Sync + 's,
    D: Ledger + Send + Sync + 's,
    G: Gate,
    R: Threads + Wait + Clock + Sync,
    ensures { IfOk result (λ started. vec_len started.threads + vec_len started.done ≡ vec_len jobs) }
{
    let mut threads = Vec::new(alloc);
    let mut done = Vec::new(alloc);
    for job in jobs {
        match scope.spawn(move || send_all(rt, job, count, gate)) {
            Ok(thread) => threads.push(thread)?,
            Err(refused) => done.push((refused.value)())?,
        }
    }
    Ok(Started { threads, done })
}

// Joins the threads: all senders are done.
fn join_all<P: Ledger, D: Ledger, R: Threads>(
    rt: &R,
    started: Started<P, D>,
) -> Result<Vec<RemoteSender<P, D>>, OutOfMemory>
    ensures { IfOk result (λ done. vec_len done ≡ vec_len started.threads + vec_len started.done) }
{
    let Started { threads, mut done } = started;
    for thread in threads {
        done.push(thread.join(rt))?;
    }
    Ok(done)
}

// Sends so many wakers, with the tasks from 0 on; fewer where memory runs out.
fn send_all<P: Ledger, D: Ledger, G: Gate, R: Wait + Clock>(
    rt: &R,
    mut sender: RemoteSender<P, D>,
    count: u32,
    gate: &G,
) -> RemoteSender<P, D> {
    for task in 0..count {
        if sender.sent() >= MAX_PUSHED || sender.send_gated(rt, u64::from(task), gate).is_err() {
            break;
        }
    }
    sender
}

// Parks until so many wakers are drained, or often enough.
fn park_until<V: Driver, P: Ledger, D: Ledger, R: Wait + Clock>(
    rt: &R,
    driver: &mut V,
    sleeper: &mut Sleeper<P, D>,
    all: u64,
)
    ensures { sleeper.new.made ≡ sleeper.old.made }
{
    let mut drained: u64 = 0;
    for i in 0..PARKS {
        if drained >= all {
            return;
        }
        let parked = driver.park_timeout(rt, sleeper, LIMIT);
        let count = count_woken(&parked.remote);
        drained = drained.saturating_add(count);
    }
}

// How many wakers a park drained.
fn count_woken(remote: &Woken) -> u64 {
    let (first, again) = (remote.first.as_slice(), remote.again.as_slice());
    (first.len() as u64).saturating_add(again.len() as u64)
}

// Whether each has sent so many.
fn have_sent<P: Ledger, D: Ledger>(senders: &[RemoteSender<P, D>], count: u32) -> bool
    ensures { result ≡ true → sent_by senders.now ≡ length senders.now * count }
{
    for sender in senders {
        if sender.sent() != u64::from(count) {
            return false;
        }
    }
    true
}
