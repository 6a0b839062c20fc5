//! A driver parks without a limit, and a thread that sends a waker ends the park.
#![tactic(auto)]

use anyhow::{Result, bail};
use rent_buf::Rent;
use ring_core::MemRing;
use std::alloc::Global;
use std::io::Print;
use std::sync::Wait;
use std::sync::ledger::Ledger;
use std::time::Clock;
use uring_driver::{Driver as _, IoUringDriver};
use wake_core::{MAX_PUSHED, Parks, RemoteSender, Sends, Sleeper, UnparkHandle, with_senders};

// The task that the thread wakes.
const TASK: u64 = 7;

// How often the driver parks at most: a park may come back with nothing.
const PARKS: u32 = 1000;

// What the thread does: it sends the waker of the task, which wakes the sleeper if that sleeps.
struct Wakes;

impl Sends for Wakes {
    fn send<P: Ledger, D: Ledger, R: Wait + Clock>(
        &self,
        rt: &R,
        mut sender: RemoteSender<P, D>,
        _handle: UnparkHandle<P, D>,
    ) {
        if sender.sent() < MAX_PUSHED {
            let _ = sender.send(rt, TASK);
        }
    }
}

// What is done meanwhile: a driver parks until a waker has come.
#[derive(Drop)]
struct ParksOnce<'a, R> {
    rt: &'a R,
    alloc: Global,
}

impl<'a, R: Wait + Clock> Parks for ParksOnce<'a, R> {
    type Out = Result<u64>;

    // Nothing is known of it.
    ghost gives = { λ work made out. Unit {0} };

    fn park<P: Ledger, D: Ledger>(self, mut sleeper: Sleeper<P, D>) -> Result<u64> {
        let mut driver: IoUringDriver<MemRing, Rent> = IoUringDriver::new(self.alloc)?;
        for _ in 0..PARKS {
            let remote = driver.park(self.rt, &mut sleeper).remote;
            if let Some(waker) = remote.first.as_slice().first() {
                return Ok(waker.task);
            }
            if let Some(waker) = remote.again.as_slice().first() {
                return Ok(waker.task);
            }
        }
        bail!("nothing came")
    }
}

fn main(rt: HostRuntime) -> Result<()> {
    let alloc = rt.alloc();
    let parks = ParksOnce { rt: &rt, alloc };
    let task = with_senders(&rt, alloc, 1, &Wakes, parks)??;
    println!(&rt; "the park is over: task {task} is woken")?;
    Ok(())
}
