// Sends of eight threads that end parks without a limit, over sockets that are silent or busy: no wake-up is lost.
use crate::tests::bench::{Bench, Opens};
use crate::tests::sockets::connects;
use crate::tests::stage::{Stage, Why, filled, is_like, moved, receive, send};
use ready_driver::Sockets;
use socket_io::MioIo;
use std::alloc::Global;
use std::sync::Wait;
use std::sync::atomic::{AtomicU64, Ordering};
use std::sync::ledger::Ledger;
use std::test::Fail;
use std::thread;
use std::thread::Threads;
use std::time::{Clock, Duration};
use wake_core::{
    MAX_PUSHED, Parks, RemoteSender, Sends, Sleeper, Unpark, UnparkHandle, WakerList, with_senders,
};

// How many threads send, and how often each of them.
const SENDERS: u64 = 8;

const SENDS: u64 = 100;

// How often a sender looks for its waker, at most, with some 50 microseconds in between: a second and more.
const LOOKS: u32 = 20000;

// How far the senders and the driver are.
#[derive(Drop)]
struct Meeting {
    // By sender, how many of its wakers were drained.
    found: Vec<AtomicU64>,
    // How many were found too late.
    late: AtomicU64,
}

fn new_meeting(alloc: Global) -> Result<Meeting, Why> {
    let mut found = Vec::new(alloc);
    for _ in 0..SENDERS {
        if found.push(AtomicU64::new(0)).is_err() {
            return Err(Why::OutOfMemory);
        }
    }
    Ok(Meeting {
        found,
        late: AtomicU64::new(0),
    })
}

// A pause in microseconds, which differs from send to send.
fn pause(sender: u64, number: u64) -> u64 {
    let mixed = (sender.wrapping_mul(977).wrapping_add(number)).wrapping_mul(0x9E3779B97F4A7C15);
    (mixed >> 32) % 128
}

// How many wakers of a sender were found.
fn count_found(meeting: &Meeting, sender: u64) -> u64 {
    match meeting.found.get(sender as usize) {
        Some(count) => count.load(Ordering::SeqCst),
        None => 0,
    }
}

// Waits until so many wakers of a sender were found. Answers false if that takes longer than a second.
fn is_found<R: Clock>(rt: &R, meeting: &Meeting, sender: u64, count: u64) -> bool {
    for _ in 0..LOOKS {
        if count_found(meeting, sender) >= count {
            return true;
        }
        thread::sleep(rt, Duration::from_micros(50));
    }
    false
}

// Sends, after pauses, and each time waits until its waker was found. One that is found too late is counted, and the driver is unparked
// then, so that the test ends.
fn send_all<P: Ledger, D: Ledger, R: Wait + Clock>(
    rt: &R,
    mut sender: RemoteSender<P, D>,
    handle: &UnparkHandle<P, D>,
    meeting: &Meeting,
) {
    let own = sender.number();
    for number in 0..SENDS {
        thread::sleep(rt, Duration::from_micros(pause(own, number)));
        if sender.sent() >= MAX_PUSHED || sender.send(rt, number).is_err() {
            meeting.late.fetch_add(1, Ordering::SeqCst);
            return;
        }
        if !is_found(rt, meeting, own, number + 1) {
            meeting.late.fetch_add(1, Ordering::SeqCst);
            let _ = handle.unpark(rt);
        }
    }
}

// Notes wakers as found, and answers how many there are.
fn note(meeting: &Meeting, wakers: &WakerList) -> u64 {
    let wakers = wakers.as_slice();
    for waker in wakers {
        if let Some(count) = meeting.found.get(waker.sender as usize) {
            count.fetch_add(1, Ordering::SeqCst);
        }
    }
    wakers.len() as u64
}

// Goes on with the byte that goes from the handle 1 to the handle 2, as far as nothing waits. Answers the place that is in flight: 0 has
// the send, 1 the read.
fn bounce<S: Stage>(stage: &mut S, place: usize) -> Result<usize, Why> {
    let mut place = place;
    for _ in 0..4 {
        let Some(done) = stage.poll(place, 0)? else {
            return Ok(place);
        };
        let buf = moved(done, 1)?;
        if place == 0 {
            stage.submit(1, receive(2, buf))?;
            place = 1;
        } else {
            stage.submit(0, send(1, buf))?;
            place = 0;
        }
    }
    Ok(place)
}

// Parks without a limit until all wakers were found. Between two parks of a busy driver a byte goes to and fro.
fn park_all<S: Stage>(stage: &mut S, meeting: &Meeting, busy: bool) -> Result<(), Why> {
    let mut left = SENDERS * SENDS;
    let mut place = 0;
    for _ in 0..u64::MAX {
        if left == 0 {
            return Ok(());
        }
        if busy {
            place = bounce(stage, place)?;
        }
        let woken = stage.park(None)?;
        left = left.saturating_sub(note(meeting, &woken.first));
        left = left.saturating_sub(note(meeting, &woken.again));
    }
    Err(Why::Unlike)
}

// A byte that is to be sent from the handle 1.
fn first_byte<S: Stage>(stage: &mut S, alloc: Global) -> Result<(), Why> {
    stage.adopt(1)?;
    stage.adopt(2)?;
    stage.submit(0, send(1, filled(alloc, &[7])?))
}

impl Sends for Meeting {
    fn send<P: Ledger, D: Ledger, R: Wait + Clock>(
        &self,
        rt: &R,
        sender: RemoteSender<P, D>,
        handle: UnparkHandle<P, D>,
    ) {
        send_all(rt, sender, &handle, self);
    }
}

// What is done meanwhile: a driver over sockets parks.
#[derive(Drop)]
struct Drives<'a, 'b, I, R> {
    rt: &'a R,
    alloc: Global,
    io: I,
    busy: bool,
    meeting: &'b Meeting,
}

impl<'a, 'b, I: Sockets + Opens, R: Wait + Clock> Parks for Drives<'a, 'b, I, R> {
    type Out = Result<(), Why>;

    // Nothing is known of it.
    ghost gives = { λ work made out. Unit {0} };

    fn park<P: Ledger, D: Ledger>(self, mut sleeper: Sleeper<P, D>) -> Result<(), Why> {
        let Drives {
            rt,
            alloc,
            io,
            busy,
            meeting,
        } = self;
        let mut bench = Bench::new(alloc, io, &mut sleeper, rt);
        first_byte(&mut bench, alloc)?;
        park_all(&mut bench, meeting, busy)
    }
}

// Senders wake a driver over these sockets.
fn wakes<I: Sockets + Opens, R: Threads + Wait + Clock + Sync>(
    rt: &R,
    alloc: Global,
    io: I,
    busy: bool,
) -> Result<(), Why> {
    let meeting = new_meeting(alloc)?;
    let drives = Drives {
        rt,
        alloc,
        io,
        busy,
        meeting: &meeting,
    };
    match with_senders(rt, alloc, SENDERS, &meeting, drives) {
        Ok(done) => done?,
        Err(_) => return Err(Why::OutOfMemory),
    }
    is_like(meeting.late.load(Ordering::SeqCst) == 0)
}

#[test]
fn each_send_wakes_over_silent_sockets(rt: HostRuntime) -> Result<(), Fail> {
    let mut io = MioIo::new(&rt, rt.alloc());
    assert!(rt; connects(&rt, &mut io, 41017)?);
    wakes(&rt, rt.alloc(), io, false)?;
    Ok(())
}

#[test]
fn each_send_wakes_over_busy_sockets(rt: HostRuntime) -> Result<(), Fail> {
    let mut io = MioIo::new(&rt, rt.alloc());
    assert!(rt; connects(&rt, &mut io, 41117)?);
    wakes(&rt, rt.alloc(), io, true)?;
    Ok(())
}
