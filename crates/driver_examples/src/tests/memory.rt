// What a driver over the ring in memory does where memory is at hand: reads, sends, messages, ends, drops, cancels, groups and closes.
use crate::tests::asks::{Ask, Asks, Why};
use crate::tests::bench::Bench;
use crate::tests::stage::Submits;
use crate::tests::steps::{ASK, Own, OwnCalls, READ, Step, TURN, is_like, run_row};
use handle_core::Released;
use machine::{HandleKind, Look, MOST_HANDLES, Outcome, Told, WorldError};
use rent_buf::{Buf, IoBufMut};
use ring_core::MemRing;
use std::alloc::Global;
use std::process::Abort;
use std::test::Fail;
use uring_driver::{Executed, IoUringDriver};

// A new handle of a kind.
fn give<B: IoBufMut + Drop>(
    driver: &mut IoUringDriver<MemRing, B>,
    kind: HandleKind,
    h: u64,
) -> Result<(), Why> {
    let next = driver.handles();
    if next >= MOST_HANDLES || driver.known(next) {
        return Err(Why::Unmet);
    }
    is_like(driver.give(kind)?.number() == h)
}

// Bytes arrive at a handle.
fn feed<B: IoBufMut + Drop>(
    driver: &mut IoUringDriver<MemRing, B>,
    h: u64,
    bytes: &[u8],
    want: Option<WorldError>,
) -> Result<(), Why> {
    if !driver.has_handle(h) {
        return Err(Why::Unmet);
    }
    is_like(driver.feed(h, bytes).err() == want)
}

// A message arrives at a handle.
fn feed_message<B: IoBufMut + Drop>(
    driver: &mut IoUringDriver<MemRing, B>,
    h: u64,
    addr: u64,
    bytes: &[u8],
) -> Result<(), Why> {
    if !driver.has_handle(h) {
        return Err(Why::Unmet);
    }
    is_like(driver.feed_message(h, addr, bytes).is_ok())
}

// The end of what arrives at a handle.
fn end<B: IoBufMut + Drop>(
    driver: &mut IoUringDriver<MemRing, B>,
    h: u64,
    want: Option<WorldError>,
) -> Result<(), Why> {
    if !driver.has_handle(h) {
        return Err(Why::Unmet);
    }
    is_like(driver.end(h).err() == want)
}

// What was sent to a handle.
fn look<B: IoBufMut + Drop>(
    driver: &IoUringDriver<MemRing, B>,
    h: u64,
    want: Option<&str>,
) -> Result<(), Why> {
    if !driver.has_handle(h) {
        return Err(Why::Unmet);
    }
    is_like(shows(&driver.look(h)?, want))
}

// A look shows these bytes, or messages of which there is none.
fn shows(look: &Look, want: Option<&str>) -> bool {
    match (look, want) {
        (Look::Bytes(list), Some(bytes)) => list.as_slice() == bytes.as_bytes(),
        (Look::Messages(list), None) => list.as_slice().len() == 0,
        _ => false,
    }
}

// What is in flight at a place is executed.
fn execute<B: IoBufMut + Drop>(
    driver: &mut IoUringDriver<MemRing, B>,
    place: usize,
    told: Told,
    want: Executed,
) -> Result<(), Why> {
    is_like(driver.execute(place, told) == Ok(want))
}

impl<B: IoBufMut + Drop> OwnCalls for Bench<MemRing, B> {
    fn own(&mut self, own: Own) -> Result<(), Why> {
        let driver = &mut self.driver;
        match own {
            Own::Give(kind, h) => give(driver, kind, h),
            Own::Here(h, want) => is_like(driver.has_handle(h) == want),
            Own::Feed(h, bytes, want) => feed(driver, h, bytes.as_bytes(), want),
            Own::Message(h, addr, bytes) => feed_message(driver, h, addr, bytes.as_bytes()),
            Own::End(h, want) => end(driver, h, want),
            Own::Sent(h, want) => look(driver, h, want),
            Own::Execute(place, told, want) => execute(driver, place, told, want),
            Own::Inject(_) | Own::Flies(_) | Own::Binds(..) => Err(Why::Unmet),
        }
    }
}

use Own::{End, Execute, Feed, Give, Here, Message, Sent};
use Step::{
    Adopt, Cancel, CancelAll, Close, Closes, Drop as Drops, Group, Handle, Has, Hold, Own as Does,
    Pends, Ready, Release, Submit, Turn, Twice, Under, Wakes,
};

// A new stream, which is handle 0.
const STREAM: Step = Does(Give(HandleKind::Stream, 0));

// A new datagram, which is handle 0.
const DATAGRAM: Step = Does(Give(HandleKind::Datagram, 0));

// A turn that names operation 0.
const REAPS: Step = Turn(None, &[0]);

// What is executed is operation 0.
const OP: Executed = Executed::Op(0);

// The operation is submitted.
const DONE: Submits = Submits::Done;

// A row: its name, how many entries the queue holds, and its steps.
type Row = (&'static str, u32, &'static [Step]);

#[rattlefmt::skip]
const ROWS: &[Row] = &[
    // A handle that its user holds twice is closing from its last release on, until the turn that names its close.
    ("the last release closes", 4,
        &[STREAM, Hold(0), Release(0, Released::Held), Handle(0, true, true, false), Release(0, Released::Last),
          Handle(0, false, true, true), TURN, Does(Execute(0, Told::Count(0), Executed::Close(0))), Closes(&[0]),
          Handle(0, false, false, false)]),
    // A handle that the user adopts needs not be the ring's.
    ("an adopted handle is closed by the poll of the last operation on it", 4,
        &[Adopt(7), Handle(7, true, true, false), Does(Here(7, false)), Submit(Ask(Asks::Read, 7, ""), DONE), Close(7, Released::Held),
          TURN, Does(Execute(0, Told::Fail(104), OP)), REAPS, Handle(7, false, true, false), Ready(0, Outcome::Fail(104), &[""]),
          Handle(7, false, true, true)]),
    // The drop enters the read, and its cancel stands in the queue. The slot, with its buffer, lives until the reap, which names the
    // read and wakes nobody.
    ("a drop over a full queue", 1,
        &[STREAM, READ, Pends(0, 9), Drops(0), Has(1, 1, 0, 0), TURN, Does(Execute(0, Told::Fail(125), OP)), REAPS, Has(0, 0, 0, 0)]),
    ("a completion wakes the task that polled last", 4,
        &[STREAM, READ, Pends(0, 8), Pends(0, 9), TURN, Does(Execute(0, Told::Fail(104), OP)), Wakes(&[0], &[9])]),
    ("a canceled read returns its buffer as it was", 4,
        &[STREAM, READ, Cancel(0), TURN, Does(Execute(0, Told::Fail(125), OP)), REAPS, Ready(0, Outcome::Fail(125), &["01"])]),
    ("nothing arrives after the end", 4,
        &[STREAM, Does(Feed(0, "a", None)), Does(End(0, None)), Does(End(0, Some(WorldError::BadHandleEvent))),
          Does(Feed(0, "a", Some(WorldError::BadHandleEvent)))]),
    ("a read fills the first part and then some of the second one", 4,
        &[STREAM, Does(Feed(0, "abcdef", None)), Submit(Ask(Asks::ReadParts, 0, "012345"), DONE), TURN,
          Does(Execute(0, Told::Count(3), OP)), REAPS, Ready(0, Outcome::Count(3), &["ab", "c"])]),
    ("the program over any driver reaps a read", 4,
        &[STREAM, READ, Does(Feed(0, "abc", None)), TURN, Does(Execute(0, Told::Count(3), OP)), Twice,
          Ready(0, Outcome::Count(3), &["abc"])]),
    ("a send of fewer bytes returns its buffer whole", 4,
        &[STREAM, Submit(Ask(Asks::Send, 0, "abc"), DONE), TURN, Does(Execute(0, Told::Count(2), OP)), Does(Sent(0, Some("ab"))), REAPS,
          Ready(0, Outcome::Count(2), &["abc"])]),
    ("a message comes with its address, and what doesn't fit is gone with it", 4,
        &[DATAGRAM, Does(Message(0, 5, "abcdef")), Submit(Ask(Asks::Message, 0, ""), DONE), TURN,
          Does(Execute(0, Told::Count(4), OP)), REAPS, Ready(0, Outcome::From(4, 5), &["abcd"]), Does(Sent(0, None))]),
    ("a cancel names the members that are left, and a later one comes back", 8,
        &[STREAM, Group, Under(ASK, DONE), Drops(0), Under(ASK, DONE), CancelAll(&[1]),
          Under(ASK, Submits::Canceled)]),
];

// A bench over a new ring in memory.
fn bench(alloc: Global, entries: u32) -> Result<Bench<MemRing, Buf>, Why> {
    if entries == 0 {
        return Err(Why::Unmet);
    }
    Ok(Bench::new(alloc, IoUringDriver::new_with_entries(alloc, entries)?))
}

// One row.
fn row(rt: &impl Abort, mut bench: Bench<MemRing, Buf>, steps: &[Step], name: &str) {
    run_row(rt, &mut bench, steps, name);
}

// One row over a new ring.
fn new_row(rt: &impl Abort, alloc: Global, (name, entries, steps): Row) -> Result<(), Why> {
    row(rt, bench(alloc, entries)?, steps, name);
    Ok(())
}

#[test]
fn rows_over_the_ring_in_memory(rt: HostRuntime) -> Result<(), Fail> {
    for each in ROWS {
        new_row(&rt, rt.alloc(), *each)?;
    }
    Ok(())
}

#[rattlefmt::skip]
const OVER: [Step; 5] = [
    Handle(0, false, false, false), Does(Give(HandleKind::Stream, 1)), Handle(0, false, false, false), Handle(1, true, true, false),
    Handle(2, false, false, false),
];

// A bench over a ring that has a handle.
fn bench_over(alloc: Global) -> Result<Bench<MemRing, Buf>, Why> {
    let mut ring = MemRing::new(alloc, 2);
    if ring.world().give(HandleKind::Stream).is_err() {
        return Err(Why::OutOfMemory);
    }
    match IoUringDriver::over(alloc, ring) {
        Ok(driver) => Ok(Bench::new(alloc, driver)),
        Err(_) => Err(Why::OutOfMemory),
    }
}

#[test]
fn the_user_holds_no_handle_that_the_ring_had(rt: HostRuntime) -> Result<(), Fail> {
    row(
        &rt,
        bench_over(rt.alloc())?,
        &OVER,
        "the user holds no handle that the ring had",
    );
    Ok(())
}
