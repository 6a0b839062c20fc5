// What an object does, by the calls that every object has: handles in memory, by themselves and lent. Nothing is reported of what isn't
// registered, and each call succeeds where memory is at hand.
use crate::tests::named::{Bit, union};
use crate::tests::stage::{Why, is_like};
use driver_core::CallAnswer;
use machine::{HandleKind, Outcome, Request, SharedFd};
use ready_driver::{MemIo, NonBlock, Report, Reports, Sockets};
use rent_buf::{Rent, VecBuf};
use std::alloc::Global;
use std::process::Abort;

// One step, and what it is to answer.
enum Step {
    // A new stream has this number.
    Stream(u64),
    // A new handle that listens on a port has this number.
    Listen(u16, u64),
    // A new handle that dials a port has this number.
    Dial(u16, u64),
    // A read of two bytes of a handle is called.
    Read(u64, CallAnswer),
    // Bytes arrive at a handle.
    Feed(u64, &'static str),
    // The end of what arrives at a handle.
    End(u64),
    // A handle is registered with a key.
    Register(u64, usize),
    // A handle isn't registered any more.
    Deregister(u64),
    // A wait reports these keys, each with these bits together.
    Wait(&'static [(usize, &'static [Bit])]),
    // Whether a handle is a file.
    File(u64, bool),
    // A handle is closed.
    Close(u64, Outcome),
    // How many handles were made.
    Count(u64),
}

use CallAnswer::{Done, WouldBlock};
use Step::{Close, Count, Deregister, Dial, End, Feed, File, Listen, Read, Register, Stream, Wait};

// Runs: the name of each, and its steps.
const ROWS: &[(&str, &[Step])] = &[
    (
        "a read blocks until bytes are there",
        &[
            Stream(0),
            Read(0, WouldBlock),
            Feed(0, "abc"),
            Read(0, Done(Outcome::Count(2))),
            Read(0, Done(Outcome::Count(1))),
            End(0),
            Read(0, Done(Outcome::Count(0))),
            Read(7, WouldBlock),
        ],
    ),
    (
        "what is registered is reported",
        &[
            Stream(0),
            Stream(1),
            Wait(&[]),
            Register(1, 5),
            Register(0, 9),
            Wait(&[(5, &[Bit::Writable]), (9, &[Bit::Writable])]),
            Deregister(0),
            Feed(1, "a"),
            File(1, false),
            Wait(&[(5, &[Bit::Readable, Bit::Writable])]),
        ],
    ),
    (
        "a dialled handle comes and goes",
        &[
            Dial(7, 0),
            Register(0, 5),
            Wait(&[(5, &[Bit::Writable])]),
            Read(0, WouldBlock),
            File(0, false),
            Deregister(0),
            Close(0, Outcome::Count(0)),
            Listen(7, 1),
            Count(2),
        ],
    ),
];

// What a read of two bytes answers.
fn read<I: NonBlock>(io: &mut I, alloc: Global, h: u64) -> Result<CallAnswer, Why> {
    let fd = SharedFd::new(h);
    let buf = Rent::with_total(alloc, 2)?;
    let mut request: Request<Rent, VecBuf> = Request::Recv { fd, buf };
    Ok(io.call(&mut request))
}

// What a wait reports.
fn reported<I: NonBlock>(io: &mut I, alloc: Global) -> Result<Reports, Why> {
    let mut reports = Reports::new(alloc);
    is_like(io.wait(None, &mut reports).is_ok())?;
    Ok(reports)
}

// A report is of this key and of these bits together.
fn is_report(report: Option<Report>, (key, bits): &(usize, &[Bit])) -> bool {
    match report {
        Some(report) => report.key == *key && report.ready == union(bits),
        None => false,
    }
}

// The reports are these.
fn are(reports: &Reports, want: &[(usize, &[Bit])]) -> bool {
    if reports.len() != want.len() {
        return false;
    }
    for i in 0..want.len() {
        if !is_report(reports.get(i), &want[i]) {
            return false;
        }
    }
    true
}

// Makes a step that each object has. `Unlike` comes where it answers otherwise than it says.
fn call<I: Sockets>(io: &mut I, alloc: Global, step: &Step) -> Result<(), Why> {
    match step {
        Listen(port, h) => is_like(io.listen(*port) == Ok(*h)),
        Dial(port, h) => is_like(io.dial(*port) == Ok(*h)),
        Read(h, want) => is_like(read(io, alloc, *h)? == *want),
        Register(h, key) => is_like(io.register(*h, *key).is_ok()),
        Deregister(h) => is_like(io.deregister(*h).is_ok()),
        Wait(want) => is_like(are(&reported(io, alloc)?, want)),
        File(h, want) => is_like(io.is_file(*h) == *want),
        Close(h, want) => is_like(io.close(*h) == *want),
        Count(want) => is_like(io.count() == *want),
        Stream(_) | Feed(_, _) | End(_) => Err(Why::Unmet),
    }
}

// The same on an object that is lent.
fn call_lent<I: Sockets>(mut io: &mut I, alloc: Global, step: &Step) -> Result<(), Why> {
    call(&mut io, alloc, step)
}

// Makes a step on handles in memory, which are lent where an object has it.
fn make_step(io: &mut MemIo, alloc: Global, lent: bool, step: &Step) -> Result<(), Why> {
    match step {
        Stream(h) => is_like(io.give(HandleKind::Stream)? == *h),
        Feed(h, bytes) if *h < io.count() => is_like(io.feed(*h, bytes.as_bytes()).is_ok()),
        End(h) if *h < io.count() => is_like(io.end(*h).is_ok()),
        _ if lent => call_lent(io, alloc, step),
        _ => call(io, alloc, step),
    }
}

// Makes steps in order. It answers the place of the first one that isn't as it says, and why; None: each is.
fn run(io: &mut MemIo, alloc: Global, lent: bool, steps: &[Step]) -> Option<(usize, Why)> {
    for i in 0..steps.len() {
        if let Err(why) = make_step(io, alloc, lent, &steps[i]) {
            return Some((i, why));
        }
    }
    None
}

// Makes the steps of a row on new handles, each of which is as it says.
fn run_row(rt: &impl Abort, alloc: Global, lent: bool, (name, steps): &(&str, &[Step])) {
    let unlike = run(&mut MemIo::new(alloc), alloc, lent, steps);
    assert_eq!(rt; unlike, None, "in the row {name:?}, lent: {lent}");
}

#[test]
fn handles_in_memory_are_called(rt: HostRuntime) {
    for i in 0..ROWS.len() {
        run_row(&rt, rt.alloc(), false, &ROWS[i]);
        run_row(&rt, rt.alloc(), true, &ROWS[i]);
    }
}
