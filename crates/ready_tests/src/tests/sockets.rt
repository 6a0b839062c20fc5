// Sockets of this machine, through the bound alone. Each row takes the first port that is free from one of its own on.
use crate::tests::bench::Opens;
use crate::tests::stage::{Asked, Why, filled, receive, send};
use driver_core::{CallAnswer, Calls as _};
use machine::{INVALID, Outcome, Request, SharedFd};
use ready_driver::{NonBlock, NonBlockError, Report, Reports, Sockets};
use rent_buf::{IoBuf as _, Rent};
use socket_io::MioIo;
use socket_io::mio_io::UNSUPPORTED;
use std::alloc::Global;
use std::test::Fail;

// How many waits at most come before a call is made, and how many ports at most are tried.
const TRIES: u16 = 100;

// The error of a connection that its peer reset. (Linux: `ECONNRESET`)
const RESET: u16 = 104;

// The error of a connection that nobody accepts. (Linux: `ECONNREFUSED`)
const REFUSED: u16 = 111;

// What is asked of a handle.
#[derive(Drop)]
enum Ask {
    // A read of at most 8 bytes.
    Read(u64),
    // A send of a text.
    Send(u64, &'static str),
    // An accept.
    Accept(u64),
    // A connect, which sockets don't have.
    Connect(u64),
    // A wait until a handle can be read, or written.
    Ready(u64, bool),
}

use Ask::{Accept, Read, Ready, Send};
use CallAnswer::{Done, WouldBlock};
use Outcome::{Count, Fail as Fails};

// One step, and what it is to answer.
enum Step {
    // The handle 0 listens, 1 dials it, and 2 is the one that an accept makes. Each is registered with its number.
    Connect,
    // The handle 0 listens on a port, where no second one may.
    Taken,
    // A dial of a port is refused, behind its listener, which has the handle 0 and is closed.
    Nobody,
    // A call answers so.
    Once(Ask, CallAnswer),
    // A call doesn't block.
    Goes(Ask),
    // A call, which is made again behind a wait as long as it would block, ends so, and what it read is this.
    Until(Ask, Outcome, &'static str),
    // A wait reports that a handle with this key may be read.
    Readable(usize),
    // A handle is registered with a key, or isn't.
    Register(u64, usize, bool),
    // A handle is closed, or isn't.
    Close(u64, bool),
    // How many handles were made.
    Made(u64),
    // Whether a handle is a file.
    File(u64, bool),
    // Sends to a peer that doesn't read, until a send would block.
    Fills(u64),
    // So many times, so many sockets are opened at once and closed.
    Opens(u32, u64),
    // How many handles are open.
    Opened(usize),
}

use Step::{
    Close, Connect, File, Fills, Goes, Made, Nobody, Once, Opened, Opens as OpensAll, Readable,
    Register, Taken, Until,
};

// Rows: the name of each, the first port that is tried, and the steps.
//
// A read behind one that came short would block until the handle is reported again, also where more is there; then it gets that, or the
// end. A handle whose reports have another key is read at once. A peer that closes with bytes unread resets the connection. A wait for
// readiness goes through where an accept, a read or a write would, and blocks where that would. A dial of a port where nobody listens is
// a fault, or a read of its handle fails; the system chooses no such port for the handle itself. More sockets are opened in all than a
// process may have open at once, where that is fewer than 25,000.
#[rattlefmt::skip]
const ROWS: &[(&str, u16, &[Step])] = &[
    ("bytes arrive", 40017,
        &[Connect, Once(Read(2), WouldBlock), Until(Send(1, "hello"), Count(5), ""), Readable(2), Until(Read(2), Count(5), "hello")]),
    ("a short read waits for a report", 40817,
        &[Connect, Until(Send(1, "hello"), Count(5), ""), Readable(2), Until(Read(2), Count(5), "hello"),
          Until(Send(1, "again"), Count(5), ""), Until(Ready(2, true), Count(0), ""), Once(Read(2), WouldBlock), Readable(2),
          Until(Read(2), Count(5), "again"), Register(2, 9, true), Until(Send(1, "other"), Count(5), ""), Goes(Read(2)),
          Register(2, 2, true), Close(1, true), Readable(2), Until(Read(2), Count(0), ""), Until(Read(2), Count(0), "")]),
    ("a peer closes", 40117,
        &[Connect, Close(1, true), Until(Read(2), Count(0), ""), Close(1, false), Register(1, 1, false), Made(3)]),
    ("a peer resets", 40217,
        &[Connect, Until(Send(2, "hello"), Count(5), ""), Readable(1), Close(1, true), Until(Read(2), Fails(RESET), "")]),
    ("nothing is there", 40317,
        &[Taken, Once(Accept(0), WouldBlock), Once(Read(7), Done(Fails(INVALID))), Once(Ask::Connect(0), Done(Fails(UNSUPPORTED))),
          File(0, false)]),
    ("readiness is looked up", 40717,
        &[Connect, Once(Ready(0, true), WouldBlock), Once(Ready(2, true), WouldBlock), Until(Ready(1, false), Count(0), ""), Fills(1),
          Once(Ready(1, false), WouldBlock), Until(Ready(2, true), Count(0), ""), Once(Ready(9, true), Done(Fails(INVALID)))]),
    ("a dial is refused", 20017, &[Nobody]),
    ("closed sockets make room", 0, &[OpensAll(250, 100), Opened(0)]),
];

// What a wait of at most 50 milliseconds reports.
fn reported<I: NonBlock>(rt: &HostRuntime, io: &mut I) -> Result<Reports, Fail> {
    let mut reports = Reports::new(rt.alloc());
    io.wait(Some(50), &mut reports)?;
    Ok(reports)
}

// A report says that a handle with this key may be read.
fn is_readable(report: Option<Report>, key: usize) -> bool {
    match report {
        Some(report) => report.key == key && report.ready.is_readable(),
        None => false,
    }
}

// A wait reports that a handle with this key may be read.
fn becomes_readable<I: NonBlock>(rt: &HostRuntime, io: &mut I, key: usize) -> Result<bool, Fail> {
    for _ in 0..TRIES {
        let reports = reported(rt, io)?;
        for at in 0..reports.len() {
            if is_readable(reports.get(at), key) {
                return Ok(true);
            }
        }
    }
    Ok(false)
}

// What a call answers, once it doesn't block.
fn made<I: NonBlock>(
    rt: &HostRuntime,
    io: &mut I,
    request: &mut Asked,
) -> Result<CallAnswer, Fail> {
    for _ in 0..TRIES {
        match io.call(request) {
            CallAnswer::WouldBlock => {
                reported(rt, io)?;
            }
            answer => return Ok(answer),
        }
    }
    Ok(CallAnswer::WouldBlock)
}

// A request.
fn request(alloc: Global, ask: &Ask) -> Result<Asked, Why> {
    match ask {
        Ask::Read(h) => Ok(receive(*h, Rent::with_total(alloc, 8)?)),
        Ask::Send(h, text) => Ok(send(*h, filled(alloc, text.as_bytes())?)),
        Ask::Accept(h) => Ok(Request::Accept {
            fd: SharedFd::new(*h),
        }),
        Ask::Connect(h) => Ok(Request::Connect {
            fd: SharedFd::new(*h),
            addr: 0,
        }),
        Ask::Ready(h, read) => Ok(Request::PollAdd {
            fd: SharedFd::new(*h),
            read: *read,
        }),
    }
}

// A request holds these bytes, if it is a read.
fn holds(request: &Asked, text: &str) -> bool {
    match request {
        Request::Recv { buf, .. } => buf.bytes() == text.as_bytes(),
        _ => true,
    }
}

// What a call answers.
fn once<I: NonBlock>(rt: &HostRuntime, io: &mut I, ask: &Ask) -> Result<CallAnswer, Why> {
    Ok(io.call(&mut request(rt.alloc(), ask)?))
}

// A call, once it doesn't block, ends so, and what it read is this.
fn until<I: NonBlock>(
    rt: &HostRuntime,
    io: &mut I,
    ask: &Ask,
    outcome: Outcome,
    text: &str,
) -> Result<bool, Fail> {
    let mut request = request(rt.alloc(), ask)?;
    let answer = made(rt, io, &mut request)?;
    Ok(answer == Done(outcome) && holds(&request, text))
}

// The first port that is free from this one on: the handle 0 listens there.
fn listen<I: Sockets>(io: &mut I, first: u16) -> u16 {
    for port in first..first.saturating_add(TRIES) {
        if io.listen(port).is_ok() {
            return port;
        }
    }
    first
}

// The handle 0 listens, 1 dials it, and 2 is the one that an accept makes. Each is registered with its number.
pub(crate) fn connects<I: Sockets>(rt: &HostRuntime, io: &mut I, first: u16) -> Result<bool, Fail> {
    let port = listen(io, first);
    io.register(0, 0)?;
    io.dial(port)?;
    io.register(1, 1)?;
    let accepted = until(rt, io, &Accept(0), Outcome::Made(2), "")?;
    io.register(2, 2)?;
    Ok(accepted)
}

// A handle is closed.
fn closes<I: NonBlock>(io: &mut I, h: u64) -> bool {
    matches!(io.close(h), Count(0))
}

// A dial is refused: as a whole, or by the error of the first read.
fn refuses_dial<I: Sockets>(rt: &HostRuntime, io: &mut I, port: u16) -> Result<bool, Fail> {
    match io.dial(port) {
        Ok(h) => {
            io.register(h, 1)?;
            until(rt, io, &Read(h), Fails(REFUSED), "")
        }
        Err(why) => Ok(why == NonBlockError::Fault(REFUSED)),
    }
}

// Sends to a peer that doesn't read, until a send would block.
fn fills<I: NonBlock>(rt: &HostRuntime, io: &mut I, h: u64) -> Result<bool, Why> {
    for _ in 0..20000 {
        let mut request = send(h, filled(rt.alloc(), &[7; 65536])?);
        if matches!(io.call(&mut request), WouldBlock) {
            return Ok(true);
        }
    }
    Ok(false)
}

// Opens so many sockets at once, each on a port that the system chooses, and closes them. It answers whether all were opened.
pub(crate) fn opens<I: Sockets>(io: &mut I, count: u64) -> bool {
    let first = io.count();
    for _ in 0..count {
        let _ = io.listen(0);
    }
    let end = io.count();
    for h in first..end {
        let _ = io.close(h);
    }
    end.saturating_sub(first) == count
}

// The same so many times.
fn opens_all<I: Sockets>(io: &mut I, times: u32, count: u64) -> bool {
    for _ in 0..times {
        if !opens(io, count) {
            return false;
        }
    }
    true
}

// Makes a step, and answers whether it is as it says.
fn make_step<I: Sockets + Opens>(
    rt: &HostRuntime,
    io: &mut I,
    first: u16,
    step: &Step,
) -> Result<bool, Fail> {
    match step {
        Step::Connect => connects(rt, io, first),
        Step::Taken => {
            let port = listen(io, first);
            Ok(io.listen(port).is_err())
        }
        Step::Nobody => {
            let port = listen(io, first);
            Ok(closes(io, 0) && refuses_dial(rt, io, port)?)
        }
        Step::Once(ask, want) => Ok(once(rt, io, ask)? == *want),
        Step::Goes(ask) => Ok(once(rt, io, ask)? != WouldBlock),
        Step::Until(ask, outcome, text) => until(rt, io, ask, *outcome, text),
        Step::Readable(key) => becomes_readable(rt, io, *key),
        Step::Register(h, key, done) => Ok(io.register(*h, *key).is_ok() == *done),
        Step::Close(h, done) => Ok(closes(io, *h) == *done),
        Step::Made(count) => Ok(io.count() == *count),
        Step::File(h, file) => Ok(io.is_file(*h) == *file),
        Step::Fills(h) => Ok(fills(rt, io, *h)?),
        Step::Opens(times, count) => Ok(opens_all(io, *times, *count)),
        Step::Opened(count) => Ok(io.opened() == *count),
    }
}

// Makes steps in order. It answers the place of the first one that isn't as it says; None: each is.
fn run<I: Sockets + Opens>(
    rt: &HostRuntime,
    io: &mut I,
    first: u16,
    steps: &[Step],
) -> Result<Option<usize>, Fail> {
    for i in 0..steps.len() {
        if !make_step(rt, io, first, &steps[i])? {
            return Ok(Some(i));
        }
    }
    Ok(None)
}

#[test]
fn sockets_are_called(rt: HostRuntime) -> Result<(), Fail> {
    for i in 0..ROWS.len() {
        let (name, first, steps) = &ROWS[i];
        let unlike = run(&rt, &mut MioIo::new(&rt, rt.alloc()), *first, steps)?;
        assert_eq!(rt; unlike, None, "in the row {name:?}");
    }
    Ok(())
}
