// A pipe in memory gives back what is sent to it.
ghost use Rattle.ready_driver.specs.LegacyState.{ops_in};
ghost use Rattle.net_stream.specs.Connection.{FitsConnection};

use driver_core::MOST_GIVEN;
use handle_core::SharedFd;
use machine::{HandleKind, MOST_HANDLES, Names};
use net_stream::{Connection, Inbox, Outbox};
use op_driver::OpDriver;
use ready_driver::{LegacyDriver, MemIo};
use rent_buf::Rent;
use rent_io::{AsyncReadRent as _, AsyncWriteRent as _, PollBuf};
use std::alloc::Global;
use std::test::Fail;

mod ring;

// How often a connection meets its driver at most.
const STEPS: usize = 200;

type OnHandles = LegacyDriver<MemIo, Rent>;

// A text that is sent, and the room of each buffer.
struct Row {
    text: &'static str,
    room: usize,
}

const ROWS: &[Row] = &[
    Row {
        text: "fits",
        room: 64,
    },
    Row {
        text: "more than fits at once",
        room: 4,
    },
    Row {
        text: "byte by byte",
        room: 1,
    },
    // A room of none is one of one.
    Row {
        text: "no room",
        room: 0,
    },
];

// A send and a receive, and a turn: whether they could be made.
#[tactic(auto, using(net_stream::proofs::Frames::turned_fits))]
pub(crate) fn step<D: OpDriver<Rent>>(driver: &mut D, conn: &mut Connection) -> bool
    requires { FitsConnection (D.ops driver.old) conn.old }
    ensures { FitsConnection (D.ops driver.new) conn.new }
{
    let names = Names::One(conn.fd.number());
    if !driver.holds_names(names) || driver.given() >= MOST_GIVEN {
        return false;
    }
    let _ = conn.send(driver, 1);
    if !driver.holds_names(names) || driver.given() >= MOST_GIVEN {
        return false;
    }
    let _ = conn.receive(driver, 1);
    let _ = driver.turn();
    true
}

// Writes what is left of a text, from a place of it on: the place then.
pub(crate) fn put(alloc: Global, outbox: &mut Outbox, text: &[u8], at: usize) -> Option<usize> {
    let rest = text[at.min(text.len())..].to_vec(alloc).ok()?;
    match outbox.poll_write(rest, 1) {
        PollBuf::Ready(Ok(count), _) => Some(at.saturating_add(count)),
        _ => Some(at),
    }
}

// Reads what came.
pub(crate) fn get(alloc: Global, inbox: &mut Inbox, got: &mut Vec<u8>) -> Option<()> {
    if let PollBuf::Ready(Ok(_), buf) = inbox.poll_read(Rent::with_total(alloc, 3).ok()?, 1) {
        got.extend_from_slice(buf.as_slice()).ok()?;
    }
    Some(())
}

// Sends a text, and gives what came.
fn pass(alloc: Global, driver: &mut OnHandles, conn: &mut Connection, text: &[u8]) -> Vec<u8>
    requires { FitsConnection (ops_in driver.old) conn.old }
    ensures { FitsConnection (ops_in driver.new) conn.new }
{
    let mut got = Vec::new(alloc);
    let mut at = 0;
    for _ in 0..STEPS {
        match put(alloc, &mut conn.outbox, text, at) {
            Some(next) => at = next,
            None => return got,
        }
        if !step(driver, conn) {
            return got;
        }
        if get(alloc, &mut conn.inbox, &mut got).is_none() {
            return got;
        }
    }
    got
}

// A handle of this kind, which its user holds.
fn give(driver: &mut OnHandles, kind: HandleKind) -> Option<SharedFd> {
    let next = driver.handles();
    if next >= MOST_HANDLES || driver.known(next) {
        return None;
    }
    driver.give(kind).ok()
}

// Closes a connection: whether its handle is known no more.
fn close(driver: &mut OnHandles, conn: Connection) -> bool
    requires { FitsConnection (ops_in driver.old) conn }
{
    let h = conn.fd.number();
    if driver.holds_names(Names::One(h)) {
        conn.close(driver);
        return !driver.known(h);
    }
    conn.end(driver);
    false
}

// The same through a pipe of a driver of its own, which is closed then.
fn round_trip(alloc: Global, row: &Row) -> Option<Vec<u8>> {
    let mut driver: OnHandles = LegacyDriver::over(alloc, MemIo::new(alloc));
    let fd = give(&mut driver, HandleKind::Pipe)?;
    let mut conn = Connection::new(alloc, fd, row.room).ok()?;
    let got = pass(alloc, &mut driver, &mut conn, row.text.as_bytes());
    if !close(&mut driver, conn) {
        return None;
    }
    Some(got)
}

#[test]
fn what_is_sent_comes_back(rt: HostRuntime) -> Result<(), Fail> {
    for row in ROWS {
        match round_trip(rt.alloc(), row) {
            Some(bytes) => assert!(rt; bytes.as_slice() == row.text.as_bytes()),
            None => assert!(rt; false),
        }
    }
    Ok(())
}
