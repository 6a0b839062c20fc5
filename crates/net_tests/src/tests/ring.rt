// A pipe of the ring in memory gives back what is sent to it: the test plays the ring.
ghost use Rattle.net_stream.specs.Connection.{FitsConnection};
ghost use Rattle.uring_driver.specs.Op.{ops_in};

use crate::tests::{get, put, step};
use handle_core::SharedFd;
use machine::{HandleKind, MOST_HANDLES, Told};
use net_stream::Connection;
use rent_buf::Rent;
use ring_core::MemRing;
use std::alloc::Global;
use std::test::Fail;
use uring_driver::IoUringDriver;

type OnRing = IoUringDriver<MemRing, Rent>;

// What is sent, in one piece.
const TEXT: &str = "rings";

// How many bytes that are.
const COUNT: u32 = 5;

// The ring ends the operation that is in flight the longest, with so many bytes: whether it may.
#[tactic(auto, using(op_driver::proofs::Executed::executed_back, net_stream::proofs::Executions::executed_fits))]
fn execute(driver: &mut OnRing, conn: &Connection, count: u32) -> bool
    requires { FitsConnection (ops_in driver.old) conn.now }
    ensures { FitsConnection (ops_in driver.new) conn.now }
{
    let _ = conn.fd;
    driver.execute(0, Told::Count(count)).is_ok()
}

// A send, a receive and a turn; and then the ring ends what it can of two operations.
fn round(driver: &mut OnRing, conn: &mut Connection) -> bool
    requires { FitsConnection (ops_in driver.old) conn.old }
    ensures { FitsConnection (ops_in driver.new) conn.new }
{
    let could = step(driver, conn);
    let _ = execute(driver, conn, COUNT);
    let _ = execute(driver, conn, COUNT);
    could
}

// A pipe, which its user holds.
fn give(driver: &mut OnRing) -> Option<SharedFd> {
    let next = driver.handles();
    if next >= MOST_HANDLES || driver.known(next) {
        return None;
    }
    driver.give(HandleKind::Pipe).ok()
}

// Sends a text, and gives what came.
fn pass(alloc: Global, driver: &mut OnRing, conn: &mut Connection) -> Option<Vec<u8>>
    requires { FitsConnection (ops_in driver.old) conn.old }
    ensures { FitsConnection (ops_in driver.new) conn.new }
{
    let mut got = Vec::new(alloc);
    if put(alloc, &mut conn.outbox, TEXT.as_bytes(), 0) != Some(TEXT.len()) {
        return None;
    }
    let could = round(driver, conn) && round(driver, conn) && round(driver, conn);
    get(alloc, &mut conn.inbox, &mut got)?;
    get(alloc, &mut conn.inbox, &mut got)?;
    if could { Some(got) } else { None }
}

// The same with a driver of its own.
fn round_trip(alloc: Global) -> Option<Vec<u8>> {
    let mut driver: OnRing = IoUringDriver::new_with_entries(alloc, 4).ok()?;
    let fd = give(&mut driver)?;
    let mut conn = Connection::new(alloc, fd, 64).ok()?;
    let got = pass(alloc, &mut driver, &mut conn);
    conn.end(&mut driver);
    got
}

#[test]
fn what_is_sent_comes_back_by_a_ring(rt: HostRuntime) -> Result<(), Fail> {
    match round_trip(rt.alloc()) {
        Some(bytes) => assert!(rt; bytes.as_slice() == TEXT.as_bytes()),
        None => assert!(rt; false),
    }
    Ok(())
}
