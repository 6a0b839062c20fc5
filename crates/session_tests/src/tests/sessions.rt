// Sessions that are called without the program: one whose driver is called in between, and a run on the readiness driver.
ghost use Rattle.std.specs.Prelude.{IfOk};
ghost use Rattle.machine.specs.Run.{ledger};
ghost use Rattle.ready_driver.specs.Readiness.{AreDriven};
ghost use Rattle.session_core.specs.Session.{AreParts, SessionStands};

use crate::tests::program::Why;
use crate::tests::text::pairs_of;
use event_text::{read_events, read_external_events, write_reply};
use machine::{Event, Reply, Told};
use ready_run::ReadySession;
use rent_buf::{Buf, OutOfMemory};
use ring_core::MemRing;
use session_core::{Session, Tokens};
use std::alloc::Global;
use std::test::Fail;
use uring_driver::{Driver as _, IoUringDriver, MOST_GIVEN};

impl From<OutOfMemory> for Why {
    fn from(_: OutOfMemory) -> Why {
        Why::OutOfMemory
    }
}

// Executes what is first in flight, by a call of the driver itself. With the tokens it stays that of a session.
fn execute_first(driver: &mut IoUringDriver<MemRing, Buf>, tokens: &Tokens)
    requires { AreParts driver.old tokens.now }
    ensures { AreParts driver.new tokens.now }
{
    let _ = driver.execute(0, Told::Count(2));
}

// Reaps it, by a call of the driver itself.
fn reap(driver: &mut IoUringDriver<MemRing, Buf>, tokens: &Tokens)
    requires { AreParts driver.old tokens.now }
    ensures { AreParts driver.new tokens.now }
{
    let _ = driver.submit();
}

// The session after these events over a queue of one entry.
fn session_after(alloc: Global, events: &[Event]) -> Result<Session, Why>
    ensures stands { IfOk result (λ session. SessionStands session (ledger 1 events.now)) }
{
    if events.len() as u64 >= MOST_GIVEN {
        return Err(Why::Unread);
    }
    match Session::run(alloc, 1, events) {
        Ok((_, session)) => Ok(session),
        Err(_) => Err(Why::OutOfMemory),
    }
}

// That session, whose driver then executes and reaps what is first in flight.
fn reaped_by_driver(alloc: Global, events: &[Event]) -> Result<Session, Why> {
    let session = session_after(alloc, events)?;
    let (mut driver, tokens) = session.into_parts();
    execute_first(&mut driver, &tokens);
    reap(&mut driver, &tokens);
    Ok(Session::from_parts(driver, tokens))
}

// What that session replies to a poll of the first operation.
fn polled(alloc: Global, lines: &[u8]) -> Result<Vec<u8>, Why> {
    let Ok(events) = read_events(alloc, lines) else {
        return Err(Why::Unread);
    };
    let mut session = reaped_by_driver(alloc, events.as_slice())?;
    let reply = session.step(&Event::Poll(0, 7))?;
    let mut text = Vec::new(alloc);
    write_reply(&reply, &mut text)?;
    Ok(text)
}

#[test]
fn replies_come_from_the_driver(rt: HostRuntime) -> Result<(), Fail> {
    let lines = b"give stream\nsubmit recv 0 v 4 0 4 -\nfeed 0 6162\nturn\n";
    assert_eq!(rt; read_events(rt.alloc(), lines)?.len(), 4);
    match polled(rt.alloc(), lines) {
        Ok(text) => assert_eq!(rt; text.as_slice(), b"ready ok 2 v 4 0 4 6162".as_slice()),
        Err(why) => assert!(rt; false, "{why:?}"),
    }
    Ok(())
}

// The replies of a run on the readiness driver.
fn ready_replies(alloc: Global, events: &[Event]) -> Result<Vec<Reply>, Why>
    requires { AreDriven events.now }
{
    if events.len() as u64 >= MOST_GIVEN {
        return Err(Why::Unread);
    }
    match ReadySession::run(alloc, events) {
        Ok((replies, _)) => Ok(replies),
        Err(_) => Err(Why::OutOfMemory),
    }
}

// Replies, each with a newline behind it.
fn texts_of(alloc: Global, replies: &[Reply]) -> Result<Vec<u8>, OutOfMemory> {
    let mut text = Vec::new(alloc);
    for reply in replies {
        write_reply(reply, &mut text)?;
        text.push(b'\n')?;
    }
    Ok(text)
}

// The replies of a run on the readiness driver to events, of which none is a turn or an execution.
fn replied(alloc: Global, lines: &[u8]) -> Result<Vec<u8>, Why> {
    let Ok(events) = read_external_events(alloc, lines) else {
        return Err(Why::Unread);
    };
    let replies = ready_replies(alloc, events.as_slice())?;
    Ok(texts_of(alloc, replies.as_slice())?)
}

// A run of the readiness driver has these replies.
fn replies_are(alloc: Global, row: &str) -> Result<(), Why> {
    let lines = pairs_of(alloc, row)?;
    let replies = replied(alloc, lines.events.as_slice())?;
    if replies.as_slice() == lines.replies.as_slice() {
        Ok(())
    } else {
        Err(Why::Wrote(replies.len()))
    }
}

// One read waits, is fed and is returned, one is canceled, and one is dropped.
#[rattlefmt::skip]
const READS: &str =
    "give stream > handle 0;submit recv 0 v 4 0 4 - > op 0;poll 0 7 > pending;feed 0 6162 > fed;poll 0 7 > ready ok 2 v 4 0 4 6162;\
     poll 0 7 > refused NoOp;submit recv 0 v 4 0 4 - > op 1;cancel 1 > asked;poll 1 7 > ready err 125 v 4 0 4 -;\
     submit recv 0 v 4 0 4 - > op 2;drop 2 > dropped;cancel 2 > refused NoOp;close 0 > released;close 0 > refused NoHandle";

#[test]
fn reads_wait_and_are_returned(rt: HostRuntime) {
    assert_eq!(rt; replies_are(rt.alloc(), READS), Ok(()));
}
