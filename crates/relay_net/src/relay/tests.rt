// A relay over handles in memory, row by row: what each does is written by hand.
use crate::far::{Far, MemFar, Mirror};
use crate::flow::ROOM;
use crate::relay::{Relay, longest};
use crate::round::{RelayError, Round};
use driver_core::MOST_GIVEN;
use handle_core::SharedFd;
use machine::{HandleKind, Look, MOST_ASKED, MOST_HANDLES};
use ready_driver::{LegacyDriver, MemIo, NonBlockError};
use rent_buf::Buf;
use std::alloc::Global;
use std::sync::Wait;
use std::sync::ledger::Ledger;
use std::test::Fail;
use std::time::Clock;
use wake_core::{Sleeper, WakeCell, Work, with_sleeper};

// What is done, and what that comes to.
#[derive(Clone, Copy)]
enum Act {
    // A round that opens this connection alone.
    Opens(u64),
    // A round that closes this one alone.
    Closes(u64),
    // A round that names none.
    Round,
    // A round whose accept failed with this number.
    Refuses(u16),
    // A round that runs out of memory.
    Starves,
    // Bytes arrive at a handle.
    Feed(u64, &'static str),
    // The end of what arrives at a handle.
    End(u64),
    // What was sent to a handle.
    Sent(u64, &'static str),
    // A round that may wait `LIMIT` milliseconds would wait so many.
    Waits(u64),
    // A handle that nobody holds: no bytes and no end arrive at it, and looking shows nothing.
    Gone(u64),
}

// The other end of a connection.
#[derive(Clone, Copy)]
enum End {
    Mirror,
    Stream,
    Nothing,
    // The near handle itself, of the first two connections.
    Few,
}

// How long a round may wait that is asked how long it would.
const LIMIT: u64 = 7;

use Act::{Closes, End as Ends, Feed, Gone, Opens, Refuses, Round as Goes, Sent, Starves, Waits};

// A row: the other end, the most connections, how much a receive asks for, what listens, and what is done.
struct Row {
    name: &'static str,
    end: End,
    limit: u32,
    room: usize,
    kind: HandleKind,
    acts: &'static [Act],
}

#[rattlefmt::skip]
const ROWS: [Row; 14] = [
    Row { name: "an echo, and its end", end: End::Mirror, limit: 1, room: ROOM, kind: HandleKind::Listener,
        acts: &[Opens(1), Feed(1, "ab"), Goes, Sent(1, ""), Goes, Sent(1, "ab"), Ends(1), Closes(1)] },
    Row { name: "as many are open as may be", end: End::Mirror, limit: 2, room: ROOM, kind: HandleKind::Listener,
        acts: &[Opens(1), Opens(2), Goes, Ends(1), Closes(1), Opens(3)] },
    Row { name: "one goes on beside another", end: End::Mirror, limit: 2, room: ROOM, kind: HandleKind::Listener,
        acts: &[Opens(1), Opens(2), Feed(2, "x"), Feed(1, "yz"), Goes, Goes, Sent(1, "yz"), Sent(2, "x")] },
    Row { name: "two ends, both ways", end: End::Stream, limit: 1, room: ROOM, kind: HandleKind::Listener,
        acts: &[Opens(1), Feed(1, "to"), Feed(2, "fro"), Goes, Goes, Sent(1, "fro"), Sent(2, "to")] },
    Row { name: "what is held goes before the connection is closed", end: End::Stream, limit: 1, room: ROOM, kind: HandleKind::Listener,
        acts: &[Opens(1), Feed(1, "last"), Ends(1), Goes, Goes, Sent(2, "last"), Closes(1), Opens(3)] },
    Row { name: "the far end ends it too", end: End::Stream, limit: 1, room: ROOM, kind: HandleKind::Listener,
        acts: &[Opens(1), Feed(2, "bye"), Ends(2), Goes, Goes, Sent(1, "bye"), Closes(1)] },
    Row { name: "bytes that come after the end of the other way aren't asked for", end: End::Stream, limit: 1, room: ROOM,
        kind: HandleKind::Listener, acts: &[Opens(1), Feed(1, "a"), Ends(2), Goes, Feed(1, "b"), Closes(1), Opens(3), Gone(2)] },
    Row { name: "without another end none is opened", end: End::Nothing, limit: 1, room: ROOM, kind: HandleKind::Listener,
        acts: &[Starves, Starves] },
    Row { name: "an accept fails where nothing listens", end: End::Mirror, limit: 1, room: ROOM, kind: HandleKind::Stream,
        acts: &[Goes, Feed(0, "x"), Refuses(22), Refuses(22)] },
    Row { name: "a round waits unless a direction has something to do", end: End::Mirror, limit: 1, room: ROOM, kind: HandleKind::Listener,
        acts: &[Waits(7), Opens(1), Waits(7), Feed(1, "ab"), Goes, Waits(0), Goes, Waits(0), Goes, Waits(7)] },
    Row { name: "a round waits behind one that ran out of memory", end: End::Few, limit: 3, room: ROOM, kind: HandleKind::Listener,
        acts: &[Opens(1), Feed(1, "ab"), Opens(2), Waits(0), Starves, Waits(7), Starves, Waits(7), Sent(1, "")] },
    Row { name: "a receive takes as much as it has room for", end: End::Mirror, limit: 1, room: 2, kind: HandleKind::Listener,
        acts: &[Opens(1), Feed(1, "abcde"), Goes, Goes, Sent(1, "ab"), Goes, Goes, Sent(1, "abcd"), Goes, Goes, Sent(1, "abcde")] },
    Row { name: "behind one that closed a connection a round doesn't wait", end: End::Mirror, limit: 1, room: ROOM,
        kind: HandleKind::Listener, acts: &[Opens(1), Ends(1), Closes(1), Waits(0), Opens(2), Waits(7)] },
    Row { name: "nothing is open yet", end: End::Mirror, limit: 1, room: ROOM, kind: HandleKind::Listener,
        acts: &[Gone(1), Opens(1)] },
];

impl Far<MemIo> for End {
    #[tactic(auto, using(crate::proofs::Opened::none_widens, crate::proofs::Keyed::keeps_none))]
    fn far(
        &mut self,
        driver: &mut LegacyDriver<MemIo, Buf>,
        near: SharedFd,
    ) -> Result<SharedFd, NonBlockError> {
        match *self {
            End::Mirror => Mirror.far(driver, near),
            End::Stream => MemFar.far(driver, near),
            End::Few if near.number() < 3 => Mirror.far(driver, near),
            End::Few | End::Nothing => Err(NonBlockError::OutOfMemory),
        }
    }
}

type OnHandles = Relay<MemIo, End>;

// The list names this handle alone, or none.
fn names(list: &[u64], handle: Option<u64>) -> bool {
    match handle {
        Some(handle) => list == [handle].as_slice(),
        None => list.is_empty(),
    }
}

// A round that is Ok opened and closed these alone, lost none, and its accept failed with this number, if one did.
fn did(round: &Round, opened: Option<u64>, closed: Option<u64>, accept: Option<u16>) -> bool {
    names(round.opened.as_slice(), opened)
        && names(round.closed.as_slice(), closed)
        && round.failed.is_empty()
        && round.accept == accept
}

// A round.
fn make_round<R: Wait + Clock, P: Ledger, D: Ledger>(
    rt: &R,
    relay: &mut OnHandles,
    sleeper: &mut Sleeper<P, D>,
) -> Option<Result<Round, (RelayError, Round)>> {
    if relay.driver().given() > MOST_GIVEN - 129 {
        return None;
    }
    Some(relay.round(rt, sleeper, None))
}

// A round comes to what is written.
fn comes_to<R: Wait + Clock, P: Ledger, D: Ledger>(
    rt: &R,
    relay: &mut OnHandles,
    sleeper: &mut Sleeper<P, D>,
    act: Act,
) -> bool {
    match make_round(rt, relay, sleeper) {
        None => false,
        Some(Err((why, _))) => match act {
            Act::Starves => why == RelayError::OutOfMemory,
            _ => false,
        },
        Some(Ok(round)) => match act {
            Act::Opens(near) => did(&round, Some(near), None, None),
            Act::Closes(near) => did(&round, None, Some(near), None),
            Act::Round => did(&round, None, None, None),
            Act::Refuses(number) => did(&round, None, None, Some(number)),
            _ => false,
        },
    }
}

// These bytes were sent to a handle; `None`: nobody holds it.
fn was_sent(relay: &OnHandles, h: u64, want: Option<&str>) -> bool {
    match relay.look(h) {
        Ok(Some(Look::Bytes(bytes))) => match want {
            Some(want) => bytes.as_slice() == want.as_bytes(),
            None => false,
        },
        Ok(None) => want.is_none(),
        _ => false,
    }
}

// An act comes to what is written.
fn holds<R: Wait + Clock, P: Ledger, D: Ledger>(
    rt: &R,
    relay: &mut OnHandles,
    sleeper: &mut Sleeper<P, D>,
    act: Act,
) -> bool {
    match act {
        Act::Feed(h, bytes) => relay.feed(h, bytes.as_bytes()).is_ok(),
        Act::End(h) => relay.end(h).is_ok(),
        Act::Sent(h, want) => was_sent(relay, h, Some(want)),
        Act::Waits(millis) => longest(&relay.state, relay.again, relay.able, LIMIT) == millis,
        Act::Gone(h) => {
            relay.feed(h, b"x").is_err() && relay.end(h).is_err() && was_sent(relay, h, None)
        }
        _ => comes_to(rt, relay, sleeper, act),
    }
}

// The relay of a row.
fn relay_of(alloc: Global, row: &Row) -> Option<OnHandles> {
    let (limit, room) = (row.limit, row.room);
    let mut driver: LegacyDriver<MemIo, Buf> = LegacyDriver::over(alloc, MemIo::new(alloc));
    let next = driver.handles();
    if next >= MOST_HANDLES || driver.known(next) || limit > 64 || room == 0 || room > MOST_ASKED {
        return None;
    }
    let listener = driver.give(row.kind).ok()?;
    if !driver.user_holds(listener.number()) {
        return None;
    }
    match Relay::with_room(alloc, driver, listener, limit, room, row.end) {
        Ok(relay) => Some(relay),
        Err(_) => None,
    }
}

// A row that is to be run: whether all of it comes to what is written.
#[derive(Drop)]
struct Run<'a, R> {
    rt: &'a R,
    alloc: Global,
    row: &'a Row,
}

impl<'a, R: Wait + Clock> Work for Run<'a, R> {
    type Out = bool;

    // Nothing is known of it.
    ghost gives = { λ work out. Unit {0} };

    fn run<P: Ledger + Send + Sync, D: Ledger + Send + Sync>(
        self,
        _cell: WakeCell<P, D>,
        sleeper: Sleeper<P, D>,
    ) -> bool {
        let Run { rt, alloc, row } = self;
        let mut sleeper = sleeper;
        let Some(relay) = relay_of(alloc, row) else {
            return false;
        };
        let mut relay = relay;
        let mut good = true;
        for act in row.acts {
            good = holds(rt, &mut relay, &mut sleeper, *act) && good;
        }
        good
    }
}

#[test]
fn rows_are_as_written(rt: HostRuntime) -> Result<(), Fail> {
    for row in &ROWS {
        let name = row.name;
        let run = Run {
            rt: &rt,
            alloc: rt.alloc(),
            row,
        };
        let good = with_sleeper(rt.alloc(), run)?;
        assert!(rt; good, "in the row {name:?}");
    }
    Ok(())
}
