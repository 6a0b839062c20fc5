// Several connections over handles in memory.
use crate::closing::feed_in;
use crate::fault::{NetFault, ServerFault};
use crate::lines::{Answer, ByLines, Lines};
use crate::net_job::NetEnd;
use crate::server::{Limits, Server};
use machine::Look;
use ready_driver::{LegacyDriver, MemIo};
use rent_buf::OutOfMemory;
use std::alloc::Global;
use std::test::Fail;

mod wakes;

// How many connections there are at most: their handles are 1, 2 and 3, behind the one that listens.
const MOST: usize = 3;

// How many turns are made before anything comes, and behind it.
const TURNS: u64 = 40;

// Answers each line in capitals.
#[derive(Drop)]
struct Capitals;

impl Lines for Capitals {
    fn new(_alloc: Global) -> Result<Capitals, OutOfMemory> {
        Ok(Capitals)
    }

    fn begin(&mut self) -> Option<Vec<u8>> {
        None
    }

    fn answer(&mut self, line: String) -> Answer {
        let mut bytes = line.into_bytes();
        bytes.make_ascii_uppercase();
        Answer::Write(bytes)
    }
}

type OnHandles = Server<MemIo, ByLines<Capitals>>;

// A run: the room of a buffer, how long a connection may last, what comes at each handle, and whether its end comes behind that. Then what
// each was sent, how many connections have ended, and how many of these by their deadline.
struct Row {
    name: &'static str,
    room: usize,
    life: Option<u64>,
    comes: [&'static str; 3],
    ends: [bool; 3],
    sent: [&'static str; 3],
    ended: usize,
    late: usize,
}

#[rattlefmt::skip]
const ROWS: [Row; 5] = [
    Row { name: "each is answered by itself", room: 64, life: None, comes: ["ab\n", "c\nd\n", "e"], ends: [false; 3],
        sent: ["AB\n", "C\nD\n", ""], ended: 0, late: 0 },
    Row { name: "one byte at a time", room: 1, life: None, comes: ["ab\ncd\n", "", "e\n"], ends: [false; 3],
        sent: ["AB\nCD\n", "", "E\n"], ended: 0, late: 0 },
    Row { name: "one ends in the middle of a line", room: 4, life: None, comes: ["first\nsec", "x\n", ""], ends: [true, false, false],
        sent: ["FIRST\nSEC", "X\n", ""], ended: 1, late: 0 },
    Row { name: "all end", room: 64, life: None, comes: ["a\n", "", "c\n"], ends: [true; 3],
        sent: ["A\n", "", "C\n"], ended: 3, late: 0 },
    Row { name: "none lasts longer than it may", room: 64, life: Some(50), comes: ["a\n", "b", ""], ends: [false; 3],
        sent: ["A\n", "", ""], ended: 3, late: 3 },
];

// Makes turns, one at each moment: how many connections have ended, and how many of these by their deadline.
fn turns(server: &mut OnHandles, from: u64) -> (usize, usize) {
    let (mut ended, mut late) = (0usize, 0usize);
    for now in from..from.saturating_add(TURNS) {
        for (_, end) in server.turn(now).ended {
            if let NetEnd::Ended(end) = end {
                ended = ended.saturating_add(1);
                if end.fault == Some(NetFault::Late) {
                    late = late.saturating_add(1);
                }
            }
        }
    }
    (ended, late)
}

// What was sent to a handle is this.
fn sent_is(io: &MemIo, h: u64, want: &str) -> bool {
    if h >= io.count() {
        return false;
    }
    match io.look(h) {
        Ok(Look::Bytes(bytes)) => bytes.as_slice() == want.as_bytes(),
        _ => false,
    }
}

// A server that listens, once it has as many connections as it may.
fn serve(alloc: Global, limits: Limits) -> Option<OnHandles> {
    let mut server: OnHandles = Server::over(
        alloc,
        LegacyDriver::over(alloc, MemIo::new(alloc)),
        limits,
    );
    server.listen(0).ok()?;
    let _ = turns(&mut server, 0);
    Some(server)
}

// A run does as its row says.
fn runs_so(alloc: Global, row: &Row) -> Option<bool> {
    let limits = Limits {
        room: row.room,
        most: MOST,
        life: row.life,
    };
    let mut server = serve(alloc, limits)?;
    let mut good = server.connections() == MOST;
    for h in 0..3usize {
        good = feed_in(&mut server.exec, h as u64 + 1, row.comes[h], row.ends[h]) && good;
    }
    let (ended, late) = turns(&mut server, TURNS);
    for h in 0..3usize {
        good = sent_is(server.io(), h as u64 + 1, row.sent[h]) && good;
    }
    Some(good && ended == row.ended && late == row.late)
}

#[test]
fn connections_are_served(rt: HostRuntime) -> Result<(), Fail> {
    for row in &ROWS {
        let name = row.name;
        assert!(rt;
            runs_so(rt.alloc(), row) == Some(true),
            "in the row {name:?}"
        );
    }
    Ok(())
}

// If memory runs out for a connection, its handle waits, and no further one is accepted.
#[test]
fn a_connection_waits_for_memory(rt: HostRuntime) -> Result<(), Fail> {
    let alloc = rt.alloc();
    let server = serve(alloc, Limits::new(1 << 60));
    assert!(rt; server.is_some());
    if let Some(server) = server {
        let mut server = server;
        let turn = server.turn(TURNS);
        assert!(rt; turn.fault == Some(ServerFault::OutOfMemory));
        assert!(rt; server.connections() == 0 && server.io().count() == 2);
    }
    Ok(())
}
