// The connections of a relay with their driver, and a round of each.
ghost use Rattle.std.specs.Prelude.{◌≡◌, ◌≤◌, ◌<◌, ◌+◌, ◌*◌, ◌-◌, [], List, ℕ, IfOk, IsPermutation, IsTrue, OnOk, map};
ghost use Rattle.std.specs.Prelude.{slice_get, length};
ghost use Rattle.std.specs.Vec.{vec_len, vec_capacity};
ghost use Rattle.ready_driver.specs.Io.{IsLater};
ghost use Rattle.ready_driver.specs.LegacyState.{LegacyState, ops_in};
ghost use Rattle.rent_buf.specs.declared.plain.Buf.{Buf};
ghost use Rattle.relay_net.specs.Connection.{IsGoing, IsOver, IsOverIf, ServedFor, near_of};
ghost use Rattle.relay_net.specs.Forwarding.{AreUntouched, HaveForwarded, RoundBehind, RoundBut, RoundOn, RoundTo};
ghost use Rattle.relay_net.specs.Keyed.{KeepsKeys};
ghost use Rattle.relay_net.specs.Relay.{AreGoing, GoesOn, IsSound, Serving, StopsUnless, connections_in};
ghost use Rattle.relay_net.specs.declared.connection.Connection.{Connection as Conn};
ghost use Rattle.relay_net.specs.declared.round.Lost.{Lost as LostOne};
ghost use Rattle.rent_buf.specs.Counts.{Rose};

use crate::connection::{Connection, Served, serve};
use crate::flow::Reads;
use crate::round::{Lost, RelayError};
use driver_core::{MOST_GIVEN, Op};
use handle_core::SharedFd;
use ready_driver::NonBlock;
use std::alloc::Global;

// The driver of a relay, the handle that listens, the accept that waits, and the connections that are open, the lowest near handle first.
pub(crate) struct State<I: NonBlock> {
    pub(crate) driver: Reads<I>,
    pub(crate) listener: SharedFd,
    pub(crate) accept: Option<Op>,
    pub(crate) open: Vec<Connection>,
    // How many bytes a receive asks for.
    pub(crate) room: usize,
}

impl<I: NonBlock> State<I> {
    // The next step of one of so many connections, from the lowest on, submits an operation: then there is no need to wait for the object.
    pub(crate) fn is_at_hand(&self, able: usize) -> bool {
        let able = able.min(self.open.len());
        for conn in &self.open[..able] {
            if conn.is_at_hand() {
                return true;
            }
        }
        false
    }
}

/// What a round closed, and what it lost, in memory that was reserved.
#[derive(Drop)]
pub struct Ended {
    /// Those that were closed.
    pub closed: Vec<u64>,
    /// Those that failed.
    pub failed: Vec<Lost>,
    /// The place that it came to. No contract sees it.
    pub reached: usize,
}

impl Ended {
    // None. It takes no memory.
    pub(crate) fn new(alloc: Global) -> Ended
        ensures none { (result.closed.items ≡ []) × (result.failed.items ≡ []) }
        ensures len { (vec_len result.closed ≡ 0) × (vec_len result.failed ≡ 0) }
    {
        Ended {
            closed: Vec::new(alloc),
            failed: Vec::new(alloc),
            reached: 0,
        }
    }

    // A connection ended.
    pub(crate) fn is_some(&self) -> bool {
        !self.closed.is_empty() || !self.failed.is_empty()
    }
}

// A round of the connection at a place.
fn serve_one<I: NonBlock>(state: &mut State<I>, alloc: Global, at: usize) -> Served
    requires sound { IsSound state.old.room (ops_in state.old.driver) state.old.driver.handling.table state.old.listener state.old.accept
        state.old.open.items }
    requires there { at < vec_len state.old.open }
    requires placed { at < length state.old.open.items }
    requires counter { state.old.driver.given + 1 < MOST_GIVEN }
    ensures sound { IsSound state.new.room (ops_in state.new.driver) state.new.driver.handling.table state.new.listener state.new.accept
        state.new.open.items }
    ensures serving { (start : LegacyState I Buf) (was : List Conn) (closed : List ℕ) (failed : List LostOne)
        → Serving I.view I.tells start was state.old.driver state.old.open.items closed failed
        → Serving I.view I.tells start was state.new.driver state.new.open.items closed failed }
    ensures over { (conn : Conn) → slice_get state.new.open.items at ≡ Some conn → IsOverIf (ops_in state.new.driver) conn result }
    ensures names { map near_of state.new.open.items ≡ map near_of state.old.open.items }
    ensures later { IsLater (I.view state.old.driver.handling.io) (I.view state.new.driver.handling.io) }
    ensures cause { ServedFor (I.view state.old.driver.handling.io) (I.view state.new.driver.handling.io) result }
    ensures same { (state.new.listener ≡ state.old.listener) × (state.new.accept ≡ state.old.accept) }
    ensures asks { state.new.room ≡ state.old.room }
    ensures len { vec_len state.new.open ≡ vec_len state.old.open }
    ensures given { state.new.driver.given ≤ state.old.driver.given + 2 }
    ensures keyed { KeepsKeys I.view I.memory state.old.driver state.new.driver }
    ensures forwards { IsTrue I.memory → (start : LegacyState I Buf) (was : List Conn)
        → RoundTo I.view start was state.old.driver state.old.open.items at → RoundOn I.view start was state.new.driver
        state.new.open.items at result }
    ensures closes { IsTrue I.tells → AreGoing I.view state.old.driver state.old.listener state.old.open.items
        → IsGoing result × AreGoing I.view state.new.driver state.new.listener state.new.open.items }
{
    serve(&mut state.driver, alloc, &mut state.open[at])
}

// Closes the connection at a place, which is over.
fn close_at<I: NonBlock>(state: &mut State<I>, at: usize, ended: &mut Ended)
    requires sound { IsSound state.old.room (ops_in state.old.driver) state.old.driver.handling.table state.old.listener state.old.accept
        state.old.open.items }
    requires there { at < vec_len state.old.open }
    requires placed { at < length state.old.open.items }
    requires over { (conn : Conn) → slice_get state.old.open.items at ≡ Some conn → IsOver (ops_in state.old.driver) conn }
    requires room { vec_len ended.old.closed < vec_capacity ended.old.closed }
    ensures sound { IsSound state.new.room (ops_in state.new.driver) state.new.driver.handling.table state.new.listener state.new.accept
        state.new.open.items }
    ensures serving { (start : LegacyState I Buf) (was : List Conn)
        → Serving I.view I.tells start was state.old.driver state.old.open.items ended.old.closed.items ended.old.failed.items
        → Serving I.view I.tells start was state.new.driver state.new.open.items ended.new.closed.items ended.new.failed.items }
    ensures later { IsLater (I.view state.old.driver.handling.io) (I.view state.new.driver.handling.io) }
    ensures same { (state.new.listener ≡ state.old.listener) × (state.new.accept ≡ state.old.accept) }
    ensures asks { state.new.room ≡ state.old.room }
    ensures len { vec_len state.new.open + 1 ≡ vec_len state.old.open }
    ensures given { state.new.driver.given ≡ state.old.driver.given }
    ensures keyed { KeepsKeys I.view I.memory state.old.driver state.new.driver }
    ensures forwards { IsTrue I.memory → (start : LegacyState I Buf) (was : List Conn)
        → RoundBut I.view start was state.old.driver state.old.open.items at → RoundTo I.view start was state.new.driver
        state.new.open.items at }
    ensures names { IsPermutation (connections_in state.new.open.items ended.new.closed.items ended.new.failed.items)
        (connections_in state.old.open.items ended.old.closed.items ended.old.failed.items) }
    ensures closed { (vec_len ended.new.closed ≡ vec_len ended.old.closed + 1)
        × (vec_capacity ended.new.closed ≡ vec_capacity ended.old.closed) }
    ensures failed { ended.new.failed ≡ ended.old.failed }
{
    let conn = state.open.remove(at);
    ended.closed.push_reserved(conn.near());
    conn.end(&mut state.driver);
}

// Ends the connection at a place, an operation of which failed with this number.
fn lose_at<I: NonBlock>(state: &mut State<I>, at: usize, fault: u16, ended: &mut Ended)
    requires sound { IsSound state.old.room (ops_in state.old.driver) state.old.driver.handling.table state.old.listener state.old.accept
        state.old.open.items }
    requires there { at < vec_len state.old.open }
    requires placed { at < length state.old.open.items }
    requires room { vec_len ended.old.failed < vec_capacity ended.old.failed }
    ensures sound { IsSound state.new.room (ops_in state.new.driver) state.new.driver.handling.table state.new.listener state.new.accept
        state.new.open.items }
    ensures serving { (start : LegacyState I Buf) (was : List Conn)
        → Rose (I.view start.handling.io).fails (I.view state.old.driver.handling.io).fails
        → Serving I.view I.tells start was state.old.driver state.old.open.items ended.old.closed.items ended.old.failed.items
        → Serving I.view I.tells start was state.new.driver state.new.open.items ended.new.closed.items ended.new.failed.items }
    ensures later { IsLater (I.view state.old.driver.handling.io) (I.view state.new.driver.handling.io) }
    ensures same { (state.new.listener ≡ state.old.listener) × (state.new.accept ≡ state.old.accept) }
    ensures asks { state.new.room ≡ state.old.room }
    ensures len { vec_len state.new.open + 1 ≡ vec_len state.old.open }
    ensures given { state.new.driver.given ≡ state.old.driver.given }
    ensures keyed { KeepsKeys I.view I.memory state.old.driver state.new.driver }
    ensures forwards { IsTrue I.memory → (start : LegacyState I Buf) (was : List Conn)
        → RoundBut I.view start was state.old.driver state.old.open.items at → RoundTo I.view start was state.new.driver
        state.new.open.items at }
    ensures names { IsPermutation (connections_in state.new.open.items ended.new.closed.items ended.new.failed.items)
        (connections_in state.old.open.items ended.old.closed.items ended.old.failed.items) }
    ensures failed { (vec_len ended.new.failed ≡ vec_len ended.old.failed + 1)
        × (vec_capacity ended.new.failed ≡ vec_capacity ended.old.failed) }
    ensures closed { ended.new.closed ≡ ended.old.closed }
    ensures going { IsTrue I.tells → AreGoing I.view state.old.driver state.old.listener state.old.open.items
        → AreGoing I.view state.new.driver state.new.listener state.new.open.items }
{
    let conn = state.open.remove(at);
    ended.failed.push_reserved(conn.lost(fault));
    conn.end(&mut state.driver);
}

// A round of the connection at a place: whether it is open still.
#[tactic(auto, using(crate::proofs::Calls::later_then))]
fn serve_at<I: NonBlock>(
    state: &mut State<I>,
    alloc: Global,
    at: usize,
    ended: &mut Ended,
) -> Result<bool, RelayError>
    requires sound { IsSound state.old.room (ops_in state.old.driver) state.old.driver.handling.table state.old.listener state.old.accept
        state.old.open.items }
    requires there { at < vec_len state.old.open }
    requires placed { at < length state.old.open.items }
    requires counter { state.old.driver.given + 1 < MOST_GIVEN }
    requires closed { vec_len ended.old.closed < vec_capacity ended.old.closed }
    requires failed { vec_len ended.old.failed < vec_capacity ended.old.failed }
    ensures sound { IsSound state.new.room (ops_in state.new.driver) state.new.driver.handling.table state.new.listener state.new.accept
        state.new.open.items }
    ensures serving { (start : LegacyState I Buf) (was : List Conn)
        → Serving I.view I.tells start was state.old.driver state.old.open.items ended.old.closed.items ended.old.failed.items
        → Serving I.view I.tells start was state.new.driver state.new.open.items ended.new.closed.items ended.new.failed.items }
    ensures later { IsLater (I.view state.old.driver.handling.io) (I.view state.new.driver.handling.io) }
    ensures stops { StopsUnless (I.view state.old.driver.handling.io) (I.view state.new.driver.handling.io) result }
    ensures same { (state.new.listener ≡ state.old.listener) × (state.new.accept ≡ state.old.accept) }
    ensures asks { state.new.room ≡ state.old.room }
    ensures names { IsPermutation (connections_in state.new.open.items ended.new.closed.items ended.new.failed.items)
        (connections_in state.old.open.items ended.old.closed.items ended.old.failed.items) }
    ensures len { IfOk result (λ goes. GoesOn goes (vec_len state.old.open) (vec_len state.new.open)) }
    ensures fewer { vec_len state.new.open ≤ vec_len state.old.open }
    ensures given { state.new.driver.given ≤ state.old.driver.given + 2 }
    ensures keyed { KeepsKeys I.view I.memory state.old.driver state.new.driver }
    ensures forwards { IsTrue I.memory → (start : LegacyState I Buf) (was : List Conn)
        → RoundTo I.view start was state.old.driver state.old.open.items at → RoundBehind I.view start was state.new.driver
        state.new.open.items at result }
    ensures room { (vec_len ended.new.closed + vec_len state.new.open ≤ vec_len ended.old.closed + vec_len state.old.open)
        × (vec_capacity ended.new.closed ≡ vec_capacity ended.old.closed)
        × (vec_len ended.new.failed + vec_len state.new.open ≤ vec_len ended.old.failed + vec_len state.old.open)
        × (vec_capacity ended.new.failed ≡ vec_capacity ended.old.failed) }
    ensures closes { IsTrue I.tells → AreGoing I.view state.old.driver state.old.listener state.old.open.items
        → (ended.new.closed ≡ ended.old.closed) × AreGoing I.view state.new.driver state.new.listener state.new.open.items }
{
    match serve_one(state, alloc, at) {
        Served::Open => Ok(true),
        Served::Stopped(why) => Err(why),
        Served::Closed => {
            close_at(state, at, ended);
            Ok(false)
        }
        Served::Failed(fault) => {
            lose_at(state, at, fault, ended);
            Ok(false)
        }
    }
}

// A round of each connection, the lowest near handle first.
#[tactic(auto, using(crate::proofs::Relays::stops_later, crate::proofs::Keyed::keeps_none))]
pub(crate) fn serve_all<I: NonBlock>(
    state: &mut State<I>,
    alloc: Global,
    ended: &mut Ended,
) -> Result<(), RelayError>
    requires sound { IsSound state.old.room (ops_in state.old.driver) state.old.driver.handling.table state.old.listener state.old.accept
        state.old.open.items }
    requires counter { state.old.driver.given + 2 * vec_len state.old.open ≤ MOST_GIVEN }
    requires closed { vec_len ended.old.closed + vec_len state.old.open ≤ vec_capacity ended.old.closed }
    requires failed { vec_len ended.old.failed + vec_len state.old.open ≤ vec_capacity ended.old.failed }
    ensures sound { IsSound state.new.room (ops_in state.new.driver) state.new.driver.handling.table state.new.listener state.new.accept
        state.new.open.items }
    ensures serving { (start : LegacyState I Buf) (was : List Conn)
        → Serving I.view I.tells start was state.old.driver state.old.open.items ended.old.closed.items ended.old.failed.items
        → Serving I.view I.tells start was state.new.driver state.new.open.items ended.new.closed.items ended.new.failed.items }
    ensures stops { StopsUnless (I.view state.old.driver.handling.io) (I.view state.new.driver.handling.io) result }
    ensures same { (state.new.listener ≡ state.old.listener) × (state.new.accept ≡ state.old.accept) }
    ensures asks { state.new.room ≡ state.old.room }
    ensures names { IsPermutation (connections_in state.new.open.items ended.new.closed.items ended.new.failed.items)
        (connections_in state.old.open.items ended.old.closed.items ended.old.failed.items) }
    ensures later { IsLater (I.view state.old.driver.handling.io) (I.view state.new.driver.handling.io) }
    ensures fewer { vec_len state.new.open ≤ vec_len state.old.open }
    ensures given { state.new.driver.given ≤ state.old.driver.given + 2 * vec_len state.old.open }
    ensures keyed { KeepsKeys I.view I.memory state.old.driver state.new.driver }
    // Over handles in memory the directions of each connection forward what they can, if the round doesn't stop.
    ensures forwards { IsTrue I.memory → (start : LegacyState I Buf) (was : List Conn)
        → AreUntouched I.view start was state.old.driver state.old.open.items → OnOk result (HaveForwarded I.view start was
        state.new.driver state.new.open.items) }
    ensures closes { IsTrue I.tells → AreGoing I.view state.old.driver state.old.listener state.old.open.items
        → ended.new.closed ≡ ended.old.closed }
{
    let mut at = 0;
    while at < state.open.len() {
        let _ = state.open.as_slice();
        ended.reached = at;
        if serve_at(state, alloc, at, ended)? {
            at += 1;
        }
    }
    Ok(())
}
