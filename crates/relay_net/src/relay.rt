//! The relay: it accepts connections, and passes bytes between each and its other end.
ghost use Rattle.std.specs.Prelude.{◌≡◌, ◌≤◌, ◌<◌, ◌+◌, ◌++◌, [], true, None, List, ℕ, Ok, Err, length, map};
ghost use Rattle.std.specs.Prelude.{◌≢◌, IsTrue, IfOk, IfErr, OnOk, IsPermutation};
ghost use Rattle.std.specs.Vec.{vec_len, vec_capacity};
ghost use Rattle.ready_driver.specs.Io.{IoView, IsLater};
ghost use Rattle.ready_driver.specs.LegacyState.{LegacyState, ops_in};
ghost use Rattle.ready_driver.specs.Registry.{is_users};
ghost use Rattle.rent_buf.specs.declared.plain.Buf.{Buf};
ghost use Rattle.relay_net.specs.declared.connection.Connection.{Connection as Conn};
ghost use Rattle.relay_net.specs.Opening.{AcceptFails, IsFirst, Opening, WasOpened};
ghost use Rattle.relay_net.specs.Forwarding.{AreUntouched, HaveForwarded};
ghost use Rattle.relay_net.specs.declared.flow.TheConstants.{ROOM};
ghost use Rattle.machine.specs.declared.request.TheConstants.{MOST_ASKED};
ghost use Rattle.relay_net.specs.Keyed.{AreRegistered, HasKeys, KeepsKeys};
ghost use Rattle.relay_net.specs.Listening.{AreGoingBut, IsAtHand, MayListen};
ghost use Rattle.relay_net.specs.Connection.{near_of};
ghost use Rattle.relay_net.specs.Relay.{AreGoing, AreMarked, IsAmong, IsSound, Serving, StopsUnless, connections_in};
ghost use Rattle.relay_net.specs.Relaying.{HandsOn, RoundStops, TurnStops, round_of};

mod ending;
mod lists;
mod memory;

use crate::far::Far;
use crate::flow::ROOM;
use crate::opening::{Arrival, arrive, begin_accept, open_one};
use crate::relay::ending::end_all;
use crate::relay::lists::{Lists, able_behind, finish, no_round, no_wakers, round_with};
use crate::round::{RelayError, Round};
use crate::state::{State, serve_all};
use driver_core::{Driver, MOST_GIVEN, Stop};
use handle_core::SharedFd;
use ready_driver::{LegacyDriver, Sockets};
use rent_buf::{Buf, OutOfMemory};
use std::alloc::Global;
use std::marker::Model;
use std::sync::Wait;
use std::sync::ledger::Ledger;
use std::time::Clock;
use wake_core::{Sleeper, Woken};

/// A relay over a readiness driver: it accepts connections at a handle, and passes bytes between each and its other end. (not in monoio)
pub struct Relay<I: Sockets, F: Far<I>> {
    state: State<I>,
    limit: usize,
    far: F,
    // What a round names, of which nothing stays between rounds but its memory.
    lists: Lists,
    // The last round ended a connection, and left no accept that waits: there is a place for another one. No contract sees it.
    again: bool,
    // How many connections, from the lowest on, may go on: all, or those in front of where the last round ran out of memory. No contract
    // sees it.
    able: usize,
    alloc: Global,
}

impl<I: Sockets, F: Far<I>> Model for Relay<I, F> {
    ghost use Rattle.std.specs.Coded.{codes};
    ghost use Rattle.std.specs.Prelude.{◌≤◌, IsTrue};
    ghost use Rattle.std.specs.Vec.{vec_len};
    ghost use Rattle.ready_driver.specs.LegacyState.{legacy_code, ops_in};
    ghost use Rattle.relay_net.specs.Relay.{AreMarked, IsSound};
    ghost use Rattle.relay_net.specs.Relaying.{AreEmpty, Relaying, relaying_code};

    ghost Value = { Relaying I };

    ghost coded = { relaying_code (legacy_code I.code (Prim.hlevel codes) (Prim.hlevel codes) (Prim.hlevel codes)) (Prim.hlevel codes)
        (Prim.hlevel codes) };

    ghost view = { λ r. record {
      driver = r.state.driver;
      listener = r.state.listener;
      accept = r.state.accept;
      open_ones = r.state.open.items;
      limit = r.limit;
      room = r.state.room;
    } };

    ghost invariant = { λ r.
        IsSound r.state.room (ops_in r.state.driver) r.state.driver.handling.table r.state.listener r.state.accept r.state.open.items
        × (vec_len r.state.open ≤ r.limit) × (r.limit ≤ 64) × AreEmpty r.lists
        × (IsTrue I.tells → AreMarked (I.view r.state.driver.handling.io).world r.state.open.items) };
}

// How a round goes on after a turn.
fn turn_stop(stop: Option<Stop>) -> Result<(), RelayError>
    ensures { TurnStops stop result }
{
    match stop {
        None => Ok(()),
        Some(Stop::OutOfMemory) => Err(RelayError::OutOfMemory),
        Some(_) => Err(RelayError::Fault),
    }
}

// How long a round waits at most that is to wait so many milliseconds at most: not at all where there is something to do at once.
fn longest<I: Sockets>(state: &State<I>, again: bool, able: usize, millis: u64) -> u64 {
    if again || state.is_at_hand(able) {
        return 0;
    }
    millis
}

// The turn of a round: a park that waits so many milliseconds at most, and not at all where there is something to do at once; or a turn
// that doesn't wait.
fn turn<R: Wait + Clock, I: Sockets, P: Ledger, D: Ledger>(
    rt: &R,
    alloc: Global,
    state: &mut State<I>,
    sleeper: &mut Sleeper<P, D>,
    wait: Option<u64>,
    again: bool,
    able: usize,
) -> (Woken, Result<(), RelayError>)
    requires sound { IsSound state.old.room (ops_in state.old.driver) state.old.driver.handling.table state.old.listener state.old.accept
        state.old.open.items }
    ensures sound { IsSound state.new.room (ops_in state.new.driver) state.new.driver.handling.table state.new.listener state.new.accept
        state.new.open.items }
    ensures opening { Opening I.view I.tells state.old.driver state.old.open.items state.new.driver state.new.open.items }
    ensures stops { StopsUnless (I.view state.old.driver.handling.io) (I.view state.new.driver.handling.io) result.1 }
    ensures drains { HandsOn sleeper.old sleeper.new result.0 }
    ensures hand { OnOk result.1 (IsTrue I.memory → MayListen I.view state.old.driver state.old.listener
        → IsAtHand I.view state.new.driver state.old.listener) }
    ensures same { (state.new.listener ≡ state.old.listener) × (state.new.open ≡ state.old.open) }
    ensures asks { state.new.room ≡ state.old.room }
    ensures given { state.new.driver.given ≡ state.old.driver.given }
    ensures keyed { KeepsKeys I.view I.memory state.old.driver state.new.driver }
    ensures forwards { OnOk result.1 (IsTrue I.memory → HasKeys I.view state.old.driver.handling
        → AreUntouched I.view state.old.driver state.old.open.items state.new.driver state.new.open.items) }
{
    match wait {
        None => {
            let turned = Driver::submit(&mut state.driver);
            (no_wakers(alloc), turn_stop(turned.stop))
        }
        Some(millis) => {
            let limit = longest(state, again, able, millis);
            let parked = state.driver.park_timeout(rt, sleeper, limit);
            let turned = parked.turned;
            (parked.remote, turn_stop(turned.stop))
        }
    }
}

// The accept of a round: it is submitted where none waits and there is a place, and polled once.
#[tactic(auto, using(crate::proofs::Keyed::keeps_none))]
fn accept<I: Sockets, F: Far<I>>(
    state: &mut State<I>,
    far: &mut F,
    limit: usize,
    lists: &mut Lists,
) -> Result<(), RelayError>
    requires sound { IsSound state.old.room (ops_in state.old.driver) state.old.driver.handling.table state.old.listener state.old.accept
        state.old.open.items }
    requires counter { state.old.driver.given < MOST_GIVEN }
    requires room { vec_len lists.old.opened < vec_capacity lists.old.opened }
    requires none { (lists.old.opened.items ≡ []) × (lists.old.accept ≡ None) }
    requires places { vec_len state.old.open ≤ limit }
    ensures sound { IsSound state.new.room (ops_in state.new.driver) state.new.driver.handling.table state.new.listener state.new.accept
        state.new.open.items }
    ensures opening { (start : LegacyState I Buf) (was : List Conn)
        → Opening I.view I.tells start was state.old.driver state.old.open.items
        → Opening I.view I.tells start was state.new.driver state.new.open.items }
    ensures stops { StopsUnless (I.view state.old.driver.handling.io) (I.view state.new.driver.handling.io) result }
    ensures ended { lists.new.ended ≡ lists.old.ended }
    ensures fails { AcceptFails (I.view state.old.driver.handling.io) (I.view state.new.driver.handling.io) lists.new.accept }
    ensures names { map near_of state.new.open.items ≡ map near_of state.old.open.items ++ lists.new.opened.items }
    ensures opened { (n : ℕ) → IsAmong lists.new.opened.items n → IsFirst (ops_in state.new.driver) state.new.open.items n }
    ensures accepts { OnOk result (IsTrue I.memory → IsAtHand I.view state.old.driver state.old.listener → vec_len state.old.open < limit
        → lists.new.opened.items ≢ []) }
    ensures places { vec_len state.new.open ≤ limit }
    ensures more { vec_len state.new.open ≤ vec_len state.old.open + 1 }
    ensures given { state.new.driver.given ≤ state.old.driver.given + 1 }
    ensures keyed { KeepsKeys I.view I.memory state.old.driver state.new.driver }
    ensures forwards { OnOk result (IsTrue I.memory → (start : LegacyState I Buf) (was : List Conn)
        → Opening I.view I.tells start was state.old.driver state.old.open.items
        → AreUntouched I.view start was state.old.driver state.old.open.items
        → AreUntouched I.view start was state.new.driver state.new.open.items) }
    ensures one { length lists.new.opened.items ≤ 1 }
    ensures grows { lists.new.opened.items ≢ []
        → (I.view state.old.driver.handling.io).made < (I.view state.new.driver.handling.io).made }
    ensures same { state.new.listener ≡ state.old.listener }
    ensures asks { state.new.room ≡ state.old.room }
{
    if state.open.len() >= limit {
        return Ok(());
    }
    begin_accept(state)?;
    match arrive(state) {
        Arrival::Nothing => Ok(()),
        Arrival::OutOfMemory => Err(RelayError::OutOfMemory),
        Arrival::Failed(error) => {
            lists.accept = Some(error);
            Ok(())
        }
        Arrival::Made(near) => {
            open_one(state, far, near)?;
            lists.opened.push_reserved(near.number());
            Ok(())
        }
    }
}

// What a round does after a turn that didn't stop.
fn work<I: Sockets, F: Far<I>>(
    state: &mut State<I>,
    far: &mut F,
    limit: usize,
    alloc: Global,
    lists: &mut Lists,
) -> Result<(), RelayError>
    requires sound { IsSound state.old.room (ops_in state.old.driver) state.old.driver.handling.table state.old.listener state.old.accept
        state.old.open.items }
    requires limit { limit ≤ 64 }
    requires places { vec_len state.old.open ≤ limit }
    requires counter { state.old.driver.given + 129 ≤ MOST_GIVEN }
    requires opened { vec_len lists.old.opened < vec_capacity lists.old.opened }
    requires unopened { (lists.old.opened.items ≡ []) × (lists.old.accept ≡ None) }
    requires none { (lists.old.ended.closed.items ≡ []) × (lists.old.ended.failed.items ≡ []) }
    requires len { (vec_len lists.old.ended.closed ≡ 0) × (vec_len lists.old.ended.failed ≡ 0) }
    requires closed { vec_len state.old.open + 1 ≤ vec_capacity lists.old.ended.closed }
    requires failed { vec_len state.old.open + 1 ≤ vec_capacity lists.old.ended.failed }
    ensures sound { IsSound state.new.room (ops_in state.new.driver) state.new.driver.handling.table state.new.listener state.new.accept
        state.new.open.items }
    ensures serving { (start : LegacyState I Buf) (was : List Conn)
        → Opening I.view I.tells start was state.old.driver state.old.open.items
        → Serving I.view I.tells start was state.new.driver state.new.open.items lists.new.ended.closed.items
        lists.new.ended.failed.items }
    ensures stops { StopsUnless (I.view state.old.driver.handling.io) (I.view state.new.driver.handling.io) result }
    ensures fails { AcceptFails (I.view state.old.driver.handling.io) (I.view state.new.driver.handling.io) lists.new.accept }
    ensures opens { (start : LegacyState I Buf) (was : List Conn)
        → Opening I.view I.tells start was state.old.driver state.old.open.items → (n : ℕ) → IsAmong lists.new.opened.items n
        → WasOpened I.view I.tells start n state.new.driver state.new.open.items lists.new.ended.closed.items
        lists.new.ended.failed.items }
    ensures accepts { OnOk result (IsTrue I.memory → IsAtHand I.view state.old.driver state.old.listener → vec_len state.old.open < limit
        → lists.new.opened.items ≢ []) }
    ensures names { IsPermutation (connections_in state.new.open.items lists.new.ended.closed.items lists.new.ended.failed.items)
        (map near_of state.old.open.items ++ lists.new.opened.items) }
    ensures places { vec_len state.new.open ≤ limit }
    ensures given { state.new.driver.given ≤ state.old.driver.given + 129 }
    ensures keyed { KeepsKeys I.view I.memory state.old.driver state.new.driver }
    ensures forwards { OnOk result (IsTrue I.memory → (start : LegacyState I Buf) (was : List Conn)
        → Opening I.view I.tells start was state.old.driver state.old.open.items
        → AreUntouched I.view start was state.old.driver state.old.open.items
        → HaveForwarded I.view start was state.new.driver state.new.open.items) }
    ensures one { length lists.new.opened.items ≤ 1 }
    ensures grows { lists.new.opened.items ≢ []
        → (I.view state.old.driver.handling.io).made < (I.view state.new.driver.handling.io).made }
    ensures closes { IsTrue I.tells → AreGoing I.view state.old.driver state.old.listener state.old.open.items
        → lists.new.ended.closed.items ≡ [] }
    ensures same { state.new.listener ≡ state.old.listener }
    ensures asks { state.new.room ≡ state.old.room }
{
    accept(state, far, limit, lists)?;
    serve_all(state, alloc, &mut lists.ended)
}

// What a round does after its turn.
#[tactic(auto, using(crate::proofs::Keyed::keeps_none))]
fn behind<I: Sockets, F: Far<I>>(
    state: &mut State<I>,
    far: &mut F,
    limit: usize,
    alloc: Global,
    lists: &mut Lists,
    turned: Result<(), RelayError>,
) -> Result<(), RelayError>
    requires sound { IsSound state.old.room (ops_in state.old.driver) state.old.driver.handling.table state.old.listener state.old.accept
        state.old.open.items }
    requires limit { limit ≤ 64 }
    requires places { vec_len state.old.open ≤ limit }
    requires counter { state.old.driver.given + 129 ≤ MOST_GIVEN }
    requires opened { vec_len lists.old.opened < vec_capacity lists.old.opened }
    requires unopened { (lists.old.opened.items ≡ []) × (lists.old.accept ≡ None) }
    requires none { (lists.old.ended.closed.items ≡ []) × (lists.old.ended.failed.items ≡ []) }
    requires len { (vec_len lists.old.ended.closed ≡ 0) × (vec_len lists.old.ended.failed ≡ 0) }
    requires closed { vec_len state.old.open + 1 ≤ vec_capacity lists.old.ended.closed }
    requires failed { vec_len state.old.open + 1 ≤ vec_capacity lists.old.ended.failed }
    ensures sound { IsSound state.new.room (ops_in state.new.driver) state.new.driver.handling.table state.new.listener state.new.accept
        state.new.open.items }
    ensures serving { (start : LegacyState I Buf) (was : List Conn)
        → Opening I.view I.tells start was state.old.driver state.old.open.items
        → Serving I.view I.tells start was state.new.driver state.new.open.items lists.new.ended.closed.items
        lists.new.ended.failed.items }
    ensures stops { (old : IoView) → StopsUnless old (I.view state.old.driver.handling.io) turned
        → IsLater old (I.view state.old.driver.handling.io) → StopsUnless old (I.view state.new.driver.handling.io) result }
    ensures fails { AcceptFails (I.view state.old.driver.handling.io) (I.view state.new.driver.handling.io) lists.new.accept }
    ensures opens { (start : LegacyState I Buf) (was : List Conn)
        → Opening I.view I.tells start was state.old.driver state.old.open.items → (n : ℕ) → IsAmong lists.new.opened.items n
        → WasOpened I.view I.tells start n state.new.driver state.new.open.items lists.new.ended.closed.items
        lists.new.ended.failed.items }
    ensures accepts { OnOk result (IsTrue I.memory → OnOk turned (IsAtHand I.view state.old.driver state.old.listener)
        → vec_len state.old.open < limit → lists.new.opened.items ≢ []) }
    ensures names { IsPermutation (connections_in state.new.open.items lists.new.ended.closed.items lists.new.ended.failed.items)
        (map near_of state.old.open.items ++ lists.new.opened.items) }
    ensures places { vec_len state.new.open ≤ limit }
    ensures given { state.new.driver.given ≤ state.old.driver.given + 129 }
    ensures keyed { KeepsKeys I.view I.memory state.old.driver state.new.driver }
    ensures forwards { OnOk result (IsTrue I.memory → (start : LegacyState I Buf) (was : List Conn)
        → Opening I.view I.tells start was state.old.driver state.old.open.items
        → OnOk turned (AreUntouched I.view start was state.old.driver state.old.open.items)
        → HaveForwarded I.view start was state.new.driver state.new.open.items) }
    ensures one { length lists.new.opened.items ≤ 1 }
    ensures grows { lists.new.opened.items ≢ []
        → (I.view state.old.driver.handling.io).made < (I.view state.new.driver.handling.io).made }
    ensures closes { IsTrue I.tells → AreGoing I.view state.old.driver state.old.listener state.old.open.items
        → lists.new.ended.closed.items ≡ [] }
    ensures same { state.new.listener ≡ state.old.listener }
    ensures asks { state.new.room ≡ state.old.room }
{
    match turned {
        Ok(()) => work(state, far, limit, alloc, lists),
        Err(why) => Err(why),
    }
}

impl<I: Sockets, F: Far<I>> Relay<I, F> {
    /// A relay that accepts at a handle that listens, and has so many connections open at most, 1 to 64. Their other ends are given by
    /// `far`. A receive asks for `ROOM` bytes. Where memory runs out the driver comes back. (not in monoio)
    pub fn new(
        alloc: Global,
        driver: LegacyDriver<I, Buf>,
        listener: SharedFd,
        limit: u32,
        far: F,
    ) -> Result<Relay<I, F>, (OutOfMemory, LegacyDriver<I, Buf>)>
        requires held { is_users driver.handling.table listener ≡ true }
        requires limit { limit ≤ 64 }
        ensures ok { IfOk result (λ relay. relay ≡
            record { driver = driver; listener = listener; accept = None; open_ones = []; limit = limit; room = ROOM }) }
        ensures err { IfErr result (λ refused. refused.1 ≡ driver) }
    {
        Relay::with_room(alloc, driver, listener, limit, ROOM, far)
    }

    /// The same, of which a receive asks for so many bytes: one at least, and no more than one request asks for, `MOST_ASKED`. A connection
    /// takes twice that memory at most. (not in monoio)
    pub fn with_room(
        alloc: Global,
        driver: LegacyDriver<I, Buf>,
        listener: SharedFd,
        limit: u32,
        room: usize,
        far: F,
    ) -> Result<Relay<I, F>, (OutOfMemory, LegacyDriver<I, Buf>)>
        requires held { is_users driver.handling.table listener ≡ true }
        requires limit { limit ≤ 64 }
        requires room { (1 ≤ room) × (room ≤ MOST_ASKED) }
        ensures ok { IfOk result (λ relay. relay ≡
            record { driver = driver; listener = listener; accept = None; open_ones = []; limit = limit; room = room }) }
        ensures err { IfErr result (λ refused. refused.1 ≡ driver) }
    {
        let limit = limit as usize;
        match Vec::with_capacity(alloc, limit) {
            Ok(open) => Ok(Relay {
                state: State {
                    driver,
                    listener,
                    accept: None,
                    open,
                    room,
                },
                limit,
                far,
                lists: Lists::new(alloc),
                again: false,
                able: limit,
                alloc,
            }),
            Err(_) => Err((OutOfMemory, driver)),
        }
    }

    /// Its driver. (not in monoio)
    pub fn driver(&self) -> &LegacyDriver<I, Buf>
        ensures { result.now ≡ self.now.driver }
    {
        &self.state.driver
    }

    /// How many connections are open. A receive of each asks for as many bytes as the relay's receives do. Where the object tells its
    /// handles, each of them is ending only where one of its handles, if it is a stream, has an empty input and a marked end. (not in
    /// monoio)
    pub fn connections(&self) -> usize
        ensures value { result ≡ length self.now.open_ones }
        ensures marked { IsTrue I.tells → AreMarked (I.view self.now.driver.handling.io).world self.now.open_ones }
        ensures rooms { (conn : Conn) → IsAmong self.now.open_ones conn → conn.room ≡ self.now.room }
    {
        self.state.open.len()
    }

    /// Ends the relay as a drop of it does, and returns the object of its driver: what waits is dropped, and the handles of each connection
    /// are released. The handle that listens isn't closed. (not in monoio)
    pub fn into_io(self) -> I
        ensures later { IsLater (I.view self.driver.handling.io) (I.view result) }
        ensures made { (I.view result).made ≡ (I.view self.driver.handling.io).made }
    {
        let Relay {
            state,
            limit: _,
            far: _,
            lists: _,
            again: _,
            able: _,
            alloc: _,
        } = self;
        end_all(state).into_io()
    }

    /// A round: a turn of the driver, which waits so many milliseconds at most, and not at all where that is `None`; then an accept, where
    /// there is a place; then a step of each direction of each connection, the lowest near handle first. Each connection that was open, or
    /// that it opened, is open still, was closed or failed; at an error too, which says why the round stopped: then the next one goes on.
    /// At most 129 operations are submitted. The handle of an accepted connection that gets no other end is released. (not in monoio)
    ///
    /// It doesn't wait either where a direction is to receive or has bytes to send, or where the round before ended a connection and left
    /// no accept that waits: so one round may follow another, each with a wait, and no byte waits for that.
    pub fn round<R: Wait + Clock, P: Ledger, D: Ledger>(
        &mut self,
        rt: &R,
        sleeper: &mut Sleeper<P, D>,
        wait: Option<u64>,
    ) -> Result<Round, (RelayError, Round)>
        requires counter { self.old.driver.given + 129 ≤ MOST_GIVEN }
        ensures serving { Serving I.view I.tells self.old.driver self.old.open_ones self.new.driver self.new.open_ones
            (round_of result).closed (round_of result).failed }
        ensures opens { (n : ℕ) → IsAmong (round_of result).opened n → WasOpened I.view I.tells self.old.driver n self.new.driver
            self.new.open_ones (round_of result).closed (round_of result).failed }
        ensures accepts { OnOk result (IsTrue I.memory → MayListen I.view self.old.driver self.old.listener
            → length self.old.open_ones < self.old.limit → (round_of result).opened ≢ []) }
        ensures names { IsPermutation (connections_in self.new.open_ones (round_of result).closed (round_of result).failed)
            (map near_of self.old.open_ones ++ (round_of result).opened) }
        ensures drains { HandsOn sleeper.old sleeper.new (round_of result).remote }
        ensures accept { AcceptFails (I.view self.old.driver.handling.io) (I.view self.new.driver.handling.io) (round_of result).accept }
        ensures stops { RoundStops (I.view self.old.driver.handling.io) (I.view self.new.driver.handling.io) result }
        ensures given { self.new.driver.given ≤ self.old.driver.given + 129 }
        ensures keyed { IsTrue I.memory → HasKeys I.view self.old.driver.handling
            → AreRegistered I.view self.new.driver self.new.listener self.new.open_ones }
        // Over handles in memory, where each handle that somebody holds is registered, a round that is Ok forwards what it can: of each
        // connection that was open, is open still and isn't ending, whose handles are streams, what a direction held has joined the output
        // of its second handle; and one that held nothing holds now what waited at its first handle, as many bytes at most as a receive
        // asks for.
        ensures forwards { OnOk result (IsTrue I.memory → HasKeys I.view self.old.driver.handling
            → HaveForwarded I.view self.old.driver self.old.open_ones self.new.driver self.new.open_ones) }
        // Where it opens one, the object's count of handles rises in it; it never falls.
        ensures grows { (round_of result).opened ≢ []
            → (I.view self.old.driver.handling.io).made < (I.view self.new.driver.handling.io).made }
        ensures one { length (round_of result).opened ≤ 1 }
        ensures order { (I.view self.old.driver.handling.io).made ≤ (I.view self.new.driver.handling.io).made }
        // Where each handle but the listener is a stream whose end isn't marked, it closes none.
        ensures closes { IsTrue I.tells → AreGoingBut self.old.listener (I.view self.old.driver.handling.io).world
            → (round_of result).closed ≡ [] }
        ensures same { (self.new.listener ≡ self.old.listener) × (self.new.limit ≡ self.old.limit) }
        ensures asks { self.new.room ≡ self.old.room }
        ensures few { length self.new.open_ones ≤ self.new.limit }
    {
        if self.lists.reserve(self.state.open.len() + 1).is_err() {
            self.able = 0;
            return Err((RelayError::OutOfMemory, no_round(self.alloc)));
        }
        let (remote, turned) = turn(
            rt,
            self.alloc,
            &mut self.state,
            sleeper,
            wait,
            self.again,
            self.able,
        );
        let worked = behind(
            &mut self.state,
            &mut self.far,
            self.limit,
            self.alloc,
            &mut self.lists,
            turned,
        );
        self.again = self.lists.ended.is_some() && self.state.accept.is_none();
        self.able = able_behind(&worked, self.lists.ended.reached, self.limit);
        finish(worked, round_with(self.alloc, remote, &mut self.lists))
    }
}

impl<I: Sockets, F: Far<I>> Drop for Relay<I, F> {
    fn drop(self) {
        let Relay {
            state,
            limit: _,
            far: _,
            lists: _,
            again: _,
            able: _,
            alloc: _,
        } = self;
        end_all(state);
    }
}

#[cfg(test)]
mod tests;
