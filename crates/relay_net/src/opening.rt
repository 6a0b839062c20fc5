// The accept of a relay, and its new connections.
ghost use Rattle.std.specs.Prelude.{◌≡◌, ◌≤◌, ◌<◌, ◌+◌, ◌++◌, ◌∷◌, [], false, None, ℕ, List, IsSome, IsTrue, OnErr, OnOk, map};
ghost use Rattle.relay_net.specs.Connection.{near_of};
ghost use Rattle.std.specs.Vec.{vec_len};
ghost use Rattle.ready_driver.specs.Registry.{is_old};
ghost use Rattle.ready_driver.specs.LegacyState.{LegacyState, ops_in};
ghost use Rattle.rent_buf.specs.declared.plain.Buf.{Buf};
ghost use Rattle.relay_net.specs.Flow.{IsPending};
ghost use Rattle.relay_net.specs.Forwarding.{AreUntouched, KeepsSeen};
ghost use Rattle.relay_net.specs.Keyed.{KeepsKeys};
ghost use Rattle.relay_net.specs.Listening.{ArrivesUnless, IsAtHand, IsMadeUnless};
ghost use Rattle.relay_net.specs.Opening.{AcceptedAs, AcceptedFor, ArrivesFor, FarStops, IsFirst, IsFresh, Opening, Widens};
ghost use Rattle.relay_net.specs.Relay.{IsAccept, IsSound, StopsUnless};
ghost use Rattle.relay_net.specs.declared.connection.Connection.{Connection as Conn};

use crate::connection::{Connection, release};
use crate::far::Far;
use crate::flow::{Reads, TASK, is_unmet, submit};
use crate::round::RelayError;
use crate::state::State;
use driver_core::{Done, MOST_GIVEN, Op, PollOp};
use handle_core::SharedFd;
use machine::{Outcome, Request};
use op_driver::OpDriver;
use ready_driver::{Direction, NonBlock, NonBlockError, Sockets};

/// What an accept that was polled came to.
pub enum Accepted {
    /// It waits on.
    Waits(Op),
    /// It made this handle.
    Made(SharedFd),
    /// It failed, with this error number.
    Failed(u16),
    /// It ended with what no accept ends with.
    Nothing,
    /// Memory ran out, and it waits on.
    OutOfMemory(Op),
}

/// What arrived at a listener.
#[derive(Clone, Copy)]
pub enum Arrival {
    /// Nothing.
    Nothing,
    /// A connection with this handle.
    Made(SharedFd),
    /// An accept failed, with this error number.
    Failed(u16),
    /// Memory ran out.
    OutOfMemory,
}

// What an accept that ended so came to.
fn accepted_of(outcome: Outcome) -> Accepted
    ensures { AcceptedAs outcome result }
{
    match outcome {
        Outcome::Made(h) => Accepted::Made(SharedFd::new(h)),
        Outcome::Fail(error) => Accepted::Failed(error),
        Outcome::Count(_) | Outcome::From(_, _) => Accepted::Nothing,
    }
}

// Polls the accept that waits.
fn poll_accept<I: Sockets>(driver: &mut Reads<I>, op: Op, listener: SharedFd) -> Accepted
    requires pending { IsPending (ops_in driver.old) op (IsAccept listener) }
    requires number { is_old driver.old.handling.table (I.view driver.old.handling.io).made ≡ false }
    ensures widens { Widens I.view I.tells driver.old driver.new }
    ensures accepted { AcceptedFor I.view driver.old driver.new listener result }
    ensures makes { IsTrue I.memory → IsAtHand I.view driver.old listener → IsMadeUnless result }
    ensures given { driver.new.given ≡ driver.old.given }
    ensures keyed { KeepsKeys I.view I.memory driver.old driver.new }
    ensures seen { KeepsSeen I.view I.memory driver.old driver.new }
{
    let _ = listener;
    match OpDriver::poll_op(driver, op, TASK) {
        Ok(PollOp::Pending(op)) => Accepted::Waits(op),
        Ok(PollOp::Ready(done)) => {
            let Done {
                outcome,
                request: _,
            } = done;
            accepted_of(outcome)
        }
        Err((_, op)) => Accepted::OutOfMemory(op),
    }
}

// The accept of this token waits, where none did.
fn hold(slot: &mut Option<Op>, op: Op)
    requires { slot.old ≡ None }
    ensures { slot.new ≡ Some op }
{
    match slot.replace(op) {
        Some(_) => unreachable!(),
        None => {}
    }
}

// Submits an accept, where none waits.
#[tactic(auto, using(crate::proofs::Keyed::keeps_none))]
pub(crate) fn begin_accept<I: NonBlock>(state: &mut State<I>) -> Result<(), RelayError>
    requires sound { IsSound state.old.room (ops_in state.old.driver) state.old.driver.handling.table state.old.listener state.old.accept
        state.old.open.items }
    requires counter { state.old.driver.given < MOST_GIVEN }
    ensures sound { IsSound state.new.room (ops_in state.new.driver) state.new.driver.handling.table state.new.listener state.new.accept
        state.new.open.items }
    ensures opening { (start : LegacyState I Buf) (was : List Conn)
        → Opening I.view I.tells start was state.old.driver state.old.open.items
        → Opening I.view I.tells start was state.new.driver state.new.open.items }
    ensures stops { StopsUnless (I.view state.old.driver.handling.io) (I.view state.new.driver.handling.io) result }
    ensures same { (state.new.listener ≡ state.old.listener) × (state.new.open ≡ state.old.open) }
    ensures asks { state.new.room ≡ state.old.room }
    ensures waits { OnOk result (IsSome state.new.accept) }
    ensures hand { OnOk result (IsTrue I.tells → (h : ℕ) → IsAtHand I.view state.old.driver h → IsAtHand I.view state.new.driver h) }
    ensures given { state.new.driver.given ≤ state.old.driver.given + 1 }
    ensures keyed { KeepsKeys I.view I.memory state.old.driver state.new.driver }
    ensures forwards { IsTrue I.memory → (start : LegacyState I Buf) (was : List Conn)
        → AreUntouched I.view start was state.old.driver state.old.open.items
        → AreUntouched I.view start was state.new.driver state.new.open.items }
{
    if state.accept.is_some() {
        return Ok(());
    }
    match submit(&mut state.driver, Request::Accept { fd: state.listener }) {
        Ok(op) => {
            hold(&mut state.accept, op);
            Ok(())
        }
        Err((why, _)) => Err(why),
    }
}

// Polls the accept that waits, if one does and its call can be made. Where the next handle's number can't be new, it isn't polled.
#[tactic(auto, using(crate::proofs::Keyed::keeps_none))]
pub(crate) fn arrive<I: Sockets>(state: &mut State<I>) -> Arrival
    requires sound { IsSound state.old.room (ops_in state.old.driver) state.old.driver.handling.table state.old.listener state.old.accept
        state.old.open.items }
    ensures sound { IsSound state.new.room (ops_in state.new.driver) state.new.driver.handling.table state.new.listener state.new.accept
        state.new.open.items }
    ensures opening { (start : LegacyState I Buf) (was : List Conn)
        → Opening I.view I.tells start was state.old.driver state.old.open.items
        → Opening I.view I.tells start was state.new.driver state.new.open.items }
    ensures arrives { ArrivesFor (I.view state.old.driver.handling.io) (I.view state.new.driver.handling.io)
        state.new.driver.handling.table state.new.listener state.new.open.items result }
    ensures makes { IsTrue I.memory → IsSome state.old.accept → IsAtHand I.view state.old.driver state.old.listener
        → ArrivesUnless result }
    ensures same { (state.new.listener ≡ state.old.listener) × (state.new.open ≡ state.old.open) }
    ensures asks { state.new.room ≡ state.old.room }
    ensures given { state.new.driver.given ≡ state.old.driver.given }
    ensures keyed { KeepsKeys I.view I.memory state.old.driver state.new.driver }
    ensures forwards { IsTrue I.memory → (start : LegacyState I Buf) (was : List Conn)
        → AreUntouched I.view start was state.old.driver state.old.open.items
        → AreUntouched I.view start was state.new.driver state.new.open.items }
{
    if is_unmet(&state.driver, state.listener, Direction::Read) {
        return Arrival::Nothing;
    }
    if !state.driver.has_number() {
        return Arrival::OutOfMemory;
    }
    match state.accept.take() {
        None => Arrival::Nothing,
        Some(op) => match poll_accept(&mut state.driver, op, state.listener) {
            Accepted::Waits(op) => {
                hold(&mut state.accept, op);
                Arrival::Nothing
            }
            Accepted::Made(fd) => Arrival::Made(fd),
            Accepted::Failed(error) => Arrival::Failed(error),
            Accepted::Nothing => Arrival::Nothing,
            Accepted::OutOfMemory(op) => {
                hold(&mut state.accept, op);
                Arrival::OutOfMemory
            }
        },
    }
}

// Why a round stops where there is no other end.
fn far_stop(why: NonBlockError) -> RelayError
    ensures { FarStops why result }
{
    match why {
        NonBlockError::Fault(_) => RelayError::Fault,
        NonBlockError::OutOfMemory => RelayError::OutOfMemory,
    }
}

// Opens a connection of a fresh handle. Where there is no other end the handle is released.
pub(crate) fn open_one<I: Sockets, F: Far<I>>(
    state: &mut State<I>,
    far: &mut F,
    near: SharedFd,
) -> Result<(), RelayError>
    requires sound { IsSound state.old.room (ops_in state.old.driver) state.old.driver.handling.table state.old.listener state.old.accept
        state.old.open.items }
    requires fresh { IsFresh state.old.driver.handling.table state.old.listener state.old.open.items near }
    ensures sound { IsSound state.new.room (ops_in state.new.driver) state.new.driver.handling.table state.new.listener state.new.accept
        state.new.open.items }
    ensures opening { (start : LegacyState I Buf) (was : List Conn)
        → Opening I.view I.tells start was state.old.driver state.old.open.items
        → Opening I.view I.tells start was state.new.driver state.new.open.items }
    ensures stops { StopsUnless (I.view state.old.driver.handling.io) (I.view state.new.driver.handling.io) result }
    ensures given { state.new.driver.given ≡ state.old.driver.given }
    ensures keyed { KeepsKeys I.view I.memory state.old.driver state.new.driver }
    ensures forwards { OnOk result (IsTrue I.memory → (start : LegacyState I Buf) (was : List Conn)
        → Opening I.view I.tells start was state.old.driver state.old.open.items
        → AreUntouched I.view start was state.old.driver state.old.open.items
        → AreUntouched I.view start was state.new.driver state.new.open.items) }
    ensures names { OnOk result (map near_of state.new.open.items ≡ map near_of state.old.open.items ++ near ∷ []) }
    ensures err { OnErr result (map near_of state.new.open.items ≡ map near_of state.old.open.items) }
    ensures first { OnOk result (IsFirst (ops_in state.new.driver) state.new.open.items near) }
    ensures same { state.new.listener ≡ state.old.listener }
    ensures asks { state.new.room ≡ state.old.room }
    ensures more { vec_len state.new.open ≤ vec_len state.old.open + 1 }
{
    if state.open.reserve(1).is_err() {
        release(&mut state.driver, near);
        return Err(RelayError::OutOfMemory);
    }
    match far.far(&mut state.driver, near) {
        Ok(far) => {
            state
                .open
                .push_reserved(Connection::new(near, far, state.room));
            Ok(())
        }
        Err(why) => {
            release(&mut state.driver, near);
            Err(far_stop(why))
        }
    }
}
