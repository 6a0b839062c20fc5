//! The run: it listens, makes the relay and its rounds, and counts the connections that were closed.
ghost use Rattle.std.specs.Prelude.{◌≡◌, ◌≤◌, ◌+◌, ◌*◌, true, IfOk, IfErr};
ghost use Rattle.rent_buf.specs.Counts.{Rose};
ghost use Rattle.wake_core.specs.declared.state.TheConstants.{PUSH_PARTS};
ghost use Rattle.ready_driver.specs.Io.{IoView};
ghost use Rattle.ready_driver.specs.Registry.{is_users};
ghost use Rattle.relay_net.specs.Keeping.{StopsFor};
ghost use Rattle.relay_run.specs.declared.plan.TheConstants.{MOST_LIMIT, MOST_RELAY_ROUNDS};
ghost use Rattle.relay_run.specs.Relaying.{ClosesNone, HasListened, IsEmptyWorld, ListensFor, MakesRounds, OpensEach, RunsOver};
ghost use Rattle.relay_run.specs.Relaying.{ended_by, refused_by};

use crate::lent::{Lent, NetPlaces, give_back, lend};
use crate::plan::{MOST_LIMIT, MOST_RELAY_ROUNDS, Plan};
use driver_core::MOST_GIVEN;
use handle_core::SharedFd;
use ready_driver::{LegacyDriver, NonBlockError, Sockets};
use relay_net::{Far, Mirror, PortFar, Relay, RelayError};
use rent_buf::Buf;
use std::alloc::Global;
use std::marker::Brand;
use std::sync::Wait;
use std::sync::ledger::{Blank, Ledger};
use std::time::Clock;
use wake_core::{PUSH_PARTS, Sleeper, WakeCell};

// How many milliseconds a round waits at most.
const MILLIS: u64 = 1;

/// How a run of a relay ended. (not in monoio)
#[derive(Clone, Copy, Debug, PartialEq, Eq)]
pub enum Relayed {
    /// All rounds were made, and they closed so many connections.
    Closed(u64),
    /// The object failed where it was to listen, or in a round: its count of faults rose.
    Fault,
    /// Memory ran out, or no number was left for a handle.
    OutOfMemory,
}

// An object, and how the run over it ended.
struct Over<I> {
    net: I,
    relayed: Relayed,
}

/// Listens with an object on the port of a plan, makes its rounds, each of which waits a millisecond at most, and counts the connections
/// that they closed. What is open then is released. (not in monoio)
pub fn relay_all<R: Wait + Clock, N: Sockets>(
    rt: &R,
    alloc: Global,
    plan: Plan,
    net: &mut N,
) -> Relayed
    requires limit { plan.limit ≤ MOST_LIMIT }
    requires rounds { plan.rounds ≤ MOST_RELAY_ROUNDS }
    ensures fault { result ≡ Relayed.Fault → Rose (N.view net.old).faults (N.view net.new).faults }
    ensures order { (N.view net.old).faults ≤ (N.view net.new).faults }
    ensures listens { ListensFor result (N.view net.old).made (N.view net.new).made }
    ensures none { ClosesNone plan.rounds result }
    ensures opens { IsEmptyWorld N.memory (N.view net.old) →
        OpensEach result plan.limit plan.rounds ((N.view net.old).made + 1) (N.view net.new).made }
{
    let over = relay_at::<R, N, Brand>(rt, alloc, plan, net);
    let Over { net: _, relayed } = over;
    relayed
}

// The same with an object whose borrow has the name of the type.
fn relay_at<'a, R: Wait + Clock, N: Sockets, P: NetPlaces>(
    rt: &R,
    alloc: Global,
    plan: Plan,
    net: &'a mut N,
) -> Over<&'a mut N>
    requires limit { plan.limit ≤ MOST_LIMIT }
    requires rounds { plan.rounds ≤ MOST_RELAY_ROUNDS }
    requires net { net.ghost_name ≡ P.net }
    ensures same { result.net.ghost_name ≡ P.net }
    ensures runs { RunsOver N.memory plan.limit plan.rounds (N.view net.old) (N.view result.net.now) result.relayed }
{
    let lent: Lent<'a, N, P> = lend(net);
    let Over { net, relayed } = run_over(rt, alloc, plan, lent);
    Over {
        net: give_back(net),
        relayed,
    }
}

// A run over an object, with a sleeper of its own.
fn run_over<R: Wait + Clock, I: Sockets>(rt: &R, alloc: Global, plan: Plan, net: I) -> Over<I>
    requires limit { plan.limit ≤ MOST_LIMIT }
    requires rounds { plan.rounds ≤ MOST_RELAY_ROUNDS }
    ensures runs { RunsOver I.memory plan.limit plan.rounds (I.view net) (I.view result.net) result.relayed }
{
    let pushes = Blank::new(PUSH_PARTS);
    let drains = Blank::new(1);
    run_counted::<R, I, Brand, Brand>(rt, alloc, plan, net, pushes, drains)
}

// The same, with a sleeper over these ledgers.
fn run_counted<R: Wait + Clock, I: Sockets, P: Ledger + Send + Sync, D: Ledger + Send + Sync>(
    rt: &R,
    alloc: Global,
    plan: Plan,
    net: I,
    pushes: Blank,
    drains: Blank,
) -> Over<I>
    requires limit { plan.limit ≤ MOST_LIMIT }
    requires rounds { plan.rounds ≤ MOST_RELAY_ROUNDS }
    requires pushes { (pushes.name ≡ P.name) × (pushes.parts ≡ P.parts) × (pushes.parts ≡ PUSH_PARTS) }
    requires drains { (drains.name ≡ D.name) × (drains.parts ≡ D.parts) × (drains.parts ≡ 1) }
    ensures runs { RunsOver I.memory plan.limit plan.rounds (I.view net) (I.view result.net) result.relayed }
{
    let Ok((_cell, sleeper)) = WakeCell::<P, D>::new(alloc, pushes, drains) else {
        return Over {
            net,
            relayed: Relayed::OutOfMemory,
        };
    };
    let mut sleeper = sleeper;
    listen(rt, alloc, plan, net, &mut sleeper)
}

// Listens, where a number is left for a handle, and makes the rounds.
fn listen<R: Wait + Clock, I: Sockets, P: Ledger, D: Ledger>(
    rt: &R,
    alloc: Global,
    plan: Plan,
    net: I,
    sleeper: &mut Sleeper<P, D>,
) -> Over<I>
    requires limit { plan.limit ≤ MOST_LIMIT }
    requires rounds { plan.rounds ≤ MOST_RELAY_ROUNDS }
    ensures runs { RunsOver I.memory plan.limit plan.rounds (I.view net) (I.view result.net) result.relayed }
{
    let mut driver: LegacyDriver<I, Buf> = LegacyDriver::over(alloc, net);
    if !driver.has_number() {
        return Over {
            net: driver.into_io(),
            relayed: Relayed::OutOfMemory,
        };
    }
    let listener = match driver.listen(plan.port) {
        Ok(listener) => listener,
        Err(why) => {
            return Over {
                net: driver.into_io(),
                relayed: refused(why),
            };
        }
    };
    match plan.to {
        None => relay(rt, alloc, plan, driver, listener, Mirror, sleeper),
        Some(to) => relay(rt, alloc, plan, driver, listener, PortFar::new(to), sleeper),
    }
}

// How a run ended whose object doesn't listen.
fn refused(why: NonBlockError) -> Relayed
    ensures { result ≡ refused_by why }
{
    match why {
        NonBlockError::Fault(_) => Relayed::Fault,
        NonBlockError::OutOfMemory => Relayed::OutOfMemory,
    }
}

// Makes the relay, and its rounds.
fn relay<R: Wait + Clock, I: Sockets, F: Far<I>, P: Ledger, D: Ledger>(
    rt: &R,
    alloc: Global,
    plan: Plan,
    driver: LegacyDriver<I, Buf>,
    listener: SharedFd,
    far: F,
    sleeper: &mut Sleeper<P, D>,
) -> Over<I>
    requires limit { plan.limit ≤ MOST_LIMIT }
    requires rounds { plan.rounds ≤ MOST_RELAY_ROUNDS }
    requires held { is_users driver.handling.table listener ≡ true }
    requires given { driver.given ≡ 0 }
    ensures runs { (before : IoView) → HasListened I.view I.memory before driver.handling listener →
        RunsOver I.memory plan.limit plan.rounds before (I.view result.net) result.relayed }
{
    let mut relay = match Relay::new(alloc, driver, listener, plan.limit, far) {
        Ok(relay) => relay,
        Err((_, driver)) => {
            return Over {
                net: driver.into_io(),
                relayed: Relayed::OutOfMemory,
            };
        }
    };
    let made = make_rounds(rt, &mut relay, sleeper, plan.rounds);
    Over {
        net: relay.into_io(),
        relayed: ended(made),
    }
}

// How a run ended whose rounds came to this.
fn ended(made: Result<u64, RelayError>) -> Relayed
    ensures { result ≡ ended_by made }
{
    match made {
        Ok(closed) => Relayed::Closed(closed),
        Err(RelayError::Fault) => Relayed::Fault,
        Err(RelayError::OutOfMemory) => Relayed::OutOfMemory,
    }
}

/// Makes rounds of a relay, each of which waits a millisecond at most: how many connections they closed, as far as a `u64` counts. The
/// first round that stops ends them. (not in monoio)
pub fn make_rounds<R: Wait + Clock, I: Sockets, F: Far<I>, P: Ledger, D: Ledger>(
    rt: &R,
    relay: &mut Relay<I, F>,
    sleeper: &mut Sleeper<P, D>,
    rounds: u32,
) -> Result<u64, RelayError>
    requires counter { relay.old.driver.given + 129 * rounds ≤ MOST_GIVEN }
    ensures made { IfOk result (λ closed. MakesRounds I.view I.tells I.memory relay.old rounds closed relay.new) }
    ensures stops { IfErr result (StopsFor (I.view relay.old.driver.handling.io) (I.view relay.new.driver.handling.io)) }
    ensures order { (I.view relay.old.driver.handling.io).faults ≤ (I.view relay.new.driver.handling.io).faults }
{
    let mut closed: u64 = 0;
    for _made in 0..rounds {
        match relay.round(rt, sleeper, Some(MILLIS)) {
            Ok(round) => closed = closed.saturating_add(round.closed.len() as u64),
            Err((why, _)) => return Err(why),
        }
    }
    Ok(closed)
}
