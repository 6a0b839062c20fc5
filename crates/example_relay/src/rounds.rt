// Rounds of a relay, until so many connections have ended.
use anyhow::{Result, bail};
use driver_core::MOST_GIVEN;
use handle_core::SharedFd;
use ready_driver::{LegacyDriver, NonBlockError, Sockets};
use relay_net::{Far, Relay, Round};
use rent_buf::Buf;
use std::alloc::Global;
use std::sync::Wait;
use std::sync::ledger::Ledger;
use std::time::Clock;
use wake_core::{Sleeper, WakeCell, Work, with_sleeper};

// How many connections may be open.
const MOST: u32 = 64;

// How many bytes a receive asks for. A round moves as many in each direction at most, so more of them are fewer rounds.
const PIECE: usize = 65_536;

// The error of a port that is taken. (Linux: `EADDRINUSE`)
const TAKEN: u16 = 98;

/// How many connections were closed, and how many failed.
#[derive(Clone, Copy)]
pub struct Ended {
    pub closed: usize,
    pub failed: usize,
}

/// A relay that accepts at a handle, and whose other ends are these.
pub fn over<I: Sockets, F: Far<I>>(
    alloc: Global,
    driver: LegacyDriver<I, Buf>,
    listener: SharedFd,
    far: F,
) -> Result<Relay<I, F>> {
    if !driver.user_holds(listener.number()) {
        bail!("the listener isn't held");
    }
    match Relay::with_room(alloc, driver, listener, MOST, PIECE, far) {
        Ok(relay) => Ok(relay),
        Err((why, _driver)) => Err(why.into()),
    }
}

/// A relay that listens on a port, and whose other ends are these.
pub fn listen<I: Sockets, F: Far<I>>(
    alloc: Global,
    mut driver: LegacyDriver<I, Buf>,
    port: u16,
    far: F,
) -> Result<Relay<I, F>> {
    match driver.listen(port) {
        Ok(listener) => over(alloc, driver, listener, far),
        Err(NonBlockError::Fault(TAKEN)) => bail!("port {} is taken", port),
        Err(why) => bail!("port {}: {}", port, why),
    }
}

// How many connections a round closed, and how many it lost.
fn count_of(round: &Round) -> Ended {
    Ended {
        closed: round.closed.len(),
        failed: round.failed.len(),
    }
}

// A round that waits a second at most: what it ended, also where it stopped. None where the driver has no operations left for it.
fn make_round<R: Wait + Clock, I: Sockets, F: Far<I>, P: Ledger, D: Ledger>(
    rt: &R,
    relay: &mut Relay<I, F>,
    sleeper: &mut Sleeper<P, D>,
) -> Option<Ended> {
    if relay.driver().given() > MOST_GIVEN - 129 {
        return None;
    }
    match relay.round(rt, sleeper, Some(1000)) {
        Ok(round) => Some(count_of(&round)),
        Err((_, round)) => Some(count_of(&round)),
    }
}

// A relay, and how many connections are to end.
#[derive(Drop)]
struct Rounds<'a, R, I: Sockets, F: Far<I>> {
    rt: &'a R,
    relay: &'a mut Relay<I, F>,
    count: usize,
}

impl<'a, R: Wait + Clock, I: Sockets, F: Far<I>> Work for Rounds<'a, R, I, F> {
    type Out = Ended;

    // Nothing is known of it.
    ghost gives = { λ work out. Unit {0} };

    fn run<P: Ledger + Send + Sync, D: Ledger + Send + Sync>(
        self,
        _cell: WakeCell<P, D>,
        sleeper: Sleeper<P, D>,
    ) -> Ended {
        let Rounds { rt, relay, count } = self;
        let mut sleeper = sleeper;
        let (mut closed, mut failed) = (0usize, 0usize);
        for _ in 0..u64::MAX {
            if closed.saturating_add(failed) >= count {
                break;
            }
            let Some(ended) = make_round(rt, relay, &mut sleeper) else {
                break;
            };
            closed = closed.saturating_add(ended.closed);
            failed = failed.saturating_add(ended.failed);
        }
        Ended { closed, failed }
    }
}

/// Makes rounds until so many connections have ended.
pub fn serve<R: Wait + Clock, I: Sockets, F: Far<I>>(
    rt: &R,
    alloc: Global,
    relay: &mut Relay<I, F>,
    count: usize,
) -> Result<Ended> {
    let rounds = Rounds { rt, relay, count };
    Ok(with_sleeper(alloc, rounds)?)
}
