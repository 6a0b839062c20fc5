// The server beside the threads that end it.
use crate::echo::{Counts, Echo, Limits};
use anyhow::Result;
use handle_core::SharedFd;
use ready_driver::{LegacyDriver, Sockets};
use rent_buf::Rent;
use std::alloc::Global;
use std::sync::Wait;
use std::sync::ledger::Ledger;
use std::time::{Clock, Instant};
use wake_core::{Parks, Sleeper};

/// What is done beside the threads: the server serves, until each of them has sent a number.
#[derive(Drop)]
pub struct Serves<'a, I: Sockets, R> {
    rt: &'a R,
    alloc: Global,
    driver: LegacyDriver<I, Rent>,
    listener: SharedFd,
    limits: Limits,
    threads: u64,
}

impl<'a, I: Sockets, R> Serves<'a, I, R> {
    /// A server over a driver and a handle that listens, beside so many threads.
    pub fn over(
        rt: &'a R,
        alloc: Global,
        driver: LegacyDriver<I, Rent>,
        listener: SharedFd,
        limits: Limits,
        threads: u64,
    ) -> Serves<'a, I, R> {
        Serves {
            rt,
            alloc,
            driver,
            listener,
            limits,
            threads,
        }
    }
}

impl<'a, I: Sockets + Drop, R: Wait + Clock> Parks for Serves<'a, I, R> {
    type Out = Result<Counts>;

    // Nothing is known of it.
    ghost gives = { λ work made out. Unit {0} };

    fn park<P: Ledger, D: Ledger>(self, sleeper: Sleeper<P, D>) -> Result<Counts> {
        let Serves {
            rt,
            alloc,
            driver,
            listener,
            limits,
            threads,
        } = self;
        let mut sleeper = sleeper;
        let mut echo = Echo::over(alloc, driver, listener, limits, threads);
        let served = serve(rt, &mut sleeper, &mut echo);
        let counts = echo.end();
        served?;
        Ok(counts)
    }
}

// Makes rounds until the server ends.
fn serve<I: Sockets, P: Ledger, D: Ledger, R: Wait + Clock>(
    rt: &R,
    sleeper: &mut Sleeper<P, D>,
    echo: &mut Echo<I>,
) -> Result<()> {
    let start = Instant::now(rt)?;
    for _ in 0..u64::MAX {
        let now = u64::try_from(start.elapsed(rt)?.as_millis()).unwrap_or(u64::MAX);
        if !echo.step(rt, sleeper, now)? {
            break;
        }
    }
    Ok(())
}
