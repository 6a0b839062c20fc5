//! A run of a server: turns, one after another, that wait for sockets.
use crate::net_job::{Ended, NetEnd};
use crate::serve::Serve;
use crate::server::{Server, Turn};
use ready_driver::Sockets;
use rent_buf::OutOfMemory;
use std::alloc::Global;
use std::sync::Wait;
use std::sync::ledger::Ledger;
use std::time::Clock;
use wake_core::{Sleeper, WakeCell, Work, with_sleeper};

/// What is done behind each turn of a run. (not in monoio)
pub trait Watch<S: Serve> {
    /// Sees how many connections are open behind a turn, and what it did: whether the run goes on. To listen or dial, a run is ended and
    /// begun again: nothing is lost between two.
    fn watch(&mut self, open: usize, turn: Turn<S>) -> bool;
}

// A run: a server, what watches it, and how long a turn waits.
#[derive(Drop)]
struct Running<'a, R, I: Sockets, S: Serve, W: Watch<S>> {
    rt: &'a R,
    server: &'a mut Server<I, S>,
    watch: &'a mut W,
    millis: u64,
}

impl<'a, R: Wait + Clock, I: Sockets, S: Serve, W: Watch<S>> Work for Running<'a, R, I, S, W> {
    type Out = ();

    // Nothing is known of it.
    ghost gives = { λ work out. Unit {0} };

    fn run<P: Ledger + Send + Sync, D: Ledger + Send + Sync>(
        self,
        _cell: WakeCell<P, D>,
        sleeper: Sleeper<P, D>,
    ) {
        let Running {
            rt,
            server,
            watch,
            millis,
        } = self;
        let mut sleeper = sleeper;
        for _ in 0..u64::MAX {
            let turn = server.park(rt, &mut sleeper, millis);
            if !watch.watch(server.connections(), turn) {
                break;
            }
        }
    }
}

/// Makes turns of a server that wait so many milliseconds at most, until its watch says that the run is over. `OutOfMemory` comes before
/// the first turn alone.
pub fn run<R: Wait + Clock, I: Sockets, S: Serve, W: Watch<S>>(
    rt: &R,
    alloc: Global,
    server: &mut Server<I, S>,
    watch: &mut W,
    millis: u64,
) -> Result<(), OutOfMemory> {
    let running = Running {
        rt,
        server,
        watch,
        millis,
    };
    match with_sleeper(alloc, running) {
        Ok(()) => Ok(()),
        Err(_) => Err(OutOfMemory),
    }
}

// The connection that is waited for, and what it ended with.
#[derive(Drop)]
struct Awaited<S> {
    task: u64,
    ended: Option<Ended<S>>,
}

impl<S: Serve> Watch<S> for Awaited<S> {
    fn watch(&mut self, open: usize, turn: Turn<S>) -> bool {
        for (task, end) in turn.ended {
            match end {
                NetEnd::Ended(ended) if task == self.task => self.ended = Some(ended),
                _ => {}
            }
        }
        self.ended.is_none() && open > 0
    }
}

/// Makes turns of a server that wait so many milliseconds at most, until the connection of a task has ended: its state and its fault, as a
/// client wants them that dialled. `None` comes where no connection is open any more and this one wasn't among those that ended. What ends
/// meanwhile of others is dropped.
pub fn wait_for<R: Wait + Clock, I: Sockets, S: Serve>(
    rt: &R,
    alloc: Global,
    server: &mut Server<I, S>,
    task: u64,
    millis: u64,
) -> Result<Option<Ended<S>>, OutOfMemory> {
    let mut awaited = Awaited { task, ended: None };
    run(rt, alloc, server, &mut awaited, millis)?;
    Ok(awaited.ended)
}
