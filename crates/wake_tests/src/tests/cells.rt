// Rows over new cells: parks on one thread, and what ends a park on another one.
ghost use Rattle.std.specs.Prelude.{◌≡◌};

use crate::tests::parks::{Bench, Step, run};
use crate::tests::threads::{send_beside, send_twice, stop_at_gate, unpark_twice, wait_for_limit};
use crate::tests::why::{Why, ended};
use std::alloc::Global;
use std::marker::Brand;
use std::sync::Wait;
use std::sync::ledger::{Blank, Ledger};
use std::test::Fail;
use std::thread::Threads;
use std::time::Clock;
use wake_core::{MAX_SENDERS, PUSH_PARTS, SenderError, Sleeper, WakeCell};

// What is done with a new cell and its sleeper.
#[derive(Clone, Copy)]
enum Play {
    // These steps, on one thread.
    Steps(&'static [Step]),
    // Unparks end parks.
    Unparks,
    // Sends end parks.
    Sends,
    // A limit ends a park.
    Limit,
    // A sender that was stopped before it reads the flag ends a park.
    Stopped,
    // Senders send beside each other.
    Beside,
}

use Step::{AtOnce, Made, Park, Refused, Send as Sends, SendGated, Senders, Sent, Settle};

// The sleeper makes its first sender.
const SENDER: Step = Senders(1, 0);

// A row: its name, and what is done with a new cell.
type Row = (&'static str, Play);

#[rattlefmt::skip]
const ROWS: &[Row] = &[
    ("what was sent is drained or left", Play::Steps(
        &[SENDER, Sends(3), SendGated(4), Park(Some(1), false, &[(0, 0, 3), (0, 1, 4)]), Sends(5), Sent(3), Made(1),
          Settle(3, &[(0, 2, 5)])])),
    // A sleeper whose park ended, by its limit or since it was ready, drains what is sent then at its next park.
    ("a sleeper that parked parks again", Play::Steps(
        &[SENDER, Park(Some(1), false, &[]), Sends(10), Sends(11), Park(Some(1), false, &[(0, 0, 10), (0, 1, 11)]),
          Park(None, true, &[]), Sends(12), Park(Some(1), false, &[(0, 2, 12)])])),
    // The second park has no limit: one that waits runs into the time that a test has.
    ("a park that drained something doesn't wait", Play::Steps(
        &[SENDER, Sends(9), AtOnce(&[(0, 0, 9)]), Sends(10), Park(None, false, &[(0, 1, 10)])])),
    ("one sender more is too many", Play::Steps(
        &[Senders(MAX_SENDERS, MAX_SENDERS - 1), Refused(SenderError::TooMany), Made(MAX_SENDERS)])),
    ("an unpark ends a park", Play::Unparks),
    ("a send ends a park", Play::Sends),
    ("a limit ends a park", Play::Limit),
    ("a sender that was stopped before the flag ends a park", Play::Stopped),
    ("senders beside a sleeper lose and reorder nothing", Play::Beside),
];

// The steps of a row, on one thread.
fn on_one_thread<P: Ledger, D: Ledger, R: Wait + Clock>(
    rt: &R,
    alloc: Global,
    sleeper: Sleeper<P, D>,
    steps: &[Step],
) -> Result<(), (usize, Why)> {
    let mut bench = Bench {
        sleeper,
        sender: None,
        alloc,
    };
    run(rt, &mut bench, steps)
}

// A row that has no steps, as one with one step.
fn whole(row: Result<(), Why>) -> Result<(), (usize, Why)> {
    match row {
        Ok(()) => Ok(()),
        Err(why) => Err((0, why)),
    }
}

// Plays with a cell and its sleeper.
fn played<P, D, R>(
    rt: &R,
    alloc: Global,
    cell: &WakeCell<P, D>,
    sleeper: Sleeper<P, D>,
    play: Play,
) -> Result<(), (usize, Why)>
where
    P: Ledger + Send + Sync,
    D: Ledger + Send + Sync,
    R: Threads + Wait + Clock + Sync,
{
    let mut sleeper = sleeper;
    match play {
        Play::Steps(steps) => on_one_thread(rt, alloc, sleeper, steps),
        Play::Unparks => whole(unpark_twice(rt, alloc, cell, &mut sleeper)),
        Play::Sends => whole(send_twice(rt, cell, &mut sleeper)),
        Play::Limit => whole(wait_for_limit(rt, cell, &mut sleeper)),
        Play::Stopped => whole(stop_at_gate(rt, cell, &mut sleeper)),
        Play::Beside => whole(send_beside(rt, alloc, &mut sleeper)),
    }
}

// Plays with a new cell and its sleeper.
fn play_new<P, D, R>(
    rt: &R,
    alloc: Global,
    pushes: Blank,
    drains: Blank,
    play: Play,
) -> Result<(), (usize, Why)>
where
    P: Ledger + Send + Sync,
    D: Ledger + Send + Sync,
    R: Threads + Wait + Clock + Sync,
    requires pushes { (pushes.name ≡ P.name) × (pushes.parts ≡ P.parts) × (pushes.parts ≡ PUSH_PARTS) }
    requires drains { (drains.name ≡ D.name) × (drains.parts ≡ D.parts) × (drains.parts ≡ 1) }
{
    match WakeCell::<P, D>::new(alloc, pushes, drains) {
        Ok((cell, sleeper)) => played(rt, alloc, &cell, sleeper, play),
        Err(_) => Err((0, Why::OutOfMemory)),
    }
}

// One row.
fn row<R: Threads + Wait + Clock + Sync>(
    rt: &R,
    alloc: Global,
    play: Play,
) -> Result<(), (usize, Why)> {
    play_new::<Brand, Brand, R>(rt, alloc, Blank::new(PUSH_PARTS), Blank::new(1), play)
}

#[test]
fn parks_drain_and_end(rt: HostRuntime) -> Result<(), Fail> {
    for &(name, play) in ROWS {
        ended(&rt, name, row(&rt, rt.alloc(), play));
    }
    Ok(())
}
