//! A copy from one handle to another until its end, which waits in the driver.
ghost use Rattle.std.specs.Prelude.{IfOk};
ghost use Rattle.ready_driver.specs.LegacyState.{ops_in};
ghost use Rattle.driver_core.specs.Ops.{Ops};
ghost use Rattle.rent_buf.specs.Rent.{Rented};
ghost use Rattle.net_copy.specs.Run.{FitsBoth};

use crate::round::{Round, copy_round, send};
use driver_core::{Driver as _, SubmitFault};
use handle_core::SharedFd;
use net_stream::{Connection, Progress};
use ready_driver::{LegacyDriver, NonBlock};
use rent_buf::{IoFault, OutOfMemory, Rent};
use rent_io::{AsyncWriteRent as _, PollCount, Step};
use std::alloc::Global;
use std::sync::Wait;
use std::sync::ledger::Ledger;
use std::time::Clock;
use stream_util::Copy;
use thiserror::Error;
use wake_core::{Sleeper, WakeCell, Work, with_sleeper};

// The task of the copy.
const TASK: u64 = 0;

// How many turns a copy makes in a round.
const TURNS: u64 = 16;

/// Why a copy between handles stopped before its end. (not in monoio)
#[derive(Clone, Copy, Debug, PartialEq, Eq, Error)]
pub enum CopyFault {
    /// A receive or a send failed so.
    #[error("{0}")]
    Io(IoFault),
    /// The driver refused an operation so.
    #[error("{0}")]
    Refused(SubmitFault),
    /// The driver's user doesn't hold a handle, or the driver has submitted `MOST_GIVEN` operations.
    #[error("the handle isn't held, or no operation is left")]
    NotHeld,
    /// Memory ran out before the copy began: nothing was read.
    #[error("OutOfMemory")]
    OutOfMemory,
}

// The two connections of a copy.
pub(crate) struct Both {
    pub(crate) from: Connection,
    pub(crate) to: Connection,
}

// What a call of a connection came to: whether it moved something.
fn moved(call: Option<Result<Progress, SubmitFault>>) -> Result<bool, CopyFault> {
    match call {
        Some(Ok(Progress::Moved)) => Ok(true),
        Some(Ok(_)) => Ok(false),
        Some(Err(why)) => Err(CopyFault::Refused(why)),
        None => Err(CopyFault::NotHeld),
    }
}

// Whether a receive or a send moved something.
fn any_moved(
    received: Option<Result<Progress, SubmitFault>>,
    sent: Option<Result<Progress, SubmitFault>>,
) -> Result<bool, CopyFault> {
    let came = moved(received)?;
    let went = moved(sent)?;
    Ok(came || went)
}

// Waits in the driver until it reports something.
#[tactic(auto, using(crate::proofs::Parks::parked_fits))]
fn park<R: Wait + Clock, I: NonBlock, P: Ledger, D: Ledger>(
    rt: &R,
    driver: &mut LegacyDriver<I, Rent>,
    sleeper: &mut Sleeper<P, D>,
    both: &Both,
)
    requires fits { FitsBoth (ops_in driver.old) both.now.from both.now.to }
    ensures fits { FitsBoth (ops_in driver.new) both.now.from both.now.to }
{
    let _ = (both.from.fd, both.to.fd);
    let _ = driver.park(rt, sleeper);
}

// One round of both.
fn round<I: NonBlock>(driver: &mut LegacyDriver<I, Rent>, both: &mut Both, copy: Copy) -> Round
    requires fits { FitsBoth (ops_in driver.old) both.old.from both.old.to }
    ensures fits { FitsBoth (ops_in driver.new) both.new.from both.new.to }
{
    copy_round(driver, &mut both.from, &mut both.to, copy, TASK, TURNS)
}

// A send of the second: whether it moved something.
fn send_on<I: NonBlock>(
    driver: &mut LegacyDriver<I, Rent>,
    both: &mut Both,
) -> Result<bool, CopyFault>
    requires fits { FitsBoth (ops_in driver.old) both.old.from both.old.to }
    ensures fits { FitsBoth (ops_in driver.new) both.new.from both.new.to }
{
    let sent = send(driver, &mut both.to, TASK);
    moved(sent)
}

// Waits in the driver, unless something moved.
fn park_if<R: Wait + Clock, I: NonBlock, P: Ledger, D: Ledger>(
    rt: &R,
    driver: &mut LegacyDriver<I, Rent>,
    sleeper: &mut Sleeper<P, D>,
    both: &Both,
    went: bool,
)
    requires fits { FitsBoth (ops_in driver.old) both.now.from both.now.to }
    ensures fits { FitsBoth (ops_in driver.new) both.now.from both.now.to }
{
    if !went {
        park(rt, driver, sleeper, both);
    }
}

// One round: the copy, or how it ended.
fn step<R: Wait + Clock, I: NonBlock, P: Ledger, D: Ledger>(
    rt: &R,
    driver: &mut LegacyDriver<I, Rent>,
    sleeper: &mut Sleeper<P, D>,
    both: &mut Both,
    copy: Copy,
) -> Result<Copy, Result<u64, CopyFault>>
    requires fits { FitsBoth (ops_in driver.old) both.old.from both.old.to }
    ensures fits { FitsBoth (ops_in driver.new) both.new.from both.new.to }
{
    let Round {
        received,
        copied,
        sent,
    } = round(driver, both, copy);
    let went = match any_moved(received, sent) {
        Ok(went) => went,
        Err(fault) => return Err(Err(fault)),
    };
    match copied {
        Step::Again(copy) => Ok(copy),
        Step::Pending(copy) => {
            park_if(rt, driver, sleeper, both, went);
            Ok(copy)
        }
        Step::Ready(copied) => match copied.result {
            Ok(count) => Err(Ok(count)),
            Err(fault) => Err(Err(CopyFault::Io(fault))),
        },
    }
}

// Rounds until the copy has ended.
fn copy_rounds<R: Wait + Clock, I: NonBlock, P: Ledger, D: Ledger>(
    rt: &R,
    driver: &mut LegacyDriver<I, Rent>,
    sleeper: &mut Sleeper<P, D>,
    both: &mut Both,
    copy: Copy,
) -> Result<u64, CopyFault>
    requires fits { FitsBoth (ops_in driver.old) both.old.from both.old.to }
    ensures fits { FitsBoth (ops_in driver.new) both.new.from both.new.to }
{
    let mut copy = copy;
    for _ in rt.forever() {
        match step(rt, driver, sleeper, both, copy) {
            Ok(next) => copy = next,
            Err(end) => return end,
        }
    }
    unreachable!()
}

// Whether all of the second's bytes are sent.
#[tactic(auto, using(crate::proofs::Parks::outbox_fits))]
fn flushed(both: &mut Both) -> Result<bool, CopyFault>
    ensures fits { (ops : Ops Rented) → FitsBoth ops both.old.from both.old.to → FitsBoth ops both.new.from both.new.to }
{
    match both.to.outbox.poll_flush(TASK) {
        PollCount::Ready(Ok(_)) => Ok(true),
        PollCount::Ready(Err(fault)) => Err(CopyFault::Io(fault)),
        PollCount::Pending | PollCount::Again => Ok(false),
    }
}

// One step of the flush: whether all is sent.
fn flush_step<R: Wait + Clock, I: NonBlock, P: Ledger, D: Ledger>(
    rt: &R,
    driver: &mut LegacyDriver<I, Rent>,
    sleeper: &mut Sleeper<P, D>,
    both: &mut Both,
) -> Result<bool, CopyFault>
    requires fits { FitsBoth (ops_in driver.old) both.old.from both.old.to }
    ensures fits { FitsBoth (ops_in driver.new) both.new.from both.new.to }
{
    match flushed(both) {
        Ok(false) => {}
        end => return end,
    }
    let went = send_on(driver, both)?;
    park_if(rt, driver, sleeper, both, went);
    Ok(false)
}

// Sends until all is sent.
fn flush<R: Wait + Clock, I: NonBlock, P: Ledger, D: Ledger>(
    rt: &R,
    driver: &mut LegacyDriver<I, Rent>,
    sleeper: &mut Sleeper<P, D>,
    both: &mut Both,
) -> Result<(), CopyFault>
    requires fits { FitsBoth (ops_in driver.old) both.old.from both.old.to }
    ensures fits { FitsBoth (ops_in driver.new) both.new.from both.new.to }
{
    for _ in rt.forever() {
        if flush_step(rt, driver, sleeper, both)? {
            return Ok(());
        }
    }
    unreachable!()
}

// Copies, and sends all.
fn copy_all<R: Wait + Clock, I: NonBlock, P: Ledger, D: Ledger>(
    rt: &R,
    driver: &mut LegacyDriver<I, Rent>,
    sleeper: &mut Sleeper<P, D>,
    both: &mut Both,
    copy: Copy,
) -> Result<u64, CopyFault>
    requires fits { FitsBoth (ops_in driver.old) both.old.from both.old.to }
    ensures fits { FitsBoth (ops_in driver.new) both.new.from both.new.to }
{
    let count = copy_rounds(rt, driver, sleeper, both, copy)?;
    flush(rt, driver, sleeper, both)?;
    Ok(count)
}

// The connections of two handles. They wait for nothing.
fn connect<I: NonBlock>(
    alloc: Global,
    driver: &mut LegacyDriver<I, Rent>,
    from: SharedFd,
    to: SharedFd,
    room: usize,
) -> Result<Both, OutOfMemory>
    ensures fits { IfOk result (λ both. FitsBoth (ops_in driver.new) both.from both.to) }
{
    let from = Connection::new(alloc, from, room)?;
    match Connection::new(alloc, to, room) {
        Ok(to) => Ok(Both { from, to }),
        Err(why) => {
            from.end(driver);
            Err(why)
        }
    }
}

// Both end: what waits is dropped.
#[tactic(auto, using(net_stream::proofs::Frames::ended_fits))]
fn end<I: NonBlock>(driver: &mut LegacyDriver<I, Rent>, both: Both)
    requires fits { FitsBoth (ops_in driver.old) both.from both.to }
{
    let Both { from, to } = both;
    from.end(driver);
    to.end(driver);
}

// Copies between two handles.
fn copy_between<R: Wait + Clock, I: NonBlock, P: Ledger, D: Ledger>(
    rt: &R,
    driver: &mut LegacyDriver<I, Rent>,
    sleeper: &mut Sleeper<P, D>,
    alloc: Global,
    fds: (SharedFd, SharedFd),
    room: usize,
) -> Result<u64, CopyFault> {
    let Ok(copy) = Copy::new(alloc) else {
        return Err(CopyFault::OutOfMemory);
    };
    let Ok(mut both) = connect(alloc, driver, fds.0, fds.1, room) else {
        return Err(CopyFault::OutOfMemory);
    };
    let ended = copy_all(rt, driver, sleeper, &mut both, copy);
    end(driver, both);
    ended
}

// A copy that is to be made.
#[derive(Drop)]
struct Running<'a, R, I: NonBlock> {
    rt: &'a R,
    driver: &'a mut LegacyDriver<I, Rent>,
    alloc: Global,
    fds: (SharedFd, SharedFd),
    room: usize,
}

impl<'a, R: Wait + Clock, I: NonBlock> Work for Running<'a, R, I> {
    type Out = Result<u64, CopyFault>;

    // Nothing is known of it.
    ghost gives = { λ work out. Unit {0} };

    fn run<P: Ledger + Send + Sync, D: Ledger + Send + Sync>(
        self,
        _cell: WakeCell<P, D>,
        sleeper: Sleeper<P, D>,
    ) -> Result<u64, CopyFault> {
        let Running {
            rt,
            driver,
            alloc,
            fds,
            room,
        } = self;
        let mut sleeper = sleeper;
        copy_between(rt, driver, &mut sleeper, alloc, fds, room)
    }
}

/// Copies from a handle to another until the end of the first, with buffers of so many bytes, and sends all: how many bytes it copied, or
/// why it stopped. It waits in the driver. Its user holds both handles, and holds them still: nothing else is asked of it. Bytes that came
/// and weren't sent when it stopped are lost. Other tasks that turns of the driver name meanwhile are passed over, and nobody is told of
/// them: a program that has other operations in the driver makes rounds of `copy_round` between its own turns. (monoio: `copy`)
pub fn copy<R: Wait + Clock, I: NonBlock>(
    rt: &R,
    alloc: Global,
    driver: &mut LegacyDriver<I, Rent>,
    from: SharedFd,
    to: SharedFd,
    room: usize,
) -> Result<u64, CopyFault> {
    let running = Running {
        rt,
        driver,
        alloc,
        fds: (from, to),
        room,
    };
    match with_sleeper(alloc, running) {
        Ok(ended) => ended,
        Err(_) => Err(CopyFault::OutOfMemory),
    }
}
