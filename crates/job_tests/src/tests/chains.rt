// Jobs over handles in memory: what they are done with, and when.
ghost use Rattle.std.specs.Prelude.{◌≡◌, ◌<◌, ◌^◌};
ghost use Rattle.core_exec.specs.Exec.{IsSound, Stands, spawned_of};
ghost use Rattle.op_job.specs.OpJob.{ApartOps, FitsOps, HasNoOp, cancels_of, polls_of};
ghost use Rattle.op_job.specs.Runs.{SaysAny};
ghost use Rattle.ready_driver.specs.LegacyState.{ops_in};

use core_exec::Exec;
use machine::{CANCELED, HandleKind, MOST_HANDLES, Outcome, Request, SharedFd};
use op_job::{Follow, JobEnd, Next, Once, OpEnd, OpExec, OpJob, abandon_all, turn};
use ready_driver::{LegacyDriver, MemIo};
use rent_buf::{Rent, VecBuf};
use std::alloc::Global;
use std::test::Fail;

type OnHandles = LegacyDriver<MemIo, Rent>;

type Asked = Request<Rent, VecBuf>;

// What comes behind an operation: what was received is sent, behind a send comes a receive, and behind another request the same again; up
// to so many ends, or the first that failed.
#[derive(Drop)]
struct Echo {
    // How many ends it was told.
    told: u64,
    most: u64,
    // It goes on behind a cancel too.
    stubborn: bool,
}

// What comes behind a request.
fn behind(request: Asked) -> Asked {
    match request {
        Request::Recv { fd, buf } => Request::Send { fd, buf },
        Request::Send { fd, buf } => Request::Recv { fd, buf },
        request => request,
    }
}

impl Follow<Rent> for Echo {
    type Out = (u64, Option<Outcome>);

    ghost follows = { SaysAny };

    fn follow(&mut self, end: OpEnd<Rent>) -> Next<Rent, (u64, Option<Outcome>)>
        ensures { SaysAny self.old self.new end result }
    {
        self.told = self.told.saturating_add(1);
        let (request, outcome) = match end {
            OpEnd::Done(done) => (done.request, Some(done.outcome)),
            OpEnd::Refused(refused) => (refused.request, None),
            OpEnd::NotHeld(request) | OpEnd::Withdrawn(request) => (request, None),
        };
        let failed = matches!(outcome, Some(Outcome::Fail(_))) && !self.stubborn;
        if failed || self.told >= self.most {
            return Next::End((self.told, outcome));
        }
        Next::Op(behind(request))
    }
}

// What a job is done with: how many ends it was told, and the last, if it was an operation's; or that it is paused; or that it isn't done.
#[derive(Clone, Copy)]
enum Want {
    Ended(u64, Option<Outcome>),
    Paused(u64),
    Nothing,
}

// A chain: what it shows, the kind of its handle, the bytes that wait there, to how many ends it goes on, behind a cancel too, the job's
// deadline, the moments of the turns, and what it is done with.
type Row = (
    &'static str,
    HandleKind,
    &'static [u8],
    u64,
    bool,
    Option<u64>,
    &'static [u64],
    Want,
);

const CUT: Option<Outcome> = Some(Outcome::Fail(CANCELED));

#[rattlefmt::skip]
const ROWS: &[Row] = &[
    ("its first poll waits", HandleKind::Stream, b"ab", 9, false, None, &[0], Want::Nothing),
    ("one end", HandleKind::Stream, b"ab", 1, false, None, &[0, 1], Want::Ended(1, Some(Outcome::Count(2)))),
    ("an echo in one poll", HandleKind::Stream, b"ab", 2, false, None, &[0, 1], Want::Ended(2, Some(Outcome::Count(2)))),
    ("the next receive waits", HandleKind::Stream, b"ab", 9, false, None, &[0, 1, 2], Want::Nothing),
    ("its deadline cuts it", HandleKind::Stream, b"ab", 9, false, Some(5), &[0, 1, 5], Want::Ended(3, CUT)),
    ("nothing is submitted behind it", HandleKind::Stream, b"ab", 4, true, Some(5), &[0, 1, 5], Want::Ended(4, None)),
    ("canceled before its first poll", HandleKind::Stream, b"ab", 1, false, Some(0), &[0], Want::Ended(1, None)),
    ("a canceled one goes on to 64 ends", HandleKind::Stream, b"", 99, true, Some(5), &[0, 5], Want::Paused(64)),
];

// The user gets the handle of a kind, which is 0, since it is the first, with these bytes.
fn give(driver: &mut OnHandles, kind: HandleKind, bytes: &[u8]) -> bool {
    let next = driver.handles();
    next < MOST_HANDLES
        && !driver.known(next)
        && driver.give(kind).is_ok()
        && driver.has_handle(0)
        && driver.feed(0, bytes).is_ok()
}

// A receive from that handle.
fn receive(buf: Rent) -> Asked {
    Request::Recv {
        fd: SharedFd::new(0),
        buf,
    }
}

// Spawns a job, with a deadline.
fn spawn<F: Follow<Rent>>(
    exec: &mut OpExec<OnHandles, Rent, F>,
    job: OpJob<Rent, F>,
    deadline: Option<u64>,
) -> bool
    requires stands { Stands polls_of cancels_of exec.old }
    requires sound { IsSound (FitsOps ops_in) ApartOps exec.old }
    requires counts { (polls_of job ≡ 0) × (cancels_of job ≡ 0) }
    requires unsent { HasNoOp job }
    requires counter { spawned_of exec.old < 2 ^ 62 }
    ensures stands { Stands polls_of cancels_of exec.new }
    ensures sound { IsSound (FitsOps ops_in) ApartOps exec.new }
{
    let spawned = match deadline {
        Some(deadline) => exec.spawn_until(job, deadline),
        None => exec.spawn(job),
    };
    match spawned {
        Ok(task) => task == 0,
        Err((_, job)) => {
            job.abandon(&mut exec.driver);
            false
        }
    }
}

// Makes a turn at each of these moments.
fn turns<F: Follow<Rent>>(exec: &mut OpExec<OnHandles, Rent, F>, moments: &[u64]) -> bool
    requires stands { Stands polls_of cancels_of exec.old }
    requires sound { IsSound (FitsOps ops_in) ApartOps exec.old }
    ensures stands { Stands polls_of cancels_of exec.new }
    ensures sound { IsSound (FitsOps ops_in) ApartOps exec.new }
{
    for now in moments {
        if exec.turns() >= 1 << 62 || exec.moment() > *now {
            return false;
        }
        let (_, ran) = turn(exec, *now);
        if ran.is_err() {
            return false;
        }
    }
    true
}

// A job is spawned, and a turn is made at each of these moments.
fn runs<F: Follow<Rent>>(
    exec: &mut OpExec<OnHandles, Rent, F>,
    job: OpJob<Rent, F>,
    deadline: Option<u64>,
    moments: &[u64],
) -> bool
    requires stands { Stands polls_of cancels_of exec.old }
    requires sound { IsSound (FitsOps ops_in) ApartOps exec.old }
    requires counts { (polls_of job ≡ 0) × (cancels_of job ≡ 0) }
    requires unsent { HasNoOp job }
    requires counter { spawned_of exec.old < 2 ^ 62 }
    ensures stands { Stands polls_of cancels_of exec.new }
    ensures sound { IsSound (FitsOps ops_in) ApartOps exec.new }
{
    spawn(exec, job, deadline) && turns(exec, moments)
}

// Drops an executor, with the jobs that are left.
fn end<F: Follow<Rent>>(exec: OpExec<OnHandles, Rent, F>)
    requires stands { Stands polls_of cancels_of exec }
    requires sound { IsSound (FitsOps ops_in) ApartOps exec }
{
    let mut exec = exec;
    abandon_all(&mut exec);
    match exec.finish() {
        Ok(_) => {}
        Err(_) => unreachable!(),
    }
}

// The only output is so.
fn ends_so(outputs: &[(u64, JobEnd<Rent, Echo, (u64, Option<Outcome>)>)], want: Want) -> bool {
    match (outputs, want) {
        ([(_, JobEnd::Ended((told, last)))], Want::Ended(count, outcome)) => {
            *told == count && *last == outcome
        }
        ([(_, JobEnd::Paused(_, follow))], Want::Paused(count)) => follow.told == count,
        ([], Want::Nothing) => true,
        _ => false,
    }
}

#[test]
fn chains_end_so(rt: HostRuntime) -> Result<(), Fail> {
    let alloc = rt.alloc();
    for &(name, kind, bytes, most, stubborn, deadline, moments, want) in ROWS {
        let buf = Rent::with_total(alloc, 16)?;
        let mut driver: OnHandles = LegacyDriver::over(alloc, MemIo::new(alloc));
        let given = give(&mut driver, kind, bytes);
        let mut exec: OpExec<OnHandles, Rent, Echo> = Exec::new(alloc, driver);
        let follow = Echo {
            told: 0,
            most,
            stubborn,
        };
        let job = OpJob::following(receive(buf), follow);
        let ran = runs(&mut exec, job, deadline, moments);
        let outputs = exec.take_done();
        end(exec);
        assert!(rt; given && ran, "in the row {name:?}");
        let outputs = outputs?;
        assert!(rt; ends_so(outputs.as_slice(), want), "in the row {name:?}");
    }
    Ok(())
}

// A job of a request alone is done with its end.
#[test]
fn a_deadline_ends_a_receive(rt: HostRuntime) -> Result<(), Fail> {
    let alloc = rt.alloc();
    let buf = Rent::with_total(alloc, 16)?;
    let mut driver: OnHandles = LegacyDriver::over(alloc, MemIo::new(alloc));
    let given = give(&mut driver, HandleKind::Stream, b"");
    let mut exec: OpExec<OnHandles, Rent, Once> = Exec::new(alloc, driver);
    let ran = runs(&mut exec, OpJob::new(receive(buf)), Some(5), &[4, 5]);
    let outputs = exec.take_done();
    end(exec);
    assert!(rt; given && ran);
    let outputs = outputs?;
    let cut = match outputs.as_slice() {
        [(_, JobEnd::Ended(OpEnd::Done(done)))] => Some(done.outcome) == CUT,
        _ => false,
    };
    assert!(rt; cut);
    Ok(())
}
