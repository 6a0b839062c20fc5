// One step of a poll: a submission, or the poll of an operation.
ghost use Rattle.std.specs.Prelude.{◌<◌, ◌+◌, None, IsTrue, IfOk, IfErr};
ghost use Rattle.machine.specs.Request.{named};
ghost use Rattle.driver_core.specs.Op.{AddsToken, Holds};
ghost use Rattle.ready_driver.specs.LegacyState.{holds_all, ops_in};
ghost use Rattle.ready_driver.specs.LegacyCalls.{JoinsOp, SubmitRefused};
ghost use Rattle.ready_driver.specs.Io.{IsLater};
ghost use Rattle.pipe_job.specs.Awaits.{AwaitsBy, AwaitsNone, KeepsWaiting};
ghost use Rattle.pipe_job.specs.Causes.{StepEndsFor, WaitsBy};
ghost use Rattle.pipe_job.specs.Course.{IsSameBytes, IsWhole, left_of};
ghost use Rattle.pipe_job.specs.Moves.{HasOwn, MovesOn};
ghost use Rattle.pipe_job.specs.Rest.{IsOwnOrNew, LeavesRest};
ghost use Rattle.pipe_job.specs.Steps.{EndsNone, IfWhole, StepFor, StepsTo, UnlessFault};
ghost use Rattle.pipe_job.specs.Waits.{FitsWait, IfBack, IfAgain, KeepsApart, StaysApart, most_steps};

use crate::course::Course;
use driver_core::{Done, MOST_GIVEN, Op, PollOp, SubmitError, SubmitFault, Submitted};
use machine::{CANCELED, Request};
use ready_driver::{LegacyDriver, NonBlock};
use rent_buf::{IoFault, Rent, VecBuf};

/// The error of a job whose pipe its user doesn't hold. (Linux: `EBADF`)
pub const NOT_HELD: u16 = 9;

// The error of a driver that takes no further operation. (Linux: `EAGAIN`)
pub(crate) const AGAIN: u16 = 11;

// What a job waits for.
pub(crate) enum Wait {
    // Its next submission: memory for a buffer.
    Room(Vec<u8>),
    // Its operation.
    Waiting(Op),
}

// What a step answers.
pub(crate) enum Step {
    // There is more to do at once.
    Again(Wait),
    // The driver names the task when there may be.
    Pending(Wait),
    // Memory ran out.
    OutOfMemory(Wait),
    // All bytes were sent and received, or it failed.
    Ended(Result<(), IoFault>),
}

// The memory of the buffer of a request that was refused.
fn memory_of(request: Request<Rent, VecBuf>, none: Vec<u8>) -> Vec<u8> {
    match request {
        Request::Send { fd: _, buf } | Request::Recv { fd: _, buf } => buf.into_vec(),
        _ => none,
    }
}

// Submits a request under no group.
fn submit_alone<I: NonBlock>(
    driver: &mut LegacyDriver<I, Rent>,
    request: Request<Rent, VecBuf>,
) -> Result<Op, SubmitError<Rent>>
    requires held { IsTrue (holds_all driver.old.handling.table (named request)) }
    requires counter { driver.old.given < MOST_GIVEN }
    ensures token { IfOk result (λ op. AddsToken (ops_in driver.old) (ops_in driver.new) op) }
    ensures joins { IfOk result (λ op. JoinsOp I.view I.tells I.memory driver.old driver.new request None op) }
    ensures err { IfErr result (SubmitRefused I.view I.tells I.memory request driver.old driver.new) }
{
    match driver.submit_with(request, None)? {
        Submitted::Op(op) => Ok(op),
        Submitted::Canceled(_) => unreachable!(),
    }
}

// Submits the next operation of a job.
#[tactic(auto, using(crate::proofs::Frames::same_fit, crate::proofs::Frames::all_apart, crate::proofs::Frames::submitted_keeps, crate::proofs::Frames::submitted_own, crate::proofs::Frames::submitted_apart, crate::proofs::Submitting::moves_named, crate::proofs::Submitting::joined_later, crate::proofs::Submitting::refused_later, crate::proofs::Submitting::refused_full, crate::proofs::Staying::same_stays, crate::proofs::Resting::same_rest))]
fn submit<I: NonBlock>(
    driver: &mut LegacyDriver<I, Rent>,
    course: &Course,
    room: Vec<u8>,
    cancels: u64,
) -> Step
    requires left { IsWhole course.now → ⊥ }
    ensures fits { IfBack result (FitsWait (ops_in driver.new) course.now cancels) }
    ensures others { KeepsApart (ops_in driver.old) (ops_in driver.new) (Wait.Room room) }
    ensures apart { IfBack result (StaysApart (ops_in driver.old) (Wait.Room room)) }
    ensures later { IsLater (I.view driver.old.handling.io) (I.view driver.new.handling.io) }
    ensures stays { KeepsWaiting I.files I.memory driver.old driver.new (Wait.Room room) }
    ensures ends { StepEndsFor I.view I.tells course.now.pipe cancels (HasOwn (I.view driver.old.handling.io).world course.now) driver.old
        driver.new result }
    ensures waits { WaitsBy I.view driver.old driver.new result }
    ensures moves { UnlessFault result (MovesOn I.view I.tells I.memory course.now course.now driver.old driver.new) }
    ensures rest { LeavesRest driver.old driver.new (Wait.Room room) }
    ensures fresh { IfBack result (IsOwnOrNew driver.old.given (Wait.Room room)) }
    ensures awaits { AwaitsNone result }
    ensures less { IfAgain result (λ next. most_steps course.now next < most_steps course.now (Wait.Room room)) }
    ensures whole { IfWhole result (IsWhole course.now) }
{
    let none = Vec::new(*room.allocator());
    let buf = match course.buffer(room) {
        Ok(buf) => buf,
        Err(room) => return Step::OutOfMemory(Wait::Room(room)),
    };
    let request = course.request(buf);
    if !driver.holds_names(request.names()) {
        return Step::Ended(Err(IoFault::Os(NOT_HELD)));
    }
    if driver.given() >= MOST_GIVEN {
        return Step::Ended(Err(IoFault::Os(AGAIN)));
    }
    match submit_alone(driver, request) {
        Ok(op) => Step::Again(Wait::Waiting(op)),
        Err(refused) => match refused.why {
            SubmitFault::Full => Step::Ended(Err(IoFault::Os(AGAIN))),
            SubmitFault::OutOfMemory => Step::OutOfMemory(Wait::Room(memory_of(
                refused.request,
                none,
            ))),
            _ => Step::Ended(Err(IoFault::ReadFault)),
        },
    }
}

// The step that follows a job's operation that ended.
fn ended(course: &mut Course, done: Done<Rent>) -> Step
    ensures same { IsSameBytes course.old course.new }
    ensures step { StepFor course.old course.new done result }
    ensures less { IfAgain result (λ next. most_steps course.new next < left_of course.old + left_of course.old) }
{
    match course.take_in(done) {
        Ok(room) => Step::Again(Wait::Room(room)),
        Err(fault) => Step::Ended(Err(fault)),
    }
}

// Drops an operation.
#[tactic(auto, using(crate::proofs::Frames::dropped_apart))]
pub(crate) fn drop_op<I: NonBlock>(driver: &mut LegacyDriver<I, Rent>, op: Op)
    requires held { Holds (ops_in driver.old) op }
    ensures gone { Holds (ops_in driver.new) op → ⊥ }
    ensures others { KeepsApart (ops_in driver.old) (ops_in driver.new) (Wait.Waiting op) }
    ensures stays { KeepsWaiting I.files I.memory driver.old driver.new (Wait.Waiting op) }
    ensures rest { LeavesRest driver.old driver.new (Wait.Waiting op) }
{
    driver.drop_op(op);
    driver.given();
}

// Polls the operation of a job.
fn poll_op<I: NonBlock>(
    driver: &mut LegacyDriver<I, Rent>,
    course: &mut Course,
    op: Op,
    task: u64,
    cancels: u64,
) -> Step
    requires fits { FitsWait (ops_in driver.old) course.old cancels (Wait.Waiting op) }
    ensures same { IsSameBytes course.old course.new }
    ensures steps { StepsTo I.files I.view I.tells I.memory course.old course.new cancels driver.old driver.new (Wait.Waiting op) result }
    ensures awaits { AwaitsBy I.files I.memory driver.new course.old.pipe task result }
    ensures less { IfAgain result (λ next. most_steps course.new next < most_steps course.old (Wait.Waiting op)) }
    ensures whole { IfWhole result (IsWhole course.new) }
{
    let answer = driver.poll_op(op, task);
    driver.given();
    match answer {
        Ok(PollOp::Pending(op)) => Step::Pending(Wait::Waiting(op)),
        Ok(PollOp::Ready(done)) => ended(course, done),
        Err((_, op)) => Step::OutOfMemory(Wait::Waiting(op)),
    }
}

// The next step of a job's poll. One that was canceled submits nothing.
pub(crate) fn advance<I: NonBlock>(
    driver: &mut LegacyDriver<I, Rent>,
    course: &mut Course,
    wait: Wait,
    task: u64,
    cancels: u64,
) -> Step
    requires fits { FitsWait (ops_in driver.old) course.old cancels wait }
    ensures same { IsSameBytes course.old course.new }
    ensures steps { StepsTo I.files I.view I.tells I.memory course.old course.new cancels driver.old driver.new wait result }
    ensures empty { EndsNone course.old wait result }
    ensures awaits { AwaitsBy I.files I.memory driver.new course.old.pipe task result }
    ensures less { IfAgain result (λ next. most_steps course.new next < most_steps course.old wait) }
    ensures whole { IfWhole result (IsWhole course.new) }
{
    match wait {
        Wait::Waiting(op) => poll_op(driver, course, op, task, cancels),
        Wait::Room(room) => {
            if course.is_done() {
                return Step::Ended(Ok(()));
            }
            if cancels != 0 {
                return Step::Ended(Err(IoFault::Os(CANCELED)));
            }
            submit(driver, course, room, cancels)
        }
    }
}
