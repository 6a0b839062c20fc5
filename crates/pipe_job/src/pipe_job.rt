//! A job that sends its bytes into a pipe, and then receives as many.
ghost use Rattle.std.specs.Prelude.{◌≡◌, ◌<◌, ◌+◌, ◌^◌, ℕ, [], OnErr, OnOk};
ghost use Rattle.core_exec.specs.Job.{IfBack, IfPending, Steps};
ghost use Rattle.ready_driver.specs.LegacyState.{ops_in};
ghost use Rattle.pipe_job.specs.Awaits.{AwaitsBy, AwaitsJob, KeepsWaiting, WaitsPipe};
ghost use Rattle.pipe_job.specs.PipeJob.{FitsPipe, ApartPipes, IsIdle, IsAim, aim_of, cancels_of, polls_of};
ghost use Rattle.pipe_job.specs.PipeJob.{AsksPipe, AsksWait, EndsEmpty, EndsJob, FitsEach, HoldsPipe, IsGonePipe, MovesJob, WaitsJob, received_of};
ghost use Rattle.pipe_job.specs.PipeJob.{IsNewPipe, LeavesPipe, sent_of};
ghost use Rattle.pipe_job.specs.Rest.{LeavesRest};
ghost use Rattle.pipe_job.specs.Course.{IsSameBytes, IsWhole};
ghost use Rattle.pipe_job.specs.Steps.{EndsNone, IfWhole, StepsTo, as_step};
ghost use Rattle.pipe_job.specs.Waits.{FitsWait, HoldsWait, IsGoneWait, KeepsApart, apart_swaps, idle_apart};

use crate::course::Course;
use crate::step::{Step, Wait, advance, drop_op};
use core_exec::{Job, JobStep};
use machine::SharedFd;
use ready_driver::{LegacyDriver, NonBlock};
use rent_buf::{ByteList, IoFault, OutOfMemory, Rent};

/// A job that sends its bytes into a pipe, and then receives as many from it. It is done with what it received, or with why it failed. Its
/// bytes stay in it, so each operation moves a copy of at most 4096 of them, in memory that is used again.
pub struct PipeJob {
    pub(crate) course: Course,
    pub(crate) wait: Wait,
    pub(crate) polls: u64,
    pub(crate) cancels: u64,
}

impl PipeJob {
    /// A job of these bytes over a pipe, that was never polled. It takes no memory.
    pub fn new(pipe: SharedFd, bytes: ByteList) -> PipeJob
        ensures counts { (polls_of result ≡ 0) × (cancels_of result ≡ 0) }
        ensures idle { IsIdle result }
        ensures fits { FitsEach result }
        ensures aim { aim_of result ≡ bytes }
        ensures none { (sent_of result ≡ []) × (received_of result ≡ []) }
    {
        let bytes = bytes.into_vec();
        let room = Vec::new(*bytes.allocator());
        PipeJob {
            course: Course::new(pipe, ByteList::from_vec(bytes)),
            wait: Wait::Room(room),
            polls: 0,
            cancels: 0,
        }
    }

    /// Drops a job, and its operation if it has one. It takes no memory.
    #[tactic(auto, using(crate::proofs::Frames::fits_holds))]
    pub fn abandon<I: NonBlock>(self, driver: &mut LegacyDriver<I, Rent>)
        requires fits { HoldsPipe driver.old self }
        ensures gone { IsGonePipe driver.new self }
        ensures others { (other : PipeJob) → HoldsPipe driver.old other → ApartPipes self other → HoldsPipe driver.new other }
        // One that waits, waits still.
        ensures stays { (other : PipeJob) (s : ℕ) → HoldsPipe driver.old other → ApartPipes self other
            → WaitsPipe I.files I.memory driver.old s other → WaitsPipe I.files I.memory driver.new s other }
        // The user holds each handle as often, and the driver each operation that isn't the job's.
        ensures rest { LeavesPipe driver.old driver.new self }
    {
        let PipeJob {
            course: _,
            wait,
            polls: _,
            cancels: _,
        } = self;
        drop_wait(driver, wait);
    }
}

// Drops what a job waits for.
#[tactic(auto, using(crate::proofs::Frames::same_fit, crate::proofs::Staying::same_stays, crate::proofs::Resting::same_rest))]
fn drop_wait<I: NonBlock>(driver: &mut LegacyDriver<I, Rent>, wait: Wait)
    requires fits { HoldsWait (ops_in driver.old) wait }
    ensures gone { IsGoneWait (ops_in driver.new) wait }
    ensures others { KeepsApart (ops_in driver.old) (ops_in driver.new) wait }
    ensures stays { KeepsWaiting I.files I.memory driver.old driver.new wait }
    ensures rest { LeavesRest driver.old driver.new wait }
{
    match wait {
        Wait::Room(_) => {}
        Wait::Waiting(op) => drop_op(driver, op),
    }
}

// Asks for the cancel of what a job of a pipe waits for, which was asked for so often before.
#[tactic(auto, using(crate::proofs::Frames::same_fit, crate::proofs::Frames::all_apart, crate::proofs::Frames::canceled_apart, crate::proofs::Resting::same_rest, crate::proofs::Resting::asked_rest))]
fn cancel_wait<I: NonBlock>(
    driver: &mut LegacyDriver<I, Rent>,
    course: &Course,
    wait: &Wait,
    cancels: u64,
) -> Result<(), OutOfMemory>
    requires fits { FitsWait (ops_in driver.old) course.now cancels wait.now }
    ensures fits { OnOk result (FitsWait (ops_in driver.new) course.now (cancels + 1) wait.now) }
    ensures others { KeepsApart (ops_in driver.old) (ops_in driver.new) wait.now }
    ensures asks { AsksWait driver.old driver.new wait.now result }
    ensures rest { LeavesRest driver.old driver.new wait.now }
    ensures err { OnErr result (driver.new ≡ driver.old) }
{
    match wait {
        Wait::Room(_) => Ok(()),
        Wait::Waiting(op) => driver.cancel_op(op),
    }
}

// Polls a job as far as it goes at once: what it waits for then, or how it ended.
#[tactic(auto, using(crate::proofs::Stepping::steps_on, crate::proofs::Stepping::steps_none))]
fn run<I: NonBlock>(
    driver: &mut LegacyDriver<I, Rent>,
    course: &mut Course,
    wait: Wait,
    task: u64,
    cancels: u64,
) -> JobStep<Wait, Result<(), IoFault>>
    requires fits { FitsWait (ops_in driver.old) course.old cancels wait }
    ensures same { IsSameBytes course.old course.new }
    ensures steps { StepsTo I.files I.view I.tells I.memory course.old course.new cancels driver.old driver.new wait (as_step result) }
    ensures empty { EndsNone course.old wait (as_step result) }
    ensures awaits { AwaitsBy I.files I.memory driver.new course.old.pipe task (as_step result) }
    ensures whole { IfWhole (as_step result) (IsWhole course.new) }
{
    let mut wait = wait;
    loop {
        match advance(driver, course, wait, task, cancels) {
            Step::Again(next) => wait = next,
            Step::Pending(next) => return JobStep::Pending(next),
            Step::OutOfMemory(next) => return JobStep::OutOfMemory(next),
            Step::Ended(result) => return JobStep::Done(result),
        }
    }
}

impl<I: NonBlock> Job<LegacyDriver<I, Rent>> for PipeJob {
    type Out = Result<ByteList, IoFault>;

    ghost polls = { polls_of };

    ghost cancels = { cancels_of };

    ghost aim = { aim_of };

    ghost meets = { IsAim };

    ghost fits = { FitsPipe };

    ghost waits = { WaitsPipe I.files I.memory };

    ghost apart = { ApartPipes };

    ghost idle = { IsIdle };

    ghost apart_both = { λ one other apart. apart_swaps one.wait other.wait apart };

    ghost apart_idle = { λ one other idle. idle_apart one.wait other.wait idle };

    #[tactic(auto, using(crate::proofs::Staying::left_waits))]
    fn poll(
        self,
        driver: &mut LegacyDriver<I, Rent>,
        task: u64,
    ) -> JobStep<PipeJob, Result<ByteList, IoFault>>
        requires fits { FitsPipe driver.old task self }
        requires counter { polls_of self < 2 ^ 62 }
        ensures step { Steps polls_of cancels_of aim_of IsAim self result }
        ensures fits { IfBack result (FitsPipe driver.new task) }
        ensures others { (other : PipeJob) (s : ℕ) → FitsPipe driver.old s other → ApartPipes self other
            → FitsPipe driver.new s other }
        ensures apart { IfBack result (λ job. (other : PipeJob) (s : ℕ) → FitsPipe driver.old s other → ApartPipes self other
            → ApartPipes job other) }
        ensures left_waiting { IfPending result (WaitsPipe I.files I.memory driver.new task) }
        ensures stays { (other : PipeJob) (s : ℕ) → FitsPipe driver.old s other → ApartPipes self other
            → WaitsPipe I.files I.memory driver.old s other → WaitsPipe I.files I.memory driver.new s other }
        // Each fault has its cause, and it is pending only where more can't be done at once.
        ensures ends { EndsJob I.view I.tells driver.old driver.new self result }
        ensures waits { WaitsJob I.view driver.old driver.new result }
        // One that has no bytes is done at once.
        ensures empty { EndsEmpty self result }
        // One that is pending waits with its task in the list of its pipe, if that isn't a file.
        ensures awaits { AwaitsJob I.files I.memory driver.new task result }
        // What it sends and receives goes through its pipe, and is all that changes of what it has sent and received.
        ensures moves { MovesJob I.view I.tells I.memory driver.old driver.new self result }
        // The user holds each handle as often, and the driver each operation that isn't the job's; the one that the job waits for is its own
        // still, or new.
        ensures rest { LeavesPipe driver.old driver.new self }
        ensures fresh { IfBack result (IsNewPipe driver.old.given self) }
    {
        let PipeJob {
            course,
            wait,
            polls,
            cancels,
        } = self;
        let mut course = course;
        let polls = polls + 1;
        match run(driver, &mut course, wait, task, cancels) {
            JobStep::Pending(wait) => JobStep::Pending(PipeJob {
                course,
                wait,
                polls,
                cancels,
            }),
            JobStep::OutOfMemory(wait) => JobStep::OutOfMemory(PipeJob {
                course,
                wait,
                polls,
                cancels,
            }),
            JobStep::Done(Ok(())) => JobStep::Done(Ok(course.into_bytes())),
            JobStep::Done(Err(fault)) => JobStep::Done(Err(fault)),
        }
    }

    #[tactic(auto, using(crate::proofs::Frames::fits_holds, crate::proofs::Staying::asked_stays, crate::proofs::Staying::asked_waits))]
    fn cancel(&mut self, driver: &mut LegacyDriver<I, Rent>) -> Result<(), OutOfMemory>
        requires fits { (s : ℕ) × FitsPipe driver.old s self.old }
        requires counter { cancels_of self.old < 2 ^ 62 }
        ensures ok { OnOk result (cancels_of self.new ≡ cancels_of self.old + 1) }
        ensures err { OnErr result (self.new ≡ self.old) }
        ensures polls { polls_of self.new ≡ polls_of self.old }
        ensures aim { aim_of self.new ≡ aim_of self.old }
        ensures fits { (s : ℕ) → FitsPipe driver.old s self.old → FitsPipe driver.new s self.new }
        ensures others { (other : PipeJob) (s : ℕ) → FitsPipe driver.old s other → ApartPipes self.old other
            → FitsPipe driver.new s other }
        ensures apart { (other : PipeJob) (s : ℕ) → FitsPipe driver.old s other → ApartPipes self.old other
            → ApartPipes self.new other }
        ensures stays { (other : PipeJob) (s : ℕ) → FitsPipe driver.old s other → ApartPipes self.old other
            → WaitsPipe I.files I.memory driver.old s other → WaitsPipe I.files I.memory driver.new s other }
        // The driver is asked for the cancel of the operation that it waits for.
        ensures asks { AsksPipe driver.old driver.new self.old result }
        // If it waits, it waits still: the next turn of the driver names its task.
        ensures waits { (s : ℕ) → WaitsPipe I.files I.memory driver.old s self.old → WaitsPipe I.files I.memory driver.new s self.new }
        ensures rest { LeavesPipe driver.old driver.new self.old }
        ensures own { self.new.wait ≡ self.old.wait }
        // What it has sent and received stays.
        ensures course { self.new.course ≡ self.old.course }
    {
        cancel_wait(driver, &self.course, &self.wait, self.cancels)?;
        self.cancels += 1;
        Ok(())
    }
}
