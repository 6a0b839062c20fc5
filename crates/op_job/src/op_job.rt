//! A job of operations, one behind another: what comes behind the end of one, its follower says.
ghost use Rattle.std.specs.Prelude.{◌≡◌, ◌<◌, ◌≤◌, ◌≢◌, ◌+◌, ◌^◌, ℕ, true, OnErr, OnOk};
ghost use Rattle.op_job.specs.OpJob.{AnyEnd, AsksOp, AsksOps, ApartOps, ApartStates, FitsOps, FitsState, GoneOps, HasNoOp, HoldsOps, KeepsApart, PendsBy, PendsJob};
ghost use Rattle.op_job.specs.OpJob.{apart_swaps, cancels_of, no_aim, polls_of, unsent_apart};
ghost use Rattle.op_job.specs.Runs.{PollsAs, RunsJob, RunsTo, StepsAs, SubmitsAs};
ghost use Rattle.op_job.specs.Waits.{KeepsWaiting, WaitsOps};
ghost use Rattle.core_exec.specs.Job.{IfBack, IfPending, Steps};

use crate::follow::{Follow, Next, Once, OpEnd};
use core_exec::{Job, JobStep};
use driver_core::{MOST_GIVEN, Op, PollOp, SubmitFault};
use machine::Request;
use op_driver::OpDriver;
use rent_buf::{IoBufMut, OutOfMemory, VecBuf};

// What a job waits for.
pub(crate) enum State<B> {
    // Its first poll, which submits the request.
    Unsent(Request<B, VecBuf>),
    // Its operation.
    Waiting(Op),
}

/// To how many ends of operations a poll of a job goes on at most.
pub const MOST_ENDS: u64 = 64;

/// How a job ended.
#[derive(Drop)]
pub enum JobEnd<B, F, O> {
    /// Its follower said so.
    Ended(O),
    /// `MOST_ENDS` operations ended in one poll: the request that comes next, and the follower. A job of these goes on.
    Paused(Request<B, VecBuf>, F),
}

/// A job of operations, one behind another. The handles of a request must be the user's as it is submitted: the first at the job's first
/// poll. A cancel asks for the cancel of the operation that it waits for, and no request is submitted behind it.
pub struct OpJob<B, F> {
    state: State<B>,
    follow: F,
    polls: u64,
    cancels: u64,
}

impl<B: IoBufMut + Drop> OpJob<B, Once> {
    /// A job of a request alone, that was never polled: it is done as its operation ends.
    pub fn new(request: Request<B, VecBuf>) -> OpJob<B, Once>
        ensures counts { (polls_of result ≡ 0) × (cancels_of result ≡ 0) }
        ensures unsent { HasNoOp result }
        ensures request { result.state ≡ State.Unsent request }
    {
        OpJob::following(request, Once)
    }
}

impl<B: IoBufMut + Drop, F: Follow<B>> OpJob<B, F> {
    /// A job of a request, that was never polled, and of what comes behind it.
    pub fn following(request: Request<B, VecBuf>, follow: F) -> OpJob<B, F>
        ensures counts { (polls_of result ≡ 0) × (cancels_of result ≡ 0) }
        ensures unsent { HasNoOp result }
        ensures request { result.state ≡ State.Unsent request }
        ensures follow { result.follow ≡ follow }
    {
        OpJob {
            state: State::Unsent(request),
            follow,
            polls: 0,
            cancels: 0,
        }
    }

    /// Drops a job, and its operation if it has one. Each other job that fits the driver and doesn't wait for the same operation fits
    /// still.
    pub fn abandon<D: OpDriver<B>>(self, driver: &mut D)
        requires fits { HoldsOps D.ops driver.old self }
        ensures gone { GoneOps D.ops driver.new self }
        ensures others { (other : OpJob B F) → HoldsOps D.ops driver.old other → ApartOps self other → HoldsOps D.ops driver.new other }
    {
        let OpJob {
            state,
            follow: _,
            polls: _,
            cancels: _,
        } = self;
        match state {
            State::Unsent(_) => {}
            State::Waiting(op) => driver.drop_op(op),
        }
    }
}

// Polls an operation for a task.
#[tactic(auto, using(crate::proofs::Frames::polled_others, crate::proofs::Waits::polled_waits))]
fn poll_op<B: IoBufMut + Drop, D: OpDriver<B>>(
    driver: &mut D,
    op: Op,
    task: u64,
) -> JobStep<State<B>, OpEnd<B>>
    requires fits { FitsState (D.ops driver.old) (State.Waiting op) }
    ensures fits { IfBack result (FitsState (D.ops driver.new)) }
    ensures same { IfBack result (λ state. state ≡ State.Waiting op) }
    ensures others { KeepsApart (D.ops driver.old) (D.ops driver.new) (State.Waiting op) }
    ensures pends { PendsBy D.polls driver.new task result }
    ensures stays { KeepsWaiting D.submits D.polls D.cancels D.turns D.ops driver.old driver.new (State.Waiting op) }
    ensures given { (D.ops driver.new).given ≡ (D.ops driver.old).given }
    ensures does { PollsAs D.polls task driver.old driver.new op result }
{
    match driver.poll_op(op, task) {
        Ok(PollOp::Pending(op)) => JobStep::Pending(State::Waiting(op)),
        Ok(PollOp::Ready(done)) => JobStep::Done(OpEnd::Done(done)),
        Err((_, op)) => JobStep::OutOfMemory(State::Waiting(op)),
    }
}

// Submits a request, and polls its operation, so that the driver names the task.
#[tactic(auto, using(crate::proofs::Frames::kept_fits, crate::proofs::Frames::submitted_fits, crate::proofs::Frames::submitted_apart, crate::proofs::Waits::submitted_waits))]
fn submit<B: IoBufMut + Drop, D: OpDriver<B>>(
    driver: &mut D,
    request: Request<B, VecBuf>,
    task: u64,
) -> JobStep<State<B>, OpEnd<B>>
    ensures fits { IfBack result (FitsState (D.ops driver.new)) }
    ensures others { (other : State B) → FitsState (D.ops driver.old) other → FitsState (D.ops driver.new) other }
    ensures apart { IfBack result (λ state. (other : State B) → FitsState (D.ops driver.old) other → ApartStates state other) }
    ensures pends { PendsBy D.polls driver.new task result }
    ensures stays { KeepsWaiting D.submits D.polls D.cancels D.turns D.ops driver.old driver.new (State.Unsent request) }
    ensures given { (D.ops driver.new).given ≤ (D.ops driver.old).given + 1 }
    ensures does { SubmitsAs D.submits D.polls D.held D.ops task driver.old driver.new request result }
{
    if !driver.holds_names(request.names()) || driver.given() >= MOST_GIVEN {
        return JobStep::Done(OpEnd::NotHeld(request));
    }
    match driver.submit_op(request) {
        Ok(op) => poll_op(driver, op, task),
        Err(refused) => match refused.why {
            SubmitFault::OutOfMemory => JobStep::OutOfMemory(State::Unsent(refused.request)),
            _ => JobStep::Done(OpEnd::Refused(refused)),
        },
    }
}

// Polls what a job waits for.
fn poll_state<B: IoBufMut + Drop, D: OpDriver<B>>(
    driver: &mut D,
    state: State<B>,
    task: u64,
    canceled: bool,
) -> JobStep<State<B>, OpEnd<B>>
    requires fits { FitsState (D.ops driver.old) state }
    ensures fits { IfBack result (FitsState (D.ops driver.new)) }
    ensures others { KeepsApart (D.ops driver.old) (D.ops driver.new) state }
    ensures apart { IfBack result (λ next. (other : State B) → FitsState (D.ops driver.old) other → ApartStates state other
        → ApartStates next other) }
    ensures pends { PendsBy D.polls driver.new task result }
    ensures stays { KeepsWaiting D.submits D.polls D.cancels D.turns D.ops driver.old driver.new state }
    ensures given { (D.ops driver.new).given ≤ (D.ops driver.old).given + 1 }
    ensures canceled { canceled ≡ true → (D.ops driver.new).given ≡ (D.ops driver.old).given }
    ensures does { StepsAs D.submits D.polls D.held D.ops task canceled driver.old driver.new state result }
{
    match state {
        State::Unsent(request) => {
            if canceled {
                return JobStep::Done(OpEnd::Withdrawn(request));
            }
            submit(driver, request, task)
        }
        State::Waiting(op) => poll_op(driver, op, task),
    }
}

// Polls what a job waits for, and what comes behind it, to so many ends at most: what it waits for then, how it is done, or, behind so many
// ends, the request that comes next.
fn run<B: IoBufMut + Drop, D: OpDriver<B>, F: Follow<B>>(
    driver: &mut D,
    follow: &mut F,
    state: State<B>,
    task: u64,
    canceled: bool,
    most: u64,
) -> JobStep<State<B>, Next<B, F::Out>>
    requires fits { FitsState (D.ops driver.old) state }
    requires some { 0 < most }
    ensures fits { IfBack result (FitsState (D.ops driver.new)) }
    ensures others { KeepsApart (D.ops driver.old) (D.ops driver.new) state }
    ensures apart { IfBack result (λ next. (other : State B) → FitsState (D.ops driver.old) other → ApartStates state other
        → ApartStates next other) }
    ensures pends { PendsBy D.polls driver.new task result }
    ensures stays { KeepsWaiting D.submits D.polls D.cancels D.turns D.ops driver.old driver.new state }
    ensures given { (D.ops driver.new).given ≤ (D.ops driver.old).given + most }
    ensures canceled { canceled ≡ true → (D.ops driver.new).given ≡ (D.ops driver.old).given }
    ensures runs { RunsTo D.submits D.polls D.held D.ops task canceled F.follows most driver.old follow.old state driver.new follow.new
        result }
{
    match poll_state(driver, state, task, canceled) {
        JobStep::Pending(state) => JobStep::Pending(state),
        JobStep::OutOfMemory(state) => JobStep::OutOfMemory(state),
        JobStep::Done(end) => match follow.follow(end) {
            Next::Op(request) => {
                if most <= 1 {
                    return JobStep::Done(Next::Op(request));
                }
                let next = State::Unsent(request);
                run(driver, follow, next, task, canceled, most - 1)
            }
            Next::End(out) => JobStep::Done(Next::End(out)),
        },
    }
}

// Asks for the cancel of what a job waits for.
#[tactic(auto, using(crate::proofs::Frames::kept_fits, crate::proofs::Waits::canceled_waits))]
fn cancel_state<B: IoBufMut + Drop, D: OpDriver<B>>(
    driver: &mut D,
    state: &State<B>,
) -> Result<(), OutOfMemory>
    requires fits { FitsState (D.ops driver.old) state.now }
    ensures others { (other : State B) → FitsState (D.ops driver.old) other → FitsState (D.ops driver.new) other }
    ensures asks { AsksOp D.cancels driver.old driver.new state.now result }
    ensures stays { KeepsWaiting D.submits D.polls D.cancels D.turns D.ops driver.old driver.new state.now }
{
    match state {
        State::Unsent(_) => Ok(()),
        State::Waiting(op) => driver.cancel_op(op),
    }
}

impl<B: IoBufMut + Drop, F: Follow<B>, D: OpDriver<B>> Job<D> for OpJob<B, F> {
    type Out = JobEnd<B, F, F::Out>;

    ghost polls = { polls_of };

    ghost cancels = { cancels_of };

    ghost aim = { no_aim };

    ghost meets = { AnyEnd };

    ghost fits = { FitsOps D.ops };

    ghost waits = { WaitsOps D.submits D.polls D.cancels D.turns D.ops };

    ghost apart = { ApartOps };

    ghost idle = { HasNoOp };

    ghost apart_both = { λ one other apart. apart_swaps one.state other.state apart };

    ghost apart_idle = { λ one other idle. unsent_apart one.state other.state idle };

    #[tactic(auto, using(crate::proofs::Waits::pending_waits))]
    fn poll(self, driver: &mut D, task: u64) -> JobStep<OpJob<B, F>, JobEnd<B, F, F::Out>>
        requires fits { FitsOps D.ops driver.old task self }
        requires counter { polls_of self < 2 ^ 62 }
        ensures step { Steps polls_of cancels_of no_aim AnyEnd self result }
        ensures fits { IfBack result (FitsOps D.ops driver.new task) }
        ensures others { (other : OpJob B F) (s : ℕ) → FitsOps D.ops driver.old s other → ApartOps self other
            → FitsOps D.ops driver.new s other }
        ensures apart { IfBack result (λ job. (other : OpJob B F) (s : ℕ) → FitsOps D.ops driver.old s other → ApartOps self other
            → ApartOps job other) }
        ensures left_waiting { IfPending result (WaitsOps D.submits D.polls D.cancels D.turns D.ops driver.new task) }
        ensures stays { (other : OpJob B F) (s : ℕ) → FitsOps D.ops driver.old s other → ApartOps self other
            → WaitsOps D.submits D.polls D.cancels D.turns D.ops driver.old s other
            → WaitsOps D.submits D.polls D.cancels D.turns D.ops driver.new s other }
        // A job that isn't done waits for an operation that the driver polled last for this task, and that poll was pending.
        ensures pends { PendsJob D.polls driver.new task result }
        // It submits so many operations at most, and none once it was canceled.
        ensures given { (D.ops driver.new).given ≤ (D.ops driver.old).given + MOST_ENDS }
        ensures canceled { cancels_of self ≢ 0 → (D.ops driver.new).given ≡ (D.ops driver.old).given }
        // What it does: its follower is told each end, and is asked what comes.
        ensures runs { RunsJob D.submits D.polls D.held D.ops task F.follows driver.old self driver.new result }
    {
        let OpJob {
            state,
            follow,
            polls,
            cancels,
        } = self;
        let mut follow = follow;
        let polls = polls + 1;
        match run(driver, &mut follow, state, task, cancels != 0, MOST_ENDS) {
            JobStep::Done(Next::End(out)) => JobStep::Done(JobEnd::Ended(out)),
            JobStep::Done(Next::Op(request)) => JobStep::Done(JobEnd::Paused(request, follow)),
            JobStep::Pending(state) => JobStep::Pending(OpJob {
                state,
                follow,
                polls,
                cancels,
            }),
            JobStep::OutOfMemory(state) => JobStep::OutOfMemory(OpJob {
                state,
                follow,
                polls,
                cancels,
            }),
        }
    }

    fn cancel(&mut self, driver: &mut D) -> Result<(), OutOfMemory>
        requires fits { (s : ℕ) × FitsOps D.ops driver.old s self.old }
        requires counter { cancels_of self.old < 2 ^ 62 }
        ensures ok { OnOk result (cancels_of self.new ≡ cancels_of self.old + 1) }
        ensures err { OnErr result (self.new ≡ self.old) }
        ensures polls { polls_of self.new ≡ polls_of self.old }
        ensures aim { no_aim self.new ≡ no_aim self.old }
        ensures fits { (s : ℕ) → FitsOps D.ops driver.old s self.old → FitsOps D.ops driver.new s self.new }
        ensures others { (other : OpJob B F) (s : ℕ) → FitsOps D.ops driver.old s other → ApartOps self.old other
            → FitsOps D.ops driver.new s other }
        ensures apart { (other : OpJob B F) (s : ℕ) → FitsOps D.ops driver.old s other → ApartOps self.old other
            → ApartOps self.new other }
        ensures stays { (other : OpJob B F) (s : ℕ) → FitsOps D.ops driver.old s other → ApartOps self.old other
            → WaitsOps D.submits D.polls D.cancels D.turns D.ops driver.old s other
            → WaitsOps D.submits D.polls D.cancels D.turns D.ops driver.new s other }
        // It waits for the same, and its follower is as it was.
        ensures keeps { (self.new.state ≡ self.old.state) × (self.new.follow ≡ self.old.follow) }
        // The driver is asked for the cancel of the operation that it waits for.
        ensures asks { AsksOps D.cancels driver.old driver.new self.old result }
    {
        cancel_state(driver, &self.state)?;
        self.cancels += 1;
        Ok(())
    }
}
