//! A job that accepts on a listener, or that serves a connection.
ghost use Rattle.std.specs.Prelude.{◌≡◌, ◌<◌, ◌^◌, ◌∷◌, [], ℕ, None, Some, IsSome, IfOk, IfErr, true, IsTrue};
ghost use Rattle.core_exec.specs.Job.{IfBack, IfPending, Steps};
ghost use Rattle.net_stream.specs.Connection.{FitsConnection};
ghost use Rattle.net_stream.specs.Drives.{IsGone};
ghost use Rattle.net_stream.specs.Listener.{FitsListener};
ghost use Rattle.net_server.specs.NetJob.{AnyOutput, ApartJobs, WaitApart, ComesTo, FitsJob, FitsWaits, Follows, WaitsForNone, IsEnded, IsLate, NamesOwn, StepLeaves};
ghost use Rattle.net_server.specs.NetJob.{waits_swap, cancels_of, idle_waits, no_aim, polls_of, state_in};

use crate::fault::NetFault;
use crate::net_driver::NetDriver;
use crate::serve::Serve;
use crate::serving::{Pass, Serving, refusal};
use core_exec::{Job, JobStep};
use driver_core::{MOST_GIVEN, SubmitFault};
use handle_core::SharedFd;
use net_stream::{Accepted, Connection, Listener};
use op_driver::OpDriver;
use rent_buf::{OutOfMemory, Rent};
use std::alloc::Global;

/// A connection that has ended: none of its operations is left, and its handle is whoever's who closes it.
#[derive(Debug, Drop)]
pub struct Ended<S> {
    /// Its handle.
    pub fd: SharedFd,
    /// Its state, as it left it.
    pub state: S,
    /// Why it ended, if by a fault. Without one its state was done, or the peer's end came, and all that was written is sent.
    pub fault: Option<NetFault>,
}

/// What a job is done with.
#[derive(Debug, Drop)]
pub enum NetEnd<S> {
    /// Its accept made a connection of this handle.
    Accepted(SharedFd),
    /// Its accept failed so.
    NotAccepted(NetFault),
    /// Its connection ended.
    Ended(Ended<S>),
}

// What a job does.
pub(crate) enum State<S> {
    // It accepts.
    Accepting(Listener),
    // It serves. It is moved at each poll, so what is large lies elsewhere.
    Serving(Box<Serving<S>>),
}

/// A job of an executor over a driver: an accept, which is done with the handle that it made, or a connection, which is served until it is
/// over. (monoio: a task that is spawned for a connection)
pub struct NetJob<S> {
    pub(crate) state: State<S>,
    pub(crate) polls: u64,
    pub(crate) cancels: u64,
}

impl<S: Serve> NetJob<S> {
    /// A job that accepts once on a handle that listens.
    pub fn accept(fd: SharedFd) -> NetJob<S>
        ensures counts { (polls_of result ≡ 0) × (cancels_of result ≡ 0) }
        ensures idle { WaitsForNone result }
    {
        NetJob {
            state: State::Accepting(Listener::new(fd)),
            polls: 0,
            cancels: 0,
        }
    }

    /// A job that serves a connection which waits for nothing. If memory runs out, both come back.
    pub fn serve(alloc: Global, conn: Connection, state: S) -> Result<NetJob<S>, (Connection, S)>
        requires none { (conn.incoming.op ≡ None) × (conn.outgoing.op ≡ None) }
        ensures counts { IfOk result (λ job. (polls_of job ≡ 0) × (cancels_of job ≡ 0)) }
        ensures idle { IfOk result WaitsForNone }
        ensures serves { IfOk result (λ job. state_in job.state ≡ Some state) }
        ensures err { IfErr result (λ back. (back.0 ≡ conn) × (back.1 ≡ state)) }
    {
        let serving = Serving {
            conn,
            state,
            done: false,
        };
        match Box::new(alloc, serving) {
            Ok(serving) => Ok(NetJob {
                state: State::Serving(serving),
                polls: 0,
                cancels: 0,
            }),
            Err(failed) => {
                let Serving {
                    conn,
                    state,
                    done: _,
                } = failed.value;
                Err((conn, state))
            }
        }
    }

    /// Drops a job, with what waits: its handle comes back.
    #[tactic(auto, using(crate::proofs::Frames::accept_ended, crate::proofs::Frames::serving_ended, crate::proofs::Frames::ended_others))]
    pub fn abandon<D: OpDriver<Rent>>(self, driver: &mut D) -> SharedFd
        requires fits { FitsWaits (D.ops driver.old) self.state }
        ensures others { (other : NetJob S) → FitsWaits (D.ops driver.old) other.state → WaitApart self.state other.state
            → FitsWaits (D.ops driver.new) other.state }
    {
        let NetJob {
            state,
            polls: _,
            cancels: _,
        } = self;
        match state {
            State::Accepting(listener) => listener.end(driver),
            State::Serving(serving) => Box::into_inner(serving).end(driver, None).fd,
        }
    }

    // The state of a connection whose job waits for nothing.
    pub(crate) fn into_state(self) -> S
        requires serves { IsSome (state_in self.state) }
        requires idle { WaitsForNone self }
        ensures { state_in self.state ≡ Some result }
    {
        let NetJob {
            state,
            polls: _,
            cancels: _,
        } = self;
        match state {
            State::Serving(serving) => Box::into_inner(serving).into_state(),
            State::Accepting(Listener { fd: _, op }) => {
                if let Some(op) = op {
                    op.forget();
                }
                unreachable!()
            }
        }
    }
}

// Ends the job of an accept so, and drops what waits.
#[tactic(auto, using(crate::proofs::Frames::accept_ended))]
fn end_accept<S: Serve, D: OpDriver<Rent>>(
    driver: &mut D,
    listener: Listener,
    end: NetEnd<S>,
) -> JobStep<State<S>, NetEnd<S>>
    requires fits { FitsListener (D.ops driver.old) listener }
    ensures leaves { StepLeaves (D.ops driver.old) (State.Accepting listener) (D.ops driver.new) result }
    ensures gone { IsGone (D.ops driver.new) listener.op }
    ensures ended { IsEnded result }
{
    listener.end(driver);
    JobStep::Done(end)
}

// Ends it by a fault.
fn refuse<S: Serve, D: OpDriver<Rent>>(
    driver: &mut D,
    listener: Listener,
    fault: NetFault,
) -> JobStep<State<S>, NetEnd<S>>
    requires fits { FitsListener (D.ops driver.old) listener }
    ensures leaves { StepLeaves (D.ops driver.old) (State.Accepting listener) (D.ops driver.new) result }
    ensures gone { IsGone (D.ops driver.new) listener.op }
    ensures ended { IsEnded result }
{
    end_accept(driver, listener, NetEnd::NotAccepted(fault))
}

// What an accept came to: it waits, memory ran out, or the job is done so.
pub(crate) enum AcceptStep<S> {
    Waits,
    OutOfMemory,
    Over(NetEnd<S>),
}

// What follows what an accept answered.
fn after_accept<S: Serve>(accepted: &Result<Accepted, SubmitFault>) -> AcceptStep<S>
    ensures { ComesTo accepted.now result }
{
    match accepted {
        Ok(Accepted::Waits) => AcceptStep::Waits,
        Ok(Accepted::Made(fd)) => AcceptStep::Over(NetEnd::Accepted(*fd)),
        Ok(Accepted::Failed(fault)) => AcceptStep::Over(NetEnd::NotAccepted(NetFault::Io(*fault))),
        Err(SubmitFault::OutOfMemory) => AcceptStep::OutOfMemory,
        Err(why) => AcceptStep::Over(NetEnd::NotAccepted(NetFault::Refused(*why))),
    }
}

// Polls an accept.
#[tactic(auto, using(crate::proofs::Frames::accept_leaves, crate::proofs::Frames::accept_then))]
fn accept_once<S: Serve, D: OpDriver<Rent>>(
    driver: &mut D,
    listener: Listener,
    task: u64,
) -> JobStep<State<S>, NetEnd<S>>
    requires fits { FitsListener (D.ops driver.old) listener }
    requires held { IsTrue (D.held driver.old (listener.fd ∷ [])) }
    requires counter { (D.ops driver.old).given < MOST_GIVEN }
    ensures leaves { StepLeaves (D.ops driver.old) (State.Accepting listener) (D.ops driver.new) result }
{
    let mut listener = listener;
    let accepted = listener.accept(driver, task);
    match after_accept(&accepted) {
        AcceptStep::Waits => JobStep::Pending(State::Accepting(listener)),
        AcceptStep::OutOfMemory => JobStep::OutOfMemory(State::Accepting(listener)),
        AcceptStep::Over(end) => end_accept(driver, listener, end),
    }
}

// The same of a job that may be canceled.
fn poll_accept<S: Serve, D: OpDriver<Rent>>(
    driver: &mut D,
    listener: Listener,
    task: u64,
    canceled: bool,
) -> JobStep<State<S>, NetEnd<S>>
    requires fits { FitsListener (D.ops driver.old) listener }
    ensures leaves { StepLeaves (D.ops driver.old) (State.Accepting listener) (D.ops driver.new) result }
    ensures late { canceled ≡ true → IsEnded result }
{
    if canceled {
        return refuse(driver, listener, NetFault::Late);
    }
    match refusal(driver, listener.fd) {
        Some(fault) => refuse(driver, listener, fault),
        None => accept_once(driver, listener, task),
    }
}

// Ends the job of a connection, and drops what waits.
#[tactic(auto, using(crate::proofs::Frames::serving_ended))]
fn end<S: Serve, D: OpDriver<Rent>>(
    driver: &mut NetDriver<D>,
    serving: Box<Serving<S>>,
    fault: Option<NetFault>,
) -> JobStep<State<S>, NetEnd<S>>
    requires fits { FitsConnection (D.ops driver.old.driver) serving.value.conn }
    ensures leaves { StepLeaves (D.ops driver.old.driver) (State.Serving serving) (D.ops driver.new.driver) result }
    ensures incoming { IsGone (D.ops driver.new.driver) serving.value.conn.incoming.op }
    ensures outgoing { IsGone (D.ops driver.new.driver) serving.value.conn.outgoing.op }
    ensures named { driver.new.again ≡ driver.old.again }
    ensures ended { IsEnded result }
{
    let ended = Box::into_inner(serving).end(&mut driver.driver, fault);
    JobStep::Done(NetEnd::Ended(ended))
}

// What follows passes: a job whose last pass moved something is named by the next turn.
#[tactic(auto, using(crate::proofs::Frames::serving_stays, crate::proofs::Frames::same_names, crate::proofs::Frames::own_names))]
fn follow<S: Serve, D: OpDriver<Rent>>(
    driver: &mut NetDriver<D>,
    serving: Box<Serving<S>>,
    task: u64,
    pass: Pass,
) -> JobStep<State<S>, NetEnd<S>>
    requires fits { FitsConnection (D.ops driver.old.driver) serving.value.conn }
    ensures leaves { StepLeaves (D.ops driver.old.driver) (State.Serving serving) (D.ops driver.new.driver) result }
    ensures named { Follows pass task driver.old.again.items driver.new.again.items result }
    ensures names { NamesOwn task driver.old.again.items driver.new.again.items }
{
    match pass {
        Pass::Waits => JobStep::Pending(State::Serving(serving)),
        Pass::Moved => match driver.again.push(task) {
            Ok(()) => JobStep::Pending(State::Serving(serving)),
            Err(_) => JobStep::OutOfMemory(State::Serving(serving)),
        },
        Pass::OutOfMemory => JobStep::OutOfMemory(State::Serving(serving)),
        Pass::Over(fault) => end(driver, serving, fault),
    }
}

// Polls a connection.
#[tactic(auto, using(crate::proofs::Frames::serving_then, crate::proofs::Frames::same_names))]
fn poll_serving<S: Serve, D: OpDriver<Rent>>(
    driver: &mut NetDriver<D>,
    serving: Box<Serving<S>>,
    task: u64,
    canceled: bool,
) -> JobStep<State<S>, NetEnd<S>>
    requires fits { FitsConnection (D.ops driver.old.driver) serving.value.conn }
    ensures leaves { StepLeaves (D.ops driver.old.driver) (State.Serving serving) (D.ops driver.new.driver) result }
    ensures late { canceled ≡ true → IsEnded result }
    ensures names { NamesOwn task driver.old.again.items driver.new.again.items }
{
    if canceled {
        return end(driver, serving, Some(NetFault::Late));
    }
    let mut serving = serving;
    let pass = serving.poll(&mut driver.driver, task);
    follow(driver, serving, task, pass)
}

// Polls what a job does.
#[tactic(auto, using(crate::proofs::Frames::same_names))]
fn poll_state<S: Serve, D: OpDriver<Rent>>(
    driver: &mut NetDriver<D>,
    state: State<S>,
    task: u64,
    canceled: bool,
) -> JobStep<State<S>, NetEnd<S>>
    requires fits { FitsWaits (D.ops driver.old.driver) state }
    ensures leaves { StepLeaves (D.ops driver.old.driver) state (D.ops driver.new.driver) result }
    ensures late { canceled ≡ true → IsEnded result }
    ensures names { NamesOwn task driver.old.again.items driver.new.again.items }
{
    match state {
        State::Accepting(listener) => poll_accept(&mut driver.driver, listener, task, canceled),
        State::Serving(serving) => poll_serving(driver, serving, task, canceled),
    }
}

impl<S: Serve, D: OpDriver<Rent>> Job<NetDriver<D>> for NetJob<S> {
    type Out = NetEnd<S>;

    ghost polls = { polls_of };

    ghost cancels = { cancels_of };

    ghost aim = { no_aim };

    ghost meets = { AnyOutput };

    ghost fits = { FitsJob D.ops };

    // What it waits for in the driver isn't said.
    ghost waits = { λ driver task job. Unit {0} };

    ghost apart = { ApartJobs };

    ghost idle = { WaitsForNone };

    ghost apart_both = { λ one other apart. waits_swap one.state other.state apart };

    ghost apart_idle = { λ one other idle. idle_waits one.state other.state idle };

    /// Polls it: an accept once, and a connection in passes, as long as each moves something and not more than 16. A connection that moved
    /// something in the last of them puts its task into the driver's list `again`. One whose cancel was asked for is done, as late.
    #[tactic(auto, using(crate::proofs::Frames::left_others, crate::proofs::Frames::ended_others))]
    fn poll(self, driver: &mut NetDriver<D>, task: u64) -> JobStep<NetJob<S>, NetEnd<S>>
        requires fits { FitsJob D.ops driver.old task self }
        requires counter { polls_of self < 2 ^ 62 }
        ensures step { Steps polls_of cancels_of no_aim AnyOutput self result }
        ensures fits { IfBack result (FitsJob D.ops driver.new task) }
        ensures others { (other : NetJob S) (s : ℕ) → FitsJob D.ops driver.old s other → ApartJobs self other
            → FitsJob D.ops driver.new s other }
        ensures apart { IfBack result (λ job. (other : NetJob S) (s : ℕ) → FitsJob D.ops driver.old s other → ApartJobs self other
            → ApartJobs job other) }
        ensures left_waiting { IfPending result (λ job. Unit {0}) }
        ensures stays { (other : NetJob S) (s : ℕ) → FitsJob D.ops driver.old s other → ApartJobs self other → Unit {0} → Unit {0} }
        // It is done where its cancel was asked for; and the next turn is to name its task, besides others, or no further one.
        ensures late { IsLate self → IsEnded result }
        ensures names { NamesOwn task driver.old.again.items driver.new.again.items }
    {
        let NetJob {
            state,
            polls,
            cancels,
        } = self;
        let polls = polls + 1;
        match poll_state(driver, state, task, cancels != 0) {
            JobStep::Done(end) => JobStep::Done(end),
            JobStep::Pending(state) => JobStep::Pending(NetJob {
                state,
                polls,
                cancels,
            }),
            JobStep::OutOfMemory(state) => JobStep::OutOfMemory(NetJob {
                state,
                polls,
                cancels,
            }),
        }
    }

    /// Its next poll drops what waits, and it is done as late. It takes no memory.
    fn cancel(&mut self, driver: &mut NetDriver<D>) -> Result<(), OutOfMemory> {
        let _ = driver;
        self.cancels += 1;
        Ok(())
    }
}
