// One direction of a connection: bytes come at a handle, and go to another one.
ghost use Rattle.std.specs.Prelude.{◌≡◌, ◌≤◌, ◌<◌, ◌+◌, ◌∷◌, [], true, false, None, ℕ, IsTrue, IfOk, IfErr, OnOk, length};
ghost use Rattle.rent_buf.specs.Buf.{built, content_of};
ghost use Rattle.machine.specs.Effect.{made_by};
ghost use Rattle.machine.specs.Request.{named, plain_request};
ghost use Rattle.ready_driver.specs.LegacyState.{holds_all, ops_in};
ghost use Rattle.ready_driver.specs.Ready.{mask_of, meets};
ghost use Rattle.ready_driver.specs.Records.{io_at};
ghost use Rattle.relay_net.specs.Flow.{FitsFlow, FitsStage, IsLoad, IsPending, IsReceive, IsSend, asked_at, bytes_sent};
ghost use Rattle.relay_net.specs.Flow.{held_in};
ghost use Rattle.relay_net.specs.Forwarding.{CanForward, Forwards, IsAwaiting, IsUnmetAt, KeepsSeen};
ghost use Rattle.relay_net.specs.Keeping.{Stays, StopsAs, StopsFor, world_of};
ghost use Rattle.relay_net.specs.Keyed.{KeepsKeys};
ghost use Rattle.relay_net.specs.Outcomes.{CountsLoad, IsIdle, ReceivedAs, SentAs};
ghost use Rattle.relay_net.specs.Steps.{Begins, Flows};
ghost use Rattle.driver_core.specs.Ops.{Ops};

mod buffers;
mod drops;

use crate::flow::buffers::{cut, empty, received_buffer, sent_buffer, spare_of};
use crate::round::RelayError;
use driver_core::{Done, MOST_GIVEN, Op, PollOp, SubmitError, SubmitFault};
pub(crate) use drops::abandon;
use handle_core::SharedFd;
use machine::{Outcome, Request};
use op_driver::OpDriver;
use ready_driver::{Direction, LegacyDriver, NonBlock};
use rent_buf::{Buf, IoBuf as _, Rent, VecBuf};
use std::alloc::Global;
use std::mem;

/// How many bytes a receive of a relay that `Relay::new` made asks for.
pub const ROOM: usize = 4096;

// The task of each operation of a relay, which looks at each in each round.
pub(crate) const TASK: u64 = 0;

/// The relay's driver.
pub(crate) type Reads<I> = LegacyDriver<I, Buf>;

/// What one direction waits for, or holds.
pub enum Stage {
    /// It has nothing, but for memory that an earlier receive used.
    Idle(Option<Rent>),
    /// A receive waits.
    Receiving(Op),
    /// Bytes came that aren't sent.
    Held(Buf),
    /// A send of all that came waits.
    Sending {
        /// Its token.
        op: Op,
        /// How many bytes it has.
        count: usize,
    },
}

/// A direction: what comes at one handle goes to the other.
pub struct Flow {
    /// Where bytes come.
    pub from: SharedFd,
    /// Where they go.
    pub to: SharedFd,
    /// What waits, or is held.
    pub stage: Stage,
}

/// What a step of a direction came to.
#[derive(Clone, Copy)]
pub enum Came {
    /// Nothing came or went, or some did.
    Goes,
    /// A receive brought the end.
    Ended,
    /// Its operation failed, with this error number.
    Failed(u16),
    /// It was stopped: the next one goes on.
    Stopped(RelayError),
}

// Why a round stops where a submission was refused.
fn stop_of(why: SubmitFault) -> RelayError
    ensures { StopsAs why result }
{
    match why {
        SubmitFault::Os(_) => RelayError::Fault,
        _ => RelayError::OutOfMemory,
    }
}

// Submits a request. A refused one comes back.
pub(crate) fn submit<I: NonBlock>(
    driver: &mut Reads<I>,
    request: Request<Buf, VecBuf>,
) -> Result<Op, (RelayError, Request<Buf, VecBuf>)>
    requires held { IsTrue (holds_all driver.old.handling.table (named request)) }
    requires counter { driver.old.given < MOST_GIVEN }
    ensures stays { Stays I.view I.tells driver.old driver.new }
    ensures pends { IfOk result (λ op. IsPending (ops_in driver.new) op (λ asked. asked ≡ plain_request built request)) }
    ensures bits { OnOk result ((h : ℕ) → (io_at driver.new.handling.records h).ready ≡ (io_at driver.old.handling.records h).ready) }
    ensures back { IfErr result (λ refused. refused.1 ≡ request) }
    ensures stops { IfErr result (λ refused. StopsFor (I.view driver.old.handling.io) (I.view driver.new.handling.io) refused.0) }
    ensures given { driver.new.given ≤ driver.old.given + 1 }
    ensures keyed { KeepsKeys I.view I.memory driver.old driver.new }
    ensures seen { KeepsSeen I.view I.memory driver.old driver.new }
{
    let _ = driver.given();
    match driver.submit_op(request) {
        Ok(op) => Ok(op),
        Err(refused) => {
            let SubmitError { why, request } = refused;
            Err((stop_of(why), request))
        }
    }
}

// Submits a receive.
#[tactic(auto, using(crate::proofs::Keyed::keeps_none))]
fn receive<I: NonBlock>(
    driver: &mut Reads<I>,
    alloc: Global,
    room: usize,
    from: SharedFd,
    to: SharedFd,
    spare: Option<Rent>,
) -> (Stage, Option<RelayError>)
    requires roomy { IsLoad room }
    requires held { IsTrue (holds_all driver.old.handling.table (from ∷ [])) }
    requires counter { driver.old.given < MOST_GIVEN }
    ensures begins { Begins I.view I.tells driver.old driver.new room from to [] result.0 result.1 }
    ensures given { driver.new.given ≤ driver.old.given + 1 }
    ensures keyed { KeepsKeys I.view I.memory driver.old driver.new }
    ensures seen { KeepsSeen I.view I.memory driver.old driver.new }
    ensures awaits { result.1 ≡ None → IsAwaiting result.0 }
{
    let _ = to;
    let Ok(buf) = empty(alloc, room, spare) else {
        return (Stage::Idle(None), Some(RelayError::OutOfMemory));
    };
    match submit(driver, Request::Recv { fd: from, buf }) {
        Ok(op) => (Stage::Receiving(op), None),
        Err((why, request)) => {
            let buf = received_buffer(request, from);
            (Stage::Idle(spare_of(buf)), Some(why))
        }
    }
}

// Submits a send of all bytes of a buffer.
fn send<I: NonBlock>(
    driver: &mut Reads<I>,
    room: usize,
    from: SharedFd,
    to: SharedFd,
    buf: Buf,
) -> (Stage, Option<RelayError>)
    requires held { IsTrue (holds_all driver.old.handling.table (to ∷ [])) }
    requires load { IsLoad (length (content_of buf)) }
    requires counter { driver.old.given < MOST_GIVEN }
    ensures begins { Begins I.view I.tells driver.old driver.new room from to (content_of buf) result.0 result.1 }
    ensures given { driver.new.given ≤ driver.old.given + 1 }
    ensures keyed { KeepsKeys I.view I.memory driver.old driver.new }
    ensures seen { KeepsSeen I.view I.memory driver.old driver.new }
    ensures awaits { result.1 ≡ None → IsAwaiting result.0 }
{
    let _ = (room, from);
    let count = buf.bytes_init();
    match submit(driver, Request::Send { fd: to, buf }) {
        Ok(op) => (Stage::Sending { op, count }, None),
        Err((why, request)) => (Stage::Held(sent_buffer(request, to)), Some(why)),
    }
}

// What follows the outcome of a receive.
fn received(outcome: Outcome, buf: Buf) -> (Stage, Came)
    requires unmade { made_by outcome ≡ None }
    requires load { CountsLoad outcome (content_of buf) }
    ensures ended { ReceivedAs outcome (content_of buf) result.0 result.1 }
{
    match outcome {
        Outcome::Count(count) | Outcome::From(count, _) => {
            if count > 0 {
                return (Stage::Held(buf), Came::Goes);
            }
            (Stage::Idle(spare_of(buf)), Came::Ended)
        }
        Outcome::Fail(error) => (Stage::Idle(spare_of(buf)), Came::Failed(error)),
        Outcome::Made(_) => unreachable!(),
    }
}

// What follows the outcome of a send: what wasn't sent is held on.
fn sent(outcome: Outcome, buf: Buf) -> (Stage, Came)
    requires unmade { made_by outcome ≡ None }
    requires load { IsLoad (length (content_of buf)) }
    ensures ended { SentAs outcome (content_of buf) result.0 result.1 }
{
    match outcome {
        Outcome::Count(count) | Outcome::From(count, _) => {
            if (count as usize) < buf.bytes_init() {
                return (Stage::Held(cut(buf, count as usize)), Came::Goes);
            }
            (Stage::Idle(spare_of(buf)), Came::Goes)
        }
        Outcome::Fail(error) => (Stage::Held(buf), Came::Failed(error)),
        Outcome::Made(_) => unreachable!(),
    }
}

// Polls the receive that waits.
fn poll_receive<I: NonBlock>(
    driver: &mut Reads<I>,
    op: Op,
    room: usize,
    from: SharedFd,
    to: SharedFd,
) -> (Stage, Came)
    requires pending { IsPending (ops_in driver.old) op (IsReceive room from) }
    ensures flows { Flows I.view I.tells driver.old driver.new room from to [] result.0 result.1 }
    ensures given { driver.new.given ≡ driver.old.given }
    ensures keyed { KeepsKeys I.view I.memory driver.old driver.new }
    ensures seen { KeepsSeen I.view I.memory driver.old driver.new }
    ensures forwards { IsTrue I.memory → CanForward I.view driver.old from to → result.1 ≡ Came.Goes
        → Forwards room (world_of I.view driver.old) (world_of I.view driver.new) from to [] (held_in (ops_in driver.new) result.0) }
{
    let _ = (room, to);
    match OpDriver::poll_op(driver, op, TASK) {
        Ok(PollOp::Pending(op)) => (Stage::Receiving(op), Came::Goes),
        Ok(PollOp::Ready(done)) => {
            let Done { outcome, request } = done;
            received(outcome, received_buffer(request, from))
        }
        Err((_, op)) => (Stage::Receiving(op), Came::Stopped(RelayError::OutOfMemory)),
    }
}

// Polls the send that waits.
fn poll_send<I: NonBlock>(
    driver: &mut Reads<I>,
    op: Op,
    count: usize,
    room: usize,
    from: SharedFd,
    to: SharedFd,
) -> (Stage, Came)
    requires pending { IsPending (ops_in driver.old) op (IsSend to count) }
    ensures flows { Flows I.view I.tells driver.old driver.new room from to (bytes_sent (asked_at (ops_in driver.old) op)) result.0
        result.1 }
    ensures given { driver.new.given ≡ driver.old.given }
    ensures keyed { KeepsKeys I.view I.memory driver.old driver.new }
    ensures seen { KeepsSeen I.view I.memory driver.old driver.new }
    ensures forwards { IsTrue I.memory → CanForward I.view driver.old from to → result.1 ≡ Came.Goes
        → Forwards room (world_of I.view driver.old) (world_of I.view driver.new) from to (bytes_sent (asked_at (ops_in driver.old) op))
        (held_in (ops_in driver.new) result.0) }
{
    let _ = (room, from);
    match OpDriver::poll_op(driver, op, TASK) {
        Ok(PollOp::Pending(op)) => (Stage::Sending { op, count }, Came::Goes),
        Ok(PollOp::Ready(done)) => {
            let Done { outcome, request } = done;
            sent(outcome, sent_buffer(request, to))
        }
        Err((_, op)) => (
            Stage::Sending { op, count },
            Came::Stopped(RelayError::OutOfMemory),
        ),
    }
}

// Submits what a direction wants: a receive, where it has nothing and may receive, or a send of what it holds.
#[tactic(auto, using(crate::proofs::Flows::still_begins, crate::proofs::Keyed::keeps_none))]
fn begin<I: NonBlock>(
    driver: &mut Reads<I>,
    alloc: Global,
    room: usize,
    from: SharedFd,
    to: SharedFd,
    stage: Stage,
    reads: bool,
) -> (Stage, Option<RelayError>)
    requires roomy { IsLoad room }
    requires fits { FitsStage room (ops_in driver.old) from to stage }
    requires from { IsTrue (holds_all driver.old.handling.table (from ∷ [])) }
    requires to { IsTrue (holds_all driver.old.handling.table (to ∷ [])) }
    requires counter { driver.old.given < MOST_GIVEN }
    ensures begins { Begins I.view I.tells driver.old driver.new room from to (held_in (ops_in driver.old) stage) result.0 result.1 }
    ensures quiet { reads ≡ false → IsIdle stage → IsIdle result.0 }
    ensures given { driver.new.given ≤ driver.old.given + 1 }
    ensures keyed { KeepsKeys I.view I.memory driver.old driver.new }
    ensures seen { KeepsSeen I.view I.memory driver.old driver.new }
    ensures awaits { reads ≡ true → result.1 ≡ None → IsAwaiting result.0 }
{
    match stage {
        Stage::Idle(spare) => {
            if reads {
                return receive(driver, alloc, room, from, to, spare);
            }
            (Stage::Idle(spare), None)
        }
        Stage::Held(buf) => send(driver, room, from, to, buf),
        pending => (pending, None),
    }
}

// The call of an operation that waits for a direction of a handle can't be made yet: no report met the direction, and the handle is no
// file, whose calls wait for none. A poll would make no call.
pub(crate) fn is_unmet<I: NonBlock>(driver: &Reads<I>, h: SharedFd, dir: Direction) -> bool
    ensures { IsTrue result → meets (io_at driver.now.handling.records h).ready (mask_of dir) ≡ false }
{
    let ready = driver.readiness(h.number());
    let met = match dir {
        Direction::Read => ready.is_readable(),
        Direction::Write => ready.is_writable(),
    };
    !met && !driver.io().is_file(h.number())
}

// Polls what waits.
#[tactic(auto, using(crate::proofs::Flows::still_flows, crate::proofs::Keyed::keeps_none))]
fn poll<I: NonBlock>(
    driver: &mut Reads<I>,
    room: usize,
    from: SharedFd,
    to: SharedFd,
    stage: Stage,
) -> (Stage, Came)
    requires fits { FitsStage room (ops_in driver.old) from to stage }
    ensures flows { Flows I.view I.tells driver.old driver.new room from to (held_in (ops_in driver.old) stage) result.0 result.1 }
    ensures quiet { IsIdle stage → IsIdle result.0 }
    ensures given { driver.new.given ≡ driver.old.given }
    ensures keyed { KeepsKeys I.view I.memory driver.old driver.new }
    ensures seen { KeepsSeen I.view I.memory driver.old driver.new }
    ensures forwards { IsTrue I.memory → IsAwaiting stage → CanForward I.view driver.old from to → result.1 ≡ Came.Goes
        → Forwards room (world_of I.view driver.old) (world_of I.view driver.new) from to (held_in (ops_in driver.old) stage)
        (held_in (ops_in driver.new) result.0) }
{
    match stage {
        Stage::Receiving(op) => poll_receive(driver, op, room, from, to),
        Stage::Sending { op, count } => poll_send(driver, op, count, room, from, to),
        still => (still, Came::Goes),
    }
}

// Puts what a direction has back, where that was taken out.
fn put(slot: &mut Stage, stage: Stage)
    requires { IsIdle slot.old }
    ensures { slot.new ≡ stage }
{
    match mem::replace(slot, stage) {
        Stage::Idle(_) => {}
        _ => unreachable!(),
    }
}

// A step of a direction: it submits what it wants, and polls once what waits; but where the call of what waits can't be made yet, there is
// nothing to do.
#[tactic(auto, using(crate::proofs::Flows::stopped_flows, crate::proofs::Flows::begun_flows, crate::proofs::Flows::still_flows, crate::proofs::Keyed::keeps_then, crate::proofs::Keyed::keeps_none))]
pub(crate) fn step<I: NonBlock>(
    driver: &mut Reads<I>,
    alloc: Global,
    room: usize,
    flow: &mut Flow,
    reads: bool,
) -> Came
    requires roomy { IsLoad room }
    requires fits { FitsFlow room (ops_in driver.old) flow.old }
    requires from { IsTrue (holds_all driver.old.handling.table (flow.old.from ∷ [])) }
    requires to { IsTrue (holds_all driver.old.handling.table (flow.old.to ∷ [])) }
    requires counter { driver.old.given < MOST_GIVEN }
    ensures same { (flow.new.from ≡ flow.old.from) × (flow.new.to ≡ flow.old.to) }
    ensures flows { Flows I.view I.tells driver.old driver.new room flow.old.from flow.old.to (held_in (ops_in driver.old) flow.old.stage)
        flow.new.stage result }
    // Where it may not receive, one that has nothing starts nothing.
    ensures quiet { reads ≡ false → IsIdle flow.old.stage → IsIdle flow.new.stage }
    ensures given { driver.new.given ≤ driver.old.given + 1 }
    ensures keyed { KeepsKeys I.view I.memory driver.old driver.new }
    ensures seen { KeepsSeen I.view I.memory driver.old driver.new }
    // Over handles in memory, where it may receive it forwards what it can.
    ensures forwards { IsTrue I.memory → reads ≡ true → CanForward I.view driver.old flow.old.from flow.old.to → result ≡ Came.Goes
        → Forwards room (world_of I.view driver.old) (world_of I.view driver.new) flow.old.from flow.old.to
        (held_in (ops_in driver.old) flow.old.stage) (held_in (ops_in driver.new) flow.new.stage) }
{
    if flow.is_waiting(driver) {
        return Came::Goes;
    }
    let stage = mem::replace(&mut flow.stage, Stage::Idle(None));
    let (stage, stop) = begin(driver, alloc, room, flow.from, flow.to, stage, reads);
    if let Some(why) = stop {
        put(&mut flow.stage, stage);
        return Came::Stopped(why);
    }
    let (stage, came) = poll(driver, room, flow.from, flow.to, stage);
    put(&mut flow.stage, stage);
    came
}

impl Flow {
    // A direction that has nothing.
    pub(crate) fn new(from: SharedFd, to: SharedFd) -> Flow
        ensures handles { (result.from ≡ from) × (result.to ≡ to) }
        ensures idle { IsIdle result.stage }
    {
        Flow {
            from,
            to,
            stage: Stage::Idle(None),
        }
    }

    // It waits for a call that can't be made yet.
    fn is_waiting<I: NonBlock>(&self, driver: &Reads<I>) -> bool
        ensures { IsTrue result → IsUnmetAt driver.now.handling.records self.now.from self.now.to self.now.stage }
    {
        match &self.stage {
            Stage::Receiving(_) => is_unmet(driver, self.from, Direction::Read),
            Stage::Sending { .. } => is_unmet(driver, self.to, Direction::Write),
            Stage::Idle(_) | Stage::Held(_) => false,
        }
    }

    // Its next step submits an operation: a send, or a receive where those are still submitted.
    pub(crate) fn is_at_hand(&self, reads: bool) -> bool {
        match &self.stage {
            Stage::Idle(_) => reads,
            Stage::Held(_) => true,
            Stage::Receiving(_) | Stage::Sending { .. } => false,
        }
    }

    // How many bytes it holds.
    #[tactic(auto, using(crate::proofs::Flows::pending_count))]
    pub(crate) fn held(&self) -> usize
        ensures { (room : ℕ) (ops : Ops Buf) → FitsFlow room ops self.now → result ≡ length (held_in ops self.now.stage) }
    {
        match &self.stage {
            Stage::Idle(_) | Stage::Receiving(_) => 0,
            Stage::Held(buf) => buf.bytes_init(),
            Stage::Sending { op: _, count } => *count,
        }
    }
}
