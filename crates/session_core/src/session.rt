//! A session: a driver over the ring in memory, and what it keeps by number: tokens of operations, cancellers and cancel handles.
ghost use Rattle.std.specs.Prelude.{◌≡◌, ◌<◌, length, IfOk, IsOk};
ghost use Rattle.rent_buf.specs.Buf.{built};
ghost use Rattle.machine.specs.Request.{held_of, plain_request};
ghost use Rattle.machine.specs.Ledger.{Ledger, empty};
ghost use Rattle.machine.specs.Run.{ledger, replies};
ghost use Rattle.machine.specs.Step as machine;
ghost use Rattle.run_laws.specs.Closes.{ClosedOnce, ClosedWhenReleased, ClosedWhenOver, ClosedWhenMakerOver, UnheldCloses};
ghost use Rattle.run_laws.specs.Closes.{CreatedOnce, MadeOnce, UsedWhenReturned};
ghost use Rattle.run_laws.specs.Bytes.{InputInOrder, MessagesInOrder, FilesHoldLast, OutputInOrder, SentInOrder};
ghost use Rattle.run_laws.specs.Bytes.{MovesOwn, ReadsTakeOwn, ReceivesTakeOwn, SplicesPassOn};
ghost use Rattle.run_laws.specs.Headline.{OneReplyEach, RefusedExactly, PendingUntilReaped, HandsBackOwn, FirstPollHands, HandedOnce};
ghost use Rattle.run_laws.specs.Headline.{DroppedOnce, ReapNames, CanceledWhereAsked, BreaksByFailure, GivenInOrder};
ghost use Rattle.run_laws.specs.Waits.{WaitsOnceTaken, WaitsOnlyTaken, WaitsBehind, StartsFree, StartsAfterLeader};
ghost use Rattle.run_laws.specs.Waits.{MovesBehindLeader, StartsBehindLeader, BreaksWithLeader, BreaksChain, CompletesInOrder};
ghost use Rattle.run_laws.specs.Groups.{CancelsMembers, CanceledAtOnceExactly, NoCancellerExactly};
ghost use Rattle.run_laws.specs.Groups.{CancellersInOrder, HandlesInOrder};
ghost use Rattle.machine.specs.declared.ledger.Event.TheVariants.{Give, Feed, FeedMessage, End, Poll, Drop, Cancel, Turn, Exec};
ghost use Rattle.session_core.specs.Session.{AreParts, PartsStand, SessionStands, SessionAnswers, StepsFor, TakesNoMemory, driver_in};
ghost use Rattle.session_core.specs.Executed.{reply_to, AnswersRefusal};
ghost use Rattle.session_core.specs.Submission.{IsSubmit};

use driver_core::{RunError, Tokens};
use machine::{
    Event, HandleKind, Look, MOST_HANDLES, Refusal, Reply, Request, SharedFd, Told, WorldError,
};
use rent_buf::{Buf, Held, HeldBuf, OutOfMemory, VecBuf};
use ring_core::{ExecRefusal, MemRing};
use std::alloc::Global;
use uring_driver::{Driver as _, Executed, IoUringDriver, MOST_GIVEN, PollOp};

mod groups;
mod submission;

/// A driver over the ring in memory, which events step. It keeps the token of each operation that isn't returned, each canceller and
/// each cancel handle, by number. (not in monoio)
pub struct Session {
    driver: IoUringDriver<MemRing, Buf>,
    tokens: Tokens,
}

impl Drop for Session {
    fn drop(self) {
        let Session { driver: _, tokens } = self;
        tokens.forget();
    }
}

impl Session {
    /// A session over a ring whose queue holds `capacity` entries, at least one; `OutOfMemory` comes if memory runs out. (not in
    /// monoio)
    pub fn new(alloc: Global, capacity: u32) -> Result<Session, OutOfMemory>
        requires { 0 < capacity }
        ensures { IfOk result (λ session. SessionStands session (empty capacity)) }
    {
        let driver = IoUringDriver::new_with_entries(alloc, capacity)?;
        Ok(Session {
            driver,
            tokens: Tokens::new(alloc),
        })
    }

    /// Its driver. (not in monoio)
    pub fn driver(&self) -> &IoUringDriver<MemRing, Buf>
        ensures { result.now ≡ driver_in self.now }
    {
        &self.driver
    }

    /// Its driver and its tokens, which stand for each ledger that the session stands for. It takes no memory.
    /// (not in monoio)
    pub fn into_parts(self) -> (IoUringDriver<MemRing, Buf>, Tokens)
        ensures driver { result.0 ≡ driver_in self }
        ensures stands { (L : Ledger) → SessionStands self L → PartsStand result.0 result.1 L }
    {
        let Session { driver, tokens } = self;
        (driver, tokens)
    }

    /// A session of a driver and tokens that stand for some ledger: it stands for each ledger for which they do. The driver may
    /// have been called since it was taken from its session. It takes no memory. (not in monoio)
    pub fn from_parts(driver: IoUringDriver<MemRing, Buf>, tokens: Tokens) -> Session
        requires { AreParts driver tokens }
        ensures driver { driver_in result ≡ driver }
        ensures stands { (L : Ledger) → PartsStand driver tokens L → SessionStands result L }
    {
        Session { driver, tokens }
    }

    /// One step of the machine: does what the event says on the driver, and answers what the machine replies. `OutOfMemory`
    /// comes if memory runs out, and then nothing has happened. It comes only at an event that the machine doesn't refuse, and
    /// never at a close, a poll, a drop or an end. (not in monoio)
    pub fn step(&mut self, event: &Event) -> Result<Reply, OutOfMemory>
        ensures answers { (L : Ledger) → SessionStands self.old L → StepsFor L event.now self.new result }
        ensures memory { TakesNoMemory event.now → IsOk result }
    {
        match event {
            Event::Give(kind) => self.give(*kind),
            Event::Feed(h, bytes) => self.feed(*h, bytes.as_slice()),
            Event::FeedMessage(h, addr, bytes) => self.feed_message(*h, *addr, bytes.as_slice()),
            Event::End(h) => Ok(self.end(*h)),
            Event::Look(h) => self.look(*h),
            Event::Close(h) => Ok(self.close(*h)),
            Event::Submit(request, under, linked) => self.submit_copy(request, *under, *linked),
            Event::Poll(n, task) => Ok(self.poll(*n, *task)),
            Event::Drop(n) => Ok(self.give_up(*n)),
            Event::Cancel(n) => self.cancel(*n),
            Event::NewCanceller => self.new_canceller(),
            Event::NewHandle(c) => self.new_handle(*c),
            Event::CancelAll(c) => self.cancel_all(*c),
            Event::Turn => self.turn(),
            Event::Exec(place, told) => self.execute(*place, *told),
        }
    }

    /// The same step of an event that it takes: a submission's bytes are moved into its operation's buffer. (not in monoio)
    #[inline(always)]
    pub fn apply(&mut self, event: Event) -> Result<Reply, OutOfMemory>
        ensures answers { (L : Ledger) → SessionStands self.old L → StepsFor L event self.new result }
        ensures memory { TakesNoMemory event → IsOk result }
    {
        match &event {
            Event::Submit(_, _, _) => self.submit_taken(event),
            _ => self.step(&event),
        }
    }

    // The request of an event that submits one is moved into its operation.
    fn submit_taken(&mut self, event: Event) -> Result<Reply, OutOfMemory>
        requires { IsSubmit event }
        ensures { (L : Ledger) → SessionStands self.old L → StepsFor L event self.new result }
    {
        match event {
            Event::Submit(request, under, linked) => self.submit(request, under, linked),
            _ => unreachable!(),
        }
    }

    /// Runs fewer than `MOST_GIVEN` events from an empty session on, over a queue of at least one entry: the replies, one for each event,
    /// and the session after the last. The memory of the replies is taken first. (not in monoio)
    pub fn run(
        alloc: Global,
        capacity: u32,
        events: &[Event],
    ) -> Result<(Vec<Reply>, Session), RunError>
        requires capacity { 0 < capacity }
        requires count { length events.now < MOST_GIVEN }
        // The replies are the machine's, and the session stands for the ledger that it ends with.
        ensures replies { IfOk result (λ run. run.0.items ≡ replies (empty capacity) events.now) }
        ensures stands { IfOk result (λ run. SessionStands run.1 (ledger capacity events.now)) }

        // There is one reply for each event, and it is Refused exactly when the machine refuses the event, with that name. Operations
        // are numbered in order.
        ensures one_each { IfOk result (λ run. OneReplyEach events.now run.0.items) }
        ensures refused { IfOk result (λ run. RefusedExactly capacity events.now run.0.items) }
        ensures in_order { IfOk result (λ run. GivenInOrder run.0.items) }

        // An unrefused poll is Pending exactly until its operation's reap. Else it returns that operation's own buffer, with its
        // own outcome; the first poll after the reap does so if the operation wasn't dropped.
        ensures pending { IfOk result (λ run. PendingUntilReaped capacity events.now run.0.items) }
        ensures own { IfOk result (λ run. HandsBackOwn capacity events.now run.0.items) }
        ensures first { IfOk result (λ run. FirstPollHands capacity events.now run.0.items) }

        // After an operation was returned or dropped, each poll, drop and cancel of it is refused.
        ensures once { IfOk result (λ run. HandedOnce events.now run.0.items) }
        ensures dropped { IfOk result (λ run. DroppedOnce events.now run.0.items) }

        // The turn that reaps an operation names it, also where it was dropped. It ends as canceled only where its cancel was
        // asked for, or it was dropped, or a cancel of its group named it, before.
        ensures names { IfOk result (λ run. ReapNames capacity events.now run.0.items) }
        ensures canceled { IfOk result (λ run. CanceledWhereAsked capacity events.now run.0.items) }

        // A request that stands directly behind a linked one in the queue waits for that one once one event has taken both, and nothing
        // else waits. An operation waits for another only in flight, directly behind it, and isn't executed while it waits.
        ensures once_taken { IfOk result (λ run. WaitsOnceTaken capacity events.now) }
        ensures only_taken { IfOk result (λ run. WaitsOnlyTaken capacity events.now) }
        ensures waits { IfOk result (λ run. WaitsBehind capacity events.now) }
        ensures starts { IfOk result (λ run. StartsFree capacity events.now) }
        // One that waited is executed only after the one that it waited for, which didn't fail: what that one moved was moved before.
        // Where that one succeeds it waits no more.
        ensures after_leader { IfOk result (λ run. StartsAfterLeader capacity events.now) }
        ensures moves_behind { IfOk result (λ run. MovesBehindLeader capacity events.now) }
        ensures behind { IfOk result (λ run. StartsBehindLeader capacity events.now) }
        // Where one fails, exactly those end by the same event, in order, that wait for it, for one that does, and so on.
        ensures broken { IfOk result (λ run. BreaksWithLeader capacity events.now) }
        ensures chain { IfOk result (λ run. BreaksChain capacity events.now) }
        ensures chain_order { IfOk result (λ run. CompletesInOrder capacity events.now) }
        ensures breaks { IfOk result (λ run. BreaksByFailure capacity events.now) }

        // A turn names the close of a handle once at most: after its user gave the handle up, or the operation that made it was dropped
        // and reaped; and after each operation on it, and the one that made it, was returned, or dropped and reaped. A handle that nobody
        // holds has its close in the lists, or a turn named it.
        ensures closed_once { IfOk result (λ run. ClosedOnce run.0.items) }
        ensures closed_released { IfOk result (λ run. ClosedWhenReleased capacity events.now run.0.items) }
        ensures closed_over { IfOk result (λ run. ClosedWhenOver capacity events.now run.0.items) }
        ensures closed_made { IfOk result (λ run. ClosedWhenMakerOver capacity events.now run.0.items) }
        ensures closed_unheld { IfOk result (λ run. UnheldCloses capacity events.now run.0.items) }

        // A handle is created once, by a Give or by one operation, and then each event about it is refused until a poll returned that
        // operation.
        ensures created_once { IfOk result (λ run. CreatedOnce capacity events.now run.0.items) }
        ensures made_once { IfOk result (λ run. MadeOnce capacity events.now) }
        ensures made_used { IfOk result (λ run. UsedWhenReturned capacity events.now run.0.items) }

        // The bytes that came to the input of a handle that is no file are, in order, those that its executed reads and splices took, and
        // then those that wait; so are the messages of a datagram. A file has the bytes of its last writes and feeds, and the output of a
        // handle what was sent to it, in order. What an execution moves is its own operation's.
        ensures input { IfOk result (λ run. InputInOrder capacity events.now) }
        ensures messages { IfOk result (λ run. MessagesInOrder capacity events.now) }
        ensures files { IfOk result (λ run. FilesHoldLast capacity events.now) }
        ensures output { IfOk result (λ run. OutputInOrder capacity events.now) }
        ensures sent { IfOk result (λ run. SentInOrder capacity events.now) }
        ensures moves { IfOk result (λ run. MovesOwn capacity events.now) }
        ensures reads { IfOk result (λ run. ReadsTakeOwn capacity events.now) }
        ensures receives { IfOk result (λ run. ReceivesTakeOwn capacity events.now) }
        ensures splices { IfOk result (λ run. SplicesPassOn capacity events.now) }

        // A cancel of a canceller's group names, ascending, exactly the operations that were submitted under that group and were neither
        // returned nor dropped. A submission under a group that was canceled is answered with its own buffer, and no other event is.
        ensures cancels { IfOk result (λ run. CancelsMembers capacity events.now run.0.items) }
        ensures at_once { IfOk result (λ run. CanceledAtOnceExactly capacity events.now run.0.items) }

        // An event is refused as NoCanceller exactly when it names a canceller, or a cancel handle, that no reply before it created. Both
        // are numbered in order.
        ensures no_canceller { IfOk result (λ run. NoCancellerExactly events.now run.0.items) }
        ensures cancellers { IfOk result (λ run. CancellersInOrder run.0.items) }
        ensures cancel_handles { IfOk result (λ run. HandlesInOrder run.0.items) }
    {
        let mut replies = Vec::with_capacity(alloc, events.len())?;
        let mut session = Session::new(alloc, capacity)?;
        for event in events {
            let reply = session.step(event)?;
            replies.push_reserved(reply);
        }
        Ok((replies, session))
    }

    // A new handle of the user.
    fn give(&mut self, kind: HandleKind) -> Result<Reply, OutOfMemory>
        ensures { (L : Ledger) → SessionStands self.old L → StepsFor L (Give kind) self.new result }
    {
        let next = self.driver.handles();
        // Memory would run out long before there are so many handles, or in `submit` so many operations.
        if next >= MOST_HANDLES || self.driver.known(next) {
            return Err(OutOfMemory);
        }
        match self.driver.give(kind) {
            Ok(fd) => Ok(Reply::Handle(fd.number())),
            Err(_) => Err(OutOfMemory),
        }
    }

    // Bytes arrive at a handle.
    fn feed(&mut self, h: u64, bytes: &[u8]) -> Result<Reply, OutOfMemory>
        ensures { (L : Ledger) → SessionStands self.old L → StepsFor L (Feed h bytes.now) self.new result }
    {
        if !self.driver.has_handle(h) {
            return Ok(Reply::Refused(Refusal::NoHandle));
        }
        match self.driver.feed(h, bytes) {
            Ok(()) => Ok(Reply::Fed),
            Err(WorldError::BadHandleEvent) => Ok(Reply::Refused(Refusal::BadHandleEvent)),
            Err(WorldError::OutOfMemory) => Err(OutOfMemory),
        }
    }

    // A message arrives at a handle.
    fn feed_message(&mut self, h: u64, addr: u64, bytes: &[u8]) -> Result<Reply, OutOfMemory>
        ensures { (L : Ledger) → SessionStands self.old L → StepsFor L (FeedMessage h addr bytes.now) self.new result }
    {
        if !self.driver.has_handle(h) {
            return Ok(Reply::Refused(Refusal::NoHandle));
        }
        match self.driver.feed_message(h, addr, bytes) {
            Ok(()) => Ok(Reply::Fed),
            Err(WorldError::BadHandleEvent) => Ok(Reply::Refused(Refusal::BadHandleEvent)),
            Err(WorldError::OutOfMemory) => Err(OutOfMemory),
        }
    }

    // What arrives at a handle ends.
    fn end(&mut self, h: u64) -> Reply
        ensures { (L : Ledger) → SessionStands self.old L → SessionAnswers L (End h) result self.new }
    {
        if !self.driver.has_handle(h) {
            return Reply::Refused(Refusal::NoHandle);
        }
        match self.driver.end(h) {
            Ok(()) => Reply::Ended,
            Err(_) => Reply::Refused(Refusal::BadHandleEvent),
        }
    }

    // A handle is looked at.
    fn look(&self, h: u64) -> Result<Reply, OutOfMemory>
        ensures { (L : Ledger) → SessionStands self.now L → StepsFor L (Event.Look h) self.now result }
    {
        if !self.driver.has_handle(h) {
            return Ok(Reply::Refused(Refusal::NoHandle));
        }
        match self.driver.look(h) {
            Ok(look) => Ok(look_reply(look)),
            Err(_) => Err(OutOfMemory),
        }
    }

    // The user gives a handle up.
    fn close(&mut self, h: u64) -> Reply
        ensures { (L : Ledger) → SessionStands self.old L → SessionAnswers L (Event.Close h) result self.new }
    {
        if !self.driver.user_holds(h) {
            return Reply::Refused(Refusal::NoHandle);
        }
        self.driver.close(SharedFd::new(h));
        Reply::Released
    }

    // An operation is polled for a task.
    fn poll(&mut self, n: u64, task: u64) -> Reply
        ensures { (L : Ledger) → SessionStands self.old L → SessionAnswers L (Poll n task) result self.new }
    {
        match self.tokens.take(n as usize) {
            None => Reply::Refused(Refusal::NoOp),
            Some(op) => {
                if !self.driver.holds(&op) {
                    op.forget();
                    return Reply::Refused(Refusal::NoOp);
                }
                match self.driver.poll_op(op, task) {
                    PollOp::Pending(op) => {
                        self.tokens.put(n as usize, op);
                        Reply::Pending
                    }
                    PollOp::Ready(done) => Reply::Handed(done.outcome, plain_held(done.request)),
                }
            }
        }
    }

    // An operation is dropped.
    fn give_up(&mut self, n: u64) -> Reply
        ensures { (L : Ledger) → SessionStands self.old L → SessionAnswers L (Drop n) result self.new }
    {
        match self.tokens.take(n as usize) {
            None => Reply::Refused(Refusal::NoOp),
            Some(op) => {
                if !self.driver.holds(&op) {
                    op.forget();
                    return Reply::Refused(Refusal::NoOp);
                }
                self.driver.drop_op(op);
                Reply::Dropped
            }
        }
    }

    // The cancel of an operation is asked for.
    fn cancel(&mut self, n: u64) -> Result<Reply, OutOfMemory>
        ensures { (L : Ledger) → SessionStands self.old L → StepsFor L (Cancel n) self.new result }
    {
        match self.tokens.of_number(n as usize) {
            None => Ok(Reply::Refused(Refusal::NoOp)),
            Some(op) => {
                if !self.driver.holds(op) {
                    return Ok(Reply::Refused(Refusal::NoOp));
                }
                match self.driver.cancel_op(op) {
                    Ok(()) => Ok(Reply::Asked),
                    Err(_) => Err(OutOfMemory),
                }
            }
        }
    }

    // The queue is entered, and what is done is reaped.
    fn turn(&mut self) -> Result<Reply, OutOfMemory>
        ensures { (L : Ledger) → SessionStands self.old L → StepsFor L (Turn) self.new result }
    {
        let turned = self.driver.submit();
        match turned.stop {
            None => Ok(Reply::Turned(turned.reaped, turned.closed, turned.woken)),
            Some(_) => Err(OutOfMemory),
        }
    }

    // What is in flight at a place is executed.
    fn execute(&mut self, place: usize, told: Told) -> Result<Reply, OutOfMemory>
        ensures { (L : Ledger) → SessionStands self.old L → StepsFor L (Exec place told) self.new result }
    {
        match self.driver.execute(place, told) {
            Ok(executed) => Ok(executed_reply(executed)),
            Err(why) => refused_execution(why),
        }
    }
}

// The reply to a look.
fn look_reply(look: Look) -> Reply
    ensures { result ≡ machine.look_reply look }
{
    match look {
        Look::Bytes(bytes) => Reply::Output(bytes),
        Look::Messages(messages) => Reply::Messages(messages),
    }
}

// The reply to what was executed.
fn executed_reply(executed: Executed) -> Reply
    ensures { result ≡ reply_to executed }
{
    match executed {
        Executed::Op(n) => Reply::ExecutedOp(n),
        Executed::Close(h) => Reply::ExecutedClose(h),
    }
}

// The answer to an execution that was refused.
fn refused_execution(why: ExecRefusal) -> Result<Reply, OutOfMemory>
    ensures { AnswersRefusal why result }
{
    match why {
        ExecRefusal::NotFlying => Ok(Reply::Refused(Refusal::NotFlying)),
        ExecRefusal::Waiting => Ok(Reply::Refused(Refusal::Waiting)),
        ExecRefusal::BadOutcome => Ok(Reply::Refused(Refusal::BadOutcome)),
        ExecRefusal::OutOfMemory => Err(OutOfMemory),
    }
}

// What a request holds, as plain data.
fn plain_held(request: Request<Buf, VecBuf>) -> HeldBuf
    ensures { result ≡ held_of (plain_request built request) }
{
    match request.into_held() {
        Held::One(buf) => Held::One(buf.into_spec()),
        Held::Parts(parts) => Held::Parts(parts.into_spec()),
        Held::Nothing => Held::Nothing,
    }
}
