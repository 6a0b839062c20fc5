//! What a session is made of, and how it answers each event: its driver, and the tokens, cancellers and cancel handles that it keeps by
//! number.
ghost use Rattle.std.specs.Prelude.{ℕ, ◌≡◌, ◌<◌, true, length, is_some, OnOk, IsOk};
ghost use Rattle.rent_buf.specs.Buf.{built};
ghost use Rattle.machine.specs.Request.{held_of, plain_request};
ghost use Rattle.machine.specs.Step as machine;
ghost use Rattle.machine.specs.declared.ledger.Event.TheVariants.{Give, Feed, FeedMessage, End, Poll, Drop, Cancel};
ghost use Rattle.driver_core.specs.Tokens.{token_at, by_number};
ghost use Rattle.ready_driver.specs.Legacy.{Legacy};
ghost use Rattle.ready_driver.specs.Readiness.{IsDriven};
ghost use Rattle.ready_driver.specs.Turns.{AreReported};
ghost use Rattle.ready_run.specs.ReadySession.{SessionStands, AreParts, SessionAnswers, StepsFor, TakesNoMemory, is_live};

use driver_core::{Driver as _, PollOp, Tokens};
use machine::{
    Event, HandleKind, Look, MOST_HANDLES, Refusal, Reply, Request, SharedFd, WorldError,
};
use ready_driver::{LegacyDriver, MemIo};
use rent_buf::{Buf, Held, HeldBuf, OutOfMemory, VecBuf};

mod groups;
mod submission;

/// The driver of a session, and the token of each operation that is neither returned nor dropped, each canceller and each cancel handle,
/// by number. Its calls answer events. Those that read both parts want them to be of one driver as plain data. (not in monoio)
pub struct Inner {
    pub(crate) driver: LegacyDriver<MemIo, Buf>,
    pub(crate) tokens: Tokens,
}

impl Drop for Inner {
    fn drop(self) {
        let Inner { driver: _, tokens } = self;
        tokens.forget();
    }
}

impl Inner {
    // Does what an event says on the driver, and answers what the driver as plain data does.
    pub(crate) fn answer(&mut self, event: &Event) -> Result<Reply, OutOfMemory>
        requires driven { IsDriven event.now }
        requires parts { AreParts self.old }
        ensures answers { (D : Legacy) → SessionStands self.old D → StepsFor D event.now self.new result }
        ensures memory { TakesNoMemory event.now → IsOk result }
    {
        match event {
            Event::Give(kind) => self.give(*kind),
            Event::Feed(h, bytes) => self.feed(*h, bytes.as_slice()),
            Event::FeedMessage(h, addr, bytes) => self.feed_message(*h, *addr, bytes.as_slice()),
            Event::End(h) => Ok(self.end(*h)),
            Event::Look(h) => self.look(*h),
            Event::Close(h) => Ok(self.close(*h)),
            Event::Submit(request, under, false) => self.submit_copy(request, *under),
            Event::Poll(n, task) => self.poll(*n, *task),
            Event::Drop(n) => Ok(self.give_up(*n)),
            Event::Cancel(n) => self.cancel(*n),
            Event::NewCanceller => self.new_canceller(),
            Event::NewHandle(c) => self.new_handle(*c),
            Event::CancelAll(c) => self.cancel_all(*c),
            Event::Submit(_, _, true) | Event::Turn | Event::Exec(_, _) => unreachable!(),
        }
    }

    // Does so of an event that it takes: a submission's bytes are moved into its operation's buffer.
    pub(crate) fn apply(&mut self, event: Event) -> Result<Reply, OutOfMemory>
        requires driven { IsDriven event }
        requires parts { AreParts self.old }
        ensures answers { (D : Legacy) → SessionStands self.old D → StepsFor D event self.new result }
        ensures memory { TakesNoMemory event → IsOk result }
    {
        match event {
            Event::Submit(request, under, _) => self.submit(request, under),
            event => self.answer(&event),
        }
    }

    // A new handle of the user.
    fn give(&mut self, kind: HandleKind) -> Result<Reply, OutOfMemory>
        requires { AreParts self.old }
        ensures { (D : Legacy) → SessionStands self.old D → StepsFor D (Give kind) self.new result }
    {
        // Memory would run out long before there are so many handles, or in `submit` so many operations.
        if self.driver.handles() >= MOST_HANDLES {
            return Err(OutOfMemory);
        }
        match self.driver.give(kind) {
            Ok(fd) => Ok(Reply::Handle(fd.number())),
            Err(_) => Err(OutOfMemory),
        }
    }

    // Bytes arrive at a handle.
    fn feed(&mut self, h: u64, bytes: &[u8]) -> Result<Reply, OutOfMemory>
        ensures { (D : Legacy) → SessionStands self.old D → StepsFor D (Feed h bytes.now) self.new result }
    {
        if !self.driver.has_handle(h) {
            return Ok(Reply::Refused(Refusal::NoHandle));
        }
        match self.driver.feed(h, bytes) {
            Ok(()) => Ok(Reply::Fed),
            Err(WorldError::BadHandleEvent) => Ok(Reply::Refused(Refusal::BadHandleEvent)),
            Err(WorldError::OutOfMemory) => Err(OutOfMemory),
        }
    }

    // A message arrives at a handle.
    fn feed_message(&mut self, h: u64, addr: u64, bytes: &[u8]) -> Result<Reply, OutOfMemory>
        ensures { (D : Legacy) → SessionStands self.old D → StepsFor D (FeedMessage h addr bytes.now) self.new result }
    {
        if !self.driver.has_handle(h) {
            return Ok(Reply::Refused(Refusal::NoHandle));
        }
        match self.driver.feed_message(h, addr, bytes) {
            Ok(()) => Ok(Reply::Fed),
            Err(WorldError::BadHandleEvent) => Ok(Reply::Refused(Refusal::BadHandleEvent)),
            Err(WorldError::OutOfMemory) => Err(OutOfMemory),
        }
    }

    // What arrives at a handle ends.
    fn end(&mut self, h: u64) -> Reply
        ensures { (D : Legacy) → SessionStands self.old D → SessionAnswers D (End h) result self.new }
    {
        if !self.driver.has_handle(h) {
            return Reply::Refused(Refusal::NoHandle);
        }
        match self.driver.end(h) {
            Ok(()) => Reply::Ended,
            Err(_) => Reply::Refused(Refusal::BadHandleEvent),
        }
    }

    // A handle is looked at.
    fn look(&self, h: u64) -> Result<Reply, OutOfMemory>
        ensures { (D : Legacy) → SessionStands self.now D → StepsFor D (Event.Look h) self.now result }
    {
        if !self.driver.has_handle(h) {
            return Ok(Reply::Refused(Refusal::NoHandle));
        }
        match self.driver.look(h) {
            Ok(look) => Ok(look_reply(look)),
            Err(_) => Err(OutOfMemory),
        }
    }

    // The user gives a handle up.
    fn close(&mut self, h: u64) -> Reply
        ensures { (D : Legacy) → SessionStands self.old D → SessionAnswers D (Event.Close h) result self.new }
    {
        if !self.driver.user_holds(h) {
            return Reply::Refused(Refusal::NoHandle);
        }
        self.driver.close(SharedFd::new(h));
        Reply::Released
    }

    // An operation is polled for a task, behind a turn, so that the driver has the bits of each handle.
    fn poll(&mut self, n: u64, task: u64) -> Result<Reply, OutOfMemory>
        requires { AreParts self.old }
        ensures { (D : Legacy) → SessionStands self.old D → StepsFor D (Poll n task) self.new result }
    {
        if !self.has_token(n) {
            return Ok(Reply::Refused(Refusal::NoOp));
        }
        // Memory would run out long before there are so many handles.
        if self.driver.handles() >= MOST_HANDLES {
            return Err(OutOfMemory);
        }
        self.turn()?;
        self.poll_reported(n, task)
    }

    // The token of a number is kept: its operation is neither returned nor dropped.
    fn has_token(&self, n: u64) -> bool
        ensures there { result ≡ is_some (token_at (by_number self.now.tokens) n) }
        ensures live { (D : Legacy) → SessionStands self.now D → result ≡ is_live D n }
    {
        match self.tokens.of_number(n as usize) {
            None => false,
            Some(_) => true,
        }
    }

    // A turn: each handle that is held has the bits of what it is ready for.
    fn turn(&mut self) -> Result<(), OutOfMemory>
        ensures stands { (D : Legacy) → SessionStands self.old D → SessionStands self.new D }
        ensures reported { OnOk result ((D : Legacy) → SessionStands self.old D →
            AreReported self.new.driver.handling.table self.new.driver.handling.records self.new.driver.handling.io.world) }
        ensures world { self.new.driver.handling.io.world ≡ self.old.driver.handling.io.world }
        ensures tokens { self.new.tokens ≡ self.old.tokens }
    {
        let turned = self.driver.submit();
        match turned.stop {
            None => Ok(()),
            Some(_) => Err(OutOfMemory),
        }
    }

    // An operation whose token is kept is polled for a task, where the driver has the bits of each handle.
    fn poll_reported(&mut self, n: u64, task: u64) -> Result<Reply, OutOfMemory>
        requires parts { AreParts self.old }
        requires there { is_some (token_at (by_number self.old.tokens) n) ≡ true }
        requires few { length self.old.driver.handling.io.world < MOST_HANDLES }
        ensures { AreReported self.old.driver.handling.table self.old.driver.handling.records self.old.driver.handling.io.world →
            (D : Legacy) → SessionStands self.old D → StepsFor D (Poll n task) self.new result }
    {
        match self.tokens.take(n as usize) {
            None => unreachable!(),
            Some(op) => match self.driver.poll_op(op, task) {
                Ok(PollOp::Pending(op)) => {
                    self.tokens.put(n as usize, op);
                    Ok(Reply::Pending)
                }
                Ok(PollOp::Ready(done)) => {
                    Ok(Reply::Handed(done.outcome, plain_held(done.request)))
                }
                Err((_, same)) => {
                    self.tokens.put(n as usize, same);
                    Err(OutOfMemory)
                }
            },
        }
    }

    // An operation is dropped.
    fn give_up(&mut self, n: u64) -> Reply
        requires { AreParts self.old }
        ensures { (D : Legacy) → SessionStands self.old D → SessionAnswers D (Drop n) result self.new }
    {
        match self.tokens.take(n as usize) {
            None => Reply::Refused(Refusal::NoOp),
            Some(op) => {
                self.driver.drop_op(op);
                Reply::Dropped
            }
        }
    }

    // The cancel of an operation is asked for.
    fn cancel(&mut self, n: u64) -> Result<Reply, OutOfMemory>
        requires { AreParts self.old }
        ensures { (D : Legacy) → SessionStands self.old D → StepsFor D (Cancel n) self.new result }
    {
        match self.tokens.of_number(n as usize) {
            None => Ok(Reply::Refused(Refusal::NoOp)),
            Some(op) => match self.driver.cancel_op(op) {
                Ok(()) => Ok(Reply::Asked),
                Err(_) => Err(OutOfMemory),
            },
        }
    }
}

// The reply to a look.
fn look_reply(look: Look) -> Reply
    ensures { result ≡ machine.look_reply look }
{
    match look {
        Look::Bytes(bytes) => Reply::Output(bytes),
        Look::Messages(messages) => Reply::Messages(messages),
    }
}

// What a request holds, as plain data.
fn plain_held(request: Request<Buf, VecBuf>) -> HeldBuf
    ensures { result ≡ held_of (plain_request built request) }
{
    match request.into_held() {
        Held::One(buf) => Held::One(buf.into_spec()),
        Held::Parts(parts) => Held::Parts(parts.into_spec()),
        Held::Nothing => Held::Nothing,
    }
}
