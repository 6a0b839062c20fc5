//! A session: the completion driver over a ring that fails where it is told to, and what it keeps by number.
ghost use Rattle.std.specs.Prelude.{◌≡◌, ◌<◌, ◌↔◌, ◌⊎◌, IfOk, IsTrue, Some};
ghost use Rattle.memchr.specs.Find.{is_byte, places};
ghost use Rattle.rent_buf.specs.Buf.{built};
ghost use Rattle.machine.specs.Request.{held_of, plain_request};
ghost use Rattle.driver_core.specs.declared.op.Op.{Op as Token};
ghost use Rattle.uring_driver.specs.Uring.{holds_handle};
ghost use Rattle.fault_run.specs.Events.{Asks, ClosesIf, Drops, Gives, HasOp, MakesTurn, Polls, RefusesNoOp, StepsEvent};
ghost use Rattle.fault_run.specs.Events.{driver_in, stopped_answer};
ghost use Rattle.fault_run.specs.Lines.{IsTaken, IsTakenLine};
ghost use Rattle.fault_run.specs.Script.{IsFresh};
ghost use Rattle.fault_run.specs.Steps.{Steps};

use crate::answer::{Answer, Halt};
use crate::line::Line;
use driver_core::{Stop, Tokens, Turned};
use machine::{Event, MOST_HANDLES, Refusal, Reply, Request, SharedFd};
use memchr::memchr_iter;
use rent_buf::{Buf, Held, HeldBuf, NumList, OutOfMemory, VecBuf};
use ring_core::{FaultRing, MemRing};
use std::alloc::Global;
use uring_driver::{Driver as _, IoUringDriver, PollOp};

mod groups;
mod ring;
mod submission;

/// A driver over a ring in memory whose enters fail or are busy as a script says, and which completes nothing by itself. It keeps the
/// token of each operation that is neither returned nor dropped, each canceller and each cancel handle, by number. (not in monoio)
pub(crate) struct FaultSession {
    driver: IoUringDriver<FaultRing, Buf>,
    tokens: Tokens,
    // How many handles were given.
    handles: u64,
    alloc: Global,
}

impl Drop for FaultSession {
    fn drop(self) {
        let FaultSession {
            driver: _,
            tokens,
            handles: _,
            alloc: _,
        } = self;
        tokens.forget();
    }
}

impl FaultSession {
    /// A session over a ring whose queue holds `capacity` entries, at least one. The byte at N of `enters` says what enter N does: it fails
    /// at `f`, is busy at `b`, and takes the queue at any other and behind the last. `OutOfMemory` comes if memory runs out.
    /// (not in monoio)
    pub(crate) fn new(
        alloc: Global,
        capacity: u32,
        enters: &[u8],
    ) -> Result<FaultSession, OutOfMemory>
        requires { 0 < capacity }
        ensures { IfOk result (λ session. IsFresh capacity enters.now session) }
    {
        let failing = places_of(alloc, b'f', enters)?;
        let busy = places_of(alloc, b'b', enters)?;
        let ring = FaultRing::new(MemRing::new(alloc, capacity), failing, busy);
        match IoUringDriver::over(alloc, ring) {
            Ok(driver) => Ok(FaultSession {
                driver,
                tokens: Tokens::new(alloc),
                handles: 0,
                alloc,
            }),
            Err(_) => Err(OutOfMemory),
        }
    }

    /// Does what a line says, and answers it. `OutOfMemory` comes if memory runs out. (not in monoio)
    pub(crate) fn step(&mut self, line: Line) -> Result<Answer, OutOfMemory>
        requires { IsTakenLine line }
        ensures { IfOk result (λ answer. Steps self.old line answer self.new) }
    {
        match line {
            Line::Of(event) => self.answer(event),
            Line::Complete(word, told) => self.complete(word, told),
            Line::Ring => self.show(),
        }
    }

    // Does what an event says.
    fn answer(&mut self, event: Event) -> Result<Answer, OutOfMemory>
        requires { IsTaken event }
        ensures { IfOk result (λ answer. StepsEvent self.old event answer self.new) }
    {
        match event {
            Event::Give(_) => self.give(),
            Event::Close(h) => Ok(self.close(h)),
            Event::Submit(request, under, _) => self.submit(request, under),
            Event::Poll(n, task) => Ok(self.poll(n, task)),
            Event::Drop(n) => Ok(self.give_up(n)),
            Event::Cancel(n) => self.cancel(n),
            Event::NewCanceller => self.new_canceller(),
            Event::NewHandle(c) => self.new_handle(c),
            Event::CancelAll(c) => self.cancel_all(c),
            Event::Turn => self.turn(),
            _ => unreachable!(),
        }
    }

    // A new handle of the user. Of which kind it is makes no difference: no bytes are moved.
    fn give(&mut self) -> Result<Answer, OutOfMemory>
        ensures { IfOk result (λ answer. Gives self.old answer self.new) }
    {
        let next = self.handles;
        // Memory would run out long before there are so many handles.
        if next >= MOST_HANDLES || self.driver.known(next) {
            return Err(OutOfMemory);
        }
        match self.driver.adopt(next) {
            Ok(fd) => {
                self.handles += 1;
                Ok(Answer::Plain(Reply::Handle(fd.number())))
            }
            Err(_) => Err(OutOfMemory),
        }
    }

    // The user gives a handle up.
    fn close(&mut self, h: u64) -> Answer
        ensures { ClosesIf (holds_handle (driver_in self.old) h) self.old h result self.new }
    {
        if !self.driver.user_holds(h) {
            return refused(Refusal::NoHandle);
        }
        self.driver.close(SharedFd::new(h));
        Answer::Plain(Reply::Released)
    }

    // The driver holds the operation of a number.
    fn holds(&self, n: u64) -> bool
        ensures { IsTrue result ↔ ((op : Token) × HasOp self.now n op) }
    {
        match self.tokens.of_number(n as usize) {
            None => false,
            Some(op) => self.driver.holds(op),
        }
    }

    // An operation is polled for a task.
    fn poll(&mut self, n: u64, task: u64) -> Answer
        ensures { RefusesNoOp self.old n result self.new ⊎ Polls self.old n task result self.new }
    {
        if !self.holds(n) {
            return refused(Refusal::NoOp);
        }
        let Some(op) = self.tokens.take(n as usize) else {
            unreachable!();
        };
        match self.driver.poll_op(op, task) {
            PollOp::Pending(op) => {
                self.tokens.put(n as usize, op);
                Answer::Plain(Reply::Pending)
            }
            PollOp::Ready(done) => {
                Answer::Plain(Reply::Handed(done.outcome, plain_held(done.request)))
            }
        }
    }

    // An operation is dropped.
    fn give_up(&mut self, n: u64) -> Answer
        ensures { RefusesNoOp self.old n result self.new ⊎ Drops self.old n result self.new }
    {
        if !self.holds(n) {
            return refused(Refusal::NoOp);
        }
        let Some(op) = self.tokens.take(n as usize) else {
            unreachable!();
        };
        self.driver.drop_op(op);
        Answer::Plain(Reply::Dropped)
    }

    // The cancel of an operation is asked for.
    fn cancel(&mut self, n: u64) -> Result<Answer, OutOfMemory>
        ensures { IfOk result (λ answer. RefusesNoOp self.old n answer self.new ⊎ Asks self.old n answer self.new) }
    {
        match self.tokens.of_number(n as usize) {
            None => Ok(refused(Refusal::NoOp)),
            Some(op) => {
                if !self.driver.holds(op) {
                    return Ok(refused(Refusal::NoOp));
                }
                match self.driver.cancel_op(op) {
                    Ok(()) => Ok(Answer::Plain(Reply::Asked)),
                    Err(_) => Err(OutOfMemory),
                }
            }
        }
    }

    // The queue is entered, and what is ready is treated.
    fn turn(&mut self) -> Result<Answer, OutOfMemory>
        ensures { IfOk result (λ answer. MakesTurn self.old answer self.new) }
    {
        turn_answer(self.driver.submit())
    }
}

// What a turn answers.
fn turn_answer(turned: Turned) -> Result<Answer, OutOfMemory>
    ensures { IfOk result (λ answer. stopped_answer turned turned.stop ≡ Some answer) }
{
    let Turned {
        reaped,
        closed,
        woken,
        stop,
    } = turned;
    let reply = Reply::Turned(reaped, closed, woken);
    match stop {
        None => Ok(Answer::Plain(reply)),
        Some(Stop::RingFault) => Ok(Answer::Stopped(reply, Halt::RingFault)),
        Some(Stop::Busy) => Ok(Answer::Stopped(reply, Halt::Busy)),
        Some(Stop::BadCompletion(word)) => Ok(Answer::Stopped(reply, Halt::BadCompletion(word))),
        // A driver over a ring never stops so.
        Some(Stop::Os(_)) => Err(OutOfMemory),
        Some(Stop::OutOfMemory) => Err(OutOfMemory),
    }
}

// An event was refused.
fn refused(refusal: Refusal) -> Answer
    ensures { result ≡ Answer.Plain (Reply.Refused refusal) }
{
    Answer::Plain(Reply::Refused(refusal))
}

// The places of a letter in a text.
fn places_of(alloc: Global, letter: u8, text: &[u8]) -> Result<NumList, OutOfMemory>
    ensures { IfOk result (λ numbers. numbers ≡ places (is_byte letter) text.now) }
{
    let mut numbers = NumList::new(alloc);
    for place in memchr_iter(letter, text) {
        numbers.push(place as u64)?;
    }
    Ok(numbers)
}

// What a request holds, as plain data.
fn plain_held(request: Request<Buf, VecBuf>) -> HeldBuf
    ensures { result ≡ held_of (plain_request built request) }
{
    match request.into_held() {
        Held::One(buf) => Held::One(buf.into_spec()),
        Held::Parts(parts) => Held::Parts(parts.into_spec()),
        Held::Nothing => Held::Nothing,
    }
}
