// What comes at a handle, before an inbox has it.
ghost use Rattle.std.specs.Prelude.{◌≡◌, ◌≤◌, ◌<◌, ◌+◌, ◌∷◌, [], None, Some, IsTrue, IsSome, IfOk, OnOk};
ghost use Rattle.machine.specs.declared.request.Request.TheVariants.{Recv};
ghost use Rattle.net_stream.specs.Drives.{FitsOp, IsRecv, KeepsOther};
ghost use Rattle.net_stream.specs.Incoming.{BeginsReceive, Gives, JoinsReceive, PollsReceive, idle_coming};

use crate::inbox::Inbox;
use driver_core::{
    CancelHandle, Done, MOST_GIVEN, Op, PollOp, SubmitError, SubmitFault, Submitted,
};
use handle_core::SharedFd;
use machine::{Outcome, Request};
use op_driver::OpDriver;
use rent_buf::{Rent, VecBuf};
use std::marker::Model;

/// The receive that a connection waits for, or what came of the last one. (not in monoio)
pub struct Incoming {
    // Its buffer, while none waits.
    buf: Option<Rent>,
    op: Option<Op>,
    // How one ended whose bytes the inbox hasn't yet.
    outcome: Option<Outcome>,
}

impl Model for Incoming {
    ghost use Rattle.net_stream.specs.Held.{IsApart, IsHeld};
    ghost use Rattle.net_stream.specs.Incoming.{Coming, ended_with};

    ghost Value = { Coming };

    ghost view = { λ c. record { op = c.op; ended = ended_with c.outcome c.buf } };

    ghost invariant = { λ c. IsApart c.buf c.op × IsHeld c.op c.outcome };
}

// What a poll of an operation that waits came to.
#[derive(Clone, Copy)]
pub(crate) enum Polled {
    // It waits on.
    Waits,
    // It ended.
    Ended,
    // It found no memory, and waits on.
    OutOfMemory,
}

// The operation of this token waits, where none did.
pub(crate) fn hold(slot: &mut Option<Op>, op: Op)
    requires { slot.old ≡ None }
    ensures { slot.new ≡ Some op }
{
    match slot.replace(op) {
        Some(_) => unreachable!(),
        None => {}
    }
}

// The buffer of a receive.
fn buffer_of(request: Request<Rent, VecBuf>, fd: SharedFd) -> Rent
    requires { IsRecv fd request }
    ensures { request ≡ Recv fd result }
{
    let _ = fd;
    match request {
        Request::Recv { fd: _, buf } => buf,
        _ => unreachable!(),
    }
}

impl Incoming {
    // None waits, and nothing came.
    pub(crate) fn over(buf: Rent) -> Incoming
        ensures { result ≡ idle_coming }
    {
        Incoming {
            buf: Some(buf),
            op: None,
            outcome: None,
        }
    }

    /// Whether a receive waits: then none has ended.
    pub fn waits(&self) -> bool
        ensures yes { IsTrue result → IsSome self.now.op }
        ensures no { IsSome self.now.op → IsTrue result }
        ensures none { IsSome self.now.op → self.now.ended ≡ None }
    {
        let _ = self.buf.is_some();
        self.op.is_some()
    }

    // Whether one has ended whose bytes the inbox hasn't yet.
    pub(crate) fn has_ended(&self) -> bool
        ensures yes { IsTrue result → IsSome self.now.ended }
        ensures no { IsSome self.now.ended → IsTrue result }
        ensures none { IsTrue result → self.now.op ≡ None }
    {
        let _ = self.buf.is_some();
        self.outcome.is_some()
    }

    // Submits a receive into its buffer.
    pub(crate) fn submit<D: OpDriver<Rent>>(
        &mut self,
        driver: &mut D,
        fd: SharedFd,
    ) -> Result<(), SubmitFault>
        requires none { self.old ≡ idle_coming }
        requires held { IsTrue (D.held driver.old (fd ∷ [])) }
        requires counter { (D.ops driver.old).given < MOST_GIVEN }
        ensures begins { BeginsReceive D.submits driver.old driver.new fd self.new result }
        ensures fits { FitsOp (D.ops driver.new) self.new.op (IsRecv fd) }
        ensures others { KeepsOther (D.ops driver.old) self.old.op (D.ops driver.new) self.new.op }
        ensures given { (D.ops driver.new).given ≤ (D.ops driver.old).given + 1 }
        ensures waits { OnOk result (IsSome self.new.op) }
    {
        match self.buf.take() {
            Some(buf) => {
                let mut buf = buf;
                buf.clear();
                match driver.submit_op(Request::Recv { fd, buf }) {
                    Ok(op) => {
                        hold(&mut self.op, op);
                        Ok(())
                    }
                    Err(refused) => {
                        let SubmitError { why, request } = refused;
                        self.buf = Some(buffer_of(request, fd));
                        Err(why)
                    }
                }
            }
            None => unreachable!(),
        }
    }

    // Submits a receive into its buffer under a group: whether it waits. Under a canceled group none does.
    pub(crate) fn submit_under<D: OpDriver<Rent>>(
        &mut self,
        driver: &mut D,
        fd: SharedFd,
        group: CancelHandle,
    ) -> Result<bool, SubmitFault>
        requires none { self.old ≡ idle_coming }
        requires held { IsTrue (D.held driver.old (fd ∷ [])) }
        requires known { group < D.groups driver.old }
        requires counter { (D.ops driver.old).given < MOST_GIVEN }
        ensures joins { JoinsReceive D.joins driver.old driver.new fd group self.new result }
        ensures fits { FitsOp (D.ops driver.new) self.new.op (IsRecv fd) }
        ensures others { KeepsOther (D.ops driver.old) self.old.op (D.ops driver.new) self.new.op }
        ensures given { (D.ops driver.new).given ≤ (D.ops driver.old).given + 1 }
        ensures waits { IfOk result (λ waits. IsTrue waits → IsSome self.new.op) }
    {
        match self.buf.take() {
            Some(buf) => {
                let mut buf = buf;
                buf.clear();
                match driver.submit_under(Request::Recv { fd, buf }, group) {
                    Ok(Submitted::Op(op)) => {
                        hold(&mut self.op, op);
                        Ok(true)
                    }
                    Ok(Submitted::Canceled(request)) => {
                        self.buf = Some(buffer_of(request, fd));
                        Ok(false)
                    }
                    Err(refused) => {
                        let SubmitError { why, request } = refused;
                        self.buf = Some(buffer_of(request, fd));
                        Err(why)
                    }
                }
            }
            None => unreachable!(),
        }
    }

    // Polls the receive that waits.
    pub(crate) fn poll<D: OpDriver<Rent>>(
        &mut self,
        driver: &mut D,
        fd: SharedFd,
        task: u64,
    ) -> Polled
        requires waits { IsSome self.old.op }
        requires fits { FitsOp (D.ops driver.old) self.old.op (IsRecv fd) }
        ensures polls { PollsReceive D.polls driver.old driver.new fd self.old self.new task result }
        ensures fits { FitsOp (D.ops driver.new) self.new.op (IsRecv fd) }
        ensures others { KeepsOther (D.ops driver.old) self.old.op (D.ops driver.new) self.new.op }
        ensures given { (D.ops driver.new).given ≡ (D.ops driver.old).given }
    {
        match self.op.take() {
            Some(op) => match driver.poll_op(op, task) {
                Ok(PollOp::Pending(op)) => {
                    hold(&mut self.op, op);
                    Polled::Waits
                }
                Ok(PollOp::Ready(done)) => {
                    let Done { outcome, request } = done;
                    self.outcome = Some(outcome);
                    self.buf = Some(buffer_of(request, fd));
                    Polled::Ended
                }
                Err((_, op)) => {
                    hold(&mut self.op, op);
                    Polled::OutOfMemory
                }
            },
            None => unreachable!(),
        }
    }

    // Gives an inbox what came, where that wants more and something did: whether it was given.
    pub(crate) fn give(&mut self, inbox: &mut Inbox) -> bool
        ensures gives { Gives self.old inbox.old self.new inbox.new result }
    {
        if !inbox.wants_more() {
            return false;
        }
        match self.outcome.take() {
            Some(outcome) => match self.buf.take() {
                Some(buf) => {
                    self.buf = Some(inbox.take_in(outcome, buf));
                    true
                }
                None => unreachable!(),
            },
            None => false,
        }
    }

    // The token of the receive that waits.
    pub(crate) fn into_op(self) -> Option<Op>
        ensures { result ≡ self.op }
    {
        let Incoming {
            buf: _,
            op,
            outcome: _,
        } = self;
        op
    }
}
