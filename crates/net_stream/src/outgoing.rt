// What goes to a handle, once an outbox gave it.
ghost use Rattle.std.specs.Prelude.{◌≡◌, ◌≤◌, ◌<◌, ◌+◌, ◌∷◌, [], None, IsTrue, IsSome, IfOk, OnOk, drop};
ghost use Rattle.machine.specs.declared.request.Request.TheVariants.{Send};
ghost use Rattle.net_stream.specs.Drives.{FitsOp, IsSend, KeepsOther};
ghost use Rattle.net_stream.specs.Outgoing.{BeginsSend, JoinsSend, Loads, PollsSend, SentOutIf, has_bytes, idle_going, send_fault, sent_by};

use crate::incoming::{Polled, hold};
use crate::outbox::Outbox;
use driver_core::{
    CancelHandle, Done, MOST_GIVEN, Op, PollOp, SubmitError, SubmitFault, Submitted,
};
use handle_core::SharedFd;
use machine::{Outcome, Request};
use op_driver::OpDriver;
use rent_buf::{IoBufMut as _, IoFault, Rent, VecBuf};
use std::marker::Model;
use std::mem;

/// The send that a connection waits for, or the bytes that the next one is to have. (not in monoio)
pub struct Outgoing {
    // The buffer with the bytes of the next send, while none waits.
    buf: Option<Rent>,
    // An empty one, for what a short send leaves.
    spare: Rent,
    op: Option<Op>,
}

impl Model for Outgoing {
    ghost use Rattle.std.specs.Prelude.{◌≡◌, []};
    ghost use Rattle.net_stream.specs.Held.{HasTotal, IsApart, bytes_here};
    ghost use Rattle.net_stream.specs.Outgoing.{Going};

    ghost Value = { Going };

    ghost view = { λ g. record { unsent = bytes_here g.buf; room = g.spare.total; op = g.op } };

    ghost invariant = { λ g. IsApart g.buf g.op × HasTotal g.spare.total g.buf × (g.spare.bytes ≡ []) };
}

// How many bytes an outcome says were sent.
fn sent_by(outcome: Outcome) -> u32
    ensures { result ≡ sent_by outcome }
{
    match outcome {
        Outcome::Count(count) => count,
        Outcome::From(count, _) => count,
        _ => 0,
    }
}

// The fault of a send of these bytes.
fn send_fault(outcome: Outcome, bytes: &[u8]) -> Option<IoFault>
    ensures { result ≡ send_fault outcome bytes.now }
{
    match outcome {
        Outcome::Count(0) => {
            if bytes.is_empty() {
                return None;
            }
            Some(IoFault::WriteZero)
        }
        Outcome::Fail(error) => Some(IoFault::Os(error)),
        _ => None,
    }
}

// The buffer of a send.
fn buffer_of(request: Request<Rent, VecBuf>, fd: SharedFd, total: usize) -> Rent
    requires { IsSend fd total request }
    ensures request { request ≡ Send fd result }
    ensures total { result.total ≡ total }
{
    let _ = (fd, total);
    match request {
        Request::Send { fd: _, buf } => buf,
        _ => unreachable!(),
    }
}

// Leaves of a buffer the bytes behind the first ones. They go into the spare one, which is empty, and the two change places.
fn keep_rest(buf: Rent, spare: &mut Rent, count: usize) -> Rent
    requires total { buf.total ≡ spare.old.total }
    requires spare { spare.old.bytes ≡ [] }
    ensures rest { result.bytes ≡ drop count buf.bytes }
    ensures total { result.total ≡ buf.total }
    ensures spare { spare.new ≡ spare.old }
{
    let mut buf = buf;
    if count >= buf.len() {
        buf.clear();
        return buf;
    }
    if count == 0 {
        return buf;
    }
    spare.store(0, &buf.as_slice()[count..]);
    buf.clear();
    mem::swap(&mut buf, spare);
    buf
}

impl Outgoing {
    // Nothing is to go.
    pub(crate) fn over(buf: Rent, spare: Rent) -> Outgoing
        requires empty { (buf.bytes ≡ []) × (spare.bytes ≡ []) }
        requires room { buf.total ≡ spare.total }
        ensures { result ≡ idle_going spare.total }
    {
        Outgoing {
            buf: Some(buf),
            spare,
            op: None,
        }
    }

    /// Whether a send waits: then it has all bytes.
    pub fn waits(&self) -> bool
        ensures yes { IsTrue result → IsSome self.now.op }
        ensures no { IsSome self.now.op → IsTrue result }
        ensures none { SentOutIf self.now.op self.now.unsent }
    {
        let _ = self.spare.len();
        self.op.is_some()
    }

    /// Whether there are bytes for the next send.
    pub fn has_rest(&self) -> bool
        ensures { result ≡ has_bytes self.now.unsent }
    {
        match &self.buf {
            Some(buf) => !buf.is_empty(),
            None => false,
        }
    }

    // Takes bytes of an outbox, as many as there is room for. Where it takes all, the two buffers change places.
    pub(crate) fn load(&mut self, outbox: &mut Outbox)
        requires none { (self.old.op ≡ None) × (self.old.unsent ≡ []) }
        ensures loads { Loads self.old outbox.old self.new outbox.new }
    {
        match &mut self.buf {
            Some(buf) => {
                if outbox.swap_out(buf) {
                    buf.keeps_bounds();
                    return;
                }
                buf.keeps_bounds();
                let bytes = outbox.unsent();
                let count = buf.total().min(bytes.len());
                buf.store(0, &bytes[..count]);
                outbox.take_out(count);
            }
            None => unreachable!(),
        }
    }

    // Submits a send of its buffer.
    pub(crate) fn submit<D: OpDriver<Rent>>(
        &mut self,
        driver: &mut D,
        fd: SharedFd,
    ) -> Result<(), SubmitFault>
        requires none { self.old.op ≡ None }
        requires held { IsTrue (D.held driver.old (fd ∷ [])) }
        requires counter { (D.ops driver.old).given < MOST_GIVEN }
        ensures begins { BeginsSend D.submits driver.old driver.new fd self.old self.new result }
        ensures fits { FitsOp (D.ops driver.new) self.new.op (IsSend fd self.new.room) }
        ensures others { KeepsOther (D.ops driver.old) self.old.op (D.ops driver.new) self.new.op }
        ensures given { (D.ops driver.new).given ≤ (D.ops driver.old).given + 1 }
        ensures waits { OnOk result (IsSome self.new.op) }
        ensures room { self.new.room ≡ self.old.room }
    {
        match self.buf.take() {
            Some(buf) => match driver.submit_op(Request::Send { fd, buf }) {
                Ok(op) => {
                    hold(&mut self.op, op);
                    Ok(())
                }
                Err(refused) => {
                    let SubmitError { why, request } = refused;
                    self.buf = Some(buffer_of(request, fd, self.spare.total()));
                    Err(why)
                }
            },
            None => unreachable!(),
        }
    }

    // Submits a send of its buffer under a group: whether it waits. Under a canceled group none does.
    pub(crate) fn submit_under<D: OpDriver<Rent>>(
        &mut self,
        driver: &mut D,
        fd: SharedFd,
        group: CancelHandle,
    ) -> Result<bool, SubmitFault>
        requires none { self.old.op ≡ None }
        requires held { IsTrue (D.held driver.old (fd ∷ [])) }
        requires known { group < D.groups driver.old }
        requires counter { (D.ops driver.old).given < MOST_GIVEN }
        ensures joins { JoinsSend D.joins driver.old driver.new fd group self.old self.new result }
        ensures fits { FitsOp (D.ops driver.new) self.new.op (IsSend fd self.new.room) }
        ensures others { KeepsOther (D.ops driver.old) self.old.op (D.ops driver.new) self.new.op }
        ensures given { (D.ops driver.new).given ≤ (D.ops driver.old).given + 1 }
        ensures waits { IfOk result (λ waits. IsTrue waits → IsSome self.new.op) }
        ensures room { self.new.room ≡ self.old.room }
    {
        match self.buf.take() {
            Some(buf) => match driver.submit_under(Request::Send { fd, buf }, group) {
                Ok(Submitted::Op(op)) => {
                    hold(&mut self.op, op);
                    Ok(true)
                }
                Ok(Submitted::Canceled(request)) => {
                    self.buf = Some(buffer_of(request, fd, self.spare.total()));
                    Ok(false)
                }
                Err(refused) => {
                    let SubmitError { why, request } = refused;
                    self.buf = Some(buffer_of(request, fd, self.spare.total()));
                    Err(why)
                }
            },
            None => unreachable!(),
        }
    }

    // Polls the send that waits: what that came to, and the fault of one that ended.
    pub(crate) fn poll<D: OpDriver<Rent>>(
        &mut self,
        driver: &mut D,
        fd: SharedFd,
        task: u64,
    ) -> (Polled, Option<IoFault>)
        requires waits { IsSome self.old.op }
        requires fits { FitsOp (D.ops driver.old) self.old.op (IsSend fd self.old.room) }
        ensures polls { PollsSend D.ops D.polls driver.old driver.new fd self.old self.new task result.0 result.1 }
        ensures fits { FitsOp (D.ops driver.new) self.new.op (IsSend fd self.new.room) }
        ensures others { KeepsOther (D.ops driver.old) self.old.op (D.ops driver.new) self.new.op }
        ensures given { (D.ops driver.new).given ≡ (D.ops driver.old).given }
        ensures room { self.new.room ≡ self.old.room }
    {
        match self.op.take() {
            Some(op) => match driver.poll_op(op, task) {
                Ok(PollOp::Pending(op)) => {
                    hold(&mut self.op, op);
                    (Polled::Waits, None)
                }
                Ok(PollOp::Ready(done)) => {
                    let Done { outcome, request } = done;
                    let buf = buffer_of(request, fd, self.spare.total());
                    let fault = send_fault(outcome, buf.as_slice());
                    self.buf = Some(keep_rest(buf, &mut self.spare, sent_by(outcome) as usize));
                    (Polled::Ended, fault)
                }
                Err((_, op)) => {
                    hold(&mut self.op, op);
                    (Polled::OutOfMemory, None)
                }
            },
            None => unreachable!(),
        }
    }

    // The token of the send that waits.
    pub(crate) fn into_op(self) -> Option<Op>
        ensures { result ≡ self.op }
    {
        let Outgoing {
            buf: _,
            spare: _,
            op,
        } = self;
        op
    }
}
