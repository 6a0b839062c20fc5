//! A handle that listens, and the accept that waits at it.
ghost use Rattle.std.specs.Prelude.{◌≡◌, ◌≤◌, ◌<◌, ◌+◌, ◌∷◌, [], None, Some, IsTrue, IfOk, IfErr, OnErr};
ghost use Rattle.net_stream.specs.Drives.{FitsOp, IsGone, KeepsOther};
ghost use Rattle.net_stream.specs.Listener.{AcceptsOnce, FitsListener, HasAccept, IsAccept, RefusesAccept, accepted_of, fresh_listener};

use crate::incoming::hold;
use driver_core::{MOST_GIVEN, Op, PollOp, SubmitFault};
use handle_core::SharedFd;
use machine::{INVALID, Outcome, Request};
use op_driver::OpDriver;
use rent_buf::{IoFault, Rent, VecBuf};

/// What an accept came to.
#[derive(Clone, Copy, Debug, PartialEq, Eq)]
#[must_use]
pub enum Accepted {
    /// It waits. Its task is named by the turn after which another call may do more.
    Waits,
    /// A connection was made, with this handle, which its user holds from now on.
    Made(SharedFd),
    /// It failed so; the next call accepts anew. An outcome that no accept has is the fault `INVALID`.
    Failed(IoFault),
}

/// A handle that listens, which its user holds, and the accept that waits at it, if one does. (monoio: `TcpListener`)
pub struct Listener {
    /// The handle.
    pub fd: SharedFd,
    /// The accept that waits.
    pub op: Option<Op>,
}

// What an accept came to that ended so.
fn accepted_of(outcome: Outcome) -> Accepted
    ensures { result ≡ accepted_of outcome }
{
    match outcome {
        Outcome::Made(h) => Accepted::Made(SharedFd::new(h)),
        Outcome::Fail(error) => Accepted::Failed(IoFault::Os(error)),
        _ => Accepted::Failed(IoFault::Os(INVALID)),
    }
}

impl Listener {
    /// A listener of a handle, at which no accept waits.
    pub fn new(fd: SharedFd) -> Listener
        ensures { result ≡ fresh_listener fd }
    {
        Listener { fd, op: None }
    }

    // The accept that waited, or a new one: it is to be polled, and none waits here.
    fn take_op<D: OpDriver<Rent>>(&mut self, driver: &mut D) -> Result<Op, SubmitFault>
        requires fits { FitsListener (D.ops driver.old) self.old }
        requires held { IsTrue (D.held driver.old (self.old.fd ∷ [])) }
        requires counter { (D.ops driver.old).given < MOST_GIVEN }
        ensures has { IfOk result (λ op. HasAccept D.submits driver.old driver.new self.old.fd self.old.op op) }
        ensures refused { IfErr result (RefusesAccept D.submits driver.old driver.new self.old) }
        ensures none { self.new ≡ fresh_listener self.old.fd }
        ensures fits { IfOk result (λ op. FitsOp (D.ops driver.new) (Some op) (IsAccept self.old.fd)) }
        ensures others { IfOk result (λ op. KeepsOther (D.ops driver.old) self.old.op (D.ops driver.new) (Some op)) }
        ensures kept { OnErr result (KeepsOther (D.ops driver.old) self.old.op (D.ops driver.new) None) }
        ensures given { (D.ops driver.new).given ≤ (D.ops driver.old).given + 1 }
    {
        match self.op.take() {
            Some(op) => Ok(op),
            None => {
                let request: Request<Rent, VecBuf> = Request::Accept { fd: self.fd };
                match driver.submit_op(request) {
                    Ok(op) => Ok(op),
                    Err(refused) => Err(refused.why),
                }
            }
        }
    }

    /// Accepts: it submits an accept, if none waits, and polls it once, for a task that a turn of the driver names when another call may
    /// do more. Fewer than `MOST_GIVEN` operations were submitted before.
    ///
    /// An accept that the driver refuses changes nothing, and the fault says why; `OutOfMemory` comes also where its poll found no memory,
    /// and then it waits on. Each of these may be called again. An accept that failed since the process may open no further file fails
    /// again at once, as often as it is submitted: call again once a handle was closed, or some time has passed. (monoio:
    /// `TcpListener::accept`)
    pub fn accept<D: OpDriver<Rent>>(
        &mut self,
        driver: &mut D,
        task: u64,
    ) -> Result<Accepted, SubmitFault>
        requires fits { FitsListener (D.ops driver.old) self.old }
        requires held { IsTrue (D.held driver.old (self.old.fd ∷ [])) }
        requires counter { (D.ops driver.old).given < MOST_GIVEN }
        ensures accepts { AcceptsOnce D.submits D.polls driver.old driver.new self.old self.new task result }
        ensures fd { self.new.fd ≡ self.old.fd }
        ensures fits { FitsListener (D.ops driver.new) self.new }
        ensures others { KeepsOther (D.ops driver.old) self.old.op (D.ops driver.new) self.new.op }
        ensures given { (D.ops driver.new).given ≤ (D.ops driver.old).given + 1 }
    {
        let op = self.take_op(driver)?;
        match driver.poll_op(op, task) {
            Ok(PollOp::Pending(op)) => {
                hold(&mut self.op, op);
                Ok(Accepted::Waits)
            }
            Ok(PollOp::Ready(done)) => Ok(accepted_of(done.outcome)),
            Err((_, op)) => {
                hold(&mut self.op, op);
                Err(SubmitFault::OutOfMemory)
            }
        }
    }

    /// Lets the listener go: the accept that waits is dropped, and the handle comes back, which its user holds still.
    pub fn end<D: OpDriver<Rent>>(self, driver: &mut D) -> SharedFd
        requires fits { FitsListener (D.ops driver.old) self }
        ensures fd { result ≡ self.fd }
        ensures gone { IsGone (D.ops driver.new) self.op }
        ensures others { KeepsOther (D.ops driver.old) self.op (D.ops driver.new) None }
        ensures given { (D.ops driver.new).given ≡ (D.ops driver.old).given }
    {
        let Listener { fd, op } = self;
        match op {
            Some(op) => driver.drop_op(op),
            None => {}
        }
        fd
    }
}
