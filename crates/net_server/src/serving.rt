// A connection and its state: one pass, and a bounded number of passes.
ghost use Rattle.std.specs.Prelude.{◌≡◌, ◌<◌, ◌∷◌, [], None, IsTrue};
ghost use Rattle.net_stream.specs.Connection.{FitsConnection, KeepsOutside};
ghost use Rattle.net_stream.specs.Drives.{IsGone};
ghost use Rattle.net_server.specs.Serving.{Leaves, SameCalls};

use crate::fault::NetFault;
use crate::net_job::Ended;
use crate::serve::{Serve, Served};
use driver_core::{MOST_GIVEN, SubmitFault};
use handle_core::SharedFd;
use machine::Names;
use net_stream::{Connection, Progress};
use op_driver::OpDriver;
use rent_buf::Rent;
use rent_io::{AsyncBufRead as _, AsyncWriteRent as _, PollCount};

/// How many passes a poll makes at most.
pub(crate) const PASSES: usize = 16;

// A connection, its state, and whether that said that it is done.
pub(crate) struct Serving<S> {
    pub(crate) conn: Connection,
    pub(crate) state: S,
    pub(crate) done: bool,
}

// What a pass, or several, came to.
#[derive(Clone, Copy)]
pub(crate) enum Pass {
    // The last pass moved something.
    Moved,
    // The last pass moved nothing: what waits is named by a turn.
    Waits,
    // Memory ran out.
    OutOfMemory,
    // The connection is over, by this fault or by none.
    Over(Option<NetFault>),
}

// Why the driver's next submission of a handle can't be made, if it can't.
pub(crate) fn refusal<D: OpDriver<Rent>>(driver: &D, fd: SharedFd) -> Option<NetFault>
    ensures held { result ≡ None → IsTrue (D.held driver.now (fd ∷ [])) }
    ensures counter { result ≡ None → (D.ops driver.now).given < MOST_GIVEN }
{
    if !driver.holds_names(Names::One(fd.number())) {
        return Some(NetFault::NotHeld);
    }
    if driver.given() >= MOST_GIVEN {
        return Some(NetFault::Exhausted);
    }
    None
}

// What a refused submission makes of a pass.
fn refused(why: SubmitFault) -> Pass {
    match why {
        SubmitFault::OutOfMemory => Pass::OutOfMemory,
        _ => Pass::Over(Some(NetFault::Refused(why))),
    }
}

impl<S: Serve> Serving<S> {
    // Receives, unless nothing more is to be read: whether something came. A fault that came ends the connection.
    #[tactic(auto, using(crate::proofs::Frames::leaves_same, crate::proofs::Frames::leaves_none))]
    fn receive<D: OpDriver<Rent>>(&mut self, driver: &mut D, task: u64) -> Result<bool, Pass>
        requires fits { FitsConnection (D.ops driver.old) self.old.conn }
        ensures leaves { Leaves (D.ops driver.old) self.old.conn (D.ops driver.new) self.new.conn }
    {
        if self.done {
            return Ok(false);
        }
        if self.receive_any(driver, task)? {
            return self.look(task);
        }
        Ok(false)
    }

    // Receives: whether something came.
    #[tactic(auto, using(crate::proofs::Frames::leaves_none))]
    fn receive_any<D: OpDriver<Rent>>(&mut self, driver: &mut D, task: u64) -> Result<bool, Pass>
        requires fits { FitsConnection (D.ops driver.old) self.old.conn }
        ensures leaves { Leaves (D.ops driver.old) self.old.conn (D.ops driver.new) self.new.conn }
    {
        if !self.conn.incoming.waits() {
            if let Some(fault) = refusal(driver, self.conn.fd) {
                return Err(Pass::Over(Some(fault)));
            }
        }
        match self.conn.receive(driver, task) {
            Ok(Progress::Moved) => Ok(true),
            Ok(_) => Ok(false),
            Err(why) => Err(refused(why)),
        }
    }

    // Something came: true, unless it is a fault.
    fn look(&mut self, task: u64) -> Result<bool, Pass>
        ensures { SameCalls self.old.conn self.new.conn }
    {
        if !self.conn.inbox.arrived().is_empty() || self.conn.inbox.has_ended() {
            return Ok(true);
        }
        match self.conn.inbox.poll_fill(task) {
            PollCount::Ready(Err(fault)) => Err(Pass::Over(Some(NetFault::Io(fault)))),
            _ => Ok(true),
        }
    }

    // The state meets the boxes: whether it read or wrote something, or is done.
    fn serve(&mut self, task: u64) -> bool
        ensures { SameCalls self.old.conn self.new.conn }
    {
        if self.done {
            return false;
        }
        let unread = self.conn.inbox.arrived().len();
        let unsent = self.conn.outbox.unsent().len();
        match self
            .state
            .serve(&mut self.conn.inbox, &mut self.conn.outbox, task)
        {
            Served::Done => self.done = true,
            Served::Open => {}
        }
        self.done
            || self.conn.inbox.arrived().len() != unread
            || self.conn.outbox.unsent().len() != unsent
    }

    // Something is to be sent, or a send waits.
    fn has_to_send(&self) -> bool {
        self.conn.outgoing.waits()
            || self.conn.outgoing.has_rest()
            || !self.conn.outbox.unsent().is_empty()
    }

    // Sends: whether something went.
    #[tactic(auto, using(crate::proofs::Frames::leaves_none))]
    fn send<D: OpDriver<Rent>>(&mut self, driver: &mut D, task: u64) -> Result<bool, Pass>
        requires fits { FitsConnection (D.ops driver.old) self.old.conn }
        ensures leaves { Leaves (D.ops driver.old) self.old.conn (D.ops driver.new) self.new.conn }
    {
        if !self.has_to_send() {
            return Ok(false);
        }
        if !self.conn.outgoing.waits() {
            if let Some(fault) = refusal(driver, self.conn.fd) {
                return Err(Pass::Over(Some(fault)));
            }
        }
        match self.conn.send(driver, task) {
            Ok(Progress::Moved) => Ok(true),
            Ok(_) => Ok(false),
            Err(why) => Err(refused(why)),
        }
    }

    // What a pass came to that moved something, or nothing. A connection is over once all is sent that was written, and either its state
    // is done, or the peer's end came and nothing moves any more.
    fn settle(&mut self, moved: bool, task: u64) -> Pass
        ensures { SameCalls self.old.conn self.new.conn }
    {
        let over = self.done || (!moved && self.conn.inbox.has_ended());
        match self.conn.outbox.poll_flush(task) {
            PollCount::Ready(Err(fault)) => Pass::Over(Some(NetFault::Io(fault))),
            PollCount::Ready(Ok(_)) if over => Pass::Over(None),
            _ if moved => Pass::Moved,
            _ => Pass::Waits,
        }
    }

    // The first half of a pass: what came is received, and the state meets it. Whether something moved.
    #[tactic(auto, using(crate::proofs::Frames::leaves_same))]
    fn come<D: OpDriver<Rent>>(&mut self, driver: &mut D, task: u64) -> Result<bool, Pass>
        requires fits { FitsConnection (D.ops driver.old) self.old.conn }
        ensures leaves { Leaves (D.ops driver.old) self.old.conn (D.ops driver.new) self.new.conn }
    {
        let came = self.receive(driver, task)?;
        let served = self.serve(task);
        Ok(came || served)
    }

    // The second half: what is to go is sent. What the pass came to, of which the first half moved something, or nothing.
    #[tactic(auto, using(crate::proofs::Frames::leaves_same))]
    fn go<D: OpDriver<Rent>>(&mut self, driver: &mut D, moved: bool, task: u64) -> Pass
        requires fits { FitsConnection (D.ops driver.old) self.old.conn }
        ensures leaves { Leaves (D.ops driver.old) self.old.conn (D.ops driver.new) self.new.conn }
    {
        match self.send(driver, task) {
            Ok(went) => self.settle(moved || went, task),
            Err(pass) => pass,
        }
    }

    // One pass.
    #[tactic(auto, using(crate::proofs::Frames::leaves_then))]
    fn pass<D: OpDriver<Rent>>(&mut self, driver: &mut D, task: u64) -> Pass
        requires fits { FitsConnection (D.ops driver.old) self.old.conn }
        ensures leaves { Leaves (D.ops driver.old) self.old.conn (D.ops driver.new) self.new.conn }
    {
        match self.come(driver, task) {
            Ok(moved) => self.go(driver, moved, task),
            Err(pass) => pass,
        }
    }

    // Passes, as long as each moves something, and not more than `PASSES`.
    #[tactic(auto, using(crate::proofs::Frames::leaves_then, crate::proofs::Frames::leaves_none))]
    pub(crate) fn poll<D: OpDriver<Rent>>(&mut self, driver: &mut D, task: u64) -> Pass
        requires fits { FitsConnection (D.ops driver.old) self.old.conn }
        ensures leaves { Leaves (D.ops driver.old) self.old.conn (D.ops driver.new) self.new.conn }
    {
        for _ in 0..PASSES {
            match self.pass(driver, task) {
                Pass::Moved => {}
                other => return other,
            }
        }
        Pass::Moved
    }

    // The state of a connection that waits for nothing.
    pub(crate) fn into_state(self) -> S
        requires none { (self.conn.incoming.op ≡ None) × (self.conn.outgoing.op ≡ None) }
        ensures { result ≡ self.state }
    {
        let Serving {
            conn,
            state,
            done: _,
        } = self;
        let _ = conn.into_fd();
        state
    }

    // Ends the connection: what waits is dropped, and its handle comes back with the state.
    pub(crate) fn end<D: OpDriver<Rent>>(self, driver: &mut D, fault: Option<NetFault>) -> Ended<S>
        requires fits { FitsConnection (D.ops driver.old) self.conn }
        ensures fd { result.fd ≡ self.conn.fd }
        ensures fault { result.fault ≡ fault }
        ensures state { result.state ≡ self.state }
        ensures gone { IsGone (D.ops driver.new) self.conn.incoming.op × IsGone (D.ops driver.new) self.conn.outgoing.op }
        ensures others { KeepsOutside (D.ops driver.old) self.conn (D.ops driver.new) }
    {
        let Serving {
            conn,
            state,
            done: _,
        } = self;
        let fd = conn.end(driver);
        Ended { fd, state, fault }
    }
}
