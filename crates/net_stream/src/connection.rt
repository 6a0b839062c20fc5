//! A handle with what came at it and what is to go.
ghost use Rattle.std.specs.Prelude.{◌≡◌, ◌≤◌, ◌<◌, ◌+◌, ◌∷◌, [], true, None, Some, Ok, IsTrue, IsSome, IfOk, max};
ghost use Rattle.net_stream.specs.Connection.{FitsConnection, HasSendFor, KeepsBeside, KeepsOutside};
ghost use Rattle.net_stream.specs.Connection.{OnlyComes, OnlyGoes, PollsSendFor, PreparesFor};
ghost use Rattle.net_stream.specs.Connection.{Closes, EndDrops, HasSendUnder, ReceivesFor, ReceivesUnder, SendsFor, SendsUnder};
ghost use Rattle.net_stream.specs.Connection.{Settles, fresh_connection};
ghost use Rattle.net_stream.specs.Drives.{DropsFor, HoldsNoMore, IsGone, IsHeldOp, KeepsOther};

use crate::inbox::Inbox;
use crate::incoming::{Incoming, Polled};
use crate::outbox::Outbox;
use crate::outgoing::Outgoing;
use crate::progress::Progress;
use driver_core::{CancelHandle, MOST_GIVEN, Op, SubmitFault};
use handle_core::SharedFd;
use machine::CANCELED;
use op_driver::OpDriver;
use rent_buf::{IoFault, OutOfMemory, Rent};
use std::alloc::Global;

/// A handle that its user holds, what came at it, and what is to go. Its two boxes are streams: `&mut connection.inbox` is read, and
/// `&mut connection.outbox` is written. (monoio: `TcpStream`)
pub struct Connection {
    /// The handle.
    pub fd: SharedFd,
    /// What came, to read.
    pub inbox: Inbox,
    /// What is to go, to write.
    pub outbox: Outbox,
    /// The receive that waits, or what came of one.
    pub incoming: Incoming,
    /// The send that waits, or what the next one is to have.
    pub outgoing: Outgoing,
}

// Drops the operation that waits, if one does.
fn drop_waiting<D: OpDriver<Rent>>(driver: &mut D, op: Option<Op>)
    requires { IsHeldOp (D.ops driver.old) op }
    ensures drops { DropsFor D.drops driver.old driver.new op }
    ensures others { KeepsOther (D.ops driver.old) op (D.ops driver.new) None }
    ensures gone { IsGone (D.ops driver.new) op }
    ensures fewer { HoldsNoMore (D.ops driver.old) (D.ops driver.new) }
    ensures given { (D.ops driver.new).given ≡ (D.ops driver.old).given }
{
    match op {
        Some(op) => driver.drop_op(op),
        None => {}
    }
}

// No operation waits.
fn is_none(op: Option<Op>)
    requires none { op ≡ None }
{
    match op {
        Some(op) => {
            op.forget();
            unreachable!()
        }
        None => {}
    }
}

impl Connection {
    /// A connection of a handle that waits for nothing, with room for so many bytes in each direction, for one at least.
    pub fn new(alloc: Global, fd: SharedFd, room: usize) -> Result<Connection, OutOfMemory>
        ensures { IfOk result (λ conn. conn ≡ fresh_connection fd (max 1 room)) }
    {
        let room = room.max(1);
        let arrived = Rent::with_total(alloc, room)?;
        let coming = Rent::with_total(alloc, room)?;
        let written = Rent::with_total(alloc, room)?;
        let going = Rent::with_total(alloc, room)?;
        let spare = Rent::with_total(alloc, room)?;
        Ok(Connection {
            fd,
            inbox: Inbox::over(arrived),
            outbox: Outbox::over(written),
            incoming: Incoming::over(coming),
            outgoing: Outgoing::over(going, spare),
        })
    }

    // Gives the inbox what came, where it wants more.
    fn settle(&mut self) -> Progress
        ensures settles { Settles self.old.incoming self.old.inbox self.new (Ok result) }
        ensures op { self.new.incoming.op ≡ self.old.incoming.op }
        ensures same { OnlyComes self.old self.new }
    {
        if self.incoming.give(&mut self.inbox) {
            return Progress::Moved;
        }
        Progress::Idle
    }

    /// Receives: once all that came was read it submits a receive, if none waits, and polls it once, for a task that a turn of the driver
    /// names when another call may do more. `Moved`: the inbox has more to give: bytes, the end, or a fault. Where none waits, its user
    /// holds the handle, and fewer than `MOST_GIVEN` operations were submitted before.
    ///
    /// A receive that the driver refuses changes nothing, and the fault says why; `OutOfMemory` comes also where its poll found no memory,
    /// and then it waits on. Each of these may be called again. (monoio: `TcpStream::read`, without its stream)
    pub fn receive<D: OpDriver<Rent>>(
        &mut self,
        driver: &mut D,
        task: u64,
    ) -> Result<Progress, SubmitFault>
        requires fits { FitsConnection (D.ops driver.old) self.old }
        requires held { self.old.incoming.op ≡ None → IsTrue (D.held driver.old (self.old.fd ∷ [])) }
        requires counter { self.old.incoming.op ≡ None → (D.ops driver.old).given < MOST_GIVEN }
        ensures receives { ReceivesFor D.submits D.polls driver.old driver.new self.old self.new task result }
        ensures same { OnlyComes self.old self.new }
        ensures fits { FitsConnection (D.ops driver.new) self.new }
        ensures keeps { KeepsOther (D.ops driver.old) self.old.incoming.op (D.ops driver.new) self.new.incoming.op }
        ensures others { KeepsBeside (D.ops driver.old) self.old (D.ops driver.new) self.new }
        ensures given { (D.ops driver.new).given ≤ (D.ops driver.old).given + 1 }
    {
        if self.incoming.has_ended() {
            return Ok(self.settle());
        }
        if !self.incoming.waits() {
            if !self.inbox.wants_more() {
                return Ok(Progress::Idle);
            }
            self.incoming.submit(driver, self.fd)?;
        }
        match self.incoming.poll(driver, self.fd, task) {
            Polled::Waits => Ok(Progress::Waits),
            Polled::OutOfMemory => Err(SubmitFault::OutOfMemory),
            Polled::Ended => Ok(self.settle()),
        }
    }

    /// Receives as `receive`, with a submission under a group of the driver. Where the group is canceled none is submitted, and the inbox
    /// answers `Os(CANCELED)` once. A receive that waits already is polled, whatever it is under. (monoio:
    /// `TcpStream::cancelable_read`, without its stream)
    pub fn receive_under<D: OpDriver<Rent>>(
        &mut self,
        driver: &mut D,
        group: CancelHandle,
        task: u64,
    ) -> Result<Progress, SubmitFault>
        requires fits { FitsConnection (D.ops driver.old) self.old }
        requires held { self.old.incoming.op ≡ None → IsTrue (D.held driver.old (self.old.fd ∷ [])) }
        requires known { group < D.groups driver.old }
        requires counter { self.old.incoming.op ≡ None → (D.ops driver.old).given < MOST_GIVEN }
        ensures receives { ReceivesUnder D.joins D.polls driver.old driver.new self.old self.new group task result }
        ensures same { OnlyComes self.old self.new }
        ensures fits { FitsConnection (D.ops driver.new) self.new }
        ensures keeps { KeepsOther (D.ops driver.old) self.old.incoming.op (D.ops driver.new) self.new.incoming.op }
        ensures others { KeepsBeside (D.ops driver.old) self.old (D.ops driver.new) self.new }
        ensures given { (D.ops driver.new).given ≤ (D.ops driver.old).given + 1 }
    {
        if self.incoming.has_ended() {
            return Ok(self.settle());
        }
        let waits = self.incoming.waits();
        if !waits && !self.inbox.wants_more() {
            return Ok(Progress::Idle);
        }
        if !waits && !self.incoming.submit_under(driver, self.fd, group)? {
            self.inbox.cancel();
            return Ok(Progress::Moved);
        }
        match self.incoming.poll(driver, self.fd, task) {
            Polled::Waits => Ok(Progress::Waits),
            Polled::OutOfMemory => Err(SubmitFault::OutOfMemory),
            Polled::Ended => Ok(self.settle()),
        }
    }

    // Sees to it that the next send has bytes: whether there are some, and no fault is to be answered first.
    fn prepare(&mut self) -> bool
        requires { self.old.outgoing.op ≡ None }
        ensures prepares { PreparesFor self.old self.new result }
        ensures same { OnlyGoes self.old self.new }
        ensures op { (self.new.outgoing.op ≡ None) × (self.new.outgoing.room ≡ self.old.outgoing.room) }
    {
        if self.outbox.has_failed() {
            return false;
        }
        if self.outgoing.has_rest() {
            return true;
        }
        if !self.outbox.wants_sent() {
            return false;
        }
        let _ = self.outgoing.waits();
        self.outgoing.load(&mut self.outbox);
        true
    }

    // Sees to it that a send waits: whether one does.
    fn has_send<D: OpDriver<Rent>>(&mut self, driver: &mut D) -> Result<bool, SubmitFault>
        requires fits { FitsConnection (D.ops driver.old) self.old }
        requires held { self.old.outgoing.op ≡ None → IsTrue (D.held driver.old (self.old.fd ∷ [])) }
        requires counter { self.old.outgoing.op ≡ None → (D.ops driver.old).given < MOST_GIVEN }
        ensures has { HasSendFor D.submits driver.old driver.new self.old self.new result }
        ensures same { OnlyGoes self.old self.new }
        ensures waits { IfOk result (λ waits. IsTrue waits → IsSome self.new.outgoing.op) }
        ensures fits { FitsConnection (D.ops driver.new) self.new }
        ensures keeps { KeepsOther (D.ops driver.old) self.old.outgoing.op (D.ops driver.new) self.new.outgoing.op }
        ensures others { KeepsBeside (D.ops driver.old) self.old (D.ops driver.new) self.new }
        ensures given { (D.ops driver.new).given ≤ (D.ops driver.old).given + 1 }
    {
        if self.outgoing.waits() {
            return Ok(true);
        }
        if !self.prepare() {
            return Ok(false);
        }
        self.outgoing.submit(driver, self.fd)?;
        Ok(true)
    }

    // The same, with a submission under a group: nothing where that is canceled, which the outbox answers once.
    fn has_send_under<D: OpDriver<Rent>>(
        &mut self,
        driver: &mut D,
        group: CancelHandle,
    ) -> Result<Option<bool>, SubmitFault>
        requires fits { FitsConnection (D.ops driver.old) self.old }
        requires held { self.old.outgoing.op ≡ None → IsTrue (D.held driver.old (self.old.fd ∷ [])) }
        requires known { group < D.groups driver.old }
        requires counter { self.old.outgoing.op ≡ None → (D.ops driver.old).given < MOST_GIVEN }
        ensures has { HasSendUnder D.joins driver.old driver.new self.old self.new group result }
        ensures same { OnlyGoes self.old self.new }
        ensures waits { IfOk result (λ has. has ≡ Some true → IsSome self.new.outgoing.op) }
        ensures fits { FitsConnection (D.ops driver.new) self.new }
        ensures keeps { KeepsOther (D.ops driver.old) self.old.outgoing.op (D.ops driver.new) self.new.outgoing.op }
        ensures others { KeepsBeside (D.ops driver.old) self.old (D.ops driver.new) self.new }
        ensures given { (D.ops driver.new).given ≤ (D.ops driver.old).given + 1 }
    {
        if self.outgoing.waits() {
            return Ok(Some(true));
        }
        if !self.prepare() {
            return Ok(Some(false));
        }
        if self.outgoing.submit_under(driver, self.fd, group)? {
            return Ok(Some(true));
        }
        let rest = self.outgoing.has_rest();
        self.outbox.note_sent(rest, Some(IoFault::Os(CANCELED)));
        Ok(None)
    }

    // Polls the send that waits.
    fn poll_send<D: OpDriver<Rent>>(
        &mut self,
        driver: &mut D,
        task: u64,
    ) -> Result<Progress, SubmitFault>
        requires waits { IsSome self.old.outgoing.op }
        requires fits { FitsConnection (D.ops driver.old) self.old }
        ensures polls { PollsSendFor D.ops D.polls driver.old driver.new self.old self.new task result }
        ensures same { OnlyGoes self.old self.new }
        ensures fits { FitsConnection (D.ops driver.new) self.new }
        ensures keeps { KeepsOther (D.ops driver.old) self.old.outgoing.op (D.ops driver.new) self.new.outgoing.op }
        ensures others { KeepsBeside (D.ops driver.old) self.old (D.ops driver.new) self.new }
        ensures given { (D.ops driver.new).given ≡ (D.ops driver.old).given }
    {
        let (polled, fault) = self.outgoing.poll(driver, self.fd, task);
        match polled {
            Polled::Waits => Ok(Progress::Waits),
            Polled::OutOfMemory => Err(SubmitFault::OutOfMemory),
            Polled::Ended => {
                self.outbox.note_sent(self.outgoing.has_rest(), fault);
                Ok(Progress::Moved)
            }
        }
    }

    /// Sends: it submits a send of what was written, if none waits, and polls it once, for a task that a turn of the driver names when
    /// another call may do more. What a short send leaves goes with the next one; a fault is answered by the outbox, and nothing is sent
    /// until it was. Where none waits, its user holds the handle, and fewer than `MOST_GIVEN` operations were submitted before.
    ///
    /// A send that the driver refuses loses nothing, and the fault says why; `OutOfMemory` comes also where its poll found no memory, and
    /// then it waits on. Each of these may be called again. (monoio: `TcpStream::write`, without its stream)
    pub fn send<D: OpDriver<Rent>>(
        &mut self,
        driver: &mut D,
        task: u64,
    ) -> Result<Progress, SubmitFault>
        requires fits { FitsConnection (D.ops driver.old) self.old }
        requires held { self.old.outgoing.op ≡ None → IsTrue (D.held driver.old (self.old.fd ∷ [])) }
        requires counter { self.old.outgoing.op ≡ None → (D.ops driver.old).given < MOST_GIVEN }
        ensures sends { SendsFor D.ops D.submits D.polls driver.old driver.new self.old self.new task result }
        ensures same { OnlyGoes self.old self.new }
        ensures fits { FitsConnection (D.ops driver.new) self.new }
        ensures keeps { KeepsOther (D.ops driver.old) self.old.outgoing.op (D.ops driver.new) self.new.outgoing.op }
        ensures others { KeepsBeside (D.ops driver.old) self.old (D.ops driver.new) self.new }
        ensures given { (D.ops driver.new).given ≤ (D.ops driver.old).given + 1 }
    {
        match self.has_send(driver) {
            Ok(true) => self.poll_send(driver, task),
            Ok(false) => Ok(Progress::Idle),
            Err(why) => Err(why),
        }
    }

    /// Sends as `send`, with a submission under a group of the driver. Where the group is canceled none is submitted, nothing is lost, and
    /// the outbox answers `Os(CANCELED)` once. A send that waits already is polled, whatever it is under. (monoio:
    /// `TcpStream::cancelable_write`, without its stream)
    pub fn send_under<D: OpDriver<Rent>>(
        &mut self,
        driver: &mut D,
        group: CancelHandle,
        task: u64,
    ) -> Result<Progress, SubmitFault>
        requires fits { FitsConnection (D.ops driver.old) self.old }
        requires held { self.old.outgoing.op ≡ None → IsTrue (D.held driver.old (self.old.fd ∷ [])) }
        requires known { group < D.groups driver.old }
        requires counter { self.old.outgoing.op ≡ None → (D.ops driver.old).given < MOST_GIVEN }
        ensures sends { SendsUnder D.ops D.joins D.polls driver.old driver.new self.old self.new group task result }
        ensures same { OnlyGoes self.old self.new }
        ensures fits { FitsConnection (D.ops driver.new) self.new }
        ensures keeps { KeepsOther (D.ops driver.old) self.old.outgoing.op (D.ops driver.new) self.new.outgoing.op }
        ensures others { KeepsBeside (D.ops driver.old) self.old (D.ops driver.new) self.new }
        ensures given { (D.ops driver.new).given ≤ (D.ops driver.old).given + 1 }
    {
        match self.has_send_under(driver, group) {
            Ok(Some(true)) => self.poll_send(driver, task),
            Ok(Some(false)) => Ok(Progress::Idle),
            Ok(None) => Ok(Progress::Moved),
            Err(why) => Err(why),
        }
    }

    /// Lets the connection go: what waits is dropped, and the handle comes back, which its user holds still. Bytes that weren't read or
    /// sent are lost: a user who wants them sent flushes first.
    pub fn end<D: OpDriver<Rent>>(self, driver: &mut D) -> SharedFd
        requires fits { FitsConnection (D.ops driver.old) self }
        ensures fd { result ≡ self.fd }
        ensures drops { EndDrops D.drops driver.old driver.new self }
        ensures gone { IsGone (D.ops driver.new) self.incoming.op × IsGone (D.ops driver.new) self.outgoing.op }
        ensures others { KeepsOutside (D.ops driver.old) self (D.ops driver.new) }
        ensures given { (D.ops driver.new).given ≡ (D.ops driver.old).given }
    {
        let Connection {
            fd,
            inbox: _,
            outbox: _,
            incoming,
            outgoing,
        } = self;
        drop_waiting(driver, incoming.into_op());
        drop_waiting(driver, outgoing.into_op());
        fd
    }

    /// The handle of a connection that waits for nothing. Its user holds it still. Bytes that weren't read or sent are lost.
    pub fn into_fd(self) -> SharedFd
        requires none { (self.incoming.op ≡ None) × (self.outgoing.op ≡ None) }
        ensures { result ≡ self.fd }
    {
        let Connection {
            fd,
            inbox: _,
            outbox: _,
            incoming,
            outgoing,
        } = self;
        is_none(incoming.into_op());
        is_none(outgoing.into_op());
        fd
    }

    /// Closes the connection: its handle is released, and then what waits is dropped. The handle is closed once nobody holds it: here,
    /// unless its user holds it more than once, or another operation does. Bytes that weren't read or sent are lost. (monoio: `Drop` of
    /// `TcpStream`)
    pub fn close<D: OpDriver<Rent>>(self, driver: &mut D)
        requires fits { FitsConnection (D.ops driver.old) self }
        requires held { IsTrue (D.held driver.old (self.fd ∷ [])) }
        ensures closes { Closes D.closes D.drops driver.old driver.new self }
        ensures gone { IsGone (D.ops driver.new) self.incoming.op × IsGone (D.ops driver.new) self.outgoing.op }
        ensures others { KeepsOutside (D.ops driver.old) self (D.ops driver.new) }
        ensures given { (D.ops driver.new).given ≡ (D.ops driver.old).given }
    {
        let _ = driver.close_fd(self.fd);
        let _ = self.end(driver);
    }
}
