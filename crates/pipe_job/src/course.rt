// How far a job came: what it has sent of its bytes, and received.
ghost use Rattle.std.specs.Prelude.{◌≡◌, ◌<◌, ◌≤◌, ◌+◌, ◌++◌, ◌↔◌, length, take, drop, min, IsTrue, IfOk, IfErr, OnOk};
ghost use Rattle.rent_buf.specs.Rent.{buffer_of_rent};
ghost use Rattle.machine.specs.Request.{plain_request};
ghost use Rattle.pipe_job.specs.Course.{BringsOn, FailsBy, IsNext, IsRoom, IsSameBytes, IsWhole, ReceiveFault, SendFault, left_of};
ghost use Rattle.pipe_job.specs.Course.{received_in};

use driver_core::Done;
use machine::{Outcome, Request, SharedFd};
use rent_buf::{ByteList, IoFault, Rent, VecBuf};
use std::marker::Model;

/// The most bytes of one operation of a job.
pub(crate) const MOST_MOVED: usize = 4096;

// The bytes of a job, how many of them it has sent into its pipe, and how many it has received from it.
#[derive(Drop)]
pub(crate) struct Course {
    pipe: SharedFd,
    bytes: ByteList,
    sent: usize,
    received: usize,
}

impl Model for Course {
    ghost use Rattle.std.specs.Prelude.{◌≤◌, length};
    ghost use Rattle.pipe_job.specs.Course.{Coursed};

    ghost Value = { Coursed };

    ghost view = { λ c. record { pipe = c.pipe; bytes = c.bytes; sent = c.sent; received = c.received } };

    ghost invariant = { λ c. (c.sent ≤ length c.bytes) × (c.received ≤ c.sent) };
}

impl Course {
    // Nothing was sent or received.
    pub(crate) fn new(pipe: SharedFd, bytes: ByteList) -> Course
        ensures { result ≡ record { pipe = pipe; bytes = bytes; sent = 0; received = 0 } }
    {
        Course {
            pipe,
            bytes,
            sent: 0,
            received: 0,
        }
    }

    // All bytes were sent.
    pub(crate) fn is_sent(&self) -> bool
        ensures { IsTrue result ↔ (self.now.sent ≡ length self.now.bytes) }
    {
        self.sent == self.bytes.len()
    }

    // All bytes were sent and received.
    pub(crate) fn is_done(&self) -> bool
        ensures done { IsTrue result ↔ ((self.now.sent ≡ length self.now.bytes) × (self.now.received ≡ length self.now.bytes)) }
        ensures bounds { (self.now.sent ≤ length self.now.bytes) × (self.now.received ≤ self.now.sent) }
    {
        self.is_sent() && self.received == self.bytes.len()
    }

    // The bytes, and all else is dropped.
    pub(crate) fn into_bytes(self) -> ByteList
        ensures { result ≡ self.bytes }
    {
        let Course {
            pipe: _,
            bytes,
            sent: _,
            received: _,
        } = self;
        bytes
    }

    // The bytes that the next operation is to move.
    fn next(&self) -> &[u8]
        requires left { IsWhole self.now → ⊥ }
        ensures some { 1 ≤ length result.now }
        ensures most { length result.now ≤ MOST_MOVED }
        ensures sends { self.now.sent < length self.now.bytes → result.now ≡ take MOST_MOVED (drop self.now.sent self.now.bytes) }
    {
        let begin = if self.is_sent() {
            self.received
        } else {
            self.sent
        };
        let all = self.bytes.as_slice();
        let end = begin + (all.len() - begin).min(MOST_MOVED);
        &all[begin..end]
    }

    // The buffer of the next operation, in memory that is reused: with the bytes that are sent, or with room for those that are received.
    // The memory comes back if more of it is wanted and it ran out.
    pub(crate) fn buffer(&self, room: Vec<u8>) -> Result<Rent, Vec<u8>>
        requires left { IsWhole self.now → ⊥ }
        ensures room { IfOk result (IsRoom self.now) }
    {
        let mut room = room;
        room.clear();
        let next = self.next();
        if !self.is_sent() && room.extend_from_slice(next).is_err() {
            return Err(room);
        }
        match Rent::from_vec(room, next.len()) {
            Ok(buf) => Ok(buf),
            Err((_, room)) => Err(room),
        }
    }

    // The request of the next operation: a send until all bytes are sent, and then a receive.
    pub(crate) fn request(&self, buf: Rent) -> Request<Rent, VecBuf>
        requires room { IsRoom self.now buf }
        ensures { IsNext self.now (plain_request buffer_of_rent result) }
    {
        let fd = self.pipe;
        if self.is_sent() {
            Request::Recv { fd, buf }
        } else {
            Request::Send { fd, buf }
        }
    }

    // An operation ended: the memory of its buffer, where it moved bytes that it was to move.
    pub(crate) fn take_in(&mut self, done: Done<Rent>) -> Result<Vec<u8>, IoFault>
        ensures same { IsSameBytes self.old self.new }
        ensures less { OnOk result (left_of self.new < left_of self.old) }
        ensures brings { OnOk result (BringsOn self.old self.new done.outcome done.request) }
        ensures fault { IfErr result (FailsBy self.old done.outcome done.request) }
    {
        let Done { outcome, request } = done;
        match outcome {
            Outcome::Fail(code) => Err(IoFault::Os(code)),
            Outcome::Count(count) => match request {
                Request::Send { fd: _, buf } => {
                    self.send(count as usize)?;
                    Ok(buf.into_vec())
                }
                Request::Recv { fd: _, buf } => {
                    self.receive(buf.as_slice())?;
                    Ok(buf.into_vec())
                }
                _ => Err(IoFault::InvalidData),
            },
            _ => Err(IoFault::InvalidData),
        }
    }

    // So many further bytes were sent.
    fn send(&mut self, count: usize) -> Result<(), IoFault>
        ensures same { IsSameBytes self.old self.new }
        ensures less { OnOk result (left_of self.new < left_of self.old) }
        ensures ok { OnOk result ((self.old.sent + count ≤ length self.old.bytes) × (self.new.sent ≡ self.old.sent + count)
            × (self.new.received ≡ self.old.received)) }
        ensures fault { IfErr result (SendFault self.old count) }
    {
        if count == 0 {
            return Err(IoFault::WriteZero);
        }
        if count > self.bytes.len() - self.sent {
            return Err(IoFault::InvalidData);
        }
        self.sent += count;
        Ok(())
    }

    // These bytes were received, which are to be the next ones of those that were sent.
    fn receive(&mut self, bytes: &[u8]) -> Result<(), IoFault>
        ensures same { IsSameBytes self.old self.new }
        ensures less { OnOk result (left_of self.new < left_of self.old) }
        ensures ok { OnOk result ((received_in self.new ≡ received_in self.old ++ bytes.now) × (self.new.sent ≡ self.old.sent)) }
        ensures fault { IfErr result (ReceiveFault self.old bytes.now) }
    {
        let all = self.bytes.as_slice();
        if bytes.is_empty() {
            return Err(IoFault::UnexpectedEof);
        }
        if !all[self.received..self.sent].starts_with(bytes) {
            return Err(IoFault::InvalidData);
        }
        self.received += bytes.len();
        Ok(())
    }
}
