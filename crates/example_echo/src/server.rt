// The echo server: what comes on a connection goes back on it, until its peer closes or resets it.

use crate::calls::{Asked, Calls, Polled};
use anyhow::Result;
use handle_core::SharedFd;
use held_op::HeldOp;
use machine::{Outcome, Request};
use rent_buf::{OutOfMemory, Rent};
use std::alloc::Global;
use std::mem;

/// How many bytes a buffer takes.
pub const SIZE: usize = 4096;

/// A connection: its handle, and the operation that is in flight on it, a read or a send.
#[derive(Drop)]
struct Connection {
    fd: SharedFd,
    held: HeldOp,
}

/// A server: its accept, and its connections.
#[derive(Drop)]
pub struct Server {
    accept: Option<HeldOp>,
    open: Vec<Connection>,
    /// How many connections their peers closed.
    pub closed: u32,
    /// How many ended by an error.
    pub failed: u32,
    alloc: Global,
}

impl Server {
    /// A server that accepts on a listener.
    pub fn new<C: Calls>(io: &mut C, alloc: Global, listener: SharedFd) -> Result<Server> {
        Ok(Server {
            accept: Some(io.submit(Request::Accept { fd: listener })?),
            open: Vec::new(alloc),
            closed: 0,
            failed: 0,
            alloc,
        })
    }

    /// How many connections are open.
    pub fn open(&self) -> usize {
        self.open.len()
    }

    /// Polls each operation once, and submits what follows it. An operation that isn't pending may have more to do: call it again after
    /// the next turn, so that one connection doesn't starve the others.
    pub fn step<C: Calls>(&mut self, io: &mut C) -> Result<()> {
        for connection in mem::replace(&mut self.open, Vec::new(self.alloc)) {
            if let Some(connection) = self.go_on(io, connection)? {
                self.open.push(connection)?;
            }
        }
        match self.accept.take() {
            Some(held) => self.accept(io, held),
            None => Ok(()),
        }
    }

    // A connection that was accepted is read, and the next one is accepted. An accept that failed is submitted again.
    fn accept<C: Calls>(&mut self, io: &mut C, held: HeldOp) -> Result<()> {
        match io.poll(held)? {
            Polled::Pending(held) => self.accept = Some(held),
            Polled::Ready(outcome, accept) => {
                if let Outcome::Made(h) = outcome {
                    let fd = SharedFd::new(h);
                    let buf = Rent::with_total(self.alloc, SIZE)?;
                    let held = io.submit(Request::Recv { fd, buf })?;
                    self.open.push(Connection { fd, held })?;
                }
                self.accept = Some(io.submit(accept)?);
            }
        }
        Ok(())
    }

    // A connection after a poll of its operation. None: it is closed.
    fn go_on<C: Calls>(&mut self, io: &mut C, open: Connection) -> Result<Option<Connection>> {
        let Connection { fd, held } = open;
        let (outcome, request) = match io.poll(held)? {
            Polled::Pending(held) => return Ok(Some(Connection { fd, held })),
            Polled::Ready(outcome, request) => (outcome, request),
        };
        if let Some(request) = next(outcome, request)? {
            let held = io.submit(request)?;
            return Ok(Some(Connection { fd, held }));
        }
        match outcome {
            Outcome::Fail(_) => self.failed = self.failed.saturating_add(1),
            _ => self.closed = self.closed.saturating_add(1),
        }
        io.close(fd)?;
        Ok(None)
    }

    /// Ends the server: it accepts no more.
    pub fn end<C: Calls>(self, io: &mut C) -> Result<()> {
        let Server {
            accept,
            open: _,
            closed: _,
            failed: _,
            alloc: _,
        } = self;
        match accept {
            Some(held) => io.drop_op(held),
            None => Ok(()),
        }
    }
}

// What follows an operation that moved bytes: those that came are sent, those that weren't sent are sent next, and behind all comes a
// read. None: the peer closed the connection, or it failed.
fn next(outcome: Outcome, request: Asked) -> Result<Option<Asked>, OutOfMemory> {
    let Outcome::Count(count) = outcome else {
        return Ok(None);
    };
    match request {
        Request::Recv { fd, buf } if count > 0 => Ok(Some(Request::Send { fd, buf })),
        Request::Send { fd, buf } => {
            let buf = unsent(buf, count as usize)?;
            if buf.is_empty() {
                return Ok(Some(Request::Recv { fd, buf }));
            }
            Ok(Some(Request::Send { fd, buf }))
        }
        _ => Ok(None),
    }
}

// A buffer without its first bytes, which were sent.
fn unsent(buf: Rent, count: usize) -> Result<Rent, OutOfMemory> {
    let mut bytes = buf.into_vec();
    let sent = count.min(bytes.len());
    bytes.drain(..sent);
    let total = bytes.len().max(SIZE);
    Rent::from_vec(bytes, total).map_err(|refused| refused.0)
}
