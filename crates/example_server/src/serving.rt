// What a job of the server does behind each of its operations: an accept is one job, and a connection is one.
ghost use Rattle.op_job.specs.Runs.{SaysAny};

use handle_core::SharedFd;
use machine::{CANCELED, Outcome, Request};
use op_job::{Follow, Next, OpEnd};
use rent_buf::{OutOfMemory, Rent, VecBuf};

/// How many bytes a buffer takes.
pub const SIZE: usize = 4096;

/// A request with a buffer of a stated total.
pub type Asked = Request<Rent, VecBuf>;

/// What a job does with its handle.
#[derive(Clone, Copy)]
pub enum Work {
    /// It accepts a connection on it.
    Accepts,
    /// What comes on it goes back on it.
    Echoes,
}

/// What a job is for.
#[derive(Drop)]
pub struct Serving {
    /// What it does.
    pub work: Work,
    /// The handle that listens, or the connection.
    pub fd: SharedFd,
}

/// What a job is done with.
#[derive(Drop)]
pub enum Served {
    /// A connection was accepted.
    Accepted(SharedFd),
    /// None was.
    NotAccepted,
    /// A connection has ended.
    Closed(SharedFd),
    /// One was idle.
    Idle(SharedFd),
}

impl Follow<Rent> for Serving {
    type Out = Served;

    ghost follows = { SaysAny };

    fn follow(&mut self, end: OpEnd<Rent>) -> Next<Rent, Served>
        ensures { SaysAny self.old self.new end result }
    {
        match self.work {
            Work::Accepts => Next::End(accepted(end)),
            Work::Echoes => echoed(self.fd, end),
        }
    }
}

// An accept ended so.
fn accepted(end: OpEnd<Rent>) -> Served {
    match end {
        OpEnd::Done(done) => match done.outcome {
            Outcome::Made(h) => Served::Accepted(SharedFd::new(h)),
            _ => Served::NotAccepted,
        },
        _ => Served::NotAccepted,
    }
}

// A read or a send of a connection ended so. The cancel is that of its deadline.
fn echoed(fd: SharedFd, end: OpEnd<Rent>) -> Next<Rent, Served> {
    match end {
        OpEnd::Done(done) => match done.outcome {
            Outcome::Count(count) if count > 0 => moved(fd, done.request, count as usize),
            Outcome::Fail(error) if error == CANCELED => Next::End(Served::Idle(fd)),
            _ => Next::End(Served::Closed(fd)),
        },
        OpEnd::Withdrawn(_) => Next::End(Served::Idle(fd)),
        OpEnd::Refused(_) | OpEnd::NotHeld(_) => Next::End(Served::Closed(fd)),
    }
}

// Bytes that came are sent; those that weren't sent are sent next; and then comes a read. If memory runs out, the connection ends.
fn moved(fd: SharedFd, request: Asked, count: usize) -> Next<Rent, Served> {
    match request {
        Request::Recv { fd, buf } => Next::Op(Request::Send { fd, buf }),
        Request::Send { fd, buf } => match unsent(buf, count) {
            Ok(buf) if buf.is_empty() => Next::Op(Request::Recv { fd, buf }),
            Ok(buf) => Next::Op(Request::Send { fd, buf }),
            Err(_) => Next::End(Served::Closed(fd)),
        },
        _ => Next::End(Served::Closed(fd)),
    }
}

// A buffer without its first bytes, which were sent.
fn unsent(buf: Rent, count: usize) -> Result<Rent, OutOfMemory> {
    let mut buf = buf;
    if count >= buf.len() {
        buf.clear();
        return Ok(buf);
    }
    let mut bytes = buf.into_vec();
    bytes.drain(..count.min(bytes.len()));
    let total = bytes.len().max(SIZE);
    Rent::from_vec(bytes, total).map_err(|refused| refused.0)
}
