// What tests do with a driver over any object: each call here makes one call of the driver, and answers plain values. An operation is
// named by its place, 0 or 1.
use driver_core::{Done, Turned};
use machine::{Outcome, Request, SharedFd};
use ready_driver::{NonBlockError, Ready};
use rent_buf::{IoBufMut as _, OutOfMemory, Rent, VecBuf};
use std::alloc::Global;
use wake_core::Woken;

/// A request with a buffer of a stated total.
pub(crate) type Asked = Request<Rent, VecBuf>;

/// Why a test can't go on.
#[derive(Drop, Debug, PartialEq)]
pub(crate) enum Why {
    /// Memory ran out.
    OutOfMemory,
    /// The condition of a call isn't met.
    Unmet,
    /// What a call answered isn't what it answers in a test.
    Unlike,
}

impl From<OutOfMemory> for Why {
    fn from(_: OutOfMemory) -> Why {
        Why::OutOfMemory
    }
}

/// A driver with the tokens of its operations. `Unmet` comes where the condition of a call isn't met, and then the call isn't made.
pub(crate) trait Stage {
    /// The user holds a handle that isn't known.
    fn adopt(&mut self, h: u64) -> Result<(), Why>;

    /// A new listener on a port.
    fn listen(&mut self, port: u16) -> Result<u64, NonBlockError>;

    /// A new connection to a port.
    fn dial(&mut self, port: u16) -> Result<u64, NonBlockError>;

    /// Submits a request, whose token is kept at a place.
    fn submit(&mut self, place: usize, request: Asked) -> Result<(), Why>;

    /// Polls the operation at a place, for a task. None: it is pending.
    fn poll(&mut self, place: usize, task: u64) -> Result<Option<Done<Rent>>, Why>;

    /// Asks for the cancel of the operation at a place.
    fn cancel(&mut self, place: usize) -> Result<(), Why>;

    /// Drops the operation at a place.
    fn drop_op(&mut self, place: usize) -> Result<(), Why>;

    /// The user drops its only hold of a handle.
    fn release(&mut self, h: u64) -> Result<(), Why>;

    /// A turn.
    fn turn(&mut self) -> Turned;

    /// A park with a limit in milliseconds or without one, and what it drained. Its turn doesn't stop.
    fn park(&mut self, limit: Option<u64>) -> Result<Woken, Why>;

    /// Whether the user holds a handle, it is known, and a request may name it.
    fn handle(&self, h: u64) -> (bool, bool, bool);

    /// The bits of a handle.
    fn bits(&self, h: u64) -> Ready;

    /// How many operations are live, and how many handles of the object are open.
    fn left(&self) -> (usize, usize);
}

/// A driver over handles in memory.
pub(crate) trait InMemory {
    /// A new stream, and its number.
    fn stream(&mut self) -> Result<u64, Why>;

    /// Bytes arrive at a handle.
    fn feed(&mut self, h: u64, bytes: &[u8]) -> Result<(), Why>;
}

/// An answer is like the one that a test expects.
pub(crate) fn is_like(like: bool) -> Result<(), Why> {
    if like { Ok(()) } else { Err(Why::Unlike) }
}

// How many parks at most come before an operation is done.
const TRIES: u32 = 20000;

/// The operation at a place is done, after some parks.
pub(crate) fn finish<S: Stage>(stage: &mut S, place: usize) -> Result<Done<Rent>, Why> {
    for _ in 0..TRIES {
        if let Some(done) = stage.poll(place, 0)? {
            return Ok(done);
        }
        stage.park(Some(1))?;
    }
    Err(Why::Unlike)
}

/// A request is submitted and done, after some parks.
pub(crate) fn run<S: Stage>(stage: &mut S, request: Asked) -> Result<Done<Rent>, Why> {
    stage.submit(0, request)?;
    finish(stage, 0)
}

/// A request is submitted at a place, and is pending.
pub(crate) fn pends<S: Stage>(stage: &mut S, place: usize, request: Asked) -> Result<(), Why> {
    stage.submit(place, request)?;
    is_like(stage.poll(place, 0)?.is_none())
}

/// A buffer that is full of these bytes.
pub(crate) fn filled(alloc: Global, bytes: &[u8]) -> Result<Rent, Why> {
    let mut buf = Rent::with_total(alloc, bytes.len())?;
    buf.store(0, bytes);
    Ok(buf)
}

/// A send of all bytes of a buffer.
pub(crate) fn send(h: u64, buf: Rent) -> Asked {
    let fd = SharedFd::new(h);
    Request::Send { fd, buf }
}

/// A receive into a buffer, whose bytes are removed before.
pub(crate) fn receive(h: u64, mut buf: Rent) -> Asked {
    let fd = SharedFd::new(h);
    buf.clear();
    Request::Recv { fd, buf }
}

/// The buffer of an operation that moved so many bytes.
pub(crate) fn moved(done: Done<Rent>, count: u32) -> Result<Rent, Why> {
    is_like(done.outcome == Outcome::Count(count))?;
    let Done {
        outcome: _,
        request,
    } = done;
    match request {
        Request::Recv { fd: _, buf } => Ok(buf),
        Request::Send { fd: _, buf } => Ok(buf),
        _ => Err(Why::Unlike),
    }
}

/// An operation ended with this error.
pub(crate) fn failed(done: Done<Rent>, error: u16) -> Result<(), Why> {
    is_like(done.outcome == Outcome::Fail(error))
}
