// What tests share: streams and buffers, what a poll answered, and why a row isn't as it says.
use rent_buf::{ByteList, NumList, OutOfMemory, Rent, VecBuf};
use rent_io::{BufResult, IoFault, PollBuf, PollCount, ScriptedStream, Step, Turned1};
use std::alloc::{AllocError, AllocFailed, Global};
use std::process::Abort;

/// Why a row isn't as it says.
#[derive(Clone, Copy, Debug, PartialEq, Eq)]
pub(crate) enum Why {
    /// Memory ran out.
    OutOfMemory,
    /// The condition of a call isn't met.
    Unmet,
    /// The polls didn't end so, or not yet.
    NotSo,
    /// This is another.
    Unlike(&'static str),
}

impl From<AllocError> for Why {
    fn from(_: AllocError) -> Why {
        Why::OutOfMemory
    }
}

impl<T: Drop> From<AllocFailed<T>> for Why {
    fn from(_: AllocFailed<T>) -> Why {
        Why::OutOfMemory
    }
}

impl From<OutOfMemory> for Why {
    fn from(_: OutOfMemory) -> Why {
        Why::OutOfMemory
    }
}

/// What is compared is like what the row says.
pub(crate) fn is_like(what: &'static str, like: bool) -> Result<(), Why> {
    if like { Ok(()) } else { Err(Why::Unlike(what)) }
}

/// The bytes are those that the row says.
pub(crate) fn are_bytes(what: &'static str, bytes: &[u8], want: &str) -> Result<(), Why> {
    is_like(what, bytes == want.as_bytes())
}

/// The outcome of a read or a write of all is the one that the row says.
pub(crate) fn is_outcome(
    outcome: Result<usize, IoFault>,
    want: Result<usize, IoFault>,
) -> Result<(), Why> {
    is_like("the outcome", outcome == want)
}

/// The row of this name is as it says.
pub(crate) fn is_well(rt: &impl Abort, name: &str, outcome: Result<(), Why>) {
    assert_eq!(rt; outcome, Ok(()), "in the row {name:?}");
}

/// The answer of a flush or a shutdown that is done.
pub(crate) const DONE: PollCount = PollCount::Ready(Ok(0));

/// The answer of a poll at which the error number 5 came.
pub(crate) const FAILED: PollCount = PollCount::Ready(Err(IoFault::Os(5)));

/// These bytes.
pub(crate) fn vec_of(alloc: Global, bytes: &str) -> Result<Vec<u8>, Why> {
    Ok(bytes.as_bytes().to_vec(alloc)?)
}

/// These bytes as a list.
pub(crate) fn list_of(alloc: Global, bytes: &str) -> Result<ByteList, Why> {
    Ok(ByteList::from_vec(vec_of(alloc, bytes)?))
}

/// These numbers as a list.
pub(crate) fn nums_of(alloc: Global, nums: &[u64]) -> Result<NumList, Why> {
    Ok(NumList::from_vec(nums.to_vec(alloc)?))
}

/// A buffer with so much room.
pub(crate) fn room_of(alloc: Global, room: usize) -> Result<Rent, Why> {
    Ok(Rent::with_total(alloc, room)?)
}

// Vectors of these bytes.
fn vecs_of(alloc: Global, texts: &[&str]) -> Result<Vec<Vec<u8>>, Why> {
    let mut vecs = Vec::new(alloc);
    for i in 0..texts.len() {
        vecs.push(vec_of(alloc, texts[i])?)?;
    }
    Ok(vecs)
}

/// Parts of these bytes.
pub(crate) fn parts_of(alloc: Global, texts: &[&str]) -> Result<VecBuf, Why> {
    made(VecBuf::from_parts(vecs_of(alloc, texts)?))
}

// The vectors hold these bytes.
fn hold(vecs: &[Vec<u8>], texts: &[&str]) -> bool {
    if vecs.len() != texts.len() {
        return false;
    }
    for i in 0..texts.len() {
        if i >= vecs.len() || vecs[i].as_slice() != texts[i].as_bytes() {
            return false;
        }
    }
    true
}

/// The parts hold these bytes.
pub(crate) fn are_parts(parts: VecBuf, texts: &[&str]) -> Result<(), Why> {
    let vecs = made(parts.into_parts())?;
    is_like("the parts", hold(&vecs, texts))
}

/// A stream of these bytes with this script.
pub(crate) fn stream(
    alloc: Global,
    bytes: &[u8],
    script: &[Turned1],
) -> Result<ScriptedStream, Why> {
    let input = ByteList::from_vec(bytes.to_vec(alloc)?);
    Ok(ScriptedStream::new(alloc, input, script.to_vec(alloc)?))
}

/// A stream has these bytes left.
pub(crate) fn has_left(io: &ScriptedStream, want: &str) -> Result<(), Why> {
    are_bytes("the bytes that are left", io.left(), want)
}

/// These bytes were delivered to a stream.
pub(crate) fn has_delivered(io: &ScriptedStream, want: &str) -> Result<(), Why> {
    are_bytes("the bytes that were delivered", io.delivered(), want)
}

/// So many calls were made of a stream.
pub(crate) fn has_calls(io: &ScriptedStream, want: u64) -> Result<(), Why> {
    is_like("the number of calls", io.calls() == want)
}

/// What was made, where memory is at hand.
pub(crate) fn made<T, E: Drop>(answer: Result<T, E>) -> Result<T, Why> {
    match answer {
        Ok(it) => Ok(it),
        Err(_) => Err(Why::OutOfMemory),
    }
}

/// The end of polls that are done.
pub(crate) fn ended<S: Drop, R>(step: Step<S, R>) -> Result<R, Why> {
    match step {
        Step::Ready(end) => Ok(end),
        _ => Err(Why::NotSo),
    }
}

/// The state of polls that wait.
pub(crate) fn pending<S: Drop, R: Drop>(step: Step<S, R>) -> Result<S, Why> {
    match step {
        Step::Pending(state) => Ok(state),
        _ => Err(Why::NotSo),
    }
}

/// The state of a poll that asks for another one.
pub(crate) fn again<S: Drop, R: Drop>(step: Step<S, R>) -> Result<S, Why> {
    match step {
        Step::Again(state) => Ok(state),
        _ => Err(Why::NotSo),
    }
}

/// What a poll answered, and the buffer.
pub(crate) fn parted<T>(poll: PollBuf<T>) -> (PollCount, T) {
    match poll {
        PollBuf::Ready(Ok(n), buf) => (PollCount::Ready(Ok(n as u64)), buf),
        PollBuf::Ready(Err(fault), buf) => (PollCount::Ready(Err(fault)), buf),
        PollBuf::Pending(buf) => (PollCount::Pending, buf),
        PollBuf::Again(buf) => (PollCount::Again, buf),
    }
}

/// The state of polls that are used up.
pub(crate) fn going<S: Drop, R: Drop>(step: Step<S, R>) -> Result<S, Why> {
    match step {
        Step::Again(state) => Ok(state),
        _ => Err(Why::NotSo),
    }
}

/// How a read or a write of all ended, and the buffer.
pub(crate) fn whole<S: Drop, T>(step: Step<S, BufResult<usize, T>>) -> Result<(PollCount, T), Why> {
    match step {
        Step::Ready((Ok(n), buf)) => Ok((PollCount::Ready(Ok(n as u64)), buf)),
        Step::Ready((Err(fault), buf)) => Ok((PollCount::Ready(Err(fault)), buf)),
        _ => Err(Why::NotSo),
    }
}
