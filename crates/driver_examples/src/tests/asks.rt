// The requests that tests submit, and what these hold.
use machine::{Request, SharedFd};
use rent_buf::{
    Buf, BufSpec, ByteList, Held, IoBuf, IoVecBuf, Kind, OutOfMemory, PartsSpec, VecBuf,
};
use std::alloc::Global;

/// Why a call of a driver wasn't made, or what became of it that no test expects.
#[derive(Clone, Copy, Debug, PartialEq, Eq)]
pub(crate) enum Why {
    /// Memory ran out.
    OutOfMemory,
    /// The condition of the call isn't met.
    Unmet,
    /// What the call answered isn't what it answers in a test.
    Unlike,
}

impl From<OutOfMemory> for Why {
    fn from(_: OutOfMemory) -> Why {
        Why::OutOfMemory
    }
}

/// A buffer that tests submit.
pub(crate) trait Makes {
    /// A new buffer of four bytes, in which these stand.
    fn make(alloc: Global, stand: &[u8]) -> Result<Self, Why>;
}

impl Makes for Buf {
    fn make(alloc: Global, stand: &[u8]) -> Result<Buf, Why> {
        let Some(spec) = BufSpec::new(Kind::Vector, 4, 0, 4, list(alloc, stand)?) else {
            return Err(Why::Unmet);
        };
        Ok(spec.build()?)
    }
}

/// What is asked of a handle.
#[derive(Clone, Copy)]
pub(crate) enum Asks {
    /// A read into a buffer.
    Read,
    /// A read into two buffers, the first with two of the bytes.
    ReadParts,
    /// A send of a buffer.
    Send,
    /// The next message, into a buffer.
    Message,
}

/// A request: what is asked of which handle, and the bytes that stand in its buffer of four bytes, or in its two buffers of two and four.
#[derive(Clone, Copy)]
pub(crate) struct Ask(pub Asks, pub u64, pub &'static str);

impl Ask {
    /// Builds the request.
    pub(crate) fn request<B: Makes>(self, alloc: Global) -> Result<Request<B, VecBuf>, Why> {
        let fd = SharedFd::new(self.1);
        let bytes = self.2.as_bytes();
        match self.0 {
            Asks::Read => Ok(Request::Recv {
                fd,
                buf: B::make(alloc, bytes)?,
            }),
            Asks::ReadParts => Ok(Request::ReadVec {
                fd,
                parts: two_parts(alloc, bytes)?,
            }),
            Asks::Send => Ok(Request::Send {
                fd,
                buf: B::make(alloc, bytes)?,
            }),
            Asks::Message => Ok(Request::RecvMsg {
                fd,
                buf: B::make(alloc, bytes)?,
            }),
        }
    }
}

// These bytes as a list.
fn list(alloc: Global, bytes: &[u8]) -> Result<ByteList, OutOfMemory> {
    let mut list = ByteList::new(alloc);
    list.append(bytes)?;
    Ok(list)
}

// Two parts, with room for two bytes and for four, in which these stand.
fn two_parts_of(alloc: Global, first: ByteList, second: ByteList) -> Option<PartsSpec> {
    match Vec::from_array(alloc, [(2, first), (4, second)]) {
        Ok(pairs) => PartsSpec::new(pairs),
        Err(_) => None,
    }
}

// Two parts, in which some bytes stand already, at most two of them in the first one.
fn two_parts(alloc: Global, stand: &[u8]) -> Result<VecBuf, Why> {
    let (front, back) = stand.split_at(stand.len().min(2));
    let first = list(alloc, front)?;
    let second = list(alloc, back)?;
    match two_parts_of(alloc, first, second) {
        Some(spec) => Ok(spec.build()?),
        None => Err(Why::OutOfMemory),
    }
}

/// Whether a request holds these bytes, in one buffer or in parts.
pub(crate) fn has_bytes<B: IoBuf>(request: &Request<B, VecBuf>, held: &[&str]) -> bool {
    match request.held() {
        Held::One(buf) => held.len() == 1 && buf.bytes() == held[0].as_bytes(),
        Held::Parts(parts) => have_bytes(parts, held),
        Held::Nothing => held.is_empty(),
    }
}

// Whether each part holds its bytes.
fn have_bytes(parts: &VecBuf, held: &[&str]) -> bool {
    if parts.parts_len() != held.len() {
        return false;
    }
    for i in 0..held.len() {
        if i >= parts.parts_len() || parts.part(i) != held[i].as_bytes() {
            return false;
        }
    }
    true
}
