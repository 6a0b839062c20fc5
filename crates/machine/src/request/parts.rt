//! What a request names, which way its bytes go, and what it holds.
ghost use Rattle.std.specs.Prelude.{◌≡◌, ◌<◌, Ok, Err, length, slice_index, IfOk, IfErr};
ghost use Rattle.machine.specs.Request.{named, makes, both, listed, way_of, held_of, held_copied, IsMade, HeldFailed};

use crate::request::{Names, Request, Way};
use handle_core::SharedFd;
use rent_buf::Held;

impl<B, V> Request<B, V> {
    /// The handles that it names, each once. (not in monoio)
    pub fn names(&self) -> Names
        ensures { listed result ≡ named self.now }
    {
        match self {
            Request::Recv { fd, .. }
            | Request::ReadVec { fd, .. }
            | Request::Send { fd, .. }
            | Request::WriteVec { fd, .. }
            | Request::RecvMsg { fd, .. }
            | Request::SendMsg { fd, .. }
            | Request::Read { fd, .. }
            | Request::Write { fd, .. }
            | Request::Accept { fd }
            | Request::Connect { fd, .. }
            | Request::Fsync { fd, .. }
            | Request::PollAdd { fd, .. } => Names::One(fd.number()),
            Request::SpliceTo { fd, pipe, .. } => names_of(*fd, *pipe),
            Request::SpliceFrom { pipe, fd, .. } => names_of(*pipe, *fd),
            Request::Open { .. }
            | Request::MkDir { .. }
            | Request::Rename { .. }
            | Request::Unlink { .. } => Names::Nothing,
        }
    }

    /// It may make a handle. (not in monoio)
    pub fn makes(&self) -> bool
        ensures { result ≡ makes self.now }
    {
        matches!(self, Request::Accept { .. } | Request::Open { .. })
    }

    /// How many handles it names, each counted once. (not in monoio)
    pub fn named_len(&self) -> usize
        ensures { result ≡ length (named self.now) }
    {
        self.names().len()
    }

    /// The number of a handle that it names, by its place among those, the lowest first. (not in monoio)
    pub fn named_at(&self, i: usize) -> u64
        requires { i < length (named self.now) }
        ensures { result ≡ slice_index (named self.now) i }
    {
        self.names().at(i)
    }

    /// Which way its bytes go. (not in monoio)
    pub fn way(&self) -> Way
        ensures { result ≡ way_of self.now }
    {
        match self {
            Request::Recv { .. }
            | Request::ReadVec { .. }
            | Request::RecvMsg { .. }
            | Request::Read { .. } => Way::Reads,
            Request::Send { .. }
            | Request::WriteVec { .. }
            | Request::SendMsg { .. }
            | Request::Write { .. } => Way::Sends,
            _ => Way::Neither,
        }
    }

    /// What it holds, taken out. The rest of the request is dropped. (not in monoio)
    pub fn into_held(self) -> Held<B, V>
        ensures { result ≡ held_of self }
    {
        match self {
            Request::Recv { fd: _, buf }
            | Request::Send { fd: _, buf }
            | Request::RecvMsg { fd: _, buf }
            | Request::SendMsg {
                fd: _,
                addr: _,
                buf,
            }
            | Request::Read { fd: _, pos: _, buf }
            | Request::Write { fd: _, pos: _, buf } => Held::One(buf),
            Request::ReadVec { fd: _, parts } | Request::WriteVec { fd: _, parts } => {
                Held::Parts(parts)
            }
            Request::SpliceTo { .. }
            | Request::SpliceFrom { .. }
            | Request::Accept { .. }
            | Request::Open {
                path: _,
                flags: _,
                mode: _,
            }
            | Request::Connect { .. }
            | Request::Fsync { .. }
            | Request::PollAdd { .. }
            | Request::MkDir { path: _, mode: _ }
            | Request::Rename { from: _, to: _ }
            | Request::Unlink {
                path: _,
                remove_dir: _,
            } => Held::Nothing,
        }
    }

    /// What it holds, lent. (not in monoio)
    pub fn held(&self) -> Held<&B, &V>
        ensures { held_copied result ≡ held_of self.now }
    {
        match self {
            Request::Recv { buf, .. }
            | Request::Send { buf, .. }
            | Request::RecvMsg { buf, .. }
            | Request::SendMsg { buf, .. }
            | Request::Read { buf, .. }
            | Request::Write { buf, .. } => Held::One(buf),
            Request::ReadVec { parts, .. } | Request::WriteVec { parts, .. } => Held::Parts(parts),
            _ => Held::Nothing,
        }
    }

    /// The request with what it holds made into something else: its buffer by `one`, its parts by `many`. An error is that of the
    /// call that was made, and what it held is dropped. (not in monoio)
    pub fn try_map<C, W, E, F, G>(self, one: F, many: G) -> Result<Request<C, W>, E>
    where
        F: FnOnce(B) -> Result<C, E> + Drop,
        G: FnOnce(V) -> Result<W, E> + Drop,
        requires one { F.IsAlwaysCallable one }
        requires many { G.IsAlwaysCallable many }
        ensures ok { IfOk result (λ new. IsMade (λ x y. F.post one x (Ok y)) (λ x y. G.post many x (Ok y)) self new) }
        ensures err { IfErr result (λ e. HeldFailed (λ x e. F.post one x (Err e)) (λ x e. G.post many x (Err e)) (held_of self) e) }
    {
        match self {
            Request::Recv { fd, buf } => match one(buf) {
                Ok(buf) => Ok(Request::Recv { fd, buf }),
                Err(error) => Err(error),
            },
            Request::ReadVec { fd, parts } => match many(parts) {
                Ok(parts) => Ok(Request::ReadVec { fd, parts }),
                Err(error) => Err(error),
            },
            Request::Send { fd, buf } => match one(buf) {
                Ok(buf) => Ok(Request::Send { fd, buf }),
                Err(error) => Err(error),
            },
            Request::WriteVec { fd, parts } => match many(parts) {
                Ok(parts) => Ok(Request::WriteVec { fd, parts }),
                Err(error) => Err(error),
            },
            Request::RecvMsg { fd, buf } => match one(buf) {
                Ok(buf) => Ok(Request::RecvMsg { fd, buf }),
                Err(error) => Err(error),
            },
            Request::SendMsg { fd, addr, buf } => match one(buf) {
                Ok(buf) => Ok(Request::SendMsg { fd, addr, buf }),
                Err(error) => Err(error),
            },
            Request::Read { fd, pos, buf } => match one(buf) {
                Ok(buf) => Ok(Request::Read { fd, pos, buf }),
                Err(error) => Err(error),
            },
            Request::Write { fd, pos, buf } => match one(buf) {
                Ok(buf) => Ok(Request::Write { fd, pos, buf }),
                Err(error) => Err(error),
            },
            Request::SpliceTo { fd, pipe, len } => Ok(Request::SpliceTo { fd, pipe, len }),
            Request::SpliceFrom { pipe, fd, len } => Ok(Request::SpliceFrom { pipe, fd, len }),
            Request::Accept { fd } => Ok(Request::Accept { fd }),
            Request::Open { path, flags, mode } => Ok(Request::Open { path, flags, mode }),
            Request::Connect { fd, addr } => Ok(Request::Connect { fd, addr }),
            Request::Fsync { fd, data_only } => Ok(Request::Fsync { fd, data_only }),
            Request::PollAdd { fd, read } => Ok(Request::PollAdd { fd, read }),
            Request::MkDir { path, mode } => Ok(Request::MkDir { path, mode }),
            Request::Rename { from, to } => Ok(Request::Rename { from, to }),
            Request::Unlink { path, remove_dir } => Ok(Request::Unlink { path, remove_dir }),
        }
    }
}

impl Names {
    /// How many handles there are. (not in monoio)
    pub fn len(self) -> usize
        ensures { result ≡ length (listed self) }
    {
        match self {
            Names::Nothing => 0,
            Names::One(_) => 1,
            Names::Two(_, _) => 2,
        }
    }

    /// The handle at a place, the lowest number first. (not in monoio)
    pub fn at(self, i: usize) -> u64
        requires { i < length (listed self) }
        ensures { result ≡ slice_index (listed self) i }
    {
        match self {
            Names::Nothing => 0,
            Names::One(h) => h,
            Names::Two(lower, upper) => { if i == 0 { lower } else { upper } }
        }
    }
}

// The names of two handles, which may be the same one.
fn names_of(a: SharedFd, b: SharedFd) -> Names
    ensures { listed result ≡ both a b }
{
    let (a, b) = (a.number(), b.number());
    if a < b {
        Names::Two(a, b)
    } else if b < a {
        Names::Two(b, a)
    } else {
        Names::One(a)
    }
}
