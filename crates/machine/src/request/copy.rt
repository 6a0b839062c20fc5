//! Copies of requests whose buffers are plain data.
ghost use Rattle.std.specs.Prelude.{◌≡◌, IfOk};
ghost use Rattle.machine.specs.Request.{held_of};

use crate::request::Request;
use rent_buf::{BufSpec, Held, OutOfMemory, PartsSpec};

impl Request<BufSpec, PartsSpec> {
    /// A copy of a request, with copies of the bytes that it holds and of its paths. (not in monoio)
    pub fn try_clone(&self) -> Result<Request<BufSpec, PartsSpec>, OutOfMemory>
        ensures { IfOk result (λ copy. copy ≡ self.now) }
    {
        match self {
            Request::Recv { fd, buf } => Ok(Request::Recv {
                fd: *fd,
                buf: buf.try_clone()?,
            }),
            Request::ReadVec { fd, parts } => Ok(Request::ReadVec {
                fd: *fd,
                parts: parts.try_clone()?,
            }),
            Request::Send { fd, buf } => Ok(Request::Send {
                fd: *fd,
                buf: buf.try_clone()?,
            }),
            Request::WriteVec { fd, parts } => Ok(Request::WriteVec {
                fd: *fd,
                parts: parts.try_clone()?,
            }),
            Request::RecvMsg { fd, buf } => Ok(Request::RecvMsg {
                fd: *fd,
                buf: buf.try_clone()?,
            }),
            Request::SendMsg { fd, addr, buf } => Ok(Request::SendMsg {
                fd: *fd,
                addr: *addr,
                buf: buf.try_clone()?,
            }),
            Request::Read { fd, pos, buf } => Ok(Request::Read {
                fd: *fd,
                pos: *pos,
                buf: buf.try_clone()?,
            }),
            Request::Write { fd, pos, buf } => Ok(Request::Write {
                fd: *fd,
                pos: *pos,
                buf: buf.try_clone()?,
            }),
            Request::SpliceTo { .. }
            | Request::SpliceFrom { .. }
            | Request::Accept { .. }
            | Request::Open { .. }
            | Request::Connect { .. }
            | Request::Fsync { .. }
            | Request::PollAdd { .. }
            | Request::MkDir { .. }
            | Request::Rename { .. }
            | Request::Unlink { .. } => self.unheld_clone(),
        }
    }

    // A copy of a request that holds no buffer.
    fn unheld_clone(&self) -> Result<Request<BufSpec, PartsSpec>, OutOfMemory>
        requires { held_of self.now ≡ Held.Nothing }
        ensures { IfOk result (λ copy. copy ≡ self.now) }
    {
        match self {
            Request::SpliceTo { fd, pipe, len } => Ok(Request::SpliceTo {
                fd: *fd,
                pipe: *pipe,
                len: *len,
            }),
            Request::SpliceFrom { pipe, fd, len } => Ok(Request::SpliceFrom {
                pipe: *pipe,
                fd: *fd,
                len: *len,
            }),
            Request::Accept { fd } => Ok(Request::Accept { fd: *fd }),
            Request::Open { path, flags, mode } => Ok(Request::Open {
                path: path.try_clone()?,
                flags: *flags,
                mode: *mode,
            }),
            Request::Connect { fd, addr } => Ok(Request::Connect {
                fd: *fd,
                addr: *addr,
            }),
            Request::Fsync { fd, data_only } => Ok(Request::Fsync {
                fd: *fd,
                data_only: *data_only,
            }),
            Request::PollAdd { fd, read } => Ok(Request::PollAdd {
                fd: *fd,
                read: *read,
            }),
            Request::MkDir { path, mode } => Ok(Request::MkDir {
                path: path.try_clone()?,
                mode: *mode,
            }),
            Request::Rename { from, to } => Ok(Request::Rename {
                from: from.try_clone()?,
                to: to.try_clone()?,
            }),
            Request::Unlink { path, remove_dir } => Ok(Request::Unlink {
                path: path.try_clone()?,
                remove_dir: *remove_dir,
            }),
            _ => unreachable!(),
        }
    }
}
