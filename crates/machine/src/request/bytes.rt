//! The bytes of a request: how many it asks for or offers, and what it holds once some came.
ghost use Rattle.std.specs.Prelude.{◌≡◌, ◌≤◌, ◌++◌, length, min, take, OnOk, OnErr};
ghost use Rattle.std.specs.List.{concat};
ghost use Rattle.rent_buf.specs.Buffer.{shown, room as range_room};
ghost use Rattle.rent_buf.specs.Parts.{bytes_of};
ghost use Rattle.machine.specs.Request.{held_of, shape_of, call_of, plain_request, room_of, shown_by, held_after};
ghost use Rattle.machine.specs.Payloads.{laid_over};
ghost use Rattle.machine.specs.Surroundings.{around, request_around};

use crate::payloads::{append_first, append_first_parts, copy_first, copy_first_parts};
use crate::request::{Call, MOST_ASKED, Request, Way};
use rent_buf::{ByteList, Held, IoBufMut, IoVecBuf as _, IoVecBufMut as _, OutOfMemory, VecBuf};

impl<B: IoBufMut> Request<B, VecBuf> {
    /// What it asks for. A reading one asks for what fits what it holds, a sending one offers the bytes that it shows, and a splice
    /// asks for its length, each cut to `MOST_ASKED`. (not in monoio)
    pub fn call(&self) -> Call
        ensures { result ≡ call_of (plain_request B.buffer self.now) }
    {
        match self {
            Request::Recv { fd, buf } => Call::In {
                h: fd.number(),
                ask: wanted(buf),
            },
            Request::ReadVec { fd, parts } => Call::In {
                h: fd.number(),
                ask: asked(parts.total_room()),
            },
            Request::Send { fd, buf } => Call::Out {
                h: fd.number(),
                ask: offered(buf),
            },
            Request::WriteVec { fd, parts } => Call::Out {
                h: fd.number(),
                ask: parts_offered(parts),
            },
            Request::RecvMsg { fd, buf } => Call::MessageIn {
                h: fd.number(),
                ask: wanted(buf),
            },
            Request::SendMsg { fd, addr, buf } => Call::MessageOut {
                h: fd.number(),
                addr: *addr,
                ask: offered(buf),
            },
            Request::Read { fd, pos, buf } => Call::ReadAt {
                h: fd.number(),
                pos: *pos,
                ask: wanted(buf),
            },
            Request::Write { fd, pos, buf } => Call::WriteAt {
                h: fd.number(),
                pos: *pos,
                ask: offered(buf),
            },
            Request::SpliceTo { fd, pipe, len } => Call::ToPipe {
                h: fd.number(),
                pipe: pipe.number(),
                ask: asked(*len as usize),
            },
            Request::SpliceFrom { pipe, fd, len } => Call::FromPipe {
                pipe: pipe.number(),
                h: fd.number(),
                ask: asked(*len as usize),
            },
            Request::Accept { fd } => Call::Accept { h: fd.number() },
            Request::Open { .. } => Call::Open,
            Request::Connect { fd, .. } => Call::Connect { h: fd.number() },
            Request::Fsync { fd, .. } => Call::Fsync { h: fd.number() },
            Request::PollAdd { fd, read } => Call::PollAdd {
                h: fd.number(),
                read: *read,
            },
            Request::MkDir { .. } | Request::Rename { .. } | Request::Unlink { .. } => Call::Path,
        }
    }

    /// How many bytes fit what it holds: 0 where it doesn't read. (not in monoio)
    pub fn room(&self) -> usize
        ensures { result ≡ room_of (plain_request B.buffer self.now) }
    {
        match self.way() {
            Way::Reads => match self.held() {
                Held::One(buf) => buf.bytes_total(),
                Held::Parts(parts) => parts.total_room(),
                Held::Nothing => 0,
            },
            Way::Sends | Way::Neither => 0,
        }
    }

    /// Stores bytes that came in what it holds: from the start of its buffer's range, or in its parts from the first one. What is
    /// sent stays. It takes no memory. (not in monoio)
    pub fn store(&mut self, bytes: &[u8])
        requires { length bytes.now ≤ room_of (plain_request B.buffer self.old) }
        ensures shape { shape_of self.new ≡ shape_of self.old }
        ensures holds { held_of (plain_request B.buffer self.new) ≡ held_after (plain_request B.buffer self.old) bytes.now }
        // What surrounds its buffer stays: the ranges under it, and the parts beside it.
        ensures surroundings { request_around (around B.under B.beside) self.new ≡ request_around (around B.under B.beside) self.old }
    {
        match self {
            Request::Recv { fd: _, buf } => buf.store(0, bytes),
            Request::ReadVec { fd: _, parts } => parts.store_front(bytes),
            Request::RecvMsg { fd: _, buf } => buf.store(0, bytes),
            Request::Read { fd: _, pos: _, buf } => buf.store(0, bytes),
            _ => {}
        }
    }

    /// Appends the first `count` bytes that it shows, or all where there are fewer, to a list; one that doesn't send shows none. They
    /// are copied once. If memory runs out, the list stays. (not in monoio)
    pub fn append_shown(&self, count: usize, list: &mut ByteList) -> Result<(), OutOfMemory>
        ensures ok { OnOk result (list.new ≡ list.old ++ take count (shown_by (plain_request B.buffer self.now))) }
        ensures err { OnErr result (list.new ≡ list.old) }
    {
        match self.way() {
            Way::Reads | Way::Neither => Ok(()),
            Way::Sends => match self.held() {
                Held::One(buf) => {
                    buf.keeps_bounds();
                    append_first(list, count, buf.bytes())
                }
                Held::Parts(parts) => append_first_parts(list, count, parts),
                Held::Nothing => Ok(()),
            },
        }
    }

    /// Copies the first bytes that it shows over the front of a target, as many as fit it, and answers how many; one that doesn't send
    /// shows none. They are copied once. (not in monoio)
    pub fn copy_shown(&self, target: &mut [u8]) -> usize
        ensures count { result ≡ min (length target.old) (length (shown_by (plain_request B.buffer self.now))) }
        ensures bytes { target.new ≡ laid_over (shown_by (plain_request B.buffer self.now)) target.old }
    {
        match self.way() {
            Way::Reads | Way::Neither => 0,
            Way::Sends => match self.held() {
                Held::One(buf) => {
                    buf.keeps_bounds();
                    copy_first(target, buf.bytes())
                }
                Held::Parts(parts) => copy_first_parts(target, parts),
                Held::Nothing => 0,
            },
        }
    }
}

// A number of bytes, cut to the most that one request asks for.
fn asked(count: usize) -> u32
    ensures { result ≡ min count MOST_ASKED }
{
    if count < MOST_ASKED {
        count as u32
    } else {
        MOST_ASKED as u32
    }
}

// How many bytes a request asks for into a buffer.
fn wanted<B: IoBufMut>(buf: &B) -> u32
    ensures { result ≡ min (range_room (B.buffer buf.now)) MOST_ASKED }
{
    asked(buf.bytes_total())
}

// How many bytes a request offers of a buffer.
fn offered<B: IoBufMut>(buf: &B) -> u32
    ensures { result ≡ length (take MOST_ASKED (shown (B.buffer buf.now))) }
{
    buf.keeps_bounds();
    asked(buf.bytes_init())
}

// How many bytes a request offers of parts. A sum that saturates is cut all the same.
fn parts_offered(parts: &VecBuf) -> u32
    ensures { result ≡ length (take MOST_ASKED (concat (bytes_of parts.now))) }
{
    let mut count: usize = 0;
    for i in 0..parts.parts_len() {
        count = count.saturating_add(parts.part(i).len());
    }
    asked(count)
}
