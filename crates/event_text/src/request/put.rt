//! Requests, appended to a text. If memory runs out, the text begins as it was.
ghost use Rattle.std.specs.Prelude.{◌≡◌, [], ◌∷◌, ◌++◌, decimal, OnOk, OnErr};
ghost use Rattle.event_text.specs.TextWrites.{Starts};
ghost use Rattle.event_text.specs.TextRequest.{request_words, buffer_words, parts_words};
ghost use Rattle.event_text.specs.TextWords.{spaced};
ghost use Rattle.machine.specs.declared.request.Request.TheVariants.{SendMsg, Open, Fsync, PollAdd, MkDir, Rename, Unlink};

use crate::buffer::{put_buffer, put_parts};
use crate::word::{put, put_byte, put_counted, put_next_address, put_next_bytes, put_next_number};
use machine::Request;
use rent_buf::{BufSpec, OutOfMemory, PartsSpec};

/// Appends the words of a request.
pub(crate) fn put_request(
    request: &Request<BufSpec, PartsSpec>,
    out: &mut Vec<u8>,
) -> Result<(), OutOfMemory>
    ensures ok { OnOk result (out.new.items ≡ out.old.items ++ spaced (request_words request.now)) }
    ensures err { OnErr result (Starts out.old.items out.new.items) }
{
    match request {
        Request::Recv { fd, buf } => put_with_buffer(b"recv ", fd.number(), buf, out),
        Request::ReadVec { fd, parts } => put_with_parts(b"readv ", fd.number(), parts, out),
        Request::Send { fd, buf } => put_with_buffer(b"send ", fd.number(), buf, out),
        Request::WriteVec { fd, parts } => put_with_parts(b"writev ", fd.number(), parts, out),
        Request::RecvMsg { fd, buf } => put_with_buffer(b"recvmsg ", fd.number(), buf, out),
        Request::SendMsg { fd, addr, buf } => put_send_message(fd.number(), *addr, buf, out),
        Request::Read { fd, pos, buf } => put_at_position(b"read ", fd.number(), *pos, buf, out),
        Request::Write { fd, pos, buf } => put_at_position(b"write ", fd.number(), *pos, buf, out),
        Request::SpliceTo { fd, pipe, len } => {
            put_numbers(b"spliceto ", fd.number(), pipe.number(), *len, out)
        }
        Request::SpliceFrom { pipe, fd, len } => {
            put_numbers(b"splicefrom ", pipe.number(), fd.number(), *len, out)
        }
        Request::Accept { fd } => put_counted(b"accept ", fd.number(), out),
        Request::Open { path, flags, mode } => put_open(path.as_slice(), *flags, *mode, out),
        Request::Connect { fd, addr } => {
            put_counted(b"connect ", fd.number(), out)?;
            put_next_number(*addr, out)
        }
        Request::Fsync { fd, data_only } => put_sync(fd.number(), *data_only, out),
        Request::PollAdd { fd, read } => put_poll_add(fd.number(), *read, out),
        Request::MkDir { path, mode } => put_make_dir(path.as_slice(), *mode, out),
        Request::Rename { from, to } => put_rename(from.as_slice(), to.as_slice(), out),
        Request::Unlink { path, remove_dir } => put_unlink(path.as_slice(), *remove_dir, out),
    }
}

fn put_with_buffer(name: &[u8], h: u64, buf: &BufSpec, out: &mut Vec<u8>) -> Result<(), OutOfMemory>
    ensures ok { OnOk result (out.new.items ≡ out.old.items ++ (name.now ++ spaced (decimal h ∷ buffer_words buf.now))) }
    ensures err { OnErr result (Starts out.old.items out.new.items) }
{
    put_counted(name, h, out)?;
    put_byte(b' ', out)?;
    put_buffer(buf, out)
}

fn put_with_parts(
    name: &[u8],
    h: u64,
    parts: &PartsSpec,
    out: &mut Vec<u8>,
) -> Result<(), OutOfMemory>
    ensures ok { OnOk result (out.new.items ≡ out.old.items ++ (name.now ++ spaced (decimal h ∷ parts_words parts.now))) }
    ensures err { OnErr result (Starts out.old.items out.new.items) }
{
    put_counted(name, h, out)?;
    put_byte(b' ', out)?;
    put_parts(parts, out)
}

fn put_at_position(
    name: &[u8],
    h: u64,
    pos: u64,
    buf: &BufSpec,
    out: &mut Vec<u8>,
) -> Result<(), OutOfMemory>
    ensures ok { OnOk result (out.new.items ≡ out.old.items ++ (name.now ++ spaced (decimal h ∷ decimal pos ∷ buffer_words buf.now))) }
    ensures err { OnErr result (Starts out.old.items out.new.items) }
{
    put_counted(name, h, out)?;
    put_next_number(pos, out)?;
    put_byte(b' ', out)?;
    put_buffer(buf, out)
}

fn put_send_message(
    h: u64,
    addr: Option<u64>,
    buf: &BufSpec,
    out: &mut Vec<u8>,
) -> Result<(), OutOfMemory>
    ensures ok { OnOk result (out.new.items ≡ out.old.items ++ spaced (request_words (SendMsg h addr buf.now))) }
    ensures err { OnErr result (Starts out.old.items out.new.items) }
{
    put_counted(b"sendmsg ", h, out)?;
    put_next_address(addr, out)?;
    put_byte(b' ', out)?;
    put_buffer(buf, out)
}

fn put_numbers(
    name: &[u8],
    first: u64,
    second: u64,
    len: u32,
    out: &mut Vec<u8>,
) -> Result<(), OutOfMemory>
    ensures ok { OnOk result
        (out.new.items ≡ out.old.items ++ (name.now ++ spaced (decimal first ∷ decimal second ∷ decimal len ∷ []))) }
    ensures err { OnErr result (Starts out.old.items out.new.items) }
{
    put_counted(name, first, out)?;
    put_next_number(second, out)?;
    put_next_number(len as u64, out)
}

fn put_open(path: &[u8], flags: u32, mode: u32, out: &mut Vec<u8>) -> Result<(), OutOfMemory>
    ensures ok { OnOk result (out.new.items ≡ out.old.items ++ spaced (request_words (Open path.now flags mode))) }
    ensures err { OnErr result (Starts out.old.items out.new.items) }
{
    put(b"open", out)?;
    put_next_bytes(path, out)?;
    put_next_number(flags as u64, out)?;
    put_next_number(mode as u64, out)
}

fn put_sync(h: u64, data_only: bool, out: &mut Vec<u8>) -> Result<(), OutOfMemory>
    ensures ok { OnOk result (out.new.items ≡ out.old.items ++ spaced (request_words (Fsync h data_only))) }
    ensures err { OnErr result (Starts out.old.items out.new.items) }
{
    put_counted(b"fsync ", h, out)?;
    if data_only {
        put(b" data", out)
    } else {
        put(b" all", out)
    }
}

fn put_poll_add(h: u64, read: bool, out: &mut Vec<u8>) -> Result<(), OutOfMemory>
    ensures ok { OnOk result (out.new.items ≡ out.old.items ++ spaced (request_words (PollAdd h read))) }
    ensures err { OnErr result (Starts out.old.items out.new.items) }
{
    put_counted(b"polladd ", h, out)?;
    if read {
        put(b" read", out)
    } else {
        put(b" write", out)
    }
}

fn put_make_dir(path: &[u8], mode: u32, out: &mut Vec<u8>) -> Result<(), OutOfMemory>
    ensures ok { OnOk result (out.new.items ≡ out.old.items ++ spaced (request_words (MkDir path.now mode))) }
    ensures err { OnErr result (Starts out.old.items out.new.items) }
{
    put(b"mkdir", out)?;
    put_next_bytes(path, out)?;
    put_next_number(mode as u64, out)
}

fn put_rename(from: &[u8], to: &[u8], out: &mut Vec<u8>) -> Result<(), OutOfMemory>
    ensures ok { OnOk result (out.new.items ≡ out.old.items ++ spaced (request_words (Rename from.now to.now))) }
    ensures err { OnErr result (Starts out.old.items out.new.items) }
{
    put(b"rename", out)?;
    put_next_bytes(from, out)?;
    put_next_bytes(to, out)
}

fn put_unlink(path: &[u8], remove_dir: bool, out: &mut Vec<u8>) -> Result<(), OutOfMemory>
    ensures ok { OnOk result (out.new.items ≡ out.old.items ++ spaced (request_words (Unlink path.now remove_dir))) }
    ensures err { OnErr result (Starts out.old.items out.new.items) }
{
    put(b"unlink", out)?;
    put_next_bytes(path, out)?;
    if remove_dir {
        put(b" dir", out)
    } else {
        put(b" file", out)
    }
}
