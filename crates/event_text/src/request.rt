//! Requests as text, read and, in `put`, written: a name, then what the request names and holds.
ghost use Rattle.std.specs.Prelude.{◌≡◌, ◌^◌, [], IfOk};
ghost use Rattle.event_text.specs.TextLook.{line_end, words_left};
ghost use Rattle.event_text.specs.TextReaders.{behind_first, first_of, with_first, last_of};
ghost use Rattle.event_text.specs.TextReads.{number_of, number_below, bytes_of, address_of, flag_of, bytes_end};
ghost use Rattle.event_text.specs.TextReads.{buffer_of, parts_of};
ghost use Rattle.event_text.specs.TextRequestReads.{request_of, request_by, place_request_by, path_request_by, handle_request_by};

pub(crate) mod put;

use crate::buffer::{read_buffer, read_parts};
use crate::word::hex::read_bytes;
use crate::word::{
    behind_next, last_bytes, last_flag, last_number, last_u32, next_address, next_bytes_word,
    next_number, next_u32,
};
use machine::{Request, SharedFd};
use rent_buf::{BufSpec, ByteList, OutOfMemory, PartsSpec};
use std::alloc::Global;

/// The request that the words that are left write.
pub(crate) fn read_request(
    alloc: Global,
    rest: &[u8],
) -> Result<Option<Request<BufSpec, PartsSpec>>, OutOfMemory>
    requires { line_end rest.now ≡ [] }
    ensures { IfOk result (λ request. request ≡ request_of (words_left rest.now)) }
{
    named_request(alloc, rest)
}

// The same, by the tables of names from that of streams on.
#[tactic(auto, unfolding(crate::specs::TextRequestReads::request_by))]
fn named_request(
    alloc: Global,
    rest: &[u8],
) -> Result<Option<Request<BufSpec, PartsSpec>>, OutOfMemory>
    requires { line_end rest.now ≡ [] }
    ensures { IfOk result (λ request. request ≡ request_by (first_of (words_left rest.now)) (behind_first (words_left rest.now))) }
{
    if let Some(rest) = behind_next(rest, b"recv") {
        let found = number_and_buffer(alloc, rest)?;
        return Ok(found.map(|(h, buf)| Request::Recv {
            fd: SharedFd::new(h),
            buf,
        }));
    }
    if let Some(rest) = behind_next(rest, b"readv") {
        let found = number_and_parts(alloc, rest)?;
        return Ok(found.map(|(h, parts)| Request::ReadVec {
            fd: SharedFd::new(h),
            parts,
        }));
    }
    if let Some(rest) = behind_next(rest, b"send") {
        let found = number_and_buffer(alloc, rest)?;
        return Ok(found.map(|(h, buf)| Request::Send {
            fd: SharedFd::new(h),
            buf,
        }));
    }
    if let Some(rest) = behind_next(rest, b"writev") {
        let found = number_and_parts(alloc, rest)?;
        return Ok(found.map(|(h, parts)| Request::WriteVec {
            fd: SharedFd::new(h),
            parts,
        }));
    }
    place_request(alloc, rest)
}

// The same, from that of messages and positions on.
#[tactic(auto, unfolding(crate::specs::TextRequestReads::place_request_by))]
fn place_request(
    alloc: Global,
    rest: &[u8],
) -> Result<Option<Request<BufSpec, PartsSpec>>, OutOfMemory>
    requires { line_end rest.now ≡ [] }
    ensures { IfOk result (λ request. request ≡ place_request_by (first_of (words_left rest.now)) (behind_first (words_left rest.now))) }
{
    if let Some(rest) = behind_next(rest, b"recvmsg") {
        let found = number_and_buffer(alloc, rest)?;
        return Ok(found.map(|(h, buf)| Request::RecvMsg {
            fd: SharedFd::new(h),
            buf,
        }));
    }
    if let Some(rest) = behind_next(rest, b"sendmsg") {
        let found = number_address_and_buffer(alloc, rest)?;
        return Ok(found.map(|(h, (addr, buf))| Request::SendMsg {
            fd: SharedFd::new(h),
            addr,
            buf,
        }));
    }
    if let Some(rest) = behind_next(rest, b"read") {
        let found = numbers_and_buffer(alloc, rest)?;
        return Ok(found.map(|(h, (pos, buf))| Request::Read {
            fd: SharedFd::new(h),
            pos,
            buf,
        }));
    }
    if let Some(rest) = behind_next(rest, b"write") {
        let found = numbers_and_buffer(alloc, rest)?;
        return Ok(found.map(|(h, (pos, buf))| Request::Write {
            fd: SharedFd::new(h),
            pos,
            buf,
        }));
    }
    path_request(alloc, rest)
}

// The same, from that of paths on.
#[tactic(auto, unfolding(crate::specs::TextRequestReads::path_request_by))]
fn path_request(
    alloc: Global,
    rest: &[u8],
) -> Result<Option<Request<BufSpec, PartsSpec>>, OutOfMemory>
    requires { line_end rest.now ≡ [] }
    ensures { IfOk result (λ request. request ≡ path_request_by (first_of (words_left rest.now)) (behind_first (words_left rest.now))) }
{
    if let Some(rest) = behind_next(rest, b"open") {
        let found = bytes_and_u32s(alloc, rest)?;
        return Ok(found.map(|(path, (flags, mode))| Request::Open { path, flags, mode }));
    }
    if let Some(rest) = behind_next(rest, b"mkdir") {
        let found = bytes_and_u32(alloc, rest)?;
        return Ok(found.map(|(path, mode)| Request::MkDir { path, mode }));
    }
    if let Some(rest) = behind_next(rest, b"rename") {
        let found = bytes_and_bytes(alloc, rest)?;
        return Ok(found.map(|(from, to)| Request::Rename { from, to }));
    }
    if let Some(rest) = behind_next(rest, b"unlink") {
        let found = bytes_and_flag(alloc, rest, b"dir", b"file")?;
        return Ok(found.map(|(path, remove_dir)| Request::Unlink { path, remove_dir }));
    }
    Ok(handle_request(rest))
}

// The same of a request of handles alone.
#[tactic(auto, unfolding(crate::specs::TextRequestReads::handle_request_by))]
fn handle_request(rest: &[u8]) -> Option<Request<BufSpec, PartsSpec>>
    ensures { result ≡ handle_request_by (first_of (words_left rest.now)) (behind_first (words_left rest.now)) }
{
    if let Some(rest) = behind_next(rest, b"spliceto") {
        let (h, (pipe, len)) = numbers_and_u32(rest)?;
        return Some(Request::SpliceTo {
            fd: SharedFd::new(h),
            pipe: SharedFd::new(pipe),
            len,
        });
    }
    if let Some(rest) = behind_next(rest, b"splicefrom") {
        let (pipe, (h, len)) = numbers_and_u32(rest)?;
        return Some(Request::SpliceFrom {
            pipe: SharedFd::new(pipe),
            fd: SharedFd::new(h),
            len,
        });
    }
    if let Some(rest) = behind_next(rest, b"accept") {
        let (h, _) = last_number(rest)?;
        return Some(Request::Accept {
            fd: SharedFd::new(h),
        });
    }
    if let Some(rest) = behind_next(rest, b"connect") {
        let (h, rest) = next_number(rest)?;
        let (addr, _) = last_number(rest)?;
        return Some(Request::Connect {
            fd: SharedFd::new(h),
            addr,
        });
    }
    if let Some(rest) = behind_next(rest, b"fsync") {
        let (h, data_only) = number_and_flag(rest, b"data", b"all")?;
        return Some(Request::Fsync {
            fd: SharedFd::new(h),
            data_only,
        });
    }
    if let Some(rest) = behind_next(rest, b"polladd") {
        let (h, read) = number_and_flag(rest, b"read", b"write")?;
        return Some(Request::PollAdd {
            fd: SharedFd::new(h),
            read,
        });
    }
    None
}

// What is behind the names, by its shape.

fn number_and_buffer(alloc: Global, rest: &[u8]) -> Result<Option<(u64, BufSpec)>, OutOfMemory>
    requires { line_end rest.now ≡ [] }
    ensures { IfOk result (λ found. found ≡ with_first number_of buffer_of (words_left rest.now)) }
{
    let Some((number, rest)) = next_number(rest) else {
        return Ok(None);
    };
    match read_buffer(alloc, rest)? {
        Some(buf) => Ok(Some((number, buf))),
        None => Ok(None),
    }
}

fn numbers_and_buffer(
    alloc: Global,
    rest: &[u8],
) -> Result<Option<(u64, (u64, BufSpec))>, OutOfMemory>
    requires { line_end rest.now ≡ [] }
    ensures { IfOk result (λ found. found ≡ with_first number_of (with_first number_of buffer_of) (words_left rest.now)) }
{
    let Some((number, rest)) = next_number(rest) else {
        return Ok(None);
    };
    match number_and_buffer(alloc, rest)? {
        Some(found) => Ok(Some((number, found))),
        None => Ok(None),
    }
}

fn number_address_and_buffer(
    alloc: Global,
    rest: &[u8],
) -> Result<Option<(u64, (Option<u64>, BufSpec))>, OutOfMemory>
    requires { line_end rest.now ≡ [] }
    ensures { IfOk result (λ found. found ≡ with_first number_of (with_first address_of buffer_of) (words_left rest.now)) }
{
    let Some((number, rest)) = next_number(rest) else {
        return Ok(None);
    };
    let Some((address, rest)) = next_address(rest) else {
        return Ok(None);
    };
    match read_buffer(alloc, rest)? {
        Some(buf) => Ok(Some((number, (address, buf)))),
        None => Ok(None),
    }
}

fn number_and_parts(alloc: Global, rest: &[u8]) -> Result<Option<(u64, PartsSpec)>, OutOfMemory>
    ensures { IfOk result (λ found. found ≡ with_first number_of parts_of (words_left rest.now)) }
{
    let Some((number, rest)) = next_number(rest) else {
        return Ok(None);
    };
    match read_parts(alloc, rest)? {
        Some(parts) => Ok(Some((number, parts))),
        None => Ok(None),
    }
}

fn numbers_and_u32(rest: &[u8]) -> Option<(u64, (u64, u32))>
    ensures { result ≡ with_first number_of (with_first number_of (last_of (number_below (2 ^ 32)))) (words_left rest.now) }
{
    let (first, rest) = next_number(rest)?;
    let (second, rest) = next_number(rest)?;
    let (third, _) = last_u32(rest)?;
    Some((first, (second, third)))
}

fn number_and_flag(rest: &[u8], set: &[u8], unset: &[u8]) -> Option<(u64, bool)>
    ensures { result ≡ with_first number_of (last_of (flag_of set.now unset.now)) (words_left rest.now) }
{
    let (number, rest) = next_number(rest)?;
    let (flag, _) = last_flag(rest, set, unset)?;
    Some((number, flag))
}

fn bytes_and_u32(alloc: Global, rest: &[u8]) -> Result<Option<(ByteList, u32)>, OutOfMemory>
    ensures { IfOk result (λ found. found ≡ with_first bytes_of (last_of (number_below (2 ^ 32))) (words_left rest.now)) }
{
    let Some((word, rest)) = next_bytes_word(rest) else {
        return Ok(None);
    };
    let Some(bytes) = read_bytes(alloc, word)? else {
        return Ok(None);
    };
    match last_u32(rest) {
        Some((number, _)) => Ok(Some((bytes, number))),
        None => Ok(None),
    }
}

fn bytes_and_u32s(alloc: Global, rest: &[u8]) -> Result<Option<(ByteList, (u32, u32))>, OutOfMemory>
    ensures { IfOk result
        (λ found. found ≡ with_first bytes_of (with_first (number_below (2 ^ 32)) (last_of (number_below (2 ^ 32))))
        (words_left rest.now)) }
{
    let Some((word, rest)) = next_bytes_word(rest) else {
        return Ok(None);
    };
    let Some(bytes) = read_bytes(alloc, word)? else {
        return Ok(None);
    };
    match u32s(rest) {
        Some(numbers) => Ok(Some((bytes, numbers))),
        None => Ok(None),
    }
}

// Two numbers below 2^32.
fn u32s(rest: &[u8]) -> Option<(u32, u32)>
    ensures { result ≡ with_first (number_below (2 ^ 32)) (last_of (number_below (2 ^ 32))) (words_left rest.now) }
{
    let (first, rest) = next_u32(rest)?;
    let (second, _) = last_u32(rest)?;
    Some((first, second))
}

fn bytes_and_bytes(alloc: Global, rest: &[u8]) -> Result<Option<(ByteList, ByteList)>, OutOfMemory>
    requires { line_end rest.now ≡ [] }
    ensures { IfOk result (λ found. found ≡ with_first bytes_of bytes_end (words_left rest.now)) }
{
    let Some((word, rest)) = next_bytes_word(rest) else {
        return Ok(None);
    };
    let Some(first) = read_bytes(alloc, word)? else {
        return Ok(None);
    };
    match last_bytes(alloc, rest)? {
        Some(second) => Ok(Some((first, second))),
        None => Ok(None),
    }
}

fn bytes_and_flag(
    alloc: Global,
    rest: &[u8],
    set: &[u8],
    unset: &[u8],
) -> Result<Option<(ByteList, bool)>, OutOfMemory>
    ensures { IfOk result (λ found. found ≡ with_first bytes_of (last_of (flag_of set.now unset.now)) (words_left rest.now)) }
{
    let Some((word, rest)) = next_bytes_word(rest) else {
        return Ok(None);
    };
    let Some(bytes) = read_bytes(alloc, word)? else {
        return Ok(None);
    };
    match last_flag(rest, set, unset) {
        Some((flag, _)) => Ok(Some((bytes, flag))),
        None => Ok(None),
    }
}
