//! A read up to a delimiter.
ghost use Rattle.std.specs.Prelude.{◌≡◌, ◌<◌, ◌≤◌, length, take, MatchBool, IfErr};
ghost use Rattle.rent_buf.specs.declared.fault.IoFault.TheVariants.{OutOfMemory};
ghost use Rattle.rent_io.specs.ReadUntil.{HasAdded, IsLine, Lacks, ReadsUntil, UntilRunEnd};
ghost use Rattle.rent_io.specs.State.{plain};

use crate::async_buf_read::AsyncBufRead;
use crate::calls::Plain;
use crate::poll::{PollCount, Step};
use crate::state::{Polled, StateBy};
use memchr::memchr;
use rent_buf::{BufResult, ByteList, IoFault};
use std::marker::Model;

/// The state of a `ReadUntil`. A clause sees it as the delimiter, the bytes with those that were added, and how many
/// were added.
#[derive(Debug, Drop)]
pub struct UntilState {
    delim: u8,
    buf: ByteList,
    added: usize,
}

impl Model for UntilState {
    ghost use Rattle.std.specs.Prelude.{◌≤◌, length};
    ghost use Rattle.rent_io.specs.ReadUntil.{Until};

    ghost Value = { Until };

    ghost view = { λ s. record { delim = s.delim; bytes = s.buf; added = s.added } };

    ghost invariant = { λ s. s.added ≤ length s.buf };
}

/// A read up to a delimiter, as `read_until` starts it (monoio: the future of `read_until`). Each poll makes one fill
/// at most, and adds what is buffered, up to and with the delimiter. It is done with the number of the bytes that were
/// added, once the delimiter came or the stream ended; with `OutOfMemory`; or with the stream's fault: what was added
/// stays (`ReadsUntil`). Over many polls the bytes that left the stream were added, up to and with the first delimiter
/// (`HasAdded`, `UntilRunEnd`).
pub type ReadUntil = StateBy<UntilState, Plain>;

// Where the bytes up to the delimiter end, and whether it is there.
fn line_end(delim: u8, bytes: &[u8]) -> (usize, bool)
    ensures within { result.0 ≤ length bytes.now }
    ensures line { MatchBool result.1 (IsLine delim (take result.0 bytes.now)) (Lacks delim (take result.0 bytes.now)) }
    ensures all { MatchBool result.1 (0 < result.0) (result.0 ≡ length bytes.now) }
{
    match memchr(delim, bytes) {
        Some(place) => (place + 1, true),
        None => (bytes.len(), false),
    }
}

impl StateBy<UntilState, Plain> {
    /// A read that adds the bytes up to and with `delim` to `buf`.
    pub fn new(delim: u8, buf: ByteList) -> ReadUntil
        ensures { result ≡ plain (record { delim = delim; bytes = buf; added = 0 }) }
    {
        StateBy::by(UntilState::new(delim, buf), Plain)
    }
}

impl UntilState {
    // A read that starts.
    pub(crate) fn new(delim: u8, buf: ByteList) -> UntilState
        ensures { result ≡ record { delim = delim; bytes = buf; added = 0 } }
    {
        UntilState {
            delim,
            buf,
            added: 0,
        }
    }
}

impl<A: AsyncBufRead> Polled<A, Plain> for UntilState {
    type End = BufResult<usize, ByteList>;

    ghost counts = { λ io. (A.reader io).counts };

    ghost moved = { λ u. u.added };

    ghost due = { λ u. 0 };

    ghost holds = { λ u. Unit {0} };

    ghost answers = { λ task before now u step. ReadsUntil A.tells task (A.reader before) (A.reader now) u step };

    ghost short = { λ before now u end. IfErr end.0 (λ fault. fault ≡ OutOfMemory) };

    ghost goes = { λ before now u next. HasAdded A.tells (A.reader before) (A.reader now) u next };

    ghost ended = { λ before now u end. UntilRunEnd A.tells (A.reader before) (A.reader now) u end };

    #[tactic(auto, using(crate::proofs::LineRuns::until_none, crate::proofs::LineRuns::until_advances))]
    fn laws(&self) {}

    fn poll_by(
        self,
        io: &mut A,
        _call: &Plain,
        task: u64,
    ) -> Step<UntilState, BufResult<usize, ByteList>> {
        let UntilState {
            delim,
            mut buf,
            added,
        } = self;
        match io.poll_fill(task) {
            PollCount::Ready(Ok(n)) => {
                if n == 0 {
                    return Step::Ready((Ok(added), buf));
                }
                let bytes = io.buffered();
                let (end, found) = line_end(delim, bytes);
                let (line, _) = bytes.split_at(end);
                if buf.append(line).is_err() {
                    return Step::Ready((Err(IoFault::OutOfMemory), buf));
                }
                io.consume(end);
                let added = added + end;
                if found {
                    return Step::Ready((Ok(added), buf));
                }
                Step::Again(UntilState { delim, buf, added })
            }
            PollCount::Ready(Err(fault)) => Step::Ready((Err(fault), buf)),
            PollCount::Pending => Step::Pending(UntilState { delim, buf, added }),
            PollCount::Again => Step::Again(UntilState { delim, buf, added }),
        }
    }
}
