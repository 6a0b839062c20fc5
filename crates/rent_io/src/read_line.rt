//! A read of a line.
ghost use Rattle.std.specs.Prelude.{◌≡◌, ◌≤◌, [], IsUtf8, MatchBool, length, take, drop, string_bytes, IfErr};
ghost use Rattle.rent_io.specs.Completeness.{IsNoLine};
ghost use Rattle.rent_io.specs.ReadLine.{HasLined, LineRunEnd, ReadsLine, TextOf};
ghost use Rattle.rent_io.specs.State.{plain};

use crate::async_buf_read::AsyncBufRead;
use crate::calls::Plain;
use crate::poll::Step;
use crate::read_until::UntilState;
use crate::state::{Polled, StateBy};
use rent_buf::{BufResult, ByteList, IoFault};
use std::marker::Model;
use std::str;

/// The state of a `ReadLine`. A clause sees it as the bytes of the text before it, and those that were added.
#[derive(Debug, Drop)]
pub struct LineState {
    until: UntilState,
    start: usize,
}

impl Model for LineState {
    ghost use Rattle.std.specs.Prelude.{take, drop};
    ghost use Rattle.rent_io.specs.ReadLine.{Lining, IsLining};

    ghost Value = { Lining };

    ghost view = { λ s. record { text = take s.start s.until.bytes; added = drop s.start s.until.bytes } };

    ghost invariant = { λ s. IsLining s.until s.start };
}

/// A read of a line, as `read_line` starts it (monoio: the future of `read_line`). Each poll makes one fill at most,
/// and adds what is buffered, up to and with the newline. It is done with the number of the bytes that were added, once
/// the newline came or the stream ended; with `InvalidData`, where they aren't UTF-8; with `OutOfMemory`; or with the
/// stream's fault. Bytes that aren't UTF-8 are taken back (`ReadsLine`). Over many polls the bytes that left the stream
/// were added, up to and with the first newline (`HasLined`, `LineRunEnd`).
pub type ReadLine = StateBy<LineState, Plain>;

// Whether bytes are UTF-8.
fn is_text(bytes: &[u8]) -> bool
    ensures { MatchBool result (IsUtf8 bytes.now) (¬ IsUtf8 bytes.now) }
{
    match str::from_utf8(bytes) {
        Ok(_) => true,
        Err(_) => false,
    }
}

// The bytes as a text, where those from `start` on are UTF-8; else the bytes before, with `InvalidData` in place of a
// number.
fn into_text(
    outcome: Result<usize, IoFault>,
    bytes: ByteList,
    start: usize,
) -> BufResult<usize, String>
    requires within { start ≤ length bytes }
    requires utf8 { IsUtf8 (take start bytes) }
    ensures { TextOf (take start bytes) (drop start bytes) outcome result.0 (string_bytes result.1) }
{
    let mut bytes = bytes.into_vec();
    let (_, added) = bytes.as_slice().split_at(start);
    if is_text(added) {
        let text = unsafe { String::from_utf8_unchecked(bytes) };
        return (outcome, text);
    }
    bytes.truncate(start);
    let text = unsafe { String::from_utf8_unchecked(bytes) };
    match outcome {
        Ok(_) => (Err(IoFault::InvalidData), text),
        Err(fault) => (Err(fault), text),
    }
}

impl StateBy<LineState, Plain> {
    /// A read that adds the bytes up to and with a newline to a text.
    pub fn new(buf: String) -> ReadLine
        ensures { result ≡ plain (record { text = string_bytes buf; added = [] }) }
    {
        StateBy::by(LineState::new(buf), Plain)
    }
}

impl LineState {
    // A read that starts.
    fn new(buf: String) -> LineState
        ensures { result ≡ record { text = string_bytes buf; added = [] } }
    {
        let _ = buf.as_str().as_bytes();
        let start = buf.len();
        let bytes = ByteList::from_vec(buf.into_bytes());
        LineState {
            until: UntilState::new(b'\n', bytes),
            start,
        }
    }
}

impl<A: AsyncBufRead> Polled<A, Plain> for LineState {
    type End = BufResult<usize, String>;

    ghost counts = { λ io. (A.reader io).counts };

    ghost moved = { λ l. length l.added };

    ghost due = { λ l. 0 };

    ghost holds = { λ l. Unit {0} };

    ghost answers = { λ task before now l step. ReadsLine A.tells task (A.reader before) (A.reader now) string_bytes l step };

    ghost short = { λ before now l end. IfErr end.0 (IsNoLine A.tells l.added (A.reader before).left) };

    ghost goes = { λ before now l next. HasLined A.tells (A.reader before) (A.reader now) l next };

    ghost ended = { λ before now l end. LineRunEnd A.tells (A.reader before) (A.reader now) l (string_bytes end.1) end.0 };

    #[tactic(auto, using(crate::proofs::LineRuns::line_none, crate::proofs::LineRuns::line_advances))]
    fn laws(&self) {}

    fn poll_by(
        self,
        io: &mut A,
        call: &Plain,
        task: u64,
    ) -> Step<LineState, BufResult<usize, String>> {
        let LineState { until, start } = self;
        match until.poll_by(io, call, task) {
            Step::Ready((outcome, bytes)) => Step::Ready(into_text(outcome, bytes, start)),
            Step::Pending(until) => Step::Pending(LineState { until, start }),
            Step::Again(until) => Step::Again(LineState { until, start }),
        }
    }
}
