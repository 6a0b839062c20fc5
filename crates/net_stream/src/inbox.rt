//! What came at a connection, and its stream to read.
ghost use Rattle.std.specs.Prelude.{◌≡◌, ◌≤◌, true, false, None, Some, length, drop, IfOk, IsTrue, []};
ghost use Rattle.rent_buf.specs.Buffer.{room};
ghost use Rattle.rent_buf.specs.declared.fault.IoFault.TheVariants.{Os};
ghost use Rattle.rent_io.specs.Counts.{AfterCall};
ghost use Rattle.rent_io.specs.Polls.{CountsNone, IsCaused};
ghost use Rattle.rent_io.specs.Reader.{Reads, ReadsParts, first_room as room_of};
ghost use Rattle.net_stream.specs.Inbox.{FaultAfter, ReadsInbox, Turns, WantsMore, fresh_inbox, inbox_reader};
ghost use Rattle.net_stream.specs.Inbox.{came, fault_of, is_end, received};

use crate::tally::{Tally, Turn};
use machine::{CANCELED, Outcome};
use rent_buf::{IoBufMut, IoFault, IoVecBufMut, OutOfMemory, Rent};
use rent_io::vectored::first_room;
use rent_io::{AsyncBufRead, AsyncReadRent, PollBuf, PollCount};
use std::alloc::Global;
use std::marker::Model;
use std::mem;

/// What came at a connection: a stream to read. It gives what came, and pauses where nothing of it is left. (not in monoio)
#[derive(Debug, Drop)]
pub struct Inbox {
    // The bytes that came.
    buf: Rent,
    // How many of them were read.
    start: usize,
    ended: bool,
    fault: Option<IoFault>,
    tally: Tally,
}

impl Model for Inbox {
    ghost use Rattle.std.specs.Prelude.{◌≤◌, length};
    ghost use Rattle.std.specs.Prelude.{drop};
    ghost use Rattle.net_stream.specs.Inbox.{Inboxed};

    ghost Value = { Inboxed };

    ghost view = { λ b. record {
      arrived = drop b.start b.buf.bytes;
      ended = b.ended;
      fault = b.fault;
      counts = b.tally;
    } };

    ghost invariant = { λ b. b.start ≤ length b.buf.bytes };
}

// The end came with a count of none, into a buffer with room.
fn is_end(outcome: Outcome, room: usize) -> bool
    ensures { result ≡ is_end outcome room }
{
    match outcome {
        Outcome::Count(0) => room != 0,
        _ => false,
    }
}

// The fault of an outcome.
fn fault_of(outcome: Outcome) -> Option<IoFault>
    ensures { result ≡ fault_of outcome }
{
    match outcome {
        Outcome::Fail(error) => Some(IoFault::Os(error)),
        _ => None,
    }
}

// What came, in the buffer of a receive that ended so.
fn came(outcome: Outcome, buf: Rent) -> Rent
    ensures { result.bytes ≡ came outcome buf.bytes }
{
    let mut buf = buf;
    match outcome {
        Outcome::Count(_) | Outcome::From(_, _) => {}
        _ => buf.clear(),
    }
    buf
}

impl Inbox {
    /// One at which nothing came, with room for so many bytes at a time, for one at least.
    pub fn new(alloc: Global, room: usize) -> Result<Inbox, OutOfMemory>
        ensures { IfOk result (λ inbox. inbox ≡ fresh_inbox) }
    {
        Ok(Inbox::over(Rent::with_total(alloc, room.max(1))?))
    }

    // One over an empty buffer.
    pub(crate) fn over(buf: Rent) -> Inbox
        requires { buf.bytes ≡ [] }
        ensures { result ≡ fresh_inbox }
    {
        Inbox {
            buf,
            start: 0,
            ended: false,
            fault: None,
            tally: Tally::new(),
        }
    }

    /// The bytes that came and weren't read.
    pub fn arrived(&self) -> &[u8]
        ensures { result.now ≡ self.now.arrived }
    {
        &self.buf.as_slice()[self.start..]
    }

    /// Whether the end came: nothing comes behind what arrived.
    pub fn has_ended(&self) -> bool
        ensures { result ≡ self.now.ended }
    {
        self.ended
    }

    // The first bytes that arrived are read.
    fn skip(&mut self, count: usize)
        requires { count ≤ length self.old.arrived }
        ensures { self.new ≡ record self.old { arrived = drop count self.old.arrived } }
    {
        let len = self.buf.len();
        self.start = len.min(self.start + count);
    }

    // More may come: all that came was read, and no end and no fault came.
    pub(crate) fn wants_more(&self) -> bool
        ensures yes { IsTrue result → WantsMore self.now }
        ensures no { WantsMore self.now → IsTrue result }
    {
        self.arrived().is_empty() && !self.ended && self.fault.is_none()
    }

    // Takes in what came of a receive that ended so, and gives back its own buffer.
    pub(crate) fn take_in(&mut self, outcome: Outcome, buf: Rent) -> Rent
        requires { WantsMore self.old }
        ensures { self.new ≡ received outcome buf self.old }
    {
        self.ended = is_end(outcome, buf.total());
        self.fault = fault_of(outcome);
        self.start = 0;
        mem::replace(&mut self.buf, came(outcome, buf))
    }

    // A receive was canceled before it was submitted.
    pub(crate) fn cancel(&mut self)
        ensures { self.new ≡ record self.old { fault = Some (Os CANCELED) } }
    {
        let _ = self.buf.len();
        self.fault = Some(IoFault::Os(CANCELED));
    }

    // What a read with so much room is to answer, which is counted.
    fn turn(&mut self, room: usize, task: u64) -> Turn
        ensures turns { Turns room task self.old self.new result }
        ensures ended { self.new.ended ≡ self.old.ended }
        ensures counts { AfterCall None self.old.counts self.new.counts }
    {
        let count = self.arrived().len().min(room);
        if count > 0 || room == 0 {
            return Turn::Gives(count);
        }
        match self.fault.take() {
            Some(fault) => {
                self.tally.fail(fault);
                Turn::Fails(fault)
            }
            None => {
                if self.ended {
                    self.tally.moved(0);
                    return Turn::Gives(0);
                }
                self.tally.pause(task);
                Turn::Waits
            }
        }
    }
}

impl AsyncReadRent for Inbox {
    ghost tells = { true };

    ghost reader = { inbox_reader };

    /// The first bytes that came, as many as there is room for. Where nothing is left of them: the fault that came, once; 0 at the end; and
    /// else it is pending, until a call of the connection's `receive` has moved more.
    #[tactic(auto, using(rent_io::proofs::Fronts::taken_front))]
    fn poll_read<T: IoBufMut>(&mut self, buf: T, task: u64) -> PollBuf<T>
        ensures reads { Reads true self.old.arrived self.new.arrived T.buffer T.under T.beside buf result }
        ensures none { CountsNone (room (T.buffer buf)) self.old.counts self.new.counts result }
        ensures cause { IsCaused task self.old.counts self.new.counts result }
        ensures counts { AfterCall None self.old.counts self.new.counts }
        ensures inbox { ReadsInbox self.old (room (T.buffer buf)) result }
        ensures once { FaultAfter self.old.fault self.new.fault result }
        ensures ended { self.new.ended ≡ self.old.ended }
    {
        let mut buf = buf;
        match self.turn(buf.bytes_total(), task) {
            Turn::Gives(count) => {
                let (front, _) = self.arrived().split_at(count);
                buf.store(0, front);
                self.skip(count);
                PollBuf::Ready(Ok(count), buf)
            }
            Turn::Waits => PollBuf::Pending(buf),
            Turn::Fails(fault) => PollBuf::Ready(Err(fault), buf),
        }
    }

    /// The same into the first part that has room.
    #[tactic(auto, using(rent_io::proofs::Fronts::scattered_front))]
    fn poll_readv<T: IoVecBufMut>(&mut self, buf: T, task: u64) -> PollBuf<T>
        ensures reads { ReadsParts true self.old.arrived self.new.arrived T.held buf result }
        ensures none { CountsNone (room_of (T.held buf)) self.old.counts self.new.counts result }
        ensures cause { IsCaused task self.old.counts self.new.counts result }
        ensures counts { AfterCall None self.old.counts self.new.counts }
        ensures inbox { ReadsInbox self.old (room_of (T.held buf)) result }
        ensures once { FaultAfter self.old.fault self.new.fault result }
        ensures ended { self.new.ended ≡ self.old.ended }
    {
        let mut buf = buf;
        match self.turn(first_room(&buf), task) {
            Turn::Gives(count) => {
                let (front, _) = self.arrived().split_at(count);
                buf.store_front(front);
                self.skip(count);
                PollBuf::Ready(Ok(count), buf)
            }
            Turn::Waits => PollBuf::Pending(buf),
            Turn::Fails(fault) => PollBuf::Ready(Err(fault), buf),
        }
    }
}

// What arrived is its buffer.
impl AsyncBufRead for Inbox {
    ghost buffered = { λ s. s.arrived };

    /// How many bytes arrived. Where nothing is left of them: the fault that came, once; 0 at the end; and else it is pending.
    fn poll_fill(&mut self, task: u64) -> PollCount {
        match self.turn(self.arrived().len().max(1), task) {
            Turn::Gives(count) => PollCount::Ready(Ok(count as u64)),
            Turn::Waits => PollCount::Pending,
            Turn::Fails(fault) => PollCount::Ready(Err(fault)),
        }
    }

    #[tactic(auto, using(rent_io::proofs::Fronts::all_front))]
    fn buffered(&self) -> &[u8] {
        self.arrived()
    }

    #[tactic(auto, using(rent_io::proofs::Fronts::cut_to_end))]
    fn consume(&mut self, n: usize) {
        self.skip(n.min(self.arrived().len()));
    }
}
