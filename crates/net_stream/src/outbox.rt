//! What is to go at a connection, and its stream to write.
ghost use Rattle.std.specs.Prelude.{◌≡◌, ◌≤◌, ◌+◌, ◌++◌, [], true, false, None, length, max, IfOk, IsTrue};
ghost use Rattle.std.specs.List.{concat};
ghost use Rattle.rent_io.specs.Counts.{AfterCall};
ghost use Rattle.rent_io.specs.Polls.{CountsNone, IsWriteCaused, IsFlushCaused};
ghost use Rattle.rent_io.specs.Writer.{CountsDone, EndsStay, Writes, first_part as part_of};
ghost use Rattle.net_stream.specs.Inbox.{FaultAfter, FaultTold};
ghost use Rattle.net_stream.specs.Outbox.{FlushesOutbox, PutIn, SameBytes, TakenOut, TurnsFlush, TurnsWrite};
ghost use Rattle.net_stream.specs.Outbox.{WantsSent, WritesOutbox, fresh_outbox, has_failed, later_fault, outbox_writer};

use crate::tally::{Tally, Turn};
use rent_buf::{IoBuf, IoBufMut as _, IoFault, IoVecBuf, OutOfMemory, Rent};
use rent_io::vectored::first_part;
use rent_io::{AsyncWriteRent, PollBuf, PollCount};
use std::alloc::Global;
use std::marker::Model;
use std::mem;

/// What is to go at a connection: a stream to write. It takes what there is room for, and pauses where there is none. A
/// flush is done once all is sent. (not in monoio)
#[derive(Debug, Drop)]
pub struct Outbox {
    // The bytes that were written.
    buf: Rent,
    // How many of them a send has taken.
    start: usize,
    // A send has some that aren't sent.
    sending: bool,
    fault: Option<IoFault>,
    tally: Tally,
    flushes: u64,
    shutdowns: u64,
}

impl Model for Outbox {
    ghost use Rattle.std.specs.Prelude.{◌-◌, ◌≤◌, drop, length};
    ghost use Rattle.net_stream.specs.Outbox.{Outboxed};

    ghost Value = { Outboxed };

    ghost view = { λ b. record {
      unsent = drop b.start b.buf.bytes;
      free = b.buf.total - length b.buf.bytes;
      sending = b.sending;
      fault = b.fault;
      counts = b.tally;
      flushes = b.flushes;
      shutdowns = b.shutdowns;
    } };

    ghost invariant = { λ b. b.start ≤ length b.buf.bytes };
}

// Stores bytes behind those of a buffer that has room for them.
fn append(buf: &mut Rent, bytes: &[u8])
    requires { length buf.old.bytes + length bytes.now ≤ buf.old.total }
    ensures bytes { buf.new.bytes ≡ buf.old.bytes ++ bytes.now }
    ensures total { buf.new.total ≡ buf.old.total }
{
    buf.keeps_bounds();
    let at = buf.len();
    buf.store(at, bytes);
}

impl Outbox {
    /// One with room for so many bytes, for one at least, to which nothing was written.
    pub fn new(alloc: Global, room: usize) -> Result<Outbox, OutOfMemory>
        ensures { IfOk result (λ outbox. outbox ≡ fresh_outbox (max 1 room)) }
    {
        Ok(Outbox::over(Rent::with_total(alloc, room.max(1))?))
    }

    // One over an empty buffer.
    pub(crate) fn over(buf: Rent) -> Outbox
        requires { buf.bytes ≡ [] }
        ensures { result ≡ fresh_outbox buf.total }
    {
        Outbox {
            buf,
            start: 0,
            sending: false,
            fault: None,
            tally: Tally::new(),
            flushes: 0,
            shutdowns: 0,
        }
    }

    /// The bytes that were written and that no send has taken.
    pub fn unsent(&self) -> &[u8]
        ensures { result.now ≡ self.now.unsent }
    {
        &self.buf.as_slice()[self.start..]
    }

    // How many bytes may be written.
    fn free(&self) -> usize
        ensures { result ≡ self.now.free }
    {
        self.buf.keeps_bounds();
        self.buf.total() - self.buf.len()
    }

    // Bytes are to be sent, and no fault came.
    pub(crate) fn wants_sent(&self) -> bool
        ensures yes { IsTrue result → WantsSent self.now }
        ensures no { WantsSent self.now → IsTrue result }
    {
        !self.unsent().is_empty() && self.fault.is_none()
    }

    // Whether a fault came that no call answered yet.
    pub(crate) fn has_failed(&self) -> bool
        ensures { result ≡ has_failed self.now.fault }
    {
        self.fault.is_some()
    }

    // A send has taken the first bytes. Their room is free once it has all.
    pub(crate) fn take_out(&mut self, count: usize)
        requires { count ≤ length self.old.unsent }
        ensures { TakenOut count self.old self.new }
    {
        let len = self.buf.len();
        self.start = len.min(self.start + count);
        self.sending = true;
        if self.start == len {
            self.buf.clear();
            self.start = 0;
        }
    }

    // Gives all its bytes for an empty buffer, where that has as much room and no send has taken some: whether it did. Then the buffer has
    // them, and none was copied.
    pub(crate) fn swap_out(&mut self, empty: &mut Rent) -> bool
        requires { empty.old.bytes ≡ [] }
        ensures yes { IsTrue result → (empty.new.bytes ≡ self.old.unsent) × TakenOut (length self.old.unsent) self.old self.new }
        ensures no { result ≡ false → (self.new ≡ self.old) × (empty.new ≡ empty.old) }
        ensures total { empty.new.total ≡ empty.old.total }
    {
        if self.start != 0 || self.buf.total() != empty.total() {
            return false;
        }
        mem::swap(&mut self.buf, empty);
        self.sending = true;
        true
    }

    // The last send ended: whether it left some bytes, and its fault. One that no call answered yet stays where it brought none.
    pub(crate) fn note_sent(&mut self, rest: bool, fault: Option<IoFault>)
        ensures { self.new ≡ record self.old { sending = rest; fault = later_fault fault self.old.fault } }
    {
        let _ = self.buf.len();
        self.sending = rest;
        if fault.is_some() {
            self.fault = fault;
        }
    }

    // What a write of so many bytes is to answer, which is counted.
    fn turn(&mut self, size: usize, task: u64) -> Turn
        ensures turns { TurnsWrite size task self.old self.new result }
        ensures sending { self.new.sending ≡ self.old.sending }
        ensures same { SameBytes self.old self.new }
        ensures counts { AfterCall None self.old.counts self.new.counts }
    {
        if size == 0 {
            return Turn::Gives(0);
        }
        if let Some(fault) = self.fault.take() {
            self.tally.fail(fault);
            return Turn::Fails(fault);
        }
        let count = size.min(self.free());
        if count > 0 {
            return Turn::Gives(count);
        }
        self.tally.pause(task);
        Turn::Waits
    }

    // What a flush is to answer, which is counted.
    fn flushing(&mut self, task: u64) -> Turn
        ensures turns { TurnsFlush task self.old self.new result }
        ensures sending { self.new.sending ≡ self.old.sending }
        ensures same { SameBytes self.old self.new }
        ensures counts { AfterCall None self.old.counts self.new.counts }
    {
        if let Some(fault) = self.fault.take() {
            self.tally.fail(fault);
            return Turn::Fails(fault);
        }
        if !self.sending && self.unsent().is_empty() {
            return Turn::Gives(0);
        }
        self.tally.pause(task);
        Turn::Waits
    }

    // Takes bytes for which there is room.
    fn put(&mut self, bytes: &[u8])
        requires { length bytes.now ≤ self.old.free }
        ensures { PutIn bytes.now self.old self.new }
    {
        self.buf.keeps_bounds();
        append(&mut self.buf, bytes);
    }

    // One write of these bytes.
    fn write(&mut self, bytes: &[u8], task: u64) -> PollBuf<()>
        ensures writes { Writes true self.old.unsent self.new.unsent bytes.now tt result }
        ensures none { CountsNone (length bytes.now) self.old.counts self.new.counts result }
        ensures ends { EndsStay (outbox_writer self.old) (outbox_writer self.new) }
        ensures cause { IsWriteCaused task self.old.counts self.new.counts result }
        ensures counts { AfterCall None self.old.counts self.new.counts }
        ensures outbox { WritesOutbox self.old (length bytes.now) result }
        ensures once { FaultAfter self.old.fault self.new.fault result }
        ensures sending { self.new.sending ≡ self.old.sending }
    {
        match self.turn(bytes.len(), task) {
            Turn::Gives(count) => {
                let (front, _) = bytes.split_at(count);
                self.put(front);
                PollBuf::Ready(Ok(count), ())
            }
            Turn::Waits => PollBuf::Pending(()),
            Turn::Fails(fault) => PollBuf::Ready(Err(fault), ()),
        }
    }
}

impl AsyncWriteRent for Outbox {
    ghost tells = { true };

    ghost writer = { outbox_writer };

    /// Takes as many of the bytes as there is room for. Where there is none it is pending, until a call of the
    /// connection's `send` has moved more. A fault of a send is answered once.
    fn poll_write<T: IoBuf>(&mut self, buf: T, task: u64) -> PollBuf<T>
        ensures writes { Writes true self.old.unsent self.new.unsent (T.content buf) buf result }
        ensures none { CountsNone (length (T.content buf)) self.old.counts self.new.counts result }
        ensures ends { EndsStay (outbox_writer self.old) (outbox_writer self.new) }
        ensures cause { IsWriteCaused task self.old.counts self.new.counts result }
        ensures counts { AfterCall None self.old.counts self.new.counts }
        ensures outbox { WritesOutbox self.old (length (T.content buf)) result }
        ensures once { FaultAfter self.old.fault self.new.fault result }
        ensures sending { self.new.sending ≡ self.old.sending }
    {
        match self.write(buf.bytes(), task) {
            PollBuf::Ready(outcome, ()) => PollBuf::Ready(outcome, buf),
            PollBuf::Pending(()) => PollBuf::Pending(buf),
            PollBuf::Again(()) => PollBuf::Again(buf),
        }
    }

    /// The same of the first part that has bytes.
    #[tactic(auto, using(rent_io::proofs::FirstParts::parts_written, rent_io::proofs::FirstParts::parts_within, rent_io::proofs::FirstParts::none_of_all))]
    fn poll_writev<T: IoVecBuf>(&mut self, buf: T, task: u64) -> PollBuf<T>
        ensures writes { Writes true self.old.unsent self.new.unsent (concat (T.parts buf)) buf result }
        ensures none { CountsNone (length (concat (T.parts buf))) self.old.counts self.new.counts result }
        ensures ends { EndsStay (outbox_writer self.old) (outbox_writer self.new) }
        ensures cause { IsWriteCaused task self.old.counts self.new.counts result }
        ensures counts { AfterCall None self.old.counts self.new.counts }
        ensures outbox { WritesOutbox self.old (length (part_of (T.parts buf))) result }
        ensures once { FaultAfter self.old.fault self.new.fault result }
        ensures sending { self.new.sending ≡ self.old.sending }
    {
        match self.write(first_part(&buf), task) {
            PollBuf::Ready(outcome, ()) => PollBuf::Ready(outcome, buf),
            PollBuf::Pending(()) => PollBuf::Pending(buf),
            PollBuf::Again(()) => PollBuf::Again(buf),
        }
    }

    /// Done once all that was written is sent, and pending until then.
    fn poll_flush(&mut self, task: u64) -> PollCount
        ensures delivered { IsTrue true → self.new.unsent ≡ self.old.unsent }
        ensures flushes { CountsDone self.old.flushes self.new.flushes result }
        ensures shutdowns { self.new.shutdowns ≡ self.old.shutdowns }
        ensures cause { IsFlushCaused task self.old.counts self.new.counts result }
        ensures counts { AfterCall None self.old.counts self.new.counts }
        ensures outbox { FlushesOutbox self.old result }
        ensures once { FaultTold self.old.fault self.new.fault result }
        ensures sending { self.new.sending ≡ self.old.sending }
    {
        match self.flushing(task) {
            Turn::Gives(_) => {
                self.flushes = self.flushes.saturating_add(1);
                PollCount::Ready(Ok(0))
            }
            Turn::Waits => PollCount::Pending,
            Turn::Fails(fault) => PollCount::Ready(Err(fault)),
        }
    }

    /// The same: the peer sees the end once the handle is closed.
    fn poll_shutdown(&mut self, task: u64) -> PollCount
        ensures delivered { IsTrue true → self.new.unsent ≡ self.old.unsent }
        ensures flushes { self.new.flushes ≡ self.old.flushes }
        ensures shutdowns { CountsDone self.old.shutdowns self.new.shutdowns result }
        ensures cause { IsFlushCaused task self.old.counts self.new.counts result }
        ensures counts { AfterCall None self.old.counts self.new.counts }
        ensures outbox { FlushesOutbox self.old result }
        ensures once { FaultTold self.old.fault self.new.fault result }
        ensures sending { self.new.sending ≡ self.old.sending }
    {
        match self.flushing(task) {
            Turn::Gives(_) => {
                self.shutdowns = self.shutdowns.saturating_add(1);
                PollCount::Ready(Ok(0))
            }
            Turn::Waits => PollCount::Pending,
            Turn::Fails(fault) => PollCount::Ready(Err(fault)),
        }
    }
}
