// A stream in memory whose answers follow a script.
ghost use Rattle.std.specs.Prelude.{◌≡◌, ◌+◌, ◌≤◌, ◌++◌, true, None, Some, length, drop, min};
ghost use Rattle.std.specs.List.{concat};
ghost use Rattle.std.specs.Bool.{OnTrue, OnFalse};
ghost use Rattle.rent_buf.specs.Buffer.{room};
ghost use Rattle.rent_buf.specs.declared.fault.IoFault.TheVariants.{OutOfMemory as no_memory};
ghost use Rattle.rent_io.specs.Counts.{Rose, AfterCall};
ghost use Rattle.rent_io.specs.Polls.{CountsNone, Fails, IsCaused, IsWriteCaused, IsFlushCaused};
ghost use Rattle.rent_io.specs.Reader.{Reads, ReadsParts, first_room as room_of};
ghost use Rattle.rent_io.specs.Scripted.{fresh, as_writer, EndsBy, Follows, ReadsBy, Turns, WritesBy};
ghost use Rattle.rent_io.specs.Writer.{EndsStay, Writes, CountsDone, first_part as part_of};

use crate::poll::{PollBuf, PollCount};
use crate::vectored::{first_part, first_room};
use rent_buf::{ByteList, IoBuf, IoBufMut, IoFault, IoVecBuf, IoVecBufMut};
use std::alloc::Global;
use std::marker::Model;

mod streams;

/// What one call of a scripted stream does (not in monoio).
#[derive(Clone, Copy, Debug, PartialEq, Eq)]
pub enum Turned1 {
    /// It moves so many bytes, or as many as it could, if they are fewer. A read moves at least one.
    Grant(usize),
    /// It answers `Pending`.
    Pause,
    /// It answers `Again`.
    Interrupt,
    /// It answers this error number.
    Fault(u16),
}

/// A stream in memory that is read, written and canceled, and that answers by a script (not in monoio). After the
/// script it moves all that it could. A clause sees the bytes that are left and those that were delivered, and its
/// counts.
#[derive(Debug, Drop)]
pub struct ScriptedStream {
    input: ByteList,
    start: usize,
    delivered: ByteList,
    script: Vec<Turned1>,
    next: usize,
    faults: u64,
    fault: Option<IoFault>,
    pauses: u64,
    waiter: u64,
    interrupts: u64,
    zeros: u64,
    calls: u64,
    group: Option<u64>,
    flushes: u64,
    shutdowns: u64,
}

impl Model for ScriptedStream {
    ghost use Rattle.std.specs.Prelude.{◌≤◌, length, drop};
    ghost use Rattle.rent_io.specs.Scripted.{Scripted};

    ghost Value = { Scripted };

    ghost view = { λ s. record {
      script = drop s.next s.script.items;
      left = drop s.start s.input;
      delivered = s.delivered;
      counts = record {
        faults = s.faults;
        fault = s.fault;
        pauses = s.pauses;
        waiter = s.waiter;
        interrupts = s.interrupts;
        zeros = s.zeros;
        calls = s.calls;
        group = s.group;
      };
      flushes = s.flushes;
      shutdowns = s.shutdowns;
    } };

    ghost invariant = { λ s. s.start ≤ length s.input };
}

impl ScriptedStream {
    /// A stream that is read from `input`, and whose calls follow `script`.
    pub fn new(alloc: Global, input: ByteList, script: Vec<Turned1>) -> ScriptedStream
        ensures { result ≡ fresh input script.items }
    {
        ScriptedStream {
            input,
            start: 0,
            delivered: ByteList::new(alloc),
            script,
            next: 0,
            faults: 0,
            fault: None,
            pauses: 0,
            waiter: 0,
            interrupts: 0,
            zeros: 0,
            calls: 0,
            group: None,
            flushes: 0,
            shutdowns: 0,
        }
    }

    /// The bytes that are left.
    pub fn left(&self) -> &[u8]
        ensures { result.now ≡ self.now.left }
    {
        &self.input.as_slice()[self.start..]
    }

    /// The bytes that were delivered.
    pub fn delivered(&self) -> &[u8]
        ensures { result.now ≡ self.now.delivered }
    {
        self.delivered.as_slice()
    }

    /// How many calls were made of it.
    pub fn calls(&self) -> u64
        ensures { result ≡ self.now.counts.calls }
    {
        self.calls
    }

    // The next turn of the script, which is counted, for a call of this task, plain or under this group.
    fn turn(&mut self, task: u64, group: Option<u64>) -> Turned1
        ensures { Turns task group self.old self.new result }
    {
        self.calls = self.calls.saturating_add(1);
        self.group = group;
        if self.next >= self.script.len() {
            return Turned1::Grant(usize::MAX);
        }
        let turn = self.script[self.next];
        self.next += 1;
        match turn {
            Turned1::Grant(most) => Turned1::Grant(most),
            Turned1::Fault(error) => {
                self.faults = self.faults.saturating_add(1);
                self.fault = Some(IoFault::Os(error));
                Turned1::Fault(error)
            }
            Turned1::Pause => {
                self.pauses = self.pauses.saturating_add(1);
                self.waiter = task;
                Turned1::Pause
            }
            Turned1::Interrupt => {
                self.interrupts = self.interrupts.saturating_add(1);
                Turned1::Interrupt
            }
        }
    }

    // Counts a call that moved none of some bytes.
    fn note_none(&mut self, count: usize)
        ensures same { self.new ≡ record self.old { counts = record self.old.counts { zeros = self.new.counts.zeros } } }
        ensures zeros { self.old.counts.zeros ≤ self.new.counts.zeros }
        ensures rose { count ≡ 0 → Rose self.old.counts.zeros self.new.counts.zeros }
    {
        let _ = self.input.len();
        if count == 0 {
            self.zeros = self.zeros.saturating_add(1);
        }
    }

    // Takes the first bytes that are left away.
    fn skip(&mut self, count: usize)
        requires { count ≤ length self.old.left }
        ensures { self.new ≡ record self.old { left = drop count self.old.left } }
    {
        let _ = self.input.len();
        self.start += count;
    }

    // Delivers the bytes, and says whether memory was there. If it ran out, that is a fault.
    fn deliver(&mut self, bytes: &[u8]) -> bool
        ensures done { OnTrue result (self.new ≡ record self.old { delivered = self.old.delivered ++ bytes.now }) }
        ensures refused { OnFalse result
            (self.new ≡ record self.old
            { counts = record self.old.counts { faults = self.new.counts.faults; fault = self.new.counts.fault } }) }
        ensures faults { self.old.counts.faults ≤ self.new.counts.faults }
        ensures fails { OnFalse result (Fails self.old.counts self.new.counts no_memory) }
    {
        if self.delivered.append(bytes).is_ok() {
            return true;
        }
        self.faults = self.faults.saturating_add(1);
        self.fault = Some(IoFault::OutOfMemory);
        false
    }

    // One write of these bytes, for a call of this task, plain or under this group.
    fn write(&mut self, bytes: &[u8], group: Option<u64>, task: u64) -> PollBuf<()>
        ensures writes { Writes true self.old.delivered self.new.delivered bytes.now tt result }
        ensures none { CountsNone (length bytes.now) self.old.counts self.new.counts result }
        ensures ends { EndsStay (as_writer self.old) (as_writer self.new) }
        ensures left { self.new.left ≡ self.old.left }
        ensures cause { IsWriteCaused task self.old.counts self.new.counts result }
        ensures counts { AfterCall group self.old.counts self.new.counts }
        ensures follows { Follows group self.old self.new (λ turn. WritesBy turn (length bytes.now) result) }
    {
        match self.turn(task, group) {
            Turned1::Grant(most) => {
                let count = most.min(bytes.len());
                let (front, _) = bytes.split_at(count);
                if self.deliver(front) {
                    self.note_none(count);
                    return PollBuf::Ready(Ok(count), ());
                }
                PollBuf::Ready(Err(IoFault::OutOfMemory), ())
            }
            Turned1::Pause => PollBuf::Pending(()),
            Turned1::Interrupt => PollBuf::Again(()),
            Turned1::Fault(error) => PollBuf::Ready(Err(IoFault::Os(error)), ()),
        }
    }

    // One read into this buffer, for a call of this task, plain or under this group.
    #[tactic(auto, using(crate::proofs::Fronts::taken_front))]
    fn read<T: IoBufMut>(&mut self, buf: T, group: Option<u64>, task: u64) -> PollBuf<T>
        ensures reads { Reads true self.old.left self.new.left T.buffer T.under T.beside buf result }
        ensures none { CountsNone (room (T.buffer buf)) self.old.counts self.new.counts result }
        ensures cause { IsCaused task self.old.counts self.new.counts result }
        ensures counts { AfterCall group self.old.counts self.new.counts }
        ensures follows { Follows group self.old self.new (λ turn. ReadsBy turn (min (room (T.buffer buf)) (length self.old.left)) result) }
    {
        match self.turn(task, group) {
            Turned1::Grant(most) => {
                let mut buf = buf;
                let room = buf.bytes_total();
                let left = self.left();
                let count = most.max(1).min(room).min(left.len());
                let (front, _) = left.split_at(count);
                buf.store(0, front);
                self.skip(count);
                self.note_none(count);
                PollBuf::Ready(Ok(count), buf)
            }
            Turned1::Pause => PollBuf::Pending(buf),
            Turned1::Interrupt => PollBuf::Again(buf),
            Turned1::Fault(error) => PollBuf::Ready(Err(IoFault::Os(error)), buf),
        }
    }

    // The same into the first part that has room.
    #[tactic(auto, using(crate::proofs::Fronts::scattered_front))]
    fn readv<T: IoVecBufMut>(&mut self, buf: T, group: Option<u64>, task: u64) -> PollBuf<T>
        ensures reads { ReadsParts true self.old.left self.new.left T.held buf result }
        ensures none { CountsNone (room_of (T.held buf)) self.old.counts self.new.counts result }
        ensures cause { IsCaused task self.old.counts self.new.counts result }
        ensures counts { AfterCall group self.old.counts self.new.counts }
        ensures follows { Follows group self.old self.new (λ turn. ReadsBy turn (min (room_of (T.held buf)) (length self.old.left))
            result) }
    {
        match self.turn(task, group) {
            Turned1::Grant(most) => {
                let mut buf = buf;
                let room = first_room(&buf);
                let left = self.left();
                let count = most.max(1).min(room).min(left.len());
                let (front, _) = left.split_at(count);
                buf.store_front(front);
                self.skip(count);
                self.note_none(count);
                PollBuf::Ready(Ok(count), buf)
            }
            Turned1::Pause => PollBuf::Pending(buf),
            Turned1::Interrupt => PollBuf::Again(buf),
            Turned1::Fault(error) => PollBuf::Ready(Err(IoFault::Os(error)), buf),
        }
    }

    // One flush or shutdown: whether it is done.
    fn end(&mut self, group: Option<u64>, task: u64) -> PollCount
        ensures same { self.new ≡ record self.old { script = self.new.script; counts = self.new.counts } }
        ensures cause { IsFlushCaused task self.old.counts self.new.counts result }
        ensures counts { AfterCall group self.old.counts self.new.counts }
        ensures follows { Follows group self.old self.new (λ turn. EndsBy turn result) }
    {
        match self.turn(task, group) {
            Turned1::Grant(_) => PollCount::Ready(Ok(0)),
            Turned1::Pause => PollCount::Pending,
            Turned1::Interrupt => PollCount::Again,
            Turned1::Fault(error) => PollCount::Ready(Err(IoFault::Os(error))),
        }
    }

    // One write of a buffer.
    fn write_buf<T: IoBuf>(&mut self, buf: T, group: Option<u64>, task: u64) -> PollBuf<T>
        ensures writes { Writes true self.old.delivered self.new.delivered (T.content buf) buf result }
        ensures none { CountsNone (length (T.content buf)) self.old.counts self.new.counts result }
        ensures ends { EndsStay (as_writer self.old) (as_writer self.new) }
        ensures cause { IsWriteCaused task self.old.counts self.new.counts result }
        ensures counts { AfterCall group self.old.counts self.new.counts }
        ensures follows { Follows group self.old self.new (λ turn. WritesBy turn (length (T.content buf)) result) }
    {
        match self.write(buf.bytes(), group, task) {
            PollBuf::Ready(outcome, ()) => PollBuf::Ready(outcome, buf),
            PollBuf::Pending(()) => PollBuf::Pending(buf),
            PollBuf::Again(()) => PollBuf::Again(buf),
        }
    }

    // One write of the first part that has bytes.
    #[tactic(auto, using(crate::proofs::FirstParts::parts_written, crate::proofs::FirstParts::parts_within, crate::proofs::FirstParts::none_of_all))]
    fn write_parts<T: IoVecBuf>(&mut self, buf: T, group: Option<u64>, task: u64) -> PollBuf<T>
        ensures writes { Writes true self.old.delivered self.new.delivered (concat (T.parts buf)) buf result }
        ensures none { CountsNone (length (concat (T.parts buf))) self.old.counts self.new.counts result }
        ensures ends { EndsStay (as_writer self.old) (as_writer self.new) }
        ensures cause { IsWriteCaused task self.old.counts self.new.counts result }
        ensures counts { AfterCall group self.old.counts self.new.counts }
        ensures follows { Follows group self.old self.new (λ turn. WritesBy turn (length (part_of (T.parts buf))) result) }
    {
        match self.write(first_part(&buf), group, task) {
            PollBuf::Ready(outcome, ()) => PollBuf::Ready(outcome, buf),
            PollBuf::Pending(()) => PollBuf::Pending(buf),
            PollBuf::Again(()) => PollBuf::Again(buf),
        }
    }

    // One flush.
    fn flush(&mut self, group: Option<u64>, task: u64) -> PollCount
        ensures same { self.new ≡ record self.old { script = self.new.script; counts = self.new.counts; flushes = self.new.flushes } }
        ensures flushes { CountsDone self.old.flushes self.new.flushes result }
        ensures cause { IsFlushCaused task self.old.counts self.new.counts result }
        ensures counts { AfterCall group self.old.counts self.new.counts }
        ensures follows { Follows group self.old self.new (λ turn. EndsBy turn result) }
    {
        let answer = self.end(group, task);
        if let PollCount::Ready(Ok(_)) = answer {
            self.flushes = self.flushes.saturating_add(1);
        }
        answer
    }

    // One shutdown.
    fn shut(&mut self, group: Option<u64>, task: u64) -> PollCount
        ensures same { self.new ≡ record self.old { script = self.new.script; counts = self.new.counts; shutdowns = self.new.shutdowns } }
        ensures shutdowns { CountsDone self.old.shutdowns self.new.shutdowns result }
        ensures cause { IsFlushCaused task self.old.counts self.new.counts result }
        ensures counts { AfterCall group self.old.counts self.new.counts }
        ensures follows { Follows group self.old self.new (λ turn. EndsBy turn result) }
    {
        let answer = self.end(group, task);
        if let PollCount::Ready(Ok(_)) = answer {
            self.shutdowns = self.shutdowns.saturating_add(1);
        }
        answer
    }
}
