//! A state that reads lines, and answers each.
use crate::serve::{Serve, Served};
use net_stream::{Inbox, Outbox};
use rent_buf::{IoFault, OutOfMemory};
use rent_io::{ReadLine, Step, WriteAll};
use std::alloc::Global;
use std::mem;

// How many steps one call makes at most; the next pass makes more.
const STEPS: u32 = 64;

/// What follows a line. (not in monoio)
#[derive(Debug, Drop)]
pub enum Answer {
    /// These bytes are written, and the next line is read.
    Write(Vec<u8>),
    /// The next line is read.
    Read,
    /// These bytes are written, and the connection ends.
    Last(Vec<u8>),
    /// The connection ends.
    Done,
}

/// What a connection does with its lines. (not in monoio)
pub trait Lines: Drop + Sized {
    /// Of a connection that was accepted.
    fn new(alloc: Global) -> Result<Self, OutOfMemory>;

    /// What is written before the first line is read.
    fn begin(&mut self) -> Option<Vec<u8>>;

    /// Meets a line, with its newline; the last one may have none.
    fn answer(&mut self, line: String) -> Answer;
}

// What such a state is about.
#[derive(Debug, Drop)]
enum Doing {
    // It begins.
    Begins,
    // It reads a line.
    Reads(ReadLine),
    // It writes, and then it reads on, or is over.
    Writes(WriteAll<Vec<u8>>, bool),
    // It is over.
    Over,
}

/// A state that reads lines of whatever length, and writes what answers them, a line at a time. It ends where the peer's end came, with a
/// fault where memory ran out or a line is not UTF-8, or where an answer is the last. (not in monoio; tokio's `LinesCodec` is near)
#[derive(Debug, Drop)]
pub struct ByLines<L> {
    /// What it does with them.
    pub lines: L,
    /// Why it ended, if by a fault: `OutOfMemory` or `InvalidData`.
    pub fault: Option<IoFault>,
    doing: Doing,
    alloc: Global,
}

impl<L: Lines> ByLines<L> {
    /// One that begins.
    pub fn over(alloc: Global, lines: L) -> ByLines<L> {
        ByLines {
            lines,
            fault: None,
            doing: Doing::Begins,
            alloc,
        }
    }

    // A read of the next line.
    fn read(&self) -> Doing {
        Doing::Reads(ReadLine::new(String::new(self.alloc)))
    }

    // What follows these bytes, if there are some.
    fn write(&self, bytes: Option<Vec<u8>>) -> Doing {
        match bytes {
            Some(bytes) => Doing::Writes(WriteAll::new(bytes), true),
            None => self.read(),
        }
    }

    // What follows a line: of length 0 it is the end.
    fn meet(&mut self, outcome: Result<usize, IoFault>, line: String) -> Doing {
        match outcome {
            Ok(0) => Doing::Over,
            Ok(_) => match self.lines.answer(line) {
                Answer::Write(bytes) => self.write(Some(bytes)),
                Answer::Read => self.read(),
                Answer::Last(bytes) => Doing::Writes(WriteAll::new(bytes), false),
                Answer::Done => Doing::Over,
            },
            Err(fault) => self.fail(fault),
        }
    }

    // It is over by a fault.
    fn fail(&mut self, fault: IoFault) -> Doing {
        self.fault = Some(fault);
        Doing::Over
    }

    // It reads, and nothing more came.
    fn waits(&self, inbox: &Inbox) -> bool {
        match &self.doing {
            Doing::Reads(_) => inbox.arrived().is_empty() && !inbox.has_ended(),
            _ => false,
        }
    }

    // One step: what follows, and whether that is to be begun at once.
    fn step(
        &mut self,
        doing: Doing,
        inbox: &mut Inbox,
        outbox: &mut Outbox,
        task: u64,
    ) -> (Doing, bool) {
        match doing {
            Doing::Begins => {
                let bytes = self.lines.begin();
                (self.write(bytes), true)
            }
            Doing::Reads(line) => match line.poll(inbox, task) {
                Step::Ready((outcome, line)) => (self.meet(outcome, line), true),
                Step::Again(line) => (Doing::Reads(line), true),
                Step::Pending(line) => (Doing::Reads(line), false),
            },
            Doing::Writes(bytes, on) => match bytes.poll(outbox, task) {
                Step::Ready((Err(fault), _)) => (self.fail(fault), true),
                Step::Ready((Ok(_), _)) if on => (self.read(), true),
                Step::Ready((Ok(_), _)) => (Doing::Over, true),
                Step::Again(bytes) => (Doing::Writes(bytes, on), true),
                Step::Pending(bytes) => (Doing::Writes(bytes, on), false),
            },
            Doing::Over => (Doing::Over, false),
        }
    }
}

impl<L: Lines> Serve for ByLines<L> {
    fn new(alloc: Global) -> Result<ByLines<L>, OutOfMemory> {
        Ok(ByLines::over(alloc, L::new(alloc)?))
    }

    fn serve(&mut self, inbox: &mut Inbox, outbox: &mut Outbox, task: u64) -> Served {
        for _ in 0..STEPS {
            if self.waits(inbox) {
                return Served::Open;
            }
            let doing = mem::replace(&mut self.doing, Doing::Over);
            let (next, more) = self.step(doing, inbox, outbox, task);
            self.doing = next;
            if !more {
                break;
            }
        }
        match self.doing {
            Doing::Over => Served::Done,
            _ => Served::Open,
        }
    }
}
