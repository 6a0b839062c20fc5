//! Events that a seed generates.
ghost use Rattle.std.specs.Prelude.{◌≡◌, ◌+◌, ◌*◌, ◌<◌, ◌^◌, ◌++◌, IfOk, OnOk, if◌then◌else◌, replicate};
ghost use Rattle.machine.specs.Run.{ledger};
ghost use Rattle.session_core.specs.Session.{SessionStands};
ghost use Rattle.session_core.specs.Top.{generated_text, is_ready, is_refused, summary_text};
ghost use Rattle.session_core.specs.Generated.{asked, generated_events, next_state, round_events, small_read, told};

use crate::session::Session;
use event_text::put_number;
use machine::{CANCELED, Event, HandleKind, Reply, Request, SharedFd, Told};
use rent_buf::{BufSpec, ByteList, Kind, OutOfMemory, PartsSpec};
use std::alloc::Global;

/// How many entries the queue has over which generated events run. (not in monoio)
pub const ENTRIES: u32 = 8;

// The factor and the summand of a draw, and how many states there are.
const FACTOR: u64 = 1103515245;

const SUMMAND: u64 = 12345;

const STATES: u64 = 2147483648;

// What a state is divided by.
const DIVISOR: u64 = 65536;

// The most bytes of a round's read.
const READ: usize = 8;

// How many events a round has.
const ROUND: usize = 7;

/// The events of so many rounds that a seed generates: a handle, then 7 events for each round. Each round draws, from a linear
/// congruential generator, what is asked of its operation and how many bytes arrive. (not in monoio)
pub fn generated(alloc: Global, seed: u32, rounds: u32) -> Result<Vec<Event>, OutOfMemory>
    ensures { IfOk result (λ events. events.items ≡ generated_events seed rounds) }
{
    let mut events = Vec::with_capacity(alloc, rounds as usize * ROUND + 1)?;
    events.push(Event::Give(HandleKind::Stream))?;
    let mut x = seed as u64;
    for i in 0..rounds {
        x = next(x);
        let choice = x / DIVISOR % 4;
        x = next(x);
        let count = x / DIVISOR % 8 + 1;
        push_round(alloc, i as u64, choice, count as u32, &mut events)?;
    }
    Ok(events)
}

/// How many events ran, and how many of their replies refuse them or return an operation.
#[derive(Drop)]
pub(crate) struct Summary {
    events: u64,
    refused: u64,
    ready: u64,
}

impl Summary {
    // Counts a reply.
    fn count(&mut self, reply: Reply)
        requires refused { self.old.refused + 1 < 2 ^ 64 }
        requires ready { self.old.ready + 1 < 2 ^ 64 }
        ensures events { self.new.events ≡ self.old.events }
        ensures refused { self.new.refused ≡ self.old.refused + (if is_refused reply then 1 else 0) }
        ensures ready { self.new.ready ≡ self.old.ready + (if is_ready reply then 1 else 0) }
    {
        match reply {
            Reply::Refused(_) => self.refused += 1,
            Reply::Handed(_, _) => self.ready += 1,
            _ => {}
        }
    }

    /// Appends the line of the summary.
    pub(crate) fn put(&self, out: &mut Vec<u8>) -> Result<(), OutOfMemory>
        ensures { OnOk result (out.new.items ≡ out.old.items ++ generated_text self.now.events self.now.refused self.now.ready) }
    {
        out.extend_from_slice(b"events ")?;
        put_number(self.events, out)?;
        out.extend_from_slice(b" refused ")?;
        put_number(self.refused, out)?;
        out.extend_from_slice(b" ready ")?;
        put_number(self.ready, out)?;
        out.push(b'\n')?;
        Ok(())
    }
}

/// Runs events over a queue of `ENTRIES` entries, and counts their replies.
pub(crate) fn run_counted(
    alloc: Global,
    events: Vec<Event>,
) -> Result<(Summary, Session), OutOfMemory>
    ensures summary { IfOk result (λ run. generated_text run.0.events run.0.refused run.0.ready ≡ summary_text events.items) }
    ensures stands { IfOk result (λ run. SessionStands run.1 (ledger ENTRIES events.items)) }
{
    let mut session = Session::new(alloc, ENTRIES)?;
    let mut summary = Summary {
        events: events.len() as u64,
        refused: 0,
        ready: 0,
    };
    for event in events {
        let reply = session.apply(event)?;
        summary.count(reply);
    }
    Ok((summary, session))
}

// The state after one more draw.
fn next(x: u64) -> u64
    requires { x < 2 ^ 32 }
    ensures value { result ≡ next_state x }
    ensures small { result < 2 ^ 32 }
{
    (x * FACTOR + SUMMAND) % STATES
}

// Appends the events of round i.
fn push_round(
    alloc: Global,
    i: u64,
    choice: u64,
    count: u32,
    events: &mut Vec<Event>,
) -> Result<(), OutOfMemory>
    ensures { OnOk result (events.new.items ≡ events.old.items ++ round_events i choice count) }
{
    events.push(Event::Feed(0, bytes_of_round(alloc, (i % 256) as u8, count as usize)?))?;
    events.push(Event::Submit(read_of_round(alloc)?, None, false))?;
    events.push(asked_of_round(choice, i))?;
    events.push(Event::Turn)?;
    events.push(Event::Exec(0, told_of_round(choice, count)))?;
    events.push(Event::Turn)?;
    events.push(Event::Poll(i, i))?;
    Ok(())
}

// So many times the same byte.
fn bytes_of_round(alloc: Global, byte: u8, count: usize) -> Result<ByteList, OutOfMemory>
    ensures { IfOk result (λ bytes. bytes ≡ replicate count byte) }
{
    Ok(ByteList::from_vec(vec![in alloc; byte; count]?))
}

// A read of at most `READ` bytes into an empty vector.
fn read_of_round(alloc: Global) -> Result<Request<BufSpec, PartsSpec>, OutOfMemory>
    ensures { IfOk result (λ request. request ≡ small_read) }
{
    let none = ByteList::from_vec(Vec::new(alloc));
    match BufSpec::new(Kind::Vector, READ, 0, READ, none) {
        Some(buf) => Ok(Request::Recv {
            fd: SharedFd::new(0),
            buf,
        }),
        None => Err(OutOfMemory),
    }
}

// What is asked of operation i.
fn asked_of_round(choice: u64, i: u64) -> Event
    ensures { result ≡ asked choice i }
{
    match choice {
        0 => Event::Drop(i),
        1 => Event::Cancel(i),
        _ => Event::Poll(i, i),
    }
}

// What is told of it.
fn told_of_round(choice: u64, count: u32) -> Told
    ensures { result ≡ told choice count }
{
    if choice < 2 {
        Told::Fail(CANCELED)
    } else {
        Told::Count(count)
    }
}
