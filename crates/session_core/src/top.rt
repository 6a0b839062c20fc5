//! The top call: all that the program does, over any source and sink.
ghost use Rattle.std.specs.Prelude.{◌≡◌, ◌≤◌, ◌<◌, ◌*◌, ◌⊎◌, ◌↔◌, map, string_bytes, List, None, Some, IfOk, IsSome, IsTrue, length, ℕ};
ghost use Rattle.std.specs.List.{AllZip};
ghost use Rattle.machine.specs.Ledger.{Ledger, empty};
ghost use Rattle.machine.specs.declared.ledger.Event.{Event};
ghost use Rattle.machine.specs.Run.{ledger};
ghost use Rattle.session_core.specs.Session.{SessionStands};
ghost use Rattle.machine.specs.Counts.{Rose};
ghost use Rattle.session_core.specs.Command.{IsRun, IsReady, IsGenerate, IsTrace, IsWake, IsCopy};
ghost use Rattle.session_core.specs.Command.{IsNoCommand, IsRelay, IsTasks, IsUnframe, IsWithin, KeepsNothing, ReadsNothing, UsesNoNet};
ghost use Rattle.session_core.specs.DriverKind.{StandsOn, completion, readiness};
ghost use Rattle.session_core.specs.Generated.{generated_events};
ghost use Rattle.session_core.specs.Top.{SumsFor, TookTooMany, WakesFor, exit_number, summary_text};
ghost use Rattle.event_text.specs.TextLines.{AreEventsFor, lines};
ghost use Rattle.event_text.specs.TextReads.{bytes_of};
ghost use Rattle.session_core.specs.Ends.{CommandEnds, CommandRefused, CopiesFor, EventsGive, RanShort, ReadyEnds, RunEnds, RunsGive};
ghost use Rattle.session_core.specs.Ends.{SinkEnds, StatusFor, UnframesFor, reading, writing};
ghost use Rattle.session_core.specs.Complete.{IsDoneOrShort, IsReadOrShort, NoneRose, TakesInput};
ghost use Rattle.session_core.specs.Stops.{CommandStops, EventsStop, ResultStops, RunStops};
ghost use Rattle.session_core.specs.Relays.{CommandOpens, OpensFor, RelaysFor};
ghost use Rattle.session_core.specs.Tasking.{TasksFor, TasksStop};
ghost use Rattle.session_core.specs.Trace.{TracesFor};
ghost use Rattle.relay_run.specs.declared.plan.Plan.{Plan as Planned};

use crate::command::{Command, MOST_SENDERS, command_of};
use crate::generated::{ENTRIES, generated, run_counted};
use crate::input::{MOST_INPUT, read_input};
use crate::output::{Unwritten, refuse, write_last, write_number, write_replies};
use crate::relays::run_relay;
use crate::session::Session;
use crate::stepping::Stepping;
use crate::tasks::run_tasks;
use crate::trace::run_trace;
use crate::wake::wake_all;
use copy_run::{Ending, copy_all};
use event_text::read_bytes;
use frame_run::{Unframed, unframe_all};
use ready_driver::Sockets;
use ready_run::ReadySession;
use rent_buf::{ByteList, OutOfMemory};
use rent_io::{ByteSink, ByteSource};
use std::alloc::Global;
use std::marker::Brand;
use std::rt::Clock;
use std::sync::Wait;
use std::sync::ledger::Blank;
use std::thread::Threads;
use wake_core::{OpenGate, PUSH_PARTS};

/// How the program ends. (not in monoio)
#[derive(Clone, Copy, Debug, PartialEq, Eq)]
pub enum Status {
    /// All was written and flushed, and the input of a command that reads was read to its end.
    Done,
    /// The words are no command's. Nothing was read or written.
    BadWords,
    /// The whole input was read, and a line of it is no event's text, or under `tasks` no bytes' word. Nothing was run, and `line N` was
    /// written.
    BadLine,
    /// More than 16777216 bytes were read. `run`, `ready` and `tasks` have written nothing, `copy` only the first of its prefix and its
    /// input, and `unframe` only the lines of the first messages.
    TooLong,
    /// The source failed. `run`, `ready` and `tasks` have written nothing, `copy` only the first of its prefix and what it read, and
    /// `unframe` only the lines of the first messages.
    ReadFault,
    /// The sink failed. A prefix of the text was written.
    WriteFault,
    /// Memory ran out, and nothing that was seen gives another status. A prefix of the text may have been written; by `echo`,
    /// `relay` and `tasks` nothing, which end so also where no number was left for a handle.
    OutOfMemory,
    /// The object of `echo` and `relay` failed where it was to listen, or in a round: its count of faults rose. Nothing was written.
    NetFault,
    /// The input of `unframe` has a wrong piece. The lines of the messages before it were written, and `bad OFFSET NAME`.
    BadFrame,
}

impl Status {
    /// The program's exit status. (not in monoio)
    pub fn number(self) -> u8
        ensures { result ≡ exit_number self }
    {
        match self {
            Status::Done => 0,
            Status::BadWords => 1,
            Status::BadLine => 2,
            Status::TooLong => 3,
            Status::ReadFault => 4,
            Status::WriteFault => 5,
            Status::OutOfMemory => 6,
            Status::NetFault => 7,
            Status::BadFrame => 8,
        }
    }
}

/// What a command leaves if its status is Done. (not in monoio)
pub enum Kept {
    /// The session after the last event of `run` or `gen`.
    Run(Session),
    /// The session after the last event of `ready`.
    Ready(ReadySession),
}

impl Drop for Kept {
    fn drop(self) {
        match self {
            Kept::Run(_) | Kept::Ready(_) => {}
        }
    }
}

/// At which line a command stopped. (not in monoio)
#[derive(Debug, Drop)]
pub enum Stop {
    /// The line of this number, counted from 1, is the first of this text, the input, that stands for no event that the command takes, or
    /// that writes no bytes, under `tasks`.
    Wrong(u64, ByteList),
    /// The line of this number stands for no event, and this is its text.
    Line(u64, ByteList),
    /// Memory ran out at the event of the line of this number, or at its reply. The replies to the lines before it were written.
    Short(u64),
}

/// Does what the words say. `run CAP` reads lines, runs their events over a queue of `CAP` entries, and writes the text of
/// each reply and a newline. `ready` does so on the readiness driver, where no line may be a turn or an execution.
/// `gen SEED COUNT` reads nothing: it runs the events that the seed generates over a queue of 8 entries, and writes how many
/// there are, how many were refused, and how many polls were ready; with `--events` behind its words it writes the text of each event
/// and a newline, and runs none. `wake SENDERS COUNT` reads nothing: each sender sends so
/// many wakers from a thread of its own, and `drained N` and a newline are written. `copy CAP PREFIXHEX` writes the bytes of
/// `PREFIXHEX`, and then all that it reads, by way of buffers of `CAP` bytes. `unframe` reads pieces of messages, and writes
/// `message C HEX` for each message, with its channel and its bytes; at a wrong piece it writes `bad OFFSET NAME`, and ends with
/// BadFrame. `echo PORT CONNECTIONS ROUNDS` and `relay PORT TO CONNECTIONS ROUNDS` read nothing: they listen with `net` on `PORT`, make so
/// many rounds of a relay, each of which waits a millisecond at most, and write `closed N` for the connections that the rounds closed; what
/// comes goes back, or to `TO`. `tasks` reads lines of bytes, in hexadecimal digits, sends each through a pipe of its own as a job of an
/// executor, which makes 16 turns at most, and writes `task T HEX` for each job that is done, `task T err TEXT` for one that failed, and
/// `left N`. The condition is that nothing is kept yet. Afterwards `stop` names the line of `run`, `ready` or `tasks` that is wrong, or the
/// one of `run` or `ready` at which memory ran out; it is `None` where there is none. (not in monoio)
pub fn top<R: Threads + Wait + Clock + Sync, S: ByteSource, K: ByteSink, N: Sockets>(
    rt: &R,
    alloc: Global,
    words: &[String],
    source: &mut S,
    sink: &mut K,
    net: &mut N,
    kept: &mut Option<Kept>,
    stop: &mut Option<Stop>,
) -> Status
    requires { kept.old ≡ None }
    // It is BadWords exactly when the words are no command's, and then nothing is read or written.
    ensures bad_words { (result ≡ Status.BadWords) ↔ IsNoCommand (map string_bytes words.now) }
    ensures untouched { result ≡ Status.BadWords → (source.new ≡ source.old) × (sink.new ≡ sink.old) }

    // What each command has read, written and kept, by the status.
    ensures runs { (capacity : ℕ) → IsRun (map string_bytes words.now) capacity →
        RunEnds S.tells K.tells capacity (reading S.left S.faults source.old source.new)
        (writing K.taken K.faults K.is_flushed sink.old sink.new) kept.new result }
    ensures readies { IsReady (map string_bytes words.now) → (capacity : ℕ) →
        ReadyEnds S.tells K.tells capacity (reading S.left S.faults source.old source.new)
        (writing K.taken K.faults K.is_flushed sink.old sink.new) kept.new result }
    ensures sums { (seed rounds : ℕ) → IsGenerate (map string_bytes words.now) seed rounds →
        SumsFor K.tells (generated_events seed rounds) (K.taken sink.old) (K.taken sink.new) kept.new result }
    ensures wakes { (senders count : ℕ) → IsWake (map string_bytes words.now) senders count →
        WakesFor K.tells (senders * count) (K.taken sink.old) (K.taken sink.new) result }
    ensures copies { (capacity : ℕ) (prefix : List ℕ) → IsCopy (map string_bytes words.now) capacity prefix →
        CopiesFor S.tells K.tells prefix (reading S.left S.faults source.old source.new)
        (writing K.taken K.faults K.is_flushed sink.old sink.new) result }
    ensures unframes { IsUnframe (map string_bytes words.now) →
        UnframesFor S.tells K.tells (reading S.left S.faults source.old source.new)
        (writing K.taken K.faults K.is_flushed sink.old sink.new) result }
    ensures tasks { IsTasks (map string_bytes words.now) →
        TasksFor S.tells K.tells (reading S.left S.faults source.old source.new)
        (writing K.taken K.faults K.is_flushed sink.old sink.new) result }

    ensures traces { (seed rounds : ℕ) → IsTrace (map string_bytes words.now) seed rounds →
        TracesFor K.tells (generated_events seed rounds) (K.taken sink.old) (K.taken sink.new) result }
    ensures relays { (plan : Planned) → IsRelay (map string_bytes words.now) plan →
        RelaysFor K.tells plan.rounds (writing K.taken K.faults K.is_flushed sink.old sink.new) result }

    // Which line is named.
    ensures stops_run { (capacity : ℕ) → IsRun (map string_bytes words.now) capacity →
        EventsStop completion S.tells K.tells (empty capacity) (reading S.left S.faults source.old source.new)
        (writing K.taken K.faults K.is_flushed sink.old sink.new) stop.new result }
    ensures stops_ready { IsReady (map string_bytes words.now) → (capacity : ℕ) →
        EventsStop readiness S.tells K.tells (empty capacity) (reading S.left S.faults source.old source.new)
        (writing K.taken K.faults K.is_flushed sink.old sink.new) stop.new result }
    ensures stops_tasks { IsTasks (map string_bytes words.now) →
        TasksStop S.tells (reading S.left S.faults source.old source.new) stop.new result }
    ensures stops_none { ((capacity : ℕ) → IsRun (map string_bytes words.now) capacity → ⊥) →
        (IsReady (map string_bytes words.now) → ⊥) → (IsTasks (map string_bytes words.now) → ⊥) → stop.new ≡ None }

    // `gen`, `wake`, `echo` and `relay` read nothing. Only Done keeps something, and `gen` with `--events`, `wake`, `copy`, `unframe`,
    // `echo`, `relay` and `tasks` keep nothing.
    ensures unread_sums { (seed rounds : ℕ) → IsGenerate (map string_bytes words.now) seed rounds → source.new ≡ source.old }
    ensures unread_wakes { (senders count : ℕ) → IsWake (map string_bytes words.now) senders count → (source.new ≡ source.old) ×
        (kept.new ≡ None) }
    ensures unread_traces { (seed rounds : ℕ) → IsTrace (map string_bytes words.now) seed rounds → (source.new ≡ source.old) ×
        (kept.new ≡ None) }
    ensures unkept_copies { (capacity : ℕ) (prefix : List ℕ) → IsCopy (map string_bytes words.now) capacity prefix → kept.new ≡ None }
    ensures unkept_unframes { IsUnframe (map string_bytes words.now) → kept.new ≡ None }
    ensures unread_relays { (plan : Planned) → IsRelay (map string_bytes words.now) plan → (source.new ≡ source.old) ×
        (kept.new ≡ None) }
    ensures unkept_tasks { IsTasks (map string_bytes words.now) → kept.new ≡ None }
    ensures kept { (result ≡ Status.Done → ⊥) → kept.new ≡ None }

    // Done means that the sink is flushed. Each other status has its cause, whatever the command; `copy` and `unframe` alone write before
    // all is read. `unframe` reads no lines, and `tasks` no lines of events: what is wrong with these is in their own clauses.
    ensures flushed { result ≡ Status.Done → IsTrue (K.is_flushed sink.new) }
    ensures bad_line { (IsTasks (map string_bytes words.now) → ⊥) → result ≡ Status.BadLine →
        CommandRefused (map string_bytes words.now) S.tells K.tells (S.left source.old) (S.left source.new) (K.taken sink.old)
        (K.taken sink.new) }
    ensures too_long { result ≡ Status.TooLong → IsTrue S.tells → TookTooMany (S.left source.old) (S.left source.new) }
    ensures read_fault { result ≡ Status.ReadFault → Rose (S.faults source.old) (S.faults source.new) }
    ensures write_fault { result ≡ Status.WriteFault → Rose (K.faults sink.old) (K.faults sink.new) }
    ensures unwritten { ((capacity : ℕ) (prefix : List ℕ) → IsCopy (map string_bytes words.now) capacity prefix → ⊥) →
        (IsUnframe (map string_bytes words.now) → ⊥) → (result ≡ Status.TooLong) ⊎ (result ≡ Status.ReadFault) → IsTrue K.tells →
        K.taken sink.new ≡ K.taken sink.old }
    ensures bad_frame { result ≡ Status.BadFrame → IsUnframe (map string_bytes words.now) }
    // Only `echo` and `relay` use the object.
    ensures net_fault { result ≡ Status.NetFault → Rose (N.view net.old).faults (N.view net.new).faults }
    // A run of them that is done has listened: the object's count of handles rose.
    ensures listens { (plan : Planned) → IsRelay (map string_bytes words.now) plan → result ≡ Status.Done →
        (N.view net.old).made < (N.view net.new).made }
    // Over an empty world in memory no connection was closed, and each round opened one, up to as many as may be open.
    ensures opens { (plan : Planned) → IsRelay (map string_bytes words.now) plan →
        OpensFor K.tells N.memory plan.limit plan.rounds (writing K.taken K.faults K.is_flushed sink.old sink.new) (N.view net.old)
        (N.view net.new) result }
    ensures unused_net { ((plan : Planned) → IsRelay (map string_bytes words.now) plan → ⊥) → net.new ≡ net.old }
    ensures memory { (IsUnframe (map string_bytes words.now) → ⊥) → (IsTasks (map string_bytes words.now) → ⊥) →
        result ≡ Status.OutOfMemory →
        RanShort completion S.tells K.tells (reading S.left S.faults source.old source.new)
        (writing K.taken K.faults K.is_flushed sink.old sink.new) }

    // A command that takes its input is done, or runs out of memory, where neither count of faults rose.
    ensures complete { TakesInput S.tells (map string_bytes words.now) (S.left source.old) →
        NoneRose (reading S.left S.faults source.old source.new) (writing K.taken K.faults K.is_flushed sink.old sink.new) →
        IsDoneOrShort result }
    // `unframe` may also find a wrong piece.
    ensures complete_unframes { IsUnframe (map string_bytes words.now) → IsTrue S.tells → length (S.left source.old) ≤ MOST_INPUT →
        NoneRose (reading S.left S.faults source.old source.new) (writing K.taken K.faults K.is_flushed sink.old sink.new) →
        IsReadOrShort result }
    // `echo` and `relay` may also fail where the object's count of faults rose.
    ensures complete_relays { (plan : Planned) → IsRelay (map string_bytes words.now) plan →
        NoneRose (reading S.left S.faults source.old source.new) (writing K.taken K.faults K.is_flushed sink.old sink.new) →
        (Rose (N.view net.old).faults (N.view net.new).faults → ⊥) → IsDoneOrShort result }
{
    *stop = None;
    match command_of(words) {
        Some(command) => run_command(rt, alloc, command, source, sink, net, kept, stop),
        None => Status::BadWords,
    }
}

// Does what a command asks for.
fn run_command<R: Threads + Wait + Clock + Sync, S: ByteSource, K: ByteSink, N: Sockets>(
    rt: &R,
    alloc: Global,
    command: Command<'_>,
    source: &mut S,
    sink: &mut K,
    net: &mut N,
    kept: &mut Option<Kept>,
    stop: &mut Option<Stop>,
) -> Status
    requires within { IsWithin command }
    requires fresh { kept.old ≡ None }
    requires running { stop.old ≡ None }
    ensures ends { CommandEnds S.tells K.tells command.entry (reading S.left S.faults source.old source.new)
        (writing K.taken K.faults K.is_flushed sink.old sink.new) kept.new result }
    ensures status { StatusFor S.tells K.tells (reading S.left S.faults source.old source.new)
        (writing K.taken K.faults K.is_flushed sink.old sink.new) result }
    ensures kept { (result ≡ Status.Done → ⊥) → kept.new ≡ None }
    ensures unread { ReadsNothing command.entry → source.new ≡ source.old }
    ensures unkept { KeepsNothing command.entry → kept.new ≡ None }
    ensures stops { CommandStops S.tells K.tells command.entry (reading S.left S.faults source.old source.new)
        (writing K.taken K.faults K.is_flushed sink.old sink.new) stop.new result }
    ensures net_fault { result ≡ Status.NetFault → Rose (N.view net.old).faults (N.view net.new).faults }
    ensures unused { UsesNoNet command.entry → net.new ≡ net.old }
    ensures listens { (UsesNoNet command.entry → ⊥) → result ≡ Status.Done → (N.view net.old).made < (N.view net.new).made }
    ensures opens { CommandOpens K.tells N.memory command.entry (writing K.taken K.faults K.is_flushed sink.old sink.new) (N.view net.old)
        (N.view net.new) result }
{
    match command {
        Command::Run(capacity) => run_lines(alloc, capacity, source, sink, kept, stop),
        Command::Ready => run_ready(alloc, source, sink, kept, stop),
        Command::Generate(seed, rounds) => run_generated(alloc, seed, rounds, sink, kept),
        Command::Trace(seed, rounds) => run_trace(alloc, seed, rounds, sink),
        Command::Wake(senders, count) => run_wake(rt, alloc, senders, count, sink),
        Command::Copy(capacity, word) => run_copy(alloc, capacity, word, source, sink),
        Command::Unframe => run_unframe(rt, alloc, source, sink),
        Command::Relay(plan) => run_relay(rt, alloc, plan, sink, net),
        Command::Tasks => run_tasks(alloc, source, sink, stop),
    }
}

// Reads all lines, runs their events over a queue of so many entries, and writes the replies.
fn run_lines<S: ByteSource, K: ByteSink>(
    alloc: Global,
    capacity: u32,
    source: &mut S,
    sink: &mut K,
    kept: &mut Option<Kept>,
    stop: &mut Option<Stop>,
) -> Status
    requires capacity { 0 < capacity }
    requires fresh { kept.old ≡ None }
    requires running { stop.old ≡ None }
    ensures ends { RunEnds S.tells K.tells capacity (reading S.left S.faults source.old source.new)
        (writing K.taken K.faults K.is_flushed sink.old sink.new) kept.new result }
    ensures kept { (result ≡ Status.Done → ⊥) → kept.new ≡ None }
    ensures stops { EventsStop completion S.tells K.tells (empty capacity) (reading S.left S.faults source.old source.new)
        (writing K.taken K.faults K.is_flushed sink.old sink.new) stop.new result }
{
    let Ok(session) = Session::new(alloc, capacity) else {
        return Status::OutOfMemory;
    };
    match run_session(alloc, session, source, sink, stop) {
        Ok(session) => {
            *kept = Some(Kept::Run(session));
            Status::Done
        }
        Err(status) => status,
    }
}

// Reads all lines, runs their events on the readiness driver, and writes the replies.
fn run_ready<S: ByteSource, K: ByteSink>(
    alloc: Global,
    source: &mut S,
    sink: &mut K,
    kept: &mut Option<Kept>,
    stop: &mut Option<Stop>,
) -> Status
    requires fresh { kept.old ≡ None }
    requires running { stop.old ≡ None }
    ensures ends { (capacity : ℕ) → ReadyEnds S.tells K.tells capacity (reading S.left S.faults source.old source.new)
        (writing K.taken K.faults K.is_flushed sink.old sink.new) kept.new result }
    ensures kept { (result ≡ Status.Done → ⊥) → kept.new ≡ None }
    ensures stops { (capacity : ℕ) → EventsStop readiness S.tells K.tells (empty capacity)
        (reading S.left S.faults source.old source.new) (writing K.taken K.faults K.is_flushed sink.old sink.new) stop.new result }
{
    match run_session(alloc, ReadySession::new(alloc), source, sink, stop) {
        Ok(session) => {
            *kept = Some(Kept::Ready(session));
            Status::Done
        }
        Err(status) => status,
    }
}

// Reads all lines, runs their events on a session, writes the replies, and gives the session back.
fn run_session<M: Stepping + Drop, S: ByteSource, K: ByteSink>(
    alloc: Global,
    session: M,
    source: &mut S,
    sink: &mut K,
    stop: &mut Option<Stop>,
) -> Result<M, Status>
    requires { stop.old ≡ None }
    ensures gives { (L : Ledger) → M.stands session L → EventsGive M.kind S.tells K.tells L
        (reading S.left S.faults source.old source.new) (writing K.taken K.faults K.is_flushed sink.old sink.new) M.stands result }
    ensures stops { (L : Ledger) → M.stands session L → ResultStops M.kind S.tells K.tells L
        (reading S.left S.faults source.old source.new) (writing K.taken K.faults K.is_flushed sink.old sink.new) stop.new result }
{
    match read_input::<M, S>(alloc, source, stop) {
        Ok(text) => run_events(alloc, session, text.as_slice(), sink, stop),
        Err(why) => Err(refuse(why, sink)),
    }
}

// Runs the events that the lines of a text stand for on a session, writes the replies, and gives the session back.
fn run_events<M: Stepping + Drop, K: ByteSink>(
    alloc: Global,
    session: M,
    text: &[u8],
    sink: &mut K,
    stop: &mut Option<Stop>,
) -> Result<M, Status>
    requires right { AreEventsFor (StandsOn M.kind) (lines text.now) }
    requires running { stop.old ≡ None }
    ensures gives { (events : List Event) → AllZip (StandsOn M.kind) (lines text.now) events → (L : Ledger) → M.stands session L →
        RunsGive M.kind K.tells L events (writing K.taken K.faults K.is_flushed sink.old sink.new) M.stands result }
    ensures stops { (events : List Event) → AllZip (StandsOn M.kind) (lines text.now) events → (L : Ledger) → M.stands session L →
        RunStops M.kind K.tells L events (writing K.taken K.faults K.is_flushed sink.old sink.new) stop.new result }
{
    match write_replies(alloc, session, text, sink, stop) {
        Ok(session) => Ok(session),
        Err(Unwritten::Fault) => Err(Status::WriteFault),
        Err(Unwritten::OutOfMemory) => Err(Status::OutOfMemory),
    }
}

// Runs the events that a seed generates, and writes how many there are, and how many were refused and ready.
fn run_generated<K: ByteSink>(
    alloc: Global,
    seed: u32,
    rounds: u32,
    sink: &mut K,
    kept: &mut Option<Kept>,
) -> Status
    requires { kept.old ≡ None }
    ensures sums { SumsFor K.tells (generated_events seed rounds) (K.taken sink.old) (K.taken sink.new) kept.new result }
    ensures ends { SinkEnds K.tells (writing K.taken K.faults K.is_flushed sink.old sink.new) result }
    ensures kept { (result ≡ Status.Done → ⊥) → kept.new ≡ None }
{
    let Ok((line, session)) = summary_line(alloc, seed, rounds) else {
        return Status::OutOfMemory;
    };
    match write_last(line.as_slice(), sink) {
        Ok(()) => {
            *kept = Some(Kept::Run(session));
            Status::Done
        }
        Err(_) => Status::WriteFault,
    }
}

// Runs the events that a seed generates: the line of their summary, and the session after them.
fn summary_line(alloc: Global, seed: u32, rounds: u32) -> Result<(Vec<u8>, Session), OutOfMemory>
    ensures line { IfOk result (λ run. run.0.items ≡ summary_text (generated_events seed rounds)) }
    ensures stands { IfOk result (λ run. SessionStands run.1 (ledger ENTRIES (generated_events seed rounds))) }
{
    let (summary, session) = run_counted(alloc, generated(alloc, seed, rounds)?)?;
    let mut line = Vec::new(alloc);
    summary.put(&mut line)?;
    Ok((line, session))
}

// Sends and drains wakers, and writes how many.
fn run_wake<R: Threads + Wait + Clock + Sync, K: ByteSink>(
    rt: &R,
    alloc: Global,
    senders: u64,
    count: u32,
    sink: &mut K,
) -> Status
    requires few { senders ≤ MOST_SENDERS }
    ensures wakes { WakesFor K.tells (senders * count) (K.taken sink.old) (K.taken sink.new) result }
    ensures ends { SinkEnds K.tells (writing K.taken K.faults K.is_flushed sink.old sink.new) result }
{
    let (pushes, drains) = (Blank::new(PUSH_PARTS), Blank::new(1));
    let gate = OpenGate;
    let Ok(settled) = wake_all::<Brand, Brand, OpenGate, R>(
        rt, alloc, pushes, drains, senders, count, &gate,
    ) else {
        return Status::OutOfMemory;
    };
    match write_number(b"drained ", settled.drained, sink) {
        Ok(()) => Status::Done,
        Err(_) => Status::WriteFault,
    }
}

// Copies the prefix that a word writes, and then what is read.
fn run_copy<S: ByteSource, K: ByteSink>(
    alloc: Global,
    capacity: u32,
    word: &[u8],
    source: &mut S,
    sink: &mut K,
) -> Status
    requires { IsSome (bytes_of word.now) }
    ensures { (prefix : List ℕ) → bytes_of word.now ≡ Some prefix → CopiesFor S.tells K.tells prefix
        (reading S.left S.faults source.old source.new) (writing K.taken K.faults K.is_flushed sink.old sink.new) result }
{
    let Ok(Some(prefix)) = read_bytes(alloc, word) else {
        return Status::OutOfMemory;
    };
    match copy_all(alloc, capacity as usize, MOST_INPUT, prefix, source, sink) {
        Ending::Done => Status::Done,
        Ending::TooLong => Status::TooLong,
        Ending::ReadFault => Status::ReadFault,
        Ending::WriteFault => Status::WriteFault,
        Ending::OutOfMemory => Status::OutOfMemory,
    }
}

// Writes the lines of the messages whose pieces are read.
fn run_unframe<R: Wait, S: ByteSource, K: ByteSink>(
    rt: &R,
    alloc: Global,
    source: &mut S,
    sink: &mut K,
) -> Status
    ensures { UnframesFor S.tells K.tells (reading S.left S.faults source.old source.new)
        (writing K.taken K.faults K.is_flushed sink.old sink.new) result }
{
    match unframe_all(rt, alloc, MOST_INPUT, source, sink) {
        Unframed::Done => Status::Done,
        Unframed::BadFrame => Status::BadFrame,
        Unframed::TooLong => Status::TooLong,
        Unframed::ReadFault => Status::ReadFault,
        Unframed::WriteFault => Status::WriteFault,
        Unframed::OutOfMemory => Status::OutOfMemory,
    }
}
