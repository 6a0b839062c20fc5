//! What the program tells a person: its help, its version, how its words go, and why it ended.
ghost use Rattle.std.specs.Prelude.{◌≡◌};
ghost use Rattle.std.specs.Process.{exit_status};
ghost use Rattle.session_core.specs.Top.{exit_number};

use crate::top::{Status, Stop};
use line_help::{Complaint, explain, explain_fault, line_of, usage_error};
use std::process::ExitCode;
use std::rt::Env;
use std::{env, io};

/// What `--help` writes to standard output. (not in monoio)
pub const HELP: &str = "Runs an I/O engine with owned buffers on events that it reads.

usage: session_run run CAP [-i]
       session_run ready
       session_run gen SEED COUNT [--events]
       session_run wake SENDERS COUNT
       session_run faults CAP ENTERS
       session_run copy CAP PREFIXHEX
       session_run echo PORT CONNECTIONS ROUNDS
       session_run relay PORT TO CONNECTIONS ROUNDS
       session_run unframe
       session_run frame
       session_run tasks
       session_run --help
       session_run --version

run CAP              reads events from standard input, one a line, runs them
                     over a submission queue of CAP entries (1 to 4294967295),
                     and writes the reply to each, one a line; with -i each
                     reply is written before the next line is read
ready                does so on the readiness driver, which makes the call of an
                     operation when it is polled: turn, exec, link and linkunder
                     lines are invalid here
gen SEED COUNT       runs COUNT rounds of seven events (0 to 100000) that SEED
                     generates (0 to 2147483647) over a queue of 8 entries, and
                     writes how many events there were, how many were refused,
                     and how many polls were ready; with --events it writes the
                     events, one a line, and runs none
wake SENDERS COUNT   wakes a parked driver COUNT times (0 to 100000) from each
                     of SENDERS threads (0 to 64), and writes how many wake-ups
                     it drained
faults CAP ENTERS    answers events over a ring of CAP entries (1 to 4294967295)
                     whose enters do what the letters of ENTERS say: f fails, b
                     is busy, - takes the queue; a line 'complete WORD ok K'
                     makes a completion, and 'ring' shows the ring
copy CAP PREFIXHEX   writes the bytes of PREFIXHEX (hexadecimal digits, or -
                     for none) and then standard input, by way of buffers of
                     CAP bytes (1 to 16777216)
echo PORT CONNECTIONS ROUNDS
                     listens on PORT of this machine (1 to 65535), and sends what
                     comes on a connection back; it has at most CONNECTIONS open
                     (1 to 64), makes ROUNDS rounds (0 to 1000000), each of which
                     waits a millisecond at most, and writes how many connections
                     were closed
relay PORT TO CONNECTIONS ROUNDS
                     does so with a connection to port TO of this machine for each
                     that came, and passes what comes on one on to the other
unframe              reads pieces of messages from standard input, and writes
                     the channel and the bytes of each message, one a line
frame                reads lines of a channel's number and bytes in hexadecimal
                     digits (- for none), and writes the pieces of these
                     messages
tasks                reads lines of bytes in hexadecimal digits (- for none),
                     sends each through a pipe in memory as a job of an executor,
                     and writes what each job received, and how many are left

exit status: 0 success; 1 invalid command line; 2 invalid line, whose number
is printed; 3 more than 16777216 bytes of input; 4 reading failed; 5 writing
failed; 6 out of memory; 7 the network failed; 8 invalid piece, whose place
and fault are printed";

/// What `--version` writes to standard output. (not in monoio)
pub const VERSION: &str = "session_run 0.1.0";

/// What a person may ask for in place of a command. (not in monoio)
#[derive(Clone, Copy, Debug, PartialEq, Eq)]
pub enum Asked {
    /// `--help`
    Help,
    /// `--version`
    Version,
}

/// What these words ask for, if they are `--help` or `--version` alone. (not in monoio)
pub fn asked_of(words: &[String]) -> Option<Asked> {
    match words {
        [word] if word.as_str() == "--help" => Some(Asked::Help),
        [word] if word.as_str() == "--version" => Some(Asked::Version),
        _ => None,
    }
}

/// The words behind the program's name; an error of the kind `InvalidData` comes where one isn't UTF-8, and another where the system has
/// none, or memory runs out. (not in monoio)
pub fn words_of<R: Env + AllocGlobal>(rt: &R) -> io::Result<Vec<String>> {
    let mut words = Vec::new(rt.alloc());
    for word in env::args(rt)?.skip(1) {
        words.push(word)?;
    }
    Ok(words)
}

/// Ends the program where it has no words, with the reason on standard error. (not in monoio)
pub fn end_unread<R: Eprint>(rt: &R, error: io::Error) -> ExitCode {
    if error.kind() == io::ErrorKind::InvalidData {
        let _ = rt.eprintln("session_run: an argument is not UTF-8; see --help");
        return ExitCode::from(Status::BadWords.number());
    }
    end_with(rt, Status::OutOfMemory, Known::nothing())
}

/// Writes what was asked for to standard output, and ends as `Done`, or as `WriteFault`. (not in monoio)
pub fn answer<R: Print + Eprint>(rt: &R, asked: Asked) -> ExitCode {
    let text = match asked {
        Asked::Help => HELP,
        Asked::Version => VERSION,
    };
    match rt.println(text) {
        Ok(()) => end_with(rt, Status::Done, Known::nothing()),
        Err(error) => {
            let mut known = Known::nothing();
            known.write = Some(error);
            end_with(rt, Status::WriteFault, known)
        }
    }
}

/// What is known of why a command ended as it did. (not in monoio)
#[derive(Drop)]
pub struct Known<'a> {
    /// The words of the command line.
    pub words: &'a [String],
    /// At which line it stopped, if at one.
    pub stop: Option<Stop>,
    /// The last error of a read.
    pub read: Option<io::Error>,
    /// The last error of a write or a flush.
    pub write: Option<io::Error>,
}

impl<'a> Known<'a> {
    /// Nothing is known.
    pub fn nothing() -> Known<'a> {
        Known {
            words: &[],
            stop: None,
            read: None,
            write: None,
        }
    }
}

/// Ends the program with the number of a status, and writes its reason to standard error: a line for each status but `Done`.
/// (not in monoio)
pub fn end_with<R: Eprint>(rt: &R, status: Status, known: Known<'_>) -> ExitCode
    ensures { exit_status result ≡ exit_number status }
{
    let _ = tell(rt, status, known);
    ExitCode::from(status.number())
}

// Writes the reason of a status.
fn tell<R: Eprint>(rt: &R, status: Status, known: Known<'_>) -> io::Result<()> {
    match status {
        Status::Done => Ok(()),
        Status::BadWords => {
            eprintln!(rt; "session_run: {}; see --help", usage_error(known.words))
        }
        Status::BadLine => tell_line(rt, &known),
        Status::NetFault => {
            eprintln!(rt; "session_run: the network failed, as where the port is taken")
        }
        Status::BadFrame => eprintln!(rt; "session_run: the input has an invalid piece"),
        Status::TooLong => { eprintln!(rt; "session_run: the input has more than 16777216 bytes") }
        Status::ReadFault => tell_fault(rt, "reading the input failed", known.read),
        Status::WriteFault => tell_fault(rt, "writing the output failed", known.write),
        Status::OutOfMemory => match known.stop {
            Some(Stop::Short(line)) => eprintln!(rt; "session_run: line {line}: out of memory"),
            _ => eprintln!(rt; "session_run: out of memory"),
        },
    }
}

// Writes which line is wrong, at which word, and what was expected there.
fn tell_line<R: Eprint>(rt: &R, known: &Known<'_>) -> io::Result<()> {
    let (number, line) = match &known.stop {
        Some(Stop::Wrong(number, text)) => {
            (*number, line_of(text.as_slice(), number.saturating_sub(1)))
        }
        Some(Stop::Line(number, text)) => (*number, text.as_slice()),
        _ => return eprintln!(rt; "session_run: a line is no event"),
    };
    if is_tasks(known.words) {
        return eprintln!(rt;
            "session_run: line {number}: expected bytes: pairs of the digits 0-9a-f, or '-' for none"
        );
    }
    match complaint_of(line, known.words) {
        Some(complaint) => eprintln!(rt; "session_run: line {number}, {complaint}"),
        None => eprintln!(rt; "session_run: line {number} is no event"),
    }
}

// The words are those of `tasks`.
fn is_tasks(words: &[String]) -> bool {
    match words {
        [word] => word.as_str() == "tasks",
        _ => false,
    }
}

// What is wrong with a line of the command that the words name.
fn complaint_of(line: &[u8], words: &[String]) -> Option<Complaint> {
    match words {
        [name, ..] => match name.as_str() {
            "faults" => explain_fault(line),
            "ready" => explain(line, true),
            _ => explain(line, false),
        },
        [] => explain(line, false),
    }
}

// Writes what failed, and the system's reason.
fn tell_fault<R: Eprint>(rt: &R, what: &str, error: Option<io::Error>) -> io::Result<()> {
    match error {
        Some(error) => eprintln!(rt; "session_run: {what}: {error}"),
        None => eprintln!(rt; "session_run: {what}"),
    }
}
