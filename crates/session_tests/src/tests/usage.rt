// What the program tells a person, and the number with which it ends.
use crate::tests::program::{calm, run};
use crate::tests::text::{lines_of, split_words};
use rent_io::Failed;
use session_core::usage::{Asked, HELP, Known, answer, asked_of, end_unread, end_with};
use session_core::{RunError, Status};
use std::alloc::{AllocError, Global};
use std::cell::Cell;
use std::fmt::Display;
use std::io;
use std::process::ExitCode;
use std::rt::Clock;
use std::sync::Wait;
use std::test::Fail;
use std::thread::Threads;

// A terminal that keeps the last line of each kind, and may refuse those of standard output.
#[derive(Drop)]
struct Terminal {
    alloc: Global,
    refuses: bool,
    output: Cell<Option<String>>,
    error: Cell<Option<String>>,
}

fn new_terminal(alloc: Global, refuses: bool) -> Terminal {
    Terminal {
        alloc,
        refuses,
        output: Cell::new(None),
        error: Cell::new(None),
    }
}

impl Print for Terminal {
    fn print<D: Display + Drop>(&self, value: D) -> io::Result<()> {
        self.println(value)
    }

    fn println<D: Display + Drop>(&self, value: D) -> io::Result<()> {
        if self.refuses {
            return Err(io::Error::from(io::ErrorKind::Unsupported));
        }
        self.output.set(Some(format!(in self.alloc; "{value}")?));
        Ok(())
    }

    fn write_all(&self, bytes: &[u8]) -> io::Result<()> {
        Err(io::Error::from(io::ErrorKind::Unsupported))
    }

    fn write_some(&self, bytes: &[u8]) -> io::Result<usize> {
        Err(io::Error::from(io::ErrorKind::Unsupported))
    }
}

impl Eprint for Terminal {
    fn eprint<D: Display + Drop>(&self, value: D) -> io::Result<()> {
        self.eprintln(value)
    }

    fn eprintln<D: Display + Drop>(&self, value: D) -> io::Result<()> {
        self.error.set(Some(format!(in self.alloc; "{value}")?));
        Ok(())
    }
}

// What a terminal keeps is this line, or none.
fn is_line(kept: &Cell<Option<String>>, line: Option<&str>) -> bool {
    match (kept.take(), line) {
        (Some(kept), Some(line)) => kept.as_str() == line,
        (None, None) => true,
        _ => false,
    }
}

// Each status, its number, and the line that standard error gets where nothing more is known.
#[rattlefmt::skip]
const STATUSES: [(Status, u8, Option<&str>); 9] = [
    (Status::Done, 0, None),
    (Status::BadWords, 1, Some("session_run: no command is named; see --help")),
    (Status::BadLine, 2, Some("session_run: a line is no event")),
    (Status::TooLong, 3, Some("session_run: the input has more than 16777216 bytes")),
    (Status::ReadFault, 4, Some("session_run: reading the input failed")),
    (Status::WriteFault, 5, Some("session_run: writing the output failed")),
    (Status::OutOfMemory, 6, Some("session_run: out of memory")),
    (Status::NetFault, 7, Some("session_run: the network failed, as where the port is taken")),
    (Status::BadFrame, 8, Some("session_run: the input has an invalid piece")),
];

#[test]
fn each_status_has_its_number_and_line(rt: HostRuntime) -> Result<(), Fail> {
    let terminal = new_terminal(rt.alloc(), false);
    for (status, number, line) in STATUSES {
        assert_eq!(rt; status.number(), number, "of {status:?}");
        assert!(rt;
            end_with(&terminal, status, Known::nothing()) == ExitCode::from(number),
            "of {status:?}"
        );
        assert!(rt; is_line(&terminal.error, line), "of {status:?}");
        assert!(rt; is_line(&terminal.output, None), "of {status:?}");
    }
    Ok(())
}

// Words, an input in which `;` stands for a newline, and the line that standard error gets.
#[rattlefmt::skip]
const TOLD: [(&str, &str, &str); 10] = [
    ("run 8", "give stream;turn;exec 0 no 1;turn;", "session_run: line 3, word 3: expected 'ok' or 'err'"),
    ("run 8", "feed 0 6;", "session_run: line 1, word 3: expected bytes: pairs of the digits 0-9a-f, or '-' for none, but it has an odd number of digits"),
    ("run 8", "cancel 0;canceller 0", "session_run: line 2, word 2: expected the end of the line"),
    ("ready", "give stream;turn;", "session_run: line 2, word 1: expected an event other than turn, exec, link and linkunder, which 'ready' doesn't take"),
    ("ready", "give stream;link recv 0 v 1 0 1 -;", "session_run: line 2, word 1: expected an event other than turn, exec, link and linkunder, which 'ready' doesn't take"),
    ("ready", "give stream;end;", "session_run: line 2, word 2: expected the number of a handle (0 to 18446744073709551615), but the line ends before it"),
    ("run 8", "give stream;submit recv 0 v 18446744073709551615 0 0 -;", "session_run: line 2: out of memory"),
    ("ready", "give stream;look 0;submit recv 0 v 18446744073709551615 0 0 -;", "session_run: line 3: out of memory"),
    ("run 0", "", "session_run: run: capacity '0' is not a number from 1 to 4294967295; see --help"),
    ("walk", "", "session_run: 'walk' is no command; see --help"),
];

// What standard error gets behind a run.
fn told<R: Threads + Wait + Clock + Sync>(
    rt: &R,
    alloc: Global,
    words: &str,
    input: &str,
) -> Result<Option<String>, AllocError> {
    let terminal = new_terminal(alloc, false);
    let input = lines_of(alloc, input)?;
    let ran = run(rt, alloc, calm(words, input.as_slice()))?;
    let words = split_words(alloc, words)?;
    let known = Known {
        words: words.as_slice(),
        stop: ran.stop,
        read: None,
        write: None,
    };
    let _ = end_with(&terminal, ran.status, known);
    Ok(terminal.error.take())
}

#[test]
fn a_person_is_told_which_word_is_wrong(rt: HostRuntime) -> Result<(), Fail> {
    for (words, input, wanted) in TOLD {
        let line = told(&rt, rt.alloc(), words, input)?;
        assert_eq!(rt; line.as_deref(), Some(wanted), "for {words:?} on {input:?}");
    }
    Ok(())
}

#[test]
fn the_system_s_reason_is_told(rt: HostRuntime) -> Result<(), Fail> {
    let terminal = new_terminal(rt.alloc(), false);
    let unsupported = || io::Error::from(io::ErrorKind::Unsupported);
    let mut known = Known::nothing();
    known.read = Some(unsupported());
    let _ = end_with(&terminal, Status::ReadFault, known);
    assert!(rt;
        is_line(
            &terminal.error,
            Some("session_run: reading the input failed: unsupported")
        )
    );
    let mut known = Known::nothing();
    known.write = Some(unsupported());
    let _ = end_with(&terminal, Status::WriteFault, known);
    assert!(rt;
        is_line(
            &terminal.error,
            Some("session_run: writing the output failed: unsupported")
        )
    );
    let unread = io::Error::from(io::ErrorKind::InvalidData);
    assert!(rt; end_unread(&terminal, unread) == ExitCode::from(1));
    assert!(rt;
        is_line(
            &terminal.error,
            Some("session_run: an argument is not UTF-8; see --help")
        )
    );
    assert!(rt; end_unread(&terminal, unsupported()) == ExitCode::from(6));
    assert!(rt; is_line(&terminal.error, Some("session_run: out of memory")));
    Ok(())
}

// The lines of the help.
#[rattlefmt::skip]
const LINES: [&str; 60] = [
    "Runs an I/O engine with owned buffers on events that it reads.",
    "",
    "usage: session_run run CAP [-i]",
    "       session_run ready",
    "       session_run gen SEED COUNT [--events]",
    "       session_run wake SENDERS COUNT",
    "       session_run faults CAP ENTERS",
    "       session_run copy CAP PREFIXHEX",
    "       session_run echo PORT CONNECTIONS ROUNDS",
    "       session_run relay PORT TO CONNECTIONS ROUNDS",
    "       session_run unframe",
    "       session_run frame",
    "       session_run tasks",
    "       session_run --help",
    "       session_run --version",
    "",
    "run CAP              reads events from standard input, one a line, runs them",
    "                     over a submission queue of CAP entries (1 to 4294967295),",
    "                     and writes the reply to each, one a line; with -i each",
    "                     reply is written before the next line is read",
    "ready                does so on the readiness driver, which makes the call of an",
    "                     operation when it is polled: turn, exec, link and linkunder",
    "                     lines are invalid here",
    "gen SEED COUNT       runs COUNT rounds of seven events (0 to 100000) that SEED",
    "                     generates (0 to 2147483647) over a queue of 8 entries, and",
    "                     writes how many events there were, how many were refused,",
    "                     and how many polls were ready; with --events it writes the",
    "                     events, one a line, and runs none",
    "wake SENDERS COUNT   wakes a parked driver COUNT times (0 to 100000) from each",
    "                     of SENDERS threads (0 to 64), and writes how many wake-ups",
    "                     it drained",
    "faults CAP ENTERS    answers events over a ring of CAP entries (1 to 4294967295)",
    "                     whose enters do what the letters of ENTERS say: f fails, b",
    "                     is busy, - takes the queue; a line 'complete WORD ok K'",
    "                     makes a completion, and 'ring' shows the ring",
    "copy CAP PREFIXHEX   writes the bytes of PREFIXHEX (hexadecimal digits, or -",
    "                     for none) and then standard input, by way of buffers of",
    "                     CAP bytes (1 to 16777216)",
    "echo PORT CONNECTIONS ROUNDS",
    "                     listens on PORT of this machine (1 to 65535), and sends what",
    "                     comes on a connection back; it has at most CONNECTIONS open",
    "                     (1 to 64), makes ROUNDS rounds (0 to 1000000), each of which",
    "                     waits a millisecond at most, and writes how many connections",
    "                     were closed",
    "relay PORT TO CONNECTIONS ROUNDS",
    "                     does so with a connection to port TO of this machine for each",
    "                     that came, and passes what comes on one on to the other",
    "unframe              reads pieces of messages from standard input, and writes",
    "                     the channel and the bytes of each message, one a line",
    "frame                reads lines of a channel's number and bytes in hexadecimal",
    "                     digits (- for none), and writes the pieces of these",
    "                     messages",
    "tasks                reads lines of bytes in hexadecimal digits (- for none),",
    "                     sends each through a pipe in memory as a job of an executor,",
    "                     and writes what each job received, and how many are left",
    "",
    "exit status: 0 success; 1 invalid command line; 2 invalid line, whose number",
    "is printed; 3 more than 16777216 bytes of input; 4 reading failed; 5 writing",
    "failed; 6 out of memory; 7 the network failed; 8 invalid piece, whose place",
    "and fault are printed",
];

#[test]
fn the_help_and_the_version_are_these(rt: HostRuntime) -> Result<(), Fail> {
    let mut lines = HELP.split('\n');
    for line in LINES {
        assert_eq!(rt; lines.next(), Some(line));
    }
    assert_eq!(rt; lines.next(), None);
    let works = new_terminal(rt.alloc(), false);
    let refuses = new_terminal(rt.alloc(), true);
    for (asked, text) in [(Asked::Help, HELP), (Asked::Version, "session_run 0.1.0")] {
        assert!(rt; answer(&works, asked) == ExitCode::from(0), "of {asked:?}");
        assert!(rt; is_line(&works.output, Some(text)), "of {asked:?}");
        assert!(rt; is_line(&works.error, None), "of {asked:?}");
        assert!(rt;
            answer(&refuses, asked) == ExitCode::from(5),
            "of {asked:?}"
        );
        assert!(rt;
            is_line(
                &refuses.error,
                Some("session_run: writing the output failed: unsupported")
            ),
            "of {asked:?}"
        );
    }
    Ok(())
}

// Words, and what they ask for in place of a command.
#[rattlefmt::skip]
const ASKED: [(&str, Option<Asked>); 5] = [
    ("--help", Some(Asked::Help)),
    ("--version", Some(Asked::Version)),
    ("--help --version", None),
    ("-h", None),
    ("run 4", None),
];

#[test]
fn help_and_version_are_asked_for_alone(rt: HostRuntime) -> Result<(), Fail> {
    for (text, asked) in ASKED {
        let words = split_words(rt.alloc(), text)?;
        assert_eq!(rt; asked_of(words.as_slice()), asked, "for {text:?}");
    }
    Ok(())
}

#[test]
fn errors_are_written_as_their_names(rt: HostRuntime) -> Result<(), Fail> {
    let alloc = rt.alloc();
    assert_eq!(rt;
        format!(in alloc; "{}", RunError::OutOfMemory)?.as_str(),
        "OutOfMemory"
    );
    assert_eq!(rt; format!(in alloc; "{}", Failed)?.as_str(), "Failed");
    Ok(())
}
