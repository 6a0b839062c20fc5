//! The program: its commands over standard input and standard output.
#![tactic(auto)]

ghost use Rattle.std.specs.Prelude.{◌≡◌, None};

use fault_run::{Ending, faults_of, run_faults};
use frame_run::{Framed, frame_all};
use line_help::{HeardRead, HeardWrite};
use live_run::{live_of, run_live};
use rent_io::{ByteSink, ByteSource, StdSink, StdSource};
use session_core::top::top;
use session_core::usage::{Known, answer, asked_of, end_unread, end_with, words_of};
use session_core::{Kept, MOST_INPUT, Status, Stop};
use socket_io::MioIo;
use std::alloc::Global;
use std::net::Net;
use std::process::ExitCode;
use std::sync::Wait;
use std::thread::Threads;
use std::time::Clock;

// The number of a line that is no message of `frame`.
struct WrongLine(u64);

fn main(rt: HostRuntime) -> ExitCode {
    let words = match words_of(&rt) {
        Ok(words) => words,
        Err(error) => return end_unread(&rt, error),
    };
    if let Some(asked) = asked_of(words.as_slice()) {
        return answer(&rt, asked);
    }
    let mut reader = HeardRead::new(rt.stdin());
    let mut writer = HeardWrite::new(rt.stdout());
    let mut stop: Option<Stop> = None;
    let mut source = StdSource::new(&mut reader);
    let mut sink = StdSink::new(&mut writer);
    let status = match run(
        &rt,
        rt.alloc(),
        words.as_slice(),
        &mut source,
        &mut sink,
        &mut stop,
    ) {
        Ok(status) => status,
        Err(wrong) => {
            let WrongLine(number) = wrong;
            let _ = eprintln!(&rt;
                "session_run: line {number}: expected a channel and bytes, as '5 6162' or '5 -'"
            );
            return ExitCode::from(Status::BadLine.number());
        }
    };
    let known = Known {
        words: words.as_slice(),
        stop,
        read: reader.into_error(),
        write: writer.into_error(),
    };
    end_with(&rt, status, known)
}

// Does what the words say: `frame`, `faults` and `run CAP -i` by their calls, and all else by `top`.
fn run<R: Threads + Wait + Net + Clock + Sync, S: ByteSource, K: ByteSink>(
    rt: &R,
    alloc: Global,
    words: &[String],
    source: &mut S,
    sink: &mut K,
    stop: &mut Option<Stop>,
) -> Result<Status, WrongLine>
    requires { stop.old ≡ None }
{
    if is_frame(words) {
        return of_frames(frame_all(rt, alloc, MOST_INPUT, source, sink));
    }
    if let Some((capacity, enters)) = faults_of(words) {
        return Ok(of_faults(run_faults(alloc, capacity, enters, source, sink), stop));
    }
    if let Some(capacity) = live_of(words) {
        return match run_live(alloc, capacity, source, sink, stop) {
            Ok(_) => Ok(Status::Done),
            Err(status) => Ok(status),
        };
    }
    let mut kept: Option<Kept> = None;
    let mut net = MioIo::new(rt, alloc);
    Ok(top(rt, alloc, words, source, sink, &mut net, &mut kept, stop))
}

// The words are those of `frame`.
fn is_frame(words: &[String]) -> bool {
    match words {
        [word] => word.as_str() == "frame",
        _ => false,
    }
}

// How a writing of pieces ended.
fn of_frames(framed: Framed) -> Result<Status, WrongLine> {
    match framed {
        Framed::Done => Ok(Status::Done),
        Framed::BadLine(number) => Err(WrongLine(number)),
        Framed::TooLong => Ok(Status::TooLong),
        Framed::ReadFault => Ok(Status::ReadFault),
        Framed::WriteFault => Ok(Status::WriteFault),
        Framed::OutOfMemory => Ok(Status::OutOfMemory),
    }
}

// How a run over a faulty ring ended. Where memory ran out, it was at the line behind those that were answered.
fn of_faults(ending: Ending, stop: &mut Option<Stop>) -> Status {
    match ending {
        Ending::Done => Status::Done,
        Ending::BadLine(number, text) => {
            *stop = Some(Stop::Line(number, text));
            Status::BadLine
        }
        Ending::TooLong => Status::TooLong,
        Ending::ReadFault => Status::ReadFault,
        Ending::WriteFault => Status::WriteFault,
        Ending::OutOfMemory(count) => {
            *stop = Some(Stop::Short(count.saturating_add(1)));
            Status::OutOfMemory
        }
    }
}
