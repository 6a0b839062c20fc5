//! The command `tasks`: jobs of the lines of the input.
ghost use Rattle.std.specs.Prelude.{◌≡◌, Bool, IsTrue, None, Some};
ghost use Rattle.rent_io.specs.Call.{Reading, reading, writing};
ghost use Rattle.task_run.specs.Tasks.{OutputFor};
ghost use Rattle.session_core.specs.Reads.{IsAll};
ghost use Rattle.session_core.specs.Tasking.{TasksFor, TasksStop};

use crate::input::read_all;
use crate::output::{refuse, write_last};
use crate::top::{Status, Stop};
use rent_buf::ByteList;
use rent_io::{ByteSink, ByteSource};
use std::alloc::Global;
use task_run::run_text;

/// Runs a job for each line of bytes that is read, and writes what they are done with, or the number of the first line that writes no
/// bytes, which is named.
pub(crate) fn run_tasks<S: ByteSource, K: ByteSink>(
    alloc: Global,
    source: &mut S,
    sink: &mut K,
    stop: &mut Option<Stop>,
) -> Status
    requires { stop.old ≡ None }
    ensures ends { TasksFor S.tells K.tells (reading S.left S.faults source.old source.new)
        (writing K.taken K.faults K.is_flushed sink.old sink.new) result }
    ensures stops { TasksStop S.tells (reading S.left S.faults source.old source.new) stop.new result }
{
    let text = match read_all(alloc, source) {
        Ok(text) => text,
        Err(why) => return refuse(why, sink),
    };
    let mut out = Vec::new(alloc);
    match run_text(alloc, text.as_slice(), &mut out) {
        Ok(wrong) => write_tasks(text, wrong, out.as_slice(), sink, stop),
        Err(_) => Status::OutOfMemory,
    }
}

// Writes what is written of a text that was read, and names its wrong line.
#[tactic(auto, using(crate::proofs::Tasking::tasks_done, crate::proofs::Tasking::tasks_bad, crate::proofs::Tasking::tasks_cut, crate::proofs::Tasking::tasks_named))]
fn write_tasks<K: ByteSink>(
    text: Vec<u8>,
    wrong: Option<u64>,
    out: &[u8],
    sink: &mut K,
    stop: &mut Option<Stop>,
) -> Status
    requires running { stop.old ≡ None }
    requires output { OutputFor text.items wrong out.now }
    ensures ends { (ts : Bool) (source : Reading) → (IsTrue ts → IsAll source.left source.rest text.items) →
        TasksFor ts K.tells source (writing K.taken K.faults K.is_flushed sink.old sink.new) result }
    ensures stops { (ts : Bool) (source : Reading) → (IsTrue ts → IsAll source.left source.rest text.items) →
        TasksStop ts source stop.new result }
{
    match wrong {
        None => match write_last(out, sink) {
            Ok(()) => Status::Done,
            Err(_) => Status::WriteFault,
        },
        Some(number) => {
            *stop = Some(Stop::Wrong(number, ByteList::from_vec(text)));
            match write_last(out, sink) {
                Ok(()) => Status::BadLine,
                Err(_) => Status::WriteFault,
            }
        }
    }
}
