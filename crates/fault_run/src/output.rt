// Writing lines to a sink.
ghost use Rattle.std.specs.Prelude.{◌≡◌, ◌++◌, OnOk, IsTrue};
ghost use Rattle.fault_run.specs.Texts.{answer_text, bad_line_text, ended};
ghost use Rattle.fault_run.specs.Writes.{WritesAll, WritesText};

use crate::answer::{Answer, write_answer};
use event_text::put_number;
use rent_buf::OutOfMemory;
use rent_io::{ByteSink, Failed};
use std::alloc::Global;

/// Why not all of a line was written.
pub(crate) enum Unwritten {
    /// The sink failed.
    Fault,
    /// Memory ran out, and nothing was written.
    OutOfMemory,
}

/// Writes the text of an answer and a newline, and flushes.
pub(crate) fn write_line<K: ByteSink>(
    alloc: Global,
    answer: Answer,
    sink: &mut K,
) -> Result<(), Unwritten>
    ensures writes { WritesText K.tells (ended (answer_text answer)) (K.taken sink.old) (K.taken sink.new) (K.faults sink.old)
        (K.faults sink.new) result }
    ensures flushed { OnOk result (IsTrue (K.is_flushed sink.new)) }
{
    let mut out = Vec::new(alloc);
    match put_line(answer, &mut out) {
        Ok(()) => {}
        Err(_) => return Err(Unwritten::OutOfMemory),
    }
    match write_last(out.as_slice(), sink) {
        Ok(()) => Ok(()),
        Err(_) => Err(Unwritten::Fault),
    }
}

// Appends the text of an answer and a newline.
fn put_line(answer: Answer, out: &mut Vec<u8>) -> Result<(), OutOfMemory>
    ensures { OnOk result (out.new.items ≡ out.old.items ++ ended (answer_text answer)) }
{
    write_answer(&answer, out)?;
    out.push(b'\n')?;
    Ok(())
}

/// Writes `line`, a number and a newline, and flushes.
pub(crate) fn write_bad_line<K: ByteSink>(
    alloc: Global,
    number: u64,
    sink: &mut K,
) -> Result<(), Unwritten>
    ensures writes { WritesText K.tells (bad_line_text number) (K.taken sink.old) (K.taken sink.new) (K.faults sink.old)
        (K.faults sink.new) result }
    ensures flushed { OnOk result (IsTrue (K.is_flushed sink.new)) }
{
    let mut out = Vec::new(alloc);
    match put_bad_line(number, &mut out) {
        Ok(()) => {}
        Err(_) => return Err(Unwritten::OutOfMemory),
    }
    match write_last(out.as_slice(), sink) {
        Ok(()) => Ok(()),
        Err(_) => Err(Unwritten::Fault),
    }
}

// Appends the line that tells the number of a wrong one.
fn put_bad_line(number: u64, out: &mut Vec<u8>) -> Result<(), OutOfMemory>
    ensures { OnOk result (out.new.items ≡ out.old.items ++ bad_line_text number) }
{
    out.extend_from_slice(b"line ")?;
    put_number(number, out)?;
    out.push(b'\n')?;
    Ok(())
}

// Writes bytes and flushes; at a fault the first of them were written.
fn write_last<K: ByteSink>(bytes: &[u8], sink: &mut K) -> Result<(), Failed>
    ensures writes { WritesAll K.tells bytes.now (K.taken sink.old) (K.taken sink.new) (K.faults sink.old) (K.faults sink.new) result }
    ensures flushed { OnOk result (IsTrue (K.is_flushed sink.new)) }
{
    write_all(bytes, sink)?;
    sink.flush()
}

// Writes all bytes; at a fault the first of them were written.
fn write_all<K: ByteSink>(bytes: &[u8], sink: &mut K) -> Result<(), Failed>
    ensures { WritesAll K.tells bytes.now (K.taken sink.old) (K.taken sink.new) (K.faults sink.old) (K.faults sink.new) result }
{
    let mut rest = bytes;
    while !rest.is_empty() {
        let count = sink.write(rest)?;
        rest = &rest[count..];
    }
    Ok(())
}
