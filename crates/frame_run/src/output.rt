// Collecting lines, and writing them to a sink.
ghost use Rattle.std.specs.Prelude.{◌≡◌, ◌≤◌, ◌++◌, IfErr, OnOk, IsTrue};
ghost use Rattle.frame_run.specs.Lines.{message_line};
ghost use Rattle.frame_run.specs.Writes.{Collects, WhyUnwritten, WritesAll};

use crate::line::put_message;
use frame_io::Message;
use rent_io::{ByteSink, Failed};

// From how many bytes on lines are written.
const PIECE: usize = 65536;

/// Why not all of a text was written.
pub(crate) enum Unwritten {
    /// The sink failed.
    Fault,
    /// Memory ran out.
    OutOfMemory,
}

/// Appends the line of a message to what waits, and writes that where it is a large piece.
pub(crate) fn write_next<K: ByteSink>(
    message: &Message,
    out: &mut Vec<u8>,
    sink: &mut K,
) -> Result<(), Unwritten>
    ensures ok { OnOk result (Collects K.tells (out.old.items ++ message_line message.now) (K.taken sink.old) (K.taken sink.new)
        out.new.items) }
    ensures order { OnOk result (K.faults sink.old ≤ K.faults sink.new) }
    ensures calm { OnOk result (IsTrue K.tells → K.faults sink.new ≡ K.faults sink.old) }
    ensures why { IfErr result (WhyUnwritten K.tells (out.old.items ++ message_line message.now) (K.taken sink.old) (K.taken sink.new)
        (K.faults sink.old) (K.faults sink.new)) }
{
    match put_message(message, out) {
        Ok(()) => {}
        Err(_) => return Err(Unwritten::OutOfMemory),
    }
    if out.len() < PIECE {
        return Ok(());
    }
    match write_all(out.as_slice(), sink) {
        Ok(()) => {
            out.clear();
            Ok(())
        }
        Err(_) => Err(Unwritten::Fault),
    }
}

/// Writes bytes and flushes; at a fault the first of them were written.
pub(crate) fn write_last<K: ByteSink>(bytes: &[u8], sink: &mut K) -> Result<(), Failed>
    ensures writes { WritesAll K.tells bytes.now (K.taken sink.old) (K.taken sink.new) (K.faults sink.old) (K.faults sink.new) result }
    ensures flushed { OnOk result (IsTrue (K.is_flushed sink.new)) }
{
    write_all(bytes, sink)?;
    sink.flush()
}

// Writes all bytes; at a fault the first of them were written.
fn write_all<K: ByteSink>(bytes: &[u8], sink: &mut K) -> Result<(), Failed>
    ensures { WritesAll K.tells bytes.now (K.taken sink.old) (K.taken sink.new) (K.faults sink.old) (K.faults sink.new) result }
{
    let mut rest = bytes;
    while !rest.is_empty() {
        let count = sink.write(rest)?;
        rest = &rest[count..];
    }
    Ok(())
}
