// The lines that are written of jobs.
ghost use Rattle.std.specs.Prelude.{◌≡◌, ◌<◌, ◌≤◌, ◌+◌, ◌*◌, ◌++◌, length, OnOk, vec_capacity, vec_len};
ghost use Rattle.event_text.specs.TextWords.{bytes_word, hex, hex_digit};
ghost use Rattle.task_run.specs.Lines.{end_word, fault_text, left_line, result_line, result_lines, wrong_line};

use event_text::put_number;
use rent_buf::{ByteList, IoFault, OutOfMemory};

/// Appends bytes.
pub(crate) fn put(bytes: &[u8], out: &mut Vec<u8>) -> Result<(), OutOfMemory>
    ensures { OnOk result (out.new.items ≡ out.old.items ++ bytes.now) }
{
    out.extend_from_slice(bytes)?;
    Ok(())
}

// Appends the word of some bytes: `-` if there are none. Memory is taken once.
fn put_bytes(bytes: &[u8], out: &mut Vec<u8>) -> Result<(), OutOfMemory>
    ensures { OnOk result (out.new.items ≡ out.old.items ++ bytes_word bytes.now) }
{
    if bytes.is_empty() {
        return put(b"-", out);
    }
    out.reserve(bytes.len() * 2)?;
    put_pairs(bytes, out);
    Ok(())
}

// Appends the digits of bytes, to a list that has room for them.
fn put_pairs(bytes: &[u8], out: &mut Vec<u8>)
    requires { vec_len out.old + length bytes.now * 2 ≤ vec_capacity out.old }
    ensures { out.new.items ≡ out.old.items ++ hex bytes.now }
{
    for byte in bytes {
        out.push_reserved(digit_of(*byte / 16));
        out.push_reserved(digit_of(*byte % 16));
    }
}

// The digit of a value.
fn digit_of(value: u8) -> u8
    requires { value < 16 }
    ensures { result ≡ hex_digit value }
{
    if value < 10 {
        b'0' + value
    } else {
        b'a' - 10 + value
    }
}

// Appends the text of a fault.
fn put_fault(fault: IoFault, out: &mut Vec<u8>) -> Result<(), OutOfMemory>
    ensures { OnOk result (out.new.items ≡ out.old.items ++ fault_text fault) }
{
    match fault {
        IoFault::Os(code) => {
            put(b"os error ", out)?;
            put_number(u64::from(code), out)
        }
        IoFault::UnexpectedEof => put(b"failed to fill whole buffer", out),
        IoFault::WriteZero => put(b"failed to write whole buffer", out),
        IoFault::InvalidData => put(b"stream did not contain valid UTF-8", out),
        IoFault::ReadFault => put(b"ReadFault", out),
        IoFault::WriteFault => put(b"WriteFault", out),
        IoFault::OutOfMemory => put(b"OutOfMemory", out),
    }
}

// Appends what a job is done with: bytes, or a fault.
fn put_end(end: &Result<ByteList, IoFault>, out: &mut Vec<u8>) -> Result<(), OutOfMemory>
    ensures { OnOk result (out.new.items ≡ out.old.items ++ end_word end.now) }
{
    match end {
        Ok(bytes) => put_bytes(bytes.as_slice(), out),
        Err(fault) => {
            put(b"err ", out)?;
            put_fault(*fault, out)
        }
    }
}

// Appends the line of a task that is done.
fn put_line(
    task: u64,
    end: &Result<ByteList, IoFault>,
    out: &mut Vec<u8>,
) -> Result<(), OutOfMemory>
    ensures { OnOk result (out.new.items ≡ out.old.items ++ result_line (task, end.now)) }
{
    put(b"task ", out)?;
    put_number(task, out)?;
    put(b" ", out)?;
    put_end(end, out)?;
    put(b"\n", out)
}

/// Appends the lines of tasks that are done.
pub(crate) fn put_results(
    results: &[(u64, Result<ByteList, IoFault>)],
    out: &mut Vec<u8>,
) -> Result<(), OutOfMemory>
    ensures { OnOk result (out.new.items ≡ out.old.items ++ result_lines results.now) }
{
    let mut rest = results;
    while let [first, behind @ ..] = rest {
        put_line(first.0, &first.1, out)?;
        rest = behind;
    }
    Ok(())
}

/// Appends the line of how many tasks are left.
pub(crate) fn put_left(left: u64, out: &mut Vec<u8>) -> Result<(), OutOfMemory>
    ensures { OnOk result (out.new.items ≡ out.old.items ++ left_line left) }
{
    put(b"left ", out)?;
    put_number(left, out)?;
    put(b"\n", out)
}

/// Appends the line of a wrong line's number.
pub(crate) fn put_wrong(number: u64, out: &mut Vec<u8>) -> Result<(), OutOfMemory>
    ensures { OnOk result (out.new.items ≡ out.old.items ++ wrong_line number) }
{
    put(b"line ", out)?;
    put_number(number, out)?;
    put(b"\n", out)
}
