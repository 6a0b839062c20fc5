// The lines of messages and of a wrong piece.
ghost use Rattle.std.specs.Prelude.{◌≡◌, ◌++◌, OnOk};
ghost use Rattle.frame_run.specs.Lines.{bad_line, fault_name, message_line};

use crate::hex::{put, put_bytes};
use event_text::put_number;
use frame_io::{BadFrame, Message};
use rent_buf::OutOfMemory;

/// Appends the line of a message.
pub(crate) fn put_message(message: &Message, out: &mut Vec<u8>) -> Result<(), OutOfMemory>
    ensures { OnOk result (out.new.items ≡ out.old.items ++ message_line message.now) }
{
    put(b"message ", out)?;
    put_number(u64::from(message.channel), out)?;
    put(b" ", out)?;
    put_bytes(message.bytes.as_slice(), out)?;
    put(b"\n", out)
}

/// Appends the line of a wrong piece.
pub(crate) fn put_bad(offset: u64, bad: BadFrame, out: &mut Vec<u8>) -> Result<(), OutOfMemory>
    ensures { OnOk result (out.new.items ≡ out.old.items ++ bad_line offset bad) }
{
    put(b"bad ", out)?;
    put_number(offset, out)?;
    put(b" ", out)?;
    put(name_of(bad), out)?;
    put(b"\n", out)
}

// The name of what is wrong with a piece.
fn name_of(bad: BadFrame) -> &'static [u8]
    ensures { result.now ≡ fault_name bad }
{
    match bad {
        BadFrame::Number => b"Number",
        BadFrame::Large => b"Large",
        BadFrame::Flag => b"Flag",
        BadFrame::Channels => b"Channels",
        BadFrame::Long => b"Long",
        BadFrame::Cut => b"Cut",
    }
}
