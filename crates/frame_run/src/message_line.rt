// Reading the line of a message.
ghost use Rattle.std.specs.Prelude.{◌≡◌, ◌<◌, ◌==◌, IfOk, IfSome, Some, length};
ghost use Rattle.std.specs.List.{position};
ghost use Rattle.event_text.specs.TextReads.{number_below};
ghost use Rattle.frame_run.specs.MessageLine.{message_of, message_with};

use event_text::{read_bytes, read_number};
use frame_io::{MOST_IN_MESSAGE, Message};
use rent_buf::{ByteList, OutOfMemory};
use std::alloc::Global;

/// The message that a line writes: its channel, a space, and its bytes in lower-case hexadecimal digits, or `-` if there are none.
/// `None` if it writes none.
#[tactic(auto, unfolding(crate::specs::MessageLine::message_of))]
pub(crate) fn message_of_line(alloc: Global, line: &[u8]) -> Result<Option<Message>, OutOfMemory>
    ensures { IfOk result (λ message. message ≡ message_of line.now) }
{
    let Some(at) = space_in(line) else {
        return Ok(None);
    };
    let Some(channel) = channel_of(&line[..at]) else {
        return Ok(None);
    };
    match read_bytes(alloc, &line[at + 1..]) {
        Ok(Some(bytes)) => Ok(short_message(channel, bytes)),
        Ok(None) => Ok(None),
        Err(refused) => Err(refused),
    }
}

// The message, if it isn't too long for one.
fn short_message(channel: u32, bytes: ByteList) -> Option<Message>
    ensures { result ≡ message_with (Some channel) (Some bytes) }
{
    if bytes.len() > MOST_IN_MESSAGE {
        return None;
    }
    Some(Message { channel, bytes })
}

// The place of the first space.
fn space_in(line: &[u8]) -> Option<usize>
    ensures place { result ≡ position (λ byte. byte == 32) line.now }
    ensures within { IfSome result (λ at. at < length line.now) }
{
    line.iter().position(|byte| *byte == b' ')
}

// The channel that a word writes.
fn channel_of(word: &[u8]) -> Option<u32>
    ensures { result ≡ number_below 4294967296 word.now }
{
    let number = read_number(word)?;
    if number > u32::MAX as u64 {
        return None;
    }
    Some(number as u32)
}
