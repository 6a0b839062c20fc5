//! Replies as text: one line each, written.
ghost use Rattle.std.specs.Prelude.{◌≡◌, ◌++◌, OnOk, OnErr};
ghost use Rattle.event_text.specs.TextWrites.{Starts};
ghost use Rattle.event_text.specs.TextReply.{refusal_word, reply_text};
ghost use Rattle.event_text.specs.TextWords.{numbers_word};

use crate::buffer::put_held;
use crate::word::number::put_number;
use crate::word::{put, put_byte, put_counted, put_next_address, put_next_bytes, put_next_number};
use machine::{Outcome, Refusal, Reply};
use rent_buf::{HeldBuf, MessageList, OutOfMemory};

/// Appends the text of a reply, with no newline. If memory runs out, `out` is unchanged. (not in monoio)
pub fn write_reply(reply: &Reply, out: &mut Vec<u8>) -> Result<(), OutOfMemory>
    ensures ok { OnOk result (out.new.items ≡ out.old.items ++ reply_text reply.now) }
    ensures err { OnErr result (out.new.items ≡ out.old.items) }
{
    let before = out.len();
    match put_reply(reply, out) {
        Ok(()) => Ok(()),
        Err(error) => {
            out.truncate(before);
            Err(error)
        }
    }
}

// Each of these appends, and if memory runs out `out` begins as it was.

fn put_reply(reply: &Reply, out: &mut Vec<u8>) -> Result<(), OutOfMemory>
    ensures ok { OnOk result (out.new.items ≡ out.old.items ++ reply_text reply.now) }
    ensures err { OnErr result (Starts out.old.items out.new.items) }
{
    match reply {
        Reply::Handle(h) => put_counted(b"handle ", *h, out),
        Reply::Fed => put(b"fed", out),
        Reply::Ended => put(b"ended", out),
        Reply::Released => put(b"released", out),
        Reply::Output(bytes) => put_output(bytes.as_slice(), out),
        Reply::Messages(messages) => put_messages(messages, out),
        Reply::Submitted(n) => put_counted(b"op ", *n, out),
        Reply::CanceledAtOnce(held) => put_canceled(held, out),
        Reply::Pending => put(b"pending", out),
        Reply::Handed(outcome, held) => put_ready(*outcome, held, out),
        Reply::Dropped => put(b"dropped", out),
        Reply::Asked => put(b"asked", out),
        Reply::Canceller(c) => put_counted(b"canceller ", *c, out),
        Reply::CancelHandle(handle) => put_counted(b"cancelhandle ", *handle, out),
        Reply::Cancels(numbers) => put_cancels(numbers.as_slice(), out),
        Reply::Turned(reaped, closed, woken) => {
            put_turned(reaped.as_slice(), closed.as_slice(), woken.as_slice(), out)
        }
        Reply::ExecutedOp(n) => put_counted(b"executed op ", *n, out),
        Reply::ExecutedClose(h) => put_counted(b"executed close ", *h, out),
        Reply::Refused(refusal) => put_refused(*refusal, out),
    }
}

fn put_ready(outcome: Outcome, held: &HeldBuf, out: &mut Vec<u8>) -> Result<(), OutOfMemory>
    ensures ok { OnOk result (out.new.items ≡ out.old.items ++ reply_text (Reply.Handed outcome held.now)) }
    ensures err { OnErr result (Starts out.old.items out.new.items) }
{
    match outcome {
        Outcome::Count(k) => put_counted(b"ready ok ", k as u64, out)?,
        Outcome::Made(h) => put_counted(b"ready made ", h, out)?,
        Outcome::From(k, address) => {
            put_counted(b"ready from ", k as u64, out)?;
            put_next_number(address, out)?;
        }
        Outcome::Fail(e) => put_counted(b"ready err ", e as u64, out)?,
    }
    put_byte(b' ', out)?;
    put_held(held, out)
}

fn put_canceled(held: &HeldBuf, out: &mut Vec<u8>) -> Result<(), OutOfMemory>
    ensures ok { OnOk result (out.new.items ≡ out.old.items ++ reply_text (Reply.CanceledAtOnce held.now)) }
    ensures err { OnErr result (Starts out.old.items out.new.items) }
{
    put(b"canceled ", out)?;
    put_held(held, out)
}

fn put_output(bytes: &[u8], out: &mut Vec<u8>) -> Result<(), OutOfMemory>
    ensures ok { OnOk result (out.new.items ≡ out.old.items ++ reply_text (Reply.Output bytes.now)) }
    ensures err { OnErr result (Starts out.old.items out.new.items) }
{
    put(b"output", out)?;
    put_next_bytes(bytes, out)
}

fn put_messages(messages: &MessageList, out: &mut Vec<u8>) -> Result<(), OutOfMemory>
    ensures ok { OnOk result (out.new.items ≡ out.old.items ++ reply_text (Reply.Messages messages.now)) }
    ensures err { OnErr result (Starts out.old.items out.new.items) }
{
    put_counted(b"messages ", messages.len() as u64, out)?;
    for (address, bytes) in messages.as_slice() {
        put_next_address(*address, out)?;
        put_next_bytes(bytes.as_slice(), out)?;
    }
    Ok(())
}

fn put_cancels(numbers: &[u64], out: &mut Vec<u8>) -> Result<(), OutOfMemory>
    ensures ok { OnOk result (out.new.items ≡ out.old.items ++ reply_text (Reply.Cancels numbers.now)) }
    ensures err { OnErr result (Starts out.old.items out.new.items) }
{
    put(b"cancels ", out)?;
    put_numbers(numbers, out)
}

fn put_turned(
    reaped: &[u64],
    closed: &[u64],
    woken: &[u64],
    out: &mut Vec<u8>,
) -> Result<(), OutOfMemory>
    ensures ok { OnOk result (out.new.items ≡ out.old.items ++ reply_text (Reply.Turned reaped.now closed.now woken.now)) }
    ensures err { OnErr result (Starts out.old.items out.new.items) }
{
    put(b"turned ", out)?;
    put_numbers(reaped, out)?;
    put_byte(b' ', out)?;
    put_numbers(closed, out)?;
    put_byte(b' ', out)?;
    put_numbers(woken, out)
}

fn put_refused(refusal: Refusal, out: &mut Vec<u8>) -> Result<(), OutOfMemory>
    ensures ok { OnOk result (out.new.items ≡ out.old.items ++ reply_text (Reply.Refused refusal)) }
    ensures err { OnErr result (Starts out.old.items out.new.items) }
{
    put(b"refused ", out)?;
    put(refusal_name(refusal), out)
}

fn refusal_name(refusal: Refusal) -> &'static [u8]
    ensures { result.now ≡ refusal_word refusal }
{
    match refusal {
        Refusal::NoOp => b"NoOp",
        Refusal::NoCanceller => b"NoCanceller",
        Refusal::NoHandle => b"NoHandle",
        Refusal::Full => b"Full",
        Refusal::NotFlying => b"NotFlying",
        Refusal::Waiting => b"Waiting",
        Refusal::BadOutcome => b"BadOutcome",
        Refusal::BadHandleEvent => b"BadHandleEvent",
    }
}

fn put_numbers(numbers: &[u64], out: &mut Vec<u8>) -> Result<(), OutOfMemory>
    ensures ok { OnOk result (out.new.items ≡ out.old.items ++ numbers_word numbers.now) }
    ensures err { OnErr result (Starts out.old.items out.new.items) }
{
    if numbers.is_empty() {
        return put_byte(b'-', out);
    }
    put_number(numbers[0], out)?;
    for number in &numbers[1..] {
        put_byte(b',', out)?;
        put_number(*number, out)?;
    }
    Ok(())
}
