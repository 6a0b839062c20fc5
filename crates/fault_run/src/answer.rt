//! What is answered to a line, as text.
ghost use Rattle.std.specs.Prelude.{◌≡◌, ◌++◌, OnOk, decimal};
ghost use Rattle.fault_run.specs.Texts.{answer_text, behind_spaces, halt_text, kept_text as text_of_kept, shown_text};
ghost use Rattle.fault_run.specs.declared.answer.Answer.TheVariants.{Stopped};

use event_text::{put_number, write_reply};
use machine::Reply;
use rent_buf::{NumList, OutOfMemory};
use ring_core::EnterError;

/// Why a turn stopped that didn't run out of memory. (not in monoio)
#[derive(Clone, Copy, Debug, PartialEq, Eq)]
pub enum Halt {
    /// The ring failed: nothing was treated.
    RingFault,
    /// The ring was busy: what was ready was treated.
    Busy,
    /// A completion of this data word names nothing that is in flight.
    BadCompletion(u64),
}

/// What a look at the ring shows. (not in monoio)
#[derive(Debug, Drop)]
pub struct Shown {
    /// How many entries are in the queue.
    pub queued: u32,
    /// How many entries a failed or busy enter kept out of the ring.
    pub due: usize,
    /// How many completions are ready.
    pub ready: usize,
    /// The data words of the entries that the ring took, oldest first, without cancels.
    pub words: NumList,
}

/// The answer to a line. (not in monoio)
#[derive(Debug, Drop)]
pub enum Answer {
    /// A reply, as in a run.
    Plain(Reply),
    /// A request was not submitted, since the ring failed or was busy.
    Kept(EnterError),
    /// A turn stopped: the reply of one that named what this one did, and why.
    Stopped(Reply, Halt),
    /// The completion is ready.
    Completed,
    /// What the ring shows.
    Ring(Shown),
}

/// Appends the text of an answer, with no newline.
pub(crate) fn write_answer(answer: &Answer, out: &mut Vec<u8>) -> Result<(), OutOfMemory>
    ensures { OnOk result (out.new.items ≡ out.old.items ++ answer_text answer.now) }
{
    match answer {
        Answer::Plain(reply) => write_reply(reply, out),
        Answer::Kept(why) => put(kept_text(*why), out),
        Answer::Stopped(turned, halt) => put_stopped(turned, *halt, out),
        Answer::Completed => put(b"completed", out),
        Answer::Ring(shown) => put_shown(shown, out),
    }
}

// The text of a submission that the ring refused.
fn kept_text(why: EnterError) -> &'static [u8]
    ensures { result.now ≡ text_of_kept why }
{
    match why {
        EnterError::Fault => b"refused RingFault",
        EnterError::Busy => b"refused Busy",
    }
}

// The text of a turn that stopped.
fn put_stopped(turned: &Reply, halt: Halt, out: &mut Vec<u8>) -> Result<(), OutOfMemory>
    ensures { OnOk result (out.new.items ≡ out.old.items ++ answer_text (Stopped turned.now halt)) }
{
    write_reply(turned, out)?;
    put_halt(halt, out)
}

// A space and why a turn stopped.
fn put_halt(halt: Halt, out: &mut Vec<u8>) -> Result<(), OutOfMemory>
    ensures { OnOk result (out.new.items ≡ out.old.items ++ halt_text halt) }
{
    match halt {
        Halt::RingFault => put(b" RingFault", out),
        Halt::Busy => put(b" Busy", out),
        Halt::BadCompletion(word) => put_counted(b" BadCompletion ", word, out),
    }
}

// What the ring shows.
fn put_shown(shown: &Shown, out: &mut Vec<u8>) -> Result<(), OutOfMemory>
    ensures { OnOk result (out.new.items ≡ out.old.items ++ shown_text shown.now) }
{
    put_counted(b"ring ", shown.queued as u64, out)?;
    put_counted(b" ", shown.due as u64, out)?;
    put_counted(b" ", shown.ready as u64, out)?;
    put_counted(b" ", shown.words.len() as u64, out)?;
    put_words(shown.words.as_slice(), out)
}

// Numbers, each behind a space.
fn put_words(words: &[u64], out: &mut Vec<u8>) -> Result<(), OutOfMemory>
    ensures { OnOk result (out.new.items ≡ out.old.items ++ behind_spaces words.now) }
{
    for word in words {
        put_counted(b" ", *word, out)?;
    }
    Ok(())
}

// Appends a text and a number.
fn put_counted(text: &[u8], number: u64, out: &mut Vec<u8>) -> Result<(), OutOfMemory>
    ensures { OnOk result (out.new.items ≡ out.old.items ++ (text.now ++ decimal number)) }
{
    put(text, out)?;
    put_number(number, out)
}

// Appends bytes.
fn put(bytes: &[u8], out: &mut Vec<u8>) -> Result<(), OutOfMemory>
    ensures { OnOk result (out.new.items ≡ out.old.items ++ bytes.now) }
{
    out.extend_from_slice(bytes)?;
    Ok(())
}
