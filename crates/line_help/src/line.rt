//! What is wrong with a line that is no event's text. The tables are those of docs/FORMATS.md.
ghost use Rattle.std.specs.Prelude.{◌≤◌, length};

use crate::fields::{Words, is_word, of_number, of_word, read_number};
use std::fmt;
use std::fmt::{Display, Formatter};

/// The first word of a line that is wrong, counted from 1, and what was expected there. (not in monoio)
#[derive(Clone, Copy, Debug, PartialEq, Eq)]
pub struct Complaint {
    /// The number of the word. The word behind the last is missing, or the line was to end before this one.
    pub word: u64,
    /// What was expected.
    pub expected: &'static str,
    /// What the word has that isn't allowed, as `, but it has a tab`; empty if nothing of it is to be said.
    pub but: &'static str,
}

impl Display for Complaint {
    fn fmt<W: fmt::Write>(&self, f: &mut Formatter<W>) -> fmt::Result {
        write!(
            f,
            "word {}: expected {}{}",
            self.word, self.expected, self.but
        )
    }
}

// What a word, or a few of them, are to be.
#[derive(Clone, Copy)]
enum Field {
    Number(&'static str),
    Short(&'static str),
    Bytes(&'static str),
    Address,
    OneOf(&'static str, &'static [&'static str]),
    Told,
    Buffer,
    Parts,
    Request,
}

// An event or a request: its name, and what stands behind that.
type Form = (&'static str, &'static [Field]);

const EVENT: &str =
    "an event: give, feed, message, end, look, close, submit, link, poll, drop, cancel, canceller, newhandle, under, \
linkunder, cancelall, turn or exec";

const EXTERNAL: &str =
    "an event other than turn, exec, link and linkunder, which 'ready' doesn't take";

const OF_FAULTS: &str =
    "a line of 'faults': give, close, submit, poll, drop, cancel, canceller, newhandle, under, cancelall, turn, complete \
or ring";

const REQUEST: &str =
    "a request: recv, readv, send, writev, recvmsg, sendmsg, read, write, spliceto, splicefrom, accept, open, \
connect, fsync, polladd, mkdir, rename or unlink";

const HANDLE: Field = Field::Number("the number of a handle (0 to 18446744073709551615)");

const PIPE: Field = Field::Number("the number of a pipe's handle (0 to 18446744073709551615)");

const OPERATION: Field = Field::Number("the number of an operation (0 to 18446744073709551615)");

const CANCELLER: Field = Field::Number("the number of a canceller (0 to 18446744073709551615)");

const ADDRESS: Field = Field::Number("the number of an address (0 to 18446744073709551615)");

const POSITION: Field = Field::Number("a position in a file (0 to 18446744073709551615)");

const LENGTH: Field = Field::Short("a length (0 to 4294967295)");

const MODE: Field = Field::Short("a mode (0 to 4294967295)");

const FLAGS: Field = Field::Short("flags (0 to 4294967295)");

const PATH: Field = Field::Bytes("a path: pairs of the digits 0-9a-f, or '-' for no bytes");

const BYTES: Field = Field::Bytes("bytes: pairs of the digits 0-9a-f, or '-' for none");

const GROUP: Field = Field::Number("the number of a cancel handle (0 to 18446744073709551615)");

const EVENTS: [Form; 18] = [
    (
        "give",
        &[Field::OneOf(
            "a kind of handle: 'stream', 'datagram', 'file', 'pipe' or 'listener'",
            &["stream", "datagram", "file", "pipe", "listener"],
        )],
    ),
    ("feed", &[HANDLE, BYTES]),
    ("message", &[HANDLE, ADDRESS, BYTES]),
    ("end", &[HANDLE]),
    ("look", &[HANDLE]),
    ("close", &[HANDLE]),
    ("submit", &[Field::Request]),
    ("link", &[Field::Request]),
    (
        "poll",
        &[
            OPERATION,
            Field::Number("the number of a task (0 to 18446744073709551615)"),
        ],
    ),
    ("drop", &[OPERATION]),
    ("cancel", &[OPERATION]),
    ("canceller", &[]),
    ("newhandle", &[CANCELLER]),
    ("under", &[GROUP, Field::Request]),
    ("linkunder", &[GROUP, Field::Request]),
    ("cancelall", &[CANCELLER]),
    ("turn", &[]),
    (
        "exec",
        &[
            Field::Number("a place in the in-flight list (0 to 18446744073709551615)"),
            Field::Told,
        ],
    ),
];

// The events that `ready` doesn't take.
const INTERNAL: &[&str] = &["turn", "exec", "link", "linkunder"];

// The events that `faults` doesn't take, and the lines that it alone takes.
const UNTAKEN: &[&str] = &[
    "feed",
    "message",
    "end",
    "look",
    "link",
    "linkunder",
    "exec",
];

const OF_RING: [Form; 2] = [
    (
        "complete",
        &[
            Field::Number("a data word (0 to 18446744073709551615)"),
            Field::Told,
        ],
    ),
    ("ring", &[]),
];

const REQUESTS: [Form; 18] = [
    ("recv", &[HANDLE, Field::Buffer]),
    ("readv", &[HANDLE, Field::Parts]),
    ("send", &[HANDLE, Field::Buffer]),
    ("writev", &[HANDLE, Field::Parts]),
    ("recvmsg", &[HANDLE, Field::Buffer]),
    ("sendmsg", &[HANDLE, Field::Address, Field::Buffer]),
    ("read", &[HANDLE, POSITION, Field::Buffer]),
    ("write", &[HANDLE, POSITION, Field::Buffer]),
    ("spliceto", &[HANDLE, PIPE, LENGTH]),
    ("splicefrom", &[PIPE, HANDLE, LENGTH]),
    ("accept", &[HANDLE]),
    ("open", &[PATH, FLAGS, MODE]),
    ("connect", &[HANDLE, ADDRESS]),
    (
        "fsync",
        &[HANDLE, Field::OneOf("'all' or 'data'", &["all", "data"])],
    ),
    (
        "polladd",
        &[
            HANDLE,
            Field::OneOf("'read' or 'write'", &["read", "write"]),
        ],
    ),
    ("mkdir", &[PATH, MODE]),
    ("rename", &[PATH, PATH]),
    (
        "unlink",
        &[PATH, Field::OneOf("'file' or 'dir'", &["file", "dir"])],
    ),
];

/// What is wrong with a line, with no newline in it, as an event's text; `None` if nothing is. Where `external` is true turns, executions
/// and linked submissions are wrong too, as under `ready`. It takes no memory. (not in monoio)
pub fn explain(line: &[u8], external: bool) -> Option<Complaint> {
    let mut words = Words::of(line);
    match event(&mut words, external) {
        Ok(()) => None,
        Err(complaint) => Some(complaint),
    }
}

/// What is wrong with a line, with no newline in it, as one of `faults`; `None` if nothing is. It takes no memory. (not in monoio)
pub fn explain_fault(line: &[u8]) -> Option<Complaint> {
    let mut words = Words::of(line);
    match line_of_faults(&mut words) {
        Ok(()) => None,
        Err(complaint) => Some(complaint),
    }
}

/// The line of a number, counted from 0, of a text; empty if there are fewer. (not in monoio)
pub fn line_of(text: &[u8], number: u64) -> &[u8] {
    let mut rest = text;
    for _ in 0..number {
        let (_, behind) = rest.split_at(line_end(rest));
        match behind {
            [] => return behind,
            [_, more @ ..] => rest = more,
        }
    }
    &rest[..line_end(rest)]
}

// Where the first line of a text ends.
fn line_end(text: &[u8]) -> usize
    ensures { result ≤ length text.now }
{
    for at in 0..text.len() {
        if text[at] == b'\n' {
            return at;
        }
    }
    text.len()
}

// All words of a line.
fn event(words: &mut Words<'_>, external: bool) -> Result<(), Complaint> {
    let expected = if external { EXTERNAL } else { EVENT };
    let name = words.next(expected)?;
    if external && is_one_of(name, INTERNAL) {
        return Err(words.wrong(expected, ""));
    }
    let Some(fields) = fields_of(name, &EVENTS) else {
        return Err(words.wrong(EVENT, of_word(name)));
    };
    rest(words, fields)
}

// All words of a line of `faults`.
fn line_of_faults(words: &mut Words<'_>) -> Result<(), Complaint> {
    let name = words.next(OF_FAULTS)?;
    if is_one_of(name, UNTAKEN) {
        return Err(words.wrong(OF_FAULTS, ""));
    }
    if let Some(fields) = fields_of(name, &OF_RING) {
        return rest(words, fields);
    }
    let Some(fields) = fields_of(name, &EVENTS) else {
        return Err(words.wrong(OF_FAULTS, of_word(name)));
    };
    rest(words, fields)
}

// A name is one of these.
fn is_one_of(name: &[u8], texts: &[&str]) -> bool {
    for text in texts {
        if is_word(name, text) {
            return true;
        }
    }
    false
}

// The words behind a name, and the end of the line.
fn rest(words: &mut Words<'_>, fields: &'static [Field]) -> Result<(), Complaint> {
    for field in fields {
        take(words, *field)?;
    }
    words.end()
}

// What stands behind a name.
fn fields_of(name: &[u8], forms: &'static [Form]) -> Option<&'static [Field]> {
    for (text, fields) in forms {
        if is_word(name, text) {
            return Some(*fields);
        }
    }
    None
}

// The words of one field.
fn take(words: &mut Words<'_>, field: Field) -> Result<(), Complaint> {
    match field {
        Field::Request => request(words),
        _ => take_plain(words, field),
    }
}

// The words of a request.
fn request(words: &mut Words<'_>) -> Result<(), Complaint> {
    let name = words.next(REQUEST)?;
    let Some(fields) = fields_of(name, &REQUESTS) else {
        return Err(words.wrong(REQUEST, of_word(name)));
    };
    for field in fields {
        take_plain(words, *field)?;
    }
    Ok(())
}

// The words of a field that is no request.
fn take_plain(words: &mut Words<'_>, field: Field) -> Result<(), Complaint> {
    match field {
        Field::Number(expected) => {
            words.number(expected, u64::MAX)?;
        }
        Field::Short(expected) => {
            words.number(expected, u32::MAX as u64)?;
        }
        Field::Bytes(expected) => {
            words.bytes(expected)?;
        }
        Field::OneOf(expected, choices) => {
            words.one_of(expected, choices)?;
        }
        Field::Address => return address(words),
        Field::Told => return told(words),
        Field::Buffer => return buffer(words),
        Field::Parts => return parts(words),
        Field::Request => {}
    }
    Ok(())
}

// The number of an address, or none.
fn address(words: &mut Words<'_>) -> Result<(), Complaint> {
    let expected = "the number of an address (0 to 18446744073709551615), or '-' for none";
    let word = words.next(expected)?;
    if is_word(word, "-") || read_number(word).is_some() {
        return Ok(());
    }
    Err(words.wrong(expected, of_number(word)))
}

// What an executor tells.
fn told(words: &mut Words<'_>) -> Result<(), Complaint> {
    let word = words.one_of("'ok' or 'err'", &["ok", "err"])?;
    if is_word(word, "ok") {
        words.number("a count (0 to 4294967295)", u32::MAX as u64)?;
    } else {
        words.number("the number of an error (0 to 65535)", u16::MAX as u64)?;
    }
    Ok(())
}

// A buffer: its kind, its total, the range and the bytes.
fn buffer(words: &mut Words<'_>) -> Result<(), Complaint> {
    let kind = words.one_of("a kind of buffer: 'v', 'g' or 'b'", &["v", "g", "b"])?;
    let total = words.number(
        "TOTAL, the buffer's capacity (0 to 18446744073709551615)",
        u64::MAX,
    )?;
    let begin = words.number(
        "BEGIN, where its range starts (0 to 18446744073709551615)",
        u64::MAX,
    )?;
    let end = words.number(
        "END, where its range ends (0 to 18446744073709551615)",
        u64::MAX,
    )?;
    let count = words.bytes("its initialised bytes: pairs of the digits 0-9a-f, or '-' for none")?;
    if end > total {
        return Err(words.wrong_before(1, "END of at most TOTAL", ", but it is greater"));
    }
    if begin > end {
        return Err(words.wrong_before(2, "BEGIN of at most END", ", but it is greater"));
    }
    if count > total {
        return Err(words.wrong("at most TOTAL bytes", ", but it writes more"));
    }
    if is_word(kind, "b") && count != total {
        return Err(words.wrong(
            "exactly TOTAL bytes of a 'b' buffer",
            ", but it writes fewer",
        ));
    }
    if begin > count {
        return Err(words.wrong_before(
            2,
            "BEGIN of at most the number of initialised bytes",
            ", but it is greater",
        ));
    }
    Ok(())
}

// Parts: how many there are, and each with its room and its bytes.
fn parts(words: &mut Words<'_>) -> Result<(), Complaint> {
    words.one_of("'p', the start of parts", &["p"])?;
    let count = words.number("the number of parts (0 to 18446744073709551615)", u64::MAX)?;
    let mut rooms: u64 = 0;
    for _ in 0..count {
        let room = words.number(
            "ROOM, a part's capacity (0 to 18446744073709551615)",
            u64::MAX,
        )?;
        let Some(sum) = rooms.checked_add(room) else {
            return Err(words.wrong(
                "ROOM, with a sum of all rooms of at most 18446744073709551615",
                ", but it is greater",
            ));
        };
        rooms = sum;
        let bytes = words.bytes(
            "a part's initialised bytes: pairs of the digits 0-9a-f, or '-' for none",
        )?;
        if bytes > room {
            return Err(words.wrong("at most ROOM bytes", ", but it writes more"));
        }
    }
    Ok(())
}
