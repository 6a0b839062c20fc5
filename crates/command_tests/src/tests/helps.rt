// Wrong lines and wrong words, each with what a person is told of it.
use line_help::{Complaint, explain, explain_fault, line_of, usage_error};
use std::alloc::{AllocError, Global};
use std::process::Abort;
use std::test::Fail;

// What is told of a row is what the row says.
fn is_told(rt: &impl Abort, row: &str, is: &str, wanted: &str) {
    assert_eq!(rt; is, wanted, "for {row:?}");
}

// The text of a complaint.
fn text_of(alloc: Global, complaint: Complaint) -> Result<String, AllocError> {
    format!(in alloc; "{complaint}")
}

// What is told of a line, or nothing.
fn told(alloc: Global, line: &str, external: bool) -> Result<String, AllocError> {
    match explain(line.as_bytes(), external) {
        Some(complaint) => text_of(alloc, complaint),
        None => Ok(String::new(alloc)),
    }
}

// A wrong line, the number of its wrong word, what is expected of it, and what it has instead.
type Wrong = (&'static str, u64, &'static str, &'static str);

// What is told of a wrong line.
fn is_wrong(
    rt: &impl Abort,
    alloc: Global,
    external: bool,
    (line, word, expected, but): Wrong,
) -> Result<(), AllocError> {
    let is = told(alloc, line, external)?;
    let wanted = format!(in alloc; "word {word}: expected {expected}{but}")?;
    is_told(rt, line, is.as_str(), wanted.as_str());
    Ok(())
}

// Nothing is told of a right line.
fn is_right(
    rt: &impl Abort,
    alloc: Global,
    external: bool,
    line: &'static str,
) -> Result<(), AllocError> {
    let is = told(alloc, line, external)?;
    is_told(rt, line, is.as_str(), "");
    Ok(())
}

const EVENT: &str =
    "an event: give, feed, message, end, look, close, submit, link, poll, drop, cancel, canceller, newhandle, under, \
linkunder, cancelall, turn or exec";

const EXTERNAL: &str =
    "an event other than turn, exec, link and linkunder, which 'ready' doesn't take";

const REQUEST: &str =
    "a request: recv, readv, send, writev, recvmsg, sendmsg, read, write, spliceto, splicefrom, accept, open, \
connect, fsync, polladd, mkdir, rename or unlink";

const KIND: &str = "a kind of handle: 'stream', 'datagram', 'file', 'pipe' or 'listener'";

const HANDLE: &str = "the number of a handle (0 to 18446744073709551615)";

const ADDRESS: &str = "the number of an address (0 to 18446744073709551615)";

const TASK: &str = "the number of a task (0 to 18446744073709551615)";

const OPERATION: &str = "the number of an operation (0 to 18446744073709551615)";

const CANCELLER: &str = "the number of a canceller (0 to 18446744073709551615)";

const GROUP: &str = "the number of a cancel handle (0 to 18446744073709551615)";

const PLACE: &str = "a place in the in-flight list (0 to 18446744073709551615)";

const POSITION: &str = "a position in a file (0 to 18446744073709551615)";

const ROOM: &str = "ROOM, a part's capacity (0 to 18446744073709551615)";

const COUNT: &str = "a count (0 to 4294967295)";

const BYTES: &str = "bytes: pairs of the digits 0-9a-f, or '-' for none";

const END: &str = "the end of the line";

#[rattlefmt::skip]
const LINES: &[Wrong] = &[
    ("", 1, EVENT, ", but it is empty: words have one space between them"),
    ("give stream\r", 2, KIND, ", but it ends with a carriage return"),
    ("give  stream", 2, KIND, ", but it is empty: words have one space between them"),
    ("give", 2, KIND, ", but the line ends before it"),
    ("give Stream", 2, KIND, ", but it has a capital letter"),
    ("give socket", 2, KIND, ""),
    ("give stream ", 3, END, ", but a space stands there"),
    ("give stream 1", 3, END, ""),
    ("turn\t", 1, EVENT, ", but it has a tab"),
    ("turn\r", 1, EVENT, ", but it ends with a carriage return"),
    ("\u{feff}turn", 1, EVENT, ", but it begins with a byte-order mark"),
    (" turn", 1, EVENT, ", but it is empty: words have one space between them"),
    ("Turn", 1, EVENT, ", but it has a capital letter"),
    ("# turn", 1, EVENT, ""),
    ("turn\u{0}", 1, EVENT, ", but it has a control byte"),
    ("türn", 1, EVENT, ", but it has a byte above 127"),
    ("feed 0\t61", 2, HANDLE, ", but it has a tab"),
    ("feed 00 61", 2, HANDLE, ", but it has a leading zero"),
    ("feed +0 61", 2, HANDLE, ", but it has a sign"),
    ("feed -0 61", 2, HANDLE, ", but it has a sign"),
    ("feed 18446744073709551616 61", 2, HANDLE, ", but it is greater"),
    ("feed 0x 61", 2, HANDLE, ", but it has a byte that is no digit"),
    ("feed 0 6", 3, BYTES, ", but it has an odd number of digits"),
    ("feed 0 6A", 3, BYTES, ", but it has a capital letter"),
    ("feed 0 0x61", 3, BYTES, ", but it has a byte that is no hexadecimal digit"),
    ("feed 0 ", 3, BYTES, ", but it is empty: words have one space between them"),
    ("feed 0", 3, BYTES, ", but the line ends before it"),
    ("message 0 - 61", 3, ADDRESS, ", but it has a sign"),
    ("poll 0", 3, TASK, ", but the line ends before it"),
    ("poll x 1", 2, OPERATION, ", but it has a byte that is no digit"),
    ("exec 0 no 1", 3, "'ok' or 'err'", ""),
    ("exec 0 ok 4294967296", 4, COUNT, ", but it is greater"),
    ("exec 0 err 65536", 4, "the number of an error (0 to 65535)", ", but it is greater"),
    ("exec 0 ok", 4, COUNT, ", but the line ends before it"),
    ("exec ok 0", 2, PLACE, ", but it has a byte that is no digit"),
    ("newhandle", 2, CANCELLER, ", but the line ends before it"),
    ("canceller 0", 2, END, ""),
    ("under recv 0 v 1 0 1 -", 2, GROUP, ", but it has a byte that is no digit"),
    ("linkunder recv 0 v 1 0 1 -", 2, GROUP, ", but it has a byte that is no digit"),
    ("linkunder 0", 3, REQUEST, ", but the line ends before it"),
    ("link 0 recv 0 v 1 0 1 -", 2, REQUEST, ""),
    ("submit", 2, REQUEST, ", but the line ends before it"),
    ("submit receive 0", 2, REQUEST, ""),
    ("submit recv 0 x 1 0 1 -", 4, "a kind of buffer: 'v', 'g' or 'b'", ""),
    ("submit recv 0 v 1 0 1", 8, "its initialised bytes: pairs of the digits 0-9a-f, or '-' for none", ", but the line ends before it"),
    ("submit recv 0 v 1 0 2 -", 7, "END of at most TOTAL", ", but it is greater"),
    ("submit recv 0 v 4 3 2 616263", 6, "BEGIN of at most END", ", but it is greater"),
    ("submit recv 0 v 1 0 1 6162", 8, "at most TOTAL bytes", ", but it writes more"),
    ("submit recv 0 b 2 0 1 61", 8, "exactly TOTAL bytes of a 'b' buffer", ", but it writes fewer"),
    ("submit recv 0 v 4 2 3 61", 6, "BEGIN of at most the number of initialised bytes", ", but it is greater"),
    ("submit recv 0 v 1 0 1 - -", 9, END, ""),
    ("submit readv 0 q 1 1 -", 4, "'p', the start of parts", ""),
    ("submit readv 0 p 2 1 -", 8, ROOM, ", but the line ends before it"),
    ("submit readv 0 p 1 1 - 1 -", 8, END, ""),
    ("submit readv 0 p 1 1 6162", 7, "at most ROOM bytes", ", but it writes more"),
    ("submit readv 0 p 2 18446744073709551615 - 1 -", 8, "ROOM, with a sum of all rooms of at most 18446744073709551615",
        ", but it is greater"),
    ("submit sendmsg 0 x v 1 0 1 61", 4, "the number of an address (0 to 18446744073709551615), or '-' for none",
        ", but it has a byte that is no digit"),
    ("submit spliceto 0 1 4294967296", 5, "a length (0 to 4294967295)", ", but it is greater"),
    ("submit open 2 0 0", 3, "a path: pairs of the digits 0-9a-f, or '-' for no bytes", ", but it has an odd number of digits"),
    ("submit open 2f 4294967296 0", 4, "flags (0 to 4294967295)", ", but it is greater"),
    ("submit mkdir 2f x", 4, "a mode (0 to 4294967295)", ", but it has a byte that is no digit"),
    ("submit fsync 0 some", 4, "'all' or 'data'", ""),
    ("submit polladd 0 both", 4, "'read' or 'write'", ""),
    ("submit unlink 61", 4, "'file' or 'dir'", ", but the line ends before it"),
    ("submit read 0 01 v 1 0 1 -", 4, POSITION, ", but it has a leading zero"),
];

#[test]
fn a_wrong_line_is_told_by_its_word(rt: HostRuntime) -> Result<(), Fail> {
    for row in LINES {
        is_wrong(&rt, rt.alloc(), false, *row)?;
    }
    Ok(())
}

// Lines of events of each form.
#[rattlefmt::skip]
const RIGHT: &[&str] = &[
    "give stream", "give datagram", "give file", "give pipe", "give listener", "feed 0 6162", "feed 0 -", "message 0 5 61", "end 0",
    "look 18446744073709551615", "close 0", "poll 0 7", "drop 0", "cancel 0", "canceller", "newhandle 0", "cancelall 0",
    "submit recv 0 v 4 0 4 -", "submit readv 0 p 2 3 - 4 61", "submit readv 0 p 0", "submit send 0 g 1 0 1 78",
    "submit writev 0 p 1 2 6162", "submit recvmsg 0 b 1 0 1 61", "submit sendmsg 0 - v 1 0 1 78", "submit sendmsg 0 5 v 1 1 1 78",
    "submit read 0 4 v 2 0 2 -", "submit write 0 3 v 1 0 1 78", "submit spliceto 0 1 2", "under 0 splicefrom 1 0 4294967295",
    "submit accept 0", "submit open 2f61 0 0", "submit connect 0 5", "submit rename 61 -", "under 3 unlink 61 dir",
];

#[test]
fn of_a_right_line_nothing_is_told(rt: HostRuntime) -> Result<(), Fail> {
    for line in RIGHT {
        is_right(&rt, rt.alloc(), true, line)?;
        is_right(&rt, rt.alloc(), false, line)?;
    }
    Ok(())
}

// Lines of the events that 'ready' doesn't take.
const INTERNAL: &[&str] = &[
    "turn",
    "exec 0 ok 1",
    "exec 0 err 65535",
    "link recv 0 v 1 0 1 -",
    "linkunder 3 unlink 61 dir",
];

#[test]
fn what_drives_a_queue_is_wrong_under_ready(rt: HostRuntime) -> Result<(), Fail> {
    for line in INTERNAL {
        is_right(&rt, rt.alloc(), false, line)?;
        is_wrong(&rt, rt.alloc(), true, (line, 1, EXTERNAL, ""))?;
    }
    Ok(())
}

const OF_FAULTS: &str =
    "a line of 'faults': give, close, submit, poll, drop, cancel, canceller, newhandle, under, cancelall, turn, complete \
or ring";

const DATA_WORD: &str = "a data word (0 to 18446744073709551615)";

// Lines of 'faults', and what is told of them; of a right one nothing.
#[rattlefmt::skip]
const FAULTS: &[(&str, Option<(u64, &str, &str)>)] = &[
    ("ring", None),
    ("complete 7 err 5", None),
    ("submit recv 0 v 1 0 1 -", None),
    ("turn", None),
    ("exec 0 ok 1", Some((1, OF_FAULTS, ""))),
    ("feed 0 61", Some((1, OF_FAULTS, ""))),
    ("link recv 0 v 1 0 1 -", Some((1, OF_FAULTS, ""))),
    ("Ring", Some((1, OF_FAULTS, ", but it has a capital letter"))),
    ("ring 1", Some((2, END, ""))),
    ("complete", Some((2, DATA_WORD, ", but the line ends before it"))),
    ("complete 0 made 1", Some((3, "'ok' or 'err'", ""))),
    ("give socket", Some((2, KIND, ""))),
];

#[test]
fn a_wrong_line_of_faults_is_told_by_its_word(rt: HostRuntime) -> Result<(), Fail> {
    for (line, wanted) in FAULTS {
        let is = match explain_fault(line.as_bytes()) {
            Some(complaint) => Some((complaint.word, complaint.expected, complaint.but)),
            None => None,
        };
        assert!(rt; is == *wanted, "for {line:?}");
    }
    Ok(())
}

// The lines of a text, by their numbers.
const NUMBERED: &[(u64, &str)] = &[(0, "ab"), (1, ""), (2, "c"), (3, ""), (9, "")];

// The line of a number.
fn is_line(rt: &impl Abort, number: u64, wanted: &str) {
    let line = line_of(b"ab\n\nc", number);
    assert!(rt; line == wanted.as_bytes(), "of {number}");
}

#[test]
fn a_line_is_found_by_its_number(rt: HostRuntime) {
    for (number, line) in NUMBERED {
        is_line(&rt, *number, line);
    }
}

// Words, and what is told of them.
#[rattlefmt::skip]
const WORDS: &[(&str, &str)] = &[
    ("walk", "'walk' is no command"),
    ("", "'' is no command"),
    ("Run 8", "'Run' is no command"),
    ("run", "run: takes CAP, or CAP -i"),
    ("run 8 -x", "run: takes CAP, or CAP -i"),
    ("run 8 -i -i", "run: takes CAP, or CAP -i"),
    ("run 0", "run: capacity '0' is not a number from 1 to 4294967295"),
    ("run 08", "run: capacity '08' is not a number from 1 to 4294967295"),
    ("run 4294967296", "run: capacity '4294967296' is not a number from 1 to 4294967295"),
    ("run 0 -i", "run: capacity '0' is not a number from 1 to 4294967295"),
    ("ready 8", "ready: takes no further word"),
    ("gen 1", "gen: takes SEED COUNT, or SEED COUNT --events"),
    ("gen 2147483648 1", "gen: seed '2147483648' is not a number from 0 to 2147483647"),
    ("gen 1 100001", "gen: count '100001' is not a number from 0 to 100000"),
    ("gen 1 x --events", "gen: count 'x' is not a number from 0 to 100000"),
    ("wake 65 1", "wake: number of senders '65' is not a number from 0 to 64"),
    ("wake 1 -1", "wake: count '-1' is not a number from 0 to 100000"),
    ("wake 1 1 1", "wake: takes SENDERS COUNT"),
    ("copy 0 -", "copy: capacity '0' is not a number from 1 to 16777216"),
    ("copy 8 6", "copy: prefix '6' is not pairs of the digits 0-9a-f, or - for no bytes"),
    ("echo 0 1 1", "echo: port '0' is not a number from 1 to 65535"),
    ("echo 1 65 1", "echo: number of connections '65' is not a number from 1 to 64"),
    ("echo 1 1", "echo: takes PORT CONNECTIONS ROUNDS"),
    ("relay 1 65536 1 1", "relay: other port '65536' is not a number from 1 to 65535"),
    ("relay 1 1 1 1000001", "relay: number of rounds '1000001' is not a number from 0 to 1000000"),
    ("relay 1 1 1", "relay: takes PORT TO CONNECTIONS ROUNDS"),
    ("unframe", "unframe: takes no further word"),
    ("unframe 8", "unframe: takes no further word"),
    ("frame 8", "frame: takes no further word"),
    ("tasks 8", "tasks: takes no further word"),
    ("faults 8", "faults: takes CAP ENTERS"),
    ("faults 0 f", "faults: capacity '0' is not a number from 1 to 4294967295"),
    ("faults 8 fx", "faults: script 'fx' is not letters f, b or -, one for each enter"),
    ("--help me", "--help: takes no further word"),
    ("--version 1", "--version: takes no further word"),
];

// Words with one space between them.
fn split_words(alloc: Global, text: &str) -> Result<Vec<String>, AllocError> {
    let mut words = Vec::new(alloc);
    for word in text.split(' ') {
        words.push(String::from_str(alloc, word)?)?;
    }
    Ok(words)
}

// What is told of words.
fn told_of_words(alloc: Global, words: &[String]) -> Result<String, AllocError> {
    format!(in alloc; "{}", usage_error(words))
}

// What is told of the words of a text.
fn are_wrong(
    rt: &impl Abort,
    alloc: Global,
    text: &'static str,
    wanted: &'static str,
) -> Result<(), AllocError> {
    let words = split_words(alloc, text)?;
    let is = told_of_words(alloc, words.as_slice())?;
    is_told(rt, text, is.as_str(), wanted);
    Ok(())
}

#[test]
fn wrong_words_are_told_by_their_range(rt: HostRuntime) -> Result<(), Fail> {
    for (text, wanted) in WORDS {
        are_wrong(&rt, rt.alloc(), text, wanted)?;
    }
    Ok(())
}

#[test]
fn no_words_name_no_command(rt: HostRuntime) -> Result<(), Fail> {
    let is = told_of_words(rt.alloc(), &[])?;
    is_told(&rt, "no words", is.as_str(), "no command is named");
    Ok(())
}
