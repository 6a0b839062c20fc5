// Runs over a faulty ring: what is written of lines, how runs end, and the words of the command.
use fault_run::{Ending, faults_of, run_faults};
use rent_buf::{ByteList, NumList};
use rent_io::{MemSink, MemSource};
use std::alloc::{AllocError, Global};
use std::test::Fail;

// A run: its name, the capacity, the script, and its lines with their answers, `LINE > ANSWER` each, separated by `;`.
type Row = (&'static str, u32, &'static [u8], &'static str);

#[rattlefmt::skip]
const ROWS: &[Row] = &[
    ("a ring that goes well", 4, b"-",
     "give stream > handle 0;submit recv 0 v 4 0 4 - > op 0;poll 0 7 > pending;ring > ring 1 0 0 0;turn > turned - - -;\
      ring > ring 0 0 0 1 0;complete 0 ok 2 > completed;ring > ring 0 0 1 1 0;turn > turned 0 - 7;poll 0 7 > ready ok 2 v 4 0 4 -;\
      poll 0 7 > refused NoOp;close 0 > released;turn > turned - - -;ring > ring 0 0 0 2 0 9223372036854775808;\
      complete 9223372036854775808 ok 0 > completed;turn > turned - 0 -"),
    ("a turn whose enter fails treats nothing", 4, b"f",
     "give file > handle 0;submit fsync 0 all > op 0;complete 0 err 5 > completed;turn > turned - - - RingFault;ring > ring 1 0 1 0;\
      turn > turned 0 - -;poll 0 1 > ready err 5 -"),
    ("a busy turn treats what is ready", 4, b"b",
     "give file > handle 0;submit fsync 0 all > op 0;complete 0 ok 0 > completed;turn > turned 0 - - Busy;ring > ring 1 0 0 0;\
      poll 0 1 > ready ok 0 -;turn > turned - - -"),
    ("a completion that nobody asked for", 4, b"-",
     "complete 5 ok 1 > completed;turn > turned - - - BadCompletion 5;turn > turned - - -"),
    ("an entry that completes twice", 4, b"-",
     "give file > handle 0;submit fsync 0 all > op 0;turn > turned - - -;complete 0 ok 0 > completed;complete 0 ok 0 > completed;\
      turn > turned 0 - - BadCompletion 0;poll 0 1 > ready ok 0 -"),
    ("a completion that finds another operation in its slot", 4, b"-",
     "give file > handle 0;submit fsync 0 all > op 0;turn > turned - - -;complete 0 ok 0 > completed;turn > turned 0 - -;\
      poll 0 1 > ready ok 0 -;submit fsync 0 data > op 1;complete 0 err 5 > completed;turn > turned 1 - -;poll 1 1 > ready err 5 -"),
    ("a submission on a full queue", 1, b"fb",
     "give file > handle 0;submit fsync 0 all > op 0;submit fsync 0 all > refused RingFault;submit fsync 0 all > refused Busy;\
      submit fsync 0 all > op 1;ring > ring 1 0 0 1 0"),
    ("a cancel that the ring keeps out is due", 1, b"f",
     "give stream > handle 0;submit recv 0 v 1 0 1 - > op 0;drop 0 > dropped;ring > ring 1 1 0 0;turn > turned - - -;\
      ring > ring 0 0 0 1 0;complete 0 err 125 > completed;turn > turned 0 - -"),
    ("a count that no request asked for", 4, b"-",
     "give stream > handle 0;submit recv 0 v 1 0 1 - > op 0;turn > turned - - -;complete 0 ok 4294967295 > completed;turn > turned 0 - -;\
      poll 0 1 > ready ok 4294967295 v 1 0 1 -"),
    ("the run of docs/FORMATS.md", 1, b"f-b",
     "give stream > handle 0;submit recv 0 v 2 0 2 - > op 0;submit recv 0 v 2 0 2 - > refused RingFault;turn > turned - - -;\
      ring > ring 0 0 0 1 0;complete 0 ok 2 > completed;turn > turned 0 - - Busy;complete 0 ok 2 > completed;\
      turn > turned - - - BadCompletion 0;poll 0 7 > ready ok 2 v 2 0 2 -"),
    ("groups", 4, b"-",
     "give stream > handle 0;canceller > canceller 0;newhandle 0 > cancelhandle 0;newhandle 1 > refused NoCanceller;\
      under 0 recv 0 v 1 0 1 - > op 0;under 1 recv 0 v 1 0 1 - > refused NoCanceller;cancelall 0 > cancels 0;cancelall 1 > refused NoCanceller;\
      under 0 recv 0 v 1 0 1 - > canceled v 1 0 1 -;cancel 0 > asked;cancel 1 > refused NoOp;submit recv 1 v 1 0 1 - > refused NoHandle;\
      close 1 > refused NoHandle;drop 1 > refused NoOp"),
];

// How a run ended, and the number that is told with it.
#[derive(Clone, Copy, Debug, PartialEq, Eq)]
enum End {
    Done,
    BadLine(u64),
    TooLong,
    ReadFault,
    WriteFault,
    OutOfMemory,
}

// Lines, the numbers of a read and of a write or flush that fail, how the run ends, and what it has written. In both texts `;` stands for a
// newline.
type Ended = (&'static str, Option<u64>, Option<u64>, End, &'static str);

#[rattlefmt::skip]
const ENDS: &[Ended] = &[
    ("", None, None, End::Done, ""),
    ("give file;turn", None, None, End::Done, "handle 0;turned - - -;"),
    (";", None, None, End::BadLine(1), "line 1;"),
    ("give file;feed 0 61;turn", None, None, End::BadLine(2), "handle 0;line 2;"),
    ("message 0 1 61", None, None, End::BadLine(1), "line 1;"),
    ("end 0", None, None, End::BadLine(1), "line 1;"),
    ("look 0", None, None, End::BadLine(1), "line 1;"),
    ("exec 0 ok 0", None, None, End::BadLine(1), "line 1;"),
    ("ring ", None, None, End::BadLine(1), "line 1;"),
    ("complete 0 ok", None, None, End::BadLine(1), "line 1;"),
    ("complete 0 made 1", None, None, End::BadLine(1), "line 1;"),
    ("complete 18446744073709551616 ok 1", None, None, End::BadLine(1), "line 1;"),
    ("completes 0 ok 1", None, None, End::BadLine(1), "line 1;"),
    ("give file;", Some(0), None, End::ReadFault, ""),
    ("give file;", Some(1), None, End::ReadFault, "handle 0;"),
    ("give file;", None, Some(0), End::WriteFault, ""),
    ("give file;", None, Some(1), End::WriteFault, "handle 0;"),
    ("give file;", None, Some(2), End::WriteFault, "handle 0;"),
    ("turn;x", None, Some(2), End::WriteFault, "turned - - -;"),
];

// Words with one space between them, and the capacity that they write.
#[rattlefmt::skip]
const WORDS: &[(&str, Option<u32>)] = &[
    ("faults 4 -fb", Some(4)),
    ("faults 4294967295 -", Some(4294967295)),
    ("faults 0 -", None),
    ("faults 04 -", None),
    ("faults 4294967296 -", None),
    ("faults 4 x", None),
    ("faults 4", None),
    ("faults 4 - -", None),
    ("fault 4 -", None),
];

// The lines of a row, and its answers, each ended by a newline.
#[derive(Drop)]
struct Pairs {
    lines: Vec<u8>,
    answers: Vec<u8>,
}

// Appends a text and a newline.
fn put(text: &str, out: &mut Vec<u8>) -> Result<(), AllocError> {
    out.extend_from_slice(text.as_bytes())?;
    out.push(b'\n')?;
    Ok(())
}

// The texts of a row.
fn pairs_of(alloc: Global, row: &str) -> Result<Pairs, AllocError> {
    let mut pairs = Pairs {
        lines: Vec::new(alloc),
        answers: Vec::new(alloc),
    };
    for pair in row.split(';') {
        let mut parts = pair.split(" > ");
        put(parts.next().unwrap_or(""), &mut pairs.lines)?;
        put(parts.next().unwrap_or(""), &mut pairs.answers)?;
    }
    Ok(pairs)
}

// The bytes of a text, with a newline for each `;`.
fn bytes_of(alloc: Global, text: &str) -> Result<Vec<u8>, AllocError> {
    let mut bytes = Vec::new(alloc);
    for byte in text.as_bytes() {
        bytes.push(if *byte == b';' { b'\n' } else { *byte })?;
    }
    Ok(bytes)
}

// The number of a call that fails, or none.
fn failing(alloc: Global, call: Option<u64>) -> Result<NumList, AllocError> {
    let mut calls = Vec::new(alloc);
    if let Some(call) = call {
        calls.push(call)?;
    }
    Ok(NumList::from_vec(calls))
}

// What is run: the capacity, the script, the lines, and the calls that fail.
type Case<'a> = (u32, &'a [u8], &'a [u8], Option<u64>, Option<u64>);

// Runs over memory.
fn run(
    alloc: Global,
    (capacity, enters, lines, read, write): Case<'_>,
) -> Result<(End, MemSink), AllocError> {
    let lines = ByteList::from_vec(Vec::from_slice(alloc, lines)?);
    let mut source = MemSource::new(lines, failing(alloc, read)?);
    let mut sink = MemSink::new(alloc, failing(alloc, write)?);
    if capacity == 0 {
        return Ok((End::OutOfMemory, sink));
    }
    let end = match run_faults(alloc, capacity, enters, &mut source, &mut sink) {
        Ending::Done => End::Done,
        Ending::BadLine(number, _) => End::BadLine(number),
        Ending::TooLong => End::TooLong,
        Ending::ReadFault => End::ReadFault,
        Ending::WriteFault => End::WriteFault,
        Ending::OutOfMemory(_) => End::OutOfMemory,
    };
    Ok((end, sink))
}

#[test]
fn rows_are_answered(rt: HostRuntime) -> Result<(), Fail> {
    for (name, capacity, enters, row) in ROWS {
        let pairs = pairs_of(rt.alloc(), row)?;
        let lines = pairs.lines.as_slice();
        let (end, sink) = run(rt.alloc(), (*capacity, *enters, lines, None, None))?;
        assert_eq!(rt; end, End::Done, "in the row {name:?}");
        assert_eq!(rt;
            str::from_utf8(sink.taken()),
            str::from_utf8(pairs.answers.as_slice()),
            "in the row {name:?}"
        );
    }
    Ok(())
}

#[test]
fn runs_end_as_rows_say(rt: HostRuntime) -> Result<(), Fail> {
    for (text, read, write, want, output) in ENDS {
        let lines = bytes_of(rt.alloc(), text)?;
        let output = bytes_of(rt.alloc(), output)?;
        let (end, sink) = run(
            rt.alloc(),
            (4, b"-".as_slice(), lines.as_slice(), *read, *write),
        )?;
        assert_eq!(rt; end, *want, "of the lines {text:?}");
        assert_eq!(rt; sink.taken(), output.as_slice(), "of the lines {text:?}");
    }
    Ok(())
}

// Words, one for each piece between spaces.
fn words_of(alloc: Global, text: &str) -> Result<Vec<String>, AllocError> {
    let mut words = Vec::new(alloc);
    for word in text.split(' ') {
        words.push(String::from_str(alloc, word)?)?;
    }
    Ok(words)
}

#[test]
fn words_are_read(rt: HostRuntime) -> Result<(), Fail> {
    for (text, capacity) in WORDS {
        let words = words_of(rt.alloc(), text)?;
        let read = match faults_of(words.as_slice()) {
            Some((capacity, _)) => Some(capacity),
            None => None,
        };
        assert_eq!(rt; read, *capacity, "of the words {text:?}");
    }
    Ok(())
}
