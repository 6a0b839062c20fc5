// Rows of streams of pieces, and the lines that are written of them.
use frame_run::{Framed, Unframed, frame_all, unframe_all};
use rent_io::{StdSink, StdSource};
use std::alloc::Global;
use std::sync::Wait;

// What the row shows, how many bytes may be read, the bytes, how it ends, and what was written.
#[rattlefmt::skip]
const ROWS: &[(&str, usize, &[u8], Unframed, &[u8])] = &[
    ("nothing", 0, b"", Unframed::Done, b""),
    ("two channels take turns", 99, b"\x05\x02\x00ab\x06\x01\x01x\x05\x01\x01c", Unframed::Done, b"message 6 78\nmessage 5 616263\n"),
    ("as many bytes as may be", 7, b"\x05\x00\x01\x06\x01\x01\xff", Unframed::Done, b"message 5 -\nmessage 6 ff\n"),
    ("one byte more", 6, b"\x05\x00\x01\x06\x01\x01\xff", Unframed::TooLong, b""),
    ("a block of digits and one more", 99, b"\x00\x11\x01\x01\x23\x45\x67\x89\xab\xcd\xef\x01\x23\x45\x67\x89\xab\xcd\xef\x10",
     Unframed::Done, b"message 0 0123456789abcdef0123456789abcdef10\n"),
    ("a zero behind a number", 99, b"\x80\x00", Unframed::BadFrame, b"bad 0 Number\n"),
    ("cut inside a piece", 99, b"\x05\x02\x01a", Unframed::BadFrame, b"bad 0 Cut\n"),
    ("cut inside a message", 99, b"\x05\x01\x00a", Unframed::BadFrame, b"bad 4 Cut\n"),
    ("a flag of 2 behind a message", 99, b"\x05\x00\x01\x06\x00\x02", Unframed::BadFrame, b"message 5 -\nbad 3 Flag\n"),
    ("a length of 65537", 99, b"\x05\x81\x80\x04", Unframed::BadFrame, b"bad 0 Large\n"),
    ("a wrong piece before too many bytes", 6, b"\x05\x00\x01\x06\x00\x02\x00\x00", Unframed::BadFrame, b"message 5 -\nbad 3 Flag\n"),
];

// What is written of some bytes.
fn run<R: Wait>(rt: &R, alloc: Global, most: usize, bytes: &[u8]) -> (Unframed, Vec<u8>) {
    let mut source = StdSource::new(bytes);
    let mut sink = StdSink::new(Vec::new(alloc));
    let ending = unframe_all(rt, alloc, most, &mut source, &mut sink);
    (ending, sink.into_inner())
}

#[test]
fn rows_are_written(rt: HostRuntime) {
    for &(name, most, bytes, ending, lines) in ROWS {
        let (ended, written) = run(&rt, rt.alloc(), most, bytes);
        assert_eq!(rt;
            (ended, written.as_slice()),
            (ending, lines),
            "in the row {name:?}"
        );
    }
}

// What the row shows, how many bytes may be read, the lines, how it ends, and what was written.
#[rattlefmt::skip]
const FRAMED: &[(&str, usize, &[u8], Framed, &[u8])] = &[
    ("nothing", 0, b"", Framed::Done, b""),
    ("two messages", 99, b"6 78\n5 616263\n", Framed::Done, b"\x06\x01\x01x\x05\x03\x01abc"),
    ("no newline at the end, and no bytes", 99, b"4294967295 -", Framed::Done, b"\xff\xff\xff\xff\x0f\x00\x01"),
    ("a channel of 2^32", 99, b"5 -\n4294967296 -\n6 -\n", Framed::BadLine(2), b"\x05\x00\x01"),
    ("no space", 99, b"5\n", Framed::BadLine(1), b""),
    ("two spaces", 99, b"5  61\n", Framed::BadLine(1), b""),
    ("three digits", 99, b"5 616\n", Framed::BadLine(1), b""),
    ("an empty line", 99, b"5 -\n\n", Framed::BadLine(2), b"\x05\x00\x01"),
    ("a capital digit", 99, b"5 6A\n", Framed::BadLine(1), b""),
    ("as many bytes as may be", 4, b"5 -\n", Framed::Done, b"\x05\x00\x01"),
    ("one byte more", 3, b"5 -\n", Framed::TooLong, b""),
];

// What is written of some lines.
fn run_lines<R: Wait>(rt: &R, alloc: Global, most: usize, lines: &[u8]) -> (Framed, Vec<u8>) {
    let mut source = StdSource::new(lines);
    let mut sink = StdSink::new(Vec::new(alloc));
    let ending = frame_all(rt, alloc, most, &mut source, &mut sink);
    (ending, sink.into_inner())
}

#[test]
fn lines_are_written(rt: HostRuntime) {
    for &(name, most, lines, ending, bytes) in FRAMED {
        let (ended, written) = run_lines(&rt, rt.alloc(), most, lines);
        assert_eq!(rt;
            (ended, written.as_slice()),
            (ending, bytes),
            "in the row {name:?}"
        );
    }
}
