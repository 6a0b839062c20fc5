// Streams of pieces, and the lines that `unframe` writes of them.
use crate::tests::program::{Call, calm, ends_with};
use session_core::Status;

// What the row shows, the bytes, the status, and what was written.
#[rattlefmt::skip]
const ROWS: &[(&str, &[u8], Status, &str)] = &[
    ("nothing", b"", Status::Done, ""),
    ("two channels take turns", b"\x05\x02\x00ab\x06\x01\x01x\x05\x01\x01c", Status::Done, "message 6 78\nmessage 5 616263\n"),
    ("an empty message", b"\x05\x00\x01", Status::Done, "message 5 -\n"),
    ("a zero behind a number", b"\x80\x00", Status::BadFrame, "bad 0 Number\n"),
    ("cut inside a piece", b"\x05\x02\x01a", Status::BadFrame, "bad 0 Cut\n"),
    ("cut inside a message", b"\x05\x01\x00a", Status::BadFrame, "bad 4 Cut\n"),
    ("a flag of 2 behind a message", b"\x05\x00\x01\x06\x00\x02", Status::BadFrame, "message 5 -\nbad 3 Flag\n"),
];

#[test]
fn messages_are_written(rt: HostRuntime) {
    for &(name, bytes, status, lines) in ROWS {
        assert_eq!(rt;
            ends_with(
                &rt,
                rt.alloc(),
                calm("unframe", bytes),
                status,
                lines.as_bytes()
            ),
            Ok(()),
            "in the row {name:?}"
        );
    }
}

// A message and a wrong piece, of which one call fails: the read, the write or flush, the status, and what was written.
#[rattlefmt::skip]
const FAULTS: &[(Option<u64>, Option<u64>, Status, &str)] = &[
    (Some(0), None, Status::ReadFault, ""),
    (None, Some(0), Status::WriteFault, ""),
    (None, Some(1), Status::WriteFault, "message 5 -\nbad 3 Flag\n"),
];

#[test]
fn a_call_that_fails_has_its_status(rt: HostRuntime) {
    for &(read, write, status, lines) in FAULTS {
        let call = Call {
            words: "unframe",
            input: b"\x05\x00\x01\x06\x00\x02",
            read,
            write,
        };
        assert_eq!(rt;
            ends_with(&rt, rt.alloc(), call, status, lines.as_bytes()),
            Ok(()),
            "of {read:?} and {write:?}"
        );
    }
}
