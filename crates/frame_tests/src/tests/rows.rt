// Short streams, and where they are cut.
use super::stage::{are, read};
use frame_io::{FrameFault, Limits, MOST_CHANNELS, MOST_IN_MESSAGE};
use std::test::Fail;

// The limits of `FrameReader::new`.
pub(super) const STANDARD: Limits = Limits {
    channels: MOST_CHANNELS,
    bytes: MOST_IN_MESSAGE,
};

// One channel of two bytes.
const SMALL: Limits = Limits {
    channels: 1,
    bytes: 2,
};

// What the row shows, the limits, the bytes, the messages, the fault at the end, and the offset.
#[rattlefmt::skip]
const ROWS: &[(&str, Limits, &[u8], &[(u32, &[u8])], Option<FrameFault>, u64)] = &[
    ("nothing", STANDARD, b"", &[], None, 0),
    ("two channels take turns", STANDARD, b"\x05\x02\x00ab\x06\x01\x01x\x05\x01\x01c", &[(6, b"x"), (5, b"abc")], None, 13),
    ("an empty message", STANDARD, b"\x05\x00\x01", &[(5, b"")], None, 3),
    ("the greatest channel", STANDARD, b"\xff\xff\xff\xff\x0f\x00\x01", &[(4294967295, b"")], None, 7),
    ("the greatest header", STANDARD, b"\xff\xff\xff\xff\x0f\x80\x00\x01", &[], Some(FrameFault::Number), 0),
    ("a channel of 2^32", STANDARD, b"\xff\xff\xff\xff\x10\x00\x01", &[], Some(FrameFault::Number), 0),
    ("a number of five high bytes", STANDARD, b"\x80\x80\x80\x80\x80", &[], Some(FrameFault::Number), 0),
    ("a number of ten bytes", STANDARD, b"\xff\xff\xff\xff\xff\xff\xff\xff\xff\x01", &[], Some(FrameFault::Number), 0),
    ("a zero behind a channel", STANDARD, b"\x80\x00", &[], Some(FrameFault::Number), 0),
    ("a zero behind a length", STANDARD, b"\x05\x81\x00", &[], Some(FrameFault::Number), 0),
    ("a length of 65537", STANDARD, b"\x05\x81\x80\x04", &[], Some(FrameFault::Large), 0),
    ("a length of 65536", STANDARD, b"\x05\x80\x80\x04", &[], Some(FrameFault::Cut), 0),
    ("a flag of 2", STANDARD, b"\x05\x00\x01\x06\x00\x02", &[(5, b"")], Some(FrameFault::Flag), 3),
    ("cut inside a piece", STANDARD, b"\x05\x02\x01a", &[], Some(FrameFault::Cut), 0),
    ("cut inside a message", STANDARD, b"\x05\x01\x00a", &[], Some(FrameFault::Cut), 4),
    ("cut behind a channel of two bytes", STANDARD, b"\x80\x01", &[], Some(FrameFault::Cut), 0),
    ("a second channel", SMALL, b"\x05\x01\x00a\x06\x01\x00b", &[], Some(FrameFault::Channels), 4),
    ("a last piece opens no channel", SMALL, b"\x05\x01\x00a\x06\x01\x01b\x05\x01\x01c", &[(6, b"b"), (5, b"ac")], None, 12),
    ("a third byte", SMALL, b"\x05\x02\x00ab\x05\x01\x01c", &[], Some(FrameFault::Long), 5),
    ("a fault of the header comes first", SMALL, b"\x05\x03\x02abc", &[], Some(FrameFault::Flag), 0),
    ("a channel too many is seen before its bytes", SMALL, b"\x05\x01\x00a\x06\x01\x00", &[], Some(FrameFault::Channels), 4),
];

#[test]
fn rows_are_read(rt: HostRuntime) -> Result<(), Fail> {
    for &(name, limits, bytes, want, fault, offset) in ROWS {
        let mut messages = Vec::new(rt.alloc());
        let ended = read(rt.alloc(), limits, bytes, &mut messages)?;
        assert_eq!(rt;
            (ended, are(messages.as_slice(), want)),
            ((fault, offset), true),
            "in the row {name:?}"
        );
    }
    Ok(())
}

// Whole pieces, and how many bytes they have.
const FRONTS: &[(&[u8], u64)] = &[
    (b"", 0),
    (b"\x06\x01\x01a", 4),
    (b"\x06\x01\x01a\x80\x01\x00\x01\x05\x02\x01ab", 13),
];

// What stands behind them, the fault that it is, and how many bytes the whole pieces among it have.
#[rattlefmt::skip]
const BAD: &[(&[u8], FrameFault, u64)] = &[
    (b"\x80\x00", FrameFault::Number, 0),
    (b"\x05\xff\xff\xff\xff\xff\xff\xff\xff\xff\x01", FrameFault::Number, 0),
    (b"\x05\x81\x80\x04\x01", FrameFault::Large, 0),
    (b"\x05\x00\x02", FrameFault::Flag, 0),
    (b"\x05\x00\xff", FrameFault::Flag, 0),
    (b"\x05\x01\x00a\x06\x01\x00b", FrameFault::Channels, 4),
    (b"\x05\x03\x01abc", FrameFault::Long, 0),
    (b"\x05\x02\x00ab\x05\x01\x01c", FrameFault::Long, 5),
    (b"\x05", FrameFault::Cut, 0),
    (b"\x05\x02\x01a", FrameFault::Cut, 0),
    (b"\x05\x02\x00ab", FrameFault::Cut, 5),
];

#[test]
fn each_fault_has_its_offset(rt: HostRuntime) -> Result<(), Fail> {
    for &(front, size) in FRONTS {
        for &(behind, fault, whole) in BAD {
            let mut bytes = front.to_vec(rt.alloc())?;
            bytes.extend_from_slice(behind)?;
            let mut messages = Vec::new(rt.alloc());
            let ended = read(rt.alloc(), SMALL, bytes.as_slice(), &mut messages)?;
            assert_eq!(rt;
                ended,
                (Some(fault), size + whole),
                "of {behind:?} behind {size} bytes"
            );
        }
    }
    Ok(())
}

// A stream, its messages, and how many bytes the whole pieces have, with how many messages and whether no channel is open.
const WHOLE: &[u8] = b"\x05\x02\x00ab\x06\x01\x01x\x05\x01\x01c";

const MESSAGES: &[(u32, &[u8])] = &[(6, b"x"), (5, b"abc")];

const ENDS: &[(u64, usize, bool)] = &[(13, 2, true), (9, 1, false), (5, 0, false), (0, 0, true)];

// What is to be read of so many bytes of it.
fn wanted(cut: u64) -> (Option<FrameFault>, u64, usize) {
    for &(end, count, closed) in ENDS {
        if end <= cut {
            let fault = if closed && end == cut {
                None
            } else {
                Some(FrameFault::Cut)
            };
            return (fault, end, count);
        }
    }
    (None, 0, 0)
}

#[test]
fn a_stream_is_cut_behind_each_byte(rt: HostRuntime) -> Result<(), Fail> {
    for cut in 0..=WHOLE.len() {
        let (bytes, _) = WHOLE.split_at(cut);
        let (fault, offset, count) = wanted(cut as u64);
        let (want, _) = MESSAGES.split_at(count.min(MESSAGES.len()));
        let mut messages = Vec::new(rt.alloc());
        let ended = read(rt.alloc(), STANDARD, bytes, &mut messages)?;
        assert_eq!(rt;
            (ended, are(messages.as_slice(), want)),
            ((fault, offset), true),
            "behind {cut} bytes"
        );
    }
    Ok(())
}
