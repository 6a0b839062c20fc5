// The one-read run with each of its calls failing in turn, and cut behind each of its bytes; a run of two pieces; the longest inputs.
use crate::tests::program::{Call, Why, calm, ends_long, ends_with};
use crate::tests::text::lines_of;
use session_core::Status;
use std::alloc::{AllocError, Global};
use std::rt::Clock;
use std::sync::Wait;
use std::thread::Threads;

// The lines of the run, each ended by `;`, and their replies.
const INPUT: &str = "give stream;submit recv 0 v 4 0 4 -;poll 0 7;feed 0 6162;turn;exec 0 ok 2;\
    poll 0 7;turn;poll 0 7;poll 0 7;";

#[rattlefmt::skip]
const REPLIES: [&str; 10] = [
    "handle 0\n", "op 0\n", "pending\n", "fed\n", "turned - - -\n", "executed op 0\n",
    "pending\n", "turned 0 - 7\n", "ready ok 2 v 4 0 4 6162\n", "refused NoOp\n",
];

// The first bytes of the run's input.
fn cut(alloc: Global, count: usize) -> Result<Vec<u8>, AllocError> {
    let input = lines_of(alloc, INPUT)?;
    let mut bytes = Vec::new(alloc);
    for byte in input.as_slice().iter().take(count) {
        bytes.push(*byte)?;
    }
    Ok(bytes)
}

// The first replies of the run.
fn first_replies(alloc: Global, count: usize) -> Result<Vec<u8>, AllocError> {
    let mut bytes = Vec::new(alloc);
    for reply in REPLIES.iter().take(count) {
        bytes.extend_from_slice(reply.as_bytes())?;
    }
    Ok(bytes)
}

// A read and a write that fail, the status, and how many replies are written. The run makes two reads, a write and a flush, so no
// third call fails.
#[rattlefmt::skip]
const CALLS: [(Option<u64>, Option<u64>, Status, usize); 6] = [
    (Some(0), None, Status::ReadFault, 0),
    (Some(1), None, Status::ReadFault, 0),
    (Some(2), None, Status::Done, 10),
    (None, Some(0), Status::WriteFault, 0),
    (None, Some(1), Status::WriteFault, 10),
    (None, Some(2), Status::Done, 10),
];

// The run, of which a read and a write fail, ends with this status, and writes so many replies.
fn replies_first<R: Threads + Wait + Clock + Sync>(
    rt: &R,
    alloc: Global,
    (read, write, status, count): (Option<u64>, Option<u64>, Status, usize),
) -> Result<(), Why> {
    let input = cut(alloc, INPUT.len())?;
    let written = first_replies(alloc, count)?;
    let call = Call {
        words: "run 1",
        input: input.as_slice(),
        read,
        write,
    };
    ends_with(rt, alloc, call, status, written.as_slice())
}

#[test]
fn each_call_fails_in_turn(rt: HostRuntime) {
    for row in CALLS {
        let (read, write) = (row.0, row.1);
        assert_eq!(rt;
            replies_first(&rt, rt.alloc(), row),
            Ok(()),
            "read {read:?}, write {write:?}"
        );
    }
}

// Lines whose replies are written in two pieces: `handle 0`, `fed` and the first `output`, then the second one.
fn looks(alloc: Global) -> Result<Vec<u8>, AllocError> {
    let mut lines = Vec::new(alloc);
    lines.extend_from_slice(b"give file\nfeed 0 ")?;
    lines.extend_from_slice(vec![in alloc; b'6'; 65536]?.as_slice())?;
    lines.extend_from_slice(b"\nlook 0\nlook 0\n")?;
    Ok(lines)
}

// A write or a flush that fails, the status, and how many bytes are written.
#[rattlefmt::skip]
const PIECES: [(u64, Status, usize); 4] = [
    (0, Status::WriteFault, 0),
    (1, Status::WriteFault, 65557),
    (2, Status::WriteFault, 131101),
    (3, Status::Done, 131101),
];

// The run of two pieces, of which a write or a flush fails, ends with this status, and writes so many bytes.
fn writes_first<R: Threads + Wait + Clock + Sync>(
    rt: &R,
    alloc: Global,
    (write, status, count): (u64, Status, usize),
) -> Result<(), Why> {
    let input = looks(alloc)?;
    let call = Call {
        words: "run 1",
        input: input.as_slice(),
        read: None,
        write: Some(write),
    };
    ends_long(rt, alloc, call, status, count)
}

#[test]
fn each_piece_fails_in_turn(rt: HostRuntime) {
    for row in PIECES {
        assert_eq!(rt;
            writes_first(&rt, rt.alloc(), row),
            Ok(()),
            "at write {:?}",
            row.0
        );
    }
}

// The run cut behind so many bytes: from the first to the last such number it has this many replies, or this line of it is wrong.
// `feed 0 61` is a line that ends early.
#[rattlefmt::skip]
const CUTS: [(usize, usize, Result<usize, u64>); 23] = [
    (0, 0, Ok(0)),
    (1, 10, Err(1)),
    (11, 12, Ok(1)),
    (13, 34, Err(2)),
    (35, 36, Ok(2)),
    (37, 43, Err(3)),
    (44, 45, Ok(3)),
    (46, 53, Err(4)),
    (54, 54, Ok(4)),
    (55, 55, Err(4)),
    (56, 57, Ok(4)),
    (58, 60, Err(5)),
    (61, 62, Ok(5)),
    (63, 72, Err(6)),
    (73, 74, Ok(6)),
    (75, 81, Err(7)),
    (82, 83, Ok(7)),
    (84, 86, Err(8)),
    (87, 88, Ok(8)),
    (89, 95, Err(9)),
    (96, 97, Ok(9)),
    (98, 104, Err(10)),
    (105, 106, Ok(10)),
];

// What is written of a cut: replies, or the line that is wrong.
fn written(alloc: Global, cut: Result<usize, u64>) -> Result<Vec<u8>, AllocError> {
    match cut {
        Ok(count) => first_replies(alloc, count),
        Err(line) => Ok(format!(in alloc; "line {line}\n")?.into_bytes()),
    }
}

// The run cut behind so many bytes ends so.
fn cut_ends<R: Threads + Wait + Clock + Sync>(
    rt: &R,
    alloc: Global,
    count: usize,
    want: Result<usize, u64>,
) -> Result<(), Why> {
    let input = cut(alloc, count)?;
    let output = written(alloc, want)?;
    let status = if want.is_ok() {
        Status::Done
    } else {
        Status::BadLine
    };
    ends_with(
        rt,
        alloc,
        calm("run 1", input.as_slice()),
        status,
        output.as_slice(),
    )
}

#[test]
fn a_cut_run_is_done_or_has_a_wrong_line(rt: HostRuntime) {
    for (first, last, want) in CUTS {
        for count in first..=last {
            assert_eq!(rt;
                cut_ends(&rt, rt.alloc(), count, want),
                Ok(()),
                "cut behind {count}"
            );
        }
    }
}

// Words, how many newlines they read, the status, and how many bytes are written: `line 1` of a run.
#[rattlefmt::skip]
const LONG: [(&str, usize, Status, usize); 6] = [
    ("run 4", 16777216, Status::BadLine, 7),
    ("run 4", 16777217, Status::TooLong, 0),
    ("ready", 16777216, Status::BadLine, 7),
    ("ready", 16777217, Status::TooLong, 0),
    ("copy 16777216 -", 16777216, Status::Done, 16777216),
    ("copy 16777216 -", 16777217, Status::TooLong, 0),
];

// A run of so many newlines ends with this status, and writes so many bytes.
fn newlines_end<R: Threads + Wait + Clock + Sync>(
    rt: &R,
    alloc: Global,
    (words, count, status, written): (&str, usize, Status, usize),
) -> Result<(), Why> {
    let input = vec![in alloc; b'\n'; count]?;
    ends_long(rt, alloc, calm(words, input.as_slice()), status, written)
}

#[test]
fn an_input_of_one_byte_too_many_is_refused(rt: HostRuntime) {
    for row in LONG {
        assert_eq!(rt;
            newlines_end(&rt, rt.alloc(), row),
            Ok(()),
            "for {:?}",
            row.0
        );
    }
}
