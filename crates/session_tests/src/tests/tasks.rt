// Lines of bytes, and the lines that `tasks` writes of their jobs.
use crate::tests::program::{Call, calm, ends_with};
use session_core::Status;
use std::alloc::{AllocError, Global};
use std::fmt::Write as _;

// What the row shows, the lines, the status, and what was written.
#[rattlefmt::skip]
const ROWS: &[(&str, &[u8], Status, &str)] = &[
    ("three jobs", b"6162\n63\n-\n", Status::Done, "task 0 6162\ntask 1 63\ntask 2 -\nleft 0\n"),
    ("an empty input", b"", Status::Done, "left 0\n"),
    ("half a byte", b"6\n", Status::BadLine, "line 1\n"),
    ("an empty line behind a job", b"61\n\n", Status::BadLine, "line 2\n"),
    ("a capital digit", b"6A\n", Status::BadLine, "line 1\n"),
];

#[test]
fn jobs_are_written(rt: HostRuntime) {
    for &(name, lines, status, written) in ROWS {
        assert_eq!(rt;
            ends_with(
                &rt,
                rt.alloc(),
                calm("tasks", lines),
                status,
                written.as_bytes()
            ),
            Ok(()),
            "in the row {name:?}"
        );
    }
}

// A random list of so many lines, of up to 15 bytes each, and what is written of it.
fn list_of(alloc: Global, seed: u32, count: u32) -> Result<(String, String), AllocError> {
    let mut lines = String::new(alloc);
    let mut written = String::new(alloc);
    let mut random = seed;
    for t in 0..count {
        let mut word = String::new(alloc);
        random = random.wrapping_mul(1664525).wrapping_add(1013904223);
        for _ in 0..random >> 28 {
            random = random.wrapping_mul(1664525).wrapping_add(1013904223);
            let _ = write!(word, "{:02x}", random >> 24);
        }
        if word.is_empty() {
            word.push('-')?;
        }
        let _ = writeln!(lines, "{word}");
        let _ = writeln!(written, "task {t} {word}");
    }
    written.push_str("left 0\n")?;
    Ok((lines, written))
}

#[test]
fn no_job_of_random_lists_is_left(rt: HostRuntime) -> Result<(), std::test::Fail> {
    for seed in 1..=200 {
        let count = if seed < 200 { seed % 20 } else { seed };
        let (lines, written) = list_of(rt.alloc(), seed, count)?;
        assert_eq!(rt;
            ends_with(
                &rt,
                rt.alloc(),
                calm("tasks", lines.as_bytes()),
                Status::Done,
                written.as_bytes()
            ),
            Ok(()),
            "of the list {seed}"
        );
    }
    Ok(())
}

// A right line or a wrong one, the read that fails, the write or flush that does, the status, and what was written.
#[rattlefmt::skip]
const FAULTS: &[(&[u8], Option<u64>, Option<u64>, Status, &str)] = &[
    (b"61\n", Some(0), None, Status::ReadFault, ""),
    (b"61\n", None, Some(0), Status::WriteFault, ""),
    (b"61\n", None, Some(1), Status::WriteFault, "task 0 61\nleft 0\n"),
    (b"6\n", None, Some(0), Status::WriteFault, ""),
];

#[test]
fn a_call_that_fails_has_its_status(rt: HostRuntime) {
    for &(input, read, write, status, written) in FAULTS {
        let call = Call {
            words: "tasks",
            input,
            read,
            write,
        };
        assert_eq!(rt;
            ends_with(&rt, rt.alloc(), call, status, written.as_bytes()),
            Ok(()),
            "of {read:?} and {write:?}"
        );
    }
}
