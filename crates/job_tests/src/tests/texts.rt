// Rows of lines, and the lines that are written of them.
use std::test::Fail;
use task_run::run_text;

// What the row shows, the lines, the number of the first wrong one, and what is written.
#[rattlefmt::skip]
const ROWS: &[(&str, &[u8], Option<u64>, &[u8])] = &[
    ("nothing", b"", None, b"left 0\n"),
    ("three tasks", b"6162\n63\n-\n", None, b"task 0 6162\ntask 1 63\ntask 2 -\nleft 0\n"),
    ("no newline at the end", b"6162\n63", None, b"task 0 6162\ntask 1 63\nleft 0\n"),
    ("a single digit", b"6\n", Some(1), b"line 1\n"),
    ("an empty line", b"61\n\n62\n", Some(2), b"line 2\n"),
    ("a capital digit", b"61\n6A\n", Some(2), b"line 2\n"),
    ("a space behind the digits", b"61 \n", Some(1), b"line 1\n"),
    ("a letter behind f", b"-\n6g\n", Some(2), b"line 2\n"),
    ("the first of two wrong lines", b"\n6\n", Some(1), b"line 1\n"),
];

#[test]
fn lines_are_written(rt: HostRuntime) -> Result<(), Fail> {
    for &(name, lines, wrong, written) in ROWS {
        let mut out = Vec::new(rt.alloc());
        let found = run_text(rt.alloc(), lines, &mut out)?;
        assert_eq!(rt;
            (found, out.as_slice()),
            (wrong, written),
            "in the row {name:?}"
        );
    }
    Ok(())
}
