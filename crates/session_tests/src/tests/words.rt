// How runs end: an input or words that are wrong, and a read, a write or a flush that fails.
use crate::tests::program::{Case, case_holds};
use session_core::Status;

// A name, the words, the input, the status, and what was written.
#[rattlefmt::skip]
const ENDS: [(&str, &str, &str, Status, &str); 9] = [
    ("an empty input", "run 4", "", Status::Done, ""),
    ("the capacity 0", "run 0", "", Status::BadWords, ""),
    ("a capacity with a leading zero", "run 04", "", Status::BadWords, ""),
    ("a capacity past its type", "run 4294967296", "", Status::BadWords, ""),
    ("the greatest capacity", "run 4294967295", "", Status::Done, ""),
    ("an empty line", "run 4", "give stream;;", Status::BadLine, "line 2;"),
    ("no turn", "ready", "give stream;turn", Status::BadLine, "line 2;"),
    ("no execution", "ready", "exec 0 ok 0;turn", Status::BadLine, "line 1;"),
    ("an empty input", "ready", "", Status::Done, ""),
];

#[test]
fn ends(rt: HostRuntime) {
    for (name, words, input, status, output) in ENDS {
        let case = (words, input, None, None, status, output);
        assert_eq!(rt;
            case_holds(&rt, rt.alloc(), case),
            Ok(()),
            "in the row {name:?}"
        );
    }
}

// Words, an input, a read that fails, a write or flush that fails, the status, and what was written.
#[rattlefmt::skip]
const FAULTS: [Case; 8] = [
    ("run 4", "give stream;", Some(0), None, Status::ReadFault, ""),
    ("run 4", "give stream;", Some(1), None, Status::ReadFault, ""),
    ("run 4", "give stream;", None, Some(0), Status::WriteFault, ""),
    ("run 4", "give stream;", None, Some(1), Status::WriteFault, "handle 0;"),
    ("run 4", "no event;", None, Some(0), Status::WriteFault, ""),
    ("run 4", "no event;", None, Some(1), Status::WriteFault, "line "),
    ("run 4", "no event;", None, Some(3), Status::WriteFault, "line 1;"),
    ("run 4", "give stream;submit recv 0 v 18446744073709551615 0 0 -;", None, None, Status::OutOfMemory, "handle 0;"),
];

#[test]
fn faults(rt: HostRuntime) {
    for case in FAULTS {
        assert_eq!(rt;
            case_holds(&rt, rt.alloc(), case),
            Ok(()),
            "for {:?}",
            case.1
        );
    }
}

// The same of `gen` and `wake`, which read nothing, and of words that are no command's.
#[rattlefmt::skip]
const WORDS: [Case; 33] = [
    ("gen 1 5", "", None, None, Status::Done, "events 36 refused 1 ready 4;"),
    ("gen 0 0", "", None, None, Status::Done, "events 1 refused 0 ready 0;"),
    ("gen 2147483647 0", "", None, None, Status::Done, "events 1 refused 0 ready 0;"),
    ("gen 2147483648 0", "", None, None, Status::BadWords, ""),
    ("gen 0 100001", "", None, None, Status::BadWords, ""),
    ("gen 00 1", "", None, None, Status::BadWords, ""),
    ("gen 0", "", None, None, Status::BadWords, ""),
    ("gen 1 1 --events", "", None, None, Status::Done, "give stream;feed 0 00000000000000;submit recv 0 v 8 0 8 -;poll 0 0;turn;exec 0 ok 7;turn;poll 0 0;"),
    ("gen 0 0 --events", "", None, None, Status::Done, "give stream;"),
    ("gen 0 0 --events", "", None, Some(0), Status::WriteFault, ""),
    ("gen 0 0 --event", "", None, None, Status::BadWords, ""),
    ("gen 0 100001 --events", "", None, None, Status::BadWords, ""),
    ("run 0 0 --events", "", None, None, Status::BadWords, ""),
    ("gen 1 5", "", None, Some(0), Status::WriteFault, ""),
    ("gen 1 5", "", None, Some(1), Status::WriteFault, "events 36 refused 1 ready 4;"),
    ("run", "", None, None, Status::BadWords, ""),
    ("run 4 4", "", None, None, Status::BadWords, ""),
    ("ready 4", "", None, None, Status::BadWords, ""),
    ("unframe 4", "", None, None, Status::BadWords, ""),
    ("Unframe", "", None, None, Status::BadWords, ""),
    ("tasks 4", "", None, None, Status::BadWords, ""),
    ("Tasks", "", None, None, Status::BadWords, ""),
    ("Ready", "", None, None, Status::BadWords, ""),
    ("Run 4", "", None, None, Status::BadWords, ""),
    ("wake 2 3", "", None, None, Status::Done, "drained 6;"),
    ("wake 0 3", "", None, None, Status::Done, "drained 0;"),
    ("wake 3 0", "", None, None, Status::Done, "drained 0;"),
    ("wake 64 2", "", None, None, Status::Done, "drained 128;"),
    ("wake 65 1", "", None, None, Status::BadWords, ""),
    ("wake 1 100001", "", None, None, Status::BadWords, ""),
    ("wake 01 1", "", None, None, Status::BadWords, ""),
    ("wake 2", "", None, None, Status::BadWords, ""),
    ("wake 2 3", "", None, Some(0), Status::WriteFault, ""),
];

#[test]
fn commands_that_read_nothing(rt: HostRuntime) {
    for case in WORDS {
        assert_eq!(rt;
            case_holds(&rt, rt.alloc(), case),
            Ok(()),
            "for {:?}",
            case.0
        );
    }
}

// The longest run that `gen` makes. It is long where it isn't compiled.
#[rattlefmt::skip]
const LONGEST: Case = ("gen 7 100000", "", None, None, Status::Done, "events 700001 refused 25093 ready 74907;");

#[test]
fn the_longest_run_is_generated(rt: HostRuntime) {
    assert_eq!(rt; case_holds(&rt, rt.alloc(), LONGEST), Ok(()));
}

// The same of `copy`, for the input `cd`.
#[rattlefmt::skip]
const COPIES: [Case; 13] = [
    ("copy 8 6162", "cd", None, None, Status::Done, "abcd"),
    ("copy 16777216 -", "cd", None, None, Status::Done, "cd"),
    ("copy 1 6162", "cd", Some(0), None, Status::ReadFault, "ab"),
    ("copy 8 6162", "cd", None, Some(0), Status::WriteFault, ""),
    ("copy 8 6162", "cd", None, Some(1), Status::WriteFault, "abcd"),
    ("copy 0 -", "cd", None, None, Status::BadWords, ""),
    ("copy 16777217 -", "cd", None, None, Status::BadWords, ""),
    ("copy 08 -", "cd", None, None, Status::BadWords, ""),
    ("copy 8 616", "cd", None, None, Status::BadWords, ""),
    ("copy 8 6A", "cd", None, None, Status::BadWords, ""),
    ("copy 8 ", "cd", None, None, Status::BadWords, ""),
    ("copy 8", "cd", None, None, Status::BadWords, ""),
    ("copy 8 61 62", "cd", None, None, Status::BadWords, ""),
];

#[test]
fn copies(rt: HostRuntime) {
    for case in COPIES {
        assert_eq!(rt;
            case_holds(&rt, rt.alloc(), case),
            Ok(()),
            "for {:?}",
            case.0
        );
    }
}
