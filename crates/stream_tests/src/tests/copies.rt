// Copies from a stream to a stream.
use crate::tests::base::{
    Why, are_bytes, ended, has_delivered, is_like, is_well, made, pending, stream,
};
use rent_buf::{ByteList, IoFault};
use rent_io::Turned1::{Fault, Grant, Interrupt, Pause};
use rent_io::{ScriptedStream, Step, Turned1};
use std::alloc::Global;
use std::test::Fail;
use stream_util::{Copied, Copy, MOST_HELD, ZeroCopy};

// A copy of `abcde`: its name, the reader's and the writer's script, and its end, what was delivered and the rest.
type Row = (
    &'static str,
    &'static [Turned1],
    &'static [Turned1],
    Result<u64, IoFault>,
    &'static str,
    &'static str,
);

#[rattlefmt::skip]
const COPIES: &[Row] = &[
    ("all at once", &[], &[], Ok(5), "abcde", ""),
    ("a short write, and a fault", &[], &[Grant(2), Fault(5)], Err(IoFault::Os(5)), "ab", "cde"),
    ("a write of none", &[Grant(3)], &[Interrupt, Grant(0)], Err(IoFault::WriteZero), "", "abc"),
    ("a fault of the reader", &[Grant(0), Fault(9)], &[], Err(IoFault::Os(9)), "a", ""),
];

// A copy of what the reader has.
fn run(copy: Copy, reader: &mut ScriptedStream, writer: &mut ScriptedStream) -> Step<Copy, Copied> {
    copy.run(reader, writer, 0, 9)
}

// A copy ended so.
fn is_copied(copied: Copied, want: Result<u64, IoFault>, rest: &str) -> Result<(), Why> {
    is_like("the outcome", copied.result == want)?;
    are_bytes("the rest", copied.rest.as_slice(), rest)
}

// One row.
fn row(alloc: Global, (_, reads, writes, want, delivered, rest): Row) -> Result<(), Why> {
    let mut reader = stream(alloc, b"abcde", reads)?;
    let mut writer = stream(alloc, b"", writes)?;
    let copied = ended(run(Copy::new(alloc)?, &mut reader, &mut writer))?;
    is_copied(copied, want, rest)?;
    has_delivered(&writer, delivered)
}

#[test]
fn copies_end(rt: HostRuntime) -> Result<(), Fail> {
    for each in COPIES {
        is_well(&rt, each.0, row(rt.alloc(), *each));
    }
    Ok(())
}

/// A copy that goes on with what another one held.
pub(crate) fn resumed(rest: ByteList) -> Result<Copy, Why> {
    if rest.len() > MOST_HELD {
        return Err(Why::Unmet);
    }
    made(Copy::resume(rest))
}

// A copy that was ended by a fault, was taken up again, and waits.
fn waiting(
    alloc: Global,
    reader: &mut ScriptedStream,
    writer: &mut ScriptedStream,
) -> Result<Copy, Why> {
    let first = ended(run(Copy::new(alloc)?, reader, writer))?;
    pending(run(resumed(first.rest)?, reader, writer))
}

// What is left of a copy that waited.
fn goes_on(
    copy: Copy,
    reader: &mut ScriptedStream,
    writer: &mut ScriptedStream,
) -> Result<(), Why> {
    are_bytes("what is held", copy.held(), "cde")?;
    is_copied(ended(run(copy, reader, writer))?, Ok(3), "")
}

// A copy that is taken up again.
fn taken_up(alloc: Global) -> Result<(), Why> {
    let mut reader = stream(alloc, b"abcde", &[])?;
    let mut writer = stream(alloc, b"", &[Grant(2), Fault(5), Pause])?;
    let copy = waiting(alloc, &mut reader, &mut writer)?;
    goes_on(copy, &mut reader, &mut writer)?;
    has_delivered(&writer, "abcde")
}

#[test]
fn a_copy_is_taken_up_again(rt: HostRuntime) -> Result<(), Fail> {
    is_well(&rt, "a copy that is taken up", taken_up(rt.alloc()));
    Ok(())
}

// The end of a copy that is polled nine times at most.
fn spliced(
    copy: ZeroCopy,
    reader: &mut ScriptedStream,
    writer: &mut ScriptedStream,
) -> Result<Copied, Why> {
    let mut copy = copy;
    for _ in 0..9 {
        match copy.poll(reader, writer, 0) {
            Step::Ready(copied) => return Ok(copied),
            Step::Pending(next) => copy = next,
            Step::Again(next) => copy = next,
        }
    }
    Err(Why::NotSo)
}

// A copy by splices.
fn splices(alloc: Global) -> Result<(), Why> {
    let mut reader = stream(alloc, b"abc", &[Grant(2)])?;
    let mut writer = stream(alloc, b"", &[Grant(1)])?;
    let copied = spliced(ZeroCopy::new(alloc), &mut reader, &mut writer)?;
    is_copied(copied, Ok(3), "")?;
    has_delivered(&writer, "abc")
}

#[test]
fn splices_copy_all(rt: HostRuntime) -> Result<(), Fail> {
    is_well(&rt, "a copy by splices", splices(rt.alloc()));
    Ok(())
}
