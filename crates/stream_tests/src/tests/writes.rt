// A write that takes two polls; and the texts of faults.
use crate::tests::base::{
    Why, again, are_bytes, ended, has_delivered, is_outcome, is_well, made, stream, vec_of,
};
use rent_io::Turned1::Grant;
use rent_io::{IoFault, ScriptedStream, WriteAll};
use std::alloc::Global;
use std::test::Fail;

// The state of a write after a poll that wrote some of its bytes.
fn write_some(io: &mut ScriptedStream, bytes: Vec<u8>) -> Result<WriteAll<Vec<u8>>, Why> {
    again(WriteAll::new(bytes).poll(io, 0))
}

// The outcome of a write after one more poll.
fn outcome_of(
    io: &mut ScriptedStream,
    state: WriteAll<Vec<u8>>,
) -> Result<Result<usize, IoFault>, Why> {
    let (outcome, _) = ended(state.poll(io, 0))?;
    Ok(outcome)
}

// A write by two polls.
fn written_by_two(alloc: Global) -> Result<(), Why> {
    let mut io = stream(alloc, b"", &[Grant(2), Grant(0)])?;
    let state = write_some(&mut io, vec_of(alloc, "abc")?)?;
    is_outcome(outcome_of(&mut io, state)?, Err(IoFault::WriteZero))?;
    has_delivered(&io, "ab")
}

#[test]
fn a_write_of_some_bytes_asks_for_another_poll(rt: HostRuntime) -> Result<(), Fail> {
    is_well(&rt, "a write by two polls", written_by_two(rt.alloc()));
    Ok(())
}

// A fault, and its text.
#[rattlefmt::skip]
const TEXTS: &[(IoFault, &str)] = &[
    (IoFault::Os(104), "os error 104"),
    (IoFault::UnexpectedEof, "failed to fill whole buffer"),
    (IoFault::WriteZero, "failed to write whole buffer"),
    (IoFault::InvalidData, "stream did not contain valid UTF-8"),
    (IoFault::ReadFault, "ReadFault"),
    (IoFault::WriteFault, "WriteFault"),
    (IoFault::OutOfMemory, "OutOfMemory"),
];

// A fault has this text.
fn has_text(alloc: Global, fault: IoFault, want: &str) -> Result<(), Why> {
    let text = made(format!(in alloc; "{fault}"))?;
    are_bytes("the text", text.as_bytes(), want)
}

#[test]
fn faults_have_their_texts(rt: HostRuntime) -> Result<(), Fail> {
    for &(fault, want) in TEXTS {
        is_well(&rt, want, has_text(rt.alloc(), fault, want));
    }
    Ok(())
}
