// A stream that answers short, pauses, is interrupted or fails at each of its first calls.
use super::stage::{are, read_all};
use frame_io::{FrameFault, FrameReader, MessagePoll};
use rent_buf::ByteList;
use rent_io::{ScriptedStream, Turned1};
use std::alloc::Global;
use std::test::Fail;
use stream_util::BufReader;

const BYTES: &[u8] = b"\x85\x01\x02\x00ab\x06\x01\x01x\x85\x01\x01\x01c";

const MESSAGES: &[(u32, &[u8])] = &[(6, b"x"), (133, b"abc")];

// A reader of the stream, through a buffer of so many bytes.
fn reader(
    alloc: Global,
    capacity: usize,
    script: &[Turned1],
) -> Result<FrameReader<BufReader<ScriptedStream>>, Fail> {
    let input = ByteList::from_vec(BYTES.to_vec(alloc)?);
    let stream = ScriptedStream::new(alloc, input, script.to_vec(alloc)?);
    match BufReader::with_capacity(alloc, capacity, stream) {
        Ok(buffered) => Ok(FrameReader::new(alloc, buffered)),
        Err(_) => Err(Fail::from("out of memory")),
    }
}

// A script that grants two bytes a call, and at one call does this.
fn script(alloc: Global, place: usize, turn: Turned1) -> Result<Vec<Turned1>, Fail> {
    let mut script = Vec::new(alloc);
    for at in 0..12 {
        let next = if at == place { turn } else { Turned1::Grant(2) };
        script.push(next)?;
    }
    Ok(script)
}

#[test]
fn no_schedule_changes_what_is_read(rt: HostRuntime) -> Result<(), Fail> {
    for capacity in [1, 2, 3, 16] {
        for place in 0..12 {
            for turn in [
                Turned1::Grant(1),
                Turned1::Pause,
                Turned1::Interrupt,
                Turned1::Fault(5),
            ] {
                let script = script(rt.alloc(), place, turn)?;
                let mut reader = reader(rt.alloc(), capacity, script.as_slice())?;
                let mut messages = Vec::new(rt.alloc());
                let mut faults = 0;
                let ended = read_all(&mut reader, &mut messages, &mut faults)?;
                assert_eq!(rt;
                    (ended, are(messages.as_slice(), MESSAGES)),
                    ((None, 15), true),
                    "at {place}, by {capacity}"
                );
            }
        }
    }
    Ok(())
}

// The fault of one poll, where it is one.
fn fault_of(poll: MessagePoll) -> Option<FrameFault> {
    match poll {
        MessagePoll::Fault(fault) => Some(fault),
        _ => None,
    }
}

#[test]
fn a_drive_gives_all_messages(rt: HostRuntime) -> Result<(), Fail> {
    let mut reader = reader(rt.alloc(), 4, &[Turned1::Fault(5), Turned1::Pause])?;
    let mut messages = Vec::new(rt.alloc());
    let first = fault_of(reader.drive(&mut messages, 0, 99));
    let last = reader.drive(&mut messages, 0, 99);
    let ended = match last {
        MessagePoll::End => true,
        _ => false,
    };
    assert_eq!(rt;
        (first.is_some(), ended, messages.len(), reader.offset()),
        (true, true, 2, 15)
    );
    Ok(())
}
