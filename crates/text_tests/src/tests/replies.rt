// The texts of replies, of words of bytes, and of errors.
use event_text::{LinesError, count_bytes, read_bytes, write_reply};
use machine::{Outcome, Refusal, Reply};
use rent_buf::{BufSpec, ByteList, HeldBuf, Kind, MessageList, NumList, OutOfMemory, PartsSpec};
use std::alloc::{AllocError, Global};
use std::test::Fail;

#[test]
fn errors_are_written_as_their_names(rt: HostRuntime) -> Result<(), Fail> {
    for (error, want) in [
        (LinesError::BadLine(3), "BadLine"),
        (LinesError::OutOfMemory, "OutOfMemory"),
    ] {
        assert_eq!(rt; format!(in rt.alloc(); "{error}")?.as_str(), want);
    }
    Ok(())
}

// Words of bytes, and what they write, if anything.
#[rattlefmt::skip]
const WORDS: [(&[u8], Option<&[u8]>); 5] = [
    (b"-", Some(b"")),
    (b"00ff", Some(b"\x00\xff")),
    (b"", None),
    (b"616", None),
    (b"6G", None),
];

#[test]
fn words_of_bytes(rt: HostRuntime) -> Result<(), Fail> {
    for (word, want) in WORDS {
        let read = read_bytes(rt.alloc(), word)?;
        assert_eq!(rt; read.as_ref().map(ByteList::as_slice), want, "at {word:?}");
        assert_eq!(rt;
            count_bytes(word),
            want.map(|bytes| bytes.len()),
            "at {word:?}"
        );
    }
    Ok(())
}

// A reply's text is this.
fn is_text(alloc: Global, reply: &Reply, want: &[u8]) -> Result<bool, OutOfMemory> {
    let mut out = Vec::new(alloc);
    write_reply(reply, &mut out)?;
    Ok(out.as_slice() == want)
}

// Replies that hold no memory, and their texts.
#[rattlefmt::skip]
const PLAIN: [(Reply, &[u8]); 24] = [
    (Reply::Handle(3), b"handle 3"),
    (Reply::Fed, b"fed"),
    (Reply::Ended, b"ended"),
    (Reply::Released, b"released"),
    (Reply::Submitted(10), b"op 10"),
    (Reply::CanceledAtOnce(HeldBuf::Nothing), b"canceled -"),
    (Reply::Pending, b"pending"),
    (Reply::Handed(Outcome::Count(0), HeldBuf::Nothing), b"ready ok 0 -"),
    (Reply::Handed(Outcome::Fail(2), HeldBuf::Nothing), b"ready err 2 -"),
    (Reply::Handed(Outcome::Made(10), HeldBuf::Nothing), b"ready made 10 -"),
    (Reply::Dropped, b"dropped"),
    (Reply::Asked, b"asked"),
    (Reply::Canceller(6), b"canceller 6"),
    (Reply::CancelHandle(7), b"cancelhandle 7"),
    (Reply::ExecutedOp(5), b"executed op 5"),
    (Reply::ExecutedClose(5), b"executed close 5"),
    (Reply::Refused(Refusal::NoOp), b"refused NoOp"),
    (Reply::Refused(Refusal::NoCanceller), b"refused NoCanceller"),
    (Reply::Refused(Refusal::NoHandle), b"refused NoHandle"),
    (Reply::Refused(Refusal::Full), b"refused Full"),
    (Reply::Refused(Refusal::NotFlying), b"refused NotFlying"),
    (Reply::Refused(Refusal::Waiting), b"refused Waiting"),
    (Reply::Refused(Refusal::BadOutcome), b"refused BadOutcome"),
    (Reply::Refused(Refusal::BadHandleEvent), b"refused BadHandleEvent"),
];

#[test]
fn plain_replies(rt: HostRuntime) -> Result<(), Fail> {
    for (reply, want) in PLAIN {
        assert!(rt; is_text(rt.alloc(), &reply, want)?, "at {want:?}");
    }
    Ok(())
}

// Bytes that were sent to a handle, and the text of the reply.
const OUTPUTS: [(&[u8], &[u8]); 2] = [(b"hello", b"output 68656c6c6f"), (b"", b"output -")];

// Messages that were sent from a handle, and the text of the reply.
#[rattlefmt::skip]
const MESSAGES: [(&[(Option<u64>, &[u8])], &[u8]); 3] = [
    (&[(None, b"x")], b"messages 1 - 78"),
    (&[], b"messages 0"),
    (&[(Some(5), b"ab"), (None, b""), (Some(0), b"z")], b"messages 3 5 6162 - - 0 7a"),
];

// The lists of a turn, and the text of the reply.
#[rattlefmt::skip]
const TURNS: [(&[u64], &[u64], &[u64], &[u8]); 3] = [
    (&[0, 12], &[], &[7], b"turned 0,12 - 7"),
    (&[], &[3, 18446744073709551615], &[], b"turned - 3,18446744073709551615 -"),
    (&[1], &[2], &[3, 4, 5], b"turned 1 2 3,4,5"),
];

// The operations whose cancels were asked for together, and the text of the reply.
const CANCELS: [(&[u64], &[u8]); 2] = [(&[0, 12], b"cancels 0,12"), (&[], b"cancels -")];

#[test]
fn outputs(rt: HostRuntime) -> Result<(), Fail> {
    for (sent, want) in OUTPUTS {
        let output = Reply::Output(bytes(rt.alloc(), sent)?);
        assert!(rt; is_text(rt.alloc(), &output, want)?, "at {want:?}");
    }
    Ok(())
}

#[test]
fn sent_messages(rt: HostRuntime) -> Result<(), Fail> {
    for (sent, want) in MESSAGES {
        let messages = Reply::Messages(messages(rt.alloc(), sent)?);
        assert!(rt; is_text(rt.alloc(), &messages, want)?, "at {want:?}");
    }
    Ok(())
}

#[test]
fn cancels(rt: HostRuntime) -> Result<(), Fail> {
    for (canceled, want) in CANCELS {
        let cancels = Reply::Cancels(numbers(rt.alloc(), canceled)?);
        assert!(rt; is_text(rt.alloc(), &cancels, want)?, "at {want:?}");
    }
    Ok(())
}

#[test]
fn turns(rt: HostRuntime) -> Result<(), Fail> {
    for (reaped, closed, woken, want) in TURNS {
        let turned = turned(rt.alloc(), reaped, closed, woken)?;
        assert!(rt; is_text(rt.alloc(), &turned, want)?, "at {want:?}");
    }
    Ok(())
}

fn bytes(alloc: Global, list: &[u8]) -> Result<ByteList, AllocError> {
    Ok(ByteList::from_vec(Vec::from_slice(alloc, list)?))
}

fn messages(alloc: Global, list: &[(Option<u64>, &[u8])]) -> Result<MessageList, OutOfMemory> {
    let mut messages = MessageList::new(alloc);
    for (address, text) in list {
        messages.push((*address, bytes(alloc, *text)?))?;
    }
    Ok(messages)
}

fn numbers(alloc: Global, list: &[u64]) -> Result<NumList, AllocError> {
    Ok(NumList::from_vec(Vec::from_slice(alloc, list)?))
}

fn turned(
    alloc: Global,
    reaped: &[u64],
    closed: &[u64],
    woken: &[u64],
) -> Result<Reply, AllocError> {
    let reaped = numbers(alloc, reaped)?;
    let closed = numbers(alloc, closed)?;
    Ok(Reply::Turned(reaped, closed, numbers(alloc, woken)?))
}

// The kind and the bytes of a buffer of total 4 and range 0 to 4, and the text of the reply that returns it.
#[rattlefmt::skip]
const BUFFERS: [(Outcome, Kind, &[u8], &[u8]); 4] = [
    (Outcome::Count(2), Kind::Vector, b"ab", b"ready ok 2 v 4 0 4 6162"),
    (Outcome::From(2, 5), Kind::Vector, b"ab", b"ready from 2 5 v 4 0 4 6162"),
    (Outcome::Fail(125), Kind::Grown, b"", b"ready err 125 g 4 0 4 -"),
    (Outcome::Count(0), Kind::Fixed, b"abcd", b"ready ok 0 b 4 0 4 61626364"),
];

// The rooms and bytes of parts, and the text of the reply that returns them.
#[rattlefmt::skip]
const PARTS: [(Outcome, &[(usize, &[u8])], &[u8]); 2] = [
    (Outcome::Count(4), &[(2, b"ab"), (3, b""), (4, b"z")], b"ready ok 4 p 3 2 6162 3 - 4 7a"),
    (Outcome::Fail(104), &[], b"ready err 104 p 0"),
];

// A buffer of total 4 and range 0 to 4, of a kind and with these bytes.
fn buffer(alloc: Global, kind: Kind, list: &[u8]) -> Result<HeldBuf, Fail> {
    let list = bytes(alloc, list)?;
    match BufSpec::new(kind, 4, 0, 4, list) {
        Some(buffer) => Ok(HeldBuf::One(buffer)),
        None => Err(Fail::from("no buffer")),
    }
}

// Parts of these rooms and bytes.
fn held_parts(alloc: Global, pairs: &[(usize, &[u8])]) -> Result<HeldBuf, Fail> {
    match parts(alloc, pairs)? {
        Some(parts) => Ok(HeldBuf::Parts(parts)),
        None => Err(Fail::from("no parts")),
    }
}

// The text of the reply that returns what was held is this.
fn is_handed(
    alloc: Global,
    outcome: Outcome,
    held: HeldBuf,
    want: &[u8],
) -> Result<bool, OutOfMemory> {
    is_text(alloc, &Reply::Handed(outcome, held), want)
}

// The text of the reply that returns at once what was held is this.
fn is_canceled(alloc: Global, held: HeldBuf, want: &[u8]) -> Result<bool, OutOfMemory> {
    is_text(alloc, &Reply::CanceledAtOnce(held), want)
}

#[test]
fn returned_buffers(rt: HostRuntime) -> Result<(), Fail> {
    for (outcome, kind, list, want) in BUFFERS {
        let held = buffer(rt.alloc(), kind, list)?;
        let handed = is_handed(rt.alloc(), outcome, held, want)?;
        assert!(rt; handed, "at {want:?}");
    }
    Ok(())
}

#[test]
fn returned_parts(rt: HostRuntime) -> Result<(), Fail> {
    for (outcome, pairs, want) in PARTS {
        let held = held_parts(rt.alloc(), pairs)?;
        let handed = is_handed(rt.alloc(), outcome, held, want)?;
        assert!(rt; handed, "at {want:?}");
    }
    Ok(())
}

#[test]
fn a_buffer_at_once(rt: HostRuntime) -> Result<(), Fail> {
    let held = buffer(rt.alloc(), Kind::Vector, b"ab")?;
    let canceled = is_canceled(rt.alloc(), held, b"canceled v 4 0 4 6162")?;
    assert!(rt; canceled);
    Ok(())
}

#[test]
fn parts_at_once(rt: HostRuntime) -> Result<(), Fail> {
    let held = held_parts(rt.alloc(), &[(2, b"ab"), (3, b"")])?;
    let canceled = is_canceled(rt.alloc(), held, b"canceled p 2 2 6162 3 -")?;
    assert!(rt; canceled);
    Ok(())
}

// Parts of rooms and bytes.
fn parts(alloc: Global, pairs: &[(usize, &[u8])]) -> Result<Option<PartsSpec>, AllocError> {
    let mut listed = Vec::new(alloc);
    for (room, list) in pairs {
        listed.push((*room, bytes(alloc, *list)?))?;
    }
    Ok(PartsSpec::new(listed))
}
