// Lines, read and written again.
use event_text::{
    LinesError, event_of_line, first_line, first_wrong, read_events, read_external_events,
    write_event,
};
use machine::Event;
use std::alloc::Global;
use std::test::Fail;

// How many events the lines of a text give, and the first wrong line, or 0.
fn counted(alloc: Global, text: &[u8]) -> (usize, u64) {
    counts_of(read_events(alloc, text))
}

fn counts_of(read: Result<Vec<Event>, LinesError>) -> (usize, u64) {
    match read {
        Ok(events) => (events.len(), 0),
        Err(LinesError::BadLine(line)) => (0, line),
        Err(LinesError::OutOfMemory) => (0, 0),
    }
}

// Lines that stand for no event: what is wrong, and behind a bar the line.
const WRONG: &str = "an empty line|
upper-case hex|feed 0 6A
odd hex|feed 0 616
no hex digit|feed 0 6g
no hex digit behind many|feed 0 000102030405060708090a0b0c0d0e0f101112131415161718191a1b1c1d1e1f2g
half of the hex is `-`|feed 0 -6
leading zero|poll 00 7
leading zero of a further number|poll 0 07
two spaces|poll 0  7
leading space| turn
trailing space|turn\x20
trailing space behind bytes|feed 0 6162\x20
carriage return|turn\r
tab|poll\t0 7
one past u64|poll 18446744073709551616 7
ten times past u64|poll 0 184467440737095516150
one past u32|exec 0 ok 4294967296
more bytes than the total|submit recv 0 v 1 0 1 6162
begin behind the end|submit recv 0 v 4 2 1 616263
begin behind the bytes|submit recv 0 v 4 2 4 61
end behind the total|submit recv 0 v 4 0 5 -
unknown word|looks 0
upper-case word|Turn
a word's front|tur
a word and more|turns
unknown handle|give streams
unknown buffer|submit recv 0 w 4 0 4 -
a fixed buffer that is not full|submit recv 0 b 4 0 4 616263
unknown request|submit copy 0 v 4 0 4 -
no kind|give
no number|poll 0
no bytes|feed 0
no buffer|submit recv 0
no count|exec 0 ok
one word too many|turn turn
one word behind a kind|give stream 0
one word behind bytes|feed 0 61 62
one word behind numbers|poll 0 7 7
one word behind a count|exec 0 ok 1 1
one word behind a buffer|submit recv 0 v 4 0 4 - -
plus sign|poll +0 7
minus sign|poll -0 7
empty number|poll  7
no number of a drop|drop
one word behind a drop|drop 0 7
leading zero of a cancel|cancel 01
one word behind a cancel|cancel 0 0
a word's plural|drops 0
one past u16|exec 0 err 65536
leading zero of an error|exec 0 err 0125
no error|exec 0 err
one word behind an error|exec 0 err 1 1
unknown outcome|exec 0 fail 1
no cancel handle|under recv 0 v 4 0 4 -
no request under a cancel handle|under 0
a submission under a cancel handle|under 0 submit recv 0 v 4 0 4 -
leading zero of a cancel handle|under 00 recv 0 v 4 0 4 -
one past u64 of a cancel handle|under 18446744073709551616 recv 0 v 4 0 4 -
a buffer under a cancel handle that breaks a bound|under 0 recv 0 v 4 0 5 -
no request that is linked|link
a cancel handle of a link|link 0 recv 0 v 4 0 4 -
no cancel handle of a linked request|linkunder recv 0 v 4 0 4 -
one word behind a canceller|canceller 0
a canceller's plural|cancellers
no number of a canceller's handle|newhandle
leading zero of a canceller's handle|newhandle 01
one word behind a canceller's handle|newhandle 0 0
no number of a cancel of all|cancelall
two words|cancel all 0
one word behind a cancel of all|cancelall 0 0
parts in the place of a buffer to read into|submit recv 0 p 1 4 -
parts in the place of a buffer to send|submit send 0 p 1 4 -
a buffer in the place of parts to read into|submit readv 0 v 4 0 4 -
a buffer in the place of parts to send|submit writev 0 v 4 0 4 -
a buffer to send that breaks a bound|submit send 0 v 4 0 5 -
no parts|submit readv 0
no number of parts|submit readv 0 p
a leading zero of the parts' number|submit readv 0 p 01 4 -
a part without its pair|submit readv 0 p 1
a part without its bytes|submit readv 0 p 1 4
a pair too many|submit readv 0 p 1 4 - 4 -
a pair too few|submit readv 0 p 2 4 -
a pair behind no parts|submit readv 0 p 0 4 -
half a pair too many|submit readv 0 p 1 4 - 4
a trailing space behind parts|submit readv 0 p 1 4 -\x20
a leading zero of a room|submit readv 0 p 1 04 -
a part's odd hex|submit readv 0 p 1 4 616
a part's bytes that pass its room|submit writev 0 p 2 4 61 1 6162
rooms whose sum passes the type|submit readv 0 p 2 18446744073709551615 - 1 -
a room that passes the type|submit readv 0 p 1 18446744073709551616 -
half of the greatest number of parts, and no pair|submit readv 0 p 9223372036854775808
the greatest number of parts, and one pair|submit readv 0 p 18446744073709551615 4 -
no number of an end|end
one word behind a look|look 0 0
no number of a close|close
no digit of a close|close x
leading zero of a close|close 01
one past u64 of a close|close 18446744073709551616
one word behind a close|close 0 0
upper-case close|Close 0
upper-case kind|give File
a kind's front|give data
one word behind a further kind|give pipe 0
a message's address that is no number|message 0 x 6162
no bytes of a message|message 0 5
no address of a message that arrives|message 0 - 6162
leading zero of a message's address|message 0 05 6162
one past u64 of a message's address|message 0 18446744073709551616 6162
two spaces in a message|message 0  5 6162
odd hex of a message|message 0 5 616
one word behind a message|message 0 5 61 62
no buffer of a message to read|submit recvmsg 0
parts in the place of a message's buffer|submit recvmsg 0 p 1 4 -
an address of a message to read|submit recvmsg 0 5 v 4 0 4 -
no address of a message to send|submit sendmsg 0 v 1 0 1 78
a hexadecimal address|submit sendmsg 0 5a v 1 0 1 78
leading zero of an address to send to|submit sendmsg 0 05 v 1 0 1 78
two spaces before an address|submit sendmsg 0  5 v 1 0 1 78
no position of a read|submit read 0 v 4 0 4 -
leading zero of a position|submit read 0 04 v 4 0 4 -
no number of a position|submit write 0 - v 1 0 1 78
one past u64 of a position|submit write 0 18446744073709551616 v 1 0 1 78
parts at a position|submit read 0 4 p 1 4 -
no length of a splice|submit spliceto 0 1
one past u32 of a splice's length|submit spliceto 0 1 4294967296
no number of a splice's length|submit spliceto 0 1 -
leading zero of a splice's length|submit splicefrom 1 0 02
one word behind a splice|submit splicefrom 1 0 2 0
no address of a connect|submit connect 0
`-` for the address of a connect|submit connect 0 -
one word behind a connect|submit connect 0 5 0
no word of a sync|submit fsync 0
unknown word of a sync|submit fsync 0 some
upper-case word of a sync|submit fsync 0 All
one word behind a sync|submit fsync 0 all data
a sync's word of a poll|submit polladd 0 all
two words of a poll|submit polladd 0 read write
a kind's plural|give listeners
no number of an accept|submit accept
one word behind an accept|submit accept 0 0
leading zero of an accept|submit accept 00
no mode of an open|submit open 6162 0
no flags and no mode of an open|submit open 6162
an empty path that isn't `-` of an open|submit open  0 0
leading zero of flags|submit open 6162 00 0
one past u32 of flags|submit open 6162 4294967296 0
one past u32 of an open's mode|submit open 6162 0 4294967296
no number of flags|submit open 6162 - 0
one word behind an open|submit open 6162 0 0 0
no mode of a new directory|submit mkdir 6162
an empty path that isn't `-`|submit mkdir  511
odd hex of a path|submit mkdir 616 511
one past u32 of a mode|submit mkdir 62 4294967296
leading zero of a mode|submit mkdir 62 0511
no number of a mode|submit mkdir 62 -
one word behind a mode|submit mkdir 62 511 0
one path of a rename|submit rename 61
three paths of a rename|submit rename 61 62 63
upper-case hex of a path|submit rename 61 6A
a trailing space behind paths|submit rename 61 62\x20
no word of what is unlinked|submit unlink 61
unknown word of what is unlinked|submit unlink 61 link
a path behind its word|submit unlink file 61
one word behind what is unlinked|submit unlink 61 dir file
a plural of a request|submit connects 0 5";

#[test]
fn wrong_lines(rt: HostRuntime) -> Result<(), Fail> {
    for row in WRONG.split('\n') {
        let (name, line) = row.split_once('|').ok_or("no bar")?;
        let text = format!(in rt.alloc(); "{line}\n")?;
        assert_eq!(rt; counted(rt.alloc(), text.as_bytes()), (0, 1), "{name}");
    }
    Ok(())
}

// Lines that are read and written again.
const LINES: &[u8] = b"give stream
submit recv 0 v 4 0 4 -
poll 0 7
feed 0 6162
turn
exec 0 ok 2
feed 18446744073709551615 000f109aff
submit recv 1 v 18446744073709551615 0 0 -
submit recv 10 v 8 1 7 616263
submit recv 0 g 8 1 7 616263
submit recv 0 b 3 1 2 616263
submit send 0 v 8192 3 5 68656c6c6f
submit send 18446744073709551615 g 8 1 7 616263
submit send 1 b 3 1 2 616263
submit readv 0 p 3 2 - 3 - 4 7a
submit writev 10 p 2 2 6162 0 -
submit readv 18446744073709551615 p 0
submit writev 0 p 1 18446744073709551615 00ff
end 0
look 18446744073709551615
close 0
close 18446744073709551615
exec 12 ok 4294967295
poll 18446744073709551615 0
feed 3 -
drop 0
cancel 18446744073709551615
drop 18446744073709551615
cancel 10
under 0 recv 0 v 4 0 4 -
under 18446744073709551615 writev 10 p 2 2 6162 0 -
link recv 0 v 4 0 4 -
linkunder 18446744073709551615 writev 10 p 2 2 6162 0 -
canceller
newhandle 0
newhandle 18446744073709551615
cancelall 10
cancelall 18446744073709551615
exec 0 err 125
exec 0 err 0
exec 3 err 4096
exec 3 err 65535
give datagram
give file
give pipe
give listener
message 0 5 616263
feed 0 000102030405060708090a0b0c0d0e0f101112131415161718191a1b1c1d1e1f2021222324fbfcfdfeff
message 18446744073709551615 18446744073709551615 -
submit recvmsg 0 v 2 0 2 -
submit sendmsg 0 - v 1 0 1 78
submit sendmsg 1 5 g 1 0 1 78
submit sendmsg 1 18446744073709551615 b 1 0 1 78
submit read 0 4 v 2 0 2 -
submit read 18446744073709551615 18446744073709551615 g 2 0 2 -
submit write 0 16777216 v 1 0 1 78
submit spliceto 0 1 2
submit spliceto 18446744073709551615 0 4294967295
submit splicefrom 1 0 2
submit connect 0 18446744073709551615
submit fsync 0 all
submit fsync 10 data
submit polladd 0 read
submit polladd 10 write
submit accept 18446744073709551615
submit open 2f61 0 511
submit open - 4294967295 4294967295
submit mkdir 62 511
submit mkdir - 4294967295
submit rename 61 -
submit rename - 6162
submit unlink 61 file
submit unlink - dir
under 3 rename 61 62
";

#[test]
fn lines_again(rt: HostRuntime) -> Result<(), Fail> {
    let events = read_events(rt.alloc(), LINES)?;
    let mut out = Vec::new(rt.alloc());
    for event in &events {
        write_event(event, &mut out)?;
        out.push(b'\n')?;
    }
    assert_eq!(rt; out.as_slice(), LINES);
    Ok(())
}

// Texts, the number of their events, and the first wrong line, or 0.
#[rattlefmt::skip]
const TEXTS: [(&[u8], usize, u64); 10] = [
    (b"", 0, 0),
    (b"turn", 1, 0),
    (b"turn\n", 1, 0),
    (b"turn\nturn", 2, 0),
    (b"turn\n\n", 0, 2),
    (b"turn\n\nturn", 0, 2),
    (b"turn\nturn\nturns\n", 0, 3),
    (b"turn\nturns\nturns\n", 0, 2),
    (b"\xff", 0, 1),
    (b"turn\nturn\xff", 0, 2),
];

#[test]
fn lines_are_counted(rt: HostRuntime) -> Result<(), Fail> {
    for (text, count, bad) in TEXTS {
        assert_eq!(rt; counted(rt.alloc(), text), (count, bad), "at {text:?}");
    }
    Ok(())
}

// Lines of which some are no external event's, how many events they give, and the first wrong line, or 0.
#[rattlefmt::skip]
const EXTERNAL: [(&str, usize, u64); 5] = [
    ("give stream\npoll 0 7\ndrop 0", 3, 0),
    ("give stream\nturn\nno event", 0, 2),
    ("exec 0 ok 1", 0, 1),
    ("submit accept 0\nlink accept 0", 0, 2),
    ("end 0\nno event\nturn", 0, 2),
];

#[test]
fn turns_and_executions_are_no_external_events(rt: HostRuntime) -> Result<(), Fail> {
    for (text, count, bad) in EXTERNAL {
        let read = read_external_events(rt.alloc(), text.as_bytes());
        assert_eq!(rt; counts_of(read), (count, bad), "at {text:?}");
    }
    Ok(())
}

#[test]
fn lines_are_read_one_by_one(rt: HostRuntime) -> Result<(), Fail> {
    let text: &[u8] = b"end 0\nturn";
    assert_eq!(rt; first_wrong::<true>(text), Some(2));
    if text.is_empty() {
        return Err(Fail::from("no line"));
    }
    let (line, behind) = first_line(text);
    let Some(event) = event_of_line::<false>(rt.alloc(), line)? else {
        return Err(Fail::from("no event"));
    };
    let mut out = Vec::new(rt.alloc());
    write_event(&event, &mut out)?;
    assert_eq!(rt; out.as_slice(), b"end 0".as_slice());
    assert_eq!(rt; behind, b"turn".as_slice());
    Ok(())
}
