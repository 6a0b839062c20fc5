// A chain: a copy from a buffered reader of a prefixed stream to a buffered writer, where one of the two streams fails, pauses
// or is interrupted at one of its first twenty calls.
use crate::tests::base::{Why, made, stream};
use crate::tests::copies::resumed;
use rent_buf::{ByteList, IoFault, NumList};
use rent_io::{AsyncWriteRent as _, MemSource, PollCount, ScriptedStream, Step, Turned1};
use std::alloc::{AllocError, Global};
use std::process::Abort;
use std::test::Fail;
use stream_util::{BufReader, BufWriter, Copied, Copy, PrefixedReadIo};

// What disturbs a call: its name, the turn, and how many faults and how many pauses then come.
type Disturbs = (&'static str, Turned1, u64, u64);

#[rattlefmt::skip]
const TURNS: [Disturbs; 3] = [
    ("a fault", Turned1::Fault(5), 1, 0),
    ("a pause", Turned1::Pause, 0, 1),
    ("an interrupt", Turned1::Interrupt, 0, 0),
];

// How many calls of each stream are disturbed, one in each run.
const CALLS: usize = 20;

// How many bytes the first reads give at most, and each one behind them gives one: the first gives more than a copy takes at
// once, so that some stay in the reader's buffer.
const READS: [usize; 7] = [4100, 1, 1, 2, 1, 1, 3];

// How many bytes the first writes take at most, and each one behind them takes one: a long write in pieces, what is buffered in
// pieces, and both again.
const WRITES: [usize; 9] = [4000, 90, 6, 1, 1, 1, 4000, 90, 6];

// How many bytes are copied, and how many of them are the prefix: more than one read of it gives.
const ALL: usize = 8240;

const PREFIX: usize = 4099;

// A run: what is copied, and how often a fault came and a poll had to wait.
#[derive(Drop)]
struct Chain {
    reader: BufReader<PrefixedReadIo<ScriptedStream, MemSource>>,
    writer: BufWriter<ScriptedStream>,
    faults: u64,
    pauses: u64,
}

// A script of these numbers of bytes, and then one each, with a turn before the call of this number.
fn script(
    alloc: Global,
    most: &[usize],
    at: Option<usize>,
    turn: Turned1,
) -> Result<Vec<Turned1>, AllocError> {
    let mut script = Vec::new(alloc);
    for i in 0..CALLS {
        if at == Some(i) {
            script.push(turn)?;
        }
        script.push(Turned1::Grant(most.get(i).copied().unwrap_or(1)))?;
    }
    Ok(script)
}

// The bytes that are copied.
fn bytes(alloc: Global) -> Result<Vec<u8>, AllocError> {
    let mut bytes = Vec::new(alloc);
    for i in 0..ALL {
        bytes.push((i % 251) as u8)?;
    }
    Ok(bytes)
}

// A chain whose call of this number, of the reader's or of the writer's stream, is disturbed by this turn.
fn new_chain(
    alloc: Global,
    all: &[u8],
    reads: Option<usize>,
    writes: Option<usize>,
    turn: Turned1,
) -> Result<Chain, Why> {
    let (front, behind) = all.split_at(PREFIX.min(all.len()));
    let prefix = MemSource::new(
        ByteList::from_vec(front.to_vec(alloc)?),
        NumList::new(alloc),
    );
    let input = stream(
        alloc,
        behind,
        script(alloc, &READS, reads, turn)?.as_slice(),
    )?;
    let output = stream(alloc, b"", script(alloc, &WRITES, writes, turn)?.as_slice())?;
    Ok(Chain {
        reader: made(BufReader::new(alloc, PrefixedReadIo::new(input, prefix)))?,
        writer: made(BufWriter::with_capacity(alloc, 4, output))?,
        faults: 0,
        pauses: 0,
    })
}

// Whether the bytes that were delivered, the writer's buffer, those that the copy holds, the reader's buffer, the rest of the
// prefix and what is left, joined, are these.
fn joins(chain: &Chain, held: &[u8], all: &[u8]) -> bool {
    let front = chain.reader.get_ref();
    let parts = [
        chain.writer.get_ref().delivered(),
        chain.writer.buffer(),
        held,
        chain.reader.buffer(),
        front.prefix().left(),
        front.get_ref().left(),
    ];
    let mut rest = all;
    for part in parts {
        match rest.strip_prefix(part) {
            Some(behind) => rest = behind,
            None => return false,
        }
    }
    rest.is_empty()
}

// The copy that goes on after one that ended at a fault, or none after one that copied all.
fn after(chain: &mut Chain, copied: Copied) -> Result<Option<Copy>, Why> {
    let Copied { result, rest } = copied;
    match result {
        Ok(_) => Ok(None),
        Err(IoFault::Os(5)) => {
            chain.faults = chain.faults.saturating_add(1);
            Ok(Some(resumed(rest)?))
        }
        Err(_) => Err(Why::NotSo),
    }
}

// The copy after one poll, or none once it copied all.
fn poll(chain: &mut Chain, copy: Copy) -> Result<Option<Copy>, Why> {
    match copy.poll(&mut chain.reader, &mut chain.writer, 0) {
        Step::Ready(copied) => after(chain, copied),
        Step::Again(next) => Ok(Some(next)),
        Step::Pending(next) => {
            chain.pauses = chain.pauses.saturating_add(1);
            Ok(Some(next))
        }
    }
}

// Whether one poll flushed the writer.
fn flush(chain: &mut Chain) -> Result<bool, Why> {
    match chain.writer.poll_flush(0) {
        PollCount::Ready(Ok(_)) => Ok(true),
        PollCount::Again => Ok(false),
        PollCount::Pending => {
            chain.pauses = chain.pauses.saturating_add(1);
            Ok(false)
        }
        PollCount::Ready(Err(IoFault::Os(5))) => {
            chain.faults = chain.faults.saturating_add(1);
            Ok(false)
        }
        PollCount::Ready(Err(_)) => Err(Why::NotSo),
    }
}

// Polls a copy until it copied all, and whether these were the joined bytes before and after each poll.
fn copies(chain: &mut Chain, copy: Copy, all: &[u8]) -> Result<bool, Why> {
    let mut copy = copy;
    for _ in 0..200 {
        if !joins(chain, copy.held(), all) {
            return Ok(false);
        }
        match poll(chain, copy)? {
            Some(next) => copy = next,
            None => return Ok(joins(chain, &[], all)),
        }
    }
    Ok(false)
}

// Polls a flush until it is done, and whether these were the joined bytes after each poll, and all are delivered then.
fn flushes(chain: &mut Chain, all: &[u8]) -> Result<bool, Why> {
    for _ in 0..200 {
        let done = flush(chain)?;
        if !joins(chain, &[], all) {
            return Ok(false);
        }
        if done {
            return Ok(chain.writer.get_ref().delivered() == all);
        }
    }
    Ok(false)
}

// A run that is disturbed so: whether each byte was kept, how often a fault came and a poll had to wait, and whether each stream
// was called oftener than one of its calls is disturbed.
fn run(
    alloc: Global,
    all: &[u8],
    reads: Option<usize>,
    writes: Option<usize>,
    turn: Turned1,
) -> Result<(bool, u64, u64, bool), Why> {
    let mut chain = new_chain(alloc, all, reads, writes, turn)?;
    let kept = copies(&mut chain, Copy::new(alloc)?, all)? && flushes(&mut chain, all)?;
    let read = chain.reader.get_ref().get_ref().calls();
    let written = chain.writer.get_ref().calls();
    Ok((
        kept,
        chain.faults,
        chain.pauses,
        read.min(written) > CALLS as u64,
    ))
}

// The run is as it is to be: each byte was kept, so many faults and pauses came, and each stream was called often enough.
fn is_kept(
    rt: &impl Abort,
    (name, _, faults, pauses): Disturbs,
    place: &str,
    at: usize,
    run: Result<(bool, u64, u64, bool), Why>,
) {
    assert_eq!(rt;
        run,
        Ok((true, faults, pauses, true)),
        "{name} at the {place} {at}"
    );
}

// The runs in which a call of this number is disturbed: one of the reader's stream, and one of the writer's.
fn runs_at(rt: &impl Abort, alloc: Global, all: &[u8], each: Disturbs, at: usize) {
    is_kept(
        rt,
        each,
        "read",
        at,
        run(alloc, all, Some(at), None, each.1),
    );
    is_kept(
        rt,
        each,
        "write",
        at,
        run(alloc, all, None, Some(at), each.1),
    );
}

#[test]
fn a_chain_keeps_each_byte(rt: HostRuntime) -> Result<(), Fail> {
    let all = bytes(rt.alloc())?;
    for each in TURNS {
        for at in 0..CALLS {
            runs_at(&rt, rt.alloc(), &all, each, at);
        }
    }
    Ok(())
}
