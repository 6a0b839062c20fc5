// Streams of two parts, streams that are parted into halves, and what they pass on.
use crate::tests::base::{
    Why, are_bytes, has_delivered, has_left, is_like, is_well, list_of, made, nums_of, stream,
};
use crate::tests::noting::{Noting, handle, has_noted, stream_of};
use crate::tests::scripted::{READS, WRITES};
use crate::tests::stage::Under;
use crate::tests::steps::{ReadStep, run_reads, run_writes};
use cancel_core::CancelHandle;
use rent_io::PollCount::Ready;
use rent_io::{MemSource, ScriptedStream, Step};
use std::alloc::Global;
use std::test::Fail;
use stream_util::{
    Duplex, OwnedReadHalf, OwnedWriteHalf, Pairs, PrefixedReadIo, ReuniteError, Split, Splitable,
};

type Pair = Duplex<ScriptedStream, ScriptedStream>;

// A stream that reads these bytes.
fn duplex(alloc: Global, bytes: &[u8]) -> Result<Pair, Why> {
    Ok(Duplex::new(stream(alloc, bytes, &[])?, stream(alloc, b"", &[])?))
}

// Whether two halves were reunited. If they weren't, the write half is shut down, which is done at once.
fn were_reunited(read: OwnedReadHalf<Pair>, write: OwnedWriteHalf<Pair>) -> bool {
    match read.reunite(write) {
        Ok(_) => true,
        Err(ReuniteError(_, write)) => !matches!(write.shutdown().poll(0), Step::Ready((Ok(0), _))),
    }
}

// Splits two streams, and whether the halves of each are reunited with those of the other.
fn crossed(pairs: &mut Pairs, first: Pair, second: Pair) -> [bool; 2] {
    let (read, write) = first.into_split(pairs);
    let (other_read, other_write) = second.into_split(pairs);
    [
        were_reunited(read, other_write),
        were_reunited(other_read, write),
    ]
}

// Splits a stream, and whether its halves are reunited.
fn rejoined(pairs: &mut Pairs, pair: Pair) -> bool {
    let (read, write) = pair.into_split(pairs);
    were_reunited(read, write)
}

// The text of halves that are no pair. The write half is shut down.
fn has_text(alloc: Global, error: ReuniteError<Pair>, want: &str) -> Result<(), Why> {
    let text = made(format!(in alloc; "{error}"));
    let ReuniteError(_, write) = error;
    let _ = write.shutdown();
    are_bytes("the text", text?.as_bytes(), want)
}

// The halves of two streams are no pair.
fn no_pair(
    alloc: Global,
    read: OwnedReadHalf<Pair>,
    write: OwnedWriteHalf<Pair>,
) -> Result<(), Why> {
    match read.reunite(write) {
        Ok(_) => Err(Why::NotSo),
        Err(error) => has_text(alloc, error, "tried to reunite halves"),
    }
}

// The read half of a stream and the write half of another one.
fn strangers(
    pairs: &mut Pairs,
    first: Pair,
    second: Pair,
) -> (OwnedReadHalf<Pair>, OwnedWriteHalf<Pair>) {
    let (read, write) = first.into_split(pairs);
    let _ = write.shutdown();
    let (_, other) = second.into_split(pairs);
    (read, other)
}

// The text of their reunion.
fn text(alloc: Global) -> Result<(), Why> {
    let (first, second) = (duplex(alloc, b"a")?, duplex(alloc, b"b")?);
    let (read, write) = strangers(&mut Pairs::new(), first, second);
    no_pair(alloc, read, write)
}

// Three splits.
fn halves(alloc: Global) -> Result<(), Why> {
    let mut pairs = Pairs::new();
    let apart = crossed(&mut pairs, duplex(alloc, b"a")?, duplex(alloc, b"b")?);
    is_like("the halves of two", apart == [false, false])?;
    let joined = rejoined(&mut pairs, duplex(alloc, b"c")?);
    is_like("the halves of one", joined)?;
    is_like("the pairs that were given", pairs.given() == 3)
}

#[test]
fn halves_of_two_splits_stay_apart(rt: HostRuntime) -> Result<(), Fail> {
    is_well(&rt, "three splits", halves(rt.alloc()));
    is_well(&rt, "the text", text(rt.alloc()));
    Ok(())
}

type Noted = Duplex<Noting, Noting>;

// A stream that reads `abcd`.
fn noted(alloc: Global) -> Result<Noted, Why> {
    Ok(Duplex::new(stream_of(alloc, "abcd")?, stream_of(alloc, "")?))
}

// The reads were made of the one part, and the writes of the other, each under the group.
fn were_passed_on(io: Noted) -> Result<(), Why> {
    let (read, write) = io.part();
    has_noted(&read, 2)?;
    has_left(&read.io, "d")?;
    has_noted(&write, 4)?;
    has_delivered(&write.io, "xyz")
}

// Calls through both parts at once.
fn duplex_passes_on(alloc: Global) -> Result<(), Why> {
    let mut stage = Under {
        io: noted(alloc)?,
        c: handle(alloc)?,
    };
    run_reads(alloc, &mut stage, READS)?;
    run_writes(alloc, &mut stage, WRITES)?;
    were_passed_on(stage.io)
}

// Reads through a half, which comes back.
fn through_read(
    alloc: Global,
    c: CancelHandle,
    half: OwnedReadHalf<Noted>,
) -> (Result<(), Why>, OwnedReadHalf<Noted>) {
    let mut stage = Under { io: half, c };
    let outcome = run_reads(alloc, &mut stage, READS);
    (outcome, stage.io)
}

// Writes through a half, which comes back.
fn through_write(
    alloc: Global,
    c: CancelHandle,
    half: OwnedWriteHalf<Noted>,
) -> (Result<(), Why>, OwnedWriteHalf<Noted>) {
    let mut stage = Under { io: half, c };
    let outcome = run_writes(alloc, &mut stage, WRITES);
    let Under { io, c: _ } = stage;
    (outcome, io)
}

// The stream of two halves.
fn whole(read: OwnedReadHalf<Noted>, write: OwnedWriteHalf<Noted>) -> Result<Noted, Why> {
    match read.reunite(write) {
        Ok(io) => Ok(io),
        Err(ReuniteError(_, write)) => {
            let _ = write.shutdown();
            Err(Why::NotSo)
        }
    }
}

// Calls through halves.
fn halves_pass_on(alloc: Global) -> Result<(), Why> {
    let c = handle(alloc)?;
    let (read, write) = noted(alloc)?.into_split(&mut Pairs::new());
    let (were_read, read) = through_read(alloc, c, read);
    let (were_written, write) = through_write(alloc, c, write);
    were_passed_on(whole(read, write)?)?;
    were_read?;
    were_written
}

// Reads of a prefix `he`, which make no call of the stream behind it.
#[rattlefmt::skip]
const FRONT: &[ReadStep] = &[ReadStep::Parts(&["", ".", ""], Ready(Ok(1)), &["", "h", ""]), ReadStep::Read(4, Ready(Ok(1)), "e")];

// Calls through a stream with a prefix.
fn prefix_passes_on(alloc: Global) -> Result<(), Why> {
    let prefix = MemSource::new(list_of(alloc, "he")?, nums_of(alloc, &[])?);
    let mut stage = Under {
        io: PrefixedReadIo::new(stream_of(alloc, "abcd")?, prefix),
        c: handle(alloc)?,
    };
    run_reads(alloc, &mut stage, FRONT)?;
    run_reads(alloc, &mut stage, READS)?;
    run_writes(alloc, &mut stage, WRITES)?;
    has_noted(stage.io.get_ref(), 6)
}

#[test]
fn a_group_is_passed_on(rt: HostRuntime) -> Result<(), Fail> {
    is_well(&rt, "both parts", duplex_passes_on(rt.alloc()));
    is_well(&rt, "halves", halves_pass_on(rt.alloc()));
    is_well(&rt, "a prefix", prefix_passes_on(rt.alloc()));
    Ok(())
}
