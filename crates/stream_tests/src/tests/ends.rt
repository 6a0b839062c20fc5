// Sources and sinks as streams, and sends that are flushed.
ghost use Rattle.rent_io.specs.Counts.{no_counts};

use crate::tests::base::{
    DONE, Why, again, are_bytes, ended, is_like, is_well, list_of, made, nums_of,
};
use crate::tests::stage::Plain;
use crate::tests::steps::{ReadStep, WriteStep, run_reads, run_writes};
use rent_io::PollCount::Ready;
use rent_io::{
    IoFault, MemSink, MemSource, SendAndFlush, Sink, SinkDone, SinkExt, SinkPoll, SinkStream,
    SourceStream,
};
use std::alloc::Global;
use std::test::Fail;

// A stream over a source of `abcde`, whose call 1 fails.
fn source(alloc: Global) -> Result<SourceStream<MemSource>, Why> {
    let source = MemSource::new(list_of(alloc, "abcde")?, nums_of(alloc, &[1])?);
    made(SourceStream::new(alloc, source))
}

#[rattlefmt::skip]
const READS: &[ReadStep] = &[
    ReadStep::Exact(2, Ready(Ok(2)), "ab"), ReadStep::Read(2, Ready(Err(IoFault::ReadFault)), ""),
    ReadStep::Parts(&["", "..", "."], Ready(Ok(2)), &["", "cd", "."]),
];

// What the source has left.
fn source_left(io: SourceStream<MemSource>, want: &str) -> Result<(), Why> {
    are_bytes("the bytes that are left", io.into_inner().left(), want)
}

// A source as a stream.
fn source_read(alloc: Global) -> Result<(), Why> {
    let mut stage = Plain { io: source(alloc)? };
    run_reads(alloc, &mut stage, READS)?;
    source_left(stage.io, "e")
}

#[test]
fn a_source_is_read_as_a_stream(rt: HostRuntime) -> Result<(), Fail> {
    is_well(&rt, "a source", source_read(rt.alloc()));
    Ok(())
}

#[rattlefmt::skip]
const WRITES: &[WriteStep] = &[
    WriteStep::All("ab", Ready(Ok(2))), WriteStep::Parts(&["", "cd", "e"], Ready(Ok(2))),
    WriteStep::Write("ab", Ready(Err(IoFault::WriteFault))), WriteStep::Flush(DONE), WriteStep::Shutdown(DONE),
];

// What the sink took.
fn sink_taken(io: SinkStream<MemSink>, want: &str) -> Result<(), Why> {
    are_bytes("the bytes that were taken", io.into_inner().taken(), want)
}

// A sink as a stream, whose call 2 fails.
fn sink_written(alloc: Global) -> Result<(), Why> {
    let sink = MemSink::new(alloc, nums_of(alloc, &[2])?);
    let mut stage = Plain {
        io: SinkStream::new(sink),
    };
    run_writes(alloc, &mut stage, WRITES)?;
    sink_taken(stage.io, "abcd")
}

#[test]
fn a_sink_is_written_as_a_stream(rt: HostRuntime) -> Result<(), Fail> {
    is_well(&rt, "a sink", sink_written(rt.alloc()));
    Ok(())
}

// A sink that keeps the last item, and counts.
#[derive(Drop)]
struct Last {
    item: u8,
    sends: u64,
    flushes: u64,
}

impl Sink<u8> for Last {
    type Error = ();

    ghost sink = { λ s. record { counts = no_counts; sends = s.sends; flushes = s.flushes } };

    fn poll_send(&mut self, item: u8, _task: u64) -> SinkPoll<u8, ()> {
        self.item = item;
        self.sends = self.sends.saturating_add(1);
        SinkPoll::Ready(Ok(()))
    }

    fn poll_flush(&mut self, _task: u64) -> SinkDone<()> {
        self.flushes = self.flushes.saturating_add(1);
        SinkDone::Ready(Ok(()))
    }

    fn poll_close(&mut self, _task: u64) -> SinkDone<()> {
        SinkDone::Ready(Ok(()))
    }
}

// The item that was sent, and how many sends and flushes there were.
fn saw(sink: &Last, item: u8, sends: u64, flushes: u64) -> Result<(), Why> {
    let seen = sink.item == item && sink.sends == sends && sink.flushes == flushes;
    is_like("what the sink saw", seen)
}

// Sends 7 by one poll.
fn send(sink: &mut Last) -> Result<SendAndFlush<u8>, Why> {
    again(sink.send_and_flush(7).poll(sink, 0))
}

// Whether the flush was done.
fn flush(sink: &mut Last, state: SendAndFlush<u8>) -> Result<(), Why> {
    is_like("the flush", ended(state.drive(sink, 0, 9))?.is_ok())
}

// Sends 7 and flushes.
fn sent() -> Result<(), Why> {
    let mut sink = Last {
        item: 0,
        sends: 0,
        flushes: 0,
    };
    let state = send(&mut sink)?;
    saw(&sink, 7, 1, 0)?;
    flush(&mut sink, state)?;
    saw(&sink, 7, 1, 1)
}

#[test]
fn an_item_is_sent_and_then_flushed(rt: HostRuntime) -> Result<(), Fail> {
    is_well(&rt, "an item", sent());
    Ok(())
}
