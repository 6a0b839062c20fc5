//! The writing of a source's messages, and how it ends.
ghost use Rattle.std.specs.Prelude.{◌≡◌, ◌≤◌, ◌++◌, [], IfOk, IfErr, IfSome, OnOk, IsTrue};
ghost use Rattle.rent_io.specs.Call.{reading, writing};
ghost use Rattle.frame_io.specs.declared.fault.Ending.TheVariants.{Fault as Ends, End};
ghost use Rattle.frame_io.specs.Decoder.{fault_of, rest_of};
ghost use Rattle.frame_io.specs.FrameReader.{standard};
ghost use Rattle.frame_io.specs.Frames.{read_frames};
ghost use Rattle.frame_run.specs.Places.{StopsFor, left_of, read_since, written_since};
ghost use Rattle.frame_run.specs.Unframing.{Reached, UnframeEnds};

use crate::lent::{Ended, LentSource, Places, give_back, lend};
use crate::line::put_bad;
use crate::output::{Unwritten, write_last, write_next};
use frame_io::{BadFrame, FrameFault, FrameReader, MOST_OFFSET, MessagePoll};
use rent_io::{ByteSink, ByteSource, Failed, SourceStream};
use std::alloc::Global;
use std::marker::Brand;
use std::sync::Wait;
use stream_util::BufReader;

/// How the writing of a source's messages ends. (not in monoio)
#[derive(Clone, Copy, Debug, PartialEq, Eq)]
pub enum Unframed {
    /// The source was read to its end, which is between messages, all was written, and the sink is flushed.
    Done,
    /// The source has a wrong piece. The lines of the messages before it and its own were written, and the sink is flushed.
    BadFrame,
    /// The source has more bytes than may be read.
    TooLong,
    /// The source failed.
    ReadFault,
    /// The sink failed.
    WriteFault,
    /// Memory ran out.
    OutOfMemory,
}

// What is read: the source, by way of a buffer.
type Input<'a, S, P> = BufReader<SourceStream<LentSource<'a, S, P>>>;

/// Reads a source as pieces of messages, at most `most` bytes, and writes the line `message C HEX` for each message, with its
/// channel and its bytes. At a wrong piece it writes the line `bad OFFSET NAME`, and no more is read. `Unframed` says when each
/// end comes. Lines are collected before they are written; those that wait are lost at an end other than `Done` and `BadFrame`.
/// It is not claimed that it ends. (not in monoio)
pub fn unframe_all<R: Wait, S: ByteSource, K: ByteSink>(
    rt: &R,
    alloc: Global,
    most: usize,
    source: &mut S,
    sink: &mut K,
) -> Unframed
    ensures { UnframeEnds S.tells K.tells most (reading S.left S.faults source.old source.new)
        (writing K.taken K.faults K.is_flushed sink.old sink.new) result }
{
    let ended = Ended {
        source,
        ending: Unframed::OutOfMemory,
    };
    let ended = unframe_at::<R, S, K, Brand>(rt, alloc, most, ended, sink);
    let Ended { source: _, ending } = ended;
    ending
}

// The same of a source and a sink at the places of the type.
fn unframe_at<'a, R: Wait, S: ByteSource, K: ByteSink, P: Places>(
    rt: &R,
    alloc: Global,
    most: usize,
    ended: Ended<'a, S>,
    sink: &mut K,
) -> Ended<'a, S>
    requires most { P.most ≡ most }
    requires source { ended.source.ghost_name ≡ P.source }
    requires left { S.left ended.source.now ≡ P.left }
    requires taken { K.taken sink.old ≡ P.taken }
    requires read_faults { S.faults ended.source.now ≡ P.read_faults }
    requires write_faults { K.faults sink.old ≡ P.write_faults }
    ensures same_source { result.source.ghost_name ≡ P.source }
    ensures ends { UnframeEnds S.tells K.tells P.most
        (read_since P.left P.read_faults (S.left result.source.now) (S.faults result.source.now))
        (written_since P.taken P.write_faults (K.taken sink.new) (K.faults sink.new) (K.is_flushed sink.new)) result.ending }
{
    let source: LentSource<'a, S, P> = lend(most, ended);
    match input_of(alloc, source) {
        Ok(input) => pump(rt, alloc, FrameReader::new(alloc, input), sink),
        Err(source) => give_back(source.why_stopped(), source),
    }
}

// A source as a stream with a buffer. If memory runs out, the same source comes back.
fn input_of<S: ByteSource>(alloc: Global, source: S) -> Result<BufReader<SourceStream<S>>, S>
    ensures ok { IfOk result (λ input. (input.inner ≡ source) × (input.held ≡ [])) }
    ensures err { IfErr result (λ back. back ≡ source) }
{
    let stream = match SourceStream::new(alloc, source) {
        Ok(stream) => stream,
        Err(back) => {
            let (_, source) = back;
            return Err(source);
        }
    };
    match BufReader::new(alloc, stream) {
        Ok(input) => Ok(input),
        Err(back) => {
            let (_, stream) = back;
            Err(stream.into_inner())
        }
    }
}

// The source of a reader. What is buffered is lost.
fn source_of<S: ByteSource>(reader: FrameReader<BufReader<SourceStream<S>>>) -> S
    ensures { result ≡ reader.inner.inner }
{
    reader.into_inner().into_inner().into_inner()
}

// Writes the lines of messages until the reading ends or a call has failed.
fn pump<'a, R: Wait, S: ByteSource, K: ByteSink, P: Places>(
    rt: &R,
    alloc: Global,
    reader: FrameReader<Input<'a, S, P>>,
    sink: &mut K,
) -> Ended<'a, S>
    requires taken { K.taken sink.old ≡ P.taken }
    requires write_faults { K.faults sink.old ≡ P.write_faults }
    requires fresh { IsTrue S.tells → rest_of reader.kept (reader.inner.held ++ left_of reader.inner.inner.over reader.inner.inner.next
        (S.left reader.inner.inner.source.now)) ≡ read_frames standard P.left }
    ensures same_source { result.source.ghost_name ≡ P.source }
    ensures ends { UnframeEnds S.tells K.tells P.most
        (read_since P.left P.read_faults (S.left result.source.now) (S.faults result.source.now))
        (written_since P.taken P.write_faults (K.taken sink.new) (K.faults sink.new) (K.is_flushed sink.new)) result.ending }
{
    let mut reader = reader;
    let mut out = Vec::new(alloc);
    for _ in rt.forever() {
        // No input that may be read has so many bytes.
        if reader.offset() >= MOST_OFFSET {
            return give_up(source_of(reader));
        }
        match reader.poll_message(0) {
            MessagePoll::Message(message) => match write_next(&message, &mut out, sink) {
                Ok(()) => {}
                Err(Unwritten::Fault) => {
                    return give_back(Unframed::WriteFault, source_of(reader));
                }
                Err(Unwritten::OutOfMemory) => return give_up(source_of(reader)),
            },
            // The input never pauses, but bytes may have been taken.
            MessagePoll::Pending | MessagePoll::Again => {}
            MessagePoll::End => return finish(rt, source_of(reader), out, sink),
            MessagePoll::Fault(fault) => {
                let offset = reader.offset();
                if let Some(bad) = bad_of(fault) {
                    return finish_bad(bad, offset, source_of(reader), out, sink);
                }
                return give_up(source_of(reader));
            }
        }
    }
    unreachable!()
}

// What is wrong with a piece, if the fault is such a one: neither of the source nor of memory.
fn bad_of(fault: FrameFault) -> Option<BadFrame>
    ensures { IfSome result (λ bad. fault ≡ fault_of bad) }
{
    match fault {
        FrameFault::Number => Some(BadFrame::Number),
        FrameFault::Large => Some(BadFrame::Large),
        FrameFault::Flag => Some(BadFrame::Flag),
        FrameFault::Channels => Some(BadFrame::Channels),
        FrameFault::Long => Some(BadFrame::Long),
        FrameFault::Cut => Some(BadFrame::Cut),
        FrameFault::Io(_) | FrameFault::OutOfMemory => None,
    }
}

// Ends here, by what is known of the source. What waits is lost.
fn give_up<'a, S: ByteSource, P: Places>(source: LentSource<'a, S, P>) -> Ended<'a, S>
    ensures ending { StopsFor source.entry.over source.entry.failures result.ending }
    ensures source { result.source.now ≡ source.entry.source.now }
    ensures same_source { result.source.ghost_name ≡ P.source }
{
    give_back(source.why_stopped(), source)
}

// Ends behind the last message: reads the source to its end, and writes the lines that wait.
fn finish<'a, R: Wait, S: ByteSource, K: ByteSink, P: Places>(
    rt: &R,
    source: LentSource<'a, S, P>,
    out: Vec<u8>,
    sink: &mut K,
) -> Ended<'a, S>
    requires order { P.write_faults ≤ K.faults sink.old }
    requires calm { IsTrue K.tells → K.faults sink.old ≡ P.write_faults }
    requires reached { IsTrue S.tells → Reached K.tells (read_frames standard P.left) End P.taken (K.taken sink.old) out.items }
    ensures same_source { result.source.ghost_name ≡ P.source }
    ensures ends { UnframeEnds S.tells K.tells P.most
        (read_since P.left P.read_faults (S.left result.source.now) (S.faults result.source.now))
        (written_since P.taken P.write_faults (K.taken sink.new) (K.faults sink.new) (K.is_flushed sink.new)) result.ending }
{
    let mut source = source;
    match read_rest(rt, &mut source) {
        Ok(()) => match write_last(out.as_slice(), sink) {
            Ok(()) => give_back(Unframed::Done, source),
            Err(_) => give_back(Unframed::WriteFault, source),
        },
        Err(_) => give_up(source),
    }
}

// Reads a source to its end. Behind the last message nothing is left.
fn read_rest<R: Wait, S: ByteSource>(rt: &R, source: &mut S) -> Result<(), Failed>
    ensures { OnOk result (IsTrue S.tells → S.left source.new ≡ []) }
{
    for _ in rt.forever() {
        let mut byte = [0];
        match source.read(&mut byte) {
            Ok(0) => return Ok(()),
            Ok(_) => {}
            Err(failed) => return Err(failed),
        }
    }
    unreachable!()
}

// Ends at a wrong piece: writes the lines that wait, and its own.
fn finish_bad<'a, S: ByteSource, K: ByteSink, P: Places>(
    bad: BadFrame,
    offset: u64,
    source: LentSource<'a, S, P>,
    out: Vec<u8>,
    sink: &mut K,
) -> Ended<'a, S>
    requires order { P.write_faults ≤ K.faults sink.old }
    requires calm { IsTrue K.tells → K.faults sink.old ≡ P.write_faults }
    requires reached { IsTrue S.tells → Reached K.tells (read_frames standard P.left) (Ends bad) P.taken (K.taken sink.old) out.items }
    requires offset { IsTrue S.tells → (read_frames standard P.left).offset ≡ offset }
    ensures same_source { result.source.ghost_name ≡ P.source }
    ensures ends { UnframeEnds S.tells K.tells P.most
        (read_since P.left P.read_faults (S.left result.source.now) (S.faults result.source.now))
        (written_since P.taken P.write_faults (K.taken sink.new) (K.faults sink.new) (K.is_flushed sink.new)) result.ending }
{
    let mut out = out;
    match put_bad(offset, bad, &mut out) {
        Ok(()) => match write_last(out.as_slice(), sink) {
            Ok(()) => give_back(Unframed::BadFrame, source),
            Err(_) => give_back(Unframed::WriteFault, source),
        },
        Err(_) => give_up(source),
    }
}
