//! The writing of the pieces of messages, and how it ends.
ghost use Rattle.std.specs.Prelude.{◌≡◌, ◌<◌, ◌++◌, [], IsTrue, true, false};
ghost use Rattle.rent_io.specs.Call.{reading, writing};
ghost use Rattle.frame_run.specs.Framing.{EndsText, FrameEnds, FramesText, pieces_in};
ghost use Rattle.frame_run.specs.Places.{written_since};

use crate::lent_sink::{LentSink, SinkPlaces, Written, give_sink_back, lend_sink};
use crate::message_line::message_of_line;
use crate::text::read_text;
use event_text::first_line;
use frame_io::FrameWriter;
use rent_io::{
    AsyncWriteRent as _, ByteSink, ByteSource, PollCount, Sink as _, SinkPoll, SinkStream,
};
use std::alloc::Global;
use std::marker::Brand;
use std::sync::Wait;

/// From how many bytes on pieces are written.
const PIECE: usize = 65536;

/// How the writing of the pieces of messages ends. (not in monoio)
#[derive(Clone, Copy, Debug, PartialEq, Eq)]
pub enum Framed {
    /// The source was read to its end, each of its lines writes a message, the pieces of all of them were written, and the sink is
    /// flushed.
    Done,
    /// The line of this number, counted from 1, is the first that writes no message. The source was read to its end, the pieces of
    /// the messages before it were written, and the sink is flushed.
    BadLine(u64),
    /// The source has more bytes than may be read. Nothing was written.
    TooLong,
    /// The source failed. Nothing was written.
    ReadFault,
    /// The sink failed.
    WriteFault,
    /// Memory ran out.
    OutOfMemory,
}

// What is written: the sink, by way of a writer of messages.
type Output<'b, K, P> = FrameWriter<SinkStream<LentSink<'b, K, P>>>;

/// Reads a source as lines `C HEX`, at most `most` bytes, and writes the pieces of the messages that they are: a channel, in decimal
/// digits, and the message's bytes, in lower-case hexadecimal digits, or `-` if it has none. All is read before anything is written.
/// At the first line that writes no message no more is written. `Framed` says when each end comes. Pieces are collected before they
/// are written; those that wait are lost at an end other than `Done` and `BadLine`. It is not claimed that it ends. (not in monoio)
pub fn frame_all<R: Wait, S: ByteSource, K: ByteSink>(
    rt: &R,
    alloc: Global,
    most: usize,
    source: &mut S,
    sink: &mut K,
) -> Framed
    ensures { FrameEnds S.tells K.tells most (reading S.left S.faults source.old source.new)
        (writing K.taken K.faults K.is_flushed sink.old sink.new) result }
{
    match read_text(rt, alloc, most, source) {
        Ok(text) => frame_text(rt, alloc, text.as_slice(), sink),
        Err(ending) => ending,
    }
}

// Writes the pieces of the messages that the lines of a text write.
fn frame_text<R: Wait, K: ByteSink>(rt: &R, alloc: Global, text: &[u8], sink: &mut K) -> Framed
    ensures { FramesText K.tells text.now (writing K.taken K.faults K.is_flushed sink.old sink.new) result }
{
    let written = Written {
        sink,
        ending: Framed::OutOfMemory,
    };
    let written = frame_at::<R, K, Brand>(rt, alloc, text, written);
    let Written { sink: _, ending } = written;
    ending
}

// The same of a sink at the places of the type.
fn frame_at<'b, R: Wait, K: ByteSink, P: SinkPlaces>(
    rt: &R,
    alloc: Global,
    text: &[u8],
    written: Written<'b, K>,
) -> Written<'b, K>
    requires text { P.text ≡ text.now }
    requires sink { written.sink.ghost_name ≡ P.sink }
    requires taken { K.taken written.sink.now ≡ P.taken }
    requires write_faults { K.faults written.sink.now ≡ P.write_faults }
    ensures same_sink { result.sink.ghost_name ≡ P.sink }
    ensures ends { FramesText K.tells P.text
        (written_since P.taken P.write_faults (K.taken result.sink.now) (K.faults result.sink.now) (K.is_flushed result.sink.now))
        result.ending }
{
    let sink: LentSink<'b, K, P> = lend_sink(written);
    let writer = FrameWriter::new(alloc, SinkStream::new(sink));
    send_lines(rt, alloc, text, writer)
}

// Sends the messages of the lines of a text, until a line is wrong or a call has failed.
fn send_lines<'b, R: Wait, K: ByteSink, P: SinkPlaces>(
    rt: &R,
    alloc: Global,
    text: &[u8],
    writer: Output<'b, K, P>,
) -> Written<'b, K>
    requires text { P.text ≡ text.now }
    requires empty { writer.held ≡ [] }
    requires taken { IsTrue K.tells → K.taken writer.inner.sink.sink.now ≡ P.taken }
    requires calm { writer.inner.sink.failures ≡ 0 }
    ensures same_sink { result.sink.ghost_name ≡ P.sink }
    ensures ends { FramesText K.tells P.text
        (written_since P.taken P.write_faults (K.taken result.sink.now) (K.faults result.sink.now) (K.is_flushed result.sink.now))
        result.ending }
{
    let mut writer = writer;
    let mut rest = text;
    let mut number: u64 = 0;
    while !rest.is_empty() {
        let (line, behind) = first_line(rest);
        number += 1;
        let message = match message_of_line(alloc, line) {
            Ok(Some(message)) => message,
            Ok(None) => return finish(rt, Framed::BadLine(number), writer),
            Err(_) => return give_up(Framed::OutOfMemory, writer),
        };
        match writer.poll_send(message, 0) {
            SinkPoll::Ready(Ok(())) => {}
            // No message of a line is too long, and no send waits: memory ran out.
            _ => return give_up(Framed::OutOfMemory, writer),
        }
        if writer.buffered().len() >= PIECE {
            let drained = drain(rt, writer);
            let Drained {
                writer: next,
                failed,
            } = drained;
            writer = next;
            if failed {
                return give_up(Framed::WriteFault, writer);
            }
        }
        rest = behind;
    }
    finish(rt, Framed::Done, writer)
}

// A writer that was written out, or whose sink failed.
struct Drained<'b, K: ByteSink, P: SinkPlaces> {
    writer: Output<'b, K, P>,
    failed: bool,
}

// Writes what is buffered, until nothing is or the sink fails.
fn drain<'b, R: Wait, K: ByteSink, P: SinkPlaces>(
    rt: &R,
    writer: Output<'b, K, P>,
) -> Drained<'b, K, P>
    requires calm { writer.inner.sink.failures ≡ 0 }
    ensures joined { IsTrue K.tells → K.taken result.writer.inner.sink.sink.now ++ result.writer.held
        ≡ K.taken writer.entry.inner.sink.sink.now ++ writer.entry.held }
    ensures failed { result.failed ≡ true → 0 < result.writer.inner.sink.failures }
    ensures calm { result.failed ≡ false → result.writer.inner.sink.failures ≡ 0 }
    ensures empty { result.failed ≡ false → result.writer.held ≡ [] }
{
    let mut writer = writer;
    for _ in rt.forever() {
        if writer.buffered().is_empty() {
            return Drained {
                writer,
                failed: false,
            };
        }
        let _ = writer.flush_once(0);
        if writer.get_ref().get_ref().has_failed() {
            return Drained {
                writer,
                failed: true,
            };
        }
    }
    unreachable!()
}

// Ends behind the last message that is sent: writes what is buffered, and flushes.
fn finish<'b, R: Wait, K: ByteSink, P: SinkPlaces>(
    rt: &R,
    ending: Framed,
    writer: Output<'b, K, P>,
) -> Written<'b, K>
    requires ends { EndsText P.text ending }
    requires joined { IsTrue K.tells → K.taken writer.inner.sink.sink.now ++ writer.held ≡ P.taken ++ pieces_in P.text }
    requires calm { writer.inner.sink.failures ≡ 0 }
    ensures same_sink { result.sink.ghost_name ≡ P.sink }
    ensures ends { FramesText K.tells P.text
        (written_since P.taken P.write_faults (K.taken result.sink.now) (K.faults result.sink.now) (K.is_flushed result.sink.now))
        result.ending }
{
    let drained = drain(rt, writer);
    let Drained { writer, failed } = drained;
    if failed {
        return give_up(Framed::WriteFault, writer);
    }
    let mut stream = writer.into_inner();
    match stream.poll_flush(0) {
        PollCount::Ready(Ok(_)) => give_sink_back(ending, stream.into_inner()),
        PollCount::Ready(Err(_)) => give_sink_back(Framed::WriteFault, stream.into_inner()),
        // A sink never pauses.
        PollCount::Pending | PollCount::Again => unreachable!(),
    }
}

// Ends here. What is buffered is lost.
fn give_up<'b, K: ByteSink, P: SinkPlaces>(
    ending: Framed,
    writer: Output<'b, K, P>,
) -> Written<'b, K>
    ensures ending { result.ending ≡ ending }
    ensures sink { result.sink.now ≡ writer.entry.inner.sink.sink.now }
    ensures same_sink { result.sink.ghost_name ≡ P.sink }
{
    give_sink_back(ending, writer.into_inner().into_inner())
}
