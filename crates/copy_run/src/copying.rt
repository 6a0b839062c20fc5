//! The copy, and how it ends.
ghost use Rattle.std.specs.Prelude.{◌≡◌, ◌≤◌, ◌+◌, ◌++◌, [], IfOk, IfErr, OnOk, OnErr, IsTrue, false, length, drop, max, min};
ghost use Rattle.rent_buf.specs.Counts.{Rose};
ghost use Rattle.rent_io.specs.Call.{reading, writing};
ghost use Rattle.stream_util.specs.BufReader.{fresh_reader};
ghost use Rattle.stream_util.specs.Copy.{held_in};
ghost use Rattle.stream_util.specs.PrefixedReadIo.{prefix_left};
ghost use Rattle.copy_run.specs.Ending.{CopyEnds};
ghost use Rattle.copy_run.specs.Pieces.{IsFirst, PieceMoved, PieceRuns, delivered_by};
ghost use Rattle.copy_run.specs.Places.{Joins, read_since, written_since};

use crate::front::Front;
use crate::lent::{Ends, LentSink, LentSource, Lents, Places, give_back, lend};
use crate::outlet::Outlet;
use crate::piece::Piece;
use rent_buf::ByteList;
use rent_io::{
    AsyncBufRead, AsyncWriteRent, ByteSink, ByteSource, Failed, PollCount, SinkStream,
    SourceStream, Step,
};
use std::alloc::Global;
use std::marker::Brand;
use stream_util::{BufReader, BufWriter, Copied, Copy, MOST_HELD, PrefixedReadIo};

/// How a copy ends. (not in monoio)
#[derive(Clone, Copy, Debug, PartialEq, Eq)]
pub enum Ending {
    /// The source was read to its end, all was written, and the sink is flushed.
    Done,
    /// The source has more bytes than may be copied.
    TooLong,
    /// The source failed.
    ReadFault,
    /// The sink failed.
    WriteFault,
    /// There was no memory for the streams. Nothing was read or written.
    OutOfMemory,
}

// What is read: the prefix, and then the source, by way of a buffer.
type Reader<S> = BufReader<PrefixedReadIo<SourceStream<S>, Front>>;

/// Writes a prefix and then all that a source gives, at most `most` bytes, and flushes. A buffer of `capacity` bytes stands in front of
/// the writes, and one of as many, at least 4096, behind the reads. Memory is taken before the first read, and not for what is copied.
/// However it ends, the first bytes of the prefix and of what the source gave, in order, are all that is written; `Ending` says when
/// each end comes. (not in monoio)
pub fn copy_all<S: ByteSource, K: ByteSink>(
    alloc: Global,
    capacity: usize,
    most: usize,
    prefix: ByteList,
    source: &mut S,
    sink: &mut K,
) -> Ending
    ensures { CopyEnds S.tells K.tells most prefix (reading S.left S.faults source.old source.new)
        (writing K.taken K.faults K.is_flushed sink.old sink.new) result }
{
    let ends = Ends {
        source,
        sink,
        ending: Ending::OutOfMemory,
    };
    let ends = copy_at::<S, K, Brand>(alloc, capacity, most, prefix, ends);
    let Ends {
        source: _,
        sink: _,
        ending,
    } = ends;
    ending
}

// The same of ends at the places of the type.
fn copy_at<'a, 'b, S: ByteSource, K: ByteSink, P: Places>(
    alloc: Global,
    capacity: usize,
    most: usize,
    prefix: ByteList,
    ends: Ends<'a, 'b, S, K>,
) -> Ends<'a, 'b, S, K>
    requires most { P.most ≡ most }
    requires prefix { prefix ≡ P.prefix }
    requires source { ends.source.ghost_name ≡ P.source }
    requires sink { ends.sink.ghost_name ≡ P.sink }
    requires left { S.left ends.source.now ≡ P.left }
    requires taken { K.taken ends.sink.now ≡ P.taken }
    requires read_faults { S.faults ends.source.now ≡ P.read_faults }
    requires write_faults { K.faults ends.sink.now ≡ P.write_faults }
    ensures same_source { result.source.ghost_name ≡ P.source }
    ensures same_sink { result.sink.ghost_name ≡ P.sink }
    ensures ends { CopyEnds S.tells K.tells P.most P.prefix
        (read_since P.left P.read_faults (S.left result.source.now) (S.faults result.source.now))
        (written_since P.taken P.write_faults (K.taken result.sink.now) (K.faults result.sink.now) (K.is_flushed result.sink.now))
        result.ending }
{
    let budget = prefix.len() as u128 + most as u128;
    let lents: Lents<'a, 'b, S, K, P> = lend(ends);
    let Lents { source, sink } = lents;
    let reader = match reader_of(alloc, capacity, prefix, source) {
        Ok(reader) => reader,
        Err(source) => return give_back(Ending::OutOfMemory, source, sink),
    };
    let writer = match BufWriter::with_capacity(alloc, capacity, SinkStream::new(sink)) {
        Ok(writer) => Outlet::new(writer),
        Err(back) => {
            let (_, stream) = back;
            return give_back(Ending::OutOfMemory, source_of(reader), stream.into_inner());
        }
    };
    match Copy::new(alloc) {
        Ok(copy) => pump(budget, copy, reader, writer),
        Err(_) => give_up(Ending::OutOfMemory, reader, writer),
    }
}

// A prefix and a source as a stream with a buffer, which takes what a copy holds at most. If memory runs out, the same source comes back.
fn reader_of<S: ByteSource>(
    alloc: Global,
    capacity: usize,
    prefix: ByteList,
    source: S,
) -> Result<Reader<S>, S>
    ensures ok { IfOk result (λ reader. reader ≡ fresh_reader (record { io = source; prefix = prefix; finished = false })
        (max (max capacity MOST_HELD) 1)) }
    ensures err { IfErr result (λ back. back ≡ source) }
{
    let stream = match SourceStream::new(alloc, source) {
        Ok(stream) => stream,
        Err(back) => {
            let (_, source) = back;
            return Err(source);
        }
    };
    let io = PrefixedReadIo::new(stream, Front::new(prefix));
    match BufReader::with_capacity(alloc, capacity.max(MOST_HELD), io) {
        Ok(reader) => Ok(reader),
        Err(back) => {
            let (_, io) = back;
            Err(io.into_inner().into_inner())
        }
    }
}

// The source of a reader. What is buffered is lost.
fn source_of<S: ByteSource>(reader: Reader<S>) -> S
    ensures { result ≡ reader.inner.io }
{
    reader.into_inner().into_inner().into_inner()
}

// Copies until the source has ended, more than `budget` bytes have come, or a call has failed.
fn pump<'a, 'b, S: ByteSource, K: ByteSink, P: Places>(
    budget: u128,
    copy: Copy,
    reader: Reader<LentSource<'a, S, P>>,
    writer: Outlet<LentSink<'b, K, P>>,
) -> Ends<'a, 'b, S, K>
    requires joins { Joins S.tells K.tells (delivered_by (K.taken writer.writer.inner.sink.sink.now) writer.writer) copy.held
        (reader.held ++ (prefix_left reader.inner.finished reader.inner.prefix ++ S.left reader.inner.io.source.now))
        (P.taken ++ (P.prefix ++ P.left)) }
    requires budget { IsTrue S.tells → length (reader.held ++ (prefix_left reader.inner.finished reader.inner.prefix
        ++ S.left reader.inner.io.source.now)) + P.most ≡ length P.left + budget }
    ensures same_source { result.source.ghost_name ≡ P.source }
    ensures same_sink { result.sink.ghost_name ≡ P.sink }
    ensures ends { CopyEnds S.tells K.tells P.most P.prefix
        (read_since P.left P.read_faults (S.left result.source.now) (S.faults result.source.now))
        (written_since P.taken P.write_faults (K.taken result.sink.now) (K.faults result.sink.now) (K.is_flushed result.sink.now))
        result.ending }
{
    let mut budget = budget;
    let mut copy = copy;
    let mut reader = reader;
    let mut writer = writer;
    loop {
        let (step, used) = copy_piece(copy, &mut reader, &mut writer, budget);
        budget -= used as u128;
        match step {
            Step::Again(next) => copy = next,
            Step::Ready(_) => return give_up(Ending::WriteFault, reader, writer),
            Step::Pending(next) => {
                if !reader.buffer().is_empty() {
                    return give_up(Ending::TooLong, reader, writer);
                }
                match refill(&mut reader) {
                    Ok(0) => return drain(source_of(reader), next, writer),
                    Ok(_) => copy = next,
                    Err(_) => return give_up(Ending::ReadFault, reader, writer),
                }
            }
        }
    }
}

// Copies what is buffered, at most `most` bytes, and answers how many of them. Where that many are copied, it waits.
fn copy_piece<R: AsyncBufRead, K: ByteSink>(
    copy: Copy,
    reader: &mut R,
    writer: &mut Outlet<K>,
    most: u128,
) -> (Step<Copy, Copied>, usize)
    ensures within { result.1 ≤ min most (length (R.buffered reader.old)) }
    ensures buffered { R.buffered reader.new ≡ drop result.1 (R.buffered reader.old) }
    ensures moved { PieceMoved R.tells K.tells (R.buffered reader.old) (R.reader reader.old).left (R.reader reader.new).left
        (delivered_by (K.taken writer.old.writer.inner.sink) writer.old.writer)
        (delivered_by (K.taken writer.new.writer.inner.sink) writer.new.writer) copy.held (held_in result.0) result.1 }
    ensures runs { PieceRuns (min most (length (R.buffered reader.old))) result.1 (K.faults writer.old.writer.inner.sink)
        (K.faults writer.new.writer.inner.sink) copy result.0 }
{
    let bytes = reader.buffered();
    let size = lesser(most, bytes.len());
    let (front, _) = bytes.split_at(size);
    let mut piece = Piece::new(front);
    let step = copy.run(&mut piece, writer, 1, u64::MAX);
    let used = size - piece.left().len();
    reader.consume(used);
    (step, used)
}

// The lesser of both.
fn lesser(most: u128, len: usize) -> usize
    ensures { result ≡ min most len }
{
    if most < len as u128 {
        return most as usize;
    }
    len
}

// Reads where nothing is buffered, and answers how many bytes came: none only at the end.
fn refill<S: ByteSource>(reader: &mut Reader<S>) -> Result<usize, Failed>
    requires { reader.old.held ≡ [] }
    ensures count { IfOk result (λ count. length reader.new.held ≡ count) }
    ensures left { IsTrue S.tells → reader.new.held ++ (prefix_left reader.new.inner.finished reader.new.inner.prefix
        ++ S.left reader.new.inner.io) ≡ reader.old.held ++ (prefix_left reader.old.inner.finished reader.old.inner.prefix
        ++ S.left reader.old.inner.io) }
    ensures end { IfOk result (λ count. count ≡ 0 → IsTrue S.tells → reader.new.held
        ++ (prefix_left reader.new.inner.finished reader.new.inner.prefix ++ S.left reader.new.inner.io) ≡ []) }
    ensures failed { OnErr result (Rose (S.faults reader.old.inner.io) (S.faults reader.new.inner.io)) }
{
    match reader.poll_fill(0) {
        PollCount::Ready(Ok(_)) => Ok(reader.buffer().len()),
        PollCount::Ready(Err(_)) => Err(Failed),
        // A source never pauses.
        PollCount::Pending | PollCount::Again => unreachable!(),
    }
}

// Ends here. What is buffered is lost.
fn give_up<'a, 'b, S: ByteSource, K: ByteSink, P: Places>(
    ending: Ending,
    reader: Reader<LentSource<'a, S, P>>,
    writer: Outlet<LentSink<'b, K, P>>,
) -> Ends<'a, 'b, S, K>
    ensures ending { result.ending ≡ ending }
    ensures source { result.source.now ≡ reader.entry.inner.io.source.now }
    ensures sink { result.sink.now ≡ writer.entry.writer.inner.sink.sink.now }
    ensures same_source { result.source.ghost_name ≡ P.source }
    ensures same_sink { result.sink.ghost_name ≡ P.sink }
{
    give_back(ending, source_of(reader), writer.into_inner().into_inner())
}

// Writes what a copy holds and what is buffered, and flushes.
fn drain<'a, 'b, S: ByteSource, K: ByteSink, P: Places>(
    source: LentSource<'a, S, P>,
    copy: Copy,
    writer: Outlet<LentSink<'b, K, P>>,
) -> Ends<'a, 'b, S, K>
    requires few { IsTrue S.tells → length P.left ≤ P.most }
    requires ended { IsTrue S.tells → S.left source.source.now ≡ [] }
    requires all { IsTrue S.tells → IsTrue K.tells → delivered_by (K.taken writer.writer.inner.sink.sink.now) writer.writer ++ copy.held
        ≡ P.taken ++ (P.prefix ++ P.left) }
    ensures same_source { result.source.ghost_name ≡ P.source }
    ensures same_sink { result.sink.ghost_name ≡ P.sink }
    ensures ends { CopyEnds S.tells K.tells P.most P.prefix
        (read_since P.left P.read_faults (S.left result.source.now) (S.faults result.source.now))
        (written_since P.taken P.write_faults (K.taken result.sink.now) (K.faults result.sink.now) (K.is_flushed result.sink.now))
        result.ending }
{
    let mut writer = writer;
    match send_all(copy, &mut writer) {
        Ok(()) => flush(source, writer.into_inner()),
        Err(_) => give_back(Ending::WriteFault, source, writer.into_inner().into_inner()),
    }
}

// Writes what a copy holds, and what is buffered.
fn send_all<K: ByteSink>(copy: Copy, writer: &mut Outlet<K>) -> Result<(), Failed>
    ensures empty { OnOk result (writer.new.writer.held ≡ []) }
    ensures all { OnOk result (IsTrue K.tells → delivered_by (K.taken writer.new.writer.inner.sink) writer.new.writer
        ≡ delivered_by (K.taken writer.old.writer.inner.sink) writer.old.writer ++ copy.held) }
    ensures first { IsTrue K.tells → IsFirst (delivered_by (K.taken writer.new.writer.inner.sink) writer.new.writer)
        (delivered_by (K.taken writer.old.writer.inner.sink) writer.old.writer ++ copy.held) }
    ensures failed { OnErr result (Rose (K.faults writer.old.writer.inner.sink) (K.faults writer.new.writer.inner.sink)) }
{
    send_held(copy, writer)?;
    writer.push_all(0)
}

// Writes what a copy holds.
fn send_held<K: ByteSink>(copy: Copy, writer: &mut Outlet<K>) -> Result<(), Failed>
    ensures all { OnOk result (IsTrue K.tells → delivered_by (K.taken writer.new.writer.inner.sink) writer.new.writer
        ≡ delivered_by (K.taken writer.old.writer.inner.sink) writer.old.writer ++ copy.held) }
    ensures first { IsTrue K.tells → IsFirst (delivered_by (K.taken writer.new.writer.inner.sink) writer.new.writer)
        (delivered_by (K.taken writer.old.writer.inner.sink) writer.old.writer ++ copy.held) }
    ensures failed { OnErr result (Rose (K.faults writer.old.writer.inner.sink) (K.faults writer.new.writer.inner.sink)) }
    ensures order { K.faults writer.old.writer.inner.sink ≤ K.faults writer.new.writer.inner.sink }
{
    let mut copy = copy;
    loop {
        let mut none: &[u8] = &[];
        match copy.run(&mut none, writer, 1, u64::MAX) {
            Step::Again(next) => copy = next,
            Step::Ready(copied) => {
                let Copied { result, rest: _ } = copied;
                return match result {
                    Ok(_) => Ok(()),
                    Err(_) => Err(Failed),
                };
            }
            // No slice and no sink pauses.
            Step::Pending(_) => unreachable!(),
        }
    }
}

// Flushes.
fn flush<'a, 'b, S: ByteSource, K: ByteSink, P: Places>(
    source: LentSource<'a, S, P>,
    stream: SinkStream<LentSink<'b, K, P>>,
) -> Ends<'a, 'b, S, K>
    requires few { IsTrue S.tells → length P.left ≤ P.most }
    requires ended { IsTrue S.tells → S.left source.source.now ≡ [] }
    requires all { IsTrue S.tells → IsTrue K.tells → K.taken stream.sink.sink.now ≡ P.taken ++ (P.prefix ++ P.left) }
    ensures same_source { result.source.ghost_name ≡ P.source }
    ensures same_sink { result.sink.ghost_name ≡ P.sink }
    ensures ends { CopyEnds S.tells K.tells P.most P.prefix
        (read_since P.left P.read_faults (S.left result.source.now) (S.faults result.source.now))
        (written_since P.taken P.write_faults (K.taken result.sink.now) (K.faults result.sink.now) (K.is_flushed result.sink.now))
        result.ending }
{
    let mut stream = stream;
    match stream.poll_flush(0) {
        PollCount::Ready(Ok(_)) => give_back(Ending::Done, source, stream.into_inner()),
        PollCount::Ready(Err(_)) => give_back(Ending::WriteFault, source, stream.into_inner()),
        // A sink never pauses.
        PollCount::Pending | PollCount::Again => unreachable!(),
    }
}
