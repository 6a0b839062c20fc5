// Reads into buffers of fixed length.
use crate::tests::base::{Why, are_bytes, is_like, is_well, list_of, made, nums_of, stream};
use rent_buf::{ByteList, FixedVec};
use rent_io::{AsyncBufRead as _, AsyncReadRent, MemSource, PollBuf, PollCount, SourceStream};
use std::alloc::Global;
use std::test::Fail;
use stream_util::{BufReader, BufWriter, Duplex, PrefixedReadIo};

// Reads into four bytes give these, one behind the other.
fn read_fixed<A: AsyncReadRent + Drop>(
    alloc: Global,
    mut io: A,
    wants: &[&str],
) -> Result<(), Why> {
    for want in wants {
        let buf = FixedVec::from_vec(vec![in alloc; 46; 4]?);
        let PollBuf::Ready(Ok(n), back) = io.poll_fixed(buf, 0) else {
            return Err(Why::NotSo);
        };
        let (front, _) = back.as_slice().split_at(n);
        are_bytes("a read into four bytes", front, want)?;
    }
    Ok(())
}

// A stream of these bytes over a source.
fn source(alloc: Global, bytes: &str) -> Result<SourceStream<MemSource>, Why> {
    let source = MemSource::new(list_of(alloc, bytes)?, nums_of(alloc, &[])?);
    made(SourceStream::new(alloc, source))
}

// A stream of `world` over a source, behind a prefix `hello `.
fn prefixed(alloc: Global) -> Result<PrefixedReadIo<SourceStream<MemSource>, MemSource>, Why> {
    let prefix = MemSource::new(list_of(alloc, "hello ")?, nums_of(alloc, &[])?);
    Ok(PrefixedReadIo::new(source(alloc, "world")?, prefix))
}

// A source, behind a prefix, and beside and inside a writer; and a stream that has no such read of its own.
fn all_fixed(alloc: Global) -> Result<(), Why> {
    read_fixed(alloc, source(alloc, "abcdef")?, &["abcd", "ef", ""])?;
    read_fixed(alloc, prefixed(alloc)?, &["hell", "o ", "worl", "d", ""])?;
    read_fixed(
        alloc,
        Duplex::new(source(alloc, "abcdef")?, ()),
        &["abcd", "ef"],
    )?;
    let writer = made(BufWriter::with_capacity(alloc, 4, source(alloc, "abcdef")?))?;
    read_fixed(alloc, writer, &["abcd", "ef"])?;
    read_fixed(alloc, stream(alloc, b"abcdef", &[])?, &["abcd", "ef", ""])
}

// A fill of a reader over a source of 6000 bytes reads as many as the buffer takes.
fn filled(alloc: Global) -> Result<(), Why> {
    let bytes = ByteList::from_vec(vec![in alloc; 97; 6000]?);
    let stream = made(SourceStream::new(alloc, MemSource::new(bytes, nums_of(alloc, &[])?)))?;
    let mut io = made(BufReader::with_capacity(alloc, 5000, stream))?;
    is_like(
        "the first fill",
        io.poll_fill(0) == PollCount::Ready(Ok(5000)),
    )?;
    io.consume(5000);
    is_like(
        "the second fill",
        io.poll_fill(0) == PollCount::Ready(Ok(1000)),
    )
}

#[test]
fn reads_go_straight_into_a_buffer(rt: HostRuntime) -> Result<(), Fail> {
    is_well(&rt, "reads into four bytes", all_fixed(rt.alloc()));
    is_well(&rt, "fills", filled(rt.alloc()));
    Ok(())
}
