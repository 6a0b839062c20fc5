// Splices: bytes that go from one stream to another by way of a pipe in memory.
ghost use Rattle.std.specs.Prelude.{◌≡◌, ◌≤◌, [], Bool, true, length, drop, None, min};
ghost use Rattle.rent_io.specs.Counts.{AfterCall};
ghost use Rattle.rent_io.specs.Polls.{IsFlushCaused};
ghost use Rattle.rent_io.specs.Reader.{Reader};
ghost use Rattle.rent_io.specs.Scripted.{as_reader, as_writer};
ghost use Rattle.rent_io.specs.Writer.{Writer, EndsStay};
ghost use Rattle.stream_util.specs.Splice.{SplicesIn, SplicesOut, IsSpliceCaused, SplicesNoneOf};

use rent_buf::{ByteList, IoFault, Rent, Slice, SliceMut};
use rent_io::{AsyncReadRent, AsyncWriteRent, PIECE, PollBuf, PollCount, ScriptedStream};
use std::alloc::Global;
use std::marker::Model;
use std::mem;

/// A pipe in memory (not in monoio, which takes one of the kernel). A clause sees it as its bytes, the oldest first.
#[derive(Debug, Drop)]
pub struct MemPipe {
    buf: Vec<u8>,
    // How many bytes at the start of the memory have left the pipe.
    start: usize,
}

impl Model for MemPipe {
    ghost use Rattle.std.specs.Prelude.{◌≤◌, List, ℕ, drop, length};

    ghost Value = { List ℕ };

    ghost view = { λ p. drop p.start p.buf.items };

    ghost invariant = { λ p. p.start ≤ length p.buf.items };
}

impl MemPipe {
    /// An empty pipe. It takes no memory before the first byte.
    pub fn new(alloc: Global) -> MemPipe
        ensures { result ≡ [] }
    {
        MemPipe {
            buf: Vec::new(alloc),
            start: 0,
        }
    }

    /// The bytes.
    pub fn bytes(&self) -> &[u8]
        ensures { result.now ≡ self.now }
    {
        &self.buf.as_slice()[self.start..]
    }

    // The bytes as a list.
    pub(crate) fn into_list(self) -> ByteList
        ensures { result ≡ self }
    {
        let MemPipe { buf, start } = self;
        ByteList::from_vec(moved(buf, start))
    }

    // Moves the bytes to the start of the memory, if as many have left it.
    fn settle(&mut self)
        ensures { self.new ≡ self.old }
    {
        if self.start < self.buf.len() - self.start {
            return;
        }
        let empty = Vec::new(*self.buf.allocator());
        let buf = mem::replace(&mut self.buf, empty);
        self.buf = moved(buf, self.start);
        self.start = 0;
    }
}

// The bytes from a place on, moved to the start of their memory.
fn moved(buf: Vec<u8>, start: usize) -> Vec<u8>
    requires { start ≤ length buf.items }
    ensures { result.items ≡ drop start buf.items }
{
    let mut buf = buf;
    let len = buf.len();
    buf.as_mut_slice().copy_within(start..len, 0);
    buf.truncate(len - start);
    buf
}

/// A stream whose bytes can be spliced into a pipe (monoio: `SpliceSource`).
pub trait SpliceSource {
    /// Whether it tells which bytes are left.
    ghost tells: { Bool };

    /// The bytes that are left, where it tells them, and its counts.
    ghost source: { Self → Reader };

    /// Reads the next bytes into a pipe, behind those that are in it (monoio: `splice_to_pipe`), at most `len` of them, and
    /// answers their number: 0 only where `len` is 0, or at the end of the stream. `OutOfMemory` where the pipe couldn't
    /// grow. At `Pending`, `Again` and a fault nothing was read.
    fn poll_splice_to(&mut self, pipe: &mut MemPipe, len: u32, task: u64) -> PollCount
        ensures splices { SplicesIn tells (source self.old).left (source self.new).left pipe.old pipe.new len result }
        ensures none { SplicesNoneOf len (source self.old).counts (source self.new).counts result }
        ensures cause { IsSpliceCaused task (source self.old).counts (source self.new).counts result }
        ensures counts { AfterCall None (source self.old).counts (source self.new).counts };
}

/// A stream that bytes can be spliced to out of a pipe (monoio: `SpliceDestination`).
pub trait SpliceDestination {
    /// Whether it tells which bytes were delivered.
    ghost tells: { Bool };

    /// The bytes that were delivered, where it tells them, and its counts.
    ghost destination: { Self → Writer };

    /// Writes the first bytes of a pipe (monoio: `splice_from_pipe`), at most `len` of them, and answers their number. They
    /// leave the pipe. At `Pending`, `Again` and a fault nothing was written.
    fn poll_splice_from(&mut self, pipe: &mut MemPipe, len: u32, task: u64) -> PollCount
        ensures splices { SplicesOut tells (destination self.old).delivered (destination self.new).delivered pipe.old pipe.new len result }
        ensures none { SplicesNoneOf (min len (length pipe.old)) (destination self.old).counts (destination self.new).counts result }
        ensures ends { EndsStay (destination self.old) (destination self.new) }
        ensures cause { IsFlushCaused task (destination self.old).counts (destination self.new).counts result }
        ensures counts { AfterCall None (destination self.old).counts (destination self.new).counts };
}

// One read of a stream of at most so many bytes, and at most `PIECE`, which join the end of a pipe.
fn read_into<A: AsyncReadRent>(reader: &mut A, pipe: &mut MemPipe, len: u32, task: u64) -> PollCount
    ensures splices { SplicesIn A.tells (A.reader reader.old).left (A.reader reader.new).left pipe.old pipe.new len result }
    ensures none { SplicesNoneOf len (A.reader reader.old).counts (A.reader reader.new).counts result }
    ensures cause { IsSpliceCaused task (A.reader reader.old).counts (A.reader reader.new).counts result }
    ensures counts { AfterCall None (A.reader reader.old).counts (A.reader reader.new).counts }
{
    pipe.settle();
    let want = PIECE.min(len as usize);
    if pipe.buf.reserve(want).is_err() {
        return PollCount::Ready(Err(IoFault::OutOfMemory));
    }
    let empty = Vec::new(*pipe.buf.allocator());
    let items = mem::replace(&mut pipe.buf, empty);
    let at = items.len();
    let rent = match Rent::from_vec(items, at + want) {
        Ok(rent) => rent,
        Err((_, items)) => {
            pipe.buf = items;
            return PollCount::Ready(Err(IoFault::OutOfMemory));
        }
    };
    match reader.poll_read(SliceMut::new(rent, at, at + want), task) {
        PollBuf::Ready(Ok(n), part) => {
            pipe.buf = part.into_inner().into_vec();
            PollCount::Ready(Ok(n as u64))
        }
        PollBuf::Ready(Err(fault), part) => {
            pipe.buf = part.into_inner().into_vec();
            PollCount::Ready(Err(fault))
        }
        PollBuf::Pending(part) => {
            pipe.buf = part.into_inner().into_vec();
            PollCount::Pending
        }
        PollBuf::Again(part) => {
            pipe.buf = part.into_inner().into_vec();
            PollCount::Again
        }
    }
}

// One write to a stream of the first bytes of a pipe, at most so many. What it took leaves the pipe.
fn write_from<A: AsyncWriteRent>(
    writer: &mut A,
    pipe: &mut MemPipe,
    len: u32,
    task: u64,
) -> PollCount
    ensures splices { SplicesOut A.tells (A.writer writer.old).delivered (A.writer writer.new).delivered pipe.old pipe.new len result }
    ensures none { SplicesNoneOf (min len (length pipe.old)) (A.writer writer.old).counts (A.writer writer.new).counts result }
    ensures ends { EndsStay (A.writer writer.old) (A.writer writer.new) }
    ensures cause { IsFlushCaused task (A.writer writer.old).counts (A.writer writer.new).counts result }
    ensures counts { AfterCall None (A.writer writer.old).counts (A.writer writer.new).counts }
{
    let empty = Vec::new(*pipe.buf.allocator());
    let buf = mem::replace(&mut pipe.buf, empty);
    let start = pipe.start;
    let end = start + (buf.len() - start).min(len as usize);
    pipe.start = 0;
    match writer.poll_write(Slice::new(buf, start, end), task) {
        PollBuf::Ready(Ok(n), part) => {
            pipe.buf = part.into_inner();
            pipe.start = start + n;
            PollCount::Ready(Ok(n as u64))
        }
        PollBuf::Ready(Err(fault), part) => {
            pipe.buf = part.into_inner();
            pipe.start = start;
            PollCount::Ready(Err(fault))
        }
        PollBuf::Pending(part) => {
            pipe.buf = part.into_inner();
            pipe.start = start;
            PollCount::Pending
        }
        PollBuf::Again(part) => {
            pipe.buf = part.into_inner();
            pipe.start = start;
            PollCount::Again
        }
    }
}

impl SpliceSource for ScriptedStream {
    ghost tells = { true };

    ghost source = { as_reader };

    fn poll_splice_to(&mut self, pipe: &mut MemPipe, len: u32, task: u64) -> PollCount {
        read_into(self, pipe, len, task)
    }
}

impl SpliceDestination for ScriptedStream {
    ghost tells = { true };

    ghost destination = { as_writer };

    fn poll_splice_from(&mut self, pipe: &mut MemPipe, len: u32, task: u64) -> PollCount {
        write_from(self, pipe, len, task)
    }
}

impl<A: SpliceSource> SpliceSource for &mut A {
    ghost tells = { A.tells };

    ghost source = { λ s. A.source s.now };

    fn poll_splice_to(&mut self, pipe: &mut MemPipe, len: u32, task: u64) -> PollCount {
        (**self).poll_splice_to(pipe, len, task)
    }
}

impl<A: SpliceDestination> SpliceDestination for &mut A {
    ghost tells = { A.tells };

    ghost destination = { λ s. A.destination s.now };

    fn poll_splice_from(&mut self, pipe: &mut MemPipe, len: u32, task: u64) -> PollCount {
        (**self).poll_splice_from(pipe, len, task)
    }
}
