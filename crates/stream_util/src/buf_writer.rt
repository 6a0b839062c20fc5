// A stream that is written through a buffer.
ghost use Rattle.std.specs.Prelude.{◌≡◌, ◌+◌, ◌<◌, ◌≤◌, ◌++◌, [], length, drop, vec_capacity, IfOk, IfErr, IsTrue, None};
ghost use Rattle.rent_io.specs.Counts.{AfterCall};
ghost use Rattle.rent_io.specs.Polls.{CountsNone, IsWriteCaused, IsFlushCaused};
ghost use Rattle.rent_io.specs.Writer.{EndsStay, Writes, CountsDone, IfDone};
ghost use Rattle.rent_io.specs.Writer as write;
ghost use Rattle.std.specs.List.{concat};
ghost use Rattle.stream_util.specs.BufWriter.{Writing, Pushes, IsPushCaused, Offers, IfPushed, WriteRule};
ghost use Rattle.stream_util.specs.BufWriter.{FlushCompletes, OfferCompletes, WriteCompletes};
ghost use Rattle.stream_util.specs.BufWriter.{GetsFurther, IfAgain, IfCountAgain, IfOfferAgain};
ghost use Rattle.stream_util.specs.BufWriter.{fresh_writer, counts_over, writer_over};

use rent_buf::{
    ByteList, FixedVec, IoBuf, IoBufMut, IoFault, IoVecBuf, IoVecBufMut, OutOfMemory, Slice,
};
use rent_io::vectored::first_part;
use rent_io::{AsyncBufRead, AsyncReadRent, AsyncWriteRent, PollBuf, PollCount};
use std::alloc::Global;
use std::marker::Model;
use std::mem;

/// How many bytes a buffer takes, if its maker doesn't say.
pub const DEFAULT_CAPACITY: usize = 8192;

/// A stream with a buffer in front of its writes (monoio: `BufWriter`). A clause sees it as the stream inside, the bytes
/// that are buffered, and how many it buffers at most.
///
/// What is buffered when it is let go is lost, since a drop can't wait for a write: poll its flush or its shutdown until it
/// is done, or take it apart by `into_parts`.
#[derive(Debug, Drop)]
pub struct BufWriter<W> {
    inner: W,
    // Room for twice the capacity: bytes are moved to its start only after as many have left it.
    buf: Vec<u8>,
    // How many bytes at its start were written.
    sent: usize,
    capacity: usize,
    // How many writes of the buffer took some bytes.
    moved: u64,
}

impl<W> Model for BufWriter<W> {
    ghost use Rattle.std.specs.Prelude.{◌+◌, ◌≤◌, drop, length, vec_capacity};
    ghost use Rattle.stream_util.specs.BufWriter.{Writing};

    ghost Value = { Writing W };

    ghost view = { λ s. record {
      inner = s.inner;
      held = drop s.sent s.buf.items;
      capacity = s.capacity;
      moved = s.moved;
    } };

    ghost invariant = { λ s. (s.sent ≤ length s.buf.items) × (length s.buf.items ≤ s.sent + s.capacity)
        × (s.capacity ≤ vec_capacity s.buf) };
}

// What became of bytes that were offered to a buffer.
enum Offered {
    // They are buffered.
    Taken,
    // They are too many for an empty buffer.
    PassOn,
    // The buffer was written first, and the stream inside paused.
    Pending,
    // The buffer was written first, and another poll may be made at once.
    Again,
    // The buffer was written first, and a fault came.
    Fault(IoFault),
}

impl<W> BufWriter<W> {
    ghost use Rattle.std.specs.Borrow.{sem};
    ghost use Rattle.stream_util.specs.Lent.{LendsWriter};

    /// A stream with an empty buffer of 8192 bytes (monoio: `new`). If memory runs out, the same stream comes back.
    pub fn new(alloc: Global, inner: W) -> Result<BufWriter<W>, (OutOfMemory, W)>
        ensures ok { IfOk result (λ w. w ≡ fresh_writer inner DEFAULT_CAPACITY) }
        ensures err { IfErr result (λ refused. refused.1 ≡ inner) }
    {
        BufWriter::with_capacity(alloc, DEFAULT_CAPACITY, inner)
    }

    /// A stream with an empty buffer of `capacity` bytes (monoio: `with_capacity`). If memory runs out, the same stream
    /// comes back.
    pub fn with_capacity(
        alloc: Global,
        capacity: usize,
        inner: W,
    ) -> Result<BufWriter<W>, (OutOfMemory, W)>
        ensures ok { IfOk result (λ w. w ≡ fresh_writer inner capacity) }
        ensures err { IfErr result (λ refused. refused.1 ≡ inner) }
    {
        match Vec::with_capacity(alloc, capacity.saturating_mul(2)) {
            Ok(buf) => Ok(BufWriter {
                inner,
                buf,
                sent: 0,
                capacity,
                moved: 0,
            }),
            Err(_) => Err((OutOfMemory, inner)),
        }
    }

    /// The stream inside (monoio: `get_ref`).
    pub fn get_ref(&self) -> &W
        ensures { result.now ≡ self.now.inner }
    {
        &self.inner
    }

    /// The stream inside (monoio: `get_mut`).
    pub fn get_mut(&mut self) -> &mut W
        ensures* lends { sem 𝓛 (LendsWriter W.row self.entry result) }
        ensures value { result.now ≡ self.old.inner }
    {
        &mut self.inner
    }

    /// The stream inside (monoio: `into_inner`). What is buffered is lost; `into_parts` returns it too.
    pub fn into_inner(self) -> W
        ensures { result ≡ self.inner }
    {
        let BufWriter {
            inner,
            buf: _,
            sent: _,
            capacity: _,
            moved: _,
        } = self;
        inner
    }

    /// The stream inside, and what is buffered, which wasn't written (not in monoio).
    pub fn into_parts(self) -> (W, ByteList)
        ensures inner { result.0 ≡ self.inner }
        ensures rest { result.1 ≡ self.held }
    {
        let BufWriter {
            inner,
            mut buf,
            sent,
            capacity: _,
            moved: _,
        } = self;
        let left = buf.len() - sent;
        buf.as_mut_slice().copy_within(sent.., 0);
        buf.truncate(left);
        (inner, ByteList::from_vec(buf))
    }

    /// What is buffered (monoio: `buffer`), at most as many bytes as the capacity.
    pub fn buffer(&self) -> &[u8]
        ensures value { result.now ≡ self.now.held }
        ensures within { length result.now ≤ self.now.capacity }
    {
        let _ = self.capacity;
        &self.buf.as_slice()[self.sent..]
    }

    // Buffers these bytes.
    #[tactic(auto, using(crate::proofs::Buffered::added_behind))]
    fn take_in(&mut self, bytes: &[u8])
        requires { length self.old.held + length bytes.now ≤ self.old.capacity }
        ensures { self.new ≡ record self.old { held = self.old.held ++ bytes.now } }
    {
        self.sent = make_room(&mut self.buf, self.sent, bytes.len());
        // The room was reserved.
        let _ = self.buf.extend_from_slice(bytes);
    }
}

impl<W: AsyncWriteRent> BufWriter<W> {
    // Offers bytes to the buffer: they are taken, or are to be passed on, or the buffer is written once.
    fn offer(&mut self, bytes: &[u8], task: u64) -> Offered
        ensures offers { Offers task (W.writer self.old.inner).counts (W.writer self.new.inner).counts self.old self.new bytes.now result }
        ensures pushes { IfPushed result (Pushes W.tells (W.writer self.old.inner) (W.writer self.new.inner) self.old.held self.new.held) }
        ensures capacity { self.new.capacity ≡ self.old.capacity }
        ensures ends { EndsStay (W.writer self.old.inner) (W.writer self.new.inner) }
        ensures counts { AfterCall None (counts_over (W.writer self.old.inner).counts self.old)
            (counts_over (W.writer self.new.inner).counts self.new) }
        ensures complete { OfferCompletes W.tells (W.writer self.old.inner) (W.writer self.new.inner) self.old.held self.new.held result }
        ensures further { IfOfferAgain result (GetsFurther (W.writer self.old.inner).counts (W.writer self.new.inner).counts
            self.old.held self.new.held) }
    {
        let held = self.buf.len() - self.sent;
        if bytes.len() <= self.capacity - held {
            self.take_in(bytes);
            return Offered::Taken;
        }
        if held == 0 {
            return Offered::PassOn;
        }
        match self.push_out(task) {
            PollCount::Ready(Err(fault)) => Offered::Fault(fault),
            PollCount::Pending => Offered::Pending,
            PollCount::Again | PollCount::Ready(Ok(_)) => Offered::Again,
        }
    }

    // Writes what is buffered once. What the write took leaves the buffer.
    #[tactic(auto, using(crate::proofs::Buffered::nothing_taken))]
    fn push_out(&mut self, task: u64) -> PollCount
        requires { 0 < length self.old.held }
        ensures pushes { Pushes W.tells (W.writer self.old.inner) (W.writer self.new.inner) self.old.held self.new.held }
        ensures capacity { self.new.capacity ≡ self.old.capacity }
        ensures ends { EndsStay (W.writer self.old.inner) (W.writer self.new.inner) }
        ensures cause { IsPushCaused task (counts_over (W.writer self.old.inner).counts self.old)
            (counts_over (W.writer self.new.inner).counts self.new) result }
        ensures counts { AfterCall None (counts_over (W.writer self.old.inner).counts self.old)
            (counts_over (W.writer self.new.inner).counts self.new) }
        ensures complete { FlushCompletes W.tells (W.writer self.old.inner) (W.writer self.new.inner) self.old.held self.new.held result }
        ensures further { IfCountAgain result (GetsFurther (W.writer self.old.inner).counts (W.writer self.new.inner).counts
            self.old.held self.new.held) }
    {
        let alloc = *self.buf.allocator();
        let buf = mem::replace(&mut self.buf, Vec::new(alloc));
        let len = buf.len();
        match self.inner.poll_write(Slice::new(buf, self.sent, len), task) {
            PollBuf::Ready(Ok(n), part) => {
                self.buf = part.into_inner();
                if n == 0 {
                    return PollCount::Ready(Err(IoFault::WriteZero));
                }
                self.sent += n;
                self.moved = self.moved.saturating_add(1);
                PollCount::Again
            }
            PollBuf::Ready(Err(fault), part) => {
                self.buf = part.into_inner();
                PollCount::Ready(Err(fault))
            }
            PollBuf::Pending(part) => {
                self.buf = part.into_inner();
                PollCount::Pending
            }
            PollBuf::Again(part) => {
                self.buf = part.into_inner();
                PollCount::Again
            }
        }
    }
}

impl<W: AsyncWriteRent> AsyncWriteRent for BufWriter<W> {
    ghost tells = { W.tells };

    ghost writer = { λ w. writer_over (W.writer w.inner) w };

    /// Buffers the bytes if they fit. If they don't and some are buffered, it writes the buffer once, and takes none; else
    /// it passes them on. A write of the buffer that takes no byte is a fault, `WriteZero`.
    #[tactic(auto, using(crate::proofs::Completeness::write_gets_on))]
    fn poll_write<T: IoBuf>(&mut self, buf: T, task: u64) -> PollBuf<T>
        ensures writes { Writes W.tells (writer_over (W.writer self.old.inner) self.old).delivered
            (writer_over (W.writer self.new.inner) self.new).delivered (T.content buf) buf result }
        ensures none { CountsNone (length (T.content buf)) (counts_over (W.writer self.old.inner).counts self.old)
            (counts_over (W.writer self.new.inner).counts self.new) result }
        ensures ends { EndsStay (W.writer self.old.inner) (W.writer self.new.inner) }
        ensures cause { IsWriteCaused task (counts_over (W.writer self.old.inner).counts self.old)
            (counts_over (W.writer self.new.inner).counts self.new) result }
        ensures counts { AfterCall None (counts_over (W.writer self.old.inner).counts self.old)
            (counts_over (W.writer self.new.inner).counts self.new) }
        ensures rule { WriteRule W.writer W.tells self.old self.new (T.content buf) result }
        ensures complete { WriteCompletes W.tells (W.writer self.old.inner) (W.writer self.new.inner) self.old.held self.new.held result }
        ensures further { IfAgain result (GetsFurther (W.writer self.old.inner).counts (W.writer self.new.inner).counts
            self.old.held self.new.held) }
    {
        let count = buf.bytes_init();
        match self.offer(buf.bytes(), task) {
            Offered::Taken => PollBuf::Ready(Ok(count), buf),
            Offered::PassOn => self.inner.poll_write(buf, task),
            Offered::Pending => PollBuf::Pending(buf),
            Offered::Again => PollBuf::Again(buf),
            Offered::Fault(fault) => PollBuf::Ready(Err(fault), buf),
        }
    }

    /// As `poll_write`, of the first part that has bytes.
    #[tactic(auto, using(crate::proofs::Completeness::write_gets_on))]
    fn poll_writev<T: IoVecBuf>(&mut self, buf: T, task: u64) -> PollBuf<T>
        ensures writes { Writes W.tells (writer_over (W.writer self.old.inner) self.old).delivered
            (writer_over (W.writer self.new.inner) self.new).delivered (concat (T.parts buf)) buf result }
        ensures none { CountsNone (length (concat (T.parts buf))) (counts_over (W.writer self.old.inner).counts self.old)
            (counts_over (W.writer self.new.inner).counts self.new) result }
        ensures ends { EndsStay (W.writer self.old.inner) (W.writer self.new.inner) }
        ensures cause { IsWriteCaused task (counts_over (W.writer self.old.inner).counts self.old)
            (counts_over (W.writer self.new.inner).counts self.new) result }
        ensures counts { AfterCall None (counts_over (W.writer self.old.inner).counts self.old)
            (counts_over (W.writer self.new.inner).counts self.new) }
        ensures rule { WriteRule W.writer W.tells self.old self.new (write.first_part (T.parts buf)) result }
        ensures complete { WriteCompletes W.tells (W.writer self.old.inner) (W.writer self.new.inner) self.old.held self.new.held result }
        ensures further { IfAgain result (GetsFurther (W.writer self.old.inner).counts (W.writer self.new.inner).counts
            self.old.held self.new.held) }
    {
        let part = first_part(&buf);
        let count = part.len();
        match self.offer(part, task) {
            Offered::Taken => PollBuf::Ready(Ok(count), buf),
            Offered::PassOn => self.inner.poll_writev(buf, task),
            Offered::Pending => PollBuf::Pending(buf),
            Offered::Again => PollBuf::Again(buf),
            Offered::Fault(fault) => PollBuf::Ready(Err(fault), buf),
        }
    }

    /// Writes the buffer, one write a poll, and then flushes the stream inside. When it is done nothing is buffered.
    /// At a fault just what was written has left the buffer.
    #[tactic(auto, using(crate::proofs::Completeness::count_gets_on))]
    fn poll_flush(&mut self, task: u64) -> PollCount
        ensures delivered { IsTrue W.tells → (writer_over (W.writer self.new.inner) self.new).delivered
            ≡ (writer_over (W.writer self.old.inner) self.old).delivered }
        ensures flushes { CountsDone (W.writer self.old.inner).flushes (W.writer self.new.inner).flushes result }
        ensures shutdowns { (W.writer self.new.inner).shutdowns ≡ (W.writer self.old.inner).shutdowns }
        ensures cause { IsFlushCaused task (counts_over (W.writer self.old.inner).counts self.old)
            (counts_over (W.writer self.new.inner).counts self.new) result }
        ensures counts { AfterCall None (counts_over (W.writer self.old.inner).counts self.old)
            (counts_over (W.writer self.new.inner).counts self.new) }
        ensures pushes { Pushes W.tells (W.writer self.old.inner) (W.writer self.new.inner) self.old.held self.new.held }
        ensures empty { IfDone result (self.new.held ≡ []) }
        ensures complete { FlushCompletes W.tells (W.writer self.old.inner) (W.writer self.new.inner) self.old.held self.new.held result }
        ensures further { IfCountAgain result (GetsFurther (W.writer self.old.inner).counts (W.writer self.new.inner).counts
            self.old.held self.new.held) }
    {
        if self.buf.len() == self.sent {
            return self.inner.poll_flush(task);
        }
        self.push_out(task)
    }

    /// Writes the buffer, one write a poll, and then shuts the stream inside down. When it is done nothing is buffered.
    /// At a fault just what was written has left the buffer.
    #[tactic(auto, using(crate::proofs::Completeness::count_gets_on))]
    fn poll_shutdown(&mut self, task: u64) -> PollCount
        ensures delivered { IsTrue W.tells → (writer_over (W.writer self.new.inner) self.new).delivered
            ≡ (writer_over (W.writer self.old.inner) self.old).delivered }
        ensures flushes { (W.writer self.new.inner).flushes ≡ (W.writer self.old.inner).flushes }
        ensures shutdowns { CountsDone (W.writer self.old.inner).shutdowns (W.writer self.new.inner).shutdowns result }
        ensures cause { IsFlushCaused task (counts_over (W.writer self.old.inner).counts self.old)
            (counts_over (W.writer self.new.inner).counts self.new) result }
        ensures counts { AfterCall None (counts_over (W.writer self.old.inner).counts self.old)
            (counts_over (W.writer self.new.inner).counts self.new) }
        ensures pushes { Pushes W.tells (W.writer self.old.inner) (W.writer self.new.inner) self.old.held self.new.held }
        ensures empty { IfDone result (self.new.held ≡ []) }
        ensures complete { FlushCompletes W.tells (W.writer self.old.inner) (W.writer self.new.inner) self.old.held self.new.held result }
        ensures further { IfCountAgain result (GetsFurther (W.writer self.old.inner).counts (W.writer self.new.inner).counts
            self.old.held self.new.held) }
    {
        if self.buf.len() == self.sent {
            return self.inner.poll_shutdown(task);
        }
        self.push_out(task)
    }
}

// Reads are those of the stream inside.
impl<W: AsyncReadRent> AsyncReadRent for BufWriter<W> {
    ghost tells = { W.tells };

    ghost reader = { λ w. W.reader w.inner };

    fn poll_read<T: IoBufMut>(&mut self, buf: T, task: u64) -> PollBuf<T> {
        self.inner.poll_read(buf, task)
    }

    fn poll_readv<T: IoVecBufMut>(&mut self, buf: T, task: u64) -> PollBuf<T> {
        self.inner.poll_readv(buf, task)
    }

    fn poll_fixed(&mut self, buf: FixedVec, task: u64) -> PollBuf<FixedVec> {
        self.inner.poll_fixed(buf, task)
    }
}

impl<W: AsyncBufRead> AsyncBufRead for BufWriter<W> {
    ghost buffered = { λ w. W.buffered w.inner };

    fn poll_fill(&mut self, task: u64) -> PollCount {
        self.inner.poll_fill(task)
    }

    fn buffered(&self) -> &[u8] {
        self.inner.buffered()
    }

    fn consume(&mut self, n: usize) {
        self.inner.consume(n);
    }
}

// Sees to it that so many bytes have room behind those of a buffer, and answers where its bytes from `sent` on start.
// They are moved to its start only where there is no room behind them.
fn make_room(buf: &mut Vec<u8>, sent: usize, count: usize) -> usize
    requires within { sent ≤ length buf.old.items }
    requires fits { length buf.old.items + count ≤ sent + vec_capacity buf.old }
    ensures held { drop result buf.new.items ≡ drop sent buf.old.items }
    ensures start { result ≤ length buf.new.items }
    ensures capacity { vec_capacity buf.new ≡ vec_capacity buf.old }
    ensures room { length buf.new.items + count ≤ vec_capacity buf.new }
{
    let len = buf.len();
    if buf.capacity() - len >= count {
        return sent;
    }
    buf.as_mut_slice().copy_within(sent..len, 0);
    buf.truncate(len - sent);
    0
}
