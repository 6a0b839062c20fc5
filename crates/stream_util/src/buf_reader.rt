// A stream that is read through a buffer.
ghost use Rattle.std.specs.Prelude.{◌≡◌, ◌+◌, ◌<◌, ◌≤◌, [], length, take, drop, min, max, IfOk, IfErr, IsTrue, None};
ghost use Rattle.rent_buf.specs.Buffer.{room, put};
ghost use Rattle.rent_buf.specs.Parts.{parts_stored};
ghost use Rattle.rent_io.specs.BufReader.{Fills};
ghost use Rattle.rent_io.specs.Counts.{AfterCall};
ghost use Rattle.rent_io.specs.Polls.{CountsEnd, CountsNone, IsCaused, IsCountCaused};
ghost use Rattle.rent_io.specs.Reader.{Reads, ReadsParts, first_room as room_of};
ghost use Rattle.stream_util.specs.BufReader.{Reading, ReadRule, IfNotDone, fresh_reader, reader_over};

use crate::buf_writer::DEFAULT_CAPACITY;
use rent_buf::{FixedVec, IoBuf, IoBufMut, IoVecBuf, IoVecBufMut, OutOfMemory};
use rent_io::vectored::first_room;
use rent_io::{AsyncBufRead, AsyncReadRent, AsyncWriteRent, PollBuf, PollCount};
use std::alloc::Global;
use std::marker::Model;
use std::mem;

/// A stream with a buffer behind its reads (monoio: `BufReader`). A clause sees it as the stream inside, the bytes that
/// are buffered, and how many it buffers at most.
#[derive(Debug, Drop)]
pub struct BufReader<R> {
    inner: R,
    alloc: Global,
    buf: FixedVec,
    // The bytes that are buffered begin and end here.
    begin: usize,
    end: usize,
}

impl<R> Model for BufReader<R> {
    ghost use Rattle.std.specs.Prelude.{◌≤◌, length, slice_range};
    ghost use Rattle.stream_util.specs.BufReader.{Reading};

    ghost Value = { Reading R };

    ghost view = { λ s. record { inner = s.inner; held = slice_range s.buf s.begin s.end; capacity = length s.buf } };

    ghost invariant = { λ s. (s.begin ≤ s.end) × (s.end ≤ length s.buf) × (1 ≤ length s.buf) };
}

impl<R> BufReader<R> {
    ghost use Rattle.std.specs.Borrow.{sem};
    ghost use Rattle.stream_util.specs.Lent.{LendsReader};

    /// A stream with an empty buffer of 8192 bytes (monoio: `new`). If memory runs out, the same stream comes back.
    pub fn new(alloc: Global, inner: R) -> Result<BufReader<R>, (OutOfMemory, R)>
        ensures ok { IfOk result (λ r. r ≡ fresh_reader inner DEFAULT_CAPACITY) }
        ensures err { IfErr result (λ refused. refused.1 ≡ inner) }
    {
        BufReader::with_capacity(alloc, DEFAULT_CAPACITY, inner)
    }

    /// A stream with an empty buffer of `capacity` bytes, or of 1 for 0 (monoio: `with_capacity`). If memory runs out,
    /// the same stream comes back.
    pub fn with_capacity(
        alloc: Global,
        capacity: usize,
        inner: R,
    ) -> Result<BufReader<R>, (OutOfMemory, R)>
        ensures ok { IfOk result (λ r. r ≡ fresh_reader inner (max capacity 1)) }
        ensures err { IfErr result (λ refused. refused.1 ≡ inner) }
    {
        match vec![in alloc; 0; capacity.max(1)] {
            Ok(items) => Ok(BufReader {
                inner,
                alloc,
                buf: FixedVec::from_vec(items),
                begin: 0,
                end: 0,
            }),
            Err(_) => Err((OutOfMemory, inner)),
        }
    }

    /// The stream inside (monoio: `get_ref`).
    pub fn get_ref(&self) -> &R
        ensures { result.now ≡ self.now.inner }
    {
        &self.inner
    }

    /// The stream inside (monoio: `get_mut`).
    pub fn get_mut(&mut self) -> &mut R
        ensures* lends { sem 𝓛 (LendsReader R.row self.entry result) }
        ensures value { result.now ≡ self.old.inner }
    {
        &mut self.inner
    }

    /// The stream inside (monoio: `into_inner`). What is buffered is lost.
    pub fn into_inner(self) -> R
        ensures { result ≡ self.inner }
    {
        let BufReader {
            inner,
            alloc: _,
            buf: _,
            begin: _,
            end: _,
        } = self;
        inner
    }

    /// What is buffered (monoio: `buffer`), at most as many bytes as the capacity.
    pub fn buffer(&self) -> &[u8]
        ensures value { result.now ≡ self.now.held }
        ensures within { length result.now ≤ self.now.capacity }
    {
        let all = self.buf.as_slice();
        &all[self.begin..self.end]
    }

    // Takes the first bytes that are buffered away.
    #[tactic(auto, using(crate::proofs::Filled::skipped))]
    fn skip(&mut self, count: usize)
        requires { count ≤ length self.old.held }
        ensures { self.new ≡ record self.old { held = drop count self.old.held } }
    {
        let _ = self.buf.len();
        self.begin += count;
    }
}

impl<R> BufReader<R> {
    // Stores the first bytes that are buffered, as many as there is room for, and answers their number.
    fn give<T: IoBufMut>(&mut self, buf: T) -> (usize, T)
        ensures count { result.0 ≡ min (length self.old.held) (room (T.buffer buf)) }
        ensures stored { T.buffer result.1 ≡ put (T.buffer buf) ((T.buffer buf).begin + 0) (take result.0 self.old.held) }
        ensures under { T.under result.1 ≡ T.under buf }
        ensures beside { T.beside result.1 ≡ T.beside buf }
        ensures rest { self.new ≡ record self.old { held = drop result.0 self.old.held } }
    {
        let mut buf = buf;
        let bytes = self.buffer();
        let count = bytes.len().min(buf.bytes_total());
        let (front, _) = bytes.split_at(count);
        buf.store(0, front);
        self.skip(count);
        (count, buf)
    }

    // The same into the first part that has room.
    fn give_part<T: IoVecBufMut>(&mut self, buf: T) -> (usize, T)
        ensures count { result.0 ≡ min (length self.old.held) (room_of (T.held buf)) }
        ensures stored { T.held result.1 ≡ parts_stored (T.held buf) (take result.0 self.old.held) }
        ensures rest { self.new ≡ record self.old { held = drop result.0 self.old.held } }
    {
        let mut buf = buf;
        let bytes = self.buffer();
        let count = bytes.len().min(first_room(&buf));
        let (front, _) = bytes.split_at(count);
        buf.store_front(front);
        self.skip(count);
        (count, buf)
    }
}

impl<R: AsyncReadRent> BufReader<R> {
    // Sees to it that bytes are buffered: it reads once if none are.
    fn fill(&mut self, task: u64) -> PollCount
        ensures left { IsTrue R.tells → (reader_over (R.reader self.new.inner) self.new).left
            ≡ (reader_over (R.reader self.old.inner) self.old).left }
        ensures fills { Fills R.tells (reader_over (R.reader self.new.inner) self.new).left self.new.held result }
        ensures none { CountsEnd (R.reader self.old.inner).counts (R.reader self.new.inner).counts result }
        ensures kept { 0 < length self.old.held → self.new ≡ self.old }
        ensures waits { IfNotDone result ((self.old.held ≡ []) × (self.new.held ≡ [])) }
        ensures within { length self.new.held ≤ self.new.capacity }
        ensures capacity { self.new.capacity ≡ self.old.capacity }
        ensures cause { IsCountCaused task (R.reader self.old.inner).counts (R.reader self.new.inner).counts result }
        ensures counts { AfterCall None (R.reader self.old.inner).counts (R.reader self.new.inner).counts }
    {
        if self.begin < self.end {
            return PollCount::Ready(Ok((self.end - self.begin) as u64));
        }
        let empty = FixedVec::from_vec(Vec::new(self.alloc));
        let buf = mem::replace(&mut self.buf, empty);
        self.begin = 0;
        self.end = 0;
        match self.inner.poll_fixed(buf, task) {
            PollBuf::Ready(Ok(count), buf) => {
                self.buf = buf;
                self.end = count;
                PollCount::Ready(Ok(count as u64))
            }
            PollBuf::Ready(Err(fault), buf) => {
                self.buf = buf;
                PollCount::Ready(Err(fault))
            }
            PollBuf::Pending(buf) => {
                self.buf = buf;
                PollCount::Pending
            }
            PollBuf::Again(buf) => {
                self.buf = buf;
                PollCount::Again
            }
        }
    }
}

impl<R: AsyncReadRent> AsyncReadRent for BufReader<R> {
    ghost tells = { R.tells };

    ghost reader = { λ r. reader_over (R.reader r.inner) r };

    /// Passes the read on if nothing is buffered and there is room for as many bytes as the buffer takes. Else it fills
    /// the buffer, if nothing is in it, and gives the first bytes that are buffered.
    #[tactic(auto, using(crate::proofs::Filled::given, crate::proofs::Filled::filled_first))]
    fn poll_read<T: IoBufMut>(&mut self, buf: T, task: u64) -> PollBuf<T>
        ensures reads { Reads R.tells (reader_over (R.reader self.old.inner) self.old).left
            (reader_over (R.reader self.new.inner) self.new).left T.buffer T.under T.beside buf result }
        ensures none { CountsNone (room (T.buffer buf)) (R.reader self.old.inner).counts (R.reader self.new.inner).counts result }
        ensures cause { IsCaused task (R.reader self.old.inner).counts (R.reader self.new.inner).counts result }
        ensures counts { AfterCall None (R.reader self.old.inner).counts (R.reader self.new.inner).counts }
        ensures rule { ReadRule R.reader R.tells self.old self.new (room (T.buffer buf)) result }
    {
        if self.begin == self.end && buf.bytes_total() >= self.buf.len() {
            return self.inner.poll_read(buf, task);
        }
        match self.fill(task) {
            PollCount::Ready(Ok(_)) => {
                let (count, buf) = self.give(buf);
                PollBuf::Ready(Ok(count), buf)
            }
            PollCount::Ready(Err(fault)) => PollBuf::Ready(Err(fault), buf),
            PollCount::Pending => PollBuf::Pending(buf),
            PollCount::Again => PollBuf::Again(buf),
        }
    }

    /// As `poll_read`, into the first part that has room.
    #[tactic(auto, using(crate::proofs::Filled::given_part, crate::proofs::Filled::filled_first))]
    fn poll_readv<T: IoVecBufMut>(&mut self, buf: T, task: u64) -> PollBuf<T>
        ensures reads { ReadsParts R.tells (reader_over (R.reader self.old.inner) self.old).left
            (reader_over (R.reader self.new.inner) self.new).left T.held buf result }
        ensures none { CountsNone (room_of (T.held buf)) (R.reader self.old.inner).counts (R.reader self.new.inner).counts result }
        ensures cause { IsCaused task (R.reader self.old.inner).counts (R.reader self.new.inner).counts result }
        ensures counts { AfterCall None (R.reader self.old.inner).counts (R.reader self.new.inner).counts }
        ensures rule { ReadRule R.reader R.tells self.old self.new (room_of (T.held buf)) result }
    {
        if self.begin == self.end && first_room(&buf) >= self.buf.len() {
            return self.inner.poll_readv(buf, task);
        }
        match self.fill(task) {
            PollCount::Ready(Ok(_)) => {
                let (count, buf) = self.give_part(buf);
                PollBuf::Ready(Ok(count), buf)
            }
            PollCount::Ready(Err(fault)) => PollBuf::Ready(Err(fault), buf),
            PollCount::Pending => PollBuf::Pending(buf),
            PollCount::Again => PollBuf::Again(buf),
        }
    }
}

impl<R: AsyncReadRent> AsyncBufRead for BufReader<R> {
    ghost buffered = { λ r. r.held };

    fn poll_fill(&mut self, task: u64) -> PollCount {
        self.fill(task)
    }

    fn buffered(&self) -> &[u8] {
        self.buffer()
    }

    fn consume(&mut self, n: usize) {
        self.skip(n.min(self.end - self.begin));
    }
}

// Writes, flushes and shutdowns are those of the stream inside.
impl<R: AsyncWriteRent> AsyncWriteRent for BufReader<R> {
    ghost tells = { R.tells };

    ghost writer = { λ r. R.writer r.inner };

    fn poll_write<T: IoBuf>(&mut self, buf: T, task: u64) -> PollBuf<T> {
        self.inner.poll_write(buf, task)
    }

    fn poll_writev<T: IoVecBuf>(&mut self, buf: T, task: u64) -> PollBuf<T> {
        self.inner.poll_writev(buf, task)
    }

    fn poll_flush(&mut self, task: u64) -> PollCount {
        self.inner.poll_flush(task)
    }

    fn poll_shutdown(&mut self, task: u64) -> PollCount {
        self.inner.poll_shutdown(task)
    }
}
