// Streams that are split into a half that is read and a half that is written.
ghost use Rattle.std.specs.Prelude.{◌≡◌, ◌↔◌, IsOk, IfOk, IfErr, None};
ghost use Rattle.rent_io.specs.Completeness.{Completes};
ghost use Rattle.rent_io.specs.Counts.{AfterCall};
ghost use Rattle.rent_io.specs.Polls.{TookNone};
ghost use Rattle.stream_util.specs.Split.{Half, one_more, ShutsDown, part_in};

use cancel_core::CancelHandle;
use rent_buf::{FixedVec, IoBuf, IoBufMut, IoFault, IoVecBuf, IoVecBufMut};
use rent_io::{
    AsyncReadRent, AsyncWriteRent, CancelableAsyncReadRent, CancelableAsyncWriteRent, PollBuf,
    PollCount, Step,
};
use std::fmt::{self, Display, Formatter, Write};
use std::marker::Model;

/// A stream of a part that is read and a part that is written (monoio: `Split`, which parts nothing: there both halves
/// share the stream).
pub trait Split: Sized {
    /// The part that is read.
    type Read: AsyncReadRent;

    /// The part that is written.
    type Write: AsyncWriteRent;

    /// The stream of two parts.
    ghost joined: { Self.Read → Self.Write → Self };

    /// The two parts (not in monoio).
    fn part(self) -> (Self::Read, Self::Write)
        ensures { joined result.0 result.1 ≡ self };

    /// The stream of two parts (not in monoio).
    fn join(read: Self::Read, write: Self::Write) -> Self
        ensures { result ≡ joined read write };
}

/// Gives the numbers of pairs (not in monoio). A clause sees it as how many it gave.
#[derive(Debug, Drop)]
pub struct Pairs {
    given: u64,
}

impl Model for Pairs {
    ghost use Rattle.std.specs.Prelude.{ℕ};

    ghost Value = { ℕ };

    ghost view = { λ p. p.given };
}

impl Pairs {
    /// No pair was given yet.
    pub fn new() -> Pairs
        ensures { result ≡ 0 }
    {
        Pairs { given: 0 }
    }

    /// How many pairs were given. It stays at the last `u64`.
    pub fn given(&self) -> u64
        ensures { result ≡ self.now }
    {
        self.given
    }
}

/// The half of a stream that is read (monoio: `OwnedReadHalf`). A clause sees it as its part and the number of its pair.
#[derive(Drop)]
pub struct OwnedReadHalf<T: Split> {
    part: T::Read,
    pair: u64,
}

impl<T: Split> Model for OwnedReadHalf<T> {
    ghost use Rattle.stream_util.specs.Split.{Half};

    ghost Value = { Half T.Read };

    ghost view = { λ h. record { part = h.part; pair = h.pair } };
}

/// The half of a stream that is written (monoio: `OwnedWriteHalf`). A clause sees it as its part and the number of its
/// pair. It is spent by `reunite` or `shutdown`.
pub struct OwnedWriteHalf<T: Split> {
    part: T::Write,
    pair: u64,
}

impl<T: Split> Model for OwnedWriteHalf<T> {
    ghost use Rattle.stream_util.specs.Split.{Half};

    ghost Value = { Half T.Write };

    ghost view = { λ h. record { part = h.part; pair = h.pair } };
}

/// Two halves that are no pair (monoio: `ReuniteError`). Its text is `tried to reunite halves`.
pub struct ReuniteError<T: Split>(pub OwnedReadHalf<T>, pub OwnedWriteHalf<T>);

impl<T: Split> Display for ReuniteError<T> {
    fn fmt<W: Write>(&self, f: &mut Formatter<W>) -> Result<(), fmt::Error> {
        f.write_str("tried to reunite halves")
    }
}

/// Splits a stream (monoio: `Splitable`).
pub trait Splitable: Split {
    /// The two halves of the stream, with one number (monoio: `into_split`). It is the number of the pairs that were
    /// given before, which no earlier pair of `pairs` has, as long as fewer than the last `u64` were given.
    fn into_split(self, pairs: &mut Pairs) -> (OwnedReadHalf<Self>, OwnedWriteHalf<Self>)
        ensures parts { Self.joined result.0.part result.1.part ≡ self }
        ensures read { result.0.pair ≡ pairs.old }
        ensures write { result.1.pair ≡ pairs.old }
        ensures given { pairs.new ≡ one_more pairs.old }
    {
        let pair = pairs.given;
        pairs.given = pair.saturating_add(1);
        let (read, write) = self.part();
        (
            OwnedReadHalf { part: read, pair },
            OwnedWriteHalf { part: write, pair },
        )
    }
}

impl<T: Split> Splitable for T {}

// The stream of two halves, if they have one number.
fn reunited<T: Split>(
    read: OwnedReadHalf<T>,
    write: OwnedWriteHalf<T>,
) -> Result<T, ReuniteError<T>>
    ensures ok { IfOk result (λ stream. stream ≡ T.joined read.part write.part) }
    ensures exact { IsOk result ↔ (read.pair ≡ write.pair) }
    ensures err { IfErr result (λ e. (e.0 ≡ read) × (e.1 ≡ write)) }
{
    if read.pair != write.pair {
        return Err(ReuniteError(read, write));
    }
    let OwnedReadHalf { part, pair: _ } = read;
    let OwnedWriteHalf {
        part: write,
        pair: _,
    } = write;
    Ok(T::join(part, write))
}

impl<T: Split> OwnedReadHalf<T> {
    /// The number of its pair (not in monoio).
    pub fn pair(&self) -> u64
        ensures { result ≡ self.now.pair }
    {
        self.pair
    }

    /// The stream of the two halves (monoio: `reunite`). They come back exactly where their pairs differ.
    pub fn reunite(self, other: OwnedWriteHalf<T>) -> Result<T, ReuniteError<T>>
        ensures ok { IfOk result (λ stream. stream ≡ T.joined self.part other.part) }
        ensures exact { IsOk result ↔ (self.pair ≡ other.pair) }
        ensures err { IfErr result (λ e. (e.0 ≡ self) × (e.1 ≡ other)) }
    {
        reunited(self, other)
    }
}

impl<T: Split> OwnedWriteHalf<T> {
    /// The number of its pair (not in monoio).
    pub fn pair(&self) -> u64
        ensures { result ≡ self.now.pair }
    {
        self.pair
    }

    /// The stream of the two halves (monoio: `reunite`). They come back exactly where their pairs differ.
    pub fn reunite(self, other: OwnedReadHalf<T>) -> Result<T, ReuniteError<T>>
        ensures ok { IfOk result (λ stream. stream ≡ T.joined other.part self.part) }
        ensures exact { IsOk result ↔ (other.pair ≡ self.pair) }
        ensures err { IfErr result (λ e. (e.0 ≡ other) × (e.1 ≡ self)) }
    {
        reunited(other, self)
    }

    /// A shutdown of the part (not in monoio, where a write half that is dropped shuts its stream down).
    pub fn shutdown(self) -> Shutdown<T>
        ensures { result ≡ self.part }
    {
        let OwnedWriteHalf { part, pair: _ } = self;
        Shutdown { part }
    }
}

/// A shutdown of a part that is written (not in monoio). A clause sees it as the part.
#[derive(Drop)]
#[must_use]
pub struct Shutdown<T: Split> {
    part: T::Write,
}

impl<T: Split> Model for Shutdown<T> {
    ghost Value = { T.Write };

    ghost view = { λ s. s.part };
}

impl<T: Split> Shutdown<T> {
    /// Makes one shutdown of the part. It is done, with the part, once that is done, or with the part's fault.
    #[tactic(auto, using(crate::proofs::Completeness::shutdown_completes))]
    pub fn poll(self, task: u64) -> Step<Shutdown<T>, (Result<u64, IoFault>, T::Write)>
        ensures answer { ShutsDown T.Write.writer T.Write.tells task self result }
        ensures counts { AfterCall None (T.Write.writer self).counts (T.Write.writer (part_in result)).counts }
        ensures complete { Completes (T.Write.writer self).counts (T.Write.writer (part_in result)).counts result
            (λ end. IfErr end.0 (TookNone (T.Write.writer self).counts (T.Write.writer (part_in result)).counts)) (λ next. ⊥) }
    {
        let Shutdown { mut part } = self;
        match part.poll_shutdown(task) {
            PollCount::Ready(outcome) => Step::Ready((outcome, part)),
            PollCount::Pending => Step::Pending(Shutdown { part }),
            PollCount::Again => Step::Again(Shutdown { part }),
        }
    }
}

// A half is read, written, flushed and shut down as its part.
impl<T: Split> AsyncReadRent for OwnedReadHalf<T> {
    ghost tells = { T.Read.tells };

    ghost reader = { λ h. T.Read.reader h.part };

    fn poll_read<B: IoBufMut>(&mut self, buf: B, task: u64) -> PollBuf<B> {
        self.part.poll_read(buf, task)
    }

    fn poll_readv<B: IoVecBufMut>(&mut self, buf: B, task: u64) -> PollBuf<B> {
        self.part.poll_readv(buf, task)
    }

    fn poll_fixed(&mut self, buf: FixedVec, task: u64) -> PollBuf<FixedVec> {
        self.part.poll_fixed(buf, task)
    }
}

impl<T: Split> CancelableAsyncReadRent for OwnedReadHalf<T>
where
    T::Read: CancelableAsyncReadRent,
{
    fn poll_cancelable_read<B: IoBufMut>(
        &mut self,
        buf: B,
        c: CancelHandle,
        task: u64,
    ) -> PollBuf<B> {
        self.part.poll_cancelable_read(buf, c, task)
    }

    fn poll_cancelable_readv<B: IoVecBufMut>(
        &mut self,
        buf: B,
        c: CancelHandle,
        task: u64,
    ) -> PollBuf<B> {
        self.part.poll_cancelable_readv(buf, c, task)
    }
}

impl<T: Split> AsyncWriteRent for OwnedWriteHalf<T> {
    ghost tells = { T.Write.tells };

    ghost writer = { λ h. T.Write.writer h.part };

    fn poll_write<B: IoBuf>(&mut self, buf: B, task: u64) -> PollBuf<B> {
        self.part.poll_write(buf, task)
    }

    fn poll_writev<B: IoVecBuf>(&mut self, buf: B, task: u64) -> PollBuf<B> {
        self.part.poll_writev(buf, task)
    }

    fn poll_flush(&mut self, task: u64) -> PollCount {
        self.part.poll_flush(task)
    }

    fn poll_shutdown(&mut self, task: u64) -> PollCount {
        self.part.poll_shutdown(task)
    }
}

impl<T: Split> CancelableAsyncWriteRent for OwnedWriteHalf<T>
where
    T::Write: CancelableAsyncWriteRent,
{
    fn poll_cancelable_write<B: IoBuf>(
        &mut self,
        buf: B,
        c: CancelHandle,
        task: u64,
    ) -> PollBuf<B> {
        self.part.poll_cancelable_write(buf, c, task)
    }

    fn poll_cancelable_writev<B: IoVecBuf>(
        &mut self,
        buf: B,
        c: CancelHandle,
        task: u64,
    ) -> PollBuf<B> {
        self.part.poll_cancelable_writev(buf, c, task)
    }

    fn poll_cancelable_flush(&mut self, c: CancelHandle, task: u64) -> PollCount {
        self.part.poll_cancelable_flush(c, task)
    }

    fn poll_cancelable_shutdown(&mut self, c: CancelHandle, task: u64) -> PollCount {
        self.part.poll_cancelable_shutdown(c, task)
    }
}
