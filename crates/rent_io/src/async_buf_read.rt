// Streams that are read through a buffer of their own.
ghost use Rattle.std.specs.Prelude.{◌≡◌, ◌++◌, List, ℕ, IsTrue, take, drop, None};
ghost use Rattle.rent_io.specs.BufReader.{Fills, IsFront};
ghost use Rattle.rent_io.specs.Counts.{AfterCall};
ghost use Rattle.rent_io.specs.Polls.{CountsEnd, IsCountCaused};

use crate::async_read_rent::AsyncReadRent;
use crate::poll::PollCount;

/// A stream with a buffer of its own (monoio: `AsyncBufRead`). The bytes that are buffered are the first of those
/// that are left.
pub trait AsyncBufRead: AsyncReadRent {
    /// The bytes that are buffered.
    ghost buffered: { Self → List ℕ };

    /// Sees to it that bytes are buffered (monoio: `fill_buf`), and answers how many are: 0 only at the end of the
    /// stream. It makes one read at most.
    fn poll_fill(&mut self, task: u64) -> PollCount
        ensures left { IsTrue Self.tells → (Self.reader self.new).left ≡ (Self.reader self.old).left }
        ensures fills { Fills Self.tells (Self.reader self.new).left (buffered self.new) result }
        ensures none { CountsEnd (Self.reader self.old).counts (Self.reader self.new).counts result }
        ensures cause { IsCountCaused task (Self.reader self.old).counts (Self.reader self.new).counts result }
        ensures counts { AfterCall None (Self.reader self.old).counts (Self.reader self.new).counts };

    /// The bytes that are buffered (monoio: part of `fill_buf`).
    fn buffered(&self) -> &[u8]
        ensures value { result.now ≡ buffered self.now }
        ensures front { IsFront Self.tells (Self.reader self.now).left (buffered self.now) };

    /// Takes the first `n` bytes that are buffered away (monoio: `consume`), or all, if there are fewer.
    fn consume(&mut self, n: usize)
        ensures buffered { buffered self.new ≡ drop n (buffered self.old) }
        ensures left { IsTrue Self.tells → (Self.reader self.old).left ≡ take n (buffered self.old) ++ (Self.reader self.new).left }
        ensures counts { (Self.reader self.new).counts ≡ (Self.reader self.old).counts };
}

impl<A: AsyncBufRead> AsyncBufRead for &mut A {
    ghost buffered = { λ s. A.buffered s.now };

    fn poll_fill(&mut self, task: u64) -> PollCount {
        (**self).poll_fill(task)
    }

    fn buffered(&self) -> &[u8] {
        (**self).buffered()
    }

    fn consume(&mut self, n: usize) {
        (**self).consume(n);
    }
}

// All bytes of a slice that are left are buffered. It never pauses and never fails.
impl AsyncBufRead for &[u8] {
    ghost buffered = { λ s. s.now };

    fn poll_fill(&mut self, _task: u64) -> PollCount {
        PollCount::Ready(Ok(self.len() as u64))
    }

    #[tactic(auto, using(crate::proofs::Fronts::all_front))]
    fn buffered(&self) -> &[u8] {
        *self
    }

    #[tactic(auto, using(crate::proofs::Fronts::cut_to_end))]
    fn consume(&mut self, n: usize) {
        let left = *self;
        let (_, rest) = left.split_at(n.min(left.len()));
        *self = rest;
    }
}
