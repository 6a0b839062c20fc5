//! Sinks of items, and a send that is flushed.
ghost use Rattle.std.specs.Prelude.{◌≡◌, None, Some, IfErr};
ghost use Rattle.rent_io.specs.Counts.{AfterCall};
ghost use Rattle.rent_io.specs.ItemSink.{ItemSink, IsSent, IsDone, CausesDone, HasSend, SendEnd, SendsAndFlushes, unsent};
ghost use Rattle.rent_io.specs.State.{plain};

use crate::calls::Plain;
use crate::poll::Step;
use crate::state::{Polled, StateBy};
use std::marker::Model;

/// The answer of a poll of a send (not in monoio).
#[derive(Debug, Drop)]
#[must_use]
pub enum SinkPoll<I, E> {
    /// The item was taken, or it is gone with an error.
    Ready(Result<(), E>),
    /// The item wasn't taken, and here it is again. The task is woken when another poll may do more.
    Pending(I),
}

/// The answer of a poll of a flush or a close (not in monoio).
#[derive(Debug, Drop)]
#[must_use]
pub enum SinkDone<E> {
    /// It is done, or an error came.
    Ready(Result<(), E>),
    /// It isn't done. The task is woken when another poll may do more.
    Pending,
}

/// What takes items (monoio: `Sink`).
pub trait Sink<Item> {
    /// Why an item wasn't taken, or a flush or a close failed.
    type Error: Drop;

    /// Its counts, and how many sends and flushes succeeded.
    ghost sink: { Self → ItemSink };

    /// Takes an item (monoio: `send`).
    fn poll_send(&mut self, item: Item, task: u64) -> SinkPoll<Item, Self::Error>
        ensures sent { IsSent item (sink self.old) (sink self.new) result }
        ensures flushes { (sink self.new).flushes ≡ (sink self.old).flushes }
        ensures counts { AfterCall None (sink self.old).counts (sink self.new).counts };

    /// Passes on the items that were taken (monoio: `flush`).
    fn poll_flush(&mut self, task: u64) -> SinkDone<Self::Error>
        ensures done { IsDone (sink self.old) (sink self.new) result }
        ensures sends { (sink self.new).sends ≡ (sink self.old).sends }
        ensures counts { AfterCall None (sink self.old).counts (sink self.new).counts };

    /// Ends the sink behind the items that were taken (monoio: `close`).
    fn poll_close(&mut self, task: u64) -> SinkDone<Self::Error>
        ensures cause { CausesDone (sink self.old).counts (sink self.new).counts result }
        ensures sends { (sink self.new).sends ≡ (sink self.old).sends }
        ensures flushes { (sink self.new).flushes ≡ (sink self.old).flushes }
        ensures counts { AfterCall None (sink self.old).counts (sink self.new).counts };
}

impl<I, S: Sink<I>> Sink<I> for &mut S {
    type Error = S::Error;

    ghost sink = { λ s. S.sink s.now };

    fn poll_send(&mut self, item: I, task: u64) -> SinkPoll<I, S::Error> {
        (**self).poll_send(item, task)
    }

    fn poll_flush(&mut self, task: u64) -> SinkDone<S::Error> {
        (**self).poll_flush(task)
    }

    fn poll_close(&mut self, task: u64) -> SinkDone<S::Error> {
        (**self).poll_close(task)
    }
}

/// The state of a `SendAndFlush`. A clause sees it as the item, until it is taken.
#[derive(Debug, Drop)]
pub struct SendState<I> {
    item: Option<I>,
}

impl<I> Model for SendState<I> {
    ghost use Rattle.std.specs.Prelude.{Option};

    ghost Value = { Option I };

    ghost view = { λ s. s.item };
}

/// A send of one item and then a flush, as `send_and_flush` starts it (monoio: the future of `send_and_flush`). Each
/// poll makes one send or one flush. A poll that the item is taken in answers `Again`; it is done once a later poll
/// flushed, or with the sink's error (`SendsAndFlushes`). Over many polls the item is taken in one, and a flush comes in
/// a later one (`HasSend`, `SendEnd`).
pub type SendAndFlush<I> = StateBy<SendState<I>, Plain>;

impl<I> StateBy<SendState<I>, Plain> {
    /// A send of this item.
    pub fn new(item: I) -> SendAndFlush<I>
        ensures { result ≡ plain (Some item) }
    {
        StateBy::by(SendState { item: Some(item) }, Plain)
    }
}

impl<I, S: Sink<I>> Polled<S, Plain> for SendState<I> {
    type End = Result<(), S::Error>;

    ghost counts = { λ sink. (S.sink sink).counts };

    ghost moved = { λ item. 0 };

    ghost due = { λ item. unsent item };

    ghost holds = { λ item. Unit {0} };

    ghost answers = { λ task before now item step. SendsAndFlushes (S.sink before) (S.sink now) item step };

    ghost short = { λ before now item end. IfErr end (λ error. ⊥) };

    ghost goes = { λ before now item next. HasSend (S.sink before) (S.sink now) item next };

    ghost ended = { λ before now item end. SendEnd (S.sink before) (S.sink now) item end };

    #[tactic(auto, using(crate::proofs::SinkRuns::sink_none, crate::proofs::SinkRuns::sink_more, crate::proofs::SinkRuns::send_advances))]
    fn laws(&self) {}

    fn poll_by(
        self,
        sink: &mut S,
        _call: &Plain,
        task: u64,
    ) -> Step<SendState<I>, Result<(), S::Error>> {
        let SendState { item } = self;
        match item {
            Some(item) => match sink.poll_send(item, task) {
                SinkPoll::Ready(Ok(())) => Step::Again(SendState { item: None }),
                SinkPoll::Ready(Err(error)) => Step::Ready(Err(error)),
                SinkPoll::Pending(item) => Step::Pending(SendState { item: Some(item) }),
            },
            None => match sink.poll_flush(task) {
                SinkDone::Ready(outcome) => Step::Ready(outcome),
                SinkDone::Pending => Step::Pending(SendState { item: None }),
            },
        }
    }
}
