//! The token of an operation, and what the driver answers.
ghost use Rattle.std.specs.Prelude.{◌≡◌};
ghost use Rattle.driver_core.specs.Op.{number_of, key_of};

use machine::{Outcome, Request};
use rent_buf::{NumList, VecBuf};
use thiserror::Error;

/// Names one operation of the driver that gave it. It can't be made, copied or dropped outside: `poll_op` spends it where
/// it is `Ready`, `drop_op` always, and `forget` spends it with no driver. (monoio: `Op`, which holds its driver too)
#[derive(Debug)]
pub struct Op {
    number: u64,
    key: usize,
}

impl Op {
    /// The operation's number: how many were given before it. (not in monoio)
    pub fn number(&self) -> u64
        ensures { result ≡ number_of self.now }
    {
        self.number
    }

    /// Drops the token alone. The operation stays as it is, with its buffer, until its driver goes. (not in monoio)
    pub fn forget(self) {
        let Op { number: _, key: _ } = self;
    }

    // The token of the operation with this number and the slot at this key.
    pub(crate) fn make(number: u64, key: usize) -> Op
        ensures { result ≡ record { number = number; key = key } }
    {
        Op { number, key }
    }

    /// The key of its slot, which another operation may have later. (not in monoio)
    pub fn key(&self) -> usize
        ensures { result ≡ key_of self.now }
    {
        self.key
    }

    // The key of its slot, and the token is gone.
    pub(crate) fn spend(self) -> usize
        ensures { result ≡ self.key }
    {
        let Op { number: _, key } = self;
        key
    }
}

/// What a submission returns. (monoio: an `Op`, or `operation_canceled()`)
#[derive(Debug)]
pub enum Submitted<B> {
    /// The token of the new operation.
    Op(Op),
    /// The group that the request was submitted under is canceled: no operation was submitted, and the request comes back as it was
    /// passed in, with its buffer or its parts.
    Canceled(Request<B, VecBuf>),
}

/// Why nothing was submitted. (monoio answers an `io::Error`)
#[derive(Clone, Copy, Debug, PartialEq, Eq, Error)]
pub enum SubmitFault {
    /// `MAX_LIVE` operations are in flight or wait for their poll. A submission under a canceled group is never refused as this.
    #[error("Full")]
    Full,
    /// The queue was full, or an entry was due, and the ring failed to take it: its count of faults rose.
    #[error("RingFault")]
    RingFault,
    /// The queue was full, or an entry was due, and the ring was busy: its count of busies rose.
    #[error("Busy")]
    Busy,
    /// A handle that the request names wasn't registered yet, and the object that makes the calls failed to register it, with this error
    /// number: its count of faults rose. It comes of a driver by readiness alone, which has no ring.
    #[error("Os {0}")]
    Os(u16),
    /// Memory ran out.
    #[error("OutOfMemory")]
    OutOfMemory,
}

/// A submission that was refused, with the request.
#[derive(Debug, Drop)]
pub struct SubmitError<B> {
    /// Why.
    pub why: SubmitFault,
    /// The request as it was passed in, with its buffer or its parts.
    pub request: Request<B, VecBuf>,
}

/// What an operation ended with.
#[derive(Debug, Drop)]
pub struct Done<B> {
    /// How it ended.
    pub outcome: Outcome,
    /// The request as it was submitted, with its buffer or its parts, in which are the bytes of a read.
    pub request: Request<B, VecBuf>,
}

/// What a poll answers. (std's `Poll`)
#[derive(Debug)]
pub enum PollOp<B> {
    /// The operation isn't reaped; its token comes back, and its next completion wakes the task that polled last.
    Pending(Op),
    /// The operation has ended. Its slot is free again.
    Ready(Done<B>),
}

/// What was executed. (not in monoio)
#[derive(Clone, Copy, Debug, PartialEq, Eq)]
pub enum Executed {
    /// The operation of this number.
    Op(u64),
    /// The close of the handle of this number.
    Close(u64),
}

/// Why a turn ended early.
#[derive(Clone, Copy, Debug, PartialEq, Eq, Error)]
pub enum Stop {
    /// The ring failed to take its queue: its count of faults rose. Nothing was treated.
    #[error("RingFault")]
    RingFault,
    /// The ring was busy: its count of busies rose. What was ready was treated.
    #[error("Busy")]
    Busy,
    /// The turn ended at a completion with this data word, which is not reserved, and names no slot in flight and no handle that is
    /// closing; or which names a slot in flight, and a handle as made that its request doesn't make, that is known, or that isn't below
    /// `MOST_HANDLES`.
    #[error("BadCompletion {0}")]
    BadCompletion(u64),
    /// The object that makes the calls failed to report, with this error number: its count of faults rose, and no report came. It comes of a
    /// driver by readiness alone, which has no ring.
    #[error("Os {0}")]
    Os(u16),
    /// Memory ran out. Nothing changed.
    #[error("OutOfMemory")]
    OutOfMemory,
}

/// What a turn did.
#[derive(Debug, Drop)]
pub struct Turned {
    /// The numbers of the operations whose completions were treated, in the order of these.
    pub reaped: NumList,
    /// The handles whose closes were treated, in the order of the completions.
    pub closed: NumList,
    /// The tasks to wake, in the order of the completions.
    pub woken: NumList,
    /// Why it ended early, if it did.
    pub stop: Option<Stop>,
}
