//! What a job of operations does behind one that ended.
ghost use Rattle.op_job.specs.Runs.{EndsOnce};
ghost use Rattle.op_job.specs.declared.follow.Next.{Next as Coming};
ghost use Rattle.op_job.specs.declared.follow.OpEnd.{OpEnd as Ending};

use driver_core::{Done, SubmitError};
use machine::Request;
use rent_buf::VecBuf;

/// How an operation of a job ended.
#[derive(Drop)]
pub enum OpEnd<B> {
    /// It ended.
    Done(Done<B>),
    /// Its submission was refused.
    Refused(SubmitError<B>),
    /// It wasn't submitted: the user doesn't hold each handle that it names, or `MOST_GIVEN` operations were submitted.
    NotHeld(Request<B, VecBuf>),
    /// It wasn't submitted, since its job was canceled before.
    Withdrawn(Request<B, VecBuf>),
}

/// What comes behind an operation that ended.
#[derive(Drop)]
pub enum Next<B, O> {
    /// An operation.
    Op(Request<B, VecBuf>),
    /// Nothing: the job is done.
    End(O),
}

/// What a job does behind each of its operations: it says so once it is told how the operation ended. (not in monoio)
pub trait Follow<B>: Drop {
    /// What the job is done with.
    type Out: Drop;

    // What it says: the follower before it and after it, the end, and what comes.
    ghost follows: { Self → Self → Ending B → Coming B Self.Out → Type 0 };

    /// What comes behind an operation that ended so. The handles of a request that it answers must be the user's as it is submitted.
    fn follow(&mut self, end: OpEnd<B>) -> Next<B, Self::Out>
        ensures { follows self.old self.new end result };
}

/// Nothing comes behind an operation: the job is done with its end.
#[derive(Drop)]
pub struct Once;

impl<B: Drop> Follow<B> for Once {
    type Out = OpEnd<B>;

    ghost follows = { EndsOnce };

    fn follow(&mut self, end: OpEnd<B>) -> Next<B, OpEnd<B>>
        ensures { EndsOnce self.old self.new end result }
    {
        Next::End(end)
    }
}
