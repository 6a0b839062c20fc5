//! The submission of a request, under a cancel handle or none.
ghost use Rattle.std.specs.Prelude.{ℕ, Option, Some, ◌≡◌, ◌<◌, IfOk, IfSome, IsTrue, MatchResult};
ghost use Rattle.rent_buf.specs.Buf.{built};
ghost use Rattle.machine.specs.Request.{named, plain_request};
ghost use Rattle.driver_core.specs.Tokens.{HasRoom};
ghost use Rattle.uring_driver.specs.Uring.{given_by, group_count, holds_all};
ghost use Rattle.fault_run.specs.Events.{IsGroupOf, StepsSubmit, StepsUnder, SubmitsOwn, driver_in, refused_answer, tokens_in};

use super::{FaultSession, plain_held, refused};
use crate::answer::Answer;
use machine::{Refusal, Reply, Request};
use rent_buf::{Buf, BufSpec, OutOfMemory, PartsSpec, VecBuf};
use ring_core::EnterError;
use uring_driver::{CancelHandle, MOST_GIVEN, SubmitError, SubmitFault, Submitted};

impl FaultSession {
    // A request is submitted; what it holds is moved into its buffer, or its parts.
    pub(super) fn submit(
        &mut self,
        request: Request<BufSpec, PartsSpec>,
        under: Option<u64>,
    ) -> Result<Answer, OutOfMemory>
        ensures { IfOk result (λ answer. StepsSubmit self.old request under answer self.new) }
    {
        match self.group_under(under) {
            Ok(group) => self.submit_to(request, group),
            Err(refusal) => Ok(refused(refusal)),
        }
    }

    // The group of the cancel handle of a number, or none under none.
    fn group_under(&self, under: Option<u64>) -> Result<Option<CancelHandle>, Refusal>
        ensures finds { MatchResult result (λ group. IsGroupOf self.now under group)
            (λ refusal. (refusal ≡ Refusal.NoCanceller) × ((group : Option ℕ) → IsGroupOf self.now under group → ⊥)) }
        ensures made { IfOk result (λ group. IfSome group (λ g. g < group_count (driver_in self.now))) }
    {
        let Some(n) = under else {
            return Ok(None);
        };
        match self.tokens.handle(n as usize) {
            None => Err(Refusal::NoCanceller),
            Some(handle) => {
                if handle.group() >= self.driver.groups() {
                    return Err(Refusal::NoCanceller);
                }
                Ok(Some(handle))
            }
        }
    }

    // A request is submitted under a group that was made, or under none.
    fn submit_to(
        &mut self,
        request: Request<BufSpec, PartsSpec>,
        group: Option<CancelHandle>,
    ) -> Result<Answer, OutOfMemory>
        requires { IfSome group (λ g. g < group_count (driver_in self.old)) }
        ensures { IfOk result (λ answer. StepsUnder self.old request group answer self.new) }
    {
        if !self.driver.holds_names(request.names()) {
            return Ok(refused(Refusal::NoHandle));
        }
        // Memory would run out long before there are so many operations.
        if self.driver.given() >= MOST_GIVEN || self.tokens.reserve_one().is_err() {
            return Err(OutOfMemory);
        }
        match build_request(request) {
            Ok(request) => self.submit_built(request, group),
            Err(_) => Err(OutOfMemory),
        }
    }

    // A request of handles that the user holds is submitted. The token of a new operation is kept.
    fn submit_built(
        &mut self,
        request: Request<Buf, VecBuf>,
        group: Option<CancelHandle>,
    ) -> Result<Answer, OutOfMemory>
        requires held { IsTrue (holds_all (driver_in self.old) (named request)) }
        requires made { IfSome group (λ g. g < group_count (driver_in self.old)) }
        requires counter { given_by (driver_in self.old) < MOST_GIVEN }
        requires room { HasRoom (tokens_in self.old) }
        ensures { IfOk result (λ answer. SubmitsOwn self.old request group answer self.new) }
    {
        match self.driver.submit_with(request, group) {
            Ok(Submitted::Op(op)) => {
                let n = op.number();
                self.tokens.add(op);
                Ok(Answer::Plain(Reply::Submitted(n)))
            }
            Ok(Submitted::Canceled(request)) => Ok(Answer::Plain(Reply::CanceledAtOnce(plain_held(
                request,
            )))),
            Err(SubmitError { why, request: _ }) => refused_submission(why),
        }
    }
}

// The answer to a submission that was refused.
fn refused_submission(why: SubmitFault) -> Result<Answer, OutOfMemory>
    ensures { IfOk result (λ answer. refused_answer why ≡ Some answer) }
{
    match why {
        SubmitFault::Full => Ok(refused(Refusal::Full)),
        SubmitFault::RingFault => Ok(Answer::Kept(EnterError::Fault)),
        SubmitFault::Busy => Ok(Answer::Kept(EnterError::Busy)),
        // A driver over a ring never answers Os.
        SubmitFault::Os(_) => Err(OutOfMemory),
        SubmitFault::OutOfMemory => Err(OutOfMemory),
    }
}

// A request of an event, with its buffer, or its parts, built.
fn build_request(request: Request<BufSpec, PartsSpec>) -> Result<Request<Buf, VecBuf>, OutOfMemory>
    ensures plain { IfOk result (λ own. plain_request built own ≡ request) }
    ensures names { IfOk result (λ own. named own ≡ named request) }
{
    request.try_map(|buf| buf.build(), |parts| parts.build())
}
