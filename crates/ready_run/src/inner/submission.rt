//! The submission of a request, under a cancel handle or none.
ghost use Rattle.std.specs.Prelude.{ℕ, Option, false, ◌≡◌, ◌<◌, IfSome, IfNone, IfOk, OnErr, IsTrue};
ghost use Rattle.rent_buf.specs.Buf.{built};
ghost use Rattle.machine.specs.Request.{named, plain_request};
ghost use Rattle.machine.specs.Ledger.{is_under_marked};
ghost use Rattle.machine.specs.declared.ledger.Event.TheVariants.{Submit};
ghost use Rattle.driver_core.specs.Answers.{IsUnder};
ghost use Rattle.driver_core.specs.Tokens.{HasRoom};
ghost use Rattle.ready_driver.specs.Legacy.{Legacy, seen};
ghost use Rattle.ready_driver.specs.LegacyState.{holds_all, group_count};
ghost use Rattle.ready_driver.specs.LegacyStep.{legacy_cause};
ghost use Rattle.ready_run.specs.ReadySession.{SessionStands, AreParts, SessionAnswers, StepsFor};
ghost use Rattle.ready_run.specs.Submission.{FindsFor};

use super::{Inner, plain_held};
use driver_core::{CancelHandle, MOST_GIVEN, Submitted};
use machine::{Refusal, Reply, Request};
use op_slots::slab::MAX_LIVE;
use rent_buf::{Buf, BufSpec, OutOfMemory, PartsSpec, VecBuf};

impl Inner {
    // A copy of a request is submitted.
    pub(super) fn submit_copy(
        &mut self,
        request: &Request<BufSpec, PartsSpec>,
        under: Option<u64>,
    ) -> Result<Reply, OutOfMemory>
        requires { AreParts self.old }
        ensures { (D : Legacy) → SessionStands self.old D → StepsFor D (Submit request.now under false) self.new result }
    {
        match self.handle_under(under) {
            Ok(group) => self.submit_copy_to(request, group),
            Err(refusal) => Ok(Reply::Refused(refusal)),
        }
    }

    // A request is submitted; what it holds is moved into its buffer, or its parts.
    pub(super) fn submit(
        &mut self,
        request: Request<BufSpec, PartsSpec>,
        under: Option<u64>,
    ) -> Result<Reply, OutOfMemory>
        requires { AreParts self.old }
        ensures { (D : Legacy) → SessionStands self.old D → StepsFor D (Submit request under false) self.new result }
    {
        match self.handle_under(under) {
            Ok(group) => self.submit_to(request, group),
            Err(refusal) => Ok(Reply::Refused(refusal)),
        }
    }

    // A copy of a request is submitted under a group that was made, or under none.
    fn submit_copy_to(
        &mut self,
        request: &Request<BufSpec, PartsSpec>,
        group: Option<CancelHandle>,
    ) -> Result<Reply, OutOfMemory>
        requires made { IfSome group (λ g. g < group_count self.old.driver) }
        ensures { (D : Legacy) (under : Option ℕ) → SessionStands self.old D → IsUnder (seen D) group under →
            StepsFor D (Submit request.now under false) self.new result }
    {
        match self.refusal_of(request, &group) {
            Some(refusal) => Ok(Reply::Refused(refusal)),
            None => match request.try_clone() {
                Ok(request) => self.submit_to(request, group),
                Err(_) => Err(OutOfMemory),
            },
        }
    }

    // A request is submitted under a group that was made, or under none.
    fn submit_to(
        &mut self,
        request: Request<BufSpec, PartsSpec>,
        group: Option<CancelHandle>,
    ) -> Result<Reply, OutOfMemory>
        requires made { IfSome group (λ g. g < group_count self.old.driver) }
        ensures { (D : Legacy) (under : Option ℕ) → SessionStands self.old D → IsUnder (seen D) group under →
            StepsFor D (Submit request under false) self.new result }
    {
        match self.refusal_of(&request, &group) {
            Some(refusal) => return Ok(Reply::Refused(refusal)),
            None => {}
        }
        // Memory would run out long before there are so many operations.
        if self.driver.given() >= MOST_GIVEN {
            return Err(OutOfMemory);
        }
        if self.tokens.reserve_one().is_err() {
            return Err(OutOfMemory);
        }
        match build_request(request) {
            Ok(request) => self.submit_built(request, group),
            Err(_) => Err(OutOfMemory),
        }
    }

    // The cancel handle of a number, or none under none.
    fn handle_under(&self, under: Option<u64>) -> Result<Option<CancelHandle>, Refusal>
        requires parts { AreParts self.now }
        ensures finds { (D : Legacy) → SessionStands self.now D → FindsFor D under result }
        ensures made { IfOk result (λ group. IfSome group (λ g. g < group_count self.now.driver)) }
    {
        let Some(n) = under else {
            return Ok(None);
        };
        match self.tokens.handle(n as usize) {
            None => Err(Refusal::NoCanceller),
            Some(handle) => Ok(Some(handle)),
        }
    }

    // The group that a request is submitted under was canceled.
    fn is_canceled(&self, group: &Option<CancelHandle>) -> bool
        requires { IfSome group.now (λ g. g < group_count self.now.driver) }
        ensures { (D : Legacy) (under : Option ℕ) → SessionStands self.now D → IsUnder (seen D) group.now under →
            result ≡ is_under_marked (seen D) under }
    {
        match group {
            Some(handle) => self.driver.canceled(*handle),
            None => false,
        }
    }

    // Why a submission under a group that was made, or under none, is refused, if it is.
    fn refusal_of(
        &self,
        request: &Request<BufSpec, PartsSpec>,
        group: &Option<CancelHandle>,
    ) -> Option<Refusal>
        requires made { IfSome group.now (λ g. g < group_count self.now.driver) }
        ensures named { (D : Legacy) (under : Option ℕ) → SessionStands self.now D → IsUnder (seen D) group.now under →
            legacy_cause D (Submit request.now under false) ≡ result }
        ensures held { IfNone result (IsTrue (holds_all self.now.driver.handling.table (named request.now))) }
    {
        if !self.holds_named(request) {
            return Some(Refusal::NoHandle);
        }
        let canceled = self.is_canceled(group);
        if !canceled && self.driver.num_operations() >= MAX_LIVE {
            return Some(Refusal::Full);
        }
        None
    }

    // The user holds each handle that a request names.
    fn holds_named(&self, request: &Request<BufSpec, PartsSpec>) -> bool
        ensures { result ≡ holds_all self.now.driver.handling.table (named request.now) }
    {
        self.driver.holds_names(request.names())
    }

    // A request of handles that the user holds is submitted, under a group that was made or none. The token of a new operation is kept.
    fn submit_built(
        &mut self,
        request: Request<Buf, VecBuf>,
        group: Option<CancelHandle>,
    ) -> Result<Reply, OutOfMemory>
        requires held { IsTrue (holds_all self.old.driver.handling.table (named request)) }
        requires made { IfSome group (λ g. g < group_count self.old.driver) }
        requires counter { self.old.driver.given < MOST_GIVEN }
        requires room { HasRoom self.old.tokens }
        ensures ok { IfOk result (λ reply. (D : Legacy) (under : Option ℕ) → SessionStands self.old D → IsUnder (seen D) group under →
            SessionAnswers D (Submit (plain_request built request) under false) reply self.new) }
        ensures err { OnErr result ((D : Legacy) → SessionStands self.old D → SessionStands self.new D) }
    {
        match self.driver.submit_with(request, group) {
            Ok(Submitted::Op(op)) => {
                let n = op.number();
                self.tokens.add(op);
                Ok(Reply::Submitted(n))
            }
            Ok(Submitted::Canceled(request)) => Ok(Reply::CanceledAtOnce(plain_held(request))),
            Err(_) => Err(OutOfMemory),
        }
    }
}

// A request of an event, with its buffer, or its parts, built.
fn build_request(request: Request<BufSpec, PartsSpec>) -> Result<Request<Buf, VecBuf>, OutOfMemory>
    ensures plain { IfOk result (λ own. plain_request built own ≡ request) }
    ensures names { IfOk result (λ own. named own ≡ named request) }
{
    request.try_map(|buf| buf.build(), |parts| parts.build())
}
