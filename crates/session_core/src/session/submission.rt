//! The submission of a request, under a cancel handle or none.
ghost use Rattle.std.specs.Prelude.{ℕ, Bool, true, Option, ◌≡◌, ◌<◌, [], IfSome, IfNone, IfOk, IfErr, OnErr, IsTrue};
ghost use Rattle.rent_buf.specs.Buf.{built};
ghost use Rattle.machine.specs.Request.{named, plain_request};
ghost use Rattle.machine.specs.Ledger.{Ledger, is_under_marked};
ghost use Rattle.machine.specs.Refusal.{cause};
ghost use Rattle.machine.specs.declared.ledger.Event.TheVariants.{Submit};
ghost use Rattle.uring_driver.specs.Uring.{holds_all, given_by, group_count, due_in};
ghost use Rattle.uring_driver.specs.Stands.{Stands};
ghost use Rattle.uring_driver.specs.Submitted.{AddsToken, JoinsFor, SubmitRefused, SubmitsFor};
ghost use Rattle.session_core.specs.Session.{SessionStands, SessionAnswers, StepsFor};
ghost use Rattle.driver_core.specs.Answers.{IsUnder};
ghost use Rattle.driver_core.specs.Tokens.{HasRoom};
ghost use Rattle.session_core.specs.Submission.{FindsFor};

use super::{Session, plain_held};
use machine::{Refusal, Reply, Request};
use op_slots::slab::MAX_LIVE;
use rent_buf::{Buf, BufSpec, OutOfMemory, PartsSpec, VecBuf};
use ring_core::MemRing;
use uring_driver::{CancelHandle, IoUringDriver, MOST_GIVEN, SubmitError, Submitted};

impl Session {
    // A copy of a request is submitted, linked or not.
    pub(super) fn submit_copy(
        &mut self,
        request: &Request<BufSpec, PartsSpec>,
        under: Option<u64>,
        linked: bool,
    ) -> Result<Reply, OutOfMemory>
        ensures { (L : Ledger) → SessionStands self.old L → StepsFor L (Submit request.now under linked) self.new result }
    {
        match self.handle_under(under) {
            Ok(group) => self.submit_copy_to(request, group, linked),
            Err(refusal) => Ok(Reply::Refused(refusal)),
        }
    }

    // A request is submitted, linked or not; what it holds is moved into its buffer, or its parts.
    pub(super) fn submit(
        &mut self,
        request: Request<BufSpec, PartsSpec>,
        under: Option<u64>,
        linked: bool,
    ) -> Result<Reply, OutOfMemory>
        ensures { (L : Ledger) → SessionStands self.old L → StepsFor L (Submit request under linked) self.new result }
    {
        match self.handle_under(under) {
            Ok(group) => self.submit_to(request, group, linked),
            Err(refusal) => Ok(Reply::Refused(refusal)),
        }
    }

    // A copy of a request is submitted under a group that was made, or under none.
    fn submit_copy_to(
        &mut self,
        request: &Request<BufSpec, PartsSpec>,
        group: Option<CancelHandle>,
        linked: bool,
    ) -> Result<Reply, OutOfMemory>
        requires made { IfSome group (λ g. g < group_count self.old.driver) }
        ensures { (L : Ledger) (under : Option ℕ) → SessionStands self.old L → IsUnder L group under →
            StepsFor L (Submit request.now under linked) self.new result }
    {
        match self.refusal_of(request, &group) {
            Some(refusal) => Ok(Reply::Refused(refusal)),
            None => match request.try_clone() {
                Ok(request) => self.submit_to(request, group, linked),
                Err(_) => Err(OutOfMemory),
            },
        }
    }

    // A request is submitted under a group that was made, or under none.
    fn submit_to(
        &mut self,
        request: Request<BufSpec, PartsSpec>,
        group: Option<CancelHandle>,
        linked: bool,
    ) -> Result<Reply, OutOfMemory>
        requires made { IfSome group (λ g. g < group_count self.old.driver) }
        ensures { (L : Ledger) (under : Option ℕ) → SessionStands self.old L → IsUnder L group under →
            StepsFor L (Submit request under linked) self.new result }
    {
        match self.refusal_of(&request, &group) {
            Some(refusal) => return Ok(Reply::Refused(refusal)),
            None => {}
        }
        // Memory would run out long before there are so many operations.
        if self.driver.given() >= MOST_GIVEN {
            return Err(OutOfMemory);
        }
        if self.tokens.reserve_one().is_err() {
            return Err(OutOfMemory);
        }
        match build_request(request) {
            Ok(request) => self.submit_built(request, group, linked),
            Err(_) => Err(OutOfMemory),
        }
    }

    // The cancel handle of a number, or none under none.
    fn handle_under(&self, under: Option<u64>) -> Result<Option<CancelHandle>, Refusal>
        ensures finds { (L : Ledger) → SessionStands self.now L → FindsFor L under result }
        ensures made { IfOk result (λ group. IfSome group (λ g. g < group_count self.now.driver)) }
    {
        let Some(n) = under else {
            return Ok(None);
        };
        match self.tokens.handle(n as usize) {
            None => Err(Refusal::NoCanceller),
            Some(handle) => {
                if handle.group() >= self.driver.groups() {
                    return Err(Refusal::NoCanceller);
                }
                Ok(Some(handle))
            }
        }
    }

    // The group that a request is submitted under was canceled.
    fn is_canceled(&self, group: &Option<CancelHandle>) -> bool
        requires { IfSome group.now (λ g. g < group_count self.now.driver) }
        ensures { (L : Ledger) (under : Option ℕ) → SessionStands self.now L → IsUnder L group.now under →
            result ≡ is_under_marked L under }
    {
        match group {
            Some(handle) => self.driver.canceled(*handle),
            None => false,
        }
    }

    // Why a submission under a group that was made, or under none, is refused, if it is.
    fn refusal_of(
        &self,
        request: &Request<BufSpec, PartsSpec>,
        group: &Option<CancelHandle>,
    ) -> Option<Refusal>
        requires made { IfSome group.now (λ g. g < group_count self.now.driver) }
        ensures named { (L : Ledger) (under : Option ℕ) (linked : Bool) → SessionStands self.now L → IsUnder L group.now under →
            cause L (Submit request.now under linked) ≡ result }
        ensures held { IfNone result (IsTrue (holds_all self.now.driver (named request.now))) }
    {
        if !self.holds_named(request) {
            return Some(Refusal::NoHandle);
        }
        let canceled = self.is_canceled(group);
        if !canceled && self.driver.num_operations() >= MAX_LIVE {
            return Some(Refusal::Full);
        }
        None
    }

    // The user holds each handle that a request names.
    fn holds_named(&self, request: &Request<BufSpec, PartsSpec>) -> bool
        ensures { result ≡ holds_all self.now.driver (named request.now) }
    {
        self.driver.holds_names(request.names())
    }

    // A request of handles that the user holds is submitted, linked or not, under a group that was made or none. The token of a new
    // operation is kept.
    fn submit_built(
        &mut self,
        request: Request<Buf, VecBuf>,
        group: Option<CancelHandle>,
        linked: bool,
    ) -> Result<Reply, OutOfMemory>
        requires held { IsTrue (holds_all self.old.driver (named request)) }
        requires made { IfSome group (λ g. g < group_count self.old.driver) }
        requires counter { given_by self.old.driver < MOST_GIVEN }
        requires room { HasRoom self.old.tokens }
        ensures ok { IfOk result (λ reply. (L : Ledger) (under : Option ℕ) → SessionStands self.old L → IsUnder L group under →
            SessionAnswers L (Submit (plain_request built request) under linked) reply self.new) }
        ensures err { OnErr result ((L : Ledger) → SessionStands self.old L → SessionStands self.new L) }
    {
        match submit_to_driver(&mut self.driver, request, group, linked) {
            Ok(Submitted::Op(op)) => {
                let n = op.number();
                self.tokens.add(op);
                Ok(Reply::Submitted(n))
            }
            Ok(Submitted::Canceled(request)) => Ok(Reply::CanceledAtOnce(plain_held(request))),
            Err(_) => Err(OutOfMemory),
        }
    }
}

// A request of handles that the user holds is submitted to a driver, linked or not, under a group that was made or none.
fn submit_to_driver(
    driver: &mut IoUringDriver<MemRing, Buf>,
    request: Request<Buf, VecBuf>,
    group: Option<CancelHandle>,
    linked: bool,
) -> Result<Submitted<Buf>, SubmitError<Buf>>
    requires held { IsTrue (holds_all driver.old (named request)) }
    requires made { IfSome group (λ g. g < group_count driver.old) }
    requires counter { given_by driver.old < MOST_GIVEN }
    ensures answers { IfOk result (λ submitted. (L : Ledger) (under : Option ℕ) → Stands (λ r. r) built driver.old L →
        IsUnder L group under → SubmitsFor (λ r. r) built linked L request under driver.new submitted) }
    ensures token { IfOk result (λ submitted. AddsToken driver.old driver.new submitted) }
    ensures joins { IfOk result (λ submitted. JoinsFor driver.old driver.new request group submitted) }
    ensures none_due { due_in driver.old ≡ [] → due_in driver.new ≡ [] }
    ensures err { IfErr result (SubmitRefused (λ r. r) built true request driver.old driver.new) }
{
    if linked {
        driver.submit_linked(request, group)
    } else {
        driver.submit_with(request, group)
    }
}

// A request of an event, with its buffer, or its parts, built.
fn build_request(request: Request<BufSpec, PartsSpec>) -> Result<Request<Buf, VecBuf>, OutOfMemory>
    ensures plain { IfOk result (λ own. plain_request built own ≡ request) }
    ensures names { IfOk result (λ own. named own ≡ named request) }
{
    request.try_map(|buf| buf.build(), |parts| parts.build())
}
