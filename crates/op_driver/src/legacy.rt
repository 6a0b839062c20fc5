// The readiness driver, over any object whose calls don't wait.
ghost use Rattle.std.specs.Prelude.{◌≡◌, ◌<◌, IsTrue, Some, IfOk, IfErr, OnErr};
ghost use Rattle.machine.specs.Request.{named};
ghost use Rattle.driver_core.specs.Op.{AddsToken, KeepsTokens};
ghost use Rattle.driver_core.specs.Requests.{KeepsRequests, request_at};
ghost use Rattle.ready_driver.specs.LegacyState.{group_count, holds_all, ops_in};
ghost use Rattle.op_driver.specs.Entered.{AddsTokenIf, GivesBack};
ghost use Rattle.op_driver.specs.Legacy.{LegacySubmits, LegacyJoins, LegacyPolls, LegacyDrops, LegacyCancels, LegacyCloses};

use crate::op_driver::OpDriver;
use driver_core::{CancelHandle, Driver, MOST_GIVEN, Op, PollOp, SubmitError, Submitted, Turned};
use handle_core::{Released, SharedFd};
use machine::{Names, Request};
use ready_driver::{LegacyDriver, NonBlock};
use rent_buf::{IoBufMut, OutOfMemory, VecBuf};

impl<I: NonBlock, B: IoBufMut + Drop> OpDriver<B> for LegacyDriver<I, B> {
    ghost ops = { ops_in };

    ghost held = { λ driver. holds_all driver.handling.table };

    ghost submits = { LegacySubmits I.view I.tells I.memory };

    ghost groups = { group_count };

    ghost joins = { LegacyJoins I.view I.tells I.memory };

    ghost polls = { LegacyPolls I.files B.buffer I.called I.view I.tells I.memory };

    ghost drops = { LegacyDrops I.view I.tells I.memory };

    ghost cancels = { LegacyCancels };

    ghost closes = { LegacyCloses I.view I.tells I.memory };

    fn holds_names(&self, names: Names) -> bool {
        self.holds_names(names)
    }

    fn given(&self) -> u64 {
        self.given()
    }

    fn holds(&self, op: &Op) -> bool {
        self.holds(op)
    }

    fn submit_op(&mut self, request: Request<B, VecBuf>) -> Result<Op, SubmitError<B>>
        requires held { IsTrue (holds_all self.old.handling.table (named request)) }
        requires counter { (ops_in self.old).given < MOST_GIVEN }
        ensures submits { LegacySubmits I.view I.tells I.memory self.old self.new request result }
        ensures token { IfOk result (λ op. AddsToken (ops_in self.old) (ops_in self.new) op) }
        ensures request { IfOk result (λ op. request_at (ops_in self.new) op ≡ Some request) }
        ensures requests { KeepsRequests (ops_in self.old) (ops_in self.new) }
        ensures err { IfErr result (λ refused. (refused.request ≡ request) × KeepsTokens (ops_in self.old) (ops_in self.new)) }
        ensures given { OnErr result ((ops_in self.new).given ≡ (ops_in self.old).given) }
    {
        match self.submit_with(request, None)? {
            Submitted::Op(op) => Ok(op),
            Submitted::Canceled(_) => unreachable!(),
        }
    }

    fn has_group(&self, group: CancelHandle) -> bool {
        group.group() < self.groups()
    }

    fn submit_under(
        &mut self,
        request: Request<B, VecBuf>,
        group: CancelHandle,
    ) -> Result<Submitted<B>, SubmitError<B>>
        requires held { IsTrue (holds_all self.old.handling.table (named request)) }
        requires known { group < group_count self.old }
        requires counter { (ops_in self.old).given < MOST_GIVEN }
        ensures joins { LegacyJoins I.view I.tells I.memory self.old self.new request group result }
        ensures token { IfOk result (AddsTokenIf (ops_in self.old) (ops_in self.new)) }
        ensures request { IfOk result (GivesBack (ops_in self.new) request) }
        ensures requests { KeepsRequests (ops_in self.old) (ops_in self.new) }
        ensures err { IfErr result (λ refused. (refused.request ≡ request) × KeepsTokens (ops_in self.old) (ops_in self.new)) }
        ensures given { OnErr result ((ops_in self.new).given ≡ (ops_in self.old).given) }
    {
        self.submit_with(request, Some(group))
    }

    fn poll_op(&mut self, op: Op, task: u64) -> Result<PollOp<B>, (OutOfMemory, Op)> {
        let answer = self.poll_op(op, task);
        self.given();
        answer
    }

    fn drop_op(&mut self, op: Op) {
        self.drop_op(op);
    }

    fn cancel_op(&mut self, op: &Op) -> Result<(), OutOfMemory> {
        self.cancel_op(op)
    }

    fn close_fd(&mut self, fd: SharedFd) -> Released {
        self.close(fd)
    }

    fn turn(&mut self) -> Turned {
        Driver::submit(self)
    }
}
