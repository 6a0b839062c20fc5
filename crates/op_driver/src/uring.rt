// The completion driver, over any ring.
ghost use Rattle.std.specs.Prelude.{◌≡◌, ◌<◌, IsTrue, Some, IfOk, IfErr, OnErr};
ghost use Rattle.machine.specs.Request.{named};
ghost use Rattle.driver_core.specs.Op.{AddsToken, KeepsTokens};
ghost use Rattle.driver_core.specs.Requests.{KeepsRequests, request_at};
ghost use Rattle.uring_driver.specs.Op.{ops_in};
ghost use Rattle.uring_driver.specs.Uring.{group_count, holds_all};
ghost use Rattle.op_driver.specs.Entered.{AddsTokenIf, GivesBack};
ghost use Rattle.op_driver.specs.Uring.{UringSubmits, UringJoins, UringPolls, UringDrops, UringCancels, UringCloses};

use crate::op_driver::OpDriver;
use driver_core::{CancelHandle, Driver, MOST_GIVEN, Op, PollOp, SubmitError, Submitted, Turned};
use handle_core::{Released, SharedFd};
use machine::{Names, Request};
use rent_buf::{IoBufMut, OutOfMemory, VecBuf};
use ring_core::Ring;
use uring_driver::IoUringDriver;

impl<R: Ring, B: IoBufMut + Drop> OpDriver<B> for IoUringDriver<R, B> {
    ghost ops = { ops_in };

    ghost held = { holds_all };

    ghost submits = { UringSubmits R.view B.buffer R.tells R.steady };

    ghost groups = { group_count };

    ghost joins = { UringJoins R.view B.buffer R.tells R.steady };

    ghost polls = { UringPolls R.view R.tells };

    ghost drops = { UringDrops R.view R.tells };

    ghost cancels = { UringCancels R.view R.tells };

    ghost closes = { UringCloses R.view R.tells };

    fn holds_names(&self, names: Names) -> bool {
        self.holds_names(names)
    }

    fn given(&self) -> u64 {
        self.given()
    }

    fn holds(&self, op: &Op) -> bool {
        self.holds(op)
    }

    fn submit_op(&mut self, request: Request<B, VecBuf>) -> Result<Op, SubmitError<B>>
        requires held { IsTrue (holds_all self.old (named request)) }
        requires counter { (ops_in self.old).given < MOST_GIVEN }
        ensures submits { UringSubmits R.view B.buffer R.tells R.steady self.old self.new request result }
        ensures token { IfOk result (λ op. AddsToken (ops_in self.old) (ops_in self.new) op) }
        ensures request { IfOk result (λ op. request_at (ops_in self.new) op ≡ Some request) }
        ensures requests { KeepsRequests (ops_in self.old) (ops_in self.new) }
        ensures err { IfErr result (λ refused. (refused.request ≡ request) × KeepsTokens (ops_in self.old) (ops_in self.new)) }
        ensures given { OnErr result ((ops_in self.new).given ≡ (ops_in self.old).given) }
    {
        match self.submit_with(request, None)? {
            Submitted::Op(op) => Ok(op),
            Submitted::Canceled(_) => unreachable!(),
        }
    }

    fn has_group(&self, group: CancelHandle) -> bool {
        group.group() < self.groups()
    }

    fn submit_under(
        &mut self,
        request: Request<B, VecBuf>,
        group: CancelHandle,
    ) -> Result<Submitted<B>, SubmitError<B>>
        requires held { IsTrue (holds_all self.old (named request)) }
        requires known { group < group_count self.old }
        requires counter { (ops_in self.old).given < MOST_GIVEN }
        ensures joins { UringJoins R.view B.buffer R.tells R.steady self.old self.new request group result }
        ensures token { IfOk result (AddsTokenIf (ops_in self.old) (ops_in self.new)) }
        ensures request { IfOk result (GivesBack (ops_in self.new) request) }
        ensures requests { KeepsRequests (ops_in self.old) (ops_in self.new) }
        ensures err { IfErr result (λ refused. (refused.request ≡ request) × KeepsTokens (ops_in self.old) (ops_in self.new)) }
        ensures given { OnErr result ((ops_in self.new).given ≡ (ops_in self.old).given) }
    {
        self.submit_with(request, Some(group))
    }

    fn poll_op(&mut self, op: Op, task: u64) -> Result<PollOp<B>, (OutOfMemory, Op)> {
        Ok(self.poll_op(op, task))
    }

    fn drop_op(&mut self, op: Op) {
        self.drop_op(op);
    }

    fn cancel_op(&mut self, op: &Op) -> Result<(), OutOfMemory> {
        self.cancel_op(op)
    }

    fn close_fd(&mut self, fd: SharedFd) -> Released {
        self.close(fd)
    }

    fn turn(&mut self) -> Turned {
        Driver::submit(self)
    }
}
