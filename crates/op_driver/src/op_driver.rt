//! What a program asks of a driver that isn't to matter to it.
ghost use Rattle.std.specs.Prelude.{◌≡◌, ◌<◌, ◌↔◌, ◌∷◌, [], Bool, IsTrue, List, ℕ, Some, Result, IfOk, IfErr, OnErr};
ghost use Rattle.rent_buf.specs.Parts.{Parts};
ghost use Rattle.rent_buf.specs.declared.fault.OutOfMemory.{OutOfMemory as NoMemory};
ghost use Rattle.handle_core.specs.declared.table.Released.{Released as Answer};
ghost use Rattle.machine.specs.Request.{listed, named};
ghost use Rattle.machine.specs.declared.request.Request.{Request as Asked};
ghost use Rattle.driver_core.specs.declared.op.Op.{Op as Token};
ghost use Rattle.driver_core.specs.declared.op.PollOp.{PollOp as Polled};
ghost use Rattle.driver_core.specs.declared.op.SubmitError.{SubmitError as Refused};
ghost use Rattle.driver_core.specs.declared.op.Submitted.{Submitted as Entered};
ghost use Rattle.driver_core.specs.Op.{AddsToken, DropsToken, Holds, KeepsTokens};
ghost use Rattle.driver_core.specs.Ops.{Ops};
ghost use Rattle.driver_core.specs.Requests.{KeepsRequests, request_at};
ghost use Rattle.ready_driver.specs.Awaits.{TokensFor};
ghost use Rattle.op_driver.specs.Entered.{AddsTokenIf, GivesBack};
ghost use Rattle.op_driver.specs.Returned.{KeepsOthers, PollsRequest};

use driver_core::{CancelHandle, Driver, MOST_GIVEN, Op, PollOp, SubmitError, Submitted, Turned};
use handle_core::{Released, SharedFd};
use machine::{Names, Request};
use rent_buf::{IoBufMut, OutOfMemory, VecBuf};

/// A driver of operations: requests are submitted, polled, canceled and dropped, and turns are made. Both drivers are one, with buffers
/// of the type `B`. Its clauses speak of tokens and their requests; what else a call does is the driver's own relation, which at a driver
/// that is named stands for that driver's clauses. (not in monoio)
pub trait OpDriver<B: IoBufMut + Drop>: Driver {
    // Its operations: their slots, and how many were submitted.
    ghost ops: { Self → Ops B };

    // Its user holds each of these handles.
    ghost held: { Self → List ℕ → Bool };

    // What a submission does: the driver before it and after it, the request, and what it answers.
    ghost submits: { Self → Self → Asked B Parts → Result Token (Refused B) → Type 0 };

    // How many cancel groups were made: the handle of one is its number.
    ghost groups: { Self → ℕ };

    // What a submission under a group does: the driver before it and after it, the request, the group, and what it answers.
    ghost joins: { Self → Self → Asked B Parts → ℕ → Result (Entered B) (Refused B) → Type 0 };

    // What a poll does: the driver before it and after it, the token, the task, and what it answers.
    ghost polls: { Self → Self → Token → ℕ → Result (Polled B) (NoMemory × Token) → Type 0 };

    // What a drop does: the driver before it and after it, and the token.
    ghost drops: { Self → Self → Token → Type 0 };

    // What asking for a cancel does: the driver before it and after it, the token, and what it answers.
    ghost cancels: { Self → Self → Token → Result Unit NoMemory → Type 0 };

    // What giving a handle up does: the driver before it and after it, the handle, and what it answers.
    ghost closes: { Self → Self → ℕ → Answer → Type 0 };

    /// The user holds each of these handles, as `submit_op` asks of those that its request names.
    fn holds_names(&self, names: Names) -> bool
        ensures { result ≡ held self.now (listed names) };

    /// How many operations were submitted.
    fn given(&self) -> u64
        ensures { result ≡ (ops self.now).given };

    /// The token is that of an operation of this driver that is neither returned nor dropped.
    fn holds(&self, op: &Op) -> bool
        ensures { IsTrue result ↔ Holds (ops self.now) op.now };

    /// Submits a request of handles that the user holds, under no group, and returns the new operation's token. Fewer than `MOST_GIVEN`
    /// were submitted before. A refused one comes back as it was, with the reason, and none is submitted: `RingFault` and `Busy` are of the
    /// completion driver's ring, and `Os` of the readiness driver's object.
    fn submit_op(&mut self, request: Request<B, VecBuf>) -> Result<Op, SubmitError<B>>
        requires held { IsTrue (held self.old (named request)) }
        requires counter { (ops self.old).given < MOST_GIVEN }
        ensures submits { submits self.old self.new request result }
        ensures token { IfOk result (λ op. AddsToken (ops self.old) (ops self.new) op) }
        ensures request { IfOk result (λ op. request_at (ops self.new) op ≡ Some request) }
        ensures requests { KeepsRequests (ops self.old) (ops self.new) }
        ensures err { IfErr result (λ refused. (refused.request ≡ request) × KeepsTokens (ops self.old) (ops self.new)) }
        ensures given { OnErr result ((ops self.new).given ≡ (ops self.old).given) };

    /// This driver made the group of a handle, as `submit_under` asks.
    fn has_group(&self, group: CancelHandle) -> bool
        ensures { IsTrue result ↔ group < groups self.now };

    /// Submits a request as `submit_op`, under a group that this driver made. Under a canceled group none is submitted, and the request
    /// comes back as it was.
    fn submit_under(
        &mut self,
        request: Request<B, VecBuf>,
        group: CancelHandle,
    ) -> Result<Submitted<B>, SubmitError<B>>
        requires held { IsTrue (held self.old (named request)) }
        requires known { group < groups self.old }
        requires counter { (ops self.old).given < MOST_GIVEN }
        ensures joins { joins self.old self.new request group result }
        ensures token { IfOk result (AddsTokenIf (ops self.old) (ops self.new)) }
        ensures request { IfOk result (GivesBack (ops self.new) request) }
        ensures requests { KeepsRequests (ops self.old) (ops self.new) }
        ensures err { IfErr result (λ refused. (refused.request ≡ request) × KeepsTokens (ops self.old) (ops self.new)) }
        ensures given { OnErr result ((ops self.new).given ≡ (ops self.old).given) };

    /// Polls an operation of this driver for a task. `Pending` returns its token; `Ready` spends it, and its request comes back: it
    /// names what it named, and what it sends is as it was. Each other operation keeps its request. The completion driver never answers
    /// `Err`. The readiness driver does so if memory runs out, and the token comes back. No operation is submitted.
    fn poll_op(&mut self, op: Op, task: u64) -> Result<PollOp<B>, (OutOfMemory, Op)>
        requires { Holds (ops self.old) op }
        ensures polls { polls self.old self.new op task result }
        ensures tokens { TokensFor (ops self.old) (ops self.new) op result }
        ensures request { PollsRequest B.buffer (ops self.old) (ops self.new) op result }
        ensures others { KeepsOthers (ops self.old) (ops self.new) op }
        ensures given { (ops self.new).given ≡ (ops self.old).given };

    /// Drops an operation of this driver. No operation is submitted. It takes no memory.
    fn drop_op(&mut self, op: Op)
        requires { Holds (ops self.old) op }
        ensures drops { drops self.old self.new op }
        ensures tokens { DropsToken (ops self.old) (ops self.new) op }
        ensures requests { KeepsRequests (ops self.old) (ops self.new) }
        ensures given { (ops self.new).given ≡ (ops self.old).given };

    /// Asks for the cancel of an operation of this driver. `OutOfMemory` comes if memory runs out. Either way every token stays, and no
    /// operation is submitted.
    fn cancel_op(&mut self, op: &Op) -> Result<(), OutOfMemory>
        requires { Holds (ops self.old) op.now }
        ensures cancels { cancels self.old self.new op.now result }
        ensures tokens { KeepsTokens (ops self.old) (ops self.new) }
        ensures requests { KeepsRequests (ops self.old) (ops self.new) }
        ensures given { (ops self.new).given ≡ (ops self.old).given };

    /// Gives a handle up that the user holds, as `close` of the drivers: it is closed once nobody holds it, and each operation that names
    /// it holds it. Each operation stays, with its request. It takes no memory.
    fn close_fd(&mut self, fd: SharedFd) -> Released
        requires { IsTrue (held self.old (fd ∷ [])) }
        ensures closes { closes self.old self.new fd result }
        ensures tokens { KeepsTokens (ops self.old) (ops self.new) }
        ensures requests { KeepsRequests (ops self.old) (ops self.new) }
        ensures given { (ops self.new).given ≡ (ops self.old).given };

    /// A turn, as `Driver::submit`. It keeps every token, and submits no operation.
    fn turn(&mut self) -> Turned
        ensures turns { Self.turns self.old self.new result }
        ensures tokens { KeepsTokens (ops self.old) (ops self.new) }
        ensures requests { KeepsRequests (ops self.old) (ops self.new) }
        ensures given { (ops self.new).given ≡ (ops self.old).given };
}
