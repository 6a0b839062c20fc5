//! The poll of an operation whose call is made at once.
ghost use Rattle.std.specs.Prelude.{◌≡◌, ◌<◌, ℕ, Option, Some, None, IsTrue, true, false, length};
ghost use Rattle.std.specs.FinMap as map;
ghost use Rattle.driver_core.specs.Op.{Holds, AddsToken, KeepsTokens, DropsToken, number_of, key_of};
ghost use Rattle.driver_core.specs.Holds.{made_in, named_in};
ghost use Rattle.driver_core.specs.Operations.{Submits};
ghost use Rattle.driver_core.specs.Requests.{KeepsRequests};
ghost use Rattle.driver_core.specs.Slot.{flies_in, number_at};
ghost use Rattle.machine.specs.Request.{plain_request};
ghost use Rattle.ready_driver.specs.Calling.{CallsOnce};
ghost use Rattle.ready_driver.specs.Errors.{ReturnsFor};
ghost use Rattle.ready_driver.specs.Legacy.{Legacy};
ghost use Rattle.ready_driver.specs.LegacyStep.{freed};
ghost use Rattle.ready_driver.specs.Awaits.{KeysFor, TokensFor};
ghost use Rattle.ready_driver.specs.Io.{IsLater, KeepsShown, AreDue};
ghost use Rattle.ready_driver.specs.Named.{PollsSlotFor, task_of, canceled_slots};
ghost use Rattle.ready_driver.specs.Polling.{OpsStand, PartsStand, PollsFor, BlocksFor, IsPending, asked_at, joined_at};

use crate::non_block::NonBlock;
use driver_core::{CallAnswer, MOST_GIVEN, Op, Operations, PollOp};
use machine::{CANCELED, Completion, Outcome, Request};
use op_slots::AfterDrop;
use op_slots::slab::MAX_LIVE;
use rent_buf::{IoBufMut, OutOfMemory, VecBuf};

/// Gives a request a slot and the next number, in memory that was reserved before, and answers its token. No call is made before its poll.
/// (monoio: `submit_with_data` of the legacy driver)
pub fn submit<B: IoBufMut + Drop>(ops: &mut Operations<B>, request: Request<B, VecBuf>) -> Op
    requires room { 0 < ops.old.slots.room }
    requires few { map.len ops.old.slots.values < MAX_LIVE }
    requires counter { ops.old.given < MOST_GIVEN }
    // The driver as plain data has the operation, under whatever group it was submitted.
    ensures submits { (D : Legacy) (group : Option ℕ) → OpsStand B.buffer ops.old D →
        OpsStand B.buffer ops.new (joined_at D (plain_request B.buffer request) group) }
    ensures number { (D : Legacy) → OpsStand B.buffer ops.old D → number_of result ≡ length D.slots }
    ensures token { AddsToken ops.old ops.new result }
    ensures slots { Submits ops.old ops.new request result }
    ensures requests { KeepsRequests ops.old ops.new }
{
    ops.submit(request)
}

/// Polls an operation for a task over an object that makes calls at once. An operation whose cancel was asked for is returned with the
/// error of a cancel. Else its call is made: where it would block the operation is `Pending`, and else it is returned with its outcome.
/// If memory runs out, its token comes back, and the next poll makes the call again. (monoio: `poll_op` of the legacy driver)
pub fn poll<I: NonBlock, B: IoBufMut + Drop>(
    ops: &mut Operations<B>,
    io: &mut I,
    op: Op,
    task: u64,
) -> Result<PollOp<B>, (OutOfMemory, Op)>
    requires { Holds ops.old op }
    // Over a world in memory it answers what the driver as plain data does.
    ensures polls { IsTrue I.memory → (D : Legacy) → PartsStand B.buffer ops.old (I.view io.old).world D →
        PollsFor B.buffer D op ops.new (I.view io.new).world result }
    ensures blocks { BlocksFor (I.view io.old) (I.view io.new) result }
    ensures returns { ReturnsFor (map.get ops.old.slots.values (key_of op)) (I.view io.old) (I.view io.new) result }
    // It made one call at most, and its answer is that of the call.
    ensures calls { CallsOnce true B.buffer I.called (map.get ops.old.slots.values (key_of op)) io.old
        (map.get ops.new.slots.values (key_of op)) io.new result }
    // Over every object the slots of all other operations stay.
    ensures slots { PollsSlotFor ops.old ops.new op result }
    ensures tokens { TokensFor ops.old ops.new op result }
    ensures later { IsLater (I.view io.old) (I.view io.new) }
    // Bits that showed a handle of a world in memory show it still, or it is due, as is each that the operation names where it is Pending.
    ensures shown { IsTrue I.memory → KeepsShown (I.view io.old) (I.view io.new) }
    ensures due { IsTrue I.memory → IsPending result → AreDue (I.view io.new) (named_in (map.get ops.old.slots.values (key_of op))) }
    ensures keys { IsTrue I.memory → made_in (map.get ops.old.slots.values (key_of op)) ≡ None →
        KeysFor (I.view io.old).keys (I.view io.new).keys result }
    ensures given { ops.new.given ≡ ops.old.given }
{
    let op = match ops.poll(op, task) {
        PollOp::Ready(done) => return Ok(PollOp::Ready(done)),
        PollOp::Pending(op) => op,
    };
    match ops.call(&op, io) {
        CallAnswer::Done(outcome) => Ok(PollOp::Ready(ops.end_op(op, outcome))),
        CallAnswer::WouldBlock => Ok(PollOp::Pending(op)),
        CallAnswer::OutOfMemory => Err((OutOfMemory, op)),
    }
}

/// Asks for the cancel of an operation: its next poll returns it with the error of a cancel. It answers the task that waited for it, if one
/// did; None where its cancel was asked for before. It takes no memory. (monoio: `cancel_op` of the legacy driver)
pub fn cancel<B: IoBufMut + Drop>(ops: &mut Operations<B>, op: &Op) -> Option<u64>
    requires { Holds ops.old op.now }
    ensures cancels { (D : Legacy) → OpsStand B.buffer ops.old D → OpsStand B.buffer ops.new (asked_at D (number_of op.now)) }
    ensures task { result ≡ task_of (map.get ops.old.slots.values (key_of op.now)) }
    // Its slot isn't in flight any more, and each other one stays.
    ensures landed { flies_in (map.get ops.new.slots.values (key_of op.now)) ≡ false }
    ensures slots { ops.new.slots.values ≡ canceled_slots ops.old.slots.values (key_of op.now) }
    ensures tokens { KeepsTokens ops.old ops.new }
    ensures requests { KeepsRequests ops.old ops.new }
    ensures given { ops.new.given ≡ ops.old.given }
{
    cancel_at(ops, op.key(), op.number())
}

/// The same, of the operation of a number whose slot is at a key. (not in monoio)
pub fn cancel_at<B: IoBufMut + Drop>(
    ops: &mut Operations<B>,
    key: usize,
    number: u64,
) -> Option<u64>
    requires { number_at ops.old.slots.values key ≡ Some number }
    ensures cancels { (D : Legacy) → OpsStand B.buffer ops.old D → OpsStand B.buffer ops.new (asked_at D number) }
    ensures task { result ≡ task_of (map.get ops.old.slots.values key) }
    ensures landed { flies_in (map.get ops.new.slots.values key) ≡ false }
    ensures slots { ops.new.slots.values ≡ canceled_slots ops.old.slots.values key }
    ensures tokens { KeepsTokens ops.old ops.new }
    ensures requests { KeepsRequests ops.old ops.new }
    ensures given { ops.new.given ≡ ops.old.given }
{
    let completion = Completion {
        word: key as u64,
        serial: number,
        outcome: Outcome::Fail(CANCELED),
    };
    match ops.complete(&completion) {
        Some((_, task)) => task,
        None => None,
    }
}

/// Drops an operation, which is gone at once with its buffer. It takes no memory. (monoio: `drop_op` of the legacy driver)
pub fn drop_op<B: IoBufMut + Drop>(ops: &mut Operations<B>, op: Op)
    requires { Holds ops.old op }
    ensures drops { (D : Legacy) → OpsStand B.buffer ops.old D → OpsStand B.buffer ops.new (freed D (number_of op)) }
    ensures slots { ops.new.slots.values ≡ map.remove ops.old.slots.values (key_of op) }
    ensures tokens { DropsToken ops.old ops.new op }
    ensures requests { KeepsRequests ops.old ops.new }
    ensures given { ops.new.given ≡ ops.old.given }
{
    let _ = cancel(ops, &op);
    match ops.drop_op(op) {
        AfterDrop::Free => {}
        AfterDrop::Left => unreachable!(),
    }
}
