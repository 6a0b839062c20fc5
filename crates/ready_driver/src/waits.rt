//! The poll of an operation that makes its call only once a report meets its direction.
ghost use Rattle.std.specs.Prelude.{◌≡◌, None, IsTrue, option_copied};
ghost use Rattle.std.specs.FinMap as map;
ghost use Rattle.driver_core.specs.Holds.{is_maker, made_in, named_in};
ghost use Rattle.machine.specs.Request.{listed};
ghost use Rattle.driver_core.specs.Op.{Holds, number_of, key_of};
ghost use Rattle.ready_driver.specs.Legacy.{Legacy};
ghost use Rattle.ready_driver.specs.Calling.{CallsOnce};
ghost use Rattle.ready_driver.specs.Errors.{ReturnsFor};
ghost use Rattle.ready_driver.specs.Io.{IsLater};
ghost use Rattle.ready_driver.specs.Named.{PollsSlotFor};
ghost use Rattle.ready_driver.specs.Polling.{PartsStand};
ghost use Rattle.ready_driver.specs.Awaits.{awaits, slot_awaits, IsSlotUnmet, IsWorldUnmet, PollsUnless, BlocksUnless};
ghost use Rattle.ready_driver.specs.Awaits.{LeavesFor, unless, is_met_at, KeysFor, TokensFor};
ghost use Rattle.ready_driver.specs.Turns.{KeepsBits};

use crate::non_block::NonBlock;
use crate::polling;
use crate::ready::Direction;
use crate::records::Records;
use driver_core::{Op, Operations, PollOp, Slot, is_maker, names_in};
use machine::{Names, Request};
use op_slots::Lifecycle;
use rent_buf::{IoBufMut, OutOfMemory};

/// The handle that a request waits for, and the direction; None for one that waits for none. (monoio: `OpAble::legacy_interest`)
pub fn direction_of<B, V>(request: &Request<B, V>) -> Option<(u64, Direction)>
    ensures { result ≡ awaits request.now }
{
    match request {
        Request::Recv { fd, .. } => Some((fd.number(), Direction::Read)),
        Request::ReadVec { fd, .. } => Some((fd.number(), Direction::Read)),
        Request::RecvMsg { fd, .. } => Some((fd.number(), Direction::Read)),
        Request::Read { fd, .. } => Some((fd.number(), Direction::Read)),
        Request::SpliceTo { fd, .. } => Some((fd.number(), Direction::Read)),
        Request::Accept { fd } => Some((fd.number(), Direction::Read)),
        Request::PollAdd { fd, read: true } => Some((fd.number(), Direction::Read)),
        Request::PollAdd { fd, read: false } => Some((fd.number(), Direction::Write)),
        Request::Send { fd, .. } => Some((fd.number(), Direction::Write)),
        Request::WriteVec { fd, .. } => Some((fd.number(), Direction::Write)),
        Request::SendMsg { fd, .. } => Some((fd.number(), Direction::Write)),
        Request::Write { fd, .. } => Some((fd.number(), Direction::Write)),
        Request::SpliceFrom { fd, .. } => Some((fd.number(), Direction::Write)),
        _ => None,
    }
}

/// What the operation of the slot that was looked up waits for: nothing where it isn't in flight. (not in monoio)
pub fn awaited<B>(slot: Option<&Slot<B>>) -> Option<(u64, Direction)>
    ensures { result ≡ slot_awaits (option_copied slot.entry) }
{
    match slot {
        Some(slot) => match &slot.life {
            Lifecycle::Completed(_) => None,
            _ => direction_of(&slot.request),
        },
        None => None,
    }
}

/// What a poll is to know of the operation in a slot, from one look: the handles that it names, whether its call may make a handle, and
/// what it waits for. (not in monoio)
#[derive(Clone, Copy, Debug, PartialEq, Eq)]
pub struct Sight {
    /// The handles that its request names.
    pub names: Names,
    /// It is in flight, and its request may make a handle.
    pub maker: bool,
    /// What it waits for.
    pub awaited: Option<(u64, Direction)>,
}

/// The same of the slot that was looked up. (not in monoio)
pub fn look_at<B>(slot: Option<&Slot<B>>) -> Sight
    ensures names { listed result.names ≡ named_in (option_copied slot.entry) }
    ensures maker { result.maker ≡ is_maker (option_copied slot.entry) }
    ensures awaited { result.awaited ≡ slot_awaits (option_copied slot.entry) }
{
    Sight {
        names: names_in(slot),
        maker: is_maker(slot),
        awaited: awaited(slot),
    }
}

/// Polls an operation: where it waits for a direction of a handle that is no file, by the bits of that handle (`Records::poll_op`); else
/// its call is made at once (`polling::poll`). (monoio: `poll_op` of the legacy driver)
pub fn poll_op<I: NonBlock, B: IoBufMut + Drop>(
    ops: &mut Operations<B>,
    io: &mut I,
    records: &mut Records,
    op: Op,
    task: u64,
    awaited: Option<(u64, Direction)>,
) -> Result<PollOp<B>, (OutOfMemory, Op)>
    requires holds { Holds ops.old op }
    requires awaited { awaited ≡ slot_awaits (map.get ops.old.slots.values (key_of op)) }
    ensures polls { IsTrue I.memory → (D : Legacy) → PartsStand B.buffer ops.old (I.view io.old).world D →
        PollsUnless (IsWorldUnmet records.old.records (I.view io.old).world (map.get ops.old.slots.values (key_of op)))
        B.buffer D op ops.new (I.view io.new).world result }
    ensures blocks { BlocksUnless (IsSlotUnmet records.old.records (map.get ops.old.slots.values (key_of op)))
        (I.view io.old) (I.view io.new) result }
    ensures calls { CallsOnce (is_met_at records.old.records
        (unless (I.files io.old) (slot_awaits (map.get ops.old.slots.values (key_of op)))))
        B.buffer I.called (map.get ops.old.slots.values (key_of op)) io.old
        (map.get ops.new.slots.values (key_of op)) io.new result }
    ensures returns { ReturnsFor (map.get ops.old.slots.values (key_of op)) (I.view io.old) (I.view io.new) result }
    ensures leaves { LeavesFor (unless (I.files io.old) (slot_awaits (map.get ops.old.slots.values (key_of op))))
        records.old.records (number_of op) task records.new.records result }
    ensures keys { IsTrue I.memory → made_in (map.get ops.old.slots.values (key_of op)) ≡ None →
        KeysFor (I.view io.old).keys (I.view io.new).keys result }
    ensures later { IsLater (I.view io.old) (I.view io.new) }
    ensures shown { IsTrue I.memory → KeepsBits (I.view io.old) records.old.records (I.view io.new) records.new.records }
    ensures table { records.new.table ≡ records.old.table }
    ensures slots { PollsSlotFor ops.old ops.new op result }
    ensures tokens { TokensFor ops.old ops.new op result }
    ensures given { ops.new.given ≡ ops.old.given }
{
    match awaited {
        Some((h, dir)) if !io.is_file(h) => records.poll_op(ops, io, op, task, h, dir),
        _ => polling::poll(ops, io, op, task),
    }
}
