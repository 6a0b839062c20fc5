// The poll of an operation by the record of its handle.
ghost use Rattle.std.specs.Prelude.{◌≡◌, Some, None, IsTrue};
ghost use Rattle.std.specs.FinMap as map;
ghost use Rattle.driver_core.specs.Holds.{made_in};
ghost use Rattle.driver_core.specs.Op.{Holds, number_of, key_of};
ghost use Rattle.ready_driver.specs.Ready.{meets, mask_of};
ghost use Rattle.ready_driver.specs.ScheduledIo.{entry_of};
ghost use Rattle.ready_driver.specs.Records.{io_at};
ghost use Rattle.ready_driver.specs.Legacy.{Legacy};
ghost use Rattle.ready_driver.specs.Calling.{CallsOnce};
ghost use Rattle.ready_driver.specs.Errors.{ReturnsFor};
ghost use Rattle.ready_driver.specs.Io.{IsLater};
ghost use Rattle.ready_driver.specs.Named.{PollsSlotFor};
ghost use Rattle.ready_driver.specs.Polling.{PartsStand};
ghost use Rattle.ready_driver.specs.Awaits.{slot_awaits, IsUnmet, PollsUnless, BlocksUnless, Leaves, KeysFor, TokensFor};
ghost use Rattle.ready_driver.specs.Turns.{KeepsBits};

use crate::non_block::NonBlock;
use crate::ready::Direction;
use crate::records::{Records, key_in, place};
use driver_core::{Op, Operations, PollOp};
use rent_buf::{IoBufMut, OutOfMemory};

impl Records {
    // Polls an operation that waits for a direction of a handle, by the bits of that handle (`ScheduledIo::poll_op`). One that has no
    // record has no bits, and for it nothing waits. It looks the record up once.
    pub(crate) fn poll_op<I: NonBlock, B: IoBufMut + Drop>(
        &mut self,
        ops: &mut Operations<B>,
        io: &mut I,
        op: Op,
        task: u64,
        h: u64,
        dir: Direction,
    ) -> Result<PollOp<B>, (OutOfMemory, Op)>
        requires { Holds ops.old op }
        ensures polls { IsTrue I.memory → (D : Legacy) → PartsStand B.buffer ops.old (I.view io.old).world D →
            PollsUnless (IsUnmet self.old.records h dir) B.buffer D op ops.new (I.view io.new).world result }
        ensures blocks { BlocksUnless (IsUnmet self.old.records h dir) (I.view io.old) (I.view io.new) result }
        ensures calls { CallsOnce (meets (io_at self.old.records h).ready (mask_of dir)) B.buffer I.called
            (map.get ops.old.slots.values (key_of op)) io.old (map.get ops.new.slots.values (key_of op)) io.new result }
        ensures returns { ReturnsFor (map.get ops.old.slots.values (key_of op)) (I.view io.old) (I.view io.new) result }
        ensures leaves { Leaves self.old.records h (entry_of (number_of op) task dir) self.new.records result }
        ensures keys { IsTrue I.memory → made_in (map.get ops.old.slots.values (key_of op)) ≡ None →
            KeysFor (I.view io.old).keys (I.view io.new).keys result }
        ensures later { IsLater (I.view io.old) (I.view io.new) }
        ensures shown { IsTrue I.memory → slot_awaits (map.get ops.old.slots.values (key_of op)) ≡ Some (h, dir) →
            KeepsBits (I.view io.old) self.old.records (I.view io.new) self.new.records }
        ensures table { self.new.table ≡ self.old.table }
        ensures slots { PollsSlotFor ops.old ops.new op result }
        ensures tokens { TokensFor ops.old ops.new op result }
        ensures given { ops.new.given ≡ ops.old.given }
    {
        let Some(key) = key_in(&self.keys, &self.slab, &self.near, h) else {
            return Ok(PollOp::Pending(op));
        };
        self.near[place(h)] = key;
        let Some(one) = self.slab.get_mut(key) else {
            unreachable!();
        };
        one.kept.io.poll_op(ops, io, op, task, dir)
    }
}
