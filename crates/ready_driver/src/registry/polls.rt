// The polls of operations by the bits of the handles that they wait for.
ghost use Rattle.std.specs.Prelude.{◌≡◌, None, IsTrue, option_map};
ghost use Rattle.std.specs.FinMap as map;
ghost use Rattle.driver_core.specs.Holds.{made_in};
ghost use Rattle.driver_core.specs.Op.{Holds, number_of, key_of};
ghost use Rattle.ready_driver.specs.ScheduledIo.{waiter_of};
ghost use Rattle.ready_driver.specs.Records.{io_at, changed, with_io};
ghost use Rattle.ready_driver.specs.Legacy.{Legacy};
ghost use Rattle.ready_driver.specs.LegacyPolls.{PollsCall};
ghost use Rattle.ready_driver.specs.Errors.{ReturnsFor};
ghost use Rattle.ready_driver.specs.Io.{IsLater};
ghost use Rattle.ready_driver.specs.Named.{PollsSlotFor};
ghost use Rattle.ready_driver.specs.Polling.{PartsStand, PollsFor};
ghost use Rattle.ready_driver.specs.HandlesStand.{HandlesStand};
ghost use Rattle.ready_driver.specs.Turns.{AreReported, KeepsBits};
ghost use Rattle.ready_driver.specs.Awaits.{slot_awaits, unless, IsSlotUnmet, IsWorldUnmet, PollsUnless, BlocksUnless};
ghost use Rattle.ready_driver.specs.Awaits.{LeavesFor, KeysFor, TokensFor, without_waiter};

use crate::non_block::NonBlock;
use crate::ready::Direction;
use crate::registry::Registry;
use crate::waits;
use driver_core::{Op, Operations, PollOp};
use rent_buf::{IoBufMut, OutOfMemory};

impl<I: NonBlock> Registry<I> {
    /// Polls an operation, by the bits of the handle that it waits for, where it waits for one that is no file; else its call is made at
    /// once. It is `Pending` only where no bit meets its direction, or its call would have blocked. If memory runs out, its token comes
    /// back. (monoio: `poll_op` of the legacy driver)
    pub fn poll_op<B: IoBufMut + Drop>(
        &mut self,
        ops: &mut Operations<B>,
        op: Op,
        task: u64,
        awaited: Option<(u64, Direction)>,
    ) -> Result<PollOp<B>, (OutOfMemory, Op)>
        requires holds { Holds ops.old op }
        requires awaited { awaited ≡ slot_awaits (map.get ops.old.slots.values (key_of op)) }
        ensures polls { IsTrue I.memory → (D : Legacy) → PartsStand B.buffer ops.old (I.view self.old.io).world D →
            PollsUnless (IsWorldUnmet self.old.records (I.view self.old.io).world (map.get ops.old.slots.values (key_of op)))
            B.buffer D op ops.new (I.view self.new.io).world result }
        // Right after a turn it answers just what the driver as plain data does.
        ensures exact { IsTrue I.memory → AreReported self.old.table self.old.records (I.view self.old.io).world → (D : Legacy) →
            HandlesStand self.old.table (I.view self.old.io).keys D → PartsStand B.buffer ops.old (I.view self.old.io).world D →
            PollsFor B.buffer D op ops.new (I.view self.new.io).world result }
        ensures blocks { BlocksUnless (IsSlotUnmet self.old.records (map.get ops.old.slots.values (key_of op)))
            (I.view self.old.io) (I.view self.new.io) result }
        ensures calls { PollsCall I.files B.buffer I.called self.old (map.get ops.old.slots.values (key_of op))
            (map.get ops.new.slots.values (key_of op)) self.new.io result }
        ensures returns { ReturnsFor (map.get ops.old.slots.values (key_of op)) (I.view self.old.io) (I.view self.new.io) result }
        ensures leaves { LeavesFor (unless (I.files self.old.io) (slot_awaits (map.get ops.old.slots.values (key_of op))))
            self.old.records (number_of op) task self.new.records result }
        ensures table { self.new.table ≡ self.old.table }
        ensures keys { IsTrue I.memory → made_in (map.get ops.old.slots.values (key_of op)) ≡ None →
            KeysFor (I.view self.old.io).keys (I.view self.new.io).keys result }
        ensures later { IsLater (I.view self.old.io) (I.view self.new.io) }
        // Bits that showed a handle of a world in memory show it still, or it is due.
        ensures shown { IsTrue I.memory → KeepsBits (I.view self.old.io) self.old.records (I.view self.new.io) self.new.records }
        ensures slots { PollsSlotFor ops.old ops.new op result }
        ensures tokens { TokensFor ops.old ops.new op result }
        ensures given { ops.new.given ≡ ops.old.given }
    {
        waits::poll_op(ops, &mut self.io, &mut self.records, op, task, awaited)
    }

    /// An operation waits for a handle no longer: answers the task that waited, or None exactly if it didn't wait. (not in monoio)
    pub fn forget(&mut self, h: u64, serial: u64) -> Option<u64>
        ensures task { result ≡ option_map (λ w. w.task) (waiter_of (io_at self.old.records h).waiting serial) }
        ensures rest { self.new ≡ record self.old { records = changed self.old.records h (with_io (without_waiter serial)) } }
    {
        self.records.forget(h, serial)
    }
}
