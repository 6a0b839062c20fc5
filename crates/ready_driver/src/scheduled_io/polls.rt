// The poll of an operation by the bits of its handle.
ghost use Rattle.std.specs.Prelude.{◌≡◌, ◌⊎◌, false, None, IsTrue};
ghost use Rattle.std.specs.FinMap as map;
ghost use Rattle.driver_core.specs.Holds.{made_in, named_in};
ghost use Rattle.driver_core.specs.Op.{Holds, number_of, key_of};
ghost use Rattle.ready_driver.specs.Ready.{meets, mask_of};
ghost use Rattle.ready_driver.specs.ScheduledIo.{entry_of};
ghost use Rattle.ready_driver.specs.Legacy.{Legacy};
ghost use Rattle.ready_driver.specs.Calling.{CallsOnce};
ghost use Rattle.ready_driver.specs.Errors.{ReturnsFor};
ghost use Rattle.ready_driver.specs.Io.{IsLater, KeepsShown, AreDue};
ghost use Rattle.ready_driver.specs.Named.{PollsSlotFor};
ghost use Rattle.ready_driver.specs.Polling.{PartsStand};
ghost use Rattle.ready_driver.specs.Awaits.{PollsUnless, BlocksUnless, LeavesIo, KeysFor, TokensFor};

use crate::non_block::NonBlock;
use crate::polling;
use crate::ready::Direction;
use crate::scheduled_io::{ScheduledIo, Waiter, keep, keep_reserved, make_room};
use driver_core::{Op, Operations, PollOp};
use rent_buf::{IoBufMut, OutOfMemory};

impl ScheduledIo {
    // Polls an operation that waits for a direction of this handle. Where no bit meets the direction it is `Pending`, and no call is made.
    // Else the memory for its entry is taken, and then its call is made (`polling::poll`). A call that would block clears the direction's
    // bits. An operation that is `Pending` waits with this task from then on, and one that is returned waits no more. If memory runs out,
    // its token comes back, and nothing here has changed.
    pub(crate) fn poll_op<I: NonBlock, B: IoBufMut + Drop>(
        &mut self,
        ops: &mut Operations<B>,
        io: &mut I,
        op: Op,
        task: u64,
        dir: Direction,
    ) -> Result<PollOp<B>, (OutOfMemory, Op)>
        requires { Holds ops.old op }
        ensures polls { IsTrue I.memory → (D : Legacy) → PartsStand B.buffer ops.old (I.view io.old).world D →
            PollsUnless (meets self.old.ready (mask_of dir) ≡ false) B.buffer D op ops.new (I.view io.new).world result }
        ensures blocks { BlocksUnless (meets self.old.ready (mask_of dir) ≡ false) (I.view io.old) (I.view io.new) result }
        ensures calls { CallsOnce (meets self.old.ready (mask_of dir)) B.buffer I.called (map.get ops.old.slots.values (key_of op)) io.old
            (map.get ops.new.slots.values (key_of op)) io.new result }
        ensures returns { ReturnsFor (map.get ops.old.slots.values (key_of op)) (I.view io.old) (I.view io.new) result }
        ensures leaves { LeavesIo (meets self.old.ready (mask_of dir)) self.old (entry_of (number_of op) task dir) self.new result }
        ensures keys { IsTrue I.memory → made_in (map.get ops.old.slots.values (key_of op)) ≡ None →
            KeysFor (I.view io.old).keys (I.view io.new).keys result }
        ensures later { IsLater (I.view io.old) (I.view io.new) }
        ensures shown { IsTrue I.memory → KeepsShown (I.view io.old) (I.view io.new) }
        // The bits stay, or each handle that the operation names is due.
        ensures bits { IsTrue I.memory → (self.new.ready ≡ self.old.ready)
            ⊎ AreDue (I.view io.new) (named_in (map.get ops.old.slots.values (key_of op))) }
        ensures slots { PollsSlotFor ops.old ops.new op result }
        ensures tokens { TokensFor ops.old ops.new op result }
        ensures given { ops.new.given ≡ ops.old.given }
    {
        let serial = op.number();
        let entry = Waiter {
            serial,
            task,
            direction: dir,
        };
        if !self.is_met(dir) {
            return match keep(&mut self.waiting, &mut self.rooms, entry) {
                Ok(()) => Ok(PollOp::Pending(op)),
                Err(why) => Err((why, op)),
            };
        }
        match make_room(&mut self.waiting, &mut self.rooms) {
            Ok(()) => {}
            Err(why) => return Err((why, op)),
        }
        match polling::poll(ops, io, op, task) {
            Ok(PollOp::Ready(done)) => {
                let _ = self.forget(serial);
                Ok(PollOp::Ready(done))
            }
            Ok(PollOp::Pending(op)) => {
                self.readiness = self.readiness - dir.mask();
                keep_reserved(&mut self.waiting, &self.rooms, entry);
                Ok(PollOp::Pending(op))
            }
            Err(refused) => Err(refused),
        }
    }
}
