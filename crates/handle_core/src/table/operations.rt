// What operations hold: the handles that they name, and those that they made.
ghost use Rattle.std.specs.Prelude.{◌≡◌, ◌-◌, ◌<◌, ◌↔◌, max, None, OnOk, OnErr};
ghost use Rattle.std.specs.FinMap as map;
ghost use Rattle.handle_core.specs.Table.{IsHeld, holders_at, with_holders, without_handle};
ghost use Rattle.handle_core.specs.Table.{nobody, by_operation, with_operation, without_operation, handed};

use super::{HandleTable, Holders, MAX_HOLDS, OutOfMemory, Released};

impl HandleTable {
    /// An operation holds a handle that nobody held. It uses up one place of the reserved room, and takes no memory. (not in monoio)
    pub fn add_op_reserved(&mut self, h: u64)
        requires fresh { map.get self.old.holders h ≡ None }
        requires room { 0 < self.old.spare }
        ensures { self.new ≡ record (with_holders self.old h by_operation) { spare = self.old.spare - 1 } }
    {
        self.add_reserved(
            h,
            Holders {
                user: 0,
                operations: 1,
            },
        );
    }

    /// An operation holds a handle that nobody held. The reserved room stays. If memory runs out, nothing changes. (not in monoio)
    pub fn add_op(&mut self, h: u64) -> Result<(), OutOfMemory>
        requires fresh { map.get self.old.holders h ≡ None }
        ensures ok { OnOk result (self.new ≡ with_holders self.old h by_operation) }
        ensures err { OnErr result (self.new ≡ self.old) }
    {
        self.add(
            h,
            Holders {
                user: 0,
                operations: 1,
            },
        )
    }

    /// One more operation holds a handle of the table, of which operations have fewer than `MAX_HOLDS` holds. It takes no memory.
    /// (monoio: `SharedFd::clone`, of an operation)
    pub fn hold_op(&mut self, h: u64)
        requires known { IsHeld self.old h }
        requires counter { (holders_at self.old h).operations < MAX_HOLDS }
        ensures { self.new ≡ with_holders self.old h (with_operation (holders_at self.old h)) }
    {
        let Some(held) = self.handles.get_mut(&h) else {
            unreachable!();
        };
        held.operations += 1;
    }

    /// An operation drops its hold, of which there is at least one. The handle leaves the table with its last hold of either sort, which is
    /// when it is to be closed. It takes no memory. (monoio: the drop of a `SharedFd`, of an operation)
    pub fn release_op(&mut self, h: u64) -> Released
        requires held { 0 < (holders_at self.old h).operations }
        ensures last { (result ≡ Released.Last) ↔ (without_operation (holders_at self.old h) ≡ nobody) }
        ensures left { result ≡ Released.Last → self.new ≡ without_handle self.old h }
        ensures stays { result ≡ Released.Held → self.new ≡ with_holders self.old h (without_operation (holders_at self.old h)) }
    {
        let Some(held) = self.handles.get_mut(&h) else {
            unreachable!();
        };
        held.operations -= 1;
        if held.is_held() {
            return Released::Held;
        }
        self.handles.remove(&h);
        Released::Last
    }

    /// An operation's hold, of which there is at least one, becomes the user's: the operation made the handle, and its result is returned.
    /// A user that held the handle before holds it as often as it did. It takes no memory. (not in monoio)
    pub fn hand_over(&mut self, h: u64)
        requires { 0 < (holders_at self.old h).operations }
        ensures { self.new ≡ with_holders self.old h (handed (holders_at self.old h)) }
    {
        let Some(held) = self.handles.get_mut(&h) else {
            unreachable!();
        };
        *held = Holders {
            user: once_at_least(held.user),
            operations: held.operations - 1,
        };
    }
}

// This many, and at least one.
fn once_at_least(count: u64) -> u64
    ensures { result ≡ max count 1 }
{
    if count > 0 { count } else { 1 }
}
