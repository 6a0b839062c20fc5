// Who holds the handles of records, beside what is kept of each.
ghost use Rattle.std.specs.Prelude.{◌≡◌, ◌<◌, ◌+◌, ◌↔◌, IsTrue, option_copied, option_map};
ghost use Rattle.std.specs.FinMap as map;
ghost use Rattle.handle_core.specs.Table.{IsHeld, holders_at, with_holders, nobody};
ghost use Rattle.handle_core.specs.Table.{with_user, without_user, with_operation, without_operation};
ghost use Rattle.ready_driver.specs.Records.{record_at, without_one};

use crate::records::{One, Records, key_in, place};
use handle_core::{Holders, MAX_HOLDS, Released};

// Somebody holds a handle of these holders.
fn is_held(held: &Holders) -> bool
    ensures { IsTrue result ↔ (0 < held.now.user + held.now.operations) }
{
    held.user > 0 || held.operations > 0
}

impl Records {
    // A handle that somebody holds.
    pub(super) fn find(&self, h: u64) -> Option<&One>
        ensures held { option_map (λ one. one.held) (option_copied result) ≡ map.get self.now.table.holders h }
        ensures kept { option_map (λ one. one.kept) (option_copied result) ≡ record_at self.now.records h }
    {
        match key_in(&self.keys, &self.slab, &self.near, h) {
            Some(key) => self.slab.get(key),
            None => None,
        }
    }

    /// Who holds a handle, and None exactly if nobody does. (not in monoio)
    pub fn holders(&self, h: u64) -> Option<Holders>
        ensures { result ≡ map.get self.now.table.holders h }
    {
        match self.find(h) {
            Some(one) => Some(one.held),
            None => None,
        }
    }

    /// The user holds a handle once more, of which it has fewer than `MAX_HOLDS` holds. It takes no memory. (monoio: `SharedFd::clone`, of
    /// a stream)
    pub fn hold(&mut self, h: u64)
        requires known { IsHeld self.old.table h }
        requires counter { (holders_at self.old.table h).user < MAX_HOLDS }
        ensures { self.new ≡ record self.old { table = with_holders self.old.table h (with_user (holders_at self.old.table h)) } }
    {
        let Some(key) = key_in(&self.keys, &self.slab, &self.near, h) else {
            unreachable!();
        };
        let Some(one) = self.slab.get_mut(key) else {
            unreachable!();
        };
        one.held.user += 1;
    }

    /// One more operation holds a handle, of which operations have fewer than `MAX_HOLDS` holds. It takes no memory. (monoio:
    /// `SharedFd::clone`, of an operation)
    pub fn hold_op(&mut self, h: u64)
        requires known { IsHeld self.old.table h }
        requires counter { (holders_at self.old.table h).operations < MAX_HOLDS }
        ensures { self.new ≡ record self.old { table = with_holders self.old.table h (with_operation (holders_at self.old.table h)) } }
    {
        let Some(key) = key_in(&self.keys, &self.slab, &self.near, h) else {
            unreachable!();
        };
        self.near[place(h)] = key;
        let Some(one) = self.slab.get_mut(key) else {
            unreachable!();
        };
        one.held.operations += 1;
    }

    /// The user drops one of its holds, of which it has at least one. With the last hold of either sort the handle goes, with its record.
    /// It takes no memory. (monoio: the drop of a `SharedFd`, of a stream)
    pub fn release(&mut self, h: u64) -> Released
        requires held { 0 < (holders_at self.old.table h).user }
        ensures last { (result ≡ Released.Last) ↔ (without_user (holders_at self.old.table h) ≡ nobody) }
        ensures left { result ≡ Released.Last → self.new ≡ without_one self.old h }
        ensures stays { result ≡ Released.Held →
            self.new ≡ record self.old { table = with_holders self.old.table h (without_user (holders_at self.old.table h)) } }
    {
        let Some(key) = key_in(&self.keys, &self.slab, &self.near, h) else {
            unreachable!();
        };
        let Some(one) = self.slab.get_mut(key) else {
            unreachable!();
        };
        one.held.user -= 1;
        if is_held(&one.held) {
            return Released::Held;
        }
        self.keys.remove(&h);
        let _ = self.slab.try_remove(key);
        Released::Last
    }

    /// An operation drops its hold, of which there is at least one. With the last hold of either sort the handle goes, with its record. It
    /// takes no memory. (monoio: the drop of a `SharedFd`, of an operation)
    pub fn release_op(&mut self, h: u64) -> Released
        requires held { 0 < (holders_at self.old.table h).operations }
        ensures last { (result ≡ Released.Last) ↔ (without_operation (holders_at self.old.table h) ≡ nobody) }
        ensures left { result ≡ Released.Last → self.new ≡ without_one self.old h }
        ensures stays { result ≡ Released.Held →
            self.new ≡ record self.old { table = with_holders self.old.table h (without_operation (holders_at self.old.table h)) } }
    {
        let Some(key) = key_in(&self.keys, &self.slab, &self.near, h) else {
            unreachable!();
        };
        let Some(one) = self.slab.get_mut(key) else {
            unreachable!();
        };
        one.held.operations -= 1;
        if is_held(&one.held) {
            return Released::Held;
        }
        self.keys.remove(&h);
        let _ = self.slab.try_remove(key);
        Released::Last
    }
}
