//! Who holds each handle, as a finite map from handles to counts.
ghost use Rattle.std.specs.Prelude.{◌≡◌, ◌+◌, ◌-◌, ◌<◌, ◌↔◌, max, IsTrue, None, OnOk, OnErr};
ghost use Rattle.std.specs.FinMap as map;
ghost use Rattle.handle_core.specs.Table.{IsHeld, AreHeld, holders_at, with_holders, without_handle};
ghost use Rattle.handle_core.specs.Table.{nobody, by_user, with_user, without_user};

mod operations;

use std::alloc::Global;
use std::collections::HashMap;
use std::marker::Model;
use thiserror::Error;

/// How often at most its user holds a handle, and how often operations do. (not in monoio)
pub const MAX_HOLDS: u64 = 1 << 62;

/// Memory ran out, and nothing changed. (not in monoio)
#[derive(Clone, Copy, Debug, PartialEq, Eq, Error)]
#[error("OutOfMemory")]
pub struct OutOfMemory;

/// Whether a handle that was released is still held. (not in monoio)
#[derive(Clone, Copy, Debug, PartialEq, Eq)]
pub enum Released {
    /// It still has a holder.
    Held,
    /// That was the last hold, and the handle left the table.
    Last,
}

/// Who holds a handle. (not in monoio, where the count of an `Rc` has both)
#[derive(Clone, Copy, Debug, PartialEq, Eq)]
pub struct Holders {
    /// How often its user holds it.
    pub user: u64,
    /// How often operations hold it.
    pub operations: u64,
}

impl Holders {
    // Somebody holds the handle.
    fn is_held(&self) -> bool
        ensures { IsTrue result ↔ (0 < self.now.user + self.now.operations) }
    {
        self.user > 0 || self.operations > 0
    }
}

/// The handles that are held, each with its holders: its user, as often as it holds the handle, and each operation that names or made
/// it. A clause sees the map from handles to their holders, and for how many more handles memory is reserved.
///
/// A call finds its handle by a hash, however many handles there are. `release` and `release_op` find it once more at its last hold.
/// (monoio: the count of the `Rc` in each `SharedFd`)
#[derive(Debug, Drop)]
pub struct HandleTable {
    handles: HashMap<u64, Holders>,
    // For how many more handles memory is reserved.
    reserved: usize,
}

impl Model for HandleTable {
    ghost use Rattle.handle_core.specs.Table.{Table, table_code, table_of, IsKept};

    ghost Value = { Table };

    ghost coded = { table_code };

    ghost view = { λ t. table_of t.handles.entries t.reserved };

    ghost invariant = { λ t. IsKept t.handles t.reserved };
}

impl HandleTable {
    /// An empty table, with no reserved room. Its memory comes from `alloc`, and it takes none yet. (not in monoio)
    pub fn new(alloc: Global) -> HandleTable
        ensures { result ≡ record { holders = map.empty; spare = 0 } }
    {
        HandleTable {
            handles: HashMap::new(alloc),
            reserved: 0,
        }
    }

    /// For how many more handles memory is reserved. (not in monoio)
    pub fn spare(&self) -> usize
        ensures { result ≡ self.now.spare }
    {
        self.reserved
    }

    /// How many handles are held. (not in monoio)
    pub fn len(&self) -> usize
        ensures { result ≡ map.len self.now.holders }
    {
        self.handles.len()
    }

    /// No handle is held. (not in monoio)
    pub fn is_empty(&self) -> bool
        ensures { IsTrue result ↔ (map.len self.now.holders ≡ 0) }
    {
        self.len() == 0
    }

    /// Who holds a handle, and None exactly if nobody does. (not in monoio)
    pub fn holders(&self, h: u64) -> Option<Holders>
        ensures value { result ≡ map.get self.now.holders h }
        ensures held { AreHeld self.now }
    {
        self.handles.get(&h).copied()
    }

    /// Its user holds the handle. False also if the handle isn't in the table. (not in monoio)
    pub fn user_holds(&self, h: u64) -> bool
        ensures { IsTrue result ↔ (0 < (holders_at self.now h).user) }
    {
        match self.handles.get(&h) {
            Some(held) => held.user > 0,
            None => false,
        }
    }

    /// Reserves memory for at least `n` more handles. Only `add_op_reserved` uses it up. If memory runs out, nothing changes.
    /// (not in monoio)
    pub fn reserve(&mut self, n: usize) -> Result<(), OutOfMemory>
        ensures ok { OnOk result (self.new ≡ record self.old { spare = max n self.old.spare }) }
        ensures err { OnErr result (self.new ≡ self.old) }
    {
        if n <= self.reserved {
            return Ok(());
        }
        if self.handles.reserve(n).is_err() {
            return Err(OutOfMemory);
        }
        self.reserved = n;
        Ok(())
    }

    /// Its user holds a handle that nobody held. The reserved room stays. If memory runs out, nothing changes.
    /// (monoio: `SharedFd::new`)
    pub fn add_user(&mut self, h: u64) -> Result<(), OutOfMemory>
        requires fresh { map.get self.old.holders h ≡ None }
        ensures ok { OnOk result (self.new ≡ with_holders self.old h by_user) }
        ensures err { OnErr result (self.new ≡ self.old) }
    {
        self.add(
            h,
            Holders {
                user: 1,
                operations: 0,
            },
        )
    }

    /// The user holds a handle of the table once more, of which it has fewer than `MAX_HOLDS` holds. It takes no memory.
    /// (monoio: `SharedFd::clone`, of a stream)
    pub fn hold(&mut self, h: u64)
        requires known { IsHeld self.old h }
        requires counter { (holders_at self.old h).user < MAX_HOLDS }
        ensures { self.new ≡ with_holders self.old h (with_user (holders_at self.old h)) }
    {
        let Some(held) = self.handles.get_mut(&h) else {
            unreachable!();
        };
        held.user += 1;
    }

    /// The user drops one of its holds, of which it has at least one. The handle leaves the table with its last hold of either sort, which
    /// is when it is to be closed. It takes no memory. (monoio: the drop of a `SharedFd`, of a stream)
    pub fn release(&mut self, h: u64) -> Released
        requires held { 0 < (holders_at self.old h).user }
        ensures last { (result ≡ Released.Last) ↔ (without_user (holders_at self.old h) ≡ nobody) }
        ensures left { result ≡ Released.Last → self.new ≡ without_handle self.old h }
        ensures stays { result ≡ Released.Held → self.new ≡ with_holders self.old h (without_user (holders_at self.old h)) }
    {
        let Some(held) = self.handles.get_mut(&h) else {
            unreachable!();
        };
        held.user -= 1;
        if held.is_held() {
            return Released::Held;
        }
        self.handles.remove(&h);
        Released::Last
    }

    // Adds a handle by memory that is taken for it, and leaves the reserved room.
    fn add(&mut self, h: u64, held: Holders) -> Result<(), OutOfMemory>
        requires fresh { map.get self.old.holders h ≡ None }
        requires somebody { 0 < held.user + held.operations }
        ensures ok { OnOk result (self.new ≡ with_holders self.old h held) }
        ensures err { OnErr result (self.new ≡ self.old) }
    {
        let Some(room) = self.reserved.checked_add(1) else {
            return Err(OutOfMemory);
        };
        self.reserve(room)?;
        self.add_reserved(h, held);
        Ok(())
    }

    // Adds a handle by memory that was reserved.
    fn add_reserved(&mut self, h: u64, held: Holders)
        requires fresh { map.get self.old.holders h ≡ None }
        requires somebody { 0 < held.user + held.operations }
        requires room { 0 < self.old.spare }
        ensures { self.new ≡ record (with_holders self.old h held) { spare = self.old.spare - 1 } }
    {
        let _ = self.handles.insert(h, held);
        self.reserved -= 1;
    }
}

#[cfg(test)]
mod tests;
