//! Who holds each handle of a driver, and which closes aren't reaped.
ghost use Rattle.std.specs.Prelude.{◌≡◌, ◌<◌, ◌+◌, ◌↔◌, ◌||◌, ℕ, nat_le, true, false, Some, IsTrue, IfOk, IfSome, OnOk, OnErr};
ghost use Rattle.std.specs.FinMap as map;
ghost use Rattle.handle_core.specs.Table.{IsHeld, holders_at, with_holders, without_handle, by_user, with_user, without_user};
ghost use Rattle.handle_core.specs.Table.{with_operation};
ghost use Rattle.machine.specs.Request.{listed};
ghost use Rattle.driver_core.specs.Holds.{is_nobody, left_holders, with_ops, CanJoin};
ghost use Rattle.uring_driver.specs.Holding.{closes, knows, user_count, is_users, settle, user_left, close_reaped, places, no_holding};
ghost use Rattle.uring_driver.specs.Making.{KeepsHolding, CanMake, op_joined, kept_if, lost_if, maker_ended, made_handed, is_old};
ghost use Rattle.machine.specs.Lists.{one_if};

use handle_core::{HandleTable, MAX_HOLDS, OutOfMemory, Released};
use machine::{MOST_HANDLES, Names};
use std::alloc::Global;
use std::marker::Model;

/// Who holds each handle, and which closes aren't reaped. A handle is held, or closing, or neither: it is closing from the step in which
/// its last holder leaves to the reap of its close. (monoio: the count and the state inside each `SharedFd`)
#[derive(Drop)]
pub struct Handles {
    table: HandleTable,
    // A close that isn't reaped holds its handle here, as an operation does.
    closing: HandleTable,
    // How many operations in flight may make a handle. Memory is reserved for each: for the handle, and for its close.
    makers: usize,
}

impl Model for Handles {
    ghost use Rattle.uring_driver.specs.Holding.{Holding, holding_code, IsKept};

    ghost Value = { Holding };

    ghost coded = { holding_code };

    ghost view = { λ h. record { table = h.table; closing = h.closing; makers = h.makers } };

    ghost invariant = { λ h. IsKept (record { table = h.table; closing = h.closing; makers = h.makers }) };
}

impl Handles {
    /// No handle. It takes no memory.
    pub fn new(alloc: Global) -> Handles
        ensures { result ≡ no_holding }
    {
        Handles {
            table: HandleTable::new(alloc),
            closing: HandleTable::new(alloc),
            makers: 0,
        }
    }

    /// How many handles are held, or may be made by operations in flight.
    pub fn places(&self) -> usize
        ensures { result ≡ places self.now }
    {
        // Memory is reserved for the close of each.
        let _most = self.closing.spare();
        self.table.len() + self.makers
    }

    /// How often the user holds a handle.
    pub fn user_count(&self, h: u64) -> u64
        ensures { result ≡ user_count self.now h }
    {
        match self.table.holders(h) {
            Some(held) => held.user,
            None => 0,
        }
    }

    /// The user holds a handle.
    pub fn user_holds(&self, h: u64) -> bool
        ensures { result ≡ is_users self.now h }
    {
        self.user_count(h) > 0
    }

    /// The close of a handle isn't reaped.
    pub fn closing(&self, h: u64) -> bool
        ensures { result ≡ closes self.now h }
    {
        self.closing.holders(h).is_some()
    }

    /// No handle is closing.
    pub fn none_closing(&self) -> bool
        ensures { IsTrue result ↔ ((h : ℕ) → closes self.now h ≡ false) }
    {
        self.closing.is_empty()
    }

    /// A handle is held, or closing.
    pub fn known(&self, h: u64) -> bool
        ensures { result ≡ knows self.now h }
    {
        self.table.holders(h).is_some() || self.closing(h)
    }

    /// Takes the memory for the close of one handle more than are held or may be made.
    pub fn reserve_close(&mut self) -> Result<(), OutOfMemory>
        ensures table { self.new.table ≡ self.old.table }
        ensures closing { self.new.closing.holders ≡ self.old.closing.holders }
        ensures makers { self.new.makers ≡ self.old.makers }
        ensures ok { OnOk result (places self.new < self.new.closing.spare) }
    {
        let count = self.places();
        if count < self.closing.spare() {
            return Ok(());
        }
        // Room for half as many again as are held, so that it is taken seldom.
        match count.checked_add(count / 2 + 1) {
            Some(room) => self.closing.reserve(room),
            None => Err(OutOfMemory),
        }
    }

    /// Takes the memory for a handle that an operation is to make, and for its close, where it may make one, and answers how many handles
    /// are held or may be made with it. If memory runs out, nothing but reserved memory has changed.
    pub fn make_ready(&mut self, maker: bool) -> Result<usize, OutOfMemory>
        ensures same { KeepsHolding maker self.old self.new }
        ensures places { IfOk result (λ n. n ≡ places self.new + one_if maker) }
        ensures ready { OnOk result (CanMake maker self.new) }
    {
        if !maker {
            return Ok(self.places());
        }
        self.reserve_close()?;
        self.reserve_made()?;
        // Memory is reserved for the closes of more than there are.
        let _most = self.closing.spare();
        Ok(self.places() + 1)
    }

    // Takes the memory for one handle more than operations may make.
    fn reserve_made(&mut self) -> Result<(), OutOfMemory>
        ensures table { self.new.table.holders ≡ self.old.table.holders }
        ensures rest { (self.new.closing ≡ self.old.closing) × (self.new.makers ≡ self.old.makers) }
        ensures ok { OnOk result (self.new.makers < self.new.table.spare) }
    {
        match self.makers.checked_add(1) {
            Some(room) => self.table.reserve(room),
            None => Err(OutOfMemory),
        }
    }

    /// The user holds a handle that wasn't known, below `MOST_HANDLES`, with memory reserved for its close. If memory runs out, nothing
    /// changes.
    pub fn add(&mut self, h: u64) -> Result<(), OutOfMemory>
        requires fresh { knows self.old h ≡ false }
        requires below { h < MOST_HANDLES }
        requires room { places self.old < self.old.closing.spare }
        ensures ok { OnOk result (self.new ≡ record self.old { table = with_holders self.old.table h by_user }) }
        ensures err { OnErr result (self.new ≡ self.old) }
    {
        self.table.add_user(h)
    }

    /// A handle that the user alone holds, once, is held no more, and isn't closing: it was never opened.
    pub fn forget(&mut self, h: u64)
        requires { map.get self.old.table.holders h ≡ Some by_user }
        ensures { self.new ≡ record self.old { table = without_handle self.old.table h } }
    {
        let _ = self.table.release(h);
    }

    /// The user, who holds a handle, holds it once more.
    pub fn hold(&mut self, h: u64)
        requires held { is_users self.old h ≡ true }
        requires counter { user_count self.old h < MAX_HOLDS }
        ensures { self.new ≡ record self.old { table = with_holders self.old.table h (with_user (holders_at self.old.table h)) } }
    {
        self.table.hold(h);
    }

    // An operation holds a handle of the table once more.
    fn hold_op(&mut self, h: u64)
        requires held { IsHeld self.old.table h }
        requires counter { (holders_at self.old.table h).operations < MAX_HOLDS }
        ensures { self.new ≡ record self.old { table = with_holders self.old.table h (with_operation (holders_at self.old.table h)) } }
    {
        self.table.hold_op(h);
    }

    /// An operation that names these handles holds each, and may make one, or not.
    pub fn join(&mut self, names: Names, maker: bool)
        requires names { CanJoin self.old.table (listed names) }
        requires ready { CanMake maker self.old }
        ensures { self.new ≡ op_joined self.old (listed names) maker }
    {
        self.add_maker(maker);
        self.join_names(names);
    }

    // One operation more may make a handle, where it may.
    fn add_maker(&mut self, maker: bool)
        requires { CanMake maker self.old }
        ensures { self.new ≡ record self.old { makers = self.old.makers + one_if maker } }
    {
        if maker {
            // Memory is reserved for more than there are.
            let _most = self.table.spare();
            self.makers += 1;
        }
    }

    // An operation that names these handles holds each.
    fn join_names(&mut self, names: Names)
        requires { CanJoin self.old.table (listed names) }
        ensures { self.new ≡ record self.old { table = with_ops self.old.table (listed names) } }
    {
        match names {
            Names::Nothing => {}
            Names::One(h) => self.hold_op(h),
            Names::Two(lower, upper) => {
                self.hold_op(lower);
                self.hold_op(upper);
            }
        }
    }

    /// An operation in flight that may make a handle has ended, and its handle, where it made one, is new. The operation holds the
    /// handle, or the handle is closing at once where the operation was dropped. It takes no memory.
    pub fn end_maker(&mut self, dropped: bool, made: Option<u64>)
        requires some { 0 < self.old.makers }
        requires fresh { IfSome made (λ h. is_old self.old h ≡ false) }
        ensures { self.new ≡ maker_ended self.old (kept_if dropped made) (lost_if dropped made) }
    {
        match made {
            None => self.makers -= 1,
            Some(h) => {
                if dropped {
                    self.closing.add_op_reserved(h);
                    self.makers -= 1;
                } else {
                    self.table.add_op_reserved(h);
                    self.makers -= 1;
                }
            }
        }
    }

    /// A handle that an operation made, and holds, becomes its user's. It takes no memory.
    pub fn hand_over(&mut self, h: u64)
        requires { 0 < (holders_at self.old.table h).operations }
        ensures { self.new ≡ made_handed self.old h }
    {
        self.table.hand_over(h);
    }

    /// A handle that an operation names as made can't be new: it is known, or is no handle's number.
    pub fn is_old(&self, h: u64) -> bool
        ensures value { result ≡ is_old self.now h }
        ensures known { result ≡ (knows self.now h || nat_le MOST_HANDLES h) }
    {
        self.table.holders(h).is_some() || self.closing(h) || h >= MOST_HANDLES
    }

    /// The user drops one of its holds of a handle. At the last hold of all the handle is closing from now on. It takes no memory.
    pub fn release(&mut self, h: u64) -> Released
        requires { is_users self.old h ≡ true }
        ensures below { h < MOST_HANDLES }
        ensures last { (result ≡ Released.Last) ↔ (is_nobody (without_user (holders_at self.old.table h)) ≡ true) }
        ensures left { self.new ≡ user_left self.old h }
    {
        match self.table.release(h) {
            Released::Last => {
                self.closing.add_op_reserved(h);
                Released::Last
            }
            Released::Held => Released::Held,
        }
    }

    /// An operation that named a handle is gone. At the last hold of all the handle is closing from now on. It takes no memory.
    pub fn release_op(&mut self, h: u64) -> Released
        requires { 0 < (holders_at self.old.table h).operations }
        ensures below { h < MOST_HANDLES }
        ensures last { (result ≡ Released.Last) ↔ (is_nobody (left_holders self.old.table h) ≡ true) }
        ensures left { self.new ≡ settle self.old h (left_holders self.old.table h) }
    {
        match self.table.release_op(h) {
            Released::Last => {
                self.closing.add_op_reserved(h);
                Released::Last
            }
            Released::Held => Released::Held,
        }
    }

    /// The close of a handle is reaped, if it is closing, which is answered.
    pub fn closed(&mut self, h: u64) -> bool
        ensures value { result ≡ closes self.old h }
        ensures rest { self.new ≡ close_reaped self.old h }
    {
        if !self.closing(h) {
            return false;
        }
        let _ = self.closing.release_op(h);
        true
    }
}
