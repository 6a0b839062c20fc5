//! The handles of a readiness driver: who holds each, what it is ready for, and the object that makes their calls.
ghost use Rattle.std.specs.Prelude.{◌≡◌, ◌<◌, true, false, not, [], ◌∷◌, IsOk, IfOk, IfErr, OnOk, OnErr};
ghost use Rattle.std.specs.FinMap as map;
ghost use Rattle.handle_core.specs.Table.{IsHeld, holders_at, with_holders, with_user, with_operation};
ghost use Rattle.machine.specs.Request.{listed};
ghost use Rattle.driver_core.specs.Holds.{CanJoin, with_ops};
ghost use Rattle.ready_driver.specs.Records.{AreNamed, io_at, is_registered};
ghost use Rattle.ready_driver.specs.Registry.{is_known, is_users, holds_each, is_old, AreRecorded, HasMadeRoom, IsSameButRoom, GivesUser};
ghost use Rattle.ready_driver.specs.Registry.{are_registered, MakesReady, Refuses, RefusesReady};

mod dialing;
mod leave;
mod memory;
mod polls;
mod turn;

use crate::non_block::{NonBlock, NonBlockError};
use crate::ready::Ready;
use crate::records::Records;
use handle_core::{MAX_HOLDS, SharedFd};
use machine::{MOST_HANDLES, Names};
use rent_buf::OutOfMemory;
use std::alloc::Global;
use std::marker::Model;

/// Who holds each handle, what is kept of each, and the object that makes their calls. Just the handles that somebody holds have records.
/// A call finds a handle by a hash, however many there are. (monoio: the `Poll`, and the slab of `ScheduledIo`, of the legacy driver; who
/// holds a handle is counted inside each `SharedFd`)
#[derive(Drop)]
pub struct Registry<I: NonBlock> {
    io: I,
    records: Records,
}

impl<I: NonBlock> Model for Registry<I> {
    ghost use Rattle.std.specs.Coded.{codes};
    ghost use Rattle.ready_driver.specs.Registry.{Handling, handling_code, AreRecorded};

    ghost Value = { Handling I };

    ghost coded = { handling_code I.code (Prim.hlevel codes) };

    ghost view = { λ r. record { io = r.io; table = r.records.table; records = r.records.records } };

    ghost invariant = { λ r. AreRecorded r.records.table r.records.records };
}

impl<I: NonBlock> Registry<I> {
    /// No handle, over an object. It takes no memory. (monoio: `LegacyDriver::new`)
    pub fn over(alloc: Global, io: I) -> Self
        ensures { result ≡ record {
          io = io;
          table = record { holders = map.empty; spare = 0 };
          records = record { handles = map.empty; names = map.empty; spare = 0 };
        } }
    {
        Registry {
            io,
            records: Records::new(alloc),
        }
    }

    /// The object. (not in monoio)
    pub fn io(&self) -> &I
        ensures { result.now ≡ self.now.io }
    {
        &self.io
    }

    /// The object alone. Who held a handle is forgotten, and no handle is closed. (not in monoio)
    pub fn into_io(self) -> I
        ensures { result ≡ self.io }
    {
        let Registry {
            io,
            records: _records,
        } = self;
        io
    }

    /// How often the user holds a handle. (not in monoio)
    pub fn user_count(&self, h: u64) -> u64
        ensures { result ≡ (holders_at self.now.table h).user }
    {
        match self.records.holders(h) {
            Some(held) => held.user,
            None => 0,
        }
    }

    /// The user holds a handle. (not in monoio)
    pub fn user_holds(&self, h: u64) -> bool
        ensures { result ≡ is_users self.now.table h }
    {
        self.user_count(h) > 0
    }

    /// The user holds each of these handles. (not in monoio)
    pub fn holds_names(&self, names: Names) -> bool
        ensures { result ≡ holds_each self.now.table (listed names) }
    {
        match names {
            Names::Nothing => true,
            Names::One(h) => self.user_holds(h),
            Names::Two(lower, upper) => self.user_holds(lower) && self.user_holds(upper),
        }
    }

    /// Somebody holds a handle: its user, or an operation. (not in monoio)
    pub fn known(&self, h: u64) -> bool
        ensures value { result ≡ is_known self.now.table h }
        ensures recorded { AreRecorded self.now.table self.now.records }
    {
        self.records.holders(h).is_some()
    }

    /// Just the handles that somebody holds have records, and a handle is that of a key exactly if its record has the key. It does nothing:
    /// it is for proofs. (not in monoio)
    pub fn recorded(&self)
        ensures recorded { AreRecorded self.now.table self.now.records }
        ensures named { AreNamed self.now.records }
    {
        self.records.named();
    }

    /// A handle that a call names as made can't be new: somebody holds it, or it is no handle's number. (not in monoio)
    pub fn is_old(&self, h: u64) -> bool
        ensures { result ≡ is_old self.now.table h }
    {
        self.known(h) || h >= MOST_HANDLES
    }

    /// The bits of a handle: none where nobody holds it. (monoio: the `readiness` of its `ScheduledIo`)
    pub fn readiness(&self, h: u64) -> Ready
        ensures { result ≡ (io_at self.now.records h).ready }
    {
        self.records.readiness(h)
    }

    /// A handle is registered. (not in monoio, where each is)
    pub fn registered(&self, h: u64) -> bool
        ensures { result ≡ is_registered self.now.records h }
    {
        self.records.registered(h)
    }

    /// Takes the memory for a handle that a call is to make, and for its record. If memory runs out, nothing but reserved memory has
    /// changed. (not in monoio)
    pub fn reserve_made(&mut self) -> Result<(), OutOfMemory>
        ensures same { IsSameButRoom self.old self.new }
        ensures ok { OnOk result (HasMadeRoom self.new) }
    {
        self.records.reserve(1)
    }

    /// The user holds a handle that nobody held. The memory for it and for its record is taken first; if that runs out, nothing but
    /// reserved memory has changed. Then the handle is registered with the key of its record; one that the object refuses stays
    /// unregistered, and is tried again by `make_ready`. (monoio: `SharedFd::new`)
    pub fn adopt(&mut self, h: u64) -> Result<SharedFd, OutOfMemory>
        requires fresh { is_known self.old.table h ≡ false }
        ensures fd { IfOk result (λ fd. fd ≡ h) }
        ensures ok { OnOk result (GivesUser I.view I.tells I.memory self.old h self.new) }
        ensures err { OnErr result (IsSameButRoom self.old self.new) }
    {
        self.reserve_made()?;
        self.give_user(h);
        Ok(SharedFd::new(h))
    }

    /// The user holds a handle that a call made, and answers that it does: it gets a record and is registered as in `adopt`, in memory
    /// that was reserved. A handle that can't be new (`is_old`) is refused: nothing changes, and the answer is false. (monoio: the
    /// `SharedFd::new` in the results of `Accept` and `Open`)
    pub fn hand_over(&mut self, h: u64) -> bool
        requires { HasMadeRoom self.old }
        ensures value { result ≡ not (is_old self.old.table h) }
        ensures given { result ≡ true → GivesUser I.view I.tells I.memory self.old h self.new }
        ensures refused { result ≡ false → self.new ≡ self.old }
    {
        if self.is_old(h) {
            return false;
        }
        self.give_user(h);
        true
    }

    // The user holds a handle that nobody held, in memory that was reserved: it gets a record, and is registered where the object takes it.
    fn give_user(&mut self, h: u64)
        requires fresh { is_known self.old.table h ≡ false }
        requires room { HasMadeRoom self.old }
        ensures { GivesUser I.view I.tells I.memory self.old h self.new }
    {
        let key = self.records.add_reserved(h);
        match self.io.register(h, key) {
            Ok(()) => self.records.set_registered(key),
            Err(_) => {}
        }
    }

    /// Each of these handles is registered, before an operation that names them is submitted: one that the object refused is tried again.
    /// Where it is refused again, so is this call: by `Fault`, with the object's number, only where that failed, or by `OutOfMemory` if
    /// memory ran out. Then nothing has changed but that handles in front of it are registered. (not in monoio, where a refused handle is
    /// an error at once)
    pub fn make_ready(&mut self, names: Names) -> Result<(), NonBlockError>
        ensures ok { OnOk result (MakesReady I.view I.tells I.memory self.old (listed names) self.new) }
        ensures calm { OnOk result ((I.view self.new.io).faults ≡ (I.view self.old.io).faults) }
        ensures same { are_registered self.old.records (listed names) ≡ true → IsOk result × (self.new ≡ self.old) }
        ensures err { IfErr result (λ why. RefusesReady I.view I.tells I.memory self.old (listed names) self.new why) }
    {
        match names {
            Names::Nothing => Ok(()),
            Names::One(h) => self.make_one_ready(h),
            Names::Two(lower, upper) => match self.make_one_ready(lower) {
                Ok(()) => self.make_one_ready(upper),
                Err(why) => Err(why),
            },
        }
    }

    // The same, of one handle.
    fn make_one_ready(&mut self, h: u64) -> Result<(), NonBlockError>
        ensures ok { OnOk result (MakesReady I.view I.tells I.memory self.old (h ∷ []) self.new) }
        ensures calm { OnOk result ((I.view self.new.io).faults ≡ (I.view self.old.io).faults) }
        ensures same { is_registered self.old.records h ≡ true → IsOk result × (self.new ≡ self.old) }
        ensures err { IfErr result (λ why. Refuses I.view I.tells I.memory self.old h self.new why) }
    {
        self.records.named();
        let Some(key) = self.records.unregistered(h) else {
            return Ok(());
        };
        match self.io.register(h, key) {
            Ok(()) => {
                self.records.set_registered(key);
                Ok(())
            }
            Err(why) => Err(why),
        }
    }

    /// An operation that names these handles holds each. (monoio: the clones of a `SharedFd` in an operation)
    pub fn join(&mut self, names: Names)
        requires { CanJoin self.old.table (listed names) }
        ensures { self.new ≡ record self.old { table = with_ops self.old.table (listed names) } }
    {
        match names {
            Names::Nothing => {}
            Names::One(h) => self.hold_op(h),
            Names::Two(lower, upper) => {
                self.hold_op(lower);
                self.hold_op(upper);
            }
        }
    }

    // An operation holds a handle that somebody holds once more.
    fn hold_op(&mut self, h: u64)
        requires held { IsHeld self.old.table h }
        requires counter { (holders_at self.old.table h).operations < MAX_HOLDS }
        ensures { self.new ≡ record self.old { table = with_holders self.old.table h (with_operation (holders_at self.old.table h)) } }
    {
        self.records.hold_op(h);
    }

    /// The user, who holds a handle, holds it once more. It takes no memory. (monoio: `SharedFd::clone`)
    pub fn hold(&mut self, h: u64)
        requires held { is_users self.old.table h ≡ true }
        requires counter { (holders_at self.old.table h).user < MAX_HOLDS }
        ensures { self.new ≡ record self.old { table = with_holders self.old.table h (with_user (holders_at self.old.table h)) } }
    {
        self.records.hold(h);
    }
}
