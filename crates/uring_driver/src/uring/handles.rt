//! The calls of a driver on handles: who holds them, and when they are closed.
ghost use Rattle.std.specs.Prelude.{◌≡◌, ◌<◌, ◌-◌, ◌↔◌, true, false, [], map, IsTrue, IfOk, OnOk, OnErr};
ghost use Rattle.handle_core.specs.Table.{holders_at, with_holders, with_user, without_user};
ghost use Rattle.ring_core.specs.Entry.{close_entry};
ghost use Rattle.machine.specs.Ledger.{Ledger};
ghost use Rattle.machine.specs.Request.{listed};
ghost use Rattle.driver_core.specs.Holds.{is_nobody};
ghost use Rattle.uring_driver.specs.Holding.{closes, knows, user_count, user_left, unheld_if, IsSameHolding};
ghost use Rattle.uring_driver.specs.Uring.{due_in, pending, holding_in, holds_handle, holds_all};
ghost use Rattle.uring_driver.specs.Op.{KeepsTokens, KeepsRequests};
ghost use Rattle.uring_driver.specs.Submissions.{PendingMoves};
ghost use Rattle.uring_driver.specs.Stands.{Stands};
ghost use Rattle.uring_driver.specs.Submitted.{SameOps, IsSameRing};
ghost use Rattle.uring_driver.specs.Released.{Adopts, ReleasesFor, HasHandleRoom, HasCloseRoom};

use crate::uring::{IoUringDriver, owed};
use handle_core::{MAX_HOLDS, Released, SharedFd};
use machine::{MOST_HANDLES, Names};
use rent_buf::{IoBufMut, OutOfMemory};
use ring_core::{Entry, Ring};

impl<R: Ring, B: IoBufMut + Drop> IoUringDriver<R, B> {
    /// The user holds a handle of this number, below `MOST_HANDLES`, which wasn't known. The memory of its close is reserved, so that no
    /// later call that closes it needs any. `OutOfMemory` comes if memory runs out, and then nothing but reserved memory has changed.
    /// (monoio: `SharedFd::new_without_register`)
    pub fn adopt(&mut self, h: u64) -> Result<SharedFd, OutOfMemory>
        requires below { h < MOST_HANDLES }
        requires fresh { knows (holding_in self.old) h ≡ false }
        ensures fd { IfOk result (λ fd. fd ≡ h) }
        ensures handles { OnOk result (Adopts (holding_in self.old) h (holding_in self.new)) }
        ensures rest { SameOps self.old self.new × IsSameRing R.view self.old self.new }
        ensures room { OnOk result (HasCloseRoom self.new) }
        ensures tokens { KeepsTokens self.old self.new }
        ensures requests { KeepsRequests self.old self.new }
        ensures err { OnErr result (IsSameHolding (holding_in self.old) (holding_in self.new)) }
        ensures stands { OnErr result ((L : Ledger) → Stands R.view B.buffer self.old L → Stands R.view B.buffer self.new L) }
    {
        self.reserve_handle()?;
        match self.handles.add(h) {
            Ok(()) => Ok(SharedFd::new(h)),
            Err(_) => Err(OutOfMemory),
        }
    }

    /// A handle is known: somebody holds it, or it is closing. (not in monoio)
    pub fn known(&self, h: u64) -> bool
        ensures { result ≡ knows (holding_in self.now) h }
    {
        self.handles.known(h)
    }

    /// A handle is closing: from the step in which its last holder left to the turn that names its close. (not in monoio, whose
    /// `SharedFd::close` waits for it)
    pub fn closing(&self, h: u64) -> bool
        ensures { result ≡ closes (holding_in self.now) h }
    {
        self.handles.closing(h)
    }

    /// The user holds a handle. (not in monoio)
    pub fn user_holds(&self, h: u64) -> bool
        ensures { result ≡ holds_handle self.now h }
    {
        self.handles.user_holds(h)
    }

    /// The user holds each of these handles, as `submit_with` asks of those that its request names. (not in monoio)
    pub fn holds_names(&self, names: Names) -> bool
        ensures { result ≡ holds_all self.now (listed names) }
    {
        match names {
            Names::Nothing => true,
            Names::One(h) => self.user_holds(h),
            Names::Two(lower, upper) => self.user_holds(lower) && self.user_holds(upper),
        }
    }

    /// How often the user holds a handle: once more by each `hold`, once less by each `release`. (not in monoio)
    pub fn user_count(&self, h: u64) -> u64
        ensures { result ≡ user_count (holding_in self.now) h }
    {
        self.handles.user_count(h)
    }

    /// The user holds a handle once more that it holds fewer than `MAX_HOLDS` times. It takes no memory. (monoio: `SharedFd::clone`)
    pub fn hold(&mut self, fd: SharedFd)
        requires held { IsTrue (holds_handle self.old fd) }
        requires counter { user_count (holding_in self.old) fd < MAX_HOLDS }
        ensures stands { (L : Ledger) → Stands R.view B.buffer self.old L → Stands R.view B.buffer self.new L }
        ensures handles { holding_in self.new ≡ record (holding_in self.old) {
          table = with_holders (holding_in self.old).table fd (with_user (holders_at (holding_in self.old).table fd));
        } }
        ensures rest { SameOps self.old self.new × (self.new.ring ≡ self.old.ring) }
        ensures tokens { KeepsTokens self.old self.new }
        ensures requests { KeepsRequests self.old self.new }
    {
        self.handles.hold(fd.number());
    }

    /// The user drops one of its holds of a handle. It is `Last` exactly if nobody holds the handle any more: then its close joins what is
    /// pending. It takes no memory. (monoio: the drop of a `SharedFd`)
    pub fn release(&mut self, fd: SharedFd) -> Released
        requires { IsTrue (holds_handle self.old fd) }
        // Where the user drops its only hold, this is the machine's event; else the driver stands for what it stood for.
        ensures answers { IsTrue R.steady → (L : Ledger) → Stands R.view B.buffer self.old L →
            ReleasesFor R.view B.buffer L fd (user_count (holding_in self.old) fd) self.new }
        ensures last { (result ≡ Released.Last) ↔ (is_nobody (without_user (holders_at (holding_in self.old).table fd)) ≡ true) }
        ensures handles { holding_in self.new ≡ user_left (holding_in self.old) fd }
        ensures ops { SameOps self.old self.new }
        ensures moves { IsTrue R.tells → PendingMoves (pending R.view self.old) (pending R.view self.new)
            (map close_entry (unheld_if (is_nobody (without_user (holders_at (holding_in self.old).table fd))) fd)) }
        ensures ring { result ≡ Released.Held → self.new.ring ≡ self.old.ring }
        ensures none_due { IsTrue R.steady → due_in self.old ≡ [] → due_in self.new ≡ [] }
        ensures tokens { KeepsTokens self.old self.new }
        ensures requests { KeepsRequests self.old self.new }
    {
        let h = fd.number();
        match self.handles.release(h) {
            Released::Held => Released::Held,
            Released::Last => {
                self.ring.post(Entry::close(h));
                Released::Last
            }
        }
    }

    /// Gives a handle up, as `release`. `closing` and the turn's `closed` tell when it is closed. (monoio: `SharedFd::close`)
    pub fn close(&mut self, fd: SharedFd) -> Released
        requires { IsTrue (holds_handle self.old fd) }
        ensures answers { IsTrue R.steady → (L : Ledger) → Stands R.view B.buffer self.old L →
            ReleasesFor R.view B.buffer L fd (user_count (holding_in self.old) fd) self.new }
        ensures last { (result ≡ Released.Last) ↔ (is_nobody (without_user (holders_at (holding_in self.old).table fd)) ≡ true) }
        ensures handles { holding_in self.new ≡ user_left (holding_in self.old) fd }
        ensures ops { SameOps self.old self.new }
        ensures moves { IsTrue R.tells → PendingMoves (pending R.view self.old) (pending R.view self.new)
            (map close_entry (unheld_if (is_nobody (without_user (holders_at (holding_in self.old).table fd))) fd)) }
        ensures ring { result ≡ Released.Held → self.new.ring ≡ self.old.ring }
        ensures none_due { IsTrue R.steady → due_in self.old ≡ [] → due_in self.new ≡ [] }
        ensures tokens { KeepsTokens self.old self.new }
        ensures requests { KeepsRequests self.old self.new }
    {
        self.release(fd)
    }

    // Takes the memory of one handle more: of its close, in the ring and in the table of closes.
    pub(crate) fn reserve_handle(&mut self) -> Result<(), OutOfMemory>
        ensures same { SameOps self.old self.new × IsSameRing R.view self.old self.new ×
            IsSameHolding (holding_in self.old) (holding_in self.new) }
        ensures table { (holding_in self.new).table ≡ (holding_in self.old).table }
        ensures ok { OnOk result (HasHandleRoom self.new) }
        ensures stands { (L : Ledger) → Stands R.view B.buffer self.old L → Stands R.view B.buffer self.new L }
    {
        let Some(room) = owed(&self.ops, self.handles.places(), 1) else {
            return Err(OutOfMemory);
        };
        if self.handles.reserve_close().is_err() {
            return Err(OutOfMemory);
        }
        self.ring.make_spare(room)
    }
}
