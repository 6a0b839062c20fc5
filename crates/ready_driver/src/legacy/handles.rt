//! The calls of a readiness driver on handles: who holds them, and when they are closed.
ghost use Rattle.std.specs.Prelude.{◌≡◌, ◌<◌, ◌↔◌, true, false, [], IsTrue, IfOk, OnOk, OnErr};
ghost use Rattle.handle_core.specs.Table.{holders_at, with_holders, with_user, without_user};
ghost use Rattle.machine.specs.Request.{listed};
ghost use Rattle.driver_core.specs.Holds.{is_nobody, settled};
ghost use Rattle.ready_driver.specs.Legacy.{Legacy};
ghost use Rattle.ready_driver.specs.LegacyState.{SameOps, holds_all};
ghost use Rattle.ready_driver.specs.LegacyStands.{LegacyStands, ReleasesFor};
ghost use Rattle.ready_driver.specs.Records.{io_at};
ghost use Rattle.ready_driver.specs.Registry.{is_known, is_users, unheld_if, IsSameButRoom, GivesUser, LetsGo};

use crate::legacy::LegacyDriver;
use crate::non_block::NonBlock;
use crate::ready::Ready;
use handle_core::{MAX_HOLDS, Released, SharedFd};
use machine::{MOST_HANDLES, Names};
use rent_buf::{IoBufMut, OutOfMemory};

impl<I: NonBlock, B: IoBufMut + Drop> LegacyDriver<I, B> {
    /// The user holds a handle of this number, below `MOST_HANDLES`, which wasn't known. The memory for it is taken first: if that runs
    /// out, nothing but reserved memory has changed. Then the handle is registered; one that the object refuses is tried again at each
    /// submission that names it. (monoio: `SharedFd::new`)
    pub fn adopt(&mut self, h: u64) -> Result<SharedFd, OutOfMemory>
        requires below { h < MOST_HANDLES }
        requires fresh { is_known self.old.handling.table h ≡ false }
        ensures fd { IfOk result (λ fd. fd ≡ h) }
        ensures handles { OnOk result (GivesUser I.view I.tells I.memory self.old.handling h self.new.handling) }
        ensures rest { SameOps self.old self.new }
        ensures err { OnErr result (IsSameButRoom self.old.handling self.new.handling) }
        ensures stands { OnErr result ((D : Legacy) → LegacyStands I.view B.buffer self.old D → LegacyStands I.view B.buffer self.new D) }
    {
        self.registry.adopt(h)
    }

    /// A handle is known: somebody holds it. (not in monoio)
    pub fn known(&self, h: u64) -> bool
        ensures { result ≡ is_known self.now.handling.table h }
    {
        self.registry.known(h)
    }

    /// A handle is closing: never, since it is closed in the step in which its last holder leaves. (not in monoio)
    pub fn closing(&self, h: u64) -> bool
        ensures { result ≡ false }
    {
        false
    }

    /// The user holds a handle. (not in monoio)
    pub fn user_holds(&self, h: u64) -> bool
        ensures { result ≡ is_users self.now.handling.table h }
    {
        self.registry.user_holds(h)
    }

    /// The user holds each of these handles, as `submit_with` asks of those that its request names. (not in monoio)
    pub fn holds_names(&self, names: Names) -> bool
        ensures { result ≡ holds_all self.now.handling.table (listed names) }
    {
        match names {
            Names::Nothing => true,
            Names::One(h) => self.user_holds(h),
            Names::Two(lower, upper) => self.user_holds(lower) && self.user_holds(upper),
        }
    }

    /// How often the user holds a handle: once more by each `hold`, once less by each `release`. (not in monoio)
    pub fn user_count(&self, h: u64) -> u64
        ensures { result ≡ (holders_at self.now.handling.table h).user }
    {
        self.registry.user_count(h)
    }

    /// The bits of a handle, which reports set and a call that would block clears: none where nobody holds it. (monoio: the `readiness` of
    /// its `ScheduledIo`)
    pub fn readiness(&self, h: u64) -> Ready
        ensures { result ≡ (io_at self.now.handling.records h).ready }
    {
        self.registry.readiness(h)
    }

    /// The user holds a handle once more that it holds fewer than `MAX_HOLDS` times. It takes no memory. (monoio: `SharedFd::clone`)
    pub fn hold(&mut self, fd: SharedFd)
        requires held { is_users self.old.handling.table fd ≡ true }
        requires counter { (holders_at self.old.handling.table fd).user < MAX_HOLDS }
        ensures stands { (D : Legacy) → LegacyStands I.view B.buffer self.old D → LegacyStands I.view B.buffer self.new D }
        ensures handles { self.new.handling ≡ record self.old.handling {
          table = with_holders self.old.handling.table fd (with_user (holders_at self.old.handling.table fd));
        } }
        ensures rest { SameOps self.old self.new }
    {
        self.registry.hold(fd.number());
    }

    /// The user drops one of its holds of a handle. It is `Last` exactly if nobody holds the handle any more: then it is deregistered and
    /// closed at once, and its record goes. What the object answers to that is passed over. It takes no memory. (monoio: the drop of a
    /// `SharedFd`)
    pub fn release(&mut self, fd: SharedFd) -> Released
        requires { is_users self.old.handling.table fd ≡ true }
        // Where the user drops its only hold, this is the event of the driver as plain data; else that one stays.
        ensures answers { IsTrue I.memory → (D : Legacy) → LegacyStands I.view B.buffer self.old D →
            ReleasesFor I.view B.buffer D fd (holders_at self.old.handling.table fd).user self.new }
        ensures last { (result ≡ Released.Last) ↔ (is_nobody (without_user (holders_at self.old.handling.table fd)) ≡ true) }
        ensures handles { LetsGo I.view I.tells I.memory self.old.handling
            (settled self.old.handling.table fd (without_user (holders_at self.old.handling.table fd)))
            (unheld_if (is_nobody (without_user (holders_at self.old.handling.table fd))) fd) self.new.handling }
        ensures rest { SameOps self.old self.new }
    {
        self.registry.release(fd.number())
    }

    /// Gives a handle up, as `release`. (monoio: `SharedFd::close`)
    pub fn close(&mut self, fd: SharedFd) -> Released
        requires { is_users self.old.handling.table fd ≡ true }
        ensures answers { IsTrue I.memory → (D : Legacy) → LegacyStands I.view B.buffer self.old D →
            ReleasesFor I.view B.buffer D fd (holders_at self.old.handling.table fd).user self.new }
        ensures last { (result ≡ Released.Last) ↔ (is_nobody (without_user (holders_at self.old.handling.table fd)) ≡ true) }
        ensures handles { LetsGo I.view I.tells I.memory self.old.handling
            (settled self.old.handling.table fd (without_user (holders_at self.old.handling.table fd)))
            (unheld_if (is_nobody (without_user (holders_at self.old.handling.table fd))) fd) self.new.handling }
        ensures rest { SameOps self.old self.new }
    {
        self.release(fd)
    }
}
