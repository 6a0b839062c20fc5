// What the leaving of a holder does to handles: one that nobody holds any more isn't registered, is closed, and has no record.
ghost use Rattle.std.specs.Prelude.{◌≡◌, ◌<◌, ◌↔◌, true, [], ◌∷◌};
ghost use Rattle.handle_core.specs.Table.{holders_at, without_user};
ghost use Rattle.machine.specs.Request.{listed};
ghost use Rattle.driver_core.specs.Holds.{is_nobody, settled, without_ops, unheld_by, CanLeave};
ghost use Rattle.ready_driver.specs.Io.{IsStill, closes_after};
ghost use Rattle.ready_driver.specs.Registry.{is_users, unheld_if, without_keys, LetsGo};

use crate::non_block::NonBlock;
use crate::registry::Registry;
use handle_core::Released;
use machine::Names;

impl<I: NonBlock> Registry<I> {
    /// The user drops one of its holds of a handle. It is `Last` exactly if nobody holds the handle any more: then the handle isn't
    /// registered any more, is closed, and has no record. What the object answers to that is passed over. It takes no memory. (monoio: the
    /// drop of a `SharedFd`)
    pub fn release(&mut self, h: u64) -> Released
        requires { is_users self.old.table h ≡ true }
        ensures last { (result ≡ Released.Last) ↔ (is_nobody (without_user (holders_at self.old.table h)) ≡ true) }
        ensures leaves { LetsGo I.view I.tells I.memory self.old (settled self.old.table h (without_user (holders_at self.old.table h)))
            (unheld_if (is_nobody (without_user (holders_at self.old.table h))) h) self.new }
    {
        match self.records.release(h) {
            Released::Held => Released::Held,
            Released::Last => {
                close(&mut self.io, h);
                Released::Last
            }
        }
    }

    /// An operation that named these handles is gone: it holds each no more. One that nobody holds any more isn't registered any more, is
    /// closed, and has no record. What the object answers to that is passed over. It takes no memory. (monoio: the drop of an operation)
    pub fn let_go(&mut self, names: Names)
        requires { CanLeave self.old.table (listed names) }
        ensures { LetsGo I.view I.tells I.memory self.old (without_ops self.old.table (listed names))
            (unheld_by self.old.table (listed names)) self.new }
    {
        match names {
            Names::Nothing => {}
            Names::One(h) => self.let_one_go(h),
            Names::Two(lower, upper) => {
                self.let_one_go(lower);
                self.let_one_go(upper);
            }
        }
    }

    // The same, of one handle.
    fn let_one_go(&mut self, h: u64)
        requires { 0 < (holders_at self.old.table h).operations }
        ensures { LetsGo I.view I.tells I.memory self.old (without_ops self.old.table (h ∷ []))
            (unheld_by self.old.table (h ∷ [])) self.new }
    {
        match self.records.release_op(h) {
            Released::Held => {}
            Released::Last => close(&mut self.io, h),
        }
    }
}

// A handle is closed once, and isn't registered any more. What the object answers is passed over.
fn close<I: NonBlock>(io: &mut I, h: u64)
    ensures { IsStill I.tells I.memory (I.view io.old) (I.view io.new) (without_keys (I.view io.old).keys (h ∷ []))
        (closes_after (I.view io.old).closes (h ∷ [])) }
{
    let _ = io.close(h);
}
