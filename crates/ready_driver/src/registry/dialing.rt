// Handles that the object opens: listeners, and connections that are dialled.
ghost use Rattle.std.specs.Prelude.{◌≡◌, ◌⊎◌, true, false, OnOk, IfErr};
ghost use Rattle.machine.specs.declared.world.call.TheConstants.{INVALID};
ghost use Rattle.machine.specs.declared.world.HandleKind.TheVariants.{Listener, Stream};
ghost use Rattle.ready_driver.specs.Dialing.{OpensFor};
ghost use Rattle.ready_driver.specs.Registry.{is_old, HasMadeRoom, IsSameButRoom};

use crate::non_block::NonBlockError;
use crate::registry::Registry;
use crate::sockets::Sockets;
use handle_core::SharedFd;
use machine::INVALID;

impl<I: Sockets> Registry<I> {
    /// A new listener on a port, which the user holds. (not in monoio)
    pub(crate) fn listen(&mut self, port: u16) -> Result<SharedFd, NonBlockError>
        ensures { OpensFor I.view I.tells I.memory Listener self.old self.new result }
    {
        self.make_way()?;
        match self.io.listen(port) {
            Ok(h) => {
                self.give_user(h);
                Ok(SharedFd::new(h))
            }
            Err(why) => Err(why),
        }
    }

    /// A new connection to a port, which the user holds. (not in monoio)
    pub(crate) fn dial(&mut self, port: u16) -> Result<SharedFd, NonBlockError>
        ensures { OpensFor I.view I.tells I.memory Stream self.old self.new result }
    {
        self.make_way()?;
        match self.io.dial(port) {
            Ok(h) => {
                self.give_user(h);
                Ok(SharedFd::new(h))
            }
            Err(why) => Err(why),
        }
    }

    // Makes ready for the handle that the object makes next: its number can be new, and there is memory for it and for its record.
    fn make_way(&mut self) -> Result<(), NonBlockError>
        ensures same { IsSameButRoom self.old self.new }
        ensures ok { OnOk result ((is_old self.new.table (I.view self.new.io).made ≡ false) × HasMadeRoom self.new) }
        ensures err { IfErr result (λ why. (why ≡ NonBlockError.OutOfMemory)
            ⊎ ((why ≡ NonBlockError.Fault INVALID) × (is_old self.old.table (I.view self.old.io).made ≡ true))) }
    {
        if self.is_old(self.io.count()) {
            return Err(NonBlockError::Fault(INVALID));
        }
        match self.reserve_made() {
            Ok(()) => Ok(()),
            Err(_) => Err(NonBlockError::OutOfMemory),
        }
    }
}
