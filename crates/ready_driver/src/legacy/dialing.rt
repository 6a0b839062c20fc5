//! The handles that a readiness driver opens: listeners, and connections that it dials.
ghost use Rattle.std.specs.Prelude.{◌≡◌, false, not, IsTrue};
ghost use Rattle.machine.specs.declared.world.HandleKind.TheVariants.{Listener, Stream};
ghost use Rattle.ready_driver.specs.Dialing.{OpensFor};
ghost use Rattle.ready_driver.specs.LegacyState.{SameOps};
ghost use Rattle.ready_driver.specs.Registry.{is_old};

use crate::legacy::LegacyDriver;
use crate::non_block::NonBlockError;
use crate::sockets::Sockets;
use handle_core::SharedFd;
use rent_buf::IoBufMut;

impl<I: Sockets, B: IoBufMut + Drop> LegacyDriver<I, B> {
    /// The number that the object gives next can be new: nobody holds it, and it is below `MOST_HANDLES`. (not in monoio)
    pub fn has_number(&self) -> bool
        ensures value { result ≡ not (is_old self.now.handling.table (I.view self.now.handling.io).made) }
        ensures new { IsTrue result → is_old self.now.handling.table (I.view self.now.handling.io).made ≡ false }
    {
        !self.registry.is_old(self.registry.io().count())
    }

    /// A new handle that listens on a port, which its user holds. It is registered; one that the object doesn't register is tried again at
    /// each submission that names it. (monoio: `TcpListener::bind`)
    ///
    /// `Fault` has the object's error number: of a socket that of the system, as for a port that is taken. It is `INVALID`, and no call was
    /// made, if the number that the object gives next can't be new. At an error the object has made no handle, and none has changed.
    pub fn listen(&mut self, port: u16) -> Result<SharedFd, NonBlockError>
        ensures opens { OpensFor I.view I.tells I.memory Listener self.old.handling self.new.handling result }
        ensures rest { SameOps self.old self.new }
    {
        self.registry.listen(port)
    }

    /// A new handle that connects to a port, which its user holds, as `listen`. It doesn't wait until it is connected: a peer that isn't
    /// there is the error of the first call on it, or of this one. (monoio: `TcpStream::connect`)
    pub fn dial(&mut self, port: u16) -> Result<SharedFd, NonBlockError>
        ensures opens { OpensFor I.view I.tells I.memory Stream self.old.handling self.new.handling result }
        ensures rest { SameOps self.old self.new }
    {
        self.registry.dial(port)
    }
}
