//! Objects that listen and dial, besides making calls that don't wait.
ghost use Rattle.std.specs.Prelude.{◌≡◌, ℕ};
ghost use Rattle.rent_buf.specs.Buffer.{Buffer};
ghost use Rattle.rent_buf.specs.Parts.{Parts};
ghost use Rattle.machine.specs.declared.request.Request.{Request};
ghost use Rattle.machine.specs.declared.request.Outcome.TheVariants.{Made};
ghost use Rattle.machine.specs.declared.world.HandleKind.TheVariants.{Listener, Stream};
ghost use Rattle.driver_core.specs.declared.operations.calls.CallAnswer.TheVariants.{Done};
ghost use Rattle.ready_driver.specs.Sockets.{GivesFor};
ghost use Rattle.ready_driver.specs.SocketLaws.{memory-numbered};

use crate::mem_io::MemIo;
use crate::non_block::{NonBlock, NonBlockError};
use machine::HandleKind;

/// An object that listens and dials. It numbers its handles from 0 in the order in which they are made, by whatever call: no number is
/// given twice. (not in monoio, whose handles are the system's)
///
/// An Ok `listen` or `dial`, and a call that is `Made`, answers `count` as it was and makes it one greater. No other call changes it.
pub trait Sockets: NonBlock {
    /// How many handles were made. (not in monoio)
    fn count(&self) -> u64
        ensures { result ≡ (Self.view self.now).made };

    /// A new handle that listens on a port of this machine, and isn't registered. (monoio: `TcpListener::bind`)
    fn listen(&mut self, port: u16) -> Result<u64, NonBlockError>
        ensures { GivesFor Self.tells Self.memory Listener (Self.view self.old) (Self.view self.new) result };

    /// A new handle that connects to a port of this machine, and isn't registered. It doesn't wait until it is connected.
    /// (monoio: `TcpStream::connect`)
    fn dial(&mut self, port: u16) -> Result<u64, NonBlockError>
        ensures { GivesFor Self.tells Self.memory Stream (Self.view self.old) (Self.view self.new) result };

    // The number of a handle that a call makes is how many there were.
    ghost numbered: { (old : Self) (request : Request Buffer Parts) (new : Self) (now : Request Buffer Parts) (h : ℕ) →
        Self.called old request new now (Done (Made h)) → h ≡ (Self.view old).made };
}

/// An object that is lent numbers its handles as it does. (not in monoio)
impl<N: Sockets> Sockets for &mut N {
    ghost numbered = { λ old request new now h called. N.numbered old.now request new.now now h called };

    fn count(&self) -> u64 {
        (**self).count()
    }

    fn listen(&mut self, port: u16) -> Result<u64, NonBlockError> {
        (**self).listen(port)
    }

    fn dial(&mut self, port: u16) -> Result<u64, NonBlockError> {
        (**self).dial(port)
    }
}

/// The port doesn't matter. Only memory runs out.
impl Sockets for MemIo {
    ghost numbered = { memory-numbered };

    fn count(&self) -> u64 {
        MemIo::count(self)
    }

    /// A new listener.
    fn listen(&mut self, port: u16) -> Result<u64, NonBlockError> {
        match self.give(HandleKind::Listener) {
            Ok(h) => Ok(h),
            Err(_) => Err(NonBlockError::OutOfMemory),
        }
    }

    /// A new stream.
    fn dial(&mut self, port: u16) -> Result<u64, NonBlockError> {
        match self.give(HandleKind::Stream) {
            Ok(h) => Ok(h),
            Err(_) => Err(NonBlockError::OutOfMemory),
        }
    }
}
