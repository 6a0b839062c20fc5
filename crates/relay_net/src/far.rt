//! The other ends of a relay's connections.
ghost use Rattle.std.specs.Prelude.{◌≡◌, true, IfOk, IfErr};
ghost use Rattle.ready_driver.specs.LegacyState.{ops_in};
ghost use Rattle.ready_driver.specs.Registry.{is_users};
ghost use Rattle.relay_net.specs.Keeping.{AnyRequest, KeepsOps};
ghost use Rattle.relay_net.specs.Forwarding.{KeepsSeen};
ghost use Rattle.relay_net.specs.Keyed.{KeepsKeys};
ghost use Rattle.relay_net.specs.Opening.{FarFails, IsFar, IsNew, Widens};

use handle_core::SharedFd;
use ready_driver::{LegacyDriver, MemIo, NonBlockError, Sockets};
use rent_buf::Buf;

/// What gives an accepted connection its other end. (not in monoio)
pub trait Far<I: Sockets>: Drop {
    /// The other end of the connection whose near handle this is, which the user holds: the near handle itself, or a new one, which the
    /// user got. No bytes move. `Fault` comes only where the object's count of faults rose. Over a world in memory each handle that
    /// somebody holds is registered, if it was so before. (not in monoio)
    fn far(
        &mut self,
        driver: &mut LegacyDriver<I, Buf>,
        near: SharedFd,
    ) -> Result<SharedFd, NonBlockError>
        requires near { is_users driver.old.handling.table near ≡ true }
        ensures widens { Widens I.view I.tells driver.old driver.new }
        ensures ops { KeepsOps AnyRequest (ops_in driver.old) (ops_in driver.new) }
        ensures far { IfOk result (λ far. IsFar driver.old.handling.table driver.new.handling.table near far) }
        ensures fault { IfErr result (FarFails (I.view driver.old.handling.io) (I.view driver.new.handling.io)) }
        ensures given { driver.new.given ≡ driver.old.given }
        ensures keyed { KeepsKeys I.view I.memory driver.old driver.new }
        ensures seen { KeepsSeen I.view I.memory driver.old driver.new };
}

// A connection to a port, whose handle is new. Where the next handle's number can't be new, none is dialled.
#[tactic(auto, using(crate::proofs::Opened::none_widens, crate::proofs::Keyed::keeps_none))]
fn dial<I: Sockets>(driver: &mut LegacyDriver<I, Buf>, port: u16) -> Result<SharedFd, NonBlockError>
    ensures widens { Widens I.view I.tells driver.old driver.new }
    ensures ops { KeepsOps AnyRequest (ops_in driver.old) (ops_in driver.new) }
    ensures far { IfOk result (λ far. IsNew driver.old.handling.table driver.new.handling.table far) }
    ensures fault { IfErr result (FarFails (I.view driver.old.handling.io) (I.view driver.new.handling.io)) }
    ensures given { driver.new.given ≡ driver.old.given }
    ensures keyed { KeepsKeys I.view I.memory driver.old driver.new }
    ensures seen { KeepsSeen I.view I.memory driver.old driver.new }
{
    if !driver.has_number() {
        return Err(NonBlockError::OutOfMemory);
    }
    match driver.dial(port) {
        Ok(fd) => Ok(fd),
        Err(why) => Err(why),
    }
}

/// The other end is the near one: what comes goes back. (not in monoio)
#[derive(Clone, Copy, Debug)]
pub struct Mirror;

impl<I: Sockets> Far<I> for Mirror {
    #[tactic(auto, using(crate::proofs::Opened::none_widens, crate::proofs::Keyed::keeps_none))]
    fn far(
        &mut self,
        driver: &mut LegacyDriver<I, Buf>,
        near: SharedFd,
    ) -> Result<SharedFd, NonBlockError> {
        let _ = driver.given();
        Ok(near)
    }
}

/// The other end is a new stream in memory. (not in monoio)
#[derive(Clone, Copy, Debug)]
pub struct MemFar;

impl Far<MemIo> for MemFar {
    /// A new stream. `OutOfMemory` comes also where no number is left for it.
    fn far(
        &mut self,
        driver: &mut LegacyDriver<MemIo, Buf>,
        near: SharedFd,
    ) -> Result<SharedFd, NonBlockError> {
        let _ = near;
        dial(driver, 0)
    }
}

/// The other end is a connection to a port of this machine, which is dialled. (not in monoio)
#[derive(Clone, Copy, Debug)]
pub struct PortFar {
    port: u16,
}

impl PortFar {
    /// The other ends are connections to this port. (not in monoio)
    pub fn new(port: u16) -> PortFar {
        PortFar { port }
    }
}

impl<I: Sockets> Far<I> for PortFar {
    /// A connection to the port. `OutOfMemory` comes also where no number is left for its handle.
    fn far(
        &mut self,
        driver: &mut LegacyDriver<I, Buf>,
        near: SharedFd,
    ) -> Result<SharedFd, NonBlockError> {
        let _ = near;
        dial(driver, self.port)
    }
}
