//! A look whether a socket is ready, which waits for nothing.
ghost use Rattle.std.specs.Prelude.{◌≡◌};
ghost use Rattle.socket_io.specs.SocketTable.{kind_of};

use crate::mio_io::socket::{NO_NUMBER, Socket, fault_by};
use mio::{Events, Interest, Poll};
use ready_driver::NonBlockError;
use std::alloc::Global;
use std::net::Net;
use std::time::Duration;

/// A poll of the system beside the one that is waited on: it is asked for one socket at a time, and never waits. It is made when it is
/// first needed. (not in monoio, which polls the descriptor)
#[derive(Drop)]
pub struct Probe {
    alloc: Global,
    looks: Option<Looks>,
}

// The poll, and where it puts its event.
#[derive(Drop)]
struct Looks {
    poll: Poll,
    events: Events,
}

impl Probe {
    /// No poll yet. It takes no memory, and asks nothing of the system. (not in monoio)
    pub fn new(alloc: Global) -> Probe {
        Probe { alloc, looks: None }
    }

    /// Whether a call of a direction on a socket would end at once, be it with an error. (libc: `poll`, with no time)
    pub fn is_ready<R: Net>(
        &mut self,
        rt: &R,
        socket: &mut Socket,
        write: bool,
    ) -> Result<bool, NonBlockError>
        ensures { kind_of socket.new ≡ kind_of socket.old }
    {
        if self.looks.is_none() {
            self.looks = Some(Looks::new(rt, self.alloc)?);
        }
        match &mut self.looks {
            Some(looks) => looks.is_ready(socket, write),
            None => Err(NonBlockError::Fault(NO_NUMBER)),
        }
    }
}

impl Looks {
    // A poll with no socket.
    fn new<R: Net>(rt: &R, alloc: Global) -> Result<Looks, NonBlockError> {
        let Ok(events) = Events::with_capacity(alloc, 1) else {
            return Err(NonBlockError::OutOfMemory);
        };
        match Poll::new(rt) {
            Ok(poll) => Ok(Looks { poll, events }),
            Err(error) => Err(fault_by(&error)),
        }
    }

    // The same as `Probe::is_ready`. The socket is registered in this poll for that long.
    fn is_ready(&mut self, socket: &mut Socket, write: bool) -> Result<bool, NonBlockError>
        ensures { kind_of socket.new ≡ kind_of socket.old }
    {
        let interest = if write {
            Interest::WRITABLE
        } else {
            Interest::READABLE
        };
        socket.register_for(self.poll.registry(), 0, interest)?;
        let polled = self
            .poll
            .poll(&mut self.events, Some(Duration::from_millis(0)));
        socket.deregister(self.poll.registry())?;
        match polled {
            Ok(()) => Ok(!self.events.is_empty()),
            Err(error) => Err(fault_by(&error)),
        }
    }
}
