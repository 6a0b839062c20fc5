//! Sockets of the system, and how it ends a call on one.
ghost use Rattle.std.specs.Prelude.{◌≡◌, ◌≤◌, length, Some, IfOk};
ghost use Rattle.std.specs.IoError.{error_kind, raw_os_error};
ghost use Rattle.machine.specs.declared.world.HandleKind.{HandleKind};
ghost use Rattle.socket_io.specs.System.{IsLocal, error_number, refusal_of};
ghost use Rattle.socket_io.specs.SocketTable.{kind_of, is_listener, is_stream, RefusesUnfit};

use crate::mio_io::probe::Probe;
use crate::mio_io::stream::Stream;
use machine::{INVALID, LAST_ERROR};
use mio::event::Source;
use mio::net::{TcpListener, TcpStream};
use mio::{Interest, Registry, Token};
use ready_driver::{NonBlockError, Ready};
use std::io;
use std::io::ErrorKind;
use std::net::{IpAddr, Ipv4Addr, Net, SocketAddr};

/// The error of a call for which the system tells no number. (Linux: `EIO`)
pub const NO_NUMBER: u16 = 5;

/// Why a call of the system moved nothing. (not in monoio)
#[derive(Clone, Copy, Debug, PartialEq, Eq)]
pub enum Refusal {
    /// It would block.
    WouldBlock,
    /// It failed with this error.
    Error(u16),
}

/// A socket that is open. (monoio: a file descriptor)
#[derive(Drop)]
pub enum Socket {
    /// It accepts connections.
    Listener(TcpListener),
    /// It is a connection, or becomes one.
    Stream(Stream),
}

impl Socket {
    /// A socket that listens at an address. (monoio: `TcpListener::bind`)
    pub fn listen<R: Net>(rt: &R, addr: SocketAddr) -> io::Result<Socket>
        ensures { IfOk result (λ socket. kind_of socket ≡ HandleKind.Listener) }
    {
        Ok(Socket::Listener(TcpListener::bind(rt, addr)?))
    }

    /// A socket that connects to an address. It doesn't wait until it is connected. (monoio: `TcpStream::connect`)
    pub fn dial<R: Net>(rt: &R, addr: SocketAddr) -> io::Result<Socket>
        ensures { IfOk result (λ socket. kind_of socket ≡ HandleKind.Stream) }
    {
        Ok(Socket::Stream(Stream::over(TcpStream::connect(rt, addr)?)))
    }

    /// The next connection of a listener. (libc: `accept`)
    pub fn accept(&self) -> Result<Socket, Refusal>
        ensures stream { IfOk result (λ socket. kind_of socket ≡ HandleKind.Stream) }
        ensures unfit { RefusesUnfit (is_listener (Some (kind_of self.now))) result }
    {
        match self {
            Socket::Listener(listener) => match listener.accept() {
                Ok((stream, _)) => Ok(Socket::Stream(Stream::over(stream))),
                Err(error) => Err(refused_by(&error)),
            },
            Socket::Stream(_) => Err(Refusal::Error(INVALID)),
        }
    }

    /// Puts the next bytes of a stream at the start of the room, and answers how many. (libc: `recv`)
    pub fn read(&mut self, room: &mut [u8]) -> Result<usize, Refusal>
        ensures within { IfOk result (λ n. n ≤ length room.new) }
        ensures unfit { RefusesUnfit (is_stream (Some (kind_of self.old))) result }
        ensures kind { kind_of self.new ≡ kind_of self.old }
    {
        match self {
            Socket::Stream(stream) => stream.read(room),
            Socket::Listener(_) => Err(Refusal::Error(INVALID)),
        }
    }

    /// Whether a call of a direction would end at once: to read a stream, bytes, the end or an error are there, and else the system says
    /// so. (libc: `recv` with `MSG_PEEK`; `poll`, with no time)
    pub fn is_ready<R: Net>(
        &mut self,
        rt: &R,
        probe: &mut Probe,
        read: bool,
    ) -> Result<bool, NonBlockError>
        ensures { kind_of self.new ≡ kind_of self.old }
    {
        let peeked = match &*self {
            Socket::Stream(stream) if read => Some(!stream.peek_blocks()),
            _ => None,
        };
        match peeked {
            Some(ready) => Ok(ready),
            None => probe.is_ready(rt, self, !read),
        }
    }

    /// From now on reports tell when something comes at a stream, or none does. (not in monoio)
    pub fn set_told(&mut self, told: bool)
        ensures { kind_of self.new ≡ kind_of self.old }
    {
        match self {
            Socket::Stream(stream) => stream.set_told(told),
            Socket::Listener(_) => {}
        }
    }

    /// Notes a report of it. (not in monoio)
    pub fn note(&mut self, ready: Ready)
        ensures { kind_of self.new ≡ kind_of self.old }
    {
        match self {
            Socket::Stream(stream) => stream.note(ready),
            Socket::Listener(_) => {}
        }
    }

    /// Sends a prefix of the bytes on a stream, and answers how many. (libc: `send`)
    pub fn write(&self, bytes: &[u8]) -> Result<usize, Refusal>
        ensures within { IfOk result (λ n. n ≤ length bytes.now) }
        ensures unfit { RefusesUnfit (is_stream (Some (kind_of self.now))) result }
    {
        match self {
            Socket::Stream(stream) => stream.write(bytes),
            Socket::Listener(_) => Err(Refusal::Error(INVALID)),
        }
    }

    /// Registers it with a key, in place of the one that it had, if it had one. (monoio: `Registry::register`)
    pub fn register(&mut self, registry: &Registry, key: usize) -> Result<(), NonBlockError>
        ensures { kind_of self.new ≡ kind_of self.old }
    {
        self.register_for(registry, key, Interest::READABLE | Interest::WRITABLE)
    }

    // Registers it with a key for what is asked, in place of what it was registered for before.
    pub(crate) fn register_for(
        &mut self,
        registry: &Registry,
        key: usize,
        interest: Interest,
    ) -> Result<(), NonBlockError>
        ensures { kind_of self.new ≡ kind_of self.old }
    {
        match self {
            Socket::Listener(listener) => register_source(registry, listener, key, interest),
            Socket::Stream(stream) => register_source(registry, &mut stream.inner, key, interest),
        }
    }

    /// It isn't registered any more. (monoio: `Registry::deregister`)
    pub fn deregister(&mut self, registry: &Registry) -> Result<(), NonBlockError>
        ensures { kind_of self.new ≡ kind_of self.old }
    {
        let done = match self {
            Socket::Listener(listener) => registry.deregister(listener),
            Socket::Stream(stream) => registry.deregister(&mut stream.inner),
        };
        done.map_err(|error| fault_by(&error))
    }
}

// Has what becomes of a socket reported with a key, also where it was reported with another one before.
fn register_source<S: Source>(
    registry: &Registry,
    source: &mut S,
    key: usize,
    interest: Interest,
) -> Result<(), NonBlockError> {
    let done = match registry.register(source, Token(key), interest) {
        Err(error) if error.kind() == ErrorKind::AlreadyExists => {
            registry.reregister(source, Token(key), interest)
        }
        done => done,
    };
    done.map_err(|error| fault_by(&error))
}

/// The address of a port of this machine, which no other machine reaches: it is that at which a handle listens, and to which one connects.
/// (not in monoio, where the caller names an address)
pub fn local(port: u16) -> SocketAddr
    ensures { IsLocal result port }
{
    SocketAddr::new(IpAddr::V4(Ipv4Addr::new(127, 0, 0, 1)), port)
}

// What an error of the system says of the call: that it would block, or its number.
pub(super) fn refused_by(error: &io::Error) -> Refusal
    ensures { result ≡ refusal_of (error_kind error.now) (raw_os_error error.now) }
{
    match error.kind() {
        ErrorKind::WouldBlock => Refusal::WouldBlock,
        _ => Refusal::Error(number(error.raw_os_error())),
    }
}

/// A call that failed as a whole with an error of the system: the fault has its number. (not in monoio)
pub(crate) fn fault_by(error: &io::Error) -> NonBlockError
    ensures { result ≡ NonBlockError.Fault (error_number (raw_os_error error.now)) }
{
    NonBlockError::Fault(number(error.raw_os_error()))
}

// The number of an error: that of the system where it is one, and else `NO_NUMBER`.
fn number(code: Option<i32>) -> u16
    ensures { result ≡ error_number code }
{
    match code {
        Some(code) if 1 <= code && code <= LAST_ERROR as i32 => code as u16,
        _ => NO_NUMBER,
    }
}
