//! Open sockets by their handles' numbers, which are given in order.
ghost use Rattle.std.specs.Prelude.{◌≡◌, ◌≤◌, suc, length, false, is_some, IsSome, IfOk, OnOk, Err};
ghost use Rattle.ready_driver.specs.declared.non_block.NonBlockError.TheVariants.{Fault};
ghost use Rattle.machine.specs.declared.world.call.TheConstants.{INVALID};
ghost use Rattle.std.specs.FinMap as finite;
ghost use Rattle.machine.specs.declared.world.HandleKind.TheVariants.{Stream};
ghost use Rattle.socket_io.specs.SocketTable.{IsRoomy, kind_of, is_listener, is_stream, RefusesUnfit};

use crate::mio_io::names::Names;
use crate::mio_io::probe::Probe;
use crate::mio_io::socket::{Refusal, Socket};
use machine::{INVALID, MOST_HANDLES};
use mio::Registry;
use ready_driver::{NonBlockError, Report};
use rent_buf::OutOfMemory;
use std::alloc::Global;
use std::collections::HashMap;
use std::marker::Model;
use std::net::Net;

/// The sockets that are open, and how many handles were made. A contract sees the kind of each. A call finds its socket by a hash, however
/// many there are. (monoio: the process's file descriptors)
#[derive(Drop)]
pub struct Table {
    open: HashMap<u64, Socket>,
    made: u64,
    // By key, the handle whose reports have it. No contract sees them: they only save reads that would block.
    names: Names,
}

impl Model for Table {
    ghost use Rattle.std.specs.HashMap.{spare};
    ghost use Rattle.std.specs.Coded.{codes};
    ghost use Rattle.socket_io.specs.SocketTable.{OpenSockets, table_code, table_of};

    ghost Value = { OpenSockets };

    ghost coded = { table_code (Prim.hlevel codes) };

    ghost view = { λ t. table_of t.open.entries t.made (spare t.open) };
}

impl Table {
    /// No socket. It takes no memory. (not in monoio)
    pub fn new(alloc: Global) -> Table
        ensures made { result.made ≡ 0 }
        ensures open { result.kinds ≡ finite.empty }
    {
        Table {
            open: HashMap::new(alloc),
            made: 0,
            names: Names::new(alloc),
        }
    }

    /// How many handles were made. (not in monoio)
    pub fn made(&self) -> u64
        ensures { result ≡ self.now.made }
    {
        self.made
    }

    /// How many sockets are open. (not in monoio)
    pub fn len(&self) -> usize
        ensures { result ≡ finite.len self.now.kinds }
    {
        self.open.len()
    }

    /// Takes the memory of one more socket. It runs out also where `MOST_HANDLES` handles were made. (not in monoio)
    pub fn reserve_one(&mut self) -> Result<(), OutOfMemory>
        ensures made { self.new.made ≡ self.old.made }
        ensures open { self.new.kinds ≡ self.old.kinds }
        ensures ok { OnOk result (IsRoomy self.new) }
    {
        if self.made >= MOST_HANDLES || self.open.reserve(1).is_err() {
            return Err(OutOfMemory);
        }
        Ok(())
    }

    /// A socket gets the next number, in memory that was taken before. (not in monoio)
    pub fn add(&mut self, socket: Socket) -> u64
        requires { IsRoomy self.old }
        ensures number { result ≡ self.old.made }
        ensures made { self.new.made ≡ suc self.old.made }
        ensures open { self.new.kinds ≡ finite.insert self.old.kinds self.old.made (kind_of socket) }
    {
        let h = self.made;
        let _ = self.open.insert(h, socket);
        self.made += 1;
        h
    }

    /// Closes the socket of a handle, and answers whether there was one. (libc: `close`)
    pub fn close(&mut self, h: u64) -> bool
        ensures there { result ≡ is_some (finite.get self.old.kinds h) }
        ensures open { self.new.kinds ≡ finite.remove self.old.kinds h }
        ensures made { self.new.made ≡ self.old.made }
    {
        self.open.remove(&h).is_some()
    }

    /// Accepts a connection on the listener of a handle. (libc: `accept`)
    pub fn accept(&self, h: u64) -> Result<Socket, Refusal>
        ensures stream { IfOk result (λ socket. kind_of socket ≡ Stream) }
        ensures unfit { RefusesUnfit (is_listener (finite.get self.now.kinds h)) result }
    {
        match self.open.get(&h) {
            Some(socket) => socket.accept(),
            None => Err(Refusal::Error(INVALID)),
        }
    }

    /// Puts the next bytes of the stream of a handle at the start of the room, and answers how many. (libc: `recv`)
    pub fn read(&mut self, h: u64, room: &mut [u8]) -> Result<usize, Refusal>
        ensures within { IfOk result (λ n. n ≤ length room.new) }
        ensures unfit { RefusesUnfit (is_stream (finite.get self.old.kinds h)) result }
        ensures made { self.new.made ≡ self.old.made }
        ensures open { self.new.kinds ≡ self.old.kinds }
    {
        let Some(socket) = self.open.get_mut(&h) else {
            return Err(Refusal::Error(INVALID));
        };
        socket.read(room)
    }

    // Notes a report with a key: that of its handle, where it is listed.
    fn note_one(&mut self, report: &Report)
        ensures made { self.new.made ≡ self.old.made }
        ensures open { self.new.kinds ≡ self.old.kinds }
    {
        let Some(h) = self.names.get(report.key) else {
            return;
        };
        let Some(socket) = self.open.get_mut(&h) else {
            return;
        };
        socket.note(report.ready);
    }

    // No report tells any more of another handle that has this key.
    fn forget_other(&mut self, key: usize, h: u64)
        ensures made { self.new.made ≡ self.old.made }
        ensures open { self.new.kinds ≡ self.old.kinds }
    {
        match self.names.get(key) {
            Some(other) if other != h => self.set_told(other, false),
            _ => {}
        }
    }

    // From now on reports tell when something comes at the stream of a handle, or none does.
    fn set_told(&mut self, h: u64, told: bool)
        ensures made { self.new.made ≡ self.old.made }
        ensures open { self.new.kinds ≡ self.old.kinds }
    {
        let Some(socket) = self.open.get_mut(&h) else {
            return;
        };
        socket.set_told(told);
    }

    /// Notes reports that came. (not in monoio)
    pub fn note(&mut self, reports: &[Report])
        ensures made { self.new.made ≡ self.old.made }
        ensures open { self.new.kinds ≡ self.old.kinds }
    {
        for report in reports {
            self.note_one(report);
        }
    }

    /// Whether a call of a direction on the socket of a handle would end at once. One that isn't open is a fault. (libc: `poll`, with no
    /// time)
    pub fn is_ready<R: Net>(
        &mut self,
        h: u64,
        rt: &R,
        probe: &mut Probe,
        read: bool,
    ) -> Result<bool, NonBlockError>
        ensures made { self.new.made ≡ self.old.made }
        ensures open { self.new.kinds ≡ self.old.kinds }
        ensures unfit { is_some (finite.get self.old.kinds h) ≡ false → result ≡ Err (Fault INVALID) }
    {
        let Some(socket) = self.open.get_mut(&h) else {
            return Err(NonBlockError::Fault(INVALID));
        };
        socket.is_ready(rt, probe, read)
    }

    /// Sends a prefix of the bytes on the stream of a handle, and answers how many. (libc: `send`)
    pub fn write(&self, h: u64, bytes: &[u8]) -> Result<usize, Refusal>
        ensures within { IfOk result (λ n. n ≤ length bytes.now) }
        ensures unfit { RefusesUnfit (is_stream (finite.get self.now.kinds h)) result }
    {
        match self.open.get(&h) {
            Some(socket) => socket.write(bytes),
            None => Err(Refusal::Error(INVALID)),
        }
    }

    /// Registers the socket of a handle with a key, in place of the one that it had, if it had one. One that isn't open is a fault. Where
    /// the key is listed for the handle, reports tell when something comes at it. (monoio: `Registry::register`)
    pub fn register(&mut self, h: u64, registry: &Registry, key: usize) -> Result<(), NonBlockError>
        ensures made { self.new.made ≡ self.old.made }
        ensures open { self.new.kinds ≡ self.old.kinds }
        ensures there { OnOk result (IsSome (finite.get self.old.kinds h)) }
    {
        let Some(socket) = self.open.get_mut(&h) else {
            return Err(NonBlockError::Fault(INVALID));
        };
        socket.register(registry, key)?;
        self.forget_other(key, h);
        let told = self.names.set(key, h);
        self.set_told(h, told);
        Ok(())
    }

    /// The socket of a handle isn't registered any more. One that wasn't, or isn't open, is a fault. (monoio: `Registry::deregister`)
    pub fn deregister(&mut self, h: u64, registry: &Registry) -> Result<(), NonBlockError>
        ensures made { self.new.made ≡ self.old.made }
        ensures open { self.new.kinds ≡ self.old.kinds }
        ensures there { OnOk result (IsSome (finite.get self.old.kinds h)) }
    {
        let Some(socket) = self.open.get_mut(&h) else {
            return Err(NonBlockError::Fault(INVALID));
        };
        socket.set_told(false);
        socket.deregister(registry)
    }
}
