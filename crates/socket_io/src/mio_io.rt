//! Sockets of the system on this machine, whose calls are made at once.
ghost use Rattle.std.specs.Prelude.{◌≡◌, ◌≤◌, [], false, length, take, Some, None, is_some, IsSome, IfOk, OnOk, vec_len};
ghost use Rattle.std.specs.FinMap as finite;
ghost use Rattle.rent_buf.specs.Buffer.{shown};
ghost use Rattle.machine.specs.declared.request.TheConstants.{MOST_ASKED};
ghost use Rattle.machine.specs.declared.world.HandleKind.TheVariants.{Listener, Stream};
ghost use Rattle.machine.specs.Request.{plain_request, room_of, sent_of};
ghost use Rattle.machine.specs.Surroundings.{around, request_around};
ghost use Rattle.ready_driver.specs.Io.{RegistersFor, IsClosed, WaitsFor};
ghost use Rattle.ready_driver.specs.Sockets.{GivesFor};
ghost use Rattle.socket_io.specs.MioIo.{no_sockets, host_view, AcceptsFor, MovesFor, ReceivesFor, IsInvalid, HostCalls};
ghost use Rattle.socket_io.specs.MioIo.{closed_as, kinds_given, KeepsAsks};
ghost use Rattle.socket_io.specs.Polled.{WaitLeaves};
ghost use Rattle.socket_io.specs.Counted.{IsCounted, ResultCounted};
ghost use Rattle.socket_io.specs.SocketTable.{is_listener, is_stream, RefusesUnfit};
ghost use Rattle.ready_driver.specs.SocketLaws.{no-memory};

use crate::mio_io::counts::Counts;
use crate::mio_io::poller::Poller;
use crate::mio_io::probe::Probe;
use crate::mio_io::socket::{Refusal, Socket, fault_by};
use crate::mio_io::table::Table;
use driver_core::{CallAnswer, Calls};
use machine::{Call, INVALID, Outcome, Request};
use ready_driver::{NonBlock, NonBlockError, Reports, Sockets};
use rent_buf::{ByteList, IoBufMut, OutOfMemory, VecBuf};
use std::alloc::Global;
use std::marker::Model;
use std::net::Net;
use wake_core::Bell;

mod counts;
mod names;
mod poller;
mod probe;
mod socket;
mod stream;
mod table;

pub use poller::{BELL_KEY, MOST_EVENTS};
pub use socket::{NO_NUMBER, local};

/// The most bytes that one call moves. (not in monoio)
pub const MOST_MOVED: usize = 65536;

/// The error of a request that isn't made on sockets. (Linux: `EOPNOTSUPP`)
pub const UNSUPPORTED: u16 = 95;

/// Sockets of the system on this machine (127.0.0.1), through `mio`, as an object whose calls don't wait. It keeps the handle of the
/// network. (monoio: the sockets of its legacy driver)
///
/// It makes `Accept`, `Recv`, `ReadVec`, `Send`, `WriteVec` and `PollAdd`. Each other request ends with `UNSUPPORTED`. A call on a handle
/// that isn't open, or is of another kind, ends with `INVALID`. One that the system refuses ends with the system's error number, or with
/// `NO_NUMBER` where it tells none, unless it would block.
///
/// A call moves at most `MOST_MOVED` bytes. It copies those that it reads, and those that it sends of parts, once, and those that it sends of
/// one buffer not at all. It finds its socket by a hash, however many there are. A count saturates.
#[derive(Drop)]
pub struct MioIo<R> {
    rt: R,
    table: Table,
    poller: Poller,
    // What says whether a socket is ready.
    probe: Probe,
    // Where bytes are read.
    room: Vec<u8>,
    // The bytes that are sent of parts.
    sent: ByteList,
    counts: Counts,
    // How often they waited, but for waits that ended with an error, and were asked to close a handle.
    waits: u64,
    closes: u64,
    // The limit of the last wait.
    limit: Option<u64>,
}

impl<R> Model for MioIo<R> {
    ghost use Rattle.std.specs.Coded.{codes};
    ghost use Rattle.socket_io.specs.MioIo.{Host, host_code, host_of};

    ghost Value = { Host };

    ghost coded = { host_code (Prim.hlevel codes) (Prim.hlevel codes) (Prim.hlevel codes) };

    ghost view = { λ m. host_of m.table m.counts (record { waits = m.waits; closes = m.closes; limit = m.limit }) m.poller m.room.items };
}

impl<R: Net> MioIo<R> {
    /// No handles. It takes no memory, and asks nothing of the system: the poll is made by the first call that needs it.
    /// (monoio: `LegacyDriver::new`, which makes it)
    pub fn new(rt: R, alloc: Global) -> MioIo<R>
        ensures { result ≡ no_sockets }
    {
        MioIo {
            rt,
            table: Table::new(alloc),
            poller: Poller::new(alloc),
            probe: Probe::new(alloc),
            room: Vec::new(alloc),
            sent: ByteList::new(alloc),
            counts: Counts::new(),
            waits: 0,
            closes: 0,
            limit: Some(0),
        }
    }

    /// How many handles are open. (not in monoio)
    pub fn open_handles(&self) -> usize
        ensures { result ≡ finite.len self.now.kinds }
    {
        self.table.len()
    }

    // Accepts a connection on a listener, as a new handle.
    fn accept(&mut self, h: u64) -> CallAnswer
        ensures accepts { AcceptsFor self.old self.new result }
        ensures unfit { is_listener (finite.get self.old.kinds h) ≡ false → IsInvalid result }
    {
        if self.table.reserve_one().is_err() {
            return CallAnswer::OutOfMemory;
        }
        match self.table.accept(h) {
            Ok(socket) => CallAnswer::Done(Outcome::Made(self.table.add(socket))),
            Err(refusal) => self.counts.refuse(refusal),
        }
    }

    // Reads at most so many bytes of a stream into what a request holds.
    fn receive<B: IoBufMut>(
        &mut self,
        h: u64,
        ask: u32,
        request: &mut Request<B, VecBuf>,
    ) -> CallAnswer
        requires { ask ≤ room_of (plain_request B.buffer request.old) }
        ensures receives { ReceivesFor ask self.old (plain_request B.buffer request.old) self.new
            (plain_request B.buffer request.new) result }
        ensures unfit { is_stream (finite.get self.old.kinds h) ≡ false → IsInvalid result }
        ensures surroundings { request_around (around B.under B.beside) request.new ≡
            request_around (around B.under B.beside) request.old }
    {
        if prepare(&mut self.room).is_err() {
            return CallAnswer::OutOfMemory;
        }
        match read_into(&mut self.table, h, &mut self.room, ask) {
            Ok(count) => {
                request.store(&self.room[..count as usize]);
                CallAnswer::Done(Outcome::Count(count))
            }
            Err(refusal) => self.counts.refuse(refusal),
        }
    }

    // Sends bytes that a request shows on a stream: those of one buffer as they lie there, and those of parts one behind another.
    fn send<B: IoBufMut>(&mut self, h: u64, request: &Request<B, VecBuf>) -> CallAnswer
        ensures sends { MovesFor (length (sent_of (plain_request B.buffer request.now))) self.old self.new result }
        ensures unfit { is_stream (finite.get self.old.kinds h) ≡ false → IsInvalid result }
    {
        match request {
            Request::Send { fd: _, buf } => self.send_buffer(h, buf),
            _ => self.send_shown(h, request),
        }
    }

    // Sends bytes of a buffer on a stream. It copies none, and takes no memory.
    fn send_buffer<B: IoBufMut>(&mut self, h: u64, buf: &B) -> CallAnswer
        ensures sends { MovesFor (length (take MOST_ASKED (shown (B.buffer buf.now)))) self.old self.new result }
        ensures unfit { is_stream (finite.get self.old.kinds h) ≡ false → IsInvalid result }
    {
        buf.keeps_bounds();
        match write_first(&self.table, h, buf.bytes()) {
            Ok(count) => CallAnswer::Done(Outcome::Count(count)),
            Err(refusal) => self.counts.refuse(refusal),
        }
    }

    // Sends bytes that a request shows on a stream, which are copied first.
    fn send_shown<B: IoBufMut>(&mut self, h: u64, request: &Request<B, VecBuf>) -> CallAnswer
        ensures sends { MovesFor (length (sent_of (plain_request B.buffer request.now))) self.old self.new result }
        ensures unfit { is_stream (finite.get self.old.kinds h) ≡ false → IsInvalid result }
    {
        self.sent.truncate(0);
        if request.append_shown(MOST_MOVED, &mut self.sent).is_err() {
            return CallAnswer::OutOfMemory;
        }
        match write_first(&self.table, h, self.sent.as_slice()) {
            Ok(count) => CallAnswer::Done(Outcome::Count(count)),
            Err(refusal) => self.counts.refuse(refusal),
        }
    }

    // A wait for readiness: it is over where a read of a stream, an accept of a listener or a write would end at once.
    fn look(&mut self, h: u64, read: bool) -> CallAnswer
        ensures looks { MovesFor 0 self.old self.new result }
        ensures unfit { is_some (finite.get self.old.kinds h) ≡ false → IsInvalid result }
    {
        match self.table.is_ready(h, &self.rt, &mut self.probe, read) {
            Ok(true) => CallAnswer::Done(Outcome::Count(0)),
            Ok(false) => self.counts.refuse(Refusal::WouldBlock),
            Err(NonBlockError::Fault(code)) => CallAnswer::Done(self.counts.fail(code)),
            Err(NonBlockError::OutOfMemory) => CallAnswer::OutOfMemory,
        }
    }
}

// Takes the memory of the bytes that a call reads at most.
fn prepare(room: &mut Vec<u8>) -> Result<(), OutOfMemory>
    ensures { OnOk result (vec_len room.new ≡ MOST_MOVED) }
{
    if room.len() != MOST_MOVED {
        room.resize(MOST_MOVED, 0)?;
    }
    Ok(())
}

// Puts at most so many bytes of a stream at the start of the room, and answers how many.
fn read_into(table: &mut Table, h: u64, room: &mut [u8], most: u32) -> Result<u32, Refusal>
    requires { length room.old ≡ MOST_MOVED }
    ensures within { IfOk result (λ n. (n ≤ most) × (n ≤ length room.new)) }
    ensures unfit { RefusesUnfit (is_stream (finite.get table.old.kinds h)) result }
    ensures made { table.new.made ≡ table.old.made }
    ensures open { table.new.kinds ≡ table.old.kinds }
{
    let most = room.len().min(most as usize);
    match table.read(h, &mut room[..most]) {
        Ok(count) => Ok(count as u32),
        Err(refusal) => Err(refusal),
    }
}

// Sends the first of some bytes on a stream, as many as one call moves at most, and answers how many went.
fn write_first(table: &Table, h: u64, bytes: &[u8]) -> Result<u32, Refusal>
    ensures within { IfOk result (λ n. (n ≤ MOST_MOVED) × (n ≤ length bytes.now)) }
    ensures unfit { RefusesUnfit (is_stream (finite.get table.now.kinds h)) result }
{
    let most = bytes.len().min(MOST_MOVED);
    match table.write(h, &bytes[..most]) {
        Ok(count) => Ok(count as u32),
        Err(refusal) => Err(refusal),
    }
}

impl<R: Net + Drop> Calls for MioIo<R> {
    ghost called = { HostCalls };

    /// Makes the call of a request, where it doesn't block. A handle that it makes isn't registered. A `PollAdd` blocks where a read, an
    /// accept or a write would, and else ends with the count 0. (monoio: `legacy_call`, which polls the descriptor of a `PollAdd`)
    fn call<B: IoBufMut>(&mut self, request: &mut Request<B, VecBuf>) -> CallAnswer {
        match request.call() {
            Call::Accept { h } => self.accept(h),
            Call::In { h, ask } => self.receive(h, ask, request),
            Call::Out { h, .. } => self.send(h, request),
            Call::PollAdd { h, read } => self.look(h, read),
            _ => CallAnswer::Done(self.counts.fail(UNSUPPORTED)),
        }
    }
}

/// What isn't open, or what the system refuses, is a fault.
impl<R: Net + Drop> NonBlock for MioIo<R> {
    ghost view = { host_view };

    ghost files = { λ io h. false };

    ghost tells = { false };

    ghost reporting = { false };

    ghost memory = { false };

    ghost memory_tells = { λ told. told };

    ghost memory_files = { no-memory };

    ghost memory_reports = { no-memory };

    ghost calls = { λ old request new now answer called. called.calls };

    /// From now on the handle's reports have this key, in place of the one that it had, if it had one. It makes the poll, where there is
    /// none yet.
    fn register(&mut self, h: u64, key: usize) -> Result<(), NonBlockError>
        ensures registers { RegistersFor false false h (Some key) (host_view self.old) (host_view self.new) result }
        ensures counted { ResultCounted self.old.counts self.new.counts result }
        ensures asks { KeepsAsks self.old self.new }
        ensures kinds { self.new.kinds ≡ self.old.kinds }
        ensures there { OnOk result (IsSome (finite.get self.old.kinds h)) }
    {
        if let Err(why) = self.poller.make(&self.rt) {
            return Err(self.counts.fault(why));
        }
        let Some(registry) = self.poller.registry() else {
            return Err(self.counts.fault(NonBlockError::Fault(NO_NUMBER)));
        };
        match self.table.register(h, registry, key) {
            Ok(()) => Ok(()),
            Err(why) => Err(self.counts.fault(why)),
        }
    }

    /// A handle that isn't registered is a fault.
    fn deregister(&mut self, h: u64) -> Result<(), NonBlockError>
        ensures registers { RegistersFor false false h None (host_view self.old) (host_view self.new) result }
        ensures counted { ResultCounted self.old.counts self.new.counts result }
        ensures asks { KeepsAsks self.old self.new }
        ensures kinds { self.new.kinds ≡ self.old.kinds }
        ensures there { OnOk result (IsSome (finite.get self.old.kinds h)) }
    {
        let Some(registry) = self.poller.registry() else {
            return Err(self.counts.fault(NonBlockError::Fault(NO_NUMBER)));
        };
        match self.table.deregister(h, registry) {
            Ok(()) => Ok(()),
            Err(why) => Err(self.counts.fault(why)),
        }
    }

    /// The count 0, and `INVALID` where the handle isn't open. How the system closed it isn't told.
    fn close(&mut self, h: u64) -> Outcome
        ensures closes { IsClosed false false h (host_view self.old) (host_view self.new) result }
        ensures counted { IsCounted self.old.counts self.new.counts (CallAnswer.Done result) }
        ensures outcome { result ≡ closed_as (finite.get self.old.kinds h) }
        ensures kinds { self.new.kinds ≡ finite.remove self.old.kinds h }
        ensures left { (self.new.polls ≡ self.old.polls) × (self.new.unreported ≡ self.old.unreported) }
    {
        self.closes = self.closes.saturating_add(1);
        if self.table.close(h) {
            Outcome::Count(0)
        } else {
            self.counts.fail(INVALID)
        }
    }

    /// No handle is.
    fn is_file(&self, h: u64) -> bool
        ensures value { result ≡ false }
    {
        false
    }

    /// It reports at most `MOST_EVENTS` handles, and none where it was interrupted. A ring of the bell ends it, and is reported with the
    /// key `BELL_KEY`, which names no handle. Where memory runs out for reports that came, the next wait doesn't wait, and reports just
    /// these. It makes the poll, where there is none yet.
    fn wait(&mut self, limit: Option<u64>, reports: &mut Reports) -> Result<(), NonBlockError>
        requires { reports.old ≡ [] }
        ensures waits { WaitsFor false false false limit (host_view self.old) (host_view self.new) reports.new result }
        ensures few { length reports.new ≤ MOST_EVENTS }
        ensures counted { ResultCounted self.old.counts self.new.counts result }
        ensures kinds { self.new.kinds ≡ self.old.kinds }
        ensures left { WaitLeaves self.old.polls self.old.unreported self.new.polls self.new.unreported reports.new result }
    {
        match self.poller.wait(&self.rt, limit, reports) {
            Ok(()) => {
                self.table.note(reports.as_slice());
                self.waits = self.waits.saturating_add(1);
                self.limit = limit;
                Ok(())
            }
            Err(why) => {
                reports.clear();
                Err(self.counts.fault(why))
            }
        }
    }

    /// A waker of the poll, which is registered when a bell is first asked for, with the key `BELL_KEY`; the poll is made then too, where
    /// there is none yet. None where the system, or memory, refuses one of them.
    fn bell(&mut self) -> Option<Bell>
        ensures { self.new ≡ self.old }
    {
        self.poller.bell(&self.rt)
    }
}

/// What the system refuses is a fault. Memory runs out also where `MOST_HANDLES` handles were made.
impl<R: Net + Drop> Sockets for MioIo<R> {
    ghost numbered = { λ old request new now h called. called.numbered };

    fn count(&self) -> u64 {
        self.table.made()
    }

    fn listen(&mut self, port: u16) -> Result<u64, NonBlockError>
        ensures gives { GivesFor false false Listener (host_view self.old) (host_view self.new) result }
        ensures counted { ResultCounted self.old.counts self.new.counts result }
        ensures asks { KeepsAsks self.old self.new }
        ensures kinds { self.new.kinds ≡ kinds_given Listener result self.old.kinds }
    {
        if self.table.reserve_one().is_err() {
            return Err(NonBlockError::OutOfMemory);
        }
        match Socket::listen(&self.rt, local(port)) {
            Ok(socket) => Ok(self.table.add(socket)),
            Err(error) => Err(self.counts.fault(fault_by(&error))),
        }
    }

    fn dial(&mut self, port: u16) -> Result<u64, NonBlockError>
        ensures gives { GivesFor false false Stream (host_view self.old) (host_view self.new) result }
        ensures counted { ResultCounted self.old.counts self.new.counts result }
        ensures asks { KeepsAsks self.old self.new }
        ensures kinds { self.new.kinds ≡ kinds_given Stream result self.old.kinds }
    {
        if self.table.reserve_one().is_err() {
            return Err(NonBlockError::OutOfMemory);
        }
        match Socket::dial(&self.rt, local(port)) {
            Ok(socket) => Ok(self.table.add(socket)),
            Err(error) => Err(self.counts.fault(fault_by(&error))),
        }
    }
}
