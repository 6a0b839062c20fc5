//! The poll of the system, which reports what sockets are ready for.
ghost use Rattle.std.specs.Prelude.{◌≡◌, ◌≤◌, [], map, length, true, false, IsOk, IfOk, IfErr, OnOk};
ghost use Rattle.mio.specs.Events.{items, capacity};
ghost use Rattle.socket_io.specs.declared.mio_io.poller.TheConstants.{MOST_EVENTS};
ghost use Rattle.ready_driver.specs.Io.{one_more};
ghost use Rattle.socket_io.specs.System.{bit_if, event_bits, event_report};
ghost use Rattle.socket_io.specs.Polled.{WaitLeaves, IsFault, unreported_if, unreported_in};

use crate::mio_io::socket::{NO_NUMBER, fault_by};
use machine::MOST_HANDLES;
use mio::event::Event;
use mio::{Events, Poll, Registry, Token, Waker};
use ready_driver::{NonBlockError, Ready, Report, Reports};
use rent_buf::OutOfMemory;
use std::alloc::Global;
use std::marker::Model;
use std::net::Net;
use std::sync::Arc;
use std::time::Duration;
use wake_core::Bell;

/// The most events that a wait reports. (monoio: the same number, in `LegacyDriver::new`)
pub const MOST_EVENTS: usize = 1024;

/// The key with which a ring of the bell is reported. It is no handle's number, since those are below `MOST_HANDLES`.
/// (monoio: `TOKEN_WAKEUP`, of its legacy driver)
pub const BELL_KEY: usize = usize::MAX;

const _: () = prove!(MOST_HANDLES < BELL_KEY as u64);

/// A poll of the system, which is made when it is first needed. A contract sees how often the system reported, and its last events, if they
/// are still to be passed on. (monoio: `mio::Poll`, and its `Events`)
#[derive(Drop)]
pub struct Poller {
    alloc: Global,
    // How often the system reported. It saturates.
    polls: u64,
    waits: Option<Waits>,
}

// A poll, and the events of its last wait. They are reported once more, where memory ran out while they were.
#[derive(Drop)]
struct Waits {
    poll: Poll,
    events: Events,
    unreported: bool,
    // The waker of the poll, once a bell was asked for.
    waker: Option<Arc<Waker>>,
    ghost sized: { capacity events ≡ MOST_EVENTS },
    ghost few: { length (items events) ≤ MOST_EVENTS },
}

impl Model for Poller {
    ghost use Rattle.socket_io.specs.Polled.{Polled};
    ghost use Rattle.socket_io.specs.Waits.{polled_of};

    ghost Value = { Polled };

    ghost view = { λ p. polled_of p.polls p.waits };
}

impl Poller {
    /// No poll yet. It takes no memory, and asks nothing of the system. (not in monoio)
    pub fn new(alloc: Global) -> Poller
        ensures { result ≡ record { polls = 0; events = []; unreported = false } }
    {
        Poller {
            alloc,
            polls: 0,
            waits: None,
        }
    }

    /// Makes the poll, where there is none yet. (monoio: `Poll::new`)
    pub fn make<R: Net>(&mut self, rt: &R) -> Result<(), NonBlockError>
        ensures { self.new ≡ self.old }
    {
        if self.waits.is_none() {
            self.waits = Some(Waits::new(rt, self.alloc)?);
        }
        Ok(())
    }

    /// Where sockets are registered, once the poll is made. (monoio: `Poll::registry`)
    pub fn registry(&self) -> Option<&Registry> {
        match &self.waits {
            Some(waits) => Some(waits.poll.registry()),
            None => None,
        }
    }

    /// The bell of the poll: it makes both, where there is none yet. None where the system, or memory, refuses one.
    /// (monoio: the `EventWaker` of its legacy driver)
    pub fn bell<R: Net>(&mut self, rt: &R) -> Option<Bell>
        ensures { self.new ≡ self.old }
    {
        self.make(rt).ok()?;
        match &mut self.waits {
            Some(waits) => waits.bell(self.alloc),
            None => None,
        }
    }

    /// Waits for events, no longer than so many milliseconds, and puts their reports into an empty list. Where memory runs out for them,
    /// the next wait doesn't wait, and reports them. (monoio: `Poll::poll`)
    #[tactic(auto, using(crate::proofs::Left::left_same))]
    pub fn wait<R: Net>(
        &mut self,
        rt: &R,
        limit: Option<u64>,
        reports: &mut Reports,
    ) -> Result<(), NonBlockError>
        requires { reports.old ≡ [] }
        ensures reports { OnOk result (reports.new ≡ map event_report self.new.events) }
        ensures few { OnOk result (length reports.new ≤ MOST_EVENTS) }
        ensures left { WaitLeaves self.old.polls (unreported_in self.old) self.new.polls (unreported_in self.new) reports.new result }
    {
        match self.make(rt) {
            Ok(()) => {}
            Err(why) => return Err(why),
        }
        match &mut self.waits {
            Some(waits) => waits.wait(limit, &mut self.polls, reports),
            None => Err(NonBlockError::Fault(NO_NUMBER)),
        }
    }
}

impl Waits {
    // A poll that has reported nothing yet.
    fn new<R: Net>(rt: &R, alloc: Global) -> Result<Waits, NonBlockError>
        ensures { IfOk result (λ waits. (items waits.events ≡ []) × (waits.unreported ≡ false)) }
    {
        let Ok(events) = Events::with_capacity(alloc, MOST_EVENTS) else {
            return Err(NonBlockError::OutOfMemory);
        };
        match Poll::new(rt) {
            Ok(poll) => Ok(Waits {
                poll,
                events,
                unreported: false,
                waker: None,
            }),
            Err(error) => Err(fault_by(&error)),
        }
    }

    // The bell of the poll, whose waker is registered when it is first asked for. None where the system, or memory, refuses one.
    fn bell(&mut self, alloc: Global) -> Option<Bell>
        ensures { (items self.new.events ≡ items self.old.events) × (self.new.unreported ≡ self.old.unreported) }
    {
        let waker = match self.waker.take() {
            Some(waker) => waker,
            None => {
                let waker = Waker::new(self.poll.registry(), Token(BELL_KEY)).ok()?;
                Arc::new(alloc, waker).ok()?
            }
        };
        let other = Arc::try_clone(&waker);
        self.waker = Some(waker);
        Some(Bell::over(other.ok()?))
    }

    // Asks the system for events, unless some are still to be passed on: then there are such. It counts that the system reported.
    fn gather(&mut self, limit: Option<u64>, polls: &mut u64) -> Result<(), NonBlockError>
        ensures again { self.old.unreported ≡ true → IsOk result × (items self.new.events ≡ items self.old.events)
            × (polls.new ≡ polls.old) }
        ensures asked { self.old.unreported ≡ false → OnOk result (polls.new ≡ one_more polls.old) }
        ensures ok { OnOk result (self.new.unreported ≡ true) }
        ensures err { IfErr result (λ why. IsFault why × (self.new.unreported ≡ false) × (polls.new ≡ polls.old)) }
    {
        if self.unreported {
            return Ok(());
        }
        let time = limit.map(Duration::from_millis);
        match self.poll.poll(&mut self.events, time) {
            Ok(()) => {
                *polls = polls.saturating_add(1);
                self.unreported = true;
                Ok(())
            }
            Err(error) => Err(fault_by(&error)),
        }
    }

    // Waits for events, and puts their reports into an empty list.
    #[tactic(auto, using(crate::proofs::Left::left_refused, crate::proofs::Left::left_passed, crate::proofs::Left::left_kept))]
    fn wait(
        &mut self,
        limit: Option<u64>,
        polls: &mut u64,
        reports: &mut Reports,
    ) -> Result<(), NonBlockError>
        requires { reports.old ≡ [] }
        ensures reports { OnOk result (reports.new ≡ map event_report (items self.new.events)) }
        ensures few { OnOk result (length reports.new ≤ MOST_EVENTS) }
        ensures left { WaitLeaves polls.old (unreported_if self.old.unreported (items self.old.events))
            polls.new (unreported_if self.new.unreported (items self.new.events)) reports.new result }
    {
        match self.gather(limit, polls) {
            Ok(()) => {}
            Err(why) => return Err(why),
        }
        match report_all(&self.events, reports) {
            Ok(()) => {
                self.unreported = false;
                Ok(())
            }
            Err(OutOfMemory) => Err(NonBlockError::OutOfMemory),
        }
    }
}

// Puts the report of each event into an empty list.
fn report_all(events: &Events, reports: &mut Reports) -> Result<(), OutOfMemory>
    requires { reports.old ≡ [] }
    ensures { OnOk result (reports.new ≡ map event_report (items events.now)) }
{
    for event in events.iter() {
        reports.push(report(event))?;
    }
    Ok(())
}

// The report of an event: its token is the key.
fn report(event: &Event) -> Report
    ensures { result ≡ event_report event.now }
{
    Report {
        key: event.token().0,
        ready: bits(event),
    }
}

// What an event says that its socket is ready for. (monoio: `Ready::from_mio`)
fn bits(event: &Event) -> Ready
    ensures { result ≡ event_bits event.now }
{
    let open = bit_if(event.is_readable(), Ready::READABLE)
        | bit_if(event.is_writable(), Ready::WRITABLE);
    let closed = bit_if(event.is_read_closed(), Ready::READ_CLOSED)
        | bit_if(event.is_write_closed(), Ready::WRITE_CLOSED);
    open | closed
}

// A bit, or none.
fn bit_if(is: bool, bit: Ready) -> Ready
    ensures { result ≡ bit_if is bit }
{
    if is { bit } else { Ready::EMPTY }
}
