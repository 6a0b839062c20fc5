//! What a readiness driver asks of the object that makes its calls.
ghost use Rattle.std.specs.Prelude.{◌≡◌, ◌++◌, ℕ, [], ◌∷◌, Bool, Some, None, IsTrue, OnOk, OnErr, length, slice_get};
ghost use Rattle.rent_buf.specs.Buffer.{Buffer};
ghost use Rattle.rent_buf.specs.Parts.{Parts};
ghost use Rattle.machine.specs.declared.request.Request.{Request};
ghost use Rattle.machine.specs.Attempt.{is_file_at};
ghost use Rattle.driver_core.specs.declared.operations.calls.CallAnswer.{CallAnswer};
ghost use Rattle.ready_driver.specs.Io.{IoView, CallsFor, RegistersFor, IsClosed, WaitsFor};
ghost use Rattle.ready_driver.specs.Reports.{reports_of};

use crate::ready::Ready;
use driver_core::Calls;
use machine::Outcome;
use rent_buf::OutOfMemory;
use std::alloc::Global;
use std::marker::Model;
use thiserror::Error;
use wake_core::Bell;

/// Why an object did nothing. (monoio: an `io::Error`)
#[derive(Clone, Copy, Debug, PartialEq, Eq, Error)]
pub enum NonBlockError {
    /// It failed, with this error number: its count of faults rose. Where no call was made since a handle couldn't be new, the number is
    /// `INVALID`, and no count rose.
    #[error("Fault {0}")]
    Fault(u16),
    /// Memory ran out.
    #[error("OutOfMemory")]
    OutOfMemory,
}

/// What a wait reports of one handle. (mio: an `Event`)
#[derive(Clone, Copy, Debug, PartialEq, Eq)]
pub struct Report {
    /// The key that the handle was registered with.
    pub key: usize,
    /// What it is ready for.
    pub ready: Ready,
}

/// What a wait reports, in order. (mio: `Events`)
#[derive(Debug, Drop)]
pub struct Reports {
    list: Vec<Report>,
}

impl Model for Reports {
    ghost use Rattle.std.specs.Prelude.{List};
    ghost use Rattle.ready_driver.specs.declared.non_block.Report.{Report};

    ghost Value = { List Report };

    ghost view = { λ r. r.list.items };
}

impl Reports {
    /// No report. It takes no memory. (mio: `Events::with_capacity`)
    pub fn new(alloc: Global) -> Reports
        ensures { result ≡ [] }
    {
        Reports {
            list: Vec::new(alloc),
        }
    }

    /// The reports of a vector, in its memory. (not in monoio)
    pub fn from_vec(list: Vec<Report>) -> Reports
        ensures { result ≡ list.items }
    {
        Reports { list }
    }

    /// The vector of the reports, in the list's memory. (not in monoio)
    pub fn into_vec(self) -> Vec<Report>
        ensures { result.items ≡ self }
    {
        let Reports { list } = self;
        list
    }

    /// The reports, in order. (mio: `Events::iter`)
    pub fn as_slice(&self) -> &[Report]
        ensures { result.now ≡ self.now }
    {
        self.list.as_slice()
    }

    /// How many reports there are. (not in monoio)
    pub fn len(&self) -> usize
        ensures { result ≡ length self.now }
    {
        self.list.len()
    }

    /// The report at a place, if there is one. (not in monoio)
    pub fn get(&self, at: usize) -> Option<Report>
        ensures { result ≡ slice_get self.now at }
    {
        self.list.get(at).copied()
    }

    /// A further report, behind the others. If memory runs out, nothing changes. (not in monoio)
    pub fn push(&mut self, report: Report) -> Result<(), OutOfMemory>
        ensures ok { OnOk result (self.new ≡ self.old ++ report ∷ []) }
        ensures err { OnErr result (self.new ≡ self.old) }
    {
        self.list.push(report)?;
        Ok(())
    }

    /// No report any more. (mio: `Events::clear`)
    pub fn clear(&mut self)
        ensures { self.new ≡ [] }
    {
        self.list.clear();
    }
}

/// An object whose calls don't wait: it makes the call of a request at once or answers that it would block, and reports which handles
/// became ready. (monoio: the non-blocking file descriptors, and `mio::Poll`)
///
/// Every object shows three counts, which never fall: how often it failed, would have blocked, and ended a call with an error; the number
/// of the last call that failed; how often it waited, and was asked to close a handle; and behind a wait that didn't fail, the limit of
/// that wait. Some show their handles too, as a world has them, and some what a wait reports; and some are a world in memory, which is
/// known in all: a wait reports each handle that is due, as it is from its registration on, from a call that would block on it, and from
/// what arrives at it.
pub trait NonBlock: Calls + Drop {
    // The object as a value.
    ghost view: { Self → IoView };

    // A handle is a file: its calls wait for nothing that is reported.
    ghost files: { Self → ℕ → Bool };

    // It shows its handles.
    ghost tells: { Bool };

    // It shows what a wait reports.
    ghost reporting: { Bool };

    // It is a world in memory.
    ghost memory: { Bool };

    /// Registers a handle: from now on its reports have this key. (monoio: `Registry::register`)
    fn register(&mut self, h: u64, key: usize) -> Result<(), NonBlockError>
        ensures { RegistersFor tells memory h (Some key) (view self.old) (view self.new) result };

    /// A handle isn't registered any more. (monoio: `Registry::deregister`)
    fn deregister(&mut self, h: u64) -> Result<(), NonBlockError>
        ensures { RegistersFor tells memory h None (view self.old) (view self.new) result };

    /// Closes a handle, which isn't registered any more, and answers how that ended. (libc: `close`, which takes a descriptor out of each
    /// poll)
    fn close(&mut self, h: u64) -> Outcome
        ensures { IsClosed tells memory h (view self.old) (view self.new) result };

    /// A handle is a file: its calls wait for nothing that is reported. (not in monoio)
    fn is_file(&self, h: u64) -> bool
        ensures file { result ≡ files self.now h }
        ensures world { IsTrue memory → result ≡ is_file_at (view self.now).world h };

    /// Waits for reports, no longer than so many milliseconds, and without end where there is no limit, and puts them into an empty list. A
    /// driver asks it with another limit than 0 only behind a `bell`. (monoio: `Poll::poll`)
    fn wait(&mut self, limit: Option<u64>, reports: &mut Reports) -> Result<(), NonBlockError>
        requires { reports.old ≡ [] }
        ensures { WaitsFor tells reporting memory limit (view self.old) (view self.new) reports.new result };

    /// What ends a wait of this object from another thread: the wait that is under way, or else the next one. None where nothing does, or
    /// nothing that does can be made now. Where there is one a park waits in the object, with its whole limit, and else beside it, a
    /// millisecond at most. (mio: `Waker`)
    fn bell(&mut self) -> Option<Bell>
        ensures { self.new ≡ self.old };

    // A world in memory shows its handles.
    ghost memory_tells: { IsTrue memory → IsTrue tells };

    // Its files are those of that world.
    ghost memory_files: { IsTrue memory → (io : Self) (h : ℕ) → files io h ≡ is_file_at (view io).world h };

    // It shows its reports: each handle that is due, if it is registered.
    ghost memory_reports: { IsTrue memory → IsTrue reporting ×
        ((io : Self) → (view io).reports ≡ reports_of (view io).world (view io).keys (view io).due) };

    // What a call of a request answers and leaves.
    ghost calls: { (old : Self) (request : Request Buffer Parts) (new : Self) (now : Request Buffer Parts) (answer : CallAnswer) →
        Self.Calls.called old request new now answer → CallsFor tells memory (view old) request (view new) now answer };
}

/// An object that is lent is what it is, with its counts. (not in monoio)
impl<N: NonBlock> NonBlock for &mut N {
    ghost view = { λ lent. N.view lent.now };

    ghost files = { λ lent h. N.files lent.now h };

    ghost tells = { N.tells };

    ghost reporting = { N.reporting };

    ghost memory = { N.memory };

    ghost memory_tells = { N.memory_tells };

    ghost memory_files = { λ memory lent h. N.memory_files memory lent.now h };

    ghost memory_reports = { λ memory. ((N.memory_reports memory).0, λ lent. (N.memory_reports memory).1 lent.now) };

    ghost calls = { λ old request new now answer called. N.calls old.now request new.now now answer called };

    fn register(&mut self, h: u64, key: usize) -> Result<(), NonBlockError> {
        (**self).register(h, key)
    }

    fn deregister(&mut self, h: u64) -> Result<(), NonBlockError> {
        (**self).deregister(h)
    }

    fn close(&mut self, h: u64) -> Outcome {
        (**self).close(h)
    }

    fn is_file(&self, h: u64) -> bool {
        (**self).is_file(h)
    }

    fn wait(&mut self, limit: Option<u64>, reports: &mut Reports) -> Result<(), NonBlockError> {
        (**self).wait(limit, reports)
    }

    fn bell(&mut self) -> Option<Bell> {
        (**self).bell()
    }
}
