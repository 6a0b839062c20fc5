//! Waking the sleeper from another thread.
ghost use Rattle.std.specs.Prelude.{IsOk};

use crate::cell::Shared;
use crate::fault::OutOfMemory;
use crate::locked::handle::Nudging;
use std::sync::ledger::Ledger;
use std::sync::{Arc, Wait};
use thiserror::Error;

/// Why the sleeper was not woken. (not in monoio, whose `unpark` answers an `io::Error`)
#[derive(Clone, Copy, Debug, PartialEq, Eq, Error)]
pub enum UnparkError {
    /// Memory ran out. Nothing was sent.
    #[error("OutOfMemory")]
    OutOfMemory,
}

/// What wakes a sleeper. (monoio: `Unpark`)
pub trait Unpark {
    /// Wakes the sleeper if it sleeps or is about to. It is kept for no later sleep: a condition is told by `RemoteSender::send`.
    /// (monoio: `Unpark::unpark`)
    fn unpark<R: Wait>(&self, rt: &R) -> Result<(), UnparkError>;
}

impl<U: Unpark> Unpark for Arc<U> {
    fn unpark<R: Wait>(&self, rt: &R) -> Result<(), UnparkError> {
        (**self).unpark(rt)
    }
}

/// A handle that wakes the sleeper of one cell. (monoio: `UnparkHandle`)
#[derive(Drop)]
pub struct UnparkHandle<P: Ledger, D: Ledger> {
    shared: Arc<Shared<P, D>>,
}

impl<P: Ledger, D: Ledger> UnparkHandle<P, D> {
    // The handle of this cell.
    pub(crate) fn over(shared: Arc<Shared<P, D>>) -> UnparkHandle<P, D> {
        UnparkHandle { shared }
    }

    /// Another handle of the same cell. `OutOfMemory` if there is no room for another reference to the cell.
    /// (monoio: `UnparkHandle::clone`)
    pub fn try_clone(&self) -> Result<UnparkHandle<P, D>, OutOfMemory> {
        let shared = Arc::try_clone(&self.shared).map_err(|_| OutOfMemory)?;
        Ok(UnparkHandle { shared })
    }
}

impl<P: Ledger, D: Ledger> Unpark for UnparkHandle<P, D> {
    /// Nudges the state once: if the flag is false, because the sleeper sleeps or is about to, it sets the token; then it notifies the
    /// sleeper, and rings the bell that hangs, if one does. If the flag is true, because the sleeper is awake or was dropped, the state
    /// stays as it is, and the unpark is kept for no later park; a ring that comes too late makes one wait in a poll come back with
    /// nothing. So it is for ending a park that is under way, and a condition that the sleeper's thread is to see is told by
    /// `RemoteSender::send`. Takes no memory, and is always Ok. (monoio: `UnparkHandle::unpark`)
    fn unpark<R: Wait>(&self, rt: &R) -> Result<(), UnparkError>
        ensures { IsOk result }
    {
        self.shared.nudge(rt, Nudging::new());
        Ok(())
    }
}
