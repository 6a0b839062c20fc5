//! What ends a wait of a poll from another thread, and what a sleeper looks out in.
ghost use Rattle.std.specs.Prelude.{◌≡◌, ℕ, Option};

use crate::fault::OutOfMemory;
use mio::Waker;
use std::sync::Arc;

/// A bell ends the wait of one poll from another thread: the wait that is under way, or else the next one. (monoio: the `EventWaker` of its
/// legacy driver)
#[derive(Drop)]
pub struct Bell {
    waker: Arc<Waker>,
}

impl Bell {
    /// The bell of the poll that this waker is registered with. Takes no memory. (monoio: `EventWaker::new`)
    pub fn over(waker: Arc<Waker>) -> Bell {
        Bell { waker }
    }

    /// Another one of the same poll. `OutOfMemory` if there is no room for another reference to its waker. (not in monoio)
    pub fn try_clone(&self) -> Result<Bell, OutOfMemory> {
        let waker = Arc::try_clone(&self.waker).map_err(|_| OutOfMemory)?;
        Ok(Bell { waker })
    }

    // Rings it. The poll keeps that until a wait reports it.
    pub(crate) fn ring(&self) {
        let _ = self.waker.wake();
    }
}

/// What looks out for events, and may wait for them. A sleeper waits in it where it has a bell. (monoio: the poll of its legacy driver)
pub trait Lookout {
    /// What a look answers.
    type Sight;

    // What a look does that waits no longer than a limit in milliseconds, or without one: before, the limit, after, and what it answers.
    ghost looked: { Self → Option ℕ → Self → Self.Sight → Type 0 };

    /// The bell that ends its waits; none where it has none, or none can be made now. (not in monoio)
    fn bell(&mut self) -> Option<Bell>
        ensures { self.new ≡ self.old };

    /// Looks out for events once: it waits no longer than so many milliseconds, and without end where there is no limit. A ring of its
    /// bell ends the wait. (monoio: `inner_park` of its legacy driver)
    fn look(&mut self, limit: Option<u64>) -> Self::Sight
        ensures { looked self.old limit self.new result };
}
