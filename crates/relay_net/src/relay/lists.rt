// What a round of a relay names, in memory that is used again.
ghost use Rattle.std.specs.Prelude.{◌≡◌, ◌≤◌, [], None, IsOk, OnOk};
ghost use Rattle.std.specs.Vec.{vec_len, vec_capacity};
ghost use Rattle.ready_driver.specs.Io.{IoView};
ghost use Rattle.relay_net.specs.Relay.{StopsUnless};
ghost use Rattle.relay_net.specs.Relaying.{AreEmpty, RoundStops, round_of};

use crate::round::{LostList, RelayError, Round};
use crate::state::Ended;
use rent_buf::{NumList, OutOfMemory};
use std::alloc::Global;
use std::mem;
use wake_core::{WakerList, Woken};

/// What a round did to connections.
#[derive(Drop)]
pub struct Lists {
    /// The connection that it opened, if it did.
    pub opened: Vec<u64>,
    /// The error number of an accept that failed, if one did.
    pub accept: Option<u16>,
    /// The connections that ended.
    pub ended: Ended,
}

impl Lists {
    // Nothing. It takes no memory.
    pub(crate) fn new(alloc: Global) -> Lists
        ensures { AreEmpty result }
    {
        Lists {
            opened: Vec::new(alloc),
            accept: None,
            ended: Ended::new(alloc),
        }
    }

    // Takes the memory for so many connections that end, and for one that is opened, where it isn't there yet.
    pub(crate) fn reserve(&mut self, count: usize) -> Result<(), OutOfMemory>
        requires { AreEmpty self.old }
        ensures none { AreEmpty self.new }
        ensures room { OnOk result ((count ≤ vec_capacity self.new.ended.closed) × (count ≤ vec_capacity self.new.ended.failed)
            × (1 ≤ vec_capacity self.new.opened)) }
    {
        self.ended.reached = 0;
        self.opened.reserve(1)?;
        self.ended.closed.reserve(count)?;
        self.ended.failed.reserve(count)?;
        Ok(())
    }
}

// What is in a list. Where nothing is, the list keeps its memory.
fn taken<T>(alloc: Global, list: &mut Vec<T>) -> Vec<T>
    ensures items { result.items ≡ list.old.items }
    ensures none { (list.new.items ≡ []) × (vec_len list.new ≡ 0) }
{
    if list.is_empty() {
        return Vec::new(alloc);
    }
    mem::replace(list, Vec::new(alloc))
}

// What a park drained that wasn't made.
pub(crate) fn no_wakers(alloc: Global) -> Woken
    ensures { (result.first ≡ []) × (result.again ≡ []) }
{
    Woken {
        first: WakerList::from_vec(Vec::new(alloc)),
        again: WakerList::from_vec(Vec::new(alloc)),
    }
}

// A round that did nothing.
pub(crate) fn no_round(alloc: Global) -> Round
    ensures lists { (result.closed ≡ []) × (result.failed ≡ []) }
    ensures opened { (result.opened ≡ []) × (result.accept ≡ None) }
    ensures remote { (result.remote.first ≡ []) × (result.remote.again ≡ []) }
{
    Round {
        remote: no_wakers(alloc),
        opened: NumList::new(alloc),
        closed: NumList::new(alloc),
        accept: None,
        failed: LostList::new(alloc),
    }
}

// What a round did. Nothing of it stays in the lists.
pub(crate) fn round_with(alloc: Global, remote: Woken, lists: &mut Lists) -> Round
    ensures lists { (result.closed ≡ lists.old.ended.closed.items) × (result.failed ≡ lists.old.ended.failed.items) }
    ensures opened { (result.opened ≡ lists.old.opened.items) × (result.accept ≡ lists.old.accept) }
    ensures remote { result.remote ≡ remote }
    ensures none { AreEmpty lists.new }
{
    Round {
        remote,
        opened: NumList::from_vec(taken(alloc, &mut lists.opened)),
        closed: NumList::from_vec(taken(alloc, &mut lists.ended.closed)),
        accept: lists.accept.take(),
        failed: LostList::from_vec(taken(alloc, &mut lists.ended.failed)),
    }
}

// How many connections, from the lowest on, may go on behind a round that came to this: where it ran out of memory, those in front of the
// connection that it reached.
pub(crate) fn able_behind(worked: &Result<(), RelayError>, reached: usize, limit: usize) -> usize {
    match worked {
        Err(RelayError::OutOfMemory) => reached,
        _ => limit,
    }
}

// A round that came to this.
pub(crate) fn finish(
    worked: Result<(), RelayError>,
    round: Round,
) -> Result<Round, (RelayError, Round)>
    ensures round { round_of result ≡ round }
    ensures works { OnOk result (IsOk worked) }
    ensures stops { (old new : IoView) → StopsUnless old new worked → RoundStops old new result }
{
    match worked {
        Ok(()) => Ok(round),
        Err(why) => Err((why, round)),
    }
}
