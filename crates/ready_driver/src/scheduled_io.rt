//! The bits of one handle, and the operations that wait for them.
ghost use Rattle.std.specs.Prelude.{◌≡◌, ◌≤◌, ◌<◌, ◌+◌, ◌++◌, ℕ, [], Some, None, false, bit_or, length, option_map};
ghost use Rattle.std.specs.Prelude.{Contains, IsTrue, IsOk, IfOk, IfSome, OnOk, OnErr};
ghost use Rattle.std.specs.Vec.{vec_len, vec_capacity};
ghost use Rattle.ready_driver.specs.declared.ready.Direction.{Direction};
ghost use Rattle.ready_driver.specs.Rooms.{room_of};
ghost use Rattle.ready_driver.specs.Ready.{meets, mask_of, without, bits_for};
ghost use Rattle.ready_driver.specs.ScheduledIo.{entry_of, waiter_of, kept, forgotten, is_met, taken, left, tasks_of, unless_met};
ghost use Rattle.ready_driver.specs.ScheduledIo.{IsWaitingIn, IsOnceEach, ChangesOnly, IsSound};

mod polls;
mod rooms;
mod spots;
mod wait_list;

use crate::ready::{Direction, Ready};
use crate::scheduled_io::rooms::Rooms;
use crate::scheduled_io::wait_list::WaitList;
use rent_buf::{NumList, OutOfMemory};
use std::alloc::Global;
use std::marker::Model;

/// An operation that waits for a handle (not in monoio, where it is a waker).
#[derive(Clone, Copy, Debug, PartialEq, Eq)]
pub struct Waiter {
    /// The operation's number.
    pub serial: u64,
    /// The task to wake.
    pub task: u64,
    /// What it waits for.
    pub direction: Direction,
}

impl Waiter {
    // These bits are what it waits for.
    fn is_met(&self, ready: Ready) -> bool
        ensures { result ≡ is_met ready self.now }
    {
        match self.direction {
            Direction::Read => ready.is_readable(),
            Direction::Write => ready.is_writable(),
        }
    }
}

/// The bits of one handle, and the operations that wait for them, each with its newest task (monoio: `ScheduledIo`). A clause
/// sees the bits and the list of what waits, in the order in which it began to wait.
///
/// A wake looks at each operation that waits on this handle. Each other call finds its operation without a look at the others: by halves,
/// where they wait in the order of their numbers, and else by a table of their places. None moves those that wait behind one that is taken
/// out, but once in as many calls as they are.
#[derive(Debug, Drop)]
pub struct ScheduledIo {
    readiness: Ready,
    waiting: WaitList,
    rooms: Rooms,
}

impl Model for ScheduledIo {
    ghost use Rattle.ready_driver.specs.ScheduledIo.{Scheduled, IsSound};

    ghost Value = { Scheduled };

    ghost view = { λ s. record { ready = s.readiness; waiting = s.waiting.waiters } };

    ghost invariant = { λ s. IsSound s.waiting.waiters s.rooms };
}

impl ScheduledIo {
    /// No bit, and nothing that waits (monoio: `ScheduledIo::new`). It takes no memory before the first operation waits.
    pub fn new(alloc: Global) -> ScheduledIo
        ensures { result ≡ record { ready = 0; waiting = [] } }
    {
        ScheduledIo {
            readiness: Ready::EMPTY,
            waiting: WaitList::new(alloc),
            rooms: Rooms::new(alloc),
        }
    }

    /// The bits (not in monoio, where it is a field).
    pub fn readiness(&self) -> Ready
        ensures { result ≡ self.now.ready }
    {
        self.readiness
    }

    /// How many operations wait (not in monoio).
    pub fn waiting(&self) -> usize
        ensures { result ≡ length self.now.waiting }
    {
        self.waiting.len()
    }

    /// What an operation waits with, if it waits (not in monoio).
    pub fn waiter(&self, serial: u64) -> Option<Waiter>
        ensures value { result ≡ waiter_of self.now.waiting serial }
        ensures once { IsOnceEach self.now.waiting }
    {
        self.waiting.find(serial)
    }

    // A bit meets a direction.
    fn is_met(&self, dir: Direction) -> bool
        ensures { result ≡ meets self.now.ready (mask_of dir) }
    {
        !(self.readiness & dir.mask()).is_empty()
    }

    /// Adds bits (monoio: `ScheduledIo::set_readiness`). It wakes nobody.
    pub fn set_readiness(&mut self, add: Ready)
        ensures { self.new ≡ record self.old { ready = bit_or self.old.ready add } }
    {
        self.readiness |= add;
    }

    /// Takes bits away (monoio: `ScheduledIo::clear_readiness`).
    pub fn clear_readiness(&mut self, gone: Ready)
        ensures { self.new ≡ record self.old { ready = without self.old.ready gone } }
    {
        self.readiness = self.readiness - gone;
    }

    /// The bits of a direction, or None exactly if there are none (monoio: `ScheduledIo::poll_readiness`). Then the operation
    /// waits with this task, at its place if it waited already. If memory runs out, nothing changes.
    pub fn poll_readiness(
        &mut self,
        serial: u64,
        task: u64,
        dir: Direction,
    ) -> Result<Option<Ready>, OutOfMemory>
        ensures value { IfOk result (λ found. found ≡ bits_for self.old.ready dir) }

        // Where there are bits, nothing changes, and no memory is taken.
        ensures ready { IsTrue (meets self.old.ready (mask_of dir)) → IsOk result × (self.new ≡ self.old) }

        // Where there are none, the operation waits with its newest task, in one entry.
        ensures waits { meets self.old.ready (mask_of dir) ≡ false → OnOk result (self.new ≡
            record self.old { waiting = kept self.old.waiting (entry_of serial task dir) }) }
        ensures own { meets self.old.ready (mask_of dir) ≡ false → OnOk result
            (ChangesOnly self.old.waiting self.new.waiting serial (Some (entry_of serial task dir))) }
        ensures once { IsOnceEach self.new.waiting }

        // It runs out of memory only if the operation doesn't wait in this direction yet.
        ensures again { IsWaitingIn self.old.waiting serial dir → IsOk result }
        ensures err { OnErr result (self.new ≡ self.old) }
    {
        let found = self.readiness & dir.mask();
        if !found.is_empty() {
            return Ok(Some(found));
        }
        let entry = Waiter {
            serial,
            task,
            direction: dir,
        };
        keep(&mut self.waiting, &mut self.rooms, entry)?;
        Ok(None)
    }

    /// An operation waits no longer: answers the task that waited, or None exactly if it didn't wait (not in monoio). For a
    /// drop or a cancel, and for a poll that ends the operation.
    pub fn forget(&mut self, serial: u64) -> Option<u64>
        ensures task { result ≡ option_map (λ w. w.task) (waiter_of self.old.waiting serial) }
        ensures rest { self.new ≡ record self.old { waiting = forgotten self.old.waiting serial } }
        ensures own { ChangesOnly self.old.waiting self.new.waiting serial None }
    {
        match self.waiting.take_out(serial) {
            Some(waiter) => Some(waiter.task),
            None => None,
        }
    }

    /// Takes what waits in the directions that these bits meet, and answers the tasks, in the order in which they began to wait
    /// (monoio: `ScheduledIo::wake`). The others wait on, in order. It takes no memory, and leaves the bits.
    #[tactic(auto, using(crate::proofs::Waiting::left_each, crate::proofs::Waiting::taken_named))]
    pub fn wake(&mut self, ready: Ready) -> NumList
        ensures tasks { result ≡ tasks_of (taken ready self.old.waiting) }
        ensures rest { self.new ≡ record self.old { waiting = left ready self.old.waiting } }

        // Of each operation: it waits on exactly if its direction isn't met. If it is, its task is named.
        ensures each { (n : ℕ) → waiter_of self.new.waiting n ≡ unless_met ready (waiter_of self.old.waiting n) }
        ensures named { (n : ℕ) → IfSome (waiter_of self.old.waiting n)
            (λ w. IsTrue (is_met ready w) → Contains result w.task) }
    {
        NumList::from_vec(self.take_tasks(ready))
    }

    /// Takes what waits in the directions that these bits meet, as `wake` does, and adds the tasks to a list that has room for all that
    /// wait, in the order in which they began to wait (not in monoio). It takes no memory, and what is reserved for `wake` stays.
    #[tactic(auto, using(crate::proofs::Waiting::left_each))]
    pub fn wake_into(&mut self, ready: Ready, tasks: &mut Vec<u64>)
        requires { vec_len tasks.old + length self.old.waiting ≤ vec_capacity tasks.old }
        ensures tasks { tasks.new.items ≡ tasks.old.items ++ tasks_of (taken ready self.old.waiting) }
        ensures rest { self.new ≡ record self.old { waiting = left ready self.old.waiting } }
        ensures capacity { vec_capacity tasks.new ≡ vec_capacity tasks.old }

        // Of each operation: it waits on exactly if its direction isn't met. If it is, its task is named.
        ensures each { (n : ℕ) → waiter_of self.new.waiting n ≡ unless_met ready (waiter_of self.old.waiting n) }
        ensures named { (n : ℕ) → IfSome (waiter_of self.old.waiting n)
            (λ w. IsTrue (is_met ready w) → Contains tasks.new.items w.task) }
    {
        self.waiting.name_tasks(ready, tasks);
        self.waiting.leave(ready);
    }

    // Takes what waits in the directions that these bits meet. Where nothing does, the reserved memory stays.
    #[tactic(auto, using(crate::proofs::Waiting::none_met))]
    fn take_tasks(&mut self, ready: Ready) -> Vec<u64>
        ensures tasks { result.items ≡ tasks_of (taken ready self.old.waiting) }
        ensures rest { self.new ≡ record self.old { waiting = left ready self.old.waiting } }
        ensures once { IsOnceEach self.old.waiting }
    {
        if !self.waiting.is_any_met(ready) {
            return Vec::new(self.waiting.alloc());
        }
        let mut tasks = self.rooms.take(ready);
        self.waiting.name_tasks(ready, &mut tasks);
        self.waiting.leave(ready);
        tasks
    }
}

// Puts an entry among those that wait. Memory for its task is reserved, so that a wake takes none.
#[tactic(auto, using(crate::proofs::Memory::sound_grown, crate::proofs::Memory::room_there))]
fn keep(waiting: &mut WaitList, rooms: &mut Rooms, entry: Waiter) -> Result<(), OutOfMemory>
    requires { IsSound waiting.old.waiters rooms.old }
    ensures ok { OnOk result (waiting.new.waiters ≡ kept waiting.old.waiters entry) }
    ensures again { IsWaitingIn waiting.old.waiters entry.serial entry.direction → IsOk result }
    ensures err { OnErr result (waiting.new.waiters ≡ waiting.old.waiters) }
    ensures sound { IsSound waiting.new.waiters rooms.new }
{
    rooms.reserve(entry.direction, waiting.len())?;
    if waiting.renew(entry) {
        return Ok(());
    }
    rooms.reserve_both(waiting.len() + 1)?;
    waiting.join(entry)
}

// Reserves memory for one entry more, and for the task of each entry in each direction. What waits stays.
#[tactic(auto, using(crate::proofs::Memory::sound_grown))]
fn make_room(waiting: &mut WaitList, rooms: &mut Rooms) -> Result<(), OutOfMemory>
    requires { IsSound waiting.old.waiters rooms.old }
    ensures same { waiting.new.waiters ≡ waiting.old.waiters }
    ensures sound { IsSound waiting.new.waiters rooms.new }
    ensures place { OnOk result (0 < waiting.new.spare) }
    ensures room { OnOk result ((d : Direction) → length waiting.new.waiters + 1 ≤ room_of rooms.new d) }
{
    rooms.reserve_both(waiting.len() + 1)?;
    waiting.reserve()
}

// Puts an entry among those that wait, in memory that was reserved.
fn keep_reserved(waiting: &mut WaitList, rooms: &Rooms, entry: Waiter)
    requires sound { IsSound waiting.old.waiters rooms.now }
    requires place { 0 < waiting.old.spare }
    requires room { (d : Direction) → length waiting.old.waiters + 1 ≤ room_of rooms.now d }
    ensures keeps { waiting.new.waiters ≡ kept waiting.old.waiters entry }
    ensures sound { IsSound waiting.new.waiters rooms.now }
{
    if !waiting.renew(entry) {
        waiting.join_reserved(entry);
    }
}
