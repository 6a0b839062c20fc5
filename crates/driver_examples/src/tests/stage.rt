// What tests do with a driver: each call here makes one call of the driver, and answers plain values. An operation is named by how many
// were submitted before it.
use crate::tests::asks::{Ask, Why};
use handle_core::Released;
use machine::Outcome;
use rent_buf::NumList;
use std::rt::Clock;
use std::sync::Wait;
use std::sync::ledger::Ledger;
use uring_driver::{Parked, SubmitFault, Turned};
use wake_core::Sleeper;

/// What became of a submission.
#[derive(Clone, Copy, PartialEq, Eq)]
pub(crate) enum Submits {
    /// It is done.
    Done,
    /// The request came back, since its group is canceled.
    Canceled,
    /// The request came back for this.
    Refused(SubmitFault),
    /// The request came back, and not as it was.
    Unlike,
    /// The driver doesn't take it: the condition of a submission isn't met.
    Unmet,
}

/// What became of a poll.
#[derive(Clone, Copy, PartialEq, Eq)]
pub(crate) enum Polls {
    /// The operation is pending.
    Pending,
    /// It ended so, and its request holds what a test expects.
    Ready(Outcome),
    /// It ended, and its request holds something else.
    Unlike,
}

/// A driver with the tokens of its operations. `Unmet` comes where the condition of a call isn't met, and then the call isn't made.
pub(crate) trait Stage {
    /// Submits a request, under the last group that was made or under none, and linked or not.
    fn submit(&mut self, ask: Ask, under: bool, linked: bool) -> Result<Submits, Why>;

    /// Whether the last group that was made is canceled.
    fn canceled(&self) -> Result<bool, Why>;

    /// Makes a group, whose canceller is kept.
    fn make_group(&mut self) -> Result<(), Why>;

    /// Cancels the group whose canceller is kept, and answers the members that it had.
    fn cancel_all(&mut self) -> Result<NumList, Why>;

    /// Polls an operation for a task. Its request is to hold these bytes, in one buffer or in parts.
    fn poll(&mut self, n: usize, task: u64, held: &[&str]) -> Result<Polls, Why>;

    /// Drops an operation.
    fn drop_op(&mut self, n: usize) -> Result<(), Why>;

    /// Asks for the cancel of an operation.
    fn cancel(&mut self, n: usize) -> Result<(), Why>;

    /// The user holds a handle that isn't known.
    fn adopt(&mut self, h: u64) -> Result<(), Why>;

    /// The user holds a handle once more.
    fn hold(&mut self, h: u64) -> Result<(), Why>;

    /// The user drops a hold of a handle.
    fn release(&mut self, h: u64) -> Result<Released, Why>;

    /// The user gives a handle up.
    fn close(&mut self, h: u64) -> Result<Released, Why>;

    /// A turn.
    fn turn(&mut self) -> Turned;

    /// Two turns, by the program over any driver.
    fn turn_twice(&mut self) -> bool;

    /// A park, with a limit in milliseconds or without one.
    fn park<P: Ledger, D: Ledger, T: Wait + Clock>(
        &mut self,
        rt: &T,
        sleeper: &mut Sleeper<P, D>,
        limit: Option<u64>,
    ) -> Parked;

    /// Whether it asks before each call whether the call would block.
    fn is_legacy(&self) -> bool;

    /// Whether the user holds a handle, it is known, and it is closing.
    fn handle(&self, h: u64) -> (bool, bool, bool);

    /// How many operations were submitted, and groups made.
    fn made(&self) -> (u64, u64);

    /// How many slots are live, entries queued, entries due, and completions ready.
    fn has(&self) -> (usize, u32, usize, usize);
}
