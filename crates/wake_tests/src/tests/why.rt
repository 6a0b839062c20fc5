// How a row of a test ends, and the wakers that rows name.
use std::process::Abort;
use wake_core::{Waker, WakerList};

/// Why a row of a test isn't as it says.
#[derive(Clone, Copy, Debug, PartialEq, Eq)]
pub(crate) enum Why {
    /// Memory ran out.
    OutOfMemory,
    /// The condition of a call isn't met, and the call wasn't made.
    Unmet,
    /// A call answered otherwise than the row says.
    Unlike,
    /// A thread waited for another one longer than a test does.
    Late,
}

/// An answer is like the one that a row says.
pub(crate) fn is_like(like: bool) -> Result<(), Why> {
    if like { Ok(()) } else { Err(Why::Unlike) }
}

/// What another thread does came in time.
pub(crate) fn is_in_time(came: bool) -> Result<(), Why> {
    if came { Ok(()) } else { Err(Why::Late) }
}

/// What is as a test says, in the row of this name. Else the place of the first step that isn't, and why.
pub(crate) fn ended(rt: &impl Abort, name: &str, row: Result<(), (usize, Why)>) {
    assert_eq!(rt; row, Ok(()), "in the row {name:?}");
}

/// A waker as a row writes it: its sender, its number and its task.
pub(crate) type Numbers = (u64, u64, u64);

/// Whether these are the wakers of a row.
pub(crate) fn are_wakers(wakers: &[Waker], want: &[Numbers]) -> bool {
    if wakers.len() != want.len() {
        return false;
    }
    for i in 0..want.len() {
        if i >= wakers.len() || (wakers[i].sender, wakers[i].number, wakers[i].task) != want[i] {
            return false;
        }
    }
    true
}

/// Whether a list has the wakers of a row.
pub(crate) fn are(list: &WakerList, want: &[Numbers]) -> bool {
    are_wakers(list.as_slice(), want)
}
