//! The calls that are made under the lock. Each is lent the wake state, tests the stage that it finds there, and makes a
//! step where that stage admits it.
//!
//! Across locks nothing is known of the state. So a sender, a sleeper and a handle each keep an end of their own, which says
//! what is due next: a call needs that it is due and moves the end on. No send and no round can leave a call out.

pub(crate) mod handle;
pub(crate) mod sender;
pub(crate) mod sleeper;
