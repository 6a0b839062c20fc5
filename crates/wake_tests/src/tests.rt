// What the state, the sleeper, the senders and the handles of `wake_core` do, with the wakers written by hand.
mod cells;
pub(crate) mod parks;
mod state;
pub(crate) mod threads;
pub(crate) mod why;
