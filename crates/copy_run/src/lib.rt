//! A copy of a source to a sink, behind a prefix, by way of streams with buffers.
#![tactic(auto)]

pub mod copying;
mod front;
mod lent;
mod outlet;
mod piece;

pub use copying::{Ending, copy_all};
