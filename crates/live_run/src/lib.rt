//! A run of events whose replies come line by line.
#![tactic(auto)]

mod line;
mod live;
mod words;

pub use live::run_live;
pub use words::live_of;
