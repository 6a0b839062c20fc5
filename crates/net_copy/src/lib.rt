//! A copy from one connection to another, through the boxes of both, over the readiness driver: no byte is lost, whatever pauses.
#![tactic(auto)]

mod round;
mod run;

pub use round::{Round, copy_round};
pub use run::{CopyFault, copy};
