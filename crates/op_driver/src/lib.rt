//! The calls on operations that both drivers have, as one trait: so a program is written once, and runs on either.
#![tactic(auto)]

mod legacy;
mod op_driver;
mod uring;

pub use op_driver::OpDriver;
