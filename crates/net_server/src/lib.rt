//! A server of connections: what a user writes is a state that meets the bytes of one connection.
#![tactic(auto)]

mod closing;
mod driving;
mod fault;
mod lines;
mod net_driver;
mod net_job;
mod places;
mod serve;
mod server;
mod serving;
mod spawning;

pub use driving::{Watch, run, wait_for};
pub use fault::{NetFault, ServerFault};
pub use lines::{Answer, ByLines, Lines};
pub use net_driver::NetDriver;
pub use net_job::{Ended, NetEnd, NetJob};
pub use serve::{Serve, Served};
pub use server::{Limits, Server, Turn};
