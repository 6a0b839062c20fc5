//! A relay: it accepts connections, and passes bytes between each and its other end, over the readiness driver.
#![tactic(auto)]

mod connection;
mod far;
mod flow;
mod opening;
mod relay;
mod round;
mod state;

pub use far::{Far, MemFar, Mirror, PortFar};
pub use flow::ROOM;
pub use relay::Relay;
pub use round::{Lost, LostList, RelayError, Round};
