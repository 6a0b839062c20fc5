//! A run of a relay: it listens, makes rounds, and counts the connections that were closed.
#![tactic(auto)]

mod lent;
mod plan;
mod run;

pub use lent::NetPlaces;
pub use plan::{MOST_LIMIT, MOST_RELAY_ROUNDS, Plan};
pub use run::{Relayed, make_rounds, relay_all};
