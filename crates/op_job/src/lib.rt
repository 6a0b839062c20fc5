//! Operations of a driver, one behind another, as a job of an executor.
#![tactic(auto)]

mod follow;
mod op_job;
mod parks;
mod ready;
mod turns;

pub use follow::{Follow, Next, Once, OpEnd};
pub use op_job::{JobEnd, MOST_ENDS, OpJob};
pub use parks::park;
pub use ready::turn_ready;
pub use turns::{OpExec, abandon_all, turn};
