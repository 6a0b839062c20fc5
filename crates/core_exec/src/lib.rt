//! The core of an executor: jobs by number, turns that poll those that are ready, and deadlines.
#![tactic(auto)]

mod deadlines;
mod exec;
mod job;
mod numbers;
mod ready;
mod table;
mod turn;
mod visit;

pub use exec::Exec;
pub use job::{Job, JobStep};
pub use table::Task;
pub use turn::Ran;
