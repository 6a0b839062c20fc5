//! A job that sends bytes into a pipe and receives them again, over the readiness driver.
#![tactic(auto)]

mod course;
mod parks;
mod pipe_job;
mod step;
mod turns;

pub use parks::park;
pub use pipe_job::PipeJob;
pub use step::NOT_HELD;
pub use turns::{PipeExec, abandon_all, turn};
