//! Lines of bytes, each of which goes through a pipe in memory as a job, and the lines that are written of them.
#![tactic(auto)]

mod jobs;
mod output;

pub use jobs::run_text;
