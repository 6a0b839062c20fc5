//! Events on the completion driver over a ring that fails and is busy where it is told to, and completes what lines say.
#![tactic(auto)]

pub mod answer;
mod input;
pub mod line;
mod output;
pub mod run;
mod session;

pub use answer::{Answer, Halt, Shown};
pub use line::Line;
pub use run::{Ending, faults_of, run_faults};
