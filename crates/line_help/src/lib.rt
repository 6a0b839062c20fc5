//! What a person needs to know of a line or of a command line that is wrong, and of a read or a write that failed.
#![tactic(auto)]

mod fields;
mod heard;
mod line;
mod usage;

pub use heard::{HeardRead, HeardWrite};
pub use line::{Complaint, explain, explain_fault, line_of};
pub use usage::{UsageError, usage_error};
