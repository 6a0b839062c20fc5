//! What every driver shares: operations in slots, their numbers and tokens, what calls on them answer, cancel groups, and what is kept
//! by number.
#![tactic(auto)]

pub mod driver;
pub mod members;
pub mod op;
pub mod operations;
pub mod run;
mod slot;
pub mod tokens;

pub use driver::{Driver, Parked};
pub use members::{CancelHandle, Canceller, Members, Place};
pub use op::{Done, Executed, Op, PollOp, Stop, SubmitError, SubmitFault, Submitted, Turned};
pub use operations::{CallAnswer, Calls, MOST_GIVEN, Operations};
pub use run::RunError;
pub use slot::{Slot, is_maker, names_in};
pub use tokens::Tokens;
