//! The completion driver: it keeps a slot for each operation in flight, and a ring's entries mean those slots.
#![tactic(auto)]

mod holding;
mod submissions;
pub mod uring;

pub use driver_core::{
    CancelHandle, Canceller, Done, Driver, Executed, MOST_GIVEN, Op, Parked, PollOp, Stop,
    SubmitError, SubmitFault, Submitted, Turned,
};
pub use uring::IoUringDriver;
