//! The machine: requests, the handles in memory that their calls move bytes between, events and their replies, and the definitions of what
//! each event does.
#![tactic(auto)]

pub mod completion;
pub mod input;
pub mod ledger;
pub mod messages;
pub mod payloads;
pub mod request;
pub mod world;

pub use completion::Completion;
pub use handle_core::SharedFd;
pub use input::Input;
pub use ledger::{Event, Refusal, Reply};
pub use messages::Messages;
pub use payloads::{Payloads, append_first, append_first_parts, copy_first, copy_first_parts};
pub use request::{CANCELED, Call, LAST_ERROR, MOST_ASKED, Names, Outcome, Request, Told, Way};
pub use world::{
    BROKEN_PIPE, FILE_TOO_BIG, HandleKind, HandleState, INVALID, Look, MOST_FILE, MOST_HANDLES,
    RunError, World, WorldCall, WorldError, close_outcome,
};
