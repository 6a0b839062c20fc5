//! The modelled ring: its entries, what is in flight, and the rings in memory.
#![tactic(auto)]

pub mod entry;
pub mod fault_ring;
mod flights;
mod links;
pub mod mem_ring;
mod ranks;
pub mod ring;
pub mod room;

pub use entry::{Body, CANCEL_WORD, Entry, FIRST_CLOSE, FIRST_RESERVED, Flight, Target};
pub use fault_ring::FaultRing;
pub use machine::{
    BROKEN_PIPE, CANCELED, Call, Completion, Event, FILE_TOO_BIG, HandleKind, HandleState, INVALID,
    Input, LAST_ERROR, Look, MOST_ASKED, MOST_FILE, MOST_HANDLES, Messages, Names, Outcome,
    Payloads, Refusal, Reply, Request, SharedFd, Told, Way, World, WorldCall, WorldError,
    append_first, append_first_parts, copy_first, copy_first_parts,
};
pub use mem_ring::{ExecRefusal, MemRing};
pub use ring::{EnterError, Push, Ring};
pub use room::make_room;
