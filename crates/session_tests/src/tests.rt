// What the program and its sessions do where memory is at hand, and what they end with where a call fails.
mod failing;
mod frames;
mod links;
mod live;
pub(crate) mod program;
mod relays;
mod requests;
mod rows;
mod senders;
mod sessions;
mod standard;
mod tasks;
pub(crate) mod text;
mod usage;
mod words;
