//! Messages of a source, written as lines to a sink.
#![tactic(auto)]

pub mod framing;
mod hex;
mod lent;
mod lent_sink;
mod line;
mod message_line;
mod output;
mod text;
pub mod unframing;

pub use framing::{Framed, frame_all};
pub use unframing::{Unframed, unframe_all};
