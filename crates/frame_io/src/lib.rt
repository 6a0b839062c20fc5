//! Frames and messages over any stream: pieces of messages on numbered channels.
#![tactic(auto)]

mod channels;
mod decoder;
mod encode;
pub mod fault;
mod header;
mod law;
pub mod limits;
pub mod message;
mod number;
pub mod reader;
pub mod writer;

pub use fault::{BadFrame, FrameFault};
pub use law::{sent_is_received, turns_are_read, written_is_read};
pub use limits::{Limits, MOST_CHANNELS, MOST_IN_MESSAGE, MOST_IN_PIECE};
pub use message::{Message, MessagePoll};
pub use reader::{FrameReader, MOST_OFFSET};
pub use writer::FrameWriter;
