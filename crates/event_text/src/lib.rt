//! The texts of events and of replies: words with one space between them, one text for each value.
#![tactic(auto)]

mod buffer;
mod event;
mod reply;
mod request;
mod text;
mod valid;
mod word;

pub use event::{event_of_line, write_event};
pub use reply::write_reply;
pub use text::{LinesError, read_events, read_external_events, texts_differ};
pub use valid::first_wrong;
pub use word::first_line;
pub use word::hex::{count_bytes, read_bytes};
pub use word::number::{put_number, read_number};
