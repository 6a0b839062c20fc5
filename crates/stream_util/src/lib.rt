//! Streams over streams: copies between them, and streams with a buffer.
#![tactic(auto)]

pub mod buf_reader;
pub mod buf_writer;
pub mod copy;
pub mod duplex;
pub mod prefixed_io;
pub mod splice;
pub mod split;
pub mod zero_copy;

pub use buf_reader::BufReader;
pub use buf_writer::BufWriter;
pub use copy::{Copied, Copy, MOST_HELD};
pub use duplex::Duplex;
pub use prefixed_io::PrefixedReadIo;
pub use splice::{MemPipe, SpliceDestination, SpliceSource};
pub use split::{OwnedReadHalf, OwnedWriteHalf, Pairs, ReuniteError, Shutdown, Split, Splitable};
pub use zero_copy::{MOST_SPLICED, ZeroCopy};
