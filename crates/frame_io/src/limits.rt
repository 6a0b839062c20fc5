// How much a reader keeps.

/// The most bytes of one piece.
pub const MOST_IN_PIECE: usize = 65536;

/// The most bytes of one message.
pub const MOST_IN_MESSAGE: usize = 1048576;

/// The most channels that are open at once.
pub const MOST_CHANNELS: usize = 256;

/// How many channels a reader keeps open at most, and how many bytes of each (not in monoio).
#[derive(Clone, Copy, Debug)]
pub struct Limits {
    /// The channels.
    pub channels: usize,
    /// The bytes of one channel.
    pub bytes: usize,
}
