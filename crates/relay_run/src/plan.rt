//! What a run of a relay is to do.

/// The most connections that a run may have open. (not in monoio)
pub const MOST_LIMIT: u32 = 64;

/// The most rounds of a run. (not in monoio)
pub const MOST_RELAY_ROUNDS: u32 = 1000000;

/// What a run of a relay is to do. (not in monoio)
#[derive(Clone, Copy, Debug, PartialEq, Eq)]
pub struct Plan {
    /// The port that it listens on.
    pub port: u16,
    /// The port that is dialled for the other end of each connection. `None`: what comes goes back.
    pub to: Option<u16>,
    /// How many connections may be open.
    pub limit: u32,
    /// How many rounds it makes.
    pub rounds: u32,
}
