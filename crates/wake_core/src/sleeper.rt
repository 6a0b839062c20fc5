//! The stages of the thread that drains, falls asleep and is woken.

/// How far the sleeper is in its round. (not in monoio)
#[derive(Clone, Copy, Debug, PartialEq, Eq)]
pub enum SleeperStage {
    /// It runs, and the flag is true.
    Awake,
    /// It drained once in this round. True: that drain gave nothing.
    First(bool),
    /// Its first drain gave nothing, and it made the flag false.
    Cleared,
    /// It drained twice in this round. True: both drains gave nothing, and the flag is false.
    Second(bool),
    /// It sleeps until the token is set, or until it is roused.
    Asleep,
    /// It was woken, and the flag is still false.
    Up,
}
