// Bits and interests by name, as rows name them.
use ready_driver::{Interest, RW_INTERESTS, Ready};

/// A constant of `Ready`.
pub(crate) enum Bit {
    Empty,
    Readable,
    Writable,
    ReadClosed,
    WriteClosed,
    ReadCanceled,
    WriteCanceled,
    ReadAll,
    WriteAll,
    Canceled,
}

impl Bit {
    /// The constant.
    pub(crate) fn ready(&self) -> Ready {
        match self {
            Bit::Empty => Ready::EMPTY,
            Bit::Readable => Ready::READABLE,
            Bit::Writable => Ready::WRITABLE,
            Bit::ReadClosed => Ready::READ_CLOSED,
            Bit::WriteClosed => Ready::WRITE_CLOSED,
            Bit::ReadCanceled => Ready::READ_CANCELED,
            Bit::WriteCanceled => Ready::WRITE_CANCELED,
            Bit::ReadAll => Ready::READ_ALL,
            Bit::WriteAll => Ready::WRITE_ALL,
            Bit::Canceled => Ready::CANCELED,
        }
    }
}

/// The bits of a list together.
pub(crate) fn union(list: &[Bit]) -> Ready {
    let mut all = Ready::EMPTY;
    for i in 0..list.len() {
        all |= list[i].ready();
    }
    all
}

/// A constant of `Interest`.
pub(crate) enum Watch {
    Reads,
    Writes,
    Both,
}

impl Watch {
    /// The constant.
    pub(crate) fn interest(&self) -> Interest {
        match self {
            Watch::Reads => Interest::READABLE,
            Watch::Writes => Interest::WRITABLE,
            Watch::Both => RW_INTERESTS,
        }
    }
}
