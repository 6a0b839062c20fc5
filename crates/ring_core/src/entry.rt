//! The entries of a ring.
ghost use Rattle.std.specs.Prelude.{◌≡◌, ◌<◌};
ghost use Rattle.ring_core.specs.Entry.{target, call_entry, cancel_entry, close_entry, may_link};

use machine::{Call, MOST_HANDLES};

/// The first of the data words that name handles: that of the close of handle 0. Those below it name slots. (not in monoio)
pub const FIRST_CLOSE: u64 = 1 << 63;

/// The first of the four data words that are reserved: they name nothing. (not in monoio)
pub const FIRST_RESERVED: u64 = u64::MAX - 3;

/// The data word of a cancel: a reserved one. (not in monoio)
pub const CANCEL_WORD: u64 = u64::MAX;

/// What a data word names. (not in monoio)
#[derive(Clone, Copy, Debug, PartialEq, Eq)]
pub enum Target {
    /// The slot of this key.
    Slot(usize),
    /// The handle of this number, whose close it is.
    Handle(u64),
    /// Nothing: the word is reserved.
    Reserved(u64),
}

impl Target {
    /// What a data word names. Each word is read by this call alone. (not in monoio)
    pub fn of(word: u64) -> Target
        ensures { result ≡ target word }
    {
        if word < FIRST_CLOSE {
            Target::Slot(word as usize)
        } else if word < FIRST_RESERVED {
            Target::Handle(word - FIRST_CLOSE)
        } else {
            Target::Reserved(word)
        }
    }
}

/// What an entry asks for. (not in monoio)
#[derive(Clone, Copy, Debug, PartialEq, Eq)]
pub enum Body {
    /// The call of an operation.
    Call(Call),
    /// The cancel of what has this data word.
    Cancel(u64),
    /// The close of this handle.
    Close(u64),
}

/// A submission. The ring compares data words alone, and never serials. It is made by `Entry::call`, `Entry::cancel` and
/// `Entry::close`.
/// (io_uring: a submission queue entry)
#[derive(Clone, Copy, Debug, PartialEq, Eq)]
pub struct Entry {
    /// The data word, which the completion carries back: the key of the operation's slot, `CANCEL_WORD`, or `FIRST_CLOSE` plus the
    /// handle.
    pub word: u64,
    /// The operation's number, or the handle's, for those who read the ring and not for the ring itself.
    pub serial: u64,
    /// Whether the call that is taken directly behind it, in the same enter, waits for it. Only a call is linked. (io_uring:
    /// `IOSQE_IO_LINK`)
    pub linked: bool,
    /// What it asks for.
    pub body: Body,
}

impl Entry {
    /// The entry of an operation's call, linked or not: the key of the operation's slot is its word. (not in monoio)
    pub fn call(key: usize, serial: u64, linked: bool, call: Call) -> Entry
        ensures { result ≡ call_entry key serial linked call }
    {
        Entry {
            word: key as u64,
            serial,
            linked,
            body: Body::Call(call),
        }
    }

    /// The entry of a cancel of the operation in the slot of a key. (not in monoio)
    pub fn cancel(key: usize, serial: u64) -> Entry
        ensures { result ≡ cancel_entry key serial }
    {
        Entry {
            word: CANCEL_WORD,
            serial,
            linked: false,
            body: Body::Cancel(key as u64),
        }
    }

    /// The entry of the close of a handle below `MOST_HANDLES`: its word names the handle, so no cancel reaches it. (not in monoio,
    /// where a close takes a slot)
    pub fn close(h: u64) -> Entry
        requires { h < MOST_HANDLES }
        ensures { result ≡ close_entry h }
    {
        Entry {
            word: FIRST_CLOSE + h,
            serial: h,
            linked: false,
            body: Body::Close(h),
        }
    }

    /// Whether it may be pushed: a cancel and a close aren't linked. (not in monoio)
    pub fn may_link(&self) -> bool
        ensures { result ≡ may_link self.now self.now.body }
    {
        match self.body {
            Body::Call(_) => true,
            Body::Cancel(_) | Body::Close(_) => !self.linked,
        }
    }
}

/// An entry that was taken from the queue and isn't finished. (not in monoio)
#[derive(Clone, Copy, Debug, PartialEq, Eq)]
pub struct Flight {
    /// The entry.
    pub entry: Entry,
    /// A cancel that names its data word was taken since.
    pub marked: bool,
    /// It is a call that waits for the linked one directly before it.
    pub bound: bool,
}
