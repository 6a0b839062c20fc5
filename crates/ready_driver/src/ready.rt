//! What a handle is ready for, as a set of bits, and what it is watched for.
ghost use Rattle.std.specs.Prelude.{◌≡◌, ◌≢◌, ◌-◌, ◌==◌, ℕ, false, bit_and, bit_or, max, min};
ghost use Rattle.std.specs.Int.{bit_at};
ghost use Rattle.ready_driver.specs.declared.ready.Direction.{Direction};
ghost use Rattle.ready_driver.specs.Ready.{meets, has_all, without, mask_of};

use std::marker::Model;
use std::ops::{BitAnd, BitOr, BitOrAssign, Sub};

const READABLE: u8 = 1;

const WRITABLE: u8 = 2;

const READ_CLOSED: u8 = 4;

const WRITE_CLOSED: u8 = 8;

const READ_CANCELED: u8 = 16;

const WRITE_CANCELED: u8 = 32;

const READ_ALL: u8 = READABLE | READ_CLOSED | READ_CANCELED;

const WRITE_ALL: u8 = WRITABLE | WRITE_CLOSED | WRITE_CANCELED;

const CANCELED: u8 = READ_CANCELED | WRITE_CANCELED;

/// What a handle is ready for: a set of bits (monoio: `Ready`). A clause sees the bits as a number below 64.
#[derive(Clone, Copy, Debug, PartialEq, Eq)]
pub struct Ready {
    bits: u8,
}

impl Model for Ready {
    ghost use Rattle.std.specs.Prelude.{ℕ, ◌<◌};

    ghost Value = { ℕ };

    ghost view = { λ r. r.bits };

    ghost inverse = { λ bits. record { bits = bits } };

    ghost invariant = { λ r. r.bits < 64 };
}

impl Ready {
    /// No bit (monoio: `Ready::EMPTY`).
    pub const EMPTY: Ready = Ready { bits: 0 };

    /// A read may make progress (monoio: `Ready::READABLE`).
    pub const READABLE: Ready = Ready { bits: READABLE };

    /// A write may make progress (monoio: `Ready::WRITABLE`).
    pub const WRITABLE: Ready = Ready { bits: WRITABLE };

    /// Nothing more will come to read (monoio: `Ready::READ_CLOSED`).
    pub const READ_CLOSED: Ready = Ready { bits: READ_CLOSED };

    /// Nothing more can be written (monoio: `Ready::WRITE_CLOSED`).
    pub const WRITE_CLOSED: Ready = Ready { bits: WRITE_CLOSED };

    /// A read was canceled (monoio: `Ready::READ_CANCELED`).
    pub const READ_CANCELED: Ready = Ready {
        bits: READ_CANCELED,
    };

    /// A write was canceled (monoio: `Ready::WRITE_CANCELED`).
    pub const WRITE_CANCELED: Ready = Ready {
        bits: WRITE_CANCELED,
    };

    /// Every bit on reads (monoio: `Ready::READ_ALL`).
    pub const READ_ALL: Ready = Ready { bits: READ_ALL };

    /// Every bit on writes (monoio: `Ready::WRITE_ALL`).
    pub const WRITE_ALL: Ready = Ready { bits: WRITE_ALL };

    /// Both bits of a cancel (monoio: `Ready::CANCELED`).
    pub const CANCELED: Ready = Ready { bits: CANCELED };

    /// There is no bit (monoio: `Ready::is_empty`).
    pub fn is_empty(self) -> bool
        ensures { result ≡ (self == 0) }
    {
        self.bits == 0
    }

    /// There is a bit on reads (monoio: `Ready::is_readable`).
    pub fn is_readable(self) -> bool
        ensures { result ≡ meets self READ_ALL }
    {
        !(self & Ready::READ_ALL).is_empty()
    }

    /// There is a bit on writes (monoio: `Ready::is_writable`).
    pub fn is_writable(self) -> bool
        ensures { result ≡ meets self WRITE_ALL }
    {
        !(self & Ready::WRITE_ALL).is_empty()
    }

    /// Nothing more will come to read (monoio: `Ready::is_read_closed`).
    pub fn is_read_closed(self) -> bool
        ensures { result ≡ has_all self READ_CLOSED }
    {
        self.contains(Ready::READ_CLOSED)
    }

    /// Nothing more can be written (monoio: `Ready::is_write_closed`).
    pub fn is_write_closed(self) -> bool
        ensures { result ≡ has_all self WRITE_CLOSED }
    {
        self.contains(Ready::WRITE_CLOSED)
    }

    /// There is a bit of a cancel (monoio: `Ready::is_canceled`).
    pub fn is_canceled(self) -> bool
        ensures { result ≡ meets self CANCELED }
    {
        !(self & Ready::CANCELED).is_empty()
    }

    /// Every bit of `other` is here too (monoio: `Ready::contains`).
    pub fn contains(self, other: Ready) -> bool
        ensures { result ≡ has_all self other }
    {
        (self & other).bits == other.bits
    }
}

/// The bits of either.
impl BitOr for Ready {
    type Output = Ready;

    ghost bitor_gives = { λ a b both. both ≡ bit_or a b };

    #[tactic(auto, using(crate::proofs::Bits::union_is_set, std::proofs::lemmas::Nat::Bits::bit_at_or))]
    fn bitor(self, other: Ready) -> Ready
        ensures value { result ≡ bit_or self other }
        // A bit is there if it is on either side.
        ensures each { (k : ℕ) → bit_at result k ≡ max (bit_at self k) (bit_at other k) }
    {
        Ready {
            bits: self.bits | other.bits,
        }
    }
}

/// Adds the bits of `other`.
impl BitOrAssign for Ready {
    ghost bitor_assign_gives = { λ old other new. new ≡ bit_or old other };

    fn bitor_assign(&mut self, other: Ready) {
        *self = *self | other;
    }
}

/// The bits of both.
impl BitAnd for Ready {
    type Output = Ready;

    ghost bitand_gives = { λ a b both. both ≡ bit_and a b };

    #[tactic(auto, using(std::proofs::lemmas::Nat::Bits::bit_at_and))]
    fn bitand(self, other: Ready) -> Ready
        ensures value { result ≡ bit_and self other }
        // A bit is there if it is on both sides.
        ensures each { (k : ℕ) → bit_at result k ≡ min (bit_at self k) (bit_at other k) }
    {
        Ready {
            bits: self.bits & other.bits,
        }
    }
}

/// The bits of the left side that aren't on the right.
impl Sub for Ready {
    type Output = Ready;

    ghost sub_gives = { λ a b rest. rest ≡ without a b };

    #[tactic(auto, using(crate::proofs::Bits::masked_is_without, crate::proofs::Bits::bits_without))]
    fn sub(self, other: Ready) -> Ready
        ensures value { result ≡ without self other }
        // A bit is there if it is on the left side, and not on the right.
        ensures each { (k : ℕ) → bit_at result k ≡ bit_at self k - bit_at other k }
    {
        Ready {
            bits: self.bits & !other.bits,
        }
    }
}

/// What a handle is watched for: reads, writes or both (monoio: `Interest`). A clause sees the bits as a number, 1, 2 or 3.
#[derive(Clone, Copy, Debug, PartialEq, Eq)]
pub struct Interest {
    bits: u8,
}

impl Model for Interest {
    ghost use Rattle.std.specs.Prelude.{ℕ, ◌<◌};

    ghost Value = { ℕ };

    ghost view = { λ i. i.bits };

    ghost inverse = { λ bits. record { bits = bits } };

    ghost invariant = { λ i. (0 < i.bits) × (i.bits < 4) };
}

/// Reads and writes (monoio: `RW_INTERESTS`).
pub const RW_INTERESTS: Interest = Interest { bits: 3 };

impl Interest {
    /// Reads (not in monoio, where it is `mio`'s).
    pub const READABLE: Interest = Interest { bits: 1 };

    /// Writes (not in monoio, where it is `mio`'s).
    pub const WRITABLE: Interest = Interest { bits: 2 };

    /// What either is watched for (monoio: `Interest::add`).
    #[tactic(auto, using(crate::proofs::Bits::union_is_interest))]
    pub fn add(self, other: Interest) -> Interest
        ensures { result ≡ bit_or self other }
    {
        Interest {
            bits: self.bits | other.bits,
        }
    }
}

/// What either is watched for.
impl BitOr for Interest {
    type Output = Interest;

    ghost bitor_gives = { λ a b both. both ≡ bit_or a b };

    fn bitor(self, other: Interest) -> Interest {
        self.add(other)
    }
}

/// Adds what `other` is watched for.
impl BitOrAssign for Interest {
    ghost bitor_assign_gives = { λ old other new. new ≡ bit_or old other };

    fn bitor_assign(&mut self, other: Interest) {
        *self = self.add(other);
    }
}

/// Which way an operation moves bytes (monoio: `Direction`).
#[derive(Clone, Copy, Debug, PartialEq, Eq)]
pub enum Direction {
    /// It reads.
    Read,
    /// It writes.
    Write,
}

impl Direction {
    /// The bits that an operation of this direction waits for (monoio: `Direction::mask`).
    pub fn mask(self) -> Ready
        ensures value { result ≡ mask_of self }
        // The two directions have no bit in common.
        ensures apart { (other : Direction) → other ≢ self → meets (mask_of other) result ≡ false }
    {
        match self {
            Direction::Read => Ready::READ_ALL,
            Direction::Write => Ready::WRITE_ALL,
        }
    }
}
