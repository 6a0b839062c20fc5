//! The number of a handle.
ghost use Rattle.std.specs.Prelude.{◌≡◌};

use std::marker::Model;

/// A handle, by its number. (monoio: `SharedFd`, which counts its holders; here a `HandleTable` does)
#[derive(Clone, Copy, Debug, PartialEq, Eq)]
pub struct SharedFd {
    number: u64,
}

impl Model for SharedFd {
    ghost use Rattle.std.specs.Prelude.{ℕ};

    ghost Value = { ℕ };

    ghost view = { λ fd. fd.number };

    ghost inverse = { λ n. record { number = n } };
}

impl SharedFd {
    /// The handle with this number. (monoio: `SharedFd::new`, which counts its user as a holder too)
    pub fn new(h: u64) -> SharedFd
        ensures { result ≡ h }
    {
        SharedFd { number: h }
    }

    /// Its number. (monoio: `raw_fd`)
    pub fn number(&self) -> u64
        ensures { result ≡ self.now }
    {
        self.number
    }
}

/// A handle that a stream lends, by its number. (monoio: `SharedFdWrapper`)
#[derive(Debug, PartialEq, Eq, Drop)]
pub struct SharedFdWrapper {
    fd: SharedFd,
}

impl Model for SharedFdWrapper {
    ghost use Rattle.std.specs.Prelude.{ℕ};

    ghost Value = { ℕ };

    ghost view = { λ w. w.fd };

    ghost inverse = { λ n. record { fd = n } };
}

impl SharedFdWrapper {
    /// Lends this handle. (monoio: `SharedFdWrapper::new`)
    pub fn new(fd: SharedFd) -> SharedFdWrapper
        ensures { result ≡ fd }
    {
        SharedFdWrapper { fd }
    }

    /// The handle. (not in monoio, whose wrapper passes on the calls of its handle)
    pub fn fd(&self) -> SharedFd
        ensures { result ≡ self.now }
    {
        self.fd
    }
}
