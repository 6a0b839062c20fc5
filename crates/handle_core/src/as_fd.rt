//! Streams that lend the handle that they are read from, or written to.
ghost use Rattle.std.specs.Prelude.{◌≡◌, ℕ};
ghost use Rattle.std.specs.Borrow.{sem};
ghost use Rattle.std.specs.Io.BufRead.{Rests};

use crate::shared_fd::SharedFdWrapper;

/// What is read from a handle. (monoio: `AsReadFd`)
pub trait AsReadFd {
    // The number of the handle.
    ghost reader: { Self → ℕ };

    /// The handle that it is read from. It stays as it is. (monoio: `AsReadFd::as_reader_fd`)
    fn as_reader_fd(&mut self) -> &SharedFdWrapper
        ensures fd { result.now ≡ reader self.old }
        ensures* stays { sem 𝓛 (Rests Self.row self.entry (λ new. new ≡ self.old)) };
}

/// What is written to a handle. (monoio: `AsWriteFd`)
pub trait AsWriteFd {
    // The number of the handle.
    ghost writer: { Self → ℕ };

    /// The handle that it is written to. It stays as it is. (monoio: `AsWriteFd::as_writer_fd`)
    fn as_writer_fd(&mut self) -> &SharedFdWrapper
        ensures fd { result.now ≡ writer self.old }
        ensures* stays { sem 𝓛 (Rests Self.row self.entry (λ new. new ≡ self.old)) };
}

#[cfg(test)]
mod tests;
