// Files that are read and written at a position.
ghost use Rattle.std.specs.Prelude.{◌≡◌, Bool, IsTrue, None};
ghost use Rattle.rent_io.specs.Counts.{AfterCall};
ghost use Rattle.rent_io.specs.FileAt.{FileAt, ReadsAt, WritesAt};
ghost use Rattle.rent_io.specs.Polls.{IsCaused, IsWriteCaused};

use crate::poll::PollBuf;
use rent_buf::{IoBuf, IoBufMut};

/// What is read at a position (monoio: `AsyncReadRentAt`). Each call makes one read at most.
pub trait AsyncReadRentAt {
    /// Whether it tells its bytes.
    ghost tells: { Bool };

    /// Its bytes, where it tells them, and its counts.
    ghost file: { Self → FileAt };

    /// Reads the bytes from `pos` on into a buffer (monoio: `read_at`), at most as many as its range has room for,
    /// and answers their number: 0 only where there is no room, or where no byte is there. No byte of the file
    /// changes.
    fn poll_read_at<T: IoBufMut>(&mut self, buf: T, pos: u64, task: u64) -> PollBuf<T>
        ensures reads { ReadsAt tells (file self.old).bytes pos T.buffer T.under T.beside buf result }
        ensures same { IsTrue tells → (file self.new).bytes ≡ (file self.old).bytes }
        ensures cause { IsCaused task (file self.old).counts (file self.new).counts result }
        ensures counts { AfterCall None (file self.old).counts (file self.new).counts };
}

impl<A: AsyncReadRentAt> AsyncReadRentAt for &mut A {
    ghost tells = { A.tells };

    ghost file = { λ s. A.file s.now };

    fn poll_read_at<T: IoBufMut>(&mut self, buf: T, pos: u64, task: u64) -> PollBuf<T> {
        (**self).poll_read_at(buf, pos, task)
    }
}

/// What is written at a position (monoio: `AsyncWriteRentAt`). Each call makes one write at most.
pub trait AsyncWriteRentAt {
    /// Whether it tells its bytes.
    ghost tells: { Bool };

    /// Its bytes, where it tells them, and its counts.
    ghost file: { Self → FileAt };

    /// Writes the first bytes of a buffer from `pos` on (monoio: `write_at`), and answers their number. If there are some,
    /// bytes that are missing before `pos` are 0 from then on. At `Pending`, `Again` and a fault nothing was written.
    fn poll_write_at<T: IoBuf>(&mut self, buf: T, pos: u64, task: u64) -> PollBuf<T>
        ensures writes { WritesAt tells (file self.old).bytes (file self.new).bytes pos (T.content buf) buf result }
        ensures cause { IsWriteCaused task (file self.old).counts (file self.new).counts result }
        ensures counts { AfterCall None (file self.old).counts (file self.new).counts };
}

impl<A: AsyncWriteRentAt> AsyncWriteRentAt for &mut A {
    ghost tells = { A.tells };

    ghost file = { λ s. A.file s.now };

    fn poll_write_at<T: IoBuf>(&mut self, buf: T, pos: u64, task: u64) -> PollBuf<T> {
        (**self).poll_write_at(buf, pos, task)
    }
}
