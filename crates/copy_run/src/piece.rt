//! Bytes that are buffered, as a stream.
ghost use Rattle.std.specs.Prelude.{◌≡◌, true};
ghost use Rattle.copy_run.specs.Pieces.{PausesAtEnd, piece_reader};

use rent_buf::{IoBufMut, IoVecBufMut};
use rent_io::vectored::first_room;
use rent_io::{AsyncReadRent, PollBuf};

/// Bytes of a slice as a stream, behind which more may come: where none is left it pauses. (not in monoio)
#[derive(Drop)]
pub(crate) struct Piece<'a> {
    bytes: &'a [u8],
    // The task of the last poll, if that found none, or 0.
    waiter: u64,
    ghost paused: { PausesAtEnd bytes.now waiter },
}

impl<'a> Piece<'a> {
    /// A stream of these bytes.
    pub(crate) fn new(bytes: &'a [u8]) -> Piece<'a>
        ensures { result.bytes.now ≡ bytes.now }
    {
        Piece { bytes, waiter: 0 }
    }

    /// The bytes that are left.
    pub(crate) fn left(&self) -> &[u8]
        ensures { result.now ≡ self.now.bytes.now }
    {
        self.bytes
    }
}

impl<'a> AsyncReadRent for Piece<'a> {
    ghost tells = { true };

    ghost reader = { λ s. piece_reader s.bytes.now s.waiter };

    fn poll_read<T: IoBufMut>(&mut self, buf: T, task: u64) -> PollBuf<T> {
        if self.bytes.is_empty() && buf.bytes_total() > 0 {
            self.waiter = task;
            return PollBuf::Pending(buf);
        }
        self.waiter = 0;
        self.bytes.poll_read(buf, task)
    }

    fn poll_readv<T: IoVecBufMut>(&mut self, buf: T, task: u64) -> PollBuf<T> {
        if self.bytes.is_empty() && first_room(&buf) > 0 {
            self.waiter = task;
            return PollBuf::Pending(buf);
        }
        self.waiter = 0;
        self.bytes.poll_readv(buf, task)
    }
}
