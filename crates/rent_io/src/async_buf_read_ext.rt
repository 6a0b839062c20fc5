// The reads of a buffered stream, as calls of the stream.
ghost use Rattle.std.specs.Prelude.{◌≡◌, [], string_bytes};
ghost use Rattle.rent_io.specs.State.{plain};

use crate::async_buf_read::AsyncBufRead;
use crate::read_line::ReadLine;
use crate::read_until::ReadUntil;
use rent_buf::ByteList;

/// Reads of lines (monoio: `AsyncBufReadExt`). Each answers a state, to be polled with the stream.
pub trait AsyncBufReadExt: AsyncBufRead {
    /// A read that adds the bytes up to and with `delim` to `buf` (monoio: `read_until`).
    fn read_until(&self, delim: u8, buf: ByteList) -> ReadUntil
        ensures { result ≡ plain (record { delim = delim; bytes = buf; added = 0 }) }
    {
        ReadUntil::new(delim, buf)
    }

    /// A read that adds the bytes up to and with a newline to a text (monoio: `read_line`).
    fn read_line(&self, buf: String) -> ReadLine
        ensures { result ≡ plain (record { text = string_bytes buf; added = [] }) }
    {
        ReadLine::new(buf)
    }
}

impl<A: AsyncBufRead> AsyncBufReadExt for A {}
