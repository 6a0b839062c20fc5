//! A connection of the system, and what is known of the bytes that wait to be read.
ghost use Rattle.std.specs.Prelude.{◌≤◌, length, IfOk};

use crate::mio_io::socket::{Refusal, refused_by};
use mio::net::TcpStream;
use ready_driver::Ready;
use std::io::{ErrorKind, Read as _, Write as _};

// What is known of what waits to be read, without a call.
#[derive(Clone, Copy)]
enum Arrivals {
    // No report tells when something comes.
    Untold,
    // Something may be there.
    Open,
    // All that came was read, and a report tells when something comes.
    Drained,
    // Its end, or an error, was reported, and reads see it.
    Ended,
}

impl Arrivals {
    // After a read of so many bytes into so much room: one that came short has read all that was there.
    fn after_read(self, count: usize, room: usize) -> Arrivals {
        match self {
            Arrivals::Open if 0 < count && count < room => Arrivals::Drained,
            other => other,
        }
    }

    // After a report with these bits: what it doesn't say is over stays so.
    fn after_report(self, ready: Ready) -> Arrivals {
        let open = (ready - (Ready::READABLE | Ready::WRITABLE)).is_empty();
        match self {
            Arrivals::Untold => Arrivals::Untold,
            Arrivals::Ended => Arrivals::Ended,
            _ if open => Arrivals::Open,
            _ => Arrivals::Ended,
        }
    }
}

/// A connection. A read that came short has taken all that was there, so the next one would block: it is answered without a call of the
/// system, until a report of the connection comes. (tokio: `PollEvented::poll_read`, which clears the readiness)
#[derive(Drop)]
pub struct Stream {
    pub(super) inner: TcpStream,
    arrivals: Arrivals,
}

impl Stream {
    /// A connection of which no report tells.
    pub fn over(inner: TcpStream) -> Stream {
        Stream {
            inner,
            arrivals: Arrivals::Untold,
        }
    }

    /// From now on reports tell when something comes, or none does.
    pub fn set_told(&mut self, told: bool) {
        self.arrivals = if told {
            Arrivals::Open
        } else {
            Arrivals::Untold
        };
    }

    /// Notes a report.
    pub fn note(&mut self, ready: Ready) {
        self.arrivals = self.arrivals.after_report(ready);
    }

    /// Puts the next bytes at the start of the room, and answers how many. (libc: `recv`)
    pub fn read(&mut self, room: &mut [u8]) -> Result<usize, Refusal>
        ensures { IfOk result (λ n. n ≤ length room.new) }
    {
        if matches!(self.arrivals, Arrivals::Drained) {
            return Err(Refusal::WouldBlock);
        }
        let count = read_from(&self.inner, room)?;
        self.arrivals = self.arrivals.after_read(count, room.len());
        Ok(count)
    }

    /// A look at the next byte would block. (libc: `recv` with `MSG_PEEK`)
    pub fn peek_blocks(&self) -> bool {
        match self.inner.peek(&mut [0; 1]) {
            Ok(_) => false,
            Err(error) => error.kind() == ErrorKind::WouldBlock,
        }
    }

    /// Sends a prefix of the bytes, and answers how many. (libc: `send`)
    pub fn write(&self, bytes: &[u8]) -> Result<usize, Refusal>
        ensures { IfOk result (λ n. n ≤ length bytes.now) }
    {
        write_to(&self.inner, bytes)
    }
}

// Puts the next bytes of a stream at the start of the room, and answers how many.
fn read_from(mut stream: &TcpStream, room: &mut [u8]) -> Result<usize, Refusal>
    ensures { IfOk result (λ n. n ≤ length room.new) }
{
    match stream.read(room) {
        Ok(count) => Ok(count),
        Err(error) => Err(refused_by(&error)),
    }
}

// Sends a prefix of the bytes on a stream, and answers how many.
fn write_to(mut stream: &TcpStream, bytes: &[u8]) -> Result<usize, Refusal>
    ensures { IfOk result (λ n. n ≤ length bytes.now) }
{
    match stream.write(bytes) {
        Ok(count) => Ok(count),
        Err(error) => Err(refused_by(&error)),
    }
}
