//! The bytes of a prefix as a source.
ghost use Rattle.std.specs.Prelude.{◌≡◌, ◌≤◌, length, take, true};

use rent_buf::ByteList;
use rent_io::{ByteSource, Failed};
use std::marker::Model;

/// Bytes in memory, read from their start. No read of it fails. (not in monoio)
#[derive(Debug, Drop)]
pub(crate) struct Front {
    bytes: ByteList,
    start: usize,
}

impl Model for Front {
    ghost use Rattle.std.specs.Prelude.{◌≤◌, ℕ, List, length, drop};

    ghost Value = { List ℕ };

    ghost view = { λ s. drop s.start s.bytes };

    ghost invariant = { λ s. s.start ≤ length s.bytes };
}

impl Front {
    /// A source of these bytes.
    pub(crate) fn new(bytes: ByteList) -> Front
        ensures { result ≡ bytes }
    {
        Front { bytes, start: 0 }
    }
}

impl ByteSource for Front {
    ghost tells = { true };

    ghost left = { λ s. s };

    ghost faults = { λ s. 0 };

    fn read(&mut self, room: &mut [u8]) -> Result<usize, Failed> {
        let count = room.len().min(self.bytes.len() - self.start);
        let end = self.start + count;
        copy_front(room, &self.bytes.as_slice()[self.start..end]);
        self.start = end;
        Ok(count)
    }
}

// The bytes are at the start of the room.
fn copy_front(room: &mut [u8], bytes: &[u8])
    requires { length bytes.now ≤ length room.old }
    ensures size { length room.new ≡ length room.old }
    ensures value { take (length bytes.now) room.new ≡ bytes.now }
{
    let count = bytes.len();
    room[..count].copy_from_slice(bytes);
}
