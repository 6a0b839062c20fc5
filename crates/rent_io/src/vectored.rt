//! Which part of a vector of buffers one read fills, and one write takes.
ghost use Rattle.std.specs.Prelude.{◌≡◌, ◌≤◌};
ghost use Rattle.rent_buf.specs.Parts.{rooms_of};
ghost use Rattle.rent_io.specs.Reader as read;
ghost use Rattle.rent_io.specs.Writer as write;

use rent_buf::{IoVecBuf, IoVecBufMut};

/// The room, in bytes, of the first part that has any, or 0 (not in monoio).
pub fn first_room<T: IoVecBufMut>(buf: &T) -> usize
    ensures room { result ≡ read.first_room (T.held buf.now) }
    ensures within { result ≤ rooms_of (T.held buf.now) }
{
    buf.keeps_bounds();
    for i in 0..buf.parts_len() {
        let room = buf.room(i);
        if room > 0 {
            return room;
        }
    }
    0
}

/// The bytes of the first part that has any, or none (not in monoio).
pub fn first_part<T: IoVecBuf>(buf: &T) -> &[u8]
    ensures { result.now ≡ write.first_part (T.parts buf.now) }
{
    for i in 0..buf.parts_len() {
        let part = buf.part(i);
        if !part.is_empty() {
            return part;
        }
    }
    &[]
}
