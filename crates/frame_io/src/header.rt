// The header of a piece: its channel, its length and its flag.
ghost use Rattle.std.specs.Prelude.{◌≡◌, length};
ghost use Rattle.frame_io.specs.Piece.{header_at, IsHeader};

use crate::fault::BadFrame;
use crate::limits::MOST_IN_PIECE;
use crate::number::{Field, number_of};

// A header.
#[derive(Clone, Copy)]
pub(crate) struct Head {
    // The channel.
    pub(crate) channel: u32,
    // How many bytes the piece has.
    pub(crate) size: usize,
    // Whether it is the last one of its message.
    pub(crate) last: bool,
}

// A piece that is begun.
#[derive(Clone, Copy)]
pub(crate) struct Begun {
    // Its channel.
    pub(crate) channel: u32,
    // Whether it is the last one of its message.
    pub(crate) last: bool,
    // How many of its bytes are to come.
    pub(crate) lacks: usize,
    // How many bytes it has with its header.
    pub(crate) size: u64,
}

// What stands at the front of bytes.
#[derive(Clone, Copy)]
pub(crate) enum Header {
    // A header, and how many bytes it takes.
    Whole(Head, usize),
    // Less than a whole header.
    Cut,
    // What begins no header.
    Bad(BadFrame),
}

// The header that stands at the front of bytes.
#[tactic(auto, using(crate::proofs::Headers::header_within), unfolding(crate::specs::Piece::header_at))]
pub(crate) fn header_of(bytes: &[u8]) -> Header
    ensures value { result ≡ header_at bytes.now }
    ensures within { IsHeader (length bytes.now) result }
{
    let (channel, count) = match number_of(bytes) {
        Field::Whole(channel, count) => (channel, count),
        Field::Cut => return Header::Cut,
        Field::Wrong => return Header::Bad(BadFrame::Number),
    };
    let (_, rest) = bytes.split_at(count);
    let (size, more) = match number_of(rest) {
        Field::Whole(size, more) => (size, more),
        Field::Cut => return Header::Cut,
        Field::Wrong => return Header::Bad(BadFrame::Number),
    };
    if size > MOST_IN_PIECE as u64 {
        return Header::Bad(BadFrame::Large);
    }
    let (_, rest) = rest.split_at(more);
    let Some((flag, _)) = rest.split_first() else {
        return Header::Cut;
    };
    if *flag > 1 {
        return Header::Bad(BadFrame::Flag);
    }
    let head = Head {
        channel: channel as u32,
        size: size as usize,
        last: *flag == 1,
    };
    Header::Whole(head, count + more + 1)
}
