// The bytes of pieces.
ghost use Rattle.std.specs.Prelude.{◌≡◌, ◌+◌, ◌*◌, ◌/◌, ◌<◌, ◌≤◌, [], ◌∷◌, ◌++◌, length, vec_len, vec_capacity, OnOk, OnErr};
ghost use Rattle.frame_io.specs.Number.{number_in};
ghost use Rattle.frame_io.specs.Piece.{flag_of as flag_is, piece, pieces_of};

use crate::limits::{MOST_IN_MESSAGE, MOST_IN_PIECE};
use rent_buf::OutOfMemory;

// Adds a byte that there is room for.
fn put(buf: &mut Vec<u8>, byte: u8)
    requires { vec_len buf.old < vec_capacity buf.old }
    ensures items { buf.new.items ≡ buf.old.items ++ byte ∷ [] }
    ensures capacity { vec_capacity buf.old ≤ vec_capacity buf.new }
{
    match buf.push(byte) {
        Ok(()) => {}
        Err(_) => {}
    }
}

// Adds bytes that there is room for.
fn put_all(buf: &mut Vec<u8>, bytes: &[u8])
    requires { vec_len buf.old + length bytes.now ≤ vec_capacity buf.old }
    ensures items { buf.new.items ≡ buf.old.items ++ bytes.now }
    ensures capacity { vec_capacity buf.old ≤ vec_capacity buf.new }
{
    match buf.extend_from_slice(bytes) {
        Ok(()) => {}
        Err(_) => {}
    }
}

// The flag of a piece.
fn flag_of(last: bool) -> u8
    ensures { result ≡ flag_is last }
{
    if last { 1 } else { 0 }
}

// Adds a number in so many bytes at most.
#[tactic(auto, using(crate::proofs::Encoded::number_low))]
fn push_number(buf: &mut Vec<u8>, count: u32, n: u32)
    requires room { length buf.old.items + count ≤ vec_capacity buf.old }
    ensures items { buf.new.items ≡ buf.old.items ++ number_in count n }
    ensures capacity { vec_capacity buf.old ≤ vec_capacity buf.new }
{
    if count == 0 {
        return;
    }
    if n < 128 {
        put(buf, n as u8);
        return;
    }
    put(buf, (128 + n % 128) as u8);
    push_number(buf, count - 1, n / 128);
}

// Adds a piece.
#[tactic(auto, using(crate::proofs::Encoded::number_short))]
fn push_piece(buf: &mut Vec<u8>, channel: u32, bytes: &[u8], last: bool)
    requires small { length bytes.now ≤ 65536 }
    requires room { length buf.old.items + length bytes.now + 11 ≤ vec_capacity buf.old }
    ensures items { buf.new.items ≡ buf.old.items ++ piece channel bytes.now last }
    ensures size { length buf.new.items ≤ length buf.old.items + length bytes.now + 11 }
    ensures capacity { vec_capacity buf.old ≤ vec_capacity buf.new }
{
    push_number(buf, 5, channel);
    push_number(buf, 5, bytes.len() as u32);
    put(buf, flag_of(last));
    put_all(buf, bytes);
}

// Adds the pieces of a message.
#[tactic(auto, using(crate::proofs::Encoded::pieces_one))]
fn push_pieces(buf: &mut Vec<u8>, channel: u32, bytes: &[u8])
    requires room { length buf.old.items + length bytes.now + 11 * (length bytes.now / 65536 + 1) ≤ vec_capacity buf.old }
    ensures { buf.new.items ≡ buf.old.items ++ pieces_of channel bytes.now }
{
    if bytes.len() <= MOST_IN_PIECE {
        push_piece(buf, channel, bytes, true);
        return;
    }
    let (first, rest) = bytes.split_at(MOST_IN_PIECE);
    push_piece(buf, channel, first, false);
    push_pieces(buf, channel, rest);
}

// Adds the pieces of a message, or nothing, if memory runs out.
pub(crate) fn append_pieces(
    buf: &mut Vec<u8>,
    channel: u32,
    bytes: &[u8],
) -> Result<(), OutOfMemory>
    requires { length bytes.now ≤ MOST_IN_MESSAGE }
    ensures ok { OnOk result (buf.new.items ≡ buf.old.items ++ pieces_of channel bytes.now) }
    ensures err { OnErr result (buf.new.items ≡ buf.old.items) }
{
    let _ = MOST_IN_MESSAGE;
    buf.reserve(bytes.len() + 11 * (bytes.len() / MOST_IN_PIECE + 1))?;
    push_pieces(buf, channel, bytes);
    Ok(())
}
