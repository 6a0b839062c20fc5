// The word of some bytes, in lower-case hexadecimal digits.
ghost use Rattle.std.specs.Prelude.{◌≡◌, ◌<◌, ◌≤◌, ◌+◌, ◌*◌, ◌++◌, length, OnOk, vec_capacity, vec_len};
ghost use Rattle.event_text.specs.TextWords.{bytes_word, hex, hex_digit};

use rent_buf::OutOfMemory;

// How many bytes a block has. All bytes of a block are treated alike, and by comparing instead of by table, so that the compiler makes
// vector instructions of it.
const BLOCK: usize = 16;

// How many digits write a block.
const BLOCK_DIGITS: usize = 2 * BLOCK;

/// Appends bytes.
pub(crate) fn put(bytes: &[u8], out: &mut Vec<u8>) -> Result<(), OutOfMemory>
    ensures { OnOk result (out.new.items ≡ out.old.items ++ bytes.now) }
{
    out.extend_from_slice(bytes)?;
    Ok(())
}

/// Appends the word of some bytes: `-` if there are none. Memory is taken once.
pub(crate) fn put_bytes(bytes: &[u8], out: &mut Vec<u8>) -> Result<(), OutOfMemory>
    ensures { OnOk result (out.new.items ≡ out.old.items ++ bytes_word bytes.now) }
{
    if bytes.is_empty() {
        return put(b"-", out);
    }
    out.reserve(bytes.len() * 2)?;
    let mut rest = bytes;
    while rest.len() >= BLOCK {
        let (block, more) = rest.split_at(BLOCK);
        out.extend_from_slice(&hex_block(block))?;
        rest = more;
    }
    put_pairs(rest, out);
    Ok(())
}

// The digits of a block of bytes.
fn hex_block(bytes: &[u8]) -> [u8; BLOCK_DIGITS]
    requires { length bytes.now ≡ BLOCK }
    ensures written { result ≡ hex bytes.now }
    ensures long { length result ≡ BLOCK_DIGITS }
{
    let mut block = [0; BLOCK_DIGITS];
    for at in 0..BLOCK {
        block[2 * at] = digit_of(bytes[at] / 16);
        block[2 * at + 1] = digit_of(bytes[at] % 16);
    }
    block
}

// Appends the digits of bytes, to a list that has room for them.
fn put_pairs(bytes: &[u8], out: &mut Vec<u8>)
    requires { vec_len out.old + length bytes.now * 2 ≤ vec_capacity out.old }
    ensures { out.new.items ≡ out.old.items ++ hex bytes.now }
{
    for byte in bytes {
        out.push_reserved(digit_of(*byte / 16));
        out.push_reserved(digit_of(*byte % 16));
    }
}

// The digit of a value.
fn digit_of(value: u8) -> u8
    requires { value < 16 }
    ensures { result ≡ hex_digit value }
{
    if value < 10 {
        b'0' + value
    } else {
        b'a' - 10 + value
    }
}
