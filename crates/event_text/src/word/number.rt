//! Numbers, in decimal digits.
ghost use Rattle.std.specs.Prelude.{◌≡◌, ◌++◌, ◌^◌, ◌-◌, ◌/◌, ◌<◌, decimal, IfSome, OnOk, OnErr};
ghost use Rattle.event_text.specs.TextWrites.{Starts};
ghost use Rattle.event_text.specs.TextReads.{number_of, BeginsWithNumber};

use crate::word::{put, put_byte};
use itoa::Buffer;
use rent_buf::OutOfMemory;

// The greatest number without its last digit.
const MOST_TENTH: u64 = 1844674407370955161;

// The last digit of the greatest number.
const MOST_LAST: u64 = 5;

// Behind a number below this any digit may stand.
const SHORT: u64 = 1000000000000000000;

/// The number that a word writes: its decimal digits, with no sign and no leading zero, at most 2^64 - 1; `None` if it writes no
/// such number. (not in monoio)
pub fn read_number(word: &[u8]) -> Option<u64>
    ensures { result ≡ number_of word.now }
{
    if word.is_empty() {
        return None;
    }
    if word.len() > 1 && word[0] == b'0' {
        return None;
    }
    let mut number: u64 = 0;
    for byte in word {
        if *byte < b'0' || b'9' < *byte {
            return None;
        }
        let digit = (*byte - b'0') as u64;
        if most_before(digit) < number {
            return None;
        }
        number = number * 10 + digit;
    }
    Some(number)
}

// The greatest number behind which this digit may stand.
fn most_before(digit: u64) -> u64
    requires { digit < 10 }
    ensures { result ≡ (2 ^ 64 - 1 - digit) / 10 }
{
    if digit > MOST_LAST {
        MOST_TENTH - 1
    } else {
        MOST_TENTH
    }
}

/// The number that the digits in front of a text write, and how many they are, if that is a number of at most 19 digits. (not in monoio)
pub(crate) fn leading_number(text: &[u8]) -> Option<(u64, usize)>
    ensures { IfSome result (λ found. BeginsWithNumber text.now found.0 found.1) }
{
    let mut number: u64 = 0;
    let mut count = 0;
    while count < text.len() && text[count].is_ascii_digit() {
        if number >= SHORT {
            return None;
        }
        number = number * 10 + (text[count] - b'0') as u64;
        count += 1;
    }
    if count == 0 {
        return None;
    }
    if count > 1 && text[0] == b'0' {
        return None;
    }
    Some((number, count))
}

/// Appends a number's decimal digits. If memory runs out, `out` begins as it was. (not in monoio)
pub fn put_number(number: u64, out: &mut Vec<u8>) -> Result<(), OutOfMemory>
    ensures ok { OnOk result (out.new.items ≡ out.old.items ++ decimal number) }
    ensures err { OnErr result (Starts out.old.items out.new.items) }
{
    if number < 10 {
        return put_byte(b'0' + number as u8, out);
    }
    let mut buffer = Buffer::new();
    put(buffer.format(number).as_bytes(), out)
}
