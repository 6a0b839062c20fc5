//! The words of a line, what they write, and what a word of each kind has that it must not have.
ghost use Rattle.std.specs.Prelude.{◌≤◌, length};

use crate::line::Complaint;

/// The words of a line that weren't looked at yet, and how many were.
pub(crate) struct Words<'a> {
    rest: Option<&'a [u8]>,
    count: u64,
}

impl Drop for Words<'_> {
    fn drop(self) {
        let Words { rest: _, count: _ } = self;
    }
}

impl<'a> Words<'a> {
    /// All words of a line: the pieces between its spaces.
    pub(crate) fn of(line: &'a [u8]) -> Words<'a> {
        Words {
            rest: Some(line),
            count: 0,
        }
    }

    /// The next word; a complaint if the line ends before it.
    pub(crate) fn next(&mut self, expected: &'static str) -> Result<&'a [u8], Complaint> {
        self.count = self.count.saturating_add(1);
        let Some(rest) = self.rest else {
            return Err(self.wrong(expected, ", but the line ends before it"));
        };
        let (word, behind) = rest.split_at(place_of_space(rest));
        self.rest = match behind {
            [] => None,
            [_, more @ ..] => Some(more),
        };
        Ok(word)
    }

    /// A complaint of the word that was looked at last.
    pub(crate) fn wrong(&self, expected: &'static str, but: &'static str) -> Complaint {
        self.wrong_before(0, expected, but)
    }

    /// A complaint of the word that was looked at so many words before that.
    pub(crate) fn wrong_before(
        &self,
        back: u64,
        expected: &'static str,
        but: &'static str,
    ) -> Complaint {
        Complaint {
            word: self.count.saturating_sub(back),
            expected,
            but,
        }
    }

    /// A complaint if words are left.
    pub(crate) fn end(&mut self) -> Result<(), Complaint> {
        match self.rest {
            None => Ok(()),
            Some(rest) => {
                self.count = self.count.saturating_add(1);
                let but = if rest.is_empty() {
                    ", but a space stands there"
                } else {
                    ""
                };
                Err(self.wrong("the end of the line", but))
            }
        }
    }

    /// The number that the next word writes, at most this one.
    pub(crate) fn number(&mut self, expected: &'static str, most: u64) -> Result<u64, Complaint> {
        let word = self.next(expected)?;
        match read_number(word) {
            Some(number) if number <= most => Ok(number),
            _ => Err(self.wrong(expected, of_number(word))),
        }
    }

    /// How many bytes the next word writes.
    pub(crate) fn bytes(&mut self, expected: &'static str) -> Result<u64, Complaint> {
        let word = self.next(expected)?;
        match count_bytes(word) {
            Some(count) => Ok(count),
            None => Err(self.wrong(expected, of_bytes(word))),
        }
    }

    /// The next word, which is one of these.
    pub(crate) fn one_of(
        &mut self,
        expected: &'static str,
        choices: &[&str],
    ) -> Result<&'a [u8], Complaint> {
        let word = self.next(expected)?;
        for choice in choices {
            if is_word(word, choice) {
                return Ok(word);
            }
        }
        Err(self.wrong(expected, of_word(word)))
    }
}

/// The number that a word writes: decimal digits with no sign and no leading zero, at most 2^64 - 1.
pub(crate) fn read_number(word: &[u8]) -> Option<u64> {
    if word.is_empty() || !has_digits_alone(word) {
        return None;
    }
    if word[0] == b'0' && word.len() > 1 {
        return None;
    }
    let text = str::from_utf8(word).ok()?;
    text.parse().ok()
}

/// How many bytes a word writes: `-` none, and each pair of the digits `0-9a-f` one.
pub(crate) fn count_bytes(word: &[u8]) -> Option<u64> {
    if is_word(word, "-") {
        return Some(0);
    }
    if word.is_empty() || word.len() % 2 != 0 || !has_hex_digits_alone(word) {
        return None;
    }
    Some((word.len() / 2) as u64)
}

/// A word is this one.
pub(crate) fn is_word(word: &[u8], text: &str) -> bool {
    word == text.as_bytes()
}

// The place of the first space, or the length if there is none.
fn place_of_space(text: &[u8]) -> usize
    ensures { result ≤ length text.now }
{
    for at in 0..text.len() {
        if text[at] == b' ' {
            return at;
        }
    }
    text.len()
}

/// What any word has that none may have.
pub(crate) fn of_word(word: &[u8]) -> &'static str {
    if word.is_empty() {
        return ", but it is empty: words have one space between them";
    }
    if word.starts_with(b"\xef\xbb\xbf") {
        return ", but it begins with a byte-order mark";
    }
    if word[word.len() - 1] == b'\r' {
        return ", but it ends with a carriage return";
    }
    for byte in word {
        if *byte == b'\t' {
            return ", but it has a tab";
        }
        if *byte < 32 || *byte == 127 {
            return ", but it has a control byte";
        }
        if *byte > 127 {
            return ", but it has a byte above 127";
        }
        if byte.is_ascii_uppercase() {
            return ", but it has a capital letter";
        }
    }
    ""
}

// Each byte of a word is a decimal digit.
fn has_digits_alone(word: &[u8]) -> bool {
    word.iter().all(|byte| byte.is_ascii_digit())
}

// Each byte of a word is one of the digits `0-9a-f`.
fn has_hex_digits_alone(word: &[u8]) -> bool {
    word.iter().all(|byte| byte.is_ascii_digit() || (b'a' <= *byte && *byte <= b'f'))
}

/// What a word has that a number of the range that is expected hasn't.
pub(crate) fn of_number(word: &[u8]) -> &'static str {
    let but = of_word(word);
    if !but.is_empty() || word.is_empty() {
        return but;
    }
    if word[0] == b'+' || word[0] == b'-' {
        return ", but it has a sign";
    }
    if !has_digits_alone(word) {
        return ", but it has a byte that is no digit";
    }
    if word[0] == b'0' && word.len() > 1 {
        return ", but it has a leading zero";
    }
    ", but it is greater"
}

/// What a word has that the word of bytes hasn't.
pub(crate) fn of_bytes(word: &[u8]) -> &'static str {
    let but = of_word(word);
    if !but.is_empty() {
        return but;
    }
    for byte in word {
        if !byte.is_ascii_hexdigit() {
            return ", but it has a byte that is no hexadecimal digit";
        }
    }
    ", but it has an odd number of digits"
}
