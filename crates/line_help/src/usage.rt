//! What is wrong with the words of a command line that are no command's.
use crate::fields::{count_bytes, read_number};
use std::fmt;
use std::fmt::{Display, Formatter};

/// Why words are no command's. (not in monoio)
#[derive(Clone, Copy, Debug, PartialEq, Eq)]
pub enum UsageError<'a> {
    /// There is none.
    NoCommand,
    /// This one names no command.
    Unknown(&'a str),
    /// This command takes these words, and no others.
    Takes(&'static str, &'static str),
    /// This word of a command, named so, isn't in this range.
    Outside(&'static str, &'static str, &'a str, &'static str),
}

impl Display for UsageError<'_> {
    fn fmt<W: fmt::Write>(&self, f: &mut Formatter<W>) -> fmt::Result {
        match self {
            UsageError::NoCommand => f.write_str("no command is named"),
            UsageError::Unknown(word) => write!(f, "'{word}' is no command"),
            UsageError::Takes(command, words) => write!(f, "{command}: takes {words}"),
            UsageError::Outside(command, name, word, range) => {
                write!(f, "{command}: {name} '{word}' is not {range}")
            }
        }
    }
}

// What a word of a command is to be: a number with its name, its bounds and its range in words; bytes; or what enters of a ring
// do.
#[derive(Clone, Copy)]
enum Param {
    Number(&'static str, u64, u64, &'static str),
    Bytes(&'static str),
    Enters(&'static str),
}

// A command: its name, what it takes in words, its words, and a last one that may be left out.
type Form = (
    &'static str,
    &'static str,
    &'static [Param],
    Option<&'static str>,
);

const FORMS: [Form; 13] = [
    (
        "run",
        "CAP, or CAP -i",
        &[Param::Number("capacity", 1, 4294967295, "a number from 1 to 4294967295")],
        Some("-i"),
    ),
    ("ready", "no further word", &[], None),
    (
        "gen",
        "SEED COUNT, or SEED COUNT --events",
        &[
            Param::Number("seed", 0, 2147483647, "a number from 0 to 2147483647"),
            Param::Number("count", 0, 100000, "a number from 0 to 100000"),
        ],
        Some("--events"),
    ),
    (
        "wake",
        "SENDERS COUNT",
        &[
            Param::Number("number of senders", 0, 64, "a number from 0 to 64"),
            Param::Number("count", 0, 100000, "a number from 0 to 100000"),
        ],
        None,
    ),
    (
        "copy",
        "CAP PREFIXHEX",
        &[
            Param::Number("capacity", 1, 16777216, "a number from 1 to 16777216"),
            Param::Bytes("prefix"),
        ],
        None,
    ),
    (
        "faults",
        "CAP ENTERS",
        &[
            Param::Number("capacity", 1, 4294967295, "a number from 1 to 4294967295"),
            Param::Enters("script"),
        ],
        None,
    ),
    (
        "echo",
        "PORT CONNECTIONS ROUNDS",
        &[
            Param::Number("port", 1, 65535, "a number from 1 to 65535"),
            Param::Number("number of connections", 1, 64, "a number from 1 to 64"),
            Param::Number("number of rounds", 0, 1000000, "a number from 0 to 1000000"),
        ],
        None,
    ),
    (
        "relay",
        "PORT TO CONNECTIONS ROUNDS",
        &[
            Param::Number("port", 1, 65535, "a number from 1 to 65535"),
            Param::Number("other port", 1, 65535, "a number from 1 to 65535"),
            Param::Number("number of connections", 1, 64, "a number from 1 to 64"),
            Param::Number("number of rounds", 0, 1000000, "a number from 0 to 1000000"),
        ],
        None,
    ),
    ("unframe", "no further word", &[], None),
    ("frame", "no further word", &[], None),
    ("tasks", "no further word", &[], None),
    ("--help", "no further word", &[], None),
    ("--version", "no further word", &[], None),
];

/// Why these words are no command's: of words that are one's, that their command takes no others. It takes no memory. (not in monoio)
pub fn usage_error(words: &[String]) -> UsageError<'_> {
    let [name, rest @ ..] = words else {
        return UsageError::NoCommand;
    };
    for form in &FORMS {
        if name.as_str() == form.0 {
            return error_of(*form, rest);
        }
    }
    UsageError::Unknown(name.as_str())
}

// Why the words behind a command's name are none of its.
fn error_of(form: Form, words: &[String]) -> UsageError<'_> {
    let (command, takes, params, last) = form;
    let counts = words.len() == params.len()
        || (words.len() == params.len() + 1 && is_last(words, last));
    if !counts {
        return UsageError::Takes(command, takes);
    }
    for (param, word) in params.iter().zip(words) {
        if let Some(error) = error_of_word(command, *param, word.as_str()) {
            return error;
        }
    }
    UsageError::Takes(command, takes)
}

// The last word is the one that may be left out.
fn is_last(words: &[String], last: Option<&str>) -> bool {
    match (words.last(), last) {
        (Some(word), Some(last)) => word.as_str() == last,
        _ => false,
    }
}

// Why a word isn't what it is to be.
fn error_of_word<'a>(command: &'static str, param: Param, word: &'a str) -> Option<UsageError<'a>> {
    match param {
        Param::Number(name, least, most, range) => match read_number(word.as_bytes()) {
            Some(number) if least <= number && number <= most => None,
            _ => Some(UsageError::Outside(command, name, word, range)),
        },
        Param::Bytes(name) => match count_bytes(word.as_bytes()) {
            Some(_) => None,
            None => Some(UsageError::Outside(
                command,
                name,
                word,
                "pairs of the digits 0-9a-f, or - for no bytes",
            )),
        },
        Param::Enters(name) => {
            if is_script(word.as_bytes()) {
                return None;
            }
            Some(UsageError::Outside(command, name, word, "letters f, b or -, one for each enter"))
        }
    }
}

// Each byte is a letter of a script, and there is one.
fn is_script(word: &[u8]) -> bool {
    for letter in word {
        if *letter != b'f' && *letter != b'b' && *letter != b'-' {
            return false;
        }
    }
    !word.is_empty()
}
