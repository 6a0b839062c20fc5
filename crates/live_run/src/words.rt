//! The words `run CAP -i`.
ghost use Rattle.std.specs.Prelude.{◌∷◌, [], map, string_bytes};
ghost use Rattle.live_run.specs.Words.{ReadsLiveWord, ReadsLive};

use event_text::read_number;
use session_core::command::MOST_ENTRIES;

/// The capacity of `run CAP -i`, a number from 1 to 4294967295; `None` if the words are no such command. (not in monoio)
pub fn live_of(words: &[String]) -> Option<u32>
    ensures { ReadsLive (map string_bytes words.now) result }
{
    match words {
        [name, capacity, last] => words_of(name.as_str(), capacity.as_str(), last.as_str()),
        _ => None,
    }
}

// The same of three words.
fn words_of(name: &str, capacity: &str, last: &str) -> Option<u32>
    ensures { ReadsLive (name.now ∷ capacity.now ∷ last.now ∷ []) result }
{
    if name == "run" && last == "-i" {
        return capacity_of(capacity.as_bytes());
    }
    None
}

// A capacity: a decimal number from 1 to 4294967295.
fn capacity_of(word: &[u8]) -> Option<u32>
    ensures { ReadsLiveWord word.now result }
{
    match read_number(word) {
        Some(capacity) if 1 <= capacity && capacity <= MOST_ENTRIES => Some(capacity as u32),
        _ => None,
    }
}
