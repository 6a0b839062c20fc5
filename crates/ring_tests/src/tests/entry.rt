// Data words, the entries that calls make, and the texts of errors.
use machine::{Call, MOST_HANDLES, WorldError};
use ring_core::{Body, CANCEL_WORD, EnterError, Entry, ExecRefusal, Target};
use std::test::Fail;

// Data words, and what they name. The fourth is that of the close of the handle 9.
#[rattlefmt::skip]
const WORDS: [(u64, Target); 7] = [
    (0, Target::Slot(0)),
    (9223372036854775807, Target::Slot(9223372036854775807)),
    (9223372036854775808, Target::Handle(0)),
    (9223372036854775817, Target::Handle(9)),
    (18446744073709551611, Target::Handle(9223372036854775803)),
    (18446744073709551612, Target::Reserved(18446744073709551612)),
    (CANCEL_WORD, Target::Reserved(18446744073709551615)),
];

// What a data word names.
fn target_of(word: u64) -> Target {
    Target::of(word)
}

#[test]
fn a_word_names_a_slot_a_handle_or_nothing(rt: HostRuntime) {
    for (word, target) in WORDS {
        assert_eq!(rt; target_of(word), target, "the word {word}");
    }
}

// What makes an entry.
#[derive(Clone, Copy)]
enum Makes {
    // The call of the operation of a serial in the slot of a key.
    Call(usize, u64, Call),
    // The cancel of what is in the slot of a key.
    Cancel(usize, u64),
    // The close of a handle.
    Close(u64),
}

// A receive of four bytes.
const CALL: Call = Call::In { h: 3, ask: 4 };

// How an entry is made, and the entry.
#[rattlefmt::skip]
const ENTRIES: [(Makes, Entry); 3] = [
    (Makes::Call(5, 7, CALL), Entry { word: 5, serial: 7, linked: false, body: Body::Call(CALL) }),
    (Makes::Cancel(5, 7), Entry { word: CANCEL_WORD, serial: 7, linked: false, body: Body::Cancel(5) }),
    (Makes::Close(9), Entry { word: 9223372036854775817, serial: 9, linked: false, body: Body::Close(9) }),
];

// Makes an entry; None where its condition isn't met.
fn make(makes: Makes) -> Option<Entry> {
    match makes {
        Makes::Call(key, serial, call) => Some(Entry::call(key, serial, false, call)),
        Makes::Cancel(key, serial) => Some(Entry::cancel(key, serial)),
        Makes::Close(h) if h < MOST_HANDLES => Some(Entry::close(h)),
        Makes::Close(_) => None,
    }
}

#[test]
fn an_entry_has_the_word_of_its_sort(rt: HostRuntime) {
    for (makes, want) in ENTRIES {
        assert_eq!(rt; make(makes), Some(want), "with the word {}", want.word);
    }
}

#[test]
fn an_error_prints_its_name(rt: HostRuntime) -> Result<(), Fail> {
    assert_eq!(rt;
        format!(in rt.alloc(); "{}", EnterError::Busy)?.as_str(),
        "Busy"
    );
    assert_eq!(rt;
        format!(in rt.alloc(); "{}", ExecRefusal::BadOutcome)?.as_str(),
        "BadOutcome"
    );
    assert_eq!(rt;
        format!(in rt.alloc(); "{}", WorldError::OutOfMemory)?.as_str(),
        "OutOfMemory"
    );
    Ok(())
}
