//! That the calls succeed where memory is at hand, and answer as they should in a row; the text of an error.
use super::{HandleTable, OutOfMemory, Released};
use std::test::Fail;

// The handle of every row.
const HANDLE: u64 = 3;

// What a release answered, as a letter.
fn letter(released: Released) -> char {
    match released {
        Released::Held => 'h',
        Released::Last => 'l',
    }
}

// Adds the handle: `u` for its user, `o` for an operation, `r` for an operation by reserved memory.
fn add(table: &mut HandleTable, call: char) -> Result<char, Fail> {
    if table.holders(HANDLE).is_some() {
        return Ok('x');
    }
    match call {
        'u' => table.add_user(HANDLE)?,
        'o' => table.add_op(HANDLE)?,
        _ => {
            table.reserve(2)?;
            if table.spare() > 0 {
                table.add_op_reserved(HANDLE);
            }
        }
    }
    Ok('.')
}

// Makes a call by its letter: `u`, `o` and `r` add; `+` and `-` are a hold and a release of the user, `(` and `)` of an operation; `>`
// hands over. Answers a dot, what a release answered, or `x` where the call's condition doesn't hold.
fn step(table: &mut HandleTable, call: char) -> Result<char, Fail> {
    let Some(held) = table.holders(HANDLE) else {
        return add(table, call);
    };
    match call {
        '+' if held.user < 9 => table.hold(HANDLE),
        '(' if held.operations < 9 => table.hold_op(HANDLE),
        '>' if held.operations > 0 && held.user < 9 => table.hand_over(HANDLE),
        '-' if held.user > 0 => return Ok(letter(table.release(HANDLE))),
        ')' if held.operations > 0 => return Ok(letter(table.release_op(HANDLE))),
        _ => return Ok('x'),
    }
    Ok('.')
}

// Calls in a row, what they answer, and whether the user holds the handle after them.
#[rattlefmt::skip]
const ROWS: [(&str, &str, &str, bool); 6] = [
    ("a handle of the user", "u+--", "..hl", false),
    ("an operation outlives its user", "u(-)", "..hl", false),
    ("its user outlives an operation", "u()", "..h", true),
    ("an operation hands over what it made", "o>", "..", true),
    ("a made handle comes by reserved memory", "r>)-", "..xl", false),
    ("a handle comes again", "u-o)u", ".l.l.", true),
];

#[test]
fn calls_in_a_row_answer_as_they_should(rt: HostRuntime) -> Result<(), Fail> {
    for (name, calls, want, holds) in ROWS {
        let mut table = HandleTable::new(rt.alloc());
        let mut answers = String::new(rt.alloc());
        for call in calls.chars() {
            answers.push(step(&mut table, call)?)?;
        }
        assert_eq!(rt; answers.as_str(), want, "in the row {name:?}");
        assert_eq!(rt; table.user_holds(HANDLE), holds, "in the row {name:?}");
    }
    Ok(())
}

#[test]
fn out_of_memory_prints_its_name(rt: HostRuntime) -> Result<(), Fail> {
    let text = format!(in rt.alloc(); "{OutOfMemory}")?;
    assert_eq!(rt; text.as_str(), "OutOfMemory");
    Ok(())
}
