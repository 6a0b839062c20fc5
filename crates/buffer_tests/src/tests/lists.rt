// Lists of bytes, of numbers and of messages, and the texts of errors.
use crate::tests::why::{Why, ended, is_like};
use rent_buf::{BufResult, ByteList, IoFault, MessageList, NumList, OutOfMemory, PartsError};
use std::alloc::Global;

// A list of `abc`, made in two steps.
fn bytes_of(alloc: Global) -> Result<ByteList, Why> {
    let mut bytes = ByteList::new(alloc);
    bytes.push(b'a')?;
    bytes.append(b"bc")?;
    Ok(bytes)
}

// A list has these bytes, and says how many they are.
fn are_bytes(list: &ByteList, want: &[u8]) -> bool {
    list.as_slice() == want && list.len() == want.len()
}

// A copy of a list of bytes is the list, also once it was a vector.
fn is_copied(bytes: &ByteList) -> Result<bool, Why> {
    let copy = bytes.try_clone()?;
    let is_same = copy == *bytes;
    Ok(is_same && ByteList::from_vec(copy.into_vec()) == *bytes)
}

fn of_bytes(alloc: Global) -> Result<(), Why> {
    is_like(ByteList::new(alloc).is_empty())?;
    let bytes = bytes_of(alloc)?;
    is_like(are_bytes(&bytes, b"abc"))?;
    is_like(is_copied(&bytes)?)
}

// A list has these numbers, and says how many they are.
fn are_numbers(list: &NumList, want: &[u64]) -> bool {
    list.as_slice() == want && list.len() == want.len()
}

// Whether lists are equal, and whether they differ.
fn compared(list: &NumList, other: &NumList) -> (bool, bool) {
    (list == other, list != other)
}

fn of_numbers(alloc: Global) -> Result<(), Why> {
    let mut numbers = NumList::new(alloc);
    is_like(numbers.is_empty())?;
    numbers.push(7)?;
    is_like(are_numbers(&numbers, &[7]))?;
    let copy = numbers.try_clone()?;
    is_like(compared(&copy, &numbers) == (true, false))?;
    numbers.push(8)?;
    is_like(compared(&copy, &numbers) == (false, true))?;
    is_like(are_numbers(&NumList::from_vec(copy.into_vec()), &[7]))
}

// The only message of a list is `abc` of this address.
fn is_message(messages: MessageList, want: Option<u64>) -> bool {
    let vec = messages.into_vec();
    let mut count = 0;
    for (addr, bytes) in &vec {
        if *addr != want || bytes.as_slice() != b"abc".as_slice() {
            return false;
        }
        count = 1;
    }
    count == 1 && vec.len() == 1
}

fn of_messages(alloc: Global) -> Result<(), Why> {
    let mut messages = MessageList::new(alloc);
    is_like(messages.is_empty())?;
    messages.push((Some(5), bytes_of(alloc)?))?;
    let copy = messages.try_clone()?;
    messages.push((None, ByteList::new(alloc)))?;
    is_like(messages.len() == 2 && copy.len() == 1)?;
    is_like(is_message(MessageList::from_vec(copy.into_vec()), Some(5)))
}

#[test]
fn lists_grow_and_are_copied(rt: HostRuntime) -> Result<(), OutOfMemory> {
    ended(&rt, "bytes", of_bytes(rt.alloc()));
    ended(&rt, "numbers", of_numbers(rt.alloc()));
    ended(&rt, "messages", of_messages(rt.alloc()));
    Ok(())
}

// An error and its text.
#[rattlefmt::skip]
const TEXTS: &[(IoFault, &str)] = &[
    (IoFault::Os(0), "os error 0"),
    (IoFault::Os(4095), "os error 4095"),
    (IoFault::UnexpectedEof, "failed to fill whole buffer"),
    (IoFault::WriteZero, "failed to write whole buffer"),
    (IoFault::InvalidData, "stream did not contain valid UTF-8"),
    (IoFault::ReadFault, "ReadFault"),
    (IoFault::WriteFault, "WriteFault"),
    (IoFault::OutOfMemory, "OutOfMemory"),
];

// What a transfer that failed answers.
fn failed(fault: IoFault) -> BufResult<usize, ()> {
    (Err(fault), ())
}

#[test]
fn errors_have_texts(rt: HostRuntime) -> Result<(), OutOfMemory> {
    for &(fault, text) in TEXTS {
        assert_eq!(rt; failed(fault).0, Err(fault));
        assert_eq!(rt; format!(in rt.alloc(); "{fault}")?.as_str(), text);
    }
    let (long, out) = (PartsError::TooLong, PartsError::OutOfMemory);
    assert_eq!(rt;
        format!(in rt.alloc(); "{OutOfMemory} {long} {out}")?.as_str(),
        "OutOfMemory TooLong OutOfMemory"
    );
    Ok(())
}
