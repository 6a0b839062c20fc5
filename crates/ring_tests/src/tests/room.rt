// The memory of queues, and bytes that wait.
use crate::tests::stage::{Why, is_like};
use machine::Input;
use rent_buf::OutOfMemory;
use ring_core::make_room;
use std::alloc::Global;
use std::collections::VecDeque;
use std::test::Fail;

// A queue of one element that isn't at the start of its memory.
fn turned(alloc: Global) -> Result<VecDeque<u32>, OutOfMemory> {
    let mut queue = VecDeque::with_capacity(alloc, 4)?;
    queue.push_back(1)?;
    queue.push_back(2)?;
    let _ = queue.pop_front();
    Ok(queue)
}

// Takes memory for so many elements, and answers for how many there is memory then.
fn capacity_for(queue: &mut VecDeque<u32>, room: usize) -> Result<usize, OutOfMemory> {
    make_room(queue, room)?;
    Ok(queue.capacity())
}

// The element at the front, taken off.
fn front(queue: &mut VecDeque<u32>) -> Option<u32> {
    queue.pop_front()
}

// The memory of a queue doubles at least, and its element stays.
fn doubles(queue: &mut VecDeque<u32>) -> Result<(), Why> {
    is_like(capacity_for(queue, 5)? >= 8)?;
    is_like(front(queue) == Some(2))?;
    is_like(capacity_for(queue, 9)? >= 16)
}

#[test]
fn memory_doubles_at_least(rt: HostRuntime) -> Result<(), Fail> {
    let mut queue = turned(rt.alloc())?;
    assert_eq!(rt; doubles(&mut queue), Ok(()));
    Ok(())
}

// Adds bytes behind those that wait.
fn append(input: &mut Input, bytes: &str) -> Result<(), OutOfMemory> {
    input.append(bytes.as_bytes())
}

// Takes the first bytes away, where there are so many.
fn consume(input: &mut Input, count: usize) -> Result<(), Why> {
    if input.len() < count {
        return Err(Why::Unmet);
    }
    input.consume(count);
    Ok(())
}

// So many bytes wait.
fn has(input: &Input, len: usize) -> Result<(), Why> {
    is_like(input.len() == len && input.is_empty() == (len == 0))
}

// These bytes wait.
fn holds(input: &Input, bytes: &str) -> Result<(), Why> {
    is_like(input.as_slice() == bytes.as_bytes())
}

#[test]
fn bytes_come_out_in_order(rt: HostRuntime) -> Result<(), Fail> {
    let mut input = Input::new(rt.alloc());
    append(&mut input, "abcd")?;
    has(&input, 4)?;
    consume(&mut input, 3)?;
    append(&mut input, "ef")?;
    holds(&input, "def")?;
    has(&input, 3)?;
    Ok(())
}
