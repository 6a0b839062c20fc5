//! The memory of queues that are to hold more.
ghost use Rattle.std.specs.Prelude.{◌≡◌, ◌≤◌, ◌<◌, OnOk, OnErr};
ghost use Rattle.std.specs.VecDeque.{deque_len, deque_capacity};

use rent_buf::OutOfMemory;
use std::collections::VecDeque;
use std::mem;

/// Takes the memory for a queue of so many elements, those that it has among them. The memory grows as that of a vector does, wherever
/// in it the queue begins: by doubling, so that asking for one more again and again moves the elements seldom, and in place where that
/// can be. If memory runs out, nothing has changed. (not in monoio)
pub fn make_room<T: Drop>(queue: &mut VecDeque<T>, room: usize) -> Result<(), OutOfMemory>
    ensures items { queue.new.items ≡ queue.old.items }
    ensures len { deque_len queue.new ≡ deque_len queue.old }
    ensures capacity { deque_capacity queue.old ≤ deque_capacity queue.new }
    ensures ok { OnOk result (room ≤ deque_capacity queue.new) }
    // Memory runs out only where there was less than that, and stays as it was.
    ensures full { OnErr result (deque_capacity queue.old < room) }
    ensures err { OnErr result (deque_capacity queue.new ≡ deque_capacity queue.old) }
{
    if room <= queue.capacity() {
        return Ok(());
    }
    let none = VecDeque::new(*queue.allocator());
    let mut elements = mem::replace(queue, none).into_vec();
    let grown = elements.reserve(room - elements.len());
    *queue = VecDeque::from_vec(elements);
    grown?;
    Ok(())
}
