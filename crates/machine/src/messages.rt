//! Messages that wait on a datagram.
ghost use Rattle.std.specs.Prelude.{◌≡◌, [], ◌∷◌, ◌++◌, drop, slice_get, option_map, OnOk, OnErr};

use rent_buf::{ByteList, OutOfMemory};
use std::alloc::Global;
use std::collections::VecDeque;
use std::marker::Model;

/// Messages that wait, oldest first: of each its address and its bytes. Taking one away moves no other. (not in monoio)
#[derive(Debug, Drop)]
pub struct Messages {
    waiting: VecDeque<(u64, ByteList)>,
}

impl Model for Messages {
    ghost use Rattle.std.specs.Prelude.{List, ℕ};

    ghost Value = { List (ℕ × List ℕ) };

    ghost view = { λ m. m.waiting.items };
}

impl Messages {
    /// No messages. It takes no memory.
    pub fn new(alloc: Global) -> Messages
        ensures { result ≡ [] }
    {
        Messages {
            waiting: VecDeque::new(alloc),
        }
    }

    /// The message that waits longest.
    pub fn first(&self) -> Option<&(u64, ByteList)>
        ensures { option_map (λ message. message.now) result ≡ slice_get self.now 0 }
    {
        self.waiting.front()
    }

    /// Adds a message behind those that wait: its address, and a copy of its bytes. If memory runs out, nothing has changed.
    pub fn push(&mut self, addr: u64, bytes: &[u8]) -> Result<(), OutOfMemory>
        ensures ok { OnOk result (self.new ≡ self.old ++ (addr, bytes.now) ∷ []) }
        ensures err { OnErr result (self.new ≡ self.old) }
    {
        let mut copy = ByteList::new(*self.waiting.allocator());
        copy.append(bytes)?;
        self.waiting.push_back((addr, copy))?;
        Ok(())
    }

    /// Takes the message away that waits longest.
    pub fn remove_first(&mut self)
        ensures { self.new ≡ drop 1 self.old }
    {
        let _ = self.waiting.pop_front();
    }
}
