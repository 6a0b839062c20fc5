//! Lists of bytes, of numbers and of messages, which a contract sees as lists.
ghost use Rattle.std.specs.Prelude.{◌≡◌, ◌≤◌, [], ◌∷◌, ◌++◌, ◌↔◌, nat_eq, length, take, IsTrue, IfOk, OnOk, OnErr};
ghost use Rattle.std.specs.Cmp.Lexicographic.{pointwise, nat_list_eq_equiv};
ghost use Rattle.std.specs.Cmp.{partial_equiv_from_equiv};

use crate::fault::OutOfMemory;
use std::alloc::Global;
use std::marker::Model;
use std::ops::DerefSlice;

/// A list of bytes (not in monoio). It owns a vector, which keeps its allocator.
#[derive(Debug, Drop)]
pub struct ByteList {
    items: Vec<u8>,
}

impl Model for ByteList {
    ghost use Rattle.std.specs.Prelude.{List, ℕ};

    ghost Value = { List ℕ };

    ghost view = { λ l. l.items.items };
}

impl ByteList {
    /// No bytes (not in monoio). It takes no memory before the first byte.
    pub fn new(alloc: Global) -> Self
        ensures { result ≡ [] }
    {
        ByteList {
            items: Vec::new(alloc),
        }
    }

    /// The bytes of a vector, in its memory (not in monoio).
    pub fn from_vec(v: Vec<u8>) -> Self
        ensures { result ≡ v.items }
    {
        ByteList { items: v }
    }

    /// The vector of the bytes, in the list's memory (not in monoio).
    pub fn into_vec(self) -> Vec<u8>
        ensures { result.items ≡ self }
    {
        let ByteList { items } = self;
        items
    }

    /// The bytes (not in monoio).
    pub fn as_slice(&self) -> &[u8]
        ensures { result.now ≡ self.now }
    {
        self.items.as_slice()
    }

    /// The number of bytes (not in monoio).
    pub fn len(&self) -> usize
        ensures { result ≡ length self.now }
    {
        self.items.len()
    }

    /// Whether there is no byte (not in monoio).
    pub fn is_empty(&self) -> bool
        ensures { IsTrue result ↔ (self.now ≡ []) }
    {
        self.items.is_empty()
    }

    /// Adds a byte at the end (not in monoio). If memory runs out, the list stays, and the byte is
    /// dropped.
    pub fn push(&mut self, byte: u8) -> Result<(), OutOfMemory>
        ensures ok { OnOk result (self.new ≡ self.old ++ byte ∷ []) }
        ensures err { OnErr result (self.new ≡ self.old) }
    {
        self.items.push(byte)?;
        Ok(())
    }

    /// Adds bytes at the end (not in monoio). If memory runs out, the list stays.
    pub fn append(&mut self, bytes: &[u8]) -> Result<(), OutOfMemory>
        ensures ok { OnOk result (self.new ≡ self.old ++ bytes.now) }
        ensures err { OnErr result (self.new ≡ self.old) }
    {
        self.items.extend_from_slice(bytes)?;
        Ok(())
    }

    /// Keeps the first `len` bytes, or all where there are fewer (not in monoio). It takes no memory.
    pub fn truncate(&mut self, len: usize)
        ensures { self.new ≡ take len self.old }
    {
        self.items.truncate(len);
    }

    /// A list of the same bytes in memory of its own (not in monoio), or `OutOfMemory`.
    pub fn try_clone(&self) -> Result<Self, OutOfMemory>
        ensures { IfOk result (λ copy. copy ≡ self.now) }
    {
        self.try_clone_with_capacity(self.items.len())
    }

    // A copy with room for so many bytes, which is reserved once.
    pub(crate) fn try_clone_with_capacity(&self, capacity: usize) -> Result<Self, OutOfMemory>
        requires { length self.now ≤ capacity }
        ensures { IfOk result (λ copy. copy ≡ self.now) }
    {
        let mut items = Vec::with_capacity(*self.items.allocator(), capacity)?;
        items.extend_from_slice(self.items.as_slice())?;
        Ok(ByteList { items })
    }
}

impl DerefSlice for ByteList {
    type Elem = u8;

    ghost deref_gives = { λ l bytes. bytes ≡ l };

    fn deref(&self) -> &[u8]
        ensures { result.now ≡ self.now }
    {
        self.items.as_slice()
    }
}

impl PartialEq for ByteList {
    ghost eq = { pointwise nat_eq };

    ghost laws = { partial_equiv_from_equiv nat_list_eq_equiv };

    fn eq(&self, other: &Self) -> bool {
        self.as_slice() == other.as_slice()
    }
}

impl Eq for ByteList {
    ghost laws = { nat_list_eq_equiv };
}

/// A list of numbers (not in monoio). It owns a vector, which keeps its allocator.
#[derive(Debug, Drop)]
pub struct NumList {
    items: Vec<u64>,
}

impl Model for NumList {
    ghost use Rattle.std.specs.Prelude.{List, ℕ};

    ghost Value = { List ℕ };

    ghost view = { λ l. l.items.items };
}

impl NumList {
    /// No numbers (not in monoio). It takes no memory before the first number.
    pub fn new(alloc: Global) -> Self
        ensures { result ≡ [] }
    {
        NumList {
            items: Vec::new(alloc),
        }
    }

    /// The numbers of a vector, in its memory (not in monoio).
    pub fn from_vec(v: Vec<u64>) -> Self
        ensures { result ≡ v.items }
    {
        NumList { items: v }
    }

    /// The vector of the numbers, in the list's memory (not in monoio).
    pub fn into_vec(self) -> Vec<u64>
        ensures { result.items ≡ self }
    {
        let NumList { items } = self;
        items
    }

    /// The numbers (not in monoio).
    pub fn as_slice(&self) -> &[u64]
        ensures { result.now ≡ self.now }
    {
        self.items.as_slice()
    }

    /// How many numbers there are (not in monoio).
    pub fn len(&self) -> usize
        ensures { result ≡ length self.now }
    {
        self.items.len()
    }

    /// Whether there is no number (not in monoio).
    pub fn is_empty(&self) -> bool
        ensures { IsTrue result ↔ (self.now ≡ []) }
    {
        self.items.is_empty()
    }

    /// Adds a number at the end (not in monoio). If memory runs out, the list stays, and the number
    /// is dropped.
    pub fn push(&mut self, number: u64) -> Result<(), OutOfMemory>
        ensures ok { OnOk result (self.new ≡ self.old ++ number ∷ []) }
        ensures err { OnErr result (self.new ≡ self.old) }
    {
        self.items.push(number)?;
        Ok(())
    }

    /// A list of the same numbers in memory of its own (not in monoio), or `OutOfMemory`.
    pub fn try_clone(&self) -> Result<Self, OutOfMemory>
        ensures { IfOk result (λ copy. copy ≡ self.now) }
    {
        let items = Vec::from_slice(*self.items.allocator(), self.items.as_slice())?;
        Ok(NumList { items })
    }
}

impl PartialEq for NumList {
    ghost eq = { pointwise nat_eq };

    ghost laws = { partial_equiv_from_equiv nat_list_eq_equiv };

    fn eq(&self, other: &Self) -> bool {
        self.as_slice() == other.as_slice()
    }
}

impl Eq for NumList {
    ghost laws = { nat_list_eq_equiv };
}

/// A list of messages (not in monoio): of each the address, where it has one, and its bytes. It owns a
/// vector, which keeps its allocator.
#[derive(Debug, Drop)]
pub struct MessageList {
    items: Vec<(Option<u64>, ByteList)>,
}

impl Model for MessageList {
    ghost use Rattle.std.specs.Prelude.{List, ℕ, Option};

    ghost Value = { List (Option ℕ × List ℕ) };

    ghost view = { λ l. l.items.items };
}

impl MessageList {
    /// No messages (not in monoio). It takes no memory before the first message.
    pub fn new(alloc: Global) -> Self
        ensures { result ≡ [] }
    {
        MessageList {
            items: Vec::new(alloc),
        }
    }

    /// The messages of a vector, in its memory (not in monoio).
    pub fn from_vec(v: Vec<(Option<u64>, ByteList)>) -> Self
        ensures { result ≡ v.items }
    {
        MessageList { items: v }
    }

    /// The vector of the messages, in the list's memory (not in monoio).
    pub fn into_vec(self) -> Vec<(Option<u64>, ByteList)>
        ensures { result.items ≡ self }
    {
        let MessageList { items } = self;
        items
    }

    /// The messages (not in monoio).
    pub fn as_slice(&self) -> &[(Option<u64>, ByteList)]
        ensures { result.now ≡ self.now }
    {
        self.items.as_slice()
    }

    /// How many messages there are (not in monoio).
    pub fn len(&self) -> usize
        ensures { result ≡ length self.now }
    {
        self.items.len()
    }

    /// Whether there is no message (not in monoio).
    pub fn is_empty(&self) -> bool
        ensures { IsTrue result ↔ (self.now ≡ []) }
    {
        self.items.is_empty()
    }

    /// Adds a message at the end (not in monoio): its address, where it has one, and its bytes. If
    /// memory runs out, the list stays, and the message is dropped.
    pub fn push(&mut self, message: (Option<u64>, ByteList)) -> Result<(), OutOfMemory>
        ensures ok { OnOk result (self.new ≡ self.old ++ message ∷ []) }
        ensures err { OnErr result (self.new ≡ self.old) }
    {
        self.items.push(message)?;
        Ok(())
    }

    /// A list of the same messages in memory of its own (not in monoio), or `OutOfMemory`.
    pub fn try_clone(&self) -> Result<Self, OutOfMemory>
        ensures { IfOk result (λ copy. copy ≡ self.now) }
    {
        let mut items = Vec::with_capacity(*self.items.allocator(), self.items.len())?;
        for (addr, bytes) in &self.items {
            items.push((*addr, bytes.try_clone()?))?;
        }
        Ok(MessageList { items })
    }
}
