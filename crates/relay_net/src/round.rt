//! What a round of a relay came to.
ghost use Rattle.std.specs.Prelude.{◌≡◌, ◌++◌, [], ◌∷◌, ◌↔◌, IsTrue, IfOk, OnOk, OnErr, length};

use rent_buf::{NumList, OutOfMemory};
use std::alloc::Global;
use std::marker::Model;
use thiserror::Error;
use wake_core::Woken;

/// Why a round stopped before its end. The next one goes on. (not in monoio)
#[derive(Clone, Copy, Debug, PartialEq, Eq, Error)]
pub enum RelayError {
    /// The object of the driver failed: its count of faults rose.
    #[error("Fault")]
    Fault,
    /// Memory ran out.
    #[error("OutOfMemory")]
    OutOfMemory,
}

/// A connection that an operation failed of: it is open no more. (not in monoio)
#[derive(Clone, Copy, Debug, PartialEq, Eq)]
pub struct Lost {
    /// Its near handle.
    pub connection: u64,
    /// The error number of the operation.
    pub fault: u16,
    /// How many bytes came at the near handle and weren't sent to the far one.
    pub unsent: u64,
    /// How many came at the far handle and weren't sent to the near one: none where both are the same.
    pub unsent_back: u64,
}

/// Connections that were lost, in order. (not in monoio)
#[derive(Debug, Drop)]
pub struct LostList {
    items: Vec<Lost>,
}

impl Model for LostList {
    ghost use Rattle.std.specs.Prelude.{List};
    ghost use Rattle.relay_net.specs.declared.round.Lost.{Lost};

    ghost Value = { List Lost };

    ghost view = { λ l. l.items.items };
}

impl LostList {
    /// None. It takes no memory before the first one. (not in monoio)
    pub fn new(alloc: Global) -> LostList
        ensures { result ≡ [] }
    {
        LostList {
            items: Vec::new(alloc),
        }
    }

    /// Those of a vector, in its memory. (not in monoio)
    pub fn from_vec(v: Vec<Lost>) -> LostList
        ensures { result ≡ v.items }
    {
        LostList { items: v }
    }

    /// The vector of them, in the list's memory. (not in monoio)
    pub fn into_vec(self) -> Vec<Lost>
        ensures { result.items ≡ self }
    {
        let LostList { items } = self;
        items
    }

    /// They, in order. (not in monoio)
    pub fn as_slice(&self) -> &[Lost]
        ensures { result.now ≡ self.now }
    {
        self.items.as_slice()
    }

    /// How many there are. (not in monoio)
    pub fn len(&self) -> usize
        ensures { result ≡ length self.now }
    {
        self.items.len()
    }

    /// Whether there is none. (not in monoio)
    pub fn is_empty(&self) -> bool
        ensures { IsTrue result ↔ (self.now ≡ []) }
    {
        self.items.is_empty()
    }

    /// One more, behind the others. If memory runs out, nothing changes. (not in monoio)
    pub fn push(&mut self, lost: Lost) -> Result<(), OutOfMemory>
        ensures ok { OnOk result (self.new ≡ self.old ++ lost ∷ []) }
        ensures err { OnErr result (self.new ≡ self.old) }
    {
        self.items.push(lost)?;
        Ok(())
    }

    /// The same in memory of its own. (not in monoio)
    pub fn try_clone(&self) -> Result<LostList, OutOfMemory>
        ensures { IfOk result (λ copy. copy ≡ self.now) }
    {
        let items = Vec::from_slice(*self.items.allocator(), self.items.as_slice())?;
        Ok(LostList { items })
    }
}

/// What a round of a relay did. A connection is named by its near handle. (not in monoio)
#[derive(Debug, Drop)]
pub struct Round {
    /// What its park drained: nothing where it didn't park.
    pub remote: Woken,
    /// The connection that it opened, if it did.
    pub opened: NumList,
    /// The connections whose end came, and that held no byte any more: they are open no more.
    pub closed: NumList,
    /// The error number of an accept that failed, if one did.
    pub accept: Option<u16>,
    /// The connections that an operation failed of.
    pub failed: LostList,
}
