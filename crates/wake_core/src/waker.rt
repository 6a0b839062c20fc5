//! Wakers, and lists of them in the order of their pushes.
ghost use Rattle.std.specs.Prelude.{◌≡◌, ◌∷◌, ◌++◌, [], OnOk, OnErr};
ghost use Rattle.wake_core.specs.WakerList.{is_empty};

use crate::fault::OutOfMemory;
use std::marker::Model;

/// What a sender pushes, so that the thread which drains it wakes a task. (monoio: a `Waker` sent to another thread)
#[derive(Clone, Copy, Debug, PartialEq, Eq)]
pub struct Waker {
    /// The number of its sender.
    pub sender: u64,
    /// How many wakers that sender pushed before it.
    pub number: u64,
    /// The task to wake.
    pub task: u64,
}

/// Wakers in order. A contract sees the list of them. (not in monoio)
#[derive(Debug, Drop)]
pub struct WakerList {
    items: Vec<Waker>,
}

impl Model for WakerList {
    ghost use Rattle.std.specs.Prelude.{List};
    ghost use Rattle.wake_core.specs.declared.waker.Waker.{Waker};

    ghost Value = { List Waker };

    ghost view = { λ s. s.items.items };
}

impl WakerList {
    /// The list that owns these wakers. Takes no memory. (not in monoio)
    pub fn from_vec(items: Vec<Waker>) -> WakerList
        ensures { result ≡ items.items }
    {
        WakerList { items }
    }

    /// The vector of the wakers. Takes no memory. (not in monoio)
    pub fn into_vec(self) -> Vec<Waker>
        ensures { result.items ≡ self }
    {
        let WakerList { items } = self;
        items
    }

    // Whether there is no waker.
    pub(crate) fn is_empty(&self) -> bool
        ensures { result ≡ is_empty self.now }
    {
        self.items.is_empty()
    }

    /// The wakers, in order. (not in monoio)
    pub fn as_slice(&self) -> &[Waker]
        ensures { result.now ≡ self.now }
    {
        self.items.as_slice()
    }

    /// Adds a waker at the end. `OutOfMemory` if the vector can't grow: the list is as it was. (not in monoio)
    pub fn push(&mut self, item: Waker) -> Result<(), OutOfMemory>
        ensures ok { OnOk result (self.new ≡ self.old ++ item ∷ []) }
        ensures err { OnErr result (self.new ≡ self.old) }
    {
        self.items.push(item).map_err(|_| OutOfMemory)
    }
}
