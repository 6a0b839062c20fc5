//! Which handle's reports have which key.

use std::alloc::Global;

// So many keys more than there were are listed at once, at most.
const MOST_NEW: usize = 1024;

/// By key, the handle that was registered with it last. The keys that a driver gives are those of places in a slab, so each is near the
/// others: one that is far above all that are listed isn't. A look-up makes no hash. (not in monoio)
#[derive(Drop)]
pub struct Names {
    handles: Vec<Option<u64>>,
}

impl Names {
    /// No key. It takes no memory. (not in monoio)
    pub fn new(alloc: Global) -> Names {
        Names {
            handles: Vec::new(alloc),
        }
    }

    /// The handle of a key, if one is listed. (not in monoio)
    pub fn get(&self, key: usize) -> Option<u64> {
        self.handles.get(key).copied().flatten()
    }

    /// A handle has this key from now on, and answers whether that is listed: not where the key is far above all others, or memory ran out.
    /// (not in monoio)
    pub fn set(&mut self, key: usize, h: u64) -> bool {
        let len = self.handles.len();
        if key < len {
            self.handles[key] = Some(h);
            return true;
        }
        if key - len >= MOST_NEW || self.handles.resize(key, None).is_err() {
            return false;
        }
        self.handles.push(Some(h)).is_ok()
    }
}
