//! What is only for a driver over a ring that fails where it is told to, in tests.
ghost use Rattle.std.specs.Prelude.{◌≡◌, OnOk, OnErr};
ghost use Rattle.uring_driver.specs.Uring.{ring_in};
ghost use Rattle.uring_driver.specs.Finish.{with_ring_in, injected};

use crate::uring::IoUringDriver;
use machine::Completion;
use rent_buf::{IoBufMut, OutOfMemory};
use ring_core::FaultRing;

impl<B: IoBufMut + Drop> IoUringDriver<FaultRing, B> {
    /// Adds a completion behind those that are ready, whatever its word, and changes nothing else. If memory runs out, nothing has
    /// changed. (not in monoio)
    pub fn inject(&mut self, completion: Completion) -> Result<(), OutOfMemory>
        ensures ok { OnOk result (self.new ≡ with_ring_in self.old (injected (ring_in self.old) completion)) }
        ensures err { OnErr result (self.new ≡ self.old) }
    {
        self.ring.inject(completion)
    }
}
