//! The end of a driver: its ring comes back once nothing is left to do.
ghost use Rattle.std.specs.Prelude.{◌≡◌, ◌↔◌, IsTrue, IsOk, IfOk, IfErr};
ghost use Rattle.uring_driver.specs.Uring.{ring_in};
ghost use Rattle.uring_driver.specs.Finish.{HasNothingLeft};

use crate::uring::IoUringDriver;
use rent_buf::IoBufMut;
use ring_core::Ring;

impl<R: Ring, B: IoBufMut + Drop> IoUringDriver<R, B> {
    /// Ends the driver, and returns its ring. The driver comes back, as it was, exactly if something is left to do: an operation has a
    /// slot, a handle is closing, or an entry is queued or due. Handles that the user holds need no release. It takes no memory.
    /// (not in monoio)
    pub fn finish(self) -> Result<R, Self>
        ensures exact { IsOk result ↔ HasNothingLeft R.view self }
        ensures ok { IfOk result (λ ring. ring ≡ ring_in self) }
        ensures err { IfErr result (λ driver. driver ≡ self) }
    {
        if !self.has_nothing_left() {
            return Err(self);
        }
        let IoUringDriver {
            ring,
            ops: _ops,
            handles: _handles,
            members: _members,
            spare: _spare,
            alloc: _alloc,
        } = self;
        Ok(ring.into_ring())
    }

    // Nothing is left to do.
    fn has_nothing_left(&self) -> bool
        ensures { IsTrue result ↔ HasNothingLeft R.view self.now }
    {
        if self.ops.len() > 0 {
            return false;
        }
        if !self.handles.none_closing() {
            return false;
        }
        self.ring.none_pending()
    }
}
