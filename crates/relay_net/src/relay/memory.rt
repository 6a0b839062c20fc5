// A relay over handles in memory: what arrives at them, and what was sent.
ghost use Rattle.std.specs.Prelude.{◌≡◌, ◌++◌, ℕ, List, true, false, Err, None, Some, IfOk, OnErr, OnOk};
ghost use Rattle.machine.specs.World.{WorldEnds, WorldFeeds, look_at};
ghost use Rattle.machine.specs.declared.world.WorldError.TheVariants.{BadHandleEvent};
ghost use Rattle.ready_driver.specs.Registry.{with_world};
ghost use Rattle.relay_net.specs.Flow.{line};
ghost use Rattle.relay_net.specs.Relaying.{has_handle};

use crate::far::Far;
use crate::relay::Relay;
use machine::{Look, WorldError};
use ready_driver::MemIo;
use rent_buf::OutOfMemory;

impl<F: Far<MemIo>> Relay<MemIo, F> {
    /// Bytes arrive at a handle in memory that the user holds, as `feed` of the driver: they join the end of what is on its way from there.
    /// `BadHandleEvent` comes also where the user holds no such handle. (not in monoio)
    pub fn feed(&mut self, h: u64, bytes: &[u8]) -> Result<(), WorldError>
        ensures feeds { has_handle self.old.driver h ≡ true → WorldFeeds bytes.now self.old.driver.handling.io.world h
            self.new.driver.handling.io.world result }
        ensures line { OnOk result ((to : ℕ) (held : List ℕ) → line self.new.driver.handling.io.world h to held
            ≡ line self.old.driver.handling.io.world h to held ++ bytes.now) }
        ensures unheld { has_handle self.old.driver h ≡ false → result ≡ Err BadHandleEvent }
        ensures rest { self.new ≡ record self.old {
          driver =
              record self.old.driver { handling = with_world self.old.driver.handling self.new.driver.handling.io };
        } }
        ensures err { OnErr result (self.new ≡ self.old) }
    {
        if !self.state.driver.has_handle(h) {
            return Err(WorldError::BadHandleEvent);
        }
        self.state.driver.feed(h, bytes)
    }

    /// The end of what arrives at a handle in memory that the user holds, as `end` of the driver. `BadHandleEvent` comes also where the
    /// user holds no such handle. (not in monoio)
    pub fn end(&mut self, h: u64) -> Result<(), WorldError>
        ensures ends { has_handle self.old.driver h ≡ true → WorldEnds self.old.driver.handling.io.world h
            self.new.driver.handling.io.world result }
        ensures unheld { has_handle self.old.driver h ≡ false → result ≡ Err BadHandleEvent }
        ensures rest { self.new ≡ record self.old {
          driver =
              record self.old.driver { handling = with_world self.old.driver.handling self.new.driver.handling.io };
        } }
        ensures err { OnErr result (self.new ≡ self.old) }
    {
        if !self.state.driver.has_handle(h) {
            return Err(WorldError::BadHandleEvent);
        }
        self.state.driver.end(h)
    }

    /// What looking at a handle in memory that the user holds shows, as `look` of the driver, and None where the user holds no such handle.
    /// (not in monoio)
    pub fn look(&self, h: u64) -> Result<Option<Look>, OutOfMemory>
        ensures looks { has_handle self.now.driver h ≡ true
            → IfOk result (λ look. look ≡ Some (look_at self.now.driver.handling.io.world h)) }
        ensures unheld { has_handle self.now.driver h ≡ false → IfOk result (λ look. look ≡ None) }
    {
        if !self.state.driver.has_handle(h) {
            return Ok(None);
        }
        Ok(Some(self.state.driver.look(h)?))
    }
}
