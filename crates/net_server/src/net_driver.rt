//! A driver, and the tasks that the next turn is to name besides those that the driver names.
ghost use Rattle.std.specs.Prelude.{◌≡◌, []};

use std::alloc::Global;

/// A driver whose jobs may ask to be polled again. (not in monoio)
#[derive(Drop)]
pub struct NetDriver<D> {
    /// The driver.
    pub driver: D,
    /// The tasks that the next turn is to name too: a job that moved bytes in each of its passes puts its own there.
    pub again: Vec<u64>,
}

impl<D> NetDriver<D> {
    /// One whose next turn names no further task. It takes no memory.
    pub fn new(alloc: Global, driver: D) -> NetDriver<D>
        ensures driver { result.driver ≡ driver }
        ensures again { result.again.items ≡ [] }
    {
        NetDriver {
            driver,
            again: Vec::new(alloc),
        }
    }
}
