//! A program over any driver, with its theorem.
ghost use Rattle.std.specs.Prelude.{IsTrue};
ghost use Rattle.machine.specs.Ledger.{Ledger};

use driver_core::Driver;

/// Two turns of any driver; true if neither stops. The driver then stands for the ledger that is two turns on. (not in monoio)
pub fn turn_twice<D: Driver>(driver: &mut D) -> bool
    ensures { IsTrue result → (L : Ledger) → D.stands driver.old L → D.stands driver.new (D.turned (D.turned L)) }
{
    if driver.submit().stop.is_some() {
        return false;
    }
    driver.submit().stop.is_none()
}
