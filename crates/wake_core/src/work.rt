//! What is done with a new sleeper, whose ledgers the caller doesn't name.
ghost use Rattle.std.specs.Prelude.{◌≡◌, IfOk};
ghost use Rattle.wake_core.specs.Sleeping.{new_sleeper};

use crate::cell::WakeCell;
use crate::fault::OutOfMemory;
use crate::park::Sleeper;
use crate::state::PUSH_PARTS;
use std::alloc::Global;
use std::marker::Brand;
use std::sync::ledger::{Blank, Ledger};

/// What is done with a new wake cell and its sleeper, whatever their ledgers are. (not in monoio)
pub trait Work {
    /// What it gives.
    type Out;

    // What is known of what it gives.
    ghost gives: { Self → Self.Out → Type 0 };

    /// Does it. (not in monoio)
    fn run<P: Ledger + Send + Sync, D: Ledger + Send + Sync>(
        self,
        cell: WakeCell<P, D>,
        sleeper: Sleeper<P, D>,
    ) -> Self::Out
        requires { sleeper ≡ new_sleeper }
        ensures { gives self result };
}

/// Makes a wake cell and its sleeper over two new ledgers, and does the work with them. `OutOfMemory` if there is no room for the cell:
/// then the work is dropped. (not in monoio)
pub fn with_sleeper<W: Work + Drop>(alloc: Global, work: W) -> Result<W::Out, OutOfMemory>
    ensures { IfOk result (λ out. W.gives work out) }
{
    let pushes = Blank::new(PUSH_PARTS);
    let drains = Blank::new(1);
    run_over::<Brand, Brand, W>(alloc, pushes, drains, work)
}

// The same over these ledgers.
fn run_over<P: Ledger + Send + Sync, D: Ledger + Send + Sync, W: Work + Drop>(
    alloc: Global,
    pushes: Blank,
    drains: Blank,
    work: W,
) -> Result<W::Out, OutOfMemory>
    requires pushes { (pushes.name ≡ P.name) × (pushes.parts ≡ P.parts) × (pushes.parts ≡ PUSH_PARTS) }
    requires drains { (drains.name ≡ D.name) × (drains.parts ≡ D.parts) × (drains.parts ≡ 1) }
    ensures { IfOk result (λ out. W.gives work out) }
{
    let (cell, sleeper) = WakeCell::<P, D>::new(alloc, pushes, drains)?;
    Ok(work.run(cell, sleeper))
}
