// What waits for a direction is dropped.
ghost use Rattle.std.specs.Prelude.{◌≡◌, ℕ};
ghost use Rattle.ready_driver.specs.LegacyState.{ops_in};
ghost use Rattle.relay_net.specs.Flow.{FitsStage, IsPending, IsReceive, IsSend};
ghost use Rattle.relay_net.specs.Forwarding.{KeepsSeen};
ghost use Rattle.relay_net.specs.Keyed.{KeepsKeys};
ghost use Rattle.relay_net.specs.Steps.{Abandons};

use crate::flow::{Reads, Stage};
use driver_core::Op;
use handle_core::SharedFd;
use op_driver::OpDriver;
use ready_driver::NonBlock;

// Drops a receive that waits.
fn drop_receive<I: NonBlock>(driver: &mut Reads<I>, op: Op, from: SharedFd, to: SharedFd)
    requires pending { (room : ℕ) × IsPending (ops_in driver.old) op (IsReceive room from) }
    ensures drops { Abandons I.view I.tells driver.old from to driver.new }
    ensures given { driver.new.given ≡ driver.old.given }
    ensures keyed { KeepsKeys I.view I.memory driver.old driver.new }
    ensures seen { KeepsSeen I.view I.memory driver.old driver.new }
{
    let _ = (from, to);
    OpDriver::drop_op(driver, op);
}

// Drops a send that waits.
fn drop_send<I: NonBlock>(driver: &mut Reads<I>, op: Op, count: usize, from: SharedFd, to: SharedFd)
    requires pending { IsPending (ops_in driver.old) op (IsSend to count) }
    ensures drops { Abandons I.view I.tells driver.old from to driver.new }
    ensures given { driver.new.given ≡ driver.old.given }
    ensures keyed { KeepsKeys I.view I.memory driver.old driver.new }
    ensures seen { KeepsSeen I.view I.memory driver.old driver.new }
{
    let _ = (count, from, to);
    OpDriver::drop_op(driver, op);
}

// Drops what waits.
#[tactic(auto, using(crate::proofs::Outcomes::still_abandons, crate::proofs::Keyed::keeps_none))]
pub(crate) fn abandon<I: NonBlock>(
    driver: &mut Reads<I>,
    from: SharedFd,
    to: SharedFd,
    stage: Stage,
)
    requires fits { (room : ℕ) × FitsStage room (ops_in driver.old) from to stage }
    ensures drops { Abandons I.view I.tells driver.old from to driver.new }
    ensures given { driver.new.given ≡ driver.old.given }
    ensures keyed { KeepsKeys I.view I.memory driver.old driver.new }
    ensures seen { KeepsSeen I.view I.memory driver.old driver.new }
{
    match stage {
        Stage::Receiving(op) => drop_receive(driver, op, from, to),
        Stage::Sending { op, count } => drop_send(driver, op, count, from, to),
        Stage::Idle(_) | Stage::Held(_) => {}
    }
}
