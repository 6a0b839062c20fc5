//! A sleeper beside the threads of its senders, whose ledgers the caller doesn't name.
ghost use Rattle.std.specs.Prelude.{◌≡◌, ◌<◌, ◌≤◌, ℕ, IfOk, OnOk};
ghost use Rattle.wake_core.specs.Remote.{new_remote};
ghost use Rattle.wake_core.specs.Sleeping.{new_sleeper};

use crate::cell::WakeCell;
use crate::park::{SenderError, Sleeper};
use crate::remote::RemoteSender;
use crate::state::{MAX_SENDERS, PUSH_PARTS};
use crate::unpark::UnparkHandle;
use std::alloc::Global;
use std::marker::Brand;
use std::sync::Wait;
use std::sync::ledger::{Blank, Ledger};
use std::thread;
use std::thread::{Scope, Threads};
use std::time::Clock;
use thiserror::Error;

/// What each thread of a sender does. (not in monoio)
pub trait Sends {
    /// Does it with the sender, and with a handle that ends a park. (not in monoio)
    fn send<P: Ledger, D: Ledger, R: Wait + Clock>(
        &self,
        rt: &R,
        sender: RemoteSender<P, D>,
        handle: UnparkHandle<P, D>,
    )
        requires { sender ≡ new_remote sender.number };
}

/// What is done with a sleeper meanwhile. (not in monoio)
pub trait Parks {
    /// What it gives.
    type Out;

    // What is known of what it gives, where the sleeper made so many senders before.
    ghost gives: { Self → ℕ → Self.Out → Type 0 };

    /// Does it with a sleeper that is new but for the senders that it made. (not in monoio)
    fn park<P: Ledger, D: Ledger>(self, sleeper: Sleeper<P, D>) -> Self::Out
        requires { record sleeper { made = 0 } ≡ new_sleeper }
        ensures { gives self sleeper.made result };
}

/// Why senders weren't all started. (not in monoio)
#[derive(Clone, Copy, Debug, PartialEq, Eq, Error)]
pub enum StartError {
    /// There are to be more than `MAX_SENDERS`.
    #[error("TooMany")]
    TooMany,
    /// The system gave no thread for one of them.
    #[error("NoThread")]
    NoThread,
    /// Memory ran out.
    #[error("OutOfMemory")]
    OutOfMemory,
}

/// Makes a sleeper over two new ledgers, and so many senders, each on a thread of its own, which does `sends`; and does the work of `parks`
/// with the sleeper on this thread. It returns when all of these threads have ended. At an error the work is dropped, and the threads that
/// were started have ended too: `TooMany` where `count` is over `MAX_SENDERS`, `NoThread` where the system gives no thread, `OutOfMemory`
/// where memory is wanting. (not in monoio)
pub fn with_senders<R, S, W>(
    rt: &R,
    alloc: Global,
    count: u64,
    sends: &S,
    parks: W,
) -> Result<W::Out, StartError>
where
    R: Threads + Wait + Clock + Sync,
    S: Sends + Sync,
    W: Parks + Drop,
    // The work had a sleeper that had made just these senders.
    ensures gives { IfOk result (λ out. W.gives parks count out) }
    ensures ok { OnOk result (count ≤ MAX_SENDERS) }
    ensures many { (result ≡ Err StartError.TooMany) → (MAX_SENDERS < count) }
{
    let pushes = Blank::new(PUSH_PARTS);
    let drains = Blank::new(1);
    start_over::<Brand, Brand, R, S, W>(rt, alloc, pushes, drains, count, sends, parks)
}

// The same over these ledgers.
fn start_over<'x, P, D, R, S, W>(
    rt: &'x R,
    alloc: Global,
    pushes: Blank,
    drains: Blank,
    count: u64,
    sends: &'x S,
    parks: W,
) -> Result<W::Out, StartError>
where
    P: Ledger + Send + Sync,
    D: Ledger + Send + Sync,
    R: Threads + Wait + Clock + Sync,
    S: Sends + Sync,
    W: Parks + Drop,
    requires pushes { (pushes.name ≡ P.name) × (pushes.parts ≡ P.parts) × (pushes.parts ≡ PUSH_PARTS) }
    requires drains { (drains.name ≡ D.name) × (drains.parts ≡ D.parts) × (drains.parts ≡ 1) }
    ensures gives { IfOk result (λ out. W.gives parks count out) }
    ensures ok { OnOk result (count ≤ MAX_SENDERS) }
    ensures many { (result ≡ Err StartError.TooMany) → (MAX_SENDERS < count) }
{
    let Ok((cell, sleeper)) = WakeCell::<P, D>::new(alloc, pushes, drains) else {
        return Err(StartError::OutOfMemory);
    };
    thread::scope(
        thread::scope_env(),
        rt,
        move |scope| -> Result<W::Out, StartError>
            requires { sleeper ≡ new_sleeper }
            ensures gives { IfOk result (λ out. W.gives parks count out) }
            ensures ok { OnOk result (count ≤ MAX_SENDERS) }
            ensures many { (result ≡ Err StartError.TooMany) → (MAX_SENDERS < count) }
        { park_beside(rt, scope, cell, sleeper, count, sends, parks) },
    )
}

// Starts the senders, and does the work with the sleeper.
fn park_beside<'s, E, P, D, R, S, W>(
    rt: &'s R,
    scope: &Scope<'s, E>,
    cell: WakeCell<P, D>,
    mut sleeper: Sleeper<P, D>,
    count: u64,
    sends: &'s S,
    parks: W,
) -> Result<W::Out, StartError>
where
    P: Ledger + Send + Sync + 's,
    D: Ledger + Send + Sync + 's,
    R: Threads + Wait + Clock + Sync,
    S: Sends + Sync,
    W: Parks + Drop,
    requires { sleeper ≡ new_sleeper }
    ensures gives { IfOk result (λ out. W.gives parks count out) }
    ensures ok { OnOk result (count ≤ MAX_SENDERS) }
    ensures many { (result ≡ Err StartError.TooMany) → (MAX_SENDERS < count) }
{
    for _ in 0..count {
        let sender = match sleeper.sender() {
            Ok(sender) => sender,
            Err(SenderError::TooMany) => return Err(StartError::TooMany),
            Err(SenderError::OutOfMemory) => return Err(StartError::OutOfMemory),
        };
        let Ok(handle) = cell.unpark_handle() else {
            return Err(StartError::OutOfMemory);
        };
        if scope.spawn(move || sends.send(rt, sender, handle)).is_err() {
            return Err(StartError::NoThread);
        }
    }
    Ok(parks.park(sleeper))
}
