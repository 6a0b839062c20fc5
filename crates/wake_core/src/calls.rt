//! How a sleeper that may wait for its token is called, once it is set.
ghost use Rattle.std.specs.Prelude.{◌≡◌, ◌≢◌, None, false};
ghost use Rattle.std.specs.Sync.Mutex.{mutex_guard_value};

use crate::bell::Bell;
use crate::locked::sleeper::take_token;
use crate::sleeper::SleeperStage;
use crate::state::WakeState;
use std::sync::ledger::Ledger;
use std::sync::{Condvar, Mutex, MutexGuard, Wait};
use std::time::{Clock, Duration};

// What a sleeper waits on: the condition variable, or the poll of the bell that it hung up. The bell has a lock of its own, which is never
// taken inside that of the state.
#[derive(Drop)]
pub(crate) struct Calls {
    token_set: Condvar,
    // The bell of the round that the sleeper is in, if it hung one up.
    pub(crate) bell: Mutex<Option<Bell>>,
}

impl Calls {
    // Nobody waits, and no bell hangs.
    pub(crate) fn new() -> Calls {
        Calls {
            token_set: Condvar::new(),
            bell: Mutex::new(None),
        }
    }

    // Wakes a sleeper that waits on the condition variable.
    pub(crate) fn notify(&self) {
        self.token_set.notify_one();
    }

    // Waits on the condition variable while the sleeper sleeps, and no longer than the limit, in milliseconds. With no limit it comes back
    // once the sleeper doesn't sleep. Nobody has set the token when it begins, so that whoever does finds it waiting.
    pub(crate) fn wait<'b, P: Ledger, D: Ledger, R: Wait + Clock>(
        &self,
        rt: &R,
        state: MutexGuard<'b, WakeState<P, D>>,
        limit: Option<u64>,
    ) -> MutexGuard<'b, WakeState<P, D>>
        requires stage { (mutex_guard_value state).stage ≡ SleeperStage.Asleep }
        requires token { (mutex_guard_value state).token ≡ false }
        ensures up { limit ≡ None → (mutex_guard_value result).stage ≢ SleeperStage.Asleep }
    {
        match limit {
            Some(limit) => {
                let limit = Duration::from_millis(limit);
                let (state, _) = self
                    .token_set
                    .wait_timeout_while(rt, state, limit, |state| take_token(state));
                state
            }
            None => self
                .token_set
                .wait_while(rt, state, |state| take_token(state)),
        }
    }
}
