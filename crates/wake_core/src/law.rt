//! What holds over lists of steps, in any order in which senders and sleeper make them.
ghost use Rattle.std.specs.Prelude.{ℕ, List};
ghost use Rattle.wake_core.specs.Step.{Step, Admits, after, AdmitsAll, after_all, EachWakerOnce, KeepsOrder};
ghost use Rattle.wake_core.specs.WakeSafety.{WakeSafety, IsTold};
ghost use Rattle.wake_core.specs.WakeState.{Wake, first_wake};

/// Each step that may be made keeps wake safety, and the first state has it. (not in monoio)
pub fn each_step_is_safe()
    ensures first { WakeSafety first_wake }
    ensures step { (state : Wake) → (step : Step) → WakeSafety state → Admits state step → WakeSafety (after state step) }
    ensures steps { (state : Wake) → (steps : List Step) → WakeSafety state → AdmitsAll state steps → WakeSafety (after_all state steps) }
{}

/// While the sleeper sleeps, the token is set, or the sender of each waker that waits has yet to end its send. (not in monoio)
pub fn sleeper_is_told()
    ensures { (state : Wake) → WakeSafety state → IsTold state }
{}

/// Each sender's wakers come out of the drains once and in order, over every list of steps that may be made. (not in monoio)
pub fn each_waker_once()
    // From the first state on, each sender's wakers have the numbers 0, 1, 2 and so on.
    ensures once { (steps : List Step) → (sender : ℕ) → AdmitsAll first_wake steps → EachWakerOnce steps sender }

    // From any wake-safe state on, what is drained is what waited and was pushed, in that order.
    ensures order { (state : Wake) → (steps : List Step) → WakeSafety state → AdmitsAll state steps → KeepsOrder state steps }
{}
