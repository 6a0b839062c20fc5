//! Tests of the wake state, its senders and its sleeper, of `wake_core`; no other code stands here.
#![tactic(auto)]

#[cfg(test)]
mod tests;
