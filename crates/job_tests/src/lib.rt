//! What jobs do, and the calls on operations that they are made of, where memory is at hand.
#![tactic(auto)]

#[cfg(test)]
mod tests;
