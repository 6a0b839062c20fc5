//! What readers of messages do where memory is at hand.
#![tactic(auto)]

#[cfg(test)]
mod tests;
