//! What connections do where memory is at hand.
#![tactic(auto)]

#[cfg(test)]
mod tests;
