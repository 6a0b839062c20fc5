//! Tests of the texts of events and of replies.
#![tactic(auto)]

#[cfg(test)]
mod tests;
