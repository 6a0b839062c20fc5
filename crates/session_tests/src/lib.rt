//! Tests of the sessions and of the top call: rows of events, each with its reply, and each status with its cause.
#![tactic(auto)]

#[cfg(test)]
mod tests;
