//! Tests of what the calls of the readiness driver and its objects do, over handles in memory and over sockets of this machine.
#![tactic(auto)]

#[cfg(test)]
mod tests;
