//! Tests of requests, entries, the rings in memory and their handles, and of the groups of a driver.
#![tactic(auto)]

#[cfg(test)]
mod tests;
