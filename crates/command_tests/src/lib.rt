//! What is written for lines that a command reads, and of words and lines that are wrong.
#![tactic(auto)]

#[cfg(test)]
mod tests;
