//! A program over any driver, and what the calls of the completion driver do where memory is at hand.
#![tactic(auto)]

mod example;

pub use example::turn_twice;

#[cfg(test)]
mod tests;
