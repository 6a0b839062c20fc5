//! What the streams and the copies over them do where memory is at hand. There are only tests here.
#![tactic(auto)]

#[cfg(test)]
mod tests;
