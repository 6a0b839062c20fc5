//! Tests of the buffers of `rent_buf` and of the slots of `op_slots`; no other code stands here.
#![tactic(auto)]

#[cfg(test)]
mod tests;
