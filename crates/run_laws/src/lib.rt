//! The laws of whole runs of the machine, proved of its definitions alone.
#![tactic(auto)]

pub mod headline;
