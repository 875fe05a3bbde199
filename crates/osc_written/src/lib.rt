//! The law of writes: a write that is under way reads mapped pages alone, in every run. It has no code.
#![tactic(auto)]

pub mod laws;
