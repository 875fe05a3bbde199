//! The law of records: what the kernel records of each hart is so, in every run. It has no code.
#![tactic(auto)]

pub mod laws;
