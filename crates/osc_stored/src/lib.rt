//! The machine's own words through each step: a store of a guest goes where no table is. It has no code.
#![tactic(auto)]

pub mod laws;
