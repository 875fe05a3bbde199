//! Memory is refused exactly for want of it, in every run. It has no code.
#![tactic(auto)]

pub mod laws;
