//! What a hart relies on in an instruction is kept through each step of the machine. It has no code.
#![tactic(auto)]

pub mod laws;
