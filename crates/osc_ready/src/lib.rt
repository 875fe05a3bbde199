//! Laws of the kernel's calls: what each step finds of the process that it concerns, whatever was done
//! before. It has no code.
#![tactic(auto)]

pub mod laws;
