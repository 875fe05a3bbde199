//! Laws of the kernel between and during calls: what the kernel, its processes and the words of memory
//! have in common at every moment, and that every step keeps it. It has no code.
#![tactic(auto)]

pub mod laws;
