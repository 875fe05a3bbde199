//! The laws of the journal: what it tells of each process is what the kernel keeps, and memory is refused
//! only for want. It has no code.
#![tactic(auto)]

pub mod laws;
