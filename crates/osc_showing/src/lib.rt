//! Laws of what the words of a process's tables show while the jobs of its call are pending: what is kept,
//! what was kept before and is about to go, or nothing. It has no code.
#![tactic(auto)]

pub mod laws;
