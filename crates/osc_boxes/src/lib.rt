//! Caches in their boxes: what they may be relied on for stays so through each step of the machine. It has no
//! code.
#![tactic(auto)]

pub mod laws;
