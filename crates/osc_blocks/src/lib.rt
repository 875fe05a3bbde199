//! What each step of the kernel keeps of the blocks of objects that wait, and of an object that a call
//! replaced. It has no code.
#![tactic(auto)]

pub mod laws;
