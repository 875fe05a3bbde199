//! Laws of one process's memory: between two calls its parts fit, and each plan, with what is given
//! back when its call returns, leaves parts that fit. It has no code.
#![tactic(auto)]

pub mod laws;
