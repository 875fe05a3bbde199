//! The laws that join all others: every run on the heap with shadows is safe. It has no code.
#![tactic(auto)]

pub mod laws;
