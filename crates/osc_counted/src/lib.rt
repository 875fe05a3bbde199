//! The frames in use, counted from the journal, are those that are not free. It has no code.
#![tactic(auto)]

pub mod laws;
