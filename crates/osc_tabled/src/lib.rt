//! The laws of the tables: at every moment of a run each process has exactly the tables that the journal
//! tells, and as many. It has no code.
#![tactic(auto)]

pub mod laws;
