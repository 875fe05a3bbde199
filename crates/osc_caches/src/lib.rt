//! Laws of what harts read of memory, in every run: the machine's own words are those of the kept tables
//! once the pending work is done, and what a hart holds of them is kept or about to go. It has no code.
#![tactic(auto)]

pub mod laws;
