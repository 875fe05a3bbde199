//! Laws of whole runs: what holds of the machine after every list of picks, from the start on. It has no
//! code.
#![tactic(auto)]

pub mod laws;
