//! The law of granted pages: at every moment of a run the shadow pages that were granted are those that the
//! journal tells. It has no code.
#![tactic(auto)]

pub mod laws;
