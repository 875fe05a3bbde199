//! What a program means on a heap without shadows: where its run over objects meets no error, the plain
//! heap gives the same, and where that heap has a place for everything that is given. It has no code.
#![tactic(auto)]

pub mod laws;
