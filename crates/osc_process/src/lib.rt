//! One process of the kernel with all its rooms: its memory, the objects that wait, and what is kept of
//! its making and of its end. Each call that concerns one process alone is made here, by the plans of
//! the crates below, and so is its return.
//!
//! Clauses see a `Process` as the record of the definitions, and what a call gives back as their
//! `Closing`.
#![tactic(auto)]

mod ending;
mod forking;
mod given;
mod heap_calls;
mod live;
mod looks;
mod rooms;

pub use given::Closing;
pub use rooms::Process;

#[cfg(test)]
mod tests;
