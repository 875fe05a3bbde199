//! The machine of atomic steps: what its harts share, and one step of one of them.
#![tactic(auto)]

mod boot;
mod boxes;
mod counts;
mod gates;
pub mod laws;
mod laying;
mod looks;
mod machine;
mod parts;
mod words;

pub use boot::{BootFault, Booted};
pub use boxes::BoxRoom;
pub use machine::Machine;
pub use osc_machine::{Counts, Ending, HartAsk};
pub use osc_turns::{Hart, HartBox, HartTold, Kernel, Stepped};
pub use parts::Parts;

#[cfg(test)]
mod tests;
