//! A hart that runs guest instructions, one atomic action at a time: it says what it asks for next, and is
//! told the answer. It never waits and takes no memory, and touches nothing that is shared but by
//! what it asks for.
#![tactic(auto)]

mod accesses;
mod answers;
mod hart;
mod instructions;
mod looking;
mod pages;
mod places;
mod state;
mod within;
mod words;

pub use answers::Told;
pub use hart::UserHart;
pub use osc_cache::HartBox;
pub use osc_guest::{Ask, Touch};
pub use within::{boxes_fit, stays_driven};

#[cfg(test)]
mod tests;
