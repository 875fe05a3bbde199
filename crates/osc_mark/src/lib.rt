//! The shadow pages of one process: which were granted, to which object, and which objects live.
//!
//! Clauses see `Marks` as the objects in the order of their grants, as `osc_space` defines them, and
//! the number of pages that may be granted.
#![tactic(auto)]

mod laws;
mod leaves;
mod looks;
mod marks;

pub use laws::owners_stay;
pub use marks::Marks;
pub use osc_space::laws::{dead_leaves_are_dead, grants_keep, pages_are_granted_once};
pub use osc_space::{ObjectFact, ObjectState};

#[cfg(test)]
mod tests;
