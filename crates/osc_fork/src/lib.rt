//! The plan of a fork: the same memory over new frames. The frames of the parent's tables, of its
//! blocks, and of its image and stack are copied; those of shared regions keep their numbers.
#![tactic(auto)]

mod copies;
mod marking;
mod plan;

pub use plan::{ForkPlan, lacks_frames, plan_fork};

#[cfg(test)]
mod tests;
