//! The plan of a free: the object is dead from the plan on, its pages are unmapped, and it waits. Once
//! as many wait as a batch has, they are let go together.
#![tactic(auto)]

mod answer;
mod release;

pub use answer::FreePlan;
pub use release::plan_free;

#[cfg(test)]
mod tests;
