//! The atomic memory operations on numbers: what one stores, and what goes into its register. No memory
//! is touched here.
#![tactic(auto)]

mod operation;

pub use operation::{amo, widen};

#[cfg(test)]
mod tests;
