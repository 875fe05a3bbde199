//! Seeded runs of the machine: a seed picks the hart that makes the next step.
#![tactic(auto)]

pub mod laws;
pub mod picks;
mod seeded;

pub use seeded::run_seeded;

/// How a seeded run ended.
#[derive(Clone, Copy, Debug, PartialEq, Eq)]
pub enum SeededEnd {
    /// The machine is over after so many picks, and was not over before.
    Over { picks: u64 },
    /// The machine is not over after all picks.
    Spent,
}

#[cfg(test)]
mod tests;
