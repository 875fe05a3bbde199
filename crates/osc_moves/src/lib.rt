//! The work on a job, action by action: what comes next, and what is left once it is done. Each
//! action touches one word or one box.
#![tactic(auto)]

mod progress;

pub use osc_machine::HartAsk;
pub use progress::Progress;

#[cfg(test)]
mod tests;
