//! The whole machine as one call: words and an image come in, the guest's output, a text on err and a
//! status go out.
#![tactic(auto)]

mod decision;
mod delivery;
mod lines;
mod loading;
mod making;
mod outcome;
mod top;

pub use lines::MEMORY_LINE;
pub use outcome::{Outcome, Status};
pub use top::{oscar, oscar_seeded};

#[cfg(test)]
mod tests;
