//! The kernel: all that the calls of guests read and change beside the words of memory, as one value
//! that a hart takes and gives. A call begins, is planned, leaves jobs on memory and boxes, and returns
//! once these are done.
//!
//! Clauses see a `Kernel` as the definitions' state of the kernel, with what the last step showed. That
//! its parts agree is always true of it, so no caller owes it.
#![tactic(auto)]

mod beginning;
mod calls;
mod commit;
mod ending;
mod finishing;
mod forking;
mod heap_calls;
mod jobs;
mod looks;
mod opening;
mod planning;
mod sharing;
mod spaces;
mod spawning;
mod state;
mod waiting;

pub use opening::KernelFault;
pub use osc_calls::{Begun, BoxChange, Report};
pub use state::Kernel;

#[cfg(test)]
mod open_tests;
#[cfg(test)]
mod step_tests;
#[cfg(test)]
mod test_world;
#[cfg(test)]
mod tests;
