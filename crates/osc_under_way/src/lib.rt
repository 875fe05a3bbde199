//! What is under way while a hart has the kernel, apart from memory: who asks, what a committed call
//! does to harts and their boxes, what each step shows, how the hart goes on, and how threads begin.
//!
//! Clauses see `Calling` and `Records` as `osc_calls` defines them, and an `Effect` through `effect_of`.
#![tactic(auto)]

mod asking;
mod effects;
mod hart_records;
mod reporting;
mod returning;
mod shown;
mod starts;

pub use asking::{Calling, child_look, join_answer, meant, wait_answer};
pub use effects::{Effect, change, choice};
pub use hart_records::Records;
pub use osc_calls::{BoxChange, HartRecord, JoinLook, Place, Report, WaitLook};
pub use reporting::report;
pub use returning::resume;
pub use shown::{answer_label, freed_label, out_label, plan_label};
pub use starts::{fork_start, spawn_start, thread_start};

#[cfg(test)]
mod tests;
