//! Judged runs: a seeded run of the machine whose events are given, as they commit, to a world of objects.
#![tactic(auto)]

mod judged;

pub use judged::run_judged;
use osc_judge::JudgedError;
use osc_seed::SeededEnd;

/// How a judged run ended: as a seeded run, and with the first error of its events.
#[derive(Clone, Copy, Debug, PartialEq, Eq)]
pub struct JudgedEnd {
    pub end: SeededEnd,
    pub error: Option<JudgedError>,
}
