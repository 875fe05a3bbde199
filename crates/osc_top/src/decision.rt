//! What is decided before anything is written.

use crate::outcome::{Outcome, Verdict};
use osc_core::{Ending, Hart, Machine};
use osc_report::Report;

/// A machine that is over, its harts, the picks that it made, and what is said of its events where they were
/// judged.
#[derive(Drop)]
pub struct Over {
    pub machine: Machine,
    pub harts: Vec<Hart>,
    pub picks: u64,
    pub verdict: Option<Verdict>,
}

/// What a call comes to.
#[derive(Drop)]
pub enum Decision {
    /// Nothing was run, or the run is not over.
    Refused(Outcome),
    /// The run is over.
    Ran(Over),
    /// The whole output was made without a run.
    Made(Vec<u8>),
}

impl Over {
    ghost use Rattle.std.specs.Prelude.{◌≡◌};
    ghost use Rattle.osc_machine.specs.Views.{ending_of, output_of, reports_of};
    ghost use Rattle.osc_top.specs.Due.{outcome_of};
    ghost use Rattle.osc_top.specs.Deciding.{state_in};

    /// The guest's output.
    pub fn output(&self) -> &[u8]
        ensures { result.now ≡ output_of (state_in self.now) }
    {
        match self.machine.kernel_with(&self.harts) {
            Some(kernel) => kernel.output(),
            None => &[],
        }
    }

    /// The reports, in the order of the ends that they tell.
    pub fn reports(&self) -> &[Report]
        ensures { result.now ≡ reports_of (state_in self.now) }
    {
        match self.machine.kernel_with(&self.harts) {
            Some(kernel) => kernel.reports(),
            None => &[],
        }
    }

    /// How process 0 ended.
    pub fn outcome(&self) -> Outcome
        ensures { result ≡ outcome_of (ending_of (state_in self.now)) }
    {
        match self.machine.ending(&self.harts) {
            Some(Ending::Exit(status)) => Outcome::Exit(status),
            Some(Ending::Fault) | None => Outcome::Fault,
        }
    }
}

impl Decision {
    ghost use Rattle.std.specs.Prelude.{◌≡◌};
    ghost use Rattle.osc_top.specs.Deciding.{due_in};

    /// What is written to out: nothing where the call is refused and where a run is not over.
    pub fn output(&self) -> &[u8]
        ensures { result.now ≡ (due_in self.now).output }
    {
        match self {
            Decision::Refused(_) => &[],
            Decision::Ran(over) => over.output(),
            Decision::Made(output) => output.as_slice(),
        }
    }

    /// How the call ends.
    pub fn outcome(&self) -> Outcome
        ensures { result ≡ (due_in self.now).outcome }
    {
        match self {
            Decision::Refused(outcome) => *outcome,
            Decision::Ran(over) => over.outcome(),
            Decision::Made(_) => Outcome::Done,
        }
    }
}
