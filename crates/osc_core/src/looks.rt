//! What a machine shows.

ghost use Rattle.std.specs.Prelude.{◌≡◌};
ghost use Rattle.osc_machine.specs.Views.{ending_by};

use crate::counts::{counted, kernel_held, total};
use crate::machine::Machine;
use osc_machine::{Counts, Ending};
use osc_turns::{Hart, Kernel};

/// The status of an end by a fault.
const FAULT_STATUS: u8 = 70;

/// What a status tells of the end of a process.
fn ending_by(status: u8) -> Ending
    ensures { result ≡ ending_by status }
{
    if status == FAULT_STATUS {
        Ending::Fault
    } else {
        Ending::Exit(status)
    }
}

impl Machine {
    ghost use Rattle.std.specs.Prelude.{◌≡◌, option_map};
    ghost use Rattle.osc_machine.specs.Views.{counts_of, ending_of, kernel_of, machine_over};
    ghost use Rattle.osc_core.specs.Shared.{state_of};
    ghost use Rattle.osc_core.specs.Sound.{Sound};

    /// The kernel; None exactly where a hart holds it.
    pub fn kernel(&self) -> Option<&Kernel>
        ensures { option_map (λ kernel. kernel.now) result ≡ self.now.kernel }
    {
        self.kernel.as_ref()
    }

    /// The kernel, at home or in the hand of one of these harts. None only where nobody has it, which no
    /// machine comes to.
    pub fn kernel_with<'a>(&'a self, harts: &'a [Hart]) -> Option<&'a Kernel>
        ensures { option_map (λ kernel. kernel.now.kernel) result ≡ kernel_of (state_of self.now harts.now) }
    {
        match &self.kernel {
            Some(kernel) => Some(kernel),
            None => kernel_held(harts),
        }
    }

    /// Whether every process that was made has ended, and the calls of their ends have returned.
    pub fn over(&self, harts: &[Hart]) -> bool
        ensures { result ≡ machine_over (state_of self.now harts.now) }
    {
        match self.kernel_with(harts) {
            Some(kernel) => kernel.over(),
            None => false,
        }
    }

    /// How process 0 ended; None exactly where it has not ended, or the call of its end has not returned.
    pub fn ending(&self, harts: &[Hart]) -> Option<Ending>
        ensures { result ≡ ending_of (state_of self.now harts.now) }
    {
        let status = self.kernel_with(harts)?.ended(0)?;
        Some(ending_by(status))
    }

    /// The numbers of the summary, so far, of a machine with these harts.
    pub fn counts(&self, harts: &[Hart]) -> Counts
        requires { Sound (state_of self.now harts.now) }
        ensures { result ≡ counts_of (state_of self.now harts.now) }
    {
        let totals = total(harts);
        match self.kernel_with(harts) {
            Some(kernel) => counted(totals, kernel),
            None => Counts {
                retired: totals.retired,
                calls: 0,
                hits: totals.hits,
                walks: totals.walks,
                clears: totals.clears,
                marks: 0,
                peak: 0,
            },
        }
    }
}
