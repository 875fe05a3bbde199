//! What a machine and its harts counted.

ghost use Rattle.std.specs.Prelude.{◌≡◌, ◌+◌, ◌<◌, ◌^◌, length, option_map, sum_by};
ghost use Rattle.osc_calls.specs.Kernel.{granted, peak};
ghost use Rattle.osc_machine.specs.Parts.{HartState};
ghost use Rattle.osc_machine.specs.Views.{capped, held_kernel, retired};

use osc_machine::Counts;
use osc_turns::{Hart, Kernel};

/// The counts of all harts together. A sum stands still at the greatest number of 64 bits.
#[derive(Clone, Copy)]
pub struct Totals {
    pub retired: u64,
    pub hits: u64,
    pub walks: u64,
    pub clears: u64,
}

impl Totals {
    /// With those of one more hart.
    fn with(self, hart: &Hart) -> Totals
        ensures { result ≡ record {
          retired = capped (self.retired + retired hart.now);
          hits = capped (self.hits + hart.now.user.hits);
          walks = capped (self.walks + hart.now.user.walks);
          clears = capped (self.clears + hart.now.clears);
        } }
    {
        Totals {
            retired: self.retired.saturating_add(hart.retired()),
            hits: self.hits.saturating_add(hart.hits()),
            walks: self.walks.saturating_add(hart.walks()),
            clears: self.clears.saturating_add(hart.clears()),
        }
    }
}

/// The counts of these harts together.
pub fn total(harts: &[Hart]) -> Totals
    ensures { result ≡ record {
      retired = capped (sum_by retired harts.now);
      hits = capped (sum_by (λ (h : HartState). h.user.hits) harts.now);
      walks = capped (sum_by (λ (h : HartState). h.user.walks) harts.now);
      clears = capped (sum_by (λ (h : HartState). h.clears) harts.now);
    } }
{
    let mut totals = Totals {
        retired: 0,
        hits: 0,
        walks: 0,
        clears: 0,
    };
    for hart in harts {
        totals = totals.with(hart);
    }
    totals
}

/// The kernel that one of these harts holds.
pub fn kernel_held(harts: &[Hart]) -> Option<&Kernel>
    ensures { option_map (λ kernel. kernel.now.kernel) result ≡ held_kernel harts.now }
{
    for hart in harts {
        if let Some(kernel) = hart.kernel() {
            return Some(kernel);
        }
    }
    None
}

/// With what the kernel counted.
pub fn counted(totals: Totals, kernel: &Kernel) -> Counts
    requires { length kernel.now.kernel.journal < 2 ^ 32 }
    ensures { result ≡ record {
      retired = totals.retired;
      calls = length kernel.now.kernel.journal;
      hits = totals.hits;
      walks = totals.walks;
      clears = totals.clears;
      marks = granted kernel.now.kernel;
      peak = peak kernel.now.kernel;
    } }
{
    Counts {
        retired: totals.retired,
        calls: kernel.journal().len() as u32,
        hits: totals.hits,
        walks: totals.walks,
        clears: totals.clears,
        marks: kernel.granted(),
        peak: kernel.peak(),
    }
}
