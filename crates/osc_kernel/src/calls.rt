//! What a hart that has the kernel does with it.

ghost use Rattle.std.specs.Prelude.{◌≡◌, IsSome, []};
ghost use Rattle.std.specs.Option.{option_to_list};
ghost use Rattle.osc_calls.specs.Begin.{begin};
ghost use Rattle.osc_calls.specs.Finish as definition;
ghost use Rattle.osc_calls.specs.JobDone.{job_done};
ghost use Rattle.osc_calls.specs.Kernel.{Quiet, next_job};
ghost use Rattle.osc_calls.specs.Plan.{plan};
ghost use Rattle.osc_release.specs.Outcomes.{found_of};
ghost use Rattle.osc_kernel.specs.Returns.{label_shows};

use crate::state::Kernel;
use crate::{beginning, finishing, jobs, planning};
use osc_calls::Begun;
use osc_word::{Regs, Request, Resume};

impl Kernel {
    /// A hart that has taken the kernel asks, while no call is under way and no job is left. `regs` and `pc`
    /// are those of the hart; the pc of an environment call is that of its ecall. The answer is what comes
    /// next: Gone exactly where the hart runs no thread, since its thread is stopped, or only reports
    /// itself idle; else Again exactly where a join or a wait is not ready; else JournalFull exactly where
    /// the journal holds its limit. A call that goes ahead waits for all boxes, or for the two words of a
    /// header; where it needs neither, the answer is Planned and the call is committed.
    pub fn begin(&mut self, hart: u32, regs: &Regs, pc: u64, request: Request) -> Begun
        requires quiet { self.old.kernel.under_way ≡ Quiet }
        requires jobs { self.old.kernel.jobs ≡ [] }
        ensures begun { result ≡ (begin hart regs.now pc request self.old.kernel).begun }
        ensures kernel { self.new.kernel ≡ (begin hart regs.now pc request self.old.kernel).kernel }
        ensures shown { option_to_list self.new.shown ≡ (begin hart regs.now pc request self.old.kernel).shows }
        ensures freed { self.new.freed ≡ self.old.freed }
    {
        beginning::begin(&mut self.state, hart, regs, pc, request)
    }

    /// The call that waits for all boxes, or for the two words of a header, commits; `found` are these
    /// words, where it read them. Where no call waits, nothing changes and nothing is shown.
    pub fn plan(&mut self, found: [u64; 2])
        ensures kernel { self.new.kernel ≡ (plan (found_of found) self.old.kernel).kernel }
        ensures shown { option_to_list self.new.shown ≡ (plan (found_of found) self.old.kernel).shows }
        ensures freed { self.new.freed ≡ self.old.freed }
    {
        planning::plan(&mut self.state, found);
    }

    /// The next job is done; `word` is the one that it read last. There must be one. What a job that writes
    /// out has read goes to the output.
    pub fn job_done(&mut self, word: u64)
        requires { IsSome (next_job self.old.kernel) }
        ensures kernel { self.new.kernel ≡ (job_done word self.old.kernel).kernel }
        ensures shown { option_to_list self.new.shown ≡ (job_done word self.old.kernel).shows }
        ensures freed { self.new.freed ≡ self.old.freed }
    {
        jobs::job_done(&mut self.state, word);
    }

    /// The kernel is given back, once no job is left: what the call under way gives back is free, a process
    /// that it ends has its status, and a flush lets all that waited go. The answer is how the hart goes
    /// on.
    pub fn finish(&mut self) -> Resume
        requires { self.old.kernel.jobs ≡ [] }
        ensures kernel { self.new.kernel ≡ (definition.finish self.old.kernel).kernel }
        ensures resume { result ≡ (definition.finish self.old.kernel).resume }
        ensures freed { self.new.freed ≡ (definition.finish self.old.kernel).freed }
        ensures shown { option_to_list self.new.shown ≡ label_shows self.old.kernel }
    {
        finishing::finish(&mut self.state)
    }
}
