//! Looks at the kernel.

ghost use Rattle.std.specs.Prelude.{◌≡◌, ◌<◌, IfSome, length};
ghost use Rattle.osc_calls.specs.Boxes.{box_change};
ghost use Rattle.osc_calls.specs.Choices.{choice};
ghost use Rattle.osc_calls.specs.JobDone.{entry};
ghost use Rattle.osc_calls.specs.Kernel.{ended, granted, is_over, next_job, peak, process_at};
ghost use Rattle.osc_space.specs.WordLaws.{StaysInFrame};
ghost use Rattle.osc_kernel.specs.Inside.{kernel_of};
ghost use Rattle.osc_kernel.specs.Seen.{owner_in, root_in};
ghost use Rattle.osc_kernel.specs.Sound.{Sound};

use crate::state::{Kernel, State, UnderWay};
use crate::{jobs, spaces};
use osc_under_way::{BoxChange, Report, change, choice};
use osc_word::{Choice, Entry, Frame, Job, Label, ObjectNo, Page, Pid, Waiting};

/// What the call that is committed left open.
#[tactic(auto, unfolding(osc_calls::specs::Choices::choice))]
fn choice_of(state: &State) -> Choice
    ensures { result ≡ choice (kernel_of state.now) }
{
    match state.under_way {
        UnderWay::Returning {
            calling,
            answer,
            effect,
        } => choice(calling.call(), answer, &effect),
        _ => Choice::Plain,
    }
}

/// What the committed call does to a hart's box. Its own process lives, so another one does where two
/// have not ended.
#[tactic(auto, unfolding(osc_calls::specs::Boxes::box_change))]
fn change_of(state: &State, hart: u32) -> BoxChange
    requires sound { Sound state.now }
    ensures { result ≡ box_change hart (kernel_of state.now) }
{
    match state.under_way {
        UnderWay::Returning {
            calling,
            effect,
            ..
        } => change(
            calling.pid(),
            hart,
            &effect,
            state.unended > 1,
            &state.records,
        ),
        _ => BoxChange::Keep,
    }
}

impl Kernel {
    /// The next job that is to be done; None exactly where all are done. No run of words that it writes or
    /// copies crosses its frame.
    pub fn next_job(&self) -> Option<Job>
        ensures next { result ≡ next_job self.now.kernel }
        ensures within { IfSome result StaysInFrame }
    {
        jobs::next(&self.state)
    }

    /// The committed calls, in their order.
    pub fn journal(&self) -> &[Entry]
        ensures { result.now ≡ self.now.kernel.journal }
    {
        &self.state.journal
    }

    /// The ends of processes by a fault, in their order.
    pub fn reports(&self) -> &[Report]
        ensures { result.now ≡ self.now.kernel.reports }
    {
        &self.state.reports
    }

    /// What all processes have written.
    pub fn output(&self) -> &[u8]
        ensures { result.now ≡ self.now.kernel.output }
    {
        &self.state.output
    }

    /// What the last step showed, beside the objects that it let go; None exactly where it showed nothing.
    pub fn label(&self) -> Option<Label>
        ensures { result ≡ self.now.shown }
    {
        self.state.shown
    }

    /// The objects that the last `finish` let go, in the order of the calls that freed them: all that
    /// waited in the process, where the call was a flush, and else none.
    pub fn freed(&self) -> Waiting
        ensures { result ≡ self.now.freed }
    {
        self.state.freed.copied()
    }

    /// The most frames that were in use after a plan; 0 before the first one.
    pub fn peak(&self) -> u32
        ensures { result ≡ peak self.now.kernel }
    {
        self.state.peak
    }

    /// The status 0 to 63 of a process, or 70 for an end by a fault; None exactly where no such process was
    /// made, or the call of its end was not finished.
    pub fn ended(&self, pid: Pid) -> Option<u8>
        ensures { result ≡ ended pid self.now.kernel }
    {
        let processes = self.state.processes.as_slice();
        if (pid as usize) < processes.len() {
            processes[pid as usize].status()
        } else {
            None
        }
    }

    /// What the instruction of the call that is planned and has not returned left open: the choice of its
    /// event. Plain where there is no such call.
    pub fn choice(&self) -> Choice
        ensures { result ≡ choice self.now.kernel }
    {
        choice_of(&self.state)
    }

    /// What this hart's box gets at its job, or when the hart that called gives it back. Keep where no call
    /// is committed.
    pub fn box_change(&self, hart: u32) -> BoxChange
        ensures { result ≡ box_change hart self.now.kernel }
    {
        change_of(&self.state, hart)
    }

    /// How many shadow pages all processes granted so far, each without those that it inherited.
    pub fn granted(&self) -> u64
        ensures { result ≡ granted self.now.kernel }
    {
        spaces::granted(&self.state)
    }

    /// How many processes were made, at most 64.
    pub fn processes(&self) -> u32
        ensures { result ≡ length self.now.kernel.processes }
    {
        spaces::count(&self.state)
    }

    /// What the next job stores at an index 0 to 511 of the table that it copies; 0 where it copies none.
    pub fn entry(&self, index: u16) -> u64
        requires { index < 512 }
        ensures { result ≡ entry self.now.kernel index }
    {
        spaces::entry(&self.state, index)
    }

    /// The frame of a process's topmost table; None exactly where there is no such process or it has ended.
    pub fn root(&self, pid: Pid) -> Option<Frame>
        ensures { result ≡ root_in (process_at self.now.kernel pid) }
    {
        spaces::root(&self.state, pid)
    }

    /// The object that a page of a process was granted to, live or dead; None exactly where there is no such
    /// process, it has ended, or the page was not granted.
    pub fn owner(&self, pid: Pid, page: Page) -> Option<ObjectNo>
        ensures { result ≡ owner_in page (process_at self.now.kernel pid) }
    {
        spaces::owner(&self.state, pid, page)
    }

    /// Whether every process that was made has a status.
    pub fn over(&self) -> bool
        ensures { result ≡ is_over self.now.kernel }
    {
        spaces::is_over(&self.state)
    }
}
