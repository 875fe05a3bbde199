//! The state of the kernel.

ghost use Rattle.std.specs.Prelude.{◌≡◌, Some};
ghost use Rattle.osc_calls.specs.Kernel.{process_at};
ghost use Rattle.osc_ready.specs.Found.{HasProcess};
ghost use Rattle.osc_kernel.specs.Inside.{kernel_of};

use osc_frames::Frames;
use osc_process::{Closing, Process};
use osc_share::Regions;
use osc_thread::Threads;
use osc_under_way::{Calling, Effect, Records, Report};
use osc_word::{Answer, Config, Entry, Frame, Jobs, Label, Pid, Waiting};
use std::marker::Model;

/// What the hart that has the kernel is about.
#[derive(Clone, Copy, Debug, PartialEq, Eq)]
pub enum UnderWay {
    /// No hart has it.
    Quiet,
    /// The hart will ask again.
    Retrying,
    /// The hart's thread is stopped, or it only reports itself idle.
    Leaving {
        hart: u32,
    },
    /// The call will commit.
    Waiting {
        calling: Calling,
    },
    /// The call is committed.
    Returning {
        calling: Calling,
        answer: Answer,
        effect: Effect,
    },
}

/// What the kernel keeps, with room for all that a run may add.
#[derive(Drop)]
pub struct State {
    pub(crate) config: Config,
    pub(crate) frames: Frames,
    /// The processes by their numbers; ended ones stay.
    pub(crate) processes: Vec<Process>,
    /// The rooms of those that are not made yet.
    pub(crate) rooms: Vec<Process>,
    /// How many processes have not ended.
    pub(crate) unended: u32,
    pub(crate) regions: Regions,
    pub(crate) threads: Threads,
    pub(crate) records: Records,
    pub(crate) journal: Vec<Entry>,
    pub(crate) output: Vec<u8>,
    pub(crate) reports: Vec<Report>,
    pub(crate) jobs: Jobs,
    /// How many of the jobs are done.
    pub(crate) done: u32,
    /// The bytes that the jobs that are not done still write out.
    pub(crate) pending: u32,
    /// The work space of forks: a place for each frame.
    pub(crate) names: Vec<Frame>,
    pub(crate) under_way: UnderWay,
    /// What the call under way gives back when it returns.
    pub(crate) closing: Closing,
    /// What the last step showed.
    pub(crate) shown: Option<Label>,
    /// The objects that the last return let go.
    pub(crate) freed: Waiting,
    /// The most frames in use after a plan.
    pub(crate) peak: u32,
}

/// The kernel. It stands behind one allocation, made when it is opened, so that taking and giving it
/// copies a pointer.
#[derive(Drop)]
pub struct Kernel {
    pub(crate) state: Box<State>,
}

impl Model for Kernel {
    ghost use Rattle.osc_kernel.specs.Seen.{SeenKernel};

    ghost Value = { SeenKernel };

    ghost use Rattle.osc_kernel.specs.Inside.{seen_of};
    ghost use Rattle.osc_kernel.specs.Sound.{Sound};

    ghost view = { λ kernel. seen_of kernel.state.value };

    ghost invariant = { λ kernel. Sound kernel.state.value };
}

/// A process that is there.
pub fn process_of(state: &State, pid: Pid) -> &Process
    requires { HasProcess (kernel_of state.now) pid }
    ensures { process_at (kernel_of state.now) pid ≡ Some result.now }
{
    &state.processes[pid as usize]
}
