//! Where a hart is in a call, its answers, and what a step tells.

use osc_cache::HartBox;
use osc_kernel::Kernel;
use osc_moves::Progress;
use osc_word::{Event, Label, Resume, WordAt};
use std::snapshot::Snapshot;

/// How far a hart is in a call.
#[derive(Drop)]
pub enum Place {
    /// Not in one.
    Outside,
    /// It takes the boxes from this one on.
    TakingBoxes {
        next: u32,
    },
    /// It loads the first word of a header.
    FirstWord {
        first: WordAt,
        second: WordAt,
    },
    /// It loads the second, with the first in hand.
    SecondWord {
        found: u64,
        second: WordAt,
    },
    /// It does the job that is next.
    Working {
        progress: Progress,
    },
    /// It gives the boxes that it holds from this one on.
    GivingBoxes {
        next: u32,
    },
    /// It gives the kernel, which is still in its hand.
    Returning {
        full: bool,
    },
    /// It gives the kernel, which was finished and is out of its hand.
    Returned {
        full: bool,
        resume: Resume,
        label: Option<Label>,
        before: Snapshot<Kernel>,
    },
}

/// The answer to an action.
#[derive(Drop)]
pub enum HartTold {
    /// The box was taken.
    Box(HartBox),
    /// The thing was taken by another, or the gate's version is the last one: the hart asks again.
    Busy,
    /// This word was loaded.
    Word(u64),
    /// The gate was taken, and has this version.
    Gate(u64),
    /// The gate's version is not the one that was asked for. The gate was not taken.
    OldVersion,
    /// The kernel was taken.
    Kernel(Kernel),
    /// The action is done.
    Done,
}

/// What a step tells: the event that committed with it, and what it showed but for the objects that
/// were let go.
#[derive(Clone, Copy, Debug, PartialEq, Eq)]
pub struct Stepped {
    pub commit: Option<Event>,
    pub label: Option<Label>,
}

/// Nothing commits and nothing is shown.
pub const NOTHING: Stepped = Stepped {
    commit: None,
    label: None,
};
