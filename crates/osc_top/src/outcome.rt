//! How a call ends.

use osc_assemble::TextFault;
use osc_elf::ImageFault;
use osc_judge::JudgedError;
use osc_outside::Failed;
use osc_word::OptionNo;
use std::alloc::AllocError;

/// The exit status of the program, 0 to 255.
#[derive(Clone, Copy, Debug, PartialEq, Eq)]
pub struct Status(pub u8);

/// How a call ends, but for a sink that fails.
#[derive(Clone, Copy, Debug, PartialEq, Eq)]
pub enum Outcome {
    /// The words are not options of the command, each with one value and at most once.
    UnknownWords,
    /// The first option, by its place in the table of options, whose text is not allowed.
    BadOption(OptionNo),
    /// The file is no image that can be run.
    BadImage(ImageFault),
    /// The image needs so many frames, more than the machine has.
    NoRoom { needed: u64, frames: u32 },
    /// The source failed.
    SourceFault,
    /// Memory ran out, before the first step or while events were judged.
    NoMemory,
    /// The machine is not over after all picks of the task.
    Spent { picks: u64 },
    /// Process 0 ended by a fault.
    Fault,
    /// Process 0 ended with this status, 0 to 63.
    Exit(u8),
    /// The text is not assembled.
    BadText(TextFault),
    /// A text was assembled, or an image listed.
    Done,
}

impl Outcome {
    ghost use Rattle.std.specs.Prelude.{◌≡◌};
    ghost use Rattle.osc_top.specs.Due.{status_of};

    /// The exit status of the program.
    pub fn status(&self) -> u8
        ensures { result ≡ status_of self.now }
    {
        match self {
            Outcome::UnknownWords | Outcome::BadOption(_) => 64,
            Outcome::BadImage(_) | Outcome::NoRoom { .. } => 65,
            Outcome::SourceFault => 66,
            Outcome::NoMemory => 68,
            Outcome::Spent { .. } => 69,
            Outcome::Fault => 70,
            Outcome::Exit(status) => *status,
            Outcome::BadText(_) => 72,
            Outcome::Done => 0,
        }
    }
}

/// What is said in terms of objects of a run that is over.
#[derive(Clone, Copy, Debug, PartialEq, Eq)]
pub enum Verdict {
    /// Each of its events has a meaning.
    Clean,
    /// The first event that has none.
    Error(JudgedError),
}

/// Why nothing was run.
#[derive(Clone, Copy, Debug, PartialEq, Eq)]
pub enum Refusal {
    /// The source failed.
    Source,
    /// Memory ran out.
    Memory,
}

impl From<Failed> for Refusal {
    ghost use Rattle.std.specs.Prelude.{◌≡◌};
    ghost use Rattle.osc_top.specs.declared.outcome.Refusal.TheVariants as refusal;

    ghost from_gives = { λ _ why. why ≡ refusal.Source };

    fn from(_fault: Failed) -> Refusal {
        Refusal::Source
    }
}

impl From<AllocError> for Refusal {
    ghost use Rattle.std.specs.Prelude.{◌≡◌};
    ghost use Rattle.osc_top.specs.declared.outcome.Refusal.TheVariants as refusal;

    ghost from_gives = { λ _ why. why ≡ refusal.Memory };

    fn from(_error: AllocError) -> Refusal {
        Refusal::Memory
    }
}
