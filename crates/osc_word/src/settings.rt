//! The configuration of a machine, and its limits.

ghost use Rattle.std.specs.Prelude.{◌≡◌, MatchResult};
ghost use Rattle.osc_word.specs.Limits.{first_fault};

use thiserror::Error;

/// The heap that the guest gets.
#[derive(Clone, Copy, Debug, PartialEq, Eq)]
pub enum HeapKind {
    /// Each object has shadow pages of its own, which are dead after its end.
    Oscar,
    /// Objects lie at their canonical addresses, and nothing catches a use after free.
    Plain,
}

/// What a machine is made with.
#[derive(Clone, Copy, Debug, PartialEq, Eq)]
pub struct Config {
    pub heap: HeapKind,
    /// Harts, 1 to 8.
    pub harts: u32,
    /// Processes over the whole life of the machine, 1 to 64.
    pub processes: u32,
    /// Frames of memory, 64 to 4096.
    pub frames: u32,
    /// Shadow pages of each process, 1 to 1048576.
    pub shadows: u32,
    /// Calls that the journal holds, 1 to 1048576.
    pub journal: u32,
    /// Levels of page tables: 3 as in Sv39, or 4 as in Sv48.
    pub levels: u8,
    /// How many freed objects of a process wait at most for being let go together, 1 to 64.
    pub batch: u32,
}

/// The first number of a configuration that is out of its range.
#[derive(Clone, Copy, Debug, PartialEq, Eq, Error)]
pub enum ConfigFault {
    #[error("harts are not 1 to 8")]
    Harts,
    #[error("processes are not 1 to 64")]
    Processes,
    #[error("frames are not 64 to 4096")]
    Frames,
    #[error("shadow pages are not 1 to 1048576")]
    Shadows,
    #[error("journal entries are not 1 to 1048576")]
    Journal,
    #[error("levels are not 3 or 4")]
    Levels,
    #[error("a batch is not 1 to 64")]
    Batch,
}

impl Config {
    /// Looks at the numbers in the order of `ConfigFault`.
    pub fn check(&self) -> Result<(), ConfigFault>
        ensures { MatchResult result
            (λ _. first_fault self.now ≡ None)
            (λ fault. first_fault self.now ≡ Some fault) }
    {
        if !matches!(self.harts, 1..=8) {
            return Err(ConfigFault::Harts);
        }
        if !matches!(self.processes, 1..=64) {
            return Err(ConfigFault::Processes);
        }
        if !matches!(self.frames, 64..=4096) {
            return Err(ConfigFault::Frames);
        }
        if !matches!(self.shadows, 1..=1_048_576) {
            return Err(ConfigFault::Shadows);
        }
        if !matches!(self.journal, 1..=1_048_576) {
            return Err(ConfigFault::Journal);
        }
        if !matches!(self.levels, 3..=4) {
            return Err(ConfigFault::Levels);
        }
        if !matches!(self.batch, 1..=64) {
            return Err(ConfigFault::Batch);
        }
        Ok(())
    }
}
