//! The words that all layers of the machine share: the configuration, the registers of a hart, the
//! jobs that the kernel leaves to be done on memory, calls with their answers, orders to harts, and
//! what a run tells of its steps. Plain data, but for four small types: `Config` is checked
//! against the limits, `Regs` keeps x0 at 0, and `Jobs` and `Waiting` are lists of what was pushed.
//! The address map and the numbers of the environment calls stand in `specs/`.
#![tactic(auto)]

pub mod address_map;
mod calls;
mod job_list;
mod orders;
mod register_file;
mod settings;
mod steps;
mod waiting;

pub use calls::{
    ANSWER_REGISTER, Answer, Call, Entry, Fault, MINUS_ONE, OUTPUT_LIMIT, Request, Resume,
    THREAD_LIMIT,
};
pub use job_list::{Job, Jobs, WordAt};
pub use orders::{Order, Start};
pub use register_file::Regs;
pub use settings::{Config, ConfigFault, HeapKind};
pub use steps::{Access, Choice, Event, Label};
pub use waiting::Waiting;

/// The number of a frame of memory, which has 4096 bytes.
pub type Frame = u32;

/// The number of a process, from 0 in the order of their making.
pub type Pid = u32;

/// The number of an object of a process, from 0 in the order of the grants.
pub type ObjectNo = u32;

/// The place of a call in the journal, from 0.
pub type CallNo = u32;

/// The number of a spawned thread, from 1 over the whole machine.
pub type ThreadNo = u32;

/// The number of a label of the assembler.
pub type LabelNo = u32;

/// The place of an option of the command, from 0.
pub type OptionNo = u8;

/// A virtual address divided by 4096.
pub type Page = u64;

#[cfg(test)]
mod tests;
