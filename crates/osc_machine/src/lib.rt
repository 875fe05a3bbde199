//! The whole machine as one pure value that goes on step by step: its state, a step of a hart, runs and
//! what they show, what it means that a run is safe, and the text that is due for it. Here are the plain
//! types; the definitions stand in `specs/`, and the laws that show what they mean in `laws`.
#![tactic(auto)]

pub mod laws;
pub mod rows;
pub mod worked;

use osc_word::{Frame, WordAt};

/// A hart's next action on what the machine's harts share.
#[derive(Clone, Copy, Debug, PartialEq, Eq)]
pub enum HartAsk {
    /// Takes the box of this hart.
    TakeBox(u32),
    /// Gives the box of this hart back.
    GiveBox(u32),
    /// Changes the box of this hart while it is at home.
    ChangeBox(u32),
    Load(WordAt),
    Store { at: WordAt, value: u64 },
    /// Takes the gate of a frame, if it still has the version `only` where one is named.
    TakeGate { frame: Frame, only: Option<u64> },
    /// Opens the gate of a frame, which has this version from then on.
    OpenGate { frame: Frame, version: u64 },
    TakeKernel,
    GiveKernel,
    /// The hart is at rest.
    Rest,
}

/// The numbers of a run that its summary prints.
#[derive(Clone, Copy, Debug, PartialEq, Eq)]
pub struct Counts {
    /// Committed events.
    pub retired: u64,
    /// Calls in the journal.
    pub calls: u32,
    /// Looks into caches that found a translation.
    pub hits: u64,
    /// Looks into caches that found none.
    pub walks: u64,
    /// Caches that were emptied.
    pub clears: u64,
    /// Shadow pages that processes granted themselves.
    pub marks: u64,
    /// The most frames in use after a call's plan.
    pub peak: u32,
}

/// How a process ended.
#[derive(Clone, Copy, Debug, PartialEq, Eq)]
pub enum Ending {
    /// By exit, or by the end of its last thread; the status is below 64.
    Exit(u8),
    Fault,
}
