//! What the kernel's part of the machine means: its state, how a call begins, each plan, the jobs, what
//! the boxes get, how a call ends, the labels, and the reports with their lines. The definitions stand
//! in `specs/`; the plain types that they give are declared here.
#![tactic(auto)]

pub mod examples;
pub mod laws;

use osc_word::{Fault, Order, WordAt};

/// What the kernel answers where a hart has taken it.
#[derive(Clone, Copy, Debug, PartialEq, Eq)]
pub enum Begun {
    /// A join or a wait looks at something that has not ended: the hart asks again.
    Again,
    /// The journal holds its limit: the hart asks again.
    JournalFull,
    /// The hart's thread was stopped, or the hart only reports itself idle.
    Gone,
    /// The call commits once the hart holds all boxes.
    Boxes,
    /// The call commits once the hart has read these two words of an object's header.
    Header(WordAt, WordAt),
    /// The call is committed.
    Planned,
}

/// What a hart's box gets.
#[derive(Clone, Copy, Debug, PartialEq, Eq)]
pub enum BoxChange {
    /// Nothing.
    Keep,
    /// Its cache is emptied, and its order stays.
    Clear,
    /// Its cache is emptied, and this order replaces the one that is there.
    Put(Order),
}

/// Whose address an access met.
#[derive(Clone, Copy, Debug, PartialEq, Eq)]
pub enum Place {
    /// On a shadow page of a dead object, so many bytes from its user address; `call` ended it.
    Dead { object: u32, offset: i64, call: u32 },
    /// On a shadow page of a live object, so many bytes from its user address.
    Live { object: u32, offset: i64 },
    /// On no object's shadow page, or the fault is no access.
    Nowhere,
}

/// The end of a process by a fault of one of its threads.
#[derive(Clone, Copy, Debug, PartialEq, Eq)]
pub struct Report {
    pub pid: u32,
    pub hart: u32,
    pub fault: Fault,
    pub place: Place,
}

/// A thread that was spawned.
#[derive(Clone, Copy, Debug, PartialEq, Eq)]
pub struct Thread {
    /// The process that spawned it, in which it runs.
    pub pid: u32,
    /// What it was done with; None while it runs.
    pub value: Option<u64>,
}

/// What a join finds.
#[derive(Clone, Copy, Debug, PartialEq, Eq)]
pub enum JoinLook {
    Value(u64),
    /// The thread runs.
    NotYet,
    /// This process spawned no such thread.
    Unknown,
}

/// What a wait finds.
#[derive(Clone, Copy, Debug, PartialEq, Eq)]
pub enum WaitLook {
    /// 0 to 63, or 70 for an end by a fault.
    Status(u8),
    /// The child has not ended.
    NotYet,
    /// No child of this process has this number.
    Unknown,
}

/// What the kernel knows of a hart.
#[derive(Clone, Copy, Debug, PartialEq, Eq)]
pub enum HartRecord {
    Idle,
    /// It runs a thread of a process: a spawned one by its number, or the process's first, which has
    /// none.
    Runs { pid: u32, thread: Option<u32> },
    /// Its process has ended, and it has not taken the kernel since.
    Stopped { pid: u32 },
}
