//! What a hart finds in its box beside its cache.

use crate::register_file::Regs;

/// The beginning of a thread on a hart.
#[derive(Clone, Copy, Debug, PartialEq, Eq)]
pub struct Start {
    pub pid: u32,
    /// The frame of the process's topmost page table.
    pub root: u32,
    pub regs: Regs,
    pub pc: u64,
    /// Levels of the process's page tables, 3 or 4.
    pub levels: u8,
    /// The frames of the machine: a page table that names another is none.
    pub frames: u32,
}

/// An order to a hart.
#[derive(Clone, Copy, Debug, PartialEq, Eq)]
pub enum Order {
    Empty,
    /// An idle hart begins a thread.
    Start(Start),
    /// The hart's process has ended: the hart drops its reservation and becomes idle.
    Stop,
    /// Every process has ended: the hart goes to rest.
    Over,
}
