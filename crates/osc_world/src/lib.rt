//! What a threaded program means in terms of objects, and what it means on a heap without shadows.
//!
//! The definitions stand in `specs/`: a world has objects, numbered memory and harts; an event is one
//! instruction of a hart; a run is a fold over events. Neither run has page tables, frames or caches.
//! Here are the plain types that they speak of, and the laws.
#![tactic(auto)]

pub mod laws;

use osc_rv::Width;
pub use osc_word::{Choice, Event};

/// What a register holds.
#[derive(Clone, Copy, Debug, PartialEq, Eq)]
pub enum Value {
    Num(u64),
    /// An object of the process, and an offset from its start modulo 2^64.
    Ptr { object: u32, offset: u64 },
}

/// What a byte of memory holds.
#[derive(Clone, Copy, Debug, PartialEq, Eq)]
pub enum Byte {
    Number(u8),
    /// The byte of a stored pointer with this index, from 0 to 7.
    Part { object: u32, offset: u64, index: u8 },
}

/// Why an event has no meaning, in the order in which one is chosen.
#[derive(Clone, Copy, Debug, PartialEq, Eq)]
pub enum ObjectWhy {
    /// An instruction that traps whatever memory holds, or an event that does not fit.
    Trap,
    /// An operand is a pointer, and the instruction has no meaning for it.
    PointerUse,
    /// An access by a pointer to a dead object.
    DeadObject,
    /// An access outside its object, or by a number where memory does not allow it.
    Outside,
    /// A load, or a byte of a write, meets a part of a stored pointer.
    PointerBytes,
    /// A store of a pointer into a shared region.
    PointerShared,
    /// A free or realloc of what is neither 0 nor the start of a live object.
    BadFree,
    /// A call without a meaning, or a pointer where a call needs a number.
    BadCall,
}

/// A row of bytes that a process reaches.
#[derive(Clone, Copy, Debug, PartialEq, Eq)]
pub enum Area {
    /// An object, by its number.
    Object(u32),
    /// A page of image or stack, by its address divided by 4096.
    Page(u32),
    /// A page of a shared region, by its number over the whole world.
    Shared(u32),
}

/// Where an access begins.
#[derive(Clone, Copy, Debug, PartialEq, Eq)]
pub struct Place {
    pub area: Area,
    pub offset: u64,
}

/// What a load-reserved leaves: where it was, and its width.
#[derive(Clone, Copy, Debug, PartialEq, Eq)]
pub struct Reservation {
    pub place: Place,
    pub width: Width,
}
