//! What a heap's blocks are: where they lie, which slot the next one takes, and which frames they need.
//!
//! This crate has definitions and laws, and no code. `osc_heap` computes what it defines.
#![tactic(auto)]

pub mod laws;

use osc_class::Room;

/// A block of a heap: where it starts, with its header, and its room.
#[derive(Clone, Copy, Debug, PartialEq, Eq)]
pub struct Block {
    pub start: u64,
    pub room: Room,
}

/// A canonical page that holds a block, and the frame that it has.
#[derive(Clone, Copy, Debug, PartialEq, Eq)]
pub struct HeapPage {
    pub page: u64,
    pub frame: u32,
}
