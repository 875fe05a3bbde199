//! Definitions of what the kernel keeps of page tables, and of what a hart's box holds. The code
//! of both stands in the crates above; here are the plain types, the meaning of each change with
//! the jobs that it leaves, and the laws that tie kept tables to the words of memory.
#![tactic(auto)]

mod laws;

pub use laws::{
    changes_keep_agreement, changes_keep_others, copying_agrees, look_finds_latest,
    mapping_takes_need, stores_elsewhere_keep, tables_stand_above, walk_gives_mapping,
    work_elsewhere_keeps,
};
use osc_sv39::Mapping;

/// A piece of the address space: 512 pieces of a level are one of the next, and a page is a piece
/// of level 0. The table of level l with number n stands over piece n of level l + 1.
#[derive(Clone, Copy, Debug, PartialEq, Eq)]
pub struct Piece {
    pub level: u8,
    pub number: u64,
}

/// A table of a process, and the frame that it stands in.
#[derive(Clone, Copy, Debug, PartialEq, Eq)]
pub struct TableFrame {
    pub piece: Piece,
    pub frame: u32,
}

/// A mapped page, by its number in the range of the tables.
#[derive(Clone, Copy, Debug, PartialEq, Eq)]
pub struct Mapped {
    pub number: u64,
    pub mapping: Mapping,
}

/// The place of a table: its level, 0 for leaf tables, and the first page that it covers.
#[derive(Clone, Copy, Debug, PartialEq, Eq)]
pub struct TablePlace {
    pub level: u8,
    pub first: u64,
}

/// A translation that a cache holds.
#[derive(Clone, Copy, Debug, PartialEq, Eq)]
pub struct CacheEntry {
    pub page: u64,
    pub mapping: Mapping,
}

/// What a cache answers.
#[derive(Clone, Copy, Debug, PartialEq, Eq)]
pub enum Look {
    /// The page has this frame, and its flags allow the access.
    Hit(u32),
    Miss,
}
