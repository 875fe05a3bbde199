//! Entries of page tables, by the Sv39 and Sv48 sections of the RISC-V Privileged manual: the words that
//! stand in a table, what a word says, and the parts of a virtual address. In `specs/` is also the
//! walk over the words of memory, for any number of levels.
//!
//! The profile is narrower than the manual's: pages have 4096 bytes, no entry is global, and each
//! leaf has A and D set. What the manual allows beyond that is reserved here.
#![tactic(auto)]

mod addresses;
mod entries;
mod flags;
mod laws;

pub use addresses::split;
pub use entries::{Access, Mapping, PteEntry, allows, leaf, read_pte, table};
pub use flags::PteBits;
pub use laws::entries_read_back;

/// The number of a frame of memory, which has 4096 bytes.
pub type Frame = u32;

#[cfg(test)]
mod tests;
