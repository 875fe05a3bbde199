//! What a hart holds while it runs an instruction: its box, with a cache of 32 translations and one
//! order. A cache gives only what was filled since it was cleared, and of two pages with one slot
//! only the latest.
#![tactic(auto)]

mod hart_box;
mod translations;

pub use hart_box::{HartBox, has_32_slots};
pub use osc_paging::{Look, look_finds_latest};
pub use translations::Cache;

#[cfg(test)]
mod tests;
