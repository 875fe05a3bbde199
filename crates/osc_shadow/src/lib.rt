//! One process's memory under the heap oscar, and the plan of a malloc: the tables, the marks and the
//! heap change at once, and jobs are left that make the words of memory follow.
//!
//! What the plans of a free and a realloc share with it stands here too: the look at a header, the
//! refusals for want of memory, the jobs on a block's words, and the mapping of its shadow pages.
#![tactic(auto)]

mod flushing;
mod header;
mod leaves;
mod malloc;
mod memory;
mod shadows;
mod words;

pub use flushing::flush;
pub use header::{Damage, SeenObject, header_at, header_damage, object_with};
pub use leaves::{is_linked, next_leaf};
pub use malloc::{Malloced, plan_malloc};
pub use memory::{Lack, know_tables, memory_lack};
use osc_heap::CanonHeap;
use osc_mark::Marks;
use osc_tables::Tables;
pub use shadows::{map_shadows, unmap_shadows};
pub use words::{HEADER, block_word, copy_bytes, fill_block, trim_block, zero_words};

/// The memory of one process: its page tables, its shadow pages with the objects that have them, and
/// its heap of blocks.
#[derive(Drop)]
pub struct Space {
    pub tables: Tables,
    pub marks: Marks,
    pub heap: CanonHeap,
}

#[cfg(test)]
mod tests;
