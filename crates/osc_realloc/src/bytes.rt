//! The bytes of an object that moves to new shadow pages.

ghost use Rattle.std.specs.Prelude.{◌≡◌, ◌+◌, ◌<◌, ◌≤◌, ◌^◌, ◌++◌, length, min, if◌then◌else◌};
ghost use Rattle.osc_word.specs.JobList.{spare};
ghost use Rattle.osc_class.specs.Rooms.{IsRoom, block_bytes};
ghost use Rattle.osc_space.specs.BlockWords.{copy_jobs, header_jobs, trim_jobs, whole_end, zero_block};
ghost use Rattle.osc_shadow.specs.Pieces.{pieces};

use osc_heap::{Block, CanonHeap};
use osc_shadow::{copy_bytes, fill_block, trim_block};
use osc_word::Jobs;

/// The bytes that an object has before and after its size changes.
pub fn common_bytes(old: u64, new: u64) -> u64
    ensures { result ≡ min old new }
{
    old.min(new)
}

/// So many bytes are kept: of a block that stays the rest becomes 0, and into another block they are
/// copied.
pub fn put_bytes(
    heap: &CanonHeap,
    in_place: bool,
    from: Block,
    block: Block,
    bytes: u64,
    size: u64,
    jobs: &mut Jobs,
)
    requires is_room { IsRoom block.room }
    requires block_bytes { block_bytes block.room < 2 ^ 40 }
    requires bytes { bytes < 2 ^ 39 }
    requires start { block.start + 16 < 2 ^ 64 }
    requires spare { pieces (block_bytes block.room) + pieces (whole_end bytes) + 4 ≤ spare jobs.old }
    ensures pushed { jobs.new.pushed ≡ jobs.old.pushed ++ (if in_place
        then trim_jobs heap.now.pages block bytes size
        else zero_block heap.now.pages block ++ header_jobs heap.now.pages block size ++ copy_jobs heap.now.pages from block bytes) }
    ensures few { length jobs.new.pushed ≤ length jobs.old.pushed + (pieces (block_bytes block.room) + pieces (whole_end bytes) + 3) }
    ensures room { jobs.new.room ≡ jobs.old.room }
{
    if in_place {
        trim_block(heap, block, bytes, size, jobs);
    } else {
        fill_block(heap, block, size, jobs);
        copy_bytes(heap, from, block, bytes, jobs);
    }
}
