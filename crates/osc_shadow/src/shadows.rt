//! The shadow pages of a block.

ghost use Rattle.std.specs.Prelude.{◌≡◌, ◌+◌, ◌≤◌, Bool, List, length};
ghost use Rattle.std.specs.List.{range_with_len};
ghost use Rattle.osc_class.specs.Rooms.{IsRoom, shadow_pages};
ghost use Rattle.osc_paging.specs.TableChanges.{map_pages};
ghost use Rattle.osc_tables.specs.Calls.{changed};
ghost use Rattle.osc_space.specs.BlockWords.{block_mappings};
ghost use Rattle.osc_space.specs.Free.{unmap_all};
ghost use Rattle.osc_shadow.specs.Mapping.{CanMap};
ghost use Rattle.osc_shadow.specs.Unmapping.{CanUnmap, AreUnmapped};

use osc_class::shadow_pages;
use osc_frames::Frames;
use osc_heap::{Block, CanonHeap};
use osc_sv39::{Mapping, PteBits};
use osc_tables::Tables;
use osc_word::{Jobs, Page};

/// The flags V, R, W, U, A and D of the leaf of a shadow page.
const READ_WRITE: PteBits = PteBits(0xd7);

/// Maps the pages of a block, from this shadow page on.
pub fn map_shadows(
    tables: &mut Tables,
    heap: &CanonHeap,
    first: Page,
    block: Block,
    frames: &mut Frames,
    jobs: &mut Jobs,
)
    requires is_room { IsRoom block.room }
    requires can { CanMap tables.old frames.old jobs.old first (shadow_pages block.room) }
    ensures next { changed tables.new frames.new jobs.new.pushed
        ≡ map_pages first (block_mappings heap.now.pages block) (changed tables.old frames.old jobs.old.pushed) }
    ensures room { jobs.new.room ≡ jobs.old.room }
{
    let page = block.start / 4096;
    let count = shadow_pages(block.room);
    for k in 0..count {
        let mapping = Mapping {
            frame: heap.frame_at(page + k).unwrap_or(0),
            bits: READ_WRITE,
        };
        tables.map(first + k, mapping, frames, jobs);
    }
}

/// Unmaps so many pages from this one on. Their leaf tables stay.
pub fn unmap_shadows(tables: &mut Tables, first: Page, count: u32, jobs: &mut Jobs)
    requires can { CanUnmap tables.old jobs.old first count }
    ensures next { (free : List Bool) → changed tables.new free jobs.new.pushed
        ≡ unmap_all (range_with_len first count) (changed tables.old free jobs.old.pushed) }
    ensures tables { tables.new ≡ record tables.old { pages = tables.new.pages } }
    ensures pages { AreUnmapped first count tables.old tables.new }
    ensures few { length jobs.new.pushed ≤ length jobs.old.pushed + count }
    ensures room { jobs.new.room ≡ jobs.old.room }
{
    for k in 0..count {
        tables.unmap(first + u64::from(k), jobs);
    }
}
