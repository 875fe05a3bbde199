//! A block is placed and its new pages are mapped, and the pages that it leaves are unmapped.

ghost use Rattle.std.specs.Prelude.{ℕ, ◌≡◌, ◌+◌, ◌*◌, ◌^◌, ◌<◌, ◌≤◌, ◌++◌, Bool, List, true, false, is_some, length};
ghost use Rattle.osc_word.specs.JobList.{spare};
ghost use Rattle.osc_class.specs.Rooms.{IsRoom, block_bytes};
ghost use Rattle.osc_slot.specs.Slots.{is_held, is_on, is_room};
ghost use Rattle.osc_slot.specs.declared.Block.{Block};
ghost use Rattle.osc_slot.specs.Heap.{IsHeap, next_block};
ghost use Rattle.osc_paging.specs.KeptTables.{mapping_at};
ghost use Rattle.osc_space.specs.Agree.{HasSpare};
ghost use Rattle.osc_space.specs.Free.{clear_jobs};
ghost use Rattle.osc_space.specs.PlainHeap.{copy_block, kept_bytes, let_go_plain, place_plain};
ghost use Rattle.osc_plain.specs.Plan.{PartsAgree, draft, lacks};

use osc_class::{Room, block_bytes};
use osc_frames::Frames;
use osc_heap::{Block, CanonHeap};
use osc_shadow::{HEADER, copy_bytes, fill_block, know_tables, map_shadows, unmap_shadows};
use osc_tables::Tables;
use osc_word::{Job, Jobs};

/// Whether the frames that the next block of a room newly takes, and those of the tables that are
/// missing over its new pages, are more than the free ones.
pub fn lacks_frames(tables: &Tables, heap: &CanonHeap, frames: &Frames, room: Room) -> bool
    requires is_room { IsRoom room }
    requires agree { PartsAgree tables.now heap.now frames.now }
    ensures { result ≡ lacks tables.now heap.now frames.now room }
{
    let pages = heap.need(room);
    let free = u64::from(frames.free_count());
    if pages > free {
        return true;
    }
    let block = heap.next_block(room, frames);
    know_tables(tables);
    tables.need(block.start / 4096, pages) > free - pages
}

/// Places the next block of a room for so many bytes: it has its header and else zeros, and the pages
/// that it newly took are mapped.
pub fn give_block(
    tables: &mut Tables,
    heap: &mut CanonHeap,
    frames: &mut Frames,
    jobs: &mut Jobs,
    room: Room,
    size: u64,
) -> Block
    requires is_room { IsRoom room }
    requires agree { PartsAgree tables.old heap.old frames.old }
    requires spare { HasSpare jobs.old (length frames.old) }
    requires enough { lacks tables.old heap.old frames.old room ≡ false }
    ensures block { result ≡ next_block heap.old room }
    ensures plan { (shadows : ℕ) → draft shadows tables.new heap.new frames.new jobs.new.pushed
        ≡ place_plain size (next_block heap.old room) (draft shadows tables.old heap.old frames.old jobs.old.pushed) }
    ensures same_frames { heap.new.frames ≡ heap.old.frames }
    ensures held { (b : Block) → is_held heap.old.held b ≡ true → is_held heap.new.held b ≡ true }
    ensures mapped { (page : ℕ) → is_some (mapping_at tables.old.pages page) ≡ true → is_some (mapping_at tables.new.pages page) ≡ true }
    ensures few { length jobs.new.pushed ≤ length jobs.old.pushed + 4 * length frames.old + 4 }
    ensures room { jobs.new.room ≡ jobs.old.room }
{
    know_tables(tables);
    let pages = heap.need(room);
    let block = heap.place(room, frames);
    fill_block(heap, block, size, jobs);
    if pages == 0 {
        return block;
    }
    map_shadows(tables, heap, block.start / 4096, block, frames, jobs);
    block
}

/// The box of each hart is to be cleared, ascending.
fn clear_boxes(harts: u32, jobs: &mut Jobs)
    requires spare { harts ≤ spare jobs.old }
    ensures pushed { jobs.new.pushed ≡ jobs.old.pushed ++ clear_jobs harts }
    ensures few { length jobs.new.pushed ≤ length jobs.old.pushed + harts }
    ensures room { jobs.new.room ≡ jobs.old.room }
{
    for hart in 0..harts {
        jobs.push(Job::ClearBox { hart });
    }
}

/// Unmaps the pages of a held block that hold no other; the box of each hart is to be cleared where
/// there are any.
pub fn let_go(tables: &mut Tables, heap: &CanonHeap, jobs: &mut Jobs, block: Block, harts: u32)
    requires held { is_held heap.now.held block ≡ true }
    requires few { heap.now.frames ≤ 4096 }
    requires mapped { (page : ℕ) → is_on page block ≡ true → is_some (mapping_at tables.old.pages page) ≡ true }
    requires spare { heap.now.frames + harts ≤ spare jobs.old }
    ensures plan { (shadows : ℕ) (free : List Bool) → draft shadows tables.new heap.now free jobs.new.pushed
        ≡ let_go_plain harts block (draft shadows tables.old heap.now free jobs.old.pushed) }
    ensures room { jobs.new.room ≡ jobs.old.room }
{
    know_tables(tables);
    let pages = heap.pages_alone(block);
    if pages == 0 {
        return;
    }
    unmap_shadows(tables, block.start / 4096, pages as u32, jobs);
    clear_boxes(harts, jobs);
}

/// Whether two rooms are the same.
pub fn is_room(a: Room, b: Room) -> bool
    ensures { result ≡ is_room a b }
{
    match (a, b) {
        (Room::Small(a), Room::Small(b)) => a == b,
        (Room::Pages(a), Room::Pages(b)) => a == b,
        _ => false,
    }
}

/// The bytes of a block that are kept where `n` are asked for: no more than `size`, the old size as it
/// was found, than the block has, and than `n`.
pub fn kept_bytes(block: Block, size: u64, n: u64) -> u64
    requires is_room { IsRoom block.room }
    requires bytes { block_bytes block.room < 2 ^ 39 }
    ensures kept { result ≡ kept_bytes block size n }
    ensures within { 16 + result ≤ block_bytes block.room }
{
    let bytes = block_bytes(block.room) as u64;
    size.min(bytes - HEADER).min(n)
}

/// Moves a held block to the next one of a room: that one is placed for so many bytes, the bytes that
/// are kept are copied, and the old pages are let go.
pub fn move_block(
    tables: &mut Tables,
    heap: &mut CanonHeap,
    frames: &mut Frames,
    jobs: &mut Jobs,
    old: Block,
    room: Room,
    size: u64,
    kept: u64,
    harts: u32,
) -> Block
    requires is_room { IsRoom room }
    requires agree { PartsAgree tables.old heap.old frames.old }
    requires spare { HasSpare jobs.old (length frames.old) }
    requires enough { lacks tables.old heap.old frames.old room ≡ false }
    requires valid { IsHeap heap.old }
    requires held { is_held heap.old.held old ≡ true }
    requires kept { 16 + kept ≤ block_bytes old.room }
    requires harts { harts ≤ 8 }
    ensures block { result ≡ next_block heap.old room }
    ensures plan { (shadows : ℕ) → draft shadows tables.new heap.new frames.new jobs.new.pushed
        ≡ let_go_plain harts old (copy_block old (next_block heap.old room) kept
        (place_plain size (next_block heap.old room) (draft shadows tables.old heap.old frames.old jobs.old.pushed))) }
    ensures room { jobs.new.room ≡ jobs.old.room }
{
    let block = give_block(tables, heap, frames, jobs, room, size);
    copy_bytes(heap, old, block, kept, jobs);
    let_go(tables, heap, jobs, old, harts);
    block
}
