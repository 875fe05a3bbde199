//! The words of a block, and the jobs on them. No piece crosses a frame.

ghost use Rattle.std.specs.Prelude.{◌≡◌, ◌+◌, ◌-◌, ◌*◌, ◌/◌, ◌<◌, ◌≤◌, ◌^◌, ◌++◌, length, map, min, max};
ghost use Rattle.osc_word.specs.JobList.{spare};
ghost use Rattle.osc_class.specs.Rooms.{IsRoom, block_bytes};
ghost use Rattle.osc_space.specs.BlockWords.{block_word, copy_jobs, header_jobs, part_job, stretch, stretches, trim_jobs, whole_end, zero_block, zero_jobs};
ghost use Rattle.osc_shadow.specs.Pieces.{copy_job, pieces, zero_job};

use osc_class::block_bytes;
use osc_heap::{Block, CanonHeap};
use osc_word::{Job, Jobs, WordAt};

/// The bytes of a block's header.
pub const HEADER: u64 = 16;

/// The bytes of a frame.
const FRAME: u64 = 4096;

/// The word so many bytes past a block's start.
pub fn block_word(heap: &CanonHeap, block: Block, offset: u64) -> WordAt
    requires { offset < 2 ^ 40 }
    ensures { result ≡ block_word heap.now.pages block offset }
{
    let past = block.start % FRAME + offset;
    WordAt {
        frame: heap
            .frame_at(block.start / FRAME + past / FRAME)
            .unwrap_or(0),
        index: (past % FRAME / 8) as u16,
    }
}

/// The words of one piece of 4096 bytes, among those from one offset to another, become 0.
fn zero_piece(heap: &CanonHeap, block: Block, piece: u64, from: u64, to: u64, jobs: &mut Jobs)
    requires piece { piece < 2 ^ 28 }
    requires to { to < 2 ^ 40 }
    requires spare { 0 < spare jobs.old }
    ensures pushed { jobs.new.pushed ≡ jobs.old.pushed
        ++ map (zero_job heap.now.pages block) (stretch (max from (4096 * piece)) (min to (4096 * piece + 4096))) }
    ensures few { length jobs.new.pushed ≤ length jobs.old.pushed + 1 }
    ensures room { jobs.new.room ≡ jobs.old.room }
{
    let first = from.max(FRAME * piece);
    let end = to.min(FRAME * piece + FRAME);
    if first < end {
        jobs.push(Job::ZeroWords {
            at: block_word(heap, block, first),
            count: ((end - first) / 8) as u16,
        });
    }
}

/// The words of a block from one offset to another become 0.
pub fn zero_words(heap: &CanonHeap, block: Block, from: u64, to: u64, jobs: &mut Jobs)
    requires to { to < 2 ^ 40 }
    requires spare { pieces to ≤ spare jobs.old }
    ensures pushed { jobs.new.pushed ≡ jobs.old.pushed ++ zero_jobs heap.now.pages block from to }
    ensures few { length jobs.new.pushed ≤ length jobs.old.pushed + pieces to }
    ensures room { jobs.new.room ≡ jobs.old.room }
{
    let count = to.div_ceil(FRAME);
    for piece in 0..count {
        zero_piece(heap, block, piece, from, to, jobs);
    }
}

/// All words after the header of a new block become 0, and it has its header.
pub fn fill_block(heap: &CanonHeap, block: Block, size: u64, jobs: &mut Jobs)
    requires is_room { IsRoom block.room }
    requires bytes { block_bytes block.room < 2 ^ 40 }
    requires start { block.start + 16 < 2 ^ 64 }
    requires spare { pieces (block_bytes block.room) + 2 ≤ spare jobs.old }
    ensures pushed { jobs.new.pushed ≡ jobs.old.pushed
        ++ (zero_block heap.now.pages block ++ header_jobs heap.now.pages block size) }
    ensures few { length jobs.new.pushed ≤ length jobs.old.pushed + (pieces (block_bytes block.room) + 2) }
    ensures room { jobs.new.room ≡ jobs.old.room }
{
    let bytes = block_bytes(block.room) as u64;
    zero_words(heap, block, HEADER, bytes, jobs);
    jobs.push(Job::PutWord {
        at: block_word(heap, block, 0),
        value: block.start + HEADER,
    });
    jobs.push(Job::PutWord {
        at: block_word(heap, block, 8),
        value: size,
    });
}

/// The words of one piece of 4096 bytes, among those from one offset to another, are copied into
/// another block.
fn copy_piece(heap: &CanonHeap, old: Block, block: Block, piece: u64, to: u64, jobs: &mut Jobs)
    requires piece { piece < 2 ^ 28 }
    requires to { to < 2 ^ 40 }
    requires spare { 0 < spare jobs.old }
    ensures pushed { jobs.new.pushed ≡ jobs.old.pushed
        ++ map (copy_job heap.now.pages old block) (stretch (max 16 (4096 * piece)) (min to (4096 * piece + 4096))) }
    ensures few { length jobs.new.pushed ≤ length jobs.old.pushed + 1 }
    ensures room { jobs.new.room ≡ jobs.old.room }
{
    let first = HEADER.max(FRAME * piece);
    let end = to.min(FRAME * piece + FRAME);
    if first < end {
        jobs.push(Job::CopyWords {
            from: block_word(heap, old, first),
            to: block_word(heap, block, first),
            count: ((end - first) / 8) as u16,
        });
    }
}

/// The whole words up to an offset are copied into another block, but for the header.
fn copy_words(heap: &CanonHeap, old: Block, block: Block, to: u64, jobs: &mut Jobs)
    requires to { to < 2 ^ 40 }
    requires spare { pieces to ≤ spare jobs.old }
    ensures pushed { jobs.new.pushed ≡ jobs.old.pushed
        ++ map (copy_job heap.now.pages old block) (stretches 16 to) }
    ensures few { length jobs.new.pushed ≤ length jobs.old.pushed + pieces to }
    ensures room { jobs.new.room ≡ jobs.old.room }
{
    let count = to.div_ceil(FRAME);
    for piece in 0..count {
        copy_piece(heap, old, block, piece, to, jobs);
    }
}

/// Where bytes are no whole words, the last of their words is copied with those bytes alone.
fn copy_part(heap: &CanonHeap, old: Block, block: Block, bytes: u64, jobs: &mut Jobs)
    requires bytes { bytes < 2 ^ 39 }
    requires spare { 0 < spare jobs.old }
    ensures pushed { jobs.new.pushed ≡ jobs.old.pushed ++ part_job heap.now.pages old block bytes }
    ensures few { length jobs.new.pushed ≤ length jobs.old.pushed + 1 }
    ensures room { jobs.new.room ≡ jobs.old.room }
{
    if bytes % 8 != 0 {
        let end = HEADER + bytes / 8 * 8;
        jobs.push(Job::CopyPart {
            from: block_word(heap, old, end),
            to: block_word(heap, block, end),
            bytes: (bytes % 8) as u8,
        });
    }
}

/// So many bytes after the header are copied into another block.
pub fn copy_bytes(heap: &CanonHeap, old: Block, block: Block, bytes: u64, jobs: &mut Jobs)
    requires bytes { bytes < 2 ^ 39 }
    requires spare { pieces (whole_end bytes) < spare jobs.old }
    ensures pushed { jobs.new.pushed ≡ jobs.old.pushed ++ copy_jobs heap.now.pages old block bytes }
    ensures few { length jobs.new.pushed ≤ length jobs.old.pushed + (pieces (whole_end bytes) + 1) }
    ensures room { jobs.new.room ≡ jobs.old.room }
{
    copy_words(heap, old, block, HEADER + bytes / 8 * 8, jobs);
    copy_part(heap, old, block, bytes, jobs);
}

/// Of a block that stays, so many bytes are kept and all after them become 0; the size is put anew.
pub fn trim_block(heap: &CanonHeap, block: Block, bytes: u64, size: u64, jobs: &mut Jobs)
    requires is_room { IsRoom block.room }
    requires block_bytes { block_bytes block.room < 2 ^ 40 }
    requires bytes { bytes < 2 ^ 39 }
    requires spare { pieces (block_bytes block.room) + 1 < spare jobs.old }
    ensures pushed { jobs.new.pushed ≡ jobs.old.pushed ++ trim_jobs heap.now.pages block bytes size }
    ensures few { length jobs.new.pushed ≤ length jobs.old.pushed + (pieces (block_bytes block.room) + 2) }
    ensures room { jobs.new.room ≡ jobs.old.room }
{
    copy_part(heap, block, block, bytes, jobs);
    let end = HEADER + bytes.div_ceil(8) * 8;
    zero_words(heap, block, end, block_bytes(block.room) as u64, jobs);
    jobs.push(Job::PutWord {
        at: block_word(heap, block, 8),
        value: size,
    });
}
