//! The plans of the plain heap: blocks at their canonical addresses, without objects and shadows. A
//! page is mapped when it takes its frame; only where a page holds no block any more is it unmapped,
//! and is the box of every hart cleared.
#![tactic(auto)]

mod blocks;

ghost use Rattle.std.specs.Prelude.{ℕ, ◌≡◌, ◌≤◌, Bool, List, length};
ghost use Rattle.osc_word.specs.declared.settings.HeapKind.TheVariants.{Plain};
ghost use Rattle.osc_slot.specs.Heap.{block_of_user};
ghost use Rattle.osc_space.specs.Agree.{HasSpare};
ghost use Rattle.osc_space.specs.PlainHeap.{plain_malloc_plan, plain_free_plan, plain_realloc_plan};
ghost use Rattle.osc_shadow.specs.Fits.{FitsAfter};
ghost use Rattle.osc_plain.specs.Plan.{PartsAgree, PartsAgreeOnFrames, draft, malloced_now, freed_now, realloced_now};

use crate::blocks::{give_block, is_room, kept_bytes, lacks_frames, let_go, move_block};
use osc_class::room_of;
use osc_frames::Frames;
use osc_heap::CanonHeap;
use osc_shadow::{HEADER, trim_block};
use osc_tables::Tables;
use osc_word::Jobs;

/// The answer to a malloc.
#[derive(Clone, Copy, Debug, PartialEq, Eq)]
pub enum PlainMalloced {
    Given { pointer: u64 },
    /// There are too few free frames.
    NoFrames,
}

/// The answer to a free.
#[derive(Clone, Copy, Debug, PartialEq, Eq)]
pub enum PlainFreed {
    Freed,
    /// No held block has this user address.
    NotAnObject,
}

/// The answer to a realloc.
#[derive(Clone, Copy, Debug, PartialEq, Eq)]
pub enum PlainRealloced {
    Placed { pointer: u64 },
    /// There are too few free frames.
    NoFrames,
    /// No held block has this user address.
    NotAnObject,
}

/// Plans a malloc of `n` bytes: the next block of its room, at its canonical address. It is NoFrames
/// exactly where the frames of its pages and of the tables missing over them are more than the free
/// ones, and changes nothing then. The parts agree again when the call returns.
#[tactic(auto, unfolding(osc_space::specs::PlainHeap::plain_malloc_plan))]
pub fn plain_malloc(
    tables: &mut Tables,
    heap: &mut CanonHeap,
    frames: &mut Frames,
    jobs: &mut Jobs,
    n: u64,
) -> PlainMalloced
    requires agree { PartsAgree tables.old heap.old frames.old }
    requires spare { HasSpare jobs.old (length frames.old) }
    ensures plan { (shadows : ℕ) → malloced_now result (draft shadows tables.new heap.new frames.new jobs.new.pushed)
        ≡ plain_malloc_plan n (draft shadows tables.old heap.old frames.old jobs.old.pushed) }
    ensures fits { (batch shadows : ℕ) → FitsAfter Plain batch (draft shadows tables.old heap.old frames.old jobs.old.pushed)
        (malloced_now result (draft shadows tables.new heap.new frames.new jobs.new.pushed)) }
    ensures room { jobs.new.room ≡ jobs.old.room }
{
    let room = room_of(n);
    if lacks_frames(tables, heap, frames, room) {
        return PlainMalloced::NoFrames;
    }
    let block = give_block(tables, heap, frames, jobs, room, n);
    PlainMalloced::Given {
        pointer: block.start + HEADER,
    }
}

/// Plans a free: the pages of the block that hold no other are unmapped. The block is given back when
/// the call returns. It is NotAnObject exactly where no held block has this user address, and changes
/// nothing then. The parts agree again when the call has returned.
#[tactic(auto, unfolding(osc_space::specs::PlainHeap::plain_free_plan))]
pub fn plain_free(
    tables: &mut Tables,
    heap: &mut CanonHeap,
    jobs: &mut Jobs,
    pointer: u64,
    harts: u32,
) -> PlainFreed
    requires agree { PartsAgreeOnFrames tables.old heap.old }
    requires harts { harts ≤ 8 }
    requires spare { HasSpare jobs.old heap.old.frames }
    ensures plan { (shadows : ℕ) (free : List Bool)
        → freed_now result (block_of_user heap.old.held pointer) (draft shadows tables.new heap.new free jobs.new.pushed)
        ≡ plain_free_plan harts pointer (draft shadows tables.old heap.old free jobs.old.pushed) }
    ensures fits { (batch shadows : ℕ) (free : List Bool) → FitsAfter Plain batch (draft shadows tables.old heap.old free jobs.old.pushed)
        (freed_now result (block_of_user heap.old.held pointer) (draft shadows tables.new heap.new free jobs.new.pushed)) }
    ensures room { jobs.new.room ≡ jobs.old.room }
{
    let Some(block) = heap.block_at(pointer) else {
        return PlainFreed::NotAnObject;
    };
    let_go(tables, heap, jobs, block, harts);
    PlainFreed::Freed
}

/// Plans a realloc to `n` bytes; `size` is the second word of the block's header, as it was found. The
/// block stays exactly where the room stays; else it is a malloc, a copy of the common bytes, and a
/// free. NotAnObject is tried first; a refusal changes nothing. The parts agree again when the call
/// has returned.
#[tactic(auto, unfolding(osc_space::specs::PlainHeap::plain_realloc_plan))]
pub fn plain_realloc(
    tables: &mut Tables,
    heap: &mut CanonHeap,
    frames: &mut Frames,
    jobs: &mut Jobs,
    pointer: u64,
    n: u64,
    size: u64,
    harts: u32,
) -> PlainRealloced
    requires agree { PartsAgree tables.old heap.old frames.old }
    requires harts { harts ≤ 8 }
    requires spare { HasSpare jobs.old (length frames.old) }
    ensures plan { (shadows : ℕ)
        → realloced_now result n (block_of_user heap.old.held pointer) (draft shadows tables.new heap.new frames.new jobs.new.pushed)
        ≡ plain_realloc_plan harts pointer n size (draft shadows tables.old heap.old frames.old jobs.old.pushed) }
    ensures fits { (batch shadows : ℕ) → FitsAfter Plain batch (draft shadows tables.old heap.old frames.old jobs.old.pushed)
        (realloced_now result n (block_of_user heap.old.held pointer) (draft shadows tables.new heap.new frames.new jobs.new.pushed)) }
    ensures room { jobs.new.room ≡ jobs.old.room }
{
    let Some(old) = heap.block_at(pointer) else {
        return PlainRealloced::NotAnObject;
    };
    let room = room_of(n);
    let bytes = kept_bytes(old, size, n);
    if is_room(room, old.room) {
        trim_block(heap, old, bytes, n, jobs);
        return PlainRealloced::Placed { pointer };
    }
    if lacks_frames(tables, heap, frames, room) {
        return PlainRealloced::NoFrames;
    }
    let block = move_block(tables, heap, frames, jobs, old, room, n, bytes, harts);
    PlainRealloced::Placed {
        pointer: block.start + HEADER,
    }
}

#[cfg(test)]
mod test_words;
#[cfg(test)]
mod tests;
