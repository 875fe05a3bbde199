//! What is given back when a call returns, and when a process ends.

ghost use Rattle.std.specs.Prelude.{◌≡◌, ◌+◌, ◌<◌, ◌^◌, List, [], MatchOption, true};
ghost use Rattle.osc_word.specs.declared.job_list.Job.{Job};
ghost use Rattle.osc_slot.specs.Heap.{FramesAgree, IsHeap, release};
ghost use Rattle.osc_fork.specs.Names.{IsFirst, frames_between, pages_between};
ghost use Rattle.osc_space.specs.Finish.{ended, finished};
ghost use Rattle.osc_space.specs.Fork.{set_free};
ghost use Rattle.osc_tables.specs.Calls.{IsOrdered};
ghost use Rattle.osc_process.specs.Returns.{AreSmall, CanEnd, CanGive, CanReturn, blocks_given, heap_and_free, over};
ghost use Rattle.osc_process.specs.Parts.{SameSizes, draft_at, with_space};

use crate::given::is_block;
use crate::{Closing, Process};
use osc_frames::Frames;
use osc_heap::{Block, CanonHeap};
use osc_paging::Mapped;
use osc_shadow::HEADER;
use osc_share::Regions;
use osc_tables::Tables;
use osc_word::Page;
use osc_word::address_map::FIRST_SHARED_PAGE;

/// Heaps always have their blocks in their areas. No page is looked for: none has this number.
fn know_heap(heap: &CanonHeap)
    ensures { IsHeap heap.now }
{
    let _none = heap.frame_at(u64::MAX);
}

/// Releases a block, where it is held.
fn release_held(heap: &mut CanonHeap, block: Block, frames: &mut Frames)
    requires small { block.start + 16 < 2 ^ 64 }
    requires agree { FramesAgree heap.old frames.old }
    ensures after { heap_and_free heap.new frames.new ≡ release heap.old block frames.old }
    ensures agree { FramesAgree heap.new frames.new }
{
    let Some(held) = heap.block_at(block.start + HEADER) else {
        return;
    };
    if is_block(held, block) {
        heap.release(held, frames);
    }
}

/// Releases blocks in their order.
fn give_blocks(heap: &mut CanonHeap, blocks: &[Block], frames: &mut Frames)
    requires agree { FramesAgree heap.old frames.old }
    requires small { AreSmall blocks.now }
    ensures after { heap_and_free heap.new frames.new ≡ blocks_given blocks.now (heap_and_free heap.old frames.old) }
{
    for block in blocks {
        release_held(heap, *block, frames);
    }
}

impl Process {
    /// The call under way returns: the blocks that it gives back are released in their order, the frames
    /// of the leaf tables that stand aside are free, and none waits any more. Where nothing is given
    /// back, nothing changes.
    pub fn finish(&mut self, closing: &Closing, frames: &mut Frames)
        requires returns { CanReturn closing.now self.old.space frames.old }
        ensures after { (jobs : List Job) → draft_at self.new frames.new jobs
            ≡ finished closing.now (draft_at self.old frames.old jobs) }
        ensures rest { self.new ≡ with_space self.new.space self.old }
        ensures sizes { SameSizes self.old.space self.new.space }
    {
        let Some(given) = closing.blocks() else {
            return;
        };
        know_heap(&self.space.heap);
        give_blocks(&mut self.space.heap, given, frames);
        self.waiting.clear();
        self.space.tables.give_leaves(frames);
    }
}

/// The first mapped page of the image or the stack from one on.
fn next_image(tables: &Tables, from: Page) -> Option<Mapped>
    ensures first { MatchOption result (pages_between from 2097152 tables.now ≡ []) (IsFirst from 2097152 tables.now) }
    ensures order { IsOrdered tables.now }
{
    match tables.next_page(from) {
        Some(page) if page < FIRST_SHARED_PAGE => {
            let mapping = tables.at(page).unwrap();
            Some(Mapped {
                number: page,
                mapping,
            })
        }
        _ => None,
    }
}

/// The frames of the image and the stack are free.
fn give_images(tables: &Tables, frames: &mut Frames)
    requires { CanGive (frames_between 0 2097152 tables.now) frames.old }
    ensures { frames.new ≡ set_free true (frames_between 0 2097152 tables.now) frames.old }
{
    let mut from = 0;
    while let Some(next) = next_image(tables, from) {
        frames.give(next.mapping.frame);
        from = next.number + 1;
    }
}

impl Process {
    /// The process has ended with this status: it holds its regions no more, and all its frames are
    /// free, those of regions where nobody holds them any more. Its objects are kept for reports.
    pub fn end(&mut self, status: u8, regions: &mut Regions, frames: &mut Frames)
        requires can { CanEnd regions.old self.old.space frames.old }
        ensures process { self.new ≡ over status (ended regions.old self.old.space frames.old).space self.old }
        ensures regions { regions.new ≡ (ended regions.old self.old.space frames.old).regions }
        ensures free { frames.new ≡ (ended regions.old self.old.space frames.old).free }
        ensures sizes { SameSizes self.old.space self.new.space }
    {
        regions.leave(&self.space.tables, frames);
        self.space.heap.clear(frames);
        give_images(&self.space.tables, frames);
        self.space.tables.close(frames);
        self.waiting.clear();
        self.status = Some(status);
    }
}
