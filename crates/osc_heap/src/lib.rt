//! The canonical heap of one process: which blocks it holds, and which frames their pages have.
//!
//! Clauses see a `CanonHeap` as its frame count, its held blocks and the pages that hold a block, as
//! `osc_slot` defines them.
#![tactic(auto)]

mod area;
mod area_list;
mod areas;
mod page_sets;
mod page_table;
mod pages;
mod reserved;
mod rest;
mod slot_bits;
mod slots;

ghost use Rattle.std.specs.Prelude.{◌≡◌, ◌+◌, ◌/◌, ◌<◌, ◌≤◌, filter, length, is_some, not, true, Some, IfOk, IfSome};
ghost use Rattle.std.specs.List.{range_with_len};
ghost use Rattle.osc_class.specs.Rooms.{IsRoom, shadow_pages};
ghost use Rattle.osc_slot.specs.Slots.{is_held, is_covered, least_start, need};
ghost use Rattle.osc_slot.specs.Heap.{IsHeap, FramesAgree, AreNames, empty_heap, next_block, place, release, without_block, clear, copy, frame_of, block_of_user, free_count};

use crate::area_list::Areas;
use crate::page_sets::PageSets;
use crate::pages::HeldPages;
use osc_class::Room;
use osc_frames::Frames;
pub use osc_slot::Block;
use std::alloc::{AllocError, Global};
use std::marker::Model;

/// The bytes of a block's header, after which its user address stands.
const HEADER: u64 = 16;

/// The canonical heap of one process, in a machine of some frames.
#[derive(Drop)]
pub struct CanonHeap {
    frames: u32,
    areas: Areas,
    told: Vec<PageSets>,
    pages: HeldPages,
}

impl Model for CanonHeap {
    ghost use Rattle.osc_slot.specs.Heap.{Heap};

    ghost Value = { Heap };

    ghost use Rattle.osc_heap.specs.Layout.{heap_of, pages_of, AreKept};

    ghost view = { λ heap. heap_of heap.frames heap.areas (pages_of heap.pages) };

    ghost invariant = { λ heap. AreKept heap.frames heap.areas heap.told.items heap.pages };
}

impl CanonHeap {
    /// A heap that holds no block, in a machine of so many frames. It takes all its room here.
    pub fn new(alloc: Global, frames: u32) -> Result<CanonHeap, AllocError>
        requires { frames ≤ 4096 }
        ensures { IfOk result (λ heap. (heap ≡ empty_heap frames) × IsHeap heap) }
    {
        let areas = Areas::new(alloc, frames)?;
        let told = areas::free_pages(alloc, frames)?;
        let pages = HeldPages::new(alloc, frames)?;
        Ok(CanonHeap {
            frames,
            areas,
            told,
            pages,
        })
    }

    /// The frames that the next block of a room newly takes.
    pub fn need(&self, room: Room) -> u64
        requires { IsRoom room }
        ensures need { result ≡ need self.now.frames self.now.held room }
        ensures valid { IsHeap self.now }
    {
        areas::need_over(&self.areas, &self.told, self.frames, room)
    }

    /// The frame of a page; None exactly where the page holds no block.
    pub fn frame_at(&self, page: u64) -> Option<u32>
        ensures frame { result ≡ frame_of self.now.pages page }
        ensures some { is_some result ≡ is_covered self.now.held page }
        ensures valid { IsHeap self.now }
    {
        self.pages.frame_of(page)
    }

    /// The held block with this user address, which is 16 past its start; None exactly where there is
    /// none.
    pub fn block_at(&self, user: u64) -> Option<Block>
        ensures block { result ≡ block_of_user self.now.held user }
        ensures held { IfSome result (λ block. (is_held self.now.held block ≡ true) × IsRoom block.room) }
        ensures valid { IsHeap self.now }
    {
        let frames = self.frames;
        if user < HEADER {
            return None;
        }
        let start = user - HEADER;
        let (room, slot) = slots::slot_at(frames, start)?;
        if areas::is_held(&self.areas, room, slot) {
            Some(Block { start, room })
        } else {
            None
        }
    }

    /// The next block of a room, before it is placed: the one that `place` answers.
    pub fn next_block(&self, room: Room, frames: &Frames) -> Block
        requires is_room { IsRoom room }
        requires frames_agree { FramesAgree self.now frames.now }
        requires enough { need self.now.frames self.now.held room ≤ free_count frames.now }
        ensures block { result ≡ next_block self.now room }
        ensures valid { IsHeap self.now }
    {
        prove!(self.need(room) <= u64::from(frames.free_count()));
        let slot = areas::least_slot(&self.areas, &self.told, self.frames, room).unwrap();
        let start = slots::start_of(self.frames, room, slot);
        Block { start, room }
    }

    /// How many pages of a held block, from its first on, hold no other.
    pub fn pages_alone(&self, block: Block) -> u64
        requires { is_held self.now.held block ≡ true }
        ensures pages { filter (λ page. not (is_covered (without_block block self.now.held) page))
            (range_with_len (block.start / 4096) (shadow_pages block.room)) ≡ range_with_len (block.start / 4096) result }
        ensures is_room { IsRoom block.room }
        ensures valid { IsHeap self.now }
    {
        let slot = slots::slot_near(self.frames, block.room, block.start);
        areas::own_pages(&self.areas, self.frames, block.room, slot)
    }

    /// Places the next block of a room: at the least free slot on a page of its class that holds a
    /// block, else at slot 0 of the least page that holds none; whole pages at the least free slot of
    /// theirs. The pages that it newly takes have the least free frames, in their order.
    pub fn place(&mut self, room: Room, frames: &mut Frames) -> Block
        requires is_room { IsRoom room }
        requires frames_agree { FramesAgree self.old frames.old }
        requires enough { need self.old.frames self.old.held room ≤ free_count frames.old }
        ensures start { Some result.start ≡ least_start self.old.frames self.old.held room }
        ensures block { result ≡ next_block self.old room }
        ensures held { is_held self.new.held result ≡ true }
        ensures heap { self.new ≡ (place self.old room frames.old).heap }
        ensures free { frames.new ≡ (place self.old room frames.old).free }
        ensures frames_agree { FramesAgree self.new frames.new }
        ensures same_frames { self.new.frames ≡ self.old.frames }
        ensures add_up { free_count frames.new + length self.new.pages ≡ free_count frames.old + length self.old.pages }
        ensures valid { IsHeap self.new }
    {
        let count = areas::need_over(&self.areas, &self.told, self.frames, room);
        let slot = areas::least_slot(&self.areas, &self.told, self.frames, room).unwrap();
        let start = slots::start_of(self.frames, room, slot);
        self.pages.back(frames, start / 4096, count);
        areas::set_slot(
            &mut self.areas,
            &mut self.told,
            self.frames,
            room,
            slot,
            true,
        );
        Block { start, room }
    }

    /// Releases a held block: the frames of the pages that hold no block any more are free.
    pub fn release(&mut self, block: Block, frames: &mut Frames)
        requires held { is_held self.old.held block ≡ true }
        requires frames_agree { FramesAgree self.old frames.old }
        ensures heap { self.new ≡ (release self.old block frames.old).heap }
        ensures free { frames.new ≡ (release self.old block frames.old).free }
        ensures frames_agree { FramesAgree self.new frames.new }
        ensures same_frames { self.new.frames ≡ self.old.frames }
        ensures add_up { free_count frames.new + length self.new.pages ≡ free_count frames.old + length self.old.pages }
        ensures valid { IsHeap self.new }
    {
        let slot = slots::slot_near(self.frames, block.room, block.start);
        areas::set_slot(
            &mut self.areas,
            &mut self.told,
            self.frames,
            block.room,
            slot,
            false,
        );
        let count = areas::pages_alone(&self.areas, self.frames, block.room, slot);
        self.pages.give_range(frames, block.start / 4096, count);
    }

    /// Copies the held blocks to the empty heap of a child, over the frames that `names` has for theirs.
    pub fn copy_to(&self, child: &mut CanonHeap, names: &[u32])
        requires empty { child.old ≡ empty_heap self.now.frames }
        requires names { AreNames self.now.frames names.now self.now.pages }
        ensures child { child.new ≡ copy names.now self.now }
        ensures valid { IsHeap self.now × IsHeap child.new }
    {
        child.areas.copy_from(&self.areas);
        areas::copy_told(&self.told, &mut child.told, self.frames);
        child.pages.copy_from(&self.pages, names);
    }

    /// Releases each block: the frames of all pages are free.
    pub fn clear(&mut self, frames: &mut Frames)
        requires { FramesAgree self.old frames.old }
        ensures heap { self.new ≡ (clear self.old frames.old).heap }
        ensures free { frames.new ≡ (clear self.old frames.old).free }
        ensures frames_agree { FramesAgree self.new frames.new }
        ensures same_frames { self.new.frames ≡ self.old.frames }
        ensures add_up { free_count frames.new ≡ free_count frames.old + length self.old.pages }
        ensures valid { IsHeap self.new }
    {
        self.pages.clear(frames);
        self.areas.clear();
        areas::clear_told(&mut self.told, self.frames);
    }
}

#[cfg(test)]
mod tests;
