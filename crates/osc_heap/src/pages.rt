//! The pages that hold blocks, each with its frame: those of the classes by a table, the others in their order.

ghost use Rattle.std.specs.Prelude.{◌≡◌, ◌+◌, ◌*◌, ◌^◌, ◌<◌, ◌≤◌, filter, length, map, replicate, [], None, IfOk, ℕ};
ghost use Rattle.std.specs.Vec.{vec_capacity};
ghost use Rattle.osc_slot.specs.declared.HeapPage.{HeapPage};
ghost use Rattle.osc_slot.specs.Ordered.{IsAscending};
ghost use Rattle.osc_slot.specs.Areas.{first_page};
ghost use Rattle.osc_slot.specs.Heap.{frame_of, back, give_back, rename, HaveFrames};
ghost use Rattle.osc_heap.specs.Layout.{pages_from, pages_of, renamed, table_end, in_range, out_of_range, AreHeld, CanGiveBack};

use crate::page_table::PageTable;
use crate::rest;
use osc_frames::Frames;
use osc_slot::HeapPage;
use std::alloc::{AllocError, Global};

/// The page at 0x20_0000_0000.
const FIRST_PAGE: u64 = 0x200_0000;

/// The pages that hold blocks.
#[derive(Drop)]
pub struct HeldPages {
    /// The pages of the classes' areas.
    table: PageTable,
    /// The pages of blocks of whole pages, ascending.
    rest: Vec<HeapPage>,
}

impl HeldPages {
    /// No page, with room for a frame count of pages.
    pub fn new(alloc: Global, frames: u32) -> Result<HeldPages, AllocError>
        requires { frames ≤ 4096 }
        ensures held { IfOk result AreHeld }
        ensures none { IfOk result (λ pages. pages_of pages ≡ []) }
        ensures table { IfOk result (λ pages. length pages.table ≡ 13 * frames) }
        ensures room { IfOk result (λ pages. vec_capacity pages.rest ≡ frames) }
    {
        Ok(HeldPages {
            table: PageTable::new(alloc, frames)?,
            rest: Vec::with_capacity(alloc, frames as usize)?,
        })
    }

    /// The frame of a page; None exactly where the page has none.
    pub fn frame_of(&self, page: u64) -> Option<u32>
        requires held { AreHeld self.now }
        requires ascending { IsAscending (λ (p : HeapPage). p.page) (pages_of self.now) }
        ensures { result ≡ frame_of (pages_of self.now) page }
    {
        if page < FIRST_PAGE {
            return None;
        }
        let at = (page - FIRST_PAGE) as usize;
        if at < self.table.len() {
            return self.table.get(at);
        }
        rest::frame_of(&self.rest, page)
    }

    /// Gives `count` pages from `first` on the least free frames.
    pub fn back(&mut self, frames: &mut Frames, first: u64, count: u64)
        requires held { AreHeld self.old }
        requires fits { (first_page ≤ first) × (first + count < 2 ^ 40) }
        requires one { first < table_end self.old → count ≤ 1 }
        requires ascending { IsAscending (λ (p : HeapPage). p.page) (pages_of self.old) }
        requires fresh { (page : ℕ) → first ≤ page → page < first + count → frame_of (pages_of self.old) page ≡ None }
        requires room { length (pages_of self.old) + count ≤ vec_capacity self.old.rest }
        ensures pages { pages_of self.new ≡ (back count first (record { pages = pages_of self.old; free = frames.old })).pages }
        ensures free { frames.new ≡ (back count first (record { pages = pages_of self.old; free = frames.old })).free }
        ensures held { AreHeld self.new }
        ensures table { length self.new.table ≡ length self.old.table }
        ensures room { vec_capacity self.old.rest ≤ vec_capacity self.new.rest }
    {
        let at = (first - FIRST_PAGE) as usize;
        if at >= self.table.len() {
            rest::back(&mut self.rest, frames, first, count);
        } else if count > 0 {
            self.table.set(at, frames.take());
        }
    }

    /// Gives the frames of `count` pages from `first` on back, and leaves these pages out.
    pub fn give_range(&mut self, frames: &mut Frames, first: u64, count: u64)
        requires held { AreHeld self.old }
        requires fits { (first_page ≤ first) × (first + count < 2 ^ 40) }
        requires one { first < table_end self.old → count ≤ 1 }
        requires ascending { IsAscending (λ (p : HeapPage). p.page) (pages_of self.old) }
        requires taken { CanGiveBack frames.old (filter (in_range first count) (pages_of self.old)) }
        ensures pages { pages_of self.new ≡ filter (out_of_range first count) (pages_of self.old) }
        ensures free { frames.new ≡ give_back (filter (in_range first count) (pages_of self.old)) frames.old }
        ensures held { AreHeld self.new }
        ensures table { length self.new.table ≡ length self.old.table }
        ensures room { vec_capacity self.old.rest ≤ vec_capacity self.new.rest }
    {
        let at = (first - FIRST_PAGE) as usize;
        if at >= self.table.len() {
            rest::give_range(&mut self.rest, frames, first, count);
        } else if count > 0 {
            match self.table.get(at) {
                Some(frame) => {
                    frames.give(frame);
                    self.table.set(at, None);
                }
                None => {}
            }
        }
    }

    /// Gives the frames of all pages back, and leaves the pages out.
    pub fn clear(&mut self, frames: &mut Frames)
        requires held { AreHeld self.old }
        requires taken { CanGiveBack frames.old (pages_of self.old) }
        ensures pages { pages_of self.new ≡ [] }
        ensures free { frames.new ≡ give_back (pages_of self.old) frames.old }
        ensures held { AreHeld self.new }
        ensures table { length self.new.table ≡ length self.old.table }
        ensures room { vec_capacity self.old.rest ≤ vec_capacity self.new.rest }
    {
        give_table(&self.table, frames);
        rest::give_all(&self.rest, frames);
        self.table.clear();
        self.rest.clear();
    }

    /// Copies the pages of another heap to one that has none, each with the frame that `names` has for
    /// its own.
    pub fn copy_from(&mut self, other: &HeldPages, names: &[u32])
        requires empty { pages_of self.old ≡ [] }
        requires held { AreHeld self.old × AreHeld other.now }
        requires tables { length self.old.table ≡ length other.now.table }
        requires room { length (pages_of other.now) ≤ vec_capacity self.old.rest }
        requires names { HaveFrames (length names.now) (pages_of other.now) }
        ensures pages { pages_of self.new ≡ map (rename names.now) (pages_of other.now) }
        ensures held { AreHeld self.new }
        ensures table { length self.new.table ≡ length self.old.table }
        ensures room { vec_capacity self.old.rest ≤ vec_capacity self.new.rest }
    {
        self.table.copy_from(&other.table, names);
        rest::copy_all(&other.rest, &mut self.rest, names);
    }
}

// Gives the frames of a table's pages back.
fn give_table(table: &PageTable, frames: &mut Frames)
    requires { CanGiveBack frames.old (pages_from first_page table.now []) }
    ensures { frames.new ≡ give_back (pages_from first_page table.now []) frames.old }
{
    for at in 0..table.len() {
        match table.get(at) {
            Some(frame) => frames.give(frame),
            None => {}
        }
    }
}
