//! The frames of the pages of the classes' areas.

ghost use Rattle.std.specs.Prelude.{ℕ, ◌≡◌, ◌*◌, ◌<◌, ◌≤◌, length, map, replicate, slice_index_or, slice_set, [], Some, None, IfOk};
ghost use Rattle.std.specs.Vec.{vec_capacity};
ghost use Rattle.osc_slot.specs.Areas.{first_page};
ghost use Rattle.osc_slot.specs.Heap.{HaveFrames};
ghost use Rattle.osc_heap.specs.Layout.{pages_from, renamed};
ghost use Rattle.osc_heap.specs.Table.{entry_place};

use crate::reserved::{fill_up, value_at};
use std::alloc::{AllocError, Global};
use std::marker::Model;

/// The classes, each with an area of as many pages as there are frames.
const CLASSES: usize = 13;

/// The frame of each page of the classes' areas, from the first page on; None where it holds no block.
#[derive(Drop)]
pub struct PageTable {
    frames: usize,
    /// The first pages of all areas, then their second ones, and so on, as far as pages were used. It has
    /// room for all. Since an area's least pages are used first, all entries that are used stand near
    /// the start.
    entries: Vec<Option<u32>>,
}

impl Model for PageTable {
    ghost use Rattle.std.specs.Prelude.{ℕ, ◌*◌, ◌≤◌, List, Option, length};
    ghost use Rattle.std.specs.Vec.{vec_capacity};
    ghost use Rattle.osc_heap.specs.Table.{table_of};

    ghost Value = { List (Option ℕ) };

    ghost view = { λ table. table_of table.frames table.entries.items };

    ghost invariant = { λ table. (table.frames ≤ 4096) × (length table.entries.items ≤ 13 * table.frames) × (13 * table.frames ≤ vec_capacity table.entries) };
}

impl PageTable {
    /// A table of the pages in a machine of so many frames, none of which holds a block.
    pub fn new(alloc: Global, frames: u32) -> Result<PageTable, AllocError>
        requires { frames ≤ 4096 }
        ensures { IfOk result (λ table. table ≡ replicate (13 * frames) None) }
    {
        let frames = frames as usize;
        Ok(PageTable {
            frames,
            entries: Vec::with_capacity(alloc, CLASSES * frames)?,
        })
    }

    /// How many pages the areas have.
    pub fn len(&self) -> usize
        ensures { result ≡ length self.now }
    {
        CLASSES * self.frames
    }

    /// The frame of a page.
    pub fn get(&self, at: usize) -> Option<u32>
        requires { at < length self.now }
        ensures { result ≡ slice_index_or self.now at None }
    {
        value_at(&self.entries, place_of(self.frames, at), None)
    }

    /// Sets the frame of a page.
    pub fn set(&mut self, at: usize, frame: Option<u32>)
        requires { at < length self.old }
        ensures { self.new ≡ slice_set self.old at frame }
    {
        let place = place_of(self.frames, at);
        fill_up(&mut self.entries, place + 1, None);
        self.entries[place] = frame;
    }

    /// Leaves each page out.
    pub fn clear(&mut self)
        ensures { self.new ≡ replicate (length self.old) None }
    {
        self.entries.clear();
    }

    /// Copies a table of as many pages, with the frame that `names` has for each.
    pub fn copy_from(&mut self, other: &PageTable, names: &[u32])
        requires lengths { length self.old ≡ length other.now }
        requires names { HaveFrames (length names.now) (pages_from first_page other.now []) }
        ensures { self.new ≡ map (renamed names.now) other.now }
    {
        self.entries.clear();
        copy_entries(&other.entries, &mut self.entries, names);
    }
}

// Copies entries to an empty list, with the frame that `names` has for each.
fn copy_entries(entries: &[Option<u32>], into: &mut Vec<Option<u32>>, names: &[u32])
    requires empty { into.old.items ≡ [] }
    requires room { length entries.now ≤ vec_capacity into.old }
    requires names { (at frame : ℕ) → at < length entries.now → slice_index_or entries.now at None ≡ Some frame → frame < length names.now }
    ensures entries { into.new.items ≡ map (renamed names.now) entries.now }
    ensures room { vec_capacity into.old ≤ vec_capacity into.new }
{
    for entry in entries {
        let named = match *entry {
            Some(frame) => Some(names[frame as usize]),
            None => None,
        };
        into.push(named).unwrap();
    }
}

// The place of a page's entry.
fn place_of(frames: usize, at: usize) -> usize
    requires frames { frames ≤ 4096 }
    requires within { at < 13 * frames }
    ensures place { result ≡ entry_place frames at }
    ensures bound { result < 13 * frames }
{
    at % frames * CLASSES + at / frames
}
