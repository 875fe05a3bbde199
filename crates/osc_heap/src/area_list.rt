//! The areas of a heap, each with a truth value for each of its slots: true where held.

ghost use Rattle.std.specs.Prelude.{ℕ, ◌≡◌, ◌+◌, ◌*◌, ◌<◌, ◌≤◌, ◌-◌, false, not, length, map, min, replicate, slice_index_or, slice_set, [], IfOk};
ghost use Rattle.osc_slot.specs.Least.{least};
ghost use Rattle.osc_slot.specs.Areas.{slots_in};
ghost use Rattle.osc_heap.specs.Layout.{room_at, bit_at, free_row, AreFree, AreSized};

use crate::area::Area;
use crate::slots::{room_at, slots_in};
use std::alloc::{AllocError, Global};
use std::marker::Model;

/// The areas that have room of their own. Each of the others has at most 64 slots.
const WIDE_AREAS: usize = 76;

/// The slots that are kept for each of the others.
const NARROW_SLOTS: usize = 64;

/// The areas of a heap.
#[derive(Drop)]
pub struct Areas {
    frames: u32,
    /// The areas of the classes and of blocks of up to 63 pages, as far as there are.
    wide: Vec<Area>,
    /// The slots of the other areas, one after the other.
    narrow: Area,
}

impl Model for Areas {
    ghost use Rattle.std.specs.Prelude.{◌≡◌, ◌+◌, ◌-◌, ◌*◌, ◌≤◌, List, Bool, length, min};
    ghost use Rattle.osc_heap.specs.Layout.{AreSized, rows_of};

    ghost Value = { List (List Bool) };

    ghost view = { λ areas. rows_of areas.frames areas.wide.items areas.narrow };

    ghost invariant = { λ areas. (areas.frames ≤ 4096) × (length areas.wide.items ≡ min (13 + areas.frames) 76) × AreSized areas.frames 0 areas.wide.items × (length areas.narrow ≡ 64 * (13 + areas.frames - 76)) };
}

impl Areas {
    /// The areas of a heap that holds no block.
    pub fn new(alloc: Global, frames: u32) -> Result<Areas, AllocError>
        requires { frames ≤ 4096 }
        ensures { IfOk result (λ areas. AreFree frames areas) }
    {
        let others = (13 + frames as usize).saturating_sub(WIDE_AREAS);
        Ok(Areas {
            frames,
            wide: wide_areas(alloc, frames)?,
            narrow: Area::new(alloc, NARROW_SLOTS * others)?,
        })
    }

    /// One of the areas that have room of their own.
    pub fn wide(&self, area: usize) -> &Area
        requires { (area < 76) × (area < length self.now) }
        ensures { result.now ≡ slice_index_or self.now area [] }
    {
        &self.wide[area]
    }

    /// Whether a slot is held.
    pub fn is_held(&self, area: usize, slot: usize) -> bool
        requires { area < length self.now }
        ensures { result ≡ bit_at (slice_index_or self.now area []) slot }
    {
        if area < WIDE_AREAS {
            return self.wide[area].is_held(slot);
        }
        slot < slots_in(self.frames, room_at(area)) && self.narrow.is_held(first_of(area) + slot)
    }

    /// Sets whether a slot is held.
    pub fn set(&mut self, area: usize, slot: usize, held: bool)
        requires area { area < length self.old }
        requires slot { slot < length (slice_index_or self.old area []) }
        ensures { self.new ≡ slice_set self.old area (slice_set (slice_index_or self.old area []) slot held) }
    {
        if area < WIDE_AREAS {
            self.wide[area].set(slot, held);
        } else {
            self.narrow.set(first_of(area) + slot, held);
        }
    }

    /// The least free slot of an area.
    pub fn least_free(&self, area: usize) -> Option<usize>
        requires { area < length self.now }
        ensures { result ≡ least (λ slot. not (bit_at (slice_index_or self.now area []) slot)) 0 (length (slice_index_or self.now area [])) }
    {
        if area < WIDE_AREAS {
            return self.wide[area].least_free();
        }
        let first = first_of(area);
        match self
            .narrow
            .free_from(first, slots_in(self.frames, room_at(area)))
        {
            Some(at) => Some(at - first),
            None => None,
        }
    }

    /// Frees each slot.
    pub fn clear(&mut self)
        ensures { self.new ≡ map free_row self.old }
    {
        clear_all(&mut self.wide);
        self.narrow.clear();
    }

    /// Holds the slots that as many other areas hold.
    pub fn copy_from(&mut self, other: &Areas)
        requires { length self.old ≡ length other.now }
        ensures { self.new ≡ other.now }
    {
        copy_all(&other.wide, &mut self.wide, self.frames);
        self.narrow.copy_from(&other.narrow);
    }
}

// The place of the first slot of an area that has no room of its own.
fn first_of(area: usize) -> usize
    requires { (76 ≤ area) × (area < 8192) }
    ensures { result ≡ 64 * (area - 76) }
{
    NARROW_SLOTS * (area - WIDE_AREAS)
}

// The areas that have room of their own, all free.
fn wide_areas(alloc: Global, frames: u32) -> Result<Vec<Area>, AllocError>
    requires { frames ≤ 4096 }
    ensures count { IfOk result (λ areas. length areas.items ≡ min (13 + frames) 76) }
    ensures free { IfOk result (λ areas. (area : ℕ) → area < length areas.items → slice_index_or areas.items area [] ≡ replicate (slots_in frames (room_at area)) false) }
{
    let count = (13 + frames as usize).min(WIDE_AREAS);
    let mut areas = Vec::with_capacity(alloc, count)?;
    for area in 0..count {
        areas.push(Area::new(alloc, slots_in(frames, room_at(area)))?)?;
    }
    Ok(areas)
}

// Frees each slot of each area.
fn clear_all(areas: &mut Vec<Area>)
    ensures { areas.new.items ≡ map free_row areas.old.items }
{
    for i in 0..areas.len() {
        areas[i].clear();
    }
}

// Holds the slots that other areas of these sizes hold.
fn copy_all(areas: &[Area], into: &mut Vec<Area>, frames: u32)
    requires lengths { length into.old.items ≡ length areas.now }
    requires sizes { AreSized frames 0 areas.now × AreSized frames 0 into.old.items }
    ensures { into.new.items ≡ areas.now }
{
    for i in 0..areas.len() {
        into[i].copy_from(&areas[i]);
    }
}
