//! The slots of one area, each held or free.

ghost use Rattle.std.specs.Prelude.{◌≡◌, ◌+◌, ◌*◌, ◌^◌, ◌<◌, ◌≤◌, Bool, false, not, length, replicate, slice_set, IfOk, IfSome};
ghost use Rattle.osc_slot.specs.Least.{least, any};
ghost use Rattle.osc_heap.specs.Layout.{bit_at, free_row, page_held, page_beside};

use crate::reserved::fill_up;
use crate::slot_bits;
use std::alloc::{AllocError, Global};
use std::marker::Model;

/// The slots of an area, true where held.
#[derive(Drop)]
pub struct Area {
    slots: usize,
    /// The bits of the slots, as far as one was held so far. It has room for all.
    held: Vec<u64>,
}

impl Model for Area {
    ghost use Rattle.std.specs.Prelude.{◌+◌, ◌/◌, ◌^◌, ◌<◌, ◌≤◌, List, Bool, length};
    ghost use Rattle.std.specs.Vec.{vec_capacity};
    ghost use Rattle.osc_frames.specs.Words.{numbers_of};

    ghost Value = { List Bool };

    ghost view = { λ area. numbers_of area.held.items area.slots };

    ghost invariant = { λ area. (length area.held.items ≤ area.slots / 64 + 1) × (area.slots / 64 + 1 ≤ vec_capacity area.held) × (area.slots < 2 ^ 64) };
}

impl Area {
    /// An area of this many slots, all free.
    pub fn new(alloc: Global, slots: usize) -> Result<Area, AllocError>
        ensures { IfOk result (λ area. area ≡ replicate slots false) }
    {
        Ok(Area {
            slots,
            held: Vec::with_capacity(alloc, slots / 64 + 1)?,
        })
    }

    pub fn is_held(&self, slot: usize) -> bool
        ensures { result ≡ bit_at self.now slot }
    {
        slot < self.slots && slot_bits::is_set(&self.held, slot)
    }

    pub fn set(&mut self, slot: usize, held: bool)
        requires { slot < length self.old }
        ensures { self.new ≡ slice_set self.old slot held }
    {
        fill_up(&mut self.held, slot / 64 + 1, 0);
        slot_bits::set_bit(&mut self.held, slot, held);
    }

    /// Frees each slot.
    pub fn clear(&mut self)
        ensures { self.new ≡ free_row self.old }
    {
        self.held.clear();
    }

    /// Holds the slots that another area of this size holds.
    pub fn copy_from(&mut self, other: &Area)
        requires { length self.old ≡ length other.now }
        ensures { self.new ≡ other.now }
    {
        self.held.clear();
        self.held.extend_from_slice(&other.held).unwrap();
    }

    /// Whether a page holds a block, where a page has so many slots.
    pub fn has_block(&self, page: usize, slots: usize) -> bool
        requires { page * slots + slots ≤ length self.now }
        ensures { result ≡ page_held slots self.now page }
    {
        slot_bits::least_as(&self.held, page * slots, slots, true).is_some()
    }

    /// Whether a page holds a block at another slot than this one, where a page has so many slots.
    pub fn has_other(&self, page: usize, slots: usize, slot: usize) -> bool
        requires page { page * slots + slots ≤ length self.now }
        requires slot { (page * slots ≤ slot) × (slot < page * slots + slots) }
        ensures { result ≡ page_held slots (slice_set self.now slot false) page }
    {
        let held = self.held.as_slice();
        let first = page * slots;
        let end = first + slots;
        if slot_bits::least_as(held, first, slot - first, true).is_some() {
            return true;
        }
        slot_bits::least_as(held, slot + 1, end - (slot + 1), true).is_some()
    }

    /// The least free slot of a page that holds a block.
    pub fn free_beside(&self, page: usize, slots: usize) -> Option<usize>
        requires { page * slots + slots ≤ length self.now }
        ensures { result ≡ page_beside slots self.now page }
    {
        if self.has_block(page, slots) {
            slot_bits::least_as(&self.held, page * slots, slots, false)
        } else {
            None
        }
    }

    /// The least free slot of the area.
    pub fn least_free(&self) -> Option<usize>
        ensures { result ≡ least (λ slot. not (bit_at self.now slot)) 0 (length self.now) }
    {
        slot_bits::least_as(&self.held, 0, self.slots, false)
    }

    /// The least free one of so many slots from one on.
    pub fn free_from(&self, first: usize, count: usize) -> Option<usize>
        requires { first + count ≤ length self.now }
        ensures { result ≡ least (λ slot. not (bit_at self.now slot)) first count }
    {
        slot_bits::least_as(&self.held, first, count, false)
    }
}
