//! The pages of an area by what they hold, as sets of bits that tell their least page.

ghost use Rattle.std.specs.Prelude.{◌≡◌, ◌<◌, ◌≤◌, length, slice_set, IfOk};
ghost use Rattle.osc_frames.specs.Free.{least_free};
ghost use Rattle.osc_heap.specs.Layout.{no_block_on, with_page};

use osc_frames::{BitRow, Steps, least};
use std::alloc::{AllocError, Global};
use std::marker::Brand;
use std::sync::ledger::{Blank, Ledger};

/// The pages of one area that holds blocks, by the slots that are held on each.
#[derive(Drop)]
pub struct PageSets {
    /// How many pages the area has.
    count: u32,
    /// The pages with both a held and a free slot.
    partly: BitRow,
    /// The pages with no held slot.
    empty: BitRow,
}

impl PageSets {
    /// The pages of an area that holds no block.
    pub fn new(alloc: Global, count: u32) -> Result<PageSets, AllocError>
        requires { count ≤ 4096 }
        ensures { IfOk result (λ sets. sets ≡ no_block_on count) }
    {
        Ok(PageSets {
            count,
            partly: BitRow::new(alloc, count, false)?,
            empty: BitRow::new(alloc, count, true)?,
        })
    }

    /// The least page with both a held and a free slot.
    pub fn first_partly(&self) -> Option<u32>
        ensures { result ≡ least_free self.now.partly }
    {
        least_of::<Brand>(&self.partly, Blank::new(1))
    }

    /// The least page with no held slot.
    pub fn first_empty(&self) -> Option<u32>
        ensures { result ≡ least_free self.now.empty }
    {
        least_of::<Brand>(&self.empty, Blank::new(1))
    }

    /// Tells whether a page has both a held and a free slot, and whether it has no held one.
    pub fn tell(&mut self, page: u32, partly: bool, empty: bool)
        requires { (page < length self.old.partly) × (page < length self.old.empty) }
        ensures { self.new ≡ with_page self.old page partly empty }
    {
        put_if(&mut self.partly, page, partly);
        put_if(&mut self.empty, page, empty);
    }

    /// No page holds a block.
    pub fn clear(&mut self)
        requires { (length self.old.partly ≡ self.old.count) × (length self.old.empty ≡ self.old.count) }
        ensures { self.new ≡ no_block_on self.old.count }
    {
        for page in 0..self.count {
            self.partly.drop_out(page);
            self.empty.put(page);
        }
    }

    /// What another area of this many pages tells.
    pub fn copy_from(&mut self, other: &PageSets)
        requires counts { self.old.count ≡ other.now.count }
        requires own { (length self.old.partly ≡ self.old.count) × (length self.old.empty ≡ self.old.count) }
        requires others { (length other.now.partly ≡ other.now.count) × (length other.now.empty ≡ other.now.count) }
        ensures { self.new ≡ other.now }
    {
        for page in 0..self.count {
            put_if(&mut self.partly, page, other.partly.contains(page));
            put_if(&mut self.empty, page, other.empty.contains(page));
        }
    }
}

// Puts a number into a set, or takes it out.
fn put_if(row: &mut BitRow, i: u32, within: bool)
    requires { i < length row.old }
    ensures { row.new ≡ slice_set row.old i within }
{
    if within {
        row.put(i);
    } else {
        row.drop_out(i);
    }
}

// The least number of a set, for a caller that counts no steps.
fn least_of<L: Ledger>(row: &BitRow, blank: Blank) -> Option<u32>
    requires name { blank.name ≡ L.name }
    requires parts { blank.parts ≡ L.parts }
    requires some { 0 < blank.parts }
    ensures { result ≡ least_free row.now }
{
    let mut steps = Steps::new(blank);
    least::<BitRow, L>(row, &mut steps)
}
