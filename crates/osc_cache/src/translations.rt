//! The cache of translations.

ghost use Rattle.std.specs.Prelude.{◌≡◌, ◌%◌, ◌↔◌, length};
ghost use Rattle.osc_paging.specs.Boxes.{look, filled, no_entries, seen_in};
ghost use Rattle.osc_paging.specs.declared.Look.TheVariants.{Miss};
ghost use Rattle.osc_cache.specs.Slots.{NoneAllows};

use osc_paging::{CacheEntry, Look};
use osc_sv39::{Access, Mapping, allows};
use std::marker::Model;

/// 32 slots. A translation of page p stands in slot p mod 32.
#[derive(Drop)]
pub struct Cache {
    slots: [Option<CacheEntry>; 32],
}

impl Model for Cache {
    ghost use Rattle.std.specs.Prelude.{List, Option};
    ghost use Rattle.osc_paging.specs.declared.CacheEntry.{CacheEntry};
    ghost use Rattle.osc_cache.specs.Slots.{StandInTheirSlots};

    ghost Value = { List (Option CacheEntry) };

    ghost view = { λ cache. cache.slots };

    ghost invariant = { λ cache. StandInTheirSlots cache.slots };
}

/// The slot of a page.
fn slot_of(page: u64) -> usize
    ensures { result ≡ page % 32 }
{
    (page % 32) as usize
}

/// What a slot shows of a page.
fn seen_in(slot: Option<CacheEntry>, page: u64, access: Access) -> Look
    ensures { result ≡ seen_in slot page access }
{
    match slot {
        Some(entry) if entry.page == page && allows(entry.mapping.bits, access) => Look::Hit(
            entry.mapping.frame,
        ),
        _ => Look::Miss,
    }
}

impl Cache {
    #[tactic(auto, unfolding(osc_paging::specs::Boxes::no_entries))]
    /// A cache without a translation.
    pub fn new() -> Cache
        ensures empty { result ≡ no_entries }
        ensures slots { length result ≡ 32 }
    {
        Cache { slots: [None; 32] }
    }

    /// The frame of a page, if a translation of it allows this access.
    #[inline(always)]
    pub fn look(&self, page: u64, access: Access) -> Look
        ensures seen { result ≡ look self.now page access }
        ensures miss { (result ≡ Miss) ↔ NoneAllows self.now page access }
        ensures slots { length self.now ≡ 32 }
    {
        seen_in(self.slots[slot_of(page)], page, access)
    }

    /// Keeps a translation, in place of what stands in its slot.
    pub fn fill(&mut self, page: u64, mapping: Mapping)
        ensures filled { self.new ≡ filled self.old page mapping }
        ensures slots { length self.new ≡ 32 }
    {
        self.slots[slot_of(page)] = Some(CacheEntry { page, mapping });
    }

    #[tactic(auto, unfolding(osc_paging::specs::Boxes::no_entries))]
    /// Drops all translations.
    pub fn clear(&mut self)
        ensures empty { self.new ≡ no_entries }
        ensures slots { length self.new ≡ 32 }
    {
        self.slots = [None; 32];
    }
}
