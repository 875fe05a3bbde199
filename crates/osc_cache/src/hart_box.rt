//! The box of a hart.

ghost use Rattle.std.specs.Prelude.{◌≡◌, length};

use crate::translations::Cache;
use osc_paging::Look;
use osc_sv39::{Access, Mapping};
use osc_word::Order;
use std::alloc::{AllocError, Global};
use std::marker::Model;

/// What a box holds.
#[derive(Drop)]
struct Contents {
    cache: Cache,
    order: Order,
}

/// A hart's cache, and one order to it. They stand behind one allocation, made with the box, so that
/// taking and giving a box copies a pointer.
#[derive(Drop)]
pub struct HartBox {
    contents: Box<Contents>,
}

impl Model for HartBox {
    ghost use Rattle.std.specs.Prelude.{◌≡◌, length};
    ghost use Rattle.osc_paging.specs.Boxes.{BoxState};

    ghost Value = { BoxState };

    ghost view = { λ hart_box. record {
      slots = hart_box.contents.value.cache;
      order = hart_box.contents.value.order;
    } };

    ghost invariant = { λ hart_box. length hart_box.contents.value.cache ≡ 32 };
}

impl HartBox {
    ghost use Rattle.std.specs.Prelude.{◌≡◌, ◌↔◌, IfOk, length};
    ghost use Rattle.osc_word.specs.declared.orders.Order.{Order};
    ghost use Rattle.osc_paging.specs.Boxes.{new_box, cleared, look, filled};

    /// A box with an empty cache and without an order. It takes memory.
    pub fn new(alloc: Global) -> Result<HartBox, AllocError>
        ensures { IfOk result (λ hart_box. hart_box ≡ new_box) }
    {
        let contents = Box::new(
            alloc,
            Contents {
                cache: Cache::new(),
                order: Order::Empty,
            },
        )?;
        Ok(HartBox { contents })
    }

    /// The frame of a page, if a translation of it allows this access.
    #[inline(always)]
    pub fn look(&self, page: u64, access: Access) -> Look
        ensures seen { result ≡ look self.now.slots page access }
        ensures slots { length self.now.slots ≡ 32 }
    {
        self.contents.cache.look(page, access)
    }

    /// Keeps a translation in the cache, in place of what stands in its slot.
    pub fn fill(&mut self, page: u64, mapping: Mapping)
        ensures filled { self.new ≡ record self.old { slots = filled self.old.slots page mapping } }
        ensures slots { length self.new.slots ≡ 32 }
    {
        self.contents.cache.fill(page, mapping);
    }

    /// Empties the cache. The order stays.
    pub fn clear(&mut self)
        ensures cleared { self.new ≡ cleared self.old }
        ensures slots { length self.new.slots ≡ 32 }
    {
        self.contents.cache.clear();
    }

    /// The order.
    pub fn order(&self) -> &Order
        ensures order { result.now ≡ self.now.order }
        ensures slots { length self.now.slots ≡ 32 }
    {
        &self.contents.order
    }

    /// Puts an order in place of the one that stands in the box.
    pub fn set_order(&mut self, order: Order)
        ensures order { self.new ≡ record self.old { order = order } }
        ensures slots { length self.new.slots ≡ 32 }
    {
        self.contents.order = order;
    }
}

/// A box has 32 slots. The function does nothing: it says so of any box.
pub fn has_32_slots(hart_box: &HartBox)
    ensures { length hart_box.now.slots ≡ 32 }
{
    let _ = &hart_box.contents;
}
