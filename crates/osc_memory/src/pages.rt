//! The pages of image and stack of one process, each found at once by its number.

ghost use Rattle.std.specs.Prelude.{◌≡◌, ◌≤◌, ◌<◌, ◌+◌, ℕ, Some, IfSome, IfOk, ◌==◌, slice_get, unwrap_or, length, take};
ghost use Rattle.std.specs.Option.{option_map, option_and_then};
ghost use Rattle.osc_world.specs.Values as values;
ghost use Rattle.osc_world.specs.World as world;
ghost use Rattle.osc_world.specs.Accesses as accesses;
ghost use Rattle.osc_memory.specs.Slots.{slot, is_page, AreApart, Stand};

use bitflags::Flags;
use osc_sv39::{Access, PteBits};
use osc_values::Row;
use osc_word::address_map::{FIRST_STACK_PAGE, STACK_PAGES};
use osc_world::Value;
use std::alloc::{AllocError, Global};
use std::marker::Model;

/// A page of image or stack: its address divided by 4096, what it allows, and its bytes.
#[derive(Drop)]
pub struct Page {
    pub number: u32,
    pub bits: PteBits,
    pub row: Row,
}

impl Model for Page {
    ghost use Rattle.osc_world.specs.World.{Page};

    ghost Value = { Page };

    ghost view = { λ p. record { number = p.number; bits = p.bits; bytes = p.row } };
}

/// Whether permissions let an access pass.
#[tactic(auto, using(osc_sv39::proofs::FlagTests::flag_tests))]
pub fn lets(bits: PteBits, access: Access) -> bool
    ensures { result ≡ accesses.lets access bits }
{
    let needed = match access {
        Access::Fetch => PteBits::X,
        Access::Load => PteBits::R,
        Access::Store => PteBits::W,
    };
    bits.contains(needed)
}

impl Page {
    /// A page with these bytes.
    pub fn new(number: u32, bits: PteBits, row: Row) -> Page
        ensures { result ≡ record { number = number; bits = bits; bytes = row } }
    {
        Page { number, bits, row }
    }

    /// The same page once more. An `Err` is want of memory.
    fn copied(&self, alloc: Global) -> Result<Page, AllocError>
        ensures { IfOk result (λ page. page ≡ self.now) }
    {
        Ok(Page {
            number: self.number,
            bits: self.bits,
            row: self.row.copied(alloc)?,
        })
    }

    /// Whether this is the page of a number.
    fn is_numbered(&self, number: u64) -> bool
        ensures { result ≡ (self.now.number == number) }
    {
        u64::from(self.number) == number
    }

    /// Stores a value where this is the page of a number; see `Row::put`.
    fn put_if(&mut self, number: u32, offset: u64, width: u8, value: Value)
        ensures { self.new ≡ accesses.page_overlaid number offset (values.spread width value) self.old }
    {
        if self.number == number {
            self.row.put(offset, width, value);
        }
    }
}

/// The slot of a page number: the stack comes first, and then all other pages by their numbers.
fn slot_of(number: u64) -> u64
    ensures value { result ≡ slot number }
    ensures bound { result ≤ number + 16 }
{
    if number >= FIRST_STACK_PAGE {
        number - FIRST_STACK_PAGE
    } else {
        number + STACK_PAGES
    }
}

/// What stands in a slot, else 0.
fn place_in(places: &[usize], slot: u64) -> usize
    ensures { result ≡ unwrap_or (slice_get places.now slot) 0 }
{
    if slot < places.len() as u64 {
        places[slot as usize]
    } else {
        0
    }
}

/// Whether the page of a number stands at a place.
fn is_page_at(pages: &[Page], place: usize, number: u64) -> bool
    ensures { result ≡ is_page number (slice_get pages.now place) }
{
    place < pages.len() && pages[place].is_numbered(number)
}

/// How many slots these pages need.
fn slots_of(pages: &[Page]) -> usize
    ensures { (i : ℕ) (page : world.Page) → slice_get pages.now i ≡ Some page → slot page.number < result }
{
    let mut count = 0;
    for page in pages {
        let slot = slot_of(u64::from(page.number)) as usize;
        count = count.max(slot + 1);
    }
    count
}

/// The place of each page, in its slot. An `Err` is want of memory.
fn places_of(alloc: Global, pages: &[Page]) -> Result<Vec<usize>, AllocError>
    requires { AreApart pages.now }
    ensures { IfOk result (λ places. Stand places.items pages.now) }
{
    let mut places = vec![in alloc; 0; slots_of(pages)]?;
    for place in 0..pages.len() {
        let page = &pages[place];
        let slot = slot_of(u64::from(page.number)) as usize;
        places[slot] = place;
    }
    Ok(places)
}

/// The pages once more. An `Err` is want of memory.
fn pages_copied(alloc: Global, pages: &[Page]) -> Result<Vec<Page>, AllocError>
    ensures { IfOk result (λ copy. copy.items ≡ pages.now) }
{
    let mut copy = Vec::with_capacity(alloc, pages.len())?;
    for page in pages {
        copy.push(page.copied(alloc)?)?;
    }
    Ok(copy)
}

/// Pages, and for each slot the place of its page. No look-up goes through them all.
#[derive(Drop)]
pub struct Pages {
    list: Vec<Page>,
    places: Vec<usize>,
}

impl Model for Pages {
    ghost use Rattle.std.specs.Prelude.{List};
    ghost use Rattle.osc_world.specs.World.{Page};
    ghost use Rattle.osc_memory.specs.Slots.{Stand};

    ghost Value = { List Page };

    ghost view = { λ p. p.list.items };

    ghost invariant = { λ p. Stand p.places.items p.list.items };
}

impl Pages {
    ghost use Rattle.std.specs.Prelude.{◌≡◌, ◌<◌, IfSome, IfOk, slice_get, length, map};
    ghost use Rattle.std.specs.Option.{option_map, option_and_then};
    ghost use Rattle.osc_world.specs.Values as values;
    ghost use Rattle.osc_world.specs.Accesses as accesses;
    ghost use Rattle.osc_memory.specs.Slots.{AreApart};

    /// These pages, no two of which have one slot. An `Err` is want of memory.
    pub fn new(alloc: Global, list: Vec<Page>) -> Result<Pages, AllocError>
        requires { AreApart list.items }
        ensures { IfOk result (λ pages. pages ≡ list.items) }
    {
        let places = places_of(alloc, &list)?;
        Ok(Pages { list, places })
    }

    /// The same pages once more. An `Err` is want of memory.
    pub fn copied(&self, alloc: Global) -> Result<Pages, AllocError>
        ensures { IfOk result (λ copy. copy ≡ self.now) }
    {
        Ok(Pages {
            list: pages_copied(alloc, &self.list)?,
            places: Vec::from_slice(alloc, &self.places)?,
        })
    }

    /// The place of the page of a number; None exactly where there is none.
    fn place_of(&self, number: u64) -> Option<usize>
        ensures inside { IfSome result (λ i. i < length self.now) }
        ensures page { option_and_then (slice_get self.now) result ≡ accesses.memory_page self.now number }
    {
        let place = place_in(&self.places, slot_of(number));
        if is_page_at(&self.list, place, number) {
            Some(place)
        } else {
            None
        }
    }

    /// The page of a number; None exactly where there is none.
    pub fn page(&self, number: u64) -> Option<&Page>
        ensures { option_map (λ page. page.now) result ≡ accesses.memory_page self.now number }
    {
        match self.place_of(number) {
            Some(place) => Some(&self.list[place]),
            None => None,
        }
    }

    /// Stores a value in the page of a number, if there is one; see `Row::put`.
    pub fn put(&mut self, number: u32, offset: u64, width: u8, value: Value)
        ensures { self.new ≡ map (accesses.page_overlaid number offset (values.spread width value)) self.old }
    {
        match self.place_of(u64::from(number)) {
            Some(place) => self.list[place].put_if(number, offset, width, value),
            None => {}
        }
    }
}
