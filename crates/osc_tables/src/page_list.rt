//! The mapped pages of a process, in the order of their numbers. An unmapped page leaves a gap at its
//! place, so that no page has to move, and the gaps are closed when they are more than half.
#![tactic(auto, using(crate::proofs::PagePlaces::page_places))]

ghost use Rattle.std.specs.Prelude.{◌≡◌, ◌+◌, ◌*◌, ◌-◌, ◌<◌, ◌≤◌, ℕ, length, All, map, [], IfOk, IfSome, MatchOption, None};
ghost use Rattle.std.specs.Vec.{vec_len, vec_capacity};
ghost use Rattle.osc_sv39.specs.declared.entries.Mapping.{Mapping};
ghost use Rattle.osc_paging.specs.declared.Mapped.{Mapped};
ghost use Rattle.osc_paging.specs.KeptTables.{mapping_at};
ghost use Rattle.osc_paging.specs.TableChanges.{renamed_page, with_page, without_page};
ghost use Rattle.osc_tables.specs.Listed.{first_number, least_number};
ghost use Rattle.osc_tables.specs.Slots.{pages_in, is_gap, renamed_mapping, renamed_slot, SlotsAscend, slot_place, StandsAt};

use osc_sv39::Mapping;
use std::alloc::{AllocError, Global};
use std::marker::Model;

/// The place of a page, or the gap that it left.
#[derive(Clone, Copy)]
struct Slot {
    number: u64,
    mapping: Option<Mapping>,
}

/// Mapped pages, with room for so many. There is memory for as many gaps beside them, so that a list
/// that is full of pages need not be closed at each change.
#[derive(Drop)]
pub struct PageList {
    slots: Vec<Slot>,
    mapped: u32,
    room: u32,
}

impl Model for PageList {
    ghost use Rattle.std.specs.Prelude.{◌*◌, ◌≤◌};
    ghost use Rattle.std.specs.Vec.{vec_capacity};
    ghost use Rattle.osc_tables.specs.Listed.{Listed};

    ghost Value = { Listed };

    ghost use Rattle.osc_tables.specs.Slots.{AreSlots, pages_in};

    ghost view = { λ l. record { pages = pages_in l.slots.items; room = l.room } };

    ghost invariant = { λ l. AreSlots l.slots.items l.mapped l.room × (2 * l.room ≤ vec_capacity l.slots) };
}

/// How many slots have a lower number.
fn place_for(slots: &[Slot], number: u64) -> usize
    requires { SlotsAscend 0 slots.now }
    ensures place { result ≡ slot_place number slots.now }
    ensures within { result ≤ length slots.now }
{
    let mut low = 0;
    let mut high = slots.len();
    while low < high {
        let middle = low + (high - low) / 2;
        if slots[middle].number < number {
            low = middle + 1;
        } else {
            high = middle;
        }
    }
    low
}

/// Whether there is a gap at a place.
fn is_gap(slots: &[Slot], at: usize) -> bool
    ensures { result ≡ is_gap slots.now at }
{
    if at < slots.len() {
        slots[at].mapping.is_none()
    } else {
        false
    }
}

/// The mapping of the page of a number.
fn mapping_at(slots: &[Slot], number: u64) -> Option<Mapping>
    requires { SlotsAscend 0 slots.now }
    ensures { result ≡ mapping_at (pages_in slots.now) number }
{
    let at = place_for(slots, number);
    if at < slots.len() {
        let slot = slots[at];
        if slot.number == number {
            return slot.mapping;
        }
    }
    None
}

/// Where the page of a number stands; None exactly where it is not mapped.
fn find_page(slots: &[Slot], number: u64) -> Option<usize>
    requires { SlotsAscend 0 slots.now }
    ensures { MatchOption result (mapping_at (pages_in slots.now) number ≡ None) (StandsAt number slots.now) }
{
    let at = place_for(slots, number);
    if at < slots.len() {
        let slot = slots[at];
        if slot.number == number && slot.mapping.is_some() {
            return Some(at);
        }
    }
    None
}

/// The number of the first page.
fn first_number(slots: &[Slot]) -> Option<u64>
    ensures { result ≡ first_number (pages_in slots.now) }
{
    for slot in slots {
        if slot.mapping.is_some() {
            return Some(slot.number);
        }
    }
    None
}

/// Puts a page in its place: into a gap there, or between its neighbours.
fn put_slot(slots: &mut Vec<Slot>, number: u64, mapping: Mapping)
    requires ascend { SlotsAscend 0 slots.old.items }
    requires unmapped { mapping_at (pages_in slots.old.items) number ≡ None }
    requires room { vec_len slots.old < vec_capacity slots.old }
    ensures pages { pages_in slots.new.items ≡ with_page number mapping (pages_in slots.old.items) }
    ensures ascend { SlotsAscend 0 slots.new.items }
    ensures len { vec_len slots.new ≤ vec_len slots.old + 1 }
    ensures capacity { vec_capacity slots.old ≤ vec_capacity slots.new }
{
    let slot = Slot {
        number,
        mapping: Some(mapping),
    };
    let at = place_for(slots, number);
    if is_gap(slots, at) {
        slots[at] = slot;
    } else if at > 0 && is_gap(slots, at - 1) {
        slots[at - 1] = slot;
    } else {
        slots.insert(at, slot).unwrap();
    }
}

/// Drops the gaps at the end.
fn drop_last_gaps(slots: &mut Vec<Slot>)
    requires ascend { SlotsAscend 0 slots.old.items }
    ensures pages { pages_in slots.new.items ≡ pages_in slots.old.items }
    ensures ascend { SlotsAscend 0 slots.new.items }
    ensures len { vec_len slots.new ≤ vec_len slots.old }
    ensures capacity { vec_capacity slots.old ≤ vec_capacity slots.new }
{
    let mut len = slots.len();
    while len > 0 && is_gap(slots, len - 1) {
        len -= 1;
    }
    slots.truncate(len);
}

/// Closes all gaps.
fn close_gaps(slots: &mut Vec<Slot>)
    requires ascend { SlotsAscend 0 slots.old.items }
    ensures pages { pages_in slots.new.items ≡ pages_in slots.old.items }
    ensures ascend { SlotsAscend 0 slots.new.items }
    ensures len { vec_len slots.new ≡ length (pages_in slots.old.items) }
    ensures capacity { vec_capacity slots.old ≤ vec_capacity slots.new }
{
    slots.retain(|slot| slot.mapping.is_some());
}

/// Makes a gap of the page at a place.
fn drop_slot(slots: &mut Vec<Slot>, at: usize, number: u64)
    requires ascend { SlotsAscend 0 slots.old.items }
    requires there { StandsAt number slots.old.items at }
    ensures pages { pages_in slots.new.items ≡ without_page number (pages_in slots.old.items) }
    ensures fewer { length (pages_in slots.new.items) + 1 ≡ length (pages_in slots.old.items) }
    ensures ascend { SlotsAscend 0 slots.new.items }
    ensures len { vec_len slots.new ≤ vec_len slots.old }
    ensures capacity { vec_capacity slots.old ≤ vec_capacity slots.new }
{
    slots[at] = Slot {
        number,
        mapping: None,
    };
    drop_last_gaps(slots);
}

/// A mapping under the new name of its frame.
fn renamed(mapping: Option<Mapping>, names: &[u32]) -> Option<Mapping>
    requires { IfSome mapping (λ (m : Mapping). m.frame < length names.now) }
    ensures { result ≡ renamed_mapping names.now mapping }
{
    let mapping = mapping?;
    Some(Mapping {
        frame: names[mapping.frame as usize],
        bits: mapping.bits,
    })
}

/// Copies slots, with each frame under its new name.
#[tactic(auto, using(crate::proofs::Copies::copy_facts))]
fn copy_slots(slots: &[Slot], into: &mut Vec<Slot>, names: &[u32])
    requires frames { All (λ (m : Mapped). m.mapping.frame < length names.now) (pages_in slots.now) }
    requires empty { into.old.items ≡ [] }
    requires room { length slots.now ≤ vec_capacity into.old }
    ensures items { into.new.items ≡ map (renamed_slot names.now) slots.now }
    ensures capacity { vec_capacity into.old ≤ vec_capacity into.new }
{
    for slot in slots {
        let mapping = renamed(slot.mapping, names);
        into.push(Slot {
            number: slot.number,
            mapping,
        })
        .unwrap();
    }
}

impl PageList {
    /// No page, with room for so many.
    pub fn new(alloc: Global, room: u32) -> Result<PageList, AllocError>
        ensures { IfOk result (λ list. list ≡ record { pages = []; room = room }) }
    {
        Ok(PageList {
            slots: Vec::with_capacity(alloc, room as usize * 2)?,
            mapped: 0,
            room,
        })
    }

    /// How many more pages there may be.
    pub fn left(&self) -> u32
        ensures { result ≡ self.now.room - length self.now.pages }
    {
        self.room - self.mapped
    }

    /// The mapping of the page of a number; None exactly where it is not mapped.
    pub fn at(&self, number: u64) -> Option<Mapping>
        ensures { result ≡ mapping_at self.now.pages number }
    {
        mapping_at(&self.slots, number)
    }

    /// The least number of a page at or above another; None exactly where there is none.
    pub fn next(&self, from: u64) -> Option<u64>
        ensures { result ≡ least_number from self.now.pages }
    {
        let at = place_for(&self.slots, from);
        first_number(&self.slots[at..])
    }

    /// Puts a page in its place.
    pub fn put(&mut self, number: u64, mapping: Mapping)
        requires unmapped { mapping_at self.old.pages number ≡ None }
        requires room { length self.old.pages < self.old.room }
        ensures { self.new ≡ record self.old { pages = with_page number mapping self.old.pages } }
    {
        put_slot(&mut self.slots, number, mapping);
        self.mapped += 1;
    }

    /// Takes a page away, where it is mapped.
    pub fn remove(&mut self, number: u64)
        ensures { self.new ≡ record self.old { pages = without_page number self.old.pages } }
    {
        if let Some(at) = find_page(&self.slots, number) {
            drop_slot(&mut self.slots, at, number);
            self.mapped -= 1;
            if self.slots.len() > self.mapped as usize * 2 {
                close_gaps(&mut self.slots);
            }
        }
    }

    /// Takes all pages away.
    pub fn clear(&mut self)
        ensures { self.new ≡ record self.old { pages = [] } }
    {
        self.slots.clear();
        self.mapped = 0;
    }

    /// Copies the pages to a list without one, with each frame under its new name.
    pub fn copy_to(&self, into: &mut PageList, names: &[u32])
        requires frames { All (λ (m : Mapped). m.mapping.frame < length names.now) self.now.pages }
        requires empty { into.old.pages ≡ [] }
        requires room { into.old.room ≡ self.now.room }
        ensures { into.new ≡ record into.old { pages = map (renamed_page names.now) self.now.pages } }
    {
        copy_slots(&self.slots, &mut into.slots, names);
        into.mapped = self.mapped;
    }
}
