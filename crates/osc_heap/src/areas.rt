//! The areas of a heap: which slot the next block takes, and what it needs.

ghost use Rattle.std.specs.Prelude.{◌≡◌, ◌+◌, ◌*◌, ◌/◌, ◌<◌, ◌≤◌, not, false, is_some, length, map, IfOk};
ghost use Rattle.osc_slot.specs.Least.{least};
ghost use Rattle.osc_class.specs.declared.Room.TheVariants.{Small};
ghost use Rattle.osc_class.specs.Rooms.{IsRoom};
ghost use Rattle.osc_slot.specs.Areas.{area_of, slots_of, slots_in};
ghost use Rattle.osc_slot.specs.Slots.{slot, beside, empty_page, first_slot, has_block, need_over, pages_alone};
ghost use Rattle.osc_heap.specs.Layout.{AreFree, AreSized, AreTold, TellNone, TellRows, told_areas, free_row, page_beside, page_held, page_slots, row_of, bits, with_bit, with_page};

use crate::area::Area;
use crate::area_list::Areas;
use crate::page_sets::PageSets;
use crate::slots::{area_of, page_count, page_slots, room_at, slots_in, slots_of};
use osc_class::Room;
use std::alloc::{AllocError, Global};

/// The areas whose pages are told. The bits of each of the others fill no more words than its blocks have
/// pages.
const TOLD_AREAS: usize = 20;

/// What is told of the pages of a heap that holds no block.
pub fn free_pages(alloc: Global, frames: u32) -> Result<Vec<PageSets>, AllocError>
    requires { frames ≤ 4096 }
    ensures { IfOk result (λ told. TellNone frames told.items) }
{
    let count = (13 + frames as usize).min(TOLD_AREAS);
    let mut told = Vec::with_capacity(alloc, count)?;
    for area in 0..count {
        told.push(PageSets::new(alloc, page_count(frames, room_at(area)))?)?;
    }
    Ok(told)
}

// The area of a room.
fn area_for(areas: &Areas, frames: u32, room: Room) -> &Area
    requires most { frames ≤ 4096 }
    requires areas { (length areas.now ≡ 13 + frames) × AreSized frames 0 areas.now }
    requires is_room { IsRoom room × (area_of room < 76) × (area_of room < length areas.now) }
    ensures row { result.now ≡ row_of areas.now room }
    ensures size { length result.now ≡ slots_in frames room }
{
    areas.wide(area_of(room))
}

// The least free slot on a page of a class that holds a block.
fn beside(areas: &Areas, told: &[PageSets], frames: u32, class: u8) -> Option<usize>
    requires most { frames ≤ 4096 }
    requires areas { (length areas.now ≡ 13 + frames) × AreSized frames 0 areas.now }
    requires told { TellRows frames areas.now told.now }
    requires is_class { class < 13 }
    ensures { result ≡ beside frames (bits areas.now) class }
{
    match told[class as usize].first_partly() {
        Some(page) => area_for(areas, frames, Room::Small(class)).free_beside(
            page as usize,
            slots_of(class),
        ),
        None => None,
    }
}

// Whether a page of a class holds a block and has a free slot.
fn has_beside(areas: &Areas, told: &[PageSets], frames: u32, class: u8) -> bool
    requires most { frames ≤ 4096 }
    requires areas { length areas.now ≡ 13 + frames }
    requires told { TellRows frames areas.now told.now }
    requires is_class { class < 13 }
    ensures { result ≡ is_some (beside frames (bits areas.now) class) }
{
    told[class as usize].first_partly().is_some()
}

// The first slot of the least page of a class that holds no block.
fn first_of_empty(areas: &Areas, told: &[PageSets], frames: u32, class: u8) -> Option<usize>
    requires most { frames ≤ 4096 }
    requires areas { length areas.now ≡ 13 + frames }
    requires told { TellRows frames areas.now told.now }
    requires is_class { class < 13 }
    ensures { result ≡ first_slot (slots_of class) (empty_page frames (bits areas.now) class) }
{
    match told[class as usize].first_empty() {
        Some(page) => Some(page as usize * slots_of(class)),
        None => None,
    }
}

// The least free slot for a block of whole pages.
fn first_whole(areas: &Areas, told: &[PageSets], frames: u32, room: Room) -> Option<usize>
    requires most { frames ≤ 4096 }
    requires areas { (length areas.now ≡ 13 + frames) × AreSized frames 0 areas.now }
    requires told { TellRows frames areas.now told.now }
    requires is_room { IsRoom room × (13 ≤ area_of room) × (area_of room < length areas.now) }
    ensures { result ≡ least (λ slot. not (bits areas.now room slot)) 0 (slots_in frames room) }
{
    let area = area_of(room);
    if area < told.len() {
        return match told[area].first_empty() {
            Some(slot) => Some(slot as usize),
            None => None,
        };
    }
    areas.least_free(area)
}

// Whether a page of a class holds a block.
fn has_block(areas: &Areas, frames: u32, class: u8, page: usize) -> bool
    requires most { frames ≤ 4096 }
    requires areas { (length areas.now ≡ 13 + frames) × AreSized frames 0 areas.now }
    requires is_class { (class < 13) × (page < frames) }
    ensures { result ≡ has_block (bits areas.now) class page }
{
    area_for(areas, frames, Room::Small(class)).has_block(page, slots_of(class))
}

/// The slot of the next block of a room.
pub fn least_slot(areas: &Areas, told: &[PageSets], frames: u32, room: Room) -> Option<usize>
    requires most { frames ≤ 4096 }
    requires areas { (length areas.now ≡ 13 + frames) × AreSized frames 0 areas.now }
    requires told { TellRows frames areas.now told.now }
    requires is_room { IsRoom room × (area_of room < length areas.now) }
    ensures { result ≡ slot frames (bits areas.now) room }
{
    match room {
        Room::Small(class) => match beside(areas, told, frames, class) {
            Some(slot) => Some(slot),
            None => first_of_empty(areas, told, frames, class),
        },
        Room::Pages(_) => first_whole(areas, told, frames, room),
    }
}

/// The frames that the next block of a room newly takes.
pub fn need_over(areas: &Areas, told: &[PageSets], frames: u32, room: Room) -> u64
    requires most { frames ≤ 4096 }
    requires areas { (length areas.now ≡ 13 + frames) × AreSized frames 0 areas.now }
    requires told { TellRows frames areas.now told.now }
    requires is_room { IsRoom room }
    ensures { result ≡ need_over frames (bits areas.now) room }
{
    match room {
        Room::Small(class) => {
            if has_beside(areas, told, frames, class) {
                0
            } else {
                1
            }
        }
        Room::Pages(pages) => pages,
    }
}

/// The pages that a block at a slot has and no held block has.
pub fn pages_alone(areas: &Areas, frames: u32, room: Room, slot: usize) -> u64
    requires most { frames ≤ 4096 }
    requires areas { (length areas.now ≡ 13 + frames) × AreSized frames 0 areas.now }
    requires is_room { IsRoom room }
    requires within { slot < slots_in frames room }
    ensures { result ≡ pages_alone (bits areas.now) room slot }
{
    match room {
        Room::Small(class) => {
            if has_block(areas, frames, class, slot / slots_of(class)) {
                0
            } else {
                1
            }
        }
        Room::Pages(pages) => pages,
    }
}

// Whether the page of a slot of a class holds a block at another slot.
fn has_other(areas: &Areas, frames: u32, class: u8, slot: usize) -> bool
    requires most { frames ≤ 4096 }
    requires areas { (length areas.now ≡ 13 + frames) × AreSized frames 0 areas.now }
    requires is_class { class < 13 }
    requires within { slot < slots_in frames (Small class) }
    ensures { result ≡ has_block (bits (with_bit areas.now (Small class) slot false)) class (slot / slots_of class) }
{
    let slots = slots_of(class);
    area_for(areas, frames, Room::Small(class)).has_other(slot / slots, slots, slot)
}

/// The pages of a held block at a slot that hold no other.
pub fn own_pages(areas: &Areas, frames: u32, room: Room, slot: usize) -> u64
    requires most { frames ≤ 4096 }
    requires areas { (length areas.now ≡ 13 + frames) × AreSized frames 0 areas.now }
    requires is_room { IsRoom room }
    requires within { slot < slots_in frames room }
    ensures { result ≡ pages_alone (bits (with_bit areas.now room slot false)) room slot }
{
    match room {
        Room::Small(class) => {
            if has_other(areas, frames, class, slot) {
                0
            } else {
                1
            }
        }
        Room::Pages(pages) => pages,
    }
}

/// Sets whether a slot of a room's area is held.
pub fn set_slot(
    areas: &mut Areas,
    told: &mut Vec<PageSets>,
    frames: u32,
    room: Room,
    slot: usize,
    held: bool,
)
    requires most { frames ≤ 4096 }
    requires areas { (length areas.old ≡ 13 + frames) × AreSized frames 0 areas.old }
    requires told { TellRows frames areas.old told.old.items }
    requires is_room { IsRoom room × (area_of room < length areas.old) }
    requires within { slot < slots_in frames room }
    ensures areas { areas.new ≡ with_bit areas.old room slot held }
    ensures told { TellRows frames areas.new told.new.items }
{
    let area = area_of(room);
    areas.set(area, slot, held);
    if area < told.len() {
        tell(areas.wide(area), &mut told[area], slot, page_slots(room));
    }
}

// Tells what the page of a slot holds.
fn tell(area: &Area, sets: &mut PageSets, slot: usize, slots: usize)
    requires some { 0 < slots }
    requires page { slot / slots * slots + slots ≤ length area.now }
    requires within { (slot / slots < length sets.old.partly) × (slot / slots < length sets.old.empty) × (slot / slots < 4096) }
    ensures { sets.new ≡ with_page sets.old (slot / slots) (is_some (page_beside slots area.now (slot / slots))) (not (page_held slots area.now (slot / slots))) }
{
    let page = slot / slots;
    let partly = area.free_beside(page, slots).is_some();
    let empty = !area.has_block(page, slots);
    sets.tell(page as u32, partly, empty);
}

/// Whether a slot of a room's area is held.
pub fn is_held(areas: &Areas, room: Room, slot: usize) -> bool
    requires { (area_of room ≤ 4108) × (area_of room < length areas.now) }
    ensures { result ≡ bits areas.now room slot }
{
    areas.is_held(area_of(room), slot)
}

/// Tells that no page holds a block.
pub fn clear_told(told: &mut Vec<PageSets>, frames: u32)
    requires { AreTold frames told.old.items }
    ensures { TellNone frames told.new.items }
{
    for i in 0..told.len() {
        told[i].clear();
    }
}

/// Tells what other areas of these sizes tell.
pub fn copy_told(told: &[PageSets], into: &mut Vec<PageSets>, frames: u32)
    requires from { AreTold frames told.now }
    requires to { AreTold frames into.old.items }
    ensures { into.new.items ≡ told.now }
{
    for i in 0..told.len() {
        into[i].copy_from(&told[i]);
    }
}
