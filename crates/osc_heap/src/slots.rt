//! Where the slots of each room lie.

ghost use Rattle.std.specs.Prelude.{ℕ, ◌≡◌, ◌≢◌, ◌+◌, ◌*◌, ◌/◌, ◌^◌, ◌<◌, ◌≤◌, IfSome, IfNone};
ghost use Rattle.osc_class.specs.declared.Room.{Room};
ghost use Rattle.osc_class.specs.Rooms.{size_of, IsRoom};
ghost use Rattle.osc_slot.specs.Areas.{first_page, area_of, slots_of, slots_in, start_of};
ghost use Rattle.osc_heap.specs.Layout.{room_at, page_slots, page_count};

use osc_class::{Room, block_bytes};

/// The page at 0x20_0000_0000.
const FIRST_PAGE: u64 = 0x200_0000;

/// The bytes of a page.
const PAGE: u64 = 4096;

/// The place of a room's area among the areas.
pub fn area_of(room: Room) -> usize
    requires { area_of room ≤ 4108 }
    ensures { result ≡ area_of room }
{
    match room {
        Room::Small(class) => class as usize,
        Room::Pages(pages) => 12 + pages as usize,
    }
}

/// The room of an area.
pub fn room_at(area: usize) -> Room
    ensures room { result ≡ room_at area }
    ensures is_room { IsRoom result }
    ensures area { area_of result ≡ area }
{
    if area < 13 {
        Room::Small(area as u8)
    } else {
        Room::Pages(area as u64 - 12)
    }
}

/// The bytes of a slot of a class.
pub fn size_of(class: u8) -> u64
    requires { class < 13 }
    ensures size { result ≡ size_of class }
    ensures bounds { (0 < result) × (result ≤ 2048) }
{
    block_bytes(Room::Small(class)) as u64
}

/// The slots on a page of a class.
pub fn slots_of(class: u8) -> usize
    requires { class < 13 }
    ensures slots { result ≡ slots_of class }
    ensures bounds { (0 < result) × (result ≤ 128) }
{
    (PAGE / size_of(class)) as usize
}

/// The slots in the area of a room.
pub fn slots_in(frames: u32, room: Room) -> usize
    requires most { frames ≤ 4096 }
    requires is_room { IsRoom room }
    ensures { result ≡ slots_in frames room }
{
    match room {
        Room::Small(class) => frames as usize * slots_of(class),
        Room::Pages(pages) => (u64::from(frames) / pages) as usize,
    }
}

/// The slots of a page of a room's area, where the pages of a block of whole pages count as one.
pub fn page_slots(room: Room) -> usize
    requires { IsRoom room }
    ensures slots { result ≡ page_slots room }
    ensures some { 0 < result }
{
    match room {
        Room::Small(class) => slots_of(class),
        Room::Pages(_) => 1,
    }
}

/// The pages of a room's area, where those of a block of whole pages count as one.
pub fn page_count(frames: u32, room: Room) -> u32
    requires { IsRoom room }
    ensures count { result ≡ page_count frames room }
    ensures bound { result ≤ frames }
{
    match room {
        Room::Small(_) => frames,
        Room::Pages(pages) => (u64::from(frames) / pages) as u32,
    }
}

/// Where the block at a slot starts.
pub fn start_of(frames: u32, room: Room, slot: usize) -> u64
    requires most { frames ≤ 4096 }
    requires is_room { IsRoom room }
    requires within { slot < slots_in frames room }
    ensures start { result ≡ start_of frames room slot }
    ensures bound { result < 2 ^ 40 }
{
    let frames = u64::from(frames);
    match room {
        Room::Small(class) => {
            let slots = slots_of(class);
            let page = u64::from(class) * frames + (slot / slots) as u64;
            PAGE * (FIRST_PAGE + page) + (slot % slots) as u64 * size_of(class)
        }
        Room::Pages(pages) => PAGE * (FIRST_PAGE + (12 + pages) * frames + slot as u64 * pages),
    }
}

/// The slot at which a block of this room starts, where it starts at one.
pub fn slot_near(frames: u32, room: Room, start: u64) -> usize
    requires most { (0 < frames) × (frames ≤ 4096) }
    requires is_room { IsRoom room }
    requires past { first_page ≤ start / 4096 }
    ensures { (slot : ℕ) → slot < slots_in frames room → start ≡ start_of frames room slot → result ≡ slot }
{
    let page = (start / PAGE - FIRST_PAGE) % u64::from(frames);
    match room {
        Room::Small(class) => page as usize * slots_of(class)
            + (start % PAGE / size_of(class)) as usize,
        Room::Pages(pages) => (page / pages) as usize,
    }
}

/// The room and the slot at which a block starts; None exactly where no slot starts there.
pub fn slot_at(frames: u32, start: u64) -> Option<(Room, usize)>
    requires most { frames ≤ 4096 }
    ensures some { IfSome result (λ at. IsRoom at.0 × (at.1 < slots_in frames at.0) × (start ≡ start_of frames at.0 at.1)) }
    ensures none { IfNone result ((room : Room) (slot : ℕ) → IsRoom room → slot < slots_in frames room → start ≢ start_of frames room slot) }
{
    let page = start / PAGE;
    if frames == 0 || page < FIRST_PAGE {
        return None;
    }
    let area = (page - FIRST_PAGE) / u64::from(frames);
    if area > 12 + u64::from(frames) {
        return None;
    }
    let room = room_at(area as usize);
    let slot = slot_near(frames, room, start);
    if slot < slots_in(frames, room) && start_of(frames, room, slot) == start {
        Some((room, slot))
    } else {
        None
    }
}
