//! The block of the new object.

ghost use Rattle.std.specs.Prelude.{◌≡◌, ◌+◌, ◌<◌, ◌≤◌, ◌^◌, length};
ghost use Rattle.osc_class.specs.Rooms.{IsRoom};
ghost use Rattle.osc_slot.specs.Heap.{FramesAgree, IsHeap, free_count};
ghost use Rattle.osc_slot.specs.Slots.{is_room};
ghost use Rattle.osc_space.specs.Header.{block_of};
ghost use Rattle.osc_realloc.specs.Blocks.{new_block, newly_taken, placed};

use osc_class::{Room, room_of};
use osc_frames::Frames;
use osc_heap::{Block, CanonHeap};
use osc_shadow::HEADER;
use osc_space::ObjectFact;

/// Whether two rooms are the same.
pub fn is_room(a: Room, b: Room) -> bool
    ensures { result ≡ is_room a b }
{
    match (a, b) {
        (Room::Small(x), Room::Small(y)) => x == y,
        (Room::Pages(x), Room::Pages(y)) => x == y,
        _ => false,
    }
}

/// The block of an object.
pub fn block_of(fact: ObjectFact) -> Block
    requires { 16 ≤ fact.canon }
    ensures block { result ≡ block_of fact }
    ensures start { result.start + 16 < 2 ^ 64 }
{
    Block {
        start: fact.canon - HEADER,
        room: room_of(fact.size),
    }
}

/// Heaps always have their blocks in their areas. No page is looked for: none has this number.
pub fn know_heap(heap: &CanonHeap)
    ensures { IsHeap heap.now }
{
    let _none = heap.frame_at(u64::MAX);
}

/// The frames that the block newly takes: none where it stays.
pub fn newly_taken(heap: &CanonHeap, in_place: bool, room: Room) -> u64
    requires { IsRoom room }
    ensures { result ≡ newly_taken in_place heap.now room }
{
    if in_place { 0 } else { heap.need(room) }
}

/// The block of the new object: the old one where it stays, else the next of its room, which is held.
pub fn take_block(
    heap: &mut CanonHeap,
    frames: &mut Frames,
    in_place: bool,
    old: Block,
    room: Room,
) -> Block
    requires is_room { IsRoom room }
    requires start { old.start + 16 < 2 ^ 64 }
    requires frames_agree { FramesAgree heap.old frames.old }
    requires enough { newly_taken in_place heap.old room ≤ free_count frames.old }
    ensures block { result ≡ new_block in_place old heap.old room }
    ensures start { result.start + 16 < 2 ^ 64 }
    ensures heap { heap.new ≡ (placed in_place heap.old room frames.old).heap }
    ensures free { frames.new ≡ (placed in_place heap.old room frames.old).free }
    ensures count { length frames.new ≡ length frames.old }
{
    if in_place {
        old
    } else {
        heap.place(room, frames)
    }
}
