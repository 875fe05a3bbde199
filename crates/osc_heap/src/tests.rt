//! Worked rows, and long alternations compared with sets of held slots.

ghost use Rattle.std.specs.Prelude.{◌≡◌, ◌≤◌, IfOk};
ghost use Rattle.osc_class.specs.Rooms.{IsRoom};
ghost use Rattle.osc_slot.specs.Heap.{IsHeap, FramesAgree, empty_heap};

use super::*;
use osc_class::room_of;
use std::collections::BTreeSet;
use std::process::Abort;
use std::test::Fail;

/// An empty heap and the frames of its machine.
fn machine(alloc: Global, count: u32) -> Result<(CanonHeap, Frames), AllocError>
    requires { count ≤ 4096 }
    ensures { IfOk result (λ made. FramesAgree made.0 made.1 × (made.0.frames ≡ count)) }
{
    let heap = CanonHeap::new(alloc, count)?;
    let frames = Frames::new(alloc, count)?;
    osc_slot::laws::empty_agrees();
    Ok((heap, frames))
}

/// The next block, where its need is at most the free frames.
fn try_place(heap: &mut CanonHeap, frames: &mut Frames, room: Room) -> Option<Block>
    requires is_room { IsRoom room }
    requires agree { FramesAgree heap.old frames.old }
    ensures agree { FramesAgree heap.new frames.new }
    ensures frames { (heap.new.frames ≡ heap.old.frames) × IsHeap heap.new }
{
    if heap.need(room) <= u64::from(frames.free_count()) {
        Some(heap.place(room, frames))
    } else {
        None
    }
}

/// Releases the block with a user address, where one is held.
fn try_release(heap: &mut CanonHeap, frames: &mut Frames, user: u64) -> bool
    requires { FramesAgree heap.old frames.old }
    ensures { FramesAgree heap.new frames.new }
{
    match heap.block_at(user) {
        Some(block) => {
            heap.release(block, frames);
            true
        }
        None => false,
    }
}

/// Where the next block of a room starts, or 0 where it does not fit the free frames.
fn placed(heap: &mut CanonHeap, frames: &mut Frames, room: Room) -> u64
    requires is_room { IsRoom room }
    requires agree { FramesAgree heap.old frames.old }
    ensures agree { FramesAgree heap.new frames.new }
    ensures frames { (heap.new.frames ≡ heap.old.frames) × IsHeap heap.new }
{
    match try_place(heap, frames, room) {
        Some(block) => block.start,
        None => 0,
    }
}

#[test]
fn places_and_releases(rt: HostRuntime) -> Result<(), Fail> {
    let (mut heap, mut frames) = machine(rt.alloc(), 64)?;
    // blocks of a class side by side
    assert_eq!(rt; placed(&mut heap, &mut frames, room_of(24)), 0x20_0004_0000);
    assert_eq!(rt; placed(&mut heap, &mut frames, room_of(24)), 0x20_0004_0030);
    assert_eq!(rt; frames.free_count(), 63);
    assert!(rt; try_release(&mut heap, &mut frames, 0x20_0004_0010));
    assert_eq!(rt; heap.block_at(0x20_0004_0010), None);
    assert_eq!(rt; placed(&mut heap, &mut frames, room_of(24)), 0x20_0004_0000);
    // whole pages
    assert_eq!(rt;
        placed(&mut heap, &mut frames, Room::Pages(2)),
        0x20_0038_0000
    );
    assert_eq!(rt;
        placed(&mut heap, &mut frames, Room::Pages(2)),
        0x20_0038_2000
    );
    assert_eq!(rt; frames.free_count(), 59);
    assert_eq!(rt; heap.frame_at(0x200_0040), Some(0));
    assert_eq!(rt; heap.frame_at(0x200_0382), Some(3));
    assert_eq!(rt; heap.frame_at(0x200_0383), Some(4));
    assert_eq!(rt; heap.frame_at(0x200_0384), None);
    // only a user address names a block
    assert!(rt; heap.block_at(0x20_0038_2010).is_some());
    assert_eq!(rt; heap.block_at(0x20_0038_2000), None);
    assert_eq!(rt; heap.block_at(0x20_0038_3010), None);
    assert_eq!(rt; heap.block_at(0x20_0004_0018), None);
    assert_eq!(rt; heap.block_at(0), None);
    assert_eq!(rt; heap.block_at(u64::MAX), None);
    // a block that is too large
    assert_eq!(rt; heap.need(room_of(u64::MAX)), (1 << 52) + 1);
    assert_eq!(rt; placed(&mut heap, &mut frames, Room::Pages(60)), 0);
    heap.clear(&mut frames);
    assert_eq!(rt; frames.free_count(), 64);
    assert_eq!(rt; heap.block_at(0x20_0038_2010), None);
    assert_eq!(rt;
        placed(&mut heap, &mut frames, Room::Pages(64)),
        0x20_0130_0000
    );
    assert_eq!(rt; frames.free_count(), 0);
    Ok(())
}

/// The frames of pages: of a block of two pages and three of three pages in a machine of 64 frames, where
/// the second of three was released, the two pages placed, and three pages again in the place that was free.
const WHOLE_FRAMES: [(u64, Option<u32>); 13] = [
    (0x200_0380, Some(3)),
    (0x200_0381, Some(4)),
    (0x200_0382, None),
    (0x200_03C0, Some(0)),
    (0x200_03C1, Some(1)),
    (0x200_03C2, Some(2)),
    (0x200_03C3, Some(5)),
    (0x200_03C4, Some(9)),
    (0x200_03C5, Some(10)),
    (0x200_03C6, Some(6)),
    (0x200_03C7, Some(7)),
    (0x200_03C8, Some(8)),
    (0x200_03C9, None),
];

/// Blocks of whole pages stand between others.
#[test]
fn whole_blocks_between_others(rt: HostRuntime) -> Result<(), Fail> {
    let (mut heap, mut frames) = machine(rt.alloc(), 64)?;
    for start in [0x20_003C_0000, 0x20_003C_3000, 0x20_003C_6000] {
        assert_eq!(rt; placed(&mut heap, &mut frames, room_of(12_272)), start);
    }
    assert!(rt; try_release(&mut heap, &mut frames, 0x20_003C_3010));
    for (bytes, start) in [(8_176, 0x20_0038_0000), (12_272, 0x20_003C_3000)] {
        assert_eq!(rt; placed(&mut heap, &mut frames, room_of(bytes)), start);
    }
    for (page, frame) in WHOLE_FRAMES {
        assert_eq!(rt; heap.frame_at(page), frame);
    }
    assert_eq!(rt; frames.free_count(), 53);
    Ok(())
}

/// Copies a heap of a machine of two frames, so that they change places.
fn copy_turned(heap: &CanonHeap, child: &mut CanonHeap)
    requires heap { (heap.now.frames ≡ 2) × IsHeap heap.now }
    requires child { child.old ≡ empty_heap 2 }
{
    heap.copy_to(child, &[1, 0]);
}

#[test]
fn copies_over_other_frames(rt: HostRuntime) -> Result<(), Fail> {
    let (mut heap, mut frames) = machine(rt.alloc(), 2)?;
    let mut child = CanonHeap::new(rt.alloc(), 2)?;
    assert_eq!(rt;
        placed(&mut heap, &mut frames, Room::Small(0)),
        0x20_0000_0000
    );
    assert_eq!(rt;
        placed(&mut heap, &mut frames, Room::Pages(1)),
        0x20_0001_A000
    );
    copy_turned(&heap, &mut child);
    assert_eq!(rt; child.frame_at(0x200_0000), Some(1));
    assert_eq!(rt; child.frame_at(0x200_001A), Some(0));
    assert_eq!(rt; child.frame_at(0x200_001B), None);
    assert!(rt; child.block_at(0x20_0001_A010).is_some());
    assert_eq!(rt;
        child.block_at(0x20_0001_A010),
        heap.block_at(0x20_0001_A010)
    );
    Ok(())
}

/// A room, and its held slots as a set.
#[derive(Drop)]
struct Plain {
    /// A request that has this room.
    request: u64,
    /// The place of its area.
    area: u64,
    /// The bytes of a slot, and the slots of a page; of a block of whole pages the slots are 0.
    size: u64,
    slots: u64,
    held: BTreeSet<u64>,
}

/// The first page whose count of held slots is one from `low` on and below `high`.
fn first_page(counts: &[u64], low: u64, high: u64) -> Option<u64> {
    let mut page: u64 = 0;
    for count in counts {
        if low <= *count && *count < high {
            return Some(page);
        }
        page = page.wrapping_add(1);
    }
    None
}

impl Plain {
    /// How many held slots each page has.
    fn counts(&self, alloc: Global, frames: u64) -> Result<Vec<u64>, AllocError> {
        let mut counts = vec![in alloc; 0u64; frames as usize]?;
        for slot in &self.held {
            let page = slot.checked_div(self.slots).unwrap_or(0);
            if let Some(count) = counts.get_mut(page as usize) {
                *count = count.wrapping_add(1);
            }
        }
        Ok(counts)
    }

    /// The frames that the held blocks have.
    fn used(&self, alloc: Global, frames: u64) -> Result<u64, AllocError> {
        if self.slots == 0 {
            return Ok((self.held.len() as u64).wrapping_mul(self.size / 4096));
        }
        let mut used: u64 = 0;
        for count in self.counts(alloc, frames)? {
            used = used.wrapping_add(count.min(1));
        }
        Ok(used)
    }

    /// The least slot that is not held, from one on and among so many.
    fn least(&self, from: u64, count: u64) -> Option<u64> {
        for i in 0..count {
            if !self.held.contains(&from.wrapping_add(i)) {
                return Some(from.wrapping_add(i));
            }
        }
        None
    }

    /// The next slot, and the frames that it needs.
    fn next(&self, alloc: Global, frames: u64) -> Result<(Option<u64>, u64), AllocError> {
        if self.slots == 0 {
            let pages = self.size / 4096;
            let slots = frames.checked_div(pages).unwrap_or(0);
            return Ok((self.least(0, slots), pages));
        }
        let counts = self.counts(alloc, frames)?;
        if let Some(page) = first_page(&counts, 1, self.slots) {
            return Ok((self.least(page.wrapping_mul(self.slots), self.slots), 0));
        }
        match first_page(&counts, 0, 1) {
            Some(page) => Ok((Some(page.wrapping_mul(self.slots)), 1)),
            None => Ok((None, 1)),
        }
    }

    /// Where the block at a slot starts.
    fn start(&self, frames: u64, slot: u64) -> u64 {
        let area = self.area.wrapping_mul(frames).wrapping_mul(4096);
        let within = if self.slots == 0 {
            slot.wrapping_mul(self.size)
        } else {
            let page = slot.checked_div(self.slots).unwrap_or(0);
            let offset = slot.checked_rem(self.slots).unwrap_or(0);
            page.wrapping_mul(4096)
                .wrapping_add(offset.wrapping_mul(self.size))
        };
        0x20_0000_0000u64.wrapping_add(area).wrapping_add(within)
    }
}

/// Every class, and blocks of 2 and 9 pages.
const SIZES: [u64; 15] = [
    32, 48, 64, 96, 128, 192, 256, 384, 512, 768, 1024, 1536, 2048, 8192, 36864,
];

fn plain_rooms(alloc: Global) -> Result<Vec<Plain>, AllocError> {
    let mut rooms = Vec::new(alloc);
    for (area, size) in SIZES.iter().enumerate() {
        let small = *size <= 2048;
        rooms.push(Plain {
            request: size.wrapping_sub(16),
            area: if small {
                area as u64
            } else {
                (size / 4096).wrapping_add(12)
            },
            size: *size,
            slots: if small {
                4096u64.checked_div(*size).unwrap_or(0)
            } else {
                0
            },
            held: BTreeSet::new(alloc),
        })?;
    }
    Ok(rooms)
}

/// The frames that all rooms' blocks have.
fn used_frames(alloc: Global, rooms: &[Plain], frames: u64) -> Result<u64, AllocError> {
    let mut used: u64 = 0;
    for plain in rooms {
        used = used.wrapping_add(plain.used(alloc, frames)?);
    }
    Ok(used)
}

/// Places the next block of a room, and compares it with the set. Where a block was placed, it answers
/// its slot.
fn place_alike(
    rt: &(impl Abort + AllocGlobal),
    heap: &mut CanonHeap,
    frames: &mut Frames,
    plain: &Plain,
    count: u64,
) -> Result<Option<u64>, AllocError>
    requires { FramesAgree heap.old frames.old }
    ensures { FramesAgree heap.new frames.new }
{
    let room = room_of(plain.request);
    let (slot, need) = plain.next(rt.alloc(), count)?;
    assert_eq!(rt; heap.need(room), need);
    if need > u64::from(frames.free_count()) {
        return Ok(None);
    }
    let block = try_place(heap, frames, room);
    assert_eq!(rt;
        block.map(|block| block.start),
        slot.map(|slot| plain.start(count, slot))
    );
    Ok(slot)
}

/// Places a block of one of the rooms.
fn place_step(
    rt: &(impl Abort + AllocGlobal),
    heap: &mut CanonHeap,
    frames: &mut Frames,
    rooms: &mut [Plain],
    live: &mut Vec<(usize, u64)>,
    pick: usize,
    count: u64,
) -> Result<(), AllocError>
    requires { FramesAgree heap.old frames.old }
    ensures { FramesAgree heap.new frames.new }
{
    let at = pick % SIZES.len();
    let Some(plain) = rooms.get_mut(at) else {
        return Ok(());
    };
    let Some(slot) = place_alike(rt, heap, frames, plain, count)? else {
        return Ok(());
    };
    plain.held.insert(slot)?;
    live.push((at, slot))?;
    Ok(())
}

/// Releases one of the live blocks.
fn release_step(
    rt: &(impl Abort + AllocGlobal),
    heap: &mut CanonHeap,
    frames: &mut Frames,
    rooms: &mut [Plain],
    live: &mut Vec<(usize, u64)>,
    pick: usize,
    count: u64,
)
    requires { FramesAgree heap.old frames.old }
    ensures { FramesAgree heap.new frames.new }
{
    let at = pick.checked_rem(live.len()).unwrap_or(0);
    if at >= live.len() {
        return;
    }
    let (room, slot) = live.swap_remove(at);
    let Some(plain) = rooms.get_mut(room) else {
        return;
    };
    let user = plain.start(count, slot).wrapping_add(16);
    assert!(rt; plain.held.remove(&slot));
    assert!(rt; try_release(heap, frames, user));
}

/// One step of an alternation: for 200 steps more is placed than released, and then the other way round.
fn step(
    rt: &(impl Abort + AllocGlobal),
    heap: &mut CanonHeap,
    frames: &mut Frames,
    rooms: &mut [Plain],
    live: &mut Vec<(usize, u64)>,
    state: u64,
    number: u32,
    count: u64,
) -> Result<(), AllocError>
    requires { FramesAgree heap.old frames.old }
    ensures { FramesAgree heap.new frames.new }
{
    let pick = (state >> 33) as usize;
    let mixed = (state >> 20) % 8 < 2;
    if (mixed && pick % 2 == 0) || (!mixed && number % 400 < 200) {
        return place_step(rt, heap, frames, rooms, live, pick, count);
    }
    release_step(rt, heap, frames, rooms, live, pick, count);
    Ok(())
}

/// So many steps, each of which places or releases a block of one of the rooms.
fn alternate(rt: &(impl Abort + AllocGlobal), count: u32, steps: u32) -> Result<(), AllocError>
    requires { count ≤ 4096 }
{
    let (mut heap, mut frames) = machine(rt.alloc(), count)?;
    let mut rooms = plain_rooms(rt.alloc())?;
    let mut live: Vec<(usize, u64)> = Vec::new(rt.alloc());
    let all = u64::from(count);
    let mut state: u64 = all;
    for number in 0..steps {
        state = state
            .wrapping_mul(6364136223846793005)
            .wrapping_add(1442695040888963407);
        step(
            rt,
            &mut heap,
            &mut frames,
            &mut rooms,
            &mut live,
            state,
            number,
            all,
        )?;
        let used = used_frames(rt.alloc(), &rooms, all)?;
        assert_eq!(rt; u64::from(frames.free_count()), all.saturating_sub(used));
    }
    Ok(())
}

#[test]
fn agrees_with_sets_of_held_slots(rt: HostRuntime) -> Result<(), Fail> {
    alternate(&rt, 64, 3000)?;
    alternate(&rt, 4096, 1200)?;
    Ok(())
}
