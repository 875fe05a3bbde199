//! Blocks of a heap over 4096 frames: of every size class and of two pages in turn, of 24 bytes, or of 64 pages.

ghost use Rattle.std.specs.Prelude.{IfOk};
ghost use Rattle.osc_class.specs.Rooms.{IsRoom};
ghost use Rattle.osc_slot.specs.Heap.{FramesAgree};

use osc_class::{Room, room_of};
use osc_frames::Frames;
use osc_heap::CanonHeap;
use std::alloc::{AllocError, Global};
use std::collections::VecDeque;

/// The frames of the machine.
const FRAMES: u32 = 4096;

/// Requests of every size class, and of two pages.
const REQUESTS: [u64; 14] = [
    16, 32, 48, 80, 112, 176, 240, 368, 496, 752, 1008, 1520, 2032, 8176,
];

/// Which blocks are placed, and how many of them are held at a time.
#[derive(Clone, Copy)]
pub enum Blocks {
    /// Of every size class and of two pages, 512 at a time.
    Mixed,
    /// Of 24 bytes, 512 at a time.
    Small,
    /// Of 24 bytes, 100,000 at a time.
    ManySmall,
    /// Of 64 pages, 63 at a time.
    Whole,
}

impl Blocks {
    fn held(self) -> u64 {
        match self {
            Blocks::Mixed | Blocks::Small => 512,
            Blocks::ManySmall => 100_000,
            Blocks::Whole => 63,
        }
    }

    fn request(self, number: u64) -> u64 {
        match self {
            Blocks::Mixed => REQUESTS[(number % 14) as usize],
            Blocks::Small | Blocks::ManySmall => 24,
            Blocks::Whole => 262_128,
        }
    }
}

/// The sum of the starts of `count` blocks, each of which is released when as many more were placed as
/// are held at a time.
pub fn paired(alloc: Global, count: u64, blocks: Blocks) -> Result<u64, AllocError> {
    let (mut heap, mut frames) = machine(alloc)?;
    let mut held = VecDeque::with_capacity(alloc, blocks.held() as usize)?;
    let mut sum: u64 = 0;
    for number in 0..count {
        if number >= blocks.held() {
            release(&mut heap, &mut frames, held.pop_front().unwrap_or(0));
        }
        let request = blocks.request(number);
        let user = place(&mut heap, &mut frames, room_of(request));
        held.push_back(user)?;
        sum = sum.wrapping_add(user);
    }
    Ok(sum)
}

/// An empty heap, and the frames of its machine.
fn machine(alloc: Global) -> Result<(CanonHeap, Frames), AllocError>
    ensures { IfOk result (λ made. FramesAgree made.0 made.1) }
{
    let heap = CanonHeap::new(alloc, FRAMES)?;
    let frames = Frames::new(alloc, FRAMES)?;
    osc_slot::laws::empty_agrees();
    Ok((heap, frames))
}

/// The user address of the next block, or 0 where it does not fit the free frames.
fn place(heap: &mut CanonHeap, frames: &mut Frames, room: Room) -> u64
    requires is_room { IsRoom room }
    requires agree { FramesAgree heap.old frames.old }
    ensures { FramesAgree heap.new frames.new }
{
    if heap.need(room) > u64::from(frames.free_count()) {
        return 0;
    }
    heap.place(room, frames).start.wrapping_add(16)
}

/// Releases the block with a user address, where one is held.
fn release(heap: &mut CanonHeap, frames: &mut Frames, user: u64)
    requires { FramesAgree heap.old frames.old }
    ensures { FramesAgree heap.new frames.new }
{
    if let Some(block) = heap.block_at(user) {
        heap.release(block, frames);
    }
}
