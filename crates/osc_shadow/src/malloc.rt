//! The plan of a malloc.

ghost use Rattle.std.specs.Prelude.{ℕ, ◌≡◌, List, None, length};
ghost use Rattle.osc_word.specs.declared.settings.HeapKind.TheVariants.{Oscar};
ghost use Rattle.osc_class.specs.Rooms.{IsRoom, shadow_pages};
ghost use Rattle.osc_slot.specs.Slots.{need};
ghost use Rattle.osc_slot.specs.Heap.{next_block};
ghost use Rattle.osc_space.specs.Agree.{HasSpare};
ghost use Rattle.osc_space.specs.Malloc.{malloc_in, malloc_plan};
ghost use Rattle.osc_shadow.specs.Parts.{PartsAgreeWaiting, memory_refusal};
ghost use Rattle.osc_shadow.specs.Fits.{FitsAfter};
ghost use Rattle.osc_shadow.specs.Outcomes.{draft_now, planned};

use crate::Space;
use crate::memory::{Lack, know_tables, memory_lack};
use crate::shadows::map_shadows;
use crate::words::{HEADER, fill_block};
use osc_class::{Room, room_of, shadow_pages};
use osc_frames::Frames;
use osc_word::{Jobs, ObjectNo};

/// The answer to a malloc.
#[derive(Clone, Copy, Debug, PartialEq, Eq)]
pub enum Malloced {
    /// A new object, with its user address.
    Given { object: ObjectNo, pointer: u64 },
    /// There are too few shadow pages that may still be granted.
    NoShadow,
    /// There are too few free frames.
    NoFrames,
}

/// Grants the next object of so many bytes, in the next block of its room.
#[tactic(auto, unfolding(osc_space::specs::Malloc::malloc_plan))]
fn give_object(
    space: &mut Space,
    frames: &mut Frames,
    jobs: &mut Jobs,
    room: Room,
    n: u64,
) -> Malloced
    requires is_room { IsRoom room }
    requires agree { PartsAgreeWaiting space.old.tables space.old.marks space.old.heap frames.old }
    requires spare { HasSpare jobs.old (length frames.old) }
    requires enough { memory_refusal space.old.tables space.old.marks frames.old
        (need space.old.heap.frames space.old.heap.held room) (shadow_pages room) ≡ None }
    ensures plan { (waiting : List ℕ) → planned result (draft_now space.new waiting frames.new jobs.new)
        ≡ malloc_in n (next_block space.old.heap room) (draft_now space.old waiting frames.old jobs.old) }
    ensures room { jobs.new.room ≡ jobs.old.room }
{
    know_tables(&space.tables);
    let first = space.marks.next_page();
    let pages = shadow_pages(room);
    let block = space.heap.place(room, frames);
    let canon = block.start + HEADER;
    let object = space.marks.grant(pages as u32, n, canon);
    fill_block(&space.heap, block, n, jobs);
    map_shadows(&mut space.tables, &space.heap, first, block, frames, jobs);
    Malloced::Given {
        object,
        pointer: first * 4096 + canon % 4096,
    }
}

/// Plans a malloc of `n` bytes: the next object, with fresh shadow pages over the next block of its
/// room. It is refused for want of shadow pages, and then of frames; a refusal changes nothing. The
/// parts agree again when the call returns, which gives nothing back.
#[tactic(auto, unfolding(osc_space::specs::Malloc::malloc_plan))]
pub fn plan_malloc(space: &mut Space, frames: &mut Frames, jobs: &mut Jobs, n: u64) -> Malloced
    requires agree { PartsAgreeWaiting space.old.tables space.old.marks space.old.heap frames.old }
    requires spare { HasSpare jobs.old (length frames.old) }
    ensures plan { (waiting : List ℕ) → planned result (draft_now space.new waiting frames.new jobs.new)
        ≡ malloc_plan n (draft_now space.old waiting frames.old jobs.old) }
    ensures fits { (batch : ℕ) (waiting : List ℕ) → FitsAfter Oscar batch
        (draft_now space.old waiting frames.old jobs.old) (planned result (draft_now space.new waiting frames.new jobs.new)) }
    ensures room { jobs.new.room ≡ jobs.old.room }
{
    let room = room_of(n);
    let block_frames = space.heap.need(room);
    let pages = shadow_pages(room);
    match memory_lack(&space.tables, &space.marks, frames, block_frames, pages) {
        Some(Lack::Shadow) => Malloced::NoShadow,
        Some(Lack::Frames) => Malloced::NoFrames,
        None => give_object(space, frames, jobs, room, n),
    }
}
