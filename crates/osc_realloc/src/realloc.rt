//! The plan of a realloc.

ghost use Rattle.std.specs.Prelude.{ℕ, ◌≡◌, ◌<◌, ◌≤◌, Some, None, true, length};
ghost use Rattle.osc_word.specs.declared.settings.HeapKind.TheVariants.{Oscar};
ghost use Rattle.osc_class.specs.Rooms.{room_of, shadow_pages};
ghost use Rattle.osc_mark.specs.Grants.{AreMarked, lives};
ghost use Rattle.osc_space.specs.Agree.{HasSpare};
ghost use Rattle.osc_space.specs.Header.{header_in};
ghost use Rattle.osc_space.specs.Objects.{fact};
ghost use Rattle.osc_space.specs.Realloc.{realloc_made, realloc_plan, stays};
ghost use Rattle.osc_shadow.specs.Fits.{FitsAfter};
ghost use Rattle.osc_shadow.specs.Parts.{PartsAgree, draft_of, memory_refusal};
ghost use Rattle.osc_shadow.specs.Sight.{GivesWords, seen_of};
ghost use Rattle.osc_realloc.specs.Blocks.{newly_taken};
ghost use Rattle.osc_realloc.specs.Outcomes.{IsDamagedAt, found_of, realloced, terms};

use crate::answer::Realloced;
use crate::blocks::{block_of, is_room, know_heap, newly_taken, take_block};
use crate::bytes::{common_bytes, put_bytes};
use crate::letting::replace_object;
use osc_class::{room_of, shadow_pages};
use osc_frames::Frames;
use osc_heap::CanonHeap;
use osc_mark::Marks;
use osc_shadow::{
    HEADER, Lack, SeenObject, header_damage, know_tables, map_shadows, memory_lack, object_with,
};
use osc_tables::Tables;
use osc_word::{CallNo, Jobs, Waiting};

/// Replaces a live object by the next one, of so many bytes, in the old block where that stays.
fn move_object(
    tables: &mut Tables,
    marks: &mut Marks,
    waiting: &Waiting,
    heap: &mut CanonHeap,
    frames: &mut Frames,
    jobs: &mut Jobs,
    seen: SeenObject,
    in_place: bool,
    n: u64,
    call: CallNo,
    harts: u32,
) -> Realloced
    requires agree { PartsAgree tables.old marks.old heap.old waiting.now frames.old }
    requires is { fact marks.old.objects seen.number ≡ Some seen.fact }
    requires within { seen.number < length marks.old.objects }
    requires live { lives (Some seen.fact) ≡ true }
    requires in_place { in_place ≡ stays seen.fact n }
    requires enough { memory_refusal tables.old marks.old frames.old (newly_taken in_place heap.old (room_of n)) (shadow_pages (room_of n)) ≡ None }
    requires harts { harts ≤ 8 }
    requires spare { HasSpare jobs.old (length frames.old) }
    ensures plan { (batch : ℕ) → realloced n (draft_of tables.old marks.old heap.old waiting.now frames.old jobs.old.pushed)
        result (draft_of tables.new marks.new heap.new waiting.now frames.new jobs.new.pushed)
        ≡ realloc_made (stays seen.fact n) (terms harts call batch) (seen_of seen) n
        (draft_of tables.old marks.old heap.old waiting.now frames.old jobs.old.pushed) }
    ensures object { (pointer : ℕ) → IsDamagedAt marks.old.objects pointer result }
    ensures room { jobs.new.room ≡ jobs.old.room }
{
    know_tables(tables);
    know_heap(heap);
    let first = marks.next_page();
    let old = block_of(seen.fact);
    let block = take_block(heap, frames, in_place, old, room_of(n));
    let object = replace_object(tables, marks, waiting, jobs, seen, block, n, call, harts);
    let bytes = common_bytes(seen.fact.size, n);
    put_bytes(heap, in_place, old, block, bytes, n, jobs);
    map_shadows(tables, heap, first, block, frames, jobs);
    Realloced::Moved {
        old: seen.number,
        object,
        pointer: first * 4096 + (block.start + HEADER) % 4096,
    }
}

/// Plans a realloc of a live object to `n` bytes, the words of whose header were found as given. It is
/// refused where a word differs from what is kept, then for want of shadow pages, and then of frames;
/// nothing that is given back counts as free, and a block that stays needs no frame. A refusal changes
/// nothing. Otherwise the next object has fresh shadow pages and the bytes that both sizes have, and
/// zeros after them; the old one is dead by this call, and with all that wait it is let go: dead leaf
/// tables over them are given up, and every box is to be cleared.
pub fn plan_realloc(
    tables: &mut Tables,
    marks: &mut Marks,
    waiting: &Waiting,
    heap: &mut CanonHeap,
    frames: &mut Frames,
    jobs: &mut Jobs,
    pointer: u64,
    n: u64,
    found: [u64; 2],
    call: CallNo,
    harts: u32,
) -> Realloced
    requires agree { PartsAgree tables.old marks.old heap.old waiting.now frames.old }
    requires words { GivesWords (header_in tables.old marks.old.objects pointer) }
    requires harts { harts ≤ 8 }
    requires spare { HasSpare jobs.old (length frames.old) }
    ensures plan { (batch : ℕ) → realloced n (draft_of tables.old marks.old heap.old waiting.now frames.old jobs.old.pushed)
        result (draft_of tables.new marks.new heap.new waiting.now frames.new jobs.new.pushed)
        ≡ realloc_plan (terms harts call batch) pointer n (found_of found)
        (draft_of tables.old marks.old heap.old waiting.now frames.old jobs.old.pushed) }
    ensures fits { (batch : ℕ) → FitsAfter Oscar batch (draft_of tables.old marks.old heap.old waiting.now frames.old jobs.old.pushed)
        (realloced n (draft_of tables.old marks.old heap.old waiting.now frames.old jobs.old.pushed)
        result (draft_of tables.new marks.new heap.new waiting.now frames.new jobs.new.pushed)) }
    ensures object { IsDamagedAt marks.old.objects pointer result }
    ensures room { jobs.new.room ≡ jobs.old.room }
{
    let seen = object_with(marks, pointer).unwrap();
    let [first, second] = found;
    if let Some(damage) = header_damage(seen.fact, first, second) {
        return Realloced::HeaderDamaged {
            object: seen.number,
            kept: damage.kept,
            found: damage.found,
        };
    }
    let room = room_of(n);
    let in_place = is_room(room, room_of(seen.fact.size));
    let block_frames = newly_taken(heap, in_place, room);
    match memory_lack(tables, marks, frames, block_frames, shadow_pages(room)) {
        Some(Lack::Shadow) => Realloced::NoShadow,
        Some(Lack::Frames) => Realloced::NoFrames,
        None => move_object(
            tables, marks, waiting, heap, frames, jobs, seen, in_place, n, call, harts,
        ),
    }
}
