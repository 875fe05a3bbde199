//! The old object is dead, and it is let go with those that wait.

ghost use Rattle.std.specs.Prelude.{◌≡◌, ◌+◌, ◌<◌, ◌≤◌, ◌^◌, ◌++◌, ◌∷◌, [], Bool, List, All, Some, true, length, take};
ghost use Rattle.std.specs.List.{range_with_len};
ghost use Rattle.osc_word.specs.JobList.{spare};
ghost use Rattle.osc_class.specs.Rooms.{IsRoom, shadow_pages};
ghost use Rattle.osc_tables.specs.Calls.{changed};
ghost use Rattle.osc_tables.specs.Inside.{IsTop, InOrder};
ghost use Rattle.osc_mark.specs.Grants.{AreMarked, left, lives};
ghost use Rattle.osc_space.specs.Agree.{HasSpare};
ghost use Rattle.osc_space.specs.Objects.{fact, facts, grant, kill, next_object};
ghost use Rattle.osc_shadow.specs.Flushing.{ShowsLive, flushed, leaves_over};
ghost use Rattle.osc_shadow.specs.Parts.{PartsAgreeOnHeap};
ghost use Rattle.osc_realloc.specs.Replaced.{Replaced};

use osc_class::shadow_pages;
use osc_heap::Block;
use osc_mark::Marks;
use osc_shadow::{HEADER, SeenObject, flush, know_tables, unmap_shadows};
use osc_tables::Tables;
use osc_word::{CallNo, Jobs, ObjectNo, Waiting};

/// How many objects are let go together at most: 64 that wait, and one more.
const MOST: usize = 65;

/// These objects, and then another in each place that is left.
fn followed_by(objects: &[ObjectNo], last: ObjectNo) -> [ObjectNo; MOST]
    requires few { length objects.now ≤ 64 }
    ensures { take (length objects.now + 1) result ≡ objects.now ++ last ∷ [] }
{
    let mut all = [last; MOST];
    for i in 0..objects.len() {
        all[i] = objects[i];
    }
    all
}

/// Lets the objects that wait go, and one more.
fn let_go(
    tables: &mut Tables,
    marks: &Marks,
    waiting: &Waiting,
    object: ObjectNo,
    harts: u32,
    jobs: &mut Jobs,
)
    requires top { IsTop tables.old.top }
    requires order { InOrder tables.old.tables }
    requires marked { AreMarked marks.now }
    requires shadows { ShowsLive tables.old marks.now.objects }
    requires waits { length waiting.now ≤ 64 }
    requires known { All (λ object. object < length marks.now.objects) (waiting.now ++ object ∷ []) }
    requires spare { length tables.old.tables + harts < spare jobs.old }
    ensures next { (free : List Bool) → changed tables.new free jobs.new.pushed
        ≡ flushed harts (leaves_over tables.old marks.now.objects (facts marks.now.objects (waiting.now ++ object ∷ []))) (changed tables.old free jobs.old.pushed) }
    ensures few { length jobs.new.pushed ≤ length jobs.old.pushed + length tables.old.tables + harts }
    ensures room { jobs.new.room ≡ jobs.old.room }
{
    let gone = followed_by(waiting.objects(), object);
    let count = waiting.count() as usize + 1;
    flush(tables, marks, &gone[..count], harts, jobs);
}

/// Grants the next object of so many bytes in a block. An object that lived is dead by this call, its
/// pages are unmapped, and it is let go with those that wait. Gives the number of the new one.
pub fn replace_object(
    tables: &mut Tables,
    marks: &mut Marks,
    waiting: &Waiting,
    jobs: &mut Jobs,
    seen: SeenObject,
    block: Block,
    size: u64,
    call: CallNo,
    harts: u32,
) -> ObjectNo
    requires agree { PartsAgreeOnHeap tables.old marks.old waiting.now }
    requires marked { AreMarked marks.old }
    requires is { fact marks.old.objects seen.number ≡ Some seen.fact }
    requires within { seen.number < length marks.old.objects }
    requires live { lives (Some seen.fact) ≡ true }
    requires is_room { IsRoom block.room }
    requires left { shadow_pages block.room ≤ left marks.old }
    requires start { block.start + 16 < 2 ^ 64 }
    requires harts { harts ≤ 8 }
    requires spare { HasSpare jobs.old tables.old.count }
    ensures number { result ≡ next_object marks.old.objects }
    ensures grants { marks.new ≡ record marks.old { objects = kill seen.number call (grant (shadow_pages block.room) size (block.start + 16) marks.old.objects) } }
    ensures next { Replaced tables.old tables.new jobs.old.pushed jobs.new.pushed (range_with_len seen.fact.first seen.fact.pages) harts marks.new.objects (facts marks.new.objects (waiting.now ++ seen.number ∷ [])) }
    ensures few { length jobs.new.pushed ≤ length jobs.old.pushed + seen.fact.pages + length tables.old.tables + harts }
    ensures room { jobs.new.room ≡ jobs.old.room }
{
    know_tables(tables);
    let pages = shadow_pages(block.room);
    let object = marks.grant(pages as u32, size, block.start + HEADER);
    marks.kill(seen.number, call);
    unmap_shadows(tables, seen.fact.first, seen.fact.pages, jobs);
    let_go(tables, marks, waiting, seen.number, harts, jobs);
    object
}
