//! The plan of a free.

ghost use Rattle.std.specs.Prelude.{◌≡◌, ◌+◌, ◌<◌, ◌≤◌, ◌==◌, Bool, List, Some, All, length, true, if◌then◌else◌};
ghost use Rattle.osc_word.specs.JobList.{spare};
ghost use Rattle.osc_word.specs.declared.settings.HeapKind.TheVariants.{Oscar};
ghost use Rattle.osc_slot.specs.Heap.{Heap};
ghost use Rattle.osc_tables.specs.Calls.{changed};
ghost use Rattle.osc_tables.specs.Inside.{IsTop, InOrder};
ghost use Rattle.osc_mark.specs.Grants.{AreMarked, lives, number_at};
ghost use Rattle.osc_space.specs.Agree.{HasSpare};
ghost use Rattle.osc_space.specs.Header.{header_in};
ghost use Rattle.osc_space.specs.Objects.{fact, facts};
ghost use Rattle.osc_space.specs.Free.{free_plan, freed, let_wait};
ghost use Rattle.osc_shadow.specs.Fits.{FitsAfter};
ghost use Rattle.osc_shadow.specs.Flushing.{ShowsLive, flushed, leaves_over};
ghost use Rattle.osc_shadow.specs.Parts.{PartsAgreeOnHeap, draft_of};
ghost use Rattle.osc_shadow.specs.Sight.{GivesWords, seen_of};
ghost use Rattle.osc_release.specs.Outcomes.{terms, found_of, freed_now, object_in};

use crate::answer::FreePlan;
use osc_mark::Marks;
use osc_shadow::{SeenObject, flush, header_damage, know_tables, object_with, unmap_shadows};
use osc_tables::Tables;
use osc_word::{CallNo, Jobs, Waiting};

/// Flushes where as many objects wait as a batch has, and says whether.
fn flush_batch(
    tables: &mut Tables,
    marks: &Marks,
    waiting: &Waiting,
    harts: u32,
    batch: u32,
    jobs: &mut Jobs,
) -> bool
    requires top { IsTop tables.old.top }
    requires order { InOrder tables.old.tables }
    requires marked { AreMarked marks.now }
    requires shadows { ShowsLive tables.old marks.now.objects }
    requires known { All (λ object. object < length marks.now.objects) waiting.now }
    requires spare { length tables.old.tables + harts < spare jobs.old }
    ensures full { result ≡ (length waiting.now == batch) }
    ensures next { (free : List Bool) → changed tables.new free jobs.new.pushed
        ≡ (if length waiting.now == batch
        then flushed harts (leaves_over tables.old marks.now.objects (facts marks.now.objects waiting.now)) (changed tables.old free jobs.old.pushed)
        else changed tables.old free jobs.old.pushed) }
    ensures room { jobs.new.room ≡ jobs.old.room }
{
    let is_full = waiting.count() == batch;
    if is_full {
        flush(tables, marks, waiting.objects(), harts, jobs);
    }
    is_full
}

/// A live object is dead from now on, its pages are unmapped, and it waits.
fn free_object(
    tables: &mut Tables,
    marks: &mut Marks,
    waiting: &mut Waiting,
    jobs: &mut Jobs,
    seen: SeenObject,
    call: CallNo,
    harts: u32,
    batch: u32,
) -> FreePlan
    requires agree { PartsAgreeOnHeap tables.old marks.old waiting.old }
    requires marked { AreMarked marks.old }
    requires is { fact marks.old.objects seen.number ≡ Some seen.fact }
    requires within { seen.number < length marks.old.objects }
    requires live { lives (Some seen.fact) ≡ true }
    requires harts { harts ≤ 8 }
    requires batch { batch ≤ 64 }
    requires few { length waiting.old < batch }
    requires spare { HasSpare jobs.old tables.old.count }
    ensures plan { (heap : Heap) (free : List Bool)
        → freed_now result (draft_of tables.new marks.new heap waiting.new free jobs.new.pushed)
        ≡ freed seen.number (terms harts call batch)
        (let_wait (terms harts call batch) (seen_of seen) (draft_of tables.old marks.old heap waiting.old free jobs.old.pushed)) }
    ensures object { object_in result ≡ seen.number }
    ensures room { jobs.new.room ≡ jobs.old.room }
{
    know_tables(tables);
    marks.kill(seen.number, call);
    waiting.push(seen.number);
    unmap_shadows(tables, seen.fact.first, seen.fact.pages, jobs);
    let flush = flush_batch(tables, marks, waiting, harts, batch, jobs);
    FreePlan::Freed {
        object: seen.number,
        flush,
    }
}

/// Plans a free of a live object, the words of whose header were found as given. It is refused where
/// a word differs from what is kept; that changes nothing. Otherwise the object is dead by this call,
/// its pages are unmapped, and it is the last that waits. Where as many wait as a batch has, all are
/// let go: dead leaf tables over them are given up, and every box is to be cleared. The parts agree
/// again when the call has returned, and with it what was let go.
pub fn plan_free(
    tables: &mut Tables,
    marks: &mut Marks,
    waiting: &mut Waiting,
    jobs: &mut Jobs,
    pointer: u64,
    found: [u64; 2],
    call: CallNo,
    harts: u32,
    batch: u32,
) -> FreePlan
    requires agree { PartsAgreeOnHeap tables.old marks.old waiting.old }
    requires words { GivesWords (header_in tables.old marks.old.objects pointer) }
    requires harts { harts ≤ 8 }
    requires batch { batch ≤ 64 }
    requires few { length waiting.old < batch }
    requires spare { HasSpare jobs.old tables.old.count }
    ensures plan { (heap : Heap) (free : List Bool)
        → freed_now result (draft_of tables.new marks.new heap waiting.new free jobs.new.pushed)
        ≡ free_plan (terms harts call batch) pointer (found_of found)
        (draft_of tables.old marks.old heap waiting.old free jobs.old.pushed) }
    ensures fits { (heap : Heap) (free : List Bool)
        → FitsAfter Oscar batch (draft_of tables.old marks.old heap waiting.old free jobs.old.pushed)
        (freed_now result (draft_of tables.new marks.new heap waiting.new free jobs.new.pushed)) }
    ensures object { number_at marks.old.objects pointer ≡ Some (object_in result) }
    ensures room { jobs.new.room ≡ jobs.old.room }
{
    let seen = object_with(marks, pointer).unwrap();
    let [first, second] = found;
    if let Some(damage) = header_damage(seen.fact, first, second) {
        return FreePlan::HeaderDamaged {
            object: seen.number,
            kept: damage.kept,
            found: damage.found,
        };
    }
    free_object(tables, marks, waiting, jobs, seen, call, harts, batch)
}
