//! The plan of a fork.

ghost use Rattle.std.specs.Prelude.{◌≡◌, ℕ, List, None, Some, if◌then◌else◌, length, nat_lt};
ghost use Rattle.osc_word.specs.declared.calls.Answer.TheVariants.{NoFrames};
ghost use Rattle.osc_frames.specs.Free.{free_count};
ghost use Rattle.osc_slot.specs.Heap.{empty_heap};
ghost use Rattle.osc_paging.specs.KeptTables.{closed, levels_of};
ghost use Rattle.osc_mark.specs.Grants.{no_grants};
ghost use Rattle.osc_space.specs.Agree.{HasSpare};
ghost use Rattle.osc_space.specs.Fork.{fork_reasons};
ghost use Rattle.osc_space.specs.Space.{first_reason};
ghost use Rattle.osc_tables.specs.Calls.{IsOrdered};
ghost use Rattle.osc_fork.specs.Names.{Known, marked_frames};
ghost use Rattle.osc_fork.specs.Fits.{FitsAfter};
ghost use Rattle.osc_fork.specs.Plan.{IsForkPlan, PartsAgree, forking, space_of};

use crate::copies::copy_frames;
use crate::marking::{count_marked, mark_objects, mark_pages, mark_tables};
use osc_frames::Frames;
use osc_heap::CanonHeap;
use osc_mark::Marks;
use osc_tables::Tables;
use osc_word::address_map::{CANONICAL_END_PAGE, FIRST_CANONICAL_PAGE, FIRST_SHARED_PAGE};
use osc_word::{Frame, Jobs};

/// What a fork answers.
#[derive(Clone, Copy, Debug, PartialEq, Eq)]
pub enum ForkPlan {
    /// The child has the parent's memory over new frames.
    Copied,
    /// The frames that are to be copied are more than the free ones.
    NoFrames,
}

/// Finds the private frames, which a fork copies, in a work space with a place for each frame of the
/// machine. Whether they are more than the free ones: then, and only then, a fork is refused.
pub fn lacks_frames(
    tables: &Tables,
    marks: &Marks,
    heap: &CanonHeap,
    frames: &Frames,
    names: &mut [Frame],
) -> bool
    requires agrees { PartsAgree tables.now marks.now heap.now frames.now }
    requires names { length names.old ≡ length frames.now }
    ensures refused { (waiting : List ℕ) → first_reason (fork_reasons (space_of tables.now marks.now heap.now waiting) frames.now)
        ≡ (if result then Some NoFrames else None) }
    ensures known { (waiting : List ℕ) → Known (space_of tables.now marks.now heap.now waiting) frames.now names.new }
    ensures count { result ≡ nat_lt (free_count frames.now) (length (marked_frames names.new)) }
    ensures order { IsOrdered tables.now }
{
    mark_tables(tables, names);
    mark_pages(tables, 0, FIRST_SHARED_PAGE, names);
    mark_pages(tables, FIRST_CANONICAL_PAGE, CANONICAL_END_PAGE, names);
    mark_objects(marks, heap, names);
    count_marked(names) > frames.free_count() as usize
}

/// Plans a fork into the empty parts of a child, which have the parent's rooms and limits. `names` is
/// a work space with a place for each frame of the machine; after Copied it has the child's frame for
/// each frame of the parent that was copied, and each other frame stands for itself. It is NoFrames
/// exactly where the private frames are more than the free ones, and changes nothing but the work
/// space then. After Copied the parts of both processes agree, with the regions that the child joins.
pub fn plan_fork(
    tables: &Tables,
    marks: &Marks,
    heap: &CanonHeap,
    child_tables: &mut Tables,
    child_marks: &mut Marks,
    child_heap: &mut CanonHeap,
    frames: &mut Frames,
    names: &mut [Frame],
    jobs: &mut Jobs,
) -> ForkPlan
    requires agrees { PartsAgree tables.now marks.now heap.now frames.old }
    requires no_tables { child_tables.old ≡ closed (levels_of tables.now) tables.now.count tables.now.room }
    requires no_marks { child_marks.old ≡ no_grants marks.now.limit }
    requires no_blocks { child_heap.old ≡ empty_heap heap.now.frames }
    requires names { length names.old ≡ length frames.old }
    requires spare { HasSpare jobs.old (length frames.old) }
    ensures plan { (waiting : List ℕ) → IsForkPlan (space_of tables.now marks.now heap.now waiting) result
        (forking child_tables.old child_marks.old child_heap.old frames.old jobs.old.pushed) names.new
        (forking child_tables.new child_marks.new child_heap.new frames.new jobs.new.pushed) }
    ensures fits { (waiting : List ℕ) → FitsAfter (space_of tables.now marks.now heap.now waiting) result
        (forking child_tables.old child_marks.old child_heap.old frames.old jobs.old.pushed) names.new
        (forking child_tables.new child_marks.new child_heap.new frames.new jobs.new.pushed) }
    ensures room { jobs.new.room ≡ jobs.old.room }
{
    if lacks_frames(tables, marks, heap, frames, names) {
        return ForkPlan::NoFrames;
    }
    copy_frames(tables, names, frames, jobs);
    tables.copy_to(child_tables, names);
    marks.copy_to(child_marks);
    heap.copy_to(child_heap, names);
    ForkPlan::Copied
}
