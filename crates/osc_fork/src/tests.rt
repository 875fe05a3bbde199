ghost use Rattle.std.specs.Prelude.{◌≡◌, ◌≤◌, IfOk, length};
ghost use Rattle.osc_sv39.specs.Walk.{IsLevels};
ghost use Rattle.osc_word.specs.JobList.{no_jobs};
ghost use Rattle.osc_frames.specs.Free.{IsTaken};
ghost use Rattle.osc_slot.specs.Heap.{empty_heap};
ghost use Rattle.osc_paging.specs.KeptTables.{closed};
ghost use Rattle.osc_paging.specs.TableChanges.{opened};
ghost use Rattle.osc_mark.specs.Grants.{no_grants};

use crate::{ForkPlan, plan_fork};
use osc_frames::Frames;
use osc_heap::CanonHeap;
use osc_mark::Marks;
use osc_tables::Tables;
use osc_word::{Frame, Job, Jobs};
use std::alloc::Global;
use std::process::Abort;
use std::test::Fail;

/// The parts of a process.
#[derive(Drop)]
struct Parts {
    tables: Tables,
    marks: Marks,
    heap: CanonHeap,
}

/// Plans a fork of a process that has no page, into a new one.
fn plan_on(
    parent: &Parts,
    child: &mut Parts,
    frames: &mut Frames,
    names: &mut [Frame],
    jobs: &mut Jobs,
    levels: u8,
) -> ForkPlan
    requires levels { IsLevels levels }
    requires tables { parent.now.tables ≡ opened 0 (closed levels 64 128) }
    requires marks { parent.now.marks ≡ no_grants 64 }
    requires heap { parent.now.heap ≡ empty_heap 64 }
    requires new_tables { child.old.tables ≡ closed levels 64 128 }
    requires new_marks { child.old.marks ≡ no_grants 64 }
    requires new_heap { child.old.heap ≡ empty_heap 64 }
    requires frames { length frames.old ≡ 64 }
    requires taken { IsTaken frames.old 0 }
    requires names { length names.old ≡ 64 }
    requires jobs { jobs.old ≡ no_jobs 1024 }
{
    plan_fork(
        &parent.tables,
        &parent.marks,
        &parent.heap,
        &mut child.tables,
        &mut child.marks,
        &mut child.heap,
        frames,
        names,
        jobs,
    )
}

/// Takes frames until so many are left.
fn take_until(rt: &impl Abort, frames: &mut Frames, left: u32)
    requires count { length frames.old ≡ 64 }
    requires taken { IsTaken frames.old 0 }
    ensures count { length frames.new ≡ 64 }
    ensures taken { IsTaken frames.new 0 }
{
    for _ in 0..64 {
        if frames.free_count() > left {
            frames.take().expect(rt, "no frame");
        }
    }
}

/// A process of a machine with 64 frames.
fn new_parts(alloc: Global, levels: u8) -> Result<Parts, Fail>
    requires { IsLevels levels }
    ensures { IfOk result (λ p. (p.tables ≡ closed levels 64 128) × (p.marks ≡ no_grants 64) × (p.heap ≡ empty_heap 64)) }
{
    Ok(Parts {
        tables: Tables::new(alloc, 64, 128, levels)?,
        marks: Marks::new(alloc, 64)?,
        heap: CanonHeap::new(alloc, 64)?,
    })
}

/// The topmost table is copied into the first of so many free frames; where none is free, nothing is.
fn fork_on(rt: &impl Abort, alloc: Global, levels: u8, left: u32) -> Result<(), Fail>
    requires levels { IsLevels levels }
    requires left { left ≤ 63 }
{
    let mut frames = Frames::new(alloc, 64)?;
    assert_eq!(rt; frames.take(), Some(0));
    take_until(rt, &mut frames, left);
    let mut parent = new_parts(alloc, levels)?;
    parent.tables.open(0);
    let mut child = new_parts(alloc, levels)?;
    let mut names = vec![in alloc; 7; 64]?;
    let mut jobs = Jobs::new(alloc, 1024)?;
    let plan = plan_on(
        &parent,
        &mut child,
        &mut frames,
        &mut names,
        &mut jobs,
        levels,
    );
    let first = 64 - left;
    if left == 0 {
        assert_eq!(rt; plan, ForkPlan::NoFrames);
        assert_eq!(rt; frames.free_count(), 0);
        assert_eq!(rt; jobs.get(0), None);
        assert_eq!(rt; child.tables.table_at(0), None);
    } else {
        assert_eq!(rt; plan, ForkPlan::Copied);
        assert_eq!(rt; frames.free_count(), left - 1);
        assert_eq!(rt; jobs.get(0), Some(Job::CopyTable { from: 0, to: first }));
        assert_eq!(rt; jobs.get(1), None);
        assert_eq!(rt; child.tables.table_at(first), parent.tables.table_at(0));
        assert_eq!(rt; child.tables.table_at(0), None);
        assert_eq!(rt; names.first(), Some(&first));
        assert_eq!(rt; names.get(1), Some(&1));
    }
    Ok(())
}

#[test]
fn three_levels(rt: HostRuntime) -> Result<(), Fail> {
    fork_on(&rt, rt.alloc(), 3, 63)?;
    fork_on(&rt, rt.alloc(), 3, 1)?;
    fork_on(&rt, rt.alloc(), 3, 0)
}

#[test]
fn four_levels(rt: HostRuntime) -> Result<(), Fail> {
    fork_on(&rt, rt.alloc(), 4, 1)?;
    fork_on(&rt, rt.alloc(), 4, 0)
}
