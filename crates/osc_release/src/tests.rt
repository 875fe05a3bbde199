ghost use Rattle.std.specs.Prelude.{◌≡◌, ◌≤◌, [], IfOk, IfSome};
ghost use Rattle.osc_space.specs.Agree.{HasSpare};
ghost use Rattle.osc_space.specs.Header.{header_in};
ghost use Rattle.osc_shadow.specs.Parts.{PartsAgreeOnHeap};
ghost use Rattle.osc_shadow.specs.Sight.{GivesWords};

use crate::{FreePlan, plan_free};
use osc_frames::Frames;
use osc_heap::CanonHeap;
use osc_mark::Marks;
use osc_shadow::{Space, plan_malloc};
use osc_space::examples::{first_malloc_makes, parts_can_agree};
use osc_tables::Tables;
use osc_word::{Job, Jobs, Waiting, WordAt};
use std::alloc::{AllocError, Global};
use std::test::Fail;

/// The user address of the first object.
const POINTER: u64 = 0x10_0000_0010;

/// A process with one object of 24 bytes, in a machine of 8 frames, and no pending job.
#[derive(Drop)]
struct Machine {
    space: Space,
    jobs: Jobs,
}

/// Such a machine, and None where its first frame is not the least free one.
fn one_object(alloc: Global) -> Result<Option<Machine>, AllocError>
    ensures agree { IfOk result (λ made. IfSome made (λ m. PartsAgreeOnHeap m.space.tables m.space.marks [])) }
    ensures words { IfOk result (λ made. IfSome made (λ m. GivesWords (header_in m.space.tables m.space.marks.objects 68719476752))) }
    ensures spare { IfOk result (λ made. IfSome made (λ m. HasSpare m.jobs m.space.tables.count)) }
{
    let mut frames = Frames::new(alloc, 8)?;
    let mut tables = Tables::new(alloc, 8, 16, 3)?;
    let marks = Marks::new(alloc, 8)?;
    let heap = CanonHeap::new(alloc, 8)?;
    let mut jobs = Jobs::new(alloc, 8 * 8 + 64)?;
    let Some(root) = frames.take() else {
        return Ok(None);
    };
    if root != 0 {
        return Ok(None);
    }
    tables.open(root);
    let mut space = Space {
        tables,
        marks,
        heap,
    };
    let _given = plan_malloc(&mut space, &mut frames, &mut jobs, 24);
    jobs.clear();
    first_malloc_makes();
    parts_can_agree();
    Ok(Some(Machine { space, jobs }))
}

#[test]
fn frees_by_batch_and_header(rt: HostRuntime) -> Result<(), Fail> {
    let canon = 0x20_0000_8010;
    let at = |frame, index| WordAt { frame, index };
    let unmapped = Job::PutWord {
        at: at(3, 0),
        value: 0,
    };
    let rows = [
        (
            1,
            [canon, 24],
            FreePlan::Freed {
                object: 0,
                flush: true,
            },
            3,
        ),
        (
            2,
            [canon, 24],
            FreePlan::Freed {
                object: 0,
                flush: false,
            },
            1,
        ),
        (
            64,
            [canon, 24],
            FreePlan::Freed {
                object: 0,
                flush: false,
            },
            1,
        ),
        (
            1,
            [canon, 9],
            FreePlan::HeaderDamaged {
                object: 0,
                kept: 24,
                found: 9,
            },
            0,
        ),
        (
            1,
            [8, 9],
            FreePlan::HeaderDamaged {
                object: 0,
                kept: canon,
                found: 8,
            },
            0,
        ),
    ];
    for (batch, found, answer, pushed) in rows {
        let Some(mut m) = one_object(rt.alloc())? else {
            panic!(rt; "no frame");
        };
        if batch >= 1 && batch <= 64 {
            let mut waiting = Waiting::new();
            let got = plan_free(
                &mut m.space.tables,
                &mut m.space.marks,
                &mut waiting,
                &mut m.jobs,
                POINTER,
                found,
                5,
                2,
                batch,
            );
            assert_eq!(rt; got, answer);
            let jobs = [
                unmapped,
                Job::ClearBox { hart: 0 },
                Job::ClearBox { hart: 1 },
            ];
            for (i, job) in jobs.iter().enumerate() {
                let wanted = if i < pushed { Some(*job) } else { None };
                assert_eq!(rt; m.jobs.get(i as u32), wanted);
            }
            assert_eq!(rt; m.jobs.get(3), None);
            assert_eq!(rt; waiting.count(), if pushed > 0 { 1 } else { 0 });
        }
    }
    Ok(())
}
