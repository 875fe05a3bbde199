ghost use Rattle.std.specs.Prelude.{◌≡◌, ◌+◌, ◌*◌, ◌<◌, ◌≤◌, length, IfOk, IfSome};
ghost use Rattle.osc_sv39.specs.Walk.{IsLevels};
ghost use Rattle.osc_space.specs.Agree.{HasSpare};
ghost use Rattle.osc_shadow.specs.Parts.{PartsAgreeWaiting};

use crate::{Malloced, Space, header_at, plan_malloc};
use osc_frames::Frames;
use osc_heap::CanonHeap;
use osc_mark::Marks;
use osc_space::HeaderLook;
use osc_tables::Tables;
use osc_word::{Job, Jobs, WordAt};
use std::alloc::{AllocError, Global};
use std::test::Fail;

/// A machine with one process that has its topmost table alone, and with room for exactly the jobs
/// that a plan may leave.
#[derive(Drop)]
struct Machine {
    space: Space,
    frames: Frames,
    jobs: Jobs,
}

/// The machine of so many frames, and None where it has no frame.
fn fresh(
    alloc: Global,
    frames: u32,
    shadows: u32,
    levels: u8,
) -> Result<Option<Machine>, AllocError>
    requires frames { frames ≤ 4096 }
    requires shadows { shadows ≤ 16777216 }
    requires levels { IsLevels levels }
    ensures agree { IfOk result (λ made. IfSome made (λ m. PartsAgreeWaiting m.space.tables m.space.marks m.space.heap m.frames)) }
    ensures spare { IfOk result (λ made. IfSome made (λ m. HasSpare m.jobs (length m.frames))) }
{
    let mut free = Frames::new(alloc, frames)?;
    let mut tables = Tables::new(alloc, frames, frames + shadows, levels)?;
    let marks = Marks::new(alloc, shadows)?;
    let heap = CanonHeap::new(alloc, frames)?;
    let jobs = Jobs::new(alloc, 8 * frames + 64)?;
    let Some(root) = free.take() else {
        return Ok(None);
    };
    tables.open(root);
    Ok(Some(Machine {
        space: Space {
            tables,
            marks,
            heap,
        },
        frames: free,
        jobs,
    }))
}

/// The answer to the first malloc in such a machine.
fn first_malloc(
    alloc: Global,
    frames: u32,
    shadows: u32,
    levels: u8,
    n: u64,
) -> Result<Option<Malloced>, AllocError>
    requires frames { frames ≤ 4096 }
    requires shadows { shadows ≤ 16777216 }
    requires levels { IsLevels levels }
{
    let Some(mut m) = fresh(alloc, frames, shadows, levels)? else {
        return Ok(None);
    };
    let answer = plan_malloc(&mut m.space, &mut m.frames, &mut m.jobs, n);
    Ok(Some(answer))
}

#[test]
fn refuses_at_exact_borders(rt: HostRuntime) -> Result<(), Fail> {
    let given = Malloced::Given {
        object: 0,
        pointer: 0x10_0000_0010,
    };
    let rows = [
        (4, 1, 3, 24, given),
        (3, 1, 3, 24, Malloced::NoFrames),
        (5, 1, 4, 24, given),
        (4, 1, 4, 24, Malloced::NoFrames),
        (1, 0, 3, 24, Malloced::NoShadow),
        (5, 2, 3, 4081, given),
        (4, 2, 3, 4081, Malloced::NoFrames),
        (5, 1, 3, 4081, Malloced::NoShadow),
        (1024, 65536, 3, u64::MAX, Malloced::NoShadow),
        (1024, 65536, 3, 8_000_000, Malloced::NoFrames),
    ];
    for (frames, shadows, levels, n, answer) in rows {
        if frames <= 4096 && shadows <= 16777216 && levels >= 3 && levels <= 4 {
            let got = first_malloc(rt.alloc(), frames, shadows, levels, n)?;
            assert_eq!(rt; got, Some(answer), "{n} bytes in {frames} frames");
        }
    }
    Ok(())
}

#[test]
fn first_malloc_leaves_jobs(rt: HostRuntime) -> Result<(), Fail> {
    let Some(mut m) = fresh(rt.alloc(), 8, 8, 3)? else {
        panic!(rt; "no frame");
    };
    let answer = plan_malloc(&mut m.space, &mut m.frames, &mut m.jobs, 24);
    let pointer = 0x10_0000_0010;
    assert_eq!(rt; answer, Malloced::Given { object: 0, pointer });
    let at = |frame, index| WordAt { frame, index };
    let jobs = [
        Job::ZeroWords {
            at: at(1, 2),
            count: 4,
        },
        Job::PutWord {
            at: at(1, 0),
            value: 0x20_0000_8010,
        },
        Job::PutWord {
            at: at(1, 1),
            value: 24,
        },
        Job::ZeroWords {
            at: at(2, 0),
            count: 512,
        },
        Job::PutWord {
            at: at(0, 64),
            value: 0x801,
        },
        Job::ZeroWords {
            at: at(3, 0),
            count: 512,
        },
        Job::PutWord {
            at: at(2, 0),
            value: 0xc01,
        },
        Job::PutWord {
            at: at(3, 0),
            value: 0x4d7,
        },
    ];
    for (i, job) in jobs.iter().enumerate() {
        assert_eq!(rt; m.jobs.get(i as u32), Some(*job), "job {i}");
    }
    assert_eq!(rt; m.jobs.get(8), None);
    let look = header_at(&m.space.tables, &m.space.marks, pointer);
    assert_eq!(rt; look, HeaderLook::Words(at(1, 0), at(1, 1)));
    Ok(())
}

#[test]
fn looks_by_pointer(rt: HostRuntime) -> Result<(), Fail> {
    let tables = Tables::new(rt.alloc(), 4, 8, 3)?;
    let mut marks = Marks::new(rt.alloc(), 4)?;
    assert!(rt; marks.left() >= 1);
    let object = marks.grant(1, 24, 0x20_0000_8010);
    let pointer = marks.fact(object).user;
    assert_eq!(rt; pointer, 0x10_0000_0010);
    assert_eq!(rt; header_at(&tables, &marks, 0), HeaderLook::Zero);
    assert_eq!(rt;
        header_at(&tables, &marks, pointer + 8),
        HeaderLook::NotAnObject
    );
    let is_live = matches!(marks.fact(object).state, osc_space::ObjectState::Live);
    assert!(rt; is_live);
    marks.kill(object, 7);
    let look = header_at(&tables, &marks, pointer);
    assert_eq!(rt; look, HeaderLook::DoubleFree { object: 0, call: 7 });
    Ok(())
}
