ghost use Rattle.std.specs.Prelude.{◌≡◌, ◌≤◌, IfOk, None};
ghost use Rattle.osc_word.specs.Limits.{first_fault};
ghost use Rattle.osc_open.specs.Laying.{AreImagePages, pages_of};

use crate::{Kernel, KernelFault};
use osc_sv39::PteBits;
use osc_word::{Config, Frame, HeapKind, Job, Page, WordAt};
use std::alloc::Global;
use std::process::Abort;
use std::test::Fail;

/// R and X.
const READ_EXECUTE: PteBits = PteBits(10);

/// The default machine, with so many frames and levels of tables.
fn machine(rt: &impl Abort, frames: u32, levels: u8) -> Config
    ensures { first_fault result ≡ None }
{
    let config = Config {
        heap: HeapKind::Oscar,
        harts: 4,
        processes: 16,
        frames,
        shadows: 65536,
        journal: 65536,
        levels,
        batch: 1,
    };
    match config.check() {
        Ok(()) => config,
        Err(_) => panic!(rt; "no machine"),
    }
}

/// So many pages of code, from the first page of an image on.
fn code_pages(alloc: Global, count: u64) -> Result<Vec<(Page, PteBits)>, Fail>
    requires { count ≤ 1024 }
    ensures { IfOk result (λ pages. AreImagePages 16 (pages_of pages.items)) }
{
    let mut pages = Vec::new(alloc);
    for page in 0x10..0x10 + count {
        pages.push((page, READ_EXECUTE))?;
    }
    Ok(pages)
}

/// What opening such a machine over so many pages of code answers.
fn open_on(
    rt: &impl Abort,
    alloc: Global,
    frames: u32,
    levels: u8,
    count: u64,
) -> Result<Result<Kernel, KernelFault>, Fail>
    requires { count ≤ 1024 }
{
    let config = machine(rt, frames, levels);
    let pages = code_pages(alloc, count)?;
    Ok(Kernel::open(alloc, &pages, &config))
}

/// It has no room: it needs so many frames.
fn lacks_room(
    rt: &impl Abort,
    alloc: Global,
    frames: u32,
    levels: u8,
    count: u64,
    needed: u64,
) -> Result<(), Fail>
    requires { count ≤ 1024 }
{
    match open_on(rt, alloc, frames, levels, count)? {
        Ok(_) => panic!(rt; "opened on {frames} frames"),
        Err(fault) => assert_eq!(rt; fault, KernelFault::NoRoom { needed, frames }),
    }
    Ok(())
}

/// It opens.
fn opens(
    rt: &impl Abort,
    alloc: Global,
    frames: u32,
    levels: u8,
    count: u64,
) -> Result<Kernel, Fail>
    requires { count ≤ 1024 }
{
    match open_on(rt, alloc, frames, levels, count)? {
        Ok(kernel) => Ok(kernel),
        Err(fault) => panic!(rt; "{fault:?} on {frames} frames"),
    }
}

/// The words of a new table are 0.
fn zeroes(frame: Frame) -> Job {
    Job::ZeroWords {
        at: WordAt { frame, index: 0 },
        count: 512,
    }
}

/// The word of a table's entry.
fn puts(frame: Frame, index: u16, value: u64) -> Job {
    Job::PutWord {
        at: WordAt { frame, index },
        value,
    }
}

/// The next job is this one, and is done.
fn does(rt: &impl Abort, kernel: &mut Kernel, wanted: Job) {
    match kernel.next_job() {
        Some(job) => assert_eq!(rt; job, wanted),
        None => panic!(rt; "no job is left"),
    }
    kernel.job_done(0);
}

/// The first process runs, and nothing was done yet.
fn is_new(rt: &impl Abort, kernel: &Kernel) {
    assert_eq!(rt; kernel.processes(), 1);
    assert_eq!(rt; kernel.ended(0), None);
    assert_eq!(rt; kernel.ended(1), None);
    assert!(rt; !kernel.over());
    assert_eq!(rt; kernel.root(0), Some(0));
    assert_eq!(rt; kernel.root(1), None);
    assert_eq!(rt; kernel.owner(0, 0x10), None);
    assert_eq!(rt; kernel.peak(), 0);
    assert_eq!(rt; kernel.label(), None);
    assert_eq!(rt; kernel.freed().count(), 0);
    assert_eq!(rt; kernel.journal().len(), 0);
    assert_eq!(rt; kernel.output().len(), 0);
    assert_eq!(rt; kernel.reports().len(), 0);
}

/// One page of code needs 22 frames: three tables and its own, and two more tables and 16 for the stack.
#[test]
fn one_page(rt: HostRuntime) -> Result<(), Fail> {
    let mut kernel = opens(&rt, rt.alloc(), 1024, 3, 1)?;
    is_new(&rt, &kernel);
    assert_eq!(rt; kernel.state.frames.free_count(), 1002);
    assert_eq!(rt; kernel.state.records.harts(), 4);
    let tables = [
        zeroes(1),
        puts(0, 0, 0x401),
        zeroes(2),
        puts(1, 0, 0x801),
        puts(2, 16, 0xcdb),
        zeroes(4),
        puts(0, 4, 0x1001),
        zeroes(5),
        puts(4, 0, 0x1401),
    ];
    for job in tables {
        does(&rt, &mut kernel, job);
    }
    for k in 0..16 {
        does(
            &rt,
            &mut kernel,
            puts(5, 240 + k, 0x18d7 + 0x400 * u64::from(k)),
        );
    }
    assert_eq!(rt; kernel.next_job(), None);
    is_new(&rt, &kernel);
    Ok(())
}

/// A hundred pages need 121 frames, and one more with a fourth level of tables.
#[test]
fn needs_all_its_frames(rt: HostRuntime) -> Result<(), Fail> {
    for (levels, needed) in [(3, 121), (4, 122)] {
        lacks_room(&rt, rt.alloc(), 64, levels, 100, u64::from(needed))?;
        lacks_room(&rt, rt.alloc(), needed - 1, levels, 100, u64::from(needed))?;
        let kernel = opens(&rt, rt.alloc(), needed, levels, 100)?;
        is_new(&rt, &kernel);
        assert_eq!(rt; kernel.state.frames.free_count(), 0);
    }
    Ok(())
}
