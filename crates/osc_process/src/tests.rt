ghost use Rattle.std.specs.Prelude.{◌+◌, ◌*◌, ◌≡◌, ◌<◌, ◌≤◌, IfOk, None, length};
ghost use Rattle.osc_word.specs.JobList.{no_jobs};
ghost use Rattle.osc_word.specs.Limits.{first_fault};
ghost use Rattle.osc_frames.specs.Free.{all_free};
ghost use Rattle.osc_paging.specs.TableChanges.{opened};
ghost use Rattle.osc_tables.specs.Calls.{IsClosed};
ghost use Rattle.osc_space.specs.Share.{no_regions};
ghost use Rattle.osc_process.specs.Fits.{HasBatch};
ghost use Rattle.osc_process.specs.Parts.{unused, with_tables};
ghost use Rattle.osc_process.specs.Stands.{Stands};

use crate::{Closing, Process};
use osc_calls::Begun;
use osc_class::Room;
use osc_frames::Frames;
use osc_heap::Block;
use osc_share::Regions;
use osc_word::{Answer, CallNo, Config, Frame, HeapKind, Job, Jobs, WordAt};
use std::alloc::Global;
use std::mem;
use std::process::Abort;
use std::test::Fail;

/// A process alone in its machine, whose topmost table has frame 0.
#[derive(Drop)]
struct Machine {
    config: Config,
    process: Process,
    frames: Frames,
    regions: Regions,
    /// The jobs of the last call.
    jobs: Jobs,
    /// What the last call gave back.
    closing: Closing,
    /// The free frames after the plan of the last call, before its return.
    planned: u32,
}

/// Opens the tables of a process with their topmost one.
fn open_root(process: &mut Process, root: Frame)
    requires closed { IsClosed process.old.space.tables }
    requires taken { root < process.old.space.tables.count }
    ensures { process.new ≡ with_tables (opened root process.old.space.tables) process.old }
{
    process.space.tables.open(root);
}

/// A configuration of a machine that there can be.
fn checked(rt: &impl Abort, config: Config) -> Config
    ensures { first_fault result ≡ None }
{
    match config.check() {
        Ok(()) => config,
        Err(_) => panic!(rt; "no machine"),
    }
}

/// The rooms of a machine, in which nothing is used.
fn with_rooms(alloc: Global, config: Config) -> Result<Machine, Fail>
    requires { first_fault config ≡ None }
    ensures valid { IfOk result (λ m. first_fault m.config ≡ None) }
    ensures process { IfOk result (λ m. m.process ≡ unused m.config.levels m.config.frames m.config.shadows) }
    ensures frames { IfOk result (λ m. m.frames ≡ all_free m.config.frames) }
    ensures regions { IfOk result (λ m. m.regions ≡ no_regions m.config.frames) }
    ensures jobs { IfOk result (λ m. m.jobs ≡ no_jobs (8 * m.config.frames + 64)) }
{
    let process = Process::new(alloc, &config)?;
    let frames = Frames::new(alloc, config.frames)?;
    let regions = Regions::new(alloc, config.frames)?;
    let jobs = Jobs::new(alloc, 8 * config.frames + 64)?;
    let closing = Closing::new(alloc)?;
    Ok(Machine {
        config,
        process,
        frames,
        regions,
        jobs,
        closing,
        planned: 0,
    })
}

/// Gives the process its topmost table.
fn start(rt: &impl Abort, m: &mut Machine)
    requires valid { first_fault m.old.config ≡ None }
    requires process { m.old.process ≡ unused m.old.config.levels m.old.config.frames m.old.config.shadows }
    requires frames { m.old.frames ≡ all_free m.old.config.frames }
    requires regions { m.old.regions ≡ no_regions m.old.config.frames }
    requires jobs { m.old.jobs ≡ no_jobs (8 * m.old.config.frames + 64) }
    ensures stands { Stands m.new.config m.new.process m.new.regions m.new.frames m.new.jobs }
{
    let root = m.frames.take().expect(rt, "no frame");
    open_root(&mut m.process, root);
}

/// Such a machine, before its first call.
fn fresh(rt: &impl Abort, alloc: Global, config: Config) -> Result<Machine, Fail>
    ensures stands { IfOk result (λ m. Stands m.config m.process m.regions m.frames m.jobs) }
{
    let mut m = with_rooms(alloc, checked(rt, config))?;
    start(rt, &mut m);
    Ok(m)
}

/// A malloc and its return.
fn malloc(m: &mut Machine, n: u64) -> Answer
    requires stands { Stands m.old.config m.old.process m.old.regions m.old.frames m.old.jobs }
    ensures stands { Stands m.new.config m.new.process m.new.regions m.new.frames m.new.jobs }
{
    m.jobs.clear();
    let answer = m.process.malloc(&m.config, n, &mut m.frames, &mut m.jobs);
    m.planned = m.frames.free_count();
    answer
}

/// A free and its return; `found` is what stands in the header.
fn free(m: &mut Machine, pointer: u64, found: [u64; 2], call: CallNo) -> Answer
    requires stands { Stands m.old.config m.old.process m.old.regions m.old.frames m.old.jobs }
    ensures stands { Stands m.new.config m.new.process m.new.regions m.new.frames m.new.jobs }
{
    m.jobs.clear();
    let answer = m.process.free(&m.config, pointer, found, call, &mut m.jobs, &mut m.closing);
    m.planned = m.frames.free_count();
    m.process.finish(&m.closing, &mut m.frames);
    answer
}

/// A realloc to `n` bytes and its return; `found` is what stands in the header.
fn realloc(m: &mut Machine, pointer: u64, n: u64, found: [u64; 2], call: CallNo) -> Answer
    requires stands { Stands m.old.config m.old.process m.old.regions m.old.frames m.old.jobs }
    ensures stands { Stands m.new.config m.new.process m.new.regions m.new.frames m.new.jobs }
{
    m.jobs.clear();
    let answer = m.process.realloc(
        &m.config,
        pointer,
        n,
        found,
        call,
        &mut m.frames,
        &mut m.jobs,
        &mut m.closing,
    );
    m.planned = m.frames.free_count();
    m.process.finish(&m.closing, &mut m.frames);
    answer
}

/// The process, which has the number 3, forks. From now on the machine is its child's; it is returned.
fn fork(rt: &impl Abort, alloc: Global, m: &mut Machine) -> Result<Process, Fail>
    requires stands { Stands m.old.config m.old.process m.old.regions m.old.frames m.old.jobs }
    ensures stands { IfOk result (λ _. Stands m.new.config m.new.process m.new.regions m.new.frames m.new.jobs) }
    ensures batch { IfOk result (λ parent. HasBatch m.new.config.heap m.new.config.batch parent.space) }
    ensures count { IfOk result (λ parent. parent.space.tables.count ≡ m.new.config.frames) }
{
    let mut names = vec![in alloc; 0; m.config.frames as usize]?;
    let mut child = Process::new(alloc, &m.config)?;
    m.jobs.clear();
    if m.process.fork_refusal(&m.frames, &mut names).is_some() {
        panic!(rt; "too few frames");
    }
    m.process
        .fork_into(3, &mut child, &mut m.frames, &mut names, &mut m.jobs);
    Ok(mem::replace(&mut m.process, child))
}

/// A free by the parent of the machine's process, before its return; `found` is what stands in the header.
fn parent_free(
    m: &mut Machine,
    parent: &mut Process,
    pointer: u64,
    found: [u64; 2],
    call: CallNo,
) -> Answer
    requires stands { Stands m.old.config m.old.process m.old.regions m.old.frames m.old.jobs }
    requires batch { HasBatch m.old.config.heap m.old.config.batch parent.old.space }
    requires count { parent.old.space.tables.count ≡ m.old.config.frames }
    ensures stands { Stands m.new.config m.new.process m.new.regions m.new.frames m.new.jobs }
{
    m.jobs.clear();
    parent.free(&m.config, pointer, found, call, &mut m.jobs, &mut m.closing)
}

/// A machine of 64 frames and two harts.
fn config(heap: HeapKind, batch: u32, shadows: u32, levels: u8) -> Config {
    Config {
        heap,
        harts: 2,
        processes: 4,
        frames: 64,
        shadows,
        journal: 16,
        levels,
        batch,
    }
}

/// The block at a slot of 48 bytes, in a machine of 64 frames: it is in the second area, of 64 pages.
fn small(slot: u64) -> Block {
    Block {
        start: 0x20_0004_0000_u64.wrapping_add(slot.wrapping_mul(48)),
        room: Room::Small(1),
    }
}

/// The first block of two pages there, in the fifteenth area.
fn two_pages() -> Block {
    Block {
        start: 0x20_0038_0000,
        room: Room::Pages(2),
    }
}

/// The header of the object of so many bytes in a block.
fn header(block: Block, n: u64) -> [u64; 2] {
    [block.start.wrapping_add(16), n]
}

/// An answer to a malloc.
fn given(object: u32, pointer: u64) -> Answer {
    Answer::Given { object, pointer }
}

/// The jobs of the last call are these.
fn check_jobs(rt: &impl Abort, m: &Machine, jobs: &[Job])
    requires { length jobs.now ≤ 3 }
{
    for (i, job) in jobs.iter().enumerate() {
        assert_eq!(rt; m.jobs.get(i as u32), Some(*job), "job {i}");
    }
    assert_eq!(rt; m.jobs.get(jobs.len() as u32), None);
}

/// The last call gave these blocks back, and nothing where there is no list; so many frames were free
/// after its plan, and so many are now.
fn check_given(rt: &impl Abort, m: &Machine, blocks: Option<&[Block]>, planned: u32, left: u32) {
    assert_eq!(rt; m.closing.blocks(), blocks);
    assert_eq!(rt; m.planned, planned);
    assert_eq!(rt; m.frames.free_count(), left);
}

/// The last call gave back the first 64 blocks of 48 bytes.
fn check_all_given(rt: &impl Abort, m: &Machine) {
    let blocks = m.closing.blocks().unwrap_or(&[]);
    assert_eq!(rt; blocks.len(), 64);
    for (i, block) in blocks.iter().enumerate() {
        assert_eq!(rt; *block, small(i as u64), "block {i}");
    }
}

/// The job that unmaps a page, whose leaf table has frame 3.
fn unmap(index: u16) -> Job {
    Job::PutWord {
        at: WordAt { frame: 3, index },
        value: 0,
    }
}

/// The process ends, and so many frames are free then.
fn end_leaving(rt: &impl Abort, m: &mut Machine, left: u32)
    requires stands { Stands m.old.config m.old.process m.old.regions m.old.frames m.old.jobs }
{
    assert_eq!(rt; m.process.status(), None);
    m.process.end(7, &mut m.regions, &mut m.frames);
    assert_eq!(rt; m.frames.free_count(), left);
    assert_eq!(rt; m.process.status(), Some(7));
    assert!(rt; m.process.waiting().is_empty());
}

/// The process ends, and no frame is lost.
fn end(rt: &impl Abort, m: &mut Machine)
    requires stands { Stands m.old.config m.old.process m.old.regions m.old.frames m.old.jobs }
{
    let frames = m.config.frames;
    end_leaving(rt, m, frames);
}

#[test]
fn second_free_flushes(rt: HostRuntime) -> Result<(), Fail> {
    let mut m = fresh(&rt, rt.alloc(), config(HeapKind::Oscar, 2, 8, 3))?;
    assert_eq!(rt; m.frames.free_count(), 63);
    assert_eq!(rt; malloc(&mut m, 24), given(0, 0x10_0000_0010));
    assert_eq!(rt; malloc(&mut m, 24), given(1, 0x10_0000_1040));
    assert_eq!(rt; m.frames.free_count(), 60);
    let found = header(small(0), 24);
    let freed = free(&mut m, 0x10_0000_0010, found, 2);
    assert_eq!(rt; freed, Answer::Freed { object: 0 });
    check_jobs(&rt, &m, &[unmap(0)]);
    check_given(&rt, &m, None, 60, 60);
    assert_eq!(rt; m.process.waiting(), [0].as_slice());
    let freed = free(&mut m, 0x10_0000_1040, header(small(1), 24), 3);
    assert_eq!(rt; freed, Answer::Freed { object: 1 });
    let clears = [Job::ClearBox { hart: 0 }, Job::ClearBox { hart: 1 }];
    check_jobs(&rt, &m, &[unmap(1), clears[0], clears[1]]);
    check_given(&rt, &m, Some(&[small(0), small(1)]), 60, 61);
    assert!(rt; m.process.waiting().is_empty());
    let again = free(&mut m, 0x10_0000_0010, found, 4);
    assert_eq!(rt; again, Answer::DoubleFree { object: 0, call: 2 });
    assert_eq!(rt; malloc(&mut m, 24), given(2, 0x10_0000_2010));
    assert_eq!(rt; m.frames.free_count(), 60);
    assert_eq!(rt; m.process.granted(), 3);
    end(&rt, &mut m);
    Ok(())
}

#[test]
fn first_free_flushes_batch_of_one(rt: HostRuntime) -> Result<(), Fail> {
    let mut m = fresh(&rt, rt.alloc(), config(HeapKind::Oscar, 1, 8, 3))?;
    malloc(&mut m, 24);
    let freed = free(&mut m, 0x10_0000_0010, header(small(0), 24), 1);
    assert_eq!(rt; freed, Answer::Freed { object: 0 });
    let clears = [Job::ClearBox { hart: 0 }, Job::ClearBox { hart: 1 }];
    check_jobs(&rt, &m, &[unmap(0), clears[0], clears[1]]);
    check_given(&rt, &m, Some(&[small(0)]), 60, 61);
    assert!(rt; m.process.waiting().is_empty());
    Ok(())
}

#[test]
fn batch_of_64_flushes_once(rt: HostRuntime) -> Result<(), Fail> {
    let mut m = fresh(&rt, rt.alloc(), config(HeapKind::Oscar, 64, 64, 3))?;
    for i in 0..64_u32 {
        let block = small(u64::from(i));
        let offset = (block.start & 0xfff).wrapping_add(16);
        let pointer = (0x10_0000_0000 + u64::from(i) * 0x1000) | offset;
        assert_eq!(rt; malloc(&mut m, 24), given(i, pointer));
        let freed = free(&mut m, pointer, header(block, 24), i);
        assert_eq!(rt; freed, Answer::Freed { object: i });
        let count = if i < 63 { i as usize + 1 } else { 0 };
        assert_eq!(rt; m.process.waiting().len(), count);
        assert_eq!(rt; m.frames.free_count(), if i < 63 { 60 } else { 61 });
    }
    check_all_given(&rt, &m);
    assert_eq!(rt; malloc(&mut m, 24), Answer::NoShadow);
    end(&rt, &mut m);
    Ok(())
}

#[test]
fn realloc_gives_back_all_that_wait(rt: HostRuntime) -> Result<(), Fail> {
    for batch in [3, 64] {
        let mut m = fresh(&rt, rt.alloc(), config(HeapKind::Oscar, batch, 8, 3))?;
        malloc(&mut m, 24);
        malloc(&mut m, 24);
        malloc(&mut m, 24);
        free(&mut m, 0x10_0000_1040, header(small(1), 24), 3);
        free(&mut m, 0x10_0000_0010, header(small(0), 24), 4);
        assert_eq!(rt; m.process.waiting(), [1, 0].as_slice());
        let found = header(small(2), 24);
        let moved = realloc(&mut m, 0x10_0000_2070, 5000, found, 5);
        let pointer = 0x10_0000_3010;
        let answer = Answer::Moved {
            old: 2,
            object: 3,
            pointer,
        };
        assert_eq!(rt; moved, answer);
        check_given(&rt, &m, Some(&[small(1), small(0), small(2)]), 58, 59);
        assert!(rt; m.process.waiting().is_empty());
        end(&rt, &mut m);
    }
    Ok(())
}

#[test]
fn realloc_in_place_gives_back_what_waits(rt: HostRuntime) -> Result<(), Fail> {
    for batch in [2, 64] {
        let mut m = fresh(&rt, rt.alloc(), config(HeapKind::Oscar, batch, 8, 3))?;
        malloc(&mut m, 24);
        malloc(&mut m, 24);
        free(&mut m, 0x10_0000_0010, header(small(0), 24), 2);
        let found = header(small(1), 24);
        let moved = realloc(&mut m, 0x10_0000_1040, 30, found, 3);
        let pointer = 0x10_0000_2040;
        let answer = Answer::Moved {
            old: 1,
            object: 2,
            pointer,
        };
        assert_eq!(rt; moved, answer);
        check_given(&rt, &m, Some(&[small(0)]), 60, 60);
        assert!(rt; m.process.waiting().is_empty());
        assert_eq!(rt; malloc(&mut m, 24), given(3, 0x10_0000_3010));
    }
    Ok(())
}

#[test]
fn three_reallocs(rt: HostRuntime) -> Result<(), Fail> {
    let mut m = fresh(&rt, rt.alloc(), config(HeapKind::Oscar, 1, 8, 3))?;
    malloc(&mut m, 24);
    let rows = [
        (
            0_u32,
            0x10_0000_0010,
            30,
            header(small(0), 24),
            0x10_0000_1010,
            60,
            60,
        ),
        (
            1,
            0x10_0000_1010,
            5000,
            header(small(0), 30),
            0x10_0000_2010,
            58,
            59,
        ),
        (
            2,
            0x10_0000_2010,
            10,
            header(two_pages(), 5000),
            0x10_0000_4010,
            58,
            60,
        ),
    ];
    for (old, from, n, found, pointer, planned, left) in rows {
        let moved = realloc(&mut m, from, n, found, old.wrapping_add(1));
        let answer = Answer::Moved {
            old,
            object: old.wrapping_add(1),
            pointer,
        };
        assert_eq!(rt; moved, answer, "to {n} bytes");
        assert_eq!(rt; m.planned, planned);
        assert_eq!(rt; m.frames.free_count(), left);
    }
    assert_eq!(rt; m.closing.blocks(), Some([two_pages()].as_slice()));
    assert_eq!(rt; malloc(&mut m, 24), given(4, 0x10_0000_5010));
    assert_eq!(rt; m.frames.free_count(), 59);
    for (pointer, object) in [
        (0x10_0000_0010, 0_u32),
        (0x10_0000_1010, 1),
        (0x10_0000_2010, 2),
    ] {
        let freed = free(&mut m, pointer, [0, 0], 9);
        let call: u32 = object.wrapping_add(1);
        assert_eq!(rt; freed, Answer::DoubleFree { object, call });
    }
    end(&rt, &mut m);
    Ok(())
}

#[test]
fn leaf_table_goes_with_its_last_page(rt: HostRuntime) -> Result<(), Fail> {
    let mut m = fresh(&rt, rt.alloc(), config(HeapKind::Oscar, 1, 600, 3))?;
    for i in 0..600_u32 {
        let pointer = 0x10_0000_0010 + u64::from(i) * 0x1000;
        assert_eq!(rt; malloc(&mut m, 24), given(i, pointer));
        free(&mut m, pointer, header(small(0), 24), i);
        assert_eq!(rt; m.frames.free_count(), if i == 511 { 62 } else { 61 });
    }
    assert_eq!(rt; m.process.granted(), 600);
    assert_eq!(rt; malloc(&mut m, 24), Answer::NoShadow);
    end(&rt, &mut m);
    Ok(())
}

#[test]
fn refusals_change_nothing(rt: HostRuntime) -> Result<(), Fail> {
    let mut m = fresh(&rt, rt.alloc(), config(HeapKind::Oscar, 1, 3, 3))?;
    assert_eq!(rt; malloc(&mut m, u64::MAX), Answer::NoShadow);
    assert_eq!(rt; malloc(&mut m, 0), given(0, 0x10_0000_0010));
    assert_eq!(rt; malloc(&mut m, 0), given(1, 0x10_0000_1030));
    assert_eq!(rt; malloc(&mut m, 24), given(2, 0x10_0000_2010));
    assert_eq!(rt; malloc(&mut m, 24), Answer::NoShadow);
    let pointer = 0x10_0000_2010;
    let rows = [
        (0, [0, 0], Answer::Nothing),
        (pointer + 16, [0, 0], Answer::NotAnObject),
        (
            pointer,
            [0x20_0004_0010, 9],
            Answer::HeaderDamaged { kept: 24, found: 9 },
        ),
        (
            pointer,
            [8, 24],
            Answer::HeaderDamaged {
                kept: 0x20_0004_0010,
                found: 8,
            },
        ),
    ];
    for (at, found, answer) in rows {
        assert_eq!(rt; free(&mut m, at, found, 5), answer);
        check_jobs(&rt, &m, &[]);
        check_given(&rt, &m, None, 59, 59);
    }
    let step = m.process.free_step(&m.config, pointer);
    let at = |index| WordAt { frame: 4, index };
    assert_eq!(rt; step, Begun::Header(at(0), at(1)));
    Ok(())
}

#[test]
fn plain_blocks_are_used_again(rt: HostRuntime) -> Result<(), Fail> {
    let mut m = fresh(&rt, rt.alloc(), config(HeapKind::Plain, 1, 8, 3))?;
    let first = Answer::Placed {
        pointer: 0x20_0004_0010,
    };
    let second = Answer::Placed {
        pointer: 0x20_0004_0040,
    };
    assert_eq!(rt; malloc(&mut m, 24), first);
    assert_eq!(rt; malloc(&mut m, 24), second);
    assert_eq!(rt; free(&mut m, 0x20_0004_0010, [0, 0], 2), Answer::Nothing);
    check_given(&rt, &m, Some(&[small(0)]), 60, 60);
    assert_eq!(rt;
        free(&mut m, 0x20_0004_0010, [0, 0], 3),
        Answer::NotAnObject
    );
    assert_eq!(rt; malloc(&mut m, 24), first);
    assert_eq!(rt; m.process.granted(), 0);
    end(&rt, &mut m);
    Ok(())
}

#[test]
fn child_has_objects_of_its_own(rt: HostRuntime) -> Result<(), Fail> {
    let mut m = fresh(&rt, rt.alloc(), config(HeapKind::Oscar, 2, 8, 3))?;
    malloc(&mut m, 24);
    malloc(&mut m, 24);
    malloc(&mut m, 24);
    free(&mut m, 0x10_0000_1040, header(small(1), 24), 3);
    let mut parent = fork(&rt, rt.alloc(), &mut m)?;
    assert_eq!(rt; m.frames.free_count(), 56);
    assert_eq!(rt; m.process.parent(), Some(3));
    assert_eq!(rt; m.process.granted(), 0);
    assert_eq!(rt; m.process.waiting(), [1].as_slice());
    let (first, third) = (0x10_0000_0010, 0x10_0000_2070);
    let clears = [Job::ClearBox { hart: 0 }, Job::ClearBox { hart: 1 }];
    let freed = parent_free(&mut m, &mut parent, first, header(small(0), 24), 4);
    assert_eq!(rt; freed, Answer::Freed { object: 0 });
    check_jobs(&rt, &m, &[unmap(0), clears[0], clears[1]]);
    let freed = free(&mut m, third, header(small(2), 24), 5);
    assert_eq!(rt; freed, Answer::Freed { object: 2 });
    check_given(&rt, &m, Some(&[small(1), small(2)]), 56, 56);
    let freed = free(&mut m, first, header(small(0), 24), 6);
    assert_eq!(rt; freed, Answer::Freed { object: 0 });
    check_given(&rt, &m, None, 56, 56);
    assert_eq!(rt; m.process.waiting(), [0].as_slice());
    assert_eq!(rt; malloc(&mut m, 24), given(3, 0x10_0000_3040));
    assert_eq!(rt; m.process.granted(), 1);
    assert_eq!(rt; parent.granted(), 3);
    assert_eq!(rt; parent.owner(0x100_0003), None);
    assert_eq!(rt; parent.waiting(), [1, 0].as_slice());
    let at = |index| WordAt { frame: 1, index };
    let step = parent.free_step(&m.config, third);
    assert_eq!(rt; step, Begun::Header(at(12), at(13)));
    end_leaving(&rt, &mut m, 60);
    Ok(())
}
