ghost use Rattle.std.specs.Prelude.{◌≤◌, ◌<◌};
ghost use Rattle.osc_sv39.specs.Walk.{IsLevels};
ghost use Rattle.osc_open.specs.Laying.{AreImagePages, pages_of};

use crate::test_words::{do_jobs, walk};
use crate::{NoRoom, open_tables};
use osc_frames::Frames;
use osc_sv39::{Mapping, PteBits};
use osc_tables::Tables;
use osc_word::{Config, HeapKind, Jobs, Page};
use std::alloc::Global;
use std::process::Abort;
use std::test::Fail;

/// A page with its frame and the flags of its leaf.
type Laid = (Page, u32, u8);

/// What was opened, with the words of its machine.
#[derive(Drop)]
struct Machine {
    answer: Result<(), NoRoom>,
    tables: Tables,
    frames: Frames,
    jobs: Jobs,
    words: Vec<u64>,
}

/// Opens the tables over these pages in a machine of so many frames, and does the jobs.
fn open_on(
    rt: &impl Abort,
    alloc: Global,
    frames: u32,
    levels: u8,
    pages: &[(Page, PteBits)],
) -> Result<Machine, Fail>
    requires frames { frames ≤ 4096 }
    requires levels { IsLevels levels }
    requires pages { AreImagePages 16 (pages_of pages.now) }
{
    let config = Config {
        heap: HeapKind::Oscar,
        harts: 1,
        processes: 1,
        frames,
        shadows: 8,
        journal: 1,
        levels,
        batch: 1,
    };
    let mut tables = Tables::new(alloc, frames, frames + 8, levels)?;
    let mut free = Frames::new(alloc, frames)?;
    let mut jobs = Jobs::new(alloc, 8 * 4096 + 64)?;
    let mut words = vec![in alloc; 0; frames as usize * 512]?;
    let answer = open_tables(pages, &config, &mut tables, &mut free, &mut jobs);
    do_jobs(rt, &jobs, &mut words);
    Ok(Machine {
        answer,
        tables,
        frames: free,
        jobs,
        words,
    })
}

/// The tables keep what is laid, and a walk over the words finds it.
fn check_page(rt: &impl Abort, m: &Machine, levels: u8, page: Page, wanted: Option<Mapping>)
    requires levels { IsLevels levels }
    requires page { page < 4194304 }
{
    assert_eq!(rt; m.tables.at(page), wanted, "page {page:x}");
    assert_eq!(rt;
        walk(&m.words, page * 4096, levels),
        wanted,
        "walk {page:x}"
    );
}

/// The pages of the stack, and no other ones beside them, have the frames from this one on.
fn check_stack(rt: &impl Abort, m: &Machine, levels: u8, first: u32)
    requires levels { IsLevels levels }
    requires first { first ≤ 4096 }
{
    check_page(rt, m, levels, 0x10_00ef, None);
    for k in 0..16 {
        let mapping = Mapping {
            frame: first + k,
            bits: PteBits(0xd7),
        };
        check_page(rt, m, levels, 0x10_00f0 + u64::from(k), Some(mapping));
    }
    check_page(rt, m, levels, 0x10_0100, None);
}

/// The pages of the image have these frames and flags.
fn check_image(rt: &impl Abort, m: &Machine, levels: u8, laid: &[Laid])
    requires { IsLevels levels }
{
    for (page, frame, flags) in laid {
        assert!(rt; *page < 0x40_0000);
        let mapping = Mapping {
            frame: *frame,
            bits: PteBits(*flags),
        };
        check_page(rt, m, levels, *page, Some(mapping));
    }
}

/// These pages need so many frames: with one less nothing is changed, and with as many none is left.
/// The pages have these frames, and the pages of the stack those from one on.
fn opens(
    rt: &impl Abort,
    alloc: Global,
    levels: u8,
    pages: &[(Page, PteBits)],
    needed: u32,
    laid: &[Laid],
    stack: u32,
) -> Result<(), Fail>
    requires levels { IsLevels levels }
    requires pages { AreImagePages 16 (pages_of pages.now) }
    requires needed { (0 < needed) × (needed ≤ 4096) }
    requires stack { stack ≤ 4096 }
{
    let m = open_on(rt, alloc, needed - 1, levels, pages)?;
    let no = NoRoom {
        needed: u64::from(needed),
        frames: needed - 1,
    };
    assert_eq!(rt; m.answer, Err(no));
    assert_eq!(rt; m.frames.free_count(), needed - 1);
    assert_eq!(rt; m.tables.table_at(0), None);
    assert_eq!(rt; m.jobs.get(0), None);
    let m = open_on(rt, alloc, needed, levels, pages)?;
    assert_eq!(rt; m.answer, Ok(()));
    assert_eq!(rt; m.frames.free_count(), 0);
    check_image(rt, &m, levels, laid);
    check_stack(rt, &m, levels, stack);
    Ok(())
}

/// R.
const READ: PteBits = PteBits(2);

#[test]
fn one_page(rt: HostRuntime) -> Result<(), Fail> {
    let pages = [(0x10, READ)];
    opens(&rt, rt.alloc(), 3, &pages, 22, &[(0x10, 3, 0xd3)], 6)?;
    opens(&rt, rt.alloc(), 4, &pages, 23, &[(0x10, 4, 0xd3)], 7)
}

#[test]
fn no_page(rt: HostRuntime) -> Result<(), Fail> {
    opens(&rt, rt.alloc(), 3, &[], 19, &[], 3)?;
    opens(&rt, rt.alloc(), 4, &[], 20, &[], 4)
}

/// The second page lies in the next leaf table.
#[test]
fn two_leaf_tables(rt: HostRuntime) -> Result<(), Fail> {
    let pages = [(511, PteBits(6)), (512, PteBits(10))];
    let laid = [(511, 3, 0xd7), (512, 5, 0xdb)];
    opens(&rt, rt.alloc(), 3, &pages, 24, &laid, 8)?;
    let laid = [(511, 4, 0xd7), (512, 6, 0xdb)];
    opens(&rt, rt.alloc(), 4, &pages, 25, &laid, 9)
}

/// The second page lies in the next table above the leaf tables.
#[test]
fn two_directories(rt: HostRuntime) -> Result<(), Fail> {
    let pages = [(0x3_ffff, READ), (0x4_0000, PteBits(8))];
    let laid = [(0x3_ffff, 3, 0xd3), (0x4_0000, 6, 0xd9)];
    opens(&rt, rt.alloc(), 3, &pages, 25, &laid, 9)?;
    let laid = [(0x3_ffff, 4, 0xd3), (0x4_0000, 7, 0xd9)];
    opens(&rt, rt.alloc(), 4, &pages, 26, &laid, 10)
}
