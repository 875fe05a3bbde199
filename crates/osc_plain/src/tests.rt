ghost use Rattle.std.specs.Prelude.{◌≡◌, ◌≤◌, [], IfOk};
ghost use Rattle.osc_word.specs.declared.settings.HeapKind.TheVariants.{Plain};
ghost use Rattle.osc_sv39.specs.Walk.{IsLevels};
ghost use Rattle.osc_shadow.specs.Fits.{IsSettled};
ghost use Rattle.osc_plain.specs.Plan.{space_of};

use crate::test_words::{byte_at, do_jobs, store_at, walk, word_at};
use crate::{PlainFreed, PlainMalloced, PlainRealloced, plain_free, plain_malloc, plain_realloc};
use osc_frames::Frames;
use osc_heap::CanonHeap;
use osc_tables::Tables;
use osc_word::Jobs;
use std::alloc::Global;
use std::process::Abort;
use std::test::Fail;

/// One process between two calls, with the words of its machine.
#[derive(Drop)]
struct Machine {
    tables: Tables,
    heap: CanonHeap,
    frames: Frames,
    jobs: Jobs,
    words: Vec<u64>,
}

/// A process that has its topmost table alone, in frame 0.
fn fresh(rt: &impl Abort, alloc: Global, frames: u32, levels: u8) -> Result<Machine, Fail>
    requires frames { frames ≤ 4096 }
    requires levels { IsLevels levels }
    ensures settled { IfOk result (λ m. IsSettled Plain (space_of 8 m.tables m.heap) m.frames) }
    ensures none { IfOk result (λ m. m.jobs.pushed ≡ []) }
    ensures room { IfOk result (λ m. m.jobs.room ≡ 32832) }
{
    let mut free = Frames::new(alloc, frames)?;
    let mut tables = Tables::new(alloc, frames, frames + 8, levels)?;
    let heap = CanonHeap::new(alloc, frames)?;
    let jobs = Jobs::new(alloc, 8 * 4096 + 64)?;
    let words = vec![in alloc; 0; frames as usize * 512]?;
    let root = free.take().expect(rt, "no frame");
    tables.open(root);
    Ok(Machine {
        tables,
        heap,
        frames: free,
        jobs,
        words,
    })
}

/// Mallocs `n` bytes, and does the jobs; where it is refused there are none.
fn malloc(rt: &impl Abort, m: &mut Machine, n: u64) -> PlainMalloced
    requires settled { IsSettled Plain (space_of 8 m.old.tables m.old.heap) m.old.frames }
    requires none { m.old.jobs.pushed ≡ [] }
    requires room { m.old.jobs.room ≡ 32832 }
    ensures settled { IsSettled Plain (space_of 8 m.new.tables m.new.heap) m.new.frames }
    ensures none { m.new.jobs.pushed ≡ [] }
    ensures room { m.new.jobs.room ≡ 32832 }
{
    let free = m.frames.free_count();
    let answer = plain_malloc(&mut m.tables, &mut m.heap, &mut m.frames, &mut m.jobs, n);
    if answer == PlainMalloced::NoFrames {
        assert_eq!(rt; m.jobs.get(0), None);
        assert_eq!(rt; m.frames.free_count(), free);
    }
    do_jobs(rt, &m.jobs, &mut m.words);
    m.jobs.clear();
    answer
}

/// Plans a free by three harts, does its jobs, and answers how many boxes they clear.
fn free(rt: &impl Abort, m: &mut Machine, pointer: u64, answer: PlainFreed) -> u32
    requires settled { IsSettled Plain (space_of 8 m.old.tables m.old.heap) m.old.frames }
    requires none { m.old.jobs.pushed ≡ [] }
    requires room { m.old.jobs.room ≡ 32832 }
{
    let got = plain_free(&mut m.tables, &mut m.heap, &mut m.jobs, pointer, 3);
    assert_eq!(rt; got, answer);
    do_jobs(rt, &m.jobs, &mut m.words)
}

/// Plans a realloc by three harts with this size as it was found, does its jobs, and answers how many
/// boxes they clear.
fn realloc(
    rt: &impl Abort,
    m: &mut Machine,
    pointer: u64,
    n: u64,
    found: u64,
    answer: PlainRealloced,
) -> u32
    requires settled { IsSettled Plain (space_of 8 m.old.tables m.old.heap) m.old.frames }
    requires none { m.old.jobs.pushed ≡ [] }
    requires room { m.old.jobs.room ≡ 32832 }
{
    let free = m.frames.free_count();
    let got = plain_realloc(
        &mut m.tables,
        &mut m.heap,
        &mut m.frames,
        &mut m.jobs,
        pointer,
        n,
        found,
        3,
    );
    assert_eq!(rt; got, answer);
    if !matches!(answer, PlainRealloced::Placed { .. }) {
        assert_eq!(rt; m.jobs.get(0), None);
        assert_eq!(rt; m.frames.free_count(), free);
    }
    do_jobs(rt, &m.jobs, &mut m.words)
}

/// A word that differs from its neighbours in each byte.
fn pattern(word: u64) -> u64 {
    word.wrapping_mul(0x9e37_79b9_7f4a_7c15) | 0x0101_0101_0101_0101
}

/// Fills so many words from an address on.
fn fill(rt: &impl Abort, words: &mut [u64], pointer: u64, count: u64) {
    for word in 0..count {
        let address = pointer.wrapping_add(word.wrapping_mul(8));
        store_at(rt, words, address, 3, pattern(word));
    }
}

/// The first `kept` bytes of `n` at a pointer are those of the pattern, and all after them are 0.
fn check_bytes(rt: &impl Abort, m: &Machine, pointer: u64, kept: u64, n: u64) {
    for k in 0..n {
        let was = pattern(k / 8).to_le_bytes();
        let wanted = if k < kept { was[(k % 8) as usize] } else { 0 };
        let byte = byte_at(rt, &m.words, pointer.wrapping_add(k), 3);
        assert_eq!(rt; byte, wanted, "byte {k} of {n}");
    }
}

/// The walk over the words gives what the tables keep, and only `count` pages from one on are there.
fn check_pages(rt: &impl Abort, m: &Machine, first: u64, count: u64) {
    for page in 0x200_0000..0x200_0100 {
        let kept = m.tables.at(page);
        assert_eq!(rt; walk(&m.words, page * 4096, 3), kept, "page {page:x}");
        let is_there = first <= page && page - first < count;
        assert!(rt; kept.is_some() == is_there);
    }
}

/// The answer to a first malloc in a machine of so many frames.
fn first_malloc(
    rt: &impl Abort,
    alloc: Global,
    frames: u32,
    levels: u8,
    n: u64,
) -> Result<PlainMalloced, Fail>
    requires frames { frames ≤ 4096 }
    requires levels { IsLevels levels }
{
    let mut m = fresh(rt, alloc, frames, levels)?;
    Ok(malloc(rt, &mut m, n))
}

fn given(pointer: u64) -> PlainMalloced {
    PlainMalloced::Given { pointer }
}

#[test]
fn first_malloc_at_exact_borders(rt: HostRuntime) -> Result<(), Fail> {
    let rows = [
        (4, 3, 24, given(0x20_0000_4010)),
        (3, 3, 24, PlainMalloced::NoFrames),
        (5, 4, 24, given(0x20_0000_5010)),
        (4, 4, 24, PlainMalloced::NoFrames),
        (5, 3, 5000, given(0x20_0004_6010)),
        (4, 3, 5000, PlainMalloced::NoFrames),
        (1024, 3, u64::MAX, PlainMalloced::NoFrames),
        (1024, 3, 8_000_000, PlainMalloced::NoFrames),
    ];
    for (frames, levels, n, answer) in rows {
        if frames <= 4096 && levels >= 3 && levels <= 4 {
            let got = first_malloc(&rt, rt.alloc(), frames, levels, n)?;
            assert_eq!(rt; got, answer, "{n} bytes in {frames} frames");
        }
    }
    Ok(())
}

/// In a machine of so many frames the last of three mallocs answers so.
fn last_malloc(
    rt: &impl Abort,
    alloc: Global,
    frames: u32,
    sizes: [u64; 3],
    answer: PlainMalloced,
) -> Result<(), Fail>
    requires { frames ≤ 4096 }
{
    let [first, second, third] = sizes;
    let mut m = fresh(rt, alloc, frames, 3)?;
    malloc(rt, &mut m, first);
    malloc(rt, &mut m, second);
    assert_eq!(rt; malloc(rt, &mut m, third), answer);
    Ok(())
}

/// A block on a page that has its frame needs none, and a page in another leaf table needs one more.
#[test]
fn later_mallocs_at_exact_borders(rt: HostRuntime) -> Result<(), Fail> {
    let full = PlainMalloced::NoFrames;
    last_malloc(&rt, rt.alloc(), 4, [24, 24, 24], given(0x20_0000_4070))?;
    last_malloc(&rt, rt.alloc(), 4, [24, 24, 100], full)?;
    last_malloc(
        &rt,
        rt.alloc(),
        40,
        [24, 135_152, 4080],
        given(0x20_0020_8010),
    )?;
    last_malloc(&rt, rt.alloc(), 40, [24, 139_248, 4080], full)?;
    last_malloc(
        &rt,
        rt.alloc(),
        1024,
        [24, u64::MAX, 24],
        given(0x20_0040_0040),
    )
}

/// The pages of a block are unmapped but where they hold another one.
#[test]
fn frees_what_no_other_block_is_on(rt: HostRuntime) -> Result<(), Fail> {
    let mut m = fresh(&rt, rt.alloc(), 16, 3)?;
    assert_eq!(rt; malloc(&rt, &mut m, 5000), given(0x20_000e_0010));
    check_pages(&rt, &m, 0x200_00e0, 2);
    assert_eq!(rt; free(&rt, &mut m, 0x20_000e_0010, PlainFreed::Freed), 3);
    check_pages(&rt, &m, 0, 0);
    let mut m = fresh(&rt, rt.alloc(), 16, 3)?;
    assert_eq!(rt; malloc(&rt, &mut m, 24), given(0x20_0001_0010));
    assert_eq!(rt; malloc(&rt, &mut m, 24), given(0x20_0001_0040));
    assert_eq!(rt; free(&rt, &mut m, 0x20_0001_0010, PlainFreed::Freed), 0);
    assert_eq!(rt; m.jobs.get(0), None);
    check_pages(&rt, &m, 0x200_0010, 1);
    Ok(())
}

/// A free of what is no user address of a held block answers so, and changes nothing.
fn frees_nothing(rt: &impl Abort, alloc: Global, pointer: u64) -> Result<(), Fail> {
    let mut m = fresh(rt, alloc, 16, 3)?;
    malloc(rt, &mut m, 24);
    free(rt, &mut m, pointer, PlainFreed::NotAnObject);
    assert_eq!(rt; m.jobs.get(0), None);
    Ok(())
}

#[test]
fn no_block_is_not_freed(rt: HostRuntime) -> Result<(), Fail> {
    for pointer in [
        0,
        8,
        0x20_0001_0000,
        0x20_0001_0018,
        0x20_0001_0040,
        u64::MAX,
    ] {
        frees_nothing(&rt, rt.alloc(), pointer)?;
    }
    Ok(())
}

fn placed(pointer: u64) -> PlainRealloced {
    PlainRealloced::Placed { pointer }
}

/// A block of a size at `pointer`, with so many bytes after its header, whose size is found so, is
/// realloced to `n` bytes at `to`: so many bytes follow.
fn moves(
    rt: &impl Abort,
    alloc: Global,
    old: (u64, u64, u64),
    found: u64,
    n: u64,
    to: u64,
    kept: u64,
) -> Result<(), Fail> {
    let (size, after_header, pointer) = old;
    assert!(rt; pointer >= 16 && to >= 16);
    let mut m = fresh(rt, alloc, 16, 3)?;
    assert_eq!(rt; malloc(rt, &mut m, size), given(pointer));
    fill(rt, &mut m.words, pointer, after_header / 8);
    let cleared = realloc(rt, &mut m, pointer, n, found, placed(to));
    assert_eq!(rt; cleared, if pointer == to { 0 } else { 3 });
    check_pages(rt, &m, to / 4096, n.saturating_add(15) / 4096 + 1);
    check_bytes(rt, &m, to, kept, n);
    assert_eq!(rt; word_at(rt, &m.words, to - 16, 3), to);
    assert_eq!(rt; word_at(rt, &m.words, to - 8, 3), n);
    Ok(())
}

/// So many bytes are common: of a block that stays, and to and from other rooms.
fn moves_few(rt: &impl Abort, alloc: Global, k: u64) -> Result<(), Fail> {
    let stays = (16, 16, 0x20_0000_0010);
    moves(rt, alloc, stays, 16, k, 0x20_0000_0010, k)?;
    moves(rt, alloc, (k, 16, 0x20_0000_0010), k, 40, 0x20_0002_0010, k)?;
    moves(
        rt,
        alloc,
        (k, 16, 0x20_0000_0010),
        k,
        5000,
        0x20_000e_0010,
        k,
    )?;
    moves(
        rt,
        alloc,
        (5000, 8176, 0x20_000e_0010),
        5000,
        k,
        0x20_0000_0010,
        k,
    )
}

#[test]
fn few_bytes(rt: HostRuntime) -> Result<(), Fail> {
    for k in 0..17 {
        moves_few(&rt, rt.alloc(), k)?;
    }
    Ok(())
}

#[test]
fn each_room(rt: HostRuntime) -> Result<(), Fail> {
    let small = (24, 32, 0x20_0001_0010);
    let pages = (9000, 12272, 0x20_000f_0010);
    let rows = [
        (small, 24, 30, 0x20_0001_0010, 24),
        (small, 3, 30, 0x20_0001_0010, 3),
        (small, 24, 17, 0x20_0001_0010, 17),
        (small, 24, 100, 0x20_0004_0010, 24),
        (small, u64::MAX, 100, 0x20_0004_0010, 32),
        (small, 0, 5000, 0x20_000e_0010, 0),
        (pages, 9000, 12272, 0x20_000f_0010, 9000),
        (pages, 9000, 5000, 0x20_000e_0010, 5000),
        (pages, 9000, 2033, 0x20_000d_0010, 2033),
        (pages, u64::MAX, 15000, 0x20_0010_0010, 12272),
    ];
    for (old, found, n, to, kept) in rows {
        moves(&rt, rt.alloc(), old, found, n, to, kept)?;
    }
    Ok(())
}

/// In a machine of so many frames a block of a size is realloced to `n` bytes by this pointer.
fn borders(
    rt: &impl Abort,
    alloc: Global,
    frames: u32,
    old: u64,
    pointer: u64,
    n: u64,
    answer: PlainRealloced,
) -> Result<(), Fail>
    requires { frames ≤ 4096 }
{
    let mut m = fresh(rt, alloc, frames, 3)?;
    malloc(rt, &mut m, old);
    realloc(rt, &mut m, pointer, n, old, answer);
    Ok(())
}

#[test]
fn refuses_at_exact_borders(rt: HostRuntime) -> Result<(), Fail> {
    let full = PlainRealloced::NoFrames;
    let rows = [
        (4, 24, 0x20_0000_4010, 30, placed(0x20_0000_4010)),
        (4, 24, 0x20_0000_4010, 100, full),
        (5, 24, 0x20_0000_5010, 100, placed(0x20_0001_4010)),
        (5, 24, 0x20_0000_5010, 5000, full),
        (6, 24, 0x20_0000_6010, 5000, placed(0x20_0005_4010)),
        (7, 5000, 0x20_0006_2010, 9000, full),
        (8, 5000, 0x20_0007_0010, 9000, placed(0x20_0007_8010)),
        (8, 24, 0x20_0000_8010, u64::MAX, full),
        (4, 24, 0x20_0000_4020, 5000, PlainRealloced::NotAnObject),
        (4, 24, 0, 30, PlainRealloced::NotAnObject),
    ];
    for (frames, old, pointer, n, answer) in rows {
        if frames <= 4096 {
            borders(&rt, rt.alloc(), frames, old, pointer, n, answer)?;
        }
    }
    Ok(())
}

/// A block that moves from a page with another one leaves it mapped, and no box is cleared.
#[test]
fn shared_page_stays(rt: HostRuntime) -> Result<(), Fail> {
    let mut m = fresh(&rt, rt.alloc(), 16, 3)?;
    malloc(&rt, &mut m, 24);
    malloc(&rt, &mut m, 24);
    let to = placed(0x20_0004_0010);
    assert_eq!(rt; realloc(&rt, &mut m, 0x20_0001_0010, 100, 24, to), 0);
    assert!(rt; walk(&m.words, 0x20_0001_0000, 3).is_some());
    assert!(rt; m.tables.at(0x200_0010).is_some());
    Ok(())
}
