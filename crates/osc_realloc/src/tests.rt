ghost use Rattle.std.specs.Prelude.{◌≡◌, ◌≤◌, [], IfOk};
ghost use Rattle.osc_word.specs.declared.settings.HeapKind.TheVariants.{Oscar};
ghost use Rattle.osc_sv39.specs.Walk.{IsLevels};
ghost use Rattle.osc_shadow.specs.Fits.{IsSettled};
ghost use Rattle.osc_shadow.specs.Parts.{space_of};

use crate::test_words::{byte_at, do_jobs, store_at, walk, word_at};
use crate::{Realloced, plan_realloc};
use osc_frames::Frames;
use osc_heap::CanonHeap;
use osc_mark::Marks;
use osc_shadow::{Malloced, Space, header_at, plan_malloc};
use osc_space::HeaderLook;
use osc_tables::Tables;
use osc_word::{Jobs, Waiting};
use std::alloc::Global;
use std::process::Abort;
use std::test::Fail;

/// The user address of the first object.
const POINTER: u64 = 0x10_0000_0010;

/// One process between two calls, with the words of its machine.
#[derive(Drop)]
struct Machine {
    space: Space,
    frames: Frames,
    jobs: Jobs,
    words: Vec<u64>,
}

/// A process that has its topmost table alone, in frame 0.
fn fresh(
    rt: &impl Abort,
    alloc: Global,
    frames: u32,
    shadows: u32,
    levels: u8,
) -> Result<Machine, Fail>
    requires frames { frames ≤ 4096 }
    requires shadows { shadows ≤ 16777216 }
    requires levels { IsLevels levels }
    ensures settled { IfOk result (λ m. IsSettled Oscar (space_of m.space.tables m.space.marks m.space.heap []) m.frames) }
    ensures none { IfOk result (λ m. m.jobs.pushed ≡ []) }
    ensures room { IfOk result (λ m. m.jobs.room ≡ 32832) }
{
    let mut free = Frames::new(alloc, frames)?;
    let mut tables = Tables::new(alloc, frames, frames + shadows, levels)?;
    let marks = Marks::new(alloc, shadows)?;
    let heap = CanonHeap::new(alloc, frames)?;
    let jobs = Jobs::new(alloc, 8 * 4096 + 64)?;
    let words = vec![in alloc; 0; frames as usize * 512]?;
    let root = free.take().expect(rt, "no frame");
    tables.open(root);
    Ok(Machine {
        space: Space {
            tables,
            marks,
            heap,
        },
        frames: free,
        jobs,
        words,
    })
}

/// Mallocs `n` bytes, and does the jobs.
fn malloc(rt: &impl Abort, m: &mut Machine, n: u64)
    requires settled { IsSettled Oscar (space_of m.old.space.tables m.old.space.marks m.old.space.heap []) m.old.frames }
    requires none { m.old.jobs.pushed ≡ [] }
    requires room { m.old.jobs.room ≡ 32832 }
    ensures settled { IsSettled Oscar (space_of m.new.space.tables m.new.space.marks m.new.space.heap []) m.new.frames }
    ensures none { m.new.jobs.pushed ≡ [] }
    ensures room { m.new.jobs.room ≡ 32832 }
{
    let answer = plan_malloc(&mut m.space, &mut m.frames, &mut m.jobs, n);
    do_jobs(rt, &m.jobs, &mut m.words);
    m.jobs.clear();
    let given = Malloced::Given {
        object: 0,
        pointer: POINTER,
    };
    assert_eq!(rt; answer, given);
}

/// Plans a realloc of the first object, which has its header where it is looked for. The jobs stay.
fn realloc(rt: &impl Abort, m: &mut Machine, n: u64, levels: u8) -> Realloced
    requires settled { IsSettled Oscar (space_of m.old.space.tables m.old.space.marks m.old.space.heap []) m.old.frames }
    requires none { m.old.jobs.pushed ≡ [] }
    requires room { m.old.jobs.room ≡ 32832 }
    requires levels { IsLevels levels }
{
    let first = word_at(rt, &m.words, POINTER - 16, levels);
    let second = word_at(rt, &m.words, POINTER - 8, levels);
    let HeaderLook::Words(_, _) = header_at(&m.space.tables, &m.space.marks, POINTER) else {
        panic!(rt; "no object");
    };
    let waiting = Waiting::new();
    plan_realloc(
        &mut m.space.tables,
        &mut m.space.marks,
        &waiting,
        &mut m.space.heap,
        &mut m.frames,
        &mut m.jobs,
        POINTER,
        n,
        [first, second],
        7,
        3,
    )
}

/// A word that differs from its neighbours in each byte.
fn pattern(word: u64) -> u64 {
    word.wrapping_mul(0x9e37_79b9_7f4a_7c15) | 0x0101_0101_0101_0101
}

/// Fills so many words from the object's address on.
fn fill(rt: &impl Abort, words: &mut [u64], count: u64, levels: u8)
    requires { IsLevels levels }
{
    for word in 0..count {
        let address = POINTER.wrapping_add(word.wrapping_mul(8));
        store_at(rt, words, address, levels, pattern(word));
    }
}

/// The first `kept` bytes of `n` at a pointer are those of the pattern, and all after them are 0.
fn check_bytes(rt: &impl Abort, m: &Machine, pointer: u64, kept: u64, n: u64, levels: u8)
    requires { IsLevels levels }
{
    for k in 0..n {
        let was = pattern(k / 8).to_le_bytes();
        let wanted = if k < kept { was[(k % 8) as usize] } else { 0 };
        let byte = byte_at(rt, &m.words, pointer.wrapping_add(k), levels);
        assert_eq!(rt; byte, wanted, "byte {k} of {n}");
    }
}

/// The walk over the words gives what the tables keep, and only `count` pages from one on are there.
fn check_pages(rt: &impl Abort, m: &Machine, first: u64, count: u64, levels: u8)
    requires { IsLevels levels }
{
    for page in 0x100_0000..0x100_0010 {
        let kept = m.space.tables.at(page);
        assert_eq!(rt; walk(&m.words, page * 4096, levels), kept, "page {page:x}");
        let is_there = first <= page && page - first < count;
        assert!(rt; kept.is_some() == is_there);
    }
}

/// An object of a size, whose block has so many bytes after its header, is realloced to `n` bytes: the
/// bytes follow, and so many frames are taken.
fn moves(
    rt: &impl Abort,
    alloc: Global,
    levels: u8,
    old: u64,
    after_header: u64,
    n: u64,
    takes: u32,
) -> Result<(), Fail>
    requires { IsLevels levels }
{
    let mut m = fresh(rt, alloc, 16, 16, levels)?;
    malloc(rt, &mut m, old);
    fill(rt, &mut m.words, after_header / 8, levels);
    let free = m.frames.free_count();
    let answer = realloc(rt, &mut m, n, levels);
    let first = 0x100_0000 + after_header / 4096 + 1;
    assert!(rt; first < 0x100_0010);
    let pointer = first * 4096 + 16;
    let moved = Realloced::Moved {
        old: 0,
        object: 1,
        pointer,
    };
    assert_eq!(rt; answer, moved);
    assert!(rt; free >= takes);
    assert_eq!(rt; m.frames.free_count(), free - takes);
    let cleared = do_jobs(rt, &m.jobs, &mut m.words);
    assert_eq!(rt; cleared, 3);
    check_pages(rt, &m, first, n.saturating_add(15) / 4096 + 1, levels);
    check_bytes(rt, &m, pointer, old.min(n), n, levels);
    assert_eq!(rt; word_at(rt, &m.words, pointer - 8, levels), n);
    Ok(())
}

/// Sizes of which so many bytes are common: of a block that stays, and to and from other rooms.
fn moves_few(rt: &impl Abort, alloc: Global, levels: u8, k: u64) -> Result<(), Fail>
    requires levels { IsLevels levels }
    requires few { k ≤ 17 }
{
    let takes = if k == 17 { 1 } else { 0 };
    let room = if k == 17 { 32 } else { 16 };
    moves(rt, alloc, levels, 16, 16, k, takes)?;
    moves(rt, alloc, levels, k, room, 40, 1)?;
    moves(rt, alloc, levels, k, room, 5000, 2)?;
    moves(rt, alloc, levels, 5000, 8176, k, 1)
}

#[test]
fn few_bytes(rt: HostRuntime) -> Result<(), Fail> {
    for k in 0..18 {
        moves_few(&rt, rt.alloc(), 3, k)?;
    }
    Ok(())
}

#[test]
fn each_room(rt: HostRuntime) -> Result<(), Fail> {
    let rows = [
        (24, 32, 30, 0),
        (30, 32, 24, 0),
        (2032, 2032, 2033, 1),
        (2033, 4080, 2032, 1),
        (4080, 4080, 4081, 2),
        (4081, 8176, 4080, 1),
        (5000, 8176, 6001, 0),
        (6001, 8176, 5000, 0),
        (5000, 8176, 9000, 3),
        (9000, 12272, 5000, 2),
    ];
    for (old, after_header, n, takes) in rows {
        moves(&rt, rt.alloc(), 3, old, after_header, n, takes)?;
        moves(&rt, rt.alloc(), 4, old, after_header, n, takes)?;
    }
    Ok(())
}

/// In a machine of so many frames and shadow pages an object of a size is realloced to `n` bytes; a
/// refusal changes nothing.
fn borders(
    rt: &impl Abort,
    alloc: Global,
    frames: u32,
    shadows: u32,
    levels: u8,
    old: u64,
    n: u64,
    answer: Realloced,
) -> Result<(), Fail>
    requires frames { frames ≤ 4096 }
    requires shadows { shadows ≤ 16777216 }
    requires levels { IsLevels levels }
{
    let mut m = fresh(rt, alloc, frames, shadows, levels)?;
    malloc(rt, &mut m, old);
    let free = m.frames.free_count();
    let left = m.space.marks.left();
    assert_eq!(rt;
        realloc(rt, &mut m, n, levels),
        answer,
        "{old} to {n} of {frames}"
    );
    if !matches!(answer, Realloced::Moved { .. }) {
        assert_eq!(rt; m.jobs.get(0), None);
        assert_eq!(rt; m.frames.free_count(), free);
        assert_eq!(rt; m.space.marks.left(), left);
    }
    Ok(())
}

/// The answer with a new object at this address.
fn moved(pointer: u64) -> Realloced {
    Realloced::Moved {
        old: 0,
        object: 1,
        pointer,
    }
}

#[test]
fn refuses_at_exact_borders(rt: HostRuntime) -> Result<(), Fail> {
    let next = moved(0x10_0000_1010);
    let rows = [
        (4, 2, 3, 24, 30, next),
        (4, 1, 3, 24, 30, Realloced::NoShadow),
        (5, 2, 4, 24, 30, next),
        (5, 2, 3, 24, 100, next),
        (4, 2, 3, 24, 100, Realloced::NoFrames),
        (6, 3, 3, 24, 5000, next),
        (5, 3, 3, 24, 5000, Realloced::NoFrames),
        (6, 2, 3, 24, 5000, Realloced::NoShadow),
        (5, 2, 3, 24, 5000, Realloced::NoShadow),
        (7, 3, 4, 24, 5000, next),
        (6, 3, 4, 24, 5000, Realloced::NoFrames),
        (8, 5, 3, 5000, 9000, moved(0x10_0000_2010)),
        (7, 5, 3, 5000, 9000, Realloced::NoFrames),
        (517, 513, 3, 2_097_136, 24, moved(0x10_0020_0010)),
        (516, 513, 3, 2_097_136, 24, Realloced::NoFrames),
        (517, 512, 3, 2_097_136, 24, Realloced::NoShadow),
        (64, 65536, 3, 24, u64::MAX, Realloced::NoShadow),
        (1024, 65536, 3, 24, 8_000_000, Realloced::NoFrames),
    ];
    for (frames, shadows, levels, old, n, answer) in rows {
        if frames <= 4096 && shadows <= 16777216 && levels >= 3 && levels <= 4 {
            borders(&rt, rt.alloc(), frames, shadows, levels, old, n, answer)?;
        }
    }
    Ok(())
}

/// The words of the header are found so, and the object is realloced to 5000 bytes, for which there is
/// too little of all.
fn damaged(
    rt: &impl Abort,
    alloc: Global,
    first: u64,
    second: u64,
    kept: u64,
    found: u64,
) -> Result<(), Fail> {
    let mut m = fresh(rt, alloc, 4, 1, 3)?;
    malloc(rt, &mut m, 24);
    store_at(rt, &mut m.words, POINTER - 16, 3, first);
    store_at(rt, &mut m.words, POINTER - 8, 3, second);
    let answer = Realloced::HeaderDamaged {
        object: 0,
        kept,
        found,
    };
    assert_eq!(rt; realloc(rt, &mut m, 5000, 3), answer);
    assert_eq!(rt; m.jobs.get(0), None);
    Ok(())
}

#[test]
fn damage_comes_first(rt: HostRuntime) -> Result<(), Fail> {
    let canon = 0x20_0000_4010;
    damaged(&rt, rt.alloc(), canon, 9, 24, 9)?;
    damaged(&rt, rt.alloc(), 8, 24, canon, 8)?;
    damaged(&rt, rt.alloc(), 8, 9, canon, 8)
}
