ghost use Rattle.std.specs.Prelude.{◌≡◌, ◌<◌, length};
ghost use Rattle.osc_sv39.specs.Walk.{IsLevels};
ghost use Rattle.osc_paging.specs.TableChanges.{opened};
ghost use Rattle.osc_tables.specs.Calls.{HasTaken, IsClosed, IsOpen};

use crate::{TablePlace, Tables};
use osc_frames::Frames;
use osc_sv39::{Access, Mapping, PteBits, PteEntry, allows, leaf, read_pte, split, table};
use osc_word::{Job, Jobs, WordAt};
use std::process::Abort;
use std::test::Fail;

const READ_WRITE: PteBits = PteBits(0xd7);

const READ_EXECUTE: PteBits = PteBits(0xdb);

/// Opens closed tables on the least free frame.
fn open_on(rt: &impl Abort, tables: &mut Tables, frames: &mut Frames) -> u32
    requires closed { IsClosed tables.old }
    requires frames { tables.old.count ≡ 64 }
    requires count { length frames.old ≡ 64 }
    ensures exact { tables.new ≡ opened result tables.old }
    ensures frame { result < 64 }
    ensures opened { IsOpen tables.new }
    ensures taken { HasTaken tables.new frames.new }
{
    let root = frames.take().expect(rt, "no frame");
    tables.open(root);
    root
}

/// The need of pages, after looking whether it may be asked.
fn need_on(rt: &impl Abort, tables: &Tables, first: u64, count: u64) -> u64 {
    assert!(rt; first < 0x1_0000_0000);
    assert!(rt; count < 0x1000);
    for k in 0..count {
        assert!(rt; tables.reaches(first + k));
    }
    tables.need(first, count)
}

/// Maps a page, after looking whether that may be done.
fn map_on(
    rt: &impl Abort,
    tables: &mut Tables,
    page: u64,
    mapping: Mapping,
    frames: &mut Frames,
    jobs: &mut Jobs,
)
    requires opened { IsOpen tables.old }
    requires taken { HasTaken tables.old frames.old }
    ensures opened { IsOpen tables.new }
    ensures taken { HasTaken tables.new frames.new }
{
    assert!(rt; tables.reaches(page));
    assert!(rt;
        read_pte(leaf(mapping.frame, mapping.bits)) == PteEntry::Leaf(mapping.frame, mapping.bits)
    );
    assert!(rt; tables.at(page).is_none());
    assert!(rt; tables.left() > 0);
    assert!(rt; tables.need(page, 1) <= u64::from(frames.free_count()));
    assert!(rt; jobs.spare() >= 7);
    tables.map(page, mapping, frames, jobs);
}

/// Unmaps a page that is mapped.
fn unmap_on(rt: &impl Abort, tables: &mut Tables, page: u64, frames: &Frames, jobs: &mut Jobs)
    requires { HasTaken tables.old frames.now }
    ensures opened { IsOpen tables.old → IsOpen tables.new }
    ensures taken { HasTaken tables.new frames.now }
{
    assert!(rt; tables.at(page).is_some());
    assert!(rt; jobs.spare() >= 1);
    tables.unmap(page, jobs);
}

/// Gives up a leaf table that has no entry.
fn reclaim_on(rt: &impl Abort, tables: &mut Tables, leaf: u64, frames: &Frames, jobs: &mut Jobs)
    requires taken { HasTaken tables.old frames.now }
    ensures taken { HasTaken tables.new frames.now }
{
    assert!(rt; leaf < 0x1000_0000);
    assert!(rt; tables.reaches(leaf * 512));
    assert!(rt; tables.is_linked(leaf));
    for i in 0..512 {
        assert!(rt; tables.at(leaf * 512 + i).is_none());
    }
    assert!(rt; jobs.spare() >= 1);
    tables.reclaim(leaf, jobs);
}

/// Does the jobs on the words, and clears them.
fn do_jobs(rt: &impl Abort, jobs: &mut Jobs, words: &mut [u64]) {
    for i in 0..64 {
        match jobs.get(i) {
            Some(Job::PutWord { at, value }) => {
                let place = at.frame as usize * 512 + at.index as usize;
                assert!(rt; place < words.len());
                words[place] = value;
            }
            Some(Job::ZeroWords { at, count }) => {
                for k in 0..count as usize {
                    let place = at.frame as usize * 512 + at.index as usize + k;
                    assert!(rt; place < words.len());
                    words[place] = 0;
                }
            }
            _ => {}
        }
    }
    jobs.clear();
}

/// What an entry of a table says.
fn entry(words: &[u64], table: u32, index: u16) -> Option<PteEntry> {
    let word = words.get(table as usize * 512 + index as usize)?;
    Some(read_pte(*word))
}

/// The table that an entry links.
fn next_table(words: &[u64], table: u32, index: u16) -> Option<u32> {
    match entry(words, table, index)? {
        PteEntry::Table(frame) => Some(frame),
        _ => None,
    }
}

/// The mapping that a walk over the words finds.
fn walk(words: &[u64], root: u32, address: u64, levels: u8) -> Option<Mapping>
    requires { IsLevels levels }
{
    let [first, second, third, fourth] = split(address, levels)?;
    let mut table = root;
    if levels == 4 {
        table = next_table(words, table, first)?;
    }
    table = next_table(words, table, second)?;
    table = next_table(words, table, third)?;
    match entry(words, table, fourth)? {
        PteEntry::Leaf(frame, bits) => Some(Mapping { frame, bits }),
        _ => None,
    }
}

/// Pages to be mapped, and the tables that are walked.
#[derive(Clone, Copy)]
struct Walks {
    pages: [u64; 8],
    levels: u8,
    root: u32,
}

const THREE_LEVELS: [u64; 8] = [
    0x10,
    0x11,
    0x1ff,
    0x200,
    0x100_0000,
    0x200_0000,
    0x3ff_ffff,
    0xf_ffff_ffff_ffff,
];

const FOUR_LEVELS: [u64; 8] = [
    0x10,
    0x11,
    0x12,
    0x400_0000,
    0x800_0000,
    0x7_ffff_ffff,
    0xf_fff8_0000_0000,
    0xf_ffff_ffff_ffff,
];

/// The walk finds what the tables keep, at pages that are mapped and at others.
fn agree(rt: &impl Abort, tables: &Tables, words: &[u64], walks: Walks)
    requires { IsLevels walks.levels }
{
    for page in walks.pages {
        let found = walk(words, walks.root, page << 12 | 0x123, walks.levels);
        assert_eq!(rt; found, tables.at(page));
    }
    for address in [
        0,
        0x8000_0000,
        0x40_0000_0000,
        0x8000_0000_0000,
        0x8000_0000_0000_0000,
    ] {
        let found = walk(words, walks.root, address, walks.levels);
        assert_eq!(rt; found, tables.at(address >> 12));
    }
}

#[test]
fn first_mapping(rt: HostRuntime) -> Result<(), Fail> {
    let mut frames = Frames::new(rt.alloc(), 64)?;
    let mut jobs = Jobs::new(rt.alloc(), 64)?;
    let mut tables = Tables::new(rt.alloc(), 64, 128, 3)?;
    let root = open_on(&rt, &mut tables, &mut frames);
    assert_eq!(rt; root, 0);
    assert_eq!(rt; tables.root(), 0);
    assert_eq!(rt; need_on(&rt, &tables, 0x10, 0x200), 3);
    map_on(
        &rt,
        &mut tables,
        0x10,
        Mapping {
            frame: 9,
            bits: READ_WRITE,
        },
        &mut frames,
        &mut jobs,
    );
    let put = |frame: u32, index: u16, value: u64| Some(Job::PutWord {
        at: WordAt { frame, index },
        value,
    });
    let zero = |frame: u32| Some(Job::ZeroWords {
        at: WordAt { frame, index: 0 },
        count: 512,
    });
    assert_eq!(rt; jobs.get(0), zero(1));
    assert_eq!(rt; jobs.get(1), put(0, 0, 0x401));
    assert_eq!(rt; jobs.get(2), zero(2));
    assert_eq!(rt; jobs.get(3), put(1, 0, 0x801));
    assert_eq!(rt; jobs.get(4), put(2, 0x10, 0x24d7));
    assert_eq!(rt; jobs.get(5), None);
    assert_eq!(rt; frames.free_count(), 61);
    assert_eq!(rt; tables.left(), 127);
    assert_eq!(rt; need_on(&rt, &tables, 0x10, 0x1f0), 0);
    assert_eq!(rt; need_on(&rt, &tables, 0x10, 0x1f1), 1);
    assert_eq!(rt; tables.table_at(0), Some(TablePlace { level: 2, first: 0 }));
    assert_eq!(rt; tables.table_at(1), Some(TablePlace { level: 1, first: 0 }));
    assert_eq!(rt; tables.table_at(2), Some(TablePlace { level: 0, first: 0 }));
    assert_eq!(rt; tables.table_at(3), None);
    Ok(())
}

/// Every word of every table is the one that the tables keep.
fn entries_agree(rt: &impl Abort, tables: &Tables, words: &[u64]) {
    for frame in 0..64 {
        if tables.table_at(frame).is_some() {
            for index in 0..512 {
                let word = words.get(frame as usize * 512 + index as usize).copied();
                assert_eq!(rt; word, Some(tables.entry(frame, index)));
            }
        }
    }
}

/// Maps all pages, one after another.
fn map_each(
    rt: &impl Abort,
    tables: &mut Tables,
    frames: &mut Frames,
    jobs: &mut Jobs,
    words: &mut [u64],
    walks: Walks,
)
    requires levels { IsLevels walks.levels }
    requires opened { IsOpen tables.old }
    requires taken { HasTaken tables.old frames.old }
    ensures opened { IsOpen tables.new }
    ensures taken { HasTaken tables.new frames.new }
{
    let mut frame = 40;
    for page in walks.pages {
        let bits = if page % 2 == 0 {
            READ_WRITE
        } else {
            READ_EXECUTE
        };
        map_on(rt, tables, page, Mapping { frame, bits }, frames, jobs);
        do_jobs(rt, jobs, words);
        agree(rt, tables, words, walks);
        frame += 1;
    }
    entries_agree(rt, tables, words);
}

/// Unmaps all pages, one after another.
fn unmap_each(
    rt: &impl Abort,
    tables: &mut Tables,
    frames: &Frames,
    jobs: &mut Jobs,
    words: &mut [u64],
    walks: Walks,
)
    requires levels { IsLevels walks.levels }
    requires taken { HasTaken tables.old frames.now }
    ensures { HasTaken tables.new frames.now }
{
    for page in walks.pages {
        unmap_on(rt, tables, page, frames, jobs);
        do_jobs(rt, jobs, words);
        agree(rt, tables, words, walks);
    }
    entries_agree(rt, tables, words);
}

/// Gives up two leaf tables, whose frames stand aside and are then given back.
fn reclaim_each(
    rt: &impl Abort,
    tables: &mut Tables,
    frames: &mut Frames,
    jobs: &mut Jobs,
    words: &mut [u64],
    walks: Walks,
)
    requires levels { IsLevels walks.levels }
    requires taken { HasTaken tables.old frames.old }
{
    for leaf in [0, 0x8000] {
        reclaim_on(rt, tables, leaf, frames, jobs);
        do_jobs(rt, jobs, words);
        agree(rt, tables, words, walks);
        entries_agree(rt, tables, words);
    }
    assert_eq!(rt; tables.table_at(2), Some(TablePlace { level: 0, first: 0 }));
    assert_eq!(rt; need_on(rt, tables, 0x10, 1), 1);
    assert_eq!(rt; frames.free_count(), 52);
    tables.give_leaves(frames);
    assert_eq!(rt; tables.table_at(2), None);
    assert_eq!(rt; frames.free_count(), 54);
}

/// The next mapped pages, once all are mapped.
fn next_pages(rt: &impl Abort, tables: &Tables) {
    for (from, next) in [
        (0, Some(0x10)),
        (0x12, Some(0x1ff)),
        (0x3ff_ffff, Some(0x3ff_ffff)),
        (0x400_0000, Some(0xf_ffff_ffff_ffff)),
        (0x10_0000_0000_0000, None),
    ] {
        assert_eq!(rt; tables.next_page(from), next);
    }
}

#[test]
fn words_agree(rt: HostRuntime) -> Result<(), Fail> {
    let mut words = vec![in rt.alloc(); 0u64; 64 * 512]?;
    let mut frames = Frames::new(rt.alloc(), 64)?;
    let mut jobs = Jobs::new(rt.alloc(), 64)?;
    let mut tables = Tables::new(rt.alloc(), 64, 128, 3)?;
    let root = open_on(&rt, &mut tables, &mut frames);
    let walks = Walks {
        pages: THREE_LEVELS,
        levels: 3,
        root,
    };
    map_each(&rt, &mut tables, &mut frames, &mut jobs, &mut words, walks);
    assert_eq!(rt; frames.free_count(), 52);
    assert_eq!(rt;
        tables.table_at(11),
        Some(TablePlace {
            level: 0,
            first: 0xf_ffff_ffff_fe00
        })
    );
    next_pages(&rt, &tables);
    unmap_each(&rt, &mut tables, &frames, &mut jobs, &mut words, walks);
    assert_eq!(rt; tables.next_page(0), None);
    assert_eq!(rt; tables.left(), 128);
    reclaim_each(&rt, &mut tables, &mut frames, &mut jobs, &mut words, walks);
    Ok(())
}

/// Maps, unmaps, and gives up a leaf table, with four levels.
#[test]
fn four_levels(rt: HostRuntime) -> Result<(), Fail> {
    let mut words = vec![in rt.alloc(); 0u64; 64 * 512]?;
    let mut frames = Frames::new(rt.alloc(), 64)?;
    let mut jobs = Jobs::new(rt.alloc(), 64)?;
    let mut tables = Tables::new(rt.alloc(), 64, 128, 4)?;
    let root = open_on(&rt, &mut tables, &mut frames);
    let walks = Walks {
        pages: FOUR_LEVELS,
        levels: 4,
        root,
    };
    map_each(&rt, &mut tables, &mut frames, &mut jobs, &mut words, walks);
    assert_eq!(rt; frames.free_count(), 46);
    assert_eq!(rt; tables.table_at(0), Some(TablePlace { level: 3, first: 0 }));
    assert_eq!(rt;
        tables.table_at(15),
        Some(TablePlace {
            level: 2,
            first: 0xf_ffff_f800_0000
        })
    );
    assert_eq!(rt; tables.next_page(0x8_0000_0000), Some(0xf_fff8_0000_0000));
    unmap_each(&rt, &mut tables, &frames, &mut jobs, &mut words, walks);
    reclaim_on(&rt, &mut tables, 0x4_0000, &frames, &mut jobs);
    do_jobs(&rt, &mut jobs, &mut words);
    agree(&rt, &tables, &words, walks);
    entries_agree(&rt, &tables, &words);
    assert_eq!(rt; need_on(&rt, &tables, 0x800_0000, 1), 1);
    tables.give_leaves(&mut frames);
    assert_eq!(rt; frames.free_count(), 47);
    Ok(())
}

#[test]
fn closed_and_copied(rt: HostRuntime) -> Result<(), Fail> {
    let mut frames = Frames::new(rt.alloc(), 64)?;
    let mut tables = Tables::new(rt.alloc(), 64, 128, 3)?;
    let mut child = Tables::new(rt.alloc(), 64, 128, 3)?;
    let root = open_on(&rt, &mut tables, &mut frames);
    tables.copy_to(&mut child, &[7; 64]);
    assert_eq!(rt; child.root(), 7);
    assert_eq!(rt; frames.free_count(), 63);
    tables.close(&mut frames);
    assert_eq!(rt; frames.free_count(), 64);
    assert_eq!(rt; tables.table_at(root), None);
    Ok(())
}

/// Strides over sixteen pages, and how many pages each goes over.
const STRIDES: [(u8, u8); 10] = [
    (1, 16),
    (1, 16),
    (15, 16),
    (15, 16),
    (1, 16),
    (3, 9),
    (5, 16),
    (7, 13),
    (11, 16),
    (1, 16),
];

/// Unmaps a page that is mapped, and maps one that is not, in the tables and in a plain list.
fn toggle(
    rt: &impl Abort,
    tables: &mut Tables,
    page: usize,
    frame: u32,
    frames: &mut Frames,
    jobs: &mut Jobs,
    pages: &mut [Option<Mapping>; 16],
)
    requires page { page < 16 }
    requires opened { IsOpen tables.old }
    requires taken { HasTaken tables.old frames.old }
    ensures opened { IsOpen tables.new }
    ensures taken { HasTaken tables.new frames.new }
{
    jobs.clear();
    if pages[page].is_some() {
        unmap_on(rt, tables, page as u64, frames, jobs);
        pages[page] = None;
    } else {
        let mapping = Mapping {
            frame,
            bits: READ_WRITE,
        };
        map_on(rt, tables, page as u64, mapping, frames, jobs);
        pages[page] = Some(mapping);
    }
}

/// The tables say of each page what the plain list says.
fn same_pages(rt: &impl Abort, tables: &Tables, pages: &[Option<Mapping>; 16]) {
    let mut next = None;
    let mut mapped = 0;
    for passed in 0..16 {
        let page = 15 - passed;
        if pages[page].is_some() {
            next = Some(page as u64);
            mapped += 1;
        }
        assert_eq!(rt; tables.at(page as u64), pages[page]);
        assert_eq!(rt; tables.next_page(page as u64), next);
    }
    assert_eq!(rt; tables.left(), 16 - mapped);
}

/// Goes over the pages in strides, so many times.
fn toggle_in_strides(
    rt: &impl Abort,
    tables: &mut Tables,
    stride: u8,
    count: u8,
    frames: &mut Frames,
    jobs: &mut Jobs,
    pages: &mut [Option<Mapping>; 16],
)
    requires opened { IsOpen tables.old }
    requires taken { HasTaken tables.old frames.old }
    ensures opened { IsOpen tables.new }
    ensures taken { HasTaken tables.new frames.new }
{
    for step in 0..count {
        let page = usize::from(step) * usize::from(stride) % 16;
        let frame = u32::from(stride) * 16 + u32::from(step);
        toggle(rt, tables, page, frame, frames, jobs, pages);
        same_pages(rt, tables, pages);
    }
}

/// Maps and unmaps sixteen pages, as many as there is room for, in many orders: the oldest first and
/// the latest first, and in strides that leave gaps and fill or close them.
#[test]
fn gaps_made_and_closed(rt: HostRuntime) -> Result<(), Fail> {
    let mut frames = Frames::new(rt.alloc(), 64)?;
    let mut jobs = Jobs::new(rt.alloc(), 64)?;
    let mut tables = Tables::new(rt.alloc(), 64, 16, 3)?;
    open_on(&rt, &mut tables, &mut frames);
    let mut pages = [None; 16];
    for (stride, count) in STRIDES {
        toggle_in_strides(
            &rt,
            &mut tables,
            stride,
            count,
            &mut frames,
            &mut jobs,
            &mut pages,
        );
    }
    Ok(())
}
