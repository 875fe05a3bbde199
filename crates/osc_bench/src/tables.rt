//! Pages of one process that are mapped and unmapped: 65536 pages in ascending order are mapped, and
//! then all are unmapped.

ghost use Rattle.std.specs.Prelude.{◌≡◌, ◌<◌, ◌^◌, length, IfOk, IfSome, IsTrue};
ghost use Rattle.osc_paging.specs.KeptTables.{closed};
ghost use Rattle.osc_tables.specs.Calls.{HasTaken, IsOpen};

use osc_frames::Frames;
use osc_sv39::{Mapping, PteBits, PteEntry, leaf, read_pte};
use osc_tables::Tables;
use osc_word::Jobs;
use std::alloc::{AllocError, Global};

/// The frames of the machine.
const FRAMES: u32 = 4096;

/// How many pages are mapped at a time.
const PAGES: u64 = 65536;

/// The most jobs of one change.
const MOST_JOBS: u32 = 7;

/// The number of levels of page tables.
const LEVELS: u8 = 3;

/// Which pages are unmapped first.
#[derive(Clone, Copy)]
pub enum Order {
    Latest,
    Oldest,
}

/// How many pages were mapped and how many unmapped, of `count` each.
pub fn paired(alloc: Global, count: u64, order: Order) -> Result<u64, AllocError> {
    let mut jobs = Jobs::new(alloc, MOST_JOBS)?;
    let Some((mut tables, mut frames)) = machine(alloc)? else {
        return Ok(0);
    };
    let mut sum: u64 = 0;
    'rounds: for _ in 0..count / PAGES {
        let mapped = map_all(&mut tables, &mut frames, &mut jobs);
        let unmapped = unmap_all(&mut tables, &frames, &mut jobs, order);
        sum = sum.wrapping_add(mapped).wrapping_add(unmapped);
    }
    Ok(sum)
}

/// Open tables without a page, and the frames of their machine.
fn machine(alloc: Global) -> Result<Option<(Tables, Frames)>, AllocError>
    ensures { IfOk result (λ made. IfSome made (λ m. IsOpen m.0 × HasTaken m.0 m.1 × (m.0.top ≡ 2))) }
{
    let mut tables = Tables::new(alloc, FRAMES, PAGES as u32, LEVELS)?;
    let mut frames = frames(alloc)?;
    if open(&mut tables, &mut frames) {
        Ok(Some((tables, frames)))
    } else {
        Ok(None)
    }
}

/// All frames of the machine, free.
fn frames(alloc: Global) -> Result<Frames, AllocError>
    ensures { IfOk result (λ frames. length frames ≡ 4096) }
{
    Frames::new(alloc, FRAMES)
}

/// Opens closed tables on the least free frame, where there is one.
fn open(tables: &mut Tables, frames: &mut Frames) -> bool
    requires closed { tables.old ≡ closed 3 4096 65536 }
    requires count { length frames.old ≡ 4096 }
    ensures { IsTrue result → IsOpen tables.new × HasTaken tables.new frames.new × (tables.new.top ≡ 2) }
{
    if let Some(root) = frames.take() {
        tables.open(root);
        return true;
    }
    false
}

/// Maps each page, and says how many were mapped.
fn map_all(tables: &mut Tables, frames: &mut Frames, jobs: &mut Jobs) -> u64
    requires levels { tables.old.top ≡ 2 }
    requires opened { IsOpen tables.old }
    requires taken { HasTaken tables.old frames.old }
    requires room { jobs.old.room ≡ 7 }
    ensures levels { tables.new.top ≡ 2 }
    ensures opened { IsOpen tables.new }
    ensures taken { HasTaken tables.new frames.new }
    ensures room { jobs.new.room ≡ 7 }
{
    let mut sum = 0;
    for page in 0..PAGES {
        if map(tables, page, frames, jobs) {
            sum += 1;
        }
    }
    sum
}

/// Maps a page to frame 0 for reads and writes, where there is room for it.
fn map(tables: &mut Tables, page: u64, frames: &mut Frames, jobs: &mut Jobs) -> bool
    requires page { page < 2 ^ 26 }
    requires levels { tables.old.top ≡ 2 }
    requires opened { IsOpen tables.old }
    requires taken { HasTaken tables.old frames.old }
    requires room { jobs.old.room ≡ 7 }
    ensures levels { tables.new.top ≡ 2 }
    ensures opened { IsOpen tables.new }
    ensures taken { HasTaken tables.new frames.new }
    ensures room { jobs.new.room ≡ 7 }
{
    let mapping = Mapping {
        frame: 0,
        bits: PteBits(0xd7),
    };
    if read_pte(leaf(mapping.frame, mapping.bits)) != PteEntry::Leaf(mapping.frame, mapping.bits) {
        return false;
    }
    if tables.at(page).is_some() || tables.left() == 0 {
        return false;
    }
    let need = tables.need(page, 1);
    if need > 0 && need > u64::from(frames.free_count()) {
        return false;
    }
    jobs.clear();
    tables.map(page, mapping, frames, jobs);
    true
}

/// Unmaps each page, and says how many were unmapped.
fn unmap_all(tables: &mut Tables, frames: &Frames, jobs: &mut Jobs, order: Order) -> u64
    requires levels { tables.old.top ≡ 2 }
    requires opened { IsOpen tables.old }
    requires taken { HasTaken tables.old frames.now }
    requires room { jobs.old.room ≡ 7 }
    ensures levels { tables.new.top ≡ 2 }
    ensures opened { IsOpen tables.new }
    ensures taken { HasTaken tables.new frames.now }
    ensures room { jobs.new.room ≡ 7 }
{
    let mut sum = 0;
    for number in 0..PAGES {
        let page = match order {
            Order::Latest => PAGES - 1 - number,
            Order::Oldest => number,
        };
        if unmap(tables, page, frames, jobs) {
            sum += 1;
        }
    }
    sum
}

/// Unmaps a page, where it is mapped.
fn unmap(tables: &mut Tables, page: u64, frames: &Frames, jobs: &mut Jobs) -> bool
    requires levels { tables.old.top ≡ 2 }
    requires opened { IsOpen tables.old }
    requires taken { HasTaken tables.old frames.now }
    requires room { jobs.old.room ≡ 7 }
    ensures levels { tables.new.top ≡ 2 }
    ensures opened { IsOpen tables.new }
    ensures taken { HasTaken tables.new frames.now }
    ensures room { jobs.new.room ≡ 7 }
{
    if tables.at(page).is_none() {
        return false;
    }
    jobs.clear();
    tables.unmap(page, jobs);
    true
}
