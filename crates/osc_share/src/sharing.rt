//! The plan of a share: fresh pages after the shared ones that a process has, each over a frame of
//! its own.

ghost use Rattle.std.specs.Prelude.{◌≡◌, ◌+◌, ◌*◌, ◌<◌, ◌≤◌, ◌++◌, ℕ, true, false, is_some, length, map, nat_lt, take};
ghost use Rattle.osc_word.specs.AddressMap.{first_shared_page, is_shared};
ghost use Rattle.osc_word.specs.JobList.{spare};
ghost use Rattle.osc_frames.specs.Free.{free_count};
ghost use Rattle.osc_paging.specs.KeptTables.{mapping_at, need};
ghost use Rattle.osc_paging.specs.TableChanges.{map_pages, zero_job};
ghost use Rattle.osc_space.specs.Agree.{HasSpare};
ghost use Rattle.osc_space.specs.Fork.{free_numbers, set_free};
ghost use Rattle.osc_space.specs.LeafFlags.{read_write_at};
ghost use Rattle.osc_space.specs.Space.{Space};
ghost use Rattle.osc_space.specs.Share.{next_shared_page, share_plan, shared_pages};
ghost use Rattle.osc_tables.specs.Calls.{changed, IsOrdered};
ghost use Rattle.osc_share.specs.Fits.{FitsAfter};
ghost use Rattle.osc_share.specs.InRow.{CanMap, CanShare};
ghost use Rattle.osc_share.specs.Plan.{IsSharePlan, PartsAgree, PartsAgreeForSome, sharing};

use crate::Regions;
use osc_frames::Frames;
use osc_sv39::{Mapping, PteBits};
use osc_tables::Tables;
use osc_word::address_map::FIRST_SHARED_PAGE;
use osc_word::{Frame, Job, Jobs, Page, WordAt};

/// The most frames that a machine has.
const MOST_FRAMES: usize = 4096;

/// V, R, W, U, A and D: a page that can be read and written.
const READ_WRITE: PteBits = PteBits(0xd7);

/// What a share answers.
#[derive(Clone, Copy, Debug, PartialEq, Eq)]
pub enum SharePlan {
    /// The pages begin at this address.
    Given { address: u64 },
    /// No page was asked for.
    Empty,
    /// The pages and the tables that are missing over them are more than the free frames.
    NoFrames,
}

/// Whether a page below the shadows is mapped.
fn is_mapped(tables: &Tables, page: Page) -> bool
    requires { page < 16777216 }
    ensures mapped { result ≡ is_some (mapping_at tables.now.pages page) }
    ensures order { IsOrdered tables.now }
{
    tables.next_page(page) == Some(page)
}

/// The page that the next region begins with, found by halves.
fn next_shared_page(tables: &Tables) -> Page
    requires few { length (shared_pages tables.now) ≤ 4096 }
    requires first { (page : ℕ) → is_shared page ≡ true
        → is_some (mapping_at tables.now.pages page) ≡ nat_lt page (next_shared_page tables.now) }
    ensures next { result ≡ next_shared_page tables.now }
    ensures order { IsOrdered tables.now }
{
    if !is_mapped(tables, FIRST_SHARED_PAGE) {
        return FIRST_SHARED_PAGE;
    }
    let mut low = FIRST_SHARED_PAGE + 1;
    let mut high = FIRST_SHARED_PAGE + MOST_FRAMES as u64;
    while low < high {
        let middle = low + (high - low) / 2;
        if is_mapped(tables, middle) {
            low = middle + 1;
        } else {
            high = middle;
        }
    }
    low
}

/// Takes the least free frames, as many as the slice has places, and zeroes them.
fn take_zeroed(taken: &mut [Frame], frames: &mut Frames, jobs: &mut Jobs)
    requires enough { length taken.old ≤ free_count frames.old }
    requires spare { length taken.old ≤ spare jobs.old }
    ensures taken { taken.new ≡ take (length taken.old) (free_numbers frames.old) }
    ensures frames { frames.new ≡ set_free false taken.new frames.old }
    ensures pushed { jobs.new.pushed ≡ jobs.old.pushed ++ map zero_job taken.new }
    ensures room { jobs.new.room ≡ jobs.old.room }
{
    for place in taken.iter_mut() {
        let frame = frames.take().unwrap();
        jobs.push(Job::ZeroWords {
            at: WordAt { frame, index: 0 },
            count: 512,
        });
        *place = frame;
    }
}

/// Maps frames to pages from one on, ascending, for reads and writes.
fn map_all(tables: &mut Tables, first: Page, taken: &[Frame], frames: &mut Frames, jobs: &mut Jobs)
    requires { CanMap first (length taken.now) tables.old frames.old jobs.old }
    ensures next { changed tables.new frames.new jobs.new.pushed
        ≡ map_pages first (map read_write_at taken.now) (changed tables.old frames.old jobs.old.pushed) }
    ensures room { jobs.new.room ≡ jobs.old.room }
{
    let mut page = first;
    for frame in taken {
        let mapping = Mapping {
            frame: *frame,
            bits: READ_WRITE,
        };
        tables.map(page, mapping, frames, jobs);
        page += 1;
    }
}

/// Takes the least free frames, as many as the slice has places, zeroes them, holds them as those of
/// a region, and maps them from a page on.
#[tactic(auto, unfolding(osc_space::specs::Share::share_plan))]
fn share_into(
    taken: &mut [Frame],
    tables: &mut Tables,
    regions: &mut Regions,
    frames: &mut Frames,
    jobs: &mut Jobs,
    first: Page,
)
    requires next { first ≡ next_shared_page tables.old }
    requires can { CanShare first (length taken.old) tables.old regions.old frames.old jobs.old }
    ensures plan { sharing tables.new regions.new frames.new jobs.new.pushed
        ≡ share_plan (length taken.old) (sharing tables.old regions.old frames.old jobs.old.pushed) }
    ensures room { jobs.new.room ≡ jobs.old.room }
{
    take_zeroed(taken, frames, jobs);
    regions.hold_all(taken);
    map_all(tables, first, taken, frames, jobs);
}

/// Shares so many pages from a page on.
fn share_pages(
    tables: &mut Tables,
    regions: &mut Regions,
    frames: &mut Frames,
    jobs: &mut Jobs,
    first: Page,
    n: usize,
)
    requires next { first ≡ next_shared_page tables.old }
    requires can { CanShare first n tables.old regions.old frames.old jobs.old }
    ensures plan { sharing tables.new regions.new frames.new jobs.new.pushed
        ≡ share_plan n (sharing tables.old regions.old frames.old jobs.old.pushed) }
    ensures room { jobs.new.room ≡ jobs.old.room }
{
    let mut space = [0; MOST_FRAMES];
    share_into(&mut space[..n], tables, regions, frames, jobs, first);
}

/// Whether so many pages, and the tables that are missing over them after the shared pages that the
/// process has, are more than the free frames.
pub fn lacks_frames(tables: &Tables, frames: &Frames, n: u64) -> bool
    requires agrees { PartsAgreeForSome tables.now frames.now }
    ensures { result ≡ nat_lt (free_count frames.now) (n + need tables.now (next_shared_page tables.now) n) }
{
    let free = u64::from(frames.free_count());
    if n > free {
        return true;
    }
    let first = next_shared_page(tables);
    tables.need(first, n) > free - n
}

/// Plans a share of so many pages, which follow the shared pages that the process has. Each has the
/// next of the least free frames, zeroed, and can be read and written. It is Empty exactly where no
/// page is asked for, and else NoFrames exactly where the pages and the tables that are missing over
/// them are more than the free frames. A refusal changes nothing. The parts agree again when the call
/// returns, which gives nothing back.
pub fn plan_share(
    tables: &mut Tables,
    regions: &mut Regions,
    frames: &mut Frames,
    jobs: &mut Jobs,
    n: u64,
) -> SharePlan
    requires agrees { PartsAgree tables.old regions.old frames.old }
    requires spare { HasSpare jobs.old (length frames.old) }
    ensures plan { IsSharePlan n (sharing tables.old regions.old frames.old jobs.old.pushed) result
        (sharing tables.new regions.new frames.new jobs.new.pushed) }
    ensures fits { (space : Space) → FitsAfter n space (sharing tables.old regions.old frames.old jobs.old.pushed) result
        (sharing tables.new regions.new frames.new jobs.new.pushed) }
    ensures room { jobs.new.room ≡ jobs.old.room }
{
    if n == 0 {
        return SharePlan::Empty;
    }
    if lacks_frames(tables, frames, n) {
        return SharePlan::NoFrames;
    }
    let first = next_shared_page(tables);
    share_pages(tables, regions, frames, jobs, first, n as usize);
    SharePlan::Given {
        address: first * 4096,
    }
}
