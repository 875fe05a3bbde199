//! The memory of process 0 at the start: its image and its stack. The topmost table takes the least
//! frame, and then each page, ascending, the frames of the tables that are missing over it and its own.
#![tactic(auto)]

ghost use Rattle.std.specs.Prelude.{◌≡◌, ◌+◌, ◌*◌, ◌<◌, ◌≤◌, [], IfOk, MatchResult};
ghost use Rattle.osc_word.specs.JobList.{spare};
ghost use Rattle.osc_frames.specs.Free.{all_free};
ghost use Rattle.osc_sv39.specs.Walk.{IsLevels};
ghost use Rattle.osc_paging.specs.KeptTables.{closed};
ghost use Rattle.osc_calls.specs.Open.{all_pages, lay_all, rooted};
ghost use Rattle.osc_tables.specs.Calls.{HasTaken, IsOpen, changed};
ghost use Rattle.osc_open.specs.Laying.{AreImagePages, frames_for, pages_of};

mod laying;
mod needs;

use laying::{lay_alike, lay_image};
use needs::needed_frames;
use osc_frames::Frames;
use osc_sv39::PteBits;
use osc_tables::Tables;
use osc_word::address_map::{FIRST_STACK_PAGE, STACK_PAGES};
use osc_word::{Config, Jobs, Page};

/// The page after the stack.
const STACK_END_PAGE: Page = FIRST_STACK_PAGE + STACK_PAGES;

/// R and W.
const READ_WRITE: PteBits = PteBits(6);

/// The pages of the image, those of the stack and all their tables are more than the frames.
#[derive(Clone, Copy, Debug, PartialEq, Eq)]
pub struct NoRoom {
    /// The frames that the start needs.
    pub needed: u64,
    /// The frames of the machine.
    pub frames: u32,
}

/// Lays the pages of an image and the stack, where the frames are enough.
fn lay_out(
    pages: &[(Page, PteBits)],
    config: &Config,
    tables: &mut Tables,
    frames: &mut Frames,
    jobs: &mut Jobs,
)
    requires levels { IsLevels config.now.levels }
    requires few { config.now.frames ≤ 4096 }
    requires pages { AreImagePages 16 (pages_of pages.now) }
    requires enough { frames_for config.now.levels (pages_of pages.now) ≤ config.now.frames }
    requires tables { tables.old ≡ closed config.now.levels config.now.frames (config.now.frames + config.now.shadows) }
    requires free { frames.old ≡ all_free config.now.frames }
    requires jobs { jobs.old.pushed ≡ [] }
    requires spare { 7 * config.now.frames ≤ spare jobs.old }
    ensures laid { changed tables.new frames.new jobs.new.pushed ≡ lay_all (all_pages (pages_of pages.now)) (rooted config.now) }
    ensures opened { IsOpen tables.new }
    ensures taken { HasTaken tables.new frames.new }
    ensures room { jobs.new.room ≡ jobs.old.room }
{
    let root = frames.take().unwrap();
    tables.open(root);
    let count = config.frames;
    lay_image(pages, count, tables, frames, jobs);
    lay_alike(
        FIRST_STACK_PAGE,
        STACK_END_PAGE,
        READ_WRITE,
        count,
        tables,
        frames,
        jobs,
    );
}

/// Opens the tables of process 0 over the pages of its image, by number with R, W and X, and over its
/// stack. The jobs make the words of the tables. Where the frames are not enough, nothing changes.
pub fn open_tables(
    pages: &[(Page, PteBits)],
    config: &Config,
    tables: &mut Tables,
    frames: &mut Frames,
    jobs: &mut Jobs,
) -> Result<(), NoRoom>
    requires levels { IsLevels config.now.levels }
    requires few { config.now.frames ≤ 4096 }
    requires pages { AreImagePages 16 (pages_of pages.now) }
    requires tables { tables.old ≡ closed config.now.levels config.now.frames (config.now.frames + config.now.shadows) }
    requires free { frames.old ≡ all_free config.now.frames }
    requires jobs { jobs.old.pushed ≡ [] }
    requires spare { 7 * config.now.frames ≤ spare jobs.old }
    ensures answer { let needed = frames_for config.now.levels (pages_of pages.now) in
        MatchResult result
        (λ _. (needed ≤ config.now.frames)
        × (changed tables.new frames.new jobs.new.pushed ≡ lay_all (all_pages (pages_of pages.now)) (rooted config.now)))
        (λ no. (no.needed ≡ needed) × (no.frames ≡ config.now.frames) × (config.now.frames < needed)
        × (tables.new ≡ tables.old) × (frames.new ≡ frames.old) × (jobs.new ≡ jobs.old)) }
    ensures opened { IfOk result (λ _. IsOpen tables.new × HasTaken tables.new frames.new) }
    ensures room { jobs.new.room ≡ jobs.old.room }
{
    let needed = needed_frames(pages, config.levels);
    if needed > u64::from(config.frames) {
        return Err(NoRoom {
            needed,
            frames: config.frames,
        });
    }
    lay_out(pages, config, tables, frames, jobs);
    Ok(())
}

#[cfg(test)]
mod test_words;
#[cfg(test)]
mod tests;
