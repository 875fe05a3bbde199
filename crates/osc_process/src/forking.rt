//! The calls that concern more than the heap: a fork into the room for a child, a share, a write, and
//! the start of the first process.

ghost use Rattle.std.specs.Prelude.{ℕ, ◌≡◌, ◌-◌, ◌*◌, ◌^◌, ◌<◌, ◌≤◌, ◌++◌, List, [], None, length, IfOk, MatchResult};
ghost use Rattle.osc_word.specs.JobList.{spare};
ghost use Rattle.osc_word.specs.Limits.{first_fault};
ghost use Rattle.osc_word.specs.declared.job_list.Job.{Job};
ghost use Rattle.osc_frames.specs.Free.{all_free};
ghost use Rattle.osc_paging.specs.KeptTables.{mapping_of};
ghost use Rattle.osc_space.specs.Agree.{HasSpare};
ghost use Rattle.osc_space.specs.Fork.{fork_plan, fork_reasons};
ghost use Rattle.osc_space.specs.Share.{share_address, share_plan, share_reasons};
ghost use Rattle.osc_space.specs.Space.{first_reason};
ghost use Rattle.osc_calls.specs.Open.{all_pages, lay_all, rooted};
ghost use Rattle.osc_calls.specs.ProcessPlans.{child_process};
ghost use Rattle.osc_open.specs.Laying.{AreImagePages, frames_for, pages_of};
ghost use Rattle.osc_tables.specs.Calls.{HasTaken, IsOpen, changed};
ghost use Rattle.osc_write.specs.Writing.{writing};
ghost use Rattle.osc_process.specs.Fits.{HasRegions, HasSomeParts};
ghost use Rattle.osc_process.specs.Parts.{SameSizes, room_for, sharing_at, unused, with_tables};

use crate::Process;
use osc_fork::{lacks_frames as lacks_private, plan_fork};
use osc_frames::Frames;
use osc_open::{NoRoom, open_tables};
use osc_share::{Regions, SharePlan, lacks_frames as lacks_shared, plan_share};
use osc_sv39::PteBits;
use osc_word::address_map::FIRST_SHADOW_PAGE;
use osc_word::{Answer, Config, Frame, Jobs, Page, Pid};
use osc_write::plan_write;

impl Process {
    /// Whether a fork is refused for want of frames: NoFrames exactly where the private frames are more
    /// than the free ones. `names` is a work space with a place for each frame.
    pub fn fork_refusal(&self, frames: &Frames, names: &mut [Frame]) -> Option<Answer>
        requires parts { HasSomeParts self.now.space frames.now }
        requires names { length names.old ≡ length frames.now }
        ensures refusal { result ≡ first_reason (fork_reasons self.now.space frames.now) }
        ensures names { length names.new ≡ length names.old }
    {
        let space = &self.space;
        if lacks_private(&space.tables, &space.marks, &space.heap, frames, names) {
            Some(Answer::NoFrames)
        } else {
            None
        }
    }

    /// Why a share of `n` pages is refused: Empty exactly where none is asked for, and else NoFrames
    /// exactly where they and the tables that are missing over them are more than the free frames.
    pub fn share_refusal(&self, n: u64, frames: &Frames) -> Option<Answer>
        requires parts { HasSomeParts self.now.space frames.now }
        ensures { (regions : List ℕ) (jobs : List Job) → result ≡ first_reason (share_reasons n (sharing_at self.now regions frames.now jobs)) }
    {
        if n == 0 {
            return Some(Answer::Empty);
        }
        if lacks_shared(&self.space.tables, frames, n) {
            return Some(Answer::NoFrames);
        }
        None
    }

    /// Plans a fork of this process, which has the number `pid`, into the room for a child: the same
    /// memory over new frames, where the same objects wait. `names` is a work space with a place for each
    /// frame. It is to be asked before whether the fork is refused: a fork that is changes nothing but
    /// the work space.
    pub fn fork_into(
        &self,
        pid: Pid,
        child: &mut Process,
        frames: &mut Frames,
        names: &mut [Frame],
        jobs: &mut Jobs,
    )
        requires parts { HasSomeParts self.now.space frames.old }
        requires granted { first_reason (fork_reasons self.now.space frames.old) ≡ None }
        requires unused { child.old ≡ room_for self.now.space }
        requires names { length names.old ≡ length frames.old }
        requires spare { HasSpare jobs.old (length frames.old) }
        ensures child { child.new ≡ child_process pid (fork_plan self.now.space frames.old).child }
        ensures free { frames.new ≡ (fork_plan self.now.space frames.old).free }
        ensures jobs { jobs.new.pushed ≡ jobs.old.pushed ++ (fork_plan self.now.space frames.old).jobs }
        ensures sizes { SameSizes self.now.space child.new.space }
        ensures room { jobs.new.room ≡ jobs.old.room }
    {
        let _copied = plan_fork(
            &self.space.tables,
            &self.space.marks,
            &self.space.heap,
            &mut child.space.tables,
            &mut child.space.marks,
            &mut child.space.heap,
            frames,
            names,
            jobs,
        );
        child.waiting = self.waiting.copied();
        child.inherited = (self.space.marks.next_page() - FIRST_SHADOW_PAGE) as u32;
        child.parent = Some(pid);
    }

    /// Plans a share of `n` pages: their address. It is to be asked before whether it is refused.
    pub fn share(
        &mut self,
        n: u64,
        regions: &mut Regions,
        frames: &mut Frames,
        jobs: &mut Jobs,
    ) -> u64
        requires parts { HasRegions regions.old self.old.space frames.old }
        requires granted { first_reason (share_reasons n (sharing_at self.old regions.old frames.old jobs.old.pushed)) ≡ None }
        requires spare { HasSpare jobs.old (length frames.old) }
        ensures address { result ≡ share_address (sharing_at self.old regions.old frames.old jobs.old.pushed) }
        ensures plan { sharing_at self.new regions.new frames.new jobs.new.pushed
            ≡ share_plan n (sharing_at self.old regions.old frames.old jobs.old.pushed) }
        ensures rest { self.new ≡ with_tables self.new.space.tables self.old }
        ensures sizes { SameSizes self.old.space self.new.space }
        ensures room { jobs.new.room ≡ jobs.old.room }
    {
        match plan_share(&mut self.space.tables, regions, frames, jobs, n) {
            SharePlan::Given { address } => address,
            _ => unreachable!(),
        }
    }

    /// Plans a write of `len` bytes from `buf` on, when the output has `written` bytes: Number with the
    /// count of the bytes that it writes, or BadBuffer with the first address that is not readable.
    pub fn write(&self, written: u32, jobs: &mut Jobs, buf: u64, len: u64) -> Answer
        requires last { mapping_of self.now.space.tables (2 ^ 52 - 1) ≡ None }
        requires spare { 524289 ≤ spare jobs.old }
        ensures answer { result ≡ (writing self.now.space.tables written buf len jobs.old.pushed).answer }
        ensures pushed { jobs.new.pushed ≡ (writing self.now.space.tables written buf len jobs.old.pushed).jobs }
        ensures room { jobs.new.room ≡ jobs.old.room }
    {
        plan_write(&self.space.tables, written, jobs, buf, len)
    }

    /// Opens the tables of the first process over the pages of its image, by number with R, W and X, and
    /// over its stack. Where the frames are not enough, nothing changes.
    pub fn open(
        &mut self,
        pages: &[(Page, PteBits)],
        config: &Config,
        frames: &mut Frames,
        jobs: &mut Jobs,
    ) -> Result<(), NoRoom>
        requires config { first_fault config.now ≡ None }
        requires pages { AreImagePages 16 (pages_of pages.now) }
        requires unused { self.old ≡ unused config.now.levels config.now.frames config.now.shadows }
        requires free { frames.old ≡ all_free config.now.frames }
        requires jobs { jobs.old.pushed ≡ [] }
        requires spare { 7 * config.now.frames ≤ spare jobs.old }
        ensures answer { let needed = frames_for config.now.levels (pages_of pages.now) in
            MatchResult result
            (λ _. (needed ≤ config.now.frames)
            × (changed self.new.space.tables frames.new jobs.new.pushed ≡ lay_all (all_pages (pages_of pages.now)) (rooted config.now)))
            (λ no. (no.needed ≡ needed) × (no.frames ≡ config.now.frames) × (config.now.frames < needed)
            × (self.new ≡ self.old) × (frames.new ≡ frames.old) × (jobs.new ≡ jobs.old)) }
        ensures rest { self.new ≡ with_tables self.new.space.tables self.old }
        ensures opened { IfOk result (λ _. IsOpen self.new.space.tables × HasTaken self.new.space.tables frames.new) }
        ensures room { jobs.new.room ≡ jobs.old.room }
    {
        open_tables(pages, config, &mut self.space.tables, frames, jobs)
    }
}
