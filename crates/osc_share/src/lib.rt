//! Shared regions: how many processes hold each of their frames. A frame belongs to all processes
//! that hold it, and is free when nobody holds it any more.
//!
//! Clauses see `Regions` as a list with a number for each frame of the machine.
#![tactic(auto)]

ghost use Rattle.std.specs.Prelude.{◌≡◌, ◌+◌, ◌<◌, ◌≤◌, length, slice_set, All, IfOk, MatchOption, []};
ghost use Rattle.osc_frames.specs.Free.{IsTaken};
ghost use Rattle.osc_space.specs.Share.{no_regions, holders, hold, shared_frames, drop_frame, join, leave};
ghost use Rattle.osc_share.specs.Holding.{AreDifferent, CanJoin, IsHeld, regions_and_free};
ghost use Rattle.osc_share.specs.InRow.{AreUnheld};
ghost use Rattle.osc_share.specs.Walk.{IsFirst, pages_from};

mod sharing;

use osc_frames::Frames;
use osc_paging::Mapped;
use osc_tables::Tables;
use osc_word::Frame;
use osc_word::address_map::{FIRST_SHADOW_PAGE, FIRST_SHARED_PAGE};
pub use sharing::{SharePlan, lacks_frames, plan_share};
use std::alloc::{AllocError, Global};
use std::marker::Model;

/// How many processes hold each frame of the machine as one of a shared region.
#[derive(Drop)]
pub struct Regions {
    counts: Vec<u32>,
}

impl Model for Regions {
    ghost use Rattle.std.specs.Prelude.{ℕ, List};

    ghost Value = { List ℕ };

    ghost view = { λ regions. regions.counts.items };
}

/// The first page of a shared region at or above a page, which lies in their range.
fn first_from(tables: &Tables, from: u64) -> Option<Mapped>
    ensures { MatchOption result (pages_from from tables.now ≡ []) (IsFirst from tables.now) }
{
    let page = tables.next_page(from)?;
    if page >= FIRST_SHADOW_PAGE {
        return None;
    }
    let mapping = tables.at(page).unwrap();
    Some(Mapped {
        number: page,
        mapping,
    })
}

impl Regions {
    /// The regions of a machine with so many frames; nobody holds a frame. It takes all its room
    /// here.
    pub fn new(alloc: Global, frames: u32) -> Result<Regions, AllocError>
        ensures { IfOk result (λ regions. regions ≡ no_regions frames) }
    {
        Ok(Regions {
            counts: vec![in alloc; 0; frames as usize]?,
        })
    }

    /// How many processes hold a frame of the machine.
    pub fn holders(&self, frame: Frame) -> u32
        requires { frame < length self.now }
        ensures { result ≡ holders self.now frame }
    {
        self.counts[frame as usize]
    }

    /// A frame is held once more.
    fn hold(&mut self, frame: Frame)
        requires frame { frame < length self.old }
        requires few { holders self.old frame < 4294967295 }
        ensures { self.new ≡ slice_set self.old frame (holders self.old frame + 1) }
    {
        self.counts[frame as usize] += 1;
    }

    /// Each of these frames, which nobody holds yet, is held.
    fn hold_all(&mut self, taken: &[Frame])
        requires few { length taken.now ≤ 4096 }
        requires unheld { AreUnheld self.old taken.now }
        ensures { self.new ≡ hold taken.now self.old }
    {
        for frame in taken {
            self.hold(*frame);
        }
    }

    /// A child holds the frames of its shared pages once more, when its tables were copied.
    #[tactic(auto, unfolding(osc_space::specs::Share::join))]
    pub fn join(&mut self, child: &Tables)
        requires different { AreDifferent (shared_frames child.now) }
        requires held { All (CanJoin self.old) (shared_frames child.now) }
        ensures { self.new ≡ join child.now self.old }
    {
        let mut from = FIRST_SHARED_PAGE;
        while let Some(next) = first_from(child, from) {
            self.hold(next.mapping.frame);
            from = next.number + 1;
        }
    }

    /// A frame is held once less, and free where nobody holds it then.
    fn let_go(&mut self, frame: Frame, frames: &mut Frames)
        requires held { IsHeld self.old frame }
        requires taken { IsTaken frames.old frame }
        ensures { regions_and_free self.new frames.new
            ≡ drop_frame frame (holders self.old frame) (regions_and_free self.old frames.old) }
    {
        let left = self.counts[frame as usize] - 1;
        self.counts[frame as usize] = left;
        if left == 0 {
            frames.give(frame);
        }
    }

    /// A process that ends holds the frames of its shared pages no more. Those that nobody holds then
    /// are free.
    #[tactic(auto, unfolding(osc_space::specs::Share::leave))]
    pub fn leave(&mut self, tables: &Tables, frames: &mut Frames)
        requires different { AreDifferent (shared_frames tables.now) }
        requires held { All (IsHeld self.old) (shared_frames tables.now) }
        requires taken { All (IsTaken frames.old) (shared_frames tables.now) }
        ensures { regions_and_free self.new frames.new ≡ leave tables.now (regions_and_free self.old frames.old) }
    {
        let mut from = FIRST_SHARED_PAGE;
        while let Some(next) = first_from(tables, from) {
            self.let_go(next.mapping.frame, frames);
            from = next.number + 1;
        }
    }
}

#[cfg(test)]
mod share_tests;
#[cfg(test)]
mod tests;
