//! The free frames of a machine. `take` gives the least free one, `give` makes one free again.
//!
//! Clauses see `Frames` as a list with a truth value for each frame: true where it is free. No call's cost grows with the number of frames.
#![tactic(auto)]

ghost use Rattle.std.specs.Prelude.{◌≡◌, ◌<◌, ◌≤◌, ◌↔◌, length, slice_get, IfOk, IsNone};
ghost use Rattle.std.specs.Prelude.{Bool, Some};
ghost use Rattle.osc_frames.specs.Free.{all_free, least_free, free_count, IsTaken, with_frame, without_frame};

mod steps;
mod words;

use std::alloc::{AllocError, Global};
use std::marker::{Brand, Model};
use std::sync::ledger::{Blank, Ledger};
pub use steps::Steps;
pub use words::{BitRow, BitWords, least};

/// The frames of a machine, each free or taken.
#[derive(Drop)]
pub struct Frames {
    row: BitRow,
    free: u32,
}

impl Model for Frames {
    ghost use Rattle.std.specs.Prelude.{◌≡◌, ◌≤◌, List, Bool, length};
    ghost use Rattle.osc_frames.specs.Free.{free_count};

    ghost Value = { List Bool };

    ghost view = { λ frames. frames.row };

    ghost invariant = { λ frames. (length frames.row ≤ 4096) × (frames.free ≡ free_count frames.row) };
}

impl Frames {
    /// A machine of `count` frames, all free.
    pub fn new(alloc: Global, count: u32) -> Result<Frames, AllocError>
        requires { count ≤ 4096 }
        ensures { IfOk result (λ frames. frames ≡ all_free count) }
    {
        let row = BitRow::new(alloc, count, true)?;
        Ok(Frames { row, free: count })
    }

    /// Takes the least free frame; None exactly where none is free.
    pub fn take(&mut self) -> Option<u32>
        ensures least { result ≡ least_free self.old }
        ensures none { IsNone result ↔ (free_count self.old ≡ 0) }
        ensures after { self.new ≡ without_frame self.old result }
        ensures count { length self.new ≡ length self.old }
    {
        let frame = least_of::<Brand>(&self.row, Blank::new(1))?;
        self.row.drop_out(frame);
        self.free -= 1;
        Some(frame)
    }

    /// Makes a taken frame free.
    pub fn give(&mut self, frame: u32)
        requires { IsTaken self.old frame }
        ensures { self.new ≡ with_frame self.old frame }
    {
        self.row.put(frame);
        self.free += 1;
    }

    /// How many frames are free.
    pub fn free_count(&self) -> u32
        ensures { result ≡ free_count self.now }
    {
        self.free
    }

    /// Whether a frame of the machine is free.
    pub fn is_free(&self, frame: u32) -> bool
        requires { frame < length self.now }
        ensures { slice_get self.now frame ≡ Some result }
    {
        self.row.contains(frame)
    }
}

// The least number of a row, for a caller that counts no steps.
fn least_of<L: Ledger>(row: &BitRow, blank: Blank) -> Option<u32>
    requires name { blank.name ≡ L.name }
    requires parts { blank.parts ≡ L.parts }
    requires some { 0 < blank.parts }
    ensures least { result ≡ least_free row.now }
    ensures none { IsNone result ↔ (free_count row.now ≡ 0) }
{
    let mut steps = Steps::new(blank);
    least::<BitRow, L>(row, &mut steps)
}

#[cfg(test)]
mod tests;
