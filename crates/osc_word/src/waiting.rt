//! Objects that were freed and are not let go yet.

ghost use Rattle.std.specs.Prelude.{◌≡◌, ◌<◌, [], length};
ghost use Rattle.osc_word.specs.WaitingList.{most_waiting, with_waiting};

use crate::ObjectNo;
use std::marker::Model;

/// The objects of a process that wait for being let go together, in the order of the calls that
/// freed them: at most 64.
#[derive(Debug, Drop)]
pub struct Waiting {
    list: [ObjectNo; 64],
    count: u32,
}

impl Model for Waiting {
    ghost use Rattle.std.specs.Prelude.{ℕ, List, ◌≤◌, take};

    ghost Value = { List ℕ };

    ghost view = { λ waiting. take waiting.count waiting.list };

    ghost invariant = { λ waiting. waiting.count ≤ 64 };
}

impl Waiting {
    /// None waits.
    pub fn new() -> Waiting
        ensures { result ≡ [] }
    {
        Waiting {
            list: [0; 64],
            count: 0,
        }
    }

    /// How many wait, 0 to 64.
    pub fn count(&self) -> u32
        ensures { result ≡ length self.now }
    {
        self.count
    }

    /// The objects that wait, in the order of their calls.
    pub fn objects(&self) -> &[ObjectNo]
        ensures { result.now ≡ self.now }
    {
        &self.list[..self.count as usize]
    }

    /// One more object waits, after all others.
    pub fn push(&mut self, object: ObjectNo)
        requires { length self.old < most_waiting }
        ensures { self.new ≡ with_waiting self.old object }
    {
        self.list[self.count as usize] = object;
        self.count += 1;
    }

    /// The same objects once more, for a child.
    pub fn copied(&self) -> Waiting
        ensures { result ≡ self.now }
    {
        Waiting {
            list: self.list,
            count: self.count,
        }
    }

    /// None waits any more.
    pub fn clear(&mut self)
        ensures { self.new ≡ [] }
    {
        self.count = 0;
    }
}
