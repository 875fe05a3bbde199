// The traits of the outside.
ghost use Rattle.std.specs.Prelude.{ℕ, List, Some, codes};
ghost use Rattle.std.specs.declared.option.Option.{Option};
ghost use Rattle.osc_outside.specs.Faults.{HasCause};
ghost use Rattle.osc_outside.specs.Calls.{ReadsAtMost, ReadConsumes, WritesAtMost, TakesSome, WriteAppends};

use std::error::Error;
use std::fmt;

/// The outside refused a call. What it was called for was not done.
#[derive(Clone, Copy, Debug, PartialEq, Eq)]
pub struct Failed;

impl fmt::Display for Failed {
    ghost output = { λ _. Some (codes "the outside failed") };

    fn fmt<W: fmt::Write>(&self, f: &mut fmt::Formatter<W>) -> fmt::Result {
        write!(f, "the outside failed")
    }
}

impl Error for Failed {}

/// Where bytes come from.
pub trait Source {
    // The bytes that reads will give from here on, where the source tells them.
    ghost left: { Self → Option (List ℕ) };

    // How many calls failed so far.
    ghost faults: { Self → ℕ };

    /// Gives some of the next bytes into the front of `into`, and says how many. 0 for a buffer
    /// that is not empty is the end of input. After `Failed` nothing was taken.
    fn read(&mut self, into: &mut [u8]) -> Result<usize, Failed>
        ensures bound { ReadsAtMost result into.new }
        ensures bytes { ReadConsumes (left self.old) (left self.new) result into.new }
        ensures cause { HasCause (faults self.old) (faults self.new) result };
}

/// Where bytes go to.
pub trait Sink {
    // The bytes that were written so far, where the sink tells them.
    ghost holds: { Self → Option (List ℕ) };

    // How many calls failed so far.
    ghost faults: { Self → ℕ };

    /// Appends the front of `piece`, and says how many bytes of it: at least one of a piece that
    /// is not empty. After `Failed` nothing was appended.
    fn write(&mut self, piece: &[u8]) -> Result<usize, Failed>
        ensures bound { WritesAtMost result piece.now }
        ensures some { TakesSome result piece.now }
        ensures bytes { WriteAppends (holds self.old) (holds self.new) result piece.now }
        ensures cause { HasCause (faults self.old) (faults self.new) result };
}
