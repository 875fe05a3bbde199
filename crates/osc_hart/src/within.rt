//! Harts and boxes of one machine. Each function does nothing: what it says is proved of the
//! definitions.

ghost use Rattle.osc_hart.specs.Within.{BoxesFit, NewFits, TellsOn, TakesOn, GivesOn, BeginsSo, IdlesSo};

use osc_guest::{asks_within, hands_move, stays_exactly};

/// A hart whose frames are those of a machine can be told each box that names only frames of that
/// machine, and a new box names none.
pub fn boxes_fit()
    ensures told { BoxesFit }
    ensures empty { NewFits }
{}

/// A hart that begins a thread of a machine with its box at home, or idle, and then is told the answers to
/// what it asks for, holds its box exactly while that is not at home, and hart and box name only
/// frames of the machine.
pub fn stays_driven()
    ensures begins { BeginsSo }
    ensures idles { IdlesSo }
    ensures tells { TellsOn }
    ensures takes { TakesOn }
    ensures gives { GivesOn }
{
    asks_within();
    hands_move();
    stays_exactly();
}
