//! The laws of caches in their boxes. Each function does nothing: what it says is proved of the definitions.

ghost use Rattle.osc_boxes.specs.Ending.{BegunGoOn, PlannedGoOn};
ghost use Rattle.osc_boxes.specs.Keeping.{StepsKeepBoxes};

/// A call that takes no boxes ends no process.
pub fn boxless_go_on()
    ensures begun { BegunGoOn }
    ensures planned { PlannedGoOn }
{}

/// Each step of each hart keeps that a cache has only what may be relied on, wherever its box is, and that an
/// order to begin comes with an empty cache.
pub fn steps_keep_boxes()
    ensures { StepsKeepBoxes }
{}
