//! The law of refusals. The function does nothing: what it says is proved of the definitions.

ghost use Rattle.osc_refusals.specs.Refused.{RunsTellFrames, RunsRefuseByRule};

/// In every run, under both heaps and over every list of picks: wherever no call is committed that has not
/// returned, the frames that the journal tells as unused are as many as the free ones, and each process that
/// has not ended has the frames that it tells; so each malloc, realloc, fork, spawn and share is refused
/// exactly where the rule of refusals says so by the journal before it, with the first answer in its order.
pub fn memory_is_refused_by_rule()
    ensures frames { RunsTellFrames }
    ensures runs { RunsRefuseByRule }
{}
