//! The laws of every run. Each function does nothing: what it says is proved of the definitions.

ghost use Rattle.osc_every_run.specs.EveryRun.{RunsRely, EveryRunIsSafe};

/// In every run on the heap with shadows each cache entry and each walk relies on what is kept, or on what is
/// about to go while the cache is still to be cleared.
pub fn runs_rely()
    ensures { RunsRely }
{}

/// Every run on the heap with shadows is safe: for every image that the frames hold, every configuration in
/// range and every list of picks, an access to a page of a freed object after its free returned faults and
/// changes nothing, its report names the object and the call, and no page of a shadow is granted twice.
pub fn every_run_is_safe()
    ensures { EveryRunIsSafe }
{}
