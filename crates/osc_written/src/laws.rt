//! The laws of writes. Each function does nothing: what it says is proved of the definitions.

ghost use Rattle.osc_written.specs.Written.{RunsWrite, JobsShowMapped};
ghost use Rattle.osc_written.specs.Graves.{RunsReachNoGrave};

/// In every run each byte that a committed write has still to write is one of its buffer, and all bytes of
/// that are readable.
pub fn writes_are_readable()
    ensures { RunsWrite }
{}

/// Each access that a job shows is to a page that the process of the call has mapped.
pub fn jobs_show_mapped()
    ensures { JobsShowMapped }
{}

/// In every run an access that a job shows is to no page that is dead or waits.
pub fn writes_reach_no_grave()
    ensures { RunsReachNoGrave }
{}
