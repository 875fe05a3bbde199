//! The laws of records. Each function does nothing: what it says is proved of the definitions.

ghost use Rattle.osc_records.specs.Recorded.{StepsRecord, RunsRecord, InstructionsRecorded};

/// In every run each hart's record agrees with the hart and its box: a hart that runs a thread is recorded
/// with it, in the kernel's own setting; one that is to begin has the order, and one that is stopped halts.
pub fn harts_are_recorded()
    ensures steps { StepsRecord }
    ensures runs { RunsRecord }
{}

/// A hart that holds its box for an instruction of a thread is recorded with it.
pub fn instructions_are_recorded()
    ensures { InstructionsRecorded }
{}
