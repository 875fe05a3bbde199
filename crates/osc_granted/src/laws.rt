//! The laws of granted pages. Each function does nothing: what it says is proved of the definitions.

ghost use Rattle.osc_granted.specs.Granted.{StartsFitGranted, StepsKeepGranted, RunsFitGranted, RunsTellGranted, EntriesRaiseMarks};

/// At every moment of a run, under both heaps and over every list of picks, the shadow pages that all
/// processes granted themselves, together, are those of the calls that the journal says gave an object, and
/// no process has fewer than it inherited: at the start, after each step of the kernel, and so all along.
pub fn pages_granted_are_told()
    ensures start { StartsFitGranted }
    ensures steps { StepsKeepGranted }
    ensures runs { RunsFitGranted }
    ensures told { RunsTellGranted }
{}

/// An entry's pages are those by which its process's mark grows in what the journal tells, wherever an object
/// that it says was moved is one that the journal told of.
pub fn marks_are_raised()
    ensures { EntriesRaiseMarks }
{}
