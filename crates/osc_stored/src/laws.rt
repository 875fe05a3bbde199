//! The laws of stored words. Each function does nothing: what it says is proved of the definitions.

ghost use Rattle.osc_stored.specs.Beside.{StepsKeepBeside, RunsFitBeside};
ghost use Rattle.osc_stored.specs.Stored.{PagesAreData, StoresAreData, QuietCopies, StoresKeep};

/// In every run a call on the heap works for the process that asked, and one that begins a thread has at most
/// to tell its hart.
pub fn beside_fits()
    ensures steps { StepsKeepBeside }
    ensures runs { RunsFitBeside }
{}

/// The frame of a page that a hart may rely on is no table of any process that has not ended; and a hart in an
/// instruction stores into such a frame.
pub fn pages_are_data()
    ensures pages { PagesAreData }
    ensures stores { StoresAreData }
{}

/// While a hart is in an instruction no pending job copies into a table.
pub fn quiet_copies()
    ensures { QuietCopies }
{}

/// Each step of the machine keeps the agreement of its own words with the kept tables once the pending work is
/// done, and what they show meanwhile.
pub fn stores_keep()
    ensures { StoresKeep }
{}
