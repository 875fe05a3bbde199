//! The laws of what tables show. Each function does nothing: what it says is proved of the definitions.

ghost use Rattle.osc_showing.specs.ShowLaws.{RulesTurn, TurnsShow, JobsShow};
ghost use Rattle.osc_showing.specs.PlanTurns.{PlansTurn};
ghost use Rattle.osc_showing.specs.Leading.{ShownLeads};

/// The changes of a call, one after another from a rest on, turn the old tables into the kept ones: its jobs
/// write what is kept or clear it, they make each new table before they link it, and each old entry that
/// goes is cleared before any cache is.
pub fn rules_turn()
    ensures { RulesTurn }
{}

/// Words that agree with the old tables show what the turn allows: what is kept, nothing, or what is about
/// to go.
pub fn turns_show()
    ensures { TurnsShow }
{}

/// And so do the words after each job, while it is done, and after each store in a frame that is no table.
pub fn jobs_show()
    ensures { JobsShow }
{}

/// Each malloc, free and realloc turns the tables of its process, refused or not; where blocks are to be
/// given back, each hart's cache is to be cleared before.
pub fn plans_turn()
    ensures { PlansTurn }
{}

/// What is shown of a table leads to what is kept, or to a page or a leaf table that was kept at the plan and
/// is about to go, while each cache that the call clears is still to be cleared.
pub fn shown_leads()
    ensures { ShownLeads }
{}
