//! The laws of the journal. Each function does nothing: what it says is proved of the definitions.

ghost use Rattle.osc_ledger.specs.Replays.{StepsKeepReplay, RunsFitReplay, RunsAgreeWithReplay};
ghost use Rattle.osc_ledger.specs.Wanting.{PlansAnswerByRule, RunsAnswerByRule};
ghost use Rattle.osc_ledger.specs.Tables.{HeapPlansKeepTables, ForksKeepTables, ReturnsKeepTables};
ghost use Rattle.osc_ledger.specs.Needs.{ShadowNeedIsTold, RegionNeedIsTold};
ghost use Rattle.osc_ledger.specs.Limits.{StepsKeepShadows, RunsFitShadows};
ghost use Rattle.osc_ledger.specs.Given.{PlansGiveTold};

/// At every moment of a run the journal tells what the kernel keeps of each process: its objects, those that
/// wait and its held blocks, as they are once the call under way has given back what it left; how many harts
/// run a process that goes on; and how many threads were spawned. Each step of the kernel keeps that. While
/// no hart holds the kernel, the journal tells what it keeps.
pub fn replay_fits()
    ensures steps { StepsKeepReplay }
    ensures runs { RunsFitReplay }
    ensures home { RunsAgreeWithReplay }
{}

/// The plan of each call answers by the rule of refusals, where the frames that the journal tells are those
/// of the kernel; a spawn, and each call that is never refused for want of frames, always. So is each entry
/// of a run in which they are so wherever a call may commit.
pub fn plans_answer_by_rule()
    ensures plans { PlansAnswerByRule }
    ensures runs { RunsAnswerByRule }
{}

/// A malloc gives the address that the mark and the least slot of the journal's ledger say.
pub fn plans_give_told()
    ensures { PlansGiveTold }
{}

/// On the heap with shadows the plan of a malloc, a free or a realloc, refused or not, leaves its process
/// exactly the tables that the journal tells: of the pages that it ever mapped, less the leaf tables that
/// were given up. So has the child of a fork, and what a call gives back changes none of these.
pub fn tables_are_told()
    ensures heap { HeapPlansKeepTables }
    ensures forks { ForksKeepTables }
    ensures returns { ReturnsKeepTables }
{}

/// Where a process has the tables that are told, fresh shadow pages take as many tables as the journal
/// tells, and so do the pages of a new region.
pub fn needs_are_told()
    ensures shadows { ShadowNeedIsTold }
    ensures regions { RegionNeedIsTold }
{}

/// In every run each process may be granted as many shadow pages as the machine says.
pub fn shadows_fit()
    ensures steps { StepsKeepShadows }
    ensures runs { RunsFitShadows }
{}
