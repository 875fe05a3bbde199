//! The laws of the tables. Each function does nothing: what it says is proved of the definitions.

ghost use Rattle.osc_tabled.specs.Tabled.{StartsFitTables, StepsKeepTables, RunsFitTables};
ghost use Rattle.osc_tabled.specs.Counts.{TablesAreCounted};
ghost use Rattle.osc_tabled.specs.PlainNeeds.{PlainNeedIsTold};

/// At every moment of a run each process that has not ended has exactly the tables that the journal tells, as
/// it is once the call under way has given back what it left: at the start, after each step of the kernel,
/// and so all along each run, on the heap with shadows and on the plain one.
pub fn tables_fit()
    ensures start { StartsFitTables }
    ensures steps { StepsKeepTables }
    ensures runs { RunsFitTables }
{}

/// Where a process has the tables that are told, it has as many as the journal tells.
pub fn tables_are_counted()
    ensures { TablesAreCounted }
{}

/// Where a process has the tables that are told and was never granted an object, as on the plain heap, any
/// pages in a row take as many tables as the journal tells.
pub fn plain_need_is_told()
    ensures { PlainNeedIsTold }
{}
