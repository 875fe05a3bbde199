//! The laws of runs. Each function does nothing: what it says is proved of the definitions.

ghost use Rattle.osc_safe.specs.Holding.{StepsHold, RunsHold};
ghost use Rattle.osc_safe.specs.Holders.{OneHolds};
ghost use Rattle.osc_safe.specs.Standing.{StepsStand, RunsStand};
ghost use Rattle.osc_safe.specs.KernelSteps.{KernelsStep};
ghost use Rattle.osc_safe.specs.Telling.{RunsTell};
ghost use Rattle.osc_safe.specs.Fresh.{RunsGrantOnce};
ghost use Rattle.osc_safe.specs.Naming.{RunsReport};
ghost use Rattle.osc_safe.specs.Unwritten.{RunsRefuse};
ghost use Rattle.osc_safe.specs.Undone.{RunsUndo};
ghost use Rattle.osc_safe.specs.Accesses.{SafeByAccesses};
ghost use Rattle.osc_safe.specs.DeadUnmapped.{RunsUnmap};

/// In every run each box is at home or in exactly one hand, a gate is taken by one hart exactly from its
/// taking to its opening, and the kernel is in one place; a hart in a call holds the boxes that its place
/// there says.
pub fn one_holder()
    ensures steps { StepsHold }
    ensures runs { RunsHold }
{}

/// A box that is not at home is in exactly one hand, and one at home in none; a gate that is taken is one
/// hart's; and each box that a hart takes or gives is there.
pub fn one_has_it()
    ensures { OneHolds }
{}

/// In every run the kernel fits, at home and in each hand, and the place of the hart that has it tells how
/// far its call is.
pub fn kernel_fits()
    ensures steps { StepsStand }
    ensures runs { RunsStand }
{}

/// Each step leaves the kernel, or does one of its steps, at its time, and shows what that shows.
pub fn kernel_goes()
    ensures { KernelsStep }
{}

/// In every run each page that was shown as granted is one of an object that the kernel keeps, and each
/// page that was shown as waiting or dead is one of an object that died by the call that was shown; what is
/// dead waits no more.
pub fn traces_tell()
    ensures { RunsTell }
{}

/// In every run no shadow page is granted twice to a process: the labels before a grant grant none of its
/// pages.
pub fn pages_granted_once()
    ensures { RunsGrantOnce }
{}

/// In every run a report of an access to a page that is dead or waits names the object whose page it was,
/// how far from its address, and the call by which it died.
pub fn reports_name_objects()
    ensures { RunsReport }
{}

/// In every run a write whose buffer is not readable appends nothing to the output, in the step that
/// commits it and until its hart has given the kernel.
pub fn refused_writes_write_nothing()
    ensures { RunsRefuse }
{}

/// In every run an access that is shown as not done changes nothing of its instruction: the hart stores
/// nothing in it, and keeps its registers and its pc.
pub fn undone_accesses_change_nothing()
    ensures { RunsUndo }
{}

/// A run is safe where no access to a dead page is done, and none to a page that waits but in its object's
/// block: everything else that makes a run safe holds of every run.
pub fn safe_by_accesses()
    ensures { SafeByAccesses }
{}

/// In every run the kernel keeps no mapping of a page that is dead or waits, and a dead page is none of an
/// object that waits.
pub fn dead_pages_are_unmapped()
    ensures { RunsUnmap }
{}
