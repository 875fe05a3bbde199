//! Laws of the machine. Each function does nothing: what it says is proved of the definitions.

ghost use Rattle.osc_core.specs.Ends.{EndsFit, StatusesStay, StepsFree};
ghost use Rattle.osc_core.specs.Parts.{StartsHome};
ghost use Rattle.osc_core.specs.Sound.{SoundReady, StepsKeep, RunsKeep, StartsSound};

use osc_guest::places_ask;
use osc_hart::boxes_fit;

/// A machine and its harts that are sound are ready for a step of each hart, and sound after it
/// and after each run.
pub fn steps_keep()
    ensures ready { SoundReady }
    ensures steps { StepsKeep }
    ensures runs { RunsKeep }
{
    places_ask();
    boxes_fit();
}

/// A machine that begins with the image of a file is sound, for every file that is taken and needs no more
/// frames than the machine has.
pub fn starts_sound()
    ensures { StartsSound }
{
    boxes_fit();
}

/// A machine at its start has its kernel, its boxes and its gates at home.
pub fn starts_home()
    ensures { StartsHome }
{}

/// Only the return of a call ends a process: a step that does anything else to the kernel changes no status.
pub fn statuses_stay()
    ensures { StatusesStay }
{}

/// Along each run, process 0 has no end, an exit with a status below 64, or a fault; and a machine that is
/// over tells its end.
pub fn ends_fit()
    ensures { EndsFit }
{}

/// A step that gives the kernel lets go the objects that its call did, and no other step lets any go.
pub fn steps_free()
    ensures { StepsFree }
{}
