//! The laws of what lasts through the steps of the kernel. Each function does nothing: what it says is proved
//! of the definitions.

ghost use Rattle.osc_lasting.specs.Lasting.{BeginsLast, PlansLast, JobsLast, FinishesLast, StepsLast};

/// A job that is done leaves each page and each table that a hart relies on, but for the hart whose cache the
/// job clears.
pub fn jobs_last()
    ensures { JobsLast }
{}

/// A plan leaves each page and each table that a hart relies on: a page is still mapped, or it goes while the
/// hart's cache is still to be cleared.
pub fn plans_last()
    ensures { PlansLast }
{}

/// A hart that takes the kernel leaves them, whatever it asks.
pub fn begins_last()
    ensures { BeginsLast }
{}

/// A call that returns leaves them: after a flush only what is kept is relied on, and else what goes waits
/// still.
pub fn finishes_last()
    ensures { FinishesLast }
{}

/// So does each step of the kernel.
pub fn kernel_steps_last()
    ensures { StepsLast }
{}
