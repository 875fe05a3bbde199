//! What each step of a call finds. Each function does nothing: what it says is proved of the definitions.

ghost use Rattle.osc_ready.specs.Found.{AskersFit, CallersFit, ReturnersFit, EndersFit};
ghost use Rattle.osc_ready.specs.Opening.{OpeningsFit};
ghost use Rattle.osc_ready.specs.Taken.{TakenFit};
ghost use Rattle.osc_ready.specs.Whole.{LastUnmapped};
ghost use Rattle.osc_ready.specs.Writes.{PlansWrite};

/// The process of a hart that runs a thread fits when the hart takes the kernel.
pub fn askers_fit()
    ensures { AskersFit }
{}

/// The process of a call that waits fits, its thread lives, and the journal has room.
pub fn callers_fit()
    ensures { CallersFit }
{}

/// The process of a call that returns gives back what it holds.
pub fn returners_fit()
    ensures { ReturnersFit }
{}

/// A process that ends fits until the call of its end returns, and holds its regions.
pub fn enders_fit()
    ensures { EndersFit }
{}

/// The jobs of a write's plan write out as many bytes as it answers, and those of no other plan any.
pub fn plans_write()
    ensures { PlansWrite }
{}

/// The last page of the address space is never mapped.
pub fn last_unmapped()
    ensures { LastUnmapped }
{}

/// The kernel with which a machine opens fits once its first jobs are done, where the frames are enough.
pub fn openings_fit()
    ensures { OpeningsFit }
{}

/// A kernel that a hart has taken fits until its call commits.
pub fn taken_fit()
    ensures { TakenFit }
{}
