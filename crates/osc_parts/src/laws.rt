//! The laws of the parts of a process. Each function does nothing: what it says is proved of the
//! definitions.

ghost use Rattle.osc_parts.specs.OpenLaws.{OpeningFits};
ghost use Rattle.osc_parts.specs.MallocLaws.{MallocsFit, MallocsTakeNeed, MallocsGiveNothing};
ghost use Rattle.osc_parts.specs.FreeLaws.{FreesFit};
ghost use Rattle.osc_parts.specs.ReallocLaws.{ReallocsFit, ReallocsTakeNeed};
ghost use Rattle.osc_parts.specs.PlainLaws.{PlainMallocsFit, PlainFreesFit, PlainReallocsFit};
ghost use Rattle.osc_parts.specs.OthersFit.{PlansKeepOthers};
ghost use Rattle.osc_parts.specs.Returning.{PlansReturn, JobsLeave, ReturnsSettle, ReturnsKeepOthers};
ghost use Rattle.osc_parts.specs.ShareLaws.{SharesFit};
ghost use Rattle.osc_parts.specs.EndLaws.{EndsFit};
ghost use Rattle.osc_parts.specs.ForkFits.{ForksFit};

/// A memory that has its topmost table alone fits.
pub fn opening_fits()
    ensures { OpeningFits }
{}

/// A malloc leaves a memory whose parts fit and whose words agree with its tables once its jobs are
/// done, also where it is refused. Where it is not, it takes exactly the frames that its block and its
/// tables need, all of them free before. Nothing is given back when it returns.
pub fn malloc_fits()
    ensures fits { MallocsFit }
    ensures need { MallocsTakeNeed }
    ensures nothing { MallocsGiveNothing }
{}

/// A free, also one that lets a batch go or is refused, leaves each frame taken until it returns, and
/// each block held that it gives back. When it returns exactly the frames that the process holds no
/// more are free, and its parts fit again.
pub fn free_fits()
    ensures { FreesFit }
{}

/// A realloc, whether its block stays or moves or it is refused, leaves each frame taken until it
/// returns, and each block held that it gives back; when it returns the parts fit again. Where it is
/// not refused, it takes exactly the frames that its new block, if it moves, and its tables need.
pub fn realloc_fits()
    ensures fits { ReallocsFit }
    ensures need { ReallocsTakeNeed }
{}

/// The plans of the plain heap do the same, refused ones too: no frame is free before the call has
/// returned.
pub fn plain_heap_fits()
    ensures malloc { PlainMallocsFit }
    ensures free { PlainFreesFit }
    ensures realloc { PlainReallocsFit }
{}

/// A call of one process leaves all of another's memory, from the plan until the return and after it.
pub fn others_fit()
    ensures { PlansKeepOthers }
{}

/// A share that is not refused leaves parts that fit with the new regions, takes exactly its pages and
/// the tables that they need, and leaves all of other processes' memories.
pub fn share_fits()
    ensures { SharesFit }
{}

/// The end of a process frees exactly its own frames and those of regions that nobody holds any more,
/// and leaves all of other processes' memories.
pub fn end_fits()
    ensures { EndsFit }
{}

/// After a fork that is not refused parent and child fit beside each other, and all others beside both.
pub fn fork_fits()
    ensures { ForksFit }
{}

/// From its plan until its return a call is under way, whatever jobs are done and words change
/// meanwhile; its return leaves a memory that is settled, and all others beside it.
pub fn returns_settle()
    ensures plans { PlansReturn }
    ensures jobs { JobsLeave }
    ensures settles { ReturnsSettle }
    ensures others { ReturnsKeepOthers }
{}
