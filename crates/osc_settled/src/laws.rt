//! The laws of the kernel's steps, and what they keep. Each function does nothing: what it says is
//! proved of the definitions.

ghost use Rattle.osc_settled.specs.KeepLaws.{JobsKeep, OutcomesKeep, PlansKeep, BeginsKeep, FinishKeeps};
ghost use Rattle.osc_settled.specs.StartLaws.{StartsFit, ImagesStart};
ghost use Rattle.osc_settled.specs.FollowLaws.{WalksFollow, PartsHold, ShadowsFollow, HeadersFollow, ProcessesApart, FramesAddUp, RefusedKeep, JobsHaveRoom, MallocsTake, ReallocsTake, PlainMallocsTake, PlainReallocsTake, ForksTake, SharesTake, FinishGives, EndsGive};

/// A job that is done keeps what holds of the kernel, with the words that it makes.
pub fn jobs_keep()
    ensures { JobsKeep }
{}

/// A plan that is fit for its process's memory keeps what holds of the kernel and of all processes.
pub fn outcomes_keep()
    ensures { OutcomesKeep }
{}

/// The plan of each call that waits, refused or not, keeps what holds; nothing is asked of who calls it.
pub fn plans_keep()
    ensures { PlansKeep }
{}

/// A hart that takes the kernel keeps what holds, whatever it asks.
pub fn begins_keep()
    ensures { BeginsKeep }
{}

/// A kernel that is given back keeps what holds, also where a process ends.
pub fn finish_keeps()
    ensures { FinishKeeps }
{}

/// After the pending jobs a walk gives the kept mapping, for each process and each address.
pub fn walks_follow()
    ensures { WalksFollow }
{}

/// While nobody has the kernel the parts of each process that has not ended fit, and no job is pending.
pub fn parts_hold()
    ensures { PartsHold }
{}

/// Each mapped shadow page is one of a live object below the mark, and maps the frame of its page of the
/// object's block.
pub fn shadows_follow()
    ensures { ShadowsFollow }
{}

/// The header of a live object is read where its block has it, while its process has nothing to give back.
pub fn headers_follow()
    ensures { HeadersFollow }
{}

/// No frame that one process holds alone is another's, also in the middle of a fork.
pub fn processes_apart()
    ensures { ProcessesApart }
{}

/// Free frames, frames that processes hold alone and frames of regions add up to all frames.
pub fn frames_add_up()
    ensures { FramesAddUp }
{}

/// A refused call changes nothing but the journal and the peak.
pub fn refused_keep()
    ensures { RefusedKeep }
{}

/// The jobs of each plan have room.
pub fn jobs_have_room()
    ensures { JobsHaveRoom }
{}

/// A malloc and a realloc under either heap, a fork and a share that are not refused take exactly the
/// frames that they need.
pub fn plans_take_need()
    ensures malloc { MallocsTake }
    ensures realloc { ReallocsTake }
    ensures plain_malloc { PlainMallocsTake }
    ensures plain_realloc { PlainReallocsTake }
    ensures fork { ForksTake }
    ensures share { SharesTake }
{}

/// A call that returns gives back exactly what its plan let go, and a process that ends all that it has.
pub fn finish_gives()
    ensures call { FinishGives }
    ensures end { EndsGive }
{}

/// Where each page of an image can be laid, the machine that opens with it fits: the start.
pub fn starts_fit()
    ensures { StartsFit }
{}

/// The machine that opens with the image of a file fits, for every file that is taken and needs no more
/// frames than the machine has.
pub fn images_start()
    ensures { ImagesStart }
{}
