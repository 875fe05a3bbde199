//! The laws of the kernel. Each function does nothing: what it says is proved of the definitions.

ghost use Rattle.std.specs.Prelude.{ℕ, ◌≡◌, List, [], ◌∷◌, codes, pos, neg_ℤ};
ghost use Rattle.osc_word.specs.declared.calls.Fault.TheVariants as faults;
ghost use Rattle.osc_calls.specs.declared.Place.TheVariants as places;
ghost use Rattle.osc_calls.specs.Lines.{report_line};
ghost use Rattle.osc_calls.specs.MoveLaws.{MovesDoJob};
ghost use Rattle.osc_calls.specs.CallLaws.{StoppedAreGone, RetriesKeep, RefusedCallsKeep, RefusedByFirstReason, RefusedBegin, MallocsMoveNothing};
ghost use Rattle.osc_calls.specs.ReasonLaws.{RefusedForCause};
ghost use Rattle.osc_calls.specs.ObjectLaws.{GrownMarks, ObjectsGrow};
ghost use Rattle.osc_calls.specs.LabelLaws.{LabelsCounted, ReturnsFree};

/// The lines of reports.
pub fn report_lines()
    ensures dead { report_line (record { pid = 0; hart = 0; fault = faults.Access 13 0x1000000018; place = places.Dead 0 (pos 8) 1 })
        ≡ codes "fault: process 0 hart 0 cause 13 at 0x1000000018: object 0 offset 8 freed by call 1" }
    ensures live { report_line (record { pid = 1; hart = 7; fault = faults.Access 15 0x1000000ff8; place = places.Live 12 (neg_ℤ (pos 24)) })
        ≡ codes "fault: process 1 hart 7 cause 15 at 0x1000000ff8: object 12 offset -24 live" }
    ensures nowhere { report_line (record { pid = 0; hart = 0; fault = faults.Access 13 0x2000400010; place = places.Nowhere })
        ≡ codes "fault: process 0 hart 0 cause 13 at 0x2000400010: no object" }
    ensures double { report_line (record { pid = 0; hart = 0; fault = faults.DoubleFree 0x1000000010 0 1; place = places.Nowhere })
        ≡ codes "fault: process 0 hart 0 double free at 0x1000000010: object 0 freed by call 1" }
    ensures bad { report_line (record { pid = 0; hart = 0; fault = faults.BadFree 0x1000000020; place = places.Nowhere })
        ≡ codes "fault: process 0 hart 0 bad free at 0x1000000020: no object starts there" }
    ensures header { report_line (record { pid = 0; hart = 0; fault = faults.Header 0 0x18 9; place = places.Nowhere })
        ≡ codes "fault: process 0 hart 0 header of object 0 kept 0x18 found 0x9" }
    ensures unknown { report_line (record { pid = 0; hart = 0; fault = faults.UnknownCall 99; place = places.Nowhere })
        ≡ codes "fault: process 0 hart 0 call 99 unknown" }
{}

/// The moves of a job do to the words of memory what the job means.
#[tactic(auto, using(crate::proofs::MoveLawProofs::moves_do_job))]
pub fn moves_do_job()
    ensures { MovesDoJob }
{}

/// A hart whose thread was stopped leaves, whatever it asks, and nothing changes but that it is idle.
#[tactic(auto, using(crate::proofs::CallLawProofs::stopped_are_gone))]
pub fn stopped_are_gone()
    ensures { StoppedAreGone }
{}

/// A call that finds the journal full, or that is not ready, changes nothing.
#[tactic(auto, using(crate::proofs::CallLawProofs::retries_keep))]
pub fn retries_keep()
    ensures { RetriesKeep }
{}

/// The plan of a refused call changes nothing.
#[tactic(auto, using(crate::proofs::RefusalLawProofs::refused_calls_keep))]
pub fn refused_calls_keep()
    ensures { RefusedCallsKeep }
{}

/// A call is refused exactly by the first reason that holds of it, and a fork or a share that is refused
/// takes no box.
#[tactic(auto, using(crate::proofs::ReasonLawProofs::refused_by_first_reason, crate::proofs::ReasonLawProofs::refused_begin))]
pub fn refused_by_first_reason()
    ensures plans { RefusedByFirstReason }
    ensures begins { RefusedBegin }
{}

/// Each refusal of a fork, a spawn or a share has its cause, and the first of them is answered.
#[tactic(auto, using(crate::proofs::CauseLawProofs::refused_for_cause))]
pub fn refused_for_cause()
    ensures { RefusedForCause }
{}

/// A malloc moves nothing.
#[tactic(auto, using(crate::proofs::ReasonLawProofs::mallocs_move_nothing))]
pub fn mallocs_move_nothing()
    ensures { MallocsMoveNothing }
{}

/// Objects only grow: what was granted stays, whoever died stays dead, and no mark falls.
#[tactic(auto, using(crate::proofs::ObjectStepProofs::objects_grow, crate::proofs::ObjectLawProofs::grown_marks))]
pub fn objects_grow()
    ensures grow { ObjectsGrow }
    ensures marks { GrownMarks }
{}

/// A step shows one thing at most, but the return of a flush shows each object that it freed.
#[tactic(auto, using(crate::proofs::LabelLawProofs::labels_counted))]
pub fn labels_counted()
    ensures { LabelsCounted }
{}

/// A call that gives blocks back frees all that waited, shows them first, and nothing waits any more; any
/// other call frees nothing.
#[tactic(auto, using(crate::proofs::LabelLawProofs::returns_free))]
pub fn returns_free()
    ensures { ReturnsFree }
{}
