//! What the steps of a call show.

ghost use Rattle.std.specs.Prelude.{◌≡◌, ◌+◌, ◌∷◌, List, sum_by};
ghost use Rattle.std.specs.Option.{option_to_list};
ghost use Rattle.osc_word.specs.declared.job_list.Job.{Job};
ghost use Rattle.osc_space.specs.Objects.{fact};
ghost use Rattle.osc_calls.specs.Kernel.{Committed, Returning};
ghost use Rattle.osc_calls.specs.Labels.{answer_shows, buffer_shows, death_of, effect_shows, freed_label, is_fault, out_count, out_shows, plan_shows};
ghost use Rattle.osc_under_way.specs.Effects.{effect_of};

use crate::asking::Calling;
use crate::effects::Effect;
use osc_mark::{Marks, ObjectFact, ObjectState};
use osc_word::{Access, Answer, Call, CallNo, Job, Label, ObjectNo, Pid};

/// Whether a call is the end of a process by a fault.
fn is_fault(call: Call) -> bool
    ensures { result ≡ is_fault call }
{
    matches!(call, Call::End(_))
}

/// What the commit shows of what a call does to harts: a fork's child, or the end of a process.
fn effect_label(calling: &Calling, effect: &Effect) -> Option<Label>
    ensures { option_to_list result ≡ effect_shows calling.now (effect_of effect.now) }
{
    match effect {
        Effect::Nothing | Effect::Clears => None,
        Effect::Starts { start, .. } => match calling.call {
            Call::Fork => Some(Label::Forked {
                pid: calling.pid,
                child: start.pid,
            }),
            _ => None,
        },
        Effect::Ends { status } => Some(Label::Ended {
            pid: calling.pid,
            fault: is_fault(calling.call),
            status: *status,
        }),
    }
}

/// What the step shows in which a call commits. `place` is the call's place in the journal.
pub fn plan_label(
    calling: &Calling,
    place: CallNo,
    answer: Answer,
    effect: &Effect,
) -> Option<Label>
    ensures { option_to_list result ≡ plan_shows calling.now place answer (effect_of effect.now) }
{
    match answer {
        Answer::Freed { object } => Some(Label::Freeing {
            pid: calling.pid,
            object,
            call: place,
        }),
        Answer::Moved { old, .. } => Some(Label::Moving {
            pid: calling.pid,
            old,
            call: place,
        }),
        Answer::BadBuffer { address } => Some(Label::Touched {
            pid: calling.pid,
            hart: calling.hart,
            address,
            width: 1,
            kind: Access::Load,
            done: false,
        }),
        _ => effect_label(calling, effect),
    }
}

/// What the step shows in which bytes of a buffer are written out: `count` of those of which `pending`
/// were still to be written.
fn buffer_label(calling: &Calling, answer: Answer, pending: u32, count: u8) -> Option<Label>
    ensures { option_to_list result ≡ buffer_shows calling.now calling.now.call answer pending count }
{
    match calling.call {
        Call::Write { buf, .. } => match answer {
            Answer::Number(total) => Some(Label::Touched {
                pid: calling.pid,
                hart: calling.hart,
                address: buf.wrapping_add(total.saturating_sub(u64::from(pending))),
                width: count,
                kind: Access::Load,
                done: true,
            }),
            _ => None,
        },
        _ => None,
    }
}

/// What the step shows in which a job of a committed call is done. `pending` bytes were still to be
/// written out before it, this job's with them.
pub fn out_label(calling: &Calling, answer: Answer, job: Job, pending: u32) -> Option<Label>
    ensures { (done : Committed) (jobs : List Job) → done.calling ≡ calling.now → done.answer ≡ answer
        → pending ≡ out_count job + sum_by out_count jobs
        → option_to_list result ≡ out_shows (Returning done) (job ∷ jobs) }
{
    match job {
        Job::ToOut { count, .. } => buffer_label(calling, answer, pending, count),
        _ => None,
    }
}

/// What is kept of an object; None exactly where it was not granted.
fn fact(marks: &Marks, object: ObjectNo) -> Option<ObjectFact>
    ensures { result ≡ fact marks.now.objects object }
{
    if object < marks.next_object() {
        Some(marks.fact(object))
    } else {
        None
    }
}

/// What the return of a call shows of its answer: an object that was given, or one that was moved.
/// `place` is the call's place in the journal.
pub fn answer_label(pid: Pid, place: CallNo, marks: &Marks, answer: Answer) -> Option<Label>
    ensures { option_to_list result ≡ answer_shows pid place marks.now.objects answer }
{
    match answer {
        Answer::Given { object, .. } => {
            let given = fact(marks, object)?;
            Some(Label::Gave {
                pid,
                object,
                first: given.first,
                pages: given.pages,
                size: given.size,
            })
        }
        Answer::Moved { old, object, .. } => {
            let given = fact(marks, object)?;
            Some(Label::Moved {
                pid,
                old,
                call: place,
                object,
                first: given.first,
                pages: given.pages,
                size: given.size,
            })
        }
        _ => None,
    }
}

/// The call by which an object died.
fn death_of(fact: Option<ObjectFact>) -> CallNo
    ensures { result ≡ death_of fact }
{
    match fact {
        None => 0,
        Some(fact) => match fact.state {
            ObjectState::Live => 0,
            ObjectState::Dead(call) => call,
        },
    }
}

/// What the return of a call shows of an object that does not wait any more.
pub fn freed_label(pid: Pid, marks: &Marks, object: ObjectNo) -> Label
    ensures { result ≡ freed_label pid marks.now.objects object }
{
    Label::Freed {
        pid,
        object,
        call: death_of(fact(marks, object)),
    }
}
