//! The plan of a spawn.

ghost use Rattle.std.specs.Prelude.{◌≡◌, ◌<◌, Some, length, slice_set};
ghost use Rattle.osc_word.specs.JobList.{with_job, spare};
ghost use Rattle.osc_word.specs.declared.calls.Answer.TheVariants as answers;
ghost use Rattle.osc_word.specs.declared.calls.Call.TheVariants.{Spawn};
ghost use Rattle.osc_word.specs.declared.job_list.Job.TheVariants.{Tell};
ghost use Rattle.osc_calls.specs.declared.HartRecord.TheVariants.{Runs};
ghost use Rattle.osc_calls.specs.Kernel.{Process, process_at, root_frame};
ghost use Rattle.osc_under_way.specs.declared.effects.Effect.TheVariants as effects;
ghost use Rattle.osc_calls.specs.Planned.{planned_unless};
ghost use Rattle.osc_calls.specs.ProcessPlans.{spawn_done};
ghost use Rattle.osc_calls.specs.Refusals.{refusal_of};
ghost use Rattle.osc_ready.specs.Found.{HasProcess};
ghost use Rattle.osc_kernel.specs.Inside.{kernel_of};
ghost use Rattle.osc_kernel.specs.Plans.{CanPlan, IsBeside, RoomsAfter, planned_by};

use crate::commit::Made;
use crate::state::{State, process_of};
use osc_under_way::{Calling, Effect, HartRecord, spawn_start};
use osc_word::{Answer, Frame, Job, Pid, Start, ThreadNo};

/// The frame of the topmost table of a process.
pub fn root_of(state: &State, pid: Pid) -> Frame
    requires { HasProcess (kernel_of state.now) pid }
    ensures { (p : Process) → process_at (kernel_of state.now) pid ≡ Some p → result ≡ root_frame p.space }
{
    process_of(state, pid).root()
}

/// A thread of this number begins on a hart.
fn begin_thread(state: &mut State, pid: Pid, number: ThreadNo, hart: u32, start: Start) -> Made
    requires hart { hart < length state.old.records }
    requires spare { 0 < spare state.old.jobs }
    ensures made { result ≡ record { answer = answers.Number number; effect = effects.Starts hart start } }
    ensures state { state.new ≡ record state.old {
      records = slice_set state.old.records hart (Runs pid (Some number));
      jobs = with_job state.old.jobs (Tell hart);
    } }
{
    state.records.set(
        hart,
        HartRecord::Runs {
            pid,
            thread: Some(number),
        },
    );
    state.jobs.push(Job::Tell { hart });
    Made {
        answer: Answer::Number(u64::from(number)),
        effect: Effect::Starts { hart, start },
    }
}

/// Plans a spawn of a thread at this pc, with its stack pointer and its argument.
pub fn plan_spawn(state: &mut State, calling: &Calling, pc: u64, sp: u64, arg: u64) -> Made
    requires can { CanPlan state.old calling.now }
    ensures made { (p : Process) → process_at (kernel_of state.old) calling.now.pid ≡ Some p
        → planned_by state.new result ≡ planned_unless (refusal_of (Spawn pc sp arg) p (kernel_of state.old)) (kernel_of state.old)
        (spawn_done calling.now p pc sp arg (kernel_of state.old)) }
    ensures rooms { RoomsAfter state.new result }
    ensures rest { IsBeside state.old state.new }
{
    let pid = calling.pid();
    let Some(hart) = state.records.idle_hart() else {
        return Made::answered(Answer::NoHart);
    };
    let root = root_of(state, pid);
    let start = spawn_start(&state.config, pid, root, pc, sp, arg);
    match state.threads.spawn(pid) {
        Some(number) => begin_thread(state, pid, number, hart, start),
        None => Made::answered(Answer::NoThread),
    }
}
