//! The plans of a write and of a share.

ghost use Rattle.std.specs.Prelude.{◌≡◌, ◌-◌, ◌^◌, ◌<◌, ◌≤◌, Some, None, length};
ghost use Rattle.osc_word.specs.JobList.{spare};
ghost use Rattle.osc_paging.specs.KeptTables.{mapping_of};
ghost use Rattle.osc_write.specs.Writing.{writing};
ghost use Rattle.osc_word.specs.declared.calls.Call.TheVariants.{Share};
ghost use Rattle.osc_calls.specs.Kernel.{Process, process_at};
ghost use Rattle.osc_calls.specs.Planned.{planned_unless};
ghost use Rattle.osc_calls.specs.ProcessPlans.{share_done};
ghost use Rattle.osc_calls.specs.Refusals.{refusal_of};
ghost use Rattle.osc_calls.specs.WritePlan.{write_plan};
ghost use Rattle.osc_ready.specs.Found.{HasProcess};
ghost use Rattle.osc_kernel.specs.Inside.{kernel_of};
ghost use Rattle.osc_kernel.specs.Plans.{CanPlan, IsBeside, RoomsAfter, planned_by};

use crate::commit::Made;
use crate::state::{State, process_of};
use osc_under_way::Calling;
use osc_word::{Answer, Pid};

/// Writes a buffer of a process.
fn write(state: &mut State, pid: Pid, buf: u64, len: u64) -> Answer
    requires within { pid < length state.old.processes.items }
    requires last { (p : Process) → process_at (kernel_of state.old) pid ≡ Some p → mapping_of p.space.tables (2 ^ 52 - 1) ≡ None }
    requires spare { 524289 ≤ spare state.old.jobs }
    requires few { length state.old.output.items ≤ 4194304 }
    ensures answer { (p : Process) → process_at (kernel_of state.old) pid ≡ Some p
        → result ≡ (writing p.space.tables (length state.old.output.items) buf len state.old.jobs.pushed).answer }
    ensures pushed { (p : Process) → process_at (kernel_of state.old) pid ≡ Some p
        → state.new.jobs.pushed ≡ (writing p.space.tables (length state.old.output.items) buf len state.old.jobs.pushed).jobs }
    ensures room { state.new.jobs.room ≡ state.old.jobs.room }
    ensures rest { state.new ≡ record state.old { jobs = state.new.jobs } }
{
    let written = state.output.len() as u32;
    let process = &state.processes[pid as usize];
    process.write(written, &mut state.jobs, buf, len)
}

/// Plans a write of a buffer.
pub fn plan_write(state: &mut State, calling: &Calling, buf: u64, len: u64) -> Made
    requires can { CanPlan state.old calling.now }
    ensures made { (p : Process) → process_at (kernel_of state.old) calling.now.pid ≡ Some p
        → planned_by state.new result ≡ write_plan p buf len (kernel_of state.old) }
    ensures rooms { RoomsAfter state.new result }
    ensures rest { IsBeside state.old state.new }
{
    let answer = write(state, calling.pid(), buf, len);
    Made::answered(answer)
}

/// Why a share of so many pages by this process is refused.
pub fn share_refusal(state: &State, pid: Pid, count: u64) -> Option<Answer>
    requires { HasProcess (kernel_of state.now) pid }
    ensures { (p : Process) → process_at (kernel_of state.now) pid ≡ Some p
        → result ≡ refusal_of (Share count) p (kernel_of state.now) }
{
    process_of(state, pid).share_refusal(count, &state.frames)
}

/// Shares so many pages, where it is not refused.
fn share(state: &mut State, calling: &Calling, count: u64) -> Made
    requires can { CanPlan state.old calling.now }
    requires granted { (p : Process) → process_at (kernel_of state.old) calling.now.pid ≡ Some p
        → refusal_of (Share count) p (kernel_of state.old) ≡ None }
    ensures made { (p : Process) → process_at (kernel_of state.old) calling.now.pid ≡ Some p
        → planned_by state.new result ≡ share_done calling.now p count (kernel_of state.old) }
    ensures rooms { RoomsAfter state.new result }
    ensures rest { IsBeside state.old state.new }
{
    let process = &mut state.processes[calling.pid() as usize];
    let address = process.share(
        count,
        &mut state.regions,
        &mut state.frames,
        &mut state.jobs,
    );
    Made::answered(Answer::Number(address))
}

/// Plans a share of so many pages.
pub fn plan_share(state: &mut State, calling: &Calling, count: u64) -> Made
    requires can { CanPlan state.old calling.now }
    ensures made { (p : Process) → process_at (kernel_of state.old) calling.now.pid ≡ Some p
        → planned_by state.new result ≡ planned_unless (refusal_of (Share count) p (kernel_of state.old)) (kernel_of state.old)
        (share_done calling.now p count (kernel_of state.old)) }
    ensures rooms { RoomsAfter state.new result }
    ensures rest { IsBeside state.old state.new }
{
    match share_refusal(state, calling.pid(), count) {
        Some(refused) => Made::answered(refused),
        None => share(state, calling, count),
    }
}
