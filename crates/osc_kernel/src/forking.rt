//! The plan of a fork.

ghost use Rattle.std.specs.Prelude.{◌≡◌, ◌-◌, ◌+◌, ◌<◌, ◌≤◌, ◌++◌, ◌∷◌, [], All, Some, None, length, replicate, slice_set};
ghost use Rattle.std.specs.Vec.{vec_capacity};
ghost use Rattle.osc_word.specs.declared.calls.Call.TheVariants.{Fork};
ghost use Rattle.osc_calls.specs.declared.HartRecord.TheVariants.{Runs};
ghost use Rattle.osc_calls.specs.Kernel.{Process, process_at};
ghost use Rattle.osc_calls.specs.Planned.{planned_unless};
ghost use Rattle.osc_calls.specs.ProcessPlans.{child_process, fork_done};
ghost use Rattle.osc_calls.specs.Refusals.{refusal_of};
ghost use Rattle.osc_process.specs.Parts.{unused};
ghost use Rattle.osc_ready.specs.Found.{HasProcess};
ghost use Rattle.osc_share.specs.Holding.{AreDifferent, CanJoin};
ghost use Rattle.osc_space.specs.Fork.{fork_plan};
ghost use Rattle.osc_space.specs.Share.{join, shared_frames};
ghost use Rattle.osc_kernel.specs.Inside.{kernel_of};
ghost use Rattle.osc_kernel.specs.Plans.{CanPlan, IsBeside, RoomsAfter, planned_by};
ghost use Rattle.osc_kernel.specs.Sound.{IsSized};

use crate::commit::Made;
use crate::state::State;
use osc_process::Process;
use osc_under_way::{Calling, Effect, HartRecord, fork_start};
use osc_word::{Answer, Pid};

/// Why a fork of this process is refused. The work space of forks alone changes.
pub fn fork_refusal(state: &mut State, pid: Pid) -> Option<Answer>
    requires has { HasProcess (kernel_of state.old) pid }
    requires names { length state.old.names.items ≡ length state.old.frames }
    ensures refusal { (p : Process) → process_at (kernel_of state.old) pid ≡ Some p
        → result ≡ refusal_of Fork p (kernel_of state.old) }
    ensures state { state.new ≡ record state.old { names = state.new.names } }
    ensures names { length state.new.names.items ≡ length state.old.names.items }
{
    if state.records.idle_hart().is_none() {
        return Some(Answer::NoHart);
    }
    if state.processes.len() >= state.config.processes as usize {
        return Some(Answer::NoProcess);
    }
    let process = &state.processes[pid as usize];
    process.fork_refusal(&state.frames, &mut state.names)
}

/// The room of a process that is not made yet.
fn take_room(rooms: &mut Vec<Process>) -> Process
    requires { 0 < length rooms.old.items }
    ensures { rooms.old.items ≡ rooms.new.items ++ result ∷ [] }
{
    rooms.pop().unwrap()
}

/// A process is made.
fn push_process(processes: &mut Vec<Process>, process: Process)
    requires { length processes.old.items < vec_capacity processes.old }
    ensures items { processes.new.items ≡ processes.old.items ++ process ∷ [] }
    ensures capacity { vec_capacity processes.old ≤ vec_capacity processes.new }
{
    processes.push(process).unwrap();
}

/// The child of a call's process, whose fork is not refused, in the room of one that is not made yet.
fn make_child(state: &mut State, calling: &Calling) -> Process
    requires can { CanPlan state.old calling.now }
    requires granted { (p : Process) → process_at (kernel_of state.old) calling.now.pid ≡ Some p
        → refusal_of Fork p (kernel_of state.old) ≡ None }
    ensures child { (p : Process) → process_at (kernel_of state.old) calling.now.pid ≡ Some p
        → result ≡ child_process calling.now.pid (fork_plan p.space state.old.frames).child }
    ensures frames { (p : Process) → process_at (kernel_of state.old) calling.now.pid ≡ Some p
        → state.new.frames ≡ (fork_plan p.space state.old.frames).free }
    ensures pushed { (p : Process) → process_at (kernel_of state.old) calling.now.pid ≡ Some p
        → state.new.jobs.pushed ≡ state.old.jobs.pushed ++ (fork_plan p.space state.old.frames).jobs }
    ensures room { state.new.jobs.room ≡ state.old.jobs.room }
    ensures sized { IsSized state.old.config result }
    ensures rooms { state.new.rooms.items ≡ replicate (state.old.config.processes - length state.old.processes.items - 1)
        (unused state.old.config.levels state.old.config.frames state.old.config.shadows) }
    ensures names { length state.new.names.items ≡ length state.old.names.items }
    ensures rest { state.new ≡ record state.old {
      frames = state.new.frames;
      rooms = state.new.rooms;
      jobs = state.new.jobs;
      names = state.new.names;
    } }
{
    let pid = calling.pid();
    let mut child = take_room(&mut state.rooms);
    let parent = &state.processes[pid as usize];
    parent.fork_into(
        pid,
        &mut child,
        &mut state.frames,
        &mut state.names,
        &mut state.jobs,
    );
    child
}

/// A child gets this number: it holds its regions, and its first thread begins on a hart.
fn add_child(state: &mut State, number: Pid, child: Process, hart: u32)
    requires room { length state.old.processes.items < vec_capacity state.old.processes }
    requires few { state.old.unended < 4294967295 }
    requires hart { hart < length state.old.records }
    requires different { AreDifferent (shared_frames child.space.tables) }
    requires joins { All (CanJoin state.old.regions) (shared_frames child.space.tables) }
    ensures items { state.new.processes.items ≡ state.old.processes.items ++ child ∷ [] }
    ensures capacity { vec_capacity state.old.processes ≤ vec_capacity state.new.processes }
    ensures rest { state.new ≡ record state.old {
      processes = state.new.processes;
      unended = state.old.unended + 1;
      regions = join child.space.tables state.old.regions;
      records = slice_set state.old.records hart (Runs number None);
    } }
{
    state.regions.join(child.tables());
    state.records.set(
        hart,
        HartRecord::Runs {
            pid: number,
            thread: None,
        },
    );
    push_process(&mut state.processes, child);
    state.unended += 1;
}

/// Makes the child, where it is not refused.
fn fork(state: &mut State, calling: &Calling) -> Made
    requires can { CanPlan state.old calling.now }
    requires granted { (p : Process) → process_at (kernel_of state.old) calling.now.pid ≡ Some p
        → refusal_of Fork p (kernel_of state.old) ≡ None }
    ensures made { (p : Process) → process_at (kernel_of state.old) calling.now.pid ≡ Some p
        → planned_by state.new result ≡ fork_done calling.now p (kernel_of state.old) }
    ensures rooms { RoomsAfter state.new result }
    ensures rest { IsBeside state.old state.new }
{
    let number = state.processes.len() as u32;
    let hart = state.records.idle_hart().unwrap();
    let child = make_child(state, calling);
    let start = fork_start(&state.config, calling, number, child.root());
    add_child(state, number, child, hart);
    Made {
        answer: Answer::Number(u64::from(number)),
        effect: Effect::Starts { hart, start },
    }
}

/// Plans a fork.
pub fn plan_fork(state: &mut State, calling: &Calling) -> Made
    requires can { CanPlan state.old calling.now }
    ensures made { (p : Process) → process_at (kernel_of state.old) calling.now.pid ≡ Some p
        → planned_by state.new result ≡ planned_unless (refusal_of Fork p (kernel_of state.old)) (kernel_of state.old)
        (fork_done calling.now p (kernel_of state.old)) }
    ensures rooms { RoomsAfter state.new result }
    ensures rest { IsBeside state.old state.new }
{
    match fork_refusal(state, calling.pid()) {
        Some(refused) => Made::answered(refused),
        None => fork(state, calling),
    }
}
