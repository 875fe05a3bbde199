//! The calls that look at what has ended: join and wait.

ghost use Rattle.std.specs.Prelude.{◌≡◌, slice_get, unwrap_or};
ghost use Rattle.osc_word.specs.declared.calls.Answer.TheVariants as answers;
ghost use Rattle.osc_calls.specs.Requests as definition;
ghost use Rattle.osc_calls.specs.Requests.{is_ready, join_answer, wait_answer};
ghost use Rattle.osc_calls.specs.Threads.{join_look};
ghost use Rattle.osc_kernel.specs.Inside.{kernel_of};

use crate::state::State;
use osc_process::Process;
use osc_under_way::{WaitLook, child_look, join_answer, wait_answer};
use osc_word::{Answer, Call, Pid};

/// What a wait of a process for the process of this number finds.
fn wait_look(processes: &[Process], pid: Pid, number: u64) -> WaitLook
    ensures { result ≡ definition.child_look pid (slice_get processes.now number) }
{
    if number >= processes.len() as u64 {
        return WaitLook::Unknown;
    }
    let child = &processes[number as usize];
    child_look(pid, child.parent(), child.status())
}

/// What a join answers; None where the thread runs.
fn joined(state: &State, pid: Pid, number: u64) -> Option<Answer>
    ensures { result ≡ join_answer (join_look (kernel_of state.now).threads pid number) }
{
    join_answer(state.threads.join(pid, number))
}

/// What a wait answers; None where the child has not ended.
fn waited(state: &State, pid: Pid, number: u64) -> Option<Answer>
    ensures { result ≡ wait_answer (definition.wait_look (kernel_of state.now) pid number) }
{
    wait_answer(wait_look(&state.processes, pid, number))
}

/// Whether a call can be answered: a join or a wait where what it looks at has ended or is unknown, and any
/// other call.
pub fn is_ready(state: &State, pid: Pid, call: Call) -> bool
    ensures { result ≡ is_ready (kernel_of state.now) pid call }
{
    match call {
        Call::Join(number) => joined(state, pid, number).is_some(),
        Call::Wait(number) => waited(state, pid, number).is_some(),
        _ => true,
    }
}

/// The answer of a join that is ready.
pub fn join_value(state: &State, pid: Pid, number: u64) -> Answer
    ensures { result ≡ unwrap_or (join_answer (join_look (kernel_of state.now).threads pid number)) answers.Unknown }
{
    joined(state, pid, number).unwrap_or(Answer::Unknown)
}

/// The answer of a wait that is ready.
pub fn wait_value(state: &State, pid: Pid, number: u64) -> Answer
    ensures { result ≡ unwrap_or (wait_answer (definition.wait_look (kernel_of state.now) pid number)) answers.Unknown }
{
    waited(state, pid, number).unwrap_or(Answer::Unknown)
}
