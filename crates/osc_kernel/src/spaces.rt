//! Looks at the processes.

ghost use Rattle.std.specs.Prelude.{◌≡◌, ◌<◌, ◌≤◌, None, Some, length, sum_by};
ghost use Rattle.osc_calls.specs.JobDone as definition;
ghost use Rattle.osc_calls.specs.Kernel as kernel;
ghost use Rattle.osc_calls.specs.Kernel.{is_over, process_at};
ghost use Rattle.osc_paging.specs.KeptTables.{kept_word};
ghost use Rattle.osc_tables.specs.Calls.{IsOpen};
ghost use Rattle.osc_kernel.specs.Inside.{kernel_of};
ghost use Rattle.osc_kernel.specs.Seen.{granted_by, owner_in, root_in};
ghost use Rattle.osc_kernel.specs.Sound.{Sound};

use crate::state::State;
use osc_process::Process;
use osc_tables::Tables;
use osc_word::{Frame, Job, ObjectNo, Page, Pid};

/// How many there are.
fn length_of(processes: &[Process]) -> u32
    requires few { length processes.now ≤ 64 }
    ensures { result ≡ length processes.now }
{
    processes.len() as u32
}

/// How many processes were made.
pub fn count(state: &State) -> u32
    requires sound { Sound state.now }
    ensures { result ≡ length (kernel_of state.now).processes }
{
    length_of(&state.processes)
}

/// Whether every process has ended.
pub fn is_over(state: &State) -> bool
    requires sound { Sound state.now }
    ensures { result ≡ is_over (kernel_of state.now) }
{
    state.unended == 0
}

/// The shadow pages that a process granted itself. That they are few is known of its marks.
fn granted_by(process: &Process) -> u64
    ensures own { result ≡ granted_by process.now }
    ensures few { result ≤ 16777216 }
{
    let _next = process.marks().next_page();
    process.granted()
}

/// The shadow pages that these processes granted themselves.
fn granted_in(processes: &[Process]) -> u64
    requires few { length processes.now ≤ 64 }
    ensures { result ≡ sum_by granted_by processes.now }
{
    let mut total = 0;
    for process in processes {
        total += granted_by(process);
    }
    total
}

/// The shadow pages that each process granted itself, together.
pub fn granted(state: &State) -> u64
    requires sound { Sound state.now }
    ensures { result ≡ kernel.granted (kernel_of state.now) }
{
    granted_in(&state.processes)
}

/// The topmost table of a process; None where it has ended.
fn root_of(process: &Process) -> Option<Frame>
    requires opened { process.now.status ≡ None → IsOpen process.now.space.tables }
    ensures { result ≡ root_in (Some process.now) }
{
    match process.status() {
        Some(_) => None,
        None => Some(process.root()),
    }
}

/// The topmost table of a process; None where there is no such process or it has ended.
pub fn root(state: &State, pid: Pid) -> Option<Frame>
    requires sound { Sound state.now }
    ensures { result ≡ root_in (process_at (kernel_of state.now) pid) }
{
    let processes = state.processes.as_slice();
    let index = pid as usize;
    if index < processes.len() {
        let process = &processes[index];
        root_of(process)
    } else {
        None
    }
}

/// The object that a page of a process was granted to; None where it has ended.
fn owner_of(process: &Process, page: Page) -> Option<ObjectNo>
    ensures { result ≡ owner_in page (Some process.now) }
{
    match process.status() {
        Some(_) => None,
        None => process.owner(page),
    }
}

/// The object that a page of a process was granted to; None where there is no such process or it has ended.
pub fn owner(state: &State, pid: Pid, page: Page) -> Option<ObjectNo>
    ensures { result ≡ owner_in page (process_at (kernel_of state.now) pid) }
{
    let processes = state.processes.as_slice();
    if (pid as usize) < processes.len() {
        owner_of(&processes[pid as usize], page)
    } else {
        None
    }
}

/// The word of a table's entry; 0 where the frame is no table.
fn word_in(tables: &Tables, frame: Frame, index: u16) -> u64
    requires index { index < 512 }
    ensures { result ≡ kept_word tables.now frame index }
{
    match tables.table_at(frame) {
        Some(_) => tables.entry(frame, index),
        None => 0,
    }
}

/// What the process that was made last keeps in a frame that is one of its tables.
fn newest_entry(processes: &[Process], frame: Frame, index: u16) -> u64
    requires index { index < 512 }
    ensures { result ≡ definition.child_entry (definition.newest processes.now) frame index }
{
    let made = processes.len();
    if made == 0 {
        return 0;
    }
    word_in(processes[made - 1].tables(), frame, index)
}

/// What the next job stores at an index of the table that it copies; 0 where it copies none.
pub fn entry(state: &State, index: u16) -> u64
    requires index { index < 512 }
    ensures { result ≡ definition.entry (kernel_of state.now) index }
{
    match state.jobs.get(state.done) {
        Some(Job::CopyTable { to, .. }) => newest_entry(&state.processes, to, index),
        _ => 0,
    }
}
