//! The state after a share, a fork, a spawn and the end of a thread.

ghost use Rattle.std.specs.Prelude.{◌≡◌, ◌<◌, IfOk, OnOk, Some, ◌++◌, slice_get, length, replicate};
ghost use Rattle.osc_world.specs.declared.Value as held;
ghost use Rattle.osc_world.specs.declared.Value.TheVariants.{Ptr};
ghost use Rattle.osc_world.specs.States as states;
ghost use Rattle.osc_world.specs.World as world;
ghost use Rattle.osc_world.specs.Calls as calls;
ghost use Rattle.osc_object.specs.Changes as changes;

use crate::changes::{
    answer, begin, hold, leave, next_address, rest, set_status, status_after, status_in, thread_of,
};
use crate::hart::Hart;
use crate::state::{State, Thread};
use osc_memory::Process;
use osc_values::Row;
use osc_word::{Pid, ThreadNo};
use osc_world::Value;
use std::alloc::{AllocError, Global};

/// The bytes of a page.
const PAGE: u64 = 4096;

/// A count as the number of something; an `Err` where no number is left for it.
pub fn number_of(count: u64) -> Result<u32, AllocError>
    ensures { IfOk result (λ number. number ≡ count) }
{
    if count > u64::from(u32::MAX) {
        return Err(AllocError);
    }
    Ok(count as u32)
}

/// So many rows of zeros more. An `Err` is want of memory.
fn add_zeros(alloc: Global, rows: &mut Vec<Row>, count: u32, size: u64) -> Result<(), AllocError>
    ensures { OnOk result (rows.new.items ≡ rows.old.items ++ replicate count (calls.zeros size)) }
{
    for _ in 0..count {
        rows.push(Row::zeros(alloc, size)?)?;
    }
    Ok(())
}

/// The pointer to the object of a process that comes next. An `Err` where no number is left for it.
pub fn next_object(processes: &[Process], pid: Pid) -> Result<Value, AllocError>
    ensures { IfOk result (λ value. (process : states.Process world.Memory) → slice_get processes.now pid ≡ Some process → value ≡ Ptr (length process.memory.objects) 0) }
{
    let place = pid as usize;
    if place >= processes.len() {
        return Ok(Value::Num(0));
    }
    let object = number_of(processes[place].objects().len() as u64)?;
    Ok(Value::Ptr { object, offset: 0 })
}

/// The first thread of a child with this number, by its caller. An `Err` is want of memory.
fn child_hart(alloc: Global, harts: &[Hart], number: u32, child: Pid) -> Result<Hart, AllocError>
    ensures { IfOk result (λ begun. (hart : states.Hart held.Value) → slice_get harts.now number ≡ Some hart → begun ≡ changes.child_on child hart) }
{
    let at = number as usize;
    if at >= harts.len() {
        return Ok(Hart::idle(alloc));
    }
    harts[at].child(alloc, child)
}

/// A child of a process. An `Err` is want of memory.
fn child_process(alloc: Global, processes: &[Process], pid: Pid) -> Result<Process, AllocError>
    requires { pid < length processes.now }
    ensures { IfOk result (λ child. (process : states.Process world.Memory) → slice_get processes.now pid ≡ Some process → child ≡ changes.child_of pid process) }
{
    processes[pid as usize].child(alloc, pid)
}

impl State {
    ghost use Rattle.std.specs.Prelude.{◌≡◌, ◌<◌, ◌≤◌, ◌+◌, ◌^◌, OnOk, length};
    ghost use Rattle.osc_world.specs.declared.Value.TheVariants.{Num};
    ghost use Rattle.osc_world.specs.Deeds as deeds;
    ghost use Rattle.osc_object.specs.Changes as changes;
    ghost use Rattle.osc_object.specs.Applied.{IsAfter};

    fn change_by_share(
        &mut self,
        alloc: Global,
        number: u32,
        pid: Pid,
        first: u32,
        count: u32,
    ) -> Result<(), AllocError>
        requires first { first ≡ length self.old.shared }
        requires fits { first + count ≤ 2 ^ 32 }
        ensures { OnOk result (self.new ≡ changes.shared_by number pid count 4096 self.old) }
    {
        let address = next_address(&self.processes, pid);
        hold(&mut self.processes, pid, first, count)?;
        add_zeros(alloc, &mut self.shared, count, PAGE)?;
        answer(&mut self.harts, number, Value::Num(address));
        Ok(())
    }

    /// A share of so many pages by hart `number`, which runs a thread of process `pid`. An `Err` is want of
    /// memory, or of numbers for the pages.
    pub fn share(
        &mut self,
        alloc: Global,
        number: u32,
        pid: Pid,
        count: u64,
    ) -> Result<(), AllocError>
        ensures { OnOk result (IsAfter self.old number pid (deeds.Shares count) self.new) }
    {
        let first = number_of(self.shared.len() as u64)?;
        let more = number_of(count)?;
        if more > u32::MAX - first {
            return Err(AllocError);
        }
        self.change_by_share(alloc, number, pid, first, more)?;
        Ok(())
    }

    fn begin_child(
        &mut self,
        number: u32,
        target: u32,
        child: Pid,
        hart: Hart,
        process: Process,
    ) -> Result<(), AllocError>
        ensures { OnOk result (self.new ≡ changes.forked number target (Num child) hart process self.old) }
    {
        self.processes.push(process)?;
        answer(&mut self.harts, number, Value::Num(u64::from(child)));
        begin(&mut self.harts, target, hart);
        Ok(())
    }

    /// A fork by hart `number`, which runs a thread of process `pid`; the child runs on hart `target`. An `Err`
    /// is want of memory, or of a number for the child.
    pub fn fork(
        &mut self,
        alloc: Global,
        number: u32,
        pid: Pid,
        target: u32,
    ) -> Result<(), AllocError>
        requires { pid < length self.old.processes }
        ensures { OnOk result (IsAfter self.old number pid (deeds.Forks target) self.new) }
    {
        let child = number_of(self.processes.len() as u64)?;
        let hart = child_hart(alloc, &self.harts, number, child)?;
        let process = child_process(alloc, &self.processes, pid)?;
        self.begin_child(number, target, child, hart, process)?;
        Ok(())
    }

    fn begin_thread(
        &mut self,
        number: u32,
        pid: Pid,
        target: u32,
        thread: ThreadNo,
        hart: Hart,
    ) -> Result<(), AllocError>
        ensures { OnOk result (self.new ≡ changes.spawned number pid target (Num thread) hart self.old) }
    {
        self.threads.push(Thread {
            spawner: pid,
            value: None,
        })?;
        answer(&mut self.harts, number, Value::Num(u64::from(thread)));
        begin(&mut self.harts, target, hart);
        Ok(())
    }

    /// A spawn by hart `number`, which runs a thread of process `pid`; the thread runs on hart `target`. An
    /// `Err` is want of memory, or of a number for the thread.
    #[allow(clippy::too_many_arguments)]
    pub fn spawn(
        &mut self,
        alloc: Global,
        number: u32,
        pid: Pid,
        target: u32,
        pc: u64,
        sp: Value,
        arg: Value,
    ) -> Result<(), AllocError>
        ensures { OnOk result (IsAfter self.old number pid (deeds.Spawns target pc sp arg) self.new) }
    {
        let thread = number_of(self.threads.len() as u64 + 1)?;
        let hart = Hart::begun(alloc, pid, thread, pc, sp, arg)?;
        self.begin_thread(number, pid, target, thread, hart)?;
        Ok(())
    }

    fn change_by_leave(
        &mut self,
        number: u32,
        pid: Pid,
        thread: Option<ThreadNo>,
        status: Option<u8>,
        value: Value,
    )
        ensures { self.new ≡ changes.left number pid thread status value self.old }
    {
        rest(&mut self.harts, number);
        let status = status_after(&self.harts, pid, status);
        set_status(&mut self.processes, pid, status);
        leave(&mut self.threads, thread, value);
    }

    /// The end of the thread of hart `number`, which is one of process `pid`, with the value that it leaves.
    pub fn leave(&mut self, number: u32, pid: Pid, value: Value)
        ensures { IsAfter self.old number pid (deeds.Leaves value) self.new }
    {
        let thread = thread_of(&self.harts, number);
        let status = status_in(&self.processes, pid);
        self.change_by_leave(number, pid, thread, status, value);
    }
}
