//! The state after any deed.

ghost use Rattle.std.specs.Prelude.{◌≡◌, IfOk, Some, slice_get};
ghost use Rattle.osc_world.specs.World.{WorldTurn};
ghost use Rattle.osc_object.specs.Decisions.{heap_answer};

use crate::beginnings::next_object;
use crate::decisions::Deed;
use crate::state::State;
use osc_memory::{HeapDeed, Process};
use osc_word::Pid;
use osc_world::Value;
use std::alloc::{AllocError, Global};

/// What a call of the heap in process `pid` answers. An `Err` where no number is left for a new object.
fn heap_value(processes: &[Process], pid: Pid, deed: HeapDeed) -> Result<Value, AllocError>
    ensures { IfOk result (λ value. (turn : WorldTurn) → slice_get processes.now pid ≡ Some turn.process → value ≡ heap_answer turn deed) }
{
    match deed {
        HeapDeed::Makes(_) => next_object(processes, pid),
        HeapDeed::Kills(_) => Ok(Value::Num(0)),
        HeapDeed::Replaces { .. } => next_object(processes, pid),
    }
}

impl State {
    ghost use Rattle.std.specs.Prelude.{◌<◌, OnOk, length};
    ghost use Rattle.osc_object.specs.declared.decisions.Deed.TheVariants.{Heaps};
    ghost use Rattle.osc_object.specs.Applied.{IsApplied};

    fn call_heap(
        &mut self,
        alloc: Global,
        number: u32,
        pid: Pid,
        deed: HeapDeed,
    ) -> Result<(), AllocError>
        ensures { OnOk result (IsApplied self.old number pid (Heaps deed) self.new) }
    {
        let value = heap_value(&self.processes, pid, deed)?;
        self.serve(alloc, number, pid, deed, value)?;
        Ok(())
    }

    /// A deed of hart `number`, which runs a thread of process `pid`. An `Err` is want of memory, or of numbers
    /// for what is new; what the state then is, is not said.
    pub fn apply(
        &mut self,
        alloc: Global,
        number: u32,
        pid: Pid,
        deed: Deed,
    ) -> Result<(), AllocError>
        requires { pid < length self.old.processes }
        ensures { OnOk result (IsApplied self.old number pid deed self.new) }
    {
        match deed {
            Deed::Steps(step) => {
                self.step(number, pid, step);
                Ok(())
            }
            Deed::Heaps(deed) => {
                self.call_heap(alloc, number, pid, deed)?;
                Ok(())
            }
            Deed::Writes(bytes) => {
                self.write(number, &bytes)?;
                Ok(())
            }
            Deed::Shares(count) => {
                self.share(alloc, number, pid, count)?;
                Ok(())
            }
            Deed::Forks(target) => {
                self.fork(alloc, number, pid, target)?;
                Ok(())
            }
            Deed::Spawns { hart, pc, sp, arg } => {
                self.spawn(alloc, number, pid, hart, pc, sp, arg)?;
                Ok(())
            }
            Deed::Exits(status) => {
                self.exit(pid, status);
                Ok(())
            }
            Deed::Leaves(value) => {
                self.leave(number, pid, value);
                Ok(())
            }
        }
    }
}
