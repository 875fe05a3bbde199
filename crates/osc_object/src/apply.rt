//! The state after a deed.

ghost use Rattle.std.specs.Prelude.{◌≡◌};

use crate::changes::{answer, disturb, go_on, put_own, put_shared, serve, set_status, stop};
use crate::state::State;
use crate::steps::Step;
use crate::turn::Put;
use osc_memory::HeapDeed;
use osc_word::Pid;
use osc_world::Value;
use std::alloc::{AllocError, Global};

impl State {
    ghost use Rattle.std.specs.Prelude.{◌≡◌, ℕ, Some, OnOk};
    ghost use Rattle.osc_memory.specs.Places.{heap_shown};
    ghost use Rattle.osc_object.specs.Turns.{step_shown, put_shown};
    ghost use Rattle.osc_world.specs.Deeds as deeds;
    ghost use Rattle.osc_object.specs.Changes as changes;
    ghost use Rattle.osc_object.specs.Applied.{IsAfter};

    /// After a store of a hart of process `pid`.
    fn put(&mut self, pid: Pid, put: Put)
        ensures { self.new ≡ changes.put_by pid (Some (put_shown put)) self.old }
    {
        put_own(&mut self.processes, pid, put.at, put.width, put.value);
        put_shared(&mut self.shared, put.at, put.width, put.value);
        disturb(&mut self.harts, pid, put.at);
    }

    fn change_by_step(&mut self, number: u32, pid: Pid, step: Step)
        ensures { self.new ≡ changes.stepped number pid (step_shown step) self.old }
    {
        if let Some(put) = step.put {
            self.put(pid, put);
        }
        go_on(
            &mut self.harts,
            number,
            step.rd,
            step.value,
            step.pc,
            step.reservation,
        );
    }

    fn change_by_heap(
        &mut self,
        alloc: Global,
        number: u32,
        pid: Pid,
        deed: HeapDeed,
        value: Value,
    ) -> Result<(), AllocError>
        ensures { OnOk result (self.new ≡ changes.served number pid (heap_shown deed) value self.old) }
    {
        serve(alloc, &mut self.processes, pid, deed)?;
        answer(&mut self.harts, number, value);
        Ok(())
    }

    fn change_by_output(&mut self, number: u32, bytes: &[u8]) -> Result<(), AllocError>
        ensures { OnOk result (self.new ≡ changes.written number bytes.now self.old) }
    {
        self.output.extend_from_slice(bytes)?;
        answer(&mut self.harts, number, Value::Num(bytes.len() as u64));
        Ok(())
    }

    /// A step of hart `number`, which runs a thread of process `pid`.
    pub fn step(&mut self, number: u32, pid: Pid, step: Step)
        ensures { IsAfter self.old number pid (deeds.Steps (step_shown step)) self.new }
    {
        self.change_by_step(number, pid, step);
    }

    /// A call of the heap of hart `number`, which runs a thread of process `pid`, with its answer. An `Err` is
    /// want of memory.
    pub fn serve(
        &mut self,
        alloc: Global,
        number: u32,
        pid: Pid,
        deed: HeapDeed,
        value: Value,
    ) -> Result<(), AllocError>
        ensures { OnOk result (IsAfter self.old number pid (deeds.Heaps (heap_shown deed) value) self.new) }
    {
        self.change_by_heap(alloc, number, pid, deed, value)?;
        Ok(())
    }

    /// Output of hart `number`, which runs a thread of any process. An `Err` is want of memory.
    pub fn write(&mut self, number: u32, bytes: &[u8]) -> Result<(), AllocError>
        ensures { OnOk result ((pid : ℕ) → IsAfter self.old number pid (deeds.Writes bytes.now) self.new) }
    {
        self.change_by_output(number, bytes)?;
        Ok(())
    }

    fn change_by_end(&mut self, pid: Pid, status: u64)
        ensures { self.new ≡ changes.ended pid status self.old }
    {
        set_status(&mut self.processes, pid, Some((status % 64) as u8));
        stop(&mut self.harts, pid);
    }

    /// The end of process `pid`, by any of its harts, with this status, of which 6 bits count.
    pub fn exit(&mut self, pid: Pid, status: u64)
        ensures { (number : ℕ) → IsAfter self.old number pid (deeds.Exits status) self.new }
    {
        self.change_by_end(pid, status);
    }
}
