//! The state of a world: its output, its shared pages, and its processes, harts and threads.

use crate::hart::Hart;
use osc_memory::Process;
use osc_values::Row;
use osc_word::Pid;
use osc_world::Value;
use std::marker::Model;

/// A spawned thread: the process that spawned it, and the value that it left.
#[derive(Drop)]
pub struct Thread {
    pub spawner: Pid,
    pub value: Option<Value>,
}

impl Model for Thread {
    ghost use Rattle.osc_world.specs.States.{Thread};
    ghost use Rattle.osc_world.specs.declared.Value as held;

    ghost Value = { Thread held.Value };

    ghost view = { λ t. record { spawner = t.spawner; value = t.value } };
}

impl Thread {
    ghost use Rattle.std.specs.Prelude.{◌≡◌};
    ghost use Rattle.osc_object.specs.Changes as changes;

    /// It leaves this value.
    pub fn leave(&mut self, value: Value)
        ensures { self.new ≡ changes.leaving value self.old }
    {
        self.value = Some(value);
    }
}

/// The state of a world.
#[derive(Drop)]
pub struct State {
    pub output: Vec<u8>,
    pub shared: Vec<Row>,
    pub processes: Vec<Process>,
    pub harts: Vec<Hart>,
    pub threads: Vec<Thread>,
}

impl Model for State {
    ghost use Rattle.osc_world.specs.World.{World};

    ghost Value = { World };

    ghost view = { λ s. record { output = s.output.items; shared = s.shared.items; processes = s.processes.items; harts = s.harts.items; threads = s.threads.items } };
}
