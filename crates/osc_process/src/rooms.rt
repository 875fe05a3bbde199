//! The rooms of one process.

ghost use Rattle.std.specs.Prelude.{◌≡◌, None, IfOk};
ghost use Rattle.osc_word.specs.Limits.{first_fault};
ghost use Rattle.osc_process.specs.Parts.{unused};

use osc_heap::CanonHeap;
use osc_mark::Marks;
use osc_shadow::Space;
use osc_tables::Tables;
use osc_word::{Config, Pid, Waiting};
use std::alloc::{AllocError, Global};
use std::marker::Model;

/// A process, or the room for one that is not made yet. Ended ones stay.
#[derive(Drop)]
pub struct Process {
    pub(crate) space: Space,
    /// The objects that were freed and are not let go yet.
    pub(crate) waiting: Waiting,
    /// Its mark when it was made: the shadow pages that its parent had granted.
    pub(crate) inherited: u32,
    pub(crate) parent: Option<Pid>,
    /// Once the call of its end has returned: 0 to 63, or 70 for an end by a fault.
    pub(crate) status: Option<u8>,
}

impl Model for Process {
    ghost use Rattle.osc_calls.specs.Kernel.{Process as Kept};
    ghost use Rattle.osc_process.specs.Parts.{process_of};

    ghost Value = { Kept };

    ghost view = { λ p. process_of p.space p.waiting p.inherited p.parent p.status };
}

impl Process {
    /// The room for a process of a machine: no table, no shadow page that is granted, no block, and no
    /// object that waits. It takes all its memory here, and touches what is not used as little as the
    /// allocator does.
    pub fn new(alloc: Global, config: &Config) -> Result<Process, AllocError>
        requires { first_fault config.now ≡ None }
        ensures { IfOk result (λ p. p ≡ unused config.now.levels config.now.frames config.now.shadows) }
    {
        let Config {
            frames,
            shadows,
            levels,
            ..
        } = *config;
        let space = Space {
            tables: Tables::new(alloc, frames, frames + shadows, levels)?,
            marks: Marks::new(alloc, shadows)?,
            heap: CanonHeap::new(alloc, frames)?,
        };
        Ok(Process {
            space,
            waiting: Waiting::new(),
            inherited: 0,
            parent: None,
            status: None,
        })
    }
}
