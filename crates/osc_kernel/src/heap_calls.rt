//! The plans of the calls on the heap.

ghost use Rattle.std.specs.Prelude.{◌≡◌, Some};
ghost use Rattle.osc_release.specs.Outcomes.{found_of};
ghost use Rattle.osc_calls.specs.Kernel.{Process, process_at};
ghost use Rattle.osc_calls.specs.HeapPlans.{free_of, malloc_by, realloc_by, terms_of};
ghost use Rattle.osc_calls.specs.Planned.{closing_effect, outcome_planned};
ghost use Rattle.osc_calls.specs.Refusals.{draft_of};
ghost use Rattle.osc_under_way.specs.Effects.{effect_of};
ghost use Rattle.osc_kernel.specs.Inside.{kernel_of};
ghost use Rattle.osc_kernel.specs.Plans.{CanPlan, IsBeside, RoomsAfter, planned_by};

use crate::commit::Made;
use crate::state::State;
use osc_process::Closing;
use osc_under_way::{Calling, Effect};

/// Plans a malloc of so many bytes.
pub fn plan_malloc(state: &mut State, calling: &Calling, size: u64) -> Made
    requires can { CanPlan state.old calling.now }
    ensures made { (p : Process) → process_at (kernel_of state.old) calling.now.pid ≡ Some p
        → planned_by state.new result ≡ outcome_planned calling.now.pid p (kernel_of state.old)
        (malloc_by state.old.config.heap size (draft_of (kernel_of state.old) p)) }
    ensures rooms { RoomsAfter state.new result }
    ensures rest { IsBeside state.old state.new }
{
    let process = &mut state.processes[calling.pid() as usize];
    let answer = process.malloc(&state.config, size, &mut state.frames, &mut state.jobs);
    Made::answered(answer)
}

/// Boxes are cleared exactly where something is given back.
fn effect_by(closing: &Closing) -> Effect
    ensures { effect_of result ≡ closing_effect closing.now }
{
    match closing.blocks() {
        Some(_) => Effect::Clears,
        None => Effect::Nothing,
    }
}

/// Plans a free, with the header that was found.
pub fn plan_free(state: &mut State, calling: &Calling, pointer: u64, found: [u64; 2]) -> Made
    requires can { CanPlan state.old calling.now }
    ensures made { (p : Process) → process_at (kernel_of state.old) calling.now.pid ≡ Some p
        → planned_by state.new result ≡ outcome_planned calling.now.pid p (kernel_of state.old)
        (free_of state.old.config.heap (terms_of (kernel_of state.old)) pointer (found_of found) (draft_of (kernel_of state.old) p)) }
    ensures rooms { RoomsAfter state.new result }
    ensures rest { IsBeside state.old state.new }
{
    let place = state.journal.len() as u32;
    let process = &mut state.processes[calling.pid() as usize];
    let answer = process.free(
        &state.config,
        pointer,
        found,
        place,
        &mut state.jobs,
        &mut state.closing,
    );
    let effect = effect_by(&state.closing);
    Made { answer, effect }
}

/// Plans a realloc to so many bytes, with the header that was found.
pub fn plan_realloc(
    state: &mut State,
    calling: &Calling,
    pointer: u64,
    size: u64,
    found: [u64; 2],
) -> Made
    requires can { CanPlan state.old calling.now }
    ensures made { (p : Process) → process_at (kernel_of state.old) calling.now.pid ≡ Some p
        → planned_by state.new result ≡ outcome_planned calling.now.pid p (kernel_of state.old)
        (realloc_by state.old.config.heap (terms_of (kernel_of state.old)) pointer size (found_of found) (draft_of (kernel_of state.old) p)) }
    ensures rooms { RoomsAfter state.new result }
    ensures rest { IsBeside state.old state.new }
{
    let place = state.journal.len() as u32;
    let process = &mut state.processes[calling.pid() as usize];
    let answer = process.realloc(
        &state.config,
        pointer,
        size,
        found,
        place,
        &mut state.frames,
        &mut state.jobs,
        &mut state.closing,
    );
    let effect = effect_by(&state.closing);
    Made { answer, effect }
}
