//! The plans: each call's one change of the kernel, with which it commits.

ghost use Rattle.std.specs.Prelude.{◌≡◌, false, Some};
ghost use Rattle.std.specs.Option.{option_to_list};
ghost use Rattle.osc_space.specs.Header.{Found};
ghost use Rattle.osc_release.specs.Outcomes.{found_of};
ghost use Rattle.osc_calls.specs.Kernel.{Process, process_at};
ghost use Rattle.osc_kernel.specs.declared.state.UnderWay.TheVariants as doing;
ghost use Rattle.osc_calls.specs.Plan.{plan, plan_meant};
ghost use Rattle.osc_kernel.specs.Inside.{kernel_of};
ghost use Rattle.osc_kernel.specs.Plans.{CanPlan, IsBeside, RoomsAfter, is_waiting, planned_by};
ghost use Rattle.osc_kernel.specs.Sound.{Sound};

use crate::commit::{Made, commit};
use crate::ending::{plan_done, plan_end, plan_exit};
use crate::forking::plan_fork;
use crate::heap_calls::{plan_free, plan_malloc, plan_realloc};
use crate::sharing::{plan_share, plan_write};
use crate::spawning::plan_spawn;
use crate::state::{State, UnderWay};
use crate::waiting::{join_value, wait_value};
use osc_under_way::{Calling, meant};
use osc_word::{Answer, Call};

/// Plans a call. `found` are the words of the header that it read, where it read one.
fn plan_call(state: &mut State, calling: &Calling, call: Call, found: [u64; 2]) -> Made
    requires can { CanPlan state.old calling.now }
    ensures made { (p : Process) → process_at (kernel_of state.old) calling.now.pid ≡ Some p
        → planned_by state.new result ≡ plan_meant (found_of found) calling.now p (kernel_of state.old) call }
    ensures rooms { RoomsAfter state.new result }
    ensures rest { IsBeside state.old state.new }
{
    match call {
        Call::Exit(status) => plan_exit(state, calling, status),
        Call::Write { buf, len } => plan_write(state, calling, buf, len),
        Call::Malloc(size) => plan_malloc(state, calling, size),
        Call::Free(pointer) => plan_free(state, calling, pointer, found),
        Call::Realloc { pointer, size } => plan_realloc(state, calling, pointer, size, found),
        Call::Spawn { pc, sp, arg } => plan_spawn(state, calling, pc, sp, arg),
        Call::Join(number) => Made::answered(join_value(state, calling.pid(), number)),
        Call::Done(value) => plan_done(state, calling, value),
        Call::Share(count) => plan_share(state, calling, count),
        Call::Wait(number) => Made::answered(wait_value(state, calling.pid(), number)),
        Call::Unknown(_) => Made::answered(Answer::Unknown),
        Call::End(fault) => plan_end(state, calling, fault),
        Call::Fork => plan_fork(state, calling),
    }
}

/// The call that waits commits.
pub fn plan_waiting(state: &mut State, calling: &Calling, found: [u64; 2])
    requires sound { Sound state.old }
    requires waits { state.old.under_way ≡ doing.Waiting calling.now }
    ensures sound { Sound state.new }
    ensures kernel { kernel_of state.new ≡ (plan (found_of found) (kernel_of state.old)).kernel }
    ensures shown { option_to_list state.new.shown ≡ (plan (found_of found) (kernel_of state.old)).shows }
    ensures freed { state.new.freed ≡ state.old.freed }
{
    state.closing.keep();
    let made = plan_call(state, calling, meant(calling.call()), found);
    commit(state, calling, made);
}

/// No call waits, so nothing changes and nothing is shown.
fn plan_none(state: &mut State)
    requires sound { Sound state.old }
    requires none { is_waiting state.old.under_way ≡ false }
    ensures sound { Sound state.new }
    ensures kernel { (found : Found) → kernel_of state.new ≡ (plan found (kernel_of state.old)).kernel }
    ensures shown { (found : Found) → option_to_list state.new.shown ≡ (plan found (kernel_of state.old)).shows }
    ensures freed { state.new.freed ≡ state.old.freed }
{
    state.shown = None;
}

/// The call that waits commits; where none waits, nothing changes.
pub fn plan(state: &mut State, found: [u64; 2])
    requires sound { Sound state.old }
    ensures sound { Sound state.new }
    ensures kernel { kernel_of state.new ≡ (plan (found_of found) (kernel_of state.old)).kernel }
    ensures shown { option_to_list state.new.shown ≡ (plan (found_of found) (kernel_of state.old)).shows }
    ensures freed { state.new.freed ≡ state.old.freed }
{
    let under_way = state.under_way;
    match under_way {
        UnderWay::Waiting { calling } => plan_waiting(state, &calling, found),
        UnderWay::Quiet
        | UnderWay::Retrying
        | UnderWay::Leaving { .. }
        | UnderWay::Returning { .. } => plan_none(state),
    }
}
