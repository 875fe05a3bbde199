//! How a call begins, once its hart has taken the kernel.

ghost use Rattle.std.specs.Prelude.{◌≡◌, ◌<◌, Some, None, [], length, slice_get};
ghost use Rattle.std.specs.Option.{option_to_list};
ghost use Rattle.osc_calls.specs.declared.HartRecord.TheVariants.{Runs};
ghost use Rattle.osc_calls.specs.Begin as definition;
ghost use Rattle.osc_calls.specs.Kernel.{Leaving, Process, Retrying, has_journal_room, process_at};
ghost use Rattle.osc_calls.specs.Requests.{meant};
ghost use Rattle.osc_ready.specs.Found.{HasProcess};
ghost use Rattle.osc_kernel.specs.declared.state.UnderWay.TheVariants as doing;
ghost use Rattle.osc_kernel.specs.Inside.{kernel_of};
ghost use Rattle.osc_kernel.specs.Sound.{Sound};

use crate::forking::fork_refusal;
use crate::planning::plan_waiting;
use crate::sharing::share_refusal;
use crate::state::{State, UnderWay, process_of};
use crate::waiting::is_ready;
use osc_calls::Begun;
use osc_under_way::{Calling, meant};
use osc_word::{Call, Regs, Request};

/// All boxes, where the call needs them.
fn boxes_where(held: bool) -> Begun
    ensures { result ≡ definition.boxes_where held }
{
    if held { Begun::Boxes } else { Begun::Planned }
}

/// What a call needs before it commits. The work space of forks alone changes.
fn first_step(state: &mut State, calling: &Calling, call: Call) -> Begun
    requires has { HasProcess (kernel_of state.old) calling.now.pid }
    requires names { length state.old.names.items ≡ length state.old.frames }
    ensures begun { (p : Process) → process_at (kernel_of state.old) calling.now.pid ≡ Some p
        → result ≡ definition.first_step calling.now p (kernel_of state.old) call }
    ensures state { state.new ≡ record state.old { names = state.new.names } }
    ensures names { length state.new.names.items ≡ length state.old.names.items }
{
    let pid = calling.pid();
    match call {
        Call::Exit(_) | Call::Write { .. } | Call::End(_) => Begun::Boxes,
        Call::Done(_) => boxes_where(state.records.is_last(pid)),
        Call::Fork => boxes_where(fork_refusal(state, pid).is_none()),
        Call::Share(count) => boxes_where(share_refusal(state, pid, count).is_none()),
        Call::Free(pointer) => process_of(state, pid).free_step(&state.config, pointer),
        Call::Realloc { pointer, .. } => process_of(state, pid).realloc_step(
            &state.config,
            pointer,
        ),
        Call::Malloc(_) | Call::Spawn { .. } | Call::Join(_) | Call::Wait(_) | Call::Unknown(_) =>
            Begun::Planned,
    }
}

/// The hart is to ask again.
fn retry(state: &mut State)
    requires sound { Sound state.old }
    requires quiet { state.old.under_way ≡ doing.Quiet }
    requires jobs { (kernel_of state.old).jobs ≡ [] }
    ensures sound { Sound state.new }
    ensures kernel { kernel_of state.new ≡ record (kernel_of state.old) { under_way = Retrying } }
    ensures shown { state.new.shown ≡ None }
    ensures freed { state.new.freed ≡ state.old.freed }
{
    state.shown = None;
    state.under_way = UnderWay::Retrying;
}

/// A hart leaves: its thread is stopped, or it only reports itself idle.
fn leave(state: &mut State, hart: u32)
    requires sound { Sound state.old }
    requires quiet { state.old.under_way ≡ doing.Quiet }
    requires jobs { (kernel_of state.old).jobs ≡ [] }
    ensures sound { Sound state.new }
    ensures kernel { kernel_of state.new ≡ record (kernel_of state.old) { under_way = Leaving hart } }
    ensures shown { state.new.shown ≡ None }
    ensures freed { state.new.freed ≡ state.old.freed }
{
    state.shown = None;
    state.under_way = UnderWay::Leaving { hart };
}

/// A call of a thread waits; the journal has room for it.
fn wait(state: &mut State, calling: &Calling)
    requires sound { Sound state.old }
    requires quiet { state.old.under_way ≡ doing.Quiet }
    requires jobs { (kernel_of state.old).jobs ≡ [] }
    requires runs { slice_get state.old.records calling.now.hart ≡ Some (Runs calling.now.pid calling.now.thread) }
    requires room { length state.old.journal.items < state.old.config.journal }
    ensures sound { Sound state.new }
    ensures state { state.new ≡ record state.old { under_way = doing.Waiting calling.now } }
{
    state.under_way = UnderWay::Waiting { calling: *calling };
}

/// A call that waits and needs nothing more commits at once.
fn enter(state: &mut State, calling: &Calling, step: Begun)
    requires sound { Sound state.old }
    requires waits { state.old.under_way ≡ doing.Waiting calling.now }
    ensures sound { Sound state.new }
    ensures kernel { kernel_of state.new ≡ (definition.began step (kernel_of state.old)).kernel }
    ensures shown { option_to_list state.new.shown ≡ (definition.began step (kernel_of state.old)).shows }
    ensures freed { state.new.freed ≡ state.old.freed }
{
    match step {
        Begun::Planned => plan_waiting(state, calling, [0, 0]),
        Begun::Again | Begun::JournalFull | Begun::Gone | Begun::Boxes | Begun::Header(_, _) =>
            state.shown = None,
    }
}

/// A call of a thread that is ready, and for which the journal has room, waits for what it needs.
fn go_ahead(state: &mut State, calling: &Calling) -> Begun
    requires sound { Sound state.old }
    requires quiet { state.old.under_way ≡ doing.Quiet }
    requires jobs { (kernel_of state.old).jobs ≡ [] }
    requires runs { slice_get state.old.records calling.now.hart ≡ Some (Runs calling.now.pid calling.now.thread) }
    requires room { length state.old.journal.items < state.old.config.journal }
    ensures sound { Sound state.new }
    ensures begun { (p : Process) → process_at (kernel_of state.old) calling.now.pid ≡ Some p
        → result ≡ definition.first_step calling.now p (kernel_of state.old) (meant calling.now.call) }
    ensures kernel { kernel_of state.new ≡ (definition.begin_as result calling.now (kernel_of state.old)).kernel }
    ensures shown { option_to_list state.new.shown ≡ (definition.begin_as result calling.now (kernel_of state.old)).shows }
    ensures freed { state.new.freed ≡ state.old.freed }
{
    let step = first_step(state, calling, meant(calling.call()));
    wait(state, calling);
    enter(state, calling, step);
    step
}

/// Whether the journal has room for one more call.
fn has_journal_room(state: &State) -> bool
    ensures { result ≡ has_journal_room (kernel_of state.now) }
{
    state.journal.len() < state.config.journal as usize
}

/// A thread asks for a call.
fn begin_call(state: &mut State, calling: &Calling) -> Begun
    requires sound { Sound state.old }
    requires quiet { state.old.under_way ≡ doing.Quiet }
    requires jobs { (kernel_of state.old).jobs ≡ [] }
    requires runs { slice_get state.old.records calling.now.hart ≡ Some (Runs calling.now.pid calling.now.thread) }
    ensures sound { Sound state.new }
    ensures begun { result ≡ definition.begun_in (process_at (kernel_of state.old) calling.now.pid) calling.now (kernel_of state.old) }
    ensures kernel { kernel_of state.new ≡ (definition.begin_as result calling.now (kernel_of state.old)).kernel }
    ensures shown { option_to_list state.new.shown ≡ (definition.begin_as result calling.now (kernel_of state.old)).shows }
    ensures freed { state.new.freed ≡ state.old.freed }
{
    if !is_ready(state, calling.pid(), calling.call()) {
        retry(state);
        return Begun::Again;
    }
    if !has_journal_room(state) {
        retry(state);
        return Begun::JournalFull;
    }
    go_ahead(state, calling)
}

/// A hart with these registers and this pc asks.
pub fn begin(state: &mut State, hart: u32, regs: &Regs, pc: u64, request: Request) -> Begun
    requires sound { Sound state.old }
    requires quiet { state.old.under_way ≡ doing.Quiet }
    requires jobs { (kernel_of state.old).jobs ≡ [] }
    ensures sound { Sound state.new }
    ensures begun { result ≡ (definition.begin hart regs.now pc request (kernel_of state.old)).begun }
    ensures kernel { kernel_of state.new ≡ (definition.begin hart regs.now pc request (kernel_of state.old)).kernel }
    ensures shown { option_to_list state.new.shown ≡ (definition.begin hart regs.now pc request (kernel_of state.old)).shows }
    ensures freed { state.new.freed ≡ state.old.freed }
{
    let kept = state.records.get(hart);
    match Calling::of(hart, regs, pc, request, kept) {
        None => {
            leave(state, hart);
            Begun::Gone
        }
        Some(calling) => begin_call(state, &calling),
    }
}
