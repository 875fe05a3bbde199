//! The end of a call: what it gives back, and how its hart goes on.

ghost use Rattle.std.specs.Prelude.{ℕ, ◌≡◌, ◌<◌, ◌≤◌, ◌-◌, true, Some, None, [], length};
ghost use Rattle.std.specs.Option.{option_to_list};
ghost use Rattle.osc_calls.specs.Finish as definition;
ghost use Rattle.osc_calls.specs.Kernel.{Committed, Process, process_at};
ghost use Rattle.osc_calls.specs.Labels.{answer_shows};
ghost use Rattle.osc_calls.specs.Planned.{with_draft};
ghost use Rattle.osc_calls.specs.Refusals.{draft_of};
ghost use Rattle.osc_process.specs.Returns.{CanEnd, CanReturn};
ghost use Rattle.osc_space.specs.Finish.{ended, finished};
ghost use Rattle.osc_kernel.specs.Inside.{kernel_of};
ghost use Rattle.osc_under_way.specs.Effects.{effect_of};
ghost use Rattle.osc_word.specs.declared.calls.Resume.TheVariants.{Again, Idle};
ghost use Rattle.osc_kernel.specs.Returns.{Settles, asks_again, label_shows};
ghost use Rattle.osc_kernel.specs.Sound.{HasRooms, Sound};
ghost use Rattle.osc_kernel.specs.declared.state.UnderWay.TheVariants as doing;

use crate::state::{State, UnderWay};
use osc_process::{Closing, Process};
use osc_under_way::{Calling, Effect, answer_label, resume};
use osc_word::{Answer, Pid, Resume, Waiting};

/// The objects that a return lets go: all that wait, where something is given back.
fn freed_by(closing: &Closing, process: &Process) -> Waiting
    ensures { result ≡ definition.freed_by closing.now process.now.space.waiting }
{
    match closing.blocks() {
        Some(_) => process.waiting_again(),
        None => Waiting::new(),
    }
}

/// What a call that ends no process gives back.
fn give_back(state: &mut State, pid: Pid)
    requires can { (p : Process) → process_at (kernel_of state.old) pid ≡ Some p → CanReturn state.old.closing p.space state.old.frames }
    requires within { pid < length state.old.processes.items }
    requires rooms { HasRooms 0 state.old }
    ensures kernel { (p : Process) → process_at (kernel_of state.old) pid ≡ Some p
        → kernel_of state.new ≡ with_draft pid p (finished state.old.closing (draft_of (kernel_of state.old) p)) (kernel_of state.old) }
    ensures rooms { HasRooms 0 state.new }
    ensures rest { state.new ≡ record state.old { frames = state.new.frames; processes = state.new.processes } }
{
    let process = &mut state.processes[pid as usize];
    process.finish(&state.closing, &mut state.frames);
}

/// A process ends with this status.
fn end(state: &mut State, pid: Pid, status: u8)
    requires can { (p : Process) → process_at (kernel_of state.old) pid ≡ Some p
        → CanEnd state.old.regions p.space state.old.frames × (p.status ≡ None) }
    requires within { pid < length state.old.processes.items }
    requires rooms { HasRooms 1 state.old }
    ensures kernel { (p : Process) → process_at (kernel_of state.old) pid ≡ Some p
        → kernel_of state.new ≡ definition.with_ended pid status p (ended state.old.regions p.space state.old.frames) (kernel_of state.old) }
    ensures rooms { HasRooms 0 state.new }
    ensures rest { state.new ≡ record state.old {
      frames = state.new.frames;
      regions = state.new.regions;
      processes = state.new.processes;
      unended = state.new.unended;
    } }
{
    let process = &mut state.processes[pid as usize];
    process.end(status, &mut state.regions, &mut state.frames);
    state.unended -= 1;
}

/// A call that is committed returns what it gives back, or ends its process.
fn settle(state: &mut State, pid: Pid, effect: &Effect)
    requires can { Settles state.old pid effect.now }
    ensures kernel { (p : Process) (done : Committed) → done.calling.pid ≡ pid → done.closing ≡ state.old.closing
        → process_at (kernel_of state.old) pid ≡ Some p
        → kernel_of state.new ≡ definition.settled done p (effect_of effect.now) (kernel_of state.old) }
    ensures rooms { HasRooms 0 state.new }
    ensures rest { state.new ≡ record state.old {
      frames = state.new.frames;
      regions = state.new.regions;
      processes = state.new.processes;
      unended = state.new.unended;
    } }
{
    match effect {
        Effect::Ends { status } => end(state, pid, *status),
        Effect::Nothing | Effect::Clears | Effect::Starts { .. } => give_back(state, pid),
    }
}

/// How the hart of a call goes on, and what the return shows.
fn answer(state: &mut State, calling: &Calling, answer: Answer) -> Resume
    requires within { calling.now.pid < length state.old.processes.items }
    requires some { 0 < length state.old.journal.items }
    requires few { length state.old.journal.items ≤ 1048576 }
    ensures resume { (p : Process) → process_at (kernel_of state.old) calling.now.pid ≡ Some p
        → result ≡ definition.resume_of p.space.objects calling.now.call answer }
    ensures shown { (p : Process) → process_at (kernel_of state.old) calling.now.pid ≡ Some p
        → option_to_list state.new.shown ≡ answer_shows calling.now.pid (length state.old.journal.items - 1) p.space.objects answer }
    ensures freed { (p : Process) → process_at (kernel_of state.old) calling.now.pid ≡ Some p
        → state.new.freed ≡ definition.freed_by state.old.closing p.space.waiting }
    ensures rest { state.new ≡ record state.old { shown = state.new.shown; freed = state.new.freed } }
{
    let pid = calling.pid();
    let place = state.journal.len() as u32 - 1;
    let process = &state.processes[pid as usize];
    state.shown = answer_label(pid, place, process.marks(), answer);
    state.freed = freed_by(&state.closing, process);
    resume(process.marks(), calling.call(), answer)
}

/// A call that is committed returns.
fn return_call(state: &mut State, calling: &Calling, given: Answer, effect: &Effect) -> Resume
    requires sound { Sound state.old }
    requires returns { state.old.under_way ≡ doing.Returning calling.now given effect.now }
    requires jobs { (kernel_of state.old).jobs ≡ [] }
    ensures sound { Sound state.new }
    ensures kernel { kernel_of state.new ≡ (definition.finish (kernel_of state.old)).kernel }
    ensures resume { result ≡ (definition.finish (kernel_of state.old)).resume }
    ensures freed { state.new.freed ≡ (definition.finish (kernel_of state.old)).freed }
    ensures shown { option_to_list state.new.shown ≡ label_shows (kernel_of state.old) }
{
    let resume = answer(state, calling, given);
    settle(state, calling.pid(), effect);
    state.under_way = UnderWay::Quiet;
    resume
}

/// The kernel is given back by a hart that leaves.
fn leave(state: &mut State, hart: u32)
    requires sound { Sound state.old }
    requires leaves { state.old.under_way ≡ doing.Leaving hart }
    requires jobs { (kernel_of state.old).jobs ≡ [] }
    ensures sound { Sound state.new }
    ensures kernel { kernel_of state.new ≡ (definition.finish (kernel_of state.old)).kernel }
    ensures resume { Idle ≡ (definition.finish (kernel_of state.old)).resume }
    ensures freed { state.new.freed ≡ (definition.finish (kernel_of state.old)).freed }
    ensures shown { option_to_list state.new.shown ≡ label_shows (kernel_of state.old) }
{
    state.shown = None;
    state.freed.clear();
    state.records.leave(hart);
    state.under_way = UnderWay::Quiet;
}

/// The kernel is given back by a hart that asks again.
fn give_up(state: &mut State)
    requires sound { Sound state.old }
    requires again { asks_again state.old.under_way ≡ true }
    requires jobs { (kernel_of state.old).jobs ≡ [] }
    ensures sound { Sound state.new }
    ensures kernel { kernel_of state.new ≡ (definition.finish (kernel_of state.old)).kernel }
    ensures resume { Again ≡ (definition.finish (kernel_of state.old)).resume }
    ensures freed { state.new.freed ≡ (definition.finish (kernel_of state.old)).freed }
    ensures shown { option_to_list state.new.shown ≡ label_shows (kernel_of state.old) }
{
    state.shown = None;
    state.freed.clear();
    state.under_way = UnderWay::Quiet;
}

/// The kernel is given back.
pub fn finish(state: &mut State) -> Resume
    requires sound { Sound state.old }
    requires jobs { (kernel_of state.old).jobs ≡ [] }
    ensures sound { Sound state.new }
    ensures kernel { kernel_of state.new ≡ (definition.finish (kernel_of state.old)).kernel }
    ensures resume { result ≡ (definition.finish (kernel_of state.old)).resume }
    ensures freed { state.new.freed ≡ (definition.finish (kernel_of state.old)).freed }
    ensures shown { option_to_list state.new.shown ≡ label_shows (kernel_of state.old) }
{
    let under_way = state.under_way;
    match under_way {
        UnderWay::Returning {
            calling,
            answer,
            effect,
        } => return_call(state, &calling, answer, &effect),
        UnderWay::Leaving { hart } => {
            leave(state, hart);
            Resume::Idle
        }
        UnderWay::Quiet | UnderWay::Retrying | UnderWay::Waiting { .. } => {
            give_up(state);
            Resume::Again
        }
    }
}
