//! One event of a state.

ghost use Rattle.std.specs.Prelude.{◌≡◌, ◌<◌, IfOk, OnOk, IfSome, Some, slice_get, length};
ghost use Rattle.osc_world.specs.declared.Value as held;
ghost use Rattle.osc_world.specs.States as states;
ghost use Rattle.osc_world.specs.World as world;
ghost use Rattle.osc_world.specs.Events as events;
ghost use Rattle.osc_object.specs.Turns.{turn_from};
ghost use Rattle.osc_object.specs.Decisions.{decided_shown, decided_if};
ghost use Rattle.osc_judge.specs.Judging.{world_after, error_of, pid_of};

use osc_object::{Decided, State, Turn, decide_event};
use osc_word::{Choice, Event, Pid};
use osc_world::ObjectWhy;
use std::alloc::{AllocError, Global};

/// The process of a hart's thread; None exactly where there is no such hart or it runs none.
fn process_of(state: &State, number: u32) -> Option<Pid>
    ensures inside { IfSome result (λ pid. (number < length state.now.harts) × (pid < length state.now.processes)) }
    ensures value { result ≡ pid_of (states.turn_of state.now number) }
{
    let at = number as usize;
    if at >= state.harts.len() {
        return None;
    }
    let pid = state.harts[at].process()?;
    if (pid as usize) < state.processes.len() {
        Some(pid)
    } else {
        None
    }
}

/// What an event of a hart with a thread of process `pid` comes to. An `Err` is want of memory.
fn decide(
    alloc: Global,
    state: &State,
    number: u32,
    pid: Pid,
    choice: Choice,
) -> Result<Decided, AllocError>
    requires hart { number < length state.now.harts }
    requires process { pid < length state.now.processes }
    ensures { IfOk result (λ made. (hart : states.Hart held.Value) → (process : states.Process world.Memory)
        → slice_get state.now.harts number ≡ Some hart → slice_get state.now.processes pid ≡ Some process
        → decided_shown (turn_from state.now number hart pid process) made
        ≡ decided_if (turn_from state.now number hart pid process) choice (events.instr_at (turn_from state.now number hart pid process))) }
{
    let hart = &state.harts[number as usize];
    let process = &state.processes[pid as usize];
    let turn = Turn {
        state,
        number,
        hart,
        pid,
        process,
    };
    let decided = decide_event(alloc, &turn, choice);
    let Turn {
        state: _state,
        number: _number,
        hart: _hart,
        pid: _pid,
        process: _process,
    } = turn;
    let made = decided?;
    Ok(made)
}

/// An event of a hart that runs a thread of process `pid`.
fn judge_thread(
    alloc: Global,
    state: &mut State,
    event: Event,
    pid: Pid,
) -> Result<Option<ObjectWhy>, AllocError>
    requires hart { event.hart < length state.old.harts }
    requires process { pid < length state.old.processes }
    requires turn { Some pid ≡ pid_of (states.turn_of state.old event.hart) }
    ensures error { IfOk result (λ why. why ≡ error_of (events.meaning state.old event)) }
    ensures world { OnOk result (state.new ≡ world_after state.old (events.meaning state.old event)) }
{
    let made = decide(alloc, state, event.hart, pid, event.choice)?;
    match made {
        Decided::Goes(deed) => {
            state.apply(alloc, event.hart, pid, deed)?;
            Ok(None)
        }
        Decided::Errs(why) => Ok(Some(why)),
        Decided::Unfit => Ok(Some(ObjectWhy::Trap)),
    }
}

/// One event. What it means is done, or the state stays and the error is answered; an event that does not fit
/// is a trap. An `Err` is want of memory; what the state then is, is not said.
pub fn judge(
    alloc: Global,
    state: &mut State,
    event: Event,
) -> Result<Option<ObjectWhy>, AllocError>
    ensures error { IfOk result (λ why. why ≡ error_of (events.meaning state.old event)) }
    ensures world { OnOk result (state.new ≡ world_after state.old (events.meaning state.old event)) }
{
    match process_of(state, event.hart) {
        Some(pid) => judge_thread(alloc, state, event, pid),
        None => Ok(Some(ObjectWhy::Trap)),
    }
}
