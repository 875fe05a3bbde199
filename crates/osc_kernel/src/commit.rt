//! The commit of a call, once it is planned.

ghost use Rattle.std.specs.Prelude.{◌≡◌, ◌<◌, ◌≤◌, length};
ghost use Rattle.std.specs.Option.{option_to_list};
ghost use Rattle.std.specs.Vec.{vec_capacity};
ghost use Rattle.osc_calls.specs.Plan.{commit_shown};
ghost use Rattle.osc_under_way.specs.Effects.{effect_of};
ghost use Rattle.osc_under_way.specs.declared.effects.Effect.TheVariants as effects;
ghost use Rattle.osc_calls.specs.Requests.{meant};
ghost use Rattle.osc_ready.specs.Writes.{writes_out};
ghost use Rattle.osc_kernel.specs.Inside.{kernel_of};
ghost use Rattle.osc_kernel.specs.Plans.{RoomsAfter, planned_by};
ghost use Rattle.osc_kernel.specs.Sound.{HasRooms, ending_by};

use crate::state::{State, UnderWay};
use osc_under_way::{Calling, Effect, meant, plan_label};
use osc_word::{Answer, Call};

/// What a plan answers, and what it does to harts and their boxes.
#[derive(Clone, Copy, Debug, PartialEq, Eq)]
pub struct Made {
    pub answer: Answer,
    pub effect: Effect,
}

impl Made {
    /// Nothing but an answer.
    pub fn answered(answer: Answer) -> Made
        ensures { result ≡ record { answer = answer; effect = effects.Nothing } }
    {
        Made {
            answer,
            effect: Effect::Nothing,
        }
    }
}

/// How many bytes the jobs of a plan write out: as many as a write answers.
fn written(call: Call, answer: Answer) -> u32
    requires { writes_out call answer ≤ 4194304 }
    ensures { result ≡ writes_out call answer }
{
    match call {
        Call::Write { .. } => match answer {
            Answer::Number(count) => count as u32,
            _ => 0,
        },
        _ => 0,
    }
}

/// The call is entered in the journal.
pub fn commit(state: &mut State, calling: &Calling, made: Made)
    requires room { length state.old.journal.items < state.old.config.journal }
    requires frames { length state.old.frames ≡ state.old.config.frames }
    requires rooms { RoomsAfter state.old made }
    requires few { writes_out (meant calling.now.call) made.answer ≤ 4194304 }
    ensures kernel { kernel_of state.new ≡ (commit_shown calling.now (planned_by state.old made)).kernel }
    ensures shown { option_to_list state.new.shown ≡ (commit_shown calling.now (planned_by state.old made)).shows }
    ensures rooms { HasRooms (ending_by (kernel_of state.new).under_way) state.new }
    ensures pending { state.new.pending ≡ writes_out (meant calling.now.call) made.answer }
    ensures jobs { state.new.jobs ≡ state.old.jobs }
    ensures done { state.new.done ≡ state.old.done }
    ensures freed { state.new.freed ≡ state.old.freed }
{
    let Made { answer, effect } = made;
    let place = state.journal.len() as u32;
    state.journal.push(calling.entry(answer)).unwrap();
    state.shown = plan_label(calling, place, answer, &effect);
    state.pending = written(meant(calling.call()), answer);
    state.under_way = UnderWay::Returning {
        calling: *calling,
        answer,
        effect,
    };
    state.peak = state
        .peak
        .max(state.config.frames - state.frames.free_count());
}
