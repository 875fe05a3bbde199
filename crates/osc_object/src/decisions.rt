//! What an event does, once it is decided.

ghost use Rattle.std.specs.Prelude.{◌≡◌, slice_get, Ok};
ghost use Rattle.osc_word.specs.Environment.{minus_one};
ghost use Rattle.osc_world.specs.declared.Value.TheVariants.{Num};
ghost use Rattle.osc_world.specs.Deeds as deeds;
ghost use Rattle.osc_world.specs.Offers as offers;
ghost use Rattle.osc_world.specs.Events as events;
ghost use Rattle.osc_object.specs.Turns.{turn_shown, step_shown, shown_by};
ghost use Rattle.osc_object.specs.declared.decisions.Deed.TheVariants.{Steps};
ghost use Rattle.osc_object.specs.Decisions.{deed_shown, decided_shown, decided};

use crate::hart::Hart;
use crate::steps::{Step, sets};
use crate::turn::Turn;
use osc_memory::HeapDeed;
use osc_word::{ANSWER_REGISTER, Choice, MINUS_ONE};
use osc_world::{ObjectWhy, Value};

/// What an event does.
#[derive(Drop)]
pub enum Deed {
    Steps(Step),
    /// A call of the heap.
    Heaps(HeapDeed),
    /// Bytes of output.
    Writes(Vec<u8>),
    /// So many shared pages.
    Shares(u64),
    /// A child on this hart.
    Forks(u32),
    /// A thread on this hart.
    Spawns {
        hart: u32,
        pc: u64,
        sp: Value,
        arg: Value,
    },
    /// The end of the process, with this status, of which 6 bits count.
    Exits(u64),
    /// The end of a thread, which leaves this value.
    Leaves(Value),
}

/// What an event comes to.
#[derive(Drop)]
pub enum Decided {
    Goes(Deed),
    Errs(ObjectWhy),
    /// The event does not fit.
    Unfit,
}

/// A call is answered; no reservation outlasts a call.
pub fn answers(turn: &Turn, value: Value) -> Step
    ensures { deed_shown (turn_shown turn.now) (Steps result) ≡ deeds.answers (turn_shown turn.now) value }
{
    Step {
        reservation: None,
        ..sets(turn, ANSWER_REGISTER, value)
    }
}

/// A deed that leaves nothing to choose.
#[tactic(auto, unfolding(osc_world::specs::Offers::chosen))]
pub fn only(turn: &Turn, choice: Choice, deed: Deed) -> Decided
    ensures { decided_shown (turn_shown turn.now) result ≡ decided (turn_shown turn.now) choice (Ok (offers.Only (deed_shown (turn_shown turn.now) deed))) }
{
    match choice {
        Choice::Plain => Decided::Goes(deed),
        _ => Decided::Unfit,
    }
}

/// A step that leaves nothing to choose.
pub fn only_step(turn: &Turn, choice: Choice, step: Result<Step, ObjectWhy>) -> Decided
    ensures { decided_shown (turn_shown turn.now) result ≡ decided (turn_shown turn.now) choice (events.only_step (shown_by step_shown step)) }
{
    match step {
        Ok(step) => only(turn, choice, Deed::Steps(step)),
        Err(why) => Decided::Errs(why),
    }
}

/// Memory is given, or the call refused, which answers 0.
#[tactic(auto, unfolding(osc_world::specs::Offers::chosen))]
pub fn grants(turn: &Turn, choice: Choice, given: Deed) -> Decided
    ensures { decided_shown (turn_shown turn.now) result ≡ decided (turn_shown turn.now) choice
        (Ok (offers.Grants (offers.Goes (deed_shown (turn_shown turn.now) given)) (deeds.answers (turn_shown turn.now) (Num 0)))) }
{
    match choice {
        Choice::Given => Decided::Goes(given),
        Choice::Refused => Decided::Goes(Deed::Steps(answers(turn, Value::Num(0)))),
        _ => Decided::Unfit,
    }
}

/// Whether there is a hart of this number, and it runs no thread.
pub fn is_idle(harts: &[Hart], hart: u32) -> bool
    ensures { result ≡ offers.is_idle (slice_get harts.now hart) }
{
    let at = hart as usize;
    at < harts.len() && harts[at].process().is_none()
}

/// The answer -1 of a call that is refused for want of a hart or of a number.
pub fn refuses(turn: &Turn) -> Decided
    ensures { decided_shown (turn_shown turn.now) result ≡ offers.Goes (deeds.answers (turn_shown turn.now) (Num minus_one)) }
{
    Decided::Goes(Deed::Steps(answers(turn, Value::Num(MINUS_ONE))))
}

/// The answer of a join or wait; there is none as long as it is not ready.
#[tactic(auto, unfolding(osc_world::specs::Offers::chosen))]
pub fn answers_if(turn: &Turn, choice: Choice, value: Option<Value>) -> Decided
    ensures { decided_shown (turn_shown turn.now) result ≡ decided (turn_shown turn.now) choice (Ok (offers.answers_if (turn_shown turn.now) value)) }
{
    match value {
        Some(value) => only(turn, choice, Deed::Steps(answers(turn, value))),
        None => Decided::Unfit,
    }
}
